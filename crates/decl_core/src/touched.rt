//! Sets of parts.

/// The parts that an operation touches, as bits: bit p stands for part p.
#[derive(Clone, Copy, Debug, PartialEq, Eq)]
pub struct Footprint {
    /// The parts that its text names.
    pub reads: u16,
    /// The parts that a statement of it changes.
    pub writes: u16,
}
