//! Why a session hears nothing more.

/// What the reading thread met.
#[derive(Clone, Copy, Debug, PartialEq, Eq)]
pub enum HearFault {
    /// A line has more than 4,096 bytes.
    LineTooLong,
    /// A read failed.
    ReadFault,
    /// Memory was refused.
    Memory,
}
