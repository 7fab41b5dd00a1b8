//! Why a session ended.

/// Why a session ended, where it was not by `quit` or the end of its input.
#[derive(Clone, Copy, Debug, PartialEq, Eq)]
pub enum SessionFault {
    /// A line has more than 4,096 bytes.
    LineTooLong,
    /// A read failed.
    ReadFault,
    /// A write failed. The lines that were written are whole but for the last one.
    WriteFault,
    /// Memory was refused. Lines may be missing at the end.
    Memory,
    /// A line was said where it may not stand, or the last lines that were written are not those of the receipts.
    LogMixed,
}
