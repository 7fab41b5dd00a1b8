//! The names of the files of a command.

/// The names of the two files of a command, as notes tell them.
#[derive(Clone, Copy)]
pub struct Files<'a> {
    /// The file with the objects.
    pub source: &'a str,
    /// The script, or the trace.
    pub text: &'a str,
}
