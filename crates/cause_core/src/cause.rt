//! Why a call of the system failed.

ghost use Rattle.std.specs.Prelude.{◌≡◌, ◌++◌, OnOk};
ghost use Rattle.std.specs.IoError.{error_kind, raw_os_error};
ghost use Rattle.cause_core.specs.Causes.{cause_in, cause_text, numbered, the_cause};
ghost use Rattle.cause_core.specs.Causes.{cause_of_kind as the_cause_of_kind, cause_words as the_cause_words};

use std::alloc::AllocError;
use std::io::{self, ErrorKind};

/// Why a call of the system failed, as far as it says.
#[derive(Clone, Copy, Debug, PartialEq, Eq)]
pub enum Cause {
    NotThere,
    NoPermission,
    IsFolder,
    NoFolder,
    /// Neither a file nor a folder: a pipe, a device, or a socket.
    NoFile,
    NoSocket,
    /// Something is there already that may not be replaced.
    InPlace,
    Taken,
    LinkCircle,
    LongName,
    ReadOnly,
    DiskFull,
    QuotaFull,
    TooLarge,
    DiskFailed,
    ManyFiles,
    /// The system gives a user no more of something.
    UserLimit,
    NoMemory,
    /// The system says nothing that has words.
    Unknown,
}

/// Why a call failed, by the kind of its error alone.
pub fn cause_of_kind(kind: ErrorKind) -> Cause
    ensures { result ≡ the_cause_of_kind kind }
{
    match kind {
        ErrorKind::NotFound => Cause::NotThere,
        ErrorKind::PermissionDenied => Cause::NoPermission,
        ErrorKind::IsADirectory => Cause::IsFolder,
        ErrorKind::NotADirectory => Cause::NoFolder,
        ErrorKind::NotSeekable => Cause::NoFile,
        ErrorKind::AlreadyExists => Cause::InPlace,
        ErrorKind::AddrInUse => Cause::Taken,
        ErrorKind::FilesystemLoop => Cause::LinkCircle,
        ErrorKind::InvalidFilename => Cause::LongName,
        ErrorKind::ReadOnlyFilesystem => Cause::ReadOnly,
        ErrorKind::StorageFull => Cause::DiskFull,
        ErrorKind::QuotaExceeded => Cause::QuotaFull,
        ErrorKind::FileTooLarge => Cause::TooLarge,
        ErrorKind::OutOfMemory => Cause::NoMemory,
        _ => Cause::Unknown,
    }
}

// Why a call failed, by the number of its error, where that is of no kind; else the other one.
fn cause_of_number(number: u32, other: Cause) -> Cause
    ensures { result ≡ cause_in numbered number other }
{
    match number {
        5 => Cause::DiskFailed,
        23 => Cause::ManyFiles,
        24 => Cause::ManyFiles,
        _ => other,
    }
}

/// Why a call failed that ended with this error.
pub fn cause_of(error: &io::Error) -> Cause
    ensures { result ≡ the_cause (raw_os_error error.now) (error_kind error.now) }
{
    let other = cause_of_kind(error.kind());
    match error.raw_os_error() {
        Some(number) => {
            if number < 0 {
                other
            } else {
                cause_of_number(number.unsigned_abs(), other)
            }
        }
        None => other,
    }
}

/// The words of a cause.
pub fn cause_words(cause: Cause) -> &'static [u8]
    ensures { result.now ≡ the_cause_words cause }
{
    match cause {
        Cause::NotThere => b"it is not there",
        Cause::NoPermission => b"there is no permission",
        Cause::IsFolder => b"it is a folder",
        Cause::NoFolder => b"it is no folder",
        Cause::NoFile => b"it is no file",
        Cause::NoSocket => b"it is no socket",
        Cause::InPlace => b"something else is in its place",
        Cause::Taken => b"it is taken",
        Cause::LinkCircle => b"its links go in a circle",
        Cause::LongName => b"its name is too long",
        Cause::ReadOnly => b"the disk takes no changes",
        Cause::DiskFull => b"the disk is full",
        Cause::QuotaFull => b"the quota is used up",
        Cause::TooLarge => b"no file may be so large",
        Cause::DiskFailed => b"the disk failed",
        Cause::ManyFiles => b"there are too many open files",
        Cause::UserLimit => b"a limit of its user is reached",
        Cause::NoMemory => b"there is no memory",
        Cause::Unknown => b"unknown",
    }
}

// A sign and the words of a cause.
fn push_words(out: &mut Vec<u8>, sign: &[u8], cause: Cause) -> Result<(), AllocError>
    ensures { OnOk result (out.new.items ≡ out.old.items ++ (sign.now ++ the_cause_words cause)) }
{
    out.extend_from_slice(sign)?;
    out.extend_from_slice(cause_words(cause))?;
    Ok(())
}

/// Adds a sign and the words of a cause; nothing, where the system said nothing that has words. The error is that memory
/// was refused.
pub fn push_cause(out: &mut Vec<u8>, sign: &[u8], cause: Cause) -> Result<(), AllocError>
    ensures { OnOk result (out.new.items ≡ out.old.items ++ cause_text sign.now cause) }
{
    match cause {
        Cause::Unknown => Ok(()),
        known => push_words(out, sign, known),
    }
}

/// What knows why its calls fail.
pub trait Caused {
    /// Why the last of its calls failed that did, or could not do what it was to.
    fn cause(&self) -> Cause;
}
