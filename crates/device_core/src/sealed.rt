//! The small files that the hands of a folder sealed last.

ghost use Rattle.std.specs.Prelude.{◌≡◌, IfOk};
ghost use Rattle.device_core.specs.Sealed.{HasRoom};

use crate::hand::Stamp;
use std::alloc::{AllocError, Global};
use std::sync::Mutex;

// How many files are kept.
const MOST_FILES: usize = 8;

/// The most bytes that a file has which is kept.
pub(crate) const MOST_BYTES: usize = 4096;

// A file, or none where it has no number.
#[derive(Drop)]
struct SealedFile {
    number: Option<u64>,
    bytes: Vec<u8>,
}

// The files, and the place of the one that was kept longest.
#[derive(Drop)]
struct SealedFiles {
    files: Vec<SealedFile>,
    oldest: usize,
}

// Room for the files, none of which is kept.
fn none_kept(alloc: Global) -> Result<SealedFiles, AllocError>
    ensures { IfOk result (λ row. HasRoom row.files.items × (row.oldest ≡ 0)) }
{
    let mut files = Vec::with_capacity(alloc, MOST_FILES)?;
    for _ in 0..MOST_FILES {
        let bytes = Vec::with_capacity(alloc, MOST_BYTES)?;
        let kept = SealedFile {
            number: None,
            bytes,
        };
        if files.push(kept).is_err() {
            return Err(AllocError);
        }
    }
    Ok(SealedFiles { files, oldest: 0 })
}

/// What the hands of one folder sealed last, so that a file which one of them wrote is read by another one without the
/// system: the last 8 files of at most 4,096 bytes. A file does not change once it is sealed, and its number is
/// that of no other one.
///
/// Nobody waits for it: where another thread is at it, nothing is kept, or found, or forgotten.
#[derive(Drop)]
pub struct Sealed {
    row: Mutex<SealedFiles>,
}

impl Sealed {
    /// Room for the files. Nothing is kept yet.
    pub fn new(alloc: Global) -> Result<Sealed, AllocError> {
        let row = Mutex::new(none_kept(alloc)?);
        Ok(Sealed { row })
    }

    // Keeps a file that was sealed, in place of the one that was kept longest.
    pub(crate) fn keep(&self, number: u64, bytes: &[u8]) {
        if bytes.len() > MOST_BYTES {
            return;
        }
        let Some(mut row) = self.row.try_lock() else {
            return;
        };
        let place = row.oldest;
        let Some(kept) = row.files.get_mut(place) else {
            return;
        };
        kept.number = None;
        kept.bytes.clear();
        if kept.bytes.extend_from_slice(bytes).is_ok() {
            kept.number = Some(number);
        }
        row.oldest = (place + 1) % MOST_FILES;
    }

    // Reads at a place of a file that is kept. Where it is not, or is shorter than its stamp says, it answers false.
    pub(crate) fn read(&self, stamp: &Stamp, at: usize, into: &mut [u8]) -> bool {
        let Some(row) = self.row.try_lock() else {
            return false;
        };
        for kept in row.files.iter() {
            if kept.number == Some(stamp.number) {
                return copy_from(&kept.bytes, stamp.len, at, into);
            }
        }
        false
    }

    // A file that was removed is kept no more.
    pub(crate) fn forget(&self, number: u64) {
        let Some(mut row) = self.row.try_lock() else {
            return;
        };
        for kept in row.files.iter_mut() {
            if kept.number == Some(number) {
                kept.number = None;
            }
        }
    }
}

// Copies what stands at a place of a file that has so many bytes at least.
fn copy_from(bytes: &[u8], len: usize, at: usize, into: &mut [u8]) -> bool {
    if len > bytes.len() || at > bytes.len() {
        return false;
    }
    let rest = &bytes[at..];
    if into.len() > rest.len() {
        return false;
    }
    into.copy_from_slice(&rest[..into.len()]);
    true
}
