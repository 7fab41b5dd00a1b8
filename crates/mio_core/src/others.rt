//! Whether the file of an ended epoch tells what the journal does.

ghost use Rattle.std.specs.Prelude.{◌≡◌, ◌≤◌, length, true};

use crate::traces::epoch_in;
use keep_loop::folder::are_zeros;
use keep_loop::journal::recovered_len;
use std::fs::{self, File};
use std::io::{self, ErrorKind, Read};
use std::os::unix::fs::MetadataExt;
use std::rt::Files;

// Whether these bytes are these lines, and bytes 0 behind them.
fn tells(bytes: &[u8], lines: &[u8]) -> bool {
    match bytes.strip_prefix(lines) {
        Some(behind) => are_zeros(behind),
        None => false,
    }
}

fn read_all<R: Files + AllocGlobal>(rt: &R, path: &str) -> io::Result<Vec<u8>> {
    let mut file = File::open(rt, path)?;
    let mut bytes = Vec::new(rt.alloc());
    file.read_to_end(&mut bytes)?;
    Ok(bytes)
}

// Whether two names are of one file.
fn is_one<R: Files>(rt: &R, first: &str, second: &str) -> io::Result<bool> {
    let first = fs::metadata(rt, first)?;
    let second = fs::metadata(rt, second)?;
    Ok(first.ino() == second.ino() && first.dev() == second.dev())
}

/// Whether the file at one path tells the same as the journal at another one: it is the same file, or has its lines, and
/// behind them bytes 0 alone. The error is that of the system, or a want of memory.
pub(crate) fn tells_same<R: Files + AllocGlobal>(
    rt: &R,
    trace: &str,
    journal: &str,
) -> io::Result<bool> {
    if is_one(rt, trace, journal)? {
        return Ok(true);
    }
    let journal = read_all(rt, journal)?;
    let trace = read_all(rt, trace)?;
    Ok(tells(&trace, &journal[..recovered_len(&journal)]))
}

// The least number of a file of an ended epoch of this object, of those behind this one.
fn first_behind<R: Files + AllocGlobal + Copy + Drop>(
    rt: R,
    folder: &str,
    name: &str,
    epoch: u64,
) -> io::Result<Option<u64>> {
    let mut found: Option<u64> = None;
    for entry in fs::read_dir(&rt, folder)? {
        let entry = entry?;
        if let Some(number) = epoch_in(entry.file_name().as_bytes(), name.as_bytes()) {
            if number > epoch {
                found = Some(found.unwrap_or(number).min(number));
            }
        }
    }
    Ok(found)
}

// Whether the file of this epoch has other bytes than these lines and, behind them, bytes 0; it may be that of the journal.
// One that has no byte behind its lines was cut to them, since a later epoch had begun.
fn is_other<R: Files + AllocGlobal>(
    rt: &R,
    trace: &str,
    journal: &str,
    lines: &[u8],
) -> io::Result<bool> {
    match fs::metadata(rt, trace) {
        Ok(found) => {
            if !found.is_file() || is_one(rt, trace, journal)? {
                return Ok(false);
            }
        }
        Err(error) => {
            if error.kind() == ErrorKind::NotFound {
                return Ok(false);
            }
            return Err(error);
        }
    }
    let bytes = read_all(rt, trace)?;
    Ok(bytes.len() == lines.len() || !tells(&bytes, lines))
}

/// The number of the first file of an ended epoch of an object, of those from this epoch on, which tells of another history
/// than its journal, which is in this epoch and has these lines, with those by which it checks itself. A file of this
/// epoch that is the journal's own, or has its lines and behind them some bytes 0, is what a crash leaves that comes within
/// a change: `None`, as where there is none. One that was cut to the lines is of an epoch behind which another one began:
/// the journal is an older one, put back. The error is that of the system, or a want of memory.
pub fn other_history<R: Files + AllocGlobal + Copy + Drop>(
    rt: R,
    folder: &str,
    name: &str,
    epoch: u64,
    lines: &[u8],
) -> io::Result<Option<u64>> {
    let alloc = rt.alloc();
    let trace = format!(in alloc; "{folder}/{name}.{epoch:06}.trace")?;
    let journal = format!(in alloc; "{folder}/{name}.journal")?;
    if is_other(&rt, trace.as_str(), journal.as_str(), lines)? {
        return Ok(Some(epoch));
    }
    first_behind(rt, folder, name, epoch)
}
