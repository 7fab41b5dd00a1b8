//! What a start tells on standard error, and goes on.

ghost use Rattle.std.specs.Prelude.{◌≡◌, ◌++◌, IfOk};
ghost use Rattle.keep_tool.specs.Notes.{shared_text};

use keep_log::log::Log;
use mio_core::own::is_own;
use std::alloc::{AllocError, Global};
use std::fs;
use std::io::Write;
use std::os::unix::fs::MetadataExt;
use value_core::write_whole;

/// Tells a line that ends with its LF: the log in a line of its own, where there is one, else `error`.
pub(crate) fn note<E: Write, L: Write>(line: &[u8], error: &mut E, log: &mut Log<HostRuntime, L>) {
    if log.is_on() {
        log.notice(line.strip_suffix(b"\n").unwrap_or(line));
        return;
    }
    let _ = write_whole(error, line);
}

// What is told of a folder which others than its owner can read or enter.
fn shared_line(alloc: Global, folder: &str) -> Result<Vec<u8>, AllocError>
    ensures { IfOk result (λ line. line.items ≡ folder.now ++ shared_text) }
{
    let mut line = Vec::new(alloc);
    line.extend_from_slice(folder.as_bytes())?;
    line.extend_from_slice(b": others can read or lock this folder: give it the mode 700\n")?;
    Ok(line)
}

/// Tells of a folder, where others than its owner can read or enter it.
pub(crate) fn note_shared<E: Write, L: Write>(
    rt: &HostRuntime,
    folder: &str,
    error: &mut E,
    log: &mut Log<HostRuntime, L>,
) -> Result<(), AllocError> {
    if let Ok(found) = fs::metadata(rt, folder) {
        if !is_own(found.mode()) {
            note(&shared_line(rt.alloc(), folder)?, error, log);
        }
    }
    Ok(())
}

// Whether one of these names is this one.
fn has(names: &[String], name: &str) -> bool {
    names.iter().any(|one| one.as_str() == name)
}

/// Tells of each of these journals that is of no object of these names: `DIR/NAME.journal: FILE has no object of this name`.
pub(crate) fn note_strangers<E: Write, L: Write>(
    alloc: Global,
    folder: &str,
    journals: &[String],
    names: &[String],
    error: &mut E,
    log: &mut Log<HostRuntime, L>,
) -> Result<(), AllocError> {
    for journal in journals {
        if !has(names, journal.as_str()) {
            let name = journal.as_str();
            let line = format!(in alloc;
                "{folder}/{name}.journal: FILE has no object of this name\n"
            )?;
            note(line.as_bytes(), error, log);
        }
    }
    Ok(())
}
