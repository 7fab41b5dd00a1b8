//! Whether a folder is that of a server that stays.

use std::{fs, io};

/// Whether a folder has a journal of an object that is kept: a file `NAME.journal` that is not empty. The error is that of
/// the system, or a want of memory.
pub fn is_kept(rt: &HostRuntime, folder: &str) -> io::Result<bool> {
    for entry in fs::read_dir(rt, folder)? {
        let entry = entry?;
        if entry.file_name().ends_with(".journal") && is_begun(rt, folder, entry.file_name())? {
            return Ok(true);
        }
    }
    Ok(false)
}

// Whether a file of a folder is not empty.
fn is_begun(rt: &HostRuntime, folder: &str, name: &str) -> io::Result<bool> {
    let path = format!(in rt.alloc(); "{folder}/{name}")?;
    Ok(fs::metadata(rt, path.as_str())?.len() > 0)
}
