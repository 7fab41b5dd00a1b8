//! Files of journals that end too early.

use crate::outside::ROOM;
use keep_loop::check_lines::FRONT_WORD;
use keep_loop::journal::CHECK_ROOM;

// How many bytes the front has in these lines, with the one that checks it.
fn front_len(lines: &[u8]) -> usize {
    let mut begin = 0;
    for at in 0..lines.len() {
        if lines[at] == b'\n' {
            if let Some(line) = lines.get(begin..at) {
                if line.starts_with(FRONT_WORD) {
                    return at + 1;
                }
            }
            begin = at + 1;
        }
    }
    lines.len()
}

/// Whether the file of a journal, of which so many bytes are whole lines, ends before the room that each has behind its
/// front: a part of it is gone, as where a copy met a full disk.
pub(crate) fn is_short(file: &[u8], size: usize) -> bool {
    let lines = file.get(..size).unwrap_or(file);
    let least = front_len(lines)
        .saturating_add(ROOM)
        .saturating_add(CHECK_ROOM);
    file.len() < least
}
