//! Lines and columns of a source.

ghost use Rattle.std.specs.Prelude.{◌≡◌, ◌<◌, ◌+◌, ◌^◌, take};
ghost use Rattle.note_core.specs.Places.{column_after, column_behind, column_of, line_after, line_behind, line_of};

/// Where a byte of a source stands.
#[derive(Clone, Copy, Debug, PartialEq, Eq)]
pub struct Position {
    /// The line, from 1; a line feed ends a line.
    pub line: usize,
    /// The column, from 1. Columns count bytes: a TAB is one, and so is each byte of a character outside ASCII.
    pub column: usize,
}

// The line behind a byte.
fn next_line(line: usize, byte: u8) -> usize
    requires { line + 1 < 2 ^ 64 }
    ensures { result ≡ line_behind line byte }
{
    if byte == b'\n' { line + 1 } else { line }
}

// The column behind a byte.
fn next_column(column: usize, byte: u8) -> usize
    requires { column + 1 < 2 ^ 64 }
    ensures { result ≡ column_behind column byte }
{
    if byte == b'\n' { 1 } else { column + 1 }
}

// The place behind these bytes of a source.
fn place_behind(before: &[u8]) -> Position
    ensures line { result.line ≡ line_after 1 before.now }
    ensures column { result.column ≡ column_after 1 before.now }
{
    let mut line = 1;
    let mut column = 1;
    let mut rest = before;
    'bytes: while let [byte, tail @ ..] = rest {
        line = next_line(line, *byte);
        column = next_column(column, *byte);
        rest = tail;
    }
    Position { line, column }
}

// The first bytes of a source, so many at most.
fn front(source: &[u8], at: usize) -> &[u8]
    ensures { result.now ≡ take at source.now }
{
    if at < source.len() {
        &source[..at]
    } else {
        source
    }
}

/// The place of a byte of a source, counted from 0; that of its end for each byte behind it.
pub fn place_of(source: &[u8], at: usize) -> Position
    ensures line { result.line ≡ line_of source.now at }
    ensures column { result.column ≡ column_of source.now at }
{
    place_behind(front(source, at))
}
