//! The file of a journal, taken: what its lines are, or at which line it is not as it was written.

ghost use Rattle.std.specs.Prelude.{◌≡◌, ◌⊎◌, ◌<◌, ◌≤◌, ◌+◌, ◌-◌, ◌++◌, ◌∷◌, [], List, ℕ, true, false, length, take, drop, codes, IfOk, MatchOption};
ghost use Rattle.keep_loop.specs.Journal.{whole, written, recovered, AreLines};
ghost use Rattle.keep_loop.specs.Taken.{NoZero, cut, is_check, begins_with, plain, without_form, Names, Spells, SaysMore, HasMore, IsChecked, IsTaken, taken};
ghost use Rattle.taken_core.specs.TakeFile.{Tests, IsOfForm, IsBare, IsPlaceOf, Lacks, Answers, TellsLines, counted, count_solid};

use crate::checked::Checked;
use crate::format::{format_of, read_size};
use keep_loop::check_lines::{STORED_WORD, begins_with, is_check};
use keep_loop::cut::{cut_first, split_line};
use keep_loop::head::{FORMAT, FORMAT_WORD, head_of, without_form};
use keep_loop::journal::recovered_len;
use std::alloc::{AllocError, Global};

/// What a file tells.
#[derive(Drop)]
pub struct TakenFile {
    /// Its format: 1 where line 1 says none.
    pub format: u64,
    /// Its lines, without those by which it checks itself, and line 1 without a format.
    pub lines: Vec<u8>,
    /// The bytes of its whole lines in the file.
    pub size: usize,
    /// How many bytes behind these are not 0.
    pub behind: usize,
}

/// Why a file is not taken.
#[derive(Clone, Copy, Debug, PartialEq, Eq)]
pub enum TakeFault {
    /// This line of the file, from 1 on, is not as it was written, or is missing.
    Line(u64),
    /// It has this format, which is not known here.
    Format(u64),
    /// Behind this line of the file so many bytes are not 0, and they say that more was stored than stands there.
    Behind(u64, usize),
}

// One more, where a byte is not 0.
fn count_one(count: usize, byte: u8) -> usize
    ensures { result ≡ counted (count + count_solid (byte ∷ [])) }
{
    if byte == 0 {
        return count;
    }
    count.saturating_add(1)
}

// How many of these bytes are not 0.
fn count_written(bytes: &[u8]) -> usize
    ensures { result ≡ counted (count_solid bytes.now) }
{
    let mut rest = bytes;
    let mut count: usize = 0;
    while let Some((byte, more)) = rest.split_first() {
        count = count_one(count, *byte);
        rest = more;
    }
    count
}

// What stands before the first byte 0, and what stands behind it.
fn split_zero(file: &[u8]) -> Option<(&[u8], &[u8])>
    ensures { MatchOption result (NoZero file.now) (λ parts. NoZero parts.0.now
        × (file.now ≡ parts.0.now ++ 0 ∷ parts.1.now)) }
{
    let at = file.iter().position(|b| *b == 0)?;
    Some((&file[..at], &file[at + 1..]))
}

// How many bytes stand before the first that is 0.
fn written_len(file: &[u8]) -> usize
    ensures length { result ≤ length file.now }
    ensures written { result ≡ length (written file.now) }
{
    match split_zero(file) {
        Some((front, _)) => front.len(),
        None => file.len(),
    }
}

// Whether a text begins with a line that says that more bytes than these were stored.
fn says_more(expected: &mut Vec<u8>, text: &[u8], written: usize) -> Result<bool, AllocError>
    ensures { IfOk result (λ is. Tests is (SaysMore text.now written)) }
{
    match read_size(expected, STORED_WORD, text)? {
        Some(size) => {
            if size > written as u64 {
                return Ok(true);
            }
            Ok(false)
        }
        None => Ok(false),
    }
}

// Whether a line behind a line feed of these bytes, which stand behind so many that are written, says that more were stored.
fn is_lost(alloc: Global, text: &[u8], written: usize) -> Result<bool, AllocError>
    ensures { IfOk result (λ is. Tests is (HasMore text.now written)) }
{
    let mut expected = Vec::new(alloc);
    let mut rest = text;
    while let Some((_, more)) = split_line(rest) {
        if says_more(&mut expected, more, written)? {
            return Ok(true);
        }
        rest = more;
    }
    Ok(false)
}

// Whether something lacks that was stored, where no cut is accepted.
fn is_cut(alloc: Global, file: &[u8], accepts_cut: bool) -> Result<bool, AllocError>
    ensures { IfOk result (λ is. Tests is ((accepts_cut ≡ false) × Lacks file.now)) }
{
    if accepts_cut {
        return Ok(false);
    }
    let written = written_len(file);
    if is_lost(alloc, &file[written..], written)? {
        return Ok(true);
    }
    Ok(false)
}

// What a file tells that checks itself: these are its lines but the check lines.
fn tell_checked(
    alloc: Global,
    file: &[u8],
    size: usize,
    lines: &[u8],
) -> Result<TakenFile, AllocError>
    requires { size ≤ length file.now }
    ensures { IfOk result (λ told. (told.format ≡ 2) × (told.size ≡ size) × (told.behind ≡ counted (count_solid (drop size file.now)))
        × (told.lines.items ≡ without_form 2 lines.now)) }
{
    Ok(TakenFile {
        format: FORMAT,
        lines: without_form(alloc, lines)?,
        size,
        behind: count_written(&file[size..]),
    })
}

// Takes a file whose lines are right: so many, and these but the check lines.
fn take_right(
    alloc: Global,
    file: &[u8],
    size: usize,
    accepts_cut: bool,
    lines: &[u8],
    count: u64,
) -> Result<Result<TakenFile, TakeFault>, AllocError>
    requires size { size ≤ length file.now }
    requires whole { take size file.now ≡ recovered file.now }
    requires checked { IsChecked (recovered file.now) }
    requires lines { lines.now ≡ plain (cut (recovered file.now)) }
    requires count { count ≡ counted (length (cut (recovered file.now))) }
    ensures { IfOk result (Answers file.now accepts_cut) }
{
    if is_cut(alloc, file, accepts_cut)? {
        return Ok(Err(TakeFault::Behind(count, count_written(&file[size..]))));
    }
    let told = tell_checked(alloc, file, size, lines)?;
    Ok(Ok(told))
}

// Takes a file whose whole lines have this size, and whose line 1 tells that it checks itself.
fn take_checked(
    alloc: Global,
    file: &[u8],
    size: usize,
    accepts_cut: bool,
) -> Result<Result<TakenFile, TakeFault>, AllocError>
    requires size { size ≤ length file.now }
    requires whole { take size file.now ≡ recovered file.now }
    requires form { IsOfForm (recovered file.now) }
    ensures { IfOk result (Answers file.now accepts_cut) }
{
    let mut checked = Checked::new(alloc)?;
    match checked.take_lines(alloc, &file[..size])? {
        Ok(count) => take_right(alloc, file, size, accepts_cut, &checked.plain, count),
        Err(line) => Ok(Err(TakeFault::Line(line))),
    }
}

// Takes a file whose whole lines have this size, and which tells no format.
fn take_bare(alloc: Global, file: &[u8], size: usize) -> Result<TakenFile, AllocError>
    requires size { size ≤ length file.now }
    ensures { IfOk result (λ told. (told.format ≡ 1) × (told.size ≡ size) × (told.behind ≡ counted (count_solid (drop size file.now)))
        × (told.lines.items ≡ take size file.now)) }
{
    Ok(TakenFile {
        format: 1,
        lines: file[..size].to_vec(alloc)?,
        size,
        behind: count_written(&file[size..]),
    })
}

// Takes a file whose whole lines have this size, and whose line 1 tells this format.
fn take_format(
    alloc: Global,
    file: &[u8],
    size: usize,
    accepts_cut: bool,
    format: u64,
) -> Result<Result<TakenFile, TakeFault>, AllocError>
    requires size { size ≤ length file.now }
    requires whole { take size file.now ≡ recovered file.now }
    requires tells { (rest : List ℕ) × Names (recovered file.now) rest × Spells rest format }
    ensures { IfOk result (Answers file.now accepts_cut) }
{
    if format == 1 {
        let told = take_bare(alloc, file, size)?;
        return Ok(Ok(told));
    }
    if format == FORMAT {
        return take_checked(alloc, file, size, accepts_cut);
    }
    Ok(Err(TakeFault::Format(format)))
}

// What is answered of a file.
fn answer(
    alloc: Global,
    file: &[u8],
    accepts_cut: bool,
) -> Result<Result<TakenFile, TakeFault>, AllocError>
    ensures { IfOk result (Answers file.now accepts_cut) }
{
    let size = recovered_len(file);
    match format_of(alloc, &file[..size])? {
        Some(format) => take_format(alloc, file, size, accepts_cut, format),
        None => Ok(Err(TakeFault::Line(1))),
    }
}

/// Takes the file of a journal: its whole lines before the first byte 0, without those by which it checks itself. A file
/// whose line 1 tells no format has none of these, and nothing is checked in it.
///
/// The inner `Err` is, in this order: `Line(1)` where it has no whole line, or line 1 does not begin with `object`, a word
/// and something behind it, or tells a format that is spelled wrongly; `Format` of a number that is not known here; `Line` of
/// the first check line that is wrong, or of the one that is missing where the last line of the front does not come; and
/// `Behind` where a line behind the first byte 0 says that more was stored than stands before that byte, except where a cut
/// is accepted. The outer one is that memory was refused. What a crash may leave of a file is never refused.
pub fn take_file(
    alloc: Global,
    file: &[u8],
    accepts_cut: bool,
) -> Result<Result<TakenFile, TakeFault>, AllocError>
    ensures answers { IfOk result (Answers file.now accepts_cut) }
    ensures taken { IsTaken file.now → IfOk result (TellsLines (taken file.now)) }
    ensures cut { IsChecked (recovered file.now) → accepts_cut ≡ true → IfOk result (TellsLines (taken file.now)) }
    ensures bare { IsBare (recovered file.now) → IfOk result (TellsLines (recovered file.now)) }
    ensures are_lines { IfOk result (λ answer. IfOk answer (λ told. AreLines told.lines.items)) }
{
    answer(alloc, file, accepts_cut)
}

// Whether a line is the one that is looked for: it is no check line, and at most this one is left.
fn is_found(line: &[u8], left: u64) -> bool
    ensures found { result ≡ true → (is_check line.now ≡ false) × (left ≤ 1) }
    ensures other { result ≡ false → (is_check line.now ≡ true) ⊎ (1 < left) }
{
    if is_check(line) {
        return false;
    }
    left <= 1
}

// How many are left behind a line.
fn left_behind(line: &[u8], left: u64) -> u64
    ensures check { is_check line.now ≡ true → result ≡ left }
    ensures other { is_check line.now ≡ false → result ≡ left - 1 }
{
    if is_check(line) {
        return left;
    }
    left.saturating_sub(1)
}

// The number in these lines of the one that has this number among those that are no check lines.
fn line_among(text: &[u8], line: u64) -> u64
    ensures { IsPlaceOf (cut (whole text.now)) line 1 result }
{
    let mut left = line;
    let mut number: u64 = 1;
    let mut rest = text;
    while let Some((next, more)) = cut_first(rest) {
        if is_found(next, left) {
            return number;
        }
        left = left_behind(next, left);
        number = number.saturating_add(1);
        rest = more;
    }
    number.saturating_add(left.saturating_sub(1))
}

/// The number in the file of the line that has this number, from 1 on, among the lines that are taken of it. Where it has none
/// of that number, the one that would stand behind its last line.
pub fn line_in_file(file: &[u8], line: u64) -> u64
    ensures bare { IsBare (recovered file.now) → result ≡ line }
    ensures told { (rest : List ℕ) → Names (recovered file.now) rest → begins_with (codes "format ") rest ≡ true
        → IsPlaceOf (cut (recovered file.now)) line 1 result }
{
    let text = &file[..recovered_len(file)];
    match head_of(text) {
        Some((_, rest)) => {
            if begins_with(FORMAT_WORD, rest) {
                return line_among(text, line);
            }
            line
        }
        None => line,
    }
}
