//! Blanks and comments.

ghost use Rattle.std.specs.Prelude.{◌≡◌, ℕ, ◌+◌, ◌<◌, ◌≤◌, ◌↔◌, IsTrue, MatchOption, MatchResult, length, slice_index};
ghost use Rattle.path_tree.specs.Gap.{IsBlank, IsFirst, IsGap, IsComment, IsOpenComment, OpensBraces, OpensStars};
ghost use Rattle.path_tree.specs.Gap.{OpensComment, ClosesBraces, ClosesStars};

use crate::lex::fault::LexFault;

/// The byte at a place, or 0 where the source has ended.
pub fn byte_at(source: &[u8], at: usize) -> u8
    ensures { result ≡ slice_index source.now at }
{
    if at < source.len() { source[at] } else { 0 }
}

/// Where the blanks and comments from a place on end. A comment that is not closed is `OpenComment`.
pub fn skip_gap(source: &[u8], from: usize) -> Result<usize, LexFault>
    requires { from ≤ length source.now }
    ensures { MatchResult result
        (λ to. (to ≤ length source.now) × IsGap source.now from to × (IsBlank (slice_index source.now to) → ⊥)
        × (OpensComment source.now to → ⊥))
        (λ fault. (at : ℕ) × IsGap source.now from at × IsOpenComment source.now at
        × (fault ≡ LexFault.OpenComment at)) }
{
    let mut at = from;
    loop {
        if is_blank(byte_at(source, at)) {
            at += 1;
        } else if opens_comment(source, at) {
            match comment_end(source, at) {
                Some(end) => at = end,
                None => return Err(LexFault::OpenComment(at)),
            }
        } else {
            return Ok(at);
        }
    }
}

/// Whether a byte is a blank.
pub fn is_blank(byte: u8) -> bool
    ensures { IsTrue result ↔ IsBlank byte }
{
    matches!(byte, b' ' | b'\t' | b'\r' | b'\n')
}

/// Whether a comment opens at a place.
pub fn opens_comment(source: &[u8], at: usize) -> bool
    requires { at ≤ length source.now }
    ensures { IsTrue result ↔ OpensComment source.now at }
{
    let first = byte_at(source, at);
    first == b'{' || first == b'(' && byte_at(source, at + 1) == b'*'
}

// Where the comment that opens at a place ends, or `None` where it is not closed.
fn comment_end(source: &[u8], from: usize) -> Option<usize>
    requires within { from ≤ length source.now }
    requires opens { OpensComment source.now from }
    ensures { MatchOption result (IsOpenComment source.now from) (λ to. (from < to) × (to ≤ length source.now)
        × IsComment source.now from to) }
{
    if byte_at(source, from) == b'{' {
        let close = braces_close(source, from + 1)?;
        Some(close + 1)
    } else {
        let close = stars_close(source, from + 2)?;
        Some(close + 2)
    }
}

// The first `}` from a place on.
fn braces_close(source: &[u8], from: usize) -> Option<usize>
    requires { from ≤ length source.now }
    ensures { MatchOption result ((k : ℕ) → from ≤ k → ClosesBraces source.now k → ⊥)
        (λ at. (at + 1 ≤ length source.now) × IsFirst (ClosesBraces source.now) from at) }
{
    let mut at = from;
    while at < source.len() {
        if source[at] == b'}' {
            return Some(at);
        }
        at += 1;
    }
    None
}

// The first `*)` from a place on.
fn stars_close(source: &[u8], from: usize) -> Option<usize>
    requires { from ≤ length source.now }
    ensures { MatchOption result ((k : ℕ) → from ≤ k → ClosesStars source.now k → ⊥)
        (λ at. (at + 2 ≤ length source.now) × IsFirst (ClosesStars source.now) from at) }
{
    let mut at = from;
    while at < source.len() {
        if source[at] == b'*' && byte_at(source, at + 1) == b')' {
            return Some(at);
        }
        at += 1;
    }
    None
}
