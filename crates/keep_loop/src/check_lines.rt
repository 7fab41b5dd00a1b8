//! The lines by which the file of a journal checks itself.

ghost use Rattle.std.specs.Prelude.{◌≡◌, ◌<◌, ◌^◌, ◌++◌, ◌∷◌, [], List, ℕ, Some, OnOk, MatchOption, decimal, bit_xor};
ghost use Rattle.keep_loop.specs.Taken.{hex_digit, hex_digits, check_line, begins_with, is_check, NoSpace};

use crate::crc::crc_end;
use std::alloc::AllocError;
use std::str;

/// What the last line of a front begins with.
pub const FRONT_WORD: &[u8] = b"front ";

/// What the last line of a round begins with.
pub const STORED_WORD: &[u8] = b"stored ";

// Adds a digit of a hexadecimal number.
fn push_digit(out: &mut Vec<u8>, digit: u8) -> Result<(), AllocError>
    requires { digit < 16 }
    ensures { OnOk result (out.new.items ≡ out.old.items ++ hex_digit digit ∷ []) }
{
    if digit / 10 == 0 {
        return Ok(out.push(48 + digit)?);
    }
    Ok(out.push(87 + digit)?)
}

// Adds so many last digits of a number in hexadecimal.
#[tactic(auto, using(crate::proofs::Digits::hex_more))]
fn push_hex(out: &mut Vec<u8>, number: u32, places: u8) -> Result<(), AllocError>
    ensures { OnOk result (out.new.items ≡ out.old.items ++ hex_digits places number) }
{
    if places == 0 {
        return Ok(());
    }
    push_hex(out, number / 16, places - 1)?;
    push_digit(out, (number % 16) as u8)?;
    Ok(())
}

/// Adds a number in decimal.
#[tactic(auto, using(crate::proofs::Digits::decimal_one, crate::proofs::Digits::decimal_more))]
pub fn push_check_size(out: &mut Vec<u8>, size: u64) -> Result<(), AllocError>
    ensures { OnOk result (out.new.items ≡ out.old.items ++ decimal size) }
{
    if size < 10 {
        return Ok(out.push(48 + size as u8)?);
    }
    push_check_size(out, size / 10)?;
    Ok(out.push(48 + (size % 10) as u8)?)
}

/// Adds a check line: this word, this number of bytes, and the CRC-32C whose number before the last step is this one.
#[tactic(auto, using(crate::proofs::Digits::check_joined))]
pub fn push_check(out: &mut Vec<u8>, word: &[u8], size: u64, crc: u32) -> Result<(), AllocError>
    ensures { OnOk result (out.new.items ≡ out.old.items ++ check_line word.now size (bit_xor crc 4294967295)) }
{
    out.extend_from_slice(word)?;
    push_check_size(out, size)?;
    out.push(b' ')?;
    push_hex(out, crc_end(crc), 8)?;
    Ok(out.push(b'\n')?)
}

/// Whether a text begins with a word.
#[tactic(auto, using(crate::proofs::Digits::begins_none))]
pub fn begins_with(word: &[u8], text: &[u8]) -> bool
    ensures { result ≡ begins_with word.now text.now }
{
    match (word, text) {
        ([], _) => true,
        ([_, ..], []) => false,
        ([first, word @ ..], [byte, text @ ..]) => *first == *byte && begins_with(word, text),
    }
}

/// Whether this line is one by which a file checks itself.
pub fn is_check(line: &[u8]) -> bool
    ensures { result ≡ is_check line.now }
{
    begins_with(FRONT_WORD, line) || begins_with(STORED_WORD, line)
}

/// What stands in a text behind a word with which it begins.
pub fn behind_word<'a>(word: &[u8], text: &'a [u8]) -> Option<&'a [u8]>
    ensures { MatchOption result ((rest : List ℕ) → text.now ≡ word.now ++ rest → ⊥) (λ rest. text.now ≡ word.now ++ rest.now) }
{
    if text.len() < word.len() {
        return None;
    }
    if begins_with(word, text) {
        return Some(&text[word.len()..]);
    }
    None
}

/// The number that a text has behind a word, in decimal, up to a space.
pub fn size_in(word: &[u8], text: &[u8]) -> Option<u64>
    ensures { (size : ℕ) (rest : List ℕ) → size < 2 ^ 64 → text.now ≡ word.now ++ (decimal size ++ 32 ∷ rest)
        → result ≡ Some size }
{
    match behind_word(word, text) {
        Some(rest) => number_in(rest),
        None => None,
    }
}

/// What stands before the first space, and what stands behind it.
pub fn split_space(text: &[u8]) -> Option<(&[u8], &[u8])>
    ensures { MatchOption result (NoSpace text.now) (λ parts. NoSpace parts.0.now
        × (text.now ≡ parts.0.now ++ 32 ∷ parts.1.now)) }
{
    let at = text.iter().position(|b| *b == b' ')?;
    Some((&text[..at], &text[at + 1..]))
}

// The number that these bytes spell in decimal.
fn value_of(digits: &[u8]) -> Option<u64>
    ensures { (size : ℕ) → size < 2 ^ 64 → digits.now ≡ decimal size → result ≡ Some size }
{
    match str::from_utf8(digits) {
        Ok(digits) => match digits.parse::<u64>() {
            Ok(value) => Some(value),
            Err(_) => None,
        },
        Err(_) => None,
    }
}

// The number at the beginning of a text, in decimal, up to a space.
fn number_in(text: &[u8]) -> Option<u64>
    ensures { (size : ℕ) (rest : List ℕ) → size < 2 ^ 64 → text.now ≡ decimal size ++ 32 ∷ rest
        → result ≡ Some size }
{
    match split_space(text) {
        Some((digits, _)) => value_of(digits),
        None => None,
    }
}
