//! Numbers.

ghost use Rattle.std.specs.Prelude.{◌≡◌, ℕ, ◌<◌, ◌≤◌, ◌⊎◌, IsTrue, All, MatchOption, MatchResult, length, slice_index};
ghost use Rattle.std.specs.Str.Parse.{digits_value};
ghost use Rattle.path_tree.specs.Identifier.{IsDigit};
ghost use Rattle.path_tree.specs.Lexeme.{lexeme_of};
ghost use Rattle.path_tree.specs.Tokens.{IsRun, IsToken, IsFaultAt};

use crate::lex::fault::LexFault;
use crate::token::TokenKind;

/// The number at a place and its end, or `BadNumber` where its value is over 4294967295.
pub fn read_number(source: &[u8], start: usize) -> Result<(TokenKind, usize), LexFault>
    requires within { start < length source.now }
    requires digit { IsDigit (slice_index source.now start) }
    ensures { MatchResult result (λ r. IsToken source.now (lexeme_of r.0) start r.1)
        (λ fault. IsFaultAt source.now start fault) }
{
    let end = digits_end(source, start);
    match number_value(&source[start..end]) {
        Some(value) => Ok((TokenKind::Number(value), end)),
        None => Err(LexFault::BadNumber(start)),
    }
}

// Where the run of digits at a place ends.
fn digits_end(source: &[u8], from: usize) -> usize
    requires within { from < length source.now }
    requires digit { IsDigit (slice_index source.now from) }
    ensures { IsRun IsDigit source.now from result }
{
    let mut at = from + 1;
    while at < source.len() && matches!(source[at], b'0'..=b'9') {
        at += 1;
    }
    at
}

// The value of these digits, or `None` where it is over 4294967295.
fn number_value(digits: &[u8]) -> Option<u32>
    requires { All IsDigit digits.now }
    ensures { MatchOption result (4294967295 < digits_value 10 digits.now)
        (λ value. value ≡ digits_value 10 digits.now) }
{
    let mut value: u32 = 0;
    for digit in digits {
        value = value
            .checked_mul(10)?
            .checked_add(u32::from(*digit - b'0'))?;
    }
    Some(value)
}
