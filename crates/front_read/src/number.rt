//! Verbs and numbers at the front of words.

ghost use Rattle.std.specs.Prelude.{◌≡◌, option_map};
ghost use Rattle.word_core.specs.View.{words_of as words_in};
ghost use Rattle.front_read.specs.Words.{with_rest, behind_verb as behind_verb_in};
ghost use Rattle.front_read.specs.Words.{long_first as long_first_in, key_first as key_first_in};
ghost use Rattle.front_read.specs.Words.{count_first as count_first_in, session_first as session_first_in};

use value_core::words::is_same_word;
use word_core::number::{integer_of, long_of, session_of};
use word_core::word::Word;
use word_core::words::bare_of;

/// The words behind this one.
pub fn behind_verb<'a, 'b>(words: &'b [Word<'a>], verb: &[u8]) -> Option<&'b [Word<'a>]>
    ensures { option_map (λ rest. words_in rest.now) result ≡ behind_verb_in verb.now (words_in words.now) }
{
    let (found, rest) = bare_of(words)?;
    if is_same_word(found, verb) {
        return Some(rest);
    }
    None
}

/// A number of 64 bits, and the words behind it.
pub fn long_first<'a, 'b>(words: &'b [Word<'a>]) -> Option<(u64, &'b [Word<'a>])>
    ensures { option_map with_rest result ≡ long_first_in (words_in words.now) }
{
    let (bytes, rest) = bare_of(words)?;
    let number = long_of(bytes)?;
    Some((number, rest))
}

// A number of 64 bits from 1 on, and the words behind it.
pub(crate) fn key_first<'a, 'b>(words: &'b [Word<'a>]) -> Option<(u64, &'b [Word<'a>])>
    ensures { option_map with_rest result ≡ key_first_in (words_in words.now) }
{
    let (number, rest) = long_first(words)?;
    if number == 0 {
        return None;
    }
    Some((number, rest))
}

// A number of 32 bits from 1 on, and the words behind it.
pub(crate) fn count_first<'a, 'b>(words: &'b [Word<'a>]) -> Option<(u32, &'b [Word<'a>])>
    ensures { option_map with_rest result ≡ count_first_in (words_in words.now) }
{
    let (bytes, rest) = bare_of(words)?;
    let number = integer_of(bytes)?;
    if number == 0 {
        return None;
    }
    Some((number, rest))
}

/// A session of 1 to 65,535, and the words behind it.
pub fn session_first<'a, 'b>(words: &'b [Word<'a>]) -> Option<(u32, &'b [Word<'a>])>
    ensures { option_map with_rest result ≡ session_first_in (words_in words.now) }
{
    let (bytes, rest) = bare_of(words)?;
    let session = session_of(bytes)?;
    if session == 0 {
        return None;
    }
    if session > 65_535 {
        return None;
    }
    Some((session, rest))
}
