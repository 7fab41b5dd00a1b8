//! All words of a line, and what stands at their front.

ghost use Rattle.std.specs.Prelude.{◌≡◌, IfOk, option_map};
ghost use Rattle.word_core.specs.Data.{data_of as data_in, bare_of as bare_in, only_bare as only_bare_in};
ghost use Rattle.word_core.specs.Data.{only_integer as only_integer_in};
ghost use Rattle.word_core.specs.View.{AreWordsOf, words_of as words_in, bare_view};

use crate::next::{Next, next_word};
use crate::number::{datum_of, integer_of};
use crate::word::Word;
use std::alloc::{AllocError, Global};
use value_core::datum::Datum;

/// The words of a line, or `None` where something in it is no word.
pub fn words_of(alloc: Global, line: &[u8]) -> Result<Option<Vec<Word<'_>>>, AllocError>
    ensures { IfOk result (AreWordsOf line.now) }
{
    let mut words = Vec::new(alloc);
    let mut rest = line;
    loop {
        match next_word(rest) {
            Next::Nothing => return Ok(Some(words)),
            Next::Bad => return Ok(None),
            Next::Found(word, behind) => {
                words.extend_from_slice(&[word])?;
                rest = behind;
            }
        }
    }
}

/// The first word, where it stands bare, and the words behind it.
pub fn bare_of<'a, 'b>(words: &'b [Word<'a>]) -> Option<(&'a [u8], &'b [Word<'a>])>
    ensures { option_map bare_view result ≡ bare_in (words_in words.now) }
{
    let (first, rest) = words.split_first()?;
    match first {
        Word::Bare(bytes) => Some((*bytes, rest)),
        Word::Quoted(_) => None,
    }
}

/// The one word, where it stands bare.
pub fn only_bare<'a>(words: &[Word<'a>]) -> Option<&'a [u8]>
    ensures { option_map (λ b. b.now) result ≡ only_bare_in (words_in words.now) }
{
    let (bytes, rest) = bare_of(words)?;
    if rest.is_empty() {
        return Some(bytes);
    }
    None
}

/// The integer that the one word is.
pub fn only_integer(words: &[Word]) -> Option<u32>
    ensures { result ≡ only_integer_in (words_in words.now) }
{
    let bytes = only_bare(words)?;
    integer_of(bytes)
}

/// The integers and texts of words, or `None` where one is neither.
pub fn data_of(alloc: Global, words: &[Word]) -> Result<Option<Vec<Datum>>, AllocError>
    ensures { IfOk result (λ found. option_map (λ v. v.items) found ≡ data_in (words_in words.now)) }
{
    let mut data = Vec::new(alloc);
    for word in words {
        match datum_of(word) {
            Some(datum) => data.push(datum)?,
            None => return Ok(None),
        }
    }
    Ok(Some(data))
}
