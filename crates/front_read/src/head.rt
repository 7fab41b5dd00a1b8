//! Rows that stand once: the object with its epoch, the source, each part, the base.

ghost use Rattle.std.specs.Prelude.{◌≡◌, ◌<◌, ◌^◌, ℕ, List, IfOk, IfSome, MatchOption, Some, Ok, option_map};
ghost use Rattle.std.specs.Int.{w64, to_be_bytes};
ghost use Rattle.hex.specs.Hex.{decode_of};
ghost use Rattle.decl_core.specs.ObjectMap.{object_of};
ghost use Rattle.word_core.specs.View.{words_of as words_in};
ghost use Rattle.word_core.specs.Text.{part_words};
ghost use Rattle.live_core.specs.Front.{IsKey, IsLong};
ghost use Rattle.live_core.specs.Text.{object_words, source_words, base_words};
ghost use Rattle.front_read.specs.Words.{epoch_of as epoch_in, base_of as base_in, hex_of as hex_in, hash_of as hash_in};
ghost use Rattle.front_read.specs.Rows.{Finds, Gives, GivesThis, Takes, TakesThis};
ghost use Rattle.front_read.specs.Parts.{IsValueOf, IsHexOf};

use crate::number::{behind_verb, key_first, long_first};
use crate::text::{behind, first_line};
use decl_core::object::{Object, Part};
use hex::FromHexError;
use live_core::write::{push_base, push_object, push_source};
use std::alloc::{AllocError, Global};
use value_bytes::decode::{DecodeFault, decode};
use value_core::kind::Kind;
use value_core::value::Value;
use word_core::names::object_has_names;
use word_core::trace_front::push_part;
use word_core::word::Word;
use word_core::words::{bare_of, only_bare, words_of};

// The epoch that the words `object NAME epoch E` tell.
fn epoch_of(words: &[Word]) -> Option<u64>
    ensures { result ≡ epoch_in (words_in words.now) }
{
    let words = behind_verb(words, b"object")?;
    let (_, words) = bare_of(words)?;
    let words = behind_verb(words, b"epoch")?;
    let (epoch, _) = key_first(words)?;
    Some(epoch)
}

// The epoch that the row `object NAME epoch E` at the beginning of a text tells, and what stands behind that row.
pub(crate) fn take_object<'a>(
    alloc: Global,
    object: &Object,
    text: &'a [u8],
) -> Result<Option<(u64, &'a [u8])>, AllocError>
    ensures { IfOk result (Gives IsKey (object_words object.now.name) text.now) }
{
    object_has_names(object);
    match words_of(alloc, first_line(text))? {
        Some(words) => match epoch_of(&words) {
            Some(epoch) => take_this_object(alloc, object, text, epoch),
            None => Ok(None),
        },
        None => Ok(None),
    }
}

fn take_this_object<'a>(
    alloc: Global,
    object: &Object,
    text: &'a [u8],
    epoch: u64,
) -> Result<Option<(u64, &'a [u8])>, AllocError>
    ensures { IfOk result (GivesThis (object_words object.now.name) epoch text.now) }
{
    let mut line = Vec::new(alloc);
    push_object(&mut line, object, epoch)?;
    match behind(text, &line) {
        Some(rest) => Ok(Some((epoch, rest))),
        None => Ok(None),
    }
}

// The bytes that a word in hexadecimal tells.
fn bytes_of(alloc: Global, word: &[u8]) -> Result<Option<Vec<u8>>, AllocError>
    ensures { IfOk result (λ found. MatchOption found ((bytes : List ℕ) → decode_of word.now ≡ Ok bytes → ⊥)
        (λ v. decode_of word.now ≡ Ok v.items)) }
{
    match hex::decode(alloc, word) {
        Ok(bytes) => Ok(Some(bytes)),
        Err(FromHexError::OutOfMemory) => Err(AllocError),
        Err(_) => Ok(None),
    }
}

// The number of eight bytes, the highest first.
fn number_in(bytes: &[u8]) -> Option<u64>
    ensures found { (n : ℕ) → n < 2 ^ 64 → bytes.now ≡ to_be_bytes w64 n → result ≡ Some n }
    ensures fits { IfSome result (λ n. n < 2 ^ 64) }
{
    match bytes {
        [a, b, c, d, e, f, g, h] => Some(u64::from_be_bytes([*a, *b, *c, *d, *e, *f, *g, *h])),
        _ => None,
    }
}

// The source that the words `source HASH` tell.
fn source_of(alloc: Global, words: &[Word]) -> Result<Option<u64>, AllocError>
    ensures { IfOk result (Finds IsLong source_words (λ n. n) (words_in words.now)) }
{
    match hash_of(words) {
        Some(hash) => match bytes_of(alloc, hash)? {
            Some(bytes) => Ok(number_in(&bytes)),
            None => Ok(None),
        },
        None => Ok(None),
    }
}

// The last of the words `source HASH`.
fn hash_of<'a>(words: &[Word<'a>]) -> Option<&'a [u8]>
    ensures { option_map (λ hash. hash.now) result ≡ hash_in (words_in words.now) }
{
    let words = behind_verb(words, b"source")?;
    only_bare(words)
}

// The source that the row `source HASH` at the beginning of a text tells, and what stands behind that row.
pub(crate) fn take_source<'a>(
    alloc: Global,
    text: &'a [u8],
) -> Result<Option<(u64, &'a [u8])>, AllocError>
    ensures { IfOk result (Gives IsLong source_words text.now) }
{
    match words_of(alloc, first_line(text))? {
        Some(words) => match source_of(alloc, &words)? {
            Some(source) => take_this_source(alloc, text, source),
            None => Ok(None),
        },
        None => Ok(None),
    }
}

fn take_this_source<'a>(
    alloc: Global,
    text: &'a [u8],
    source: u64,
) -> Result<Option<(u64, &'a [u8])>, AllocError>
    ensures { IfOk result (GivesThis source_words source text.now) }
{
    let mut line = Vec::new(alloc);
    push_source(alloc, &mut line, source)?;
    match behind(text, &line) {
        Some(rest) => Ok(Some((source, rest))),
        None => Ok(None),
    }
}

// The number that the words `base N` tell.
fn base_of(words: &[Word]) -> Option<u64>
    ensures { result ≡ base_in (words_in words.now) }
{
    let words = behind_verb(words, b"base")?;
    let (base, _) = long_first(words)?;
    Some(base)
}

// The number that the row `base N` at the beginning of a text tells, and what stands behind that row.
pub(crate) fn take_base<'a>(
    alloc: Global,
    text: &'a [u8],
) -> Result<Option<(u64, &'a [u8])>, AllocError>
    ensures { IfOk result (Gives IsLong base_words text.now) }
{
    match words_of(alloc, first_line(text))? {
        Some(words) => match base_of(&words) {
            Some(base) => take_this_base(alloc, text, base),
            None => Ok(None),
        },
        None => Ok(None),
    }
}

fn take_this_base<'a>(
    alloc: Global,
    text: &'a [u8],
    base: u64,
) -> Result<Option<(u64, &'a [u8])>, AllocError>
    ensures { IfOk result (GivesThis base_words base text.now) }
{
    let mut line = Vec::new(alloc);
    push_base(&mut line, base)?;
    match behind(text, &line) {
        Some(rest) => Ok(Some((base, rest))),
        None => Ok(None),
    }
}

// The value of a kind that a word tells.
fn value_in(alloc: Global, kind: Kind, word: &[u8]) -> Result<Option<Value>, AllocError>
    ensures { IfOk result (IsHexOf kind word.now) }
{
    match bytes_of(alloc, word)? {
        Some(bytes) => match decode(alloc, kind, &bytes) {
            Ok(value) => Ok(Some(value)),
            Err(DecodeFault::Damaged) => Ok(None),
            Err(DecodeFault::Memory) => Err(AllocError),
        },
        None => Ok(None),
    }
}

// The value that the words `part NAME HEX` tell.
fn part_of(alloc: Global, kind: Kind, words: &[Word]) -> Result<Option<Value>, AllocError>
    ensures { IfOk result (λ found. (name : List ℕ) → Finds (IsValueOf kind) (part_words name) (λ v. v)
        (words_in words.now) found) }
{
    match hex_of(words) {
        Some(hex) => value_in(alloc, kind, hex),
        None => Ok(None),
    }
}

// The last of the words `part NAME HEX`.
fn hex_of<'a>(words: &[Word<'a>]) -> Option<&'a [u8]>
    ensures { option_map (λ hex. hex.now) result ≡ hex_in (words_in words.now) }
{
    let words = behind_verb(words, b"part")?;
    let (_, words) = bare_of(words)?;
    only_bare(words)
}

// Takes the row of this part at the beginning of a text, adds its value, and gives what stands behind the row.
pub(crate) fn take_part<'a>(
    alloc: Global,
    part: &Part,
    out: &mut Vec<Value>,
    text: &'a [u8],
) -> Result<Option<&'a [u8]>, AllocError>
    ensures { IfOk result (λ found. Takes (IsValueOf part.now.kind) (part_words part.now.name) text.now out.old.items
        found out.new.items) }
{
    let name = part.name.as_bytes();
    match words_of(alloc, first_line(text))? {
        Some(words) => match part_of(alloc, part.kind, &words)? {
            Some(value) => {
                let found = take_this_part(alloc, name, out, text, value)?;
                Ok(found)
            }
            None => Ok(None),
        },
        None => Ok(None),
    }
}

fn take_this_part<'a>(
    alloc: Global,
    name: &[u8],
    out: &mut Vec<Value>,
    text: &'a [u8],
    value: Value,
) -> Result<Option<&'a [u8]>, AllocError>
    ensures { IfOk result (λ found. TakesThis (part_words name.now) value text.now out.old.items found out.new.items) }
{
    let mut line = Vec::new(alloc);
    push_part(alloc, &mut line, name, &value)?;
    match behind(text, &line) {
        Some(rest) => {
            out.push(value)?;
            Ok(Some(rest))
        }
        None => Ok(None),
    }
}
