//! How a remembered call ended.

ghost use Rattle.std.specs.Prelude.{◌≡◌, ℕ, List, IfSome, MatchOption, Some, option_map, ◌&&◌, not, codes, drop};
ghost use Rattle.std.specs.Str.{bytes_eq};
ghost use Rattle.decl_core.specs.RefusalWord.{IsRefusalWord};
ghost use Rattle.apply_core.specs.declared.reply.Reply.{Reply as AReply};
ghost use Rattle.apply_core.specs.declared.reply.Failure.{Failure as AFailure};
ghost use Rattle.apply_core.specs.declared.reply.Reply.TheVariants.{Done as done_reply, Refused as refused_reply, Failed as failed_reply};
ghost use Rattle.word_core.specs.TraceLaws.{IsReply};
ghost use Rattle.word_core.specs.Text.{failure_word, reply_ending, reply_words};
ghost use Rattle.word_core.specs.View.{words_of as words_in, ending_view};
ghost use Rattle.word_core.specs.Data.{bare_of as bare_in};
ghost use Rattle.front_read.specs.Answers.{tells_datum, FindsAnswer, FindsInTwo};

use apply_core::reply::{Failure, Reply};
use decl_core::word::is_refusal_word;
use value_core::datum::Datum;
use value_core::text::Text;
use value_core::words::is_same_word;
use word_core::ending::{Ending, ending_of};
use word_core::number::datum_of;
use word_core::word::Word;
use word_core::words::bare_of;

// How a call ended.
#[derive(Clone, Copy)]
pub(crate) enum RememberedEnd {
    // It replied so.
    Replied(Reply),
    // It was cancelled.
    Cancelled,
}

// How a call ended, as the first words say it, and how many these are.
pub(crate) fn answer_first(words: &[Word]) -> Option<(RememberedEnd, usize)>
    ensures { FindsAnswer (words_in words.now) result }
{
    match bare_of(words) {
        Some((verb, rest)) => answer_by(words, verb, rest),
        None => None,
    }
}

// How a call ended, as words say it whose first one stands bare.
fn answer_by(words: &[Word], verb: &[u8], rest: &[Word]) -> Option<(RememberedEnd, usize)>
    requires { bare_in (words_in words.now) ≡ Some (verb.now, words_in rest.now) }
    ensures { FindsAnswer (words_in words.now) result }
{
    if is_same_word(verb, b"cancelled") {
        return Some((RememberedEnd::Cancelled, 1));
    }
    if is_nothing(verb, rest) {
        return Some((RememberedEnd::Replied(Reply::Done(None)), 1));
    }
    reply_in_two(words)
}

// The words behind the first ones, so many.
pub(crate) fn behind_first<'a, 'b>(words: &'b [Word<'a>], count: usize) -> &'b [Word<'a>]
    ensures { words_in result.now ≡ drop count (words_in words.now) }
{
    if words.len() < count {
        let (_, none) = words.split_at(words.len());
        return none;
    }
    let (_, rest) = words.split_at(count);
    rest
}

// Whether a word and those behind it say that a call was done and replied nothing.
fn is_nothing(verb: &[u8], rest: &[Word]) -> bool
    ensures { result ≡ (bytes_eq verb.now (codes "done") && not (tells_datum (words_in rest.now))) }
{
    is_same_word(verb, b"done") && !tells_datum(rest)
}

// Whether the first word is an integer or a text.
fn tells_datum(words: &[Word]) -> bool
    ensures { result ≡ tells_datum (words_in words.now) }
{
    match words {
        [] => false,
        [word, ..] => datum_of(word).is_some(),
    }
}

// The reply that the first two words tell.
fn reply_in_two(words: &[Word]) -> Option<(RememberedEnd, usize)>
    ensures { FindsInTwo (words_in words.now) result }
{
    if words.len() < 2 {
        return None;
    }
    let (two, _) = words.split_at(2);
    match reply_of_two(two) {
        Some(reply) => Some((RememberedEnd::Replied(reply), 2)),
        None => None,
    }
}

// The reply that these words tell.
fn reply_of_two(words: &[Word]) -> Option<Reply>
    ensures found { (reply : AReply) → IsReply reply → words_in words.now ≡ reply_words reply → result ≡ Some reply }
    ensures is { IfSome result (λ reply. IsReply reply) }
{
    match ending_of(words) {
        Some(ending) => reply_of(&ending),
        None => None,
    }
}

// The reply of a call that ended so.
fn reply_of(ending: &Ending) -> Option<Reply>
    ensures found { (reply : AReply) → IsReply reply → ending_view ending.now ≡ reply_ending reply → result ≡ Some reply }
    ensures is { IfSome result (λ reply. IsReply reply) }
{
    match ending {
        Ending::Done(result) => done_with(*result),
        Ending::Refused(word) => refused_by(word),
        Ending::Failed(word) => failed_by(word),
    }
}

fn refused_by(word: &[u8]) -> Option<Reply>
    ensures { MatchOption result (IsRefusalWord word.now → ⊥)
        (λ reply. (reply ≡ refused_reply word.now) × IsRefusalWord word.now) }
{
    if !is_refusal_word(word) {
        return None;
    }
    let text = Text::from_bytes(word)?;
    Some(Reply::Refused(text))
}

fn failed_by(word: &[u8]) -> Option<Reply>
    ensures { MatchOption result ((failure : AFailure) → word.now ≡ failure_word failure → ⊥)
        (λ reply. (failure : AFailure) × (reply ≡ failed_reply failure) × (word.now ≡ failure_word failure)) }
{
    if is_same_word(word, b"device") {
        return Some(Reply::Failed(Failure::Device));
    }
    if is_same_word(word, b"memory") {
        return Some(Reply::Failed(Failure::Memory));
    }
    if is_same_word(word, b"damaged") {
        return Some(Reply::Failed(Failure::Damaged));
    }
    None
}

// The reply of a call that was done.
fn done_with(given: Option<Datum>) -> Option<Reply>
    ensures reply { result ≡ Some (done_reply given) }
    ensures is { IsReply (done_reply given) }
{
    match given {
        Some(datum) => {
            datum.elem();
            Some(Reply::Done(Some(datum)))
        }
        None => Some(Reply::Done(None)),
    }
}
