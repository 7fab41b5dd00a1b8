//! What a line of `paths` asks for.

ghost use Rattle.std.specs.Prelude.{◌≡◌, ◌∷◌, codes};
ghost use Rattle.std.specs.Str.{bytes_eq, str_to_ascii_lowercase};
ghost use Rattle.path_count.specs.Asked.{asked_of, asked_of_words, asked_of_names, begins_with_path};
ghost use Rattle.path_count.specs.Command.{asked_of_command};
ghost use Rattle.path_count.specs.Words.{words};

use crate::paths::words::next_word;
use value_core::words::{is_same_word, skip_spaces};

/// What a line asks for.
#[derive(Clone, Copy)]
pub enum Command<'a> {
    /// `ops NAME ..`, with the text behind `ops`.
    Operations(&'a [u8]),
    /// A line that begins with `path`.
    Path,
    /// `start NAME`.
    Start(&'a [u8]),
    /// `finish NAME`.
    Finish(&'a [u8]),
    /// Any other line.
    Other,
}

/// What a line asks for.
pub fn command_of(line: &[u8]) -> Command<'_>
    ensures { asked_of_command result ≡ asked_of line.now }
{
    match command_of_words(line) {
        Command::Other => {
            if is_path_line(line) {
                Command::Path
            } else {
                Command::Other
            }
        }
        command => command,
    }
}

// What the words of a line ask for.
fn command_of_words(line: &[u8]) -> Command<'_>
    ensures { asked_of_command result ≡ asked_of_words (words line.now) }
{
    match next_word(line) {
        Some((verb, rest)) => command_of_verb(verb, rest),
        None => Command::Other,
    }
}

// Whether a line begins with `path`.
fn is_path_line(line: &[u8]) -> bool
    ensures { result ≡ begins_with_path line.now }
{
    let line = skip_spaces(line);
    line.len() >= 4 && is_path_word(&line[..4])
}

fn is_path_word(word: &[u8]) -> bool
    ensures { result ≡ bytes_eq (str_to_ascii_lowercase word.now) (codes "path") }
{
    word.eq_ignore_ascii_case(b"path")
}

// What a line asks for whose first word is this.
fn command_of_verb<'a>(verb: &'a [u8], rest: &'a [u8]) -> Command<'a>
    ensures { asked_of_command result ≡ asked_of_words (verb.now ∷ words rest.now) }
{
    if is_same_word(verb, b"ops") {
        return Command::Operations(rest);
    }
    match next_word(rest) {
        Some((name, rest)) => command_of_name(verb, name, rest),
        None => Command::Other,
    }
}

// What a line asks for whose first words are these.
fn command_of_name<'a>(verb: &'a [u8], name: &'a [u8], rest: &'a [u8]) -> Command<'a>
    ensures { asked_of_command result ≡ asked_of_names verb.now (name.now ∷ words rest.now) }
{
    if next_word(rest).is_some() {
        return Command::Other;
    }
    if is_same_word(verb, b"start") {
        return Command::Start(name);
    }
    if is_same_word(verb, b"finish") {
        return Command::Finish(name);
    }
    Command::Other
}
