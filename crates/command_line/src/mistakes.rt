//! The errors of words that the parser takes, and that are not what they should be.

ghost use Rattle.std.specs.Prelude.{◌≡◌, ◌∷◌, [], IfOk};
ghost use Rattle.clap.specs.Kinds.{HasKind};
ghost use Rattle.clap.specs.Values.{kind_of};

use crate::commands::{keep_command, serve_command};
use crate::help;
use clap::error::ErrorKind;
use clap::{Command, Error};
use std::alloc::{AllocError, Global};

// A word that is not what it should be.
#[derive(Clone, Copy)]
pub(crate) enum Odd<'a> {
    // PLACE of `serve`.
    ServePlace(&'a str),
    // PLACE of `keep`.
    KeepPlace(&'a str),
    // The word behind `--sync`.
    Sync(&'a str),
}

// The error of a word that is no value of this argument of a subcommand, which should be so.
fn no_value(
    alloc: Global,
    made: Result<Command<'_>, AllocError>,
    word: &str,
    name: &str,
    form: &str,
) -> Result<Error, AllocError>
    ensures { IfOk result (λ e. kind_of e ≡ ErrorKind.ValueValidation) }
{
    let mut command = made?;
    let text = format!(in alloc; "invalid value '{word}' for '{name}': {form}")?;
    command.error(ErrorKind::ValueValidation, text.as_str())
}

/// The error of a value of this option of `keep` that should be so.
pub fn keep_error(alloc: Global, word: &str, name: &str, form: &str) -> Result<Error, AllocError>
    ensures { IfOk result (λ e. kind_of e ≡ ErrorKind.ValueValidation) }
{
    no_value(alloc, keep_command(alloc), word, name, form)
}

/// The error of a value of `--past` that should be so.
pub fn past_error(alloc: Global, word: &str, form: &str) -> Result<Error, AllocError>
    ensures { IfOk result (λ e. kind_of e ≡ ErrorKind.ValueValidation) }
{
    no_value(
        alloc,
        keep_command(alloc),
        word,
        "--past <OBJECT:OPERATION:K>",
        form,
    )
}

// The error of a word that is not what it should be.
fn odd_error(alloc: Global, odd: Odd<'_>) -> Result<Error, AllocError>
    ensures { IfOk result (λ e. kind_of e ≡ ErrorKind.ValueValidation) }
{
    match odd {
        Odd::ServePlace(word) => no_value(
            alloc,
            serve_command(alloc),
            word,
            "<PLACE>",
            help::PLACE_IS,
        ),
        Odd::KeepPlace(word) => no_value(
            alloc,
            keep_command(alloc),
            word,
            "<PLACE>",
            help::PLACE_IS,
        ),
        Odd::Sync(word) => no_value(
            alloc,
            keep_command(alloc),
            word,
            "--sync <WORD>",
            help::SYNC_IS,
        ),
    }
}

// The error of a word that is not what it should be, or that memory was refused.
pub(crate) fn odd_answer(alloc: Global, odd: Odd<'_>) -> Error
    ensures { HasKind (ErrorKind.ValueValidation ∷ []) result }
{
    match odd_error(alloc, odd) {
        Ok(error) => error,
        Err(error) => Error::from(error),
    }
}
