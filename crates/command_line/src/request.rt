//! The command line: what it asks for.

ghost use Rattle.std.specs.Prelude.{◌≡◌, ◌⊎◌, [], map, IfOk, IfErr, IsErrAnd};
ghost use Rattle.clap.specs.Faults.{fault_of};
ghost use Rattle.clap.specs.Matches.{found_of};
ghost use Rattle.clap.specs.Simple.{HasMatchesOf};
ghost use Rattle.clap.specs.declared.error.kind.ErrorKind.TheVariants.{OutOfMemory};
ghost use Rattle.clap.specs.Walk.{rows_of};
ghost use Rattle.clap.specs.Kinds.{HasKind};
ghost use Rattle.clap.specs.Values.{kind_of};
ghost use Rattle.command_line.specs.Forms.{Asks, Given};
ghost use Rattle.command_line.specs.Forms.{keep as keep_verb};
ghost use Rattle.command_line.specs.Forms.{Shows, Topic, kind_for};
ghost use Rattle.command_line.specs.Commands.{IsMatched, faults, past_in, program};

use crate::commands::command;
use crate::matched::matched_request;
use crate::mistakes::odd_answer;
use clap::{ArgMatches, Error};
use std::alloc::{AllocError, Global};

/// When standard error gets why something is refused.
#[derive(Clone, Copy, Debug, PartialEq, Eq)]
pub enum Explain {
    /// With `--explain`.
    Always,
    /// With `--no-explain`, whatever else is given.
    Never,
    /// With neither: where a person reads standard error.
    AtTerminal,
}

/// What a command line asks for.
#[derive(Clone, Copy)]
pub enum Request<'a> {
    /// `pathserve paths`.
    Paths,
    /// `pathserve check FILE`, with the path of the file, when a refusal is explained, and whether it is asked what can
    /// get stuck.
    Check(&'a str, Explain, bool),
    /// `pathserve run FILE SCRIPT`, with the paths of the two, and when a refusal of the source, and a line of the
    /// script, are explained.
    Run(&'a str, &'a str, Explain),
    /// `pathserve audit FILE TRACE`, with the paths of the two, and when a refusal of the source, and a fault of the
    /// trace, are explained.
    Audit(&'a str, &'a str, Explain),
    /// `pathserve try FILE` and `pathserve try FILE NAME`, with the path of the file, the name of an object, and when a
    /// refusal of the source, and a line, are explained.
    Try(&'a str, Option<&'a str>, Explain),
    /// `pathserve serve FILE DIR PLACE --sessions N`.
    Serve(Serving<'a>),
    /// `pathserve keep FILE DIR PLACE --at-once N --sync WORD --traces MB`; `--past` is [`pasts_of`]'s.
    Keep(Keeping<'a>),
}

/// Where a server listens.
#[derive(Clone, Copy)]
pub enum Address<'a> {
    /// A port of 127.0.0.1, 1 to 65535.
    Port(u16),
    /// The path of a socket, which has a slash in it.
    Path(&'a str),
}

/// What a server is asked for.
#[derive(Clone, Copy)]
pub struct Serving<'a> {
    /// The path of the file.
    pub file: &'a str,
    /// The path of the folder.
    pub folder: &'a str,
    /// Where clients connect.
    pub address: Address<'a>,
    /// How many connections are taken.
    pub sessions: usize,
    /// Whether it stops with the end of standard input.
    pub stops: bool,
    /// When a refusal of the source is explained.
    pub explain: Explain,
}

/// When what a keeper writes down has to be on the disk.
#[derive(Clone, Copy, Debug, PartialEq, Eq)]
pub enum Sync {
    /// Before an answer that tells of it is written.
    Always,
    /// So many milliseconds later at the latest, 1 to 60000.
    Millis(u32),
}

/// What a keeper is asked for.
#[derive(Clone, Copy)]
pub struct Keeping<'a> {
    /// The path of the file.
    pub file: &'a str,
    /// The path of the folder.
    pub folder: &'a str,
    /// Where clients connect.
    pub address: Address<'a>,
    /// How many clients are connected at once at most, 1 to 10000.
    pub at_once: usize,
    /// When a line of the journal has to be on the disk.
    pub sync: Sync,
    /// Whether it stops with the end of standard input.
    pub stops: bool,
    /// How many megabytes of ended epochs are kept, 1 to 1000000.
    pub traces: u32,
    /// When a refusal of the source is explained.
    pub explain: Explain,
}

// What the parser finds in these words.
fn parsed<'a>(alloc: Global, words: &'a [&'a str]) -> Result<ArgMatches<'a>, Error>
    ensures found { IfOk result (λ m. (fault_of program (map (λ w. w.now) words.now) ≡ [])
        × HasMatchesOf program (map (λ w. w.now) words.now) m) }
    ensures refused { IfErr result (λ e. HasKind (fault_of program (map (λ w. w.now) words.now)) e) }
{
    let program = command(alloc)?;
    let matches = program.try_get_matches_from(words)?;
    Ok(matches)
}

/// What these words, the first of which names the program, ask for.
///
/// An error is a mistake in them or a request for help or the version, with the text to print, or a want of memory. Its
/// kind is one that the parser gives such words, and where the parser takes them `ValueValidation`: PLACE is no number
/// from 1 to 65535, and has no slash, or the word behind `--sync` is neither `always` nor a number from 1 to 60000.
/// Words that ask for help or the version before any mistake give that.
pub fn request_of<'a>(alloc: Global, words: &'a [&'a str]) -> Result<Request<'a>, Error>
    ensures asked { IfOk result (λ q. Asks (map (λ w. w.now) words.now) q) }
    ensures refused { IfErr result (λ e. (q : Request) → Asks (map (λ w. w.now) words.now) q →
        kind_of e ≡ OutOfMemory) }
    ensures kinds { IfErr result (λ e. HasKind (faults (map (λ w. w.now) words.now)) e) }
    ensures shown { (t : Topic) → Shows (map (λ w. w.now) words.now) t →
        IsErrAnd result (λ e. (kind_of e ≡ OutOfMemory) ⊎ (kind_of e ≡ kind_for t)) }
{
    let matches = parsed(alloc, words)?;
    match matched_request(&matches) {
        Ok(request) => Ok(request),
        Err(odd) => Err(odd_answer(alloc, odd)),
    }
}

// The values of `--past` in what was found, in order.
fn pasts_in<'a>(alloc: Global, keep: &ArgMatches<'a>) -> Result<Vec<&'a str>, AllocError>
    ensures { IfOk result (λ pasts. map (λ w. w.now) pasts.items ≡ past_in (rows_of (found_of keep.now))) }
{
    match keep.get_raw("past") {
        Some(words) => words.to_vec(alloc),
        None => Ok(Vec::new(alloc)),
    }
}

// The values of `--past` in what was found in words of `keep`, and none in others.
fn pasts_found<'a>(alloc: Global, matches: &ArgMatches<'a>) -> Result<Vec<&'a str>, Error>
    ensures told { IfOk result (λ pasts. (g : Given) → IsMatched keep_verb g matches.now →
        map (λ w. w.now) pasts.items ≡ g.past) }
    ensures refused { IfErr result (λ e. kind_of e ≡ OutOfMemory) }
{
    match matches.subcommand_matches("keep") {
        Some(keep) => Ok(pasts_in(alloc, keep)?),
        None => Ok(Vec::new(alloc)),
    }
}

/// The values of `--past` that these words, which ask for something, give `keep`, in order. The errors are those of
/// [`request_of`], but for words that are looked at behind the parser.
pub fn pasts_of<'a>(alloc: Global, words: &'a [&'a str]) -> Result<Vec<&'a str>, Error>
    ensures told { IfOk result (λ pasts. (q : Request) (asked : Asks (map (λ w. w.now) words.now) q) →
        asked.verb ≡ keep_verb → map (λ w. w.now) pasts.items ≡ asked.given.past) }
    ensures refused { IfErr result (λ e. (q : Request) → Asks (map (λ w. w.now) words.now) q →
        kind_of e ≡ OutOfMemory) }
{
    let matches = parsed(alloc, words)?;
    pasts_found(alloc, &matches)
}
