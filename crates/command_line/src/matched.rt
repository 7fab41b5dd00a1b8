//! What the words ask for in which the parser has found a command.

ghost use Rattle.std.specs.Prelude.{◌≡◌, codes, IfOk, IfErr, IfSome, None, Some};
ghost use Rattle.clap.specs.Matches.{first_value, found_of, one_text};
ghost use Rattle.clap.specs.Walk.{rows_of};
ghost use Rattle.command_line.specs.Forms.{Given, IsNumber, Makes, number_of, Verb, check as check_verb};
ghost use Rattle.command_line.specs.Forms.{run as run_verb, audit as audit_verb, attempt as try_verb};
ghost use Rattle.command_line.specs.Forms.{serve as serve_verb};
ghost use Rattle.command_line.specs.Forms.{keep as keep_verb, explain_of, sync_of};
ghost use Rattle.command_line.specs.Forms.{IsAddressOf, IsSyncOf, Text};
ghost use Rattle.command_line.specs.Commands.{Holds, HoldsExplain, IsMatched};

use crate::commands::SYNC;
use crate::mistakes::Odd;
use crate::request::{Address, Explain, Keeping, Request, Serving, Sync};
use clap::ArgMatches;

// The most milliseconds later that a line may be on the disk.
const MOST_MILLIS: u32 = 60000;

// The word under this name.
fn word_of<'a>(matches: &ArgMatches<'a>, name: &str) -> &'a str
    requires { (word : _) × (first_value (found_of matches.now) name.now ≡ Some word) }
    ensures { first_value (found_of matches.now) name.now ≡ Some result.now }
{
    match matches.get_str(name) {
        Some(word) => word,
        None => unreachable!(),
    }
}

// When a refusal is explained, by whether the two flags are there.
fn explain_by(explains: bool, is_silent: bool) -> Explain
    ensures { result ≡ explain_of explains is_silent }
{
    if is_silent {
        Explain::Never
    } else if explains {
        Explain::Always
    } else {
        Explain::AtTerminal
    }
}

// When a refusal is explained.
fn explain_in(matches: &ArgMatches<'_>) -> Explain
    ensures { (g : Given) → HoldsExplain g (rows_of (found_of matches.now)) →
        result ≡ explain_of g.explains g.silent }
{
    explain_by(matches.get_flag("explain"), matches.get_flag("no-explain"))
}

// What the words of `check` ask for.
fn check_request<'a>(check: &ArgMatches<'a>) -> Request<'a>
    requires { (g : Given) × Holds check_verb g (rows_of (found_of check.now)) }
    ensures { (g : Given) → Holds check_verb g (rows_of (found_of check.now)) → Makes check_verb g result }
{
    Request::Check(
        word_of(check, "FILE"),
        explain_in(check),
        check.get_flag("stuck"),
    )
}

// What the words of `run` ask for.
fn run_request<'a>(run: &ArgMatches<'a>) -> Request<'a>
    requires { (g : Given) × Holds run_verb g (rows_of (found_of run.now)) }
    ensures { (g : Given) → Holds run_verb g (rows_of (found_of run.now)) → Makes run_verb g result }
{
    Request::Run(
        word_of(run, "FILE"),
        word_of(run, "SCRIPT"),
        explain_in(run),
    )
}

// What the words of `audit` ask for.
fn audit_request<'a>(audit: &ArgMatches<'a>) -> Request<'a>
    requires { (g : Given) × Holds audit_verb g (rows_of (found_of audit.now)) }
    ensures { (g : Given) → Holds audit_verb g (rows_of (found_of audit.now)) → Makes audit_verb g result }
{
    Request::Audit(
        word_of(audit, "FILE"),
        word_of(audit, "TRACE"),
        explain_in(audit),
    )
}

// What the words of `try` ask for.
fn try_request<'a>(tried: &ArgMatches<'a>) -> Request<'a>
    requires { (g : Given) × Holds try_verb g (rows_of (found_of tried.now)) }
    ensures { (g : Given) → Holds try_verb g (rows_of (found_of tried.now)) → Makes try_verb g result }
{
    Request::Try(
        word_of(tried, "FILE"),
        tried.get_str("NAME"),
        explain_in(tried),
    )
}

// The port that a word is, if it is one.
fn port_in(word: &str) -> Option<u16>
    ensures some { IfSome result (λ port. IsNumber 1 65535 word.now × (port ≡ number_of word.now)) }
    ensures none { result ≡ None → IsNumber 1 65535 word.now → ⊥ }
{
    match word.parse::<u16>() {
        Ok(port) if port > 0 => Some(port),
        _ => None,
    }
}

// The number of connections.
fn sessions_in(serve: &ArgMatches<'_>) -> u8
    requires { (g : Given) × Holds serve_verb g (rows_of (found_of serve.now)) }
    ensures { (text : _) → one_text (found_of serve.now) (codes "sessions") ≡ Some text → result ≡ number_of text }
{
    match serve.get_one("sessions") {
        Some(sessions) => sessions,
        None => unreachable!(),
    }
}

// Where a word has a server listen, if it says that.
fn address_in<'a>(word: &'a str) -> Option<Address<'a>>
    ensures some { IfSome result (λ address. IsAddressOf word.now address) }
    ensures none { result ≡ None → (address : Address) → IsAddressOf word.now address → ⊥ }
{
    if word.as_bytes().contains(&b'/') {
        return Some(Address::Path(word));
    }
    match port_in(word) {
        Some(port) => Some(Address::Port(port)),
        None => None,
    }
}

// What the words of `serve` ask for, whose third one is this address.
fn served<'a>(serve: &ArgMatches<'a>, address: Address<'a>) -> Request<'a>
    requires { (g : Given) × Holds serve_verb g (rows_of (found_of serve.now)) }
    ensures { (g : Given) → Holds serve_verb g (rows_of (found_of serve.now)) → (word : Text) →
        first_value (found_of serve.now) (codes "PLACE") ≡ Some word → IsAddressOf word address.entry →
        Makes serve_verb g result }
{
    Request::Serve(Serving {
        file: word_of(serve, "FILE"),
        folder: word_of(serve, "DIR"),
        address,
        sessions: usize::from(sessions_in(serve)),
        stops: serve.get_flag("stop-with-input"),
        explain: explain_in(serve),
    })
}

// What the words of `serve` ask for, or the word that should be an address.
fn serve_request<'a>(serve: &ArgMatches<'a>) -> Result<Request<'a>, Odd<'a>>
    requires { (g : Given) × Holds serve_verb g (rows_of (found_of serve.now)) }
    ensures asked { IfOk result (λ q. (g : Given) → Holds serve_verb g (rows_of (found_of serve.now)) →
        Makes serve_verb g q) }
    ensures other { IfErr result (λ _. (g : Given) → Holds serve_verb g (rows_of (found_of serve.now)) → (q : _) →
        Makes serve_verb g q → ⊥) }
{
    let word = word_of(serve, "PLACE");
    match address_in(word) {
        Some(address) => Ok(served(serve, address)),
        None => Err(Odd::ServePlace(word)),
    }
}

// The number of milliseconds that a word is, if it is one.
fn millis_in(word: &str) -> Option<u32>
    ensures some { IfSome result (λ n. IsNumber 1 60000 word.now × (n ≡ number_of word.now)) }
    ensures none { result ≡ None → IsNumber 1 60000 word.now → ⊥ }
{
    match word.parse::<u32>() {
        Ok(millis) if millis > 0 && millis <= MOST_MILLIS => Some(millis),
        _ => None,
    }
}

// When a word has a line be on the disk, if it says that.
fn sync_in(word: &str) -> Option<Sync>
    ensures some { IfSome result (λ sync. IsSyncOf word.now sync) }
    ensures none { result ≡ None → (sync : Sync) → IsSyncOf word.now sync → ⊥ }
{
    if word == SYNC {
        return Some(Sync::Always);
    }
    match millis_in(word) {
        Some(millis) => Some(Sync::Millis(millis)),
        None => None,
    }
}

// The number of clients that are connected at once.
fn at_once_in(keep: &ArgMatches<'_>) -> u16
    requires { (g : Given) × Holds keep_verb g (rows_of (found_of keep.now)) }
    ensures { (text : _) → one_text (found_of keep.now) (codes "at-once") ≡ Some text → result ≡ number_of text }
{
    match keep.get_one("at-once") {
        Some(at_once) => at_once,
        None => unreachable!(),
    }
}

// How many megabytes of ended epochs are kept.
fn traces_in(keep: &ArgMatches<'_>) -> u32
    requires { (g : Given) × Holds keep_verb g (rows_of (found_of keep.now)) }
    ensures { (text : _) → one_text (found_of keep.now) (codes "traces") ≡ Some text → result ≡ number_of text }
{
    match keep.get_one("traces") {
        Some(traces) => traces,
        None => unreachable!(),
    }
}

// What the words of `keep` ask for, of which one is this address, and one says this of lines on the disk.
fn kept<'a>(keep: &ArgMatches<'a>, address: Address<'a>, sync: Sync) -> Request<'a>
    requires { (g : Given) × Holds keep_verb g (rows_of (found_of keep.now)) }
    ensures { (g : Given) → Holds keep_verb g (rows_of (found_of keep.now)) → (word : Text) →
        first_value (found_of keep.now) (codes "PLACE") ≡ Some word → IsAddressOf word address.entry →
        IsSyncOf (sync_of g.sync) sync → Makes keep_verb g result }
{
    Request::Keep(Keeping {
        file: word_of(keep, "FILE"),
        folder: word_of(keep, "DIR"),
        address,
        at_once: usize::from(at_once_in(keep)),
        sync,
        stops: keep.get_flag("stop-with-input"),
        traces: traces_in(keep),
        explain: explain_in(keep),
    })
}

// What the words of `keep` ask for, or the first word of them that is not what it should be.
fn keep_request<'a>(keep: &ArgMatches<'a>) -> Result<Request<'a>, Odd<'a>>
    requires { (g : Given) × Holds keep_verb g (rows_of (found_of keep.now)) }
    ensures asked { IfOk result (λ q. (g : Given) → Holds keep_verb g (rows_of (found_of keep.now)) →
        Makes keep_verb g q) }
    ensures other { IfErr result (λ _. (g : Given) → Holds keep_verb g (rows_of (found_of keep.now)) → (q : _) →
        Makes keep_verb g q → ⊥) }
{
    let place = word_of(keep, "PLACE");
    let Some(address) = address_in(place) else {
        return Err(Odd::KeepPlace(place));
    };
    let word = word_of(keep, "sync");
    match sync_in(word) {
        Some(sync) => Ok(kept(keep, address, sync)),
        None => Err(Odd::Sync(word)),
    }
}

// What the words ask for in which this was found, or a word that is not what it should be.
pub(crate) fn matched_request<'a>(matches: &ArgMatches<'a>) -> Result<Request<'a>, Odd<'a>>
    requires { (v : Verb) × (g : Given) × IsMatched v g matches.now }
    ensures asked { IfOk result (λ q. (v : Verb) (g : Given) → IsMatched v g matches.now → Makes v g q) }
    ensures other { IfErr result (λ _. (v : Verb) (g : Given) → IsMatched v g matches.now → (q : _) →
        Makes v g q → ⊥) }
{
    if let Some(check) = matches.subcommand_matches("check") {
        return Ok(check_request(check));
    }
    if let Some(run) = matches.subcommand_matches("run") {
        return Ok(run_request(run));
    }
    if let Some(audit) = matches.subcommand_matches("audit") {
        return Ok(audit_request(audit));
    }
    if let Some(tried) = matches.subcommand_matches("try") {
        return Ok(try_request(tried));
    }
    if let Some(serve) = matches.subcommand_matches("serve") {
        return serve_request(serve);
    }
    if let Some(keep) = matches.subcommand_matches("keep") {
        return keep_request(keep);
    }
    Ok(Request::Paths)
}
