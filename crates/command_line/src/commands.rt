//! The commands of the program, as the parser is told them: their arguments, options and flags.

ghost use Rattle.std.specs.Prelude.{◌≡◌, false, IfOk};
ghost use Rattle.clap.specs.Simple.{App, app_of, new_app, with_subcommand};
ghost use Rattle.clap.specs.Walk.{rule_of};
ghost use Rattle.command_line.specs.Forms.{paths, check as check_verb};
ghost use Rattle.command_line.specs.Forms.{run as run_verb, audit as audit_verb, attempt as try_verb};
ghost use Rattle.command_line.specs.Forms.{serve as serve_verb};
ghost use Rattle.command_line.specs.Forms.{keep as keep_verb};
ghost use Rattle.command_line.specs.Commands.{app_for, flag_rule, program};
ghost use Rattle.command_line.specs.Commands.{at_once_rule, past_rule, required_rule, optional_rule, sessions_rule};
ghost use Rattle.command_line.specs.Commands.{program_top, sync_rule};
ghost use Rattle.command_line.specs.Making.{AddsCommand, AddsExplain, AddsRule, IsMade, IsMadeAs};
ghost use Rattle.command_line.specs.Commands.{traces_rule};

use crate::help;
use clap::builder::ValueParser;
use clap::{Arg, ArgAction, Command};
use std::alloc::{AllocError, Global};

// The number of connections that are taken where the command line names none, and the most.
const SESSIONS: &str = "16";

const MOST_SESSIONS: u64 = 64;

// The number of clients that are connected at once where the command line names none, and the most.
const AT_ONCE: &str = "1000";

const MOST_AT_ONCE: u64 = 10000;

// When a line has to be on the disk where the command line does not say it.
pub(crate) const SYNC: &str = "always";

// How many megabytes of ended epochs are kept where the command line does not say it, and the most.
const TRACES: &str = "300";

const MOST_TRACES: u64 = 1000000;

// An argument that has to be there.
fn required<'a>(alloc: Global, name: &'a str, help: &'a str) -> Arg<'a>
    ensures rule { rule_of result ≡ required_rule name.entry.now }
    ensures local { result.global ≡ false }
{
    Arg::new(alloc, name).required(true).help(help)
}

// An argument that may be there.
fn optional<'a>(alloc: Global, name: &'a str, help: &'a str) -> Arg<'a>
    ensures rule { rule_of result ≡ optional_rule name.entry.now }
    ensures local { result.global ≡ false }
{
    Arg::new(alloc, name).help(help)
}

// A flag.
fn flag<'a>(alloc: Global, name: &'a str, help: &'a str) -> Arg<'a>
    ensures rule { rule_of result ≡ flag_rule name.entry.now }
    ensures local { result.global ≡ false }
{
    Arg::new(alloc, name)
        .long(name)
        .action(ArgAction::SetTrue)
        .help(help)
}

// The option `--sessions`.
fn sessions_option<'a>(alloc: Global) -> Arg<'a>
    ensures rule { rule_of result ≡ sessions_rule }
    ensures local { result.global ≡ false }
{
    Arg::new(alloc, "sessions")
        .long("sessions")
        .value_name("N")
        .default_value(SESSIONS)
        .value_parser(ValueParser::unsigned(1, MOST_SESSIONS))
        .help(help::SERVE_SESSIONS)
}

// The option `--at-once`.
fn at_once_option<'a>(alloc: Global) -> Arg<'a>
    ensures rule { rule_of result ≡ at_once_rule }
    ensures local { result.global ≡ false }
{
    Arg::new(alloc, "at-once")
        .long("at-once")
        .value_name("N")
        .default_value(AT_ONCE)
        .value_parser(ValueParser::unsigned(1, MOST_AT_ONCE))
        .help(help::KEEP_AT_ONCE)
}

// The option `--sync`.
fn sync_option<'a>(alloc: Global) -> Arg<'a>
    ensures rule { rule_of result ≡ sync_rule }
    ensures local { result.global ≡ false }
{
    Arg::new(alloc, "sync")
        .long("sync")
        .value_name("WORD")
        .default_value(SYNC)
        .help(help::KEEP_SYNC)
}

// The option `--traces`.
fn traces_option<'a>(alloc: Global) -> Arg<'a>
    ensures rule { rule_of result ≡ traces_rule }
    ensures local { result.global ≡ false }
{
    Arg::new(alloc, "traces")
        .long("traces")
        .value_name("MB")
        .default_value(TRACES)
        .value_parser(ValueParser::unsigned(1, MOST_TRACES))
        .help(help::KEEP_TRACES)
}

// The option `--past`.
fn past_option<'a>(alloc: Global) -> Arg<'a>
    ensures rule { rule_of result ≡ past_rule }
    ensures local { result.global ≡ false }
{
    Arg::new(alloc, "past")
        .long("past")
        .value_name("OBJECT:OPERATION:K")
        .action(ArgAction::Append)
        .help(help::KEEP_PAST)
}

// A command with its name and its texts, and no argument.
fn titled<'a>(alloc: Global, name: &'a str, about: &'a str, more: &'a str) -> Command<'a>
    ensures { IsMade result (new_app name.entry.now) }
{
    Command::new(alloc, name).about(about).after_help(more)
}

// A command that was made, with one more argument: so no owner lives across a `?`.
fn with_argument<'a>(
    made: Result<Command<'a>, AllocError>,
    argument: Arg<'a>,
) -> Result<Command<'a>, AllocError>
    ensures { IfOk result (λ c. AddsRule made.entry argument.entry c) }
{
    match made {
        Ok(command) => command.arg(argument),
        Err(error) => Err(error),
    }
}

// A command that was made, with the flags `--explain` and `--no-explain`.
fn with_explain<'a>(
    alloc: Global,
    made: Result<Command<'a>, AllocError>,
    help: &'a str,
) -> Result<Command<'a>, AllocError>
    ensures { IfOk result (λ c. AddsExplain made.entry c) }
{
    let explained = with_argument(made, flag(alloc, "explain", help));
    with_argument(explained, flag(alloc, "no-explain", help::SILENCE))
}

// `pathserve paths`.
fn paths_command<'a>(alloc: Global) -> Result<Command<'a>, AllocError>
    ensures { IfOk result (λ c. IsMade c (app_for paths)) }
{
    Ok(titled(alloc, "paths", help::PATHS, help::PATHS_MORE))
}

// `pathserve check`.
fn check_command<'a>(alloc: Global) -> Result<Command<'a>, AllocError>
    ensures { IfOk result (λ c. IsMade c (app_for check_verb)) }
{
    let one = with_argument(
        Ok(titled(alloc, "check", help::CHECK, help::CHECK_MORE)),
        required(alloc, "FILE", help::CHECK_FILE),
    );
    let two = with_argument(one, flag(alloc, "stuck", help::CHECK_STUCK));
    with_explain(alloc, two, help::EXPLAIN)
}

// `pathserve run`.
fn run_command<'a>(alloc: Global) -> Result<Command<'a>, AllocError>
    ensures { IfOk result (λ c. IsMade c (app_for run_verb)) }
{
    let one = with_argument(
        Ok(titled(alloc, "run", help::RUN, help::RUN_MORE)),
        required(alloc, "FILE", help::RUN_FILE),
    );
    let two = with_argument(one, required(alloc, "SCRIPT", help::RUN_SCRIPT));
    with_explain(alloc, two, help::RUN_EXPLAIN)
}

// `pathserve audit`.
fn audit_command<'a>(alloc: Global) -> Result<Command<'a>, AllocError>
    ensures { IfOk result (λ c. IsMade c (app_for audit_verb)) }
{
    let one = with_argument(
        Ok(titled(alloc, "audit", help::AUDIT, help::AUDIT_MORE)),
        required(alloc, "FILE", help::AUDIT_FILE),
    );
    let two = with_argument(one, required(alloc, "TRACE", help::AUDIT_TRACE));
    with_explain(alloc, two, help::AUDIT_EXPLAIN)
}

// `pathserve try`.
fn try_command<'a>(alloc: Global) -> Result<Command<'a>, AllocError>
    ensures { IfOk result (λ c. IsMade c (app_for try_verb)) }
{
    let one = with_argument(
        Ok(titled(alloc, "try", help::TRY, help::TRY_MORE)),
        required(alloc, "FILE", help::RUN_FILE),
    );
    let two = with_argument(one, optional(alloc, "NAME", help::TRY_NAME));
    with_explain(alloc, two, help::TRY_EXPLAIN)
}

// `pathserve serve`.
pub(crate) fn serve_command<'a>(alloc: Global) -> Result<Command<'a>, AllocError>
    ensures { IfOk result (λ c. IsMade c (app_for serve_verb)) }
{
    let one = with_argument(
        Ok(titled(alloc, "serve", help::SERVE, help::SERVE_MORE).override_usage(help::SERVE_USAGE)),
        required(alloc, "FILE", help::SERVE_FILE),
    );
    let two = with_argument(one, required(alloc, "DIR", help::SERVE_DIR));
    let three = with_argument(two, required(alloc, "PLACE", help::SERVE_PLACE));
    let four = with_argument(three, sessions_option(alloc));
    let five = with_argument(four, flag(alloc, "stop-with-input", help::SERVE_STOP));
    with_explain(alloc, five, help::EXPLAIN)
}

// `pathserve keep`.
pub(crate) fn keep_command<'a>(alloc: Global) -> Result<Command<'a>, AllocError>
    ensures { IfOk result (λ c. IsMade c (app_for keep_verb)) }
{
    let one = with_argument(
        Ok(titled(alloc, "keep", help::KEEP, help::KEEP_MORE).override_usage(help::KEEP_USAGE)),
        required(alloc, "FILE", help::SERVE_FILE),
    );
    let two = with_argument(one, required(alloc, "DIR", help::KEEP_DIR));
    let three = with_argument(two, required(alloc, "PLACE", help::SERVE_PLACE));
    let four = with_argument(three, at_once_option(alloc));
    let five = with_argument(four, sync_option(alloc));
    let six = with_argument(five, traces_option(alloc));
    let seven = with_argument(six, past_option(alloc));
    let eight = with_argument(seven, flag(alloc, "stop-with-input", help::SERVE_STOP));
    with_explain(alloc, eight, help::EXPLAIN)
}

// A subcommand that was made, which has the name of the program where it tells its version.
fn named<'a>(made: Result<Command<'a>, AllocError>) -> Result<Command<'a>, AllocError>
    ensures { IfOk result (λ c. IsMadeAs made.entry c) }
{
    match made {
        Ok(command) => command.display_name(help::NAME),
        Err(error) => Err(error),
    }
}

// A command with one more subcommand, where that was made.
fn joined<'a>(
    command: Command<'a>,
    below: Result<Command<'a>, AllocError>,
) -> Result<Command<'a>, AllocError>
    ensures { IfOk result (λ c. (a b : App) → app_of command.entry ≡ a → IfOk below.entry (λ s. IsMade s b) →
        app_of c ≡ with_subcommand a b.top) }
{
    match below {
        Ok(added) => command.subcommand(added),
        Err(error) => Err(error),
    }
}

// A command that was made, with one more subcommand.
fn with_command<'a>(
    made: Result<Command<'a>, AllocError>,
    below: Result<Command<'a>, AllocError>,
) -> Result<Command<'a>, AllocError>
    ensures { IfOk result (λ c. AddsCommand made.entry below.entry c) }
{
    match made {
        Ok(command) => joined(command, named(below)),
        Err(error) => Err(error),
    }
}

// The program, without its subcommands.
fn program_alone<'a>(alloc: Global) -> Command<'a>
    ensures { app_of result ≡ program_top }
{
    titled(alloc, help::NAME, help::PROGRAM, help::PROGRAM_MORE)
        .version(help::VERSION)
        .propagate_version(true)
        .subcommand_required(true)
}

// The commands of the program.
pub(crate) fn command<'a>(alloc: Global) -> Result<Command<'a>, AllocError>
    ensures { IfOk result (λ c. app_of c ≡ program) }
{
    let one = with_command(Ok(program_alone(alloc)), paths_command(alloc));
    let two = with_command(one, check_command(alloc));
    let three = with_command(two, run_command(alloc));
    let four = with_command(three, audit_command(alloc));
    let five = with_command(four, try_command(alloc));
    let six = with_command(five, serve_command(alloc));
    with_command(six, keep_command(alloc))
}
