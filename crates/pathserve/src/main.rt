//! The program `pathserve`.
//!
//! `pathserve paths` reads paths, starts and finishes from standard input and answers each line.
//! `pathserve check FILE` says of each object of a file whether its paths keep operations that conflict
//! apart, and by which nodes.
//! `pathserve run FILE SCRIPT` runs a script of calls, device steps and finishes on an object of a file.
//! `pathserve try FILE` answers such calls line by line, at a prompt.
//! `pathserve audit FILE TRACE` says whether a trace of an object of a file is legal, or which line of it is not;
//! `pathserve audit FILE DIR` whether the epochs of each object of a file can have happened, one after another.
//! `pathserve serve FILE DIR PLACE` serves the objects of a file to clients on this machine.
//! With `--explain`, and where standard error is a terminal, standard error gets why a source, an object of it, a line
//! of a script or a trace is refused; `--no-explain` leaves that out. Nothing else changes by it.
//! Exit statuses: 0 accepted, and help that was asked for, 1 refused, 2 usage, 3 read or write fault, 4 out of memory.
//! Standard error gets what could not be read, before the line `read fault`.
//!
//! `answer` says what they do over any reader and writer, and `failure` what the program ends with
//! where it has no answer. What stands here hands them the command line and the streams.
#![tactic(auto)]

ghost use Rattle.std.specs.Prelude.{◌≡◌};
ghost use Rattle.std.specs.Process.{exit_status as code};
ghost use Rattle.answer_core.specs.Status.{exit_status_of};

mod ending;
mod keep;

use crate::ending::status_of_keep;
use crate::keep::run_keep;
use answer_core::answer::REFUSED;
use answer_core::failure::{ToolFailure, exit_status, words_end};
use command_line::request::{Request, request_of};
use command_line::watching::taken_apart;
use command_tool::attempt::run_try;
use command_tool::audit::run_audit;
use command_tool::check::run_check;
use command_tool::paths::run_paths;
use command_tool::script::run_script;
use command_tool::serve::serve_objects;
use command_tool::start::{Prepared, ServerStart, prepare_server, stop_with_input};
use note_core::files::Files;
use std::process::ExitCode;
use std::sync::Arc;
use std::{env, io, thread};

fn main(rt: HostRuntime) -> ExitCode {
    let ended = match prepare(&rt) {
        Ok(Prepared::Ended(status)) => Ok(status),
        Ok(Prepared::Serves(started, stops)) => {
            let ServerStart {
                source,
                place,
                gate,
                lock,
                socket,
            } = started;
            let is_watched = match Arc::try_clone(&gate) {
                // Nobody waits for this thread: it ends with the program, where standard input does not end before.
                Ok(theirs) if stops => thread::spawn(
                    &rt,
                    move || stop_with_input(rt, &theirs),
                ).is_ok(),
                Ok(_) => true,
                Err(_) => false,
            };
            let ended = if is_watched {
                serve_objects(
                    &rt,
                    &source,
                    place,
                    &gate,
                    &mut io::writer(&rt),
                    &mut rt.stderr(),
                )
            } else {
                Err(ToolFailure::Memory)
            };
            if let Some(socket) = socket {
                socket.remove(&rt);
            }
            // Until now nobody else may serve from the folder.
            drop(lock);
            ended
        }
        Err(failure) => Err(failure),
    };
    if let Err(failure) = &ended {
        let _ = eprint!(rt; "{failure}");
    }
    code_of(&ended)
}

// What the process ends with.
fn code_of(ended: &Result<u8, ToolFailure>) -> ExitCode
    ensures { code result ≡ exit_status_of ended.now }
{
    ExitCode::from(exit_status(ended))
}

// Does what the command line asks for, as far as it takes no threads.
fn prepare(rt: &HostRuntime) -> Result<Prepared, ToolFailure> {
    let words: Vec<String> = env::args(rt)?.collect(rt.alloc())?;
    let words: Vec<&str> = words.iter().map(|word| word.as_str()).collect(rt.alloc())?;
    let words = taken_apart(rt.alloc(), words.as_slice())?;
    let ended = match request_of(rt.alloc(), words.words()) {
        Ok(Request::Serve(asked)) => return prepare_server(rt, asked),
        Ok(Request::Keep(asked)) => match run_keep(rt, asked, &words) {
            Ok(end) => Ok(status_of_keep(end)),
            Err(failure) => Err(failure),
        },
        Ok(request) => run(rt, request),
        Err(error) => words_end(error, &mut io::writer(rt)),
    };
    match ended {
        Ok(status) => Ok(Prepared::Ended(status)),
        Err(failure) => Err(failure),
    }
}

// Does what is asked for, and gives the exit status.
fn run(rt: &HostRuntime, request: Request<'_>) -> Result<u8, ToolFailure> {
    match request {
        Request::Paths => run_paths(rt),
        Request::Check(path, when, stuck) => run_check(rt, path, when, stuck),
        Request::Run(source, text, when) => run_script(rt, Files { source, text }, when),
        Request::Audit(source, text, when) => run_audit(rt, Files { source, text }, when),
        Request::Try(path, name, when) => run_try(rt, path, name, when),
        // `prepare` has them: they do not come here.
        Request::Keep(_) | Request::Serve(_) => Ok(REFUSED),
    }
}
