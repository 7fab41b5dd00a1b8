//! `pathserve try`: an object at a prompt.

ghost use Rattle.std.specs.Prelude.{◌≤◌, IfErr, IfOk};
ghost use Rattle.answer_core.specs.Status.{IsFault};

use crate::try_answer::answer_try;
use answer_core::answer::REFUSED;
use answer_core::explanation::{Telling, explained};
use answer_core::failure::ToolFailure;
use answer_core::inputs::source_at;
use answer_core::lack::Wanted;
use answer_core::said::{telling_of, told, told_unread, written};
use check_core::open::{OpenedScript, fault_text, judged, open_script};
use command_line::help::TRY_LINES;
use command_line::request::Explain;
use decl_core::analyse::Accepted;
use decl_read::read::read_objects;
use explain_trace::listed::listed;
use explain_trace::prompt::{Asking, Manner};
use note_core::kept::CopyingReader;
use path_tree::name::is_identifier;
use std::alloc::{AllocError, Global};
use std::io::{self, IsTerminal};
use world_core::prompt::Texts;

// The first line of a script on an object of this name.
fn head_of(alloc: Global, name: &[u8]) -> Result<Vec<u8>, AllocError> {
    let mut head = Vec::new(alloc);
    head.extend_from_slice(b"object ")?;
    head.extend_from_slice(name)?;
    head.push(b'\n')?;
    Ok(head)
}

// What a script on an object of this name runs on.
fn open_named(alloc: Global, source: &[u8], name: &[u8]) -> Result<OpenedScript, AllocError> {
    let head = head_of(alloc, name)?;
    open_script(alloc, source, &head)
}

// A line that is told in place of an object.
fn line_told(alloc: Global, front: &[u8], name: &[u8]) -> Result<OpenedScript, AllocError> {
    let mut line = Vec::new(alloc);
    line.extend_from_slice(front)?;
    line.extend_from_slice(name)?;
    line.push(b'\n')?;
    Ok(OpenedScript::Told(line))
}

// The object of this name in a source, or why there is none to call.
fn open_given(alloc: Global, source: &[u8], name: &str) -> Result<OpenedScript, AllocError> {
    if is_identifier(name.as_bytes()) {
        open_named(alloc, source, name.as_bytes())
    } else {
        line_told(alloc, b"no object ", name.as_bytes())
    }
}

// The first object of a source, or why there is none to call.
fn open_first(alloc: Global, source: &[u8]) -> Result<OpenedScript, AllocError> {
    match read_objects(alloc, source) {
        Err(fault) => {
            let line = fault_text(alloc, fault)?;
            Ok(OpenedScript::Told(line))
        }
        Ok(all) => match all.into_values().next() {
            Some(object) => judged(alloc, object),
            None => line_told(alloc, b"no object", b""),
        },
    }
}

// The object that is called.
fn open(alloc: Global, source: &[u8], name: Option<&str>) -> Result<OpenedScript, AllocError> {
    match name {
        Some(name) => open_given(alloc, source, name),
        None => open_first(alloc, source),
    }
}

// What `list` is answered over this object of a source.
fn list_of(alloc: Global, source: &[u8], accepted: &Accepted) -> Result<Vec<u8>, AllocError> {
    match read_objects(alloc, source) {
        Ok(all) => listed(alloc, &all, accepted.object()),
        Err(_) => Err(AllocError),
    }
}

// Tells a line in place of an object, and why.
fn tell_line(
    rt: &HostRuntime,
    source: &[u8],
    line: &[u8],
    path: &str,
    name: Option<&str>,
    telling: Telling,
) -> Result<u8, ToolFailure>
    ensures status { IfOk result (λ status. status ≤ 1) }
    ensures fault { IfErr result IsFault }
{
    let ended = written(line, REFUSED, &mut io::writer(rt));
    let only = match name {
        Some(name) => Some(name.as_bytes()),
        None => None,
    };
    explained(
        rt.alloc(),
        ended,
        telling,
        path,
        source,
        only,
        &mut rt.stderr(),
    )
}

// How lines are read: a refusal is explained unless that is not wanted, and a person is asked.
fn manner_of(rt: &HostRuntime, telling: Telling) -> Manner {
    Manner {
        explains: telling != Telling::Nothing,
        asks: rt.stdin().is_terminal(),
    }
}

// Answers the lines of standard input; `again` is the object once more, for what is told of them.
fn answer_input(
    rt: &HostRuntime,
    accepted: Accepted,
    again: Accepted,
    list: &[u8],
    manner: Manner,
) -> Result<u8, ToolFailure>
    ensures status { IfOk result (λ status. status ≤ 1) }
    ensures fault { IfErr result IsFault }
{
    let mut kept = CopyingReader::new(rt.alloc(), rt.stdin(), 0);
    let mut asking = Asking::new(rt.alloc(), &mut kept, rt.stderr(), again, manner);
    let texts = Texts {
        help: TRY_LINES.as_bytes(),
        list,
    };
    let ended = answer_try(
        rt.alloc(),
        accepted,
        texts,
        &mut asking,
        &mut io::writer(rt),
    );
    asking.end();
    told_unread(rt, ended, Wanted::Input, "", &kept)
}

// Answers the lines of standard input over this object of a source, which is opened once more for what is told of them.
fn answer_opened(
    rt: &HostRuntime,
    accepted: Accepted,
    source: &[u8],
    path: &str,
    name: Option<&str>,
    telling: Telling,
) -> Result<u8, ToolFailure>
    ensures status { IfOk result (λ status. status ≤ 1) }
    ensures fault { IfErr result IsFault }
{
    match open(rt.alloc(), source, name)? {
        OpenedScript::Ready(again) => {
            let list = list_of(rt.alloc(), source, &again)?;
            answer_input(rt, accepted, again, &list, manner_of(rt, telling))
        }
        OpenedScript::Told(line) => tell_line(rt, source, &line, path, name, telling),
    }
}

/// `pathserve try`, of the object of this name or the first one. It gives the exit status: 0 where there is an object to
/// call, whatever its lines were answered, 1 where there is none.
///
/// A failure is, in this order: `ReadFault`, which is told, where the source cannot be opened or read; `Memory`; `ReadFault`
/// of standard input, which is told, or `WriteFault`.
pub fn run_try(
    rt: &HostRuntime,
    path: &str,
    name: Option<&str>,
    when: Explain,
) -> Result<u8, ToolFailure>
    ensures status { IfOk result (λ status. status ≤ 1) }
    ensures fault { IfErr result IsFault }
{
    let source = match source_at(rt, path) {
        Ok(source) => source,
        Err(lacking) => return Err(told(rt, lacking, path)),
    };
    let telling = telling_of(rt, when);
    match open(rt.alloc(), &source, name)? {
        OpenedScript::Ready(accepted) => answer_opened(rt, accepted, &source, path, name, telling),
        OpenedScript::Told(line) => tell_line(rt, &source, &line, path, name, telling),
    }
}
