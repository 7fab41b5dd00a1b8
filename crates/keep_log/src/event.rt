//! The lines of events.

ghost use Rattle.std.specs.Prelude.{◌≡◌, ◌++◌, OnOk};
ghost use Rattle.keep_log.specs.Events.{begins, because, carries_on, changes, ends, fails, keeps, lacks, lets_go, notes, starts, why_word, work_word, works};

use crate::line::{Level, LineForm, push_count, push_end, push_head, push_word};
use cause_core::cause::{Cause, cause_words};
use jiff_core::civil::DateTime;
use std::alloc::AllocError;

/// Why a client is let go that did not leave by itself.
#[derive(Clone, Copy, Debug, PartialEq, Eq)]
pub enum LetGo {
    /// Nothing can be read of its connection.
    Broke,
    /// Nothing can be written to it.
    Unwritten,
    /// It sends no more, and has lines that wait to be done.
    Over,
}

/// What failed with a journal.
#[derive(Clone, Copy, Debug, PartialEq, Eq)]
pub enum Work {
    /// Lines could not be written.
    Write,
    /// What was written could not be stored.
    Sync,
    /// It could not begin anew.
    Change,
}

/// A server starts, of so many objects, over this folder and at this place.
pub fn push_start(
    out: &mut Vec<u8>,
    form: LineForm,
    moment: DateTime,
    objects: u64,
    folder: &[u8],
    place: &[u8],
) -> Result<(), AllocError>
    ensures { OnOk result (out.new.items ≡ out.old.items ++ starts form moment objects folder.now place.now) }
{
    push_head(out, form, moment, Level::Info, b"start")?;
    push_count(out, form, b"objects", objects)?;
    push_word(out, form, b"folder", folder)?;
    push_word(out, form, b"place", place)?;
    push_end(out, form)
}

/// An object goes on behind its journal, which has so many bytes, and so many lines.
pub fn push_recovered(
    out: &mut Vec<u8>,
    form: LineForm,
    moment: DateTime,
    object: &[u8],
    bytes: u64,
    lines: u64,
) -> Result<(), AllocError>
    ensures { OnOk result (out.new.items ≡ out.old.items ++ carries_on form moment object.now bytes lines) }
{
    push_head(out, form, moment, Level::Info, b"recovered")?;
    push_word(out, form, b"object", object)?;
    push_count(out, form, b"bytes", bytes)?;
    push_count(out, form, b"lines", lines)?;
    push_end(out, form)
}

/// An object begins, without a journal.
pub fn push_begun(
    out: &mut Vec<u8>,
    form: LineForm,
    moment: DateTime,
    object: &[u8],
) -> Result<(), AllocError>
    ensures { OnOk result (out.new.items ≡ out.old.items ++ begins form moment object.now) }
{
    push_head(out, form, moment, Level::Info, b"begun")?;
    push_word(out, form, b"object", object)?;
    push_end(out, form)
}

/// A new epoch of an object has begun, with a front of so many bytes.
pub fn push_epoch(
    out: &mut Vec<u8>,
    form: LineForm,
    moment: DateTime,
    object: &[u8],
    bytes: u64,
) -> Result<(), AllocError>
    ensures { OnOk result (out.new.items ≡ out.old.items ++ changes form moment object.now bytes) }
{
    push_head(out, form, moment, Level::Info, b"epoch")?;
    push_word(out, form, b"object", object)?;
    push_count(out, form, b"bytes", bytes)?;
    push_end(out, form)
}

// Adds why something failed, and the end.
fn push_cause_end(out: &mut Vec<u8>, form: LineForm, cause: Cause) -> Result<(), AllocError>
    ensures { OnOk result (out.new.items ≡ out.old.items ++ because form cause) }
{
    push_word(out, form, b"cause", cause_words(cause))?;
    push_end(out, form)
}

/// No new epoch could be written, for this cause; the old one goes on.
pub fn push_no_epoch(
    out: &mut Vec<u8>,
    form: LineForm,
    moment: DateTime,
    object: &[u8],
    cause: Cause,
) -> Result<(), AllocError>
    ensures { OnOk result (out.new.items ≡ out.old.items ++ keeps form moment object.now cause) }
{
    push_head(out, form, moment, Level::Warn, b"no-epoch")?;
    push_word(out, form, b"object", object)?;
    push_cause_end(out, form, cause)?;
    Ok(())
}

fn why_text(why: LetGo) -> &'static [u8]
    ensures { result.now ≡ why_word why }
{
    match why {
        LetGo::Broke => b"broke",
        LetGo::Unwritten => b"unwritten",
        LetGo::Over => b"over",
    }
}

fn work_text(work: Work) -> &'static [u8]
    ensures { result.now ≡ work_word work }
{
    match work {
        Work::Write => b"write",
        Work::Sync => b"sync",
        Work::Change => b"change",
    }
}

/// A client is let go, of the connection with this number.
pub fn push_let_go(
    out: &mut Vec<u8>,
    form: LineForm,
    moment: DateTime,
    connection: u64,
    why: LetGo,
) -> Result<(), AllocError>
    ensures { OnOk result (out.new.items ≡ out.old.items ++ lets_go form moment connection why) }
{
    push_head(out, form, moment, Level::Info, b"let-go")?;
    push_count(out, form, b"connection", connection)?;
    push_word(out, form, b"why", why_text(why))?;
    push_end(out, form)
}

// Adds what failed, and why, and the end.
fn push_work(out: &mut Vec<u8>, form: LineForm, work: Work, cause: Cause) -> Result<(), AllocError>
    ensures { OnOk result (out.new.items ≡ out.old.items ++ works form work cause) }
{
    push_word(out, form, b"work", work_text(work))?;
    push_cause_end(out, form, cause)
}

/// The journal of an object failed, for this cause, and the server ends.
pub fn push_failed(
    out: &mut Vec<u8>,
    form: LineForm,
    moment: DateTime,
    object: &[u8],
    work: Work,
    cause: Cause,
) -> Result<(), AllocError>
    ensures { OnOk result (out.new.items ≡ out.old.items ++ fails form moment object.now work cause) }
{
    push_head(out, form, moment, Level::Error, b"journal-failed")?;
    push_word(out, form, b"object", object)?;
    push_work(out, form, work, cause)?;
    Ok(())
}

/// A status cannot be written, in the file at this path, for this cause.
pub fn push_no_status(
    out: &mut Vec<u8>,
    form: LineForm,
    moment: DateTime,
    path: &[u8],
    cause: Cause,
) -> Result<(), AllocError>
    ensures { OnOk result (out.new.items ≡ out.old.items ++ lacks form moment path.now cause) }
{
    push_head(out, form, moment, Level::Warn, b"no-status")?;
    push_word(out, form, b"path", path)?;
    push_cause_end(out, form, cause)?;
    Ok(())
}

/// What a start tells, and goes on.
pub fn push_notice(
    out: &mut Vec<u8>,
    form: LineForm,
    moment: DateTime,
    said: &[u8],
) -> Result<(), AllocError>
    ensures { OnOk result (out.new.items ≡ out.old.items ++ notes form moment said.now) }
{
    push_head(out, form, moment, Level::Warn, b"notice")?;
    push_word(out, form, b"said", said)?;
    push_end(out, form)
}

/// A server ends with this status, so many seconds after it began.
pub fn push_stop(
    out: &mut Vec<u8>,
    form: LineForm,
    moment: DateTime,
    status: u8,
    seconds: u64,
) -> Result<(), AllocError>
    ensures { OnOk result (out.new.items ≡ out.old.items ++ ends form moment status seconds) }
{
    push_head(out, form, moment, Level::Info, b"end")?;
    push_count(out, form, b"status", u64::from(status))?;
    push_count(out, form, b"seconds", seconds)?;
    push_end(out, form)
}
