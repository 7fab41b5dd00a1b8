//! Sources whose objects may have holds: a command follows them, leaves them out, or refuses.

ghost use Rattle.std.specs.Prelude.{◌≡◌, IfErr, IfOk};
ghost use Rattle.answer_core.specs.Status.{IsFault};
ghost use Rattle.answer_core.specs.Telling.{IsPlainOrRefused, IsRuledOrRefused, TellsRefused};

use crate::explanation::Telling;
use crate::failure::ToolFailure;
use crate::holds::{refuse_faulty, refuse_held};
use decl_core::hold::Rules;
use decl_read::fault::DeclFault;
use decl_read::held_read::{Look, look_at};
use std::io;

/// What to do with a source whose objects have holds, for a command that takes them as objects without.
pub enum WithoutHolds {
    /// Go on with this source, in which no object has holds.
    Plain(Vec<u8>),
    /// It is refused, and that is told: the exit status.
    Told(u8),
}

// What a command answers of a source that has this fault in its holds, which is told: the exit status.
fn told_faulty(
    rt: &HostRuntime,
    source: &[u8],
    fault: DeclFault,
    telling: Telling,
    file: &str,
) -> Result<u8, ToolFailure>
    ensures status { IfOk result (λ status. status ≡ 1) }
    ensures fault { IfErr result IsFault }
{
    refuse_faulty(
        rt.alloc(),
        source,
        fault,
        telling,
        file,
        &mut io::writer(rt),
        &mut rt.stderr(),
    )
}

/// A source without the holds of its objects. Where these have a fault that is told, with status 1.
///
/// A failure is `WriteFault` or `Memory`.
pub fn without_holds(
    rt: &HostRuntime,
    source: Vec<u8>,
    telling: Telling,
    file: &str,
) -> Result<WithoutHolds, ToolFailure>
    ensures told { IfOk result TellsRefused }
    ensures fault { IfErr result IsFault }
{
    match look_at(rt.alloc(), &source)? {
        Look::Plain => Ok(WithoutHolds::Plain(source)),
        Look::Held(held) => Ok(WithoutHolds::Plain(held.cut)),
        Look::Faulty(fault) => {
            let status = told_faulty(rt, &source, fault, telling, file)?;
            Ok(WithoutHolds::Told(status))
        }
    }
}

/// A source whose objects have no holds. Where they have some, or a fault of them, that is told, with status 1; this is
/// to be used instead.
///
/// A failure is `WriteFault` or `Memory`.
pub fn plain_source(
    rt: &HostRuntime,
    source: Vec<u8>,
    telling: Telling,
    file: &str,
    instead: &[u8],
) -> Result<WithoutHolds, ToolFailure>
    ensures plain { IfOk result (λ plain. IsPlainOrRefused source.items plain) }
    ensures fault { IfErr result IsFault }
{
    match look_at(rt.alloc(), &source)? {
        Look::Plain => Ok(WithoutHolds::Plain(source)),
        Look::Held(held) => {
            let status = refuse_held(rt.alloc(), &held, instead, &mut io::writer(rt))?;
            Ok(WithoutHolds::Told(status))
        }
        Look::Faulty(fault) => {
            let status = told_faulty(rt, &source, fault, telling, file)?;
            Ok(WithoutHolds::Told(status))
        }
    }
}

/// A source without the holds of its objects, and what each of them says of gone clients and of time, in their order; or
/// the exit status, where a fault of the holds was told.
pub enum Ruled {
    /// Go on with these; the rules are none where no object has any.
    By(Vec<u8>, Vec<Rules>),
    /// It is refused, and that is told.
    Told(u8),
}

/// A source and its rules, for a server that follows them. Where these have a fault that is told, with status 1.
///
/// A failure is `WriteFault` or `Memory`.
pub fn ruled_source(
    rt: &HostRuntime,
    source: Vec<u8>,
    telling: Telling,
    file: &str,
) -> Result<Ruled, ToolFailure>
    ensures told { IfOk result IsRuledOrRefused }
    ensures fault { IfErr result IsFault }
{
    match look_at(rt.alloc(), &source)? {
        Look::Plain => Ok(Ruled::By(source, Vec::new(rt.alloc()))),
        Look::Held(held) => Ok(Ruled::By(held.cut, held.rules)),
        Look::Faulty(fault) => {
            let status = told_faulty(rt, &source, fault, telling, file)?;
            Ok(Ruled::Told(status))
        }
    }
}
