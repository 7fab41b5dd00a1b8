//! The body of an operation, done on whole values.

ghost use Rattle.std.specs.Prelude.{◌≡◌, ◌<◌, ℕ, length, map, IfOk, IfErr};
ghost use Rattle.std.specs.Result.{IsErrOf};
ghost use Rattle.value_core.specs.Contents.{kind_of, IsContents};
ghost use Rattle.decl_core.specs.Bodies.{body_of};
ghost use Rattle.decl_core.specs.Meaning.{apply_body, done, part_at};
ghost use Rattle.apply_core.specs.Fits.{ArgumentsFit, HoldsReads};
ghost use Rattle.known_core.specs.Log.{taken_back};
ghost use Rattle.known_core.specs.Breaks.{WholeTells, StopsAs};
ghost use Rattle.known_core.specs.declared.act.Stop.TheVariants.{Needs};

use crate::act::Stop;
use crate::evaluate::evaluate_into;
use crate::logged::LoggedValues;
use crate::pages::Pages;
use crate::stop_word::StopWord;
use decl_core::object::Operation;
use value_core::datum::Datum;
use value_core::value::Value;

// Why a body on whole values stopped.
#[derive(Clone, Copy)]
pub(crate) enum WholeStop {
    // It was refused by this word.
    Refused(StopWord),
    // Memory was refused.
    Memory,
}

// Does the body of an operation on values, in place: that of part p stands at place p, where the operation reads it.
// All of them is known, so that it is done or refused. A body that ends otherwise leaves them changed in part. The
// reply is written where the caller keeps it, since that has room for a kilobyte.
pub(crate) fn evaluate_whole(
    operation: &Operation,
    args: &[Datum],
    parts: &mut LoggedValues,
    reply: &mut Option<Datum>,
) -> Result<(), WholeStop>
    requires fits { ArgumentsFit operation.now args.now }
    requires held { HoldsReads operation.now parts.old.values.items }
    ensures done { IfOk result (λ _. apply_body (body_of operation.now) args.now parts.old.values.items
        ≡ (done reply.new, parts.new.values.items)) }
    ensures stopped { IfErr result (λ stop.
        WholeTells (apply_body (body_of operation.now) args.now parts.old.values.items).0 stop) }
    ensures kinds { map kind_of parts.new.values.items ≡ map kind_of parts.old.values.items }
    ensures back { taken_back parts.new.log.items parts.new.values.items ≡ taken_back parts.old.log.items parts.old.values.items }
    // Only a body that changes a part takes memory.
    ensures memory { IsErrOf result WholeStop.Memory → 0 < length parts.old.values.items }
{
    match evaluate_into(operation, args, parts, &Pages::full(), reply) {
        Ok(()) => Ok(()),
        Err(stop) => Err(needing_nothing(stop, &parts.values)),
    }
}

// Why a body stopped of which nothing was needed.
fn needing_nothing(stop: Stop, parts: &[Value]) -> WholeStop
    requires there { (p i : ℕ) → stop ≡ Needs p i → p < length parts.now }
    requires none { (p i : ℕ) → stop ≡ Needs p i → p < 16 → IsContents (part_at parts.now p) → ⊥ }
    ensures { StopsAs stop result }
{
    match stop {
        Stop::Refused(word) => WholeStop::Refused(word),
        Stop::Memory => WholeStop::Memory,
        Stop::Needs(part, _) => {
            // Called for its contract alone: what lies there are contents that a value can have, so this cannot be.
            let _kind = parts[part.place() as usize].kind();
            unreachable!()
        }
    }
}
