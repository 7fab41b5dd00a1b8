//! The body of an operation, done on what is known of the values of its parts.

ghost use Rattle.std.specs.Prelude.{◌≡◌, ◌<◌, length, map, Some, Ok, IfOk, IfErr};
ghost use Rattle.value_core.specs.declared.kind.Elem.TheVariants as elems;
ghost use Rattle.std.specs.Result.{IsErrOf};
ghost use Rattle.value_core.specs.Contents.{kind_of};
ghost use Rattle.decl_core.specs.Bodies.{body_of};
ghost use Rattle.decl_core.specs.Meaning.{reply_before};
ghost use Rattle.apply_core.specs.Fits.{ArgumentsFit, HoldsReads};
ghost use Rattle.known_core.specs.Breaks.{StopTells, changing, Leaves};
ghost use Rattle.known_core.specs.Masks.{known_by};
ghost use Rattle.known_core.specs.Partly.{partly_done};

use crate::act::{Stop, act_all};
use crate::pages::Pages;
use crate::parts::PartValues;
use decl_core::object::Operation;
use value_core::datum::Datum;
use value_core::kind::Elem;
use value_core::text::Text;

/// Does the body of an operation on values, in place: that of part p stands at place p, where the operation reads it,
/// and in the place of an element that is not known stands any. A body that ends otherwise leaves them changed in part.
pub fn evaluate<P: PartValues>(
    operation: &Operation,
    args: &[Datum],
    parts: &mut P,
    known: &Pages,
) -> Result<Option<Datum>, Stop>
    requires fits { ArgumentsFit operation.now args.now }
    requires held { HoldsReads operation.now (P.values parts.old) }
    ensures done { IfOk result (λ reply. partly_done (known_by known.now) (body_of operation.now) args.now
        (P.values parts.old) ≡ Ok (changing (P.values parts.new) reply)) }
    ensures stopped { IfErr result (λ stop.
        StopTells (partly_done (known_by known.now) (body_of operation.now) args.now (P.values parts.old)) stop) }
    ensures kinds { map kind_of (P.values parts.new) ≡ map kind_of (P.values parts.old) }
    ensures origin { P.origin parts.new ≡ P.origin parts.old }
    // Only a body that changes a part takes memory.
    ensures memory { IsErrOf result Stop.Memory → 0 < length (P.values parts.old) }
{
    let mut reply = None;
    match evaluate_into(operation, args, parts, known, &mut reply) {
        Ok(()) => Ok(reply),
        Err(stop) => Err(stop),
    }
}

// As `evaluate`, but it writes the reply where the caller keeps it, since that has room for a kilobyte.
pub(crate) fn evaluate_into<P: PartValues>(
    operation: &Operation,
    args: &[Datum],
    parts: &mut P,
    known: &Pages,
    reply: &mut Option<Datum>,
) -> Result<(), Stop>
    requires fits { ArgumentsFit operation.now args.now }
    requires held { HoldsReads operation.now (P.values parts.old) }
    ensures left { Leaves result (partly_done (known_by known.now) (body_of operation.now) args.now (P.values parts.old))
        (changing (P.values parts.new) reply.new) }
    ensures kinds { map kind_of (P.values parts.new) ≡ map kind_of (P.values parts.old) }
    ensures origin { P.origin parts.new ≡ P.origin parts.old }
    ensures memory { IsErrOf result Stop.Memory → 0 < length (P.values parts.old) }
{
    begin(operation.result, reply);
    act_all(&operation.body, args, parts, known, reply)
}

// The empty text, as what is replied.
fn begin_text(reply: &mut Option<Datum>)
    ensures { reply.new ≡ reply_before (Some elems.Text) }
{
    *reply = Some(Datum::Text(Text::empty()));
}

// What a function replies that sets no result; a procedure replies nothing.
fn begin(sort: Option<Elem>, reply: &mut Option<Datum>)
    ensures { reply.new ≡ reply_before sort }
{
    match sort {
        Some(Elem::Integer) => *reply = Some(Datum::Integer(0)),
        Some(Elem::Text) => begin_text(reply),
        None => *reply = None,
    }
}
