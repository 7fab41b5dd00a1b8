//! Whether a call may have these arguments or these values.

ghost use Rattle.std.specs.Prelude.{◌≡◌, ◌↔◌, IsTrue, map};
ghost use Rattle.value_core.specs.Datum.{elem_of};
ghost use Rattle.apply_core.specs.Fits.{ArgumentsFit, HoldsReads};
ghost use Rattle.apply_core.specs.Held.{HoldsItsKind};

use decl_core::footprint::{is_in, reads};
use decl_core::id::MOST_PARTS;
use decl_core::object::{Operation, Param};
use value_core::datum::Datum;
use value_core::kind::Kind;
use value_core::value::Value;

/// Whether the arguments are as many as the operation's parameters, each an integer or a text as its parameter
/// is. It takes no memory.
pub fn arguments_fit(operation: &Operation, args: &[Datum]) -> bool
    ensures { IsTrue result ↔ ArgumentsFit operation.now args.now }
{
    are_of(args, &operation.params)
}

// Whether these data are as many as the parameters, each of its parameter's sort.
fn are_of(args: &[Datum], params: &[Param]) -> bool
    ensures { IsTrue result ↔ (map elem_of args.now ≡ map (λ p. p.kind) params.now) }
{
    match (args, params) {
        ([], []) => true,
        ([arg, args @ ..], [param, params @ ..]) => arg.elem() == param.kind
            && are_of(args, params),
        _ => false,
    }
}

/// Whether each part that the operation reads has a value of its kind, that of part p at place p. It takes no
/// memory.
pub fn parts_fit(operation: &Operation, parts: &[Value]) -> bool
    ensures { IsTrue result ↔ HoldsReads operation.now parts.now }
{
    let read = reads(operation);
    for part in 0..MOST_PARTS {
        if is_in(part, read) && !is_held(part, &operation.kinds, parts) {
            return false;
        }
    }
    true
}

// Whether a part has a value of its kind, or its kind is not known.
fn is_held(part: usize, kinds: &[Option<Kind>], parts: &[Value]) -> bool
    ensures { IsTrue result ↔ HoldsItsKind parts.now kinds.now part }
{
    if part >= kinds.len() {
        return true;
    }
    match kinds[part] {
        Some(kind) => part < parts.len() && parts[part].kind() == kind,
        None => true,
    }
}
