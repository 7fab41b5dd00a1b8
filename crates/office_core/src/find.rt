//! What is looked up of an inside.

ghost use Rattle.std.specs.Prelude.{◌≡◌, ◌↔◌, ◌+◌, IsTrue, IfSome, IfNone, length, slice_get, Some};
ghost use Rattle.decl_core.specs.ObjectMap.{operation_of};
ghost use Rattle.page_core.specs.Lists.{Every};
ghost use Rattle.office_core.specs.Submissions.{IsCallOf, IsOf};
ghost use Rattle.office_core.specs.Slips.{Told, StandsIn};
ghost use Rattle.office_core.specs.Closing.{Misses, place_told};

use crate::seat::Submitted;
use crate::slip::Slip;
use decl_core::same::same_declaration;
use desk_core::desk::Desk;
use page_core::call::Call;
use page_core::entry::Entry;

// Whether an accepted call has the operation and the arguments of a submission.
fn is_call_of(call: &Call, submitted: &Submitted) -> bool
    ensures { IsTrue result ↔ IsCallOf submitted.now call.now }
{
    if !same_declaration(call.operation(), submitted.call.operation()) {
        return false;
    }
    call.args().is_same(submitted.call.args())
}

// Whether the call of that number has the operation and the arguments of a submission.
pub(crate) fn is_of(desk: &Desk, submitted: &Submitted) -> bool
    ensures { IsTrue result ↔ IsOf desk.now submitted.now }
{
    match desk.call(submitted.number) {
        None => false,
        Some(call) => is_call_of(call, submitted),
    }
}

// The index and the place of the first slip that tells of no entry at its place.
pub(crate) fn first_mismatched_slip(history: &[Entry], slips: &[Slip]) -> Option<(usize, usize)>
    ensures none { IfNone result (Every (StandsIn history.now) slips.now) }
    ensures some { IfSome result (λ k. Misses Told (StandsIn history.now) place_told slips.now k.0 k.1) }
{
    for k in 0..slips.len() {
        if !slips[k].stands_in(history) {
            return Some((k, slips[k].place()));
        }
    }
    None
}
