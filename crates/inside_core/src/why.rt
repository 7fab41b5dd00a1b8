//! Why a call waits.

ghost use Rattle.std.specs.Prelude.{◌≡◌, ◌≢◌, ◌++◌, [], ℕ, IfOk, IfSome, IfNone, OnOk, Some, slice_get};
ghost use Rattle.decl_core.specs.ObjectMap.{object_of};
ghost use Rattle.word_core.specs.Events.{Called};
ghost use Rattle.stuck_core.specs.ReasonViews.{whys_of};
ghost use Rattle.stuck_core.specs.Why.{why_text};
ghost use Rattle.live_core.specs.Hall.{Every};
ghost use Rattle.live_core.specs.Scene.{is_given, told_of};
ghost use Rattle.client_core.specs.ToldInside.{AreWhys, SaysState, SaysWhy, IsWhy, state_by};

use live_core::call::LiveCall;
use live_core::hosted::Hosted;
use path_tree::node::OpId;
use std::alloc::{AllocError, Global};
use stuck_core::find::reasons_by;
use stuck_core::reason::Reason;
use stuck_core::why::{CallStatus, push_state, push_why};

// The waiting call of which this number was told.
fn waiting_as(object: &Hosted, told: u64) -> Option<&LiveCall>
    ensures some { IfSome result (λ c. (k : ℕ) × (slice_get object.now.hall.waiting k ≡ Some c.now)
        × (told_of object.now c.now.number ≡ told)) }
    ensures none { IfNone result (Every (λ (c : Called). told_of object.now c.number ≢ told) object.now.hall.waiting) }
{
    let waiting = object.live().waiting();
    for place in 0..waiting.len() {
        if object.told(waiting[place].number()) == told {
            return Some(&waiting[place]);
        }
    }
    None
}

/// The nodes of paths that refuse a start of an operation of an object now.
pub(crate) fn reasons_of(
    alloc: Global,
    object: &Hosted,
    operation: OpId,
) -> Result<Vec<Reason>, AllocError>
    ensures { IfOk result (λ found. AreWhys object.now operation (whys_of found.items)) }
{
    let live = object.live();
    let found = reasons_by(alloc, &live.object().paths, live.counters(), operation)?;
    Ok(found)
}

// What a call of this number is that does not wait.
fn state_of(object: &Hosted, told: u64) -> CallStatus
    ensures { result ≡ state_by (is_given object.now told) }
{
    if object.is_given(told) {
        return CallStatus::Ended;
    }
    CallStatus::Unknown
}

// What is said of a call that does not wait.
fn say_state(alloc: Global, object: &Hosted, told: u64) -> Result<Vec<u8>, AllocError>
    requires { Every (λ (c : Called). told_of object.now c.number ≢ told) object.now.hall.waiting }
    ensures { IfOk result (λ text. SaysState object.now told text.items) }
{
    let mut out = Vec::new(alloc);
    push_state(&mut out, told, state_of(object, told))?;
    Ok(out)
}

// Adds why a call waits.
fn push_reasons(
    out: &mut Vec<u8>,
    object: &Hosted,
    told: u64,
    reasons: &[Reason],
) -> Result<(), AllocError>
    ensures { OnOk result (out.new.items ≡ out.old.items
        ++ why_text (object_of object.now.hall.object) told (whys_of reasons.now) []) }
{
    push_why(out, object.live().object(), told, reasons, &[])
}

// Why a call waits.
fn say_why(
    alloc: Global,
    object: &Hosted,
    told: u64,
    call: &LiveCall,
) -> Result<Vec<u8>, AllocError>
    requires there { (k : ℕ) × (slice_get object.now.hall.waiting k ≡ Some call.now) }
    requires told { told_of object.now call.now.number ≡ told }
    ensures { IfOk result (λ text. SaysWhy object.now told text.items) }
{
    let reasons = reasons_of(alloc, object, call.operation())?;
    let mut out = Vec::new(alloc);
    push_reasons(&mut out, object, told, &reasons)?;
    Ok(out)
}

/// What is said of the call of which this number was told: where it waits, why.
pub fn why_of(alloc: Global, object: &Hosted, told: u64) -> Result<Vec<u8>, AllocError>
    ensures { IfOk result (λ text. IsWhy object.now told text.items) }
{
    match waiting_as(object, told) {
        None => {
            let text = say_state(alloc, object, told)?;
            Ok(text)
        }
        Some(call) => {
            let text = say_why(alloc, object, told, call)?;
            Ok(text)
        }
    }
}
