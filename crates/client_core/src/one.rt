//! What is held of one object.

ghost use Rattle.std.specs.Prelude.{◌≡◌, [], Some, OnOk, IfOk, true, false};
ghost use Rattle.live_core.specs.Scene.{Scene};
ghost use Rattle.client_core.specs.Custody.{HeldBehind, HeldBehindAll, HasNone, HasSome, as_told};
ghost use Rattle.client_core.specs.Holding.{Ends, Goes};
ghost use Rattle.client_core.specs.Due.{EndsAll, IsUnwelcome, Looks, Notes};
ghost use Rattle.client_core.specs.Views.{custody_of};

use crate::holding::Holding;
use live_core::call::Ran;
use live_core::hosted::Hosted;
use path_tree::name::Name;
use session_text::line::LineRefusal;
use std::alloc::AllocError;

/// What becomes of a session that is gone, or of a call that is made again and again.
#[derive(Clone, Copy)]
pub enum HoldNote {
    /// A call that was made for a session waits.
    Waits(u16),
    /// A call for a session was refused in this second.
    Refused(u16, u64),
    /// For a session nothing is to be called: it is back, or holds nothing any more.
    Frees(u16),
    /// The call at a place is made by this session.
    Seated(usize, u16),
    /// It was made in this second, or still waits.
    Ticked(usize, u64),
    /// It was refused in this second.
    Unticked(usize, u64),
}

// It is noted: what is held stays.
pub(crate) fn note_one(holding: &mut Holding, note: HoldNote)
    ensures notes { Notes note holding.old holding.new }
    ensures held { custody_of holding.new ≡ custody_of holding.old }
{
    match note {
        HoldNote::Waits(session) => holding.waits(session),
        HoldNote::Refused(session, second) => holding.refused(session, second),
        HoldNote::Frees(session) => holding.frees(session),
        HoldNote::Seated(place, session) => holding.seated(place, session),
        HoldNote::Ticked(place, second) => holding.ticked(place, second),
        HoldNote::Unticked(place, second) => holding.unticked(place, second),
    }
}

// It is this second: what is held stays.
pub(crate) fn look_one(holding: &mut Holding, object: &Hosted, second: u64)
    ensures looks { Looks object.now second holding.old holding.new }
    ensures held { custody_of holding.new ≡ custody_of holding.old }
{
    holding.look(object, second);
}

// A call of the object ran, in this second. The error is that memory was refused.
fn one_ended(
    holding: &mut Holding,
    object: &Hosted,
    second: u64,
    ran: &Ran,
) -> Result<(), AllocError>
    ensures ends { OnOk result (Ends holding.old second (as_told object.now ran.now.call) ran.now.reply holding.new) }
    ensures rules { OnOk result (holding.new.rules ≡ holding.old.rules) }
    ensures held { OnOk result (HeldBehind holding.old.rules.holds (as_told object.now ran.now.call) ran.now.reply
        holding.old.held holding.new.held) }
{
    let told = object.told(ran.call.number());
    holding.ended(told, &ran.call, &ran.reply, second)?;
    Ok(())
}

// Calls of the object ran in this second, in their order. The error is that memory was refused.
pub(crate) fn all_ended(
    holding: &mut Holding,
    object: &Hosted,
    second: u64,
    all: &[Ran],
) -> Result<(), AllocError>
    ensures ends { OnOk result (EndsAll object.now second all.now holding.old holding.new) }
    ensures rules { OnOk result (holding.new.rules ≡ holding.old.rules) }
    ensures held { OnOk result (HeldBehindAll holding.old.rules.holds object.now all.now holding.old.held holding.new.held) }
{
    match all {
        [] => Ok(()),
        [ran, rest @ ..] => {
            one_ended(holding, object, second, ran)?;
            all_ended(holding, object, second, rest)?;
            Ok(())
        }
    }
}

// A session has left in this second. Whether its number may not be given to anybody yet.
pub(crate) fn leaves_one(
    holding: &mut Holding,
    session: u16,
    is_named: bool,
    second: u64,
) -> Result<bool, AllocError>
    ensures goes { OnOk result (Goes session is_named second holding.old holding.new) }
    ensures same { OnOk result (custody_of holding.new ≡ custody_of holding.old) }
    ensures stays { IfOk result (λ stays. stays ≡ true → (is_named ≡ false) × HasSome session holding.old.held) }
    ensures free { IfOk result (λ stays. stays ≡ false → is_named ≡ false → HasNone session holding.old.held) }
{
    holding.leaves(session, is_named, second)
}

// Why a client of this name may not come in this second, where that is for what is held.
pub(crate) fn unwelcome(
    holding: &Holding,
    object: &Hosted,
    name: &Name,
    second: u64,
) -> Option<LineRefusal>
    ensures { IsUnwelcome (Some holding.now) (Some object.now) name.now second result }
{
    if holding.is_crowded(object, name, second) {
        return Some(LineRefusal::Full);
    }
    if holding.is_busy(object, name) {
        return Some(LineRefusal::InUse);
    }
    None
}
