//! The offices of accepted objects, whose parts are read from a folder.

ghost use Rattle.std.specs.Prelude.{◌≡◌, ◌++◌, ◌∷◌, [], IfOk, IfErr, OnOk, length};
ghost use Rattle.device_core.specs.Device.{Assignment};
ghost use Rattle.device_core.specs.Papers.{Papers};
ghost use Rattle.decl_core.specs.ObjectMap.{object_names};
ghost use Rattle.serve_core.specs.Opened.{AreLoadedAll, ArePinnedAll};
ghost use Rattle.serve_core.specs.Runs.{named_in, IsNotOpenedOf};

use crate::host::Host;
use decl_core::analyse::Accepted;
use device_core::hand::Hand;
use device_core::shelf::Shelf;
use keep_core::open::{NotOpened, Opened};
use keep_core::opening::ObjectOpening;
use session_core::order::Named;
use value_core::LinesFault;

/// What is served: the offices of the objects, and what the parts of each of them opened with.
#[derive(Drop)]
pub struct ServedObjects {
    pub offices: Vec<Named>,
    pub openings: Vec<ObjectOpening>,
}

// Adds an object that is open.
fn add(served: &mut ServedObjects, opened: Opened) -> Result<(), NotOpened>
    ensures named { OnOk result (named_in served.new.offices.items
        ≡ named_in served.old.offices.items ++ opened.name ∷ []) }
    ensures opening { OnOk result (served.new.openings.items ≡ served.old.openings.items ++ opened.opening ∷ []) }
    ensures many { OnOk result (length served.old.openings.items ≡ length served.old.offices.items →
        length served.new.openings.items ≡ length served.new.offices.items) }
    ensures not { IfErr result (λ e. e ≡ NotOpened.Fault LinesFault.Memory) }
{
    let Opened {
        name,
        office,
        opening,
    } = opened;
    let Ok(()) = served.offices.push(Named { name, office }) else {
        return Err(NotOpened::Fault(LinesFault::Memory));
    };
    let Ok(()) = served.openings.push(opening) else {
        return Err(NotOpened::Fault(LinesFault::Memory));
    };
    Ok(())
}

impl<S: Shelf + Drop, T: Shelf + Drop, K: Hand + Drop, H: Hand + Drop> Host<S, T, K, H> {
    /// Opens each object, in order: its parts begin with what the shelf has under their names, and pages of these values
    /// are sealed by the hand.
    ///
    /// The first fault ends it: files that were sealed before it are left.
    pub(crate) fn open(&mut self, ready: Vec<Accepted>) -> Result<ServedObjects, NotOpened>
        ensures named { IfOk result (λ s. named_in s.offices.items ≡ object_names ready.items) }
        // As many openings as offices, each with what its object's parts began with.
        ensures many { IfOk result (λ s. length s.openings.items ≡ length s.offices.items) }
        ensures loaded { IfOk result (λ s. (papers : Papers) → S.holds self.new.closing.parts papers →
            AreLoadedAll papers ready.items s.openings.items) }
        ensures pinned { IfOk result (λ s. ArePinnedAll (K.agrees self.new.closing.hand) ready.items s.openings.items) }
        ensures papers { (papers : Papers) → S.holds self.new.closing.parts papers →
            S.holds self.old.closing.parts papers }
        ensures files { (a : Assignment) → K.agrees self.new.closing.hand a → K.agrees self.old.closing.hand a }
        ensures traces { self.new.closing.traces ≡ self.old.closing.traces }
        ensures trouble { self.new.closing.trouble ≡ self.old.closing.trouble }
        ensures hands { self.new.hands.items ≡ self.old.hands.items }
        ensures not { IfErr result (IsNotOpenedOf (S.holds self.new.closing.parts) ready.items) }
    {
        let mut served = ServedObjects {
            offices: Vec::new(self.alloc),
            openings: Vec::new(self.alloc),
        };
        for accepted in ready {
            let opened = match self.closing.open(accepted) {
                Ok(opened) => opened,
                Err(why) => return Err(why),
            };
            match add(&mut served, opened) {
                Ok(()) => {}
                Err(why) => return Err(why),
            }
        }
        Ok(served)
    }
}
