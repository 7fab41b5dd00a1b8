//! What is held of all objects of a table.

ghost use Rattle.std.specs.Prelude.{◌≡◌, ◌++◌, ◌∷◌, [], All, true, false, Some, OnOk, IfOk, IfSome, MatchOption, slice_get};
ghost use Rattle.decl_core.specs.ObjectMap.{object_of};
ghost use Rattle.live_core.specs.Scene.{Scene};
ghost use Rattle.decl_core.specs.HoldForm.{EveryForm};
ghost use Rattle.decl_core.specs.HoldMap.{holds_of};
ghost use Rattle.client_core.specs.Custody.{Custody, IsOwed, MayMake, FollowsIn, IsFreeOf, HasNone, HasSome, holds_by, held_by, held_lines_in};
ghost use Rattle.client_core.specs.Holding.{Holding as AHolding, Goes, HoldsSome};
ghost use Rattle.client_core.specs.Due.{Becomes, EndsAll, IsDueThere, IsFirst, IsUndone, IsUnwelcome, Looks, LooksAll, NothingIsDue, Notes, object_due, tick_of};
ghost use Rattle.client_core.specs.Views.{custodies_of};

use crate::holder::Holder;
use crate::holding::{Holding, OwedCall};
use crate::one::{HoldNote, all_ended, leaves_one, look_one, note_one, unwelcome};
use crate::ticking::Ticking;
use decl_core::hold::Hold;
use decl_core::object::Object;
use front_read::hold_lines::push_held;
use guest_core::held::HeldCall;
use live_core::call::Ran;
use live_core::hosted::Hosted;
use path_tree::name::Name;
use path_tree::node::OpId;
use session_text::line::LineRefusal;
use std::alloc::{AllocError, Global};
use std::marker::Model;
use value_core::datum::Datum;

/// What is held of each object of a table by its place, or of none.
#[derive(Drop)]
pub struct AllHeld {
    rows: Vec<Holding>,
}

impl Model for AllHeld {
    ghost use Rattle.std.specs.Prelude.{List};
    ghost use Rattle.client_core.specs.Holding.{Holding as AHolding};
    ghost use Rattle.client_core.specs.contracts.holding.Holding as holding;
    ghost use Rattle.client_core.specs.Views.{all_of};
    ghost use Rattle.std.specs.Coded.{codes};

    ghost Value = { List AHolding };

    ghost coded = { Prim.hlevel (codes, holding.the_row.coded) };

    ghost view = { all_of };
}

/// What is due: of the object at a place, for a session that is gone, or the call at a place that is made again and again.
#[derive(Clone, Copy)]
pub enum DueCall {
    Gone(usize, Holder),
    Tick(usize, usize),
}

// What is due of the object at a place in this second.
fn due_of(holding: &Holding, at: usize, second: u64) -> Option<DueCall>
    ensures { MatchOption result (NothingIsDue second holding.now) (λ due. (object_due due ≡ at) × IsDueThere second holding.now due) }
{
    if let Some(one) = holding.next() {
        return Some(DueCall::Gone(at, one));
    }
    match holding.next_tick(second) {
        Some(place) => Some(DueCall::Tick(at, place)),
        None => None,
    }
}

// Calls of the object at a place ran in this second.
fn ended_in(
    rows: &mut Vec<Holding>,
    at: usize,
    object: &Hosted,
    second: u64,
    all: &[Ran],
) -> Result<(), AllocError>
    ensures ends { OnOk result (Becomes (EndsAll object.now second all.now) at rows.old.items rows.new.items) }
    ensures held { OnOk result (FollowsIn (slice_get (custodies_of rows.old.items) at) at object.now all.now
        (custodies_of rows.old.items) (custodies_of rows.new.items)) }
{
    match rows.get_mut(at) {
        None => Ok(()),
        Some(holding) => {
            all_ended(holding, object, second, all)?;
            Ok(())
        }
    }
}

// A session of the object at a place has left.
fn leaves_in(
    rows: &mut Vec<Holding>,
    at: usize,
    session: u16,
    is_named: bool,
    second: u64,
) -> Result<bool, AllocError>
    ensures goes { OnOk result (Becomes (Goes session is_named second) at rows.old.items rows.new.items) }
    ensures same { OnOk result (custodies_of rows.new.items ≡ custodies_of rows.old.items) }
    ensures stays { IfOk result (λ stays. stays ≡ true → (is_named ≡ false) × ((c : Custody)
        × (slice_get (custodies_of rows.old.items) at ≡ Some c) × HasSome session c.held)) }
    ensures free { IfOk result (λ stays. stays ≡ false
        → IsFreeOf (slice_get (custodies_of rows.old.items) at) is_named session) }
{
    match rows.get_mut(at) {
        None => Ok(false),
        Some(holding) => {
            let stays = leaves_one(holding, session, is_named, second)?;
            Ok(stays)
        }
    }
}

// Something is noted of the object at a place.
fn note_in(rows: &mut Vec<Holding>, at: usize, note: HoldNote)
    ensures notes { Becomes (Notes note) at rows.old.items rows.new.items }
    ensures held { custodies_of rows.new.items ≡ custodies_of rows.old.items }
{
    match rows.get_mut(at) {
        None => {}
        Some(holding) => {
            note_one(holding, note);
        }
    }
}

// It is this second, for the object at a place.
fn look_in(rows: &mut Vec<Holding>, at: usize, object: &Hosted, second: u64)
    ensures looks { Becomes (Looks object.now second) at rows.old.items rows.new.items }
    ensures held { custodies_of rows.new.items ≡ custodies_of rows.old.items }
{
    match rows.get_mut(at) {
        None => {}
        Some(holding) => {
            look_one(holding, object, second);
        }
    }
}

// It is this second, for all objects.
fn look_all(rows: &mut Vec<Holding>, objects: &[Hosted], second: u64)
    ensures looks { LooksAll objects.now second rows.old.items rows.new.items }
    ensures held { custodies_of rows.new.items ≡ custodies_of rows.old.items }
{
    for at in 0..objects.len() {
        look_in(rows, at, &objects[at], second);
    }
}

impl AllHeld {
    /// No object says something of gone clients and of time.
    pub fn new(alloc: Global) -> AllHeld
        ensures { result ≡ [] }
    {
        AllHeld {
            rows: Vec::new(alloc),
        }
    }

    /// One object more, behind the others. The error is that memory was refused.
    pub fn push(&mut self, holding: Holding) -> Result<(), AllocError>
        ensures { OnOk result (self.new ≡ self.old ++ holding ∷ []) }
    {
        self.rows.push(holding)?;
        Ok(())
    }

    /// What is held of the object at a place, since when, and who is gone. `None`: it says nothing of gone clients and of time.
    pub fn at(&self, at: usize) -> Option<&Holding>
        ensures { MatchOption result (slice_get self.now at ≡ None) (λ h. slice_get self.now at ≡ Some h.now) }
    {
        self.rows.get(at)
    }

    /// Whether a session may call an operation of the object at a place: where that ends a hold that not anybody may end, it
    /// holds what would end.
    pub fn may_call(&self, at: usize, session: u16, operation: OpId, arguments: &[Datum]) -> bool
        ensures yes { result ≡ true → MayMake (slice_get (custodies_of self.now) at) session operation arguments.now }
        ensures no { result ≡ false → MayMake (slice_get (custodies_of self.now) at) session operation arguments.now → ⊥ }
    {
        match self.at(at) {
            None => true,
            Some(holding) => holding.may_call(session, operation, arguments),
        }
    }

    /// Whether nothing is held by a session of the object at a place, of which something may be held.
    pub fn holds_none(&self, at: usize, session: u16) -> bool
        ensures yes { result ≡ true → (c : Custody) × (slice_get (custodies_of self.now) at ≡ Some c) × HasNone session c.held }
        ensures no { result ≡ false → (h : AHolding) → slice_get self.now at ≡ Some h → HoldsSome h.held session }
    {
        match self.at(at) {
            None => false,
            Some(holding) => !holding.holds_some(session),
        }
    }

    /// What is to be called for a session of the object at a place: what gives back the newest that it holds. The error is
    /// that memory was refused.
    pub fn undo(
        &self,
        at: usize,
        object: &Object,
        session: u16,
    ) -> Result<Option<OwedCall>, AllocError>
        ensures is { IfOk result (IsUndone (object_of object.now) (slice_get self.now at) session) }
        ensures owed { IfOk result (λ found. IfSome found (λ u. (c : Custody) × (slice_get (custodies_of self.now) at ≡ Some c)
            × IsOwed (object_of object.now) c session u.operation u.arguments.items)) }
    {
        match self.at(at) {
            None => Ok(None),
            Some(holding) => holding.undo(object, session),
        }
    }

    /// The call at a place that is made again and again, of the object at a place.
    pub fn tick(&self, at: usize, place: usize) -> Option<Ticking>
        ensures is { result ≡ tick_of (slice_get self.now at) place }
        ensures every { IfSome result (λ t. (c : Custody) × (slice_get (custodies_of self.now) at ≡ Some c) × ((e : EveryForm)
            × (slice_get c.rules.everies place ≡ Some e) × (t.op ≡ e.op))) }
    {
        match self.at(at) {
            None => None,
            Some(holding) => holding.tick(place),
        }
    }

    /// The first that is due in this second: of the objects in their order, for sessions that are gone before what is made
    /// again and again.
    pub fn first_due(&self, second: u64) -> Option<DueCall>
        ensures { MatchOption result (All (NothingIsDue second) self.now) (IsFirst second self.now) }
    {
        for at in 0..self.rows.len() {
            let due = due_of(&self.rows[at], at, second);
            if due.is_some() {
                return due;
            }
        }
        None
    }

    /// Why a client of this name may not come to the object at a place in this second, where that is for what is held.
    pub fn unwelcome(
        &self,
        at: usize,
        objects: &[Hosted],
        name: &Name,
        second: u64,
    ) -> Option<LineRefusal>
        ensures { IsUnwelcome (slice_get self.now at) (slice_get objects.now at) name.now second result }
    {
        match self.at(at) {
            None => None,
            Some(holding) => match objects.get(at) {
                None => None,
                Some(object) => unwelcome(holding, object, name, second),
            },
        }
    }

    /// The holds of the object at a place, and what is held of it, the oldest first; none where it says nothing of them.
    pub fn held_of(&self, at: usize) -> (&[Hold], &[HeldCall])
        ensures holds { holds_of result.0.now ≡ holds_by (slice_get (custodies_of self.now) at) }
        ensures held { result.1.now ≡ held_by (slice_get (custodies_of self.now) at) }
    {
        match self.at(at) {
            None => (&[], &[]),
            Some(holding) => (holding.rules().holds.as_slice(), holding.holds().all()),
        }
    }

    /// Adds the lines of what is held of the object at a place to a front. The error is that memory was refused; how much
    /// then stands in `front` is not said.
    pub fn push_lines(
        &self,
        at: usize,
        objects: &[Hosted],
        front: &mut Vec<u8>,
    ) -> Result<(), AllocError>
        ensures { OnOk result (front.new.items ≡ front.old.items ++ held_lines_in (custodies_of self.now) at (slice_get objects.now at)) }
    {
        match objects.get(at) {
            None => Ok(()),
            Some(object) => {
                self.push_lines_of(at, object, front)?;
                Ok(())
            }
        }
    }

    // The same, of this object.
    fn push_lines_of(
        &self,
        at: usize,
        object: &Hosted,
        front: &mut Vec<u8>,
    ) -> Result<(), AllocError>
        ensures { OnOk result (front.new.items ≡ front.old.items ++ held_lines_in (custodies_of self.now) at (Some object.now)) }
    {
        match self.at(at) {
            None => Ok(()),
            Some(holding) => {
                push_held(
                    front,
                    object.live().object(),
                    &holding.rules().holds,
                    holding.holds(),
                )?;
                Ok(())
            }
        }
    }

    /// Calls of the object at a place ran in this second, in their order: what is held of it follows, and what is due for
    /// those that are gone. The error is that memory was refused.
    pub fn ended(
        &mut self,
        at: usize,
        objects: &[Hosted],
        second: u64,
        all: &[Ran],
    ) -> Result<(), AllocError>
        ensures ends { OnOk result ((object : Scene) → slice_get objects.now at ≡ Some object
            → Becomes (EndsAll object second all.now) at self.old self.new) }
        ensures held { OnOk result ((object : Scene) → slice_get objects.now at ≡ Some object
            → FollowsIn (slice_get (custodies_of self.old) at) at object all.now (custodies_of self.old) (custodies_of self.new)) }
    {
        match objects.get(at) {
            None => Ok(()),
            Some(object) => {
                self.ended_of(at, object, second, all)?;
                Ok(())
            }
        }
    }

    // The same, of this object.
    fn ended_of(
        &mut self,
        at: usize,
        object: &Hosted,
        second: u64,
        all: &[Ran],
    ) -> Result<(), AllocError>
        ensures ends { OnOk result (Becomes (EndsAll object.now second all.now) at self.old self.new) }
        ensures held { OnOk result (FollowsIn (slice_get (custodies_of self.old) at) at object.now all.now
            (custodies_of self.old) (custodies_of self.new)) }
    {
        ended_in(&mut self.rows, at, object, second, all)?;
        Ok(())
    }

    /// A session of the object at a place has left in this second, and no call of it waits: where it holds something it is
    /// gone. The answer is whether its number may not be given to anybody yet: it has no name, and holds something. The error
    /// is that memory was refused.
    pub fn leaves(
        &mut self,
        at: usize,
        session: u16,
        is_named: bool,
        second: u64,
    ) -> Result<bool, AllocError>
        ensures goes { OnOk result (Becomes (Goes session is_named second) at self.old self.new) }
        ensures same { OnOk result (custodies_of self.new ≡ custodies_of self.old) }
        ensures stays { IfOk result (λ stays. stays ≡ true → (is_named ≡ false)
            × ((c : Custody) × (slice_get (custodies_of self.old) at ≡ Some c) × HasSome session c.held)) }
        ensures free { IfOk result (λ stays. stays ≡ false → IsFreeOf (slice_get (custodies_of self.old) at) is_named session) }
    {
        let stays = leaves_in(&mut self.rows, at, session, is_named, second)?;
        Ok(stays)
    }

    /// Something is noted of the object at a place: what is held stays.
    pub fn note(&mut self, at: usize, note: HoldNote)
        ensures notes { Becomes (Notes note) at self.old self.new }
        ensures held { custodies_of self.new ≡ custodies_of self.old }
    {
        note_in(&mut self.rows, at, note);
    }

    /// It is this second: calls are due for those whose time has come.
    pub fn look(&mut self, objects: &[Hosted], second: u64)
        ensures looks { LooksAll objects.now second self.old self.new }
        ensures held { custodies_of self.new ≡ custodies_of self.old }
    {
        look_all(&mut self.rows, objects, second);
    }
}
