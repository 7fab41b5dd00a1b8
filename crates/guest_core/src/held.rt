//! What is held of an object.

ghost use Rattle.std.specs.Prelude.{◌≡◌, ◌≢◌, ◌↔◌, ◌++◌, ℕ, All, List, [], ◌∷◌, IsTrue, IsErr, IfOk, IfSome, OnOk, MatchOption, length, drop, take, ◌≤◌, ◌<◌, Some, slice_get};
ghost use Rattle.apply_core.specs.declared.reply.Reply.TheVariants.{Done};
ghost use Rattle.value_core.specs.declared.datum.Datum.{Datum as ADatum};
ghost use Rattle.decl_core.specs.HoldForm.{is_one_of as is_among};
ghost use Rattle.decl_core.specs.HoldMap.{holds_of};
ghost use Rattle.guest_core.specs.Held.{HeldCall as AHeldCall, begun, Fits, Gives, GivesOne, MayUndo, NoneFits};
ghost use Rattle.guest_core.specs.Held.{ended_so as ended_so_in, hold_ended as hold_ended_in, hold_of_op as hold_of_op_in};
ghost use Rattle.decl_core.specs.ObjectMap.{object_of, operation_of};
ghost use Rattle.guest_core.specs.Undo.{given_to, IsFirstUndo, IsUndoOf};
ghost use Rattle.guest_core.specs.Views.{called_of};
ghost use Rattle.guest_core.specs.Held.{IsEnded, NoneOwn, reply_data};
ghost use Rattle.guest_core.specs.Places.{IsNewest, IsNewestOwn, IsOldest};

use crate::hold_ends::HoldEnds;
use apply_core::reply::Reply;
use decl_core::hold::Hold;
use decl_core::object::{Object, Operation};
use path_tree::node::OpId;
use std::alloc::{AllocError, Global};
use std::marker::Model;
use value_core::datum::Datum;

/// A call that is held: its number, its session, the place of its hold in the object, and what it is held with.
#[derive(Drop)]
pub struct HeldCall {
    number: u64,
    session: u32,
    rule: usize,
    values: Vec<Datum>,
}

impl Model for HeldCall {
    ghost use Rattle.guest_core.specs.Held.{HeldCall as AHeldCall};
    ghost use Rattle.std.specs.Coded.{codes};

    ghost Value = { AHeldCall };

    ghost coded = { Prim.hlevel (codes) };

    ghost view = { λ h. record { number = h.number; session = h.session; rule = h.rule; values = h.values.items } };
}

impl HeldCall {
    /// Its number.
    pub fn number(&self) -> u64
        ensures { result ≡ self.now.number }
    {
        self.number
    }

    /// Its session.
    pub fn session(&self) -> u32
        ensures { result ≡ self.now.session }
    {
        self.session
    }

    /// The place of its hold in the object, from 0.
    pub fn rule(&self) -> usize
        ensures { result ≡ self.now.rule }
    {
        self.rule
    }

    /// What it is held with: its arguments, and its reply behind them.
    pub fn values(&self) -> &[Datum]
        ensures { result.now ≡ self.now.values }
    {
        &self.values
    }
}

/// What is held of an object, the oldest first.
#[derive(Drop)]
pub struct Holds {
    held: Vec<HeldCall>,
}

impl Model for Holds {
    ghost use Rattle.std.specs.Prelude.{List};
    ghost use Rattle.guest_core.specs.Held.{HeldCall as AHeldCall};
    ghost use Rattle.std.specs.Coded.{codes};

    ghost Value = { List AHeldCall };

    ghost coded = { Prim.hlevel (codes) };

    ghost view = { λ h. h.held.items };
}

/// A call that has ended: its number, its session, its operation and its arguments.
#[derive(Clone, Copy)]
pub struct EndedCall<'a> {
    pub number: u64,
    pub session: u32,
    pub operation: OpId,
    pub arguments: &'a [Datum],
}

// Whether two rows of data are the same.
fn are_same(a: &[Datum], b: &[Datum]) -> bool
    ensures { IsTrue result ↔ (a.now ≡ b.now) }
{
    match a {
        [] => b.is_empty(),
        [datum, rest @ ..] => match b {
            [] => false,
            [other, others @ ..] => datum.is_same(other) && are_same(rest, others),
        },
    }
}

// Whether a held call fits what a call was given that ends this hold.
fn fits(held: &HeldCall, rule: usize, arguments: &[Datum]) -> bool
    ensures { IsTrue result ↔ Fits rule arguments.now held.now }
{
    held.rule == rule && (arguments.is_empty() || are_same(&held.values, arguments))
}

// Whether an operation is among these.
fn is_one_of(ops: &[OpId], op: OpId) -> bool
    ensures { result ≡ is_among ops.now op }
{
    match ops {
        [] => false,
        [first, rest @ ..] => *first == op || is_one_of(rest, op),
    }
}

/// The hold of an operation, by its place among these.
pub fn hold_of_op(holds: &[Hold], op: OpId) -> Option<usize>
    ensures value { result ≡ hold_of_op_in (holds_of holds.now) op }
    ensures within { IfSome result (λ k. k < length holds.now) }
{
    match holds {
        [] => None,
        [hold, rest @ ..] => {
            if hold.op == op {
                Some(0)
            } else {
                let place = hold_of_op(rest, op)?;
                Some(place + 1)
            }
        }
    }
}

/// The hold that a call of an operation ends, by its place among these.
pub fn hold_ended(holds: &[Hold], op: OpId) -> Option<usize>
    ensures value { result ≡ hold_ended_in (holds_of holds.now) op }
    ensures within { IfSome result (λ k. k < length holds.now) }
{
    match holds {
        [] => None,
        [hold, rest @ ..] => {
            if is_one_of(&hold.until, op) {
                Some(0)
            } else {
                let place = hold_ended(rest, op)?;
                Some(place + 1)
            }
        }
    }
}

// The hold that a call ends with this reply, of that which its operation ends.
fn ended_so(ends: HoldEnds, reply: &Reply, found: Option<usize>) -> Option<usize>
    ensures { result ≡ ended_so_in ends reply.now found }
{
    match ends {
        HoldEnds::ByAny => found,
        HoldEnds::ByDone => match reply {
            Reply::Done(_) => found,
            Reply::Refused(_) => None,
            Reply::Failed(_) => None,
        },
    }
}

// Whether a held call fits so, and is of this session.
fn is_own(held: &HeldCall, rule: usize, session: u32, arguments: &[Datum]) -> bool
    ensures { IsTrue result ↔ ((held.now.session ≡ session) × Fits rule arguments.now held.now) }
{
    held.session == session && fits(held, rule, arguments)
}

// The newest of these that fits and is of this session.
fn newest_own(held: &[HeldCall], rule: usize, session: u32, arguments: &[Datum]) -> Option<usize>
    ensures { MatchOption result (NoneOwn (Fits rule arguments.now) session held.now)
        (λ k. IsNewestOwn (Fits rule arguments.now) session held.now k) }
{
    let mut left = held.len();
    'held: while left > 0 {
        left -= 1;
        let own = &held[left];
        if is_own(own, rule, session, arguments) {
            return Some(left);
        }
    }
    None
}

// The newest of these that is of this session.
fn newest_of(held: &[HeldCall], session: u32) -> Option<&HeldCall>
    ensures { MatchOption result (All (λ (h : AHeldCall). h.session ≢ session) held.now)
        (λ h. (k : ℕ) × IsNewest session held.now k h.now) }
{
    let mut left = held.len();
    'held: while left > 0 {
        left -= 1;
        let own = &held[left];
        if own.session == session {
            return Some(own);
        }
    }
    None
}

// The oldest of these that fits.
fn oldest(held: &[HeldCall], rule: usize, arguments: &[Datum]) -> Option<usize>
    ensures { MatchOption result (NoneFits (Fits rule arguments.now) held.now)
        (λ k. IsOldest (Fits rule arguments.now) held.now k) }
{
    'held: for place in 0..held.len() {
        let one = &held[place];
        if fits(one, rule, arguments) {
            return Some(place);
        }
    }
    None
}

// The place of the one that a call of this session ends.
#[tactic(auto, using(crate::proofs::Ending::own_ended, crate::proofs::Ending::oldest_ended))]
fn ended_at(held: &[HeldCall], rule: usize, session: u32, arguments: &[Datum]) -> Option<usize>
    ensures { MatchOption result (NoneFits (Fits rule arguments.now) held.now)
        (λ k. IsEnded (Fits rule arguments.now) session held.now k) }
{
    match newest_own(held, rule, session, arguments) {
        Some(place) => Some(place),
        None => oldest(held, rule, arguments),
    }
}

// What a call holds from its end on.
fn begins(
    alloc: Global,
    holds: &[Hold],
    call: EndedCall<'_>,
    reply: &Reply,
) -> Result<Option<HeldCall>, AllocError>
    ensures { IfOk result (λ found. MatchOption found (begun (holds_of holds.now) (called_of call.entry) reply.now ≡ [])
        (λ h. begun (holds_of holds.now) (called_of call.entry) reply.now ≡ h ∷ [])) }
{
    let Some(rule) = hold_of_op(holds, call.operation) else {
        return Ok(None);
    };
    match reply {
        Reply::Done(value) => {
            let values = values_of(alloc, call.arguments, *value)?;
            Ok(Some(HeldCall {
                number: call.number,
                session: call.session,
                rule,
                values,
            }))
        }
        Reply::Refused(_) => Ok(None),
        Reply::Failed(_) => Ok(None),
    }
}

// What a done call is held with.
fn values_of(
    alloc: Global,
    arguments: &[Datum],
    reply: Option<Datum>,
) -> Result<Vec<Datum>, AllocError>
    ensures { IfOk result (λ v. v.items ≡ arguments.now ++ reply_data (Done reply)) }
{
    let mut values = arguments.to_vec(alloc)?;
    match reply {
        None => Ok(values),
        Some(datum) => {
            values.push(datum)?;
            Ok(values)
        }
    }
}

impl Holds {
    /// Nothing is held.
    pub fn new(alloc: Global) -> Holds
        ensures { result ≡ [] }
    {
        Holds {
            held: Vec::new(alloc),
        }
    }

    /// What is held, the oldest first.
    pub fn all(&self) -> &[HeldCall]
        ensures { result.now ≡ self.now }
    {
        &self.held
    }

    /// One call more is held, with these values. The error is that memory was refused, and nothing changes.
    pub fn add(
        &mut self,
        alloc: Global,
        number: u64,
        session: u32,
        rule: usize,
        values: &[Datum],
    ) -> Result<(), AllocError>
        ensures ok { OnOk result (self.new ≡ self.old
            ++ (record { number = number; session = session; rule = rule; values = values.now }) ∷ []) }
        ensures err { IsErr result → self.new ≡ self.old }
    {
        let values = values.to_vec(alloc)?;
        self.held.push(HeldCall {
            number,
            session,
            rule,
            values,
        })?;
        Ok(())
    }

    /// Whether a session may call an operation: where it ends a hold that not anybody may end, the session holds what it
    /// would end.
    pub fn may_undo(
        &self,
        holds: &[Hold],
        session: u32,
        operation: OpId,
        arguments: &[Datum],
    ) -> bool
        ensures { IsTrue result ↔ MayUndo (holds_of holds.now) session operation arguments.now self.now }
    {
        match hold_ended(holds, operation) {
            None => true,
            Some(rule) => match holds.get(rule) {
                None => true,
                Some(hold) => {
                    hold.by_any || newest_own(&self.held, rule, session, arguments).is_some()
                }
            },
        }
    }

    /// What a session holds last, where it holds something.
    pub fn newest(&self, session: u32) -> Option<&HeldCall>
        ensures { MatchOption result (All (λ (h : AHeldCall). h.session ≢ session) self.now)
            (λ h. (k : ℕ) × IsNewest session self.now k h.now) }
    {
        newest_of(&self.held, session)
    }

    // A call of this session has ended that ends this hold, where so many were held.
    fn give(&mut self, count: usize, rule: usize, session: u32, arguments: &[Datum])
        requires { count ≤ length self.old }
        ensures { (left : List AHeldCall) × GivesOne (Fits rule arguments.now) session (take count self.old) left
            × (self.new ≡ left ++ drop count self.old) }
    {
        let (was, _) = self.held.split_at(count);
        match ended_at(was, rule, session, arguments) {
            Some(place) => {
                self.held.remove(place);
            }
            None => {}
        }
    }

    // What a call that has ended holds itself is held.
    fn begin(
        &mut self,
        alloc: Global,
        holds: &[Hold],
        call: EndedCall<'_>,
        reply: &Reply,
    ) -> Result<(), AllocError>
        ensures more { OnOk result (self.new ≡ self.old ++ begun (holds_of holds.now) (called_of call.entry) reply.now) }
        ensures kept { IsErr result → self.new ≡ self.old }
    {
        if let Some(held) = begins(alloc, holds, call, reply)? {
            self.held.push(held)?;
        }
        Ok(())
    }

    /// A call has ended with this reply: where such an end ends a hold, that is held no more. The error is that memory was
    /// refused, and nothing changes.
    pub fn end(
        &mut self,
        alloc: Global,
        ends: HoldEnds,
        holds: &[Hold],
        call: EndedCall<'_>,
        reply: &Reply,
    ) -> Result<(), AllocError>
        ensures ended { OnOk result ((left : List AHeldCall)
            × Gives ends (holds_of holds.now) (called_of call.entry) reply.now self.old left
            × (self.new ≡ left ++ begun (holds_of holds.now) (called_of call.entry) reply.now)) }
        ensures kept { IsErr result → self.new ≡ self.old }
    {
        let count = self.all().len();
        self.begin(alloc, holds, call, reply)?;
        let ended = ended_so(ends, reply, hold_ended(holds, call.operation));
        if let Some(rule) = ended {
            self.give(count, rule, call.session, call.arguments);
        }
        Ok(())
    }
}

// The first of these operations.
fn first_of(ops: &[OpId]) -> Option<OpId>
    ensures { MatchOption result (ops.now ≡ []) (λ op. slice_get ops.now 0 ≡ Some op) }
{
    match ops {
        [] => None,
        [op, ..] => Some(*op),
    }
}

// The first operation that ends the hold at a place.
fn undo_at(holds: &[Hold], place: usize) -> Option<OpId>
    ensures { MatchOption result ((op : ℕ) → IsFirstUndo (holds_of holds.now) place op → ⊥)
        (λ op. IsFirstUndo (holds_of holds.now) place op) }
{
    match holds.get(place) {
        None => None,
        Some(hold) => {
            let op = first_of(&hold.until)?;
            Some(op)
        }
    }
}

/// What is to be called for a session that holds this and is gone: the first operation that ends its hold, with what it
/// is held with, or with nothing where that operation takes nothing. `None`: nothing of the object ends it.
pub fn undo_of<'a>(
    object: &Object,
    holds: &[Hold],
    held: &'a HeldCall,
) -> Option<(OpId, &'a [Datum])>
    ensures { MatchOption result ((op : ℕ) → (arguments : List ADatum) →
        IsUndoOf (object_of object.now) (holds_of holds.now) held.now op arguments → ⊥)
        (λ u. IsUndoOf (object_of object.now) (holds_of holds.now) held.now u.0 u.1.now) }
{
    let op = undo_at(holds, held.rule)?;
    match object.operations.get(op as usize) {
        None => None,
        Some(operation) => Some((op, given(operation, &held.values))),
    }
}

// What an operation is given: nothing, where it takes nothing.
fn given<'a>(operation: &Operation, values: &'a [Datum]) -> &'a [Datum]
    ensures { result.now ≡ given_to (operation_of operation.now) values.now }
{
    match operation.params.as_slice() {
        [] => &[],
        [_, ..] => values,
    }
}
