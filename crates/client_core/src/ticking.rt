//! Calls that are made again and again.

ghost use Rattle.std.specs.Prelude.{◌≡◌, ◌≤◌, ◌<◌, ℕ, All, MatchOption, OnOk, IfOk, Some, None, map, slice_get, slice_set, take};
ghost use Rattle.decl_core.specs.HoldMap.{every_of, everies_of};
ghost use Rattle.client_core.specs.declared.ticking.Ticking.{Ticking as ATicking};
ghost use Rattle.client_core.specs.Ticks.{first_tick as first_of, seated_by, ticked, unticked, ChangesAt, IsFirstDue};

use decl_core::hold::Every;
use path_tree::node::OpId;
use std::alloc::{AllocError, Global};

/// A call that is made every so many seconds.
#[derive(Clone, Copy, Debug)]
pub struct Ticking {
    /// How many seconds: 1 to 86,400.
    pub seconds: u32,
    /// The operation: a procedure without parameters.
    pub op: OpId,
    /// The session that makes it; 0: it has none yet.
    pub session: u16,
    /// In which second it is due.
    pub at: u64,
}

// A call that is due at the start, by no session yet.
fn first_tick(every: &Every) -> Ticking
    ensures { result ≡ first_of (every_of every.now) }
{
    Ticking {
        seconds: every.seconds,
        op: every.op,
        session: 0,
        at: 0,
    }
}

// Each of these, due at the start.
pub(crate) fn first_ticks(alloc: Global, everies: &[Every]) -> Result<Vec<Ticking>, AllocError>
    ensures { IfOk result (λ v. v.items ≡ map first_of (everies_of everies.now)) }
{
    let mut all = Vec::new(alloc);
    for every in everies {
        all.push(first_tick(every))?;
    }
    Ok(all)
}

// The place of the first of these that is due in this second.
pub(crate) fn first_due(ticking: &[Ticking], second: u64) -> Option<usize>
    ensures { MatchOption result (All (λ (t : ATicking). second < t.at) ticking.now) (IsFirstDue second ticking.now) }
{
    for place in 0..ticking.len() {
        if ticking[place].at <= second {
            return Some(place);
        }
    }
    None
}

// The one at a place.
pub(crate) fn tick_in(ticking: &[Ticking], place: usize) -> Option<Ticking>
    ensures { result ≡ slice_get ticking.now place }
{
    match ticking.get(place) {
        None => None,
        Some(one) => Some(*one),
    }
}

// A call, made by this session.
fn seated(row: Ticking, session: u16) -> Ticking
    ensures { result ≡ seated_by session row }
{
    Ticking { session, ..row }
}

// The one at a place is made by this session.
pub(crate) fn seat_at(ticking: &mut Vec<Ticking>, place: usize, session: u16)
    ensures { ChangesAt place (seated_by session) ticking.old.items ticking.new.items }
{
    if place >= ticking.len() {
        return;
    }
    ticking[place] = seated(ticking[place], session);
}

// A call that was made in this second, or still waited.
fn made(row: Ticking, second: u64) -> Ticking
    ensures { result ≡ ticked second row }
{
    Ticking {
        at: second.saturating_add(u64::from(row.seconds)),
        ..row
    }
}

// The one at a place was made in this second, or still waited.
pub(crate) fn tick_at(ticking: &mut Vec<Ticking>, place: usize, second: u64)
    ensures { ChangesAt place (ticked second) ticking.old.items ticking.new.items }
{
    if place >= ticking.len() {
        return;
    }
    ticking[place] = made(ticking[place], second);
}

// A call that was refused in this second.
fn refused(row: Ticking, second: u64) -> Ticking
    ensures { result ≡ unticked second row }
{
    Ticking {
        at: second.saturating_add(1),
        ..row
    }
}

// The one at a place was refused in this second.
pub(crate) fn untick_at(ticking: &mut Vec<Ticking>, place: usize, second: u64)
    ensures { ChangesAt place (unticked second) ticking.old.items ticking.new.items }
{
    if place >= ticking.len() {
        return;
    }
    ticking[place] = refused(ticking[place], second);
}
