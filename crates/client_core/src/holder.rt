//! Sessions that are gone and hold something.

ghost use Rattle.std.specs.Prelude.{◌≡◌, ◌≢◌, ◌++◌, ◌∷◌, [], All, MatchOption, OnOk, OnErr, Some, map, slice_get, take, vec_capacity, vec_len, ◌≤◌, true, false, ℕ};
ghost use Rattle.client_core.specs.declared.holder.Holder.{Holder as AHolder};
ghost use Rattle.client_core.specs.declared.holder.WhenDue.TheVariants.{Now as IsNow};
ghost use Rattle.client_core.specs.GoneClients.{due_from, due_then, ended_for, without};
ghost use Rattle.client_core.specs.GoneClients.{again as again_in, ended_at as ended_at_in, ended_with as ended_with_in, longer as longer_in};

use apply_core::reply::Reply;
use std::alloc::AllocError;

/// So many seconds behind the first call for a session that was refused the next one is made.
pub const FIRST_PAUSE: u64 = 1;

/// When a call is due for a session that is gone.
#[derive(Clone, Copy, Debug)]
pub enum WhenDue {
    /// Now.
    Now,
    /// In this second.
    At(u64),
    /// A call that was made for it waits.
    Waits,
}

/// A session that is gone and holds something.
#[derive(Clone, Copy, Debug)]
pub struct Holder {
    /// The session.
    pub session: u16,
    /// Whether its client has a name. Where it has none its number is given to nobody.
    pub is_named: bool,
    /// When the next call is due for it.
    pub when: WhenDue,
    /// So many seconds pass until it is made again, where the next one is refused: 1, 2, 4 and so on, up to 60.
    pub pause: u64,
    /// In which second it went.
    pub since: u64,
}

// Whether a call is due now.
fn is_now(when: WhenDue) -> bool
    ensures yes { result ≡ true → when ≡ IsNow }
    ensures no { result ≡ false → when ≢ IsNow }
{
    match when {
        WhenDue::Now => true,
        WhenDue::At(_) => false,
        WhenDue::Waits => false,
    }
}

// When a call is due for a session that goes in this second: one with a name may be away for so many seconds.
pub(crate) fn due_for(is_named: bool, second: u64, away: u64) -> WhenDue
    ensures { result ≡ due_from is_named second away }
{
    if !is_named || away == 0 {
        return WhenDue::Now;
    }
    WhenDue::At(second.saturating_add(away).saturating_add(1))
}

// A session is gone no more, or holds nothing any more.
pub(crate) fn take_out(rows: &mut Vec<Holder>, session: u16)
    ensures left { rows.new.items ≡ without session rows.old.items }
    ensures room { (vec_len rows.new ≤ vec_len rows.old) × (vec_capacity rows.new ≡ vec_capacity rows.old) }
{
    rows.retain(|row| row.session != session);
}

// A session is gone. The error is that memory was refused, and nothing changes.
pub(crate) fn put_in(rows: &mut Vec<Holder>, one: Holder) -> Result<(), AllocError>
    ensures ok { OnOk result (rows.new.items ≡ without one.session rows.old.items ++ one ∷ []) }
    ensures err { OnErr result (rows.new.items ≡ rows.old.items) }
{
    rows.reserve(1)?;
    take_out(rows, one.session);
    rows.push_reserved(one);
    Ok(())
}

// A row, where it is of this session with a call that is due then.
fn due_row(row: Holder, session: u16, when: WhenDue) -> Holder
    ensures { result ≡ due_then session when row }
{
    if row.session == session {
        return Holder { when, ..row };
    }
    row
}

// A call is due then for a session that is gone.
pub(crate) fn set_due(rows: &mut Vec<Holder>, session: u16, when: WhenDue)
    ensures { rows.new.items ≡ map (due_then session when) rows.old.items }
{
    for place in 0..rows.len() {
        rows[place] = due_row(rows[place], session, when);
    }
}

// The pause behind a pause: twice as long, up to a minute.
fn longer(pause: u64) -> u64
    ensures { result ≡ longer_in pause }
{
    if pause < 30 {
        return pause + pause;
    }
    60
}

// A row whose call is due again behind the pause.
fn again(row: Holder, second: u64) -> Holder
    ensures { result ≡ again_in second row }
{
    Holder {
        when: WhenDue::At(second.saturating_add(row.pause)),
        pause: longer(row.pause),
        ..row
    }
}

// A row whose call has ended with this reply.
fn ended_with(row: Holder, second: u64, reply: &Reply) -> Holder
    ensures { result ≡ ended_with_in second reply.now row }
{
    match reply {
        Reply::Done(_) => Holder {
            when: WhenDue::Now,
            pause: FIRST_PAUSE,
            ..row
        },
        Reply::Refused(_) => again(row, second),
        Reply::Failed(_) => again(row, second),
    }
}

// A row of whose session a call has ended.
fn ended_at(row: Holder, second: u64, reply: &Reply) -> Holder
    ensures { result ≡ ended_at_in row.when second reply.now row }
{
    match row.when {
        WhenDue::Now => ended_with(row, second, reply),
        WhenDue::At(_) => row,
        WhenDue::Waits => ended_with(row, second, reply),
    }
}

// A row, where it is of this session with its call ended.
fn ended_row(row: Holder, session: u16, second: u64, reply: &Reply) -> Holder
    ensures { result ≡ ended_for session second reply.now row }
{
    if row.session == session {
        return ended_at(row, second, reply);
    }
    row
}

// A call of a session has ended in this second with this reply: where it was made for one that is gone, the next is due
// where it was done, and it is due again where it was not.
pub(crate) fn end_one(rows: &mut Vec<Holder>, session: u16, second: u64, reply: &Reply)
    ensures { rows.new.items ≡ map (ended_for session second reply.now) rows.old.items }
{
    for place in 0..rows.len() {
        rows[place] = ended_row(rows[place], session, second, reply);
    }
}

// The first of these for which a call is due now.
pub(crate) fn first_now(rows: &[Holder]) -> Option<Holder>
    ensures { MatchOption result (All (λ (g : AHolder). g.when ≢ IsNow) rows.now) (λ g. (k : ℕ)
        × (slice_get rows.now k ≡ Some g) × (g.when ≡ IsNow) × All (λ (h : AHolder). h.when ≢ IsNow) (take k rows.now)) }
{
    for place in 0..rows.len() {
        let row = rows[place];
        if is_now(row.when) {
            return Some(row);
        }
    }
    None
}
