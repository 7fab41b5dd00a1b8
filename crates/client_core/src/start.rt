//! What the server begins with, where something is held.

ghost use Rattle.std.specs.Prelude.{◌≡◌, ◌≢◌, ◌≤◌, ◌+◌, ℕ, [], All, List, true, false, IfOk, OnOk, Some, slice_get};
ghost use Rattle.guest_core.specs.declared.guest.Guest.{Guest as AGuest};
ghost use Rattle.guest_core.specs.declared.seats.SeatHolder.TheVariants.{Free as AFree};
ghost use Rattle.guest_core.specs.Guests.{IsNamed, HasNoName};
ghost use Rattle.guest_core.specs.Seats.{NoneIsFree};
ghost use Rattle.guest_core.specs.Held.{HeldCall as AHeldCall};
ghost use Rattle.live_core.specs.Calls.{seat_of as seat_in};
ghost use Rattle.live_core.specs.HostedSteps.{Steps};
ghost use Rattle.client_core.specs.declared.holder.Holder.{Holder as AHolder};
ghost use Rattle.client_core.specs.Start.{HoldsNoneOf, IsAmong, IsBelow, IsGoneBy, IsKept, KeepsTaken, NoneFreeBelow};

use crate::holder::{FIRST_PAUSE, Holder, due_for};
use guest_core::held::HeldCall;
use live_core::hosted::Hosted;
use std::alloc::{AllocError, Global};

// A session of 16 bits; 0 where it has more.
pub(crate) fn seat_of(session: u32) -> u16
    ensures { result ≡ seat_in session }
{
    if session < 65_536 {
        return session as u16;
    }
    0
}

// Whether a session has a name.
fn has_name(hosted: &Hosted, session: u16) -> bool
    ensures yes { result ≡ true → (p : ℕ) × (g : AGuest) × IsNamed hosted.now.guests session p g }
    ensures no { result ≡ false → HasNoName hosted.now.guests session }
{
    match hosted.guests().guest(session) {
        None => false,
        Some(_) => true,
    }
}

// The greater number, where the session that holds this has no name.
fn greater(hosted: &Hosted, held: &HeldCall, most: u16) -> u16
    ensures more { most ≤ result }
    ensures below { IsBelow hosted.now.guests result held.now }
{
    let session = seat_of(held.session());
    if session <= most || has_name(hosted, session) {
        return most;
    }
    session
}

// A number that is not less than that of each session that has no name and holds something.
fn greatest(hosted: &Hosted, held: &[HeldCall]) -> u16
    ensures { All (IsBelow hosted.now.guests result) held.now }
{
    let mut most = 0;
    for place in 0..held.len() {
        most = greater(hosted, &held[place], most);
    }
    most
}

// Whether a session holds one of these.
fn holds_one(held: &[HeldCall], session: u16) -> bool
    ensures { result ≡ false → HoldsNoneOf held.now session }
{
    for place in 0..held.len() {
        if seat_of(held[place].session()) == session {
            return true;
        }
    }
    false
}

// Notes a session, where it holds nothing.
fn note_other(held: &[HeldCall], session: u16, others: &mut Vec<u16>) -> Result<(), AllocError>
    ensures { OnOk result (All (HoldsNoneOf held.now) others.old.items → All (HoldsNoneOf held.now) others.new.items) }
{
    if holds_one(held, session) {
        return Ok(());
    }
    others.push(session)?;
    Ok(())
}

// Gives the least free number to a session without a name, and notes it where it holds nothing. False: none is free.
fn seat_one(
    hosted: &mut Hosted,
    held: &[HeldCall],
    others: &mut Vec<u16>,
) -> Result<bool, AllocError>
    ensures steps { OnOk result (Steps hosted.old [] hosted.new) }
    ensures taken { OnOk result (KeepsTaken hosted.old.guests hosted.new.guests) }
    ensures more { IfOk result (λ more. more ≡ true → (n : ℕ) → NoneFreeBelow hosted.old.guests n →
        NoneFreeBelow hosted.new.guests (n + 1)) }
    ensures none { IfOk result (λ more. more ≡ false → NoneIsFree hosted.new.guests.seats) }
    ensures others { OnOk result (All (HoldsNoneOf held.now) others.old.items → All (HoldsNoneOf held.now) others.new.items) }
{
    match hosted.seat() {
        None => Ok(false),
        Some(session) => {
            note_other(held, session, others)?;
            Ok(true)
        }
    }
}

// Gives all numbers up to this one to sessions without a name, and answers which of them hold nothing.
fn seat_up_to(
    alloc: Global,
    hosted: &mut Hosted,
    held: &[HeldCall],
    most: u16,
) -> Result<Vec<u16>, AllocError>
    ensures steps { OnOk result (Steps hosted.old [] hosted.new) }
    ensures taken { OnOk result (KeepsTaken hosted.old.guests hosted.new.guests) }
    ensures below { OnOk result (NoneFreeBelow hosted.new.guests (most + 1)) }
    ensures others { IfOk result (λ v. All (HoldsNoneOf held.now) v.items) }
{
    let mut others = Vec::new(alloc);
    let mut count: u32 = 0;
    'seats: while count <= u32::from(most) {
        if !seat_one(hosted, held, &mut others)? {
            return Ok(others);
        }
        count += 1;
    }
    Ok(others)
}

// A session leaves.
fn leave_one(hosted: &mut Hosted, session: u16, second: u64)
    ensures steps { Steps hosted.old [] hosted.new }
    ensures others { (s : ℕ) → s ≢ session → slice_get hosted.old.guests.seats s ≢ Some AFree →
        slice_get hosted.new.guests.seats s ≢ Some AFree }
{
    hosted.leave(session, second);
}

// These sessions leave.
fn leave_all(hosted: &mut Hosted, others: &[u16], second: u64)
    ensures steps { Steps hosted.old [] hosted.new }
    ensures kept { (s : ℕ) → All (λ (o : ℕ). s ≢ o) others.now → slice_get hosted.old.guests.seats s ≢ Some AFree →
        slice_get hosted.new.guests.seats s ≢ Some AFree }
{
    for place in 0..others.len() {
        leave_one(hosted, others[place], second);
    }
}

// Gives the numbers of sessions that have no name and hold something to such sessions, and no other number.
pub(crate) fn seat_all(
    alloc: Global,
    hosted: &mut Hosted,
    held: &[HeldCall],
    second: u64,
) -> Result<(), AllocError>
    ensures kept { OnOk result (All (IsKept hosted.new.guests) held.now) }
    ensures seats { OnOk result (Steps hosted.old [] hosted.new) }
{
    let most = greatest(hosted, held);
    let others = seat_up_to(alloc, hosted, held, most)?;
    leave_all(hosted, &others, second);
    Ok(())
}

// Whether a session is among those that are gone.
fn is_among(gone: &[Holder], session: u16) -> bool
    ensures yes { result ≡ true → (k : ℕ) × (g : AHolder) × (slice_get gone.now k ≡ Some g) × (g.session ≡ session) }
{
    for place in 0..gone.len() {
        let one = gone[place];
        if one.session == session {
            return true;
        }
    }
    false
}

// Who holds this is gone from now on.
fn go_one(
    gone: &mut Vec<Holder>,
    hosted: &Hosted,
    held: &HeldCall,
    second: u64,
    away: u64,
) -> Result<(), AllocError>
    ensures gone { (all : List AHeldCall) (k : ℕ) → slice_get all k ≡ Some held.now →
        All (IsGoneBy hosted.now.guests all second away) gone.old.items →
        OnOk result (All (IsGoneBy hosted.now.guests all second away) gone.new.items) }
    ensures among { OnOk result (IsAmong gone.new.items held.now) }
    ensures more { OnOk result ((c : AHeldCall) → IsAmong gone.old.items c → IsAmong gone.new.items c) }
{
    let session = seat_of(held.session());
    if is_among(gone, session) {
        return Ok(());
    }
    let is_named = has_name(hosted, session);
    let when = due_for(is_named, second, away);
    gone.push(Holder {
        session,
        is_named,
        when,
        pause: FIRST_PAUSE,
        since: second,
    })?;
    Ok(())
}

// Who holds one of these is gone.
pub(crate) fn go_all(
    alloc: Global,
    hosted: &Hosted,
    held: &[HeldCall],
    second: u64,
    away: u64,
) -> Result<Vec<Holder>, AllocError>
    ensures gone { IfOk result (λ v. All (IsGoneBy hosted.now.guests held.now second away) v.items) }
    ensures all { IfOk result (λ v. All (IsAmong v.items) held.now) }
{
    let mut gone = Vec::new(alloc);
    for place in 0..held.len() {
        go_one(&mut gone, hosted, &held[place], second, away)?;
    }
    Ok(gone)
}
