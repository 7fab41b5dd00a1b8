//! Who is there, what waits, and what is held.

ghost use Rattle.std.specs.Prelude.{◌≡◌, ◌+◌, ◌-◌, ◌++◌, ◌∷◌, [], ℕ, Some, flat_map, length, option_map, take, true, false};
ghost use Rattle.std.specs.Prelude.{IfNone, IfOk, IfSome, OnOk, slice_get};
ghost use Rattle.std.specs.List.Sorted.{IsPermutation, IsNonDecreasingBy};
ghost use Rattle.client_core.specs.declared.client.OpenObject.{OpenObject as AnOpened};
ghost use Rattle.client_core.specs.People.{people_of, name_in, since_in, called_in};
ghost use Rattle.live_core.specs.Hall.{Every};
ghost use Rattle.client_core.specs.State.{peers_of, opened_in};
ghost use Rattle.client_core.specs.ToldInside.{is_asked, sits_in, sitting_from, AreSitting, seat_name, last_told, is_between, waiting_in};
ghost use Rattle.client_core.specs.ToldInside.{is_caller, calls_at, AreWhys, WaitsFor, IsWho};
ghost use Rattle.decl_core.specs.ObjectMap.{object_of};
ghost use Rattle.live_core.specs.Scene.{Scene, told_of};
ghost use Rattle.stuck_core.specs.ReasonViews.{whys_of};
ghost use Rattle.stuck_core.specs.Who.{waits_line};
ghost use Rattle.inside_core.specs.Adds.{crowd_of, AddsSeats, AddsWaits, AreKnown};

use crate::held::push_held_by;
use crate::why::reasons_of;
use client_core::client::OpenObject;
use client_core::clients::ClientPlaces;
use client_core::holding::Holding;
use live_core::call::LiveCall;
use live_core::hosted::Hosted;
use path_tree::name::Name;
use path_tree::node::OpId;
use std::alloc::{AllocError, Global};
use stuck_core::reason::Reason;
use stuck_core::who::{SessionRow, WaitingRow, push_seat, push_waits, push_who};

// At most so many sessions are told.
const MOST_TOLD: usize = 256;

// The lines of a session and of its call that waits have some so many bytes.
const USUAL_LINES: usize = 96;

/// Who is asked for: those that have opened the object at a place by sessions of this number and of greater ones, in this
/// second.
#[derive(Clone, Copy, Debug, PartialEq, Eq)]
pub struct Whom {
    /// The place of the object.
    pub at: usize,
    /// The least number.
    pub from: u64,
    /// The second.
    pub second: u64,
}

// The nodes that refuse a start of an operation now.
#[derive(Drop)]
struct Refusing {
    operation: OpId,
    reasons: Vec<Reason>,
}

// Whether one that has opened an object is asked for.
fn is_asked(opened: OpenObject, whom: Whom) -> bool
    ensures { result ≡ is_asked whom.at whom.from opened }
{
    if opened.object != whom.at {
        return false;
    }
    if opened.session == 0 {
        return false;
    }
    u64::from(opened.session) >= whom.from
}

// What the one at a place has opened.
fn opened_at(clients: &ClientPlaces, place: usize) -> Option<OpenObject>
    ensures { result ≡ opened_in (slice_get (peers_of clients.now) place) }
{
    clients.opened(place)
}

// How many places there are.
pub(crate) fn count(clients: &ClientPlaces) -> usize
    ensures { result ≡ length (peers_of clients.now) }
{
    clients.count()
}

// The name of the client at a place.
fn name_at(clients: &ClientPlaces, place: usize) -> Option<&Name>
    ensures { option_map (λ n. n.now) result ≡ name_in (slice_get (people_of clients.now) place) }
{
    clients.name(place)
}

// The second in which the one at a place came.
fn since_at(clients: &ClientPlaces, place: usize) -> u64
    ensures { result ≡ since_in (slice_get (people_of clients.now) place) }
{
    clients.since(place)
}

// That in which its last call was taken.
pub(crate) fn called_at(clients: &ClientPlaces, place: usize) -> u64
    ensures { result ≡ called_in (slice_get (people_of clients.now) place) }
{
    clients.called(place)
}

// Adds the one at a place, where it is asked for.
fn push_sitting(
    clients: &ClientPlaces,
    place: usize,
    whom: Whom,
    all: &mut Vec<(usize, OpenObject)>,
) -> Result<(), AllocError>
    ensures { OnOk result (all.new.items ≡ all.old.items
        ++ sits_in whom.at whom.from place (opened_in (slice_get (peers_of clients.now) place))) }
{
    match opened_at(clients, place) {
        None => Ok(()),
        Some(opened) => {
            if !is_asked(opened, whom) {
                return Ok(());
            }
            all.push((place, opened))?;
            Ok(())
        }
    }
}

// All that are asked for, each with the place of its connection, by these places.
fn sitting(
    alloc: Global,
    clients: &ClientPlaces,
    whom: Whom,
) -> Result<Vec<(usize, OpenObject)>, AllocError>
    ensures { IfOk result (λ all. all.items ≡ sitting_from 0 whom.at whom.from (peers_of clients.now)) }
{
    let mut all = Vec::new(alloc);
    for place in 0..count(clients) {
        push_sitting(clients, place, whom, &mut all)?;
    }
    Ok(all)
}

// The same, by their numbers.
fn seated(
    alloc: Global,
    clients: &ClientPlaces,
    whom: Whom,
) -> Result<Vec<(usize, OpenObject)>, AllocError>
    ensures { IfOk result (λ all. AreSitting whom.at whom.from (peers_of clients.now) all.items) }
{
    let mut all = sitting(alloc, clients, whom)?;
    sort(&mut all);
    Ok(all)
}

// Puts them by their numbers.
fn sort(all: &mut [(usize, OpenObject)])
    ensures same { IsPermutation all.old all.new }
    ensures rising { IsNonDecreasingBy (λ (seat : ℕ × AnOpened). seat.1.session) all.new }
{
    all.sort_unstable_by_key(|seat| seat.1.session);
}

// The first 256 of them.
fn told(all: &[(usize, OpenObject)]) -> &[(usize, OpenObject)]
    ensures { result.now ≡ take 256 all.now }
{
    if all.len() <= MOST_TOLD {
        return all;
    }
    &all[..MOST_TOLD]
}

// Where there are so many, the number of the last of these.
fn last_told(all: &[(usize, OpenObject)]) -> Option<u16>
    ensures { result ≡ last_told all.now }
{
    match all.get(MOST_TOLD - 1) {
        None => None,
        Some(seat) => Some(seat.1.session),
    }
}

// The name by which the one at a place has opened an object, or none.
fn name_of(clients: &ClientPlaces, whom: Whom, seat: (usize, OpenObject)) -> Option<&Name>
    ensures { option_map (λ n. n.now) result ≡ seat_name (crowd_of clients.now whom) seat }
{
    if !seat.1.is_named {
        return None;
    }
    name_at(clients, seat.0)
}

// What is told of it.
fn seat_of(clients: &ClientPlaces, whom: Whom, seat: (usize, OpenObject)) -> SessionRow
    ensures session { result.session ≡ seat.1.session }
    ensures calls { result.calls ≡ seat.1.calls }
    ensures since { result.seconds ≡ Some (whom.second - since_in (slice_get (people_of clients.now) seat.0)) }
{
    let seconds = whom.second.saturating_sub(since_at(clients, seat.0));
    SessionRow {
        session: u64::from(seat.1.session),
        seconds: Some(seconds),
        calls: seat.1.calls,
    }
}

// Adds the line of a session.
fn push_one(
    out: &mut Vec<u8>,
    clients: &ClientPlaces,
    whom: Whom,
    seat: (usize, OpenObject),
) -> Result<(), AllocError>
    ensures { OnOk result (AddsSeats (crowd_of clients.now whom) (seat ∷ []) out.old.items out.new.items) }
{
    let told = seat_of(clients, whom, seat);
    let name = name_of(clients, whom, seat);
    push_seat(out, told, name)?;
    Ok(())
}

// Adds the lines of sessions.
fn push_seats(
    out: &mut Vec<u8>,
    clients: &ClientPlaces,
    whom: Whom,
    seats: &[(usize, OpenObject)],
) -> Result<(), AllocError>
    ensures { OnOk result (AddsSeats (crowd_of clients.now whom) seats.now out.old.items out.new.items) }
{
    for place in 0..seats.len() {
        push_one(out, clients, whom, seats[place])?;
    }
    Ok(())
}

// Whether one waits for a call of this session of the object at a place, of which it was told this number.
fn is_caller(opened: OpenObject, at: usize, session: u32, told: u64) -> bool
    ensures { result ≡ is_caller at session told (Some opened) }
{
    if opened.object != at {
        return false;
    }
    if u32::from(opened.session) != session {
        return false;
    }
    if !opened.waits {
        return false;
    }
    opened.told == told
}

// Whether the one at a place does.
pub(crate) fn calls_at(
    clients: &ClientPlaces,
    whom: Whom,
    place: usize,
    session: u32,
    told: u64,
) -> bool
    ensures { result ≡ calls_at (crowd_of clients.now whom) session told place }
{
    match opened_at(clients, place) {
        None => false,
        Some(opened) => is_caller(opened, whom.at, session, told),
    }
}

// The place of the first of these that does.
fn caller_among(
    clients: &ClientPlaces,
    whom: Whom,
    seats: &[(usize, OpenObject)],
    session: u32,
    told: u64,
) -> Option<usize>
    ensures some { IfSome result (λ place. calls_at (crowd_of clients.now whom) session told place ≡ true) }
    ensures none { IfNone result (Every (λ (seat : ℕ × AnOpened).
        calls_at (crowd_of clients.now whom) session told seat.0 ≡ false) seats.now) }
{
    for k in 0..seats.len() {
        if calls_at(clients, whom, seats[k].0, session, told) {
            return Some(seats[k].0);
        }
    }
    None
}

// The place that is thought to be that of the one that waits for a call, where it is, or that of one of these.
fn caller_or(
    clients: &ClientPlaces,
    whom: Whom,
    seats: &[(usize, OpenObject)],
    thought: Option<usize>,
    session: u32,
    told: u64,
) -> Option<usize>
    ensures some { IfSome result (λ place. calls_at (crowd_of clients.now whom) session told place ≡ true) }
    ensures none { IfNone result (Every (λ (seat : ℕ × AnOpened).
        calls_at (crowd_of clients.now whom) session told seat.0 ≡ false) seats.now) }
{
    match thought {
        None => caller_among(clients, whom, seats, session, told),
        Some(place) => {
            if calls_at(clients, whom, place, session, told) {
                return Some(place);
            }
            caller_among(clients, whom, seats, session, told)
        }
    }
}

// For how many seconds a call waits, where one of these waits for it.
fn waits_for(
    clients: &ClientPlaces,
    object: &Hosted,
    whom: Whom,
    seats: &[(usize, OpenObject)],
    session: u32,
    told: u64,
) -> Option<u64>
    ensures { WaitsFor (crowd_of clients.now whom) seats.now session told result }
{
    match caller_or(clients, whom, seats, object.owner(session), session, told) {
        None => None,
        Some(place) => Some(whom.second.saturating_sub(called_at(clients, place))),
    }
}

// A call that waits, as it is told.
fn waiting_of(
    clients: &ClientPlaces,
    object: &Hosted,
    whom: Whom,
    seats: &[(usize, OpenObject)],
    call: &LiveCall,
) -> WaitingRow
    ensures number { result.number ≡ told_of object.now call.now.number }
    ensures session { result.session ≡ call.now.session }
    ensures operation { result.operation ≡ call.now.operation }
    ensures since { WaitsFor (crowd_of clients.now whom) seats.now call.now.session
        (told_of object.now call.now.number) result.seconds }
{
    let number = object.told(call.number());
    WaitingRow {
        number,
        session: u64::from(call.session()),
        operation: call.operation(),
        seconds: waits_for(clients, object, whom, seats, call.session(), number),
    }
}

// How many there are.
fn count_of(reasons: &[Reason]) -> usize
    ensures { result ≡ length (whys_of reasons.now) }
{
    reasons.len()
}

// Adds the lines of a call that waits for these reasons.
fn push_rows(
    out: &mut Vec<u8>,
    object: &Hosted,
    call: WaitingRow,
    reasons: &[Reason],
) -> Result<(), AllocError>
    ensures { OnOk result (out.new.items ≡ out.old.items
        ++ flat_map (waits_line (object_of object.now.hall.object) call) (whys_of reasons.now)) }
{
    push_waits(out, object.live().object(), call, reasons)
}

// Adds the lines of a call that waits, for these reasons. It answers how many.
fn push_waiting(
    out: &mut Vec<u8>,
    clients: &ClientPlaces,
    object: &Hosted,
    whom: Whom,
    seats: &[(usize, OpenObject)],
    call: &LiveCall,
    reasons: &[Reason],
) -> Result<usize, AllocError>
    requires { AreWhys object.now call.now.operation (whys_of reasons.now) }
    ensures { IfOk result (λ n. AddsWaits (crowd_of clients.now whom) seats.now object.now (call.now ∷ []) n out.old.items
        out.new.items) }
{
    let waiting = waiting_of(clients, object, whom, seats, call);
    push_rows(out, object, waiting, reasons)?;
    Ok(count_of(reasons))
}

// The reasons that are known of an operation.
fn reasons_in(known: &[Refusing], operation: OpId) -> Option<&[Reason]>
    ensures { IfSome result (λ reasons. (object : Scene) → AreKnown object known.now →
        AreWhys object operation (whys_of reasons.now)) }
{
    match known {
        [] => None,
        [first, more @ ..] => {
            if first.operation == operation {
                return Some(&first.reasons);
            }
            reasons_in(more, operation)
        }
    }
}

// Adds the lines of a call that waits. It answers how many. What is found of its operation is known then.
fn push_call(
    alloc: Global,
    out: &mut Vec<u8>,
    clients: &ClientPlaces,
    object: &Hosted,
    whom: Whom,
    seats: &[(usize, OpenObject)],
    known: &mut Vec<Refusing>,
    call: &LiveCall,
) -> Result<usize, AllocError>
    requires { AreKnown object.now known.old.items }
    ensures lines { IfOk result (λ n. AddsWaits (crowd_of clients.now whom) seats.now object.now (call.now ∷ []) n
        out.old.items out.new.items) }
    ensures known { OnOk result (AreKnown object.now known.new.items) }
{
    let operation = call.operation();
    if let Some(reasons) = reasons_in(known.as_slice(), operation) {
        let lines = push_waiting(out, clients, object, whom, seats, call, reasons)?;
        return Ok(lines);
    }
    let reasons = reasons_of(alloc, object, operation)?;
    let lines = push_waiting(out, clients, object, whom, seats, call, &reasons)?;
    known.push(Refusing { operation, reasons })?;
    Ok(lines)
}

// Whether a session is one of those that are told.
pub(crate) fn is_between(session: u32, from: u64, last: Option<u16>) -> bool
    ensures { result ≡ is_between from last session }
{
    if u64::from(session) < from {
        return false;
    }
    match last {
        None => true,
        Some(last) => session <= u32::from(last),
    }
}

// Adds the lines of a call that waits, where its session is told. It answers how many.
#[tactic(auto, using(crate::proofs::Adding::wait_left_out, crate::proofs::Adding::wait_told))]
fn push_if(
    alloc: Global,
    out: &mut Vec<u8>,
    clients: &ClientPlaces,
    object: &Hosted,
    whom: Whom,
    seats: &[(usize, OpenObject)],
    last: Option<u16>,
    known: &mut Vec<Refusing>,
    call: &LiveCall,
) -> Result<usize, AllocError>
    requires { AreKnown object.now known.old.items }
    ensures lines { IfOk result (λ n. AddsWaits (crowd_of clients.now whom) seats.now object.now
        (waiting_in whom.from last (call.now ∷ [])) n out.old.items out.new.items) }
    ensures known { OnOk result (AreKnown object.now known.new.items) }
{
    if !is_between(call.session(), whom.from, last) {
        return Ok(0);
    }
    let lines = push_call(alloc, out, clients, object, whom, seats, known, call)?;
    Ok(lines)
}

// Adds the lines of all that wait and whose sessions are told. It answers how many.
fn push_calls(
    alloc: Global,
    out: &mut Vec<u8>,
    clients: &ClientPlaces,
    object: &Hosted,
    whom: Whom,
    seats: &[(usize, OpenObject)],
    last: Option<u16>,
) -> Result<usize, AllocError>
    ensures { IfOk result (λ n. AddsWaits (crowd_of clients.now whom) seats.now object.now
        (waiting_in whom.from last object.now.hall.waiting) n out.old.items out.new.items) }
{
    let waiting = object.live().waiting();
    let mut known = Vec::new(alloc);
    let mut lines: usize = 0;
    for place in 0..waiting.len() {
        let more = push_if(
            alloc,
            out,
            clients,
            object,
            whom,
            seats,
            last,
            &mut known,
            &waiting[place],
        )?;
        lines = sum_of(lines, more)?;
    }
    Ok(lines)
}

// A sum, which memory would not hold the lines of where it is too great.
pub(crate) fn sum_of(lines: usize, more: usize) -> Result<usize, AllocError>
    ensures { IfOk result (λ n. n ≡ lines + more) }
{
    match lines.checked_add(more) {
        None => Err(AllocError),
        Some(sum) => Ok(sum),
    }
}

/// Who is there, the first 256 of those who are asked for by their numbers, what waits of these, and the first 256 of what
/// is held by them or by who is gone, the oldest first. `None`: nothing can be held of the object.
pub fn who_of(
    alloc: Global,
    clients: &ClientPlaces,
    object: &Hosted,
    whom: Whom,
    holding: Option<&Holding>,
) -> Result<Vec<u8>, AllocError>
    ensures { IfOk result (λ text. IsWho (crowd_of clients.now whom) object.now (option_map (λ h. h.now) holding.entry) whom.from
        text.items) }
{
    let all = seated(alloc, clients, whom)?;
    let seats = told(&all);
    let mut lines = Vec::with_capacity(alloc, seats.len().saturating_mul(USUAL_LINES))?;
    push_seats(&mut lines, clients, whom, seats)?;
    let last = last_told(&all);
    let calls = push_calls(alloc, &mut lines, clients, object, whom, seats, last)?;
    let kept = push_held_by(&mut lines, object, holding, whom, last)?;
    let rows = sum_of(seats.len(), calls)?;
    let count = sum_of(rows, kept)?;
    let mut out = Vec::with_capacity(alloc, lines.len().saturating_add(USUAL_LINES))?;
    push_who(&mut out, count as u64)?;
    out.extend_from_slice(&lines)?;
    Ok(out)
}
