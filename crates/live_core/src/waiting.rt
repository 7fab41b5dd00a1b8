//! The calls that wait, in the order of their numbers.

ghost use Rattle.std.specs.Prelude.{◌≡◌, ◌≢◌, ℕ, ◌+◌, ◌<◌, ◌≤◌, ◌⊎◌, ◌^◌, List, length, IsTrue, IfSome, IfNone, slice_get};
ghost use Rattle.std.specs.Prelude.{slice_index};
ghost use Rattle.path_tree.specs.Path.{Path};
ghost use Rattle.path_tree.specs.Trace.{Event};
ghost use Rattle.path_count.specs.Stands.{StandsFor};
ghost use Rattle.word_core.specs.Events.{Called};
ghost use Rattle.live_core.specs.Hall.{Every};
ghost use Rattle.live_core.specs.Bodies.{IsNumberedAt, IsOfSessionAt};
ghost use Rattle.live_core.specs.Epochs.{numbered_from};
ghost use Rattle.live_core.specs.Waiters.{AreFrom, AreByNumber, IsHeadAt, IsPlaceFrom, IsReadyAt};

use crate::call::LiveCall;
use path_count::counters::Counters;
use path_tree::node::OpId;

// The place from which on these calls have this number or a greater one.
fn place_from(waiting: &[LiveCall], number: u32) -> usize
    requires { AreByNumber waiting.now }
    ensures { IsPlaceFrom waiting.now number result }
{
    let mut low = 0;
    let mut high = waiting.len();
    while low < high {
        let middle = low + (high - low) / 2;
        let found = waiting[middle].number();
        if found < number {
            low = middle + 1;
        } else {
            high = middle;
        }
    }
    low
}

// The place of the first of these calls that is of this operation, or how many they are. None before the place `from` is.
fn first_of(waiting: &[LiveCall], from: usize, operation: OpId) -> usize
    requires from { from ≤ length waiting.now }
    requires earlier { (j : ℕ) (c : Called) → j < from → slice_get waiting.now j ≡ Some c → c.operation ≢ operation }
    ensures { IsHeadAt waiting.now operation result }
{
    for place in from..waiting.len() {
        let found = waiting[place].operation();
        if found == operation {
            return place;
        }
    }
    waiting.len()
}

// Whether all of these calls have lower numbers.
fn ends_below(waiting: &[LiveCall], number: u32) -> bool
    requires { AreByNumber waiting.now }
    ensures { IsTrue result → (j : ℕ) (c : Called) → slice_get waiting.now j ≡ Some c → c.number < number }
{
    let len = waiting.len();
    if len == 0 {
        return true;
    }
    let found = waiting[len - 1].number();
    if found < number {
        return true;
    }
    false
}

// The place of the first of these calls that is of this operation, or how many they are. None of it has a lower number than
// `bound`.
pub(crate) fn head_of(waiting: &[LiveCall], bound: u32, operation: OpId) -> usize
    requires in_order { AreByNumber waiting.now }
    requires bound { Every (λ (c : Called). c.operation ≡ operation → bound ≤ c.number) waiting.now }
    ensures { IsHeadAt waiting.now operation result }
{
    if ends_below(waiting, bound) {
        return waiting.len();
    }
    first_of(waiting, place_from(waiting, bound), operation)
}

// The place of the first waiting call of an operation where it may start; else how many calls wait. The counters are asked at most once.
fn ready_of(counters: &Counters, waiting: &[LiveCall], bound: u32, operation: OpId) -> usize
    requires in_order { AreByNumber waiting.now }
    requires bound { Every (λ (c : Called). c.operation ≡ operation → bound ≤ c.number) waiting.now }
    ensures { (n : ℕ) (paths : List Path) (t : List Event) → StandsFor counters.now n paths t →
        IsReadyAt n paths t (λ o. o ≡ operation) waiting.now result }
{
    let place = head_of(waiting, bound, operation);
    let many = waiting.len();
    if place >= many {
        return many;
    }
    if counters.can_start(operation) {
        return place;
    }
    many
}

// The first of two places.
fn earlier(best: usize, place: usize) -> usize
    ensures best { result ≤ best }
    ensures place { result ≤ place }
    ensures one { (result ≡ best) ⊎ (result ≡ place) }
{
    if place < best {
        return place;
    }
    best
}

// The number that is noted of an operation.
fn bound_of(firsts: &[u32], operation: usize) -> u32
    ensures { result ≡ slice_index firsts.now operation }
{
    if operation >= firsts.len() {
        return 0;
    }
    firsts[operation]
}

// The place of the first of these calls that is of one of so many operations and may start, or how many they are. Each
// operation is asked at most once.
pub(crate) fn first_ready(
    counters: &Counters,
    waiting: &[LiveCall],
    firsts: &[u32],
    operations: OpId,
) -> usize
    requires in_order { AreByNumber waiting.now }
    requires firsts { AreFrom firsts.now waiting.now }
    ensures { (n : ℕ) (paths : List Path) (t : List Event) → StandsFor counters.now n paths t →
        IsReadyAt n paths t (λ o. o < operations) waiting.now result }
{
    let mut best = waiting.len();
    for operation in 0..operations {
        let place = ready_of(
            counters,
            waiting,
            bound_of(firsts, operation as usize),
            operation,
        );
        best = earlier(best, place);
    }
    best
}

// The place of the call of this number.
pub(crate) fn place_of(waiting: &[LiveCall], number: u32) -> Option<usize>
    requires { AreByNumber waiting.now }
    ensures some { IfSome result (IsNumberedAt waiting.now number) }
    ensures none { IfNone result (Every (λ (c : Called). c.number ≢ number) waiting.now) }
{
    let place = place_from(waiting, number);
    let many = waiting.len();
    if place >= many {
        return None;
    }
    let found = waiting[place].number();
    if found != number {
        return None;
    }
    Some(place)
}

// The place of the call of this session, looked for in all.
pub(crate) fn place_for(waiting: &[LiveCall], session: u32) -> Option<usize>
    ensures some { IfSome result (IsOfSessionAt waiting.now session) }
    ensures none { IfNone result (Every (λ (c : Called). c.session ≢ session) waiting.now) }
{
    for place in 0..waiting.len() {
        if waiting[place].session() == session {
            return Some(place);
        }
    }
    None
}

// Gives them the numbers from 1, in their order.
pub(crate) fn renumber(waiting: &mut Vec<LiveCall>)
    requires { length waiting.old.items < 2 ^ 32 }
    ensures { waiting.new.items ≡ numbered_from 0 waiting.old.items }
{
    for place in 0..waiting.len() {
        waiting[place].set_number(place as u32 + 1);
    }
}
