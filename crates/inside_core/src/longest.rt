//! For how long the calls of an operation wait.

ghost use Rattle.std.specs.Prelude.{◌≡◌, ◌≤◌, ◌⊎◌, ℕ, true, false, length, IfNone, IfSome};
ghost use Rattle.client_core.specs.State.{peers_of};
ghost use Rattle.client_core.specs.ToldInside.{calls_at};
ghost use Rattle.inside_core.specs.Adds.{crowd_of};
ghost use Rattle.inside_core.specs.Looks.{ago_at, IsLongest, IsWait, WaitsSo};

use crate::who::{Whom, called_at, calls_at, count};
use client_core::clients::ClientPlaces;
use live_core::call::LiveCall;
use live_core::hosted::Hosted;

// For how many seconds the last call of the one at a place is taken.
fn ago(clients: &ClientPlaces, whom: Whom, place: usize) -> u64
    ensures { result ≡ ago_at (crowd_of clients.now whom) place }
{
    whom.second.saturating_sub(called_at(clients, place))
}

// The place of the first one that waits for a call of a session, of which it was told this number.
fn find_caller(clients: &ClientPlaces, whom: Whom, session: u32, told: u64) -> Option<usize>
    ensures some { IfSome result (λ place. calls_at (crowd_of clients.now whom) session told place ≡ true) }
    ensures none { IfNone result ((place : ℕ) → calls_at (crowd_of clients.now whom) session told place ≡ false) }
{
    for place in 0..count(clients) {
        if calls_at(clients, whom, place, session, told) {
            return Some(place);
        }
    }
    None
}

// The place that is thought to be that of the one that waits for a call, where it is, or that of any one.
fn caller_of(
    clients: &ClientPlaces,
    whom: Whom,
    thought: Option<usize>,
    session: u32,
    told: u64,
) -> Option<usize>
    ensures some { IfSome result (λ place. calls_at (crowd_of clients.now whom) session told place ≡ true) }
    ensures none { IfNone result ((place : ℕ) → calls_at (crowd_of clients.now whom) session told place ≡ false) }
{
    match thought {
        None => find_caller(clients, whom, session, told),
        Some(place) => {
            if calls_at(clients, whom, place, session, told) {
                return Some(place);
            }
            find_caller(clients, whom, session, told)
        }
    }
}

// For how many seconds one waits for a call of a session, of which it was told this number.
fn waited(
    clients: &ClientPlaces,
    whom: Whom,
    thought: Option<usize>,
    session: u32,
    told: u64,
) -> u64
    ensures { IsWait (crowd_of clients.now whom) session told result }
{
    match caller_of(clients, whom, thought, session, told) {
        None => 0,
        Some(place) => ago(clients, whom, place),
    }
}

// For how many seconds a call waits.
fn seconds_of(clients: &ClientPlaces, object: &Hosted, whom: Whom, call: &LiveCall) -> u64
    ensures { WaitsSo (crowd_of clients.now whom) object.now call.now result }
{
    let told = object.told(call.number());
    let session = call.session();
    waited(clients, whom, object.owner(session), session, told)
}

// For how many seconds a call waits, where it is of this operation; else 0.
fn seconds_if(
    clients: &ClientPlaces,
    object: &Hosted,
    whom: Whom,
    operation: usize,
    call: &LiveCall,
) -> u64
    ensures of { call.now.operation ≡ operation → WaitsSo (crowd_of clients.now whom) object.now call.now result }
    ensures other { (result ≡ 0) ⊎ (call.now.operation ≡ operation) }
{
    if call.operation() as usize != operation {
        return 0;
    }
    seconds_of(clients, object, whom, call)
}

// The greater one of two numbers.
fn greater(one: u64, other: u64) -> u64
    ensures one { one ≤ result }
    ensures other { other ≤ result }
    ensures which { (result ≡ one) ⊎ (result ≡ other) }
{
    if one < other {
        return other;
    }
    one
}

/// For how many seconds the call of an operation waits that waits longest; 0 where none waits. The clients are looked at as
/// `whom` says.
pub(crate) fn longest_wait(
    clients: &ClientPlaces,
    object: &Hosted,
    whom: Whom,
    operation: usize,
) -> u64
    ensures { IsLongest (crowd_of clients.now whom) object.now operation result }
{
    let waiting = object.live().waiting();
    let mut longest: u64 = 0;
    for k in 0..waiting.len() {
        let here = seconds_if(clients, object, whom, operation, &waiting[k]);
        longest = greater(longest, here);
    }
    longest
}
