//! Clients that come again: the seats that were given out under a name.

ghost use Rattle.std.specs.Prelude.{◌≡◌, ◌≢◌, ◌↔◌, ◌<◌, ◌≤◌, ◌+◌, ◌++◌, ◌∷◌, [], IsTrue, IfSome, IfNone, OnOk, OnErr};
ghost use Rattle.std.specs.Prelude.{Some, None, ℕ, length, slice_get, slice_set, sum_by};
ghost use Rattle.office_core.specs.declared.clients.Client.{Client as AClient};
ghost use Rattle.page_core.specs.Lists.{Every};
ghost use Rattle.office_core.specs.Clients.{IsOut, parked_of};
ghost use Rattle.office_core.specs.ClientSeats.{times, count_of};

use crate::client_seat::Seat;
use path_tree::name::Name;
use std::alloc::{AllocError, Global};
use std::marker::Model;

/// A name under which a seat was given out, the session of that seat, and the seat itself where it is parked.
#[derive(Drop)]
pub struct Client {
    name: Name,
    session: u32,
    seat: Option<Seat>,
}

/// The names under which seats were given out, in the order of their sessions.
///
/// A contract sees it as a list of clients. Whose seat is out has room for it here: to park it takes no memory.
#[derive(Drop)]
pub struct Clients {
    rows: Vec<Client>,
    alloc: Global,
}

impl Model for Clients {
    ghost use Rattle.std.specs.Prelude.{List};
    ghost use Rattle.std.specs.Coded.{codes};
    ghost use Rattle.office_core.specs.declared.clients.Client.{Client};
    ghost use Rattle.office_core.specs.contracts.clients.Client as k;

    ghost Value = { List Client };

    ghost coded = { Prim.hlevel (codes, k.the_row.coded) };

    ghost view = { λ c. c.rows.items };
}

// Whether a client has this name.
fn has_name(client: &Client, name: &Name) -> bool
    ensures { IsTrue result ↔ (client.now.name ≡ name.now) }
{
    client.name.as_bytes() == name.as_bytes()
}

// The place of the client of this name.
fn place_of(clients: &[Client], name: &Name) -> Option<usize>
    ensures some { IfSome result (λ k. (c : AClient) × (slice_get clients.now k ≡ Some c) × (c.name ≡ name.now)) }
    ensures none { IfNone result (Every (λ (c : AClient). c.name ≢ name.now) clients.now) }
{
    for place in 0..clients.len() {
        if has_name(&clients[place], name) {
            return Some(place);
        }
    }
    None
}

// Whether the seat of a client is out, and of this session.
fn is_out(client: &Client, session: u32) -> bool
    ensures { IsTrue result ↔ IsOut session client.now }
{
    if client.session != session {
        return false;
    }
    client.seat.is_none()
}

// The place of the client whose seat is out, and of this session.
fn place_out(clients: &[Client], session: u32) -> Option<usize>
    ensures some { IfSome result (λ k. (c : AClient) × (slice_get clients.now k ≡ Some c) × IsOut session c) }
    ensures none { IfNone result (Every (λ (c : AClient). IsOut session c → ⊥) clients.now) }
{
    for place in 0..clients.len() {
        if is_out(&clients[place], session) {
            return Some(place);
        }
    }
    None
}

// Gives the seat of a client out, where it is parked.
fn take(client: &mut Client) -> Option<Seat>
    ensures seat { result ≡ client.old.seat }
    ensures client { client.new ≡ record client.old { seat = None } }
{
    client.seat.take()
}

// Gives the seat of the client at this place out, where it is parked.
fn take_at(clients: &mut Vec<Client>, place: usize) -> Option<Seat>
    requires { place < length clients.old.items }
    ensures some { IfSome result (λ seat. (c : AClient) → slice_get clients.old.items place ≡ Some c →
        (c.seat ≡ Some seat) × (clients.new.items ≡ slice_set clients.old.items place (record c { seat = None }))) }
    ensures none { IfNone result ((c : AClient) → slice_get clients.old.items place ≡ Some c →
        (c.seat ≡ None) × (clients.new.items ≡ clients.old.items)) }
{
    match take(&mut clients[place]) {
        Some(seat) => Some(seat),
        None => None,
    }
}

// Parks a seat.
fn put(client: &mut Client, seat: Seat)
    ensures { client.new ≡ record client.old { seat = Some seat } }
{
    client.seat = Some(seat);
}

// Parks the seat of the client at this place.
fn put_at(clients: &mut Vec<Client>, place: usize, seat: Seat)
    requires { place < length clients.old.items }
    ensures { (c : AClient) → slice_get clients.old.items place ≡ Some c →
        clients.new.items ≡ slice_set clients.old.items place (record c { seat = Some seat }) }
{
    put(&mut clients[place], seat);
}

// A new client, whose seat is out. The room for its seat is in it.
fn add(
    alloc: Global,
    clients: &mut Vec<Client>,
    name: &Name,
    session: u32,
) -> Result<(), AllocError>
    ensures ok { OnOk result (clients.new.items
        ≡ clients.old.items ++ record { name = name.now; session = session; seat = None } ∷ []) }
    ensures err { OnErr result (clients.new.items ≡ clients.old.items) }
{
    clients.reserve(1)?;
    let name = name.copy(alloc)?;
    clients.push_reserved(Client {
        name,
        session,
        seat: None,
    });
    Ok(())
}

// How many parked seats there are.
pub(crate) fn count_parked(clients: &[Client]) -> usize
    ensures count { result ≡ length (parked_of clients.now) }
    ensures few { result ≤ length clients.now }
{
    match clients {
        [] => 0,
        [client, clients @ ..] => match &client.seat {
            Some(_) => 1 + count_parked(clients),
            None => count_parked(clients),
        },
    }
}

// How many parked seats are of a session.
pub(crate) fn count_parked_of(clients: &[Client], session: u32) -> usize
    ensures count { result ≡ times session (parked_of clients.now) }
    ensures few { result ≤ length clients.now }
{
    match clients {
        [] => 0,
        [client, clients @ ..] => match &client.seat {
            Some(seat) => {
                if seat.session() == session {
                    1 + count_parked_of(clients, session)
                } else {
                    count_parked_of(clients, session)
                }
            }
            None => count_parked_of(clients, session),
        },
    }
}

// What is left of a total once the counts of the parked seats are taken off, or `None` where they are more.
pub(crate) fn less_parked(clients: &[Client], total: usize) -> Option<usize>
    ensures some { IfSome result (λ rest. rest + sum_by count_of (parked_of clients.now) ≡ total) }
    ensures none { IfNone result (total < sum_by count_of (parked_of clients.now)) }
{
    match clients {
        [] => Some(total),
        [client, clients @ ..] => match &client.seat {
            Some(seat) => {
                if seat.count() > total {
                    None
                } else {
                    less_parked(clients, total - seat.count())
                }
            }
            None => less_parked(clients, total),
        },
    }
}

impl Clients {
    /// No name yet.
    pub fn new(alloc: Global) -> Clients
        ensures { result ≡ [] }
    {
        Clients {
            rows: Vec::new(alloc),
            alloc,
        }
    }

    /// The place of the client of this name, from 0.
    pub fn place_of(&self, name: &Name) -> Option<usize>
        ensures some { IfSome result (λ k. (c : AClient) × (slice_get self.now k ≡ Some c) × (c.name ≡ name.now)) }
        ensures none { IfNone result (Every (λ (c : AClient). c.name ≢ name.now) self.now) }
    {
        place_of(&self.rows, name)
    }

    /// The place of the client whose seat is out, and of this session.
    pub fn place_out(&self, session: u32) -> Option<usize>
        ensures some { IfSome result (λ k. (c : AClient) × (slice_get self.now k ≡ Some c) × IsOut session c) }
        ensures none { IfNone result (Every (λ (c : AClient). IsOut session c → ⊥) self.now) }
    {
        place_out(&self.rows, session)
    }

    /// Gives the seat of the client at this place out, where it is parked. Where it is out, nothing is changed.
    pub fn take_at(&mut self, place: usize) -> Option<Seat>
        requires { place < length self.old }
        ensures some { IfSome result (λ seat. (c : AClient) → slice_get self.old place ≡ Some c →
            (c.seat ≡ Some seat) × (self.new ≡ slice_set self.old place (record c { seat = None }))) }
        ensures none { IfNone result ((c : AClient) → slice_get self.old place ≡ Some c →
            (c.seat ≡ None) × (self.new ≡ self.old)) }
    {
        take_at(&mut self.rows, place)
    }

    /// Parks the seat of the client at this place. It takes no memory.
    pub fn put_at(&mut self, place: usize, seat: Seat)
        requires { place < length self.old }
        ensures { (c : AClient) → slice_get self.old place ≡ Some c →
            self.new ≡ slice_set self.old place (record c { seat = Some seat }) }
    {
        put_at(&mut self.rows, place, seat);
    }

    /// A new client, whose seat is out, of this session. The room that parking needs is taken here. The error is
    /// that memory was refused;
    /// nothing is changed.
    pub fn add(&mut self, name: &Name, session: u32) -> Result<(), AllocError>
        ensures ok { OnOk result (self.new
            ≡ self.old ++ record { name = name.now; session = session; seat = None } ∷ []) }
        ensures err { OnErr result (self.new ≡ self.old) }
    {
        add(self.alloc, &mut self.rows, name, session)
    }

    // All of them.
    pub(crate) fn rows(&self) -> &[Client]
        ensures { result.now ≡ self.now }
    {
        &self.rows
    }
}
