//! All connections.

ghost use Rattle.std.specs.Prelude.{◌≡◌, ◌<◌, ◌==◌, ◌%◌, [], ℕ, true, false, Some, None, IfOk, IfSome, IfNone, length, slice_get};
ghost use Rattle.std.specs.Prelude.{◌↔◌, ◌≤◌, ◌⊎◌, OnOk, OnErr, option_map};
ghost use Rattle.value_core.specs.Runs.{NoLineFeed};
ghost use Rattle.client_core.specs.Held.{rest_in, waits_in, AreSame, AreSameRows, IsAsked};
ghost use Rattle.client_core.specs.Held.{ChangesPerson, HasOpened, IsHeld, IsPassed, IsSame, IsSetTo, IsTaken};
ghost use Rattle.client_core.specs.People.{person_in, newcomer, stranger, named, called_at, name_in, since_in, called_in};
ghost use Rattle.client_core.specs.Places.{has_in, is_here_in, opened_in, held_in, place_for, place_at, Elsewhere};

use crate::ask::{Ask, ask_of};
use crate::client::{ClientPlace, OpenObject};
use path_tree::name::Name;
use std::alloc::{AllocError, Global};

/// At most so many bytes of lines of a connection are held; then nothing more is read of it.
pub const MOST_HELD: usize = 65_536;

/// The places of connections, each found by the number of its connection, and those whose held lines may be done, the
/// one that waits longest first.
#[derive(Drop)]
pub struct ClientPlaces {
    alloc: Global,
    rows: Vec<ClientPlace>,
    first: Option<usize>,
    last: Option<usize>,
    // whether held lines of some are done later
    has_stalled: bool,
}

// So many places, which nobody has.
fn no_rows(alloc: Global, count: usize) -> Result<Vec<ClientPlace>, AllocError>
    ensures count { IfOk result (λ rows. length rows.items ≡ count) }
    ensures nobody { IfOk result (λ rows. (k : ℕ) → is_here_in (slice_get rows.items k) ≡ false) }
    ensures opened { IfOk result (λ rows. (k : ℕ) → opened_in (slice_get rows.items k) ≡ None) }
    ensures held { IfOk result (λ rows. (k : ℕ) → held_in (slice_get rows.items k) ≡ []) }
{
    let mut rows = Vec::with_capacity(alloc, count)?;
    for _row in 0..count {
        rows.push(ClientPlace::nobody(alloc))?;
    }
    Ok(rows)
}

// The one at a place comes in this second, under this number.
fn come(rows: &mut Vec<ClientPlace>, at: usize, alloc: Global, who: u64, second: u64)
    requires { at < length rows.old.items }
    ensures count { length rows.new.items ≡ length rows.old.items }
    ensures here { has_in who (slice_get rows.new.items at) ≡ true }
    ensures opened { opened_in (slice_get rows.new.items at) ≡ None }
    ensures held { held_in (slice_get rows.new.items at) ≡ [] }
    ensures person { person_in (slice_get rows.new.items at) ≡ Some (newcomer second) }
    ensures others { (k : ℕ) → (at == k) ≡ false → slice_get rows.new.items k ≡ slice_get rows.old.items k }
{
    rows[at].come(alloc, who, second);
}

// The one at a place goes.
fn go(rows: &mut Vec<ClientPlace>, at: usize, alloc: Global)
    requires { at < length rows.old.items }
    ensures count { length rows.new.items ≡ length rows.old.items }
    ensures away { is_here_in (slice_get rows.new.items at) ≡ false }
    ensures opened { opened_in (slice_get rows.new.items at) ≡ None }
    ensures held { held_in (slice_get rows.new.items at) ≡ [] }
    ensures person { person_in (slice_get rows.new.items at) ≡ Some stranger }
    ensures others { (k : ℕ) → (at == k) ≡ false → slice_get rows.new.items k ≡ slice_get rows.old.items k }
{
    rows[at].go(alloc);
}

// The one at a place has opened this.
fn set_opened(rows: &mut Vec<ClientPlace>, at: usize, opened: OpenObject)
    requires { at < length rows.old.items }
    ensures count { length rows.new.items ≡ length rows.old.items }
    ensures set { HasOpened opened (slice_get rows.old.items at) (slice_get rows.new.items at) }
    ensures others { (k : ℕ) → (at == k) ≡ false → slice_get rows.new.items k ≡ slice_get rows.old.items k }
{
    rows[at].opened = Some(opened);
}

// A call of the one at a place waits, or waits no more.
fn set_waits(rows: &mut Vec<ClientPlace>, at: usize, waits: bool)
    requires { at < length rows.old.items }
    ensures count { length rows.new.items ≡ length rows.old.items }
    ensures set { IsSetTo waits (slice_get rows.old.items at) (slice_get rows.new.items at) }
    ensures others { (k : ℕ) → (at == k) ≡ false → slice_get rows.new.items k ≡ slice_get rows.old.items k }
{
    rows[at].set_waits(waits);
}

// Holds a line of the one at a place.
fn hold(
    rows: &mut Vec<ClientPlace>,
    at: usize,
    line: &[u8],
    is_whole: bool,
) -> Result<(), AllocError>
    requires { at < length rows.old.items }
    ensures count { length rows.new.items ≡ length rows.old.items }
    ensures ok { OnOk result (IsHeld line.now is_whole (slice_get rows.old.items at) (slice_get rows.new.items at)) }
    ensures err { OnErr result (IsSame (slice_get rows.old.items at) (slice_get rows.new.items at)) }
    ensures others { (k : ℕ) → (at == k) ≡ false → slice_get rows.new.items k ≡ slice_get rows.old.items k }
{
    rows[at].hold(line, is_whole)
}

// The first bytes, so many, of the held lines of the one at a place are held no more.
fn pass(rows: &mut Vec<ClientPlace>, at: usize, alloc: Global, count: usize)
    requires { at < length rows.old.items }
    ensures count { length rows.new.items ≡ length rows.old.items }
    ensures passed { IsPassed count (slice_get rows.old.items at) (slice_get rows.new.items at) }
    ensures others { (k : ℕ) → (at == k) ≡ false → slice_get rows.new.items k ≡ slice_get rows.old.items k }
{
    rows[at].pass(alloc, count);
}

// The one at a place is ready, behind all others.
fn set_ready(rows: &mut Vec<ClientPlace>, at: usize)
    requires { at < length rows.old.items }
    ensures { AreSameRows rows.old.items rows.new.items }
{
    let client = &mut rows[at];
    client.is_ready = true;
    client.is_stalled = false;
    client.next = None;
}

// One stands behind the one at a place.
fn set_next(rows: &mut Vec<ClientPlace>, at: usize, next: usize)
    ensures { AreSameRows rows.old.items rows.new.items }
{
    if at < rows.len() {
        rows[at].next = Some(next);
    }
}

// The one at a place is ready no more. It answers the place behind it.
fn set_unready(rows: &mut Vec<ClientPlace>, at: usize) -> Option<usize>
    ensures { AreSameRows rows.old.items rows.new.items }
{
    if at >= rows.len() {
        return None;
    }
    rows[at].is_ready = false;
    rows[at].next
}

// The held lines of the one at a place are done later.
fn set_stalled(rows: &mut Vec<ClientPlace>, at: usize)
    ensures { AreSameRows rows.old.items rows.new.items }
{
    if at < rows.len() {
        rows[at].is_stalled = true;
    }
}

// The client of the one at a place has this name, or none.
fn set_name(rows: &mut Vec<ClientPlace>, at: usize, name: Option<Name>)
    requires { at < length rows.old.items }
    ensures count { length rows.new.items ≡ length rows.old.items }
    ensures set { ChangesPerson (named name) (slice_get rows.old.items at) (slice_get rows.new.items at) }
    ensures others { (k : ℕ) → (at == k) ≡ false → slice_get rows.new.items k ≡ slice_get rows.old.items k }
{
    rows[at].name = name;
}

// The last call of the one at a place was taken in this second.
fn set_called(rows: &mut Vec<ClientPlace>, at: usize, second: u64)
    requires { at < length rows.old.items }
    ensures count { length rows.new.items ≡ length rows.old.items }
    ensures set { ChangesPerson (called_at second) (slice_get rows.old.items at) (slice_get rows.new.items at) }
    ensures others { (k : ℕ) → (at == k) ≡ false → slice_get rows.new.items k ≡ slice_get rows.old.items k }
{
    rows[at].called = second;
}

impl ClientPlaces {
    /// So many places, which nobody has: nobody has opened an object, and no line is held. The error is that memory was refused.
    pub fn new(alloc: Global, count: usize) -> Result<ClientPlaces, AllocError>
        ensures count { IfOk result (λ clients. length clients.rows.items ≡ count) }
        ensures nobody { IfOk result (λ clients. (k : ℕ) → is_here_in (place_at clients k) ≡ false) }
        ensures opened { IfOk result (λ clients. (k : ℕ) → opened_in (place_at clients k) ≡ None) }
        ensures held { IfOk result (λ clients. (k : ℕ) → held_in (place_at clients k) ≡ []) }
    {
        let rows = no_rows(alloc, count)?;
        Ok(ClientPlaces {
            alloc,
            rows,
            first: None,
            last: None,
            has_stalled: false,
        })
    }

    // The place that a connection of this number has, if it is there.
    fn place_for(&self, who: u64) -> Option<usize>
        ensures place { IfSome result (λ place. place ≡ place_for self.now who) }
        ensures within { IfSome result (λ place. place < length self.now.rows.items) }
        ensures none { IfNone result (self.now.rows.items ≡ []) }
    {
        let count = self.rows.len();
        if count == 0 {
            return None;
        }
        Some((who % count as u64) as usize)
    }

    /// How many places there are.
    pub fn count(&self) -> usize
        ensures { result ≡ length self.now.rows.items }
    {
        self.rows.len()
    }

    /// The place of a connection that is here.
    pub fn place_of(&self, who: u64) -> Option<usize>
        ensures place { IfSome result (λ place. place ≡ place_for self.now who) }
        ensures some { IfSome result (λ place. has_in who (place_at self.now place) ≡ true) }
        ensures none { IfNone result (has_in who (place_at self.now (place_for self.now who)) ≡ false) }
    {
        let place = self.place_for(who)?;
        if !self.rows[place].is(who) {
            return None;
        }
        Some(place)
    }

    /// The place that a connection that comes will have, where another one has it.
    pub fn taken_by(&self, who: u64) -> Option<usize>
        ensures place { IfSome result (λ place. place ≡ place_for self.now who) }
        ensures some { IfSome result (λ place. is_here_in (place_at self.now place) ≡ true) }
        ensures none { IfNone result (is_here_in (place_at self.now (place_for self.now who)) ≡ false) }
    {
        let place = self.place_for(who)?;
        if !self.rows[place].is_here {
            return None;
        }
        Some(place)
    }

    /// A connection comes in this second, and has its place: the one that had it has it no more, and nothing of it is left.
    pub fn come(&mut self, who: u64, second: u64)
        ensures here { 0 < length self.old.rows.items → has_in who (place_at self.new (place_for self.old who)) ≡ true }
        ensures opened { opened_in (place_at self.new (place_for self.old who)) ≡ None }
        ensures held { held_in (place_at self.new (place_for self.old who)) ≡ [] }
        ensures person { 0 < length self.old.rows.items →
            person_in (place_at self.new (place_for self.old who)) ≡ Some (newcomer second) }
        ensures others { Elsewhere self.old self.new (place_for self.old who) }
    {
        let Some(place) = self.place_for(who) else {
            return;
        };
        let alloc = self.alloc;
        come(&mut self.rows, place, alloc, who, second);
    }

    /// The one at a place has gone, and nothing of it is left.
    pub fn go(&mut self, place: usize)
        ensures away { is_here_in (place_at self.new place) ≡ false }
        ensures opened { opened_in (place_at self.new place) ≡ None }
        ensures held { held_in (place_at self.new place) ≡ [] }
        ensures person { place < length self.old.rows.items → person_in (place_at self.new place) ≡ Some stranger }
        ensures others { Elsewhere self.old self.new place }
    {
        if place >= self.rows.len() {
            return;
        }
        let alloc = self.alloc;
        go(&mut self.rows, place, alloc);
    }

    /// The number of the connection at a place, where it is here.
    pub fn who(&self, place: usize) -> Option<u64>
        ensures some { IfSome result (λ who. has_in who (place_at self.now place) ≡ true) }
        ensures none { IfNone result (is_here_in (place_at self.now place) ≡ false) }
    {
        if place >= self.rows.len() || !self.rows[place].is_here {
            return None;
        }
        Some(self.rows[place].who)
    }

    /// What the one at a place has opened.
    pub fn opened(&self, place: usize) -> Option<OpenObject>
        ensures { result ≡ opened_in (place_at self.now place) }
    {
        if place >= self.rows.len() {
            return None;
        }
        self.rows[place].opened
    }

    /// The one at a place has opened this.
    pub fn set_opened(&mut self, place: usize, opened: OpenObject)
        ensures set { place < length self.old.rows.items →
            HasOpened opened (place_at self.old place) (place_at self.new place) }
        ensures others { Elsewhere self.old self.new place }
    {
        if place < self.rows.len() {
            set_opened(&mut self.rows, place, opened);
        }
    }

    /// The client of the one at a place has this name, or none.
    pub fn set_name(&mut self, place: usize, name: Option<Name>)
        ensures set { ChangesPerson (named name) (place_at self.old place) (place_at self.new place) }
        ensures others { Elsewhere self.old self.new place }
    {
        if place < self.rows.len() {
            set_name(&mut self.rows, place, name);
        }
    }

    /// The last call of the one at a place was taken in this second.
    pub fn set_called(&mut self, place: usize, second: u64)
        ensures set { ChangesPerson (called_at second) (place_at self.old place) (place_at self.new place) }
        ensures others { Elsewhere self.old self.new place }
    {
        if place < self.rows.len() {
            set_called(&mut self.rows, place, second);
        }
    }

    /// The name that was set last of the one at a place.
    pub fn name(&self, place: usize) -> Option<&Name>
        ensures { option_map (λ n. n.now) result ≡ name_in (person_in (place_at self.now place)) }
    {
        match self.rows.get(place) {
            None => None,
            Some(client) => client.name.as_ref(),
        }
    }

    /// The second in which the one at a place came.
    pub fn since(&self, place: usize) -> u64
        ensures { result ≡ since_in (person_in (place_at self.now place)) }
    {
        match self.rows.get(place) {
            None => 0,
            Some(client) => client.since,
        }
    }

    /// The second in which the last call of the one at a place was taken, or in which it came where it made none.
    pub fn called(&self, place: usize) -> u64
        ensures { result ≡ called_in (person_in (place_at self.now place)) }
    {
        match self.rows.get(place) {
            None => 0,
            Some(client) => client.called,
        }
    }

    /// A call of the one at a place waits, or waits no more.
    pub fn set_waits(&mut self, place: usize, waits: bool)
        ensures set { IsSetTo waits (place_at self.old place) (place_at self.new place) }
        ensures others { Elsewhere self.old self.new place }
    {
        if place < self.rows.len() {
            set_waits(&mut self.rows, place, waits);
        }
    }

    /// Whether a call of the one at a place waits.
    pub fn waits(&self, place: usize) -> bool
        ensures { result ≡ waits_in (place_at self.now place) }
    {
        if place >= self.rows.len() {
            return false;
        }
        self.rows[place].waits()
    }

    /// Whether a line of the one at a place has to be held: a call of it waits, or lines are held that came before.
    pub fn must_hold(&self, place: usize) -> bool
        ensures { result ≡ false ↔ ((waits_in (place_at self.now place) ≡ false)
            × (rest_in (place_at self.now place) ≡ [])) }
    {
        if place >= self.rows.len() {
            return false;
        }
        if self.rows[place].waits() {
            return true;
        }
        self.rows[place].holds()
    }

    /// Whether more may be read of the one at a place: so many bytes of lines at most are held of it.
    pub fn may_read(&self, place: usize) -> bool
        ensures within { result ≡ true → length (rest_in (place_at self.now place)) ≤ 65536 }
        ensures none { result ≡ false → (place_at self.now place ≡ None)
            ⊎ (65536 < length (rest_in (place_at self.now place))) }
    {
        if place >= self.rows.len() {
            return false;
        }
        self.rows[place].held_bytes() <= MOST_HELD
    }

    /// Holds a line of the one at a place; where there is none nothing is held. The error is that memory was refused:
    /// then it is not held.
    pub fn hold(&mut self, place: usize, line: &[u8], is_whole: bool) -> Result<(), AllocError>
        ensures ok { OnOk result (place < length self.old.rows.items →
            IsHeld line.now is_whole (place_at self.old place) (place_at self.new place)) }
        ensures err { OnErr result (IsSame (place_at self.old place) (place_at self.new place)) }
        ensures others { Elsewhere self.old self.new place }
    {
        if place >= self.rows.len() {
            return Ok(());
        }
        hold(&mut self.rows, place, line, is_whole)
    }

    // What the next held line of the one at a place asks for, and how many bytes it has.
    fn asked(&self, place: usize) -> Option<(usize, Result<Ask, AllocError>)>
        ensures some { IfSome result (λ found. IsAsked (place_at self.now place) found.0 found.1) }
        ensures none { IfNone result (NoLineFeed (rest_in (place_at self.now place))) }
        ensures within { IfSome result (λ found. place < length self.now.rows.items) }
    {
        if place >= self.rows.len() {
            return None;
        }
        let client = &self.rows[place];
        let (line, is_whole) = client.line()?;
        Some((
            line.len() + 1,
            ask_of(self.alloc, client.opened.is_some(), is_whole, line),
        ))
    }

    /// Takes what the next held line of the one at a place asks for: it is held no more. `None`: no line is held, and
    /// nothing changes. The error is that memory was refused to read it; then too it is held no more.
    pub fn take(&mut self, place: usize) -> Option<Result<Ask, AllocError>>
        ensures some { IfSome result (λ asked. IsTaken (place_at self.old place) (place_at self.new place) asked) }
        ensures none { IfNone result (NoLineFeed (rest_in (place_at self.old place)) × (self.new ≡ self.old)) }
        ensures others { Elsewhere self.old self.new place }
    {
        let (count, asked) = self.asked(place)?;
        let alloc = self.alloc;
        pass(&mut self.rows, place, alloc, count);
        Some(asked)
    }

    /// The held lines of the one at a place may be done, where some are held and no call of it waits.
    pub fn ready(&mut self, place: usize)
        ensures { AreSame self.old self.new }
    {
        if !self.goes_on(place) || self.rows[place].is_ready {
            return;
        }
        set_ready(&mut self.rows, place);
        self.append(place);
    }

    // Puts a place behind all that are ready.
    fn append(&mut self, place: usize)
        ensures { AreSame self.old self.new }
    {
        match self.last {
            None => self.first = Some(place),
            Some(last) => set_next(&mut self.rows, last, place),
        }
        self.last = Some(place);
    }

    /// Takes the first of those whose held lines may be done.
    pub fn next(&mut self) -> Option<usize>
        ensures { AreSame self.old self.new }
    {
        let place = self.first?;
        let behind = set_unready(&mut self.rows, place);
        self.first = behind;
        if behind.is_none() {
            self.last = None;
        }
        Some(place)
    }

    /// Whether lines of the one at a place may be done now: it is here, some are held, and no call of it waits.
    pub fn goes_on(&self, place: usize) -> bool
        ensures here { result ≡ true → is_here_in (place_at self.now place) ≡ true }
        ensures waits { result ≡ true → waits_in (place_at self.now place) ≡ false }
        ensures held { result ≡ true → rest_in (place_at self.now place) ≡ [] → ⊥ }
        ensures not { result ≡ false → is_here_in (place_at self.now place) ≡ true →
            waits_in (place_at self.now place) ≡ false → rest_in (place_at self.now place) ≡ [] }
    {
        if place >= self.rows.len() {
            return false;
        }
        if !self.rows[place].is_here {
            return false;
        }
        if self.rows[place].waits() {
            return false;
        }
        self.rows[place].holds()
    }

    /// The held lines of the one at a place are done later, since too much is owed to it.
    pub fn stall(&mut self, place: usize)
        ensures { AreSame self.old self.new }
    {
        set_stalled(&mut self.rows, place);
        self.has_stalled = true;
    }

    // Whether the held lines of the one at a place are done later.
    fn is_stalled(&self, place: usize) -> bool {
        match self.rows.get(place) {
            Some(client) => client.is_stalled,
            None => false,
        }
    }

    /// All whose held lines were to be done later are ready again.
    pub fn wake(&mut self)
        ensures { AreSame self.old self.new }
    {
        if !self.has_stalled {
            return;
        }
        self.has_stalled = false;
        for place in 0..self.rows.len() {
            if self.is_stalled(place) {
                self.ready(place);
                if self.is_stalled(place) {
                    self.has_stalled = true;
                }
            }
        }
    }
}
