//! An object that is served, with its clients.

ghost use Rattle.std.specs.Prelude.{◌≡◌, ◌≢◌, ℕ, [], true, false, IsTrue, IfOk, IfSome, IfNone, Some, slice_get};
ghost use Rattle.decl_core.specs.ObjectMap.{object_of};
ghost use Rattle.word_core.specs.Events.{Called};
ghost use Rattle.word_core.specs.Text.{operation_name};
ghost use Rattle.guest_core.specs.declared.guest.Guest.{Guest as AGuest};
ghost use Rattle.guest_core.specs.declared.seats.SeatHolder.TheVariants.{Nameless};
ghost use Rattle.guest_core.specs.Entering.{Leaves};
ghost use Rattle.guest_core.specs.Guests.{with_seat, IsNamed, HasNoName};
ghost use Rattle.guest_core.specs.Seats.{IsLeastFree, NoneIsFree};
ghost use Rattle.live_core.specs.Hall.{Every};
ghost use Rattle.guest_core.specs.Keys.{asks};
ghost use Rattle.live_core.specs.Keys.{WaitsAs, SaysWaits, SaysKept, SaysKey, Says};
ghost use Rattle.live_core.specs.Scene.{is_given, told_of, with_guests};

use crate::call::LiveCall;
use crate::calls::most_of;
use crate::live::Live;
use crate::size::{MOST_NAME, most_told};
use apply_core::fits::arguments_fit;
use apply_core::reply::Reply;
use decl_core::object::Object;
use guest_core::answer::{Cancelled, KeyedFault};
use guest_core::guests::Guests;
use guest_core::keys::Judged;
use path_count::past::PastEvent;
use path_tree::name::Name;
use path_tree::node::OpId;
use std::alloc::{AllocError, Global};
use std::marker::Model;
use value_core::datum::Datum;
use word_core::event::name_of;

/// At so many calls, with those of the past, a new epoch begins.
pub const EPOCH_CALLS: u32 = 60_000;

/// The lines behind a front have at most so many bytes: a journal has room for as many there.
pub const MOST_LINES: usize = 8_388_608;

/// Where no more bytes are left for lines, a new epoch begins.
pub const LEAST_LEFT: usize = 2_097_152;

/// Unless so many bytes of lines were added behind the front: a new epoch brings no more room.
pub const LEAST_ADDED: usize = 1_048_576;

/// The lines of all calls that wait have at most so many bytes: so a call that may start has room.
pub const MOST_OWING: usize = 6_291_456;

/// Where no new epoch can begin, it is tried again behind so many calls, and each second.
pub const CALLS_BETWEEN: u32 = 1_000;

/// What an object that is to be served begins with.
#[derive(Drop)]
pub struct HostedStart {
    /// The object, with nothing that waits.
    pub live: Live,
    /// Its clients. All that have a name are away.
    pub guests: Guests,
    /// The past of the epoch, the oldest event first.
    pub past: Vec<PastEvent>,
    /// Which epoch it is, from 1.
    pub epoch: u64,
    /// What the declaration of the object gives (`source`).
    pub source: u64,
    /// What is added to the number of a call where it is told.
    pub base: u64,
    /// Sessions have the numbers from 1 to this one.
    pub sessions: u16,
    /// At most so many calls wait.
    pub waiting: u32,
}

/// What a key says of a call.
#[derive(Drop)]
pub enum KeyState {
    /// It is the key of the next call.
    New,
    /// The call was made before, with this number and this reply.
    Repeated(u64, Reply),
    /// The call was made before, with this number, and was cancelled.
    Cancelled(u64),
    /// The call was made before, with this number, and waits.
    Waits(u64),
    /// It is refused.
    Refused(KeyedFault),
}

/// An object that is served, with its clients. A contract sees what its hand holds, who its clients are, and how calls are
/// told (`specs/Scene.antt`).
#[derive(Drop)]
pub struct Hosted {
    pub(crate) alloc: Global,
    pub(crate) live: Live,
    pub(crate) guests: Guests,
    // the past of the epoch, the oldest event first
    pub(crate) past: Vec<PastEvent>,
    // the same, and all starts and ends since
    pub(crate) long: Vec<PastEvent>,
    // the numbers that were told of the calls that were carried into this epoch, in their order
    pub(crate) carried: Vec<u64>,
    pub(crate) epoch: u64,
    pub(crate) source: u64,
    // what is added to a number where it is told
    pub(crate) base: u64,
    // the numbers that were given out in this epoch
    pub(crate) given: u32,
    // how many bytes of lines stand behind the front
    pub(crate) added: usize,
    // how many bytes the lines of the calls that wait have at most
    pub(crate) owing: usize,
    // of each session one more than the place of its connection, or 0
    pub(crate) owners: Vec<u32>,
    pub(crate) waiting: u32,
    // how many calls were asked for, and new names came, since a new epoch is due
    pub(crate) behind: u32,
    // how many of them there were when one was tried last, and could not begin; 0 where none was, or it is tried again
    pub(crate) tried: u32,
    // whether it is tried again since a second has gone by
    pub(crate) again: bool,
    // how many calls finished
    pub(crate) entries: u64,
}

impl Model for Hosted {
    ghost use Rattle.std.specs.Coded.{codes};
    ghost use Rattle.live_core.specs.contracts.live.Live as l;
    ghost use Rattle.guest_core.specs.contracts.guests.Guests as g;
    ghost use Rattle.live_core.specs.Scene.{Scene};
    ghost use Rattle.live_core.specs.HostedView.{scene_of};

    ghost Value = { Scene };

    ghost coded = { Prim.hlevel (codes, l.the_row.coded, g.the_row.coded) };

    ghost view = { scene_of };
}

// Whether the operation at a place of an object has this name.
fn is_named(object: &Object, operation: OpId, name: &Name) -> bool
    ensures { IsTrue result → operation_name (object_of object.now) operation ≡ name.now }
{
    name_of(object, operation) == name.as_bytes()
}

// The place of the operation of this name in an object.
fn operation_for(object: &Object, name: &Name) -> Option<OpId>
    ensures { IfSome result (λ place. operation_name (object_of object.now) place ≡ name.now) }
{
    for place in 0..object.operations.len() {
        let operation = OpId::try_from(place).ok()?;
        if is_named(object, operation, name) {
            return Some(operation);
        }
    }
    None
}

fn no_owners(alloc: Global, sessions: u16) -> Result<Vec<u32>, AllocError> {
    let mut owners = Vec::with_capacity(alloc, sessions as usize + 1)?;
    for _ in 0..sessions as usize + 1 {
        owners.push(0)?;
    }
    Ok(owners)
}

impl Hosted {
    /// An object to which no client is connected. The error is that memory was refused.
    pub fn new(alloc: Global, begun: HostedStart) -> Result<Hosted, AllocError>
        ensures { IfOk result (λ h. h ≡ record {
          hall = begun.live;
          guests = begun.guests;
          past = begun.past.items;
          carried = [];
          base = begun.base;
          given = 0;
          epoch = begun.epoch;
          source = begun.source;
        }) }
    {
        let owners = no_owners(alloc, begun.sessions)?;
        let long = begun.past.to_vec(alloc)?;
        let HostedStart {
            live,
            guests,
            past,
            epoch,
            source,
            base,
            waiting,
            ..
        } = begun;
        Ok(Hosted {
            alloc,
            live,
            guests,
            past,
            long,
            carried: Vec::new(alloc),
            epoch,
            source,
            base,
            given: 0,
            added: 0,
            owing: 0,
            owners,
            waiting,
            behind: 0,
            tried: 0,
            again: false,
            entries: 0,
        })
    }

    /// The name of the object.
    pub fn name(&self) -> &Name
        ensures { result.now ≡ self.now.hall.object.name }
    {
        &self.live.object().name
    }

    /// How many calls of it have finished since it was begun.
    pub fn entries(&self) -> u64 {
        self.entries
    }

    /// What it keeps.
    pub fn live(&self) -> &Live
        ensures { result.now ≡ self.now.hall }
    {
        &self.live
    }

    /// Its clients.
    pub fn guests(&self) -> &Guests
        ensures { result.now ≡ self.now.guests }
    {
        &self.guests
    }

    /// The place of the operation of this name.
    pub fn operation(&self, name: &Name) -> Option<OpId>
        ensures { IfSome result (λ place. operation_name (object_of self.now.hall.object) place ≡ name.now) }
    {
        operation_for(self.live.object(), name)
    }

    /// Whether arguments fit the operation at a place.
    pub fn fits(&self, operation: OpId, arguments: &[Datum]) -> bool {
        match self.live.object().operations.get(operation as usize) {
            Some(found) => arguments_fit(found, arguments),
            None => false,
        }
    }

    /// The number that is told of the call of this number in this epoch.
    pub fn told(&self, number: u32) -> u64
        ensures { result ≡ told_of self.now number }
    {
        let place = (number as usize).saturating_sub(1);
        match self.carried.get(place) {
            Some(told) => *told,
            None => self.base.saturating_add(u64::from(number)),
        }
    }

    // The number in this epoch of the call of which this number was told.
    fn number_of(&self, told: u64) -> Option<u32>
        ensures { IfSome result (λ number. told_of self.now number ≡ told) }
    {
        for place in 0..self.carried.len() {
            if self.carried[place] == told {
                return u32::try_from(place.saturating_add(1)).ok();
            }
        }
        let number = told.checked_sub(self.base)?;
        if number <= self.carried.len() as u64 {
            return None;
        }
        u32::try_from(number).ok()
    }

    /// Whether this number may have been told of a call: it is not 0, and not above the greatest that was given.
    pub fn is_given(&self, told: u64) -> bool
        ensures { result ≡ is_given self.now told }
    {
        if told == 0 {
            return false;
        }
        told <= self.base.saturating_add(u64::from(self.given))
    }

    /// The session of the waiting call of which this number was told, or what became of it.
    pub fn waits_as(&self, told: u64) -> Result<u32, Cancelled>
        ensures { IfOk result (λ session. WaitsAs self.now session told) }
    {
        if !self.is_given(told) {
            return Err(Cancelled::Unknown);
        }
        let Some(number) = self.number_of(told) else {
            return Err(Cancelled::Ended);
        };
        match self.live.call_numbered(number) {
            Some(call) => Ok(call.session()),
            None => Err(Cancelled::Ended),
        }
    }

    // Whether a session has a name.
    pub(crate) fn has_name(&self, session: u16) -> bool
        ensures yes { result ≡ true → (p : ℕ) × (g : AGuest) × IsNamed self.now.guests session p g }
        ensures no { result ≡ false → HasNoName self.now.guests session }
    {
        match self.guests.guest(session) {
            Some(_) => true,
            None => false,
        }
    }

    /// The waiting call of a session.
    pub fn waiting_of(&self, session: u16) -> Option<&LiveCall>
        ensures some { IfSome result (λ c. (k : ℕ) × (slice_get self.now.hall.waiting k ≡ Some c.now)
            × (c.now.session ≡ session)) }
        ensures none { IfNone result (Every (λ (c : Called). c.session ≢ session) self.now.hall.waiting) }
    {
        self.live.call_of(u32::from(session))
    }

    // What a key says of a call of a session that has a name.
    fn judged(&self, session: u16, key: u64, operation: OpId, arguments: &[Datum]) -> KeyState
        ensures { SaysKey self.now session key (asks operation arguments.now) result }
    {
        let _is_named = self.has_name(session);
        match self.guests.judge(session, key, operation, arguments) {
            Judged::New => KeyState::New,
            Judged::Waits => self.waits(session),
            Judged::Repeat(place) => self.kept(session, place),
            Judged::KeyReused => KeyState::Refused(KeyedFault::KeyReused),
            Judged::BadKey => KeyState::Refused(KeyedFault::BadKey),
        }
    }

    // The call of a session waits.
    fn waits(&self, session: u16) -> KeyState
        ensures { SaysWaits self.now session result }
    {
        match self.waiting_of(session) {
            Some(call) => KeyState::Waits(self.told(call.number())),
            None => KeyState::Refused(KeyedFault::BadKey),
        }
    }

    // What became of the call at a place among the last ones of a session.
    fn kept(&self, session: u16, place: usize) -> KeyState
        ensures { SaysKept self.now session place result }
    {
        let Some(guest) = self.guests.guest(session) else {
            return KeyState::Refused(KeyedFault::BadKey);
        };
        match guest.keys().kept().get(place) {
            None => KeyState::Refused(KeyedFault::BadKey),
            Some(kept) => match kept.reply() {
                Some(reply) => KeyState::Repeated(kept.told(), reply),
                None => KeyState::Cancelled(kept.told()),
            },
        }
    }

    /// What a key says of a call of a session that has a name, or of one that has none and made so many calls. Where there
    /// is no operation, a call of this key is another one.
    pub fn key(
        &self,
        session: Option<u16>,
        calls: u64,
        key: u64,
        operation: Option<OpId>,
        arguments: &[Datum],
    ) -> KeyState
        ensures { Says self.now session calls key operation arguments.now result }
    {
        match session {
            Some(session) => self.judged(session, key, operation.unwrap_or(OpId::MAX), arguments),
            None => {
                if key == calls.saturating_add(1) {
                    return KeyState::New;
                }
                KeyState::Refused(KeyedFault::BadKey)
            }
        }
    }

    /// How many bytes the lines of a call and of all that wait have at most.
    pub fn most_with(&self, operation: OpId, arguments: &[Datum]) -> usize {
        let own = most_of(self.live.object(), operation, arguments);
        self.owing.saturating_add(own)
    }

    /// How many bytes the lines have at most that tell a client of a call of this operation.
    pub fn most_told(&self, operation: OpId) -> usize {
        match self.live.object().operations.get(operation as usize) {
            Some(found) => most_told(found),
            None => 0,
        }
    }

    /// Whether the journal has room for lines of so many bytes, behind those that it has.
    pub fn has_room(&self, size: usize) -> bool {
        self.added.saturating_add(size) <= MOST_LINES
    }

    /// Whether a client of this name may come: it is known, or the journal has room for the line of a new name besides
    /// those of all calls that wait.
    pub fn may_come(&self, name: &Name) -> bool {
        self.guests.knows(name) || self.has_room(self.owing.saturating_add(MOST_NAME))
    }

    /// Whether as many calls wait as may.
    pub fn is_full(&self) -> bool {
        self.live.waiting().len() >= self.waiting as usize
    }

    /// Whether the numbers of this epoch are spent.
    pub fn is_spent(&self) -> bool {
        self.live.numbers_left() == 0
    }

    // Whether a new epoch is due: the numbers of this one, or the room of its journal, are nearly spent.
    fn is_spending(&self) -> bool {
        self.is_filling() || self.live.numbers_left() <= 65_536 - EPOCH_CALLS
    }

    // Whether few bytes are left beside what the calls that wait may need. Where few were added since the front, a new epoch
    // would bring no room.
    fn is_filling(&self) -> bool {
        let taken = self.added.saturating_add(self.owing);
        self.added >= LEAST_ADDED && MOST_LINES.saturating_sub(taken) <= LEAST_LEFT
    }

    // Whether a call would have to wait that needs, with all that wait, so many bytes for lines: more than may wait.
    pub(crate) fn is_crowded(&self, operation: OpId, size: usize) -> bool {
        if size <= MOST_OWING {
            return false;
        }
        !self.live.counters().can_start(operation)
    }

    /// A call is asked for, or a new name has come.
    pub fn count(&mut self)
        ensures { self.new ≡ self.old }
    {
        if self.is_spending() {
            self.behind = self.behind.saturating_add(1);
        }
    }

    // Whether a new epoch is to be tried where so many calls were asked for since one is due: none was tried in vain, or
    // 1,000 were asked for since.
    fn is_due_at(&self, calls: u32) -> bool {
        calls > 0 && (self.tried == 0 || calls >= self.tried.saturating_add(CALLS_BETWEEN))
    }

    /// Whether a new epoch is to be tried.
    pub fn is_due(&self) -> bool {
        self.is_due_at(self.behind)
    }

    /// A new epoch could not begin: it is tried again behind 1,000 calls, or a second later.
    pub fn put_off(&mut self)
        ensures { self.new ≡ self.old }
    {
        self.tried = self.behind;
        self.again = false;
    }

    /// Time goes by, a second or (`is_second` is false) less. Behind a second a new epoch that could not begin is to be tried
    /// again; where none began of which that was said, it could not.
    pub fn tell_time(&mut self, is_second: bool)
        ensures { self.new ≡ self.old }
    {
        if !is_second {
            if self.again {
                self.put_off();
            }
            return;
        }
        if self.tried > 0 {
            self.tried = 0;
            self.again = true;
        }
    }

    // Where a call is the first one of a round, and a new epoch was to be tried behind the round before, it could not
    // begin.
    pub(crate) fn look_back(&mut self, is_first: bool)
        ensures { self.new ≡ self.old }
    {
        if is_first && self.is_due_at(self.behind.saturating_sub(1)) {
            self.put_off();
        }
    }

    /// Gives a number to a session without a name. `None`: no number is free.
    pub fn seat(&mut self) -> Option<u16>
        ensures some { IfSome result (λ s. IsLeastFree self.old.guests.seats s
            × (self.new ≡ with_guests self.old (with_seat self.old.guests s Nameless))) }
        ensures none { IfNone result (NoneIsFree self.old.guests.seats × (self.new ≡ self.old)) }
    {
        self.guests.seat()
    }

    /// A session is of the connection at this place from now on.
    pub fn own(&mut self, session: u16, place: usize)
        ensures { self.new ≡ self.old }
    {
        let Ok(owner) = u32::try_from(place.saturating_add(1)) else {
            return;
        };
        if let Some(row) = self.owners.get_mut(session as usize) {
            *row = owner;
        }
    }

    /// The place of the connection that has a session.
    pub fn owner(&self, session: u32) -> Option<usize> {
        let owner = self.owners.get(session as usize)?;
        (*owner as usize).checked_sub(1)
    }

    /// A session leaves in the second `now`. No call of it waits. False: nobody had it, or its client is away; then nothing
    /// changes.
    pub fn leave(&mut self, session: u16, now: u64) -> bool
        ensures guests { Leaves self.old.guests session now result self.new.guests }
        ensures left { self.new ≡ with_guests self.old self.new.guests }
    {
        if let Some(row) = self.owners.get_mut(session as usize) {
            *row = 0;
        }
        self.guests.leave(session, now)
    }

    // So many bytes of lines more stand behind the front.
    pub(crate) fn add(&mut self, size: usize)
        ensures { self.new ≡ self.old }
    {
        self.added = self.added.saturating_add(size);
    }
}
