//! What clients ask of an object: to come in, to make a call, and to cancel one.

ghost use Rattle.std.specs.Prelude.{◌≡◌, ◌≢◌, ◌++◌, [], IsTrue, IfOk, OnOk, OnErr, false, if◌then◌else◌};
ghost use Rattle.decl_core.specs.ObjectMap.{object_of};
ghost use Rattle.word_core.specs.Words.{line_of};
ghost use Rattle.word_core.specs.Events.{Called};
ghost use Rattle.guest_core.specs.Entering.{Enters};
ghost use Rattle.live_core.specs.Hall.{Every};
ghost use Rattle.live_core.specs.Lines.{all_lines};
ghost use Rattle.live_core.specs.Calls.{seat_of, Takes, Calls, AreRemembered, IsAsked, IsRemembered, LetsGo, CancelsSome};
ghost use Rattle.live_core.specs.Calls.{TellsCancel};
ghost use Rattle.live_core.specs.HostedLines.{name_words};
ghost use Rattle.live_core.specs.HostedSteps.{Comes};
ghost use Rattle.live_core.specs.Scene.{with_guests};

use crate::call::Ran;
use crate::data::{are_data, reply_data};
use crate::event::{push_cancelled, push_name};
use crate::hosted::Hosted;
use crate::lines::push_all;
use crate::live::Taken;
use crate::size::most_lines;
use decl_core::object::Object;
use guest_core::answer::SubmitFault;
use guest_core::guests::{EnterFault, Entered};
use guest_core::keys::AskFault;
use path_count::past::PastEvent;
use path_tree::name::Name;
use path_tree::node::OpId;
use std::alloc::AllocError;
use value_core::datum::Datum;

// How many bytes the lines of a call have at most.
pub(crate) fn most_of(object: &Object, operation: OpId, arguments: &[Datum]) -> usize {
    match object.operations.get(operation as usize) {
        Some(found) => most_lines(found, arguments),
        None => 0,
    }
}

fn asking_fault(fault: AskFault) -> SubmitFault {
    match fault {
        AskFault::SessionBusy => SubmitFault::SessionBusy,
        AskFault::KeysSpent => SubmitFault::HistoryFull,
        AskFault::Memory => SubmitFault::Memory,
    }
}

// A session as its clients know it.
fn seat_of(session: u32) -> u16
    ensures { result ≡ seat_of session }
{
    if session < 65_536 {
        return session as u16;
    }
    0
}

impl Hosted {
    /// A client comes by its name in the second `now`, on the connection at this place. Where the name is new, the line
    /// that tells of it is added. The error is that memory was refused for the line.
    pub fn enter(
        &mut self,
        name: &Name,
        place: usize,
        now: u64,
        lines: &mut Vec<u8>,
    ) -> Result<Result<Entered, EnterFault>, AllocError>
        ensures { IfOk result (λ r. Comes self.old name.now now lines.old.items r lines.new.items self.new) }
    {
        // Called for its contract alone: it is a name.
        name.as_bytes();
        match self.come(name, now) {
            Err(fault) => Ok(Err(fault)),
            Ok(entered) => {
                self.own(entered.session, place);
                self.tell_name(entered, name, lines)?;
                Ok(Ok(entered))
            }
        }
    }

    // A client comes by its name.
    fn come(&mut self, name: &Name, now: u64) -> Result<Entered, EnterFault>
        ensures enters { Enters self.old.guests name.now now result self.new.guests }
        ensures left { self.new ≡ with_guests self.old self.new.guests }
    {
        self.guests.enter(name, now)
    }

    // Adds the line of a client that has come, where its name is new.
    fn tell_name(
        &mut self,
        entered: Entered,
        name: &Name,
        lines: &mut Vec<u8>,
    ) -> Result<(), AllocError>
        ensures same { self.new ≡ self.old }
        ensures added { OnOk result (lines.new.items ≡ lines.old.items
            ++ (if entered.is_new then line_of (name_words entered.session name.now) else [])) }
    {
        if !entered.is_new {
            return Ok(());
        }
        let before = lines.len();
        push_name(lines, entered.session, name)?;
        self.add(lines.len().saturating_sub(before));
        self.count();
        Ok(())
    }

    /// Takes the memory in which it is kept that a call and all that wait ran.
    pub fn reserve(&mut self) -> Result<(), AllocError>
        ensures { self.new ≡ self.old }
    {
        let calls = self.live.waiting().len().saturating_add(1);
        self.long.reserve(calls.saturating_mul(2))
    }

    /// Makes a call of a session, of the operation at this place of the object: where it may start it is done, and then
    /// each waiting call that may start then, in the order of their numbers; else it waits. The lines of all that ran are
    /// added, and their clients remember them. `is_first`: no line was added since a new epoch was last asked for.
    ///
    /// A fault changes nothing; it is `HistoryFull` also where the journal lacks room for the lines of the call and of all
    /// that wait, and `Full` also where the call would have to wait and these lines have more than 6 MiB. The error is that
    /// memory was refused for the lines.
    pub fn call(
        &mut self,
        is_first: bool,
        session: u16,
        operation: OpId,
        arguments: Vec<Datum>,
        lines: &mut Vec<u8>,
    ) -> Result<Result<Taken, SubmitFault>, AllocError>
        ensures { IfOk result (λ r. Calls self.old session operation arguments.items lines.old.items r lines.new.items
            self.new) }
    {
        self.look_back(is_first);
        are_data(&arguments);
        match self.submit(session, operation, arguments) {
            Err(fault) => Ok(Err(fault)),
            Ok(taken) => {
                reply_data(&taken.ran);
                self.tell_ran(&taken.ran, lines)?;
                self.remember_all(&taken.ran)?;
                Ok(Ok(taken))
            }
        }
    }

    // A session asks a call.
    fn ask(&mut self, session: u16, operation: OpId, arguments: &[Datum]) -> Result<(), SubmitFault>
        ensures ok { OnOk result (IsAsked self.old.guests session operation arguments.now self.new.guests) }
        ensures left { self.new ≡ with_guests self.old self.new.guests }
        ensures err { OnErr result (self.new ≡ self.old) }
    {
        let _is_named = self.has_name(session);
        match self.guests.ask(session, operation, arguments) {
            Ok(()) => return Ok(()),
            Err(fault) => return Err(asking_fault(fault)),
        }
    }

    // Submits a call, where the journal has room for its lines and those of all calls that wait. A fault changes nothing.
    fn submit(
        &mut self,
        session: u16,
        operation: OpId,
        arguments: Vec<Datum>,
    ) -> Result<Taken, SubmitFault>
        ensures ok { IfOk result (λ a. Takes self.old session operation arguments.items a self.new) }
        ensures err { OnErr result (self.new ≡ self.old) }
    {
        let size = self.most_with(operation, &arguments);
        if self.is_crowded(operation, size) {
            return Err(SubmitFault::Full);
        }
        if !self.has_room(size) {
            return Err(SubmitFault::HistoryFull);
        }
        let _is_named = self.has_name(session);
        self.ask(session, operation, &arguments)?;
        let own = most_of(self.live.object(), operation, &arguments);
        match self.live.submit(u32::from(session), operation, arguments) {
            Ok(taken) => {
                self.given = taken.number;
                self.owing = self.owing.saturating_add(own);
                Ok(taken)
            }
            Err(refusal) => {
                self.guests.withdraw(session);
                Err(refusal)
            }
        }
    }

    // Adds the lines of calls that ran.
    fn tell_ran(&mut self, all: &[Ran], lines: &mut Vec<u8>) -> Result<(), AllocError>
        ensures same { self.new ≡ self.old }
        ensures added { OnOk result (lines.new.items ≡ lines.old.items
            ++ all_lines (object_of self.old.hall.object) all.now) }
    {
        let before = lines.len();
        push_all(lines, self.live.object(), all)?;
        self.add(lines.len().saturating_sub(before));
        Ok(())
    }

    // Calls ran: it is kept that they did, and their clients remember them. The error is that memory was refused; there is
    // none where it was taken before.
    fn remember_all(&mut self, all: &[Ran]) -> Result<(), AllocError>
        ensures remembered { OnOk result (AreRemembered self.old self.old.guests all.now self.new.guests) }
        ensures left { OnOk result (self.new ≡ with_guests self.old self.new.guests) }
    {
        match all.split_first() {
            None => Ok(()),
            Some((ran, rest)) => {
                self.note(ran)?;
                self.remember(ran);
                self.remember_all(rest)?;
                Ok(())
            }
        }
    }

    // It is kept that a call ran.
    fn note(&mut self, ran: &Ran) -> Result<(), AllocError>
        ensures { self.new ≡ self.old }
    {
        let operation = ran.call.operation();
        self.long.push(PastEvent::Start(operation))?;
        self.long.push(PastEvent::End(operation))?;
        let own = most_of(self.live.object(), operation, ran.call.arguments());
        self.owing = self.owing.saturating_sub(own);
        self.entries = self.entries.saturating_add(1);
        Ok(())
    }

    // The client of a call that ran remembers it.
    fn remember(&mut self, ran: &Ran)
        ensures remembered { IsRemembered self.old self.old.guests ran.now self.new.guests }
        ensures left { self.new ≡ with_guests self.old self.new.guests }
    {
        let told = self.told(ran.call.number());
        let _named = self
            .guests
            .end(seat_of(ran.call.session()), told, &ran.reply);
    }

    /// The waiting call of a session is cancelled, and its client remembers it. Where the client has a name, the line that
    /// tells of it is added. It answers the number that is told, and nothing where no call of the session waits. The error
    /// is that memory was refused; how much then stands in `lines` is not said.
    pub fn cancel(&mut self, session: u16, lines: &mut Vec<u8>) -> Result<Option<u64>, AllocError>
        ensures { IfOk result (λ told. CancelsSome self.old session lines.old.items told lines.new.items self.new) }
    {
        let before = lines.len();
        let Some(found) = self.tell_cancel(session, lines)? else {
            return Ok(None);
        };
        let (told, own) = found;
        self.add(lines.len().saturating_sub(before));
        if !self.let_go(session, told, own) {
            return Ok(None);
        }
        Ok(Some(told))
    }

    // Adds the line of the waiting call of a session that is to be cancelled, where its client has a name. It answers the
    // number by which the call is told, and how many bytes its lines have at most.
    fn tell_cancel(
        &self,
        session: u16,
        lines: &mut Vec<u8>,
    ) -> Result<Option<(u64, usize)>, AllocError>
        ensures { IfOk result (λ found. TellsCancel self.now session lines.old.items found lines.new.items) }
    {
        let Some(call) = self.waiting_of(session) else {
            return Ok(None);
        };
        if self.has_name(session) {
            push_cancelled(lines, self.live.object(), call)?;
        }
        let own = most_of(self.live.object(), call.operation(), call.arguments());
        Ok(Some((self.told(call.number()), own)))
    }

    // The waiting call of a session is let go, and its client remembers it: it was told this number, and its lines have so
    // many bytes at most. False: no call of the session waits, and nothing changes.
    fn let_go(&mut self, session: u16, told: u64, own: usize) -> bool
        ensures gone { IsTrue result → (c : Called) × LetsGo self.old session told c self.new }
        ensures none { result ≡ false → (self.new ≡ self.old)
            × Every (λ (c : Called). c.session ≢ session) self.old.hall.waiting }
    {
        if !self.live.leave(u32::from(session)) {
            return false;
        }
        self.owing = self.owing.saturating_sub(own);
        let _named = self.guests.cancel(session, told);
        true
    }
}
