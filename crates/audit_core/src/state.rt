//! What an audit keeps of the lines so far.

ghost use Rattle.std.specs.Prelude.{◌≡◌, ◌+◌, ◌<◌, ◌≤◌, ◌^◌, ◌↔◌, IsTrue, IfOk, MatchOption, length};
ghost use Rattle.decl_core.specs.ObjectMap.{object_of};

use crate::calls::{ActiveCall, CallSlot, is_fresh, put, take_running};
use crate::counters::{compile_each, finish_each, refusing, start_each};
use crate::part::read_value;
use crate::replay::is_right;
use crate::said::{ToldLine, read_line};
use crate::start::operation_for;
use crate::told::ToldReply;
use crate::verdict::AuditFault;
use decl_core::object::Object;
use path_count::counters::Counters;
use path_tree::node::OpId;
use std::alloc::{AllocError, Global};
use value_core::datum::Datum;
use value_core::value::Value;

/// What the lines so far told.
#[derive(Drop)]
pub struct Audit {
    alloc: Global,
    // For each path its counters.
    counters: Vec<Counters>,
    // The values of the parts that were told: the opening ones until the first end, then those after it.
    parts: Vec<Value>,
    // By their numbers, the calls up to some number.
    calls: Vec<CallSlot>,
    // Whether line 1 came.
    named: bool,
    // How many calls have ended.
    entries: u64,
}

impl Audit {
    ghost use Rattle.std.specs.Prelude.{ℕ, List};
    ghost use Rattle.value_core.specs.declared.datum.Datum.{Datum as Datum_of};
    ghost use Rattle.audit_core.specs.Said.{an_object, a_part, a_start, an_end};
    ghost use Rattle.audit_core.specs.Tells.{Heard, nothing_heard, IsOpened, IsStart};
    ghost use Rattle.audit_core.specs.Stands.{Stands, Hears, HearsSaid};
    ghost use Rattle.audit_core.specs.View.{told_view};

    /// The state before the first line.
    pub fn new(alloc: Global, object: &Object) -> Result<Audit, AllocError>
        ensures stands { IfOk result (λ audit. Stands (object_of object.now) audit nothing_heard) }
        ensures entries { IfOk result (λ audit. audit.entries ≡ 0) }
    {
        let counters = compile_each(alloc, &object.paths, object.operations.len() as OpId)?;
        Ok(Audit {
            alloc,
            counters,
            parts: Vec::new(alloc),
            calls: Vec::new(alloc),
            named: false,
            entries: 0,
        })
    }

    /// Whether line 1 and the lines of all parts came.
    pub fn is_opened(&self, object: &Object) -> bool
        ensures { (heard : Heard) → Stands (object_of object.now) self.now heard →
            (IsTrue result ↔ IsOpened (object_of object.now) heard) }
    {
        self.named && self.parts.len() >= object.parts.len()
    }

    /// How many calls have ended.
    pub fn entries(&self) -> u64
        ensures { result ≡ self.now.entries }
    {
        self.entries
    }

    /// Hears a line, or tells its fault; after a fault the state is open.
    pub fn hear(&mut self, object: &Object, line: &[u8]) -> Result<Option<AuditFault>, AllocError>
        requires room { self.old.entries + 1 < 2 ^ 64 }
        ensures heard { IfOk result (λ found. Hears (object_of object.now) line.now self.old found self.new) }
        ensures entries { self.new.entries ≤ self.old.entries + 1 }
    {
        match read_line(self.alloc, line)? {
            None => Ok(Some(AuditFault::Bad)),
            Some(ToldLine::Object(name)) => Ok(self.hear_object(object, name)),
            Some(ToldLine::Part(name, hex)) => self.hear_part(object, name, hex),
            Some(ToldLine::Start(number, session, name, arguments)) => {
                self.hear_start(object, number, session, name, arguments)
            }
            Some(ToldLine::End(number, told)) => self.hear_end(object, number, &told),
        }
    }

    // Hears line 1.
    fn hear_object(&mut self, object: &Object, name: &[u8]) -> Option<AuditFault>
        ensures heard { HearsSaid (object_of object.now) (an_object name.now) self.old result self.new }
        ensures entries { self.new.entries ≡ self.old.entries }
    {
        if self.named || !object.name.is_spelled_by(name) {
            return Some(AuditFault::Bad);
        }
        self.named = true;
        None
    }

    // Hears the opening value of a part.
    fn hear_part(
        &mut self,
        object: &Object,
        name: &[u8],
        hex: &[u8],
    ) -> Result<Option<AuditFault>, AllocError>
        ensures heard { IfOk result (λ found.
            HearsSaid (object_of object.now) (a_part name.now hex.now) self.old found self.new) }
        ensures entries { self.new.entries ≡ self.old.entries }
    {
        if !self.named {
            return Ok(Some(AuditFault::Bad));
        }
        match read_value(self.alloc, &object.parts, self.parts.len(), name, hex)? {
            Some(value) => {
                self.parts.push(value)?;
                Ok(None)
            }
            None => Ok(Some(AuditFault::Bad)),
        }
    }

    // Hears a start.
    fn hear_start(
        &mut self,
        object: &Object,
        number: u32,
        session: u32,
        name: &[u8],
        arguments: Vec<Datum>,
    ) -> Result<Option<AuditFault>, AllocError>
        ensures heard { IfOk result (λ found.
            HearsSaid (object_of object.now) (a_start number session name.now arguments.items) self.old found
            self.new) }
        ensures entries { self.new.entries ≡ self.old.entries }
    {
        let Some(operation) = self.start_of(object, number, session, name, &arguments) else {
            return Ok(Some(AuditFault::Bad));
        };
        if let Some(path) = refusing(&self.counters, operation) {
            return Ok(Some(AuditFault::Breaks(path)));
        }
        let running = ActiveCall {
            session,
            operation,
            arguments,
        };
        put(&mut self.calls, number, CallSlot::Runs(running))?;
        start_each(&mut self.counters, operation);
        Ok(None)
    }

    // The operation of a start that may be told.
    fn start_of(
        &self,
        object: &Object,
        number: u32,
        session: u32,
        name: &[u8],
        arguments: &[Datum],
    ) -> Option<OpId>
        ensures { (heard : Heard) → Stands (object_of object.now) self.now heard →
            MatchOption result ((place : ℕ) →
            IsStart (object_of object.now) heard number session name.now arguments.now place → ⊥)
            (IsStart (object_of object.now) heard number session name.now arguments.now) }
    {
        if !self.is_opened(object) || !is_call_number(number) || !is_session(session) {
            return None;
        }
        if !is_fresh(&self.calls, number) {
            return None;
        }
        operation_for(&object.operations, name, arguments)
    }

    // Hears an end.
    fn hear_end(
        &mut self,
        object: &Object,
        number: u32,
        told: &ToldReply,
    ) -> Result<Option<AuditFault>, AllocError>
        requires room { self.old.entries + 1 < 2 ^ 64 }
        ensures heard { IfOk result (λ found.
            HearsSaid (object_of object.now) (an_end number (told_view told.now)) self.old found self.new) }
        ensures entries { self.new.entries ≤ self.old.entries + 1 }
    {
        if !self.is_opened(object) || !is_call_number(number) {
            return Ok(Some(AuditFault::Bad));
        }
        let Some(running) = take_running(&mut self.calls, number) else {
            return Ok(Some(AuditFault::Stranger));
        };
        if !is_right(self.alloc, object, &running, told, &mut self.parts)? {
            return Ok(Some(AuditFault::Wrong));
        }
        finish_each(&mut self.counters, running.operation);
        self.entries += 1;
        Ok(None)
    }
}

// Whether a call may have this number.
fn is_call_number(number: u32) -> bool
    ensures { IsTrue result ↔ ((1 ≤ number) × (number ≤ 65536)) }
{
    number >= 1 && number <= 65536
}

// Whether there is this session.
fn is_session(session: u32) -> bool
    ensures { IsTrue result ↔ ((1 ≤ session) × (session ≤ 1024)) }
{
    session >= 1 && session <= 1024
}
