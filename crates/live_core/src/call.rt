//! Calls of an object that is kept.

ghost use Rattle.std.specs.Prelude.{◌≡◌};

use apply_core::reply::Reply;
use path_tree::node::OpId;
use std::marker::Model;
use value_core::datum::Datum;

/// A call: its number in this epoch, its session, its operation by the place in the object, and its arguments.
#[derive(Drop)]
pub struct LiveCall {
    number: u32,
    session: u32,
    operation: OpId,
    arguments: Vec<Datum>,
}

impl Model for LiveCall {
    ghost use Rattle.word_core.specs.Events.{Called};
    ghost use Rattle.std.specs.Coded.{codes};

    ghost Value = { Called };

    ghost coded = { Prim.hlevel (codes) };

    ghost view = { λ c. record {
      number = c.number;
      session = c.session;
      operation = c.operation;
      arguments = c.arguments.items;
    } };
}

impl LiveCall {
    /// The call of this number.
    pub fn new(number: u32, session: u32, operation: OpId, arguments: Vec<Datum>) -> LiveCall
        ensures { result ≡ record {
          number = number;
          session = session;
          operation = operation;
          arguments = arguments.items;
        } }
    {
        LiveCall {
            number,
            session,
            operation,
            arguments,
        }
    }

    // The same call by another number.
    pub(crate) fn set_number(&mut self, number: u32)
        ensures { self.new ≡ record self.old { number = number } }
    {
        self.number = number;
    }

    /// Its number.
    pub fn number(&self) -> u32
        ensures { result ≡ self.now.number }
    {
        self.number
    }

    /// The session that made it.
    pub fn session(&self) -> u32
        ensures { result ≡ self.now.session }
    {
        self.session
    }

    /// The place of its operation in the object, from 0.
    pub fn operation(&self) -> OpId
        ensures { result ≡ self.now.operation }
    {
        self.operation
    }

    /// Its arguments, in order.
    pub fn arguments(&self) -> &[Datum]
        ensures { result.now ≡ self.now.arguments }
    {
        &self.arguments
    }
}

/// A call that was started, done and ended, and what it replied.
#[derive(Drop)]
pub struct Ran {
    /// The call.
    pub call: LiveCall,
    /// What it replied.
    pub reply: Reply,
}

/// How many sessions an object has, and how many of its calls may wait.
#[derive(Clone, Copy, Debug, PartialEq, Eq)]
pub struct Limits {
    /// Sessions have the numbers from 1 to this one.
    pub sessions: u16,
    /// At most so many calls wait.
    pub waiting: u32,
}

/// A call that is carried into an epoch: it waited when the one before ended.
#[derive(Drop)]
pub struct Carried {
    /// Its session.
    pub session: u32,
    /// Its operation, by the place in the object, from 0.
    pub operation: OpId,
    /// Its arguments, in order.
    pub arguments: Vec<Datum>,
}
