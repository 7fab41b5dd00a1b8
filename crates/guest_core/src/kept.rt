//! Calls that are remembered.

ghost use Rattle.std.specs.Prelude.{◌≡◌, ◌↔◌, IsTrue, IfOk, Some, None};

use apply_core::reply::Reply;
use apply_core::short::Short;
use apply_core::slim::Slims;
use path_tree::node::OpId;
use std::alloc::{AllocError, Global};
use value_core::datum::Datum;

/// What a call asked for: its operation, by the place in the object, and its arguments.
#[derive(Drop)]
pub struct Asked {
    operation: OpId,
    arguments: Slims,
}

/// A call that ended: what it asked for, the number that its client was told, and what it replied. `None`: it was
/// cancelled.
#[derive(Drop)]
pub struct RememberedCall {
    asked: Asked,
    told: u64,
    reply: Option<Short>,
}

impl Asked {
    // It takes memory for the arguments, each in its own length.
    pub(crate) fn new(
        alloc: Global,
        operation: OpId,
        arguments: &[Datum],
    ) -> Result<Asked, AllocError>
        ensures { IfOk result (λ a. a ≡ record { operation = operation; arguments = arguments.now }) }
    {
        let arguments = Slims::new(alloc, arguments)?;
        Ok(Asked {
            operation,
            arguments,
        })
    }

    /// The place of its operation in the object, from 0.
    pub fn operation(&self) -> OpId
        ensures { result ≡ self.now.operation }
    {
        self.operation
    }

    /// Its arguments, in order.
    pub fn arguments(&self) -> &Slims
        ensures { result.now ≡ self.now.arguments }
    {
        &self.arguments
    }

    // Whether it is of this operation and has these arguments.
    pub(crate) fn is(&self, operation: OpId, arguments: &[Datum]) -> bool
        ensures { IsTrue result ↔ (self.now ≡ record { operation = operation; arguments = arguments.now }) }
    {
        self.operation == operation && self.arguments.are(arguments)
    }
}

impl RememberedCall {
    // A call that was done, was refused or failed.
    pub(crate) fn ended(asked: Asked, told: u64, reply: Short) -> RememberedCall
        ensures { result ≡ record { asked = asked; told = told; reply = Some reply } }
    {
        RememberedCall {
            asked,
            told,
            reply: Some(reply),
        }
    }

    // A call that was cancelled.
    pub(crate) fn cancelled(asked: Asked, told: u64) -> RememberedCall
        ensures { result ≡ record { asked = asked; told = told; reply = None } }
    {
        RememberedCall {
            asked,
            told,
            reply: None,
        }
    }

    /// What it asked for.
    pub fn asked(&self) -> &Asked
        ensures { result.now ≡ self.now.asked }
    {
        &self.asked
    }

    /// The number that its client was told.
    pub fn told(&self) -> u64
        ensures { result ≡ self.now.told }
    {
        self.told
    }

    /// What it replied, or `None` where it was cancelled.
    pub fn reply(&self) -> Option<Reply>
        ensures { result ≡ self.now.reply }
    {
        match &self.reply {
            None => None,
            Some(reply) => Some(reply.reply()),
        }
    }
}
