//! Accepted calls.

ghost use Rattle.std.specs.Prelude.{◌≡◌};
ghost use Rattle.std.specs.Arc.{arc_value};

use apply_core::slim::Slims;
use decl_core::object::Operation;
use path_tree::node::OpId;
use std::marker::Model;
use std::sync::Arc;

/// An accepted call: who made it, of which operation, with which arguments.
#[derive(Drop)]
pub struct Call {
    session: u32,
    op: OpId,
    operation: Arc<Operation>,
    args: Slims,
}

impl Model for Call {
    ghost use Rattle.std.specs.Arc.{arc_value};
    ghost use Rattle.page_core.specs.ObjectCalls.{AcceptedCall};
    ghost use Rattle.decl_core.specs.contracts.object.Operation as e;
    ghost use Rattle.std.specs.Coded.{codes};

    ghost Value = { AcceptedCall };

    ghost coded = { Prim.hlevel (codes, e.the_row.coded) };

    ghost view = { λ c. record {
      session = c.session;
      op = c.op;
      operation = arc_value c.operation;
      arguments = c.args;
    } };
}

impl Call {
    /// The call of a session, of the operation at this place of the object, with these arguments.
    pub fn new(session: u32, op: OpId, operation: Arc<Operation>, args: Slims) -> Call
        ensures { result ≡ record { session = session; op = op; operation = arc_value operation; arguments = args } }
    {
        Call {
            session,
            op,
            operation,
            args,
        }
    }

    /// The session that made it.
    pub fn session(&self) -> u32
        ensures { result ≡ self.now.session }
    {
        self.session
    }

    /// The place of its operation in the object, from 0.
    pub fn op(&self) -> OpId
        ensures { result ≡ self.now.op }
    {
        self.op
    }

    /// Its operation.
    pub fn operation(&self) -> &Arc<Operation>
        ensures { arc_value result.now ≡ self.now.operation }
    {
        &self.operation
    }

    /// Its arguments, in order.
    pub fn args(&self) -> &Slims
        ensures { result.now ≡ self.now.arguments }
    {
        &self.args
    }
}
