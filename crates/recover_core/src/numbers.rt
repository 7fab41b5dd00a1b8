//! The numbers that clients are told.

ghost use Rattle.std.specs.Prelude.{◌≡◌, ◌+◌, ◌-◌, ◌<◌, ◌≤◌, ◌^◌, ◌↔◌, IsTrue, IfOk, IfSome, IfNone, slice_get};
ghost use Rattle.audit_core.specs.Carried.{carried_calls};
ghost use Rattle.recover_core.specs.Carried.{calls_of, AreCounted, told_by};

use apply_core::slim::Slims;
use audit_core::carried::WaitedCall;
use live_core::front::CarriedCall;
use std::alloc::{AllocError, Global};

// The numbers of calls as their clients were told them.
#[derive(Drop)]
pub(crate) struct EpochNumbers {
    // what is added to the number of a call of the epoch
    pub(crate) base: u64,
    // the calls that waited when it began: they had been told their numbers before
    pub(crate) carried: Vec<CarriedCall>,
}

// The number that the client of a call was told. `None`: it has more than 64 bits.
pub(crate) fn told_of(base: u64, carried: &[CarriedCall], number: u32) -> Option<u64>
    ensures some { IfSome result (λ told. told ≡ told_by base carried.now number) }
    ensures none { IfNone result (2 ^ 64 ≤ told_by base carried.now number) }
{
    match carried.get((number as usize).saturating_sub(1)) {
        Some(call) => Some(call.told),
        None => base.checked_add(u64::from(number)),
    }
}

impl EpochNumbers {
    // The number that the client of a call was told. `None`: it has more than 64 bits.
    pub(crate) fn told(&self, number: u32) -> Option<u64>
        ensures some { IfSome result (λ told. told ≡ told_by self.now.base self.now.carried.items number) }
        ensures none { IfNone result (2 ^ 64 ≤ told_by self.now.base self.now.carried.items number) }
    {
        told_of(self.base, &self.carried, number)
    }
}

// A waiting call, for a replay.
fn carried_from(alloc: Global, call: &CarriedCall) -> Result<WaitedCall, AllocError>
    ensures { IfOk result (λ c. (c.number ≡ call.now.number) × (c.session ≡ call.now.session)
        × (c.operation ≡ call.now.operation) × (c.arguments ≡ call.now.arguments)) }
{
    let arguments = call.arguments.list(alloc)?;
    let arguments = Slims::new(alloc, &arguments)?;
    Ok(WaitedCall {
        number: call.number,
        session: call.session,
        operation: call.operation,
        arguments,
    })
}

// Waiting calls, for a replay.
pub(crate) fn carried_of(
    alloc: Global,
    calls: &[CarriedCall],
) -> Result<Vec<WaitedCall>, AllocError>
    ensures { IfOk result (λ v. carried_calls v.items ≡ calls_of calls.now) }
{
    let mut all = Vec::new(alloc);
    let mut rest = calls;
    'calls: while let Some((call, more)) = rest.split_first() {
        all.push(carried_from(alloc, call)?)?;
        rest = more;
    }
    Ok(all)
}

// How many of these calls are left from the first that has not the number of its place, counted from 1: 0 where each
// has it.
pub(crate) fn uncounted(calls: &[CarriedCall]) -> usize
    ensures none { result ≡ 0 → AreCounted 0 calls.now }
    ensures some { 0 < result → AreCounted 0 calls.now → ⊥ }
{
    let mut rest = calls;
    let mut number: usize = 0;
    'calls: while let Some((call, more)) = rest.split_first() {
        number += 1;
        if call.number as usize != number {
            return more.len() + 1;
        }
        rest = more;
    }
    0
}
