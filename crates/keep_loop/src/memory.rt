//! A file in memory, for tests and for what is to be proved whole. Each call is done at once, so a crash leaves what is
//! there. It keeps each past content, so its memory grows with each write.

ghost use Rattle.std.specs.Prelude.{◌≡◌, ◌⊎◌, ◌+◌, ◌≤◌, [], ◌∷◌, ◌++◌, Some, length, drop, OnOk, OnErr, IfOk};
ghost use Rattle.std.proofs.Common.{inl};
ghost use Rattle.keep_loop.specs.Past.{HadBeen, only_bytes};
ghost use Rattle.keep_loop.specs.Device.{with_bytes};

use crate::device::{Device, DeviceError};
use std::alloc::{AllocError, Global};

/// A file in memory.
#[derive(Drop)]
pub struct Memory {
    alloc: Global,
    bytes: Vec<u8>,
    past: Vec<Vec<u8>>,
}

impl Memory {
    /// A file with these bytes, all of them on the disk.
    pub fn new(alloc: Global, bytes: Vec<u8>) -> Self
        ensures { result.bytes.items ≡ bytes.items }
    {
        Memory {
            alloc,
            bytes,
            past: Vec::new(alloc),
        }
    }

    /// What is there.
    pub fn bytes(&self) -> &[u8]
        ensures { result.now ≡ self.now.bytes.items }
    {
        &self.bytes
    }
}

// Puts other bytes in the place of those that are there, which it keeps.
fn put_in_place(
    alloc: Global,
    bytes: &mut Vec<u8>,
    past: &mut Vec<Vec<u8>>,
    next: Vec<u8>,
) -> Result<(), AllocError>
    ensures ok { OnOk result (bytes.new.items ≡ next.items) }
    ensures err { OnErr result (bytes.new.items ≡ bytes.old.items) }
    ensures past { OnOk result ((v : _) × (v.items ≡ bytes.old.items)
        × (past.new.items ≡ past.old.items ++ v ∷ [])) }
    ensures past_err { OnErr result (past.new.items ≡ past.old.items) }
{
    past.push(bytes.to_vec(alloc)?)?;
    *bytes = next;
    Ok(())
}

// The file with other bytes at a place.
fn with(alloc: Global, file: &[u8], at: usize, bytes: &[u8]) -> Result<Vec<u8>, AllocError>
    requires { at + length bytes.now ≤ length file.now }
    ensures { IfOk result (λ next. next.items ≡ with_bytes at bytes.now file.now) }
{
    let mut next = file[..at].to_vec(alloc)?;
    next.extend_from_slice(bytes)?;
    next.extend_from_slice(&file[at + bytes.len()..])?;
    Ok(next)
}

impl Device for Memory {
    ghost seen = { λ m. Some m.bytes.items };

    ghost may_leave = { λ m c. c ≡ m.bytes.items };

    ghost moment = { λ m. length m.past.items };

    ghost left_since = { λ m t c. (c ≡ m.bytes.items) ⊎ HadBeen (drop t m.past.items) c };

    ghost faults = { λ m. 0 };

    ghost counts_now = { λ m t c le now. inl now };

    ghost only_now = { λ m c left. only_bytes m.past.items m.bytes.items c left };

    fn read(&mut self, alloc: Global) -> Result<Vec<u8>, DeviceError> {
        Ok(self.bytes.to_vec(alloc)?)
    }

    fn write_at(&mut self, at: usize, bytes: &[u8]) -> Result<(), DeviceError> {
        let next = with(self.alloc, &self.bytes, at, bytes)?;
        Ok(put_in_place(self.alloc, &mut self.bytes, &mut self.past, next)?)
    }

    fn sync(&mut self) -> Result<(), DeviceError> {
        Ok(())
    }

    fn replace(&mut self, bytes: &[u8]) -> Result<bool, DeviceError> {
        let next = bytes.to_vec(self.alloc)?;
        put_in_place(self.alloc, &mut self.bytes, &mut self.past, next)?;
        Ok(true)
    }
}
