//! The contents under a pin.

ghost use Rattle.std.specs.Prelude.{◌≡◌, ◌++◌, IfOk, OnOk, Some, ℕ, List};
ghost use Rattle.value_core.specs.Contents.{Contents};
ghost use Rattle.device_core.specs.Device.{Assignment, AreServed, bytes_of};
ghost use Rattle.device_core.specs.Files.{HasFiles, Serves, files_of};
ghost use Rattle.page_core.specs.Bytes.{list_bytes};
ghost use Rattle.board_core.specs.Chain.{Shows};

use device_core::hand::{Hand, Stamp};
use device_core::memory::MemHand;
use page_core::page_list::PageList;
use std::alloc::{AllocError, Global};
use value_bytes::decode::{DecodeFault, decode};
use value_core::kind::Kind;
use value_core::value::Value;

// The bytes of a file that can be read.
fn read_bytes(alloc: Global, hand: &mut MemHand, page: &Stamp) -> Result<Vec<u8>, AllocError>
    requires { Serves (files_of hand.old) page.now }
    ensures files { files_of hand.new ≡ files_of hand.old }
    ensures bytes { IfOk result (λ v. (a : Assignment) → HasFiles (files_of hand.old) a →
        bytes_of a page.now ≡ Some v.items) }
{
    let mut bytes = vec![in alloc; 0u8; page.len]?;
    match hand.read(page, 0, &mut bytes) {
        Ok(()) => Ok(bytes),
        Err(_) => unreachable!(),
    }
}

// Adds the bytes of files that can be read, one behind the other.
fn read_pages(
    alloc: Global,
    hand: &mut MemHand,
    pages: &[Stamp],
    got: &mut Vec<u8>,
) -> Result<(), AllocError>
    requires { AreServed (λ s. Serves (files_of hand.old) s) pages.now }
    ensures files { files_of hand.new ≡ files_of hand.old }
    ensures bytes { OnOk result ((bytes : List ℕ) × (got.new.items ≡ got.old.items ++ bytes)
        × ((a : Assignment) → HasFiles (files_of hand.old) a → list_bytes a pages.now ≡ Some bytes)) }
{
    let Some((page, rest)) = pages.split_first() else {
        return Ok(());
    };
    let bytes = read_bytes(alloc, hand, page)?;
    got.extend_from_slice(&bytes)?;
    read_pages(alloc, hand, rest, got)?;
    Ok(())
}

// The bytes under a pin, those of its pages in order.
fn read_pin(alloc: Global, hand: &mut MemHand, pin: &PageList) -> Result<Vec<u8>, AllocError>
    requires { AreServed (λ s. Serves (files_of hand.old) s) pin.now }
    ensures files { files_of hand.new ≡ files_of hand.old }
    ensures bytes { IfOk result (λ v. (a : Assignment) → HasFiles (files_of hand.old) a →
        list_bytes a pin.now ≡ Some v.items) }
{
    let mut bytes = Vec::new(alloc);
    read_pages(alloc, hand, pin.stamps(), &mut bytes)?;
    Ok(bytes)
}

// The value that the bytes under a pin spell.
pub(crate) fn read_value(
    alloc: Global,
    hand: &mut MemHand,
    pin: &PageList,
    kind: Kind,
) -> Result<Value, AllocError>
    requires served { AreServed (λ s. Serves (files_of hand.old) s) pin.now }
    requires shown { (value : Contents) × ((a : Assignment) → HasFiles (files_of hand.old) a →
        Shows a kind pin.now value) }
    ensures files { files_of hand.new ≡ files_of hand.old }
    ensures value { IfOk result (λ v. (value : Contents) →
        ((a : Assignment) → HasFiles (files_of hand.old) a → Shows a kind pin.now value) → v ≡ value) }
{
    hand.agrees_with_some();
    let bytes = read_pin(alloc, hand, pin)?;
    match decode(alloc, kind, &bytes) {
        Ok(value) => Ok(value),
        Err(DecodeFault::Memory) => Err(AllocError),
        Err(DecodeFault::Damaged) => unreachable!(),
    }
}
