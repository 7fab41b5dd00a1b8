//! How a session ended.

ghost use Rattle.std.specs.Prelude.{◌≡◌, ◌↔◌, IsTrue, List, ℕ, Option};
ghost use Rattle.session_core.specs.Written.{IsNoteOf, AreFirst, AreAll, IsAccounted, IsSaid, HasWritten};
ghost use Rattle.session_core.specs.Written.{heard_fault as heard_in, told_fault};
ghost use Rattle.session_core.specs.Causes.{IsCausedBy};

use crate::fault::SessionFault;
use crate::note::ReplyNote;
use crate::output::Health;
use office_core::seat::Seat;
use office_core::slip::Slip;
use session_text::fault::HearFault;

/// What a session hands back.
#[derive(Drop)]
pub struct SessionEnd<W: Drop, H: Drop> {
    /// The object that was opened, by its place among the offices.
    pub object: Option<usize>,
    /// The seat there, but that of a client that has a name: it is parked.
    pub seat: Option<Seat>,
    /// What the receipts of its calls tell, in order.
    pub receipts: Vec<Slip>,
    /// The writer.
    pub writer: W,
    /// The hand on which its calls were performed.
    pub hand: H,
    /// Why it ended: `LogMixed`, or else `WriteFault`, or else `Memory` where there was none for a line, or else what was
    /// met in reading.
    pub fault: Option<SessionFault>,
}

// Whether a receipt has the number and the reply of a note.
fn is_note_of(receipt: &Slip, note: &ReplyNote) -> bool
    ensures { IsTrue result ↔ IsNoteOf receipt.now note.now }
{
    u64::from(receipt.number()) == note.number && receipt.is_reply(&note.reply)
}

// Whether the notes are those of the first receipts, one by one.
fn are_first(receipts: &[Slip], notes: &[ReplyNote]) -> bool
    ensures { IsTrue result ↔ AreFirst receipts.now notes.now }
{
    let mut receipts = receipts;
    let mut notes = notes;
    while let Some((note, rest)) = notes.split_first() {
        let Some((receipt, later)) = receipts.split_first() else {
            return false;
        };
        if !is_note_of(receipt, note) {
            return false;
        }
        receipts = later;
        notes = rest;
    }
    true
}

// Whether the notes are those of the receipts, one by one.
fn are_all(receipts: &[Slip], notes: &[ReplyNote]) -> bool
    ensures { IsTrue result ↔ AreAll receipts.now notes.now }
{
    receipts.len() == notes.len() && are_first(receipts, notes)
}

// Whether the notes are those of the receipts: of all, where all was written, and else of the first.
fn is_accounted(health: Health, receipts: &[Slip], notes: &[ReplyNote]) -> bool
    ensures { IsTrue result ↔ IsAccounted health receipts.now notes.now }
{
    match health {
        Health::Fine => are_all(receipts, notes),
        Health::NoMemory => are_first(receipts, notes),
        Health::Mixed => are_first(receipts, notes),
        Health::Broken => are_first(receipts, notes),
    }
}

// The fault that was met in reading.
fn heard_fault(heard: Option<HearFault>) -> Option<SessionFault>
    ensures { result ≡ heard_in heard }
{
    match heard {
        Some(HearFault::LineTooLong) => Some(SessionFault::LineTooLong),
        Some(HearFault::ReadFault) => Some(SessionFault::ReadFault),
        Some(HearFault::Memory) => Some(SessionFault::Memory),
        None => None,
    }
}

// The fault that is told.
fn fault_of(accounted: bool, health: Health, heard: Option<HearFault>) -> Option<SessionFault>
    ensures { result ≡ told_fault accounted health heard }
{
    if !accounted {
        return Some(SessionFault::LogMixed);
    }
    match health {
        Health::Mixed => Some(SessionFault::LogMixed),
        Health::Broken => Some(SessionFault::WriteFault),
        Health::NoMemory => Some(SessionFault::Memory),
        Health::Fine => heard_fault(heard),
    }
}

/// The fault that is told, by the notes of what was written and the receipts: `LogMixed` where a line was said where it
/// may not stand, or the notes are not those of the receipts, one by one; where not all was written, of the first. Else
/// `WriteFault` where the writer failed, `Memory` where there was none for a line, and else what was met in reading: no
/// fault where none was.
pub fn conclude(
    receipts: &[Slip],
    notes: &[ReplyNote],
    health: Health,
    heard: Option<HearFault>,
) -> Option<SessionFault>
    ensures written { (start now : Option (List ℕ)) → IsSaid start now health notes.now →
        HasWritten start now receipts.now result }
    ensures caused { IsCausedBy receipts.now notes.now health heard result }
{
    let accounted = is_accounted(health, receipts, notes);
    fault_of(accounted, health, heard)
}
