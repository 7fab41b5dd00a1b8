//! What becomes of a body on what was read of its parts: that is decoded, the body is evaluated over what is known, and
//! what it changed is spelled.

ghost use Rattle.std.specs.Prelude.{◌≡◌, ◌==◌, ◌++◌, ◌∷◌, [], ◌<◌, ◌≤◌, ℕ, List, length, OnOk, IfOk, IsOkAnd};
ghost use Rattle.std.specs.Option.{option_to_list};
ghost use Rattle.std.specs.Result.{IsErrOf};
ghost use Rattle.value_core.specs.Contents.{Contents, IsContents};
ghost use Rattle.decl_core.specs.Bodies.{body_of};
ghost use Rattle.decl_core.specs.Meaning.{part_at};
ghost use Rattle.decl_core.specs.Touched.{Reads, Writes};
ghost use Rattle.apply_core.specs.Pages.{page_of as in_page};
ghost use Rattle.apply_core.specs.Fits.{ArgumentsFit};
ghost use Rattle.known_core.specs.Wanted.{AreMasksFor};
ghost use Rattle.known_core.specs.declared.act.Stop.TheVariants as stops;
ghost use Rattle.page_core.specs.Given.{AreSpelled, IsDamaged};
ghost use Rattle.run_core.specs.Given.{AreChanges};
ghost use Rattle.run_core.specs.Verdicts.{ReadAs, Rising, AreBits, ReadsNone, HasReads, IsPart, IsChangeOf, IsStep};
ghost use Rattle.run_core.specs.Verdicts.{MayLeave};

use crate::held::SpelledValues;
use apply_core::page::page_of;
use apply_core::spelled::Spelled;
use decl_core::footprint::{is_in, reads, writes};
use decl_core::id::PartId;
use decl_core::object::Operation;
use known_core::act::Stop;
use known_core::evaluate::evaluate;
use known_core::pages::Pages;
use page_core::file_bytes::FileBytes;
use std::alloc::{AllocError, Global};
use value_bytes::decode::DecodeFault;
use value_core::datum::Datum;
use value_core::kind::Elem;
use value_core::text::Text;

/// A part that the body changed, and the bytes that spell its new value.
#[derive(Drop)]
pub struct Change {
    /// The part, by its number in the object, from 0 to 15.
    pub part: usize,
    /// The bytes of its new value.
    pub bytes: FileBytes,
}

/// What became of a body.
#[derive(Drop)]
pub enum Verdict {
    /// It was done: its reply, and the parts that it changed, numbers rising. In the new bytes of an array of integers
    /// a page that is not known is as it was in those that were read.
    Done(Option<Datum>, Vec<Change>),
    /// It was refused by this word.
    Refused(Text),
    /// It comes to a page that is not known: of this part, this page. Both count from 0.
    Needs(usize, usize),
    /// The bytes of a part spell no value of its kind.
    Damaged,
    /// Memory was refused.
    Memory,
}

ghost use Rattle.run_core.specs.Reads.{AreKnown};
ghost use Rattle.run_core.specs.Judged.{JudgedOn, IsNextOf, OnlyWrites, Settled, StoppedAs};
ghost use Rattle.run_core.specs.declared.judge.Verdict.TheVariants as verdicts;

// A value in the place of a part that is not read.
fn unread(alloc: Global) -> Result<Spelled, DecodeFault>
    ensures { IsErrOf result DecodeFault.Damaged → ⊥ }
{
    let value = Spelled::none(alloc, Elem::Integer)?;
    Ok(value)
}

// The value that the bytes of a part spell, where the operation reads it.
fn decode_part(
    alloc: Global,
    operation: &Operation,
    reads: u16,
    part: usize,
    read: &[FileBytes],
) -> Result<Spelled, DecodeFault>
    requires part { part < length operation.now.kinds.items }
    requires bits { AreBits reads (Reads (body_of operation.now).statements) }
    requires read { HasReads operation.now read.now }
    ensures found { IfOk result (IsPart operation.now read.now part) }
    ensures damaged { IsErrOf result DecodeFault.Damaged → IsDamaged (ReadAs read.now) operation.now }
{
    if !is_in(part, reads) {
        return unread(alloc);
    }
    match operation.kinds[part] {
        Some(kind) => Spelled::read(alloc, kind, read[part].as_slice()),
        None => unread(alloc),
    }
}

// Adds the value of the next part.
fn put(parts: &mut Vec<Spelled>, value: Spelled) -> Result<(), AllocError>
    ensures { OnOk result (parts.new.items ≡ parts.old.items ++ value ∷ []) }
{
    parts.push(value)?;
    Ok(())
}

// One value for each part of the object.
fn decode_parts(
    alloc: Global,
    operation: &Operation,
    reads: u16,
    read: &[FileBytes],
) -> Result<Vec<Spelled>, DecodeFault>
    requires bits { AreBits reads (Reads (body_of operation.now).statements) }
    requires read { HasReads operation.now read.now }
    ensures spelled { IfOk result (λ parts. AreSpelled (ReadAs read.now) operation.now parts.items) }
    ensures few { IfOk result (λ parts. length parts.items ≤ 16) }
    ensures damaged { IsErrOf result DecodeFault.Damaged → IsDamaged (ReadAs read.now) operation.now }
{
    let count = operation.kinds.len();
    let mut parts = Vec::with_capacity(alloc, count)?;
    for part in 0..count {
        let value = match decode_part(alloc, operation, reads, part, read) {
            Ok(value) => value,
            Err(fault) => return Err(fault),
        };
        put(&mut parts, value)?;
    }
    Ok(parts)
}

// The values of the parts, in order, where the operation reads some; else none, which takes no
// memory. The first part whose bytes spell no value of its kind gives the fault.
fn decode_all(
    alloc: Global,
    operation: &Operation,
    read: &[FileBytes],
) -> Result<Vec<Spelled>, DecodeFault>
    requires read { HasReads operation.now read.now }
    ensures spelled { IfOk result (λ parts. AreSpelled (ReadAs read.now) operation.now parts.items) }
    ensures few { IfOk result (λ parts. length parts.items ≤ 16) }
    ensures damaged { IsErrOf result DecodeFault.Damaged → IsDamaged (ReadAs read.now) operation.now }
    ensures none { ReadsNone operation.now → IsOkAnd result (λ parts. parts.items ≡ []) }
{
    let reads = reads(operation);
    if reads == 0 {
        return Ok(Vec::new(alloc));
    }
    decode_parts(alloc, operation, reads, read)
}

// The same bytes, as those of a file.
fn copied(alloc: Global, bytes: &[u8]) -> Result<FileBytes, AllocError>
    ensures { IfOk result (λ file. file ≡ bytes.now) }
{
    let bytes = bytes.to_vec(alloc)?;
    Ok(FileBytes::new(bytes))
}

// The change of a part, from its bytes before and its value after.
fn change_of(
    alloc: Global,
    part: usize,
    before: &FileBytes,
    after: &Spelled,
) -> Result<Option<Change>, AllocError>
    ensures { IfOk result (IsChangeOf before.now part after.now) }
{
    let spelled = after.bytes();
    if spelled == before.as_slice() {
        return Ok(None);
    }
    let bytes = copied(alloc, spelled)?;
    Ok(Some(Change { part, bytes }))
}

// The change of a part, where it is written.
fn change_at(
    alloc: Global,
    operation: &Operation,
    writes: u16,
    part: usize,
    read: &[FileBytes],
    after: &[Spelled],
) -> Result<Option<Change>, AllocError>
    requires part { part < length after.now }
    requires few { length after.now ≤ 16 }
    requires bits { AreBits writes (Writes (body_of operation.now).statements) }
    requires read { HasReads operation.now read.now }
    ensures { IfOk result (IsStep (body_of operation.now).statements read.now after.now part) }
{
    if !is_in(part, writes) {
        return Ok(None);
    }
    let change = change_of(alloc, part, &read[part], &after[part])?;
    Ok(change)
}

// Adds a change, if there is one.
fn add(changes: &mut Vec<Change>, change: Option<Change>) -> Result<(), AllocError>
    ensures { OnOk result (changes.new.items ≡ changes.old.items ++ option_to_list change) }
{
    if let Some(change) = change {
        changes.push(change)?;
    }
    Ok(())
}

// The changes of the parts, from their bytes before and their values after.
fn changes_of(
    alloc: Global,
    operation: &Operation,
    read: &[FileBytes],
    after: &[Spelled],
) -> Result<Vec<Change>, AllocError>
    requires few { length after.now ≤ 16 }
    requires read { HasReads operation.now read.now }
    ensures changes { IfOk result (λ changes. (before : List Contents) →
        MayLeave operation.now read.now before after.now → AreChanges changes.items before after.now) }
    ensures rising { IfOk result (λ changes. Rising (body_of operation.now).statements 0 changes.items) }
    ensures few { IfOk result (λ changes. length changes.items ≤ length after.now) }
    ensures none { after.now ≡ [] → IsOkAnd result (λ changes. changes.items ≡ []) }
{
    let writes = writes(operation);
    let mut changes = Vec::new(alloc);
    for part in 0..after.len() {
        let change = change_at(alloc, operation, writes, part, read, after)?;
        add(&mut changes, change)?;
    }
    Ok(changes)
}

// The page that is needed.
fn needed(parts: &[Spelled], part: PartId, index: u32) -> Verdict
    requires there { part < length parts.now }
    ensures page { result ≡ verdicts.Needs part (in_page index) }
    ensures contents { IsContents (part_at parts.now part) }
{
    // Called for its contract alone: what lies there are contents that a value can have.
    let _kind = parts[part.place() as usize].kind();
    Verdict::Needs(part.place() as usize, page_of(index))
}

// What becomes of a body that stopped, and left these parts.
fn stopped(stop: Stop, parts: &[Spelled]) -> Verdict
    requires there { (p i : ℕ) → stop ≡ stops.Needs p i → p < length parts.now }
    ensures { StoppedAs parts.now stop result }
{
    match stop {
        Stop::Refused(word) => Verdict::Refused(word.text()),
        Stop::Needs(part, index) => needed(parts, part, index),
        Stop::Memory => Verdict::Memory,
    }
}

// What becomes of a body on the values of its parts, which these bytes spell.
fn judge_parts(
    alloc: Global,
    operation: &Operation,
    args: &[Datum],
    known: &Pages,
    read: &[FileBytes],
    parts: Vec<Spelled>,
) -> Verdict
    requires fits { ArgumentsFit operation.now args.now }
    requires read { HasReads operation.now read.now }
    requires masks { AreMasksFor operation.now known.now }
    requires spelled { AreSpelled (ReadAs read.now) operation.now parts.items }
    requires few { length parts.items ≤ 16 }
    ensures judged { (whole : List (List ℕ)) → AreKnown known.now operation.now read.now (ReadAs whole) →
        JudgedOn known.now operation.now args.now read.now whole result }
    ensures next { IsNextOf known.now operation.now result }
    ensures writes { OnlyWrites operation.now result }
    ensures settled { parts.items ≡ [] → Settled result }
{
    // (Nothing takes the changes back: the values are dropped.)
    let mut held = SpelledValues { values: parts };
    match evaluate(operation, args, &mut held, known) {
        Ok(reply) => match changes_of(alloc, operation, read, &held.values) {
            Ok(changes) => Verdict::Done(reply, changes),
            Err(_) => Verdict::Memory,
        },
        Err(stop) => stopped(stop, &held.values),
    }
}

/// What becomes of a body on what was read of its parts. The bytes of part p stand at place p, where the operation
/// reads it; in the place of a page that is not known stand any.
pub fn judge(
    alloc: Global,
    operation: &Operation,
    args: &[Datum],
    known: &Pages,
    read: &[FileBytes],
) -> Verdict
    requires fits { ArgumentsFit operation.now args.now }
    requires read { HasReads operation.now read.now }
    requires masks { AreMasksFor operation.now known.now }
    // Whatever the whole bytes are of which these were read, it tells of the contents that they spell.
    ensures judged { (whole : List (List ℕ)) → AreKnown known.now operation.now read.now (ReadAs whole) →
        JudgedOn known.now operation.now args.now read.now whole result }
    // A page that it needs is there and not known.
    ensures next { IsNextOf known.now operation.now result }
    // It changes parts of its writes alone, at most 16, each once.
    ensures writes { OnlyWrites operation.now result }
    // A body that reads no part is done or refused at once.
    ensures settled { ReadsNone operation.now → Settled result }
{
    match decode_all(alloc, operation, read) {
        Ok(parts) => judge_parts(alloc, operation, args, known, read, parts),
        Err(DecodeFault::Damaged) => Verdict::Damaged,
        Err(DecodeFault::Memory) => Verdict::Memory,
    }
}
