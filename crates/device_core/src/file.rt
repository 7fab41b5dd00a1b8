//! Files in memory, as a hand keeps them: by their places, from number 1.

ghost use Rattle.std.specs.Prelude.{◌≡◌, ◌≢◌, ◌⊎◌, ◌↔◌, ◌+◌, ◌<◌, ◌≤◌, ◌++◌, [], ◌∷◌, List, ℕ, suc, length, IfOk, OnOk};
ghost use Rattle.std.specs.Prelude.{OnErr, IfErr, IsOk, IfSome, IfNone, OnSome, IsTrue, slice_get, take, drop, is_ok};
ghost use Rattle.std.specs.Prelude.{if◌then◌else◌};
ghost use Rattle.std.specs.Bool.{OnTrue, OnFalse};
ghost use Rattle.device_core.specs.Files.{HasFiles, IsOpen, IsKept, Puts, Becomes};
ghost use Rattle.device_core.specs.Device.{Assignment, Shows};
ghost use Rattle.std.specs.FinMap.{get};
ghost use Rattle.device_core.specs.declared.file.File.{File};

use std::alloc::{AllocError, Global};

/// How far a file is.
#[derive(Clone, Copy, Debug, PartialEq, Eq)]
pub enum State {
    /// It is being written.
    Open,
    /// It is written, and can be read.
    Sealed,
    /// It was sealed, and is read no more. Its bytes stay.
    Retired,
    /// It was given up before it was sealed.
    Discarded,
}

/// A file.
#[derive(Drop)]
pub struct File {
    /// What was appended to it.
    pub bytes: Vec<u8>,
    /// How far it is.
    pub state: State,
}

// The place of a file.
fn place_of(files: &Vec<File>, number: u64) -> Option<usize>
    ensures some { IfSome result (λ i. (number ≡ suc i) × (i < length files.now.items)) }
    ensures none { IfNone result (◌≡◌ {A = ℕ} number 0 ⊎ length files.now.items < number) }
{
    if number == 0 || number - 1 >= files.len() as u64 {
        return None;
    }
    Some((number - 1) as usize)
}

// The place of a file that is open.
fn open_place(files: &Vec<File>, number: u64) -> Option<usize>
    ensures some { IfSome result (λ i. (number ≡ suc i) × (i < length files.now.items) × (file : File)
        × (slice_get files.now.items i ≡ Some file) × (file.state ≡ State.Open)) }
    ensures none { IfNone result ((b : List ℕ) → IsOpen files.now.items number b → ⊥) }
{
    let Some(place) = place_of(files, number) else {
        return None;
    };
    let file = &files[place];
    match file.state {
        State::Open => Some(place),
        _ => None,
    }
}

// The place of a file that can be read and has so many bytes.
fn kept_place(files: &Vec<File>, number: u64, len: usize) -> Option<usize>
    ensures some { IfSome result (λ i. (number ≡ suc i) × (i < length files.now.items) × (file : File)
        × (slice_get files.now.items i ≡ Some file) × (file.state ≡ State.Sealed) × (len ≤ length file.bytes.items)) }
    ensures none { IfNone result ((b : List ℕ) → IsKept files.now.items number b → length b < len) }
{
    let Some(place) = place_of(files, number) else {
        return None;
    };
    let file = &files[place];
    match file.state {
        State::Sealed => {
            if file.bytes.len() < len {
                return None;
            }
            Some(place)
        }
        _ => None,
    }
}

// Adds an open file with no bytes.
pub(crate) fn add(files: &mut Vec<File>, alloc: Global) -> Result<(), AllocError>
    ensures agrees { (a : Assignment) → HasFiles files.new.items a ↔ HasFiles files.old.items a }
    ensures length { OnOk result (length files.new.items ≡ length files.old.items + 1) }
    ensures same { OnErr result (files.new.items ≡ files.old.items) }
    ensures opened { OnOk result (IsOpen files.new.items (length files.new.items) []) }
    ensures others { (n : ℕ) (b : List ℕ) → IsOpen files.old.items n b → IsOpen files.new.items n b }
    ensures begins { OnOk result (Becomes files.old.items files.new.items (length files.old.items + 1) State.Open []) }
{
    let file = File {
        bytes: Vec::new(alloc),
        state: State::Open,
    };
    files.push(file)?;
    Ok(())
}

// Changes the state of a file.
fn mark(files: &mut Vec<File>, place: usize, state: State)
    requires { place < length files.old.items }
    ensures puts { (file : File) → slice_get files.old.items place ≡ Some file →
        Puts files.old.items files.new.items (suc place) (record file { state = state }) }
    ensures length { length files.new.items ≡ length files.old.items }
{
    let file = &mut files[place];
    file.state = state;
}

// Adds bytes to a file.
fn extend(files: &mut Vec<File>, place: usize, bytes: &[u8]) -> Result<(), AllocError>
    requires { place < length files.old.items }
    ensures puts { (file : File) → slice_get files.old.items place ≡ Some file →
        (after : File) × Puts files.old.items files.new.items (suc place) after × (after.state ≡ file.state)
        × (after.bytes.items ≡ (if is_ok result then file.bytes.items ++ bytes.now else file.bytes.items)) }
    ensures length { length files.new.items ≡ length files.old.items }
{
    let file = &mut files[place];
    file.bytes.extend_from_slice(bytes)
}

// Seals a file that is open, and answers its length.
pub(crate) fn seal(files: &mut Vec<File>, number: u64) -> Option<usize>
    ensures agrees { IfSome result (λ len. (b : List ℕ) → IsOpen files.old.items number b → (a : Assignment) →
        HasFiles files.new.items a ↔ HasFiles files.old.items a × (get a number ≡ Some b) × (len ≡ length b)) }
    ensures kept { (a : Assignment) → HasFiles files.new.items a → HasFiles files.old.items a }
    ensures none { IfNone result (files.new.items ≡ files.old.items) }
    ensures others { (n : ℕ) (b : List ℕ) → n ≢ number → IsOpen files.old.items n b → IsOpen files.new.items n b }
    ensures length { length files.new.items ≡ length files.old.items }
    ensures was_open { OnSome result ((b : List ℕ) × IsOpen files.old.items number b) }
    ensures was_not { IfNone result ((b : List ℕ) → IsOpen files.old.items number b → ⊥) }
    ensures seals { OnSome result ((b : List ℕ) → IsOpen files.old.items number b →
        Becomes files.old.items files.new.items number State.Sealed b) }
{
    let place = open_place(files, number)?;
    mark(files, place, State::Sealed);
    Some(files[place].bytes.len())
}

// Adds bytes to a file that is open.
pub(crate) fn append(
    files: &mut Vec<File>,
    number: u64,
    bytes: &[u8],
) -> Option<Result<(), AllocError>>
    ensures agrees { (a : Assignment) → HasFiles files.new.items a ↔ HasFiles files.old.items a }
    ensures opened { (b : List ℕ) → IsOpen files.old.items number b →
        IfSome result (λ r. OnOk r (IsOpen files.new.items number (b ++ bytes.now))) }
    ensures others { (n : ℕ) (b : List ℕ) → n ≢ number → IsOpen files.old.items n b → IsOpen files.new.items n b }
    ensures length { length files.new.items ≡ length files.old.items }
    ensures was_open { OnSome result ((b : List ℕ) × IsOpen files.old.items number b) }
    ensures was_not { IfNone result ((b : List ℕ) → IsOpen files.old.items number b → ⊥) }
    ensures grows { IfSome result (λ r. (b : List ℕ) → IsOpen files.old.items number b →
        Becomes files.old.items files.new.items number State.Open (if is_ok r then b ++ bytes.now else b)) }
    ensures same { IfNone result (files.new.items ≡ files.old.items) }
{
    let place = open_place(files, number)?;
    Some(extend(files, place, bytes))
}

// Reads bytes of a file that was sealed, where it can be read and has `len` bytes.
pub(crate) fn read(files: &Vec<File>, number: u64, len: usize, at: usize, into: &mut [u8]) -> bool
    requires { at + length into.old ≤ len }
    ensures shows { OnTrue result ((a : Assignment) → HasFiles files.now.items a → Shows a number at into.new) }
    ensures was_kept { OnTrue result ((b : List ℕ) × IsKept files.now.items number b × (len ≤ length b)) }
    ensures was_not { OnFalse result ((b : List ℕ) → IsKept files.now.items number b → length b < len) }
{
    let Some(place) = kept_place(files, number, len) else {
        return false;
    };
    let file = &files[place];
    into.copy_from_slice(&file.bytes[at..at + into.len()]);
    true
}

// Marks a file as retired, where it can be read and has `len` bytes.
pub(crate) fn retire(files: &mut Vec<File>, number: u64, len: usize) -> bool
    ensures agrees { (a : Assignment) → HasFiles files.new.items a ↔ HasFiles files.old.items a }
    ensures others { (n : ℕ) (b : List ℕ) → IsOpen files.old.items n b → IsOpen files.new.items n b }
    ensures length { length files.new.items ≡ length files.old.items }
    ensures was_kept { OnTrue result ((b : List ℕ) × IsKept files.old.items number b × (len ≤ length b)) }
    ensures was_not { OnFalse result ((b : List ℕ) → IsKept files.old.items number b → length b < len) }
    ensures retires { OnTrue result ((b : List ℕ) → IsKept files.old.items number b →
        Becomes files.old.items files.new.items number State.Retired b) }
    ensures same { OnFalse result (files.new.items ≡ files.old.items) }
{
    let Some(place) = kept_place(files, number, len) else {
        return false;
    };
    mark(files, place, State::Retired);
    true
}

// Gives up a file, where it is open.
pub(crate) fn discard(files: &mut Vec<File>, number: u64)
    ensures agrees { (a : Assignment) → HasFiles files.new.items a ↔ HasFiles files.old.items a }
    ensures others { (n : ℕ) (b : List ℕ) → n ≢ number → IsOpen files.old.items n b → IsOpen files.new.items n b }
    ensures length { length files.new.items ≡ length files.old.items }
    ensures earlier { (n : ℕ) (b : List ℕ) → n ≢ number → IsOpen files.new.items n b → IsOpen files.old.items n b }
    ensures ends { (b : List ℕ) → IsOpen files.old.items number b →
        Becomes files.old.items files.new.items number State.Discarded b }
    ensures same { ((b : List ℕ) → IsOpen files.old.items number b → ⊥) → files.new.items ≡ files.old.items }
{
    if let Some(place) = open_place(files, number) {
        mark(files, place, State::Discarded);
    }
}
