//! The operations that line 1 names.

ghost use Rattle.std.specs.Prelude.{◌≡◌, ◌<◌, ◌≤◌, [], MatchOption, IfOk, IsTrue, ◌↔◌, length, map};
ghost use Rattle.std.specs.Str.{str_to_ascii_lowercase};
ghost use Rattle.path_tree.specs.Canonical.{name_of};
ghost use Rattle.path_count.specs.Named.{IsNamed, IsUnnamed};
ghost use Rattle.path_count.specs.Told.{AreOperations, IsOperationName};
ghost use Rattle.path_count.specs.Words.{words};

use crate::paths::words::next_word;
use path_tree::lex::word::reserved;
use path_tree::name::Name;
use path_tree::node::OpId;
use std::alloc::{AllocError, Global};
use std::marker::Model;

/// The most operations of a run.
pub const MOST_OPERATIONS: usize = 32;

// How many slots for hints there are.
const SLOTS: usize = 256;

/// The names of at most 32 operations, by their numbers.
#[derive(Drop)]
pub struct Operations {
    names: Vec<Name>,
    // For each slot the operation that a word with this slot most likely names.
    hints: [OpId; SLOTS],
}

impl Model for Operations {
    ghost use Rattle.std.specs.Prelude.{List, ℕ, length, ◌≤◌};

    ghost Value = { List (List ℕ) };

    ghost view = { λ a. a.names.items };

    ghost invariant = { λ a. length a.names.items ≤ 32 };
}

impl Operations {
    /// No operations.
    pub fn none(alloc: Global) -> Operations
        ensures { result ≡ [] }
    {
        Operations {
            names: Vec::new(alloc),
            hints: [0; SLOTS],
        }
    }

    /// The operations of line 1, from the text behind its first word, or `None` where its words are
    /// not 1 to 32 identifiers that differ and are no reserved words.
    pub fn read(alloc: Global, line: &[u8]) -> Result<Option<Operations>, AllocError>
        ensures { IfOk result (λ found. MatchOption found (AreOperations (words line.now) → ⊥)
            (λ names. AreOperations (words line.now) × (names ≡ map str_to_ascii_lowercase (words line.now)))) }
    {
        match read_names(alloc, line)? {
            Some(names) => {
                let hints = hints_of(&names);
                Ok(Some(Operations { names, hints }))
            }
            None => Ok(None),
        }
    }

    /// The names, by the numbers of the operations.
    pub fn names(&self) -> &[Name]
        ensures names { result.now ≡ self.now }
        ensures few { length self.now ≤ 32 }
    {
        &self.names
    }

    // The operation that a word names, in any case.
    pub fn find(&self, word: &[u8]) -> Option<OpId>
        ensures { MatchOption result (IsUnnamed self.now word.now) (λ op. IsNamed self.now op word.now) }
    {
        let likely = self.hints[slot_of(word)];
        if self.is_name(likely, word) {
            return Some(likely);
        }
        operation_of(&self.names, word)
    }

    // Whether there is this operation, and a word names it.
    fn is_name(&self, op: OpId, word: &[u8]) -> bool
        ensures { IsTrue result ↔ IsNamed self.now op word.now }
    {
        match self.names.get(op as usize) {
            Some(name) => name.is_spelled_by(word),
            None => false,
        }
    }

    /// The name of an operation.
    pub fn name(&self, op: OpId) -> &[u8]
        requires { op < length self.now }
        ensures { result.now ≡ name_of self.now op }
    {
        self.names[op as usize].as_bytes()
    }
}

// The slot of a word, which its case does not change: for letters, the bit 32 is the case.
fn slot_of(word: &[u8]) -> usize
    ensures { result < SLOTS }
{
    let (before, last) = match word {
        [.., before, last] => (*before | 32, *last | 32),
        [last] => (0, *last | 32),
        [] => (0, 0),
    };
    let len = (word.len() % 64) as u8;
    let mixed = before
        .wrapping_mul(10)
        .wrapping_add(last)
        .wrapping_add(len.wrapping_mul(37));
    mixed as usize
}

// For each slot the last of these operations whose name has it.
fn hints_of(names: &[Name]) -> [OpId; SLOTS]
    requires { length names.now ≤ 32 }
{
    let mut hints = [0; SLOTS];
    for (op, name) in names.iter().enumerate() {
        hints[slot_of(name.as_bytes())] = op as OpId;
    }
    hints
}

// The operation that a word names, in any case.
fn operation_of(names: &[Name], word: &[u8]) -> Option<OpId>
    requires { length names.now ≤ 32 }
    ensures { MatchOption result (IsUnnamed names.now word.now) (λ op. IsNamed names.now op word.now) }
{
    for (op, name) in names.iter().enumerate() {
        if name.is_spelled_by(word) {
            return Some(op as OpId);
        }
    }
    None
}

// The names that these words spell.
fn read_names(alloc: Global, line: &[u8]) -> Result<Option<Vec<Name>>, AllocError>
    ensures { IfOk result (λ found. MatchOption found (AreOperations (words line.now) → ⊥)
        (λ names. AreOperations (words line.now) × (names.items ≡ map str_to_ascii_lowercase (words line.now)))) }
{
    let mut names = Vec::new(alloc);
    let mut rest = line;
    'words: while let Some((word, tail)) = next_word(rest) {
        match next_name(alloc, &names, word)? {
            Some(name) => names.push(name)?,
            None => return Ok(None),
        }
        rest = tail;
    }
    if names.is_empty() {
        return Ok(None);
    }
    Ok(Some(names))
}

// The name of one operation more, if the word is one.
fn next_name(alloc: Global, names: &[Name], word: &[u8]) -> Result<Option<Name>, AllocError>
    requires { length names.now ≤ 32 }
    ensures { IfOk result (λ found. MatchOption found (length names.now < 32 → IsOperationName word.now →
        IsUnnamed names.now word.now → ⊥)
        (λ name. (length names.now < 32) × IsOperationName word.now × IsUnnamed names.now word.now
        × (name ≡ str_to_ascii_lowercase word.now))) }
{
    if names.len() >= MOST_OPERATIONS || operation_of(names, word).is_some() {
        return Ok(None);
    }
    match Name::read(alloc, word)? {
        Some(name) => {
            if reserved(word).is_some() {
                return Ok(None);
            }
            Ok(Some(name))
        }
        None => Ok(None),
    }
}
