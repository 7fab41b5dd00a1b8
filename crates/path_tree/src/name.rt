//! Names: identifiers in lower case.

ghost use Rattle.std.specs.Prelude.{◌≡◌, ◌↔◌, IsTrue, IfOk, MatchOption, bytes_eq};
ghost use Rattle.std.proofs.Common.{rules};
ghost use Rattle.std.specs.Cmp.{partial_equiv_from_equiv};
ghost use Rattle.std.specs.Cmp.Lexicographic.{nat_list_eq_equiv};
ghost use Rattle.std.specs.Cmp.Rules.{hashing};
ghost use Rattle.std.specs.Hash as fed;
ghost use Rattle.std.specs.Str.{str_to_ascii_lowercase};
ghost use Rattle.path_tree.specs.Identifier.{IsIdentifier, IsName, IsLetter, IsWordByte};

use std::alloc::{AllocError, Global};
use std::hash::{Hash, Hasher};
use std::marker::Model;

/// The most bytes of an identifier.
pub const MOST_IDENTIFIER_BYTES: usize = 64;

/// An identifier, kept in lower case: a letter, and then letters, digits and underscores, at most 64
/// bytes in all. Case is ignored in every text that it is read from.
#[derive(Debug, Drop)]
pub struct Name {
    text: Vec<u8>,
}

impl Model for Name {
    ghost use Rattle.std.specs.Prelude.{List, ℕ};
    ghost use Rattle.path_tree.specs.Identifier.{IsName};

    ghost Value = { List ℕ };

    ghost view = { λ a. a.text.items };

    ghost invariant = { λ a. IsName a.text.items };
}

impl Name {
    /// The name that an identifier spells, or `None` where the bytes are no identifier.
    pub fn read(alloc: Global, bytes: &[u8]) -> Result<Option<Name>, AllocError>
        ensures { IfOk result (λ found. MatchOption found (IsIdentifier bytes.now → ⊥)
            (λ name. IsIdentifier bytes.now × (name ≡ str_to_ascii_lowercase bytes.now))) }
    {
        if !is_identifier(bytes) {
            return Ok(None);
        }
        let name = Name::of_identifier(alloc, bytes)?;
        Ok(Some(name))
    }

    /// The name that this identifier spells.
    pub fn of_identifier(alloc: Global, bytes: &[u8]) -> Result<Name, AllocError>
        requires { IsIdentifier bytes.now }
        ensures { IfOk result (λ name. name ≡ str_to_ascii_lowercase bytes.now) }
    {
        let text = lower(alloc, bytes)?;
        Ok(Name { text })
    }

    /// The bytes of the name, in lower case.
    pub fn as_bytes(&self) -> &[u8]
        ensures bytes { result.now ≡ self.now }
        ensures name { IsName self.now }
    {
        &self.text
    }

    /// Whether these bytes spell the name, in any case.
    pub fn is_spelled_by(&self, bytes: &[u8]) -> bool
        ensures { IsTrue result ↔ (str_to_ascii_lowercase bytes.now ≡ self.now) }
    {
        if is_same_text(bytes, &self.text) {
            return true;
        }
        bytes.eq_ignore_ascii_case(&self.text)
    }

    /// A second name of the same bytes.
    pub fn copy(&self, alloc: Global) -> Result<Name, AllocError>
        ensures { IfOk result (λ name. name ≡ self.now) }
    {
        let text = self.text.to_vec(alloc)?;
        Ok(Name { text })
    }
}

/// Names are the same where their bytes are.
impl PartialEq for Name {
    ghost eq = { bytes_eq };

    ghost laws = { partial_equiv_from_equiv nat_list_eq_equiv };

    fn eq(&self, other: &Name) -> bool {
        self.as_bytes() == other.as_bytes()
    }
}

impl Eq for Name {
    ghost laws = { nat_list_eq_equiv };
}

/// A name is hashed as its bytes are.
impl Hash for Name {
    ghost hash_input = { fed.slice fed.u8 };

    ghost respects_eq = { Prim.search (hashing, rules) };

    fn hash<H: Hasher>(&self, state: &mut H) {
        self.as_bytes().hash(state);
    }
}

// Whether two texts have the same bytes.
fn is_same_text(a: &[u8], b: &[u8]) -> bool
    ensures { IsTrue result ↔ (a.now ≡ b.now) }
{
    a == b
}

// The bytes in lower case.
fn lower(alloc: Global, bytes: &[u8]) -> Result<Vec<u8>, AllocError>
    ensures { IfOk result (λ v. v.items ≡ str_to_ascii_lowercase bytes.now) }
{
    bytes.iter().map(|b| b.to_ascii_lowercase()).collect(alloc)
}

/// Whether an identifier may begin with this byte.
pub fn is_letter(byte: u8) -> bool
    ensures { IsTrue result ↔ IsLetter byte }
{
    byte.is_ascii_alphabetic()
}

/// Whether an identifier may go on with this byte.
pub fn is_word_byte(byte: u8) -> bool
    ensures { IsTrue result ↔ IsWordByte byte }
{
    matches!(byte, b'a'..=b'z' | b'A'..=b'Z' | b'0'..=b'9' | b'_')
}

/// Whether these bytes are an identifier.
pub fn is_identifier(bytes: &[u8]) -> bool
    ensures { IsTrue result ↔ IsIdentifier bytes.now }
{
    match bytes {
        [] => false,
        [first, rest @ ..] => is_letter(*first)
            && rest.len() < MOST_IDENTIFIER_BYTES
            && rest.iter().all(|b| is_word_byte(*b)),
    }
}
