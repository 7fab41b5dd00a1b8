//! The reader of objects.

ghost use Rattle.std.specs.Prelude.{◌≡◌, ◌≤◌, ◌<◌, ◌⊎◌, IfOk, IfErr, IsErrOf, MatchResult, List, length};
ghost use Rattle.std.specs.Map.{values_of};
ghost use Rattle.path_tree.specs.Tokens.{IsFirstFault};
ghost use Rattle.path_tree.specs.declared.lex.fault.LexFault.{LexFault};
ghost use Rattle.path_tree.specs.declared.lex.fault.LexFault.TheVariants.{TooLong};
ghost use Rattle.decl_read.specs.declared.fault.DeclFault.TheVariants.{Lex, Memory};
ghost use Rattle.decl_core.specs.ObjectForm.{ObjectForm};
ghost use Rattle.decl_core.specs.ObjectMap.{AreNamed, objects_of};
ghost use Rattle.decl_read.specs.Sources.{AreObjectsOf, lex_fault_told, text_fault_told};

use crate::fault::DeclFault;
use crate::objects::file;
use decl_core::object::Object;
use indexmap::IndexMap;
use path_tree::lex::fault::LexFault;
use path_tree::lex::lex;
use path_tree::name::Name;
use std::alloc::Global;
use token_read::text_fault::TextFault;

/// What the reader of objects tells where a source has no tokens.
fn told(fault: LexFault) -> DeclFault
    ensures { result ≡ lex_fault_told fault }
{
    match fault {
        LexFault::Memory => DeclFault::Memory,
        LexFault::TooLong => DeclFault::Lex(LexFault::TooLong),
        LexFault::BadByte(at) => DeclFault::Lex(LexFault::BadByte(at)),
        LexFault::OpenComment(at) => DeclFault::Lex(LexFault::OpenComment(at)),
        LexFault::OpenString(at) => DeclFault::Lex(LexFault::OpenString(at)),
        LexFault::BadNumber(at) => DeclFault::Lex(LexFault::BadNumber(at)),
    }
}

/// What the reader of objects tells where the tokens are no objects.
fn told_behind(fault: TextFault) -> DeclFault
    ensures { result ≡ text_fault_told fault }
{
    match fault {
        TextFault::Path(fault) => DeclFault::Path(fault),
        TextFault::Syntax(at) => DeclFault::Syntax(at),
        TextFault::DuplicateName(at) => DeclFault::DuplicateName(at),
        TextFault::WrongType(at) => DeclFault::WrongType(at),
        TextFault::UnknownName(at) => DeclFault::UnknownName(at),
        TextFault::TooMany(at) => DeclFault::TooMany(at),
        TextFault::Memory => DeclFault::Memory,
    }
}

/// Reads the objects of a source, in order of declaration, each under its name. A source has at most
/// 65,536 bytes and at most 16 objects.
///
/// The whole source is made into tokens first, and `Lex` tells what `lex` tells. Then one pass from left
/// to right tells its first fault, with the byte where it stands: `Path` what a path is refused for;
/// `Syntax` a token that the grammar does not have there, a size outside 1 to 1024, or a word of `refuse`
/// that is not 1 to 16 lower-case letters; `DuplicateName` the second of two names that have to differ;
/// `WrongType` a known name of another kind than its place asks, or the first token of an expression of
/// the wrong kind; `UnknownName` a name that is not known there; `TooMany` the first token past a limit:
/// the name of the 17th object, part or constant, of the 33rd operation or of the 9th parameter, the word
/// `path` of the 17th path, or the token that opens a 33rd level of statements or of expressions. Of two
/// faults at one token the one that stands first in this list is told. `Memory` comes where the growth
/// was refused. A refused source leaves nothing.
pub fn read_objects(alloc: Global, source: &[u8]) -> Result<IndexMap<Name, Object>, DeclFault>
    // What is read are the objects of a file of the grammar, in order, each under its name.
    ensures found { IfOk result (λ m. AreObjectsOf source.now (objects_of (values_of m.entries))) }
    ensures named { IfOk result (λ m. AreNamed m.entries) }
    // The objects of a file of the grammar are read, unless memory runs out.
    ensures only { (objects : List ObjectForm) → AreObjectsOf source.now objects →
        MatchResult result (λ m. objects_of (values_of m.entries) ≡ objects) (λ fault. fault ≡ Memory) }
    // A source that is too long, or that has no tokens, is told as such.
    ensures too_long { 65536 < length source.now → IsErrOf result (Lex TooLong) }
    ensures lexical { (fault : LexFault) → IsFirstFault source.now fault → length source.now ≤ 65536 →
        MatchResult result (λ _. ⊥) (λ told. (told ≡ lex_fault_told fault) ⊎ (told ≡ Memory)) }
    // A fault of the tokens is told only where the source is too long, or has no tokens.
    ensures no_tokens { IfErr result (λ told. (fault : LexFault) → told ≡ Lex fault →
        ((fault ≡ TooLong) × (65536 < length source.now)) ⊎ IsFirstFault source.now fault) }
{
    match lex(alloc, source) {
        Err(fault) => Err(told(fault)),
        Ok(tokens) => match file(alloc, &tokens) {
            Err(fault) => Err(told_behind(fault)),
            Ok(all) => Ok(all.into_map()),
        },
    }
}
