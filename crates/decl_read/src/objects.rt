//! Objects one after the other.

ghost use Rattle.std.specs.Prelude.{◌≡◌, ◌≤◌, length};
ghost use Rattle.path_tree.specs.Lexeme.{lexemes};
ghost use Rattle.path_tree.specs.declared.token.Symbol.TheVariants.{Object as ObjectWord};
ghost use Rattle.token_read.specs.Reader.{Gives};
ghost use Rattle.token_read.specs.Series.{series_at};
ghost use Rattle.decl_parts.specs.Declarations.{begins as begins_with};
ghost use Rattle.decl_read.specs.DeclarationReading.{contents_in, end_at, file_in, next_object_in};
ghost use Rattle.decl_read.specs.Sources.{object_read, objects_read};
ghost use Rattle.decl_core.specs.ObjectMap.{objects_of};

use crate::catalog::Catalog;
use crate::collect::operation_names;
use crate::entry::entries;
use decl_core::object::Object;
use decl_parts::constants::constants;
use decl_parts::group::begins;
use decl_parts::parts::parts;
use decl_parts::paths::paths;
use path_tree::name::Name;
use path_tree::token::{Symbol, Token, TokenKind};
use std::alloc::Global;
use token_read::front::{after, behind, name, start_of};
use token_read::text_fault::{TextFault, TextRead};

/// The most objects of a source.
pub const MOST_OBJECTS: u8 = 16;

/// An object behind its name and the semicolon.
#[tactic(auto, unfolding(crate::specs::DeclarationReading::contents_in))]
fn contents<'t>(alloc: Global, own: &Name, tokens: &'t [Token]) -> TextRead<'t, Object>
    requires { length tokens.now ≤ 65537 }
    ensures { Gives object_read result (contents_in 131072 own.now (lexemes tokens.now)) }
{
    let names = operation_names(alloc, tokens)?;
    let (constants, rest) = constants(alloc, Vec::new(alloc), 16, tokens)?;
    let (paths, rest) = paths(alloc, &constants, &names, Vec::new(alloc), 16, rest)?;
    let (parts, rest) = parts(alloc, &constants, Vec::new(alloc), 16, rest)?;
    let (operations, rest) = entries(alloc, &constants, &parts, Vec::new(alloc), 32, rest)?;
    let rest = behind(rest, Symbol::End)?;
    let rest = behind(rest, Symbol::Semicolon)?;
    let name = own.copy(alloc)?;
    let object = Object {
        name,
        parts,
        paths,
        operations,
    };
    Ok((object, rest))
}

/// An object of another name than those before.
#[tactic(auto, unfolding(crate::specs::DeclarationReading::next_object_in))]
fn next_object<'t>(alloc: Global, before: Catalog, tokens: &'t [Token]) -> TextRead<'t, Catalog>
    requires { length tokens.now ≤ 65537 }
    ensures { Gives objects_read result (next_object_in 131072 (objects_of before) (lexemes tokens.now)) }
{
    let opened = behind(tokens, Symbol::Object)?;
    let (own, rest) = name(opened)?;
    if before.has(own) {
        return Err(TextFault::DuplicateName(start_of(opened)));
    }
    let rest = behind(rest, Symbol::Semicolon)?;
    let (object, rest) = contents(alloc, own, rest)?;
    let all = before.with(alloc, object)?;
    Ok((all, rest))
}

/// The fault where an object has no room: at what stands behind the word `object`.
fn no_room(before: &Catalog, tokens: &[Token]) -> TextFault {
    match after(tokens, Symbol::Object) {
        None => TextFault::Syntax(start_of(tokens)),
        Some(opened) => match name(opened) {
            Err(fault) => fault,
            Ok((own, _)) => if before.has(own) {
                TextFault::DuplicateName(start_of(opened))
            } else {
                TextFault::TooMany(start_of(opened))
            },
        },
    }
}

/// The objects that stand here, behind those before; so many more at most.
fn objects<'t>(
    alloc: Global,
    so_far: Catalog,
    left: u8,
    tokens: &'t [Token],
) -> TextRead<'t, Catalog>
    requires { length tokens.now ≤ 65537 }
    ensures { Gives objects_read result (series_at (next_object_in 131072) (begins_with ObjectWord) left
        (objects_of so_far) (lexemes tokens.now)) }
{
    if !begins(tokens, Symbol::Object) {
        return Ok((so_far, tokens));
    }
    if left == 0 {
        return Err(no_room(&so_far, tokens));
    }
    let (so_far, rest) = next_object(alloc, so_far, tokens)?;
    objects(alloc, so_far, left - 1, rest)
}

/// Whether the end mark stands in front, and nothing behind it.
fn is_at_end(tokens: &[Token]) -> bool
    ensures { result ≡ end_at (lexemes tokens.now) }
{
    match tokens {
        [] => false,
        [token, rest @ ..] => match &token.kind {
            TokenKind::EndMark => rest.is_empty(),
            TokenKind::Symbol(_) => false,
            TokenKind::Number(_) => false,
            TokenKind::Name(_) => false,
            TokenKind::Text(_) => false,
        },
    }
}

/// The objects of a whole source.
#[tactic(auto, unfolding(crate::specs::DeclarationReading::file_in))]
pub(crate) fn file(alloc: Global, tokens: &[Token]) -> Result<Catalog, TextFault>
    requires { length tokens.now ≤ 65537 }
    ensures { Gives objects_of result (file_in 131072 (lexemes tokens.now)) }
{
    let (all, rest) = objects(alloc, Catalog::new(alloc), MOST_OBJECTS, tokens)?;
    if is_at_end(rest) {
        Ok(all)
    } else {
        Err(TextFault::Syntax(start_of(rest)))
    }
}
