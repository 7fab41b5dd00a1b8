//! The paths of an object.

ghost use Rattle.std.specs.Prelude.{◌≡◌, ◌≤◌, ◌+◌, length};
ghost use Rattle.path_tree.specs.declared.token.Symbol.TheVariants.{Path};
ghost use Rattle.path_tree.specs.Lexeme.{lexemes};
ghost use Rattle.path_tree.specs.Known.{constants_of, known_with};
ghost use Rattle.path_tree.specs.Reading.{path_at as read_path};
ghost use Rattle.token_read.specs.Reader.{Gives};
ghost use Rattle.token_read.specs.Series.{series_at};
ghost use Rattle.decl_parts.specs.Declarations.{begins as begins_with};
ghost use Rattle.decl_parts.specs.DeclarationReading.{path_item_in};
ghost use Rattle.decl_parts.specs.Views.{path_fault_told, path_read, paths_read};

use crate::group::begins;
use path_tree::lookup::Constant;
use path_tree::name::Name;
use path_tree::path_fault::PathFault;
use path_tree::read::parse_path;
use path_tree::token::{Symbol, Token};
use path_tree::tree::PathTree;
use std::alloc::Global;
use token_read::front::{behind, start_of};
use token_read::text_fault::{TextFault, TextRead};

/// The most paths of an object.
pub const MOST_PATHS: usize = 16;

/// What the reader of objects tells where a path cannot be read.
fn told(fault: PathFault) -> TextFault
    ensures { result ≡ path_fault_told fault }
{
    match fault {
        PathFault::Memory => TextFault::Memory,
        PathFault::Expected(at) => TextFault::Path(PathFault::Expected(at)),
        PathFault::UnknownName(at) => TextFault::Path(PathFault::UnknownName(at)),
        PathFault::RepeatedName(at) => TextFault::Path(PathFault::RepeatedName(at)),
        PathFault::BadBound(at) => TextFault::Path(PathFault::BadBound(at)),
        PathFault::TooDeep(at) => TextFault::Path(PathFault::TooDeep(at)),
        PathFault::TooMany => TextFault::Path(PathFault::TooMany),
    }
}

/// A path in front, and the tokens behind it.
pub(crate) fn path<'t>(
    alloc: Global,
    constants: &[Constant],
    names: &[Name],
    tokens: &'t [Token],
) -> TextRead<'t, PathTree>
    requires few { length names.now ≤ 65535 }
    requires bounded { length tokens.now ≤ 65537 }
    ensures { Gives path_read result (read_path (known_with constants.now names.now) (length tokens.now + 1)
        (lexemes tokens.now)) }
{
    if tokens.is_empty() {
        return Err(TextFault::Syntax(0));
    }
    match parse_path(alloc, tokens, 0, constants, names) {
        Ok((tree, to)) => {
            let (_, rest) = tokens.split_at(to);
            Ok((tree, rest))
        }
        Err(fault) => Err(told(fault)),
    }
}

/// A path and its semicolon, behind the paths before.
#[tactic(auto, unfolding(crate::specs::DeclarationReading::path_item_in))]
fn path_item<'t>(
    alloc: Global,
    constants: &[Constant],
    names: &[Name],
    so_far: Vec<PathTree>,
    tokens: &'t [Token],
) -> TextRead<'t, Vec<PathTree>>
    requires few { length names.now ≤ 65535 }
    requires bounded { length tokens.now ≤ 65537 }
    ensures { Gives paths_read result (path_item_in (constants_of constants.now) names.now so_far.items
        (lexemes tokens.now)) }
{
    let mut paths = so_far;
    if paths.len() >= MOST_PATHS {
        return Err(TextFault::TooMany(start_of(tokens)));
    }
    let (tree, rest) = path(alloc, constants, names, tokens)?;
    let rest = behind(rest, Symbol::Semicolon)?;
    paths.push(tree)?;
    Ok((paths, rest))
}

/// The paths that stand here, behind those before; so many more at most.
pub fn paths<'t>(
    alloc: Global,
    constants: &[Constant],
    names: &[Name],
    so_far: Vec<PathTree>,
    left: u8,
    tokens: &'t [Token],
) -> TextRead<'t, Vec<PathTree>>
    requires few { length names.now ≤ 65535 }
    requires bounded { length tokens.now ≤ 65537 }
    ensures { Gives paths_read result (series_at (path_item_in (constants_of constants.now) names.now)
        (begins_with Path) left so_far.items (lexemes tokens.now)) }
{
    if !begins(tokens, Symbol::Path) {
        return Ok((so_far, tokens));
    }
    if left == 0 {
        return Err(TextFault::TooMany(start_of(tokens)));
    }
    let (so_far, rest) = path_item(alloc, constants, names, so_far, tokens)?;
    paths(alloc, constants, names, so_far, left - 1, rest)
}
