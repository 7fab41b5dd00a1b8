//! Reading a path from tokens.

ghost use Rattle.std.specs.Prelude.{◌≡◌, ◌≤◌, ◌<◌, ◌+◌, length, drop, ℕ, IfOk, MatchResult};
ghost use Rattle.path_tree.specs.Path.{Path, path_of};
ghost use Rattle.path_tree.specs.Names.{NamesBelow};
ghost use Rattle.path_tree.specs.Lexeme.{lexemes};
ghost use Rattle.path_tree.specs.Known.{known_of, known_with};
ghost use Rattle.path_tree.specs.Reading.{Gives, path_at};
ghost use Rattle.path_tree.specs.Grammar.{IsPathAt};

use crate::front::behind;
use crate::lookup::Constant;
use crate::name::Name;
use crate::nest::list;
use crate::node::Node;
use crate::parts::list_node;
use crate::path_fault::PathFault;
use crate::scope::Scope;
use crate::small::is_small;
use crate::token::{Symbol, Token};
use crate::tree::{PathTree, path_tree};
use std::alloc::Global;

/// The most levels of bounds, bursts and groups in a path.
pub const MOST_LEVELS: u8 = 32;

/// A path at the front of the tokens.
#[tactic(auto, unfolding(crate::specs::Reading::path_at, crate::specs::Reading::list_in))]
fn path<'t>(
    alloc: Global,
    scope: &Scope,
    tokens: &'t [Token],
) -> Result<(Node, &'t [Token]), PathFault>
    ensures { Gives (λ x. (path_of x.0, lexemes x.1.now)) result (path_at (known_of scope.now) scope.now.most
        (lexemes tokens.now)) }
{
    let opened = behind(tokens, Symbol::Path)?;
    let mut seen = Vec::new(alloc);
    let (parts, rest) = list(alloc, scope, opened, &mut seen, MOST_LEVELS, scope.most)?;
    let root = list_node(alloc, parts)?;
    let rest = behind(rest, Symbol::End)?;
    if is_small(&root) {
        Ok((root, rest))
    } else {
        Err(PathFault::TooMany)
    }
}

/// Reads the path that stands at the token `from`, and gives it with the place of the token behind
/// its `end`. `names` are those of the operations, by their numbers; before a colon a name is a
/// constant's, elsewhere it is an operation's.
///
/// The fault told is the first from left to right: `Expected` at a token that the grammar does not
/// have there; `UnknownName` and `RepeatedName` at a name; `BadBound` at a bound, whether a colon
/// follows or not; `TooDeep` at the parenthesis or bracket that opens a 33rd level; `TooMany` once
/// `end` was read; `Memory` where room was refused.
pub fn parse_path(
    alloc: Global,
    tokens: &[Token],
    from: usize,
    consts: &[Constant],
    names: &[Name],
) -> Result<(PathTree, usize), PathFault>
    requires few { length names.now ≤ 65535 }
    requires inside { from < length tokens.now }
    requires bounded { length tokens.now ≤ 65537 }
    // What is read is a path of the grammar, and this is its tree and its end.
    ensures found { IfOk result (λ x. IsPathAt (known_with consts.now names.now) (lexemes tokens.now) from x.0 x.1) }
    // Its operations are those of the names.
    ensures known { IfOk result (λ x. NamesBelow x.0 (length names.now)) }
    // The path and what stands behind its end, as reading from left to right gives them: for a reader of larger texts.
    ensures read { Gives (λ x. (x.0, drop x.1 (lexemes tokens.now))) result
        (path_at (known_with consts.now names.now) (length tokens.now + 1) (drop from (lexemes tokens.now))) }
    // Wherever a path stands, its tree and its end are given, unless memory runs out.
    ensures only { (e : Path) (to : ℕ) → IsPathAt (known_with consts.now names.now) (lexemes tokens.now) from e to →
        MatchResult result (λ x. (x.0 ≡ e) × (x.1 ≡ to)) (λ fault. fault ≡ PathFault.Memory) }
{
    let scope = Scope {
        operations: names,
        constants: consts,
        most: tokens.len() as u32 + 1,
    };
    let (_, here) = tokens.split_at(from);
    let (root, rest) = path(alloc, &scope, here)?;
    Ok((path_tree(root), tokens.len() - rest.len()))
}
