//! A line that begins with `path`.

ghost use Rattle.std.specs.Prelude.{◌≡◌, ◌≢◌, ◌<◌, ◌≤◌, ◌++◌, ◌↔◌, ℕ, IsTrue, IfOk, OnOk, IfSome, MatchOption, length};
ghost use Rattle.std.specs.Prelude.{drop, codes, decimal};
ghost use Rattle.path_tree.specs.Lexeme.{lexemes, lexeme_of, symbol};
ghost use Rattle.path_tree.specs.Tokens.{placed_tokens};
ghost use Rattle.path_tree.specs.declared.token.Symbol.TheVariants.{Semicolon};
ghost use Rattle.path_count.specs.PathLine.{IsPathEnd, StandsBehind};
ghost use Rattle.path_count.specs.ReadLine.{EndsInMark, IsReadLine, IsReadTokens, line_fault_text};

use path_tree::lex::fault::LexFault;
use path_tree::lex::lex;
use path_tree::name::Name;
use path_tree::path_fault::PathFault;
use path_tree::read::parse_path;
use path_tree::token::{Symbol, Token, TokenKind};
use path_tree::tree::PathTree;
use std::alloc::{AllocError, Global};
use value_core::reply::{push_fault, push_number};

/// Why a line is no path.
#[derive(Clone, Copy)]
pub enum LineFault {
    Lexical(LexFault),
    Syntax(PathFault),
}

/// What a line that begins with `path` is.
#[derive(Drop)]
pub enum PathLine {
    Path(PathTree),
    Refused(LineFault),
}

/// The path of a line, alone or before one semicolon, or the fault that it is told: never a want of
/// memory, which is an `AllocError`. Where a path stands, it is `Expected` at the first token behind it,
/// or behind the semicolon there.
pub fn read_path_line(alloc: Global, line: &[u8], names: &[Name]) -> Result<PathLine, AllocError>
    requires { length names.now ≤ 32 }
    ensures { IfOk result (IsReadLine names.now line.now) }
{
    match lex(alloc, line) {
        Ok(tokens) => {
            let read = read_tokens(alloc, &tokens, names)?;
            Ok(read)
        }
        Err(fault) => {
            let fault = lexical_fault(fault)?;
            Ok(PathLine::Refused(fault))
        }
    }
}

// The path of these tokens.
fn read_tokens(alloc: Global, tokens: &[Token], names: &[Name]) -> Result<PathLine, AllocError>
    requires few { length names.now ≤ 32 }
    requires some { 0 < length tokens.now }
    requires bounded { length tokens.now ≤ 65537 }
    requires marked { EndsInMark (lexemes tokens.now) }
    ensures { IfOk result (IsReadTokens names.now (placed_tokens tokens.now)) }
{
    match parse_path(alloc, tokens, 0, &[], names) {
        Ok((tree, to)) => match fault_behind(tokens_from(tokens, to)) {
            None => Ok(PathLine::Path(tree)),
            Some(at) => Ok(PathLine::Refused(LineFault::Syntax(PathFault::Expected(at)))),
        },
        Err(fault) => {
            let fault = syntax_fault(fault)?;
            Ok(PathLine::Refused(fault))
        }
    }
}

// The fault of a lexer, apart from its want of memory.
fn lexical_fault(fault: LexFault) -> Result<LineFault, AllocError>
    ensures { IfOk result (λ told. (told ≡ LineFault.Lexical fault) × (fault ≢ LexFault.Memory)) }
{
    match fault {
        LexFault::Memory => Err(AllocError),
        _ => Ok(LineFault::Lexical(fault)),
    }
}

// The fault of a parser, apart from its want of memory.
fn syntax_fault(fault: PathFault) -> Result<LineFault, AllocError>
    ensures { IfOk result (λ told. (told ≡ LineFault.Syntax fault) × (fault ≢ PathFault.Memory)) }
{
    match fault {
        PathFault::Memory => Err(AllocError),
        _ => Ok(LineFault::Syntax(fault)),
    }
}

// The tokens from a place on.
fn tokens_from(tokens: &[Token], at: usize) -> &[Token]
    requires { at ≤ length tokens.now }
    ensures lexemes { lexemes result.now ≡ drop at (lexemes tokens.now) }
    ensures places { placed_tokens result.now ≡ drop at (placed_tokens tokens.now) }
{
    let (_, rest) = tokens.split_at(at);
    rest
}

// Where a token stands that may not stand behind a path.
fn fault_behind(rest: &[Token]) -> Option<usize>
    requires { EndsInMark (lexemes rest.now) }
    ensures end { MatchOption result (IsPathEnd (lexemes rest.now)) (λ _. IsPathEnd (lexemes rest.now) → ⊥) }
    ensures at { IfSome result (StandsBehind (placed_tokens rest.now)) }
{
    match rest {
        // the end mark alone
        [] | [_] => None,
        [first, _] => {
            if is_semicolon(first) {
                None
            } else {
                Some(first.start)
            }
        }
        [first, second, ..] => {
            if is_semicolon(first) {
                Some(second.start)
            } else {
                Some(first.start)
            }
        }
    }
}

fn is_semicolon(token: &Token) -> bool
    ensures { IsTrue result ↔ (lexeme_of token.now.kind ≡ symbol Semicolon) }
{
    matches!(token.kind, TokenKind::Symbol(Symbol::Semicolon))
}

/// Adds what a line is told that is no path.
pub fn push_line_fault(out: &mut Vec<u8>, number: u64, fault: LineFault) -> Result<(), AllocError>
    ensures { OnOk result (out.new.items ≡ out.old.items
        ++ (codes "line " ++ decimal number ++ codes ": " ++ line_fault_text fault)) }
{
    push_number(out, b"line ", number)?;
    out.extend_from_slice(b": ")?;
    match fault {
        LineFault::Lexical(fault) => {
            out.extend_from_slice(b"lex ")?;
            push_fault(out, fault.number(), fault.name(), fault.at())
        }
        LineFault::Syntax(fault) => {
            out.extend_from_slice(b"path ")?;
            push_fault(out, fault.number(), fault.name(), fault.at())
        }
    }
}
