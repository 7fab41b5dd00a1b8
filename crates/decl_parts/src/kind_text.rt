//! What parts and parameters hold, read from the front of some tokens.

ghost use Rattle.std.specs.Prelude.{◌≡◌};
ghost use Rattle.path_tree.specs.Known.{constants_of};
ghost use Rattle.path_tree.specs.Lexeme.{lexemes};
ghost use Rattle.decl_parts.specs.DeclarationReading.{allowed as allowed_of, size_in, elem_of, elem_at, of_elem_in};
ghost use Rattle.decl_parts.specs.DeclarationReading.{array_in, queue_in, table_in, kind_by_symbol, kind_in};
ghost use Rattle.token_read.specs.Reader.{Gives};

use crate::group::is_among;
use path_tree::name::Name;
use path_tree::token::{Symbol, Token, TokenKind, is_same_symbol};
use token_read::front::{behind, start_of};
use token_read::lookup::{constant_of, is_known};
use token_read::scope::BodyScope;
use token_read::text_fault::{TextFault, TextRead};
use value_core::kind::{Elem, Kind};

/// The most elements of an array.
const MOST_ELEMENTS: u32 = 1024;

/// A size, which is 1 to 1024.
fn allowed(n: u32, at: usize) -> Result<u16, TextFault>
    ensures { Gives (λ size. size) result (allowed_of n) }
{
    if n >= 1 && n <= MOST_ELEMENTS {
        Ok(n as u16)
    } else {
        Err(TextFault::Syntax(at))
    }
}

/// A number from 1 to 1024, or the name of a constant of such a value. The names of the group that is
/// declared are known, and no constants.
#[tactic(auto, unfolding(crate::specs::DeclarationReading::size_in))]
fn size<'t>(scope: &BodyScope, group: &[Name], tokens: &'t [Token]) -> TextRead<'t, u16>
    ensures { Gives (λ x. (x.0, lexemes x.1.now)) result (size_in (constants_of scope.now.constants.now)
        (lexemes tokens.now)) }
{
    match tokens {
        [] => Err(TextFault::Syntax(0)),
        [token, rest @ ..] => match &token.kind {
            TokenKind::Number(n) => {
                let size = allowed(*n, token.start)?;
                Ok((size, rest))
            }
            TokenKind::Name(name) => match constant_of(scope.constants, name.as_bytes()) {
                None => if is_known(scope, name.as_bytes()) || is_among(group, name.as_bytes()) {
                    Err(TextFault::WrongType(token.start))
                } else {
                    Err(TextFault::UnknownName(token.start))
                },
                Some(n) => {
                    let size = allowed(n, token.start)?;
                    Ok((size, rest))
                }
            },
            TokenKind::Symbol(_) => Err(TextFault::Syntax(token.start)),
            TokenKind::Text(_) => Err(TextFault::Syntax(token.start)),
            TokenKind::EndMark => Err(TextFault::Syntax(token.start)),
        },
    }
}

/// What the elements are that this word says.
fn elem_by_symbol(symbol: Symbol, at: usize) -> Result<Elem, TextFault>
    ensures { Gives (λ e. e) result (elem_of symbol) }
{
    if is_same_symbol(symbol, Symbol::Integer) {
        Ok(Elem::Integer)
    } else if is_same_symbol(symbol, Symbol::Text) {
        Ok(Elem::Text)
    } else {
        Err(TextFault::Syntax(at))
    }
}

/// What elements are, and the tokens behind.
pub fn elem<'t>(tokens: &'t [Token]) -> TextRead<'t, Elem>
    ensures { Gives (λ x. (x.0, lexemes x.1.now)) result (elem_at (lexemes tokens.now)) }
{
    match tokens {
        [] => Err(TextFault::Syntax(0)),
        [token, rest @ ..] => match &token.kind {
            TokenKind::Symbol(s) => {
                let e = elem_by_symbol(*s, token.start)?;
                Ok((e, rest))
            }
            TokenKind::Number(_) => Err(TextFault::Syntax(token.start)),
            TokenKind::Name(_) => Err(TextFault::Syntax(token.start)),
            TokenKind::Text(_) => Err(TextFault::Syntax(token.start)),
            TokenKind::EndMark => Err(TextFault::Syntax(token.start)),
        },
    }
}

/// `of` and what the elements are.
#[tactic(auto, unfolding(crate::specs::DeclarationReading::of_elem_in))]
fn of_elem<'t>(tokens: &'t [Token]) -> TextRead<'t, Elem>
    ensures { Gives (λ x. (x.0, lexemes x.1.now)) result (of_elem_in (lexemes tokens.now)) }
{
    let rest = behind(tokens, Symbol::Of)?;
    let (e, rest) = elem(rest)?;
    Ok((e, rest))
}

/// What stands behind `array`.
#[tactic(auto, unfolding(crate::specs::DeclarationReading::array_in))]
fn array<'t>(scope: &BodyScope, group: &[Name], tokens: &'t [Token]) -> TextRead<'t, Kind>
    ensures { Gives (λ x. (x.0, lexemes x.1.now)) result (array_in (constants_of scope.now.constants.now)
        (lexemes tokens.now)) }
{
    let opened = behind(tokens, Symbol::OpenBracket)?;
    let (size, rest) = size(scope, group, opened)?;
    let rest = behind(rest, Symbol::CloseBracket)?;
    let (e, rest) = of_elem(rest)?;
    Ok((Kind::Array(size, e), rest))
}

/// What stands behind `queue`.
#[tactic(auto, unfolding(crate::specs::DeclarationReading::queue_in))]
fn queue<'t>(tokens: &'t [Token]) -> TextRead<'t, Kind>
    ensures { Gives (λ x. (x.0, lexemes x.1.now)) result (queue_in (lexemes tokens.now)) }
{
    let (e, rest) = of_elem(tokens)?;
    Ok((Kind::Queue(e), rest))
}

/// What stands behind `table`.
#[tactic(auto, unfolding(crate::specs::DeclarationReading::table_in))]
fn table<'t>(tokens: &'t [Token]) -> TextRead<'t, Kind>
    ensures { Gives (λ x. (x.0, lexemes x.1.now)) result (table_in (lexemes tokens.now)) }
{
    let (e, rest) = of_elem(tokens)?;
    Ok((Kind::Table(e), rest))
}

/// What begins with a symbol.
#[tactic(auto, unfolding(crate::specs::DeclarationReading::kind_by_symbol))]
fn by_symbol<'t>(
    scope: &BodyScope,
    group: &[Name],
    symbol: Symbol,
    at: usize,
    tokens: &'t [Token],
) -> TextRead<'t, Kind>
    ensures { Gives (λ x. (x.0, lexemes x.1.now)) result (kind_by_symbol (constants_of scope.now.constants.now) symbol
        (lexemes tokens.now)) }
{
    if is_same_symbol(symbol, Symbol::Array) {
        array(scope, group, tokens)
    } else if is_same_symbol(symbol, Symbol::Queue) {
        queue(tokens)
    } else if is_same_symbol(symbol, Symbol::Table) {
        table(tokens)
    } else {
        Err(TextFault::Syntax(at))
    }
}

/// What a part holds, and the tokens behind; `group` are the names before the colon.
#[tactic(auto, unfolding(crate::specs::DeclarationReading::kind_in))]
pub(crate) fn kind<'t>(scope: &BodyScope, group: &[Name], tokens: &'t [Token]) -> TextRead<'t, Kind>
    ensures { Gives (λ x. (x.0, lexemes x.1.now)) result (kind_in (constants_of scope.now.constants.now)
        (lexemes tokens.now)) }
{
    match tokens {
        [] => Err(TextFault::Syntax(0)),
        [token, rest @ ..] => match &token.kind {
            TokenKind::Symbol(s) => by_symbol(scope, group, *s, token.start, rest),
            TokenKind::Number(_) => Err(TextFault::Syntax(token.start)),
            TokenKind::Name(_) => Err(TextFault::Syntax(token.start)),
            TokenKind::Text(_) => Err(TextFault::Syntax(token.start)),
            TokenKind::EndMark => Err(TextFault::Syntax(token.start)),
        },
    }
}
