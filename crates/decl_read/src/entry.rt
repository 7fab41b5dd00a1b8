//! Entry operations.

ghost use Rattle.std.specs.Prelude.{◌≡◌, ◌≤◌, ◌||◌, ◌++◌, ◌∷◌, [], Some, is_some, length, map};
ghost use Rattle.path_tree.specs.declared.token.Symbol.TheVariants.{Entry};
ghost use Rattle.path_tree.specs.Lexeme.{lexemes};
ghost use Rattle.path_tree.specs.Known.{constants_of};
ghost use Rattle.decl_core.specs.View.{all_of};
ghost use Rattle.token_read.specs.Reader.{Gives};
ghost use Rattle.token_read.specs.Names.{is_known, found_in};
ghost use Rattle.token_read.specs.Series.{series_at};
ghost use Rattle.decl_core.specs.Footprint.{named_in_all};
ghost use Rattle.decl_core.specs.ObjectForm.{kinds_from};
ghost use Rattle.decl_core.specs.Typed.{IsWellTyped};
ghost use Rattle.decl_parts.specs.Declarations.{begins as begins_with};
ghost use Rattle.decl_read.specs.Declarations.{is_parameter as is_a_parameter, names_before};
ghost use Rattle.decl_core.specs.ObjectForm.{operation_with};
ghost use Rattle.decl_read.specs.DeclarationReading.{new_operation_in, procedure_in, function_in, entry_by, entry_in};
ghost use Rattle.decl_core.specs.ObjectMap.{operations_of, params_of, parts_of, operation_of};
ghost use Rattle.decl_read.specs.Views.{operations_read};

use body_read::block::body;
use decl_core::object::{Operation, Param, Part};
use decl_core::stmt::Stmt;
use decl_parts::group::begins;
use decl_parts::kind_text::elem;
use decl_parts::params::params;
use path_tree::lookup::Constant;
use path_tree::name::Name;
use path_tree::token::{Symbol, Token};
use std::alloc::Global;
use std::sync::Arc;
use token_read::front::{after, behind, name, start_of};
use token_read::lookup::{constant_of, is_operation, param_of, place_of};
use token_read::scope::BodyScope;
use token_read::text_fault::{TextFault, TextRead};
use value_core::kind::Elem;

/// The most operations of an object.
pub const MOST_OPERATIONS: usize = 32;

/// More than a source has tokens.
const MOST: u32 = 131_072;

/// Whether a parameter of one of these operations has this name.
fn is_parameter(operations: &[Arc<Operation>], text: &[u8]) -> bool
    ensures { result ≡ is_a_parameter (operations_of operations.now) text.now }
{
    match operations {
        [] => false,
        [operation, rest @ ..] => is_param(&operation.params, text) || is_parameter(rest, text),
    }
}

/// Whether a parameter has this name.
fn is_param(params: &[Param], text: &[u8]) -> bool
    ensures { result ≡ is_some (found_in (params_of params.now) text.now) }
{
    match params {
        [] => false,
        [param, rest @ ..] => param.name.as_bytes() == text || is_param(rest, text),
    }
}

/// Whether a constant, a part, an operation or a parameter of an operation before has this name.
fn is_taken(constants: &[Constant], parts: &[Part], before: &[Arc<Operation>], text: &[u8]) -> bool
    requires { length parts.now ≤ 16 }
    ensures { result ≡ (is_known (names_before (constants_of constants.now) (parts_of parts.now)
        (operations_of before.now)) text.now || is_a_parameter (operations_of before.now) text.now) }
{
    constant_of(constants, text).is_some()
        || place_of(parts, text).is_some()
        || is_operation(before, text)
        || is_parameter(before, text)
}

/// The name of a new operation, and the tokens behind it.
#[tactic(auto, unfolding(crate::specs::DeclarationReading::new_operation_in))]
fn new_operation<'t>(
    constants: &[Constant],
    parts: &[Part],
    before: &[Arc<Operation>],
    tokens: &'t [Token],
) -> Result<(&'t Name, &'t [Token]), TextFault>
    requires { length parts.now ≤ 16 }
    ensures { Gives (λ x. (x.0.now, lexemes x.1.now)) result (new_operation_in (constants_of constants.now)
        (parts_of parts.now) (operations_of before.now) (lexemes tokens.now)) }
{
    let (name, rest) = name(tokens)?;
    if is_taken(constants, parts, before, name.as_bytes()) {
        return Err(TextFault::DuplicateName(start_of(tokens)));
    }
    if before.len() >= MOST_OPERATIONS {
        return Err(TextFault::TooMany(start_of(tokens)));
    }
    Ok((name, rest))
}

/// What the text of an operation says behind its name.
#[derive(Drop)]
struct EntryText {
    params: Vec<Param>,
    reply: Option<Elem>,
    body: Vec<Stmt>,
}

/// An operation behind those before, with what its text says.
fn with_operation(
    alloc: Global,
    before: Vec<Arc<Operation>>,
    parts: &[Part],
    own: &Name,
    said: EntryText,
) -> Result<Vec<Arc<Operation>>, TextFault>
    requires few { length parts.now ≤ 16 }
    requires typed { IsWellTyped (kinds_from (named_in_all (all_of said.body.items) 0) 0 (parts_of parts.now))
        (map (λ p. p.kind) said.params.items) said.reply (all_of said.body.items) }
    ensures { Gives (λ v. operations_of v.items) result (Some (operations_of before.items
        ++ operation_with (parts_of parts.now) own.now (params_of said.params.items) said.reply
        (all_of said.body.items) ∷ [])) }
{
    let mut all = before;
    let name = own.copy(alloc)?;
    let EntryText {
        params,
        reply,
        body,
    } = said;
    let operation = Operation::new(alloc, name, params, reply, body, parts)?;
    all.push(Arc::new(alloc, operation)?)?;
    Ok(all)
}

/// What stands behind `procedure`.
#[tactic(auto, unfolding(crate::specs::DeclarationReading::procedure_in))]
fn procedure<'t>(
    alloc: Global,
    constants: &[Constant],
    parts: &[Part],
    before: Vec<Arc<Operation>>,
    tokens: &'t [Token],
) -> TextRead<'t, Vec<Arc<Operation>>>
    requires { length parts.now ≤ 16 }
    ensures { Gives operations_read result (procedure_in 131072 (constants_of constants.now) (parts_of parts.now)
        (operations_of before.items) (lexemes tokens.now)) }
{
    let (own, rest) = new_operation(constants, parts, &before, tokens)?;
    let scope = BodyScope {
        constants,
        params: &[],
        parts,
        operations: &before,
        own: Some(own),
        result: None,
        most: MOST,
    };
    let (given, rest) = params(alloc, &scope, rest)?;
    let rest = behind(rest, Symbol::Semicolon)?;
    let rest = behind(rest, Symbol::Begin)?;
    let inside = BodyScope {
        constants,
        params: &given,
        parts,
        operations: &before,
        own: Some(own),
        result: None,
        most: MOST,
    };
    let (statements, rest) = body(alloc, &inside, rest)?;
    let rest = behind(rest, Symbol::Semicolon)?;
    let said = EntryText {
        params: given,
        reply: None,
        body: statements,
    };
    let all = with_operation(alloc, before, parts, own, said)?;
    Ok((all, rest))
}

/// What stands behind `function`.
#[tactic(auto, unfolding(crate::specs::DeclarationReading::function_in))]
fn function<'t>(
    alloc: Global,
    constants: &[Constant],
    parts: &[Part],
    before: Vec<Arc<Operation>>,
    tokens: &'t [Token],
) -> TextRead<'t, Vec<Arc<Operation>>>
    requires { length parts.now ≤ 16 }
    ensures { Gives operations_read result (function_in 131072 (constants_of constants.now) (parts_of parts.now)
        (operations_of before.items) (lexemes tokens.now)) }
{
    let (own, rest) = new_operation(constants, parts, &before, tokens)?;
    let scope = BodyScope {
        constants,
        params: &[],
        parts,
        operations: &before,
        own: Some(own),
        result: None,
        most: MOST,
    };
    let (given, rest) = params(alloc, &scope, rest)?;
    let rest = behind(rest, Symbol::Colon)?;
    let (sort, rest) = elem(rest)?;
    let rest = behind(rest, Symbol::Semicolon)?;
    let rest = behind(rest, Symbol::Begin)?;
    let inside = BodyScope {
        constants,
        params: &given,
        parts,
        operations: &before,
        own: Some(own),
        result: Some(sort),
        most: MOST,
    };
    let (statements, rest) = body(alloc, &inside, rest)?;
    let rest = behind(rest, Symbol::Semicolon)?;
    let said = EntryText {
        params: given,
        reply: Some(sort),
        body: statements,
    };
    let all = with_operation(alloc, before, parts, own, said)?;
    Ok((all, rest))
}

/// An operation, behind those before.
#[tactic(auto, unfolding(crate::specs::DeclarationReading::entry_in, crate::specs::DeclarationReading::entry_by))]
fn entry<'t>(
    alloc: Global,
    constants: &[Constant],
    parts: &[Part],
    before: Vec<Arc<Operation>>,
    tokens: &'t [Token],
) -> TextRead<'t, Vec<Arc<Operation>>>
    requires { length parts.now ≤ 16 }
    ensures { Gives operations_read result (entry_in 131072 (constants_of constants.now) (parts_of parts.now)
        (operations_of before.items) (lexemes tokens.now)) }
{
    let opened = behind(tokens, Symbol::Entry)?;
    match after(opened, Symbol::Procedure) {
        Some(rest) => procedure(alloc, constants, parts, before, rest),
        None => {
            let rest = behind(opened, Symbol::Function)?;
            function(alloc, constants, parts, before, rest)
        }
    }
}

/// The operations that stand here, behind those before; so many more at most.
pub(crate) fn entries<'t>(
    alloc: Global,
    constants: &[Constant],
    parts: &[Part],
    so_far: Vec<Arc<Operation>>,
    left: u8,
    tokens: &'t [Token],
) -> TextRead<'t, Vec<Arc<Operation>>>
    requires { length parts.now ≤ 16 }
    ensures { Gives operations_read result (series_at (entry_in 131072 (constants_of constants.now)
        (parts_of parts.now)) (begins_with Entry) left (operations_of so_far.items) (lexemes tokens.now)) }
{
    if !begins(tokens, Symbol::Entry) {
        return Ok((so_far, tokens));
    }
    if left == 0 {
        return Err(no_room(constants, parts, &so_far, tokens));
    }
    let (so_far, rest) = entry(alloc, constants, parts, so_far, tokens)?;
    entries(alloc, constants, parts, so_far, left - 1, rest)
}

/// The fault where an operation has no room: at what stands behind the two words.
fn no_room(
    constants: &[Constant],
    parts: &[Part],
    before: &[Arc<Operation>],
    tokens: &[Token],
) -> TextFault
    requires { length parts.now ≤ 16 }
{
    let Some(opened) = after(tokens, Symbol::Entry) else {
        return TextFault::Syntax(start_of(tokens));
    };
    let named = match after(opened, Symbol::Procedure) {
        Some(rest) => rest,
        None => match after(opened, Symbol::Function) {
            Some(rest) => rest,
            None => return TextFault::Syntax(start_of(opened)),
        },
    };
    match new_operation(constants, parts, before, named) {
        Err(fault) => fault,
        Ok(_) => TextFault::TooMany(start_of(named)),
    }
}
