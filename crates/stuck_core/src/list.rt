//! The answer to `list`.

ghost use Rattle.std.specs.Prelude.{◌≡◌, ◌++◌, ◌∷◌, [], map, flat_map, OnOk, Some};
ghost use Rattle.std.specs.Arc.{arc_value};
ghost use Rattle.decl_core.specs.ObjectMap.{object_of, operation_of, operations_of, params_of};
ghost use Rattle.word_core.specs.Words.{words_text, behind_word, line_of};
ghost use Rattle.stuck_core.specs.List.{sort_word, typed_word, list_line, object_line, front_words, operation_line};
ghost use Rattle.stuck_core.specs.List.{operations_text, list_text};

use decl_core::object::{Object, Operation, Param};
use path_tree::name::Name;
use std::alloc::AllocError;
use std::sync::Arc;
use value_core::kind::Elem;
use word_core::line::{push_line, push_words};
use word_core::word::Written;

fn word_of(sort: Elem) -> &'static [u8]
    ensures { result.now ≡ sort_word sort }
{
    match sort {
        Elem::Integer => b"integer",
        Elem::Text => b"text",
    }
}

/// Adds `list L`: so many lines stand behind it.
pub fn push_list(out: &mut Vec<u8>, lines: u64) -> Result<(), AllocError>
    ensures { OnOk result (out.new.items ≡ out.old.items ++ list_line lines) }
{
    push_line(out, &[Written::Bare(b"list"), Written::Integer(lines)])
}

/// Adds `object NAME`.
pub fn push_object(out: &mut Vec<u8>, name: &Name) -> Result<(), AllocError>
    ensures { OnOk result (out.new.items ≡ out.old.items ++ object_line name.now) }
{
    push_line(
        out,
        &[Written::Bare(b"object"), Written::Bare(name.as_bytes())],
    )
}

// Adds ` NAME:KIND`.
fn push_typed(out: &mut Vec<u8>, name: &Name, sort: Elem) -> Result<(), AllocError>
    ensures { OnOk result (out.new.items ≡ out.old.items ++ behind_word (typed_word name.now sort ∷ [])) }
{
    out.push(b' ')?;
    out.extend_from_slice(name.as_bytes())?;
    out.push(b':')?;
    out.extend_from_slice(word_of(sort))?;
    Ok(())
}

// Adds these parameters.
fn push_params(out: &mut Vec<u8>, params: &[Param]) -> Result<(), AllocError>
    ensures { OnOk result (out.new.items ≡ out.old.items
        ++ behind_word (map (λ p. typed_word p.0 p.1) (params_of params.now))) }
{
    match params {
        [] => Ok(()),
        [first, more @ ..] => {
            push_typed(out, &first.name, first.kind)?;
            push_params(out, more)
        }
    }
}

// Adds `procedure OP`, or `function OP:KIND`.
fn push_front(out: &mut Vec<u8>, operation: &Operation) -> Result<(), AllocError>
    ensures { OnOk result (out.new.items ≡ out.old.items ++ words_text (front_words (operation_of operation.now))) }
{
    match operation.result {
        None => push_words(
            out,
            &[
                Written::Bare(b"procedure"),
                Written::Bare(operation.name.as_bytes()),
            ],
        ),
        Some(sort) => {
            out.extend_from_slice(b"function")?;
            push_typed(out, &operation.name, sort)
        }
    }
}

// Adds the line of an operation.
fn push_operation(out: &mut Vec<u8>, operation: &Operation) -> Result<(), AllocError>
    ensures { OnOk result (out.new.items ≡ out.old.items ++ operation_line (operation_of operation.now)) }
{
    push_front(out, operation)?;
    push_params(out, &operation.params)?;
    out.push(b'\n')?;
    Ok(())
}

// Adds these lines, in order.
fn push_all(out: &mut Vec<u8>, operations: &[Arc<Operation>]) -> Result<(), AllocError>
    ensures { OnOk result (out.new.items ≡ out.old.items
        ++ flat_map operation_line (operations_of operations.now)) }
{
    match operations {
        [] => Ok(()),
        [first, more @ ..] => {
            push_operation(out, first)?;
            push_all(out, more)
        }
    }
}

/// Adds a line for each operation of an object, in order: `procedure OP NAME:KIND ..`, or `function OP:KIND NAME:KIND ..`
/// with the kind of its reply.
pub fn push_operations(out: &mut Vec<u8>, object: &Object) -> Result<(), AllocError>
    ensures { OnOk result (out.new.items ≡ out.old.items ++ operations_text (object_of object.now)) }
{
    push_all(out, &object.operations)
}

/// Adds the whole answer where there is one object.
pub fn push_only(out: &mut Vec<u8>, object: &Object) -> Result<(), AllocError>
    ensures { OnOk result (out.new.items ≡ out.old.items ++ list_text ((object_of object.now).name ∷ [])
        (Some (object_of object.now))) }
{
    push_list(out, 1 + object.operations.len() as u64)?;
    push_object(out, &object.name)?;
    push_operations(out, object)
}
