//! The canonical text of a path.

ghost use Rattle.std.specs.Prelude.{◌≡◌, ◌++◌, ◌<◌, length, codes, decimal, IfOk, OnOk};
ghost use Rattle.path_tree.specs.Path.{bound, burst, path_of, paths_of};
ghost use Rattle.path_tree.specs.Grammar.{in_group, last_seq};
ghost use Rattle.path_tree.specs.Names.{NamesBelow, AllBelow};
ghost use Rattle.path_tree.specs.Canonical.{AreDistinct, name_of, canonical_bytes, list_bytes, seq_bytes, item_bytes};
ghost use Rattle.path_tree.specs.Canonical.{list_text, seq_text, item_text, list_texts, seq_texts};
ghost use Rattle.path_tree.specs.Written.{AreFreeNames};
ghost use Rattle.path_tree.specs.TextLaws.{Derives};

use crate::name::Name;
use crate::node::{Members, Node, OpId};
use crate::tree::PathTree;
use itoa::Buffer;
use std::alloc::{AllocError, Global};

/// The canonical text of a path: in lower case, with parentheses only where the path needs them, and
/// one space behind a comma, behind a semicolon, behind `path` and before `end`. `names` are those of
/// the operations, by their numbers.
pub fn print_path(alloc: Global, path: &PathTree, names: &[Name]) -> Result<Vec<u8>, AllocError>
    requires { NamesBelow path.now (length names.now) }
    ensures text { IfOk result (λ text. text.items ≡ canonical_bytes names.now path.now) }
    // Where names are distinct and no reserved words, the text derives this path and no other.
    ensures derives { IfOk result (λ text. AreDistinct names.now → AreFreeNames names.now →
        Derives names.now text.items path.now) }
{
    let mut out = Vec::from_slice(alloc, b"path ")?;
    write_alone(&mut out, path.root(), names)?;
    out.extend_from_slice(b" end")?;
    Ok(out)
}

// The name of an operation.
fn write_name(out: &mut Vec<u8>, op: OpId, names: &[Name]) -> Result<(), AllocError>
    requires { op < length names.now }
    ensures { OnOk result (out.new.items ≡ out.old.items ++ name_of names.now op) }
{
    out.extend_from_slice(names[op as usize].as_bytes())
}

// A bound, up to the parenthesis that opens.
fn open_bound(out: &mut Vec<u8>, n: u16) -> Result<(), AllocError>
    ensures { OnOk result (out.new.items ≡ out.old.items ++ (decimal n ++ codes ":(")) }
{
    let mut buffer = Buffer::new();
    out.extend_from_slice(buffer.format(n).as_bytes())?;
    out.extend_from_slice(b":(")
}

// A path that stands alone, or in a bound or burst.
#[cycle(printing)]
fn write_alone(out: &mut Vec<u8>, e: &Node, names: &[Name]) -> Result<(), AllocError>
    requires { NamesBelow (path_of e.now) (length names.now) }
    ensures { OnOk result (out.new.items ≡ out.old.items ++ list_bytes (list_text names.now (path_of e.now))) }
{
    match e {
        Node::Name(op) => write_name(out, *op, names),
        Node::List(members) => write_list(out, members, names),
        Node::Sequence(members) => write_sequence(out, members, names),
        Node::Bound(n, e) => write_bound(out, *n, e, names),
        Node::Burst(e) => write_burst(out, e, names),
    }
}

// A member of a list.
#[cycle(printing)]
fn write_in_list(out: &mut Vec<u8>, e: &Node, names: &[Name]) -> Result<(), AllocError>
    requires { NamesBelow (path_of e.now) (length names.now) }
    ensures { OnOk result (out.new.items ≡ out.old.items ++ seq_bytes (seq_text names.now (path_of e.now))) }
{
    match e {
        Node::Name(op) => write_name(out, *op, names),
        Node::List(members) => write_list_group(out, members, names),
        Node::Sequence(members) => write_sequence(out, members, names),
        Node::Bound(n, e) => write_bound(out, *n, e, names),
        Node::Burst(e) => write_burst(out, e, names),
    }
}

// A member of a sequence.
#[cycle(printing)]
fn write_in_sequence(out: &mut Vec<u8>, e: &Node, names: &[Name]) -> Result<(), AllocError>
    requires { NamesBelow (path_of e.now) (length names.now) }
    ensures { OnOk result (out.new.items ≡ out.old.items ++ item_bytes (item_text names.now (path_of e.now))) }
{
    match e {
        Node::Name(op) => write_name(out, *op, names),
        Node::List(members) => write_list_group(out, members, names),
        Node::Sequence(members) => write_sequence_group(out, members, names),
        Node::Bound(n, e) => write_bound(out, *n, e, names),
        Node::Burst(e) => write_burst(out, e, names),
    }
}

// A bound and what it limits.
#[cycle(printing)]
fn write_bound(out: &mut Vec<u8>, n: u16, e: &Node, names: &[Name]) -> Result<(), AllocError>
    requires { NamesBelow (path_of e.now) (length names.now) }
    ensures { OnOk result (out.new.items ≡ out.old.items
        ++ item_bytes (item_text names.now (bound n (path_of e.now)))) }
{
    open_bound(out, n)?;
    write_alone(out, e, names)?;
    out.extend_from_slice(b")")
}

// A burst.
#[cycle(printing)]
fn write_burst(out: &mut Vec<u8>, e: &Node, names: &[Name]) -> Result<(), AllocError>
    requires { NamesBelow (path_of e.now) (length names.now) }
    ensures { OnOk result (out.new.items ≡ out.old.items ++ item_bytes (item_text names.now (burst (path_of e.now)))) }
{
    out.extend_from_slice(b"[")?;
    write_alone(out, e, names)?;
    out.extend_from_slice(b"]")
}

// A list in parentheses.
#[cycle(printing)]
fn write_list_group(out: &mut Vec<u8>, members: &Members, names: &[Name]) -> Result<(), AllocError>
    requires { AllBelow (paths_of members.now) (length names.now) }
    ensures { OnOk result (out.new.items ≡ out.old.items
        ++ item_bytes (in_group (list_texts names.now (paths_of members.now)))) }
{
    out.extend_from_slice(b"(")?;
    write_list(out, members, names)?;
    out.extend_from_slice(b")")
}

// A sequence in parentheses.
#[cycle(printing)]
fn write_sequence_group(
    out: &mut Vec<u8>,
    members: &Members,
    names: &[Name],
) -> Result<(), AllocError>
    requires { AllBelow (paths_of members.now) (length names.now) }
    ensures { OnOk result (out.new.items ≡ out.old.items
        ++ item_bytes (in_group (last_seq (seq_texts names.now (paths_of members.now))))) }
{
    out.extend_from_slice(b"(")?;
    write_sequence(out, members, names)?;
    out.extend_from_slice(b")")
}

// The members of a list.
#[cycle(printing)]
fn write_list(out: &mut Vec<u8>, members: &Members, names: &[Name]) -> Result<(), AllocError>
    requires { AllBelow (paths_of members.now) (length names.now) }
    ensures { OnOk result (out.new.items ≡ out.old.items ++ list_bytes (list_texts names.now (paths_of members.now))) }
{
    match members {
        Members::Two(a, b) => {
            write_listed(out, a, names)?;
            write_in_list(out, b, names)
        }
        Members::More(a, rest) => {
            write_listed(out, a, names)?;
            write_list(out, rest, names)
        }
    }
}

// A member of a list that has another after it.
#[cycle(printing)]
fn write_listed(out: &mut Vec<u8>, e: &Node, names: &[Name]) -> Result<(), AllocError>
    requires { NamesBelow (path_of e.now) (length names.now) }
    ensures { OnOk result (out.new.items ≡ out.old.items
        ++ (seq_bytes (seq_text names.now (path_of e.now)) ++ codes ", ")) }
{
    write_in_list(out, e, names)?;
    out.extend_from_slice(b", ")
}

// The members of a sequence.
#[cycle(printing)]
fn write_sequence(out: &mut Vec<u8>, members: &Members, names: &[Name]) -> Result<(), AllocError>
    requires { AllBelow (paths_of members.now) (length names.now) }
    ensures { OnOk result (out.new.items ≡ out.old.items ++ seq_bytes (seq_texts names.now (paths_of members.now))) }
{
    match members {
        Members::Two(a, b) => {
            write_sequenced(out, a, names)?;
            write_in_sequence(out, b, names)
        }
        Members::More(a, rest) => {
            write_sequenced(out, a, names)?;
            write_sequence(out, rest, names)
        }
    }
}

// A member of a sequence that has another after it.
#[cycle(printing)]
fn write_sequenced(out: &mut Vec<u8>, e: &Node, names: &[Name]) -> Result<(), AllocError>
    requires { NamesBelow (path_of e.now) (length names.now) }
    ensures { OnOk result (out.new.items ≡ out.old.items
        ++ (item_bytes (item_text names.now (path_of e.now)) ++ codes "; ")) }
{
    write_in_sequence(out, e, names)?;
    out.extend_from_slice(b"; ")
}
