//! First lines that name no object of the source.

use crate::alike::are_alike;
use crate::files::Files;
use crate::finding::two;
use crate::line_words::words_at;
use crate::page::{Page, push_help, push_note, push_said};
use crate::said::say;
use crate::span::Span;
use decl_core::object::Object;
use decl_read::read::read_objects;
use indexmap::IndexMap;
use path_tree::name::Name;
use std::alloc::{AllocError, Global};
use value_core::next_line;

// The names of objects, with commas between them.
fn names_of(alloc: Global, all: &IndexMap<Name, Object>) -> Result<Vec<u8>, AllocError> {
    let mut names = Vec::new(alloc);
    for name in all.keys() {
        if !names.is_empty() {
            names.extend_from_slice(b", ")?;
        }
        names.extend_from_slice(name.as_bytes())?;
    }
    Ok(names)
}

// Where the first line of a text stands.
fn first_line(text: &[u8]) -> Span {
    match next_line(text) {
        Some((line, _)) => Span {
            start: 0,
            end: line.len(),
        },
        None => Span { start: 0, end: 0 },
    }
}

/// Adds that the first line of a text names no object.
pub fn push_unnamed(alloc: Global, out: &mut Vec<u8>, page: Page<'_>) -> Result<(), AllocError> {
    let words = words_at(alloc, page.source, first_line(page.source))?;
    push_said(
        out,
        page,
        words.line,
        say(
            "line 1 has to name an object",
            "it is `object NAME`, as in `object cell`, with one name of at most 64 bytes",
        ),
        two(b"", b""),
    )
}

// Adds which objects a source has, where it lacks the one of this name.
fn push_names(
    alloc: Global,
    out: &mut Vec<u8>,
    page: Page<'_>,
    files: Files<'_>,
    all: &IndexMap<Name, Object>,
    name: &Name,
) -> Result<(), AllocError> {
    let words = words_at(alloc, page.source, first_line(page.source))?;
    let names = names_of(alloc, all)?;
    let sentence = "there is no object `%` in $";
    let said = two(name.as_bytes(), files.source.as_bytes());
    push_note(out, page, words.span(1), sentence, said)?;
    if names.is_empty() {
        push_help(out, "the file has no objects", said)
    } else {
        push_help(out, "its objects are: %", two(&names, b""))
    }?;
    match alike_in(all, name) {
        Some(meant) => push_help(out, "is `%` meant?", two(meant.as_bytes(), b"")),
        None => Ok(()),
    }
}

// The name of an object that is spelled almost so.
fn alike_in<'m>(all: &'m IndexMap<Name, Object>, name: &Name) -> Option<&'m Name> {
    all.keys()
        .find(|other| are_alike(other.as_bytes(), name.as_bytes()))
}

/// Adds which objects a source has, where it has some text of objects but lacks the one of this name.
pub fn push_lacking(
    alloc: Global,
    out: &mut Vec<u8>,
    page: Page<'_>,
    files: Files<'_>,
    source: &[u8],
    name: &Name,
) -> Result<(), AllocError> {
    match read_objects(alloc, source) {
        Ok(all) => if all.keys().any(|other| other.as_bytes() == name.as_bytes()) {
            Ok(())
        } else {
            push_names(alloc, out, page, files, &all, name)
        },
        Err(_) => Ok(()),
    }
}
