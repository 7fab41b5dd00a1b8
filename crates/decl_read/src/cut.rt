//! A source without the holds of its objects.

ghost use Rattle.std.specs.Prelude.{◌≡◌, IfOk};
ghost use Rattle.path_tree.specs.Tokens.{placed_tokens};
ghost use Rattle.decl_read.specs.Sections.{blank_at as blank_byte, blank_span as blank_bytes, cut_by, rules_at as rules_at_in};
ghost use Rattle.decl_read.specs.Sections.{without as without_rules};

use crate::sections::{begin_of, end_of, opens_object, rules_at};
use path_tree::token::Token;
use std::alloc::{AllocError, Global};

// The byte at a place: a space in this span, but that lines stay.
fn blank_at(from: usize, to: usize, at: usize, byte: u8) -> u8
    ensures { result ≡ blank_byte from to at byte }
{
    if from <= at && at < to && byte != b'\n' {
        b' '
    } else {
        byte
    }
}

// These bytes with a span of them blank.
fn blank_span(alloc: Global, from: usize, to: usize, source: &[u8]) -> Result<Vec<u8>, AllocError>
    ensures { IfOk result (λ v. v.items ≡ blank_bytes from to 0 source.now) }
{
    let mut all = Vec::with_capacity(alloc, source.len())?;
    let mut at = 0;
    let mut rest = source;
    'bytes: while let [byte, tail @ ..] = rest {
        all.push(blank_at(from, to, at, *byte))?;
        at += 1;
        rest = tail;
    }
    Ok(all)
}

// A source without the holds of one object; these are the tokens behind its word `object`.
fn without(alloc: Global, tokens: &[Token], source: Vec<u8>) -> Result<Vec<u8>, AllocError>
    ensures { IfOk result (λ v. v.items ≡ without_rules (rules_at_in (placed_tokens tokens.now)) source.items) }
{
    match rules_at(tokens) {
        None => Ok(source),
        Some(own) => {
            let all = blank_span(alloc, begin_of(own), end_of(own), &source)?;
            Ok(all)
        }
    }
}

/// A source of these tokens without the holds of its objects: spaces stand in their place, and all else stands where it
/// stood. The error is that memory was refused.
pub fn cut_of(alloc: Global, tokens: &[Token], source: &[u8]) -> Result<Vec<u8>, AllocError>
    ensures { IfOk result (λ v. v.items ≡ cut_by (placed_tokens tokens.now) source.now) }
{
    let mut all = source.to_vec(alloc)?;
    let mut rest = tokens;
    'tokens: while let [token, tail @ ..] = rest {
        if opens_object(&token.kind) {
            all = without(alloc, tail, all)?;
        }
        rest = tail;
    }
    Ok(all)
}
