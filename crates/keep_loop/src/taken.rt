//! The lines that the file of a journal tells.

ghost use Rattle.std.specs.Prelude.{◌≡◌, ◌++◌, ◌∷◌, [], List, ℕ, IfOk, OnOk};
ghost use Rattle.keep_loop.specs.Journal.{whole, AreLines};
ghost use Rattle.keep_loop.specs.Taken.{cut, plain, IsTaken, taken};

use crate::check_lines::is_check;
use crate::cut::cut_first;
use crate::head::without_form;
use crate::journal::recovered_len;
use std::alloc::{AllocError, Global};

// Adds a line, where it is no check line.
#[tactic(auto, using(crate::proofs::Taking::check_left_out, crate::proofs::Taking::line_added))]
fn push_line(out: &mut Vec<u8>, line: &[u8]) -> Result<(), AllocError>
    ensures { OnOk result (out.new.items ≡ out.old.items ++ plain (line.now ∷ [])) }
{
    if is_check(line) {
        return Ok(());
    }
    out.extend_from_slice(line)?;
    Ok(())
}

/// Adds the whole lines of a text, without those by which a file checks itself.
pub fn push_plain(out: &mut Vec<u8>, text: &[u8]) -> Result<(), AllocError>
    ensures { OnOk result (out.new.items ≡ out.old.items ++ plain (cut (whole text.now))) }
{
    let mut rest = text;
    while let Some((line, more)) = cut_first(rest) {
        push_line(out, line)?;
        rest = more;
    }
    Ok(())
}

/// The lines that a file tells, whether it is as it was written or not. The error is that memory was refused.
pub fn lines_told(alloc: Global, file: &[u8]) -> Result<Vec<u8>, AllocError>
    ensures { IfOk result (λ lines. lines.items ≡ taken file.now) }
{
    let size = recovered_len(file);
    let mut lines = Vec::new(alloc);
    push_plain(&mut lines, &file[..size])?;
    without_form(alloc, &lines)
}

/// What a file that is taken tells are lines.
pub fn taken_are_lines()
    ensures { (file : List ℕ) → IsTaken file → AreLines (taken file) }
{}
