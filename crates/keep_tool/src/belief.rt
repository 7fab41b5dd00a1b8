//! What a start believes by its command line: which objects have to be known, and what is cut off of journals.

ghost use Rattle.std.specs.Prelude.{IfErr};
ghost use Rattle.keep_tool.specs.Untold.{IsUndue};

use answer_core::failure::ToolFailure;
use command_line::belief::{AcceptedCut, CUT_MEANS, cut_in, names_in};
use command_line::mistakes::keep_error;
use command_line::watching::Apart;
use decl_core::analyse::Accepted;
use decl_core::object::Object;
use std::alloc::{AllocError, Global};

/// What a start believes.
#[derive(Drop)]
pub struct Belief<'a> {
    // Whether an object without a journal is refused.
    all_known: bool,
    // Or one of these names.
    known: Vec<&'a [u8]>,
    // Up to which lines journals are taken.
    cuts: Vec<AcceptedCut<'a>>,
}

// The lines up to which journals are taken.
fn cuts_of<'a>(alloc: Global, words: &[&'a str]) -> Result<Vec<AcceptedCut<'a>>, ToolFailure>
    ensures { IfErr result IsUndue }
{
    let mut cuts = Vec::new(alloc);
    for word in words {
        let Some(cut) = cut_in(word) else {
            let error = keep_error(alloc, word, "--accept-cut <NAME:N>", CUT_MEANS)?;
            return Err(ToolFailure::Usage(error));
        };
        if cuts.push(cut).is_err() {
            return Err(ToolFailure::Memory);
        }
    }
    Ok(cuts)
}

// The names in all values of `--known`.
fn known_of<'a>(alloc: Global, words: &[&'a str]) -> Result<Vec<&'a [u8]>, AllocError> {
    let mut all = Vec::new(alloc);
    for word in words {
        if !word.is_empty() {
            let names = names_in(alloc, word.as_bytes())?;
            for name in &names {
                all.push(*name)?;
            }
        }
    }
    Ok(all)
}

/// What a start believes by these words. A failure is `Usage` for a value of `--accept-cut` that says nothing, or `Memory`.
pub fn belief_of<'a>(alloc: Global, words: &Apart<'a>) -> Result<Belief<'a>, ToolFailure>
    ensures { IfErr result IsUndue }
{
    let cuts = cuts_of(alloc, words.cuts())?;
    Ok(Belief {
        all_known: words.known().iter().any(|word| word.is_empty()),
        known: known_of(alloc, words.known())?,
        cuts,
    })
}

impl<'a> Belief<'a> {
    /// Whether an object is refused that has no journal.
    pub(crate) fn has_to_be_known(&self, object: &Object) -> bool {
        self.all_known
            || self
                .known
                .iter()
                .any(|name| object.name.is_spelled_by(name))
    }

    /// Whether the journal of an object is taken up to this line, whatever stands behind it.
    pub(crate) fn accepts(&self, object: &Object, line: u64) -> bool {
        self.cuts.iter().any(|cut| {
            u64::from(cut.line) == line && object.name.is_spelled_by(cut.object.as_bytes())
        })
    }

    /// `no object NAME` for each name of one that is not there.
    pub(crate) fn push_strangers(
        &self,
        accepted: &[Accepted],
        lines: &mut Vec<u8>,
    ) -> Result<(), AllocError> {
        for name in &self.known {
            push_stranger(accepted, name, lines)?;
        }
        for cut in &self.cuts {
            push_stranger(accepted, cut.object.as_bytes(), lines)?;
        }
        Ok(())
    }
}

// `no object NAME`, where there is none.
fn push_stranger(
    accepted: &[Accepted],
    name: &[u8],
    lines: &mut Vec<u8>,
) -> Result<(), AllocError> {
    if accepted
        .iter()
        .any(|one| one.object().name.is_spelled_by(name))
    {
        return Ok(());
    }
    lines.extend_from_slice(b"no object ")?;
    lines.extend_from_slice(name)?;
    lines.extend_from_slice(b"\n")
}
