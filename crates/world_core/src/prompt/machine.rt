//! The state at a prompt, and its answers.

ghost use Rattle.std.specs.Prelude.{◌≡◌, ◌++◌, ◌↔◌, ℕ, List, IfOk, OnOk, IsTrue, true};
ghost use Rattle.world_core.specs.Scene.{IsNew};
ghost use Rattle.world_core.specs.Asked.{view_of};
ghost use Rattle.world_core.specs.Told.{IsTold};
ghost use Rattle.world_core.specs.Writes.{IsOther};
ghost use Rattle.world_core.specs.Tries.{IsAlone, PromptGives};

use crate::answer::push_answer;
use crate::prompt::Texts;
use crate::question::{Question, question_of};
use crate::script::answer::answer_said;
use crate::world::World;
use decl_core::analyse::Accepted;
use std::alloc::{AllocError, Global};
use value_core::Machine;
use value_core::words::is_same_word;
use word_core::answers::push_bad_line;
use word_core::first::one_bare;
use word_core::said::{is_skipped, read_line};

/// What the lines have done so far. It has to be spent, by [`Prompt::end`].
pub struct Prompt<'a> {
    alloc: Global,
    texts: Texts<'a>,
    world: World,
}

// Whether a line is this word and no other.
fn is_alone(line: &[u8], word: &[u8]) -> bool
    ensures { IsTrue result ↔ IsAlone word.now line.now }
{
    match one_bare(line) {
        Some(found) => is_same_word(found, word),
        None => false,
    }
}

impl<'a> Prompt<'a> {
    /// The state before the first line.
    pub fn new(
        alloc: Global,
        accepted: Accepted,
        texts: Texts<'a>,
    ) -> Result<Prompt<'a>, AllocError>
        ensures { IfOk result (λ state. IsNew accepted state.world × (state.texts ≡ texts.entry)) }
    {
        let world = World::new(alloc, accepted)?;
        Ok(Prompt {
            alloc,
            texts,
            world,
        })
    }

    /// Spends the world.
    pub fn end(self) {
        let Prompt {
            alloc: _,
            texts: _,
            world,
        } = self;
        let _desk = world.end();
    }

    // Answers a question about the calls.
    fn ask(&self, question: Question, out: &mut Vec<u8>) -> Result<(), AllocError>
        ensures { OnOk result ((text : List ℕ) × (out.new.items ≡ out.old.items ++ text)
            × IsTold self.now.world.board (view_of question) text) }
    {
        push_answer(self.alloc, self.world.desk(), question, out)
    }

    // Answers a line that says nothing that is done.
    fn answer_other(
        &mut self,
        number: u64,
        line: &[u8],
        out: &mut Vec<u8>,
    ) -> Result<(), AllocError>
        requires { IsOther line.now }
        ensures { OnOk result ((text : List ℕ) × (out.new.items ≡ out.old.items ++ text)
            × PromptGives self.old number line.now text true self.new) }
    {
        if is_alone(line, b"help") {
            out.extend_from_slice(self.texts.help)?;
            return Ok(());
        }
        match question_of(self.alloc, line)? {
            Some(Question::List) => {
                out.extend_from_slice(self.texts.list)?;
                Ok(())
            }
            Some(Question::Why(number)) => self.ask(Question::Why(number), out),
            Some(Question::Who) => self.ask(Question::Who, out),
            None => {
                push_bad_line(out, number)?;
                Ok(())
            }
        }
    }

    // Answers a line.
    fn answer_any(&mut self, number: u64, line: &[u8], out: &mut Vec<u8>) -> Result<(), AllocError>
        ensures { OnOk result ((text : List ℕ) × (out.new.items ≡ out.old.items ++ text)
            × PromptGives self.old number line.now text true self.new) }
    {
        if is_skipped(line) {
            return Ok(());
        }
        match read_line(self.alloc, line)? {
            Some(said) => {
                answer_said(self.alloc, &mut self.world, said, out)?;
                // Its history is sequential, and its board is sound.
                self.world.desk().history();
                Ok(())
            }
            None => self.answer_other(number, line, out),
        }
    }
}

impl Machine for Prompt<'_> {
    ghost use Rattle.world_core.specs.Tries.{PromptGives};

    ghost gives = { PromptGives };

    fn answer(&mut self, number: u64, line: &[u8], out: &mut Vec<u8>) -> Result<bool, AllocError> {
        self.answer_any(number, line, out)?;
        Ok(true)
    }
}
