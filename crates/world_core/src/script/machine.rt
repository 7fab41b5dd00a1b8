//! The state of a script, and its answers.

ghost use Rattle.std.specs.Prelude.{◌≡◌, ◌++◌, ℕ, List, IfOk, true, false};
ghost use Rattle.world_core.specs.Writes.{IsBegun, IsOther, Writes, told_of};

use crate::answer::push_answer;
use crate::first::names_object;
use crate::question::question_of;
use crate::script::answer::answer_said;
use crate::world::World;
use decl_core::analyse::Accepted;
use std::alloc::{AllocError, Global};
use value_core::Machine;
use word_core::answers::push_bad_line;
use word_core::said::{is_skipped, read_line};

/// What the lines of a script have done so far. It has to be spent, by [`Script::end`].
pub struct Script {
    alloc: Global,
    // Whether the first line has named the object.
    named: bool,
    world: World,
}

impl Script {
    /// The state before the first line.
    pub fn new(alloc: Global, accepted: Accepted) -> Result<Script, AllocError>
        ensures { IfOk result (λ state. IsBegun accepted (told_of state)) }
    {
        let world = World::new(alloc, accepted)?;
        Ok(Script {
            alloc,
            named: false,
            world,
        })
    }

    /// Spends the world.
    pub fn end(self) {
        let Script {
            alloc: _,
            named: _,
            world,
        } = self;
        let _desk = world.end();
    }

    // Answers the first line.
    fn name_object(
        &mut self,
        number: u64,
        line: &[u8],
        out: &mut Vec<u8>,
    ) -> Result<bool, AllocError>
        requires { self.old.named ≡ false }
        ensures { IfOk result (λ goes. (text : List ℕ) × (out.new.items ≡ out.old.items ++ text)
            × Writes (told_of self.old) number line.now text goes (told_of self.new)) }
    {
        if names_object(self.world.desk().accepted().object(), line) {
            self.named = true;
            return Ok(true);
        }
        push_bad_line(out, number)?;
        Ok(false)
    }

    // Answers a line that says nothing that is done.
    fn answer_other(
        &mut self,
        number: u64,
        line: &[u8],
        out: &mut Vec<u8>,
    ) -> Result<bool, AllocError>
        requires named { self.old.named ≡ true }
        requires other { IsOther line.now }
        ensures { IfOk result (λ goes. (text : List ℕ) × (out.new.items ≡ out.old.items ++ text)
            × Writes (told_of self.old) number line.now text goes (told_of self.new)) }
    {
        match question_of(self.alloc, line)? {
            Some(question) => {
                push_answer(self.alloc, self.world.desk(), question, out)?;
                Ok(true)
            }
            None => {
                push_bad_line(out, number)?;
                Ok(false)
            }
        }
    }

    // Answers a line behind the first one.
    fn answer_line(
        &mut self,
        number: u64,
        line: &[u8],
        out: &mut Vec<u8>,
    ) -> Result<bool, AllocError>
        requires { self.old.named ≡ true }
        ensures { IfOk result (λ goes. (text : List ℕ) × (out.new.items ≡ out.old.items ++ text)
            × Writes (told_of self.old) number line.now text goes (told_of self.new)) }
    {
        if is_skipped(line) {
            return Ok(true);
        }
        match read_line(self.alloc, line)? {
            Some(said) => {
                answer_said(self.alloc, &mut self.world, said, out)?;
                // Its history is sequential, and its board is sound.
                self.world.desk().history();
                Ok(true)
            }
            None => self.answer_other(number, line, out),
        }
    }
}

impl Machine for Script {
    ghost use Rattle.world_core.specs.Writes.{ScriptGives};

    ghost gives = { ScriptGives };

    fn answer(&mut self, number: u64, line: &[u8], out: &mut Vec<u8>) -> Result<bool, AllocError> {
        if !self.named {
            return self.name_object(number, line, out);
        }
        self.answer_line(number, line, out)
    }
}
