//! The state of a script of an object with holds, and its answers.

ghost use Rattle.std.specs.Prelude.{◌≡◌, ◌++◌, ℕ, List, IfOk, true, false};
ghost use Rattle.decl_core.specs.HoldMap.{holds_of};
ghost use Rattle.world_core.specs.Writes.{IsOther};
ghost use Rattle.world_core.specs.HoldWrites.{IsHeldBegun, HeldWrites, told_of};

use crate::acts::answer_held;
use crate::asked::answer_asked;
use crate::first::names_object;
use crate::question::question_of;
use crate::world::World;
use decl_core::analyse::Accepted;
use decl_core::hold::Hold;
use guest_core::held::Holds;
use std::alloc::{AllocError, Global};
use value_core::Machine;
use word_core::answers::push_bad_line;
use word_core::said::{is_skipped, read_line};

/// What the lines of a script have done so far. It has to be spent, by [`HeldScript::end`].
pub struct HeldScript {
    alloc: Global,
    // The holds of the object.
    rules: Vec<Hold>,
    // Whether the first line has named the object.
    named: bool,
    world: World,
    holds: Holds,
    // The sessions that are gone, as they left.
    gone: Vec<u32>,
}

impl HeldScript {
    /// The state before the first line.
    pub fn new(
        alloc: Global,
        accepted: Accepted,
        rules: Vec<Hold>,
    ) -> Result<HeldScript, AllocError>
        ensures { IfOk result (λ state. IsHeldBegun accepted (holds_of rules.items) (told_of state)) }
    {
        let world = World::new(alloc, accepted)?;
        Ok(HeldScript {
            alloc,
            rules,
            named: false,
            world,
            holds: Holds::new(alloc),
            gone: Vec::new(alloc),
        })
    }

    /// Spends the world.
    pub fn end(self) {
        let HeldScript {
            alloc: _,
            rules: _,
            named: _,
            world,
            holds: _,
            gone: _,
        } = self;
        let _desk = world.end();
    }

    // Answers the first line.
    fn name_object(
        &mut self,
        number: u64,
        line: &[u8],
        out: &mut Vec<u8>,
    ) -> Result<bool, AllocError>
        requires { self.old.named ≡ false }
        ensures { IfOk result (λ goes. (text : List ℕ) × (out.new.items ≡ out.old.items ++ text)
            × HeldWrites (told_of self.old) number line.now text goes (told_of self.new)) }
    {
        if names_object(self.world.desk().accepted().object(), line) {
            self.named = true;
            return Ok(true);
        }
        push_bad_line(out, number)?;
        Ok(false)
    }

    // Answers a line that says nothing that is done.
    fn answer_other(
        &mut self,
        number: u64,
        line: &[u8],
        out: &mut Vec<u8>,
    ) -> Result<bool, AllocError>
        requires named { self.old.named ≡ true }
        requires other { IsOther line.now }
        ensures { IfOk result (λ goes. (text : List ℕ) × (out.new.items ≡ out.old.items ++ text)
            × HeldWrites (told_of self.old) number line.now text goes (told_of self.new)) }
    {
        match question_of(self.alloc, line)? {
            Some(question) => {
                answer_asked(
                    self.alloc,
                    self.world.desk(),
                    &self.rules,
                    &self.holds,
                    question,
                    out,
                )?;
                Ok(true)
            }
            None => {
                push_bad_line(out, number)?;
                Ok(false)
            }
        }
    }

    // Answers a line behind the first one.
    fn answer_line(
        &mut self,
        number: u64,
        line: &[u8],
        out: &mut Vec<u8>,
    ) -> Result<bool, AllocError>
        requires { self.old.named ≡ true }
        ensures { IfOk result (λ goes. (text : List ℕ) × (out.new.items ≡ out.old.items ++ text)
            × HeldWrites (told_of self.old) number line.now text goes (told_of self.new)) }
    {
        if is_skipped(line) {
            return Ok(true);
        }
        match read_line(self.alloc, line)? {
            Some(said) => {
                answer_held(
                    self.alloc,
                    &mut self.world,
                    &self.rules,
                    &mut self.holds,
                    &mut self.gone,
                    said,
                    out,
                )?;
                // Its history is sequential, and its board is sound.
                self.world.desk().history();
                Ok(true)
            }
            None => self.answer_other(number, line, out),
        }
    }
}

impl Machine for HeldScript {
    ghost use Rattle.world_core.specs.HoldWrites.{HeldGives};

    ghost gives = { HeldGives };

    fn answer(&mut self, number: u64, line: &[u8], out: &mut Vec<u8>) -> Result<bool, AllocError> {
        if !self.named {
            return self.name_object(number, line, out);
        }
        self.answer_line(number, line, out)
    }
}
