//! The steps of a run, to its end.

ghost use Rattle.std.specs.Prelude.{◌≡◌, true, false};
ghost use Rattle.board_core.specs.Answers.{runs_in};
ghost use Rattle.world_core.specs.Does.{IsStep, IsOver, StepsOn};

use crate::event::{Event, WorldAnswer};
use crate::laws::steps_take_work;
use crate::world::World;

// Lets a run make a step that works, if it has one.
fn step_once(world: &mut World, number: u32) -> bool
    requires { runs_in world.old.board number ≡ true }
    ensures runs { runs_in world.new.board number ≡ true }
    ensures made { result ≡ true → IsStep number world.old world.new }
    ensures over { result ≡ false → IsOver number world.old world.new }
{
    match world.event(Event::Step(number, true)).answer {
        WorldAnswer::Stepped(_, _) => true,
        _ => false,
    }
}

/// Lets the run of the call of this number, which runs, make steps that work until it has ended, and says how many.
pub fn step_to_end(world: &mut World, number: u32) -> u64
    requires { runs_in world.old.board number ≡ true }
    ensures { StepsOn number world.old result world.new }
{
    // There are at most 640.
    steps_take_work();
    let mut count = 0;
    'steps: while step_once(world, number) {
        count += 1;
    }
    count
}
