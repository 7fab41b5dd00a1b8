//! Public calls that no program makes: they are there for laws and tests, off the path of a call.

ghost use Rattle.std.specs.Prelude.{List, IfOk, map};
ghost use Rattle.world_core.specs.declared.event.EventAnswer.{EventAnswer as AnAnswer};
ghost use Rattle.world_core.specs.Events.{event_of};
ghost use Rattle.world_core.specs.Headline.{EveryHistoryIsSequential};

use crate::event::Event;
use crate::laws::{fails_only_with_its_device, replies_are_told};
use crate::world::World;
use decl_core::analyse::Accepted;
use std::alloc::{AllocError, Global};

impl World {
    /// The world of an object after a list of events.
    ///
    /// This is the main theorem: whatever the events, in any order, each finished call has the reply that the
    /// sequential object gives at its place in the history, the published contents are the sequential object's after
    /// that history, each session's finished calls stand there once and in its order, each as the call that was
    /// accepted under its number, and every prefix of starts and finishes satisfies every path. The error is that
    /// memory was refused for the world; an event for which it is refused says so.
    pub fn play(
        alloc: Global,
        accepted: Accepted,
        events: &[Event<'_>],
    ) -> Result<World, AllocError>
        ensures { IfOk result (λ w. (answers : List AnAnswer)
            × EveryHistoryIsSequential accepted (map event_of events.now) answers w) }
    {
        let mut world = World::new(alloc, accepted)?;
        for event in events {
            let _answer = world.event(*event);
        }
        // Its history is sequential, and it is what was told.
        world.desk();
        replies_are_told();
        fails_only_with_its_device();
        Ok(world)
    }
}
