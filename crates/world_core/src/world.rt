//! Worlds.

ghost use Rattle.std.specs.Prelude.{◌≡◌, IfOk};
ghost use Rattle.board_core.specs.Board.{Rests};
ghost use Rattle.world_core.specs.Events.{event_of};
ghost use Rattle.world_core.specs.Scene.{IsNew};
ghost use Rattle.world_core.specs.Answers.{Answers};
ghost use Rattle.world_core.specs.Headline.{IsSequential};

use crate::event::{Event, EventAnswer};
use crate::stage::{MOST_OPEN, WorldTables};
use decl_core::analyse::Accepted;
use desk_core::desk::Desk;
use device_core::mem_shelf::MemShelf;
use device_core::memory::MemHand;
use page_core::open::open_parts;
use std::alloc::{AllocError, Global};
use std::marker::Model;
use value_core::value::Value;

/// An object, its desk, the runs of its calls, and one device in memory. It has to be spent, by [`World::end`].
pub struct World {
    stage: WorldTables,
}

impl Model for World {
    ghost use Rattle.board_core.specs.Board.{Rests};
    ghost use Rattle.decl_core.specs.contracts.object.Object as o;
    ghost use Rattle.decl_core.specs.contracts.object.Operation as e;
    ghost use Rattle.device_core.specs.contracts.file.File as f;
    ghost use Rattle.std.specs.Coded.{codes};
    ghost use Rattle.value_core.specs.Code.{contents_code};
    ghost use Rattle.world_core.specs.Scene.{Scene};
    ghost use Rattle.world_core.specs.Kept.{IsStaged, scene_of};

    ghost Value = { Scene };

    ghost coded = { Prim.hlevel (codes, o.the_row.coded, e.the_row.coded, f.the_row.coded, contents_code) };

    ghost view = { λ w. scene_of w.stage };

    ghost invariant = { λ w. IsStaged w.stage × Rests w.stage.desk };
}

impl World {
    /// The world of an object whose parts have their opening values, before any event. The error is that memory was
    /// refused.
    pub fn new(alloc: Global, accepted: Accepted) -> Result<World, AllocError>
        ensures { IfOk result (λ w. IsNew accepted w) }
    {
        let mut hand = MemHand::new(alloc);
        let mut shelf = MemShelf::new(alloc);
        let Ok((pins, opening)) = open_parts(alloc, accepted.object(), &mut shelf, &mut hand) else {
            return Err(AllocError);
        };
        let runs = Vec::with_capacity(alloc, MOST_OPEN)?;
        let desk = Desk::open(alloc, accepted, pins)?;
        // The board is sound.
        desk.history();
        Ok(World {
            stage: WorldTables {
                alloc,
                desk,
                opening,
                hand,
                runs,
            },
        })
    }

    /// What happens: its answer, and how many calls it started.
    pub fn event(&mut self, event: Event<'_>) -> EventAnswer
        ensures { Answers self.old (event_of event.entry) result self.new }
    {
        match event {
            Event::Call(session, op, args) => self.stage.call(session, op, args),
            Event::CallKey(session, key, op, args) => self.stage.call_key(session, key, op, args),
            Event::Step(number, works) => self.stage.step(number, works),
            Event::Finish(number) => self.stage.finish(number),
            Event::Cancel(number) => self.stage.cancel(number),
            Event::Drop(session) => self.stage.leave(session),
            Event::Resume(session) => self.stage.resume(session),
            Event::Show => self.stage.look(),
        }
    }

    /// The desk, on which no waiting call may start.
    pub fn desk(&self) -> &Desk
        ensures desk { result.now ≡ self.now.board }
        ensures sequential { IsSequential self.now }
        ensures rests { Rests self.now.board }
    {
        &self.stage.desk
    }

    /// The opening values, one for each part, in order.
    pub fn opening(&self) -> &[Value]
        ensures { result.now ≡ self.now.opening }
    {
        &self.stage.opening
    }

    /// Hands back the desk. The runs of calls that have not finished are spent by steps that fail.
    pub fn end(self) -> Desk
        ensures { result ≡ self.board }
    {
        let World { stage } = self;
        let WorldTables {
            alloc: _,
            desk,
            opening: _,
            hand: _,
            runs: _,
        } = stage;
        desk
    }
}
