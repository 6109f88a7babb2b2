//! Many turns of the collector by one call: the turns of a phase with a loop of its own are made in that loop.
ghost use Rattle.std.specs.Prelude.{◌≡◌, ◌<◌, ◌≤◌};
ghost use Rattle.rec_collector.specs.Kind.{HasLoop, kind_of};
ghost use Rattle.rec_collector.specs.declared.turn.Turn.TheVariants.{Moved};
ghost use Rattle.rec_world.specs.Turning.{HasTurned};
ghost use Rattle.rec_world.specs.World.{IsWorld};

use crate::World;
use crate::memory::Memory;
use rec_collector::{Kind, Turn, Turns};
use rec_word::Op;
use std::marker::{Brand, PhantomData};

/// The heap as a run of turns began. Each call picks it.
pub trait Starting {
    ghost use Rattle.rec_core.specs.Core.{Core};

    ghost start: { Core };
}

impl Starting for Brand {
    ghost use Rattle.rec_world.specs.Turning.{some_heap};

    ghost start = { some_heap };
}

/// The turns of a run are made on the words of a heap.
pub struct OnWords<W: Starting> {
    of: PhantomData<W>,
}

impl<W: Starting> Turns<(), Memory> for OnWords<W> {
    ghost use Rattle.rec_world.specs.Turning.{Stands};

    ghost StandsAt = { λ board memory n p turn. Stands W.start memory n p turn };

    #[inline(always)]
    fn make(_board: &(), memory: &mut Memory, op: Op) -> u64 {
        memory.perform(op)
    }
}

impl World {
    /// Makes turns of the collector, as so many calls of `turn` do, until one answers something else than `Moved`, and at most so many.
    /// It tells how many it made, and what the last one answered: `Moved` where there was none.
    pub fn turns(&mut self, most: u32) -> (u32, Turn)
        // All but the last one moved.
        ensures turned { HasTurned self.old result.0 self.new result.1 }
        ensures few { result.0 ≤ most }

        // Where the last one moved too, all were made.
        ensures all { result.1 ≡ Moved → result.0 ≡ most }
        ensures kept { IsWorld self.new }
    {
        self.rules();
        let mut made = 0;
        while made < most {
            let (more, turn) = self.run(most - made);
            made += more;
            match turn {
                Turn::Moved => {}
                _ => return (made, turn),
            }
        }
        (made, Turn::Moved)
    }

    // Makes turns, as long as they are of one kind that has a loop of its own, or else one.
    #[inline(always)]
    fn run(&mut self, most: u32) -> (u32, Turn)
        requires some { 0 < most }

        ensures turned { HasTurned self.old result.0 self.new result.1 }
        ensures some { 0 < result.0 }
        ensures few { result.0 ≤ most }
        ensures kept { IsWorld self.new }
    {
        match self.collector.kind() {
            Kind::Freeing => self.run_as::<Brand>(Kind::Freeing, most),
            Kind::Trying => self.run_as::<Brand>(Kind::Trying, most),
            Kind::Preparing => self.run_as::<Brand>(Kind::Preparing, most),
            Kind::Sweeping => self.run_as::<Brand>(Kind::Sweeping, most),
            _ => (1, self.turn()),
        }
    }

    // Makes turns of this kind.
    #[inline(always)]
    fn run_as<W: Starting>(&mut self, kind: Kind, most: u32) -> (u32, Turn)
        requires start { W.start ≡ self.old }
        requires kind { kind ≡ kind_of self.old.collector.phase }
        requires looped { HasLoop kind }
        requires some { 0 < most }

        ensures turned { HasTurned self.old result.0 self.new result.1 }
        ensures some { 0 < result.0 }
        ensures few { result.0 ≤ most }
        ensures kept { IsWorld self.new }
    {
        self.collector
            .run_as::<(), Memory, OnWords<W>>(kind, &(), &mut self.memory, most)
    }
}
