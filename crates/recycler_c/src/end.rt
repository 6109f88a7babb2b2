//! What a handle owns.
ghost use Rattle.std.specs.Prelude.{◌≡◌, ◌%◌, ◌<◌, ◌≤◌, All, length, vec_capacity};
ghost use Rattle.std.specs.Arc.{arc_value};
ghost use Rattle.rec_model.specs.declared.limits.TheConstants.{MOST_MUTATORS};
ghost use Rattle.rec_table.specs.Views.{IsCollectorOf, IsMutatorOf};
ghost use Rattle.recycler_c.specs.First.{AreFirst};
ghost use Rattle.rec_core.specs.Worked.{AreIdle};
ghost use Rattle.rec_world.specs.World.{IsWorld};

use rec_model::Cmd;
use rec_notice::{Listener, RingTube, Teller};
use rec_table::{Collector, Heap, Mutator};
use rec_world::World;
use std::marker::Model;
use std::sync::Arc;

/// A heap at rest: no mutator of it works, and all mailboxes are home.
#[derive(Drop)]
pub struct Resting {
    world: World,
}

impl Model for Resting {
    ghost use Rattle.std.specs.Prelude.{◌≡◌, ◌%◌, All};
    ghost use Rattle.rec_core.specs.Core.{Core};
    ghost use Rattle.rec_core.specs.Worked.{AreIdle};
    ghost use Rattle.rec_world.specs.World.{IsWorld};

    ghost Value = { Core };

    ghost view = { λ r. r.world };

    ghost invariant = { λ r. AreIdle r.world × All (λ word. word % 2 ≡ 0) r.world.crossing × IsWorld r.world };
}

impl Resting {
    /// A world as a heap at rest.
    pub fn of(world: World) -> Resting
        requires idle { AreIdle world }
        requires home { All (λ word. word % 2 ≡ 0) world.crossing }
        requires kept { IsWorld world }
        ensures { result ≡ world }
    {
        Resting { world }
    }

    /// The world of a heap that rests no more.
    pub fn into_world(self) -> World
        ensures world { result ≡ self }
        ensures idle { AreIdle result }
        ensures home { All (λ word. word % 2 ≡ 0) result.crossing }
        ensures kept { IsWorld result }
    {
        self.world
    }

    /// Its world.
    pub fn world(&self) -> &World
        ensures { result.now ≡ self.now }
    {
        &self.world
    }
}

/// The collector of a running heap. Its mutators are out, in handles of their own; or all are home, after a start or a stop that
/// answered `Shared`.
#[derive(Drop)]
pub struct Collecting {
    pub heap: Arc<Heap>,
    pub collector: Collector,
    // Those that are home, in order of number, with room for all.
    pub home: Vec<Mutator>,
    // How many mutators the heap has.
    pub count: usize,
    pub ghost own: { IsCollectorOf (arc_value heap) collector },
    pub ghost counted: { count ≡ (arc_value heap).world.config.mutators },
    pub ghost few: { (1 ≤ count) × (count ≤ MOST_MUTATORS) },
    pub ghost first: { AreFirst (arc_value heap) home.items },
    pub ghost whole: { 0 < length home.items → length home.items ≡ count },
    pub ghost room: { count ≤ vec_capacity home },
}

/// A mutator of a running heap, with the heap.
#[derive(Drop)]
pub struct Mutating {
    pub heap: Arc<Heap>,
    pub mutator: Mutator,
    pub ghost own: { IsMutatorOf (arc_value heap) mutator },
}

impl Mutating {
    ghost use Rattle.std.specs.Prelude.{◌↔◌, IfSome, IsTrue};
    ghost use Rattle.rec_mutator.specs.Private.{is_full, register};
    ghost use Rattle.rec_table.specs.Rule.{MayAsk};
    ghost use Rattle.rec_mutator.specs.declared.work.Work.TheVariants as works;
    ghost use Rattle.rec_table.specs.Views.{mutator_now};

    /// Whether its registers and the field are there, and it hasn't left.
    #[inline(always)]
    pub fn can_ask(&self, cmd: &Cmd) -> bool
        ensures { IsTrue result ↔ MayAsk (mutator_now self.now.mutator) cmd.now }
    {
        self.mutator.valid(cmd)
    }

    /// What a register names.
    #[inline(always)]
    pub fn register(&self, r: u8) -> Option<u16>
        requires { r < length (mutator_now self.now.mutator).registers }
        ensures { result ≡ register (mutator_now self.now.mutator) r }
    {
        self.mutator.register(r)
    }

    /// Whether its log has no room for another entry.
    #[inline(always)]
    pub fn is_full(&self) -> bool
        ensures { result ≡ is_full (mutator_now self.now.mutator) }
    {
        self.mutator.is_full()
    }

    /// The slot with which its next scan would begin, where that is found free.
    #[inline(always)]
    pub fn finds_free(&self) -> Option<u16>
        ensures { IfSome result (λ from. from < (mutator_now self.now.mutator).slots) }
    {
        self.mutator.finds_free(&self.heap)
    }

    /// Whether its mutator has left.
    #[inline(always)]
    pub fn has_left(&self) -> bool
        ensures { result ≡ (mutator_now self.now.mutator).left }
    {
        self.mutator.left()
    }
}

/// What the box of a handle holds. A mutator's is vacant while the heap rests. Beside a heap stands who tells what its collector frees, where
/// notices were asked for.
#[derive(Drop)]
pub enum End {
    Vacant,
    Resting(Resting, Option<Teller<RingTube>>),
    Collecting(Collecting, Option<Teller<RingTube>>),
    Mutating(Mutating),
    Listening(Listener),
}

impl End {
    ghost use Rattle.std.specs.Prelude.{◌≡◌, Option};
    ghost use Rattle.rec_notice.specs.declared.ring_tube.RingTube.{RingTube as Rings};
    ghost use Rattle.rec_notice.specs.declared.teller.Teller.{Teller as Tellers};
    ghost use Rattle.recycler_c.specs.Standing.{telling};

    /// The same heap, with this teller.
    pub fn with_teller(self, teller: Option<Teller<RingTube>>) -> End
        ensures { result ≡ telling self teller }
    {
        match self {
            End::Resting(resting, _) => End::Resting(resting, teller),
            End::Collecting(running, _) => End::Collecting(running, teller),
            other => other,
        }
    }
}
