//! The running heap.
ghost use Rattle.std.specs.Prelude.{◌≡◌, ℕ, ◌+◌, ◌*◌, ◌%◌, ◌<◌, ◌≤◌, [], All, map, length, slice_index_or, vec_capacity, IfOk, IfErr, IsOk};
ghost use Rattle.rec_core.specs.Worked.{AreIdle};
ghost use Rattle.rec_table.specs.Ends.{IsStopped};
ghost use Rattle.rec_table.specs.Views.{AreMutatorsOf, MutatorView, IsCollectorOf, fresh, fresh_collector, collector_now};
ghost use Rattle.rec_world.specs.Parts.{AreParts};
ghost use Rattle.rec_world.specs.World.{IsWorld};

use crate::board::Board;
use crate::collector::Collector;
use crate::mutator::Mutator;
use crate::seating::seat_all;
use crate::spare::Spare;
use rec_core::Layout;
use rec_log::Buffer;
use rec_world::{Parts, World};
use std::alloc::{AllocError as NoMemory, Global};
use std::marker::Model;
use std::snapshot::Snapshot;

/// A heap that runs: its words and mailboxes stand on a table, and its mutators and its collector may be carried on by threads of
/// their own.
#[derive(Drop)]
pub struct Heap {
    board: Board,
    spare: Spare,
}

impl Model for Heap {
    ghost use Rattle.rec_core.specs.Worked.{AreIdle};
    ghost use Rattle.rec_table.specs.Views.{Started, started};
    ghost use Rattle.rec_table.specs.Room.{HasRoom};
    ghost use Rattle.rec_world.specs.World.{IsWorld};

    ghost Value = { Started };

    ghost view = { λ h. started h.board.table.shared.table_id h.board.table.shared.key.value };

    ghost invariant = { λ h. IsWorld h.board.table.shared.key.value × AreIdle h.board.table.shared.key.value × HasRoom h.spare h.board.table.shared.table_id h.board.table.shared.key.value };
}

impl Heap {
    /// Sets a heap running, with a mutator for each of its own, in order of number, and its collector. It needs idle mutators and
    /// its mailboxes home. All memory that it will need is taken here, also what `stop` needs. Refused, the world comes back as it was.
    pub fn start(
        alloc: Global,
        world: World,
    ) -> Result<(Heap, Vec<Mutator>, Collector), (World, NoMemory)>
        requires idle { AreIdle world }
        requires home { All (λ word. word % 2 ≡ 0) world.crossing }

        ensures started { IfOk result (λ r. r.0.world ≡ world) }
        ensures mutators { IfOk result (λ r. AreMutatorsOf r.0 r.1.items) }
        ensures fresh { IfOk result (λ r. (k : ℕ) (d : MutatorView) → k < length r.1.items → slice_index_or r.1.items k d ≡ fresh r.0 (k + 1)) }
        ensures collector { IfOk result (λ r. IsCollectorOf r.0 r.2 × (r.2 ≡ fresh_collector r.0)) }
        ensures refused { IfErr result (λ r. r.0 ≡ world) }
    {
        let was = Snapshot::of(&world);
        let parts = world.into_parts();
        match reserve(alloc, &parts) {
            Ok((boxes, mutators)) => run(alloc, parts, boxes, mutators, &was),
            Err(error) => Err((World::of_parts(parts), error)),
        }
    }

    /// Stops it, with all its mutators in order of number and its collector, and gives the world that it has become. A mailbox that
    /// the collector holds is given back first. No memory is taken, so nothing is refused.
    pub fn stop(
        self,
        _alloc: Global,
        mutators: Vec<Mutator>,
        collector: Collector,
    ) -> Result<World, (Heap, Vec<Mutator>, Collector, NoMemory)>
        requires mutators { AreMutatorsOf self mutators.items }
        requires collector { IsCollectorOf self collector }

        ensures never_refused { IsOk result }
        ensures stopped { IfOk result (λ world. IsStopped self.world collector.collecting.log (map (λ m. m.log) mutators.items) world) }
        // No epoch is requested by that.
        ensures requested { IfOk result (λ world. world.epoch ≡ (collector_now collector).epoch) }
        ensures idle { IfOk result AreIdle }
        ensures home { IfOk result (λ world. All (λ word. word % 2 ≡ 0) world.crossing) }
        ensures kept { IfOk result IsWorld }
    {
        let mut collector = collector;
        let Heap { board, spare } = self;
        collector.put_back(&board);
        Ok(spare.fill(board, mutators, collector))
    }

    // The table with its numbers.
    pub(crate) fn board(&self) -> &Board
        ensures table { result.now.table.shared.table_id ≡ self.now.table }
        ensures world { result.now.table.shared.key.value ≡ self.now.world }
        ensures kept { IsWorld self.now.world }
    {
        &self.board
    }
}

// Room for the mailboxes as they come off the table, and for the mutators.
fn reserve(alloc: Global, parts: &Parts) -> Result<(Vec<Option<Buffer>>, Vec<Mutator>), NoMemory>
    ensures boxes { IfOk result (λ r. (r.0.items ≡ []) × (length parts.now.boxes.items ≤ vec_capacity r.0)) }
    ensures mutators { IfOk result (λ r. (r.1.items ≡ []) × (length parts.now.machines.items ≤ vec_capacity r.1)) }
{
    let boxes = Vec::with_capacity(alloc, parts.boxes.len())?;
    let mutators = Vec::with_capacity(alloc, parts.machines.len())?;
    Ok((boxes, mutators))
}

// Puts the parts of a world on a table, and makes the seats of its mutators.
fn run(
    alloc: Global,
    parts: Parts,
    boxes: Vec<Option<Buffer>>,
    mut mutators: Vec<Mutator>,
    was: &Snapshot<World>,
) -> Result<(Heap, Vec<Mutator>, Collector), (World, NoMemory)>
    requires world { IsWorld was.now.value }
    requires parts { AreParts was.now.value parts }
    requires idle { AreIdle was.now.value }
    requires home { All (λ word. word % 2 ≡ 0) was.now.value.crossing }
    requires boxes { (boxes.items ≡ []) × (length parts.boxes.items ≤ vec_capacity boxes) }
    requires mutators { (mutators.items ≡ []) × (length parts.machines.items ≤ vec_capacity mutators) }

    ensures started { IfOk result (λ r. r.0.world ≡ was.now.value) }
    ensures mutators { IfOk result (λ r. (length r.1.items ≡ r.0.world.config.mutators) × ((k : ℕ) (d : MutatorView) → k < length r.1.items → slice_index_or r.1.items k d ≡ fresh r.0 (k + 1))) }
    ensures collector { IfOk result (λ r. r.2 ≡ fresh_collector r.0) }
    ensures refused { IfErr result (λ r. r.0 ≡ was.now.value) }
{
    let Parts {
        config,
        mut row,
        boxes: full,
        machines,
        collector,
        made,
        free,
    } = parts;
    let slots = config.slots as usize;
    let layout = Layout::new(slots * config.fields as usize, slots);
    match Board::open(alloc, row.as_slice(), full, layout, collector, was) {
        Ok((board, mut collector)) => {
            let machines = seat_all(&board, &mut collector, machines, &mut mutators);
            row.clear();
            let spare = Spare {
                config,
                row,
                boxes,
                machines,
                made,
                free,
            };
            Ok((Heap { board, spare }, mutators, collector))
        }
        Err((boxes, collector)) => {
            let world = World::of_parts(Parts {
                config,
                row,
                boxes,
                machines,
                collector,
                made,
                free,
            });
            Err((world, NoMemory))
        }
    }
}
