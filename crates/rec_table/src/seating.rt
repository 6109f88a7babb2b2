//! Seats are made for the mutators as a heap is started, and taken in as it is stopped.
ghost use Rattle.std.specs.Prelude.{◌≡◌, ℕ, ◌+◌, ◌%◌, ◌^◌, ◌<◌, ◌≤◌, [], All, false, length, map, slice_index_or, vec_capacity};
ghost use Rattle.std.specs.List.{sum_by};
ghost use Rattle.rec_core.specs.Worked.{AreIdle};
ghost use Rattle.rec_mutator.specs.Private.{is_busy};
ghost use Rattle.rec_table.specs.Beats.{births_told};
ghost use Rattle.rec_table.specs.Views.{AreMutatorsOf, MutatorView, IsOwn, fresh, mutator_now, started};
ghost use Rattle.rec_world.specs.World.{IsWorld};

use crate::board::Board;
use crate::collector::Collector;
use crate::mutator::Mutator;
use rec_mutator::Machine;
use std::snapshot::Snapshot;

/// Makes a mutator of each machine, in order of number.
pub fn seat_all(
    board: &Board,
    collector: &mut Collector,
    mut machines: Vec<Machine>,
    mutators: &mut Vec<Mutator>,
) -> Vec<Machine>
    requires own { IsOwn board.now.table.shared.table_id board.now.table.shared.key.value collector.old }
    requires world { IsWorld board.now.table.shared.key.value }
    requires idle { AreIdle board.now.table.shared.key.value }
    requires machines { machines.items ≡ board.now.table.shared.key.value.mutators }
    requires none { collector.old.collecting.made ≡ 0 }
    requires room { (mutators.old.items ≡ []) × (length machines.items ≤ vec_capacity mutators.old) }

    ensures machines { (result.items ≡ []) × (vec_capacity result ≡ vec_capacity machines) }
    ensures all { length mutators.new.items ≡ length machines.items }
    ensures each { (k : ℕ) (d : MutatorView) → k < length mutators.new.items → slice_index_or mutators.new.items k d ≡ fresh (started board.now.table.shared.table_id board.now.table.shared.key.value) (k + 1) }
    ensures collector { collector.new ≡ record collector.old { collecting = record collector.old.collecting { made = length machines.items } } }
{
    // Each mutator's first scan begins with a share of the slots of its own.
    let share = (board.layout.slots / machines.len().max(1)) as u16;
    while !machines.is_empty() {
        let machine = machines.remove(0);
        let opened = Snapshot::of(&machine);
        let cursor = u16::from(machine.number())
            .wrapping_sub(1)
            .wrapping_mul(share);
        let actor = collector.seat_next(board, machine, opened, cursor);
        mutators.push_reserved(Mutator::of(actor));
    }
    machines
}

/// Takes in the lists of all mutators, in order of number, and gives their machines back. The answer is the number of births with
/// those of the mutators.
pub fn take_in_all(
    board: &Board,
    collector: &mut Collector,
    mut mutators: Vec<Mutator>,
    machines: &mut Vec<Machine>,
    mut made: u64,
) -> u64
    requires own { IsOwn board.now.table.shared.table_id board.now.table.shared.key.value collector.old }
    requires mutators { AreMutatorsOf (started board.now.table.shared.table_id board.now.table.shared.key.value) mutators.items }
    requires none { collector.old.collecting.known ≡ [] }
    requires room { (machines.old.items ≡ []) × (length mutators.items ≤ vec_capacity machines.old) }

    ensures machines { machines.new.items ≡ map mutator_now mutators.items }
    ensures idle { All (λ machine. is_busy machine ≡ false) machines.new.items }
    ensures collector { collector.new ≡ record collector.old { collecting = record collector.old.collecting { known = map (λ m. m.log) mutators.items } } }
    ensures made { result ≡ (made + sum_by (λ m. births_told m.opened m.log) mutators.items) % 2 ^ 64 }
{
    while !mutators.is_empty() {
        let actor = mutators.remove(0).into_actor();
        let (machine, births) = collector.take_in(board, actor);
        machines.push_reserved(machine);
        made = made.wrapping_add(births);
    }
    made
}
