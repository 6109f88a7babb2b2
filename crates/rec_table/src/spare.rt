//! What is kept of a world while it runs, so that putting it together again can't be refused memory.
ghost use Rattle.std.specs.Prelude.{◌≡◌, ℕ, ◌%◌, ◌<◌, [], All, map};
ghost use Rattle.rec_core.specs.Worked.{AreIdle};
ghost use Rattle.rec_table.specs.Ends.{Interleaves};
ghost use Rattle.rec_table.specs.Views.{AreMutatorsOf, IsCollectorOf, collector_now, started};
ghost use Rattle.rec_table.specs.Room.{HasRoom};
ghost use Rattle.rec_table.specs.Rule.{boxes_out};
ghost use Rattle.rec_world.specs.World.{IsWorld};

use crate::board::Board;
use crate::collector::Collector;
use crate::mutator::Mutator;
use crate::seating::take_in_all;
use rec_index::Index;
use rec_log::Buffer;
use rec_mutator::Machine;
use rec_world::{Config, Parts, World};

/// The numbers of a world, and room for its words, its mailboxes and its machines.
#[derive(Drop)]
pub struct Spare {
    pub config: Config,
    pub row: Vec<u64>,
    pub boxes: Vec<Option<Buffer>>,
    pub machines: Vec<Machine>,
    // How many objects were born before the start.
    pub made: u64,
    pub free: Index,
}

impl Spare {
    /// Takes all off the table, and puts a world together from it.
    pub fn fill(self, board: Board, mutators: Vec<Mutator>, mut collector: Collector) -> World
        requires room { HasRoom self board.table.shared.table_id board.table.shared.key.value }
        requires world { IsWorld board.table.shared.key.value }
        requires mutators { AreMutatorsOf (started board.table.shared.table_id board.table.shared.key.value) mutators.items }
        requires collector { IsCollectorOf (started board.table.shared.table_id board.table.shared.key.value) collector }
        requires none { boxes_out (collector_now collector) ≡ [] }

        ensures run { Interleaves board.table.shared.key.value collector.collecting.log (map (λ m. m.log) mutators.items) result }
        ensures collector { result.collector ≡ collector_now collector }
        ensures idle { AreIdle result }
        ensures home { All (λ word. word % 2 ≡ 0) result.crossing }
        ensures kept { IsWorld result }
    {
        let Spare {
            config,
            mut row,
            mut boxes,
            mut machines,
            made,
            free,
        } = self;
        let made = take_in_all(&board, &mut collector, mutators, &mut machines, made);
        let collector = board.close(collector, &mut row, &mut boxes);
        World::of_parts(Parts {
            config,
            row,
            boxes,
            machines,
            collector,
            made,
            free,
        })
    }
}
