//! Runs of the collector's turns on the table.
ghost use Rattle.std.specs.Prelude.{◌≡◌, ◌≢◌, ◌<◌, ◌≤◌, []};
ghost use Rattle.rec_collector.specs.Kind.{HasLoop, kind_of};
ghost use Rattle.rec_table.specs.Rule.{boxes_out, collecting_of};
ghost use Rattle.rec_table.specs.Telling.{freed_labels};
ghost use Rattle.rec_table.specs.TurnRuns.{IsSeat, Made};
ghost use Rattle.rec_table.specs.Views.{collector_view};
ghost use Rattle.rec_world.specs.World.{IsWorld};

use crate::board::Board;
use crate::collector::make_turn;
use crate::views::View;
use atomic_table::Seat;
use rec_collector::{Kind, Machine, Turn, Turns};
use rec_log::Buffer;
use rec_word::Op;
use std::marker::{Brand, PhantomData};

/// What the collector's seat knew as a run of its turns began. Each call picks it.
pub trait Starting {
    ghost use Rattle.rec_table.specs.declared.views.CollectorSeat.{CollectorSeat};

    ghost start: { CollectorSeat };
}

impl Starting for Brand {
    ghost use Rattle.rec_table.specs.TurnRuns.{no_seat};

    ghost start = { no_seat };
}

/// The collector's seat makes the turns of a run.
pub struct Seated<W: Starting> {
    of: PhantomData<W>,
}

impl<W: Starting> Turns<Board, Seat<Option<Buffer>, View>> for Seated<W> {
    ghost use Rattle.rec_table.specs.TurnRuns.{Stands};

    ghost StandsAt = { λ board seat n p turn. Stands board.table.shared.table_id board.table.shared.key.value W.start seat.table_id seat.me n p turn };

    #[inline(always)]
    fn make(board: &Board, seat: &mut Seat<Option<Buffer>, View>, op: Op) -> u64 {
        make_turn::<Brand>(board, seat, op)
    }
}

/// Makes turns of this kind, at least one and at most so many. It tells how many, and what the last one came to.
#[inline(always)]
pub(crate) fn run_turns<W: Starting>(
    board: &Board,
    seat: &mut Seat<Option<Buffer>, View>,
    machine: &mut Machine,
    kind: Kind,
    most: u32,
) -> (u32, Turn)
    requires world { IsWorld board.now.table.shared.key.value }
    requires start { W.start ≡ collecting_of seat.old.me.0 }
    requires seat { IsSeat board.now.table.shared.table_id board.now.table.shared.key.value seat.old.table_id seat.old.me [] machine.old }
    requires kind { kind ≡ kind_of machine.old.phase }
    requires looped { HasLoop kind }
    requires some { 0 < most }

    ensures seat { IsSeat board.now.table.shared.table_id board.now.table.shared.key.value seat.new.table_id seat.new.me (boxes_out machine.new) machine.new }
    ensures same { collecting_of seat.new.me.0 ≡ record (collecting_of seat.old.me.0) { log = (collecting_of seat.new.me.0).log } }
    ensures made { Made (collector_view board.now.table.shared.table_id board.now.table.shared.key.value.collector (collecting_of seat.old.me.0)) (collector_view board.now.table.shared.table_id board.now.table.shared.key.value.collector (collecting_of seat.new.me.0)) result.0 result.1 }
    ensures unfreed { kind ≢ Kind.Sweeping → freed_labels (collector_view board.now.table.shared.table_id board.now.table.shared.key.value.collector (collecting_of seat.new.me.0)) ≡ freed_labels (collector_view board.now.table.shared.table_id board.now.table.shared.key.value.collector (collecting_of seat.old.me.0)) }
    ensures some { 0 < result.0 }
    ensures few { result.0 ≤ most }
{
    machine.rules();
    machine.run_as::<Board, Seat<Option<Buffer>, View>, Seated<W>>(kind, board, seat, most)
}
