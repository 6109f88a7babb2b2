//! The failing probes of a scan.
ghost use Rattle.std.specs.Prelude.{◌≡◌, ◌+◌, ◌<◌, ◌≤◌, []};
ghost use Rattle.rec_core.specs.Core.{mutator};
ghost use Rattle.rec_table.specs.Beats.{told};
ghost use Rattle.rec_table.specs.Rule.{seated_of};
ghost use Rattle.rec_table.specs.Scan.{Passed, ScansFrom};
ghost use Rattle.rec_table.specs.declared.views.View.TheVariants.{Mutates};

use crate::board::Board;
use crate::operating::load;
use crate::rule::Passes;
use crate::views::View;
use atomic_table::Seat;
use rec_log::Buffer;

// So many headers are looked at in each turn of the scan's loop. Since their number is known beforehand, no bound is tested between
// two of them.
const STRIDE: usize = 16;

/// Passes taken headers, from the slot to which a scan has come after so many probes, until one is free or the scan has gone round.
/// The answer is how many probes it has made then. Each load of a taken header is a step. A load takes the header's line from no
/// other thread, and no record is written between two of them. Behind the last slot the first one follows, so there are two runs of
/// slots at most.
pub(crate) fn first_free(
    board: &Board,
    seat: &mut Seat<Option<Buffer>, View>,
    probed: usize,
    slot: usize,
) -> usize
    requires table { seat.old.table_id ≡ board.now.table.shared.table_id }
    requires seat { seat.old.me ≡ (Mutates (seated_of seat.old.me.0), []) }
    requires scan { ScansFrom (told (mutator board.now.table.shared.key.value (seated_of seat.old.me.0).number) (seated_of seat.old.me.0).log) probed slot board.now.layout.slots }
    requires slot { slot < board.now.layout.slots }

    ensures seat { (seat.new.table_id ≡ seat.old.table_id) × (seat.new.id ≡ seat.old.id) }
    ensures passed { Passed (seated_of seat.old.me.0) probed result seat.new.me }
    ensures few { result ≤ board.now.layout.slots }
{
    let left = board.layout.slots - probed;
    let ahead = board.layout.slots - slot;
    if left <= ahead {
        return probed + first_free_of_run(board, seat, probed, slot, left);
    }
    let count = first_free_of_run(board, seat, probed, slot, ahead);
    if count < ahead {
        return probed + count;
    }
    probed + ahead + first_free_of_run(board, seat, probed + ahead, 0, left - ahead)
}

// The same within one run of slots. The answer is how many of them it passes.
fn first_free_of_run(
    board: &Board,
    seat: &mut Seat<Option<Buffer>, View>,
    probed: usize,
    slot: usize,
    many: usize,
) -> usize
    requires table { seat.old.table_id ≡ board.now.table.shared.table_id }
    requires seat { seat.old.me ≡ (Mutates (seated_of seat.old.me.0), []) }
    requires scan { ScansFrom (told (mutator board.now.table.shared.key.value (seated_of seat.old.me.0).number) (seated_of seat.old.me.0).log) probed slot board.now.layout.slots }
    requires some { 0 < many }
    requires slots { slot + many ≤ board.now.layout.slots }
    requires probes { probed + many ≤ board.now.layout.slots }

    ensures seat { (seat.new.table_id ≡ seat.old.table_id) × (seat.new.id ≡ seat.old.id) }
    ensures passed { Passed (seated_of seat.old.me.0) probed (probed + result) seat.new.me }
    ensures few { result ≤ many }
{
    let mut done = 0;
    while done + STRIDE < many {
        let count = first_free_of(board, seat, probed + done, slot + done, STRIDE);
        if count < STRIDE {
            return done + count;
        }
        done += STRIDE;
    }
    done + first_free_of(board, seat, probed + done, slot + done, many - done)
}

// The same of a few slots.
#[inline(always)]
fn first_free_of(
    board: &Board,
    seat: &mut Seat<Option<Buffer>, View>,
    probed: usize,
    slot: usize,
    many: usize,
) -> usize
    requires table { seat.old.table_id ≡ board.now.table.shared.table_id }
    requires seat { seat.old.me ≡ (Mutates (seated_of seat.old.me.0), []) }
    requires scan { ScansFrom (told (mutator board.now.table.shared.key.value (seated_of seat.old.me.0).number) (seated_of seat.old.me.0).log) probed slot board.now.layout.slots }
    requires slots { slot + many ≤ board.now.layout.slots }
    requires probes { probed + many ≤ board.now.layout.slots }

    ensures seat { (seat.new.table_id ≡ seat.old.table_id) × (seat.new.id ≡ seat.old.id) }
    ensures passed { Passed (seated_of seat.old.me.0) probed (probed + result) seat.new.me }
    ensures few { result ≤ many }
{
    let _ = probed;
    let first_header = board.layout.places + slot;
    for index in 0..many {
        if load::<Passes>(board, seat, first_header + index) == 0 {
            return index;
        }
    }
    many
}
