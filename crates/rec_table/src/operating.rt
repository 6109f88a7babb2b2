//! The atomic operations of the seats. Each requires that the run grows by just what an operation of its kind makes.
ghost use Rattle.std.specs.Prelude.{◌≡◌, ◌+◌, ◌%◌, ◌^◌, ◌<◌, ◌==◌, []};
ghost use mathlib.Core.Option.{none};
ghost use prog.Atomic.{either};
ghost use Rattle.atomic_table.specs.Table.{step};
ghost use Rattle.rec_table.specs.Operations.{Operates, SplitsIdly, JoinsIdly};
ghost use Rattle.rec_table.specs.Rule.{without, newcomer, joined};
ghost use Rattle.rec_table.specs.declared.views.View.TheVariants.{Spent};

use crate::board::Board;
use crate::rule::{Operating, Seats};
use crate::views::View;
use atomic_table::Seat;
use rec_log::Buffer;

#[inline(always)]
pub(crate) fn load<M: Operating>(
    board: &Board,
    seat: &mut Seat<Option<Buffer>, View>,
    word: usize,
) -> u64
    requires { (seat.old.table_id ≡ board.now.table.shared.table_id) × (word < board.now.table.shared.table_id.words) × Operates board.now.table.shared.key.value M.kind board.now.table.shared.table_id.slots seat.old.id seat.old.me word (λ n. n) (M.then (step board.now.table.shared.table_id.slots word 0 0 none) seat.old.me) }
    ensures { (seat.new.table_id ≡ seat.old.table_id) × (seat.new.id ≡ seat.old.id) × M.then (step board.now.table.shared.table_id.slots word 0 0 none) seat.old.me result seat.new.me }
{
    board.table.shared.load::<M>(seat, word)
}

#[inline(always)]
pub(crate) fn swap<M: Operating>(
    board: &Board,
    seat: &mut Seat<Option<Buffer>, View>,
    word: usize,
    new: u64,
) -> u64
    requires { (seat.old.table_id ≡ board.now.table.shared.table_id) × (word < board.now.table.shared.table_id.words) × Operates board.now.table.shared.key.value M.kind board.now.table.shared.table_id.slots seat.old.id seat.old.me word (λ _. new) (M.then (step board.now.table.shared.table_id.slots word new 0 none) seat.old.me) }
    ensures { (seat.new.table_id ≡ seat.old.table_id) × (seat.new.id ≡ seat.old.id) × M.then (step board.now.table.shared.table_id.slots word new 0 none) seat.old.me result seat.new.me }
{
    board.table.shared.swap::<M>(seat, word, new)
}

#[inline(always)]
pub(crate) fn fetch_add<M: Operating>(
    board: &Board,
    seat: &mut Seat<Option<Buffer>, View>,
    word: usize,
    more: u64,
) -> u64
    requires { (seat.old.table_id ≡ board.now.table.shared.table_id) × (word < board.now.table.shared.table_id.words) × Operates board.now.table.shared.key.value M.kind board.now.table.shared.table_id.slots seat.old.id seat.old.me word (λ n. (n + more) % 2 ^ 64) (M.then (step board.now.table.shared.table_id.slots word more 0 none) seat.old.me) }
    ensures { (seat.new.table_id ≡ seat.old.table_id) × (seat.new.id ≡ seat.old.id) × M.then (step board.now.table.shared.table_id.slots word more 0 none) seat.old.me result seat.new.me }
{
    board.table.shared.fetch_add::<M>(seat, word, more)
}

#[inline(always)]
pub(crate) fn compare_exchange<M: Operating>(
    board: &Board,
    seat: &mut Seat<Option<Buffer>, View>,
    word: usize,
    old: u64,
    new: u64,
) -> u64
    requires { (seat.old.table_id ≡ board.now.table.shared.table_id) × (word < board.now.table.shared.table_id.words) × Operates board.now.table.shared.key.value M.kind board.now.table.shared.table_id.slots seat.old.id seat.old.me word (λ n. either (n == old) new n) (M.then (step board.now.table.shared.table_id.slots word old new none) seat.old.me) }
    ensures { (seat.new.table_id ≡ seat.old.table_id) × (seat.new.id ≡ seat.old.id) × M.then (step board.now.table.shared.table_id.slots word old new none) seat.old.me result seat.new.me }
{
    board
        .table
        .shared
        .compare_exchange::<M>(seat, word, old, new)
}

// Makes a seat, which is no move of the run.
pub(crate) fn split_seat(
    board: &Board,
    seat: &mut Seat<Option<Buffer>, View>,
) -> Seat<Option<Buffer>, View>
    requires { (seat.old.table_id ≡ board.now.table.shared.table_id) × (0 < board.now.table.shared.table_id.words) × SplitsIdly board.now.table.shared.key.value seat.old.id seat.old.me.0 (without seat.old.me.0) (newcomer seat.old.me.0) }
    ensures { (seat.new.table_id ≡ seat.old.table_id) × (seat.new.id ≡ seat.old.id) × (seat.new.me ≡ (without seat.old.me.0, seat.old.me.1)) × (result.table_id ≡ seat.old.table_id) × (result.me ≡ (newcomer seat.old.me.0, [])) }
{
    board.table.shared.split_seat::<Seats>(seat)
}

// Takes in a seat, which is none either.
pub(crate) fn join_seat(
    board: &Board,
    seat: &mut Seat<Option<Buffer>, View>,
    other: Seat<Option<Buffer>, View>,
)
    requires { (seat.old.table_id ≡ board.now.table.shared.table_id) × (other.table_id ≡ board.now.table.shared.table_id) × (other.me.1 ≡ []) × (0 < board.now.table.shared.table_id.words) × JoinsIdly board.now.table.shared.key.value seat.old.id seat.old.me.0 other.id other.me.0 (joined seat.old.me.0 other.me.0) Spent }
    ensures { (seat.new.table_id ≡ seat.old.table_id) × (seat.new.id ≡ seat.old.id) × (seat.new.me ≡ (joined seat.old.me.0 other.me.0, seat.old.me.1)) }
{
    board.table.shared.join_seat::<Seats>(seat, other)
}
