//! The collector on the table.
ghost use Rattle.std.specs.Prelude.{◌≡◌, ◌≢◌, ◌+◌, ◌%◌, ◌^◌, ◌<◌, ◌≤◌, ◌↔◌, IsTrue, [], ◌∷◌, ◌++◌, false, length, None, Some, Option, IfNone, IfSome, IsSome};
ghost use Rattle.rec_collector.specs.Given.{IsGiven};
ghost use Rattle.rec_collector.specs.Kept.{KeepsSizes};
ghost use Rattle.rec_collector.specs.Kind.{HasLoop, kind_of};
ghost use Rattle.rec_collector.specs.Next.{next_of as turn_next};
ghost use Rattle.rec_collector.specs.Step.{IsBetween as IsBetweenTurns};
ghost use Rattle.rec_collector.specs.Took.{turn_of};
ghost use Rattle.rec_collector.specs.declared.phase.Phase.TheVariants as phases;
ghost use Rattle.rec_table.specs.Beats.{gathered, gathered_all, births_told};
ghost use Rattle.rec_table.specs.Views.{CollectorView, collector_view, collector_now, mutator_now, IsCollectorOf, IsOwn, PutsBack};
ghost use Rattle.rec_core.specs.Row.{index_of};
ghost use Rattle.rec_table.specs.Turn.{MakesSome, MakesTurn, MakesTurns, MovesTo, MovesToFewer};
ghost use Rattle.rec_table.specs.Telling.{Frees, IfHeld, IfTurned, IsFreeOp, TellsTurn, TellsTurns, freed_by, freed_labels};
ghost use Rattle.rec_io.specs.Faults.{Rose};
ghost use Rattle.rec_notice.specs.Telling.{as_list, told};
ghost use Rattle.rec_word.specs.Header.{IsTakenHeader};
ghost use mathlib.Core.List.{IsPrefix};
ghost use Rattle.rec_table.specs.Rule.{boxes_out, collecting_of, IsReturnOp, collecting_more, word_of, FindsHeader, Looks, NotLooking};
ghost use Rattle.rec_table.specs.declared.views.Beat.{Beat as Beats};
ghost use Rattle.rec_table.specs.declared.views.Beat.TheVariants.{Saw};
ghost use Rattle.rec_table.specs.declared.views.View.TheVariants.{Collects};
ghost use Rattle.rec_word.specs.declared.op.Op.TheVariants as ops;
ghost use Rattle.rec_mutator.specs.Private.{is_busy};
ghost use Rattle.rec_core.specs.Core.{mutator};
ghost use Rattle.rec_world.specs.World.{IsWorld};

use crate::actor::Actor;
use crate::board::Board;
use crate::heap::Heap;
use crate::operating::{compare_exchange, fetch_add, join_seat, load, split_seat, swap};
use crate::rule::{Glanced, Looked, Returned, Turned, Turning};
use crate::runs::run_turns;
use crate::telling::Telling;
use crate::views::View;
use atomic_table::Seat;
use rec_collector::{Kind, Machine, Sets, Turn};
use rec_log::Buffer;
use rec_mutator::Machine as Mutators;
use rec_notice::{Teller, Tube};
use rec_word::{Header, Mailbox, Op, RETURNS, crossing};
use rec_world::swap_gathered;
use std::marker::{Brand, Model};
use std::snapshot::Snapshot;

#[derive(Drop)]
pub struct Collector {
    machine: Machine,
    opened: Snapshot<Machine>,
    seat: Seat<Option<Buffer>, View>,
}

impl Model for Collector {
    ghost use Rattle.std.specs.Prelude.{◌≡◌};
    ghost use Rattle.rec_collector.specs.Kept.{KeepsSizes};
    ghost use Rattle.rec_collector.specs.Step.{IsBetween};
    ghost use Rattle.rec_table.specs.declared.views.View.TheVariants.{Collects};
    ghost use Rattle.rec_table.specs.Beats.{gathered_all};
    ghost use Rattle.rec_table.specs.Views.{CollectorView, collector_view};
    ghost use Rattle.rec_table.specs.Rule.{collecting_of, boxes_out};

    ghost Value = { CollectorView };

    ghost view = { λ m. collector_view m.seat.table_id m.opened.value (collecting_of m.seat.me.0) };

    ghost invariant = { λ m. (m.seat.me ≡ (Collects (collecting_of m.seat.me.0), boxes_out m.machine)) × (m.machine ≡ gathered_all m.opened.value (collecting_of m.seat.me.0).log) × KeepsSizes m.opened.value m.machine × IsBetween m.machine.phase };
}

// Makes the operation of a turn that looks at no mailbox, and no more.
#[inline(always)]
pub(crate) fn make_turn<W: Turning>(
    board: &Board,
    seat: &mut Seat<Option<Buffer>, View>,
    op: Op,
) -> u64
    requires table { seat.old.table_id ≡ board.now.table.shared.table_id }
    requires seat { seat.old.me ≡ (Collects (collecting_of seat.old.me.0), boxes_out W.actor) }
    requires actor { W.actor ≡ gathered_all board.now.table.shared.key.value.collector (collecting_of seat.old.me.0).log }
    requires between { IsBetweenTurns W.actor.phase }
    requires looks { NotLooking W.actor.phase }
    requires op { turn_next W.actor ≡ Some op }
    requires there { index_of (length board.now.table.shared.key.value.words) (length board.now.table.shared.key.value.headers) op < board.now.table.shared.table_id.words }
    ensures seat { (seat.new.table_id ≡ seat.old.table_id) × (seat.new.id ≡ seat.old.id) }
    ensures view { seat.new.me ≡ (Collects (collecting_more (collecting_of seat.old.me.0) (Saw result)), []) }
    ensures given { IsGiven W.actor result }
    ensures header { FindsHeader W.actor result }
{
    let word = board.index(op);
    match op {
        Op::LoadChild(_) => load::<Turned<W>>(board, seat, word),
        Op::ClearField(_) | Op::FreeHeader(_) => swap::<Turned<W>>(board, seat, word, 0),
        Op::StoreEpoch(epoch) => swap::<Turned<W>>(board, seat, word, u64::from(epoch)),
        Op::AddFreed => fetch_add::<Turned<W>>(board, seat, word, 1),
        Op::ReturnBox(_, _) => fetch_add::<Returned<W>>(board, seat, word, RETURNS),
        _ => unreachable!(),
    }
}

// The crossing word of mutator `t`, as a turn finds it: where its mailbox is home with what was retired, it is marked as taken. While
// the collector waits it only loads the word, and so takes the word's line from no mutator.
#[inline(always)]
fn find<W: Turning>(board: &Board, seat: &mut Seat<Option<Buffer>, View>, t: u8, epoch: u32) -> u64
    requires table { seat.old.table_id ≡ board.now.table.shared.table_id }
    requires seat { seat.old.me ≡ (Collects (collecting_of seat.old.me.0), []) }
    requires actor { (W.number ≡ t) × (W.actor ≡ gathered_all board.now.table.shared.key.value.collector (collecting_of seat.old.me.0).log) }
    requires phase { (W.actor.phase ≡ phases.Looking t) × (W.actor.epoch ≡ epoch) }
    requires there { index_of (length board.now.table.shared.key.value.words) (length board.now.table.shared.key.value.headers) (ops.LookBox t epoch) < board.now.table.shared.table_id.words }
    ensures seat { (seat.new.table_id ≡ seat.old.table_id) × (seat.new.id ≡ seat.old.id) }
    ensures looked { Looks W.actor W.number seat.old.me result seat.new.me }
{
    let word = board.index(Op::LookBox(t, epoch));
    let due = crossing(epoch, Mailbox::Retired);
    let seen = load::<Glanced<W>>(board, seat, word);
    if seen != due {
        seen
    } else {
        compare_exchange::<Looked<W>>(
            board,
            seat,
            word,
            due,
            crossing(epoch, Mailbox::WithCollector),
        )
    }
}

// Looks at the mailbox of mutator `t`: where it is home with what was retired, it is taken, and a spare comes into it.
#[inline(always)]
fn look<W: Turning>(
    board: &Board,
    seat: &mut Seat<Option<Buffer>, View>,
    machine: &mut Machine,
    t: u8,
    epoch: u32,
) -> Turn
    requires table { seat.old.table_id ≡ board.now.table.shared.table_id }
    requires seat { seat.old.me ≡ (Collects (collecting_of seat.old.me.0), []) }
    requires actor { (W.actor ≡ machine.old) × (W.number ≡ t) × (machine.old ≡ gathered_all board.now.table.shared.key.value.collector (collecting_of seat.old.me.0).log) }
    requires phase { (machine.old.phase ≡ phases.Looking t) × (machine.old.epoch ≡ epoch) × (1 ≤ t) }
    requires there { index_of (length board.now.table.shared.key.value.words) (length board.now.table.shared.key.value.headers) (ops.LookBox t epoch) < board.now.table.shared.table_id.words }
    ensures seat { (seat.new.table_id ≡ seat.old.table_id) × (seat.new.id ≡ seat.old.id) }
    ensures turned { (b : Beats) × (seat.new.me ≡ (Collects (collecting_more (collecting_of seat.old.me.0) b), boxes_out machine.new)) × (machine.new ≡ gathered machine.old b) × (result ≡ turn_of machine.old (word_of b)) }
    ensures same { KeepsSizes machine.old machine.new }
    ensures between { IsBetweenTurns machine.new.phase }
{
    let found = find::<W>(board, seat, t, epoch);
    let turn = machine.took(found);
    if found == crossing(epoch, Mailbox::Retired) {
        let mailbox = seat.slot_mut(&board.table.shared, usize::from(t) - 1);
        swap_gathered(machine, mailbox);
    }
    turn
}

// Whether the operation gives a mailbox back.
fn gives_back(op: Op) -> bool
    ensures { IsTrue result ↔ IsReturnOp op }
{
    match op {
        Op::ReturnBox(_, _) => true,
        _ => false,
    }
}

// The label of the object that an operation frees, by the word that it found.
#[inline(always)]
fn label_freed(op: Op, found: u64) -> Option<u32>
    requires { IsFreeOp op → IsTakenHeader found }
    ensures { as_list result ≡ freed_by (Some op) found }
{
    match op {
        Op::FreeHeader(_) => Some(Header::unpack(found).label),
        _ => None,
    }
}

// Offers the label that the teller keeps, if it keeps one, and answers it where it came back.
#[inline(always)]
fn offer_kept<T: Tube>(teller: &mut Teller<T>) -> Option<u32>
    ensures told { told T.sent teller.new ≡ told T.sent teller.old }
    ensures none { IfNone result (teller.new.kept ≡ None) }
    ensures held { IfSome result (λ label. teller.old.kept ≡ Some label) }
    ensures kept { IfSome result (λ label. teller.new.kept ≡ Some label) }
    ensures unsent { IfSome result (λ _. T.sent teller.new.tube ≡ T.sent teller.old.tube) }
    ensures refused { IsSome teller.new.kept → Rose (T.refusals teller.old.tube) (T.refusals teller.new.tube) }
    ensures never_falls { T.refusals teller.old.tube ≤ T.refusals teller.new.tube }
    ensures same { T.SameTube teller.old.tube teller.new.tube }
{
    let label = teller.kept()?;
    if teller.again() { None } else { Some(label) }
}

impl Collector {
    // The collector as the heap is started.
    pub(crate) fn sat(
        machine: Machine,
        opened: Snapshot<Machine>,
        seat: Seat<Option<Buffer>, View>,
    ) -> Collector
        requires seat { (seat.me ≡ (Collects (collecting_of seat.me.0), boxes_out machine)) × ((collecting_of seat.me.0).log ≡ []) }
        requires machine { (machine ≡ opened.value) × IsBetweenTurns machine.phase }
        ensures { result ≡ collector_view seat.table_id opened.value (collecting_of seat.me.0) }
    {
        Collector {
            machine,
            opened,
            seat,
        }
    }

    // Its machine and its seat, where it holds no mailbox.
    pub(crate) fn stood(self) -> (Machine, Seat<Option<Buffer>, View>)
        ensures machine { result.0 ≡ collector_now self }
        ensures seat { (result.1.table_id ≡ self.table) × (result.1.me.0 ≡ Collects self.collecting) }
    {
        let Collector {
            machine,
            opened: _,
            seat,
        } = self;
        (machine, seat)
    }

    // What kind of phase it is in.
    #[inline(always)]
    fn kind(&self) -> Kind
        ensures { result ≡ kind_of (collector_now self.now).phase }
    {
        self.machine.kind()
    }

    // One turn, and the label of the object that it freed. Who asks for the turn alone pays nothing for the label. The phase is looked
    // at once, and each kind has a turn of its own: behind an atomic operation the compiler doesn't know it any more.
    #[inline(always)]
    fn turn_freeing(&mut self, board: &Board) -> (Turn, Option<u32>)
        requires own { IsOwn board.now.table.shared.table_id board.now.table.shared.key.value self.old }
        requires world { IsWorld board.now.table.shared.key.value }

        ensures turn { MakesTurn self.old self.new result.0 }
        ensures freed { Frees self.old self.new result.1 }

        // No turn but a look at a mailbox ends with one held.
        ensures free { NotLooking (collector_now self.old).phase → boxes_out (collector_now self.new) ≡ [] }
    {
        match self.kind() {
            Kind::Releasing => self.turn_as(board, Kind::Releasing),
            Kind::Freeing => self.turn_as(board, Kind::Freeing),
            Kind::Trying => self.turn_as(board, Kind::Trying),
            Kind::Preparing => self.turn_as(board, Kind::Preparing),
            Kind::Sweeping => self.turn_as(board, Kind::Sweeping),
            Kind::Other => self.turn_as(board, Kind::Other),
        }
    }

    // One turn of a collector in a phase of this kind.
    #[inline(always)]
    fn turn_as(&mut self, board: &Board, kind: Kind) -> (Turn, Option<u32>)
        requires own { IsOwn board.now.table.shared.table_id board.now.table.shared.key.value self.old }
        requires world { IsWorld board.now.table.shared.key.value }
        requires kind { kind ≡ kind_of (collector_now self.old).phase }

        ensures turn { MakesTurn self.old self.new result.0 }
        ensures freed { Frees self.old self.new result.1 }
        ensures free { NotLooking (collector_now self.old).phase → boxes_out (collector_now self.new) ≡ [] }
    {
        let _turns = self.machine.turns();
        let Some(op) = self.machine.next() else {
            return (Turn::EpochsSpent, None);
        };
        match op {
            Op::LookBox(t, epoch) => {
                let turn = look::<Brand>(board, &mut self.seat, &mut self.machine, t, epoch);
                (turn, None)
            }
            _ => {
                let word = make_turn::<Brand>(board, &mut self.seat, op);
                (self.machine.took_as(kind, word), label_freed(op, word))
            }
        }
    }

    // One turn.
    #[inline(always)]
    pub(crate) fn turn_on(&mut self, board: &Board) -> Turn
        requires own { IsOwn board.now.table.shared.table_id board.now.table.shared.key.value self.old }
        requires world { IsWorld board.now.table.shared.key.value }

        ensures turn { MakesTurn self.old self.new result }
        ensures free { NotLooking (collector_now self.old).phase → boxes_out (collector_now self.new) ≡ [] }
    {
        let (turn, _) = self.turn_freeing(board);
        turn
    }

    /// Makes one turn of the collector: one step of its collection, on the word that this names. It answers `Waiting` for a mutator
    /// that hasn't crossed into the requested epoch and hasn't left, and `EpochsSpent` for good where the next request would be epoch
    /// 16,777,216.
    #[inline(always)]
    pub fn turn(&mut self, heap: &Heap) -> Turn
        requires own { IsCollectorOf heap.now self.old }

        ensures turn { MakesTurn self.old self.new result }

        // It stays the collector of this heap.
        ensures own { IsCollectorOf heap.now self.new }
    {
        self.turn_on(heap.board())
    }

    /// Makes turns until one comes to something else than `Moved`, and at most so many. It answers what the last one came to, and `Moved`
    /// where none was to be made.
    pub fn turns(&mut self, heap: &Heap, most: u32) -> Turn
        requires own { IsCollectorOf heap.now self.old }

        ensures turns { MakesTurns self.old self.new most result }

        // It stays the collector of this heap.
        ensures own { IsCollectorOf heap.now self.new }
    {
        let mut moves = 0;
        while moves < most {
            let (made, turn) = self.run(heap, moves, most);
            match turn {
                Turn::Moved => moves = made,
                _ => return turn,
            }
        }
        Turn::Moved
    }

    // Makes turns as long as they are of one kind, where so many of so many were made, and tells how many were made then.
    #[inline(always)]
    fn run(&mut self, heap: &Heap, from: u32, most: u32) -> (u32, Turn)
        requires own { IsCollectorOf heap.now self.old }
        requires fewer { from < most }

        ensures made { (first : CollectorView) → MovesTo first from self.old → MakesSome first self.new result.0 most result.1 }
        ensures further { result.1 ≡ Turn.Moved → from < result.0 }
        ensures own { IsCollectorOf heap.now self.new }
    {
        match self.kind() {
            Kind::Releasing => self.run_as(heap, Kind::Releasing, from, most),
            Kind::Freeing => self.run_loop(heap, Kind::Freeing, from, most),
            Kind::Trying => self.run_loop(heap, Kind::Trying, from, most),
            Kind::Preparing => self.run_loop(heap, Kind::Preparing, from, most),
            Kind::Sweeping => self.run_loop(heap, Kind::Sweeping, from, most),
            Kind::Other => self.run_as(heap, Kind::Other, from, most),
        }
    }

    // The same for turns of a kind that the machine makes in a loop of its own.
    #[inline(always)]
    fn run_loop(&mut self, heap: &Heap, kind: Kind, from: u32, most: u32) -> (u32, Turn)
        requires own { IsCollectorOf heap.now self.old }
        requires fewer { from < most }
        requires kind { kind ≡ kind_of (collector_now self.old).phase }
        requires looped { HasLoop kind }

        ensures made { (first : CollectorView) → MovesTo first from self.old → MakesSome first self.new result.0 most result.1 }
        ensures further { result.1 ≡ Turn.Moved → from < result.0 }
        // Only a sweep frees objects.
        ensures unfreed { kind ≢ Kind.Sweeping → freed_labels self.new ≡ freed_labels self.old }
        ensures own { IsCollectorOf heap.now self.new }
    {
        self.run_loop_on(heap.board(), kind, from, most)
    }

    #[inline(always)]
    fn run_loop_on(&mut self, board: &Board, kind: Kind, from: u32, most: u32) -> (u32, Turn)
        requires own { IsOwn board.now.table.shared.table_id board.now.table.shared.key.value self.old }
        requires world { IsWorld board.now.table.shared.key.value }
        requires fewer { from < most }
        requires kind { kind ≡ kind_of (collector_now self.old).phase }
        requires looped { HasLoop kind }

        ensures made { (first : CollectorView) → MovesTo first from self.old → MakesSome first self.new result.0 most result.1 }
        ensures further { result.1 ≡ Turn.Moved → from < result.0 }
        ensures unfreed { kind ≢ Kind.Sweeping → freed_labels self.new ≡ freed_labels self.old }
        ensures same { self.new ≡ record self.old { collecting = record self.old.collecting { log = self.new.collecting.log } } }
    {
        let (made, turn) = run_turns::<Brand>(
            board,
            &mut self.seat,
            &mut self.machine,
            kind,
            most - from,
        );
        match turn {
            Turn::Moved => (from + made, turn),
            _ => (from + (made - 1), turn),
        }
    }

    // The same for turns of this kind. A loop whose kind is known is straight code.
    #[inline(always)]
    fn run_as(&mut self, heap: &Heap, kind: Kind, from: u32, most: u32) -> (u32, Turn)
        requires own { IsCollectorOf heap.now self.old }
        requires fewer { from < most }
        requires kind { kind ≡ kind_of (collector_now self.old).phase }

        ensures made { (first : CollectorView) → MovesTo first from self.old → MakesSome first self.new result.0 most result.1 }
        ensures further { result.1 ≡ Turn.Moved → from < result.0 }
        ensures own { IsCollectorOf heap.now self.new }
    {
        for moves in from..most {
            let turn = self.turn_of_kind(heap, kind);
            match turn {
                Turn::Moved => {}
                _ => return (moves, turn),
            }
            if !self.is_of_kind(kind) {
                return (moves + 1, Turn::Moved);
            }
        }
        (most, Turn::Moved)
    }

    // One turn of this kind.
    #[inline(always)]
    fn turn_of_kind(&mut self, heap: &Heap, kind: Kind) -> Turn
        requires own { IsCollectorOf heap.now self.old }
        requires kind { kind ≡ kind_of (collector_now self.old).phase }

        ensures turn { MakesTurn self.old self.new result }
        ensures own { IsCollectorOf heap.now self.new }
    {
        let (turn, _) = self.turn_as(heap.board(), kind);
        turn
    }

    // Whether it is in a phase of this kind.
    #[inline(always)]
    fn is_of_kind(&self, kind: Kind) -> bool
        ensures { IsTrue result ↔ (kind ≡ kind_of (collector_now self.now).phase) }
    {
        kind == self.kind()
    }

    /// Makes one turn, as `turn` does, and tells the label of the object that it freed, if it freed one. A label that the teller keeps is
    /// offered first. Where that comes back no turn is made, and the label is held on.
    #[inline(always)]
    pub fn turn_telling<T: Tube>(&mut self, heap: &Heap, teller: &mut Teller<T>) -> Telling
        requires own { IsCollectorOf heap.now self.old }

        ensures turn { IfTurned result (λ turn. MakesTurn self.old self.new turn) }
        // A label that was kept is sent by then; and what was told grows by what the turn frees.
        ensures first { IfTurned result (λ _. IsPrefix (told T.sent teller.old) (T.sent teller.new.tube)) }
        ensures told { IfTurned result (λ _. TellsTurn self.old self.new (told T.sent teller.old) (told T.sent teller.new)) }

        // Nothing but the count of refusals changes where a label is held.
        ensures held { IfHeld result (λ label. teller.old.kept ≡ Some label) }
        ensures kept { IfHeld result (λ label. teller.new.kept ≡ Some label) }
        ensures unsent { IfHeld result (λ _. T.sent teller.new.tube ≡ T.sent teller.old.tube) }
        ensures unturned { IfHeld result (λ _. self.new ≡ self.old) }

        // A label is held, or newly kept, only where one was refused in this call.
        ensures refused { IsSome teller.new.kept → Rose (T.refusals teller.old.tube) (T.refusals teller.new.tube) }
        ensures never_falls { T.refusals teller.old.tube ≤ T.refusals teller.new.tube }

        // It stays the collector of this heap, and the teller's tube the same.
        ensures own { IsCollectorOf heap.now self.new }
        ensures same { T.SameTube teller.old.tube teller.new.tube }
    {
        match self.kind() {
            Kind::Releasing => self.turn_telling_as(heap, Kind::Releasing, teller),
            Kind::Freeing => self.turn_telling_as(heap, Kind::Freeing, teller),
            Kind::Trying => self.turn_telling_as(heap, Kind::Trying, teller),
            Kind::Preparing => self.turn_telling_as(heap, Kind::Preparing, teller),
            Kind::Sweeping => self.turn_telling_as(heap, Kind::Sweeping, teller),
            Kind::Other => self.turn_telling_as(heap, Kind::Other, teller),
        }
    }

    // The same of a collector in a phase of this kind.
    #[inline(always)]
    fn turn_telling_as<T: Tube>(
        &mut self,
        heap: &Heap,
        kind: Kind,
        teller: &mut Teller<T>,
    ) -> Telling
        requires own { IsCollectorOf heap.now self.old }
        requires kind { kind ≡ kind_of (collector_now self.old).phase }

        ensures turn { IfTurned result (λ turn. MakesTurn self.old self.new turn) }
        // A label that was kept is sent by then; and what was told grows by what the turn frees.
        ensures first { IfTurned result (λ _. IsPrefix (told T.sent teller.old) (T.sent teller.new.tube)) }
        ensures told { IfTurned result (λ _. TellsTurn self.old self.new (told T.sent teller.old) (told T.sent teller.new)) }

        // Nothing but the count of refusals changes where a label is held.
        ensures held { IfHeld result (λ label. teller.old.kept ≡ Some label) }
        ensures kept { IfHeld result (λ label. teller.new.kept ≡ Some label) }
        ensures unsent { IfHeld result (λ _. T.sent teller.new.tube ≡ T.sent teller.old.tube) }
        ensures unturned { IfHeld result (λ _. self.new ≡ self.old) }

        // A label is held, or newly kept, only where one was refused in this call.
        ensures refused { IsSome teller.new.kept → Rose (T.refusals teller.old.tube) (T.refusals teller.new.tube) }
        ensures never_falls { T.refusals teller.old.tube ≤ T.refusals teller.new.tube }

        // It stays the collector of this heap, and the teller's tube the same.
        ensures own { IsCollectorOf heap.now self.new }
        ensures same { T.SameTube teller.old.tube teller.new.tube }
    {
        if let Some(label) = offer_kept(teller) {
            return Telling::Held { label };
        }
        let (turn, freed) = self.turn_as(heap.board(), kind);
        if let Some(label) = freed {
            teller.tell(label);
        }
        Telling::Turned(turn)
    }

    /// Makes turns as `turn_telling` does until one comes to something else than `Moved` or a label is held, and at most so many. It
    /// answers what the last one came to, and `Moved` where none was to be made.
    pub fn turns_telling<T: Tube>(
        &mut self,
        heap: &Heap,
        most: u32,
        teller: &mut Teller<T>,
    ) -> Telling
        requires own { IsCollectorOf heap.now self.old }

        ensures turns { IfTurned result (λ turn. MakesTurns self.old self.new most turn) }
        // What was told grows by all that the turns free, be they cut short by a label that is held or not.
        ensures told { TellsTurns self.old self.new (told T.sent teller.old) (told T.sent teller.new) }
        // A label that was kept is sent by then, where a turn was to be made.
        ensures first { 1 ≤ most → IfTurned result (λ _. IsPrefix (told T.sent teller.old) (T.sent teller.new.tube)) }

        // Where a label is held fewer turns were made than were asked for, and each of them moved.
        ensures held { IfHeld result (λ label. teller.new.kept ≡ Some label) }
        ensures fewer { IfHeld result (λ _. MovesToFewer self.old self.new most) }

        // A label is held, or kept at the end of a turn, only where one was refused in this call.
        ensures refused { 1 ≤ most → IsSome teller.new.kept → Rose (T.refusals teller.old.tube) (T.refusals teller.new.tube) }
        ensures never_falls { T.refusals teller.old.tube ≤ T.refusals teller.new.tube }

        // It stays the collector of this heap, and the teller's tube the same.
        ensures own { IsCollectorOf heap.now self.new }
        ensures same { T.SameTube teller.old.tube teller.new.tube }
    {
        let mut moves = 0;
        while moves < most {
            let (made, told) = self.run_telling(heap, moves, most, teller);
            match told {
                Telling::Held { label } => return Telling::Held { label },
                Telling::Turned(turn) => match turn {
                    Turn::Moved => moves = made,
                    _ => return Telling::Turned(turn),
                },
            }
        }
        Telling::Turned(Turn::Moved)
    }

    // Makes turns that tell, as long as they are of one kind, where so many of so many were made, and tells how many were made then.
    #[inline(always)]
    fn run_telling<T: Tube>(
        &mut self,
        heap: &Heap,
        from: u32,
        most: u32,
        teller: &mut Teller<T>,
    ) -> (u32, Telling)
        requires own { IsCollectorOf heap.now self.old }
        requires fewer { from < most }

        ensures made { IfTurned result.1 (λ turn. (first : CollectorView) → MovesTo first from self.old → MakesSome first self.new result.0 most turn) }
        ensures further { IfTurned result.1 (λ turn. turn ≡ Turn.Moved → from < result.0) }
        ensures told { TellsTurns self.old self.new (told T.sent teller.old) (told T.sent teller.new) }
        ensures first { IfTurned result.1 (λ _. IsPrefix (told T.sent teller.old) (T.sent teller.new.tube)) }
        ensures held { IfHeld result.1 (λ label. teller.new.kept ≡ Some label) }
        ensures fewer { IfHeld result.1 (λ _. result.0 < most) }
        ensures moved { IfHeld result.1 (λ _. (first : CollectorView) → MovesTo first from self.old → MovesTo first result.0 self.new) }
        ensures refused { IsSome teller.new.kept → Rose (T.refusals teller.old.tube) (T.refusals teller.new.tube) }
        ensures never_falls { T.refusals teller.old.tube ≤ T.refusals teller.new.tube }
        ensures own { IsCollectorOf heap.now self.new }
        ensures same { T.SameTube teller.old.tube teller.new.tube }
    {
        match self.kind() {
            Kind::Freeing => self.run_unfreeing(heap, Kind::Freeing, from, most, teller),
            Kind::Trying => self.run_unfreeing(heap, Kind::Trying, from, most, teller),
            Kind::Preparing => self.run_unfreeing(heap, Kind::Preparing, from, most, teller),
            Kind::Releasing => self.run_telling_as(heap, Kind::Releasing, from, most, teller),
            Kind::Sweeping => self.run_telling_as(heap, Kind::Sweeping, from, most, teller),
            Kind::Other => self.run_telling_as(heap, Kind::Other, from, most, teller),
        }
    }

    // The same for turns of this kind, which tell one by one. A loop whose kind is known is straight code.
    #[inline(always)]
    fn run_telling_as<T: Tube>(
        &mut self,
        heap: &Heap,
        kind: Kind,
        from: u32,
        most: u32,
        teller: &mut Teller<T>,
    ) -> (u32, Telling)
        requires own { IsCollectorOf heap.now self.old }
        requires fewer { from < most }
        requires kind { kind ≡ kind_of (collector_now self.old).phase }

        ensures made { IfTurned result.1 (λ turn. (first : CollectorView) → MovesTo first from self.old → MakesSome first self.new result.0 most turn) }
        ensures further { IfTurned result.1 (λ turn. turn ≡ Turn.Moved → from < result.0) }
        ensures told { TellsTurns self.old self.new (told T.sent teller.old) (told T.sent teller.new) }
        ensures first { IfTurned result.1 (λ _. IsPrefix (told T.sent teller.old) (T.sent teller.new.tube)) }
        ensures held { IfHeld result.1 (λ label. teller.new.kept ≡ Some label) }
        ensures fewer { IfHeld result.1 (λ _. result.0 < most) }
        ensures moved { IfHeld result.1 (λ _. (first : CollectorView) → MovesTo first from self.old → MovesTo first result.0 self.new) }
        ensures refused { IsSome teller.new.kept → Rose (T.refusals teller.old.tube) (T.refusals teller.new.tube) }
        ensures never_falls { T.refusals teller.old.tube ≤ T.refusals teller.new.tube }
        ensures own { IsCollectorOf heap.now self.new }
        ensures same { T.SameTube teller.old.tube teller.new.tube }
    {
        for moves in from..most {
            match self.turn_telling_as(heap, kind, teller) {
                Telling::Held { label } => return (moves, Telling::Held { label }),
                Telling::Turned(turn) => match turn {
                    Turn::Moved => (),
                    _ => return (moves, Telling::Turned(turn)),
                },
            }
            if !self.is_of_kind(kind) {
                return (moves + 1, Telling::Turned(Turn::Moved));
            }
        }
        (most, Telling::Turned(Turn::Moved))
    }

    // A run of turns of a kind that frees no objects. So only a label that the teller keeps is offered.
    #[inline(always)]
    fn run_unfreeing<T: Tube>(
        &mut self,
        heap: &Heap,
        kind: Kind,
        from: u32,
        most: u32,
        teller: &mut Teller<T>,
    ) -> (u32, Telling)
        requires own { IsCollectorOf heap.now self.old }
        requires fewer { from < most }
        requires kind { kind ≡ kind_of (collector_now self.old).phase }
        requires looped { HasLoop kind }
        requires unfreeing { kind ≢ Kind.Sweeping }

        ensures made { IfTurned result.1 (λ turn. (first : CollectorView) → MovesTo first from self.old → MakesSome first self.new result.0 most turn) }
        ensures further { IfTurned result.1 (λ turn. turn ≡ Turn.Moved → from < result.0) }
        ensures told { TellsTurns self.old self.new (told T.sent teller.old) (told T.sent teller.new) }
        ensures first { IfTurned result.1 (λ _. IsPrefix (told T.sent teller.old) (T.sent teller.new.tube)) }
        ensures held { IfHeld result.1 (λ label. teller.new.kept ≡ Some label) }
        ensures fewer { IfHeld result.1 (λ _. result.0 < most) }
        ensures moved { IfHeld result.1 (λ _. (first : CollectorView) → MovesTo first from self.old → MovesTo first result.0 self.new) }
        ensures refused { IsSome teller.new.kept → Rose (T.refusals teller.old.tube) (T.refusals teller.new.tube) }
        ensures never_falls { T.refusals teller.old.tube ≤ T.refusals teller.new.tube }
        ensures own { IsCollectorOf heap.now self.new }
        ensures same { T.SameTube teller.old.tube teller.new.tube }
    {
        if let Some(label) = offer_kept(teller) {
            return (from, Telling::Held { label });
        }
        let (made, turn) = self.run_loop(heap, kind, from, most);
        (made, Telling::Turned(turn))
    }

    /// What became of the sets of possible garbage cycles that were tested since the opening.
    pub fn sets(&self) -> Sets
        ensures { result ≡ (collector_now self.now).sets }
    {
        self.machine.sets()
    }

    /// The epoch that it requested last.
    pub fn epoch(&self) -> u32
        ensures { result ≡ (collector_now self.now).epoch }
    {
        self.machine.epoch()
    }

    // Gives back a mailbox that it holds, by a turn.
    pub(crate) fn put_back(&mut self, board: &Board)
        requires own { IsOwn board.now.table.shared.table_id board.now.table.shared.key.value self.old }
        requires world { IsWorld board.now.table.shared.key.value }

        ensures none { boxes_out (collector_now self.new) ≡ [] }
        ensures returned { PutsBack self.old self.new }
    {
        let _turns = self.machine.turns();
        let Some(op) = self.machine.next() else {
            return;
        };
        if gives_back(op) {
            self.turn_on(board);
        }
    }

    // Makes the seat of the next mutator.
    pub(crate) fn seat_next(
        &mut self,
        board: &Board,
        machine: Mutators,
        opened: Snapshot<Mutators>,
        cursor: u16,
    ) -> Actor
        requires own { IsOwn board.now.table.shared.table_id board.now.table.shared.key.value self.old }
        requires world { IsWorld board.now.table.shared.key.value }
        requires room { self.old.collecting.made < board.now.table.shared.key.value.config.mutators }
        requires machine { (machine ≡ opened.value) × (opened.value ≡ mutator board.now.table.shared.key.value (self.old.collecting.made + 1)) }
        requires idle { is_busy machine ≡ false }

        ensures actor { result ≡ record { table = self.old.table; number = self.old.collecting.made + 1; opened = opened.value; log = [] } }
        ensures is { self.new ≡ record self.old { collecting = record self.old.collecting { made = self.old.collecting.made + 1 } } }
    {
        let seat = split_seat(board, &mut self.seat);
        Actor::sat(machine, opened, seat, cursor)
    }

    // Takes in the list of the next mutator, and gives its machine and its births.
    pub(crate) fn take_in(&mut self, board: &Board, other: Actor) -> (Mutators, u64)
        requires table { (self.old.table ≡ board.now.table.shared.table_id) × (other.table ≡ board.now.table.shared.table_id) }
        requires number { other.number ≡ length self.old.collecting.known + 1 }
        requires idle { is_busy (mutator_now other) ≡ false }

        ensures machine { result.0 ≡ mutator_now other }
        ensures births { result.1 ≡ births_told other.opened other.log % 2 ^ 64 }
        ensures is { self.new ≡ record self.old { collecting = record self.old.collecting { known = self.old.collecting.known ++ other.log ∷ [] } } }
    {
        let (machine, births, seat) = other.stood();
        join_seat(board, &mut self.seat, seat);
        (machine, births)
    }
}
