//! A mutator on the table.
ghost use Rattle.std.specs.Prelude.{◌≡◌, ◌<◌, ◌≤◌, ◌↔◌, [], ◌++◌, false, true, length, Option, IfSome, IsTrue};
ghost use Rattle.rec_mutator.specs.Next.{next_of};
ghost use Rattle.rec_mutator.specs.Private.{is_busy, is_full, register, HasOperands, IsMachine, KeepsSizes};
ghost use Rattle.rec_mutator.specs.Step.{NamesSlots};
ghost use Rattle.rec_mutator.specs.Took.{IsBetween, IsFound};
ghost use Rattle.rec_mutator.specs.declared.phase.Phase.TheVariants.{Begun};
ghost use Rattle.rec_table.specs.Views.{mutator_view, mutator_now, IsOf};
ghost use Rattle.rec_table.specs.Beats.{told, learnt};
ghost use Rattle.rec_core.specs.Row.{index_of};
ghost use Rattle.rec_table.specs.Rule.{ready, MayBegin, MayGo, MayLearn, beats, longer, seated_of, hands, me_after};
ghost use Rattle.rec_table.specs.declared.views.Beat.TheVariants.{Saw};
ghost use Rattle.rec_table.specs.declared.views.View.TheVariants.{Mutates};
ghost use Rattle.rec_core.specs.Core.{mutator};
ghost use Rattle.rec_core.specs.Cells.{births_of};
ghost use Rattle.rec_world.specs.World.{IsWorld};

mod straight;

use crate::board::Board;
use crate::operating::{compare_exchange, load, swap};
use crate::rule::{Doing, Gives, Makes, Takes};
use crate::scan::first_free;
use crate::start::Start;
use crate::views::View;
use atomic_table::Seat;
use rec_log::Buffer;
use rec_model::Cmd;
use rec_mutator::{Machine, Made, Work};
use rec_word::{Mailbox, Op, crossing};
use rec_world::swap_own;
use std::marker::{Brand, Model};
use std::snapshot::Snapshot;

#[derive(Drop)]
pub struct Actor {
    machine: Machine,
    opened: Snapshot<Machine>,
    seat: Seat<Option<Buffer>, View>,
    // How many objects it made, which no other thread counts.
    births: u64,
    // Where its next scan begins: behind the slot that it claimed last, or with slot 0, if no slot is behind that.
    cursor: u16,
}

impl Model for Actor {
    ghost use Rattle.std.specs.Prelude.{◌≡◌, ◌%◌, ◌^◌, []};
    ghost use Rattle.rec_mutator.specs.Private.{KeepsSizes};
    ghost use Rattle.rec_mutator.specs.Step.{NamesSlots};
    ghost use Rattle.rec_mutator.specs.Took.{IsBetween};
    ghost use Rattle.rec_table.specs.declared.views.View.TheVariants.{Mutates};
    ghost use Rattle.rec_table.specs.Beats.{told, births_told};
    ghost use Rattle.rec_table.specs.Views.{MutatorView, mutator_view};
    ghost use Rattle.rec_table.specs.Rule.{seated_of, hands};

    ghost Value = { MutatorView };

    ghost view = { λ m. mutator_view m.seat.table_id m.opened.value (seated_of m.seat.me.0) };

    ghost invariant = { λ m. (m.seat.me ≡ (Mutates (seated_of m.seat.me.0), hands (seated_of m.seat.me.0) m.machine)) × (m.machine ≡ told m.opened.value (seated_of m.seat.me.0).log) × NamesSlots m.machine × KeepsSizes m.opened.value m.machine × IsBetween m.machine.phase × (m.births ≡ births_told m.opened.value (seated_of m.seat.me.0).log % 2 ^ 64) };
}

// Makes the atomic operation of a step, and no more.
#[inline(always)]
fn make<W: Doing>(
    board: &Board,
    seat: &mut Seat<Option<Buffer>, View>,
    op: Op,
    work: Option<Start>,
) -> u64
    requires table { seat.old.table_id ≡ board.now.table.shared.table_id }
    requires seat { seat.old.me ≡ (Mutates (seated_of seat.old.me.0), hands (seated_of seat.old.me.0) (ready W.actor work)) }
    requires actor { W.actor ≡ told (mutator board.now.table.shared.key.value (seated_of seat.old.me.0).number) (seated_of seat.old.me.0).log }
    requires work { (W.work ≡ work) × MayGo W.actor work }
    requires between { IsBetween (ready W.actor work).phase }
    requires op { op ≡ next_of (ready W.actor work) }
    requires there { index_of (length board.now.table.shared.key.value.words) (length board.now.table.shared.key.value.headers) op < board.now.table.shared.table_id.words }
    ensures seat { (seat.new.table_id ≡ seat.old.table_id) × (seat.new.id ≡ seat.old.id) }
    ensures view { seat.new.me ≡ me_after (seated_of seat.old.me.0) (ready W.actor work) work result }
    ensures found { IsFound (ready W.actor work) op result }
    ensures names { NamesSlots (learnt (ready W.actor work) (Saw result)) }
{
    let _ = work;
    let word = board.index(op);
    match op {
        Op::LoadField(_) | Op::LoadHeader(_) | Op::LoadEpoch | Op::LoadCross(_) | Op::LoadFreed => {
            load::<Makes<W>>(board, seat, word)
        }
        Op::SwapField(_, new) => swap::<Makes<W>>(board, seat, word, new),
        Op::ClaimHeader(_, header) => { compare_exchange::<Makes<W>>(board, seat, word, 0, header) }
        Op::TakeBox(_, epoch) => swap::<Takes<W>>(
            board,
            seat,
            word,
            crossing(epoch, Mailbox::WithMutator),
        ),
        Op::GiveBox(_, epoch) => swap::<Gives<W>>(
            board,
            seat,
            word,
            crossing(epoch, Mailbox::Retired),
        ),
        _ => unreachable!(),
    }
}

// The machine learns the word that the step found; where it has just taken its mailbox, the retired log goes there for the buffer.
#[inline(always)]
fn learn(
    board: &Board,
    seat: &mut Seat<Option<Buffer>, View>,
    machine: &mut Machine,
    work: Option<Start>,
    op: Op,
    word: u64,
)
    requires table { seat.old.table_id ≡ board.now.table.shared.table_id }
    requires may { MayLearn machine.old work op word seat.old.me }
    ensures seat { (seat.new.table_id ≡ seat.old.table_id) × (seat.new.id ≡ seat.old.id) }
    ensures machine { machine.new ≡ learnt machine.old (Saw word) }
    ensures same { KeepsSizes machine.old machine.new }
    ensures between { IsBetween machine.new.phase }
    ensures me { seat.new.me ≡ (seat.old.me.0, hands (seated_of seat.old.me.0) machine.new) }
{
    // A first step takes no mailbox.
    if let Some(start) = work {
        machine.took_first(start.work, word);
        return;
    }
    match op {
        Op::TakeBox(t, _) => {
            machine.took(word);
            let mailbox = seat.slot_mut(&board.table.shared, usize::from(t) - 1);
            swap_own(machine, mailbox);
        }
        _ => machine.took(word),
    }
}

#[inline(always)]
fn prepare(machine: &mut Machine, work: Option<Start>)
    requires may { MayGo machine.old work }
    requires awake { machine.old.parked ≡ false }
    ensures ready { machine.new ≡ ready machine.old work }
    ensures begun { IfSome work (λ start. machine.new.phase ≡ Begun start.work) }
    ensures busy { is_busy machine.new ≡ true }
    ensures same { KeepsSizes machine.old machine.new }
    ensures kept { IsMachine machine.new }
{
    if let Some(start) = work {
        machine.begin(start.work, start.from);
    }
    let _steps = machine.steps();
}

// How many objects a step made.
#[inline(always)]
fn births(op: Op, found: u64) -> u64
    ensures { result ≡ births_of op found }
{
    match op {
        Op::ClaimHeader(_, _) => { if found == 0 { 1 } else { 0 } }
        _ => 0,
    }
}

// Where the next scan begins after this step: behind the slot that it claimed.
#[inline(always)]
fn cursor_after(op: Op, cursor: u16) -> u16 {
    match op {
        Op::ClaimHeader(slot, _) => slot.wrapping_add(1),
        _ => cursor,
    }
}

impl Actor {
    ghost use Rattle.std.specs.Prelude.{◌+◌, ◌%◌, ◌^◌, ◌≤◌, ℕ, List, Some, IfSome};
    ghost use Rattle.rec_mutator.specs.Private.{Private};
    ghost use Rattle.rec_table.specs.Straight.{Path};
    ghost use Rattle.rec_table.specs.declared.start.Start.{Start as Starts};
    ghost use Rattle.rec_table.specs.declared.views.Beat.{Beat};
    ghost use Rattle.rec_table.specs.Beats.{births_told};
    ghost use Rattle.rec_mutator.specs.Private.{work_of, answer_of, limit_of};
    ghost use Rattle.rec_model.specs.declared.command.Cmd.{Cmd as Command};
    ghost use Rattle.rec_model.specs.declared.told.Told.{Told as Answers};
    ghost use Rattle.rec_mutator.specs.declared.made.Made.TheVariants as makes;
    ghost use Rattle.rec_mutator.specs.declared.work.Work.TheVariants as works;
    ghost use Rattle.rec_table.specs.Answered.{IsAnswered, IsPolled, Leaves};
    ghost use Rattle.rec_table.specs.Views.{HasEnded, IsTold, Works};
    ghost use Rattle.rec_table.specs.Journals.{Tells, line_of};
    ghost use Rattle.rec_table.specs.Scan.{HasScanned};

    // The actor of a mutator as the heap is started, and where its first scan begins.
    pub(crate) fn sat(
        machine: Machine,
        opened: Snapshot<Machine>,
        seat: Seat<Option<Buffer>, View>,
        cursor: u16,
    ) -> Actor
        requires seat { (seat.me ≡ (Mutates (seated_of seat.me.0), [])) × ((seated_of seat.me.0).log ≡ []) }
        requires machine { (machine ≡ opened.value) × (is_busy machine ≡ false) × NamesSlots machine × IsBetween machine.phase }
        ensures { result ≡ mutator_view seat.table_id opened.value (seated_of seat.me.0) }
    {
        Actor {
            machine,
            opened,
            seat,
            births: 0,
            cursor,
        }
    }

    // Its machine, its births and its seat, where it has no unfinished work.
    pub(crate) fn stood(self) -> (Machine, u64, Seat<Option<Buffer>, View>)
        requires { is_busy (mutator_now self) ≡ false }
        ensures machine { result.0 ≡ mutator_now self }
        ensures births { result.1 ≡ births_told self.opened self.log % 2 ^ 64 }
        ensures seat { (result.2.table_id ≡ self.table) × (result.2.me ≡ (Mutates (seated_of result.2.me.0), [])) }
        ensures list { ((seated_of result.2.me.0).number ≡ self.number) × ((seated_of result.2.me.0).log ≡ self.log) }
    {
        let Actor {
            machine,
            opened: _,
            seat,
            births,
            cursor: _,
        } = self;
        (machine, births, seat)
    }

    /// One step, which begins a work first, or goes on with one.
    #[inline(always)]
    pub fn step(&mut self, board: &Board, work: Option<Start>) -> u64
        requires own { IsOf board.now.table.shared.table_id board.now.table.shared.key.value self.old }
        requires world { IsWorld board.now.table.shared.key.value }
        requires may { MayGo (mutator_now self.old) work }

        ensures grows { self.new ≡ record self.old { log = self.old.log ++ beats work result } }
        ensures learns { mutator_now self.new ≡ learnt (ready (mutator_now self.old) work) (Saw result) }
        ensures steps { (mutator_now self.new).steps ≡ (ready (mutator_now self.old) work).steps + 1 }
        ensures work { work_of (mutator_now self.new) ≡ work_of (ready (mutator_now self.old) work) }
        ensures limit { IfSome (work_of (mutator_now self.new)) (λ work. (mutator_now self.new).steps ≤ limit_of (mutator_now self.new).slots work) }
        ensures same { KeepsSizes (mutator_now self.old) (mutator_now self.new) }
        ensures told { IsTold (mutator_now self.new).phase }
        ensures machine { IsMachine (ready (mutator_now self.old) work) }
        ensures between { IsBetween (ready (mutator_now self.old) work).phase }
    {
        prepare(&mut self.machine, work);
        let op = self.machine.next();
        let word = make::<Brand>(board, &mut self.seat, op, work);
        learn(board, &mut self.seat, &mut self.machine, work, op, word);
        self.births = self.births.wrapping_add(births(op, word));
        self.cursor = cursor_after(op, self.cursor);
        let _steps = self.machine.steps();
        word
    }

    // Makes the failing probes that come next, if it makes a scan. The machine learns of all of them at once.
    fn scan(&mut self, board: &Board)
        requires own { IsOf board.now.table.shared.table_id board.now.table.shared.key.value self.old }
        requires world { IsWorld board.now.table.shared.key.value }
        requires busy { is_busy (mutator_now self.old) ≡ true }

        ensures scanned { HasScanned self.old self.new }
        ensures steps { (mutator_now self.old).steps ≤ (mutator_now self.new).steps }
        ensures busy { is_busy (mutator_now self.new) ≡ true }
        ensures work { work_of (mutator_now self.new) ≡ work_of (mutator_now self.old) }
        ensures same { KeepsSizes (mutator_now self.old) (mutator_now self.new) }
    {
        let steps = self.machine.steps();
        if let Op::ClaimHeader(slot, _) = self.machine.next() {
            // Behind the last claim a header is mostly free, and then no probe fails.
            if board.finds_free(slot) {
                return;
            }
            // The first step loaded the freed word, and each other one was a probe.
            let probed = steps as usize - 1;
            let count = first_free(board, &mut self.seat, probed, usize::from(slot));
            self.machine.skip_to(count as u16);
        }
    }

    // The slot with which its next scan begins.
    #[inline(always)]
    fn next_scan(&self, board: &Board) -> u16
        requires own { IsOf board.now.table.shared.table_id board.now.table.shared.key.value self.now }
        requires world { IsWorld board.now.table.shared.key.value }

        ensures from { result < (mutator_now self.now).slots }
        ensures there { result < board.now.layout.slots }
    {
        let _steps = self.machine.steps();
        if usize::from(self.cursor) < board.layout.slots {
            self.cursor
        } else {
            0
        }
    }

    // What came of the last work, if it is finished.
    #[inline(always)]
    pub(crate) fn answer(&self) -> Option<Made>
        ensures answer { result ≡ answer_of (mutator_now self.now) }
    {
        self.machine.answer()
    }

    // Whether the registers and the field are there that it would be asked of.
    #[inline(always)]
    pub(crate) fn valid(&self, cmd: &Cmd) -> bool
        ensures { IsTrue result ↔ HasOperands (mutator_now self.now) cmd.now }
    {
        self.machine.valid(cmd)
    }

    // Whether it has left.
    #[inline(always)]
    pub(crate) fn left(&self) -> bool
        ensures { result ≡ (mutator_now self.now).left }
    {
        self.machine.has_left()
    }

    // Whether its log has no room for another entry.
    #[inline(always)]
    pub(crate) fn is_full(&self) -> bool
        ensures { result ≡ is_full (mutator_now self.now) }
    {
        self.machine.is_full()
    }

    // What register `r` names.
    #[inline(always)]
    pub(crate) fn register(&self, r: u8) -> Option<u16>
        requires { r < length (mutator_now self.now).registers }
        ensures { result ≡ register (mutator_now self.now) r }
    {
        self.machine.register(r)
    }

    // The epoch that it is in.
    #[inline(always)]
    pub(crate) fn epoch(&self) -> u32
        ensures { result ≡ (mutator_now self.now).epoch }
    {
        self.machine.epoch()
    }

    // Its number.
    #[inline(always)]
    pub(crate) fn number(&self) -> u8
        ensures { result ≡ (mutator_now self.now).number }
    {
        self.machine.number()
    }

    // Makes the steps of a work that is under way, to its end.
    #[inline(never)]
    fn go_on(&mut self, board: &Board, work: Work) -> Made
        requires own { IsOf board.now.table.shared.table_id board.now.table.shared.key.value self.old }
        requires world { IsWorld board.now.table.shared.key.value }
        requires work { work_of (mutator_now self.old) ≡ Some work }
        requires told { IsTold (mutator_now self.old).phase }

        ensures is { self.new ≡ record self.old { log = self.new.log } }
        ensures answer { answer_of (mutator_now self.new) ≡ Some result }
        ensures work { work_of (mutator_now self.new) ≡ Some work }
        ensures told { IsTold (mutator_now self.new).phase }
        // As the work went on so far, from whichever record and list, it goes on.
        ensures path { (start : Starts) (p : Private) (log : List Beat) → start.work ≡ work → Path start p log self.old.log (mutator_now self.old) → Path start p log self.new.log (mutator_now self.new) }
        ensures grows { (log : List Beat) → Works work log self.old.log → Works work log self.new.log }
        ensures same { KeepsSizes (mutator_now self.old) (mutator_now self.new) }
    {
        loop {
            if let Some(made) = self.answer() {
                return made;
            }
            self.scan(board);
            self.step(board, None);
        }
    }

    /// Begins a work and makes its steps to the end.
    #[inline(always)]
    pub fn work(&mut self, board: &Board, work: Work) -> Made
        requires own { IsOf board.now.table.shared.table_id board.now.table.shared.key.value self.old }
        requires world { IsWorld board.now.table.shared.key.value }
        requires may { MayBegin (mutator_now self.old) work }

        ensures grows { Works work self.old.log self.new.log × (self.new ≡ record self.old { log = self.new.log }) }
        ensures ended { HasEnded work result (mutator_now self.new) }
        ensures line { Tells (mutator_now self.old) self.old.log self.new.log (line_of (Some work) (Some result)) }
        ensures same { KeepsSizes (mutator_now self.old) (mutator_now self.new) }
        // A command's refusals have their causes in the list.
        ensures causes { (cmd : Command) (told : Answers) → work ≡ works.Command cmd → result ≡ makes.Answered told → IsAnswered (mutator_now self.old) cmd self.old.log self.new.log (mutator_now self.new) told }
        // It has left where that was the work, and is done.
        ensures leaves { (cmd : Command) (told : Answers) → work ≡ works.Command cmd → result ≡ makes.Answered told → Leaves (mutator_now self.old) cmd told (mutator_now self.new) }
        ensures polled { (epoch : Option ℕ) → work ≡ works.Poll → result ≡ makes.Crossed epoch → IsPolled (mutator_now self.old) self.old.log self.new.log epoch }
        ensures stays { work ≡ works.Poll → (mutator_now self.new).left ≡ (mutator_now self.old).left }
    {
        let from = self.next_scan(board);
        self.step(board, Some(Start { work, from }));
        self.go_on(board, work)
    }
}
