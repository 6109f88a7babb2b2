//! The usual works of a mutator on the table, each in straight code: its operations come one after the other, and behind the last one
//! the machine learns of all of them at once.
ghost use Rattle.std.specs.Prelude.{◌≡◌, ◌<◌, [], Some, IfSome, IsSome, false, length};
ghost use Rattle.rec_mutator.specs.declared.work.Work.TheVariants as works;
ghost use Rattle.rec_model.specs.Asking.{allocation};
ghost use Rattle.rec_model.specs.declared.answer.Answer.TheVariants as answers;
ghost use Rattle.rec_model.specs.declared.command.Cmd.TheVariants as commands;
ghost use Rattle.rec_mutator.specs.Next.{next_of};
ghost use Rattle.rec_mutator.specs.Private.{IsMachine, is_full, register};
ghost use Rattle.rec_mutator.specs.Took.{IsFound};
ghost use Rattle.rec_table.specs.Beats.{learnt};
ghost use Rattle.rec_table.specs.Rule.{MayBegin, MayGo, beats, longer, ready, seated_of};
ghost use Rattle.rec_table.specs.Straight.{Bears, Carries, IsPlainOp, Polled, Stands, record_of};
ghost use Rattle.rec_table.specs.Views.{IsOf, mutator_now};
ghost use Rattle.rec_table.specs.declared.views.Beat.TheVariants.{Saw};
ghost use Rattle.rec_table.specs.declared.views.View.TheVariants.{Mutates};
ghost use Rattle.rec_world.specs.World.{IsWorld};

use super::{Actor, make};
use crate::board::Board;
use crate::start::Start;
use crate::views::View;
use atomic_table::Seat;
use rec_log::Buffer;
use rec_model::{Answer, Cmd};
use rec_mutator::{Made, Work};
use rec_word::{Header, Op};
use std::marker::Brand;

// Makes the atomic operation of a step that moves no mailbox, with which a work may begin. The machine learns nothing of it.
#[inline(always)]
fn perform(board: &Board, seat: &mut Seat<Option<Buffer>, View>, op: Op, work: Option<Start>) -> u64
    requires table { seat.old.table_id ≡ board.now.table.shared.table_id }
    requires world { IsWorld board.now.table.shared.key.value }
    requires stands { Stands board.now.table.shared.key.value seat.old.me }
    requires may { MayGo (record_of board.now.table.shared.key.value seat.old.me) work }
    requires machine { IsMachine (ready (record_of board.now.table.shared.key.value seat.old.me) work) }
    requires op { op ≡ next_of (ready (record_of board.now.table.shared.key.value seat.old.me) work) }
    requires plain { IsPlainOp op }
    ensures seat { (seat.new.table_id ≡ seat.old.table_id) × (seat.new.id ≡ seat.old.id) }
    ensures me { seat.new.me ≡ (Mutates (longer (seated_of seat.old.me.0) (beats work result)), []) }
    ensures stands { Stands board.now.table.shared.key.value seat.new.me }
    ensures learns { record_of board.now.table.shared.key.value seat.new.me ≡ learnt (ready (record_of board.now.table.shared.key.value seat.old.me) work) (Saw result) }
    ensures found { IsFound (ready (record_of board.now.table.shared.key.value seat.old.me) work) op result }
{
    make::<Brand>(board, seat, op, work)
}

// The command that allocates: a leaf, or an object with fields.
#[inline(always)]
fn allocation(leaf: bool, reg: u8, label: u32) -> Cmd
    ensures { result ≡ allocation leaf reg label }
{
    if leaf {
        Cmd::Leaf { reg, label }
    } else {
        Cmd::New { reg, label }
    }
}

impl Actor {
    ghost use Rattle.std.specs.Prelude.{List};
    ghost use Rattle.rec_model.specs.declared.command.Cmd.{Cmd as Command};
    ghost use Rattle.rec_model.specs.declared.told.Told.{Told as Answers};
    ghost use Rattle.rec_mutator.specs.Private.{Private, KeepsSizes, answer_of, work_of};
    ghost use Rattle.rec_mutator.specs.declared.made.Made.TheVariants as makes;
    ghost use Rattle.rec_table.specs.Straight.{Path};
    ghost use Rattle.rec_table.specs.Views.{IsTold, Works};
    ghost use Rattle.rec_table.specs.declared.start.Start.{Start as Starts};
    ghost use Rattle.rec_table.specs.declared.views.Beat.{Beat};

    /// A read of a field of an object.
    #[inline(always)]
    pub fn get(&mut self, board: &Board, dst: u8, src: u8, field: u8) -> Answer
        requires own { IsOf board.now.table.shared.table_id board.now.table.shared.key.value self.old }
        requires world { IsWorld board.now.table.shared.key.value }
        requires may { MayBegin (mutator_now self.old) (works.Command (commands.Get dst src field)) }
        requires object { IsSome (register (mutator_now self.old) src) }

        ensures { Carries self.old self.new (commands.Get dst src field) result }
    {
        let Some(slot) = self.machine.register(src) else {
            unreachable!();
        };
        let place = self.machine.place_of(slot, field);
        let from = self.machine.from();
        let work = Work::Command(Cmd::Get { dst, src, field });
        let word = perform(
            board,
            &mut self.seat,
            Op::LoadField(place),
            Some(Start { work, from }),
        );
        self.machine.got(dst, src, field, slot, word)
    }

    /// A write of a field of an object, where the log has room.
    #[inline(always)]
    pub fn put(&mut self, board: &Board, src: u8, field: u8, val: u8) -> Answer
        requires own { IsOf board.now.table.shared.table_id board.now.table.shared.key.value self.old }
        requires world { IsWorld board.now.table.shared.key.value }
        requires may { MayBegin (mutator_now self.old) (works.Command (commands.Put src field val)) }
        requires object { IsSome (register (mutator_now self.old) src) }
        requires room { is_full (mutator_now self.old) ≡ false }

        ensures { Carries self.old self.new (commands.Put src field val) result }
    {
        let Some(slot) = self.machine.register(src) else {
            unreachable!();
        };
        let from = self.machine.from();
        let place = self.machine.place_of(slot, field);
        let left = self.machine.word_for(val);
        let work = Work::Command(Cmd::Put { src, field, val });
        let header = perform(
            board,
            &mut self.seat,
            Op::LoadHeader(slot),
            Some(Start { work, from }),
        );
        if Header::unpack(header).leaf {
            self.machine.barred(src, field, val, slot, header);
            return Answer::NoField;
        }
        let word = perform(board, &mut self.seat, Op::SwapField(place, left), None);
        self.machine
            .wrote(src, field, val, slot, header, place, left, word);
        Answer::Done
    }

    // The slot with which the next scan begins, where it is found free by a look that is no step.
    #[inline(always)]
    pub(crate) fn finds_free(&self, board: &Board) -> Option<u16>
        requires own { IsOf board.now.table.shared.table_id board.now.table.shared.key.value self.now }
        requires world { IsWorld board.now.table.shared.key.value }

        ensures { IfSome result (λ from. from < (mutator_now self.now).slots) }
    {
        let from = self.next_scan(board);
        if board.finds_free(from) {
            Some(from)
        } else {
            None
        }
    }

    /// A birth, where the log has room, whose scan begins with slot `from`. Whether that slot was won; else the scan went on, and the
    /// machine has the answer.
    #[inline(always)]
    pub fn bear(&mut self, board: &Board, reg: u8, label: u32, leaf: bool, from: u16) -> bool
        requires own { IsOf board.now.table.shared.table_id board.now.table.shared.key.value self.old }
        requires world { IsWorld board.now.table.shared.key.value }
        requires may { MayBegin (mutator_now self.old) (works.Command (allocation leaf reg label)) }
        requires room { is_full (mutator_now self.old) ≡ false }
        requires from { from < (mutator_now self.old).slots }

        ensures { Bears self.old self.new (allocation leaf reg label) result }
    {
        let _steps = self.machine.steps();
        let work = Work::Command(allocation(leaf, reg, label));
        let header = Header { label, leaf }.pack();
        let before = perform(
            board,
            &mut self.seat,
            Op::LoadFreed,
            Some(Start { work, from }),
        );
        let found = perform(board, &mut self.seat, Op::ClaimHeader(from, header), None);
        self.cursor = from.wrapping_add(1);
        if found == 0 {
            self.births = self.births.wrapping_add(1);
            self.machine.bore(reg, label, leaf, from, before);
            return true;
        }
        self.machine.lost(reg, label, leaf, from, before, found);
        self.search(board, work);
        false
    }

    // Goes on with a scan to its end. The machine has the answer.
    #[inline(never)]
    fn search(&mut self, board: &Board, work: Work)
        requires own { IsOf board.now.table.shared.table_id board.now.table.shared.key.value self.old }
        requires world { IsWorld board.now.table.shared.key.value }
        requires work { work_of (mutator_now self.old) ≡ Some work }
        requires command { (cmd : Command) × (work ≡ works.Command cmd) }
        requires told { IsTold (mutator_now self.old).phase }

        ensures is { self.new ≡ record self.old { log = self.new.log } }
        ensures answer { (told : Answers) × (answer_of (mutator_now self.new) ≡ Some (makes.Answered told)) }
        ensures path { (start : Starts) (p : Private) (log : List Beat) → start.work ≡ work → Path start p log self.old.log (mutator_now self.old) → Path start p log self.new.log (mutator_now self.new) }
        ensures grows { (log : List Beat) → Works work log self.old.log → Works work log self.new.log }
        ensures same { KeepsSizes (mutator_now self.old) (mutator_now self.new) }
    {
        match self.go_on(board, work) {
            Made::Answered(_) => {}
            Made::Crossed(_) => unreachable!(),
        }
    }

    /// A register becomes a copy of another one.
    #[inline(always)]
    pub fn copy(&mut self, board: &Board, dst: u8, src: u8)
        requires own { IsOf board.now.table.shared.table_id board.now.table.shared.key.value self.old }
        requires world { IsWorld board.now.table.shared.key.value }
        requires may { MayBegin (mutator_now self.old) (works.Command (commands.Copy dst src)) }

        ensures { Carries self.old self.new (commands.Copy dst src) answers.Done }
    {
        let number = self.machine.number();
        let from = self.machine.from();
        let work = Work::Command(Cmd::Copy { dst, src });
        let word = perform(
            board,
            &mut self.seat,
            Op::LoadCross(number),
            Some(Start { work, from }),
        );
        self.machine.copied(dst, src, word);
    }

    /// A register becomes null.
    #[inline(always)]
    pub fn null(&mut self, board: &Board, reg: u8)
        requires own { IsOf board.now.table.shared.table_id board.now.table.shared.key.value self.old }
        requires world { IsWorld board.now.table.shared.key.value }
        requires may { MayBegin (mutator_now self.old) (works.Command (commands.Null reg)) }

        ensures { Carries self.old self.new (commands.Null reg) answers.Done }
    {
        let number = self.machine.number();
        let from = self.machine.from();
        let work = Work::Command(Cmd::Null { reg });
        let word = perform(
            board,
            &mut self.seat,
            Op::LoadCross(number),
            Some(Start { work, from }),
        );
        self.machine.nulled(reg, word);
    }

    /// A look at the label of an object.
    #[inline(always)]
    pub fn value(&mut self, board: &Board, reg: u8) -> Answer
        requires own { IsOf board.now.table.shared.table_id board.now.table.shared.key.value self.old }
        requires world { IsWorld board.now.table.shared.key.value }
        requires may { MayBegin (mutator_now self.old) (works.Command (commands.Value reg)) }
        requires object { IsSome (register (mutator_now self.old) reg) }

        ensures { Carries self.old self.new (commands.Value reg) result }
    {
        let Some(slot) = self.machine.register(reg) else {
            unreachable!();
        };
        let from = self.machine.from();
        let work = Work::Command(Cmd::Value { reg });
        let header = perform(
            board,
            &mut self.seat,
            Op::LoadHeader(slot),
            Some(Start { work, from }),
        );
        self.machine.labelled(reg, slot, header)
    }

    /// A comparison of two registers.
    #[inline(always)]
    pub fn same(&mut self, board: &Board, a: u8, b: u8) -> Answer
        requires own { IsOf board.now.table.shared.table_id board.now.table.shared.key.value self.old }
        requires world { IsWorld board.now.table.shared.key.value }
        requires may { MayBegin (mutator_now self.old) (works.Command (commands.Same a b)) }

        ensures { Carries self.old self.new (commands.Same a b) result }
    {
        let number = self.machine.number();
        let from = self.machine.from();
        let work = Work::Command(Cmd::Same { a, b });
        let word = perform(
            board,
            &mut self.seat,
            Op::LoadCross(number),
            Some(Start { work, from }),
        );
        self.machine.compared(a, b, word)
    }

    /// A poll: a look at the epoch word, and, where the mutator isn't in that epoch, the steps by which it crosses.
    #[inline(always)]
    pub fn poll(&mut self, board: &Board) -> Option<u32>
        requires own { IsOf board.now.table.shared.table_id board.now.table.shared.key.value self.old }
        requires world { IsWorld board.now.table.shared.key.value }
        requires may { MayBegin (mutator_now self.old) works.Poll }

        ensures { Polled self.old self.new result }
    {
        let from = self.machine.from();
        let own = self.machine.epoch();
        let requested = perform(
            board,
            &mut self.seat,
            Op::LoadEpoch,
            Some(Start {
                work: Work::Poll,
                from,
            }),
        );
        if requested == u64::from(own) {
            self.machine.stayed(requested);
            return None;
        }
        self.machine.summoned(requested);
        self.cross(board)
    }

    // Goes on with a poll that crosses.
    #[inline(never)]
    fn cross(&mut self, board: &Board) -> Option<u32>
        requires own { IsOf board.now.table.shared.table_id board.now.table.shared.key.value self.old }
        requires world { IsWorld board.now.table.shared.key.value }
        requires work { work_of (mutator_now self.old) ≡ Some works.Poll }
        requires told { IsTold (mutator_now self.old).phase }

        ensures is { self.new ≡ record self.old { log = self.new.log } }
        ensures answer { answer_of (mutator_now self.new) ≡ Some (makes.Crossed result) }
        ensures path { (start : Starts) (p : Private) (log : List Beat) → start.work ≡ works.Poll → Path start p log self.old.log (mutator_now self.old) → Path start p log self.new.log (mutator_now self.new) }
        ensures grows { (log : List Beat) → Works works.Poll log self.old.log → Works works.Poll log self.new.log }
        ensures same { KeepsSizes (mutator_now self.old) (mutator_now self.new) }
    {
        match self.go_on(board, Work::Poll) {
            Made::Crossed(epoch) => epoch,
            Made::Answered(_) => unreachable!(),
        }
    }
}
