ghost use Rattle.std.specs.Prelude.{◌≡◌, ◌⊎◌, ◌+◌, ◌^◌, ◌<◌, ◌≤◌, ◌↔◌, true, false, All, length, IfOk, IfSome, IsNone, IsTrue};
ghost use Rattle.rec_word.specs.Place.{place_of};
ghost use Rattle.rec_word.specs.Word.{IsTarget};
ghost use Rattle.rec_mutator.specs.Private.{Private, opened, register, is_full, word_for, probe_of, is_busy, work_of, answer_of, HasOperands, IsValid, limit_of, HasStamp, IsMachine, KeepsSizes};
ghost use Rattle.rec_mutator.specs.Next.{next_of, begun_op, first_op, own_word, shift_of, write_op};
ghost use Rattle.rec_mutator.specs.Causes.{HasCause, PollHasCause};
ghost use Rattle.rec_mutator.specs.declared.made.Made.TheVariants as makes;
ghost use Rattle.rec_mutator.specs.declared.work.Work.TheVariants as works;
ghost use Rattle.rec_model.specs.declared.command.Cmd.{Cmd as Command};
ghost use Rattle.rec_model.specs.declared.told.Told.{Told as Answered};
ghost use Rattle.rec_mutator.specs.Took.{begun_of, took_of, skipped_to, spare, swapped_of, IsAhead, IsFound, IsSwapping, IsBetween};
ghost use Rattle.rec_mutator.specs.declared.phase.Phase.TheVariants.{Begun};

mod learning;
mod parking;
mod straight;

use crate::passage::Passage;
use crate::phase::Phase;
use crate::{Made, Work};
use rec_log::{Buffer, Entry, Frame};
use rec_model::Cmd;
use rec_word::{Header, Op, Shift, Stamp, pack, place};
use std::alloc::{AllocError as NoMemory, Global};
use std::marker::Model;
use std::mem;

/// A mutator: its registers, its log, and how far its work has come. Its memory is taken when it is opened.
#[derive(Drop)]
pub struct Machine {
    number: u8,
    epoch: u32,
    slots: u16,
    fields: u8,
    frame: Frame,
    log: Buffer,
    // The slot with which a scan begins.
    from: u16,
    phase: Phase,
    steps: u32,
    left: bool,
    parked: bool,
}

impl Model for Machine {
    ghost use Rattle.rec_mutator.specs.Private.{Private};

    ghost Value = { Private };

    ghost use Rattle.rec_mutator.specs.Inside.{private, IsKept};

    ghost view = { private };

    ghost invariant = { IsKept };
}

// Most works end with their first step. The hints on inlining put it in where the work is begun, since there its phase is
// known, and most of what the step asks is settled beforehand.
impl Machine {
    /// Mutator `number` of a heap with so many slots and fields per object, in this epoch, with no work. Its registers name
    /// these slots, in order, and it has a log for `cap` entries.
    pub fn open(
        alloc: Global,
        number: u8,
        epoch: u32,
        slots: u16,
        fields: u8,
        registers: &[Option<u16>],
        cap: u32,
    ) -> Result<Machine, NoMemory>
        requires number { number < 2 ^ 6 }
        requires epoch { epoch < 2 ^ 24 }
        requires slots { 0 < slots }
        requires registers { length registers.now < 2 ^ 8 }
        requires targets { All IsTarget registers.now }
        requires capacity { cap ≤ 2 ^ 18 }

        ensures opened { IfOk result (λ machine. machine ≡ opened number epoch slots fields registers.now (length registers.now) cap) }
        ensures kept { IfOk result IsMachine }
    {
        let frame = Frame::of(alloc, registers)?;
        let log = Buffer::open(alloc, cap, registers.len() as u8)?;
        Ok(Machine {
            number,
            epoch,
            slots,
            fields,
            frame,
            log,
            from: 0,
            phase: Phase::Idle,
            steps: 0,
            left: false,
            parked: false,
        })
    }

    /// Begins a work. No step of it is made. A scan for a free slot is to begin with slot `from` and go round once; where the
    /// work makes none, `from` says nothing.
    #[tactic(auto, unfolding(crate::specs::Took::begun_of))]
    pub fn begin(&mut self, work: Work, from: u16)
        requires idle { is_busy self.old ≡ false }
        requires stays { self.old.left ≡ false }
        requires awake { self.old.parked ≡ false }
        requires valid { IsValid self.old work }
        requires from { from < self.old.slots }

        ensures begun { self.new ≡ begun_of self.old work from }
        ensures same { KeepsSizes self.old self.new }

        // It is the work now, and its steps are counted from here.
        ensures busy { is_busy self.new ≡ true }
        ensures work { work_of self.new ≡ Some work }
        ensures steps { self.new.steps ≡ 0 }
        ensures kept { IsMachine self.new }
    {
        self.from = from;
        self.phase = Phase::Begun { work };
        self.steps = 0;
    }

    /// The operation of the next step.
    #[tactic(auto, unfolding(crate::specs::Next::next_of, crate::specs::Next::next_at))]
    #[inline(always)]
    pub fn next(&self) -> Op
        requires busy { is_busy self.now ≡ true }
        ensures { result ≡ next_of self.now }
    {
        match self.phase {
            Phase::Begun { work } => self.begun(work),
            Phase::Scanning {
                label,
                leaf,
                probed,
                ..
            } => Op::ClaimHeader(self.probe(probed), Header { label, leaf }.pack()),
            Phase::Scanned { .. } => Op::LoadFreed,
            Phase::Storing {
                field,
                val,
                slot,
                ..
            } => Op::SwapField(self.place_of(slot, field), self.word_for(val)),
            Phase::Crossing | Phase::Leaving => Op::TakeBox(self.number, self.epoch + 1),
            Phase::Swapping | Phase::Giving | Phase::Retiring | Phase::Parting => Op::GiveBox(
                self.number,
                self.epoch + 1,
            ),
            Phase::Idle | Phase::Finished { .. } => self.own_word(),
            Phase::Passing { passage } => Op::ShiftBox(self.number, shift(passage)),
        }
    }

    /// Learns the word that the operation of `next` found: the step is made.
    #[inline(always)]
    pub fn took(&mut self, word: u64)
        requires busy { is_busy self.old ≡ true }
        requires between { IsBetween self.old.phase }
        requires found { IsFound self.old (next_of self.old) word }

        ensures took { self.new ≡ took_of self.old word }
        ensures same { KeepsSizes self.old self.new }

        // A command is refused exactly where its cause is, and a refusal changes no register and no log.
        ensures cause { (cmd : Command) (told : Answered) → work_of self.old ≡ Some (works.Command cmd) → answer_of self.new ≡ Some (makes.Answered told) → HasCause self.old self.new cmd word told.answer }

        // A poll tells that it crossed nowhere exactly where the epoch word was the own epoch; else it tells the epoch after the
        // own one, in which the mutator is then.
        ensures polled { PollHasCause self.old self.new word }

        // Each step counts, and a work ends in time.
        ensures steps { self.new.steps ≡ self.old.steps + 1 }
        ensures work { work_of self.new ≡ work_of self.old }
        ensures limit { IfSome (work_of self.new) (λ work. self.new.steps ≤ limit_of self.new.slots work) }
        ensures kept { IsMachine self.new }
    {
        self.learn(word);
    }

    /// Learns the word that the first step of this work found: the same as `took`, for who knows which work was begun.
    #[tactic(auto, unfolding(crate::specs::Next::next_of, crate::specs::Next::next_at, crate::specs::Took::took_of, crate::specs::Took::took_at))]
    #[inline(always)]
    pub fn took_first(&mut self, work: Work, word: u64)
        requires begun { self.old.phase ≡ Begun work }
        requires found { IsFound self.old (next_of self.old) word }

        ensures took { self.new ≡ took_of self.old word }
        ensures same { KeepsSizes self.old self.new }
        ensures cause { (cmd : Command) (told : Answered) → work_of self.old ≡ Some (works.Command cmd) → answer_of self.new ≡ Some (makes.Answered told) → HasCause self.old self.new cmd word told.answer }
        ensures polled { PollHasCause self.old self.new word }
        ensures steps { self.new.steps ≡ self.old.steps + 1 }
        ensures work { work_of self.new ≡ work_of self.old }
        ensures limit { IfSome (work_of self.new) (λ work. self.new.steps ≤ limit_of self.new.slots work) }
        ensures kept { IsMachine self.new }
    {
        let _steps = self.steps();
        self.took_begun(work, word);
    }

    /// Makes the probes of a scan that come next, until it has made `count` of them: as many steps as it makes, each of which
    /// has to find a taken slot. Where no scan is under way nothing changes.
    #[tactic(auto, unfolding(crate::specs::Took::skipped_to, crate::specs::Took::skipped_at))]
    pub fn skip_to(&mut self, count: u16)
        requires ahead { IsAhead self.old.phase count }
        requires slots { count ≤ self.old.slots }

        ensures skipped { self.new ≡ skipped_to self.old count }
        ensures same { KeepsSizes self.old self.new }
        ensures busy { is_busy self.new ≡ is_busy self.old }
        ensures work { work_of self.new ≡ work_of self.old }
        ensures kept { IsMachine self.new }
    {
        if let Phase::Scanning {
            reg,
            label,
            leaf,
            before,
            probed,
        } = self.phase
        {
            self.steps += u32::from(count - probed);
            self.phase = if count == self.slots {
                Phase::Scanned {
                    reg,
                    label,
                    leaf,
                    before,
                }
            } else {
                Phase::Scanning {
                    reg,
                    label,
                    leaf,
                    before,
                    probed: count,
                }
            };
        }
    }

    /// Takes the buffer of the own mailbox, which is held, as the log, and gives the retired log that takes its place there.
    #[tactic(auto, unfolding(crate::specs::Took::swapped_of, crate::specs::Took::swapped_at))]
    pub fn swap_box(&mut self, buffer: Buffer) -> Buffer
        requires swapping { IsSwapping self.old.phase }
        requires spare { buffer ≡ spare self.old }

        ensures given { result ≡ self.old.log }
        ensures swapped { self.new ≡ swapped_of self.old buffer }
        ensures same { KeepsSizes self.old self.new }
        ensures work { work_of self.new ≡ work_of self.old }
        ensures kept { IsMachine self.new }
    {
        self.phase = match self.phase {
            Phase::Retiring => Phase::Parting,
            _ => Phase::Giving,
        };
        mem::replace(&mut self.log, buffer)
    }

    /// What came of the last work, or `None` where none was begun yet or it isn't finished.
    #[inline(always)]
    pub fn answer(&self) -> Option<Made>
        ensures answer { result ≡ answer_of self.now }
        ensures none { IsNone result ↔ (IsNone (work_of self.now) ⊎ (is_busy self.now ≡ true)) }
    {
        match self.phase {
            Phase::Finished { made, .. } => Some(made),
            _ => None,
        }
    }

    /// Whether a work was begun that isn't finished.
    pub fn is_busy(&self) -> bool
        ensures { result ≡ is_busy self.now }
    {
        match self.phase {
            Phase::Idle | Phase::Finished { .. } => false,
            _ => true,
        }
    }

    /// Whether the mutator has left: nothing more may be asked of it.
    #[inline(always)]
    pub fn has_left(&self) -> bool
        ensures { result ≡ self.now.left }
    {
        self.left
    }

    /// Whether the own mailbox is held and its buffer waits to be swapped: then `swap_box` comes next.
    pub fn is_swapping(&self) -> bool
        ensures { IsTrue result ↔ IsSwapping self.now.phase }
    {
        matches!(self.phase, Phase::Swapping | Phase::Retiring)
    }

    /// What register `r` names.
    #[inline(always)]
    pub fn register(&self, r: u8) -> Option<u16>
        requires { r < length self.now.registers }
        ensures { result ≡ register self.now r }
    {
        self.frame.read(r)
    }

    /// What the registers name, in order.
    pub fn registers(&self) -> &[Option<u16>]
        ensures { result.now ≡ self.now.registers }
    {
        self.frame.registers()
    }

    /// The epoch that the mutator is in.
    #[inline(always)]
    pub fn epoch(&self) -> u32
        ensures { result ≡ self.now.epoch }
    {
        self.epoch
    }

    /// The slot with which the last scan began.
    #[inline(always)]
    pub fn from(&self) -> u16
        ensures from { result ≡ self.now.from }
        ensures kept { IsMachine self.now }
    {
        self.from
    }

    /// The entries of its log, in order.
    pub fn entries(&self) -> &[Entry]
        ensures { result.now ≡ self.now.log.entries }
    {
        self.log.entries()
    }

    /// How many steps were made since the last `begin`.
    #[inline(always)]
    pub fn steps(&self) -> u32
        ensures steps { result ≡ self.now.steps }
        ensures limit { IfSome (work_of self.now) (λ work. result ≤ limit_of self.now.slots work) }
        ensures kept { IsMachine self.now }
    {
        self.steps
    }

    /// Its number.
    #[inline(always)]
    pub fn number(&self) -> u8
        ensures { result ≡ self.now.number }
    {
        self.number
    }

    /// Whether it may be asked this: the registers and the field that the command names are there.
    #[inline(always)]
    pub fn valid(&self, cmd: &Cmd) -> bool
        ensures { IsTrue result ↔ HasOperands self.now cmd.now }
    {
        cmd.has_operands(self.frame.registers().len(), usize::from(self.fields))
    }

    // The operation of a work's first step.
    #[inline(always)]
    fn begun(&self, work: Work) -> Op
        requires { IsValid self.now work }
        ensures { result ≡ begun_op self.now work }
    {
        match work {
            Work::Command(cmd) => self.first(cmd),
            Work::Poll => Op::LoadEpoch,
        }
    }

    // The operation of a command's first step.
    #[inline(always)]
    fn first(&self, cmd: Cmd) -> Op
        requires { HasOperands self.now cmd }
        ensures { result ≡ first_op self.now cmd }
    {
        match cmd {
            Cmd::New { .. } | Cmd::Leaf { .. } => {
                if self.is_full() {
                    self.own_word()
                } else {
                    Op::LoadFreed
                }
            }
            Cmd::Null { .. }
            | Cmd::Copy { .. }
            | Cmd::Same { .. }
            | Cmd::Leave
            | Cmd::Park
            | Cmd::Unpark => self.own_word(),
            Cmd::Get { src, field, .. } => match self.frame.read(src) {
                Some(slot) => Op::LoadField(self.place_of(slot, field)),
                None => self.own_word(),
            },
            Cmd::Put { src, .. } => self.first_of_put(src),
            Cmd::Value { reg } => match self.frame.read(reg) {
                Some(slot) => Op::LoadHeader(slot),
                None => self.own_word(),
            },
        }
    }

    // The operation of a write's first step.
    #[inline(always)]
    fn first_of_put(&self, src: u8) -> Op
        requires { src < length self.now.registers }
        ensures { result ≡ write_op self.now (register self.now src) (is_full self.now) }
    {
        let Some(slot) = self.frame.read(src) else {
            return self.own_word();
        };
        if self.is_full() {
            return self.own_word();
        }
        Op::LoadHeader(slot)
    }

    // The slot that a scan probes after so many others.
    #[inline(always)]
    fn probe(&self, count: u16) -> u16
        requires { count < self.now.slots }
        ensures { result ≡ probe_of self.now count }
    {
        // A division would take longer than all else that a probe does.
        let behind = self.slots - self.from;
        if count < behind {
            self.from + count
        } else {
            count - behind
        }
    }

    /// Whether its log has no room for another entry.
    #[inline(always)]
    pub fn is_full(&self) -> bool
        ensures { result ≡ is_full self.now }
    {
        self.log.is_full()
    }

    // The step of what is decided without a shared word.
    fn own_word(&self) -> Op
        ensures { result ≡ own_word self.now }
    {
        Op::LoadCross(self.number)
    }

    /// The place of a field of the object in a slot.
    #[inline(always)]
    pub fn place_of(&self, slot: u16, field: u8) -> u32
        requires { field < self.now.fields }
        ensures { result ≡ place_of slot field self.now.fields }
    {
        place(slot, field, self.fields)
    }

    /// The word that leads where a register does, with the stamp of the next log entry.
    #[inline(always)]
    pub fn word_for(&self, r: u8) -> u64
        requires register { r < length self.now.registers }
        requires room { length self.now.log.entries < self.now.log.capacity }
        requires stamp { HasStamp self.now }

        ensures { result ≡ word_for self.now r }
    {
        let stamp = Stamp {
            writer: self.number,
            epoch: self.epoch,
            index: self.log.entries().len() as u32,
        };
        pack(self.frame.read(r), stamp)
    }
}

// The next step of a mutator that parks or unparks.
#[inline(always)]
fn shift(passage: Passage) -> Shift
    ensures { result ≡ shift_of passage }
{
    match passage {
        Passage::Parks => Shift::Hold,
        Passage::Holds | Passage::Deposits => Shift::Park,
        Passage::Unparks => Shift::Unpark,
        Passage::Reopens | Passage::Frees => Shift::Free,
    }
}
