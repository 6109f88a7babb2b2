ghost use Rattle.std.specs.Prelude.{◌≡◌, ℕ, ◌+◌, ◌*◌, ◌%◌, ◌<◌, ◌↔◌, true, false, None, Some, All, length, map, slice_index_or, IsTrue, IsNone, IsSome, IfSome, IfOk, IfErr};
ghost use Rattle.rec_word.specs.Header.{is_leaf};
ghost use Rattle.rec_counts.specs.Counts.{slot_at};
ghost use Rattle.rec_model.specs.Heap.{opening, register, registers_of};
ghost use Rattle.rec_model.specs.Explained.{IsExplained};
ghost use Rattle.rec_model.specs.Sight.{IsTaken, Represents, NumbersSlots};
ghost use Rattle.rec_mutator.specs.Private.{is_busy, answer_of, work_of};
ghost use Rattle.rec_mutator.specs.declared.made.Made.TheVariants as makes;
ghost use Rattle.rec_mutator.specs.declared.work.Work.TheVariants as works;
ghost use Rattle.rec_collector.specs.Shown.{HasTaken};
ghost use Rattle.rec_collector.specs.declared.turn.Turn as turns;
ghost use Rattle.rec_core.specs.Config.{IsConfig, IsMutator, IsValid, IsWork, HasLabel};
ghost use Rattle.rec_core.specs.Core.{Core, sight, mutator, opened, opened_mutator};
ghost use Rattle.rec_core.specs.Moves.{begun, stepped, offering, EndsRun};
ghost use Rattle.rec_world.specs.Step.{IsStep};
ghost use Rattle.rec_core.specs.Turn.{IsTurn, step_seen};
ghost use Rattle.rec_world.specs.OpenError.{IsRefused};
ghost use Rattle.rec_world.specs.Parts.{AreParts, MakeWorld};
ghost use Rattle.rec_word.specs.Op.{written};
ghost use Rattle.rec_mutator.specs.Next.{next_of};
ghost use Rattle.rec_mutator.specs.Took.{took_of, step_of, left_of};
ghost use Rattle.rec_core.specs.Cells.{births_of, cell, with_cell};
ghost use Rattle.rec_core.specs.Unfinished.{HasFound};
ghost use Rattle.rec_core.specs.Worked.{AreIdle, StepsTo, IsWorked};
ghost use Rattle.rec_world.specs.Mailbox.{held};
ghost use Rattle.rec_world.specs.Stepping.{MakesStep};
ghost use Rattle.rec_world.specs.World.{IsWorld, MayAsk, label_of, Refuses, Changes, Stays, IsFinished, IsPolled};

mod opening;
mod runs;

use crate::mailbox::{gather, swap_own};
use crate::memory::Memory;
use crate::{Config, Numbering, OpenError, Parts};
use rec_collector::{Machine as Collector, Sets, Turn};
use rec_core::Layout;
use rec_log::Buffer;
use rec_model::{Cmd, Told};
use rec_mutator::{Machine, Made, Work};
use rec_word::{Header, Op};
use std::alloc::Global;
use std::marker::Model;

/// A heap on which the commands of one to 63 mutators run, and the turns of its collector, step by step, in any order.
#[derive(Drop)]
pub struct World {
    config: Config,
    memory: Memory,
    // Each mutator's mailbox; its buffer is out only while a step swaps it for another.
    boxes: Vec<Option<Buffer>>,
    machines: Vec<Machine>,
    collector: Collector,
    made: u64,
}

impl Model for World {
    ghost use Rattle.rec_core.specs.Core.{Core};

    ghost Value = { Core };

    ghost use Rattle.rec_world.specs.Inside.{core, IsWhole};

    ghost view = { core };

    ghost invariant = { IsWhole };
}

impl World {
    /// A heap with one object, whose label is 0, in slot 0 and in register 0 of every mutator; the collection of the epoch
    /// before the first counts as done. All its memory is taken here.
    pub fn open(alloc: Global, config: Config) -> Result<World, OpenError>
        // The first number that is out of its range is named, before any memory is asked for.
        ensures refused { IfErr result (λ error. IsRefused config error) }
        ensures config { IfOk result (λ world. IsConfig config) }

        ensures opened { IfOk result (λ world. world ≡ opened config) }
        ensures mutators { IfOk result (λ world. (t : ℕ) → IsMutator config t → mutator world t ≡ opened_mutator config t) }
        ensures stands { IfOk result (λ world. Represents (opening config.fields config.registers config.mutators) (sight world)) }
        ensures kept { IfOk result IsWorld }
    {
        if let Some(field) = config.first_wrong() {
            return Err(OpenError::Config { field });
        }
        let world = opening::open_with_one(alloc, config)?;
        Ok(world)
    }

    /// Takes the heap apart, between any two of its steps. No memory is taken or given back.
    pub fn into_parts(self) -> Parts
        ensures parts { AreParts self result }

        // The heap was one: the end of a run from its opening, with all that every heap keeps of its words and machines.
        ensures kept { IsWorld self }
    {
        let (row, free) = self.memory.into_row();
        Parts {
            config: self.config,
            row,
            boxes: self.boxes,
            machines: self.machines,
            collector: self.collector,
            made: self.made,
            free,
        }
    }

    /// Puts a heap together from its parts, as they were or as further moves left them. No memory is taken: the index of free
    /// slots is listed anew where it lay.
    pub fn of_parts(parts: Parts) -> World
        requires { MakeWorld parts }

        // It is the one world whose parts these are.
        ensures made { (w : Core) → IsWorld w → AreParts w parts → result ≡ w }
        ensures kept { IsWorld result }
    {
        let slots = parts.config.slots as usize;
        let layout = Layout::new(slots * parts.config.fields as usize, slots);
        World {
            config: parts.config,
            memory: Memory::of_row(parts.row, layout, parts.free),
            boxes: parts.boxes,
            machines: parts.machines,
            collector: parts.collector,
            made: parts.made,
        }
    }

    /// Whether mutator `t` may ask this: its number, the registers and the field are there, and it hasn't left.
    pub fn valid(&self, t: u8, cmd: &Cmd) -> bool
        ensures { IsTrue result ↔ MayAsk self.now t cmd.now }
    {
        (1..=self.config.mutators).contains(&u32::from(t))
            && self.config.has_operands(cmd)
            && !self.left(t)
    }

    /// Whether mutator `t` has left. Then its registers are null for good, the collector doesn't wait for it, and nothing is asked of
    /// it: it begins no command and no poll.
    pub fn left(&self, t: u8) -> bool
        requires { IsMutator self.now.config t }
        ensures { result ≡ (mutator self.now t).left }
    {
        self.machines[usize::from(t) - 1].has_left()
    }

    /// Whether mutator `t` has begun a work that isn't finished.
    pub fn busy(&self, t: u8) -> bool
        requires { IsMutator self.now.config t }
        ensures { result ≡ is_busy (mutator self.now t) }
    {
        self.machines[usize::from(t) - 1].is_busy()
    }

    /// Whether no mutator has begun a work that isn't finished.
    pub fn at_rest(&self) -> bool
        ensures { IsTrue result ↔ AreIdle self.now }
    {
        are_idle(self.machines.as_slice())
    }

    /// Begins a work of mutator `t`, which hasn't left. No step of it is made. A scan for a free slot begins with slot 0.
    pub fn begin(&mut self, t: u8, work: Work)
        requires mutator { IsMutator self.old.config t }
        requires present { (mutator self.old t).left ≡ false }
        requires work { IsWork self.old.config work }
        requires idle { is_busy (mutator self.old t) ≡ false }

        ensures begun { self.new ≡ begun self.old t work }
        ensures seen { sight self.new ≡ sight self.old }
        ensures busy { is_busy (mutator self.new t) ≡ true }
        ensures work { work_of (mutator self.new t) ≡ Some work }
        ensures run { EndsRun self.new }
        ensures kept { IsWorld self.new }
    {
        see_label(work);
        self.machines[usize::from(t) - 1].begin(work, 0);
    }

    /// Makes one step of the work of mutator `t`: the operation that its machine names, on the word that this names. The
    /// answer is what came of the work, or `None` where it isn't finished.
    #[inline(always)]
    pub fn step(&mut self, t: u8) -> Option<Made>
        requires mutator { IsMutator self.old.config t }
        requires busy { is_busy (mutator self.old t) ≡ true }

        ensures step { IsStep self.old t result self.new }
        ensures kept { IsWorld self.new }
    {
        let index = usize::from(t) - 1;
        let machine = &mut self.machines[index];
        self.made += make_step(machine, &mut self.memory, &mut self.boxes[index]);
        machine.answer()
    }

    /// Makes one turn of the collector: one step of its collection, on the word that this names. It answers `Waiting` for a mutator
    /// that hasn't crossed into the requested epoch and hasn't left, and `EpochsSpent` for good where the next request would be epoch
    /// 16,777,216. No slot that a register reaches is freed or changed, and whatever heap stood for the world still does.
    pub fn turn(&mut self) -> Turn
        ensures turn { IsTurn self.old self.new result }
        ensures kept { IsWorld self.new }
    {
        self.turn_seen().0
    }

    /// Makes one turn of the collector, as `turn` does, and tells beside its answer the operation of its step and the word that
    /// this found. There was no step, and the second is `None`, exactly where the epochs are spent.
    #[inline(always)]
    pub fn turn_seen(&mut self) -> (Turn, Option<(Op, u64)>)
        ensures turn { IsTurn self.old self.new result.0 }

        // What is seen of it: the operation that came next, and the word that it named.
        ensures seen { result.1 ≡ step_seen self.old }
        ensures unseen { IsNone result.1 ↔ (result.0 ≡ turns.Turn.EpochsSpent) }

        // It is the last step of the collector, so that the collector may be asked what that step did.
        ensures taken { IfSome result.1 (λ seen. HasTaken seen.0 seen.1 self.new.collector) }
        ensures kept { IsWorld self.new }
    {
        let Some(op) = self.collector.next() else {
            return (Turn::EpochsSpent, None);
        };
        let kind = self.collector.kind();
        let found = self.memory.perform(op);
        let turn = self.collector.took_as(kind, found);
        gather(&mut self.collector, &mut self.boxes);
        (turn, Some((op, found)))
    }

    /// Every slot that isn't released is to be offered to the next trial as a candidate root. Nothing else changes, until that
    /// trial starts.
    pub fn offer_all(&mut self)
        ensures offered { self.new ≡ offering self.old }
        ensures run { EndsRun self.new }
        ensures kept { IsWorld self.new }
    {
        self.collector.offer_all();
    }

    /// Carries out a command of mutator `t`, which hasn't left, and tells the answer with the field words that it saw and left.
    ///
    /// By the command Leave the mutator leaves the heap for good: its registers become null, and its last log is handed over. It is
    /// told `NotYet`, and nothing changes, while the log that it handed over last is still to be collected.
    pub fn command(&mut self, t: u8, cmd: Cmd) -> Told
        requires valid { IsValid self.old.config t cmd }
        requires present { (mutator self.old t).left ≡ false }
        requires idle { is_busy (mutator self.old t) ≡ false }

        // The command is begun, its steps are made to the end, and the last one answers.
        ensures worked { IsWorked self.old t (works.Command cmd) self.new }
        ensures answer { answer_of (mutator self.new t) ≡ Some (makes.Answered result) }

        // Whatever heap that never frees stands for the world, what is told is what asking it gives, and what it then is
        // stands for the world afterwards, by numbers of its objects that go on.
        ensures explained { IsExplained (sight self.old) t cmd result (sight self.new) }

        // When each refusal comes; what the command changes; what stays.
        ensures refuses { Refuses self.old t cmd result self.new }
        ensures changes { Changes self.old t cmd result self.new }
        ensures stays { Stays self.old t cmd result self.new }
        ensures run { EndsRun self.new }
        ensures kept { IsWorld self.new }
    {
        self.rules();
        match self.carry_out(t, Work::Command(cmd)) {
            Made::Answered(told) => told,
            Made::Crossed(_) => unreachable!(),
        }
    }

    /// Lets mutator `t`, which hasn't left, look at the epoch word, and cross into the requested epoch where it is another one. The
    /// answer is that epoch, or `None` where the mutator is in it already.
    pub fn poll(&mut self, t: u8) -> Option<u32>
        requires mutator { IsMutator self.old.config t }
        requires present { (mutator self.old t).left ≡ false }
        requires idle { is_busy (mutator self.old t) ≡ false }

        // The poll is begun, its steps are made to the end, and the last one answers.
        ensures worked { IsWorked self.old t works.Poll self.new }
        ensures answer { answer_of (mutator self.new t) ≡ Some (makes.Crossed result) }

        // Where the mutator crosses it hands over its log; nothing that is seen changes, and nothing of the collector.
        ensures polled { IsPolled self.old self.new t result }
        ensures run { EndsRun self.new }
        ensures kept { IsWorld self.new }
    {
        self.rules();
        match self.carry_out(t, Work::Poll) {
            Made::Crossed(epoch) => epoch,
            Made::Answered(_) => unreachable!(),
        }
    }

    /// Whether the slot holds an object.
    pub fn taken(&self, slot: u16) -> bool
        requires { slot < self.now.config.slots }
        ensures { IsTrue result ↔ IsTaken (sight self.now) slot }
    {
        self.memory.header(slot) != 0
    }

    /// The label of the object in the slot, or `None` where the slot is free.
    pub fn label(&self, slot: u16) -> Option<u32>
        requires { slot < self.now.config.slots }

        ensures label { result ≡ label_of (slice_index_or self.now.headers slot 0) }
        ensures free { IsNone result ↔ (IsTaken (sight self.now) slot → ⊥) }
    {
        let header = self.memory.header(slot);
        if header == 0 {
            None
        } else {
            Some(Header::unpack(header).label)
        }
    }

    /// Whether the object in the slot is a leaf: then its fields are null for good. There is none in a free slot.
    pub fn leaf(&self, slot: u16) -> bool
        requires { slot < self.now.config.slots }

        ensures leaf { result ≡ is_leaf (slice_index_or self.now.headers slot 0) }
        ensures taken { IsTrue result → IsTaken (sight self.now) slot }
    {
        let header = self.memory.header(slot);
        header != 0 && Header::unpack(header).leaf
    }

    /// The word of the field with this place.
    pub fn field(&self, place: u32) -> u64
        requires { place < self.now.config.slots * self.now.config.fields }
        ensures { result ≡ slice_index_or self.now.words place 0 }
    {
        self.memory.words()[place as usize]
    }

    /// The true count of the slot: one for a free slot, else how many references to its object were counted, which is an epoch
    /// or two behind the fields and registers that hold it.
    pub fn count(&self, slot: u16) -> u64
        requires { slot < self.now.config.slots }
        ensures { result ≡ (slot_at self.now.collector.counts slot).count }
    {
        self.collector.count(slot)
    }

    /// What register `r` of mutator `t` names.
    pub fn register(&self, t: u8, r: u8) -> Option<u16>
        requires mutator { IsMutator self.now.config t }
        requires register { r < self.now.config.registers }

        ensures { result ≡ register (sight self.now).registers t r }
    {
        self.machines[usize::from(t) - 1].register(r)
    }

    /// The words of all fields, by their places.
    pub fn words(&self) -> &[u64]
        ensures words { result.now ≡ self.now.words }
        ensures kept { IsWorld self.now }
    {
        self.memory.words()
    }

    /// What the registers of mutator `t` name, in order.
    pub fn registers(&self, t: u8) -> &[Option<u16>]
        requires { IsMutator self.now.config t }

        ensures registers { result.now ≡ registers_of (sight self.now).registers t }
        ensures kept { IsWorld self.now }
    {
        self.machines[usize::from(t) - 1].registers()
    }

    /// Numbers the slots that the registers reach, mutator by mutator, in the order of a listing.
    pub fn number(&self, numbering: &mut Numbering)
        requires slots { numbering.old.slots ≡ self.now.config.slots }

        ensures slots { numbering.new.slots ≡ self.now.config.slots }
        ensures numbers { NumbersSlots (sight self.now) numbering.new.list }
    {
        let fields = self.config.fields as u8;
        numbering.fill(&self.machines, self.memory.words(), fields);
    }

    /// The epoch word: the epoch that the mutators are to be in.
    pub fn epoch(&self) -> u32
        ensures epoch { result ≡ self.now.epoch }
        ensures kept { IsWorld self.now }
    {
        self.memory.epoch() as u32
    }

    /// The epoch that mutator `t` is in.
    pub fn epoch_of(&self, t: u8) -> u32
        requires { IsMutator self.now.config t }
        ensures { result ≡ (mutator self.now t).epoch }
    {
        self.machines[usize::from(t) - 1].epoch()
    }

    /// The freed word, which is odd exactly during a sweep.
    pub fn freed_word(&self) -> u64
        ensures freed { result ≡ self.now.freed }
        ensures kept { IsWorld self.now }
    {
        self.memory.freed()
    }

    /// The collector's machine, to be looked at.
    pub fn collector(&self) -> &Collector
        ensures collector { result.now ≡ self.now.collector }
        ensures kept { IsWorld self.now }
    {
        &self.collector
    }

    /// The machine of mutator `t`, to be looked at.
    pub fn mutator(&self, t: u8) -> &Machine
        requires { IsMutator self.now.config t }
        ensures { result.now ≡ mutator self.now t }
    {
        &self.machines[usize::from(t) - 1]
    }

    /// The crossing words of the mutators, in order: the epoch that each is in, or crosses into, and where its mailbox is.
    pub fn crossing(&self) -> &[u64]
        ensures crossing { result.now ≡ self.now.crossing }
        ensures kept { IsWorld self.now }
    {
        self.memory.crossing()
    }

    /// The mailboxes of the mutators, in order, each with its buffer.
    pub fn mailboxes(&self) -> &[Option<Buffer>]
        ensures boxes { map held result.now ≡ self.now.boxes }
        ensures home { (i : ℕ) → i < length result.now → IsSome (slice_index_or result.now i None) }
    {
        self.boxes.as_slice()
    }

    /// How many slots were freed since the opening.
    pub fn freed(&self) -> u64
        ensures freed { result ≡ self.now.collector.freed }
        ensures kept { IsWorld self.now }
    {
        self.collector.freed()
    }

    /// How many collections were completed since the opening.
    pub fn collections(&self) -> u32
        ensures collections { result ≡ self.now.collector.collections }
        ensures kept { IsWorld self.now }
    {
        self.collector.collections()
    }

    /// What became of the sets of possible garbage cycles that were tested since the opening: how many were freed, and how many
    /// the Delta test and the Sigma test refused.
    pub fn sets(&self) -> Sets
        ensures sets { result ≡ self.now.collector.sets }
        ensures kept { IsWorld self.now }
    {
        self.collector.sets()
    }

    /// Whether every mailbox is home: no mutator holds its own, and the collector none.
    pub fn boxes_home(&self) -> bool
        ensures { IsTrue result ↔ All (λ word. word % 2 ≡ 0) self.now.crossing }
    {
        self.memory.crossing().iter().all(|word| word % 2 == 0)
    }

    /// How many slots there are.
    pub fn slots(&self) -> u16
        ensures slots { result ≡ self.now.config.slots }
        ensures kept { IsWorld self.now }
    {
        self.config.slots as u16
    }

    /// How many fields an object has.
    pub fn fields(&self) -> u8
        ensures fields { result ≡ self.now.config.fields }
        ensures kept { IsWorld self.now }
    {
        self.config.fields as u8
    }

    /// How many mutators there are.
    pub fn mutators(&self) -> u8
        ensures mutators { result ≡ self.now.config.mutators }
        ensures kept { IsWorld self.now }
    {
        self.config.mutators as u8
    }

    /// How many objects were born, with the opening one.
    pub fn made(&self) -> u64
        ensures made { result ≡ self.now.made }
        ensures kept { IsWorld self.now }
    {
        self.made
    }

    // What always holds of a heap. It does nothing: its contract is the fact.
    fn rules(&self)
        ensures { IsWorld self.now }
    {
        let _config = &self.config;
    }

    // Begins a work of mutator `t`, and makes its steps until it is finished: most works end with their first step.
    #[inline(always)]
    fn carry_out(&mut self, t: u8, work: Work) -> Made
        requires mutator { IsMutator self.old.config t }
        requires present { (mutator self.old t).left ≡ false }
        requires work { IsWork self.old.config work }
        requires idle { is_busy (mutator self.old t) ≡ false }
        requires world { IsWorld self.old }

        ensures finished { IsFinished (begun self.old t work) t result self.new }
        ensures run { EndsRun self.new }
        ensures kept { IsWorld self.new }
    {
        if let Some(made) = self.begin_and_step(t, work) {
            return made;
        }
        self.finish(t)
    }

    // Begins a work of mutator `t` and makes its first step.
    #[inline(always)]
    fn begin_and_step(&mut self, t: u8, work: Work) -> Option<Made>
        requires mutator { IsMutator self.old.config t }
        requires present { (mutator self.old t).left ≡ false }
        requires work { IsWork self.old.config work }
        requires idle { is_busy (mutator self.old t) ≡ false }

        ensures begun { IsWorld (begun self.old t work) }
        ensures stepped { self.new ≡ stepped (begun self.old t work) t }
        ensures answer { result ≡ answer_of (mutator self.new t) }
        ensures kept { IsWorld self.new }
    {
        see_label(work);
        let own = usize::from(t) - 1;
        let machine = &mut self.machines[own];
        machine.begin(work, 0);
        self.made += make_step(machine, &mut self.memory, &mut self.boxes[own]);
        machine.answer()
    }

    // Steps of mutator `t` until its work is finished, and what came of it.
    fn finish(&mut self, t: u8) -> Made
        requires mutator { IsMutator self.old.config t }
        requires begun { HasFound self.old (mutator self.old t).from (mutator self.old t).phase }
        requires busy { is_busy (mutator self.old t) ≡ true }
        requires world { IsWorld self.old }

        ensures finished { IsFinished self.old t result self.new }
        ensures run { EndsRun self.new }
        ensures kept { IsWorld self.new }
    {
        loop {
            self.skip_taken(t);
            if let Some(made) = self.step(t) {
                return made;
            }
        }
    }

    // Makes the probes of taken slots that come next, if mutator `t` makes a scan, all at once.
    fn skip_taken(&mut self, t: u8)
        requires mutator { IsMutator self.old.config t }
        requires busy { is_busy (mutator self.old t) ≡ true }
        requires found { HasFound self.old (mutator self.old t).from (mutator self.old t).phase }

        ensures path { StepsTo self.old t self.new }
        ensures busy { is_busy (mutator self.new t) ≡ true }
        ensures kept { IsWorld self.new }
    {
        let slot = self.memory.lowest_free();
        self.machines[usize::from(t) - 1].skip_to(slot);
    }
}

// Whether none of the machines works.
fn are_idle(machines: &[Machine]) -> bool
    ensures { IsTrue result ↔ All (λ machine. is_busy machine ≡ false) machines.now }
{
    machines.iter().all(|machine| !machine.is_busy())
}

// The label of an allocation fits a header.
fn see_label(work: Work)
    ensures { HasLabel work }
{
    if let Work::Command(Cmd::New { label, .. } | Cmd::Leaf { label, .. }) = work {
        prove!(label <= u32::MAX);
    }
}

// One step of a machine that isn't between begin and end of one: its operation on the word that this names, and what it learns
// of the word found. The answer is how many births that was.
#[inline(always)]
fn make_step(machine: &mut Machine, memory: &mut Memory, mailbox: &mut Option<Buffer>) -> u64
    requires { MakesStep machine.old memory.old mailbox.old }

    ensures machine { machine.new ≡ step_of machine.old (cell memory.old (next_of machine.old)) (held mailbox.old) }
    ensures memory { memory.new ≡ with_cell memory.old (next_of machine.old) (written (next_of machine.old) (cell memory.old (next_of machine.old))) }
    ensures mailbox { mailbox.new ≡ Some (left_of (took_of machine.old (cell memory.old (next_of machine.old))) (held mailbox.old)) }
    ensures births { result ≡ births_of (next_of machine.old) (cell memory.old (next_of machine.old)) }
{
    let op = machine.next();
    let found = memory.perform(op);
    machine.took(found);
    swap_own(machine, mailbox);
    births(op, found)
}

// The births of an operation that found this word.
fn births(op: Op, found: u64) -> u64
    ensures { result ≡ births_of op found }
{
    match op {
        Op::ClaimHeader(..) if found == 0 => 1,
        _ => 0,
    }
}
