ghost use Rattle.std.specs.Prelude.{◌≡◌, ◌≢◌, ◌+◌, ◌*◌, ◌^◌, ◌<◌, ◌≤◌, ◌↔◌, ℕ, None, All, length, IfOk, IsNone, true};
ghost use Rattle.rec_word.specs.Looked.{looked};
ghost use Rattle.rec_word.specs.declared.looked.Looked.TheVariants.{Waits};
ghost use Rattle.rec_counts.specs.Counts.{slot_at};
ghost use Rattle.rec_collector.specs.Causes.{HasCause};
ghost use Rattle.rec_counts.specs.Batch.{IsCovered};
ghost use Rattle.rec_collector.specs.Given.{IsFreeingIn, IsGiven, IsGivenAt, IsPreparingIn, IsReleasingIn, IsSized, IsSwapping, IsSweepingIn, IsTryingIn, IsWork, swapping_for};
ghost use Rattle.rec_collector.specs.Gathering.{MayGatherBehind};
ghost use Rattle.rec_collector.specs.Kind.{kind_of};
ghost use Rattle.rec_collector.specs.Kept.{IsMachine, KeepsSizes, limit_of};
ghost use Rattle.rec_collector.specs.Next.{next_of};
ghost use Rattle.rec_collector.specs.Present.{HaveLeft};
ghost use Rattle.rec_collector.specs.Private.{Private, opened};
ghost use Rattle.rec_collector.specs.declared.turn.Turn.{Turn};
ghost use Rattle.rec_collector.specs.Took.{behind, behind_turn, came_turn, crossed_for, ended_if, left_of, swapped_of, took_at, took_of, turn_at, turn_of};

mod runs;

use crate::buffers::{clear_all, open_rows, open_spares};
use crate::kind::Kind;
use crate::parts::Parts;
use crate::phase::Phase;
use crate::policy::Policy;
use crate::present::next_present;
use crate::sets::Sets;
use crate::turn::Turn;
use rec_counts::Counts;
use rec_log::{Buffer, Frame};
use rec_release::Sweep;
use rec_word::{Looked, Op};
use std::alloc::{AllocError as NoMemory, Global};
use std::marker::Model;
use std::mem;

// The first epoch that no word can hold.
const EPOCHS: u32 = 1 << 24;

/// The collector: the counts, two buffers for each mutator, and how far its collection has come. Its memory is taken when
/// it is opened.
#[derive(Drop)]
pub struct Machine {
    epoch: u32,
    collections: u32,
    freed: u64,
    turns: u64,
    phase: Phase,
    registers: u8,
    capacity: u32,
    parts: Parts,
    newer: Vec<Buffer>,
    older: Vec<Buffer>,
    left: Vec<bool>,
}

impl Model for Machine {
    ghost use Rattle.rec_collector.specs.Private.{Private};

    ghost Value = { Private };

    ghost use Rattle.rec_collector.specs.Inside.{private, IsKept};

    ghost view = { private };

    ghost invariant = { IsKept };
}

impl Machine {
    /// The collector of a heap with so many slots, and fields per object, and so many mutators, each with `regs` registers and
    /// buffers for `cap` entries. The first slots have these true counts. The requested epoch is `first_epoch`, and the
    /// collection of the epoch before counts as done: the registers named these slots then, mutator after mutator. The heap is
    /// collected by `policy`.
    pub fn open(
        alloc: Global,
        slots: u16,
        fields: u8,
        regs: u8,
        mutators: u8,
        cap: u32,
        first_epoch: u32,
        policy: Policy,
        counts: &[u64],
        registers: &[Option<u16>],
    ) -> Result<Machine, NoMemory>
        requires fields { 0 < fields }
        requires mutators { 0 < mutators }
        requires epoch { first_epoch < 2 ^ 24 }
        requires few { length counts.now ≤ slots }
        requires some { All (λ count. 0 < count) counts.now }
        requires registers { length registers.now ≡ mutators * regs }

        ensures opened { IfOk result (λ machine. machine ≡ opened slots fields regs mutators cap first_epoch policy counts.now registers.now) }
        ensures kept { IfOk result IsMachine }
    {
        let older = open_rows(alloc, mutators, cap, regs, registers)?;
        let spares = open_spares(alloc, mutators, cap, regs)?;
        let counts = Counts::open(alloc, slots, counts)?;
        counts.rules();
        Ok(Machine {
            epoch: first_epoch,
            collections: 0,
            freed: 0,
            turns: 0,
            phase: Phase::Idle,
            registers: regs,
            capacity: cap,
            parts: Parts::of(counts, fields, policy),
            newer: spares.0,
            older,
            left: spares.1,
        })
    }

    /// The operation of the next step. None exactly where the next request would be epoch 16,777,216.
    #[inline(always)]
    #[tactic(auto, unfolding(crate::specs::Next::next_of, crate::specs::Next::next_at))]
    pub fn next(&self) -> Option<Op>
        ensures next { result ≡ next_of self.now }
        ensures none { IsNone result ↔ ((self.now.phase ≡ Phase.Idle) × (self.now.epoch + 1 ≡ 2 ^ 24)) }
    {
        match &self.phase {
            Phase::Idle => {
                if self.epoch + 1 == EPOCHS {
                    None
                } else {
                    Some(Op::StoreEpoch(self.epoch + 1))
                }
            }
            Phase::Looking { mutator } => Some(Op::LookBox(*mutator, self.epoch)),
            Phase::Swapping { mutator } | Phase::Returning { mutator } => {
                Some(Op::ReturnBox(*mutator, self.epoch))
            }
            Phase::Releasing(release) => release.next(),
            Phase::Freeing(freeing) => freeing.next(),
            Phase::Trying(trial) => trial.next(),
            Phase::Preparing(prep) => prep.next(),
            Phase::Opening | Phase::Closing { .. } => Some(Op::AddFreed),
            Phase::Sweeping { sweep, .. } => sweep.next(),
        }
    }

    /// Learns the word that the operation of `next` found: the turn is made. Where `next` answers None, nothing is done.
    #[inline(always)]
    pub fn took(&mut self, word: u64) -> Turn
        requires { IsGiven self.old word }

        ensures took { self.new ≡ took_of self.old word }
        ensures turn { result ≡ turn_of self.old word }
        ensures same { KeepsSizes self.old self.new }

        // Why each answer comes. Waiting for a mutator comes exactly where its crossing word was looked at and stays as it is, and
        // the epochs are spent exactly where no step comes next.
        ensures cause { HasCause self.old word self.new result }
        ensures waiting { (t : ℕ) → self.old.phase ≡ Phase.Looking t → looked self.old.epoch word ≡ Waits → result ≡ Turn.Waiting t }
        ensures spent { IsNone (next_of self.old) → result ≡ Turn.EpochsSpent }

        // No collection takes more turns than this, beside those in which it waits.
        ensures limit { self.new.turns ≤ limit_of self.new }
        ensures kept { IsMachine self.new }
    {
        self.rules();
        self.learn(word)
    }

    /// Which of the phases it is that a collection spends its turns in. Who asks before the operation of `next` is made, and hands the
    /// answer to `took_as` behind it, spares that a second look at the phase: behind an atomic operation the compiler knows nothing more
    /// of what stood in memory before.
    #[inline(always)]
    pub fn kind(&self) -> Kind
        ensures { result ≡ kind_of self.now.phase }
    {
        match &self.phase {
            Phase::Releasing(_) => Kind::Releasing,
            Phase::Freeing(_) => Kind::Freeing,
            Phase::Trying(_) => Kind::Trying,
            Phase::Preparing(_) => Kind::Preparing,
            Phase::Sweeping { .. } => Kind::Sweeping,
            _ => Kind::Other,
        }
    }

    /// Learns the word that the operation of `next` found, as `took` does, of a machine of which `kind` answered this.
    #[inline(always)]
    pub fn took_as(&mut self, kind: Kind, word: u64) -> Turn
        requires given { IsGiven self.old word }
        requires kind { kind ≡ kind_of self.old.phase }

        ensures took { self.new ≡ took_of self.old word }
        ensures turn { result ≡ turn_of self.old word }
        ensures same { KeepsSizes self.old self.new }

        // Why each answer comes. Waiting for a mutator comes exactly where its crossing word was looked at and stays as it is, and
        // the epochs are spent exactly where no step comes next.
        ensures cause { HasCause self.old word self.new result }
        ensures waiting { (t : ℕ) → self.old.phase ≡ Phase.Looking t → looked self.old.epoch word ≡ Waits → result ≡ Turn.Waiting t }
        ensures spent { IsNone (next_of self.old) → result ≡ Turn.EpochsSpent }

        // No collection takes more turns than this, beside those in which it waits.
        ensures limit { self.new.turns ≤ limit_of self.new }
        ensures kept { IsMachine self.new }
    {
        self.rules();
        self.learn_as(kind, word)
    }

    /// Takes the buffer of a mailbox that is held, and gives the cleared one that takes its place there.
    #[tactic(auto, unfolding(crate::specs::Took::left_of, crate::specs::Took::left_at, crate::specs::Took::swapped_of, crate::specs::Took::swapped_at))]
    pub fn swap_box(&mut self, buffer: Buffer) -> Buffer
        requires swapping { IsSwapping self.old.phase }
        requires sized { IsSized self.old.registers self.old.capacity buffer }

        ensures given { result ≡ left_of self.old buffer }
        ensures swapped { self.new ≡ swapped_of self.old buffer }
        ensures same { KeepsSizes self.old self.new }
        ensures kept { IsMachine self.new }
    {
        let Phase::Swapping { mutator } = self.phase else {
            return buffer;
        };
        self.phase = Phase::Returning { mutator };
        mem::replace(&mut self.newer[usize::from(mutator) - 1], buffer)
    }

    /// Makes the next trial begin by offering every slot: each that is neither released nor Green is then a candidate
    /// root.
    pub fn offer_all(&mut self)
        ensures offered { self.new ≡ record self.old { offers = true } }
        ensures same { KeepsSizes self.old self.new }
        ensures kept { IsMachine self.new }
    {
        self.parts.offer_all();
    }

    /// The mutator whose mailbox is held and its buffer waits to be swapped, if there is one: then `swap_box` comes next.
    #[inline(always)]
    pub fn swapping(&self) -> Option<u8>
        ensures { result ≡ swapping_for self.now.phase }
    {
        match self.phase {
            Phase::Swapping { mutator } => Some(mutator),
            _ => None,
        }
    }

    /// What always holds of a machine. It does nothing: its contract is the fact.
    pub fn rules(&self)
        ensures { IsMachine self.now }
    {
        let _phase = &self.phase;
    }

    /// The true count of a slot: one for a free slot, else how many references to it were counted.
    pub fn count(&self, slot: u16) -> u64
        requires { slot < length self.now.counts.slots }
        ensures { result ≡ (slot_at self.now.counts slot).count }
    {
        self.parts.counts.count(slot)
    }

    /// How far the collection has come.
    pub fn phase(&self) -> &Phase
        ensures { result.now ≡ self.now.phase }
    {
        &self.phase
    }

    /// What is kept of the slots: their true and cyclic counts, colours, flags and sets, the root buffer, and the lists.
    pub fn counts(&self) -> &Counts
        ensures { result.now ≡ self.now.counts }
    {
        &self.parts.counts
    }

    /// The newer buffer of each mutator, in order: it is a spare until this collection has gathered that mutator's.
    pub fn newer(&self) -> &[Buffer]
        ensures { result.now ≡ self.now.newer }
    {
        self.newer.as_slice()
    }

    /// The older buffer of each mutator, in order: what the last collection gathered.
    pub fn older(&self) -> &[Buffer]
        ensures { result.now ≡ self.now.older }
    {
        self.older.as_slice()
    }

    /// The requested epoch.
    pub fn epoch(&self) -> u32
        ensures { result ≡ self.now.epoch }
    {
        self.epoch
    }

    /// How many collections were completed since the opening.
    pub fn collections(&self) -> u32
        ensures { result ≡ self.now.collections }
    {
        self.collections
    }

    /// How many slots were swept since the opening.
    pub fn freed(&self) -> u64
        ensures { result ≡ self.now.freed }
    {
        self.freed
    }

    /// What became of the sets that were tested since the opening.
    pub fn sets(&self) -> Sets
        ensures { result ≡ self.now.sets }
    {
        self.parts.sets
    }

    /// How many turns were made since a collection was completed last, or since the opening, beside those in which the machine
    /// waited or found the epochs spent.
    pub fn turns(&self) -> u64
        ensures turns { result ≡ self.now.turns }
        ensures limit { result ≤ limit_of self.now }
        ensures kept { IsMachine self.now }
    {
        self.turns
    }

    // Learns a word, by the phase. Its branches are put into each caller: with two heaps that turn the machine the compiler would
    // make them calls.
    #[inline(always)]
    fn learn(&mut self, word: u64) -> Turn
        requires { IsGiven self.old word }

        ensures took { self.new ≡ took_of self.old word }
        ensures turn { result ≡ turn_of self.old word }
        ensures same { KeepsSizes self.old self.new }
        ensures kept { IsMachine self.new }
    {
        match self.phase {
            Phase::Idle => self.took_request(),
            Phase::Looking { mutator } => self.took_look(mutator, word),
            Phase::Swapping { .. } => Turn::Moved,
            Phase::Returning { mutator } => self.took_return(mutator),
            Phase::Opening => self.took_opening(),
            Phase::Sweeping { .. } => self.took_sweep(word),
            Phase::Closing { swept } => self.end(swept),
            _ => self.took_work(word),
        }
    }

    // Learns a word, by what kind of phase it is.
    #[inline(always)]
    fn learn_as(&mut self, kind: Kind, word: u64) -> Turn
        requires given { IsGiven self.old word }
        requires kind { kind ≡ kind_of self.old.phase }

        ensures took { self.new ≡ took_of self.old word }
        ensures turn { result ≡ turn_of self.old word }
        ensures same { KeepsSizes self.old self.new }
        ensures kept { IsMachine self.new }
    {
        match kind {
            Kind::Releasing => self.took_release(word),
            Kind::Freeing => self.took_freeing(word),
            Kind::Trying => self.took_trial(word),
            Kind::Preparing => self.took_prep(word),
            Kind::Sweeping => self.took_sweep(word),
            Kind::Other => self.learn(word),
        }
    }

    // The next epoch is requested, if there is one.
    fn took_request(&mut self) -> Turn
        requires phase { self.old.phase ≡ Phase.Idle }
        requires covered { HaveLeft self.old.left 0 → IsCovered self.old.counts self.old.newer self.old.older }

        ensures took { self.new ≡ took_at self.old 0 Phase.Idle }
        ensures turn { result ≡ turn_at self.old 0 Phase.Idle }
        ensures same { KeepsSizes self.old self.new }
        ensures kept { IsMachine self.new }
    {
        if self.epoch + 1 == EPOCHS {
            return Turn::EpochsSpent;
        }
        self.epoch += 1;
        self.gather_behind(0)
    }

    // The mailbox of a mutator is held where it has crossed, or is parked and left a deposit there. For one that is parked and left none
    // the collector crosses.
    #[tactic(auto, unfolding(crate::specs::Took::took_at, crate::specs::Took::turn_at))]
    fn took_look(&mut self, mutator: u8, word: u64) -> Turn
        requires phase { self.old.phase ≡ Phase.Looking mutator }
        requires given { IsGivenAt self.old word (Phase.Looking mutator) }

        ensures took { self.new ≡ took_at self.old word (Phase.Looking mutator) }
        ensures turn { result ≡ turn_at self.old word (Phase.Looking mutator) }
        ensures same { KeepsSizes self.old self.new }
        ensures kept { IsMachine self.new }
    {
        match Looked::at(self.epoch, word) {
            Looked::Takes(_) => {
                self.phase = Phase::Swapping { mutator };
                self.turns += 1;
                Turn::Moved
            }
            Looked::Crosses(_) => self.cross_for(mutator),
            Looked::Waits => Turn::Waiting { mutator },
        }
    }

    // The collector crosses for a parked mutator without a deposit: its registers stood since its last crossing, and it logged nothing.
    #[inline(never)]
    fn cross_for(&mut self, mutator: u8) -> Turn
        requires phase { self.old.phase ≡ Phase.Looking mutator }
        requires covered { HaveLeft self.old.left mutator → IsCovered self.old.counts (crossed_for self.old mutator).newer self.old.older }

        ensures took { self.new ≡ behind (crossed_for self.old mutator) mutator }
        ensures turn { result ≡ behind_turn (crossed_for self.old mutator) mutator }
        ensures same { KeepsSizes self.old self.new }
        ensures kept { IsMachine self.new }
    {
        self.rules();
        let place = usize::from(mutator) - 1;
        self.phase = Phase::Returning { mutator };
        self.newer[place].retire_still(&self.older[place]);
        self.gather_behind(mutator)
    }

    // A mailbox was given back, from which the last buffer of a mutator may have come: then it has left.
    #[inline(always)]
    fn took_return(&mut self, mutator: u8) -> Turn
        requires phase { self.old.phase ≡ Phase.Returning mutator }
        requires covered { HaveLeft self.old.left mutator → IsCovered self.old.counts self.old.newer self.old.older }

        ensures took { self.new ≡ took_at self.old 0 (Phase.Returning mutator) }
        ensures turn { result ≡ turn_at self.old 0 (Phase.Returning mutator) }
        ensures same { KeepsSizes self.old self.new }
        ensures kept { IsMachine self.new }
    {
        self.rules();
        let place = usize::from(mutator) - 1;
        self.left[place] = self.newer[place].is_last();
        self.gather_behind(mutator)
    }

    // The next mutator's mailbox is looked at that hasn't left. Behind the last one the batch is applied, and its zeros are released.
    #[inline(always)]
    fn gather_behind(&mut self, mutator: u8) -> Turn
        requires gathers { MayGatherBehind self.old mutator }

        ensures took { self.new ≡ behind self.old mutator }
        ensures turn { result ≡ behind_turn self.old mutator }
        ensures same { KeepsSizes self.old self.new }
        ensures kept { IsMachine self.new }
    {
        if let Some(next) = next_present(&self.left, mutator) {
            self.phase = Phase::Looking { mutator: next };
            self.turns += 1;
            return Turn::Moved;
        }
        self.phase = self.parts.apply_batch(&self.newer, &self.older);
        self.turns += 1;
        self.end_if_nothing_is_free()
    }

    // A word came out of a field, or was loaded from one, for the machine at work. Where its work is over, the next phase follows.
    #[inline(never)]
    fn took_work(&mut self, word: u64) -> Turn
        requires works { IsWork self.old.phase }
        requires given { IsGivenAt self.old word self.old.phase }

        ensures took { self.new ≡ took_at self.old word self.old.phase }
        ensures turn { result ≡ turn_at self.old word self.old.phase }
        ensures same { KeepsSizes self.old self.new }
        ensures kept { IsMachine self.new }
    {
        self.parts.took(&mut self.phase, word);
        self.turns += 1;
        self.end_if_nothing_is_free()
    }

    // A word came out of a field of a released slot.
    #[inline(always)]
    fn took_release(&mut self, word: u64) -> Turn
        requires releasing { IsReleasingIn self.old.phase }
        requires given { IsGivenAt self.old word self.old.phase }

        ensures took { self.new ≡ took_at self.old word self.old.phase }
        ensures turn { result ≡ turn_at self.old word self.old.phase }
        ensures same { KeepsSizes self.old self.new }
        ensures kept { IsMachine self.new }
    {
        self.parts.took_release(&mut self.phase, word);
        self.turns += 1;
        self.end_if_nothing_is_free()
    }

    // A word came out of a field of a member of the set that is freed.
    #[inline(always)]
    fn took_freeing(&mut self, word: u64) -> Turn
        requires freeing { IsFreeingIn self.old.phase }
        requires given { IsGivenAt self.old word self.old.phase }

        ensures took { self.new ≡ took_at self.old word self.old.phase }
        ensures turn { result ≡ turn_at self.old word self.old.phase }
        ensures same { KeepsSizes self.old self.new }
        ensures kept { IsMachine self.new }
    {
        self.parts.took_freeing(&mut self.phase, word);
        self.turns += 1;
        self.end_if_nothing_is_free()
    }

    // A field was loaded for the trial.
    #[inline(always)]
    fn took_trial(&mut self, word: u64) -> Turn
        requires trying { IsTryingIn self.old.phase }
        requires given { IsGivenAt self.old word self.old.phase }

        ensures took { self.new ≡ took_at self.old word self.old.phase }
        ensures turn { result ≡ turn_at self.old word self.old.phase }
        ensures same { KeepsSizes self.old self.new }
        ensures kept { IsMachine self.new }
    {
        self.parts.took_trial(&mut self.phase, word);
        self.turns += 1;
        self.end_if_nothing_is_free()
    }

    // A field was loaded for the preparation.
    #[inline(always)]
    fn took_prep(&mut self, word: u64) -> Turn
        requires preparing { IsPreparingIn self.old.phase }
        requires given { IsGivenAt self.old word self.old.phase }

        ensures took { self.new ≡ took_at self.old word self.old.phase }
        ensures turn { result ≡ turn_at self.old word self.old.phase }
        ensures same { KeepsSizes self.old self.new }
        ensures kept { IsMachine self.new }
    {
        self.parts.took_prep(&mut self.phase, word);
        self.turns += 1;
        self.end_if_nothing_is_free()
    }

    // A sweep has begun.
    #[tactic(auto, unfolding(crate::specs::Took::took_at, crate::specs::Took::turn_at))]
    fn took_opening(&mut self) -> Turn
        requires phase { self.old.phase ≡ Phase.Opening }

        ensures took { self.new ≡ took_at self.old 0 Phase.Opening }
        ensures turn { result ≡ turn_at self.old 0 Phase.Opening }
        ensures same { KeepsSizes self.old self.new }
        ensures kept { IsMachine self.new }
    {
        let mut sweep = Sweep::idle();
        sweep.start(&mut self.parts.counts);
        self.phase = Phase::Sweeping { sweep, swept: 0 };
        self.turns += 1;
        Turn::Moved
    }

    // A slot more is swept.
    #[inline(always)]
    #[tactic(auto, unfolding(crate::specs::Took::took_at, crate::specs::Took::turn_at))]
    fn took_sweep(&mut self, word: u64) -> Turn
        requires sweeping { IsSweepingIn self.old.phase }

        ensures took { self.new ≡ took_at self.old word self.old.phase }
        ensures turn { result ≡ turn_at self.old word self.old.phase }
        ensures same { KeepsSizes self.old self.new }
        ensures kept { IsMachine self.new }
    {
        let Phase::Sweeping { sweep, swept } = &mut self.phase else {
            unreachable!()
        };
        sweep.took(&mut self.parts.counts, word);
        self.parts.counts.rules();
        *swept += 1;
        let swept = *swept;
        if sweep.next().is_none() {
            self.phase = Phase::Closing { swept };
        }
        self.freed += 1;
        self.turns += 1;
        Turn::Moved
    }

    // Where nothing is to be swept, the collection is complete without a sweep.
    #[inline(always)]
    fn end_if_nothing_is_free(&mut self) -> Turn
        ensures took { self.new ≡ ended_if self.old.phase self.old }
        ensures turn { result ≡ came_turn self.old.epoch self.old.phase }
        ensures same { KeepsSizes self.old self.new }
        ensures kept { IsMachine self.new }
    {
        match self.phase {
            Phase::Closing { swept } => self.end(swept),
            _ => Turn::Moved,
        }
    }

    // The collection is complete: the older buffers become spares, and the newer ones the older.
    #[tactic(auto, unfolding(crate::specs::Took::took_at, crate::specs::Took::turn_at))]
    fn end(&mut self, swept: u32) -> Turn
        requires phase { self.old.phase ≡ Phase.Closing swept }

        ensures took { self.new ≡ took_at self.old 0 (Phase.Closing swept) }
        ensures turn { result ≡ turn_at self.old 0 (Phase.Closing swept) }
        ensures same { KeepsSizes self.old self.new }
        ensures kept { IsMachine self.new }
    {
        clear_all(&mut self.older);
        mem::swap(&mut self.older, &mut self.newer);
        self.collections += 1;
        self.turns = 0;
        self.phase = Phase::Idle;
        Turn::Collected {
            epoch: self.epoch - 1,
            freed: swept,
        }
    }
}
