//! How a mutator's machine parks before its thread blocks, and unparks behind that: at most two steps each, which wait for nobody.
ghost use Rattle.std.specs.Prelude.{◌≡◌, ◌+◌, ◌≤◌, ◌↔◌, false, true, Some, IfSome, IsTrue};
ghost use Rattle.rec_word.specs.Mailbox.{holds};
ghost use Rattle.rec_mutator.specs.Next.{next_of};
ghost use Rattle.rec_mutator.specs.Parking.{berthed_of, parking_of, unparking_of, FitsLog, IsDepositing, IsPassing, IsReopening};
ghost use Rattle.rec_mutator.specs.Private.{is_busy, limit_of, work_of, IsMachine, KeepsSizes};
ghost use Rattle.rec_mutator.specs.Took.{spare, took_at, took_of, FindsShift, IsFound};
ghost use Rattle.rec_mutator.specs.declared.work.Work.TheVariants as works;

use super::Machine;
use crate::passage::Passage;
use crate::phase::Phase;
use crate::telling::{answered, only};
use rec_log::Buffer;
use rec_model::{Answer, Cmd};
use rec_word::{Shift, is_held, named_epoch};
use std::mem;

impl Machine {
    /// Begins to park. No step of it is made.
    #[tactic(auto, unfolding(crate::specs::Parking::parking_of))]
    pub fn park(&mut self)
        requires idle { is_busy self.old ≡ false }
        requires stays { self.old.left ≡ false }
        requires awake { self.old.parked ≡ false }

        ensures begun { self.new ≡ parking_of self.old }
        ensures same { KeepsSizes self.old self.new }
        ensures busy { is_busy self.new ≡ true }
        ensures work { work_of self.new ≡ Some (works.Command Cmd.Park) }
        ensures steps { self.new.steps ≡ 0 }
        ensures kept { IsMachine self.new }
    {
        self.phase = Phase::Passing {
            passage: Passage::Parks,
        };
        self.steps = 0;
    }

    /// Begins to unpark. No step of it is made.
    #[tactic(auto, unfolding(crate::specs::Parking::unparking_of))]
    pub fn unpark(&mut self)
        requires idle { is_busy self.old ≡ false }
        requires stays { self.old.left ≡ false }
        requires parked { self.old.parked ≡ true }

        ensures begun { self.new ≡ unparking_of self.old }
        ensures same { KeepsSizes self.old self.new }
        ensures busy { is_busy self.new ≡ true }
        ensures work { work_of self.new ≡ Some (works.Command Cmd.Unpark) }
        ensures steps { self.new.steps ≡ 0 }
        ensures kept { IsMachine self.new }
    {
        self.phase = Phase::Passing {
            passage: Passage::Unparks,
        };
        self.steps = 0;
    }

    /// Learns the word that the step of parking or unparking found which `next` named: the step is made.
    pub fn pass(&mut self, word: u64)
        requires passing { IsPassing self.old.phase }
        requires found { IsFound self.old (next_of self.old) word }

        ensures took { self.new ≡ took_of self.old word }

        // Sizes stay. The mark that the mutator is parked is what may change.
        ensures same { KeepsSizes self.old (record self.new { parked = self.old.parked }) }
        ensures steps { self.new.steps ≡ self.old.steps + 1 }
        ensures work { work_of self.new ≡ work_of self.old }
        ensures limit { IfSome (work_of self.new) (λ work. self.new.steps ≤ limit_of self.new.slots work) }
        ensures kept { IsMachine self.new }
    {
        let Phase::Passing { passage } = self.phase else {
            return;
        };
        match passage {
            Passage::Parks => self.took_berth(),
            Passage::Deposits => self.gave_deposit(),
            Passage::Unparks => self.awoke(word),
            Passage::Frees => self.gave_spare(),
            Passage::Holds | Passage::Reopens => {}
        }
    }

    /// Takes the spare of the present mailbox, which is held, as the log, and gives the deposit that takes its place there.
    #[tactic(auto, unfolding(crate::specs::Parking::berthed_of, crate::specs::Parking::berthed_at))]
    pub fn deposit(&mut self, buffer: Buffer) -> Buffer
        requires depositing { IsDepositing self.old.phase }
        requires spare { buffer ≡ spare self.old }

        ensures given { result ≡ self.old.log }
        ensures swapped { self.new ≡ berthed_of self.old buffer }
        ensures same { KeepsSizes self.old self.new }
        ensures work { work_of self.new ≡ work_of self.old }
        ensures kept { IsMachine self.new }
    {
        self.phase = Phase::Passing {
            passage: Passage::Deposits,
        };
        mem::replace(&mut self.log, buffer)
    }

    /// Takes the deposit of the present mailbox, which is held, back as the log, and gives the spare that takes its place there.
    #[tactic(auto, unfolding(crate::specs::Parking::berthed_of, crate::specs::Parking::berthed_at))]
    pub fn reopen(&mut self, mut deposit: Buffer) -> Buffer
        requires reopening { IsReopening self.old.phase }
        requires fits { FitsLog self.old deposit }

        ensures given { result ≡ self.old.log }
        ensures swapped { self.new ≡ berthed_of self.old deposit }
        ensures same { KeepsSizes self.old self.new }
        ensures work { work_of self.new ≡ work_of self.old }
        ensures kept { IsMachine self.new }
    {
        deposit.reopen();
        self.phase = Phase::Passing {
            passage: Passage::Frees,
        };
        mem::replace(&mut self.log, deposit)
    }

    /// Whether the mutator is parked: then it may be asked to unpark, and nothing else.
    #[inline(always)]
    pub fn is_parked(&self) -> bool
        ensures { result ≡ self.now.parked }
    {
        self.parked
    }

    /// Whether the present mailbox is held and its spare waits to be swapped: then `deposit` comes next.
    pub fn is_depositing(&self) -> bool
        ensures { IsTrue result ↔ IsDepositing self.now.phase }
    {
        matches!(
            self.phase,
            Phase::Passing {
                passage: Passage::Holds
            }
        )
    }

    /// Whether the present mailbox is held and its deposit waits to be swapped: then `reopen` comes next.
    pub fn is_reopening(&self) -> bool
        ensures { IsTrue result ↔ IsReopening self.now.phase }
    {
        matches!(
            self.phase,
            Phase::Passing {
                passage: Passage::Reopens
            }
        )
    }

    // The present mailbox is held: the log is the deposit, with the registers as its snapshot, and goes there next.
    #[tactic(auto, unfolding(crate::specs::Took::took_at))]
    fn took_berth(&mut self)
        requires phase { self.old.phase ≡ Phase.Passing Passage.Parks }

        ensures took { self.new ≡ took_at self.old 0 (Phase.Passing Passage.Parks) }
        ensures kept { IsMachine self.new }
    {
        self.log.retire(&self.frame);
        self.phase = Phase::Passing {
            passage: Passage::Holds,
        };
        self.steps += 1;
    }

    // The present mailbox is home with the deposit: the mutator is parked.
    #[tactic(auto, unfolding(crate::specs::Took::took_at))]
    fn gave_deposit(&mut self)
        requires phase { self.old.phase ≡ Phase.Passing Passage.Deposits }

        ensures took { self.new ≡ took_at self.old 0 (Phase.Passing Passage.Deposits) }
        ensures kept { IsMachine self.new }
    {
        self.parked = true;
        self.phase = answered(Cmd::Park, only(Answer::Done));
        self.steps += 1;
    }

    // The mutator is parked no more, and is in the epoch that its word tells. Where the word says that the deposit was still there, the
    // present mailbox is held.
    #[tactic(auto, unfolding(crate::specs::Took::took_at))]
    fn awoke(&mut self, word: u64)
        requires phase { self.old.phase ≡ Phase.Passing Passage.Unparks }
        requires found { FindsShift self.old Shift.Unpark word }

        ensures took { self.new ≡ took_at self.old word (Phase.Passing Passage.Unparks) }
        ensures kept { IsMachine self.new }
    {
        self.epoch = named_epoch(word);
        self.parked = false;
        self.phase = if is_held(word) {
            Phase::Passing {
                passage: Passage::Reopens,
            }
        } else {
            answered(Cmd::Unpark, only(Answer::Done))
        };
        self.steps += 1;
    }

    // The present mailbox is home with a spare: the mutator goes on.
    #[tactic(auto, unfolding(crate::specs::Took::took_at))]
    fn gave_spare(&mut self)
        requires phase { self.old.phase ≡ Phase.Passing Passage.Frees }

        ensures took { self.new ≡ took_at self.old 0 (Phase.Passing Passage.Frees) }
        ensures kept { IsMachine self.new }
    {
        self.phase = answered(Cmd::Unpark, only(Answer::Done));
        self.steps += 1;
    }
}
