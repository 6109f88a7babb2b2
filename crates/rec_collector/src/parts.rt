ghost use Rattle.std.specs.Prelude.{◌≡◌, ◌+◌, ◌<◌, ◌≤◌, None, Some, length, false, true};
ghost use Rattle.rec_counts.specs.Batch.{applied, AreAlike, IsCovered};
ghost use Rattle.rec_release.specs.CycleFree.{IsFreeable, started_of};
ghost use Rattle.rec_release.specs.CycleFree as frees;
ghost use Rattle.rec_release.specs.CycleFree.{Machine as Freeing};
ghost use Rattle.rec_release.specs.Ran.{RanFreeing};
ghost use Rattle.rec_sigma.specs.Prepare as preps;
ghost use Rattle.rec_sigma.specs.Prepare.{Machine as Preparing};
ghost use Rattle.rec_sigma.specs.Ran.{Ran as RanPrep};
ghost use Rattle.rec_release.specs.Release.{IsReady};
ghost use Rattle.rec_trial.specs.Rules.{IsReady as IsReadyForTrial};
ghost use Rattle.rec_collector.specs.Clearing.{IsClear, IsCleared, IsFewTold};
ghost use Rattle.rec_collector.specs.Followed.{followed, prep_started, prepared, relieved, makes_trial, sweep_phase, trial_if, trial_started, tried, with_offers, worked};
ghost use Rattle.rec_collector.specs.Given.{IsFreeingIn, IsPreparingIn, IsReleasingIn, IsTryingIn};
ghost use Rattle.rec_collector.specs.Kept.{NoneReleased};
ghost use Rattle.rec_collector.specs.Zeros.{AreCounted};
ghost use Rattle.rec_collector.specs.Parts.{new_freeing, new_parts};
ghost use Rattle.rec_trial.specs.Loaded.{Ran};
ghost use Rattle.rec_trial.specs.Trial.{Machine as Trying, Work};
ghost use Rattle.rec_collector.specs.Works.{MayFree, MayPrepare, MayTry, MayWork};
ghost use Rattle.rec_collector.specs.Testing.{last_tested, with_freeing, zeros_released};

use crate::offer::offer_slots;
use crate::phase::Phase;
use crate::policy::Policy;
use crate::sets::Sets;
use crate::verdict::{Verdict, judge};
use rec_counts::{Counts, apply};
use rec_log::Buffer;
use rec_release::{Clears, CycleFree, Release};
use rec_sigma::{Loads as Prepares, Prep, refurbish};
use rec_trial::{Loads, Trial, postpone};
use std::marker::Model;

/// What a collection works on between a batch and a sweep: the counts, how many fields a slot has, what became of the sets,
/// whether the next trial is offered every slot, how many collections in a row have postponed theirs, and how the heap is collected.
#[derive(Drop)]
pub(crate) struct Parts {
    pub(crate) counts: Counts,
    fields: u8,
    pub(crate) sets: Sets,
    // Whether every slot is to be offered to the next trial.
    offers: bool,
    // How many collections in a row have postponed their trial by now.
    postponed: u32,
    pub(crate) policy: Policy,
}

impl Model for Parts {
    ghost use Rattle.std.specs.Prelude.{◌<◌};
    ghost use Rattle.rec_collector.specs.Parts.{Parts as Whole};

    ghost Value = { Whole };

    ghost view = { λ parts. record { counts = parts.counts; fields = parts.fields; sets = parts.sets; offers = parts.offers; postponed = parts.postponed; policy = parts.policy } };

    ghost invariant = { λ parts. 0 < parts.fields };
}

impl Parts {
    /// The parts of a new machine, over slots with so many fields, at least one. No set was tested yet.
    pub(crate) fn of(counts: Counts, fields: u8, policy: Policy) -> Parts
        requires { 0 < fields }
        ensures { result ≡ new_parts counts fields policy }
    {
        Parts {
            counts,
            fields,
            sets: Sets {
                freed: 0,
                delta: 0,
                sigma: 0,
            },
            offers: false,
            postponed: 0,
            policy,
        }
    }

    /// The batch of these buffers is applied, and its zeros are to be released. The answer is the phase that follows.
    pub(crate) fn apply_batch(&mut self, newer: &[Buffer], older: &[Buffer]) -> Phase
        requires covered { IsCovered self.old.counts newer.now older.now }
        requires alike { AreAlike newer.now older.now }
        requires cleared { IsCleared self.old }
        requires unreleased { NoneReleased self.old.counts }
        requires counted { AreCounted self.old.counts }
        requires told { IsFewTold self.old }
        ensures { record { parts = self.new; phase = result } ≡ followed (zeros_released false (record self.old { counts = applied self.old.policy.steady self.old.counts newer.now older.now })) }
    {
        self.counts.rules();
        apply(&mut self.counts, newer, older, self.policy.steady);
        let begun = self.release_zeros(false);
        self.follow(begun)
    }

    /// A word came out of a field or was loaded from one, for the machine that is at work. Where its work is over, the next phase
    /// follows. No phase is a local here, since a function pays for the size of its locals whenever it is called.
    #[inline(always)]
    pub(crate) fn took(&mut self, phase: &mut Phase, word: u64)
        requires { MayWork self.old word phase.old }
        ensures { record { parts = self.new; phase = phase.new } ≡ worked self.old word phase.old }
    {
        match phase {
            Phase::Releasing(_) => self.took_release(phase, word),
            Phase::Freeing(_) => self.took_freeing(phase, word),
            Phase::Trying(_) => self.took_trial(phase, word),
            Phase::Preparing(_) => self.took_prep(phase, word),
            _ => {}
        }
    }

    /// A word came out of a field of a released slot.
    #[inline(always)]
    pub(crate) fn took_release(&mut self, phase: &mut Phase, word: u64)
        requires releasing { IsReleasingIn phase.old }
        requires may { MayWork self.old word phase.old }
        ensures { record { parts = self.new; phase = phase.new } ≡ worked self.old word phase.old }
    {
        let Phase::Releasing(release) = phase else {
            unreachable!()
        };
        self.counts.rules();
        release.took(&mut self.counts, word);
        if release.next().is_none() {
            self.end_release(phase);
        }
    }

    /// A word came out of a field of a member of the set that is freed.
    #[inline(always)]
    pub(crate) fn took_freeing(&mut self, phase: &mut Phase, word: u64)
        requires freeing { IsFreeingIn phase.old }
        requires may { MayWork self.old word phase.old }
        ensures { record { parts = self.new; phase = phase.new } ≡ worked self.old word phase.old }
    {
        let Phase::Freeing(freeing) = phase else {
            unreachable!()
        };
        self.counts.rules();
        freeing.took(&mut self.counts, word);
        if freeing.next().is_none() {
            self.end_freeing(phase);
        }
    }

    /// A field was loaded for the trial.
    #[inline(always)]
    pub(crate) fn took_trial(&mut self, phase: &mut Phase, word: u64)
        requires trying { IsTryingIn phase.old }
        requires may { MayWork self.old word phase.old }
        ensures { record { parts = self.new; phase = phase.new } ≡ worked self.old word phase.old }
    {
        let Phase::Trying(trial) = phase else {
            unreachable!()
        };
        trial.took(&mut self.counts, word);
        if trial.next().is_none() {
            self.end_trial(phase);
        }
    }

    /// Fields are loaded for the trial, at least one and at most so many. It answers how many were.
    #[inline(always)]
    pub(crate) fn run_trial<B, S, L: Loads<B, S>>(
        &mut self,
        phase: &mut Phase,
        board: &B,
        seat: &mut S,
        most: u32,
    ) -> u32
        requires may { MayTry self.old phase.old }
        requires some { 0 < most }
        requires stands { (m : Trying) → phase.old ≡ Phase.Trying m → L.StandsAt board.now seat.old 0 (record { machine = m; counts = self.old.counts }) }

        ensures ran { (m : Trying) → phase.old ≡ Phase.Trying m → (w : Work) × Ran (record { machine = m; counts = self.old.counts }) result w × L.StandsAt board.now seat.new result w × (record { parts = self.new; phase = phase.new } ≡ tried self.old w) }
        ensures some { 0 < result }
        ensures few { result ≤ most }
    {
        let Phase::Trying(trial) = phase else {
            unreachable!()
        };
        let made = trial.run::<B, S, L>(&mut self.counts, board, seat, most);
        if trial.next().is_none() {
            self.end_trial(phase);
        }
        made
    }

    /// A field was loaded for the preparation.
    #[inline(always)]
    pub(crate) fn took_prep(&mut self, phase: &mut Phase, word: u64)
        requires preparing { IsPreparingIn phase.old }
        requires may { MayWork self.old word phase.old }
        ensures { record { parts = self.new; phase = phase.new } ≡ worked self.old word phase.old }
    {
        let Phase::Preparing(prep) = phase else {
            unreachable!()
        };
        prep.took(&mut self.counts, word);
        if prep.next().is_none() {
            self.end_preparing(phase);
        }
    }

    /// Fields are loaded for the preparation, at least one and at most so many. It answers how many were.
    #[inline(always)]
    pub(crate) fn run_prep<B, S, L: Prepares<B, S>>(
        &mut self,
        phase: &mut Phase,
        board: &B,
        seat: &mut S,
        most: u32,
    ) -> u32
        requires may { MayPrepare self.old phase.old }
        requires some { 0 < most }
        requires stands { (m : Preparing) → phase.old ≡ Phase.Preparing m → L.StandsAt board.now seat.old 0 (record { machine = m; counts = self.old.counts }) }

        ensures ran { (m : Preparing) → phase.old ≡ Phase.Preparing m → (w : preps.Work) × RanPrep (record { machine = m; counts = self.old.counts }) result w × L.StandsAt board.now seat.new result w × (record { parts = self.new; phase = phase.new } ≡ prepared self.old w) }
        ensures some { 0 < result }
        ensures few { result ≤ most }
    {
        let Phase::Preparing(prep) = phase else {
            unreachable!()
        };
        let made = prep.run::<B, S, L>(&mut self.counts, board, seat, most);
        if prep.next().is_none() {
            self.end_preparing(phase);
        }
        made
    }

    /// Fields of members of the set that is freed are cleared, at least one and at most so many. It answers how many were.
    #[inline(always)]
    pub(crate) fn run_freeing<B, S, C: Clears<B, S>>(
        &mut self,
        phase: &mut Phase,
        board: &B,
        seat: &mut S,
        most: u32,
    ) -> u32
        requires may { MayFree self.old phase.old }
        requires some { 0 < most }
        requires stands { (m : Freeing) → phase.old ≡ Phase.Freeing m → C.StandsAt board.now seat.old 0 (record { machine = m; counts = self.old.counts }) }

        ensures ran { (m : Freeing) → phase.old ≡ Phase.Freeing m → (w : frees.Work) × RanFreeing (record { machine = m; counts = self.old.counts }) result w × C.StandsAt board.now seat.new result w × (record { parts = self.new; phase = phase.new } ≡ followed (relieved self.old w)) }
        ensures some { 0 < result }
        ensures few { result ≤ most }
    {
        let Phase::Freeing(freeing) = phase else {
            unreachable!()
        };
        self.counts.rules();
        let made = freeing.run::<B, S, C>(&mut self.counts, board, seat, most);
        if freeing.next().is_none() {
            self.end_freeing(phase);
        }
        made
    }

    // After a release the next set is tested.
    fn end_release(&mut self, phase: &mut Phase)
        requires { IsClear (record { parts = self.old; phase = None }) }
        ensures { record { parts = self.new; phase = phase.new } ≡ followed (record { parts = self.old; phase = None }) }
    {
        *phase = self.follow(None);
    }

    // Once a set is freed, the zeros are released.
    fn end_freeing(&mut self, phase: &mut Phase)
        requires ready { IsReady self.old.counts }
        requires clear { IsClear (zeros_released true self.old) }
        ensures { record { parts = self.new; phase = phase.new } ≡ followed (zeros_released true self.old) }
    {
        let begun = self.release_zeros(true);
        *phase = self.follow(begun);
    }

    // After a trial its sets are prepared.
    fn end_trial(&mut self, phase: &mut Phase)
        ensures { record { parts = self.new; phase = phase.new } ≡ prepared self.old (prep_started self.old) }
    {
        *phase = self.prepare();
    }

    // After a preparation a sweep begins.
    fn end_preparing(&self, phase: &mut Phase)
        ensures { phase.new ≡ sweep_phase self.now.counts.free }
    {
        *phase = self.end_preparation();
    }

    /// Every slot is to be offered to the next trial.
    pub(crate) fn offer_all(&mut self)
        ensures { self.new ≡ record self.old { offers = true } }
    {
        self.offers = true;
    }

    // The zeros are to be released. The answer is the release, if there are any.
    fn release_zeros(&mut self, lowers: bool) -> Option<Phase>
        requires { IsReady self.old.counts }
        ensures { record { parts = self.new; phase = result } ≡ zeros_released lowers self.old }
    {
        let mut release = Release::idle(self.fields);
        release.start(&mut self.counts, lowers);
        if release.next().is_none() {
            return None;
        }
        Some(Phase::Releasing(release))
    }

    // What follows where this was begun: while nothing was, the next set is tested, and after the last one a trial begins or is postponed.
    fn follow(&mut self, begun: Option<Phase>) -> Phase
        requires { IsClear (record { parts = self.old; phase = begun }) }
        ensures { record { parts = self.new; phase = result } ≡ followed (record { parts = self.old; phase = begun }) }
    {
        let mut begun = begun;
        self.counts.rules();
        while begun.is_none() && self.counts.sets() > 0 {
            begun = self.test_last();
        }
        match begun {
            Some(phase) => phase,
            None => self.start_trial(),
        }
    }

    // Tests the last set, and begins to free it where it passes. Else it is refurbished, and its zeros are released.
    fn test_last(&mut self) -> Option<Phase>
        requires some { 0 < length self.old.counts.sets }
        requires cleared { IsCleared self.old }
        requires told { IsFewTold self.old }
        ensures { record { parts = self.new; phase = result } ≡ last_tested self.old }
    {
        self.counts.rules();
        let set = self.counts.sets() - 1;
        let verdict = judge(&self.counts, set);
        self.sets.count(verdict);
        if let Verdict::Passed = verdict {
            self.free_set(set)
        } else {
            refurbish(&mut self.counts, set);
            self.release_zeros(true)
        }
    }

    // Begins to free the last set, if it has a member.
    fn free_set(&mut self, set: u16) -> Option<Phase>
        requires last { set + 1 ≡ length self.old.counts.sets }
        requires freeable { IsFreeable self.old.counts }
        ensures { record { parts = self.new; phase = result } ≡ with_freeing self.old (started_of (new_freeing self.old.fields) self.old.counts) }
    {
        let mut freeing = CycleFree::idle(self.fields);
        freeing.start(&mut self.counts, set);
        if freeing.next().is_none() {
            return None;
        }
        Some(Phase::Freeing(freeing))
    }

    // A trial begins, or is postponed.
    fn start_trial(&mut self) -> Phase
        requires ready { IsReadyForTrial self.old.counts }
        ensures { record { parts = self.new; phase = result } ≡ trial_started self.old }
    {
        if self.makes_trial() {
            self.begin_trial()
        } else {
            self.put_off_trial()
        }
    }

    // Whether a trial is made: slots are to be offered, as many roots wait as the policy asks for, or it was postponed as often as that lets.
    fn makes_trial(&self) -> bool
        ensures { result ≡ makes_trial self.now }
    {
        self.offers
            || self.policy.least_roots as usize <= self.counts.roots().len()
            || self.policy.most_postponed <= self.postponed
    }

    // The trial is postponed, one time more, and there are no sets to prepare.
    fn put_off_trial(&mut self) -> Phase
        requires ready { IsReadyForTrial self.old.counts }
        requires off { makes_trial self.old ≡ false }
        ensures { record { parts = self.new; phase = result } ≡ trial_if false self.old }
    {
        self.postponed += 1;
        postpone(&mut self.counts);
        self.prepare()
    }

    // A trial begins. Where that was asked for, every slot is offered to it.
    fn begin_trial(&mut self) -> Phase
        requires ready { IsReadyForTrial self.old.counts }
        ensures { record { parts = self.new; phase = result } ≡ trial_if true self.old }
    {
        self.make_offers();
        let mut trial = Trial::idle(self.fields);
        trial.start(&mut self.counts);
        if trial.next().is_some() {
            return Phase::Trying(trial);
        }
        self.prepare()
    }

    // A trial is made: every slot is offered to it, where that was asked for.
    fn make_offers(&mut self)
        ensures { self.new ≡ with_offers self.old }
    {
        self.postponed = 0;
        if self.offers {
            offer_slots(&mut self.counts);
            self.offers = false;
        }
    }

    // The sets that the trial found are to be prepared.
    fn prepare(&mut self) -> Phase
        ensures { record { parts = self.new; phase = result } ≡ prepared self.old (prep_started self.old) }
    {
        let mut prep = Prep::idle(self.fields);
        prep.start(&mut self.counts);
        if prep.next().is_some() {
            return Phase::Preparing(prep);
        }
        self.end_preparation()
    }

    // A sweep begins, which has ended already where the free list is empty.
    fn end_preparation(&self) -> Phase
        ensures { result ≡ sweep_phase self.now.counts.free }
    {
        if self.counts.free_list().is_empty() {
            Phase::Closing { swept: 0 }
        } else {
            Phase::Opening
        }
    }
}
