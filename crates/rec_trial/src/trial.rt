ghost use Rattle.std.specs.Prelude.{◌≡◌, ◌<◌, ◌≤◌, ◌+◌, ◌^◌, ◌↔◌, ℕ, true, false, None, List, [], ◌∷◌, ◌++◌, length, IfSome, IsNone, IsSome, IsTrue};
ghost use Rattle.rec_word.specs.Word.{target_of};
ghost use Rattle.rec_counts.specs.Colour.{is_white as is_white_colour};
ghost use Rattle.rec_counts.specs.Counts.{IsKept, State, slot_at};
ghost use Rattle.rec_trial.specs.Moves.{has_rest};
ghost use Rattle.rec_trial.specs.Loaded.{GoesOn, HasMoved, IsAtWork, Ran, Run, noted};
ghost use Rattle.rec_trial.specs.Promised.{IsTrial, unloaded};
ghost use Rattle.rec_trial.specs.declared.phase.Phase.TheVariants.{Collecting, Scanning};
ghost use Rattle.rec_trial.specs.Rules.{CanCollect, CanMark, CanScan, IsReady, LeadsToUnreleased, RulesAt, seen_of, visible};
ghost use Rattle.rec_trial.specs.Trial.{IsHere, IsPassed, NamesPlace, Work, advanced, begun_at, collect_moved, idle_of, is_due, is_due_at, learnt_at, list_of, moved_at, next_of, pointed, roots_moved, scan_moved, settled, started_of, took_of};

use crate::collecting::{begin, collect, last_members};
use crate::loads::Loads;
use crate::marking::{drop_root, mark};
use crate::phase::Phase;
use crate::scanning::{blacken_held, scan, whiten};
use rec_counts::{Colour, Counts};
use rec_word::{Op, place, target};
use std::marker::Model;

/// Trial deletion. No call of it can be refused memory.
#[derive(Drop)]
pub struct Trial {
    fields: u8,
    phase: Phase,
    // How many slots of the marked list scanning, or collecting, has looked at.
    tried: usize,
    // How many slots of the list at work have had all their fields loaded.
    done: usize,
    // The slot and the field that are loaded next.
    slot: u16,
    field: u8,
}

impl Model for Trial {
    ghost use Rattle.std.specs.Prelude.{◌<◌};
    ghost use Rattle.rec_trial.specs.Trial.{Machine};

    ghost Value = { Machine };

    ghost view = { λ trial. record { fields = trial.fields; phase = trial.phase; tried = trial.tried; done = trial.done; slot = trial.slot; field = trial.field } };

    ghost invariant = { λ trial. trial.field < trial.fields };
}

impl Trial {
    /// A trial with no work, over slots with so many fields, at least one.
    #[tactic(auto, unfolding(crate::specs::Trial::next_of))]
    pub fn idle(fields: u8) -> Trial
        requires { 0 < fields }
        ensures idle { result ≡ idle_of fields }
        ensures none { IsNone (next_of result) }
    {
        Trial {
            fields,
            phase: Phase::Idle,
            tried: 0,
            done: 0,
            slot: 0,
            field: 0,
        }
    }

    /// Begins a trial: roots are dropped, and what the first one that is Purple leads to is to be loaded.
    pub fn start(&mut self, counts: &mut Counts)
        requires idle { IsNone (next_of self.old) }
        requires ready { IsReady counts.old }

        ensures started { record { machine = self.new; counts = counts.new } ≡ started_of self.old.fields counts.old }
        ensures kept { IsAtWork self.new counts.new }
        ensures place { NamesPlace (length counts.new.slots) self.new }
        ensures slots { length counts.new.slots ≡ length counts.old.slots }

        // The promises of a trial, with nothing loaded yet.
        ensures promised { IsTrial self.old.fields counts.old [] (unloaded (record { machine = self.new; counts = counts.new })) }
    {
        counts.rules();
        self.begin_phase(Phase::Marking);
        self.settle(Phase::Marking, counts);
    }

    /// What comes next: a field of a marked slot is loaded. None where the trial is over.
    #[tactic(auto, unfolding(crate::specs::Trial::next_of))]
    pub fn next(&self) -> Option<Op>
        ensures { result ≡ next_of self.now }
    {
        match self.phase {
            Phase::Idle => None,
            _ => Some(Op::LoadChild(place(self.slot, self.field, self.fields))),
        }
    }

    /// Learns the word that the field holds. One that leads to a Green slot counts as null: a trial doesn't see leaves.
    #[inline(always)]
    pub fn took(&mut self, counts: &mut Counts, word: u64)
        requires busy { IsSome (next_of self.old) }
        requires kept { IsAtWork self.old counts.old }
        requires named { LeadsToUnreleased counts.old word }

        ensures took { record { machine = self.new; counts = counts.new } ≡ took_of (record { machine = self.old; counts = counts.old }) (visible counts.old word) }
        ensures kept { IsAtWork self.new counts.new }
        ensures place { NamesPlace (length counts.new.slots) self.new }
        ensures slots { length counts.new.slots ≡ length counts.old.slots }

        // The promises of the same trial go on, with one load more in its record.
        ensures promised { (fields : ℕ) (before : State) (words : List ℕ) (r : Run) → r.work ≡ record { machine = self.old; counts = counts.old } → IsTrial fields before words r → IsTrial fields before (words ++ visible counts.old word ∷ []) (noted r (visible counts.old word)) }
        ensures recorded { (r : Run) → r.work ≡ record { machine = self.old; counts = counts.old } → (noted r (visible counts.old word)).work ≡ record { machine = self.new; counts = counts.new } }
    {
        match self.phase {
            Phase::Idle => unreachable!(),
            Phase::Marking => self.took_in(Phase::Marking, counts, word),
            Phase::Scanning => self.took_in(Phase::Scanning, counts, word),
            Phase::Collecting => self.took_in(Phase::Collecting, counts, word),
        }
    }

    /// Loads words and learns them, at least one and at most so many, as long as something comes next. It answers how many. All that
    /// the trial has is kept in locals meanwhile: the compiler loads nothing of it again behind a load that others may see.
    #[inline(always)]
    pub fn run<B, S, L: Loads<B, S>>(
        &mut self,
        counts: &mut Counts,
        board: &B,
        seat: &mut S,
        most: u32,
    ) -> u32
        requires busy { IsSome (next_of self.old) }
        requires kept { IsAtWork self.old counts.old }
        requires some { 0 < most }
        requires stands { L.StandsAt board.now seat.old 0 (record { machine = self.old; counts = counts.old }) }

        ensures ran { Ran (record { machine = self.old; counts = counts.old }) result (record { machine = self.new; counts = counts.new }) }
        ensures some { 0 < result }
        ensures few { result ≤ most }
        ensures stands { L.StandsAt board.now seat.new result (record { machine = self.new; counts = counts.new }) }
    {
        let mut trial = Trial {
            fields: self.fields,
            phase: self.phase,
            tried: self.tried,
            done: self.done,
            slot: self.slot,
            field: self.field,
        };
        let mut made = 0;
        while made < most && trial.is_busy() {
            made = trial.run_on::<B, S, L>(counts, board, seat, made, most);
        }
        *self = trial;
        made
    }

    #[inline(always)]
    fn is_busy(&self) -> bool
        ensures { IsTrue result ↔ IsSome (next_of self.now) }
    {
        self.next().is_some()
    }

    // Goes on with a run up to the end of a phase, where so many words of so many were loaded, and answers how many were then.
    #[inline(always)]
    fn run_on<B, S, L: Loads<B, S>>(
        &mut self,
        counts: &mut Counts,
        board: &B,
        seat: &mut S,
        from: u32,
        most: u32,
    ) -> u32
        requires busy { IsSome (next_of self.old) }
        requires kept { IsAtWork self.old counts.old }
        requires fewer { from < most }
        requires stands { L.StandsAt board.now seat.old from (record { machine = self.old; counts = counts.old }) }

        ensures ran { (first : Work) → Ran first from (record { machine = self.old; counts = counts.old }) → Ran first result (record { machine = self.new; counts = counts.new }) }
        ensures kept { IsAtWork self.new counts.new }
        ensures further { from < result }
        ensures few { result ≤ most }
        ensures stands { L.StandsAt board.now seat.new result (record { machine = self.new; counts = counts.new }) }
    {
        match self.phase {
            Phase::Idle => unreachable!(),
            Phase::Marking => self.run_in::<B, S, L>(
                Phase::Marking,
                counts,
                board,
                seat,
                from,
                most,
            ),
            Phase::Scanning => self.run_in::<B, S, L>(
                Phase::Scanning,
                counts,
                board,
                seat,
                from,
                most,
            ),
            Phase::Collecting => self.run_in::<B, S, L>(
                Phase::Collecting,
                counts,
                board,
                seat,
                from,
                most,
            ),
        }
    }

    // The same in a phase that is known: a loop whose phase is known is straight code.
    #[inline(always)]
    fn run_in<B, S, L: Loads<B, S>>(
        &mut self,
        phase: Phase,
        counts: &mut Counts,
        board: &B,
        seat: &mut S,
        from: u32,
        most: u32,
    ) -> u32
        requires phase { phase ≡ self.old.phase }
        requires busy { IsSome (next_of self.old) }
        requires kept { IsAtWork self.old counts.old }
        requires fewer { from < most }
        requires stands { L.StandsAt board.now seat.old from (record { machine = self.old; counts = counts.old }) }

        ensures ran { (first : Work) → Ran first from (record { machine = self.old; counts = counts.old }) → Ran first result (record { machine = self.new; counts = counts.new }) }
        ensures kept { IsAtWork self.new counts.new }
        ensures further { from < result }
        ensures few { result ≤ most }
        ensures stands { L.StandsAt board.now seat.new result (record { machine = self.new; counts = counts.new }) }
    {
        for made in from..most {
            let word = L::load(board, seat, place(self.slot, self.field, self.fields));
            self.took_in(phase, counts, word);
            if !self.is_in(phase) {
                return made + 1;
            }
        }
        most
    }

    // Whether it is in this phase.
    #[inline(always)]
    fn is_in(&self, phase: Phase) -> bool
        ensures { IsTrue result ↔ (phase ≡ self.now.phase) }
    {
        phase == self.phase
    }

    // The same in a phase that is known, so that what follows asks for it no more.
    #[inline(always)]
    fn took_in(&mut self, phase: Phase, counts: &mut Counts, word: u64)
        requires phase { phase ≡ self.old.phase }
        requires busy { IsSome (next_of self.old) }
        requires kept { IsAtWork self.old counts.old }
        requires named { LeadsToUnreleased counts.old word }

        ensures took { record { machine = self.new; counts = counts.new } ≡ took_of (record { machine = self.old; counts = counts.old }) (visible counts.old word) }
        ensures kept { IsAtWork self.new counts.new }
        ensures place { NamesPlace (length counts.new.slots) self.new }
        ensures slots { length counts.new.slots ≡ length counts.old.slots }

        // The promises of the same trial go on, with one load more in its record.
        ensures promised { (fields : ℕ) (before : State) (words : List ℕ) (r : Run) → r.work ≡ record { machine = self.old; counts = counts.old } → IsTrial fields before words r → IsTrial fields before (words ++ visible counts.old word ∷ []) (noted r (visible counts.old word)) }
        ensures recorded { (r : Run) → r.work ≡ record { machine = self.old; counts = counts.old } → (noted r (visible counts.old word)).work ≡ record { machine = self.new; counts = counts.new } }
    {
        counts.rules();
        let seen = seen_in(phase, counts, word);
        self.learn(phase, counts, seen);
        self.go_to_next(phase, counts);
    }

    #[inline(always)]
    fn learn(&self, phase: Phase, counts: &mut Counts, target: Option<u16>)
        requires in_range { IfSome target (λ slot. slot < length counts.old.slots) }
        requires due { is_due_at phase self.now.done counts.old ≡ true }
        requires rules { RulesAt phase counts.old }
        ensures { counts.new ≡ learnt_at phase counts.old target }
    {
        match phase {
            Phase::Idle => {}
            Phase::Marking => mark(counts, target),
            Phase::Scanning => scan(counts, target),
            Phase::Collecting => collect(counts, target),
        }
    }

    // On to the next load, or to the end. The next field of the same slot is due in any case: learning takes nothing off the list at work.
    #[inline(always)]
    fn go_to_next(&mut self, phase: Phase, counts: &mut Counts)
        requires phase { phase ≡ self.old.phase }
        requires small { self.old.done < 2 ^ 16 }
        requires here { IsHere phase counts.old self.old }
        requires goes_on { GoesOn (advanced self.old) counts.old }
        ensures { record { machine = self.new; counts = counts.new } ≡ pointed (settled (record { machine = advanced self.old; counts = counts.old })) }
    {
        if self.field + 1 < self.fields {
            self.field += 1;
            return;
        }
        self.done += 1;
        self.field = 0;
        self.settle(phase, counts);
    }

    // Whether a field is to be loaded, or nothing is left to do.
    fn is_due(&self, counts: &Counts) -> bool
        ensures { result ≡ is_due_at self.now.phase self.now.done counts.now }
    {
        is_due_in(self.phase, self.done, counts)
    }

    // Goes on without a load up to the next one, or to the end, and finds its slot. Mostly the next load is due already.
    #[inline(always)]
    fn settle(&mut self, phase: Phase, counts: &mut Counts)
        requires phase { phase ≡ self.old.phase }
        requires goes_on { GoesOn self.old counts.old }
        ensures { record { machine = self.new; counts = counts.new } ≡ pointed (settled (record { machine = self.old; counts = counts.old })) }
    {
        if is_due_in(phase, self.done, counts) {
            self.point(phase, counts);
            return;
        }
        self.go_far(counts);
        self.point(self.phase, counts);
    }

    // The same moves as `go_on`, out of the way of a loop that seldom makes any: what `gone_on` answers has its place in memory here.
    #[inline(always)]
    fn go_far(&mut self, counts: &mut Counts)
        requires { GoesOn self.old counts.old }
        ensures { record { machine = self.new; counts = counts.new } ≡ settled (record { machine = self.old; counts = counts.old }) }
    {
        *self = gone_on(
            self.fields,
            self.phase,
            self.tried,
            self.done,
            self.slot,
            self.field,
            counts,
        );
    }

    // The moves up to the next load, or to the end. Those that look at a marked slot and leave it are made together.
    fn go_on(&mut self, counts: &mut Counts)
        requires { GoesOn self.old counts.old }
        ensures { record { machine = self.new; counts = counts.new } ≡ settled (record { machine = self.old; counts = counts.old }) }
    {
        self.take_roots(counts);
        while !self.is_due(counts) {
            counts.rules();
            self.pass(counts);
            self.move_on(counts);
        }
    }

    // Takes roots up to one that is to be marked, or up to scanning where there is none. The loop knows its phase.
    fn take_roots(&mut self, counts: &mut Counts)
        requires { GoesOn self.old counts.old }
        ensures { (n : ℕ) × HasMoved (record { machine = self.old; counts = counts.old }) n (record { machine = self.new; counts = counts.new }) }
    {
        while self.is_in(Phase::Marking) && !is_due_in(Phase::Marking, self.done, counts) {
            counts.rules();
            self.take_root(counts);
        }
    }

    // Passes the marked slots that scanning, or collecting, looks at and leaves as they are.
    fn pass(&mut self, counts: &Counts)
        requires { IsKept counts.now }
        ensures same { self.new ≡ record self.old { tried = self.new.tried } }
        ensures further { self.old.tried ≤ self.new.tried }
        ensures passed { (i : ℕ) → self.old.tried ≤ i → i < self.new.tried → IsPassed self.old.phase counts.now i }
    {
        let from = self.tried;
        match self.phase {
            Phase::Scanning => self.tried = pass_unheld(counts, from),
            Phase::Collecting => self.tried = pass_others(counts, from),
            _ => {}
        }
    }

    // The slot whose field is loaded next.
    #[inline(always)]
    fn point(&mut self, phase: Phase, counts: &Counts)
        requires { phase ≡ self.old.phase }
        ensures { record { machine = self.new; counts = counts.now } ≡ pointed (record { machine = self.old; counts = counts.now }) }
    {
        let list = list_in(phase, counts);
        self.slot = if self.done < list.len() {
            list[self.done]
        } else {
            0
        };
    }

    fn move_on(&mut self, counts: &mut Counts)
        requires rules { RulesAt self.old.phase counts.old }
        ensures { record { machine = self.new; counts = counts.new } ≡ moved_at self.old.phase (record { machine = self.old; counts = counts.old }) }
    {
        match self.phase {
            Phase::Idle => {}
            Phase::Marking => self.take_root(counts),
            Phase::Scanning => self.scan_on(counts),
            Phase::Collecting => self.collect_on(counts),
        }
    }

    // The first root leaves the root buffer; where there is none, scanning begins.
    #[inline(always)]
    fn take_root(&mut self, counts: &mut Counts)
        requires { CanMark counts.old }
        ensures { record { machine = self.new; counts = counts.new } ≡ roots_moved counts.old.roots (record { machine = self.old; counts = counts.old }) }
    {
        counts.rules();
        match counts.pop_root() {
            Some(slot) => {
                drop_root(counts, slot);
                self.phase = Phase::Marking;
            }
            None => self.begin_phase(Phase::Scanning),
        }
    }

    // The next marked slot becomes Black where it has a rest; after the last one collecting begins.
    fn scan_on(&mut self, counts: &mut Counts)
        requires { CanScan counts.old }
        ensures { record { machine = self.new; counts = counts.new } ≡ moved_at Scanning (record { machine = self.old; counts = counts.old }) }
    {
        counts.rules();
        if self.tried < counts.marked().len() {
            let slot = counts.marked()[self.tried];
            blacken_held(counts, slot);
            self.phase = Phase::Scanning;
            self.tried += 1;
        } else {
            whiten(counts);
            self.begin_phase(Phase::Collecting);
        }
    }

    // The next marked slot begins a set where it is White; after the last one the trial is over.
    fn collect_on(&mut self, counts: &mut Counts)
        requires { CanCollect counts.old }
        ensures { record { machine = self.new; counts = counts.new } ≡ moved_at Collecting (record { machine = self.old; counts = counts.old }) }
    {
        counts.rules();
        if self.tried < counts.marked().len() {
            let slot = counts.marked()[self.tried];
            self.phase = Phase::Collecting;
            self.tried += 1;
            match counts.colour(slot) {
                Colour::White => {
                    begin(counts, slot);
                    self.done = 0;
                }
                _ => {}
            }
        } else {
            counts.clear_marked();
            counts.clear_work();
            self.phase = Phase::Idle;
        }
    }

    // This phase begins, with nothing done in it.
    fn begin_phase(&mut self, phase: Phase)
        ensures begun { self.new ≡ begun_at phase self.old.fields }
        ensures wide { 0 < self.new.fields }
    {
        self.phase = phase;
        self.tried = 0;
        self.done = 0;
        self.slot = 0;
        self.field = 0;
    }
}

// A trial that has come this far, once it has gone on. It is handed over by its parts, so that a caller's trial needs no place in memory.
#[inline(always)]
fn gone_on(
    fields: u8,
    phase: Phase,
    tried: usize,
    done: usize,
    slot: u16,
    field: u8,
    counts: &mut Counts,
) -> Trial
    requires field { field < fields }
    requires goes_on { GoesOn (record { fields = fields; phase = phase; tried = tried; done = done; slot = slot; field = field }) counts.old }
    ensures { record { machine = result; counts = counts.new } ≡ settled (record { machine = record { fields = fields; phase = phase; tried = tried; done = done; slot = slot; field = field }; counts = counts.old }) }
{
    let mut trial = Trial {
        fields,
        phase,
        tried,
        done,
        slot,
        field,
    };
    trial.go_on(counts);
    trial
}

// The list whose slots have their fields loaded, one after another.
#[inline(always)]
fn list_in(phase: Phase, counts: &Counts) -> &[u16]
    ensures { result.now ≡ list_of phase counts.now }
{
    match phase {
        Phase::Idle => &[],
        Phase::Marking => counts.marked(),
        Phase::Scanning => counts.work(),
        Phase::Collecting => last_members(counts),
    }
}

// Whether a field is to be loaded in this phase, or nothing is left to do.
#[inline(always)]
fn is_due_in(phase: Phase, done: usize, counts: &Counts) -> bool
    ensures { result ≡ is_due_at phase done counts.now }
{
    match phase {
        Phase::Idle => true,
        _ => done < list_in(phase, counts).len(),
    }
}

// The place of the first marked slot from this one on that something holds besides; how many there are, or this one, where there is none.
fn pass_unheld(counts: &Counts, from: usize) -> usize
    requires { IsKept counts.now }
    ensures further { from ≤ result }
    ensures passed { (i : ℕ) → from ≤ i → i < result → IsPassed Scanning counts.now i }
{
    let marked = counts.marked();
    for tried in from..marked.len() {
        if is_held(counts, marked[tried]) {
            return tried;
        }
    }
    if from < marked.len() {
        marked.len()
    } else {
        from
    }
}

// The place of the first marked slot from this one on that is White; how many there are, or this one, where there is none.
fn pass_others(counts: &Counts, from: usize) -> usize
    requires { IsKept counts.now }
    ensures further { from ≤ result }
    ensures passed { (i : ℕ) → from ≤ i → i < result → IsPassed Collecting counts.now i }
{
    let marked = counts.marked();
    for tried in from..marked.len() {
        if is_white(counts, marked[tried]) {
            return tried;
        }
    }
    if from < marked.len() {
        marked.len()
    } else {
        from
    }
}

// Whether a marked slot has a rest.
#[inline(always)]
fn is_held(counts: &Counts, slot: u16) -> bool
    requires { slot < length counts.now.slots }
    ensures { result ≡ has_rest (slot_at counts.now slot) }
{
    match counts.colour(slot) {
        Colour::Gray => counts.cyclic(slot) > 0,
        _ => false,
    }
}

// Whether it is White.
#[inline(always)]
fn is_white(counts: &Counts, slot: u16) -> bool
    requires { slot < length counts.now.slots }
    ensures { result ≡ is_white_colour (slot_at counts.now slot).colour }
{
    matches!(counts.colour(slot), Colour::White)
}

// The slot to which a word leads that is seen in this phase. Scanning and collecting leave a Green one as it is, so they needn't ask.
#[inline(always)]
fn seen_in(phase: Phase, counts: &Counts, word: u64) -> Option<u16>
    requires { LeadsToUnreleased counts.now word }
    ensures in_range { IfSome result (λ slot. slot < length counts.now.slots) }
    ensures learnt { learnt_at phase counts.now result ≡ learnt_at phase counts.now (target_of (visible counts.now word)) }
{
    match phase {
        Phase::Marking => see(counts, target(word)),
        _ => target(word),
    }
}

// What a trial sees of a target: a Green one is none.
#[inline(always)]
fn see(counts: &Counts, target: Option<u16>) -> Option<u16>
    requires { IfSome target (λ slot. slot < length counts.now.slots) }
    ensures { result ≡ seen_of counts.now target }
{
    match target {
        Some(slot) if counts.colour(slot).is_green() => None,
        _ => target,
    }
}
