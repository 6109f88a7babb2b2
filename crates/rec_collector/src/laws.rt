//! What follows from the definitions alone, each law as the contract of a function that does nothing.

ghost use Rattle.std.specs.Prelude.{◌≡◌, ◌≢◌, ◌↔◌, ◌⊎◌, ◌≤◌, ◌+◌, ◌-◌, ℕ, Bool, false, true, slice_set, List, [], IfSome, Option, Some, length};
ghost use Rattle.rec_log.specs.declared.contents.Contents.{Contents};
ghost use Rattle.rec_counts.specs.Batch.{batch};
ghost use Rattle.rec_counts.specs.Targets.{added, leaves, taken};
ghost use Rattle.rec_counts.specs.declared.colour.Colour.TheVariants.{Orange};
ghost use Rattle.rec_counts.specs.Counts.{slot_at, IsKept as IsKeptCounts, State};
ghost use Rattle.rec_sigma.specs.Prepared.{seen};
ghost use Rattle.rec_collector.specs.CrossedFor.{IsCrossedFor};
ghost use Rattle.rec_collector.specs.Followed.{makes_trial, with_offers};
ghost use Rattle.rec_collector.specs.Given.{IsGiven, IsSized};
ghost use Rattle.rec_collector.specs.Kept.{IsMachine};
ghost use Rattle.rec_collector.specs.Next.{next_of};
ghost use Rattle.rec_collector.specs.Offered.{AreOffered};
ghost use Rattle.rec_collector.specs.Outside.{AreOutside, HasSets};
ghost use Rattle.rec_collector.specs.Parts.{Parts};
ghost use Rattle.rec_collector.specs.Postponed.{decided, postponed_behind, trial_in, Untried};
ghost use Rattle.rec_collector.specs.Private.{Private};
ghost use Rattle.rec_collector.specs.declared.phase.Phase.TheVariants.{Idle, Looking, Returning};
ghost use Rattle.rec_collector.specs.Shown.{IsShownAsMade};
ghost use Rattle.rec_collector.specs.Step.{IsBetween, NamesWord, Step, WholeStep};
ghost use Rattle.rec_collector.specs.Took.{left_of, step_of, took_of, turn_of};
ghost use Rattle.rec_collector.specs.Touched.{IsOrangeIn, named_by, tried_at, WasUntouched};
ghost use Rattle.rec_collector.specs.Zeros.{AreTheZeros};
ghost use Rattle.rec_collector.specs.declared.turn.Turn.{Turn};
ghost use Rattle.rec_collector.specs.declared.turn.Turn.TheVariants.{Waiting};
ghost use Rattle.rec_word.specs.Mailbox.{crossing_with};
ghost use Rattle.rec_word.specs.declared.mailbox.Mailbox.TheVariants.{Spare};
ghost use Rattle.rec_word.specs.declared.op.Op.{Op};

/// What comes next, what is learnt, what is answered and what is left in the mailbox is one of the steps of the collector, whatever the word found and
/// whatever is in the mailbox, as long as the word is what a machine may be given.
pub fn machine_makes_steps()
    ensures { (p : Private) (word : ℕ) (box : Contents) → IsMachine p → IsBetween p.phase → IsGiven p word → WholeStep p word box (next_of p) (step_of p word box) (turn_of p word) (left_of (took_of p word) box) }
{}

/// The operation that comes next names a word of the heap, and is one of the collector's seven.
pub fn machine_names_words()
    ensures { (p : Private) → IsMachine p → IfSome (next_of p) (NamesWord (length p.counts.slots) p.fields (length p.newer)) }
{}

/// What every machine keeps holds after every step, whatever the word that the step finds and the buffer in the mailbox, as
/// long as these are what a machine may be given.
pub fn machines_stay_machines()
    ensures { (p : Private) (word : ℕ) (box : Contents) → IsMachine p → IsBetween p.phase → IsGiven p word → IsSized p.registers p.capacity box → IsMachine (step_of p word box) }
{}

/// In every phase of a machine the zeros are exactly the slots without a count that are neither released nor Orange.
pub fn zeros_are_exact()
    ensures { (p : Private) → IsMachine p → AreTheZeros p.counts }
{}

/// While prepared sets wait for their tests and are tested, the cyclic count of each member that is Orange is its outside count, of
/// which each reference lowered since preparation took one off: its true count now, less the words that preparation saw in fields of
/// the set's members.
pub fn orange_members_have_outside_counts()
    ensures outside { (p : Private) → IsMachine p → HasSets p.phase → AreOutside p.fields p.counts }
    ensures cyclic { (fields : ℕ) (s : State) (a : AreOutside fields s) (number x : ℕ) → (slot_at s x).set ≡ Some number → (slot_at s x).colour ≡ Orange → (slot_at s x).cyclic ≡ (slot_at s x).count - seen a.before number a.loads x }
{}

/// A member of a prepared set that is Orange still was touched by nothing since its preparation. Up to the next trial, whatever step
/// leaves it Orange found it Orange in the same set, and named it nowhere: no increment, no decrement and no snapshot of the batch, and
/// no decrement since. In a steady heap a register that didn't change counts as none. A reference that was lowered came off its true count and off its cyclic count, not below zero.
pub fn orange_members_are_untouched()
    ensures { (p : Private) (word : ℕ) (box : Contents) (number x : ℕ) → IsMachine p → IsBetween p.phase → IsGiven p word → HasSets p.phase → tried_at (step_of p word box).epoch (step_of p word box).phase ≡ tried_at p.epoch p.phase → IsOrangeIn (step_of p word box).counts number x → WasUntouched p.counts (step_of p word box).counts number x (named_by p word x) }
{}

/// A slot that isn't released is Orange after a batch exactly where it was so before, and no entry and no snapshot of the batch names
/// it, and none bears it as a leaf.
pub fn batches_colour_what_they_name()
    ensures { (s : State) (newer older : List Contents) (x : ℕ) → (slot_at s x).released ≡ false → ((slot_at (batch s newer older) x).colour ≡ Orange) ↔ (((slot_at s x).colour ≡ Orange) × (added x newer + taken x older + leaves x newer ≡ 0)) }
{}

/// Where every slot is to be offered to a trial, each that is neither released nor Green is a candidate root of that trial, and Purple,
/// while no true count and no other list changes. It is offered once: the next trial begins as ever, unless that is asked for again.
pub fn offers_are_whole()
    ensures { (w : Parts) → w.offers ≡ true → IsKeptCounts w.counts → w.counts.sets ≡ [] → AreOffered w.counts (with_offers w).counts × ((with_offers w).offers ≡ false) }
{}

/// A trial is made wherever slots are offered, wherever the policy asks for no candidate roots, and wherever it lets no trial be
/// postponed. In the last two cases no root waits between two collections.
pub fn trials_are_made_where_asked()
    ensures offered { (w : Parts) → w.offers ≡ true → makes_trial w ≡ true }
    ensures always { (w : Parts) → w.policy.least_roots ≡ 0 → makes_trial w ≡ true }
    ensures none_postponed { (w : Parts) → w.policy.most_postponed ≡ 0 → makes_trial w ≡ true }
    ensures none { (p : Private) → IsMachine p → (p.policy.least_roots ≡ 0) ⊎ (p.policy.most_postponed ≡ 0) → p.phase ≡ Idle → p.counts.roots ≡ [] }
{}

/// A trial isn't postponed for ever. A step counts: a trial that it postpones comes to those that were postponed in a row before, and
/// behind one that it makes there are none. There are never more than the policy lets, and where there are as many, a trial is made. So
/// while no step makes a trial, as many are postponed as collections come to theirs, and no more than were left. Of one collection more
/// than the policy lets postpone theirs, all in a row, at least one makes a trial. Behind a trial no root waits between two collections.
pub fn trials_are_not_postponed_for_ever()
    ensures counted { (p q : Private) (word : ℕ) (box : Contents) (op : Option Op) (turn : Turn) (s : Step p word box op q turn) → q.postponed ≡ postponed_behind (trial_in s) p.postponed }
    ensures few { (p : Private) → IsMachine p → p.postponed ≤ p.policy.most_postponed }
    ensures due { (w : Parts) → w.policy.most_postponed ≤ w.postponed → makes_trial w ≡ true }
    ensures in_a_row { (p q : Private) (n : ℕ) → IsMachine p → Untried p n q → (decided q ≡ decided p + n) × (p.postponed + n ≤ p.policy.most_postponed) }
    ensures none { (p : Private) → IsMachine p → p.postponed ≡ 0 → p.phase ≡ Idle → p.counts.roots ≡ [] }
{}

/// The collector waits for no parked mutator: of a word that says that its mutator is parked in the epoch before, a turn makes more than a
/// wait. Where the mutator left a deposit, it is taken in place of a log. Where it left none, one turn crosses for it: its newer buffer has
/// no entries then, and as its snapshot the registers that it had at its last crossing.
pub fn parked_mutators_are_crossed_for()
    ensures waits_for_none { (p : Private) (t u before : ℕ) (held : Bool) → IsMachine p → p.phase ≡ Looking t → before + 1 ≡ p.epoch → turn_of p (crossing_with before Spare held true) ≢ Waiting u }
    ensures takes_deposits { (p : Private) (t before : ℕ) (deposit : Contents) → IsMachine p → p.phase ≡ Looking t → before + 1 ≡ p.epoch → step_of p (crossing_with before Spare true true) deposit ≡ record p { phase = Returning t; turns = p.turns + 1; newer = slice_set p.newer (t - 1) deposit } }
    ensures crosses { (p : Private) (t before : ℕ) (box : Contents) → IsMachine p → p.phase ≡ Looking t → before + 1 ≡ p.epoch → IsCrossedFor p (step_of p (crossing_with before Spare false true) box) t }
{}

/// What a watch is shown of a step is what the step did, by whichever of the rules it was made. It was shown a batch exactly where the
/// step's counts went through one of these newer buffers, and a set exactly where that was the last one, and passed both tests in the step.
/// A collection was completed exactly where the step's turn tells so.
pub fn what_is_shown_was_done()
    ensures { (p q : Private) (word : ℕ) (box : Contents) (op : Op) (turn : Turn) (s : Step p word box (Some op) q turn) → IsMachine p → IsGiven p word → IsShownAsMade op s }
{}
