//! What follows from the definitions alone, each law as the contract of a function that does nothing.

ghost use Rattle.std.specs.Prelude.{◌≡◌, ℕ, ◌<◌, ◌^◌, List, false, true};
ghost use Rattle.rec_word.specs.Mailbox.{epoch_in, holds};
ghost use Rattle.rec_word.specs.Op.{written};
ghost use Rattle.rec_word.specs.declared.op.Op.{Op};
ghost use Rattle.rec_model.specs.declared.command.Cmd.{Cmd as Command};
ghost use Rattle.rec_model.specs.declared.told.Told.{Told};
ghost use Rattle.rec_log.specs.declared.contents.Contents.{Contents};
ghost use Rattle.rec_mutator.specs.Private.{Private, is_busy, IsMachine};
ghost use Rattle.rec_mutator.specs.Next.{next_of};
ghost use Rattle.rec_mutator.specs.Parking.{berth_left_of, passage_of, ComesBack, IsPassing, Passes, TellsParked};
ghost use Rattle.rec_mutator.specs.Took.{left_of, nulls_of, step_of, took_of, IsBetween, IsFound};
ghost use Rattle.rec_mutator.specs.Step.{WholeStep, NamesSlots, NamesWord, IsFitting};
ghost use Rattle.rec_mutator.specs.Causes.{AnswersBy, HasCause, PollHasCause};
ghost use Rattle.rec_mutator.specs.Scans.{claims_of, FailsScan};

/// What comes next, what is learnt from the word found and from the mailbox that is taken, and what is left in the mailbox is one
/// of the steps of a mutator.
pub fn machine_makes_steps()
    ensures { (p : Private) (word : ℕ) (box : Contents) → is_busy p ≡ true → IsBetween p.phase → WholeStep p word box (next_of p) (step_of p word box) (left_of (took_of p word) box) }
{}

/// The operation that comes next names a word of the heap, where the registers name its slots.
pub fn machine_names_words()
    ensures { (p : Private) → IsMachine p → NamesSlots p → NamesWord p.slots p.fields (next_of p) }
{}

/// The word that a step finds is one that it may find, in a heap whose registers name taken slots.
pub fn machine_finds_fitting_words()
    ensures { (p : Private) (cell : Op → ℕ) → IsFitting p cell → IsFound p (next_of p) (cell (next_of p)) }
{}

/// Each refusal comes exactly where its cause is, and changes no register and no log.
pub fn refusals_have_causes()
    ensures { (p : Private) (word : ℕ) (box : Contents) (cmd : Command) (told : Told) → IsMachine p → AnswersBy p word box cmd told → HasCause p (step_of p word box) cmd word told.answer }
{}

/// A scan that fails has claimed the header of each slot once, whichever slot it began with.
pub fn failed_scans_claim_each_header_once()
    ensures { (header slots from before : ℕ) (made : List Op) (words : List ℕ) → from < slots → FailsScan header slots from before made words → (slot : ℕ) → slot < slots → claims_of slot made ≡ 1 }
{}

/// A poll tells that it crossed nowhere exactly where the epoch word was the own epoch; else it tells the epoch after the own
/// one, in which the mutator is then.
pub fn polls_have_causes()
    ensures { (p : Private) (word : ℕ) (box : Contents) → is_busy p ≡ true → IsBetween p.phase → PollHasCause p (step_of p word box) word }
{}

/// What comes next, what is learnt from the word found and from the present mailbox, and what is left in that mailbox is one of the five
/// steps of a mutator that parks or unparks.
pub fn machine_parks_by_steps()
    ensures { (p : Private) (word : ℕ) (berth : Contents) → IsPassing p.phase → Passes p word berth (next_of p) (passage_of p word berth) (berth_left_of (took_of p word) berth) }
{}

/// The crossing word that a step of parking or unparking leaves says whether its mutator is parked and in which epoch it is, and the past
/// mailbox is where it was.
pub fn crossing_words_tell_who_is_parked()
    ensures { (p : Private) (word : ℕ) (berth : Contents) → IsMachine p → IsPassing p.phase → word < 2 ^ 34 → IsFound p (next_of p) word → TellsParked word (written (next_of p) word) (passage_of p word berth) }
{}

/// Who parks and then unparks comes back as it was, where the collector has taken nothing in the meantime: the log goes on with its next
/// entry, and registers and epoch are the same.
pub fn parking_changes_nothing_else()
    ensures { (p : Private) (first second third fourth : ℕ) (berth : Contents) → p.parked ≡ false → p.log.snapshot ≡ nulls_of p → holds third ≡ true → epoch_in third ≡ p.epoch → ComesBack p first second third fourth berth }
{}
