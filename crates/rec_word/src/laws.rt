//! What follows from the definitions alone, as the contract of a function that does nothing.

ghost use Rattle.std.specs.Prelude.{◌≡◌, ℕ, ◌+◌, ◌<◌, ◌≤◌, ◌^◌, Bool, List};
ghost use Rattle.rec_word.specs.Looked.{LooksByTable};
ghost use Rattle.rec_word.specs.Mailbox.{TellsParts, crossing_with};
ghost use Rattle.rec_word.specs.Op.{written};
ghost use Rattle.rec_word.specs.Shift.{ShiftsByTable};
ghost use Rattle.rec_word.specs.Walk.{HasWalked};
ghost use Rattle.rec_word.specs.declared.mailbox.Mailbox.{Mailbox as Place};
ghost use Rattle.rec_word.specs.declared.mailbox.Mailbox.TheVariants.{Spare, WithCollector};
ghost use Rattle.rec_word.specs.declared.op.Op.TheVariants.{ReturnBox};

/// A walk from the first member passes the places of the list's fields, each once and in order: so many of them as it takes
/// steps, or all where it takes more.
pub fn walk_is_whole()
    ensures { (fields : ℕ) (slots : List ℕ) (steps : ℕ) → 0 < fields → HasWalked fields slots steps }
{}

/// A crossing word tells its parts, for each epoch that a mutator may be in or leave into.
pub fn crossing_words_tell()
    ensures { (epoch : ℕ) (mailbox : Place) (held parked : Bool) → epoch ≤ 2 ^ 24 → TellsParts epoch mailbox held parked }
{}

/// What the collector's look finds and leaves: it takes what was retired; for a parked mutator of the epoch before it crosses, and
/// takes the deposit if there is one; and any other word stays.
pub fn looks_follow_the_table()
    ensures { (before epoch : ℕ) → before + 1 ≡ epoch → epoch ≤ 2 ^ 24 → LooksByTable before epoch }
{}

/// Giving a mailbox back says that it is home with a spare, and leaves the epoch and both bits of the present mailbox as they are, which the
/// mutator may have changed since the mailbox was taken.
pub fn returns_leave_the_present_mailbox()
    ensures { (t epoch : ℕ) (held parked : Bool) → epoch ≤ 2 ^ 24 → written (ReturnBox t epoch) (crossing_with epoch WithCollector held parked) ≡ crossing_with epoch Spare held parked }
{}

/// What parking and unparking find and leave: each step writes one of the two bits of the present mailbox, wherever the past mailbox
/// is, and nothing else.
pub fn shifts_follow_the_table()
    ensures { (t epoch : ℕ) (mailbox : Place) → epoch ≤ 2 ^ 24 → ShiftsByTable t epoch mailbox }
{}
