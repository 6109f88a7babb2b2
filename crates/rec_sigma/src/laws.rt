//! What follows from the definitions alone, each law as the contract of a function that does nothing.

ghost use Rattle.std.specs.Prelude.{ℕ, ◌*◌, ◌<◌, ◌≤◌, Option, IfSome, List, length};
ghost use Rattle.std.specs.List.{concat};
ghost use Rattle.rec_counts.specs.Counts.{State, IsKept};
ghost use Rattle.rec_sigma.specs.declared.at.At.{At};
ghost use Rattle.rec_sigma.specs.Judged.{SumsOutside};
ghost use Rattle.rec_sigma.specs.Prepare.{Machine, IsAtWork, next_of};
ghost use Rattle.rec_sigma.specs.Prepared.{HasPrepared, LoadsWithin, PreparedTo};
ghost use Rattle.rec_word.specs.Load.{Load};

/// Whatever words it is given, a preparation loads each field of each member of each set once and in order, and no other. A
/// member's cyclic count is then its outside count: its true count less the words seen in fields of its own set's members
/// that lead to it, not below zero. Nothing else changes.
pub fn preparation_is_whole()
    ensures { (fields : ℕ) (before : State) (words : List ℕ) → 0 < fields → IsKept before → HasPrepared fields before words }
{}

/// A preparation loads no more fields than the members have, and they have no more than all slots have.
pub fn preparation_is_bounded()
    ensures { (fields : ℕ) (before : State) (at : Option At) (after : State) (loads : List Load) → IsKept before → PreparedTo fields before at after loads → (length loads ≤ length (concat before.sets) * fields) × (length (concat before.sets) * fields ≤ length before.slots * fields) }
{}

/// A preparation names the loading of a field of the heap, while its counts are as it left them.
pub fn preparation_names_places()
    ensures { (m : Machine) (s : State) → IsKept s → IsAtWork m s → IfSome (next_of m) (LoadsWithin (length s.slots * m.fields)) }
{}

/// What `sigma` sums up once all sets are prepared, and nothing was lowered yet, are the members' outside counts.
pub fn sigma_sums_outside_counts()
    ensures { (fields : ℕ) (before after : State) (loads : List Load) (number : ℕ) → IsKept before → SumsOutside fields before after loads number }
{}
