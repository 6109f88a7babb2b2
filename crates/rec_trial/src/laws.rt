//! What follows from the definitions alone, each law as the contract of a function that does nothing.
ghost use Rattle.std.specs.Prelude.{ℕ, List};
ghost use Rattle.rec_counts.specs.Counts.{State};
ghost use Rattle.rec_trial.specs.Still.{TrialIsExact};
ghost use Rattle.rec_trial.specs.Tried.{TrialEnds, TrialIsCareful, TrialIsWhole};
ghost use Rattle.rec_trial.specs.Witnessed.{TrialIsWitnessed};

/// At every moment, whatever words it was given: no true count changes; marking, blackening and collecting load each field at
/// most once; the sets are disjoint lists of unreleased slots; and what comes next is a field of the heap.
pub fn trial_is_careful()
    ensures { (fields : ℕ) (before : State) (words : List ℕ) → TrialIsCareful fields before words }
{}

/// When a trial is over, whatever words it was given: each marked slot is a member or Black; a member is named by at least as
/// many words that marking loaded as its true count, and by none that blackening loaded; and no field of a member leads to a
/// member of a later set.
pub fn trial_is_whole()
    ensures { (fields : ℕ) (before : State) (words : List ℕ) → TrialIsWhole fields before words }
{}

/// When a trial is over, whatever words it was given: a member has at most as many references as there are fields that marking
/// found to lead to it; and where such a field is of no member, blackening found another word there.
pub fn trial_is_witnessed()
    ensures { (fields : ℕ) (before : State) (words : List ℕ) → TrialIsWitnessed fields before words }
{}

/// On words that do not change, the marked slots are exactly those on a path of fields from a Purple root that is not released,
/// on which no slot is Green, the last one included. The members are exactly the marked slots that no marked slot with a rest
/// reaches by a path on which no slot is Green.
pub fn trial_is_exact()
    ensures { (fields : ℕ) (word : (slot field : ℕ) → ℕ) (before : State) (words : List ℕ) → TrialIsExact fields word before words }
{}

/// A trial is over after at most three loads a field.
pub fn trial_ends()
    ensures { (fields : ℕ) (before : State) (words : List ℕ) → TrialEnds fields before words }
{}
