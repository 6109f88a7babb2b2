//! Audit journals, and a checker that trusts nobody.
//!
//! A journal tells, block after block, what mutators wrote and what a collector gathered, freed and swept. `check` reads one,
//! whoever wrote it, and says Yes, with the number of sets that were given up, or which line is at fault by which rule.
//!
//! The rule that this crate keeps: a Yes says that each line is in form, that no word names two references, and that no
//! member of a set that was given up was on a path of references from a root there. A No names the first line that is at
//! fault, and the first rule that fits.
//! The layer above may use the contract of `check`, the contracts of the functions in `laws`, as that a journal has one verdict,
//! in `run_laws`, on the journals of runs, and in `stamp_laws`, on what the stamps in a heap's words tell of its runs.
//! The lines of a journal, its graph and the rules are this project's profile (`docs/AUDIT.md`).
#![tactic(auto)]

mod audit;
mod checker;
mod checking;
mod form;
mod graph;
mod kind;
mod known;
mod laws;
mod lines;
mod reach;
mod reading;
mod references;
mod run_laws;
mod slots;
mod stamp_laws;
mod steps;
mod verdict;

pub use audit::Audit;
pub use checking::check;
pub use laws::{
    clean_journals_are_answered_yes, journals_are_in_form, lines_are_a_beginning,
    no_journal_goes_on, verdicts_are_unique,
};
pub use run_laws::{
    blocks_of_runs_tell_their_epoch, buffers_are_their_mutators_own,
    journals_of_runs_are_answered_yes, journals_of_runs_are_in_form, reach_of_journals_is_of_runs,
    sets_of_runs_are_unreached, steps_of_runs_keep_order, words_of_runs_differ,
};
pub use stamp_laws::{
    loaded_words_stay_references, stamped_heaps_count_late, stamped_words_stay_references,
    stamps_are_dates,
};
pub use verdict::{Rule, Verdict};
