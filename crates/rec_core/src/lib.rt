//! The core of a heap with its collector, as plain data, and what holds over every run of it.
//!
//! A `Core` is the shared words, what each mailbox holds, the private record of each mutator and of the collector, and the
//! number of births. A move begins a work of a mutator, or makes one step of it, or one turn of the collector, or has all
//! slots offered to the next trial. A step finds the word that its machine names, puts there what the operation leaves, and
//! gives the machine the word found; one that takes a mailbox swaps the buffer in it. A run is a list of moves from a start, as
//! an opening is.
//! The rule that it keeps: what is said of every heap (`specs/Kept`) holds at the end of every run, whoever made which move
//! when. From it follow the laws: nothing in reach is freed, true counts are the count formula, sets that pass both tests are
//! garbage, and a command is answered as asking a heap that never frees gives it.
//! What the stamps in a heap's own words tell of its runs is said in `rec_audit`, and what collections make of a heap at rest in
//! `rec_settle`.
//! Where each shared word stands in a row of all, for whatever heap keeps one, is said in `specs/Row`, and told by `Layout`.
//! There is no heap here: no list of words in memory, and no code but the ranges of `Config` and the numbers of `Layout`. A heap
//! whose steps and turns are those of a core has all the laws.
//! The layer above may use `Config`, `Layout` and `Part`, the definitions of `specs/`, the laws, which are the contracts of the
//! functions in `laws`, and the lemmas of `proofs/` on moves and runs.
//! That mutators run beside each other with a log each is the idea of the paper "Java without the Coffee Breaks" (2001);
//! the commands, their refusals and the words are this project's profile (`docs/PROFILE.md`).
#![tactic(auto)]

mod config;
mod laws;
mod layout;
mod part;

pub use config::Config;
pub use laws::{
    answers_are_explained, conditions_are_met, dated_heaps_count_late, dated_runs_stand_beside,
    failed_allocations_probed_every_slot, freed_slots_are_forgotten,
    nothing_leads_to_what_is_given_up, nothing_reached_is_freed, orange_members_stay_untouched,
    outside_counts_are_of_own_words, outside_counts_are_of_the_run, runs_begin_with_an_opening,
    runs_go_on, runs_keep, sets_that_pass_are_garbage, shown_sets_are_garbage,
    true_counts_are_the_formula, turns_keep_their_promises, zeros_are_exact,
};
pub use layout::Layout;
pub use part::Part;
