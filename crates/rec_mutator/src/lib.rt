//! A mutator's machine: it decides which atomic step comes next, and learns the word that the step found.
//!
//! A work, which is a command or a poll, is begun; then `next` names one operation on one shared word, whoever has the
//! words carries it out, and `took` learns what was found, until `answer` has the answer. The machine never sees the words.
//! The rule that it keeps: what comes next and what is learnt are functions of the machine's private record and of the
//! word found alone, and of the buffer in the own mailbox where a step takes it; and each work ends: an allocation after at
//! most two steps more than there are slots, a write, parking and unparking after at most two, a poll and leaving after at most
//! three, and every other command after one.
//! The layer above may use that `next`, `took`, `swap_box` and `begin` are exactly `next_of`, `took_of`, `swapped_of` and
//! `begun_of` of `specs/`, that `took` says why each refusal comes and where a poll ends, and the laws, which are the
//! contracts of the functions in `laws`.
//! Parking and unparking have calls of their own: `park` or `unpark` begins, `pass` learns the word found, and `deposit` or `reopen`
//! swaps the buffer of the present mailbox. Nothing else leads to their phases, so a layer above that never parks may take it that
//! its mutators are in none of them (`IsBetween`).
//! That a mutator logs what it writes and is never stopped is the idea of the paper "Java without the Coffee Breaks"
//! (2001); the steps of each command are this project's profile (`docs/PROFILE.md`).
#![tactic(auto)]

mod laws;
mod machine;
mod made;
mod passage;
mod phase;
mod telling;
mod work;

pub use laws::{
    crossing_words_tell_who_is_parked, failed_scans_claim_each_header_once,
    machine_finds_fitting_words, machine_makes_steps, machine_names_words, machine_parks_by_steps,
    parking_changes_nothing_else, polls_have_causes, refusals_have_causes,
};
pub use machine::Machine;
pub use made::Made;
pub use work::Work;
