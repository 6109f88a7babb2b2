//! The preparation of sets for their tests, as a machine that names one operation on a shared word at a time and learns the
//! word that was found; the two tests of a set; and what becomes of a set that fails one.
//!
//! A set is a list of slots that trial deletion found to be a possible garbage cycle. Its preparation computes each
//! member's outside count: its true count less the words seen in fields of members that lead to it. A collection later,
//! `delta` asks whether each member is Orange still, and `sigma` whether the outside counts sum to zero. A set that fails
//! one of them is refurbished: its members go back to where they belong.
//! The rule that this crate keeps: each field of each member is loaded once and no other; a word takes one off a member of
//! its own set alone, not below zero; no true count, colour or list changes in preparation; a refurbished member loses no
//! place that it is due.
//! A set's members are prepared on a walk of `rec_word`.
//! The layer above may use that `next`, `start` and `took` are exactly `next_of`, `started_of` and `took_of` of `specs/`,
//! that `refurbish` leaves the lists and slots of `Refurbished`, and the laws, which are the contracts of the functions in
//! `laws`.
//! The two tests have their names from "Concurrent Cycle Collection in Reference Counted Systems" (2001); how they are
//! prepared and decided here is this project's profile (`docs/PROFILE.md`).
#![tactic(auto)]

mod at;
mod fate;
mod judge;
mod laws;
mod loads;
mod prepare;
mod renewal;

pub use at::At;
pub use fate::Fate;
pub use judge::{delta, sigma};
pub use laws::{
    preparation_is_bounded, preparation_is_whole, preparation_names_places,
    sigma_sums_outside_counts,
};
pub use loads::Loads;
pub use prepare::Prep;
pub use renewal::refurbish;
