//! Trial deletion, as a machine: it names one load of a field at a time, and learns the word that was found.
//!
//! A slot that lost a reference, and not its last one, may be held by nothing but a cycle. A trial finds out which slots are,
//! on a second count, the cyclic one. It marks what the roots lead to and takes every reference among the marked slots off
//! their cyclic counts; what then has a rest is held by something else, and what that leads to is Black again. The others are
//! White, and go into sets: each may be garbage.
//!
//! The rule that this crate keeps: no true count changes, a set has unreleased slots alone, each slot once in all sets, and
//! every marked slot ends as a member or Black. Where words do not change meanwhile, the members are exactly the marked slots
//! that no marked slot with a rest reaches; a path ends before a Green slot, since a leaf is never traced. Where they do change
//! it is still known which words were loaded, and that is what the tests of a set rest on.
//! The layer above may use that `next`, `start` and `took` are exactly `next_of`, `started_of` and `took_of` of `specs/`,
//! and the laws, which are the contracts of the functions in `laws`: they speak of the record of what was loaded, which
//! proofs alone keep.
//! A collection that makes no trial postpones it (`postpone`): released roots go to the free list, and the others wait.
//! Marking, scanning and collecting with a cyclic count are those of "Concurrent Cycle Collection in Reference Counted
//! Systems" (2001); lists in place of recursion and one load a turn are this project's profile (`docs/PROFILE.md`).
#![tactic(auto)]

mod collecting;
mod laws;
mod loads;
mod marking;
mod phase;
mod postponing;
mod scanning;
mod trial;

pub use laws::{trial_ends, trial_is_careful, trial_is_exact, trial_is_whole, trial_is_witnessed};
pub use loads::Loads;
pub use phase::Phase;
pub use postponing::postpone;
pub use trial::Trial;
