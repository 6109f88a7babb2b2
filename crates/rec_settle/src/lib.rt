//! Settling: the heap comes to rest, by whole collections alone.
//!
//! Where no mutator works, settling lets the collector turn, and polls whoever it waits for. It finishes the collection of the
//! requested epoch, offers every slot to the trial of the next one, and lets one more collection test and free the sets which that
//! trial found. So it takes three collections, or four where one was under way.
//! The rule that this crate keeps: from every state of a run, in the middle of a collection too, just the slots that registers
//! reach hold objects afterwards, and the count of each is the number of fields and registers that hold it.
//! Settling is made turn by turn (`Settling::next`), or by runs of turns (`Settling::run`), which `settle` drains; `settle_watched` shows
//! each turn to a watch that asks for it. What turns and two whole collections make of a heap at rest is shown of the core alone, in
//! `rec_core`; here is what the turns make up.
//! The layer above may use the contracts of `settle`, of `settle_watched` and of `Settling`, the definitions of `specs/` and of `rec_core`'s `Settled`.
//! Collections, trial deletion and the two tests are those of the paper "Java without the Coffee Breaks" (2001); that every slot
//! is offered to a trial is this project's profile (`docs/PROFILE.md`).
#![tactic(auto)]

mod turns;
mod whole;

pub use turns::{EpochsSpent, Settling};
pub use whole::{Settled, count_taken, settle, settle_watched};
