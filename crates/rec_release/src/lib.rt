//! The collector's release of slots that nothing holds, and the sweep that frees them, as machines: each names one operation
//! on a shared word at a time, and learns the word that was found.
//!
//! A slot whose count came to zero is released: each of its fields is exchanged for null, and what came out has one reference
//! less, so that slots behind it may come to zero in turn. An emptied slot goes to the free list, and the sweep stores 0 in
//! its header.
//! A set that passed both tests is freed likewise: its members are released together.
//! What came out is taken off in one of two ways. After counting, each target is decremented. While sets are tested and
//! freed, an orange target, which may be a member of an earlier set, is lowered: its count falls, and its colour and its
//! buffer stay, so that it joins neither the zeros nor the roots. The freeing of a set always lowers, and a release is told
//! at its start.
//! The rule that this crate keeps: each field of each released slot is exchanged once; each reference that came out takes
//! one off its target's true count, and nothing else changes a true count; a slot that stands in a buffer when it is emptied
//! stays out of the free list; a swept slot has the count of its next birth, which is one. The orange slots stay apart: each
//! is a member of a set, and none is released or stands in the zeros; each other slot that has no count and is not released
//! stands there.
//! A set's members are freed on a walk of `rec_word`.
//! The layer above may use that `next`, `start` and `took` are exactly `next_of`, `started_of` and `took_of` of `specs/`,
//! and the laws, which are the contracts of the functions in `laws`.
//! Releasing by count with a flag for what is buffered is that of "Java without the Coffee Breaks" (2001); one exchange a
//! turn and the count of one for a free slot are this project's profile (`docs/PROFILE.md`).
#![tactic(auto)]

mod at;
mod clears;
mod cycle_free;
mod frees;
mod laws;
mod release;
mod sweep;
mod take_off;

pub use at::At;
pub use clears::Clears;
pub use cycle_free::CycleFree;
pub use frees::Frees;
pub use laws::{cycle_is_whole, release_is_whole, sweep_is_whole};
pub use release::Release;
pub use sweep::Sweep;
