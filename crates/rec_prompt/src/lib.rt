//! Promptness: when a slot that is lost is freed while mutators go on.
//!
//! A slot is lost where it holds an object and no register reaches it. Nothing that is done later leads to it anew: what a mutator puts
//! into a field, replaces there, or has in a register as it leaves an epoch, it has reached. So two epochs on, nothing that is still to
//! be counted names a lost slot, and its count is the number of fields that lead to it.
//! The rule that this crate keeps: what was lost before two collections and isn't freed by their end has a count. So a field leads to
//! it, of a slot that was lost and isn't freed either. As slots are finite, a cycle leads to it.
//! A garbage cycle has counts. That the collector comes to it rests on another rule: each slot that isn't Green hangs on something that
//! the collector still has to look at (`specs/Cover`). Writes, births and crossings keep it, since they log what they take away. A batch
//! keeps it, since what it only adds to was in the reach of the epoch before. A trial keeps it, since it ends with each slot a member of a
//! set, or on a path of fields from what is pending or released. So between two collections, two epochs on, each lost slot is a member,
//! and the tests of the next collection release it. It isn't shown yet for a set that is refused: its members that are neither Purple nor
//! the first then hang on the others.
//! The layer above may use the laws of all runs, which are the contracts of the functions in `laws`, and the definitions of `specs/`.
//! How a run goes, and what every heap keeps, stands in `rec_core`.
#![tactic(auto)]

mod laws;

pub use laws::{
    lost_slots_are_freed_while_no_set_is_refused, lost_slots_behind_no_cycle_are_freed,
    lost_slots_stay_lost, nothing_is_forgotten,
};
