//! The heap on which the commands of one to 63 mutators run, and the turns of its collector, step by step: its shared
//! words, a mailbox for each mutator, the machines of the mutators and of the collector, and the counter of births.
//!
//! A work of a mutator, which is a command or a poll, is begun and then goes on step by step: its machine names one
//! operation, the memory carries it out, and the machine learns the word found; a step that takes the mutator's mailbox swaps
//! the buffer in it. A turn of the collector is such a step of its machine. `command` and `poll` are a begin and steps to the
//! end; a journal keeps what was told, an order who was told. At any time every slot may be offered to the next trial.
//! The rules that it keeps: a heap is the end of a run from its opening, whoever made which step when; and whatever heap that
//! never frees stood for it before a step, the heap that asking gives stands for it afterwards, and the answer is the one asked.
//! What the collector frees no register reaches. A mutator may leave for good, and nothing is asked of one that has left.
//! Between any two steps it is taken apart into `Parts`, its shared words one row among them, and put together again.
//! A `Numbering` lists the slots that registers reach, in the order of a listing. Its list is the one list of the reached slots
//! in that order.
//! A world as plain data is a `Core` (`rec_core`), which says its moves, its runs and what holds over them; here these are code.
//! Many turns in one call (`World::turns`) are as many single turns, made in the loops that the collector's machine has for phases.
//! A `Watch` is shown the steps of the collector, each by an entry, right behind it; `World::turn_watched` makes such a turn.
//! The layer above may use the contracts of `World`, `Watch`, `Journal`, `Order` and `Numbering`, those of the exchange of a mailbox's
//! buffer (`swap_own`, `swap_gathered`), the definitions of `specs/`, and all of `rec_core`, which is exported again: its
//! definitions, its numbers, and the laws of all runs.
//! That mutators run beside each other with a log each is the idea of the paper "Java without the Coffee Breaks" (2001);
//! the commands, their refusals and the words are this project's profile (`docs/PROFILE.md`).
#![tactic(auto)]

mod journal;
mod laws;
mod mailbox;
mod memory;
mod numbering;
mod open_error;
mod order;
mod parts;
mod watch;
mod world;

pub use journal::Journal;
pub use laws::worlds_end_runs;
pub use mailbox::{swap_gathered, swap_own};
pub use numbering::Numbering;
pub use open_error::OpenError;
pub use order::Order;
pub use parts::Parts;
pub use rec_collector::{Policy, Sets, Turn};
pub use rec_core::{
    Config, Part, answers_are_explained, conditions_are_met, failed_allocations_probed_every_slot,
    freed_slots_are_forgotten, nothing_reached_is_freed, orange_members_stay_untouched,
    outside_counts_are_of_the_run, runs_begin_with_an_opening, runs_go_on, runs_keep,
    sets_that_pass_are_garbage, true_counts_are_the_formula, turns_keep_their_promises,
    zeros_are_exact,
};
pub use rec_model::{Cmd, Told};
pub use rec_mutator::{Made, Work};
pub use watch::{Unwatched, Watch};
pub use world::World;
