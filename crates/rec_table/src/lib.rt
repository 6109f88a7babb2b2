//! The running heap: a world whose mutators and whose collector are carried on by threads of their own.
//!
//! `Heap::start` moves a world's words and mailboxes onto an atomic table of the kit, and gives an end for each actor: a `Mutator`
//! for each of the world's, and the `Collector`. An end makes the steps of its machine: it looks which operation comes next, carries
//! that out as one atomic operation of the table, and its machine learns the word found. No call of an end can be refused memory, takes
//! a lock or a handle, or waits. `Heap::stop` takes all ends back, and gives the world that the heap has become. A mutator may leave for good
//! meanwhile, and nothing is asked of one that has left.
//! The rule that the table keeps: there is one run of the core from the started world, whose last state has the table's words and
//! mailboxes; and each end's list, of the works that it began and the words that its steps found, is its own moves in that run, each
//! once and in order. An operation of a seat appends to that run what its kind makes and no more, whatever other threads do between:
//! its actor's step, with the begin of its work where that begins, or nothing.
//! The layer above may use the contracts of `Heap`, `Mutator` and `Collector` and the definitions of `specs/`: what a list makes up
//! (`Beats`), what an operation makes (`Operations`), why a command was answered so (`Answered`), which lines a list tells
//! (`Journals`), and what the world is that stopping gives (`Ends`).
//! What `stop` promises of all lists rests on the laws of `rec_core` and on the legal order of every run, in `rec_order`.
#![tactic(auto)]

mod actor;
mod board;
mod collector;
mod heap;
mod laws;
mod mutator;
mod operating;
mod rule;
mod runs;
mod scan;
mod seating;
mod spare;
mod start;
mod telling;
mod views;

pub use collector::Collector;
pub use heap::Heap;
pub use laws::steps_are_made_by_operations;
pub use mutator::Mutator;
pub use rule::{
    Doing, Gives, Glanced, Looked, Makes, Passes, Returned, Running, Takes, Turned, Turning,
};
pub use start::Start;
pub use telling::Telling;
pub use views::{Beat, CollectorSeat, Seated, View};
