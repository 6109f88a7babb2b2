//! The commands of a script on a running heap: a worker for each mutator and one for the collector, each on a thread of its own.
//!
//! `drive` starts a thread for each mutator, and the thread that calls it is the collector's worker. The workers begin once all of
//! them are there: where a thread can't be had none does anything, and the crew comes back as it was.
//! The rule that this crate keeps: a mutator's journal gets its commands, each once and in order, with what was told, and these are
//! the lines that the mutator's list tells (`rec_table`). So what `stop` says of the lists it says of the journals.
//! A mutator may leave the heap by its last command. Then its worker polls no more and may end while others go on, and the collector
//! waits for it no more. Where that command is told `NotYet` the mutator stays, and attends like any other that is done.
//! Nothing is promised of pace: that threads get on, that a collection completes beside the commands. A collector that waits lets
//! others run between two looks, and says whom it waits for; a mutator that is done polls when it is waited for.
//! The layer above may use the contract of `drive` and the definitions of `specs/`.
#![tactic(auto)]

mod collecting;
mod crew;
mod driving;
mod duty;
mod gate;
mod pause;
mod signals;
mod worker;

pub use crew::Crew;
pub use driving::drive;
pub use gate::{Gate, OpenGate};
