//! The backup trace: which slots registers reach, found by a walk of its own over the fields, frontier by frontier, on several threads.
//!
//! A trace begins with what the registers name. What was found last is the frontier: its fields are looked at, and what they lead to,
//! and wasn't found before, is the next one. A long frontier is cut into chunks, and threads look at them side by side.
//! The rule that this crate keeps: a trace lists just the slots on a path of fields from a register, each once, in the order of a
//! listing, into however many chunks a frontier is cut. After settling just these slots hold objects, and settling changes no trace.
//! The layer above may use the contract of `trace`, and the laws, which are the contracts of the functions in `laws`.
//! That a tracing collector backs up the counts is the idea of the paper "Java without the Coffee Breaks" (2001); here the trace frees
//! nothing, and is a second opinion on what settling left. Chunks and their threads are this project's profile (`docs/PROFILE.md`).
#![tactic(auto)]

mod chunks;
mod fields;
mod frontier;
mod laws;
mod tracing;

pub use laws::{settled_heaps_are_traced, settling_keeps_traces};
pub use tracing::trace;
