//! What no clause says, and no row of data shows of a built program. Races on a running heap are in `rec_races`.
//!
//! The program's run, from bytes to bytes:
//! - `failures`: sources and sinks fail at every place, and the run says so.
//! - `workers`: mutators' workers are held until others have come on, and so is one until the collector has.
//!
//! On one thread:
//! - `cycles`: played scripts leave garbage cycles, and some collections later each is gone.
//! - `adapters`: a reader and a writer of std that fail are passed on.
//! - `words`, `refused_set`, `cancelled`: worked values from outside.
//!
//! This crate holds tests alone, and nothing stands on it.
#![tactic(auto)]

#[cfg(test)]
mod adapters;
#[cfg(test)]
mod cancelled;
#[cfg(test)]
mod cycles;
#[cfg(test)]
mod failures;
#[cfg(test)]
mod program;
#[cfg(test)]
mod refused_set;
#[cfg(test)]
mod words;
#[cfg(test)]
mod workers;
