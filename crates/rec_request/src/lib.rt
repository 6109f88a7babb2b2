//! What the program `recycler` is asked for, by the words that it is called with.
//!
//! The rule: words ask for one thing or are no command line. `specs/CommandLine` says which: a subcommand, its options, and each number in
//! its range. `clap` finds the subcommand and its options in the words, and std's `parse` reads the numbers.
//!
//! The layer above may use the contract of `read_words`, and of `proofs/Requests` that words ask for no two kinds of thing, and that each
//! number is in its range. The form of a command line is this project's profile (`docs/PROFILE.md`).
#![tactic(auto)]

mod command_line;
mod request;

pub use command_line::{Refusal, read_words};
pub use request::{How, Keeping, Kept, Make, Play, Request, Resume};
