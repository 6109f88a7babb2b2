//! The playing rule, and the run of a script by it.
//!
//! Where several mutators' commands run one at a time, a rule says who comes next. While a mutator has commands left, and
//! no more turns were drawn than told, a random word names one of those mutators or the collector; a mutator's turn is its
//! next command, and the collector's one step of its collection. Afterwards the remaining commands run mutator by mutator.
//! A mutator may leave the heap by its last command. Then the collector no longer waits for it, and it never polls again. Where that
//! command is told `NotYet` the mutator stays, and polls like any other that has no command left.
//! The rule that this crate keeps: who has which turn follows from the numbers of commands, the seed and the number of
//! drawn turns alone, and never from the heap; each mutator's own commands keep their order; and what is told is what the
//! heap that never frees tells in that order, with frees and sweeps among the answers.
//! That order is the legal order of every run (`rec_order`), of the moves that the turns make up: each object that is freed is
//! the one that the freed slot held. Each log has room for all commands of its mutator, so none is ever full.
//! A run is made turn by turn (`Playing`): `play` drains it and notes what is told, and `play_watched` shows the collector's steps to a
//! watch as well. A `Walk` makes the same turns one by one, and then
//! those of settling (`rec_settle`). Its heap is the one at the end of the run that the turns so far make up, and once all turns are
//! made, settling has come so far from there (`specs/Watched`). So a walk that has no move left has come to what `play` and `settle`
//! come to.
//! The layer above may use the contracts of `play` and `play_watched`, of `Playing`, of `Walk` and of the calls that open what a script is played with,
//! those of the rule itself (`Schedule`), the laws, which are the contracts of the functions in `laws`, and the definitions of
//! `specs/`.
//! The rule is this project's profile (`docs/PROFILE.md`); the generator is PCG's, by O'Neill, with 32-bit words.
#![tactic(auto)]

mod actor;
mod laws;
mod moves;
mod opening;
mod player;
mod schedule;
mod stage;
mod walk;
mod whole;

pub use actor::Actor;
pub use laws::{orders_name_each_command, turns_are_drawn_as_told, walks_end_as_played};
pub use moves::Move;
pub use opening::{config_for, journals_for, lengths_of, order_for};
pub use player::Playing;
pub use schedule::{MOST_MUTATORS, Schedule};
pub use stage::Stage;
pub use walk::Walk;
pub use whole::{play, play_watched};
