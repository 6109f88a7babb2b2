//! What the collector's heap means: plain values and definitions that every other crate speaks of.
//!
//! Commands and their answers; the heap that never frees, which says what each command has to answer; what a register
//! reaches, and in which order a listing numbers it; when one order of events explains the answers of all mutators; and
//! when such a heap stands for the words of a running one. Then references, counts and reach of a heap that counts late: what
//! its words, registers and logs come to at an epoch, and what no move of a mutator or of the collector breaks. The crate
//! knows no machine and no buffer.
//! The layer above may use the definitions of `specs/`, and the laws, which are the contracts of the functions in `laws`
//! and `set_laws`.
//! The heap that never frees is the specification of this project; what it specifies is the collector of the paper
//! "Java without the Coffee Breaks" (2001), whose references are counted an epoch late.
#![tactic(auto)]

mod answer;
mod command;
mod laws;
pub mod limits;
mod set_laws;
mod told;

pub use answer::Answer;
pub use command::Cmd;
pub use laws::{
    batches_are_covered, clearings_are_covered, counts_are_the_formula, later_epochs_stay_in_reach,
    listing_is_unique, listing_stands, moves_keep_accounts, numbering_is_unique,
    numbering_lists_the_reached, the_given_up_are_uncounted, the_given_up_are_unnamed,
    the_uncounted_are_gone,
};
pub use set_laws::{loaded_words_stand, sets_that_pass_are_out_of_reach, tests_keep_accounts};
pub use told::Told;
