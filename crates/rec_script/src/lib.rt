//! Scripts: how large a heap is, and what each mutator asks of it, as text.
//!
//! The rule that this crate keeps: a script is read exactly from the texts that spell it. `specs/Script.antt` says which
//! these are, apart from the reader, and of any other text which line is the first that no script continues, and what is
//! wrong with it; `read` answers just that. Most lines are read in one pass (`spaced`), and every other one by its words.
//! `make` writes a script whose commands are drawn from a seed; `specs/Made.antt` says which.
//! `read_after` reads mutators alone, behind a heap that was told before; `specs/Behind.antt` says which.
//! The layer above may use that a `Script` is within its limits, and the laws, which are the contracts of the functions
//! in `laws`.
//! The grammar is this project's profile (`docs/PROFILE.md`); the papers run on programs of Java.
#![tactic(auto)]

mod behind;
mod command;
mod draft;
mod error;
mod heap;
mod laws;
mod line;
mod making;
mod operand;
mod reading;
mod script;
mod spaced;
mod version;

pub use behind::read_after;
pub use error::{Kind, ScriptError};
pub use laws::{
    refusals_are_unique, refusals_behind_are_unique, refused_texts_spell_nothing,
    texts_spell_one_script,
};
pub use making::make;
pub use reading::read;
pub use script::Script;
