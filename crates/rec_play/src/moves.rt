use rec_word::Op;
use rec_world::{Cmd, Told, Turn};

/// One move of a run.
#[derive(Clone, Copy)]
pub enum Move {
    /// A mutator polled, and made its next command.
    Command { mutator: u8, cmd: Cmd, told: Told },
    /// The collector made a step: its operation, and the word that this found, and what came of it. Where it waited for a mutator
    /// that has no command left, that mutator polled behind it.
    Step { seen: Option<(Op, u64)>, turn: Turn },
}
