//! How far a run has come.

use rec_settle::Settling;

/// How far a run has come.
#[derive(Clone, Copy, Debug, PartialEq, Eq)]
pub enum Stage {
    /// The playing rule gives turns.
    Playing,
    /// The commands are made, and settling has come so far.
    Settling(Settling),
    /// Fewer than four epochs are left, so the heap isn't settled.
    EpochsSpent,
}
