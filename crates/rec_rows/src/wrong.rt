//! Why a file has no rows.

use std::alloc::{AllocError, AllocFailed};
use thiserror::Error;

/// A line that can't be read. Lines are numbered from 1.
#[derive(Debug, Drop, Error)]
#[error("{line}: {wrong}")]
pub struct BadLine {
    pub line: u32,
    pub wrong: Wrong,
}

/// What is wrong with a line.
#[derive(Debug, Drop, Error)]
pub enum Wrong {
    #[error("no line is spelled like this")]
    Unknown,
    #[error("a number in its range is expected where another word stands")]
    NoNumber,
    #[error("a row begins with its one heap, and only parts stand before the first row")]
    NoHeap,
    #[error("no part above has this name")]
    NoPart,
    #[error("a part above has this name already")]
    SecondPart,
    #[error("a heap that runs is asked commands, polls and single turns alone")]
    Running,
    #[error("no heap runs here")]
    Stopped,
    #[error("the heap of the row above still runs")]
    NeverStopped,
    #[error("the heap of a row that is cut doesn't run")]
    Cut,
    #[error("the heap of the row above isn't opened, and yet something is asked of it")]
    Refused,
    #[error("there is no memory left for it")]
    NoMemory,
}

impl<T: Drop> From<AllocFailed<T>> for Wrong {
    fn from(_: AllocFailed<T>) -> Wrong {
        Wrong::NoMemory
    }
}

impl From<AllocError> for Wrong {
    fn from(_: AllocError) -> Wrong {
        Wrong::NoMemory
    }
}
