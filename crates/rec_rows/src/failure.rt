//! What a row comes to that isn't as it should be.

use std::alloc::{AllocError, Global};
use thiserror::Error;

/// Why a row ended early.
#[derive(Debug, Drop, Error)]
pub enum Failure {
    /// Something else was told at this line.
    #[error("{line}: told '{told}' in place of '{wanted}'")]
    Otherwise {
        line: u32,
        told: String,
        wanted: String,
    },
    #[error(" out of memory")]
    NoMemory,
}

impl From<AllocError> for Failure {
    fn from(_: AllocError) -> Failure {
        Failure::NoMemory
    }
}

/// What is told has to be what the line says.
pub fn check(alloc: Global, line: u32, wanted: &str, told: String) -> Result<(), Failure> {
    if told.as_str() == wanted {
        return Ok(());
    }
    let wanted = String::from_str(alloc, wanted)?;
    Err(Failure::Otherwise { line, told, wanted })
}
