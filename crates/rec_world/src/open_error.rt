ghost use Rattle.std.specs.Prelude.{◌≡◌};

use crate::Part;
use std::alloc::AllocError;
use thiserror::Error;

/// Why a heap wasn't opened.
#[derive(Debug, Drop, Error)]
pub enum OpenError {
    /// A number is out of its range: the first such, in the order of `Config`.
    #[error("number out of range")]
    Config { field: Part },
    /// There is no memory for its words.
    #[error("out of memory")]
    NoMemory,
}

impl From<AllocError> for OpenError {
    ghost use Rattle.rec_world.specs.declared.open_error.OpenError.TheVariants as errors;

    ghost from_gives = { λ _ e. e ≡ errors.NoMemory };

    fn from(_: AllocError) -> OpenError {
        OpenError::NoMemory
    }
}
