//! Why bytes are no image, and why a heap doesn't begin anew.

ghost use Rattle.std.specs.Prelude.{◌≡◌};

use std::alloc::AllocError;
use thiserror::Error;

/// Why no image was read.
#[derive(Debug, Drop, Error)]
pub enum ImageError {
    /// The bytes are no image's text. The line, numbered from 1, is the first with which no image goes on. Where the bytes
    /// end too soon, it is the line behind their last LF.
    #[error("not an image")]
    Bad { line: u32 },
    #[error("out of memory")]
    NoMemory,
}

/// Why a heap doesn't begin anew.
#[derive(Debug, Drop, Error)]
pub enum RenewError {
    /// The number of slots isn't from 1 to 65,535.
    #[error("number of slots out of range")]
    Slots,
    /// Registers reach more objects than there would be slots.
    #[error("fewer slots than objects")]
    FewSlots,
    #[error("out of memory")]
    NoMemory,
}

impl From<AllocError> for RenewError {
    ghost use Rattle.rec_image.specs.declared.error.RenewError.TheVariants as errors;

    ghost from_gives = { λ _ e. e ≡ errors.NoMemory };

    fn from(_: AllocError) -> RenewError {
        RenewError::NoMemory
    }
}
