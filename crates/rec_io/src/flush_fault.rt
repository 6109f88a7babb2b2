//! The fault of a flush.
ghost use Rattle.std.specs.Prelude.{Some, codes};

use std::error::Error;
use std::fmt;

/// The writer could not pass on what it held back. The sink's count of faults rose.
#[derive(Clone, Copy, Debug, PartialEq, Eq)]
pub struct FlushFault;

impl fmt::Display for FlushFault {
    ghost output = { λ _. Some (codes "flushing the output failed") };

    fn fmt<W: fmt::Write>(&self, f: &mut fmt::Formatter<W>) -> fmt::Result {
        write!(f, "flushing the output failed")
    }
}

impl Error for FlushFault {}
