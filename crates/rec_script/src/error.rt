//! Why bytes are no script.

use std::fmt;
use thiserror::Error;

/// What is wrong with a text. Of one line the first kind in this order is told that fits; `BadNumber`, `Register` and `Field` are told of the
/// first operand from the left that is wrong.
#[derive(Clone, Copy, Debug, PartialEq, Eq)]
pub enum Kind {
    /// More than 16,777,216 bytes.
    TooLong,
    /// A line isn't UTF-8, be it one that is skipped.
    NotUtf8,
    /// The first line that counts isn't `recycler 1`, `recycler 2` or `recycler 3`.
    NoHeader,
    /// The second one is no heap with its numbers within their limits.
    BadHeap,
    /// The third one isn't `mutator`.
    NoMutator,
    /// A later line has none of the version's first words, or another number of words; or its mutator has left.
    BadCommand,
    /// The ninth mutator, in version 3 the 64th.
    TooManyMutators,
    /// The 200,001st command of a mutator.
    TooManyCommands,
    /// An operand is no numeral of at most 4,294,967,295, or has leading zeros.
    BadNumber,
    /// A register is out of range.
    Register,
    /// A field is out of range.
    Field,
    /// No image goes on with the line. No script is refused so: it is told of what stands before the mutators of a heap that goes on.
    BadImage,
}

impl fmt::Display for Kind {
    ghost use Rattle.std.specs.Prelude.{Some};
    ghost use Rattle.rec_script.specs.Script.{name_of};

    ghost output = { λ kind. Some (name_of kind) };

    fn fmt<W: fmt::Write>(&self, f: &mut fmt::Formatter<W>) -> fmt::Result {
        f.write_str(match self {
            Kind::TooLong => "TooLong",
            Kind::NotUtf8 => "NotUtf8",
            Kind::NoHeader => "NoHeader",
            Kind::BadHeap => "BadHeap",
            Kind::NoMutator => "NoMutator",
            Kind::BadCommand => "BadCommand",
            Kind::TooManyMutators => "TooManyMutators",
            Kind::TooManyCommands => "TooManyCommands",
            Kind::BadNumber => "BadNumber",
            Kind::Register => "Register",
            Kind::Field => "Field",
            Kind::BadImage => "BadImage",
        })
    }
}

/// Why no script was read.
#[derive(Debug, Drop, Error)]
pub enum ScriptError {
    /// The bytes are no script. Lines are numbered from 1, and 0 is the text as a whole; a need that stands open at the end
    /// is told of the line behind the last one.
    #[error("not a script")]
    Bad { line: u32, kind: Kind },
    #[error("out of memory")]
    NoMemory,
}
