use rec_script::Kind;
use std::fmt;

/// How a run of the program ended.
#[derive(Clone, Copy, Debug, PartialEq, Eq)]
pub enum Status {
    /// The script or the journal was read to its end, where there is one, and the whole text was written and passed on. A
    /// journal may be read past its limit.
    Done,
    /// The words are no command line.
    Usage,
    /// The bytes are no script. Lines are numbered from 1, and 0 is the text as a whole.
    BadScript { line: u32, kind: Kind },
    /// A read failed.
    ReadFault,
    /// A write failed.
    WriteFault,
    /// Memory ran out.
    NoMemory,
}

impl Status {
    ghost use Rattle.std.specs.Prelude.{◌≡◌};
    ghost use Rattle.rec_run.specs.Status.{number_of};

    /// The exit status of the program.
    pub fn number(self) -> u8
        ensures { result ≡ number_of self }
    {
        match self {
            Status::Done => 0,
            Status::Usage => 2,
            Status::BadScript { .. } => 3,
            Status::ReadFault => 4,
            Status::WriteFault => 5,
            Status::NoMemory => 6,
        }
    }
}

/// The line for standard error, without its LF; nothing for `Done`.
impl fmt::Display for Status {
    fn fmt<W: fmt::Write>(&self, f: &mut fmt::Formatter<W>) -> fmt::Result {
        match self {
            Status::Done => Ok(()),
            Status::Usage => f.write_str(
                "recycler: usage: recycler play [--seed N] [--turns N] [--summary] or threads or make [--seed N] [--mutators N] [--commands N]",
            ),
            Status::BadScript { line, kind } => write!(f, "recycler: line {line}: {kind}"),
            Status::ReadFault => f.write_str("recycler: cannot read the script"),
            Status::WriteFault => f.write_str("recycler: cannot write the answer"),
            Status::NoMemory => f.write_str("recycler: out of memory"),
        }
    }
}
