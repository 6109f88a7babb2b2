//! What the checker says of a journal.

use std::fmt;

/// Why a line is at fault. Of one line the first rule in this order is told that fits.
#[derive(Clone, Copy, Debug, PartialEq, Eq)]
pub enum Rule {
    /// The input has more than 16,777,216 bytes. It is told of line 0.
    Long,
    /// No journal goes on with this line; or the input ends before its journal does, or within a line.
    Form,
    /// A word with a target is put into a field, and an earlier line has put the same word.
    Stamp,
    /// A member of a set that is given up is on a path of references from a root.
    Reach,
}

/// What the checker says of a journal.
#[derive(Clone, Copy, Debug, PartialEq, Eq)]
pub enum Verdict {
    /// No line is at fault, and so many sets were given up.
    Yes { sets: u32 },
    /// This line is the first one at fault, by this rule. Lines are numbered from 1, and 0 is the input as a whole.
    No { line: u32, rule: Rule },
}

impl fmt::Display for Rule {
    ghost use Rattle.std.specs.Prelude.{Some};
    ghost use Rattle.rec_audit.specs.Said.{name_of_rule};

    ghost output = { λ rule. Some (name_of_rule rule) };

    fn fmt<W: fmt::Write>(&self, f: &mut fmt::Formatter<W>) -> fmt::Result {
        f.write_str(match self {
            Rule::Long => "long",
            Rule::Form => "form",
            Rule::Stamp => "stamp",
            Rule::Reach => "reach",
        })
    }
}

impl fmt::Display for Verdict {
    ghost use Rattle.std.specs.Prelude.{Some};
    ghost use Rattle.rec_audit.specs.Said.{words_of};

    ghost output = { λ verdict. Some (words_of verdict) };

    fn fmt<W: fmt::Write>(&self, f: &mut fmt::Formatter<W>) -> fmt::Result {
        match self {
            Verdict::Yes { sets } => write!(f, "yes sets {sets}"),
            Verdict::No { line, rule } => write!(f, "no line {line} {rule}"),
        }
    }
}
