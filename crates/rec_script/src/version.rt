//! The line that says which version a script is of.

ghost use Rattle.std.specs.Prelude.{◌≡◌, ◌≢◌, ℕ, ◌∷◌, IfSome, IfNone};
ghost use Rattle.rec_script.specs.Lines.{words};
ghost use Rattle.rec_script.specs.Script.{IsVersion, header, most_mutators};

use crate::heap::size;
use crate::operand::{is_name, one_word};
use rec_model::limits::{MOST_MUTATORS, MOST_SCRIPT_MUTATORS};

/// The version of a line with this first word and what is behind it.
pub fn read_version(word: &[u8], rest: &[u8]) -> Option<u32>
    ensures known { IfSome result (λ version. IsVersion version) }
    ensures found { IfSome result (λ version. word.now ∷ words rest.now ≡ header version) }
    ensures none { IfNone result ((version : ℕ) → IsVersion version
        → word.now ∷ words rest.now ≢ header version) }
{
    if !is_name(word, b"recycler") {
        return None;
    }
    size(3, one_word(rest)?)
}

/// How many mutators a script of this version has at most.
pub fn most_mutators(version: u32) -> u8
    ensures { result ≡ most_mutators version }
{
    if version >= 3 {
        MOST_MUTATORS
    } else {
        MOST_SCRIPT_MUTATORS
    }
}
