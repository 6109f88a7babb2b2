//! Reading a text, a line at a time.

ghost use Rattle.std.specs.Prelude.{◌≡◌, ◌≢◌, ◌<◌, ◌≤◌, ℕ, List, [], ◌∷◌, ◌++◌, Err, Ok, IfOk, length, drop};
ghost use Rattle.rec_model.specs.declared.limits.TheConstants.{MOST_BYTES};
ghost use Rattle.rec_script.specs.Lines.{lines};
ghost use Rattle.rec_script.specs.Script.{ScriptContents, IsRefused, IsScript, IsText, Spells, spelled};
ghost use Rattle.rec_script.specs.declared.error.Kind.{Kind};
ghost use Rattle.rec_script.specs.declared.error.ScriptError.TheVariants.{Bad};

use crate::draft::Draft;
use crate::error::{Kind, ScriptError};
use crate::script::Script;
use rec_model::limits::MOST_BYTES;
use std::alloc::Global;

/// The script that the bytes spell.
pub fn read(alloc: Global, bytes: &[u8]) -> Result<Script, ScriptError>
    // What is read is within its limits, and the lines spell it.
    ensures found { IfOk result (λ script. IsScript script × (length bytes.now ≤ MOST_BYTES)
        × Spells (lines bytes.now) script) }
    // It is the only script that they spell.
    ensures only { IfOk result (λ script. (other : ScriptContents)
        → Spells (lines bytes.now) other → other ≡ script) }
    // What is refused is refused with the first line that no script continues, and the kind that fits it.
    ensures refused { (line : ℕ) (kind : Kind) → result ≡ Err (Bad line kind)
        → IsRefused bytes.now line kind }
    // It spells no script: a script is read, unless memory runs out.
    ensures none { (line : ℕ) (kind : Kind) → result ≡ Err (Bad line kind)
        → ¬ IsText bytes.now }
{
    if bytes.len() > MOST_BYTES {
        return Err(ScriptError::Bad {
            line: 0,
            kind: Kind::TooLong,
        });
    }
    let mut draft = Draft::Nothing;
    let mut rest = bytes;
    let mut number: u32 = 0;
    while !rest.is_empty() {
        number += 1;
        rest = match draft.take_spaced(rest) {
            Ok(Some(behind)) => behind,
            Ok(None) => draft.take_words(alloc, number, rest)?,
            Err(_) => return Err(ScriptError::NoMemory),
        };
    }
    match draft.close() {
        Ok(script) => Ok(script),
        Err(kind) => Err(ScriptError::Bad {
            line: number + 1,
            kind,
        }),
    }
}
