//! Reading the mutators of a script whose heap is told before.

ghost use Rattle.std.specs.Prelude.{◌≡◌, ◌-◌, ◌<◌, ◌≤◌, ◌++◌, ℕ, [], Err, IfErr, IfOk, length, replicate};
ghost use Rattle.rec_model.specs.declared.limits.TheConstants.{MOST_BYTES, MOST_MUTATORS};
ghost use Rattle.rec_script.specs.Behind.{AreMutators, IsRefusedBehind, SpellsMutators, with_all};
ghost use Rattle.rec_script.specs.Lines.{lines};
ghost use Rattle.rec_script.specs.Script.{ScriptContents, IsHeap, IsScript, most_mutators};
ghost use Rattle.rec_script.specs.declared.error.Kind.{Kind};
ghost use Rattle.rec_script.specs.declared.error.ScriptError.TheVariants.{Bad};

use crate::draft::{Draft, begins_mutator};
use crate::error::{Kind, ScriptError};
use crate::heap::Heap;
use crate::script::Script;
use std::alloc::{AllocError, Global};

/// The script of version 3 with these numbers, whose mutators the bytes spell; those that aren't given have no commands. The
/// bytes follow this line, and lines are counted on from it. There are at most `MOST_BYTES` of them, since a line's number has 32 bits:
/// who reads a longer source refuses it whole.
pub fn read_after(
    alloc: Global,
    bytes: &[u8],
    slots: u32,
    fields: u32,
    registers: u32,
    mutators: u32,
    line: u32,
) -> Result<Script, ScriptError>
    requires heap { IsHeap slots fields registers }
    requires some { 1 ≤ mutators }
    requires most { mutators ≤ MOST_MUTATORS }
    requires line { line ≤ MOST_BYTES }
    requires few { length bytes.now ≤ MOST_BYTES }

    // The lines spell some mutators, and what is read has these, and the others without commands.
    ensures found { IfOk result (λ script. (given : ScriptContents)
        × SpellsMutators (record { slots = slots; fields = fields; registers = registers; mutators = mutators }) (lines bytes.now) given
        × (script ≡ with_all (record { slots = slots; fields = fields; registers = registers; mutators = mutators }) given)) }
    ensures valid { IfOk result IsScript }
    // What is refused is refused with the first line with which no such mutators go on, and the kind that fits it.
    ensures refused { (number : ℕ) (kind : Kind) → result ≡ Err (Bad number kind)
        → IsRefusedBehind (record { slots = slots; fields = fields; registers = registers; mutators = mutators }) bytes.now line number kind }
    // It spells no mutators: they are read, unless memory runs out.
    ensures none { (number : ℕ) (kind : Kind) → result ≡ Err (Bad number kind)
        → ¬ AreMutators (record { slots = slots; fields = fields; registers = registers; mutators = mutators }) bytes.now }
{
    let heap = Heap {
        slots,
        fields,
        registers,
    };
    let mut draft = Draft::Sized(3, heap);
    let mut rest = bytes;
    let mut number: u32 = 0;
    while !rest.is_empty() {
        if u32::from(draft.mutators()) == mutators && begins_mutator(rest) {
            return Err(ScriptError::Bad {
                line: line + number + 1,
                kind: Kind::TooManyMutators,
            });
        }
        rest = match draft.take_words(alloc, line + number + 1, rest) {
            Ok(behind) => behind,
            Err(error) => return Err(error),
        };
        number += 1;
    }
    match draft.close() {
        Ok(script) => match fill(script, alloc, mutators as u8) {
            Ok(all) => Ok(all),
            Err(_) => Err(ScriptError::NoMemory),
        },
        Err(kind) => Err(ScriptError::Bad {
            line: line + number + 1,
            kind,
        }),
    }
}

/// The script with mutators without commands, up to so many.
fn fill(mut script: Script, alloc: Global, mutators: u8) -> Result<Script, AllocError>
    requires few { length script.commands ≤ mutators }
    requires most { mutators ≤ most_mutators script.version }
    ensures { IfOk result (λ all. all ≡ record script { commands = script.commands ++ replicate (mutators - length script.commands) [] }) }
{
    let given = script.mutators();
    for _ in given..mutators {
        script.add_mutator(alloc)?;
    }
    Ok(script)
}
