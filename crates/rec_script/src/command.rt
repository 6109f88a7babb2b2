//! The line of a command.

ghost use Rattle.std.specs.Prelude.{◌≡◌, ◌≢◌, ◌<◌, ◌≤◌, ◌^◌, List, [], ◌∷◌, codes, length, map, IfOk, IfErr, IfSome, IfNone};
ghost use Rattle.std.specs.Fmt.{decimal};
ghost use Rattle.rec_model.specs.declared.command.Cmd.{Cmd};
ghost use Rattle.rec_model.specs.declared.limits.TheConstants.{MOST_COMMANDS};
ghost use Rattle.rec_script.specs.Lines.{words};
ghost use Rattle.rec_script.specs.Operands.{AreMisread};
ghost use Rattle.rec_script.specs.declared.error.Kind.TheVariants.{BadNumber, Field, Register};
ghost use Rattle.rec_script.specs.Script.{Allows, HasLeft, IsCommand, IsBadCommand, IsVersion, command_line, limits_of, operands_of, since, word_of};

use crate::error::Kind;
use crate::operand::{Limit, is_name, no_operands, one_operand, three_operands, two_operands};
use rec_model::Cmd;

/// Every numeral is a label.
const LABEL: Limit = Limit {
    below: 1 << 32,
    past: Kind::BadNumber,
};

/// The command of this version that a line with this first word spells, with zeros for its operands.
fn named(version: u32, word: &[u8]) -> Option<Cmd>
    requires { IsVersion version }
    ensures none { IfNone result ((cmd : Cmd) → Allows version cmd → word.now ≢ word_of cmd) }
    ensures some { IfSome result (λ cmd. word.now ≡ word_of cmd) }
    ensures allowed { IfSome result (λ cmd. Allows version cmd) }
{
    if version >= 2 && is_name(word, b"leaf") {
        Some(Cmd::Leaf { reg: 0, label: 0 })
    } else if version >= 3 && is_name(word, b"leave") {
        Some(Cmd::Leave)
    } else {
        named_at_first(word)
    }
}

/// The same of the commands that every version has.
fn named_at_first(word: &[u8]) -> Option<Cmd>
    ensures none { IfNone result ((cmd : Cmd) → since cmd ≡ 1 → word.now ≢ word_of cmd) }
    ensures some { IfSome result (λ cmd. word.now ≡ word_of cmd) }
    ensures since { IfSome result (λ cmd. since cmd ≡ 1) }
{
    if word.len() == 3 {
        of_three_letters(word)
    } else {
        of_more_letters(word)
    }
}

/// The same of those of them whose name has three letters.
fn of_three_letters(word: &[u8]) -> Option<Cmd>
    ensures none { IfNone result ((cmd : Cmd) → length (word_of cmd) ≡ 3 → word.now ≢ word_of cmd) }
    ensures some { IfSome result (λ cmd. word.now ≡ word_of cmd) }
    ensures since { IfSome result (λ cmd. since cmd ≡ 1) }
{
    if is_name(word, b"new") {
        Some(Cmd::New { reg: 0, label: 0 })
    } else if is_name(word, b"get") {
        Some(Cmd::Get {
            dst: 0,
            src: 0,
            field: 0,
        })
    } else if is_name(word, b"put") {
        Some(Cmd::Put {
            src: 0,
            field: 0,
            val: 0,
        })
    } else {
        None
    }
}

/// The same of those whose name has more.
fn of_more_letters(word: &[u8]) -> Option<Cmd>
    ensures none { IfNone result ((cmd : Cmd) → since cmd ≡ 1 → 3 < length (word_of cmd)
        → word.now ≢ word_of cmd) }
    ensures some { IfSome result (λ cmd. word.now ≡ word_of cmd) }
    ensures since { IfSome result (λ cmd. since cmd ≡ 1) }
{
    if is_name(word, b"null") {
        Some(Cmd::Null { reg: 0 })
    } else if is_name(word, b"copy") {
        Some(Cmd::Copy { dst: 0, src: 0 })
    } else if is_name(word, b"value") {
        Some(Cmd::Value { reg: 0 })
    } else if is_name(word, b"same") {
        Some(Cmd::Same { a: 0, b: 0 })
    } else {
        None
    }
}

/// What a register has to be below.
fn register_limit(registers: u32) -> Limit
    ensures { (result.below ≡ registers) × (result.past ≡ Register) }
{
    Limit {
        below: u64::from(registers),
        past: Kind::Register,
    }
}

/// What a field has to be below.
fn field_limit(fields: u32) -> Limit
    ensures { (result.below ≡ fields) × (result.past ≡ Field) }
{
    Limit {
        below: u64::from(fields),
        past: Kind::Field,
    }
}

/// The operand of a line that has a register.
fn register(registers: u32, count: usize, rest: &[u8]) -> Result<u8, Kind>
    requires few { count ≤ MOST_COMMANDS }
    requires registers { registers ≤ 64 }
    ensures right { IfOk result (λ x. words rest.now ≡ decimal x ∷ []) }
    ensures below { IfOk result (λ x. (x < registers) × (count < MOST_COMMANDS)) }
    ensures wrong { IfErr result (λ kind. AreMisread count
        ((registers, Register) ∷ []) (words rest.now) kind) }
{
    let reg = one_operand(count, register_limit(registers), rest)?;
    Ok(reg as u8)
}

/// The operands of a line that has two registers.
fn two_registers(registers: u32, count: usize, rest: &[u8]) -> Result<(u8, u8), Kind>
    requires few { count ≤ MOST_COMMANDS }
    requires registers { registers ≤ 64 }
    ensures right { IfOk result (λ x. words rest.now ≡ decimal x.0 ∷ decimal x.1 ∷ []) }
    ensures below { IfOk result (λ x. (x.0 < registers) × (x.1 < registers) × (count < MOST_COMMANDS)) }
    ensures wrong { IfErr result (λ kind. AreMisread count
        ((registers, Register) ∷ (registers, Register) ∷ []) (words rest.now) kind) }
{
    let register = register_limit(registers);
    let (left, right) = two_operands(count, register, register, rest)?;
    Ok((left as u8, right as u8))
}

/// The operands of a line that has a register and a label.
fn birth(registers: u32, count: usize, rest: &[u8]) -> Result<(u8, u32), Kind>
    requires few { count ≤ MOST_COMMANDS }
    requires registers { registers ≤ 64 }
    ensures right { IfOk result (λ x. words rest.now ≡ decimal x.0 ∷ decimal x.1 ∷ []) }
    ensures below { IfOk result (λ x. (x.0 < registers) × (x.1 < 2 ^ 32) × (count < MOST_COMMANDS)) }
    ensures wrong { IfErr result (λ kind. AreMisread count
        ((registers, Register) ∷ (2 ^ 32, BadNumber) ∷ []) (words rest.now) kind) }
{
    let (reg, label) = two_operands(count, register_limit(registers), LABEL, rest)?;
    Ok((reg as u8, label))
}

/// The command that reads a field, of a line that has its operands: two registers and a field.
fn get(registers: u32, fields: u32, count: usize, rest: &[u8]) -> Result<Cmd, Kind>
    requires few { count ≤ MOST_COMMANDS }
    requires registers { registers ≤ 64 }
    requires fields { fields ≤ 16 }
    ensures word { IfOk result (λ cmd. word_of cmd ≡ codes "get") }
    ensures right { IfOk result (λ cmd. words rest.now ≡ map decimal (operands_of cmd)) }
    ensures in_range { IfOk result (λ cmd. IsCommand registers fields cmd) }
    ensures room { IfOk result (λ cmd. count < MOST_COMMANDS) }
    ensures wrong { IfErr result (λ kind. AreMisread count
        ((registers, Register) ∷ (registers, Register) ∷ (fields, Field) ∷ []) (words rest.now) kind) }
{
    let register = register_limit(registers);
    let (dst, src, field) = three_operands(count, register, register, field_limit(fields), rest)?;
    Ok(Cmd::Get {
        dst: dst as u8,
        src: src as u8,
        field: field as u8,
    })
}

/// The command that writes a field, of a line that has its operands: a register, a field and a register.
fn put(registers: u32, fields: u32, count: usize, rest: &[u8]) -> Result<Cmd, Kind>
    requires few { count ≤ MOST_COMMANDS }
    requires registers { registers ≤ 64 }
    requires fields { fields ≤ 16 }
    ensures word { IfOk result (λ cmd. word_of cmd ≡ codes "put") }
    ensures right { IfOk result (λ cmd. words rest.now ≡ map decimal (operands_of cmd)) }
    ensures in_range { IfOk result (λ cmd. IsCommand registers fields cmd) }
    ensures room { IfOk result (λ cmd. count < MOST_COMMANDS) }
    ensures wrong { IfErr result (λ kind. AreMisread count
        ((registers, Register) ∷ (fields, Field) ∷ (registers, Register) ∷ []) (words rest.now) kind) }
{
    let register = register_limit(registers);
    let (src, field, val) = three_operands(count, register, field_limit(fields), register, rest)?;
    Ok(Cmd::Put {
        src: src as u8,
        field: field as u8,
        val: val as u8,
    })
}

/// The command like this one with the operands that a line has behind its first word, in a mutator that has so many commands.
fn with_operands(
    named: Cmd,
    registers: u32,
    fields: u32,
    count: usize,
    rest: &[u8],
) -> Result<Cmd, Kind>
    requires known { since named ≤ 3 }
    requires few { count ≤ MOST_COMMANDS }
    requires registers { registers ≤ 64 }
    requires fields { fields ≤ 16 }
    ensures word { IfOk result (λ cmd. word_of cmd ≡ word_of named) }
    ensures right { IfOk result (λ cmd. words rest.now ≡ map decimal (operands_of cmd)) }
    ensures in_range { IfOk result (λ cmd. IsCommand registers fields cmd) }
    ensures room { IfOk result (λ cmd. count < MOST_COMMANDS) }
    ensures wrong { IfErr result (λ kind. AreMisread count
        (limits_of registers fields named) (words rest.now) kind) }
{
    match named {
        Cmd::New { .. } => {
            let (reg, label) = birth(registers, count, rest)?;
            Ok(Cmd::New { reg, label })
        }
        Cmd::Leaf { .. } => {
            let (reg, label) = birth(registers, count, rest)?;
            Ok(Cmd::Leaf { reg, label })
        }
        Cmd::Null { .. } => {
            let reg = register(registers, count, rest)?;
            Ok(Cmd::Null { reg })
        }
        Cmd::Copy { .. } => {
            let (dst, src) = two_registers(registers, count, rest)?;
            Ok(Cmd::Copy { dst, src })
        }
        Cmd::Get { .. } => get(registers, fields, count, rest),
        Cmd::Put { .. } => put(registers, fields, count, rest),
        Cmd::Value { .. } => {
            let reg = register(registers, count, rest)?;
            Ok(Cmd::Value { reg })
        }
        Cmd::Same { .. } => {
            let (a, b) = two_registers(registers, count, rest)?;
            Ok(Cmd::Same { a, b })
        }
        Cmd::Leave => {
            no_operands(count, rest)?;
            Ok(Cmd::Leave)
        }
        // They come with a version that isn't read yet.
        Cmd::Park | Cmd::Unpark => unreachable!(),
    }
}

/// The command of a line with this first word and what is behind it, in a mutator that has so many and hasn't left, in a script of this
/// version.
pub fn command(
    version: u32,
    registers: u32,
    fields: u32,
    count: usize,
    word: &[u8],
    rest: &[u8],
) -> Result<Cmd, Kind>
    requires version { IsVersion version }
    requires few { count ≤ MOST_COMMANDS }
    requires registers { registers ≤ 64 }
    requires fields { fields ≤ 16 }
    ensures right { IfOk result (λ cmd. word.now ∷ words rest.now ≡ command_line cmd) }
    ensures allowed { IfOk result (λ cmd. Allows version cmd) }
    ensures in_range { IfOk result (λ cmd. IsCommand registers fields cmd) }
    ensures room { IfOk result (λ cmd. count < MOST_COMMANDS) }
    ensures wrong { IfErr result (λ kind. (cmds : List Cmd) → length cmds ≡ count → ¬ HasLeft cmds
        → IsBadCommand version registers fields cmds (word.now ∷ words rest.now) kind) }
{
    match named(version, word) {
        Some(named) => with_operands(named, registers, fields, count, rest),
        None => Err(Kind::BadCommand),
    }
}
