//! Commands as most scripts spell them: one space between each two words, and an LF behind the last one. Such a line is
//! read in one pass. Any other line has no answer here, right or wrong, and is read by its words.

ghost use Rattle.std.specs.Prelude.{◌≡◌, ◌≢◌, ℕ, ◌<◌, ◌≤◌, ◌^◌, ◌++◌, [], ◌∷◌, codes, slice_index, IfSome};
ghost use Rattle.std.specs.Fmt.{decimal};
ghost use Rattle.rec_script.specs.Lines.{spaced};
ghost use Rattle.rec_script.specs.Script.{Allows, IsCommand, IsVersion, command_line};

use rec_io::behind_byte;
use rec_model::Cmd;

/// A numeral of any length at the front, with this byte behind it, and what is behind that.
fn long_numeral(bytes: &[u8], end: u8) -> Option<(u32, &[u8])>
    ensures { IfSome result (λ x. bytes.now ≡ decimal x.0 ++ end ∷ x.1.now) }
{
    let Some((number, rest)) = rec_io::numeral(u64::from(u32::MAX), bytes) else {
        return None;
    };
    let Some(rest) = behind_byte(end, rest) else {
        return None;
    };
    Some((number as u32, rest))
}

/// The same, quicker where there are two digits.
#[inline(always)]
fn more_digits(bytes: &[u8], end: u8) -> Option<(u32, &[u8])>
    requires { slice_index bytes.now 0 ≢ 48 }
    ensures { IfSome result (λ x. bytes.now ≡ decimal x.0 ++ end ∷ x.1.now) }
{
    let [first, second, third, rest @ ..] = bytes else {
        return None;
    };
    if *third != end {
        return long_numeral(bytes, end);
    }
    if !first.is_ascii_digit() {
        return None;
    }
    if !second.is_ascii_digit() {
        return None;
    }
    let value = 10 * u32::from(*first - b'0') + u32::from(*second - b'0');
    Some((value, rest))
}

/// A numeral at the front, with this byte behind it, and what is behind that.
#[inline(always)]
fn numeral(bytes: &[u8], end: u8) -> Option<(u32, &[u8])>
    ensures { IfSome result (λ x. bytes.now ≡ decimal x.0 ++ end ∷ x.1.now) }
{
    let [first, second, rest @ ..] = bytes else {
        return None;
    };
    if !first.is_ascii_digit() {
        return None;
    }
    if *second == end {
        return Some((u32::from(*first - b'0'), rest));
    }
    if *first == b'0' {
        return None;
    }
    more_digits(bytes, end)
}

/// The same of a numeral below a limit.
#[inline(always)]
fn operand(below: u32, bytes: &[u8], end: u8) -> Option<(u8, &[u8])>
    requires { below ≤ 64 }
    ensures found { IfSome result (λ x. bytes.now ≡ decimal x.0 ++ end ∷ x.1.now) }
    ensures below { IfSome result (λ x. x.0 < below) }
{
    let Some((number, rest)) = numeral(bytes, end) else {
        return None;
    };
    if number < below {
        Some((number as u8, rest))
    } else {
        None
    }
}

/// Two operands below a limit that end a line, and what is behind it.
#[inline(always)]
fn two_operands(below: u32, bytes: &[u8]) -> Option<(u8, u8, &[u8])>
    requires { below ≤ 64 }
    ensures found { IfSome result (λ x. bytes.now ≡ spaced (decimal x.0 ∷ decimal x.1 ∷ []) x.2.now) }
    ensures below { IfSome result (λ x. (x.0 < below) × (x.1 < below)) }
{
    let Some((first, rest)) = operand(below, bytes, b' ') else {
        return None;
    };
    let Some((second, rest)) = operand(below, rest, b'\n') else {
        return None;
    };
    Some((first, second, rest))
}

/// Three operands, each below its limit, that end a line, and what is behind it.
#[inline(always)]
fn three_operands(limits: (u32, u32, u32), bytes: &[u8]) -> Option<(u8, u8, u8, &[u8])>
    requires { (limits.0 ≤ 64) × (limits.1 ≤ 64) × (limits.2 ≤ 64) }
    ensures found { IfSome result (λ x.
        bytes.now ≡ spaced (decimal x.0 ∷ decimal x.1 ∷ decimal x.2 ∷ []) x.3.now) }
    ensures below { IfSome result (λ x. (x.0 < limits.0) × (x.1 < limits.1) × (x.2 < limits.2)) }
{
    let Some((first, rest)) = operand(limits.0, bytes, b' ') else {
        return None;
    };
    let Some((second, rest)) = operand(limits.1, rest, b' ') else {
        return None;
    };
    let Some((third, rest)) = operand(limits.2, rest, b'\n') else {
        return None;
    };
    Some((first, second, third, rest))
}

/// A register and a label that end a line, and what is behind it.
#[inline(always)]
fn birth(registers: u32, bytes: &[u8]) -> Option<(u8, u32, &[u8])>
    requires { registers ≤ 64 }
    ensures found { IfSome result (λ x. bytes.now ≡ spaced (decimal x.0 ∷ decimal x.1 ∷ []) x.2.now) }
    ensures below { IfSome result (λ x. (x.0 < registers) × (x.1 < 2 ^ 32)) }
{
    let Some((reg, rest)) = operand(registers, bytes, b' ') else {
        return None;
    };
    let Some((label, rest)) = numeral(rest, b'\n') else {
        return None;
    };
    Some((reg, label, rest))
}

/// A command at the front, spaced, and what is behind its line.
#[inline(always)]
pub fn spaced_command(
    version: u32,
    registers: u32,
    fields: u32,
    bytes: &[u8],
) -> Option<(Cmd, &[u8])>
    requires version { IsVersion version }
    requires registers { registers ≤ 64 }
    requires fields { fields ≤ 16 }
    ensures found { IfSome result (λ x. bytes.now ≡ spaced (command_line x.0) x.1.now) }
    ensures in_range { IfSome result (λ x. IsCommand registers fields x.0) }
    ensures allowed { IfSome result (λ x. Allows version x.0) }
{
    let Some((name, rest)) = bytes.split_first_chunk::<4>() else {
        return None;
    };
    if name == b"get " {
        let Some((dst, src, field, rest)) = three_operands((registers, registers, fields), rest)
        else {
            return None;
        };
        Some((Cmd::Get { dst, src, field }, rest))
    } else if name == b"put " {
        let Some((src, field, val, rest)) = three_operands((registers, fields, registers), rest)
        else {
            return None;
        };
        Some((Cmd::Put { src, field, val }, rest))
    } else if name == b"new " {
        let Some((reg, label, rest)) = birth(registers, rest) else {
            return None;
        };
        Some((Cmd::New { reg, label }, rest))
    } else {
        longer(version, registers, name, rest)
    }
}

/// The same of a command whose name has more than three letters, behind the first four.
#[inline(always)]
fn longer<'a>(
    version: u32,
    registers: u32,
    name: &[u8; 4],
    rest: &'a [u8],
) -> Option<(Cmd, &'a [u8])>
    requires version { IsVersion version }
    requires registers { registers ≤ 64 }
    ensures found { IfSome result (λ x. name.now ++ rest.now ≡ spaced (command_line x.0) x.1.now) }
    ensures in_range { (fields : ℕ) → IfSome result (λ x. IsCommand registers fields x.0) }
    ensures allowed { IfSome result (λ x. Allows version x.0) }
{
    if name == b"null" {
        null(registers, rest)
    } else if name == b"copy" {
        copy(registers, rest)
    } else if name == b"valu" {
        value(registers, rest)
    } else if name == b"same" {
        same(registers, rest)
    } else if version >= 2 && name == b"leaf" {
        leaf(registers, rest)
    } else {
        None
    }
}

/// The same behind the letters `null`.
#[inline(always)]
fn null(registers: u32, bytes: &[u8]) -> Option<(Cmd, &[u8])>
    requires { registers ≤ 64 }
    ensures found { IfSome result (λ x. codes "null" ++ bytes.now ≡ spaced (command_line x.0) x.1.now) }
    ensures in_range { (fields : ℕ) → IfSome result (λ x. IsCommand registers fields x.0) }
    ensures allowed { (version : ℕ) → 1 ≤ version → IfSome result (λ x. Allows version x.0) }
{
    let Some(rest) = behind_byte(b' ', bytes) else {
        return None;
    };
    let Some((reg, rest)) = operand(registers, rest, b'\n') else {
        return None;
    };
    Some((Cmd::Null { reg }, rest))
}

/// The same behind the letters `copy`.
#[inline(always)]
fn copy(registers: u32, bytes: &[u8]) -> Option<(Cmd, &[u8])>
    requires { registers ≤ 64 }
    ensures found { IfSome result (λ x. codes "copy" ++ bytes.now ≡ spaced (command_line x.0) x.1.now) }
    ensures in_range { (fields : ℕ) → IfSome result (λ x. IsCommand registers fields x.0) }
    ensures allowed { (version : ℕ) → 1 ≤ version → IfSome result (λ x. Allows version x.0) }
{
    let Some(rest) = behind_byte(b' ', bytes) else {
        return None;
    };
    let Some((dst, src, rest)) = two_operands(registers, rest) else {
        return None;
    };
    Some((Cmd::Copy { dst, src }, rest))
}

/// The same behind the letters `valu`.
#[inline(always)]
fn value(registers: u32, bytes: &[u8]) -> Option<(Cmd, &[u8])>
    requires { registers ≤ 64 }
    ensures found { IfSome result (λ x. codes "valu" ++ bytes.now ≡ spaced (command_line x.0) x.1.now) }
    ensures in_range { (fields : ℕ) → IfSome result (λ x. IsCommand registers fields x.0) }
    ensures allowed { (version : ℕ) → 1 ≤ version → IfSome result (λ x. Allows version x.0) }
{
    let [b'e', b' ', rest @ ..] = bytes else {
        return None;
    };
    let Some((reg, rest)) = operand(registers, rest, b'\n') else {
        return None;
    };
    Some((Cmd::Value { reg }, rest))
}

/// The same behind the letters `same`.
#[inline(always)]
fn same(registers: u32, bytes: &[u8]) -> Option<(Cmd, &[u8])>
    requires { registers ≤ 64 }
    ensures found { IfSome result (λ x. codes "same" ++ bytes.now ≡ spaced (command_line x.0) x.1.now) }
    ensures in_range { (fields : ℕ) → IfSome result (λ x. IsCommand registers fields x.0) }
    ensures allowed { (version : ℕ) → 1 ≤ version → IfSome result (λ x. Allows version x.0) }
{
    let Some(rest) = behind_byte(b' ', bytes) else {
        return None;
    };
    let Some((a, b, rest)) = two_operands(registers, rest) else {
        return None;
    };
    Some((Cmd::Same { a, b }, rest))
}

/// The same behind the letters `leaf`.
#[inline(always)]
fn leaf(registers: u32, bytes: &[u8]) -> Option<(Cmd, &[u8])>
    requires { registers ≤ 64 }
    ensures found { IfSome result (λ x. codes "leaf" ++ bytes.now ≡ spaced (command_line x.0) x.1.now) }
    ensures in_range { (fields : ℕ) → IfSome result (λ x. IsCommand registers fields x.0) }
    ensures allowed { (version : ℕ) → 2 ≤ version → IfSome result (λ x. Allows version x.0) }
{
    let Some(rest) = behind_byte(b' ', bytes) else {
        return None;
    };
    let Some((reg, label, rest)) = birth(registers, rest) else {
        return None;
    };
    Some((Cmd::Leaf { reg, label }, rest))
}
