//! The text of a journal's lines, written behind what there is.

ghost use Rattle.std.specs.Prelude.{◌≡◌, ◌≤◌, ◌++◌, ◌∷◌, [], decimal, drop, map, OnOk};
ghost use Rattle.rec_audit.specs.Lines.{name_of, numerals, text_of_line};
ghost use Rattle.rec_audit.specs.Journal.{line_of, register_number, snap_line};
ghost use Rattle.rec_audit.specs.declared.kind.Kind.TheVariants as kinds;

use crate::kind::Kind;
use itoa::write_digits;
use std::alloc::AllocError;

/// No numeral of 64 bits has more bytes, with the space in front of it.
const LONGEST: usize = 21;

/// Writes a numeral behind a space so that it ends with the buffer, and tells where the space is.
#[inline(always)]
#[tactic(auto, using(crate::proofs::Written::twenty_digits))]
fn write_number(number: u64, buffer: &mut [u8; LONGEST]) -> usize
    ensures within { result ≤ 21 }
    ensures written { drop result buffer.new ≡ 32 ∷ decimal number }
{
    let digits = write_digits(number, buffer, LONGEST);
    buffer[digits - 1] = b' ';
    digits - 1
}

/// Writes a numeral behind a space.
#[inline(always)]
fn push_number(text: &mut Vec<u8>, number: u64) -> Result<(), AllocError>
    ensures { OnOk result (text.new.items ≡ text.old.items ++ 32 ∷ decimal number) }
{
    let mut buffer = [0; LONGEST];
    let start = write_number(number, &mut buffer);
    text.extend_from_slice(&buffer[start..])
}

/// Writes numerals.
fn push_numbers(text: &mut Vec<u8>, numbers: &[u64]) -> Result<(), AllocError>
    ensures { OnOk result (text.new.items ≡ text.old.items ++ numerals numbers.now) }
{
    for number in numbers {
        push_number(text, *number)?;
    }
    Ok(())
}

/// Writes what registers held, each by one more than its slot, or by 0.
fn push_registers(text: &mut Vec<u8>, registers: &[Option<u16>]) -> Result<(), AllocError>
    ensures { OnOk result (text.new.items ≡ text.old.items ++ numerals (map register_number registers.now)) }
{
    for register in registers {
        push_number(text, number_of(*register))?;
    }
    Ok(())
}

/// A register's number.
fn number_of(register: Option<u16>) -> u64
    ensures { result ≡ register_number register }
{
    match register {
        None => 0,
        Some(slot) => u64::from(slot) + 1,
    }
}

/// Writes the numerals of slots.
fn push_slots(text: &mut Vec<u8>, slots: &[u16]) -> Result<(), AllocError>
    ensures { OnOk result (text.new.items ≡ text.old.items ++ numerals slots.now) }
{
    for slot in slots {
        push_number(text, u64::from(*slot))?;
    }
    Ok(())
}

/// Ends a line.
fn end_line(text: &mut Vec<u8>) -> Result<(), AllocError>
    ensures { OnOk result (text.new.items ≡ text.old.items ++ 10 ∷ []) }
{
    text.push(b'\n')?;
    Ok(())
}

/// Writes a line of this kind with these numbers.
pub fn push_line(text: &mut Vec<u8>, kind: Kind, numbers: &[u64]) -> Result<(), AllocError>
    ensures { OnOk result (text.new.items ≡ text.old.items ++ text_of_line (line_of kind numbers.now)) }
{
    text.extend_from_slice(kind.name())?;
    push_numbers(text, numbers)?;
    end_line(text)
}

/// Writes the line that tells what a mutator's registers held.
pub fn push_snap(
    text: &mut Vec<u8>,
    mutator: u64,
    registers: &[Option<u16>],
) -> Result<(), AllocError>
    ensures { OnOk result (text.new.items ≡ text.old.items ++ text_of_line (snap_line mutator registers.now)) }
{
    text.extend_from_slice(Kind::Snap.name())?;
    push_number(text, mutator)?;
    push_registers(text, registers)?;
    end_line(text)
}

/// Writes the line of a set that is given up.
pub fn push_free(text: &mut Vec<u8>, members: &[u16]) -> Result<(), AllocError>
    ensures { OnOk result (text.new.items ≡ text.old.items ++ text_of_line (line_of kinds.Free members.now)) }
{
    text.extend_from_slice(Kind::Free.name())?;
    push_slots(text, members)?;
    end_line(text)
}
