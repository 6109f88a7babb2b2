//! The operands of a line: numerals, and how many words there are.

ghost use Rattle.std.specs.Prelude.{◌≡◌, ◌≢◌, ◌↔◌, ℕ, ◌<◌, ◌≤◌, ◌^◌, List, [], ◌∷◌, length, IfSome, IfNone, IfOk, IfErr, IsTrue, MatchOption};
ghost use Rattle.rec_script.specs.Lines.{words};
ghost use Rattle.rec_script.specs.Operands.{AreMisread};
ghost use Rattle.rec_script.specs.declared.error.Kind.TheVariants.{TooManyCommands};
ghost use Rattle.rec_script.specs.Script.{IsNumeralOf, IsWrong};
ghost use Rattle.std.specs.Fmt.{decimal};
ghost use Rattle.rec_model.specs.declared.limits.TheConstants.{MOST_COMMANDS};

use crate::error::Kind;
use crate::line::next_word;
use rec_model::limits::MOST_COMMANDS;

/// The number that a numeral spells; a numeral has no leading zeros and is at most 4,294,967,295.
pub fn numeral(word: &[u8]) -> Option<u32>
    ensures { MatchOption result ((n : ℕ) → ¬ IsNumeralOf word.now n) (λ n. IsNumeralOf word.now n) }
{
    let Some((number, rest)) = rec_io::numeral(u64::from(u32::MAX), word) else {
        return None;
    };
    if rest.is_empty() {
        Some(number as u32)
    } else {
        None
    }
}

/// What an operand has to be below, and what is wrong with a numeral that isn't.
#[derive(Clone, Copy)]
pub struct Limit {
    pub below: u64,
    pub past: Kind,
}

/// The number that an operand is.
fn operand(limit: Limit, word: &[u8]) -> Result<u32, Kind>
    ensures right { IfOk result (λ n. IsNumeralOf word.now n × (n < limit.below)) }
    ensures wrong { IfErr result (λ kind. IsWrong (limit.below, limit.past) word.now kind) }
{
    let Some(number) = numeral(word) else {
        return Err(Kind::BadNumber);
    };
    if u64::from(number) < limit.below {
        Ok(number)
    } else {
        Err(limit.past)
    }
}

/// The line has no word.
pub fn no_word(line: &[u8]) -> bool
    ensures { IsTrue result ↔ (words line.now ≡ []) }
{
    next_word(line).is_none()
}

/// The one word of a line that has one.
pub fn one_word(line: &[u8]) -> Option<&[u8]>
    ensures none { IfNone result (length (words line.now) ≢ 1) }
    ensures some { IfSome result (λ x. words line.now ≡ x.now ∷ []) }
{
    let (first, rest) = next_word(line)?;
    if no_word(rest) { Some(first) } else { None }
}

/// The words of a line that has two.
pub fn two_words(line: &[u8]) -> Option<(&[u8], &[u8])>
    ensures none { IfNone result (length (words line.now) ≢ 2) }
    ensures some { IfSome result (λ x. words line.now ≡ x.0.now ∷ x.1.now ∷ []) }
{
    let (first, rest) = next_word(line)?;
    Some((first, one_word(rest)?))
}

/// The words of a line that has three.
pub fn three_words(line: &[u8]) -> Option<(&[u8], &[u8], &[u8])>
    ensures none { IfNone result (length (words line.now) ≢ 3) }
    ensures some { IfSome result (λ x. words line.now ≡ x.0.now ∷ x.1.now ∷ x.2.now ∷ []) }
{
    let (first, rest) = next_word(line)?;
    let (second, third) = two_words(rest)?;
    Some((first, second, third))
}

/// There is room for a command behind so many.
fn room(count: usize) -> Result<(), Kind>
    requires { count ≤ MOST_COMMANDS }
    ensures room { IfOk result (λ x. count < MOST_COMMANDS) }
    ensures full { IfErr result (λ kind. (kind ≡ TooManyCommands) × (count ≡ MOST_COMMANDS)) }
{
    if count < MOST_COMMANDS {
        Ok(())
    } else {
        Err(Kind::TooManyCommands)
    }
}

/// A line that has no operands, behind so many commands.
pub fn no_operands(count: usize, line: &[u8]) -> Result<(), Kind>
    requires { count ≤ MOST_COMMANDS }
    ensures right { IfOk result (λ x. words line.now ≡ []) }
    ensures room { IfOk result (λ x. count < MOST_COMMANDS) }
    ensures wrong { IfErr result (λ kind. AreMisread count [] (words line.now) kind) }
{
    if no_word(line) {
        room(count)
    } else {
        Err(Kind::BadCommand)
    }
}

/// The operand of a line that has one, behind so many commands.
pub fn one_operand(count: usize, limit: Limit, line: &[u8]) -> Result<u32, Kind>
    requires { count ≤ MOST_COMMANDS }
    ensures right { IfOk result (λ n. words line.now ≡ decimal n ∷ []) }
    ensures below { IfOk result (λ n. (n < 2 ^ 32) × (n < limit.below) × (count < MOST_COMMANDS)) }
    ensures wrong { IfErr result (λ kind. AreMisread count
        ((limit.below, limit.past) ∷ []) (words line.now) kind) }
{
    let Some(first) = one_word(line) else {
        return Err(Kind::BadCommand);
    };
    room(count)?;
    operand(limit, first)
}

/// The operands of a line that has two, behind so many commands.
pub fn two_operands(
    count: usize,
    left: Limit,
    right: Limit,
    line: &[u8],
) -> Result<(u32, u32), Kind>
    requires { count ≤ MOST_COMMANDS }
    ensures right { IfOk result (λ x. words line.now ≡ decimal x.0 ∷ decimal x.1 ∷ []) }
    ensures below { IfOk result (λ x. (x.0 < left.below) × (x.1 < right.below)
        × (count < MOST_COMMANDS)) }
    ensures wrong { IfErr result (λ kind. AreMisread count
        ((left.below, left.past) ∷ (right.below, right.past) ∷ []) (words line.now) kind) }
{
    let Some((first, second)) = two_words(line) else {
        return Err(Kind::BadCommand);
    };
    room(count)?;
    let first = operand(left, first)?;
    let second = operand(right, second)?;
    Ok((first, second))
}

/// The operands of a line that has three, behind so many commands.
pub fn three_operands(
    count: usize,
    left: Limit,
    middle: Limit,
    right: Limit,
    line: &[u8],
) -> Result<(u32, u32, u32), Kind>
    requires { count ≤ MOST_COMMANDS }
    ensures right { IfOk result (λ x.
        words line.now ≡ decimal x.0 ∷ decimal x.1 ∷ decimal x.2 ∷ []) }
    ensures below { IfOk result (λ x. (x.0 < left.below) × (x.1 < middle.below)
        × (x.2 < right.below) × (count < MOST_COMMANDS)) }
    ensures wrong { IfErr result (λ kind. AreMisread count
        ((left.below, left.past) ∷ (middle.below, middle.past) ∷ (right.below, right.past) ∷ [])
        (words line.now) kind) }
{
    let Some((first, second, third)) = three_words(line) else {
        return Err(Kind::BadCommand);
    };
    room(count)?;
    let first = operand(left, first)?;
    let second = operand(middle, second)?;
    let third = operand(right, third)?;
    Ok((first, second, third))
}

/// The word is this name.
pub fn is_name(word: &[u8], name: &[u8]) -> bool
    ensures { IsTrue result ↔ (word.now ≡ name.now) }
{
    word == name
}
