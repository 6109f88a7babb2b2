//! Scripts that are made from a seed.

ghost use Rattle.std.specs.Prelude.{◌≡◌, ◌≤◌, ◌<◌, ◌+◌, ◌%◌, [], ◌∷◌, ◌++◌, length, map, string_bytes, IfOk, OnOk};
ghost use Rattle.rec_model.specs.declared.limits.TheConstants.{MOST_BYTES, MOST_COMMANDS, MOST_SCRIPT_MUTATORS};
ghost use Rattle.std.specs.Fmt.{decimal};
ghost use Rattle.rand_pcg.specs.Lcg.{Lcg};
ghost use Rattle.rec_script.specs.Lines.{lines, spaced};
ghost use Rattle.rec_script.specs.Script.{Spells, command_line};
ghost use Rattle.rec_script.specs.Made.{after_commands, after_drawn, after_words, commands_from, drawn, made_script, made_text, text_of, word_after};

use rand_core::utils::NextWord;
use rand_pcg::Pcg32;
use rec_model::Cmd;
use std::alloc::{AllocError as NoMemory, Global};
use std::fmt::Write;

// The stream of the generator whose words say the commands. The playing rule draws from another one.
const STREAM: u64 = 2;

// The lines in front of the first mutator's.
const FRONT: &str = "recycler 1\nheap 1024 2 8\n";

// The line of a mutator.
const MUTATOR: &str = "mutator\n";

// No command's line has more bytes: `new 7 999`, `get 7 7 1` and `put 7 1 7` have ten with their LF.
const LONGEST: usize = 10;

/// The next word, below a bound.
#[tactic(auto, unfolding(crate::specs::Made::after_words, crate::specs::Made::word_after))]
fn draw(generator: &mut Pcg32, bound: u32) -> u32
    requires { 0 < bound }
    ensures value { result ≡ word_after 0 generator.old % bound }
    ensures below { result < bound }
    ensures next { generator.new ≡ after_words 1 generator.old }
{
    generator.next_word() % bound
}

/// A register that a command writes. It is never register 0, which keeps the opening object.
fn draw_written(generator: &mut Pcg32) -> u8
    ensures value { result ≡ word_after 0 generator.old % 7 + 1 }
    ensures next { generator.new ≡ after_words 1 generator.old }
{
    draw(generator, 7) as u8 + 1
}

/// A register that a command reads.
fn draw_read(generator: &mut Pcg32) -> u8
    ensures value { result ≡ word_after 0 generator.old % 8 }
    ensures next { generator.new ≡ after_words 1 generator.old }
{
    draw(generator, 8) as u8
}

/// A field.
fn draw_field(generator: &mut Pcg32) -> u8
    ensures value { result ≡ word_after 0 generator.old % 2 }
    ensures next { generator.new ≡ after_words 1 generator.old }
{
    draw(generator, 2) as u8
}

/// The next command: a word chooses the row of the profile's table, and the next ones its operands, as they stand in the line.
fn draw_command(generator: &mut Pcg32) -> Cmd
    ensures { (result ≡ drawn generator.old) × (generator.new ≡ after_drawn generator.old) }
{
    match draw(generator, 16) {
        0..=3 => {
            let reg = draw_written(generator);
            let label = draw(generator, 1000);
            Cmd::New { reg, label }
        }
        4 => Cmd::Null {
            reg: draw_written(generator),
        },
        5..=6 => {
            let dst = draw_written(generator);
            let src = draw_read(generator);
            Cmd::Copy { dst, src }
        }
        7..=9 => {
            let dst = draw_written(generator);
            let src = draw_read(generator);
            let field = draw_field(generator);
            Cmd::Get { dst, src, field }
        }
        10..=13 => {
            let src = draw_read(generator);
            let field = draw_field(generator);
            let val = draw_read(generator);
            Cmd::Put { src, field, val }
        }
        14 => Cmd::Value {
            reg: draw_read(generator),
        },
        _ => {
            let a = draw_read(generator);
            let b = draw_read(generator);
            Cmd::Same { a, b }
        }
    }
}

/// Adds a line of a name and one operand.
fn push_one(text: &mut String, name: &str, operand: u8) -> Result<(), NoMemory>
    ensures { OnOk result (string_bytes text.new ≡ string_bytes text.old ++ spaced (name.now ∷ decimal operand ∷ []) []) }
{
    writeln!(text, "{name} {operand}")
}

/// Adds a line of a name and two operands.
fn push_two(text: &mut String, name: &str, left: u8, right: u32) -> Result<(), NoMemory>
    ensures { OnOk result (string_bytes text.new ≡ string_bytes text.old ++ spaced (name.now ∷ decimal left ∷ decimal right ∷ []) []) }
{
    writeln!(text, "{name} {left} {right}")
}

/// Adds a line of a name and three operands.
fn push_three(
    text: &mut String,
    name: &str,
    left: u8,
    middle: u8,
    right: u8,
) -> Result<(), NoMemory>
    ensures { OnOk result (string_bytes text.new ≡ string_bytes text.old ++ spaced (name.now ∷ decimal left ∷ decimal middle ∷ decimal right ∷ []) []) }
{
    writeln!(text, "{name} {left} {middle} {right}")
}

/// Adds the line of a command.
fn push_command(text: &mut String, cmd: &Cmd) -> Result<(), NoMemory>
    ensures { OnOk result (string_bytes text.new ≡ string_bytes text.old ++ spaced (command_line cmd.now) []) }
{
    match *cmd {
        Cmd::New { reg, label } => push_two(text, "new", reg, label),
        Cmd::Leaf { reg, label } => push_two(text, "leaf", reg, label),
        Cmd::Null { reg } => push_one(text, "null", reg),
        Cmd::Copy { dst, src } => push_two(text, "copy", dst, u32::from(src)),
        Cmd::Get { dst, src, field } => push_three(text, "get", dst, src, field),
        Cmd::Put { src, field, val } => push_three(text, "put", src, field, val),
        Cmd::Value { reg } => push_one(text, "value", reg),
        Cmd::Same { a, b } => push_two(text, "same", a, u32::from(b)),
        Cmd::Leave => writeln!(text, "leave"),
        Cmd::Park => writeln!(text, "park"),
        Cmd::Unpark => writeln!(text, "unpark"),
    }
}

/// Adds the lines of so many commands.
fn push_commands(text: &mut String, generator: &mut Pcg32, commands: u32) -> Result<(), NoMemory>
    ensures text { OnOk result (string_bytes text.new
        ≡ string_bytes text.old ++ text_of (map command_line (commands_from generator.old commands))) }
    ensures next { OnOk result (generator.new ≡ after_commands commands generator.old) }
{
    for _ in 0..commands {
        push_command(text, &draw_command(generator))?;
    }
    Ok(())
}

/// A script of version 1, of so many mutators with so many commands each, drawn from a seed as the profile says (`docs/PROFILE.md`,
/// "Made scripts").
pub fn make(alloc: Global, seed: u64, mutators: u8, commands: u32) -> Result<Vec<u8>, NoMemory>
    requires mutators { (1 ≤ mutators) × (mutators ≤ MOST_SCRIPT_MUTATORS) }
    requires commands { commands ≤ MOST_COMMANDS }

    // The bytes are the text of the commands that the seed draws, and that only.
    ensures made { IfOk result (λ text. text.items ≡ made_text seed mutators commands) }
    // Its lines spell the script of these commands, so it is read again as that.
    ensures script { IfOk result (λ text. Spells (lines text.items) (made_script seed mutators commands)) }
    ensures few { IfOk result (λ text. length text.items ≤ MOST_BYTES) }
{
    // Room for all lines at once, so that none is moved as they become more.
    let room = usize::from(mutators) * (MUTATOR.len() + commands as usize * LONGEST);
    let mut text = String::with_capacity(alloc, FRONT.len() + room)?;
    text.push_str(FRONT)?;
    let mut generator = Pcg32::new(seed, STREAM);
    for _ in 0..mutators {
        text.push_str(MUTATOR)?;
        push_commands(&mut text, &mut generator, commands)?;
    }
    Ok(text.into_bytes())
}
