//! What is told, in words.

use crate::action::Message;
use rec_image::ImageError;
use rec_model::{Answer, Told};
use rec_mutator::Made;
use rec_script::{Kind, ScriptError};
use rec_world::{OpenError, Part, Turn};
use std::alloc::{AllocError as NoMemory, Global};
use std::fmt::Write;

/// An answer, spelled as in the text of a run.
pub fn answer(alloc: Global, answer: Answer) -> Result<String, NoMemory> {
    let word = word_of(answer);
    match answer {
        Answer::Value(label) => format!(in alloc; "{word} {label}"),
        Answer::Busy { before, after } => format!(in alloc; "{word} {before} {after}"),
        _ => String::from_str(alloc, word),
    }
}

fn word_of(answer: Answer) -> &'static str {
    match answer {
        Answer::Done => "done",
        Answer::Null => "null",
        Answer::Object => "object",
        Answer::Value(_) => "value",
        Answer::Yes => "yes",
        Answer::No => "no",
        Answer::NoObject => "none",
        Answer::Full => "full",
        Answer::Busy { .. } => "busy",
        Answer::NoField => "nofield",
        Answer::NotYet => "notyet",
        Answer::LogFull => "logfull",
    }
}

/// An answer with the words that were seen and left.
pub fn told(alloc: Global, told: Told) -> Result<String, NoMemory> {
    let answer = answer(alloc, told.answer)?;
    let (saw, left) = (told.saw, told.left);
    format!(in alloc; "{answer} saw {saw} left {left}")
}

/// What a step came to.
pub fn made(alloc: Global, made: Option<Made>) -> Result<String, NoMemory> {
    match made {
        None => String::from_str(alloc, "goes on"),
        Some(Made::Answered(answered)) => told(alloc, answered),
        Some(Made::Crossed(epoch)) => crossing(alloc, epoch),
    }
}

/// The epoch into which a poll crossed.
pub fn crossing(alloc: Global, epoch: Option<u32>) -> Result<String, NoMemory> {
    match epoch {
        Some(epoch) => format!(in alloc; "epoch {epoch}"),
        None => String::from_str(alloc, "stays"),
    }
}

/// What a turn came to.
pub fn turn(alloc: Global, turn: Turn) -> Result<String, NoMemory> {
    match turn {
        Turn::Moved => String::from_str(alloc, "moved"),
        Turn::Waiting { mutator } => format!(in alloc; "waiting {mutator}"),
        Turn::Collected { epoch, freed } => format!(in alloc; "collected {epoch} freed {freed}"),
        Turn::EpochsSpent => String::from_str(alloc, "spent"),
    }
}

/// Why a heap wasn't opened.
pub fn refusal(alloc: Global, error: &OpenError) -> Result<String, NoMemory> {
    match error {
        OpenError::Config { field } => {
            let part = part(*field);
            format!(in alloc; "{error}: {part}")
        }
        OpenError::NoMemory => format!(in alloc; "{error}"),
    }
}

fn part(part: Part) -> &'static str {
    match part {
        Part::Slots => "slots",
        Part::Fields => "fields",
        Part::Registers => "registers",
        Part::Mutators => "mutators",
        Part::LogEntries => "log",
        Part::FirstEpoch => "epoch",
    }
}

/// The text of an error.
pub fn message(alloc: Global, message: Message) -> Result<String, NoMemory> {
    let bad = ScriptError::Bad {
        line: 3,
        kind: Kind::NotUtf8,
    };
    match message {
        Message::NoMemoryToOpen => refusal(alloc, &OpenError::NoMemory),
        Message::NoScript => format!(in alloc; "{bad}"),
        Message::NoMemoryForScript => format!(in alloc; "{}", ScriptError::NoMemory),
        Message::NoMemoryForImage => format!(in alloc; "{}", ImageError::NoMemory),
    }
}

/// A number, or another word where it is missing.
pub fn number(alloc: Global, number: Option<u64>, missing: &str) -> Result<String, NoMemory> {
    match number {
        Some(number) => format!(in alloc; "{number}"),
        None => String::from_str(alloc, missing),
    }
}

/// Yes or no.
pub fn yes(alloc: Global, is_so: bool) -> Result<String, NoMemory> {
    String::from_str(alloc, if is_so { "yes" } else { "no" })
}

/// Slots, with a space between each two.
pub fn listed(alloc: Global, slots: &[u16]) -> Result<String, NoMemory> {
    let mut text = String::new(alloc);
    for (i, slot) in slots.iter().enumerate() {
        if i > 0 {
            text.push(' ')?;
        }
        write!(text, "{slot}")?;
    }
    Ok(text)
}
