//! The rows of a file.

use crate::action::Action;
use crate::words::{action, config};
use crate::wrong::{BadLine, Wrong};
use rec_world::Config;
use std::alloc::Global;
use std::mem::replace;

/// A row: a heap, and what happens on it.
#[derive(Drop)]
pub struct Row<'a> {
    pub opening: Opening<'a>,
    pub steps: Vec<Step<'a>>,
}

/// How the heap of a row is opened.
#[derive(Clone, Copy)]
pub struct Opening<'a> {
    /// Its line, from 1.
    pub line: u32,
    pub config: Config,
    /// What is told where it is to be refused.
    pub told: &'a str,
    /// Whether the row is carried out once for each place at which the heap can be taken apart.
    pub is_cut: bool,
}

/// What a line asks, and what is to be told then.
#[derive(Clone, Copy)]
pub struct Step<'a> {
    pub line: u32,
    pub action: Action,
    /// The line without what is to be told.
    pub asked: &'a str,
    pub told: &'a str,
}

// Steps that rows share.
#[derive(Drop)]
struct Part<'a> {
    name: &'a str,
    steps: Vec<Step<'a>>,
}

// What the next line belongs to.
#[derive(Clone, Copy)]
enum Head<'a> {
    Nothing,
    Part { name: &'a str },
    // A row whose heap comes next.
    Title { is_cut: bool },
    Row(Opening<'a>),
}

// What was read so far: whole rows and parts, and the steps of the one that isn't whole.
#[derive(Drop)]
struct Draft<'a> {
    alloc: Global,
    rows: Vec<Row<'a>>,
    parts: Vec<Part<'a>>,
    head: Head<'a>,
    steps: Vec<Step<'a>>,
    // Whether the heap runs at the end of the steps.
    runs: bool,
}

/// The rows of a text, in order.
pub fn rows<'a>(alloc: Global, text: &'a str) -> Result<Vec<Row<'a>>, BadLine> {
    let mut draft = Draft {
        alloc,
        rows: Vec::new(alloc),
        parts: Vec::new(alloc),
        head: Head::Nothing,
        steps: Vec::new(alloc),
        runs: false,
    };
    match draft.read(text) {
        Ok(()) => Ok(draft.rows),
        Err(bad) => Err(bad),
    }
}

// What a line asks that a heap is asked.
fn action_of(alloc: Global, asked: &str, told: &str) -> Result<Action, Wrong> {
    let words: Vec<&str> = asked.split_whitespace().collect(alloc)?;
    action(&words, told.contains(" saw "))
}

// The numbers of a heap.
fn config_of(alloc: Global, numbers: &str) -> Result<Config, Wrong> {
    let words: Vec<&str> = numbers.split_whitespace().collect(alloc)?;
    config(&words)
}

// What stands on both sides of the equals sign. Where there is none, nothing is to be told.
fn asked_and_told(text: &str) -> (&str, &str) {
    let (asked, told) = text.split_once('=').unwrap_or((text, ""));
    (asked.trim(), told.trim())
}

impl<'a> Draft<'a> {
    // Takes the lines of a text.
    fn read(&mut self, text: &'a str) -> Result<(), BadLine> {
        let mut line = 0u32;
        for text in text.lines() {
            line = line.saturating_add(1);
            if let Err(wrong) = self.take(line, text.trim()) {
                return Err(BadLine { line, wrong });
            }
        }
        match self.close() {
            Ok(()) => Ok(()),
            Err(wrong) => Err(BadLine { line, wrong }),
        }
    }

    // Takes a line. One without a word is skipped, and so is one that begins with `#`.
    fn take(&mut self, line: u32, text: &'a str) -> Result<(), Wrong> {
        if text.is_empty() || text.starts_with('#') {
            return Ok(());
        }
        let (first, rest) = text.split_once(' ').unwrap_or((text, ""));
        match first {
            "row" => self.begin(Head::Title { is_cut: false }),
            "cut" => self.begin(Head::Title { is_cut: true }),
            "part" => self.begin_part(rest),
            "do" => self.repeat(rest),
            "start" if rest.is_empty() => self.turn_over(line, true),
            "stop" if rest.is_empty() => self.turn_over(line, false),
            "heap" => self.open(line, rest),
            _ => self.step(line, text),
        }
    }

    fn begin_part(&mut self, name: &'a str) -> Result<(), Wrong> {
        self.begin(Head::Part { name })?;
        let is_new = self.parts.iter().all(|part| part.name != name);
        if is_new {
            Ok(())
        } else {
            Err(Wrong::SecondPart)
        }
    }

    // A row or a part begins.
    fn begin(&mut self, head: Head<'a>) -> Result<(), Wrong> {
        self.close()?;
        self.head = head;
        Ok(())
    }

    // The row or the part that was begun ends.
    fn close(&mut self) -> Result<(), Wrong> {
        if self.runs {
            return Err(Wrong::NeverStopped);
        }
        let steps = replace(&mut self.steps, Vec::new(self.alloc));
        match self.head {
            Head::Nothing => Ok(()),
            Head::Title { .. } => Err(Wrong::NoHeap),
            Head::Row(opening) if !opening.told.is_empty() && !steps.is_empty() => {
                Err(Wrong::Refused)
            }
            Head::Part { name } => Ok(self.parts.push(Part { name, steps })?),
            Head::Row(opening) => Ok(self.rows.push(Row { opening, steps })?),
        }
    }

    // The heap of a row.
    fn open(&mut self, line: u32, text: &'a str) -> Result<(), Wrong> {
        let Head::Title { is_cut } = self.head else {
            return Err(Wrong::NoHeap);
        };
        let (numbers, told) = asked_and_told(text);
        let config = config_of(self.alloc, numbers)?;
        self.head = Head::Row(Opening {
            line,
            config,
            told,
            is_cut,
        });
        Ok(())
    }

    // The heap runs from here on, or no longer.
    fn turn_over(&mut self, line: u32, runs: bool) -> Result<(), Wrong> {
        let Head::Row(opening) = self.head else {
            return Err(Wrong::NoHeap);
        };
        if opening.is_cut {
            return Err(Wrong::Cut);
        }
        if self.runs == runs {
            return Err(if runs { Wrong::Running } else { Wrong::Stopped });
        }
        self.runs = runs;
        self.steps.push(Step {
            line,
            action: Action::TurnOver,
            asked: "",
            told: "",
        })?;
        Ok(())
    }

    // Steps belong to a part, or to a row behind its heap.
    fn begun(&self) -> Result<(), Wrong> {
        match self.head {
            Head::Part { .. } | Head::Row(_) => Ok(()),
            Head::Nothing | Head::Title { .. } => Err(Wrong::NoHeap),
        }
    }

    // The steps of a part.
    fn repeat(&mut self, name: &str) -> Result<(), Wrong> {
        self.begun()?;
        let Some(part) = self.parts.iter().find(|part| part.name == name) else {
            return Err(Wrong::NoPart);
        };
        if self.runs {
            return Err(Wrong::Running);
        }
        self.steps.extend_from_slice(&part.steps)?;
        Ok(())
    }

    // A step.
    fn step(&mut self, line: u32, text: &'a str) -> Result<(), Wrong> {
        self.begun()?;
        let (asked, told) = asked_and_told(text);
        let action = action_of(self.alloc, asked, told)?;
        if self.runs && !action.may_run() {
            return Err(Wrong::Running);
        }
        self.steps.push(Step {
            line,
            action,
            asked,
            told,
        })?;
        Ok(())
    }
}
