//! A text, line by line, and the answers in it.

ghost use Rattle.std.specs.Prelude.{◌≡◌, ◌<◌, ◌++◌, ◌∷◌, [], List, map, length, slice_index_or, string_bytes, OnOk, OnErr};
ghost use Rattle.std.specs.Iterator.{YieldsFirstRef, item_count};
ghost use Rattle.std.specs.List.{flat_map, sum};
ghost use Rattle.rec_report.specs.Pieces.{pieces};
ghost use Rattle.rec_report.specs.Text.{answer_line, own_lines, lines_by_mutator, lines_in_order, IsOrderOf};

use crate::answer::{LONGEST, write_answer};
use rec_model::{Answer, Cmd, Told};
use rec_world::Journal;
use std::alloc::{AllocError as NoMemory, Global};
use std::marker::Model;

// How many bytes the line of an answer has at most as a rule: `1.200000 object` and its line feed.
const USUAL_LENGTH: usize = 16;

/// A text, line by line: its bytes, and how many of them each line has. So a line takes no memory of its own.
#[derive(Drop)]
pub struct Text {
    bytes: Vec<u8>,
    lengths: Vec<usize>,
}

impl Model for Text {
    ghost use Rattle.std.specs.Prelude.{◌≡◌, ℕ, List, length};
    ghost use Rattle.std.specs.List.{sum};
    ghost use Rattle.rec_report.specs.Pieces.{pieces};

    ghost Value = { List (List ℕ) };

    ghost view = { λ text. pieces text.lengths.items text.bytes.items };

    ghost invariant = { λ text. sum text.lengths.items ≡ length text.bytes.items };
}

impl Text {
    /// The lines in order, each with its line feed.
    pub fn lines(&self) -> Lines<'_>
        ensures { result ≡ self.now }
    {
        Lines::of(&self.bytes, &self.lengths)
    }

    /// The bytes of all lines, one line after another.
    #[tactic(auto, using(crate::proofs::Cuts::pieces_joined))]
    pub fn bytes(&self) -> &[u8]
        ensures { result.now ≡ flat_map (λ line. line) self.now }
    {
        self.bytes.as_slice()
    }

    pub(super) fn new(alloc: Global) -> Text
        ensures { result ≡ [] }
    {
        Text {
            bytes: Vec::new(alloc),
            lengths: Vec::new(alloc),
        }
    }

    /// Adds a line that is given by its bytes. Where memory runs out the text stays.
    #[inline(always)]
    #[tactic(auto, using(crate::proofs::Cuts::pieces_append))]
    fn add_bytes(&mut self, line: &[u8]) -> Result<(), NoMemory>
        ensures ok { OnOk result (self.new ≡ self.old ++ line.now ∷ []) }
        ensures err { OnErr result (self.new ≡ self.old) }
    {
        self.lengths.reserve(1)?;
        self.bytes.extend_from_slice(line)?;
        self.lengths.push(line.len()).unwrap();
        Ok(())
    }

    pub(super) fn add(&mut self, line: String) -> Result<(), NoMemory>
        ensures { OnOk result (self.new ≡ self.old ++ string_bytes line ∷ []) }
    {
        self.add_bytes(line.as_bytes())
    }

    /// Makes room for this many answers, so that nothing is moved as they become more. Most of their lines are no longer.
    fn make_room(&mut self, answers: usize) -> Result<(), NoMemory>
        ensures { self.new ≡ self.old }
    {
        self.lengths.reserve(answers)?;
        self.bytes.reserve(answers.saturating_mul(USUAL_LENGTH))?;
        Ok(())
    }

    /// Adds the answer to command `i` of mutator `t`.
    #[inline(always)]
    pub(super) fn add_answer(&mut self, t: usize, i: usize, answer: Answer) -> Result<(), NoMemory>
        ensures { OnOk result (self.new ≡ self.old ++ answer_line t i answer ∷ []) }
    {
        let mut buffer = [0; LONGEST];
        let start = write_answer(t, i, answer, &mut buffer);
        self.add_bytes(&buffer[start..])
    }

    // The answers to mutator `t`.
    fn add_journal(&mut self, t: usize, journal: &[(Cmd, Told)]) -> Result<(), NoMemory>
        ensures { OnOk result (self.new ≡ self.old ++ own_lines t journal.now) }
    {
        self.make_room(journal.len())?;
        for (i, line) in journal.iter().enumerate() {
            self.add_answer(t, i + 1, line.1.answer)?;
        }
        Ok(())
    }

    // The answers mutator by mutator.
    pub(super) fn add_journals(&mut self, journals: &[Journal]) -> Result<(), NoMemory>
        ensures { OnOk result (self.new ≡ self.old ++ lines_by_mutator (map (λ journal. journal.lines) journals.now)) }
    {
        for (i, journal) in journals.iter().enumerate() {
            self.add_journal(i + 1, journal.lines())?;
        }
        Ok(())
    }

    // The answers in the order of the mutators' turns.
    pub(super) fn add_turns(
        &mut self,
        alloc: Global,
        journals: &[Journal],
        order: &[u8],
    ) -> Result<(), NoMemory>
        requires { IsOrderOf (map (λ journal. journal.lines) journals.now) order.now }
        ensures { OnOk result (self.new ≡ self.old ++ lines_in_order (map (λ journal. journal.lines) journals.now) order.now) }
    {
        self.make_room(order.len())?;
        let mut next: Vec<usize> = vec![in alloc; 0; journals.len()]?;
        for t in order {
            let own = usize::from(*t) - 1;
            let i = next[own];
            self.add_turn(own + 1, i, journals[own].lines())?;
            next[own] = i + 1;
        }
        Ok(())
    }

    // The answer to command `i` of mutator `t`; here commands are numbered from 0.
    fn add_turn(&mut self, t: usize, i: usize, journal: &[(Cmd, Told)]) -> Result<(), NoMemory>
        requires { i < length journal.now }
        ensures { OnOk result (self.new ≡ self.old ++ slice_index_or (own_lines t journal.now) i [] ∷ []) }
    {
        self.add_answer(t, i + 1, journal[i].1.answer)?;
        Ok(())
    }
}

/// The lines of a text that are left, each with its line feed.
#[derive(Drop)]
pub struct Lines<'a> {
    bytes: &'a [u8],
    lengths: &'a [usize],
}

impl<'a> Model for Lines<'a> {
    ghost use Rattle.std.specs.Prelude.{◌≡◌, ℕ, List, length};
    ghost use Rattle.std.specs.List.{sum};
    ghost use Rattle.rec_report.specs.Pieces.{pieces};

    ghost Value = { List (List ℕ) };

    ghost view = { λ s. pieces s.lengths.now s.bytes.now };

    ghost invariant = { λ s. sum s.lengths.now ≡ length s.bytes.now };
}

impl<'a> Lines<'a> {
    // The lines of these lengths.
    pub(super) fn of(bytes: &'a [u8], lengths: &'a [usize]) -> Lines<'a>
        requires { sum lengths.now ≡ length bytes.now }
        ensures { result ≡ pieces lengths.now bytes.now }
    {
        Lines { bytes, lengths }
    }
}

impl<'a> Iterator for Lines<'a> {
    type Item = &'a [u8];

    ghost next_gives = { YieldsFirstRef (λ s. s) };

    ghost remaining = { item_count (λ s. s) };

    fn next(&mut self) -> Option<&'a [u8]> {
        let (length, lengths) = self.lengths.split_first()?;
        let (line, bytes) = self.bytes.split_at(*length);
        self.bytes = bytes;
        self.lengths = lengths;
        Some(line)
    }
}
