//! A line of an image, spelled from its end to its front, as digits come.

ghost use Rattle.std.specs.Prelude.{◌≡◌, ◌+◌, ◌*◌, ◌≤◌, ◌++◌, ℕ, [], Option, length};
ghost use Rattle.std.specs.Fmt.{decimal};
ghost use Rattle.std.specs.List.{flat_map};
ghost use Rattle.rec_word.specs.Word.{target_of};
ghost use Rattle.rec_report.specs.Text.{field_number, field_word, line_feed};
ghost use Rattle.rec_image.specs.Image.{heap_line, node_head};
ghost use Rattle.rec_image.specs.Standing.{spelled_fields, spelled_node, spelled_registers};

use itoa::write_digits;
use rec_word::target;
use rec_world::Numbering;
use std::marker::Model;

// No line has more bytes: 64 words of at most twelve, and what stands around them.
const LONGEST: usize = 1024;

/// A line, or its end so far. Contracts see its bytes.
#[derive(Drop)]
pub(crate) struct Line {
    bytes: [u8; LONGEST],
    start: usize,
}

impl Model for Line {
    ghost use Rattle.std.specs.Prelude.{◌≤◌, ℕ, List, drop};

    ghost Value = { List ℕ };

    ghost view = { λ line. drop line.start line.bytes };

    ghost invariant = { λ line. line.start ≤ 1024 };
}

impl Line {
    /// No bytes.
    pub(crate) fn new() -> Line
        ensures { result ≡ [] }
    {
        Line {
            bytes: [0; LONGEST],
            start: LONGEST,
        }
    }

    /// The bytes.
    pub(crate) fn bytes(&self) -> &[u8]
        ensures { result.now ≡ self.now }
    {
        &self.bytes[self.start..]
    }

    /// No bytes any more.
    #[inline(always)]
    fn clear(&mut self)
        ensures { self.new ≡ [] }
    {
        self.start = LONGEST;
    }

    /// A line's end.
    #[inline(always)]
    fn begin(&mut self)
        ensures { self.new ≡ line_feed }
    {
        self.clear();
        self.spell(b"\n");
    }

    /// A piece before what stands there.
    #[inline(always)]
    fn spell(&mut self, piece: &[u8])
        requires { length piece.now + length self.old ≤ 1024 }
        ensures { self.new ≡ piece.now ++ self.old }
    {
        let start = self.start - piece.len();
        self.bytes[start..self.start].copy_from_slice(piece);
        self.start = start;
    }

    /// A number before what stands there.
    #[inline(always)]
    #[tactic(auto, using(crate::proofs::Digits::ten_digits))]
    fn spell_number(&mut self, n: u32)
        requires { 10 + length self.old ≤ 1024 }
        ensures spelled { self.new ≡ decimal n ++ self.old }
        ensures short { length self.new ≤ 10 + length self.old }
    {
        self.start = write_digits(u64::from(n), &mut self.bytes, self.start);
    }

    /// What a field or register that holds this slot leads to.
    #[inline(always)]
    fn spell_slot(&mut self, slot: Option<u16>, numbering: &Numbering)
        requires { 12 + length self.old ≤ 1024 }
        ensures spelled { self.new ≡ field_word (field_number numbering.now.list slot) ++ self.old }
        ensures short { length self.new ≤ 12 + length self.old }
    {
        match slot {
            Some(slot) => self.spell_object(numbering.number(slot)),
            None => self.spell_object(None),
        }
    }

    /// What a field or register leads to that holds the object with this number.
    #[inline(always)]
    fn spell_object(&mut self, number: Option<u16>)
        requires { 12 + length self.old ≤ 1024 }
        ensures spelled { self.new ≡ field_word number ++ self.old }
        ensures short { length self.new ≤ 12 + length self.old }
    {
        match number {
            Some(number) => {
                self.spell_number(u32::from(number));
                self.spell(b" #");
            }
            None => self.spell(b" -"),
        }
    }

    /// What the fields with these words lead to.
    #[inline(always)]
    fn spell_fields(&mut self, words: &[u64], numbering: &Numbering)
        requires { 12 * length words.now + length self.old ≤ 1024 }
        ensures spelled { self.new ≡ spelled_fields numbering.now.list words.now ++ self.old }
        ensures short { length self.new ≤ 12 * length words.now + length self.old }
    {
        let mut left = words.len();
        while left > 0 {
            left -= 1;
            self.spell_slot(target(words[left]), numbering);
        }
    }

    /// The line of an object, whose fields have these words.
    #[inline(always)]
    pub(crate) fn spell_node(
        &mut self,
        leaf: bool,
        label: u32,
        words: &[u64],
        numbering: &Numbering,
    )
        requires { length words.now ≤ 16 }
        ensures { self.new ≡ spelled_node leaf label numbering.now.list words.now }
    {
        self.begin();
        if leaf {
            self.spell_number(label);
            self.spell(b"leaf ");
        } else {
            self.spell_fields(words, numbering);
            self.spell_number(label);
            self.spell(b"object ");
        }
    }

    /// The line of a mutator, whose registers hold these slots.
    pub(crate) fn spell_registers(&mut self, registers: &[Option<u16>], numbering: &Numbering)
        requires { length registers.now ≤ 64 }
        ensures { self.new ≡ spelled_registers numbering.now.list registers.now }
    {
        self.begin();
        let mut left = registers.len();
        while left > 0 {
            left -= 1;
            self.spell_slot(registers[left], numbering);
        }
        self.spell(b"registers");
    }

    /// The line of a heap.
    pub(crate) fn spell_heap(&mut self, slots: u32, fields: u32, registers: u32, mutators: u32)
        ensures { self.new ≡ heap_line slots fields registers mutators }
    {
        self.begin();
        self.spell_number(mutators);
        self.spell(b" ");
        self.spell_number(registers);
        self.spell(b" ");
        self.spell_number(fields);
        self.spell(b" ");
        self.spell_number(slots);
        self.spell(b"heap ");
    }
}
