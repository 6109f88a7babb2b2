//! Where a journal stands, and which lines may go on there.

ghost use Rattle.std.specs.Prelude.{◌≡◌, ◌↔◌, ◌*◌, ℕ, IsTrue, slice_index};
ghost use Rattle.rec_audit.specs.Form.{AreBornNumbers, AreEndNumbers, AreEpochNumbers, AreFreeNumbers, AreHeapNumbers, AreOutNumbers, ArePutNumbers, AreSnapNumbers, AreSweepNumbers, AreTitleNumbers, HasNumbers, IsSize, Leads, MayStand, behind, heap_told, leads_to, places_of, stage_at};

use crate::kind::Kind;
use rec_model::limits::{MOST_FIELDS, MOST_MUTATORS, MOST_REGISTERS, MOST_SLOTS};
use rec_word::LAST_EPOCH;

/// What a journal awaits.
#[derive(Clone, Copy, PartialEq, Eq)]
pub enum Stage {
    /// Its title.
    Title,
    /// The line that says how large the heap is.
    Heap,
    /// The next block, or the end.
    Between,
    /// More of this mutator's part of a block.
    Part(u64),
    /// More of the collector's part of a block, or its end.
    Steps,
}

/// How large the heap of a journal is, and its first block's number.
#[derive(Clone, Copy)]
pub struct Heap {
    pub slots: u16,
    pub fields: u8,
    pub registers: u8,
    pub mutators: u8,
    pub first: u32,
}

/// Where a journal stands behind some of its lines.
#[derive(Clone, Copy)]
pub struct Form {
    /// The numbers of its heap; 0 before the line that tells them.
    pub heap: Heap,
    pub stage: Stage,
    /// The number of the next block.
    pub next: u32,
}

/// The first number, or 0 where there is none.
fn first(numbers: &[u64]) -> u64
    ensures { result ≡ slice_index numbers.now 0 }
{
    match numbers {
        [first, ..] => *first,
        [] => 0,
    }
}

/// Where a line with these numbers stands.
fn stage_at(kind: Kind, numbers: &[u64]) -> Stage
    ensures { result ≡ stage_at (record { kind = kind; numbers = numbers.now }) }
{
    match kind {
        Kind::Title => Stage::Title,
        Kind::Heap => Stage::Heap,
        Kind::Epoch => Stage::Between,
        Kind::Put | Kind::Born | Kind::Snap => Stage::Part(first(numbers)),
        Kind::Out | Kind::Free | Kind::Sweep | Kind::End => Stage::Steps,
    }
}

/// The number is one from 1 up to a limit.
fn is_size(limit: u64, number: u64) -> bool
    ensures { IsTrue result ↔ IsSize limit number }
{
    1 <= number && number <= limit
}

/// They are the numbers of a heap, and of its first block.
fn are_heap_numbers(numbers: &[u64]) -> bool
    ensures { IsTrue result ↔ AreHeapNumbers numbers.now }
{
    match numbers {
        [slots, fields, registers, mutators, first] => {
            is_size(u64::from(MOST_SLOTS), *slots)
                && is_size(u64::from(MOST_FIELDS), *fields)
                && is_size(u64::from(MOST_REGISTERS), *registers)
                && is_size(u64::from(MOST_MUTATORS), *mutators)
                && is_size(u64::from(LAST_EPOCH), *first)
        }
        _ => false,
    }
}

impl Heap {
    /// How many fields the heap has in all.
    fn places(self) -> u64
        ensures { result ≡ places_of self }
    {
        u64::from(self.slots) * u64::from(self.fields)
    }

    /// A word leads to a slot of the heap, or nowhere.
    fn leads(self, word: u64) -> bool
        ensures { IsTrue result ↔ Leads self word }
    {
        word % (1 << 16) <= u64::from(self.slots)
    }

    /// They are the numbers of a word that replaces another one in a field.
    fn are_put_numbers(self, numbers: &[u64]) -> bool
        ensures { IsTrue result ↔ ArePutNumbers self numbers.now }
    {
        match numbers {
            [_, place, new, old] => {
                *place < self.places() && self.leads(*new) && self.leads(*old)
            }
            _ => false,
        }
    }

    /// They are the numbers of a birth.
    fn are_born_numbers(self, numbers: &[u64]) -> bool
        ensures { IsTrue result ↔ AreBornNumbers self numbers.now }
    {
        match numbers {
            [_, slot] => *slot < u64::from(self.slots),
            _ => false,
        }
    }

    /// They are the numbers of a snapshot.
    fn are_snap_numbers(self, numbers: &[u64]) -> bool
        ensures { IsTrue result ↔ AreSnapNumbers self numbers.now }
    {
        let slots = u64::from(self.slots);
        match numbers {
            [_, held @ ..] => {
                held.len() == usize::from(self.registers) && held.iter().all(|n| *n <= slots)
            }
            [] => false,
        }
    }

    /// They are the numbers of a word that is taken out of a field.
    fn are_out_numbers(self, numbers: &[u64]) -> bool
        ensures { IsTrue result ↔ AreOutNumbers self numbers.now }
    {
        match numbers {
            [place, word] => *place < self.places() && *word != 0 && self.leads(*word),
            _ => false,
        }
    }

    /// They are the slots of a set.
    fn are_free_numbers(self, numbers: &[u64]) -> bool
        ensures { IsTrue result ↔ AreFreeNumbers self numbers.now }
    {
        let slots = u64::from(self.slots);
        !numbers.is_empty() && numbers.iter().all(|slot| *slot < slots)
    }

    /// They are the number of a slot.
    fn are_sweep_numbers(self, numbers: &[u64]) -> bool
        ensures { IsTrue result ↔ AreSweepNumbers self numbers.now }
    {
        match numbers {
            [slot] => *slot < u64::from(self.slots),
            _ => false,
        }
    }
}

/// They are the title's one number, the version.
fn are_title_numbers(numbers: &[u64]) -> bool
    ensures { IsTrue result ↔ AreTitleNumbers numbers.now }
{
    match numbers {
        [version] => *version == 1,
        _ => false,
    }
}

/// They are the number of the next block.
fn are_epoch_numbers(next: u32, numbers: &[u64]) -> bool
    ensures { IsTrue result ↔ AreEpochNumbers next numbers.now }
{
    match numbers {
        [number] => *number == u64::from(next) && next <= LAST_EPOCH,
        _ => false,
    }
}

/// They are the number of the block that stands open.
fn are_end_numbers(next: u32, numbers: &[u64]) -> bool
    ensures { IsTrue result ↔ AreEndNumbers next numbers.now }
{
    match numbers {
        [number] => *number < u64::from(next) && u64::from(next) - *number == 1,
        _ => false,
    }
}

impl Form {
    /// The numbers of a line are as many as its kind has, and in range.
    fn has_numbers(self, kind: Kind, numbers: &[u64]) -> bool
        ensures { IsTrue result ↔ HasNumbers self kind numbers.now }
    {
        match kind {
            Kind::Title => are_title_numbers(numbers),
            Kind::Heap => are_heap_numbers(numbers),
            Kind::Epoch => are_epoch_numbers(self.next, numbers),
            Kind::Put => self.heap.are_put_numbers(numbers),
            Kind::Born => self.heap.are_born_numbers(numbers),
            Kind::Snap => self.heap.are_snap_numbers(numbers),
            Kind::Out => self.heap.are_out_numbers(numbers),
            Kind::Free => self.heap.are_free_numbers(numbers),
            Kind::Sweep => self.heap.are_sweep_numbers(numbers),
            Kind::End => are_end_numbers(self.next, numbers),
        }
    }

    /// The line may stand here.
    pub fn may_stand(self, kind: Kind, numbers: &[u64]) -> bool
        ensures { IsTrue result ↔ MayStand self (record { kind = kind; numbers = numbers.now }) }
    {
        stage_at(kind, numbers) == self.stage && self.has_numbers(kind, numbers)
    }

    /// Where the journal stands behind the line.
    pub fn behind(self, kind: Kind, numbers: &[u64]) -> Form
        requires { MayStand self (record { kind = kind; numbers = numbers.now }) }
        ensures { result ≡ behind self (record { kind = kind; numbers = numbers.now }) }
    {
        let heap = match kind {
            Kind::Heap => heap_in(numbers),
            _ => self.heap,
        };
        let next = match kind {
            Kind::Heap => heap.first,
            Kind::Epoch => self.next + 1,
            _ => self.next,
        };
        Form {
            heap,
            stage: leads_to(heap.mutators, kind, first(numbers)),
            next,
        }
    }
}

/// The heap that its line tells.
fn heap_in(numbers: &[u64]) -> Heap
    requires { AreHeapNumbers numbers.now }
    ensures { result ≡ heap_told numbers.now }
{
    Heap {
        slots: numbers[0] as u16,
        fields: numbers[1] as u8,
        registers: numbers[2] as u8,
        mutators: numbers[3] as u8,
        first: numbers[4] as u32,
    }
}

/// What a line of this kind with this first number leads to.
fn leads_to(mutators: u8, kind: Kind, first: u64) -> Stage
    ensures { result ≡ leads_to mutators kind first }
{
    match kind {
        Kind::Title => Stage::Heap,
        Kind::Heap | Kind::End => Stage::Between,
        Kind::Epoch => Stage::Part(1),
        Kind::Put | Kind::Born => Stage::Part(first),
        Kind::Snap if first < u64::from(mutators) => Stage::Part(first + 1),
        Kind::Snap | Kind::Out | Kind::Free | Kind::Sweep => Stage::Steps,
    }
}
