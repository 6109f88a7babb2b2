ghost use Rattle.std.specs.Prelude.{IfSome, ◌≡◌, ◌↔◌, ◌<◌, ◌≤◌, IsTrue};
ghost use Rattle.rec_core.specs.Config.{IsConfig, IsFirstWrong, HasOperands};

use crate::Part;
use rec_collector::Policy;
use rec_model::Cmd;
use rec_model::limits::{MOST_FIELDS, MOST_LOG_ENTRIES, MOST_MUTATORS, MOST_REGISTERS, MOST_SLOTS};
use rec_word::LAST_EPOCH;

/// The numbers of a heap, and how it is collected. They never change.
#[derive(Clone, Copy, Debug, PartialEq, Eq)]
pub struct Config {
    /// How many objects fit: 1 to 65,535.
    pub slots: u32,
    /// How many fields each object has: 1 to 16.
    pub fields: u32,
    /// How many registers each mutator has: 1 to 64.
    pub registers: u32,
    /// How many mutators there are: 1 to 63.
    pub mutators: u32,
    /// How many entries a mutator's log can hold: 1 to 262,143.
    pub log_entries: u32,
    /// The epoch in which the mutators begin: 1 to 16,777,215.
    pub first_epoch: u32,
    /// How the heap is collected.
    pub policy: Policy,
}

impl Config {
    /// The first number that is out of its range, or `None` where each is in its own.
    pub fn first_wrong(&self) -> Option<Part>
        ensures wrong { IfSome result (λ part. IsFirstWrong self.now part) }
        ensures none { (result ≡ None) ↔ IsConfig self.now }
    {
        if !is_from_one(self.slots, MOST_SLOTS) {
            Some(Part::Slots)
        } else if !is_from_one(self.fields, MOST_FIELDS) {
            Some(Part::Fields)
        } else if !is_from_one(self.registers, MOST_REGISTERS) {
            Some(Part::Registers)
        } else if !is_from_one(self.mutators, u32::from(MOST_MUTATORS)) {
            Some(Part::Mutators)
        } else if !is_from_one(self.log_entries, MOST_LOG_ENTRIES) {
            Some(Part::LogEntries)
        } else if !is_from_one(self.first_epoch, LAST_EPOCH) {
            Some(Part::FirstEpoch)
        } else {
            None
        }
    }

    /// Whether the registers and the field that a command names are there.
    pub fn has_operands(&self, cmd: &Cmd) -> bool
        ensures { IsTrue result ↔ HasOperands self.now cmd.now }
    {
        cmd.has_operands(self.registers as usize, self.fields as usize)
    }
}

// Whether a number is at least 1 and at most this.
fn is_from_one(number: u32, most: u32) -> bool
    ensures { IsTrue result ↔ ((1 ≤ number) × (number ≤ most)) }
{
    (1..=most).contains(&number)
}
