//! The audit of a collector: a journal that grows with each of its steps.

ghost use Rattle.std.specs.Prelude.{◌≡◌, ◌++◌, ◌∷◌, [], List, IfOk, OnOk, OnErr};
ghost use Rattle.rec_collector.specs.Shown.{HasTaken, Shown, shown_of};
ghost use Rattle.rec_audit.specs.Lines.{text_of};
ghost use Rattle.rec_audit.specs.Journal.{HasNoted, journal, lines_of};
ghost use Rattle.rec_audit.specs.declared.form.Heap.{Heap};

use crate::kind::Kind;
use crate::lines::push_line;
use crate::steps::push_step;
use rec_collector::Machine;
use rec_word::Op;
use std::alloc::{AllocError as NoMemory, Global};
use std::marker::Model;

/// The audit of a collector: the text of its journal, which `check` reads. Its value is that text.
#[derive(Drop)]
pub struct Audit {
    text: Vec<u8>,
    /// A step's lines are written here first, so that a step stands in the text whole or not at all.
    step: Vec<u8>,
}

impl Model for Audit {
    ghost use Rattle.std.specs.Prelude.{ℕ, List};

    ghost Value = { List ℕ };

    ghost view = { λ audit. audit.text.items };
}

impl Audit {
    /// The audit of a collector that made no step yet, in a heap with so many slots, fields per object, registers of a mutator
    /// and mutators, whose first epoch is `first`.
    pub fn open(
        alloc: Global,
        slots: u32,
        fields: u32,
        registers: u32,
        mutators: u32,
        first: u32,
    ) -> Result<Audit, NoMemory>
        ensures { IfOk result (HasNoted (record { slots = slots; fields = fields; registers = registers; mutators = mutators; first = first }) []) }
    {
        let mut text = Vec::new(alloc);
        push_line(&mut text, Kind::Title, &[1])?;
        let heap = [slots, fields, registers, mutators, first].map(u64::from);
        push_line(&mut text, Kind::Heap, &heap)?;
        Ok(Audit {
            text,
            step: Vec::new(alloc),
        })
    }

    /// Notes the step that the collector has just made: this operation, which found this word.
    pub fn note(&mut self, collector: &Machine, op: Op, word: u64) -> Result<(), NoMemory>
        requires { HasTaken op word collector.now }

        // The lines of the step stand behind what there was, so the steps that it has noted are one more.
        ensures lines { OnOk result (self.new ≡ self.old ++ text_of (lines_of (shown_of op word collector.now))) }
        ensures noted { OnOk result ((heap : Heap) (steps : List Shown) → HasNoted heap steps self.old
            → HasNoted heap (steps ++ shown_of op word collector.now ∷ []) self.new) }

        // Where memory runs out it stays as it was.
        ensures refused { OnErr result (self.new ≡ self.old) }
    {
        self.step.clear();
        push_step(&mut self.step, collector, op, word)?;
        self.text.extend_from_slice(&self.step)?;
        Ok(())
    }

    /// The text of the journal of the steps that it has noted.
    pub fn text(&self) -> &[u8]
        ensures text { result.now ≡ self.now }
        ensures noted { (heap : Heap) (steps : List Shown) → HasNoted heap steps self.now → result.now ≡ text_of (journal heap steps) }
    {
        self.text.as_slice()
    }

    /// That text, without a copy.
    pub fn into_text(self) -> Vec<u8>
        ensures text { result.items ≡ self }
    {
        self.text
    }
}
