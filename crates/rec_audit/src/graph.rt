//! The graph of a journal behind some of its lines: its references, its roots, and what is reached.

ghost use Rattle.std.specs.Prelude.{◌≡◌, ℕ, ◌<◌, ◌≤◌, ◌++◌, ◌∷◌, [], List, All, IfOk, OnOk, true, false};
ghost use Rattle.rec_model.specs.Reach.{is_in};
ghost use Rattle.rec_word.specs.Word.{target_bits};
ghost use Rattle.rec_audit.specs.Lines.{Line};
ghost use Rattle.rec_audit.specs.Graph.{HasReached, is_opened};
ghost use Rattle.rec_audit.specs.Graphs.{IsGraphOf, IsPutLine, IsBornLine, IsSnapLine, IsOutLine, IsSweepLine, IsEpochLine, IsSized, TellNothing, slots_of};

use crate::known::Known;
use crate::references::References;
use crate::slots::Slots;
use std::alloc::{AllocError, Global};

/// The graph of a journal behind some of its lines.
#[derive(Drop)]
pub struct Graph {
    pub references: References,
    pub slots: Slots,
    /// What is known of the reach, where anything is.
    pub known: Known,
    pub is_known: bool,
}

impl Graph {
    /// The graph of a heap with so many slots at its opening.
    pub fn open(alloc: Global, slots: u16) -> Result<Graph, AllocError>
        ensures sized { IfOk result IsSized }
        ensures size { IfOk result (λ g. slots_of g ≡ slots) }
        ensures graph { IfOk result (λ g. (lines : List Line) → TellNothing lines slots → IsGraphOf lines g) }
    {
        Ok(Graph {
            references: References::open(alloc, slots)?,
            slots: Slots::open(alloc, slots)?,
            known: Known::open(alloc, slots)?,
            is_known: false,
        })
    }

    /// A reference of this word was opened.
    pub fn has_opened(&self, word: u64) -> bool
        ensures { (lines : List Line) → IsGraphOf lines self.now → result ≡ is_opened lines word }
    {
        self.references.has_opened(word)
    }

    /// A word is put into a field of a slot, and replaces another one.
    pub fn put(&mut self, source: u64, new: u64, old: u64) -> Result<(), AllocError>
        requires sized { IsSized self.old }
        requires source { source < slots_of self.old }
        requires target { target_bits new ≤ slots_of self.old }
        ensures sized { OnOk result (IsSized self.new) }
        ensures size { OnOk result (slots_of self.new ≡ slots_of self.old) }
        ensures graph { OnOk result ((lines : List Line) (line : Line) → IsGraphOf lines self.old → IsPutLine lines source new old line → IsGraphOf (lines ++ line ∷ []) self.new) }
    {
        self.is_known = false;
        self.references.put(source as usize, new, old)?;
        Ok(())
    }

    /// A slot was born.
    pub fn bear(&mut self, slot: u64) -> Result<(), AllocError>
        requires sized { IsSized self.old }
        requires slot { slot < slots_of self.old }
        ensures sized { OnOk result (IsSized self.new) }
        ensures size { OnOk result (slots_of self.new ≡ slots_of self.old) }
        ensures graph { OnOk result ((lines : List Line) (line : Line) → IsGraphOf lines self.old → IsBornLine slot line → IsGraphOf (lines ++ line ∷ []) self.new) }
    {
        self.is_known = false;
        self.slots.bear(slot)?;
        Ok(())
    }

    /// Registers hold these slots, each told by one more than its number, or by 0 for none.
    pub fn hold(&mut self, registers: &[u64]) -> Result<(), AllocError>
        requires sized { IsSized self.old }
        requires slots { All (λ n. n ≤ slots_of self.old) registers.now }
        ensures sized { OnOk result (IsSized self.new) }
        ensures size { OnOk result (slots_of self.new ≡ slots_of self.old) }
        ensures graph { OnOk result ((lines : List Line) (line : Line) → IsGraphOf lines self.old → IsSnapLine registers.now line → IsGraphOf (lines ++ line ∷ []) self.new) }
    {
        self.is_known = false;
        self.slots.hold(registers)?;
        Ok(())
    }

    /// A word is taken out of a field.
    pub fn take_out(&mut self, word: u64) -> Result<(), AllocError>
        requires { IsSized self.old }
        ensures sized { OnOk result (IsSized self.new) }
        ensures size { OnOk result (slots_of self.new ≡ slots_of self.old) }
        ensures graph { OnOk result ((lines : List Line) (line : Line) → IsGraphOf lines self.old → IsOutLine word line → IsGraphOf (lines ++ line ∷ []) self.new) }
    {
        self.references.take_out(word)?;
        Ok(())
    }

    /// A slot was swept.
    pub fn sweep(&mut self, slot: u64) -> Result<(), AllocError>
        requires sized { IsSized self.old }
        requires slot { slot < slots_of self.old }
        ensures sized { OnOk result (IsSized self.new) }
        ensures size { OnOk result (slots_of self.new ≡ slots_of self.old) }
        ensures graph { OnOk result ((lines : List Line) (line : Line) → IsGraphOf lines self.old → IsSweepLine slot line → IsGraphOf (lines ++ line ∷ []) self.new) }
    {
        self.slots.sweep(slot);
        if !self.is_known {
            return Ok(());
        }
        let dead = &self.references.dead;
        self.known
            .bring_back(slot, dead, &mut self.references.edges)?;
        Ok(())
    }

    /// A block begins.
    pub fn begin_block(&mut self) -> Result<(), AllocError>
        requires { IsSized self.old }
        ensures sized { OnOk result (IsSized self.new) }
        ensures size { OnOk result (slots_of self.new ≡ slots_of self.old) }
        ensures graph { OnOk result ((lines : List Line) (line : Line) → IsGraphOf lines self.old → IsEpochLine line → IsGraphOf (lines ++ line ∷ []) self.new) }
    {
        self.is_known = false;
        self.slots.begin_block();
        self.references.end_block()?;
        Ok(())
    }

    /// Begins anew, unless what is known tells of these slots.
    fn learn(&mut self, slots: &[u64]) -> Result<(), AllocError>
        requires sized { IsSized self.old }
        requires within { All (λ slot. slot < slots_of self.old) slots.now }
        ensures sized { OnOk result (IsSized self.new) }
        ensures size { OnOk result (slots_of self.new ≡ slots_of self.old) }
        ensures graph { OnOk result ((lines : List Line) → IsGraphOf lines self.old → IsGraphOf lines self.new) }
        ensures known { OnOk result (self.new.is_known ≡ true) }
        ensures apart { OnOk result ((slot : ℕ) → is_in slot slots.now ≡ true → is_in slot self.new.known.back.order.items ≡ false) }
    {
        if self.is_known && !self.known.back.has_any(slots) {
            return Ok(());
        }
        self.known.begin(&self.slots.taken, &self.slots.named)?;
        self.is_known = true;
        Ok(())
    }

    /// One of some slots is reached.
    pub fn reaches(&mut self, slots: &[u64]) -> Result<bool, AllocError>
        requires sized { IsSized self.old }
        requires within { All (λ slot. slot < slots_of self.old) slots.now }
        ensures sized { OnOk result (IsSized self.new) }
        ensures size { OnOk result (slots_of self.new ≡ slots_of self.old) }
        ensures graph { OnOk result ((lines : List Line) → IsGraphOf lines self.old → IsGraphOf lines self.new) }
        ensures reached { IfOk result (λ found. (lines : List Line) → IsGraphOf lines self.old → found ≡ true → HasReached lines slots.now) }
        ensures unreached { IfOk result (λ found. (lines : List Line) → IsGraphOf lines self.old → found ≡ false → ¬ HasReached lines slots.now) }
    {
        self.learn(slots)?;
        let dead = &self.references.dead;
        let into = &mut self.references.into;
        let found = self.known.finds_root(slots, dead, into)?;
        self.is_known = !found;
        Ok(found)
    }
}
