//! The references of a journal: those that were opened, by their words, and which of them are gone or closed.

ghost use Rattle.std.specs.Prelude.{◌≡◌, ℕ, ◌<◌, ◌≤◌, ◌==◌, ◌||◌, ◌++◌, ◌∷◌, [], nat_eq, length, map, replicate, slice_set, IfOk, OnOk};
ghost use Rattle.std.specs.HashSet.{contains};
ghost use Rattle.std.specs.List.{list_any};
ghost use Rattle.rec_word.specs.Word.{target_bits};
ghost use Rattle.rec_audit.specs.States.{EndsBlock, HasNoReferences, Puts, TakesOut, edges_at, without};

use std::alloc::{AllocError, Global};
use std::collections::HashSet;

/// A reference, as one of the slots at its ends has it.
#[derive(Clone, Copy)]
pub struct Edge {
    /// The slot at the other end.
    pub to: u64,
    /// Its word.
    pub word: u64,
}

/// The references of a journal.
#[derive(Drop)]
pub struct References {
    /// The words that were put into fields and have a target.
    pub opened: HashSet<u64>,
    /// The words that were taken out of fields, and those that were replaced in blocks that have ended.
    pub dead: HashSet<u64>,
    /// The words that were replaced in the block that stands open.
    pub closing: Vec<u64>,
    /// For each slot the references from it; some of them may be dead.
    pub edges: Vec<Vec<Edge>>,
    /// For each slot the references to it; some of them may be dead.
    pub into: Vec<Vec<Edge>>,
}

/// Adds a word to a set.
fn add_word(set: &mut HashSet<u64>, word: u64) -> Result<(), AllocError>
    ensures { OnOk result ((w : ℕ) → contains nat_eq set.new w ≡ (contains nat_eq set.old w || (word == w))) }
{
    set.insert(word)?;
    Ok(())
}

/// Adds the words of a list to a set.
fn add_words(set: &mut HashSet<u64>, words: &[u64]) -> Result<(), AllocError>
    ensures { OnOk result ((w : ℕ) → contains nat_eq set.new w ≡ (contains nat_eq set.old w || list_any (λ v. v == w) words.now)) }
{
    for word in words {
        add_word(set, *word)?;
    }
    Ok(())
}

/// Forgets the references whose words are dead.
fn drop_dead(dead: &HashSet<u64>, edges: &mut Vec<Edge>)
    ensures { edges.new.items ≡ without (contains nat_eq dead.now) edges.old.items }
{
    edges.retain(|edge| !dead.contains(&edge.word));
}

/// Forgets the references of one slot whose words are dead.
pub fn prune_at(dead: &HashSet<u64>, lists: &mut Vec<Vec<Edge>>, slot: usize)
    requires { slot < length lists.old.items }
    ensures { map (λ v. v.items) lists.new.items ≡ slice_set (map (λ v. v.items) lists.old.items) slot (without (contains nat_eq dead.now) (edges_at (map (λ v. v.items) lists.old.items) slot)) }
{
    let edges = &mut lists[slot];
    drop_dead(dead, edges);
}

/// Adds a reference to those of one slot.
fn push_at(lists: &mut Vec<Vec<Edge>>, slot: usize, edge: Edge) -> Result<(), AllocError>
    requires { slot < length lists.old.items }
    ensures { OnOk result (map (λ v. v.items) lists.new.items ≡ slice_set (map (λ v. v.items) lists.old.items) slot (edges_at (map (λ v. v.items) lists.old.items) slot ++ edge ∷ [])) }
{
    let edges = &mut lists[slot];
    edges.push(edge)?;
    Ok(())
}

/// Lists of references, one for each slot, all empty.
fn no_edges(alloc: Global, slots: u16) -> Result<Vec<Vec<Edge>>, AllocError>
    ensures { IfOk result (λ edges. map (λ v. v.items) edges.items ≡ replicate slots []) }
{
    let mut edges = Vec::with_capacity(alloc, usize::from(slots))?;
    for _slot in 0..slots {
        edges.push(Vec::new(alloc))?;
    }
    Ok(edges)
}

impl References {
    /// No references, of a heap with so many slots.
    pub fn open(alloc: Global, slots: u16) -> Result<References, AllocError>
        ensures { IfOk result (HasNoReferences slots) }
    {
        let edges = no_edges(alloc, slots)?;
        let into = no_edges(alloc, slots)?;
        Ok(References {
            opened: HashSet::new(alloc),
            dead: HashSet::new(alloc),
            closing: Vec::new(alloc),
            edges,
            into,
        })
    }

    /// A reference of this word was opened.
    pub fn has_opened(&self, word: u64) -> bool
        ensures { result ≡ contains nat_eq self.now.opened word }
    {
        self.opened.contains(&word)
    }

    /// A word is put into a field of a slot, and replaces another one.
    pub fn put(&mut self, source: usize, new: u64, old: u64) -> Result<(), AllocError>
        requires source { source < length self.old.edges.items }
        requires target { target_bits new ≤ length self.old.into.items }
        ensures { OnOk result (Puts self.old self.new source new old) }
    {
        self.closing.push(old)?;
        let target = new % (1 << 16);
        if target == 0 {
            return Ok(());
        }
        add_word(&mut self.opened, new)?;
        let from = Edge {
            to: target - 1,
            word: new,
        };
        push_at(&mut self.edges, source, from)?;
        let back = Edge {
            to: source as u64,
            word: new,
        };
        push_at(&mut self.into, (target - 1) as usize, back)?;
        Ok(())
    }

    /// A word is taken out of a field.
    pub fn take_out(&mut self, word: u64) -> Result<(), AllocError>
        ensures { OnOk result (TakesOut self.old self.new word) }
    {
        add_word(&mut self.dead, word)
    }

    /// The block that stands open has ended.
    pub fn end_block(&mut self) -> Result<(), AllocError>
        ensures { OnOk result (EndsBlock self.old self.new) }
    {
        add_words(&mut self.dead, &self.closing)?;
        self.closing.clear();
        Ok(())
    }
}
