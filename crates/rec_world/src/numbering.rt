ghost use Rattle.std.specs.Prelude.{◌≡◌, ℕ, ◌+◌, ◌*◌, ◌<◌, ◌≤◌, ◌^◌, true, List, [], ◌∷◌, map, length, IfOk, IfSome};
ghost use Rattle.rec_word.specs.Word.{target_of};
ghost use Rattle.rec_model.specs.Heap.{roots};
ghost use Rattle.rec_model.specs.Reach.{is_in, named};
ghost use Rattle.rec_model.specs.Numbering.{joined};
ghost use Rattle.rec_model.specs.Sight.{NumbersSlots};
ghost use Rattle.rec_world.specs.Numbering.{number_of, sight_of, NamesBelow};

use rec_mutator::Machine;
use rec_word::target;
use std::alloc::{AllocError as NoMemory, Global};
use std::marker::Model;

/// The slots that registers reach, numbered from 1: by the registers in order, then by the fields of each numbered slot
/// in order, each slot where it is first met.
#[derive(Drop)]
pub struct Numbering {
    list: Vec<u16>,
    /// For each slot its number, 0 where it isn't in the list.
    numbers: Vec<u16>,
}

impl Model for Numbering {
    ghost use Rattle.std.specs.Prelude.{length};
    ghost use Rattle.std.specs.Vec.{vec_capacity};
    ghost use Rattle.rec_world.specs.Numbering.{Numbered, HoldsNumbers};

    ghost Value = { Numbered };

    ghost view = { λ n. record { slots = length n.numbers.items; list = n.list.items } };

    ghost invariant = { λ n. HoldsNumbers n.list.items n.numbers.items (vec_capacity n.list) };
}

impl Numbering {
    /// Takes the memory for this many slots; none is numbered yet.
    pub fn open(alloc: Global, slots: u16) -> Result<Numbering, NoMemory>
        ensures slots { IfOk result (λ n. n.slots ≡ slots) }
        ensures empty { IfOk result (λ n. n.list ≡ []) }
    {
        let list = Vec::with_capacity(alloc, usize::from(slots))?;
        let numbers = vec![in alloc; 0; usize::from(slots)]?;
        Ok(Numbering { list, numbers })
    }

    /// The numbered slots in order.
    pub fn list(&self) -> &[u16]
        ensures list { result.now ≡ self.now.list }
        ensures few { length result.now ≤ self.now.slots }
        ensures in_range { self.now.slots < 2 ^ 16 }
    {
        &self.list
    }

    /// The numbered slots in order, without what was kept to number them.
    pub fn into_list(self) -> Vec<u16>
        ensures { result.items ≡ self.list }
    {
        self.list
    }

    /// How many slots there are.
    pub fn slots(&self) -> u16
        ensures { result ≡ self.now.slots }
    {
        self.numbers.len() as u16
    }

    /// The slot's number, from 1, or `None` where it isn't numbered.
    pub fn number(&self, slot: u16) -> Option<u16>
        ensures { result ≡ number_of self.now.list slot }
    {
        match self.numbers.get(usize::from(slot)) {
            Some(&number) if number > 0 => Some(number),
            _ => None,
        }
    }

    /// Numbers the slots that the registers of these mutators, in order, reach over these words, each slot's `fields` words
    /// in order, and no others.
    pub(crate) fn fill(&mut self, machines: &[Machine], words: &[u64], fields: u8)
        requires places { length words.now ≡ self.old.slots * fields }
        requires names { NamesBelow (sight_of (map (λ p. p.registers) machines.now) words.now fields) self.old.slots }

        ensures slots { self.new.slots ≡ self.old.slots }
        ensures numbers { NumbersSlots (sight_of (map (λ p. p.registers) machines.now) words.now fields) self.new.list }
    {
        self.clear();
        self.meet_machines(machines);
        let mut next = 0;
        while next < self.list().len() {
            let slot = self.list()[next];
            let first = usize::from(slot) * usize::from(fields);
            self.meet_fields(&words[first..first + usize::from(fields)]);
            next += 1;
        }
    }

    /// Numbers no slot.
    fn clear(&mut self)
        ensures slots { self.new.slots ≡ self.old.slots }
        ensures empty { self.new.list ≡ [] }
    {
        self.list.clear();
        self.numbers.fill(0);
    }

    /// Numbers what a register or field names, where it is a slot that has no number yet.
    pub fn meet(&mut self, target: Option<u16>)
        requires { IfSome target (λ slot. slot < self.old.slots) }

        ensures slots { self.new.slots ≡ self.old.slots }
        ensures joined { self.new.list ≡ joined self.old.list (named (target ∷ [])) }
    {
        if let Some(slot) = target {
            if self.numbers[usize::from(slot)] == 0 {
                self.list.push_reserved(slot);
                self.numbers[usize::from(slot)] = self.list.len() as u16;
            }
        }
    }

    /// Numbers what the registers of these mutators name.
    fn meet_machines(&mut self, machines: &[Machine])
        requires { (slot : ℕ) → is_in slot (roots (map (λ p. p.registers) machines.now)) ≡ true → slot < self.old.slots }

        ensures slots { self.new.slots ≡ self.old.slots }
        ensures joined { self.new.list ≡ joined self.old.list (roots (map (λ p. p.registers) machines.now)) }
    {
        for machine in machines {
            self.meet_registers(machine.registers());
        }
    }

    /// Numbers what the registers of a mutator name, in order, each slot where it is first met.
    pub fn meet_registers(&mut self, registers: &[Option<u16>])
        requires { (slot : ℕ) → is_in slot (named registers.now) ≡ true → slot < self.old.slots }

        ensures slots { self.new.slots ≡ self.old.slots }
        ensures joined { self.new.list ≡ joined self.old.list (named registers.now) }
    {
        for register in registers {
            self.meet(*register);
        }
    }

    /// Numbers what the words of an object's fields lead to, in order, each slot where it is first met.
    pub fn meet_fields(&mut self, words: &[u64])
        requires { (slot : ℕ) → is_in slot (named (map target_of words.now)) ≡ true → slot < self.old.slots }

        ensures slots { self.new.slots ≡ self.old.slots }
        ensures joined { self.new.list ≡ joined self.old.list (named (map target_of words.now)) }
    {
        for word in words {
            self.meet(target(*word));
        }
    }
}
