//! A script that was read, or its first mutators and commands while it grows.

ghost use Rattle.std.specs.Prelude.{◌≡◌, ◌↔◌, ◌<◌, ◌≤◌, ◌+◌, ◌-◌, ℕ, List, [], ◌∷◌, ◌++◌, Err, Ok, Some, length, All, Any, IfOk, IsTrue, slice_get};
ghost use Rattle.rec_model.specs.declared.command.Cmd.TheVariants.{Leave};
ghost use Rattle.rec_model.specs.declared.limits.TheConstants.{MOST_COMMANDS};
ghost use Rattle.rec_script.specs.Script.{Allows, AreCommands, HasLeft, IsCommand, IsHeap, IsScript, IsVersion, command_line, last_commands, most_mutators, mutator_line, spelled};

use crate::heap::Heap;
use rec_model::Cmd;
use std::alloc::{AllocError, Global};
use std::marker::Model;

/// A script. Contracts see its version, how large its heap is, and the commands of each mutator in turn.
// The last mutator's commands stand apart, as they grow while a text is read.
#[derive(Drop)]
pub struct Script {
    version: u32,
    slots: u32,
    fields: u32,
    registers: u32,
    earlier: Vec<Vec<Cmd>>,
    last: Vec<Cmd>,
}

impl Model for Script {
    ghost use Rattle.rec_script.specs.Script.{ScriptContents, IsScript};

    ghost Value = { ScriptContents };

    ghost use Rattle.rec_script.specs.Fields.{contents};

    ghost view = { contents };

    ghost invariant = { λ s. IsScript (contents s) };
}

/// The command is the one by which a mutator leaves.
fn is_leave(cmd: &Cmd) -> bool
    ensures { IsTrue result ↔ (cmd.now ≡ Leave) }
{
    matches!(cmd, Cmd::Leave)
}

impl Script {
    /// The script of this version with this heap and one mutator, which has no commands.
    pub(crate) fn open(alloc: Global, version: u32, heap: Heap) -> Script
        requires version { IsVersion version }
        requires heap { IsHeap heap.slots heap.fields heap.registers }
        ensures { result ≡ record {
          version = version;
          slots = heap.slots;
          fields = heap.fields;
          registers = heap.registers;
          commands = [] ∷ [];
        } }
    {
        Script {
            version,
            slots: heap.slots,
            fields: heap.fields,
            registers: heap.registers,
            earlier: Vec::new(alloc),
            last: Vec::new(alloc),
        }
    }

    /// The version that the header names: 1, or 2, which has leaves, or 3, in which mutators leave too.
    pub fn version(&self) -> u32
        ensures value { result ≡ self.now.version }
        ensures valid { IsScript self.now }
    {
        self.version
    }

    /// How many slots the heap has, from 1 to 65,535.
    pub fn slots(&self) -> u32
        ensures value { result ≡ self.now.slots }
        ensures valid { IsScript self.now }
    {
        self.slots
    }

    /// How many fields an object has, from 1 to 16.
    pub fn fields(&self) -> u32
        ensures value { result ≡ self.now.fields }
        ensures valid { IsScript self.now }
    {
        self.fields
    }

    /// How many registers a mutator has, from 1 to 64.
    pub fn registers(&self) -> u32
        ensures value { result ≡ self.now.registers }
        ensures valid { IsScript self.now }
    {
        self.registers
    }

    /// How many mutators there are, from 1 to 8, and up to 63 in version 3.
    pub fn mutators(&self) -> u8
        ensures value { result ≡ length self.now.commands }
        ensures valid { IsScript self.now }
    {
        self.earlier.len() as u8 + 1
    }

    /// The commands of a mutator. Mutators are numbered from 1.
    pub fn commands(&self, t: u8) -> &[Cmd]
        requires some { 1 ≤ t }
        requires most { t ≤ length self.now.commands }
        ensures value { slice_get self.now.commands (t - 1) ≡ Some result.now }
        ensures valid { AreCommands self.now.version self.now.registers self.now.fields result.now }
    {
        let index = usize::from(t) - 1;
        if index < self.earlier.len() {
            &self.earlier[index]
        } else {
            &self.last
        }
    }

    /// The greatest number of commands that a mutator has.
    pub fn longest(&self) -> u32
        ensures bound { All (λ cmds. length cmds ≤ result) self.now.commands }
        ensures reached { Any (λ cmds. length cmds ≡ result) self.now.commands }
        ensures valid { IsScript self.now }
    {
        let mutators = self.mutators();
        let mut longest = self.commands(1).len();
        for t in 1..mutators {
            let length = self.commands(t + 1).len();
            if length > longest {
                longest = length;
            }
        }
        longest as u32
    }

    /// How many commands the last mutator has.
    pub(crate) fn last(&self) -> usize
        ensures value { result ≡ length (last_commands self.now.commands) }
        ensures most { result ≤ MOST_COMMANDS }
        ensures valid { IsScript self.now }
    {
        self.last.len()
    }

    /// Whether the last mutator has left.
    pub(crate) fn has_left(&self) -> bool
        ensures value { IsTrue result ↔ HasLeft (last_commands self.now.commands) }
        ensures valid { IsScript self.now }
    {
        match self.last.last() {
            Some(cmd) => is_leave(cmd),
            None => false,
        }
    }

    /// A command more for the last mutator.
    pub(crate) fn add(&mut self, cmd: Cmd) -> Result<(), AllocError>
        requires allowed { Allows self.old.version cmd }
        requires in_range { IsCommand self.old.registers self.old.fields cmd }
        requires room { length (last_commands self.old.commands) < MOST_COMMANDS }
        requires stays { ¬ HasLeft (last_commands self.old.commands) }
        ensures more { IfOk result (λ x. spelled self.new ≡ spelled self.old ++ command_line cmd ∷ []) }
        ensures valid { IsScript self.new }
    {
        self.last.push(cmd)?;
        Ok(())
    }

    /// A mutator more, without commands.
    pub(crate) fn add_mutator(&mut self, alloc: Global) -> Result<(), AllocError>
        requires { length self.old.commands < most_mutators self.old.version }
        ensures more { IfOk result (λ x. spelled self.new ≡ spelled self.old ++ mutator_line ∷ []) }
        ensures commands { IfOk result (λ x. self.new ≡ record self.old { commands = self.old.commands ++ [] ∷ [] }) }
        ensures valid { IsScript self.new }
    {
        let full = std::mem::replace(&mut self.last, Vec::new(alloc));
        self.earlier.push(full)?;
        Ok(())
    }
}
