//! The worker of a mutator.

ghost use Rattle.std.specs.Prelude.{◌≡◌, ◌⊎◌, ◌<◌, ◌≤◌, ◌∷◌, [], false, true, length, replicate, All, IsSome};
ghost use Rattle.rec_model.specs.declared.limits.TheConstants.{MOST_COMMANDS, MOST_POLLS};
ghost use Rattle.rec_mutator.specs.declared.work.Work.TheVariants as works;
ghost use Rattle.rec_script.specs.Script.{LeavesLast};
ghost use Rattle.rec_table.specs.Rule.{MayAsk};
ghost use Rattle.rec_table.specs.Views.{mutator_now, IsMutatorOf};
ghost use Rattle.rec_threads.specs.Done.{HasMade, polled_before, turn};

use crate::gate::Gate;
use crate::signals::{Over, Signals};
use rec_model::Cmd;
use rec_model::limits::MOST_POLLS;
use rec_table::{Heap, Mutator};
use rec_world::Journal;
use std::sync::Wait;
use std::thread::yield_now;

/// A mutator with its journal, as its worker holds them.
#[derive(Drop)]
pub struct Worker {
    pub mutator: Mutator,
    pub journal: Journal,
}

/// How a mutator that was done ended: how often it polled, and the evidence that the collector's worker had ended, where it had.
#[derive(Drop)]
pub struct Attended {
    pub polls: u32,
    pub over: Option<Over>,
}

impl Worker {
    /// Carries out the commands, each behind the gate and a poll, and notes what is told. Only by the last one may it leave.
    pub fn carry_out<G: Gate>(&mut self, heap: &Heap, commands: &[Cmd], gate: &G)
        requires own { IsMutatorOf heap.now self.old.mutator }
        requires room { length commands.now ≤ self.old.journal.room }
        requires valid { All (MayAsk (mutator_now self.old.mutator)) commands.now }
        requires leaves_last { LeavesLast commands.now }
        requires few { length commands.now ≤ MOST_COMMANDS }

        ensures { HasMade commands.now (polled_before commands.now) self.old self.new }
    {
        let number = self.mutator.number();
        for index in 0..commands.len() {
            gate.pass(number, index as u32 + 1);
            self.go_on(heap, commands[index]);
        }
    }

    // Polls, carries out a command, and notes what is told.
    fn go_on(&mut self, heap: &Heap, cmd: Cmd)
        requires own { IsMutatorOf heap.now self.old.mutator }
        requires room { 0 < self.old.journal.room }
        requires valid { MayAsk (mutator_now self.old.mutator) cmd }

        ensures { HasMade (cmd ∷ []) (turn cmd) self.old self.new }
    {
        self.mutator.poll(heap);
        let told = self.mutator.command(heap, cmd);
        self.journal.note(cmd, told);
    }

    /// Polls where the collector waits for it, and lets others run, until the collector's worker has ended, at most 65,536 times.
    /// One that has left is waited for no more, and ends at once.
    pub fn attend<R: Wait>(&mut self, rt: &R, heap: &Heap, signals: &Signals) -> Attended
        requires { IsMutatorOf heap.now self.old.mutator }

        ensures few { result.polls ≤ MOST_POLLS }
        ensures gone { (mutator_now self.new.mutator).left ≡ true → result.polls ≡ 0 }
        ensures ended { ((mutator_now self.new.mutator).left ≡ true) ⊎ IsSome result.over ⊎ (result.polls ≡ MOST_POLLS) }
        ensures made { HasMade [] (replicate result.polls works.Poll) self.old self.new }
    {
        if self.mutator.left() {
            return Attended {
                polls: 0,
                over: None,
            };
        }
        let mut polls = 0;
        for _ in rt.forever() {
            let over = signals.over();
            if over.is_some() || polls >= MOST_POLLS {
                return Attended { polls, over };
            }
            polls += self.poll_if_awaited(heap, signals);
            yield_now();
        }
        unreachable!()
    }

    // Polls if the collector waits for it, and tells how often it did: once, or not at all.
    fn poll_if_awaited(&mut self, heap: &Heap, signals: &Signals) -> u32
        requires own { IsMutatorOf heap.now self.old.mutator }
        requires present { (mutator_now self.old.mutator).left ≡ false }

        ensures few { result ≤ 1 }
        ensures made { HasMade [] (replicate result works.Poll) self.old self.new }
    {
        if !signals.is_awaited(self.mutator.number()) {
            return 0;
        }
        self.mutator.poll(heap);
        1
    }
}
