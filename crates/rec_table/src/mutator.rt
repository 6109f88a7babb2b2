//! A mutator of a running heap.
ghost use Rattle.std.specs.Prelude.{◌≡◌, ◌<◌, ℕ, Some, false, length, IsTrue, IsSome, IfSome, ◌↔◌, [], ◌∷◌};
ghost use Rattle.rec_mutator.specs.Private.{is_busy, is_full, answer_of, register, KeepsSizes};
ghost use Rattle.rec_mutator.specs.declared.made.Made.TheVariants as makes;
ghost use Rattle.rec_mutator.specs.declared.work.Work.TheVariants as works;
ghost use Rattle.rec_table.specs.Answered.{IsAnswered, IsPolled, Leaves};
ghost use Rattle.rec_table.specs.Rule.{MayAsk};
ghost use Rattle.rec_table.specs.Views.{mutator_now, IsMutatorOf, Works};
ghost use Rattle.rec_table.specs.Journals.{Tells};
ghost use Rattle.rec_table.specs.Straight.{Bears, Carries, CarriesIf};
ghost use Rattle.rec_model.specs.Asking.{allocation};
ghost use Rattle.rec_model.specs.declared.answer.Answer.TheVariants as answers;
ghost use Rattle.rec_model.specs.declared.command.Cmd.TheVariants as commands;
ghost use Rattle.rec_model.specs.declared.told.Told.{Told as Answers};
ghost use Rattle.rec_core.specs.Config.{HasLabel};

use crate::actor::Actor;
use crate::heap::Heap;
use rec_model::{Answer, Cmd, Told};
use rec_mutator::{Made, Work};
use std::marker::Model;

/// A mutator of a running heap, which one thread at a time carries on. Between two calls it has no unfinished work. One that has left
/// does nothing any more, and comes back to `Heap::stop` as it is.
#[derive(Drop)]
pub struct Mutator {
    actor: Actor,
}

impl Model for Mutator {
    ghost use Rattle.std.specs.Prelude.{◌≡◌, false};
    ghost use Rattle.rec_mutator.specs.Private.{is_busy};
    ghost use Rattle.rec_table.specs.Views.{MutatorView, mutator_now};

    ghost Value = { MutatorView };

    ghost view = { λ m. m.actor };

    ghost invariant = { λ m. is_busy (mutator_now m.actor) ≡ false };
}

impl Mutator {
    // The mutator of an actor that has no unfinished work.
    pub(crate) fn of(actor: Actor) -> Mutator
        requires { is_busy (mutator_now actor) ≡ false }
        ensures { result ≡ actor }
    {
        Mutator { actor }
    }

    // Its actor.
    pub(crate) fn into_actor(self) -> Actor
        ensures actor { result ≡ self }
        ensures idle { is_busy (mutator_now result) ≡ false }
    {
        let Mutator { actor } = self;
        actor
    }

    /// Carries out a command of a mutator that hasn't left, and tells the answer with the field words that it saw and left.
    ///
    /// By the command Leave it leaves the heap for good: its registers become null, and its last log is handed over. It is told
    /// `NotYet`, and nothing changes, while the log that it handed over last is still to be collected.
    pub fn command(&mut self, heap: &Heap, cmd: Cmd) -> Told
        requires own { IsMutatorOf heap.now self.old }
        requires valid { MayAsk (mutator_now self.old) cmd }

        // Its list grows by the command and its steps, and what is told is the answer that the list makes up.
        ensures grows { Works (works.Command cmd) self.old.log self.new.log }
        ensures is { self.new ≡ record self.old { log = self.new.log } }
        ensures answer { answer_of (mutator_now self.new) ≡ Some (makes.Answered result) }

        // Each refusal has its cause in the list: Full and Busy come where each probe found a taken header, between the first and the
        // last look at the freed word, NoField where a write's first step found a leaf's header, and NotYet where the first step of leaving
        // found by the own crossing word that a log is still to be collected. The list also tells that an allocation takes at most two
        // steps more than there are slots, leaving at most three, a write at most two, and each other command one.
        ensures causes { IsAnswered (mutator_now self.old) cmd self.old.log self.new.log (mutator_now self.new) result }
        // It has left just where that was asked, and done.
        ensures leaves { Leaves (mutator_now self.old) cmd result (mutator_now self.new) }
        ensures line { Tells (mutator_now self.old) self.old.log self.new.log ((cmd, result) ∷ []) }
        ensures idle { is_busy (mutator_now self.new) ≡ false }
        ensures same { KeepsSizes (mutator_now self.old) (mutator_now self.new) }
    {
        if self.straight(heap, cmd) {
            return self.told();
        }
        self.by_steps(heap, cmd)
    }

    // Carries out a command in straight code, where it goes its usual way. Else nothing happens.
    fn straight(&mut self, heap: &Heap, cmd: Cmd) -> bool
        requires own { IsMutatorOf heap.now self.old }
        requires valid { MayAsk (mutator_now self.old) cmd }

        ensures { CarriesIf self.old self.new cmd result }
    {
        match cmd {
            Cmd::Get { dst, src, field } => {
                if self.register(src).is_none() {
                    return false;
                }
                self.get(heap, dst, src, field);
                true
            }
            Cmd::Put { src, field, val } => {
                if self.register(src).is_none() || self.is_full() {
                    return false;
                }
                self.put(heap, src, field, val);
                true
            }
            Cmd::New { reg, label } => self.bears(heap, reg, label, false),
            Cmd::Leaf { reg, label } => self.bears(heap, reg, label, true),
            Cmd::Copy { dst, src } => {
                self.copy(heap, dst, src);
                true
            }
            Cmd::Null { reg } => {
                self.null(heap, reg);
                true
            }
            Cmd::Value { reg } => {
                if self.register(reg).is_none() {
                    return false;
                }
                self.value(heap, reg);
                true
            }
            Cmd::Same { a, b } => {
                self.same(heap, a, b);
                true
            }
            Cmd::Leave | Cmd::Park | Cmd::Unpark => false,
        }
    }

    // Makes an object or a leaf, where the log has room and the slot behind the last claim is found free. Else nothing happens.
    fn bears(&mut self, heap: &Heap, reg: u8, label: u32, leaf: bool) -> bool
        requires own { IsMutatorOf heap.now self.old }
        requires valid { MayAsk (mutator_now self.old) (allocation leaf reg label) }

        ensures { CarriesIf self.old self.new (allocation leaf reg label) result }
    {
        if self.is_full() {
            return false;
        }
        let Some(from) = self.finds_free(heap) else {
            return false;
        };
        self.bear(heap, reg, label, leaf, from);
        true
    }

    /// What the last command was answered.
    #[inline(never)]
    pub fn told(&self) -> Told
        requires { (told : Answers) × (answer_of (mutator_now self.now) ≡ Some (makes.Answered told)) }
        ensures { answer_of (mutator_now self.now) ≡ Some (makes.Answered result) }
    {
        match self.actor.answer() {
            Some(Made::Answered(told)) => told,
            _ => unreachable!(),
        }
    }

    /// Reads a field of the object in `src` into `dst`, as the command Get does: `Object` or `Null` is answered.
    #[inline(always)]
    pub fn get(&mut self, heap: &Heap, dst: u8, src: u8, field: u8) -> Answer
        requires own { IsMutatorOf heap.now self.old }
        requires valid { MayAsk (mutator_now self.old) (commands.Get dst src field) }
        requires object { IsSome (register (mutator_now self.old) src) }

        ensures { Carries self.old self.new (commands.Get dst src field) result }
    {
        self.actor.get(heap.board(), dst, src, field)
    }

    /// Writes a field of the object in `src`, as the command Put does, where the log has room: `Done` is answered, or `NoField` of a leaf.
    #[inline(always)]
    pub fn put(&mut self, heap: &Heap, src: u8, field: u8, val: u8) -> Answer
        requires own { IsMutatorOf heap.now self.old }
        requires valid { MayAsk (mutator_now self.old) (commands.Put src field val) }
        requires object { IsSome (register (mutator_now self.old) src) }
        requires room { is_full (mutator_now self.old) ≡ false }

        ensures { Carries self.old self.new (commands.Put src field val) result }
    {
        self.actor.put(heap.board(), src, field, val)
    }

    /// Makes an object or a leaf, as the commands New and Leaf do, where the log has room, by a scan that begins with slot `from`. Whether
    /// that slot was won; else the scan went on, and `told` has the answer.
    #[inline(always)]
    pub fn bear(&mut self, heap: &Heap, reg: u8, label: u32, leaf: bool, from: u16) -> bool
        requires own { IsMutatorOf heap.now self.old }
        requires valid { MayAsk (mutator_now self.old) (allocation leaf reg label) }
        requires room { is_full (mutator_now self.old) ≡ false }
        requires from { from < (mutator_now self.old).slots }

        ensures { Bears self.old self.new (allocation leaf reg label) result }
    {
        see_label(Work::Command(Cmd::New { reg, label }));
        self.actor.bear(heap.board(), reg, label, leaf, from)
    }

    /// The slot with which the next scan would begin, where it is found free by a look that is no step.
    #[inline(always)]
    pub fn finds_free(&self, heap: &Heap) -> Option<u16>
        requires { IsMutatorOf heap.now self.now }
        ensures { IfSome result (λ from. from < (mutator_now self.now).slots) }
    {
        self.actor.finds_free(heap.board())
    }

    /// Lets `dst` name what `src` names, as the command Copy does.
    #[inline(always)]
    pub fn copy(&mut self, heap: &Heap, dst: u8, src: u8)
        requires own { IsMutatorOf heap.now self.old }
        requires valid { MayAsk (mutator_now self.old) (commands.Copy dst src) }

        ensures { Carries self.old self.new (commands.Copy dst src) answers.Done }
    {
        self.actor.copy(heap.board(), dst, src);
    }

    /// Lets a register be null, as the command Null does.
    #[inline(always)]
    pub fn null(&mut self, heap: &Heap, reg: u8)
        requires own { IsMutatorOf heap.now self.old }
        requires valid { MayAsk (mutator_now self.old) (commands.Null reg) }

        ensures { Carries self.old self.new (commands.Null reg) answers.Done }
    {
        self.actor.null(heap.board(), reg);
    }

    /// Tells the label of the object in a register, as the command Value does.
    #[inline(always)]
    pub fn value(&mut self, heap: &Heap, reg: u8) -> Answer
        requires own { IsMutatorOf heap.now self.old }
        requires valid { MayAsk (mutator_now self.old) (commands.Value reg) }
        requires object { IsSome (register (mutator_now self.old) reg) }

        ensures { Carries self.old self.new (commands.Value reg) result }
    {
        self.actor.value(heap.board(), reg)
    }

    /// Tells whether two registers name one object, or both none, as the command Same does.
    #[inline(always)]
    pub fn same(&mut self, heap: &Heap, a: u8, b: u8) -> Answer
        requires own { IsMutatorOf heap.now self.old }
        requires valid { MayAsk (mutator_now self.old) (commands.Same a b) }

        ensures { Carries self.old self.new (commands.Same a b) result }
    {
        self.actor.same(heap.board(), a, b)
    }

    /// Carries out a command step by step, with all that `command` promises: for a caller who knows that it doesn't go its usual way.
    #[inline(never)]
    pub fn by_steps(&mut self, heap: &Heap, cmd: Cmd) -> Told
        requires own { IsMutatorOf heap.now self.old }
        requires valid { MayAsk (mutator_now self.old) cmd }
        ensures grows { Works (works.Command cmd) self.old.log self.new.log }
        ensures is { self.new ≡ record self.old { log = self.new.log } }
        ensures answer { answer_of (mutator_now self.new) ≡ Some (makes.Answered result) }
        ensures causes { IsAnswered (mutator_now self.old) cmd self.old.log self.new.log (mutator_now self.new) result }
        ensures leaves { Leaves (mutator_now self.old) cmd result (mutator_now self.new) }
        ensures line { Tells (mutator_now self.old) self.old.log self.new.log ((cmd, result) ∷ []) }
        ensures idle { is_busy (mutator_now self.new) ≡ false }
        ensures same { KeepsSizes (mutator_now self.old) (mutator_now self.new) }
    {
        let work = Work::Command(cmd);
        see_label(work);
        match self.actor.work(heap.board(), work) {
            Made::Answered(told) => told,
            Made::Crossed(_) => unreachable!(),
        }
    }

    /// Looks at the epoch word, where the mutator hasn't left, and crosses into the requested epoch where it is another one. The answer
    /// is that epoch, or `None` where the mutator is in it already.
    #[inline(always)]
    pub fn poll(&mut self, heap: &Heap) -> Option<u32>
        requires own { IsMutatorOf heap.now self.old }
        requires present { (mutator_now self.old).left ≡ false }

        ensures grows { Works works.Poll self.old.log self.new.log }
        ensures is { self.new ≡ record self.old { log = self.new.log } }
        ensures answer { answer_of (mutator_now self.new) ≡ Some (makes.Crossed result) }
        // The answer has its cause in the list: a poll takes one step, and three where it crosses.
        ensures causes { IsPolled (mutator_now self.old) self.old.log self.new.log result }
        ensures left { (mutator_now self.new).left ≡ (mutator_now self.old).left }
        ensures line { Tells (mutator_now self.old) self.old.log self.new.log [] }
        ensures idle { is_busy (mutator_now self.new) ≡ false }
        ensures same { KeepsSizes (mutator_now self.old) (mutator_now self.new) }
    {
        self.actor.poll(heap.board())
    }

    /// Whether it may ask this: the registers and the field are there, and it hasn't left.
    #[inline(always)]
    pub fn valid(&self, cmd: &Cmd) -> bool
        ensures { IsTrue result ↔ MayAsk (mutator_now self.now) cmd.now }
    {
        self.actor.valid(cmd) && !self.actor.left()
    }

    /// Whether it has left. Its registers are null for good then, the collector waits for it no more once its last log is gathered,
    /// and nothing is asked of it: it begins no command and no poll.
    #[inline(always)]
    pub fn left(&self) -> bool
        ensures { result ≡ (mutator_now self.now).left }
    {
        self.actor.left()
    }

    /// Whether its log has no room for another entry.
    #[inline(always)]
    pub fn is_full(&self) -> bool
        ensures { result ≡ is_full (mutator_now self.now) }
    {
        self.actor.is_full()
    }

    /// What register `r` names.
    #[inline(always)]
    pub fn register(&self, r: u8) -> Option<u16>
        requires { r < length (mutator_now self.now).registers }
        ensures { result ≡ register (mutator_now self.now) r }
    {
        self.actor.register(r)
    }

    /// The epoch that it is in.
    #[inline(always)]
    pub fn epoch(&self) -> u32
        ensures { result ≡ (mutator_now self.now).epoch }
    {
        self.actor.epoch()
    }

    /// Its number, from 1. Between two calls it has no unfinished work.
    #[inline(always)]
    pub fn number(&self) -> u8
        ensures number { result ≡ (mutator_now self.now).number }
        ensures idle { is_busy (mutator_now self.now) ≡ false }
    {
        self.actor.number()
    }
}

// The label of an allocation fits a header.
fn see_label(work: Work)
    ensures { HasLabel work }
{
    if let Work::Command(Cmd::New { label, .. } | Cmd::Leaf { label, .. }) = work {
        prove!(label <= u32::MAX);
    }
}
