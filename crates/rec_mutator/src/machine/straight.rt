//! What a mutator's machine learns of the usual works all at once, behind their last operation: for who knows which work that is, has made
//! its operations as `next` would name them, and has their words. Nothing of the machine was written before.
ghost use Rattle.std.specs.Prelude.{◌≡◌, ◌≢◌, ◌<◌, ℕ, None, Some, false, true, length};
ghost use Rattle.rec_model.specs.Asking.{allocation, plain};
ghost use Rattle.rec_word.specs.Header.{is_leaf, IsTakenHeader};
ghost use Rattle.rec_word.specs.Place.{place_of};
ghost use Rattle.rec_mutator.specs.Private.{register, is_busy, is_full, word_for, answer_of, HasOperands, IsMachine};
ghost use Rattle.rec_mutator.specs.Took.{begun_of, took_of, IsRequested};
ghost use Rattle.rec_mutator.specs.declared.made.Made.TheVariants as makes;
ghost use Rattle.rec_mutator.specs.declared.work.Work.TheVariants as works;

use super::Machine;
use super::learning::{note, put_in};
use crate::Work;
use crate::telling::{allocation, answered, crossed, null_or_object, only, yes_or_no};
use rec_log::Entry;
use rec_model::{Answer, Cmd, Told};
use rec_word::{Header, target};

impl Machine {
    /// Learns the field's word that the read of an object's field found.
    #[inline(always)]
    pub fn got(&mut self, dst: u8, src: u8, field: u8, slot: u16, word: u64) -> Answer
        requires idle { is_busy self.old ≡ false }
        requires stays { self.old.left ≡ false }
        requires awake { self.old.parked ≡ false }
        requires valid { HasOperands self.old (Cmd.Get dst src field) }
        requires object { register self.old src ≡ Some slot }

        ensures took { self.new ≡ took_of (begun_of self.old (works.Command (Cmd.Get dst src field)) self.old.from) word }
        ensures answer { answer_of self.new ≡ Some (makes.Answered (record { answer = result; saw = word; left = 0 })) }
        ensures kept { IsMachine self.new }
    {
        let _ = slot;
        let target = target(word);
        put_in(&mut self.frame, dst, target);
        let answer = null_or_object(target);
        let told = Told {
            answer,
            saw: word,
            left: 0,
        };
        self.phase = answered(Cmd::Get { dst, src, field }, told);
        self.steps = 1;
        answer
    }

    /// Learns the header of an object that is no leaf and the word that its field had, for which the write left another one there.
    #[inline(always)]
    pub fn wrote(
        &mut self,
        src: u8,
        field: u8,
        val: u8,
        slot: u16,
        header: u64,
        place: u32,
        left: u64,
        word: u64,
    )
        requires idle { is_busy self.old ≡ false }
        requires stays { self.old.left ≡ false }
        requires awake { self.old.parked ≡ false }
        requires valid { HasOperands self.old (Cmd.Put src field val) }
        requires object { register self.old src ≡ Some slot }
        requires room { is_full self.old ≡ false }
        requires header { IsTakenHeader header × (is_leaf header ≡ false) }
        requires place { place ≡ place_of slot field self.old.fields }
        requires left { left ≡ word_for self.old val }

        ensures took { self.new ≡ took_of (took_of (begun_of self.old (works.Command (Cmd.Put src field val)) self.old.from) header) word }
        ensures answer { answer_of self.new ≡ Some (makes.Answered (record { answer = Answer.Done; saw = word; left = left })) }
        ensures kept { IsMachine self.new }
    {
        let _ = (slot, header);
        let entry = Entry::Put {
            place,
            new: left,
            old: word,
        };
        note(&mut self.log, entry);
        let told = Told {
            answer: Answer::Done,
            saw: word,
            left,
        };
        self.phase = answered(Cmd::Put { src, field, val }, told);
        self.steps = 2;
    }

    /// Learns the header of a leaf, into which nothing is written.
    pub fn barred(&mut self, src: u8, field: u8, val: u8, slot: u16, header: u64)
        requires idle { is_busy self.old ≡ false }
        requires stays { self.old.left ≡ false }
        requires awake { self.old.parked ≡ false }
        requires valid { HasOperands self.old (Cmd.Put src field val) }
        requires object { register self.old src ≡ Some slot }
        requires room { is_full self.old ≡ false }
        requires header { IsTakenHeader header × (is_leaf header ≡ true) }

        ensures took { self.new ≡ took_of (begun_of self.old (works.Command (Cmd.Put src field val)) self.old.from) header }
        ensures answer { answer_of self.new ≡ Some (makes.Answered (plain Answer.NoField)) }
        ensures kept { IsMachine self.new }
    {
        let _ = (slot, header);
        self.phase = answered(Cmd::Put { src, field, val }, only(Answer::NoField));
        self.steps = 1;
    }

    /// Learns the freed word with which a scan began, and that the claim of its first slot was won.
    #[inline(always)]
    pub fn bore(&mut self, reg: u8, label: u32, leaf: bool, from: u16, before: u64)
        requires idle { is_busy self.old ≡ false }
        requires stays { self.old.left ≡ false }
        requires awake { self.old.parked ≡ false }
        requires valid { HasOperands self.old (allocation leaf reg label) }
        requires room { is_full self.old ≡ false }
        requires from { from < self.old.slots }

        ensures took { self.new ≡ took_of (took_of (begun_of self.old (works.Command (allocation leaf reg label)) from) before) 0 }
        ensures answer { answer_of self.new ≡ Some (makes.Answered (plain Answer.Done)) }
        ensures kept { IsMachine self.new }
    {
        let _ = before;
        self.from = from;
        self.frame.set(reg, from);
        note(&mut self.log, Entry::Born { slot: from, leaf });
        self.phase = answered(allocation(leaf, reg, label), only(Answer::Done));
        self.steps = 2;
    }

    /// Learns the freed word with which a scan began, and that the claim of its first slot was lost: its header was found taken. The scan
    /// goes on.
    #[cold]
    pub fn lost(&mut self, reg: u8, label: u32, leaf: bool, from: u16, before: u64, found: u64)
        requires idle { is_busy self.old ≡ false }
        requires stays { self.old.left ≡ false }
        requires awake { self.old.parked ≡ false }
        requires valid { HasOperands self.old (allocation leaf reg label) }
        requires room { is_full self.old ≡ false }
        requires from { from < self.old.slots }

        ensures took { self.new ≡ took_of (took_of (begun_of self.old (works.Command (allocation leaf reg label)) from) before) found }
        ensures kept { IsMachine self.new }
    {
        let work = Work::Command(allocation(leaf, reg, label));
        self.begin(work, from);
        self.took_first(work, before);
        self.took(found);
    }

    /// Learns that a register is a copy of another one.
    #[inline(always)]
    pub fn copied(&mut self, dst: u8, src: u8, word: u64)
        requires idle { is_busy self.old ≡ false }
        requires stays { self.old.left ≡ false }
        requires awake { self.old.parked ≡ false }
        requires valid { HasOperands self.old (Cmd.Copy dst src) }

        ensures took { self.new ≡ took_of (begun_of self.old (works.Command (Cmd.Copy dst src)) self.old.from) word }
        ensures answer { answer_of self.new ≡ Some (makes.Answered (plain Answer.Done)) }
        ensures kept { IsMachine self.new }
    {
        let _ = word;
        self.frame.copy(dst, src);
        self.phase = answered(Cmd::Copy { dst, src }, only(Answer::Done));
        self.steps = 1;
    }

    /// Learns that a register is null.
    #[inline(always)]
    pub fn nulled(&mut self, reg: u8, word: u64)
        requires idle { is_busy self.old ≡ false }
        requires stays { self.old.left ≡ false }
        requires awake { self.old.parked ≡ false }
        requires valid { HasOperands self.old (Cmd.Null reg) }

        ensures took { self.new ≡ took_of (begun_of self.old (works.Command (Cmd.Null reg)) self.old.from) word }
        ensures answer { answer_of self.new ≡ Some (makes.Answered (plain Answer.Done)) }
        ensures kept { IsMachine self.new }
    {
        let _ = word;
        self.frame.clear(reg);
        self.phase = answered(Cmd::Null { reg }, only(Answer::Done));
        self.steps = 1;
    }

    /// Learns the header of an object, which tells its label.
    #[inline(always)]
    pub fn labelled(&mut self, reg: u8, slot: u16, header: u64) -> Answer
        requires idle { is_busy self.old ≡ false }
        requires stays { self.old.left ≡ false }
        requires awake { self.old.parked ≡ false }
        requires valid { HasOperands self.old (Cmd.Value reg) }
        requires object { register self.old reg ≡ Some slot }
        requires header { IsTakenHeader header }

        ensures took { self.new ≡ took_of (begun_of self.old (works.Command (Cmd.Value reg)) self.old.from) header }
        ensures answer { answer_of self.new ≡ Some (makes.Answered (plain result)) }
        ensures kept { IsMachine self.new }
    {
        let _ = slot;
        let answer = Answer::Value(Header::unpack(header).label);
        self.phase = answered(Cmd::Value { reg }, only(answer));
        self.steps = 1;
        answer
    }

    /// Learns whether two registers name one object, or both none.
    #[inline(always)]
    pub fn compared(&mut self, a: u8, b: u8, word: u64) -> Answer
        requires idle { is_busy self.old ≡ false }
        requires stays { self.old.left ≡ false }
        requires awake { self.old.parked ≡ false }
        requires valid { HasOperands self.old (Cmd.Same a b) }

        ensures took { self.new ≡ took_of (begun_of self.old (works.Command (Cmd.Same a b)) self.old.from) word }
        ensures answer { answer_of self.new ≡ Some (makes.Answered (plain result)) }
        ensures kept { IsMachine self.new }
    {
        let _ = word;
        let answer = yes_or_no(self.frame.read(a), self.frame.read(b));
        self.phase = answered(Cmd::Same { a, b }, only(answer));
        self.steps = 1;
        answer
    }

    /// Learns that the requested epoch is the own one: a poll crosses nowhere.
    #[inline(always)]
    pub fn stayed(&mut self, requested: u64)
        requires idle { is_busy self.old ≡ false }
        requires stays { self.old.left ≡ false }
        requires awake { self.old.parked ≡ false }
        requires own { requested ≡ self.old.epoch }

        ensures took { self.new ≡ took_of (begun_of self.old works.Poll self.old.from) requested }
        ensures answer { answer_of self.new ≡ Some (makes.Crossed None) }
        ensures kept { IsMachine self.new }
    {
        let _ = requested;
        self.phase = crossed(None);
        self.steps = 1;
    }

    /// Learns that another epoch is requested than the own one: a poll goes on, and crosses.
    #[cold]
    pub fn summoned(&mut self, requested: u64)
        requires idle { is_busy self.old ≡ false }
        requires stays { self.old.left ≡ false }
        requires awake { self.old.parked ≡ false }
        requires other { requested ≢ self.old.epoch }
        requires found { IsRequested self.old requested }

        ensures took { self.new ≡ took_of (begun_of self.old works.Poll self.old.from) requested }
        ensures kept { IsMachine self.new }
    {
        let from = self.from;
        self.begin(Work::Poll, from);
        self.took_first(Work::Poll, requested);
    }
}
