//! What a mutator's machine learns of the word that a step found, by phase and by command.
ghost use Rattle.std.specs.Prelude.{◌≡◌, ◌+◌, ◌<◌, ◌≤◌, ◌∷◌, ◌++◌, [], true, length, slice_set};
ghost use Rattle.rec_model.specs.Asking.{allocation, same, yes_or_no, plain};
ghost use Rattle.rec_mutator.specs.Next.{next_of, begun_op, first_op};
ghost use Rattle.rec_mutator.specs.Private.{register, is_full, is_busy, HasOperands, IsValid, IsScan, IsStore, HasStamp, IsMachine};
ghost use Rattle.rec_mutator.specs.Took.{begun_by, took_of, took_at, answered, with_register, first_by, new_by, stored, polled, probed, none_free, is_uncollected, leaving_by, IsFound, IsRequested, IsBetween};

use super::Machine;
use crate::Work;
use crate::phase::Phase;
use crate::telling::{
    allocation, answered, crossed, is_uncollected, none_free, null_or_object, only, yes_or_no,
};
use rec_log::{Buffer, Entry, Frame};
use rec_model::{Answer, Cmd, Told};
use rec_word::{Header, target};

impl Machine {
    // Learns the word that was found, by phase.
    #[tactic(auto, unfolding(crate::specs::Next::next_of, crate::specs::Next::next_at, crate::specs::Took::took_of, crate::specs::Took::took_at))]
    #[inline(always)]
    pub(super) fn learn(&mut self, word: u64)
        requires busy { is_busy self.old ≡ true }
        requires between { IsBetween self.old.phase }
        requires found { IsFound self.old (next_of self.old) word }

        ensures was { IsMachine self.old }
        ensures took { self.new ≡ took_of self.old word }
        ensures kept { IsMachine self.new }
    {
        match self.phase {
            Phase::Begun { work } => self.took_begun(work, word),
            Phase::Scanning {
                reg,
                label,
                leaf,
                before,
                probed,
            } => self.took_probe(reg, label, leaf, before, probed, word),
            Phase::Scanned {
                reg,
                label,
                leaf,
                before,
            } => self.took_last(reg, label, leaf, before, word),
            Phase::Storing {
                src,
                field,
                val,
                slot,
            } => self.took_store(src, field, val, slot, word),
            Phase::Crossing => self.took_box(),
            Phase::Giving => self.gave_box(),
            Phase::Leaving => self.let_go(),
            Phase::Parting => self.parted(),
            Phase::Idle
            | Phase::Swapping
            | Phase::Retiring
            | Phase::Finished { .. }
            | Phase::Passing { .. } => {}
        }
    }

    // Learns what the first step of a work found.
    #[inline(always)]
    pub(super) fn took_begun(&mut self, work: Work, word: u64)
        requires valid { IsValid self.old work }
        requires first { self.old.steps ≡ 0 }
        requires stamp { HasStamp self.old }
        requires found { IsFound self.old (begun_op self.old work) word }

        ensures took { self.new ≡ begun_by self.old word work }
        ensures kept { IsMachine self.new }
    {
        match work {
            Work::Command(cmd) => self.took_command(cmd, word),
            Work::Poll => self.took_poll(word),
        }
    }

    // Learns what the first step of a command found.
    #[inline(always)]
    fn took_command(&mut self, cmd: Cmd, word: u64)
        requires valid { HasOperands self.old cmd }
        requires first { self.old.steps ≡ 0 }
        requires stamp { HasStamp self.old }
        requires found { IsFound self.old (first_op self.old cmd) word }

        ensures took { self.new ≡ first_by self.old word cmd }
        ensures kept { IsMachine self.new }
    {
        match cmd {
            Cmd::New { reg, label } => self.took_new(reg, label, false, word),
            Cmd::Leaf { reg, label } => self.took_new(reg, label, true, word),
            Cmd::Null { reg } => self.took_null(reg),
            Cmd::Copy { dst, src } => self.took_copy(dst, src),
            Cmd::Get { dst, src, field } => self.took_get(dst, src, field, word),
            Cmd::Put { src, field, val } => self.took_put(src, field, val, word),
            Cmd::Value { reg } => self.took_value(reg, word),
            Cmd::Same { a, b } => self.took_same(a, b),
            Cmd::Leave => self.took_leave(word),
            // Parking and unparking begin with calls of their own. Of a work that was begun their operands are never there.
            Cmd::Park | Cmd::Unpark => unreachable!(),
        }
    }

    // An allocation begins its scan, if the log has room.
    fn took_new(&mut self, reg: u8, label: u32, leaf: bool, word: u64)
        requires valid { reg < length self.old.registers }
        requires first { self.old.steps ≡ 0 }

        ensures took { self.new ≡ new_by self.old word reg label leaf (is_full self.old) }
        ensures kept { IsMachine self.new }
    {
        if self.is_full() {
            self.phase = answered(allocation(leaf, reg, label), only(Answer::LogFull));
            self.steps += 1;
        } else {
            self.phase = Phase::Scanning {
                reg,
                label,
                leaf,
                before: word,
                probed: 0,
            };
            self.steps += 1;
        }
    }

    fn took_null(&mut self, reg: u8)
        requires valid { HasOperands self.old (Cmd.Null reg) }
        requires first { self.old.steps ≡ 0 }

        ensures took { self.new ≡ answered (with_register self.old reg None) (Cmd.Null reg) (plain Answer.Done) }
        ensures kept { IsMachine self.new }
    {
        self.frame.clear(reg);
        self.phase = answered(Cmd::Null { reg }, only(Answer::Done));
        self.steps += 1;
    }

    fn took_copy(&mut self, dst: u8, src: u8)
        requires valid { HasOperands self.old (Cmd.Copy dst src) }
        requires first { self.old.steps ≡ 0 }

        ensures took { self.new ≡ answered (with_register self.old dst (register self.old src)) (Cmd.Copy dst src) (plain Answer.Done) }
        ensures kept { IsMachine self.new }
    {
        self.frame.copy(dst, src);
        self.phase = answered(Cmd::Copy { dst, src }, only(Answer::Done));
        self.steps += 1;
    }

    // A register becomes what the field's word leads to.
    #[inline(always)]
    fn took_get(&mut self, dst: u8, src: u8, field: u8, word: u64)
        requires valid { HasOperands self.old (Cmd.Get dst src field) }
        requires first { self.old.steps ≡ 0 }

        ensures took { self.new ≡ first_by self.old word (Cmd.Get dst src field) }
        ensures kept { IsMachine self.new }
    {
        let cmd = Cmd::Get { dst, src, field };
        if self.frame.read(src).is_none() {
            self.phase = answered(cmd, only(Answer::NoObject));
            self.steps += 1;
            return;
        }
        let target = target(word);
        put_in(&mut self.frame, dst, target);
        let told = Told {
            answer: null_or_object(target),
            saw: word,
            left: 0,
        };
        self.phase = answered(cmd, told);
        self.steps += 1;
    }

    // The header of the object tells whether its field may be written.
    #[inline(always)]
    fn took_put(&mut self, src: u8, field: u8, val: u8, word: u64)
        requires valid { HasOperands self.old (Cmd.Put src field val) }
        requires first { self.old.steps ≡ 0 }
        requires stamp { HasStamp self.old }
        requires found { IsFound self.old (first_op self.old (Cmd.Put src field val)) word }

        ensures took { self.new ≡ first_by self.old word (Cmd.Put src field val) }
        ensures kept { IsMachine self.new }
    {
        let cmd = Cmd::Put { src, field, val };
        let Some(slot) = self.frame.read(src) else {
            self.phase = answered(cmd, only(Answer::NoObject));
            self.steps += 1;
            return;
        };
        if self.is_full() {
            self.phase = answered(cmd, only(Answer::LogFull));
            self.steps += 1;
            return;
        }
        if Header::unpack(word).leaf {
            self.phase = answered(cmd, only(Answer::NoField));
        } else {
            self.phase = Phase::Storing {
                src,
                field,
                val,
                slot,
            };
        }
        self.steps += 1;
    }

    // The write is logged with the word that it replaced.
    #[inline(always)]
    fn took_store(&mut self, src: u8, field: u8, val: u8, slot: u16, word: u64)
        requires store { IsStore self.old src field val slot }
        requires second { self.old.steps ≡ 1 }

        ensures took { self.new ≡ stored self.old src field val slot word }
        ensures kept { IsMachine self.new }
    {
        let cmd = Cmd::Put { src, field, val };
        let left = self.word_for(val);
        let entry = Entry::Put {
            place: self.place_of(slot, field),
            new: left,
            old: word,
        };
        note(&mut self.log, entry);
        let told = Told {
            answer: Answer::Done,
            saw: word,
            left,
        };
        self.phase = answered(cmd, told);
        self.steps += 1;
    }

    // The header tells the label.
    fn took_value(&mut self, reg: u8, word: u64)
        requires valid { HasOperands self.old (Cmd.Value reg) }
        requires first { self.old.steps ≡ 0 }
        requires found { IsFound self.old (first_op self.old (Cmd.Value reg)) word }

        ensures took { self.new ≡ first_by self.old word (Cmd.Value reg) }
        ensures kept { IsMachine self.new }
    {
        let answer = match self.frame.read(reg) {
            Some(_) => Answer::Value(Header::unpack(word).label),
            None => Answer::NoObject,
        };
        self.phase = answered(Cmd::Value { reg }, only(answer));
        self.steps += 1;
    }

    // Two registers are compared.
    fn took_same(&mut self, a: u8, b: u8)
        requires valid { HasOperands self.old (Cmd.Same a b) }
        requires first { self.old.steps ≡ 0 }

        ensures took { self.new ≡ answered self.old (Cmd.Same a b) (plain (yes_or_no (same (register self.old a) (register self.old b)))) }
        ensures kept { IsMachine self.new }
    {
        let answer = yes_or_no(self.frame.read(a), self.frame.read(b));
        self.phase = answered(Cmd::Same { a, b }, only(answer));
        self.steps += 1;
    }

    // The own crossing word tells whether the mutator may leave.
    fn took_leave(&mut self, word: u64)
        requires first { self.old.steps ≡ 0 }
        requires stamp { HasStamp self.old }

        ensures took { self.new ≡ leaving_by self.old (is_uncollected word) }
        ensures kept { IsMachine self.new }
    {
        self.phase = if is_uncollected(word) {
            answered(Cmd::Leave, only(Answer::NotYet))
        } else {
            Phase::Leaving
        };
        self.steps += 1;
    }

    // A probe after so many others: the slot was free and is won, or the next one follows, until each was probed.
    fn took_probe(&mut self, reg: u8, label: u32, leaf: bool, before: u64, count: u16, word: u64)
        requires scan { IsScan self.old reg }
        requires count { count < self.old.slots }
        requires steps { self.old.steps ≡ count + 1 }

        ensures took { self.new ≡ probed self.old reg label leaf before count word }
        ensures kept { IsMachine self.new }
    {
        if word == 0 {
            let slot = self.probe(count);
            self.frame.set(reg, slot);
            note(&mut self.log, Entry::Born { slot, leaf });
            self.phase = answered(allocation(leaf, reg, label), only(Answer::Done));
            self.steps += 1;
        } else if count + 1 == self.slots {
            self.phase = Phase::Scanned {
                reg,
                label,
                leaf,
                before,
            };
            self.steps += 1;
        } else {
            self.phase = Phase::Scanning {
                reg,
                label,
                leaf,
                before,
                probed: count + 1,
            };
            self.steps += 1;
        }
    }

    // No slot was free.
    fn took_last(&mut self, reg: u8, label: u32, leaf: bool, before: u64, word: u64)
        requires steps { self.old.steps ≡ self.old.slots + 1 }

        ensures took { self.new ≡ answered self.old (allocation leaf reg label) (plain (none_free before word)) }
        ensures kept { IsMachine self.new }
    {
        self.phase = answered(allocation(leaf, reg, label), only(none_free(before, word)));
        self.steps += 1;
    }

    // Where the epoch word is the own epoch there is nothing to cross into; else the mutator crosses.
    fn took_poll(&mut self, word: u64)
        requires first { self.old.steps ≡ 0 }
        requires requested { IsRequested self.old word }

        ensures took { self.new ≡ polled self.old word }
        ensures kept { IsMachine self.new }
    {
        self.phase = if word == u64::from(self.epoch) {
            crossed(None)
        } else {
            Phase::Crossing
        };
        self.steps += 1;
    }

    // The own mailbox is held: the log is retired, and goes there next.
    #[tactic(auto, unfolding(crate::specs::Took::took_at))]
    fn took_box(&mut self)
        requires phase { self.old.phase ≡ Phase.Crossing }

        ensures took { self.new ≡ took_at self.old 0 Phase.Crossing }
        ensures kept { IsMachine self.new }
    {
        self.log.retire(&self.frame);
        self.phase = Phase::Swapping;
        self.steps += 1;
    }

    // The own mailbox is home: the mutator is in the next epoch.
    #[tactic(auto, unfolding(crate::specs::Took::took_at))]
    fn gave_box(&mut self)
        requires phase { self.old.phase ≡ Phase.Giving }

        ensures took { self.new ≡ took_at self.old 0 Phase.Giving }
        ensures kept { IsMachine self.new }
    {
        self.epoch += 1;
        self.phase = crossed(Some(self.epoch));
        self.steps += 1;
    }

    // The own mailbox of a mutator that leaves is held: its registers are let go, and its log is retired as the last one.
    #[tactic(auto, unfolding(crate::specs::Took::took_at))]
    fn let_go(&mut self)
        requires phase { self.old.phase ≡ Phase.Leaving }

        ensures took { self.new ≡ took_at self.old 0 Phase.Leaving }
        ensures kept { IsMachine self.new }
    {
        self.frame.clear_all();
        self.log.retire_last(&self.frame);
        self.phase = Phase::Retiring;
        self.steps += 1;
    }

    // The own mailbox of a mutator that leaves is home: it has left.
    #[tactic(auto, unfolding(crate::specs::Took::took_at))]
    fn parted(&mut self)
        requires phase { self.old.phase ≡ Phase.Parting }

        ensures took { self.new ≡ took_at self.old 0 Phase.Parting }
        ensures kept { IsMachine self.new }
    {
        self.epoch += 1;
        self.left = true;
        self.phase = answered(Cmd::Leave, only(Answer::Done));
        self.steps += 1;
    }
}

// Adds an entry to a log that has room.
#[inline(always)]
pub(super) fn note(log: &mut Buffer, entry: Entry)
    requires { length log.old.entries < log.old.capacity }
    ensures { log.new ≡ record log.old { entries = log.old.entries ++ entry ∷ [] } }
{
    let noted = log.push(entry).is_ok();
    prove!(noted);
}

// Lets a register be this.
#[inline(always)]
pub(super) fn put_in(frame: &mut Frame, r: u8, target: Option<u16>)
    requires { r < length frame.old }
    ensures { frame.new ≡ slice_set frame.old r target }
{
    match target {
        Some(slot) => frame.set(r, slot),
        None => frame.clear(r),
    }
}
