//! What a step tells, and the phase that says so.
ghost use Rattle.std.specs.Prelude.{◌≡◌};
ghost use Rattle.rec_model.specs.Asking.{allocation, null_or_object, same, yes_or_no, plain};
ghost use Rattle.rec_mutator.specs.Took.{none_free, is_uncollected};

use crate::phase::Phase;
use crate::{Made, Work};
use rec_model::{Answer, Cmd, Told};
use rec_word::Mailbox;

// Whether the crossing word says that the log of the epoch before is still to be collected.
pub(crate) fn is_uncollected(crossing: u64) -> bool
    ensures { result ≡ is_uncollected crossing }
{
    matches!(
        Mailbox::of(crossing),
        Mailbox::Retired | Mailbox::WithCollector
    )
}

// The command that allocates: a leaf, or an object with fields.
pub(crate) fn allocation(leaf: bool, reg: u8, label: u32) -> Cmd
    ensures { result ≡ allocation leaf reg label }
{
    if leaf {
        Cmd::Leaf { reg, label }
    } else {
        Cmd::New { reg, label }
    }
}

// The phase after a command's last step.
pub(crate) fn answered(cmd: Cmd, told: Told) -> Phase
    ensures { result ≡ Phase.Finished (Work.Command cmd) (Made.Answered told) }
{
    Phase::Finished {
        work: Work::Command(cmd),
        made: Made::Answered(told),
    }
}

// The phase after a poll's last step.
pub(crate) fn crossed(epoch: Option<u32>) -> Phase
    ensures { result ≡ Phase.Finished Work.Poll (Made.Crossed epoch) }
{
    Phase::Finished {
        work: Work::Poll,
        made: Made::Crossed(epoch),
    }
}

// What a read of a field that leads there answers.
pub(crate) fn null_or_object(target: Option<u16>) -> Answer
    ensures { result ≡ null_or_object target }
{
    match target {
        Some(_) => Answer::Object,
        None => Answer::Null,
    }
}

// What a comparison answers.
pub(crate) fn yes_or_no(one: Option<u16>, other: Option<u16>) -> Answer
    ensures { result ≡ yes_or_no (same one other) }
{
    if one == other {
        Answer::Yes
    } else {
        Answer::No
    }
}

// An answer that saw and left no word.
pub(crate) fn only(answer: Answer) -> Told
    ensures { result ≡ plain answer }
{
    Told {
        answer,
        saw: 0,
        left: 0,
    }
}

// Why an allocation found no free slot.
pub(crate) fn none_free(before: u64, after: u64) -> Answer
    ensures { result ≡ none_free before after }
{
    if before % 2 == 0 && before == after {
        Answer::Full
    } else {
        Answer::Busy { before, after }
    }
}
