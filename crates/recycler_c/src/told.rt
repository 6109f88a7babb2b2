//! What C is told.
ghost use Rattle.std.specs.Prelude.{◌≡◌};
ghost use Rattle.recycler_c.specs.Shown.{asked_of, heard_of, slot_told, telling_of, turned_of};

use rec_model::Answer;
use rec_table::Telling;
use rec_world::Turn;

/// The answer to a command.
#[repr(C)]
#[derive(Clone, Copy, Drop)]
pub struct Asked {
    pub answer: u32,
    pub label: u32,
    pub before: u64,
    pub after: u64,
}

/// What a turn came to.
#[repr(C)]
#[derive(Clone, Copy, Drop)]
pub struct Turned {
    pub what: u32,
    pub mutator: u32,
    pub epoch: u32,
    pub freed: u32,
}

/// What settling came to.
#[repr(C)]
#[derive(Clone, Copy, Drop)]
pub struct Settled {
    pub epochs: u32,
    pub freed: u32,
    pub live: u32,
}

/// A slot of a heap at rest.
#[repr(C)]
#[derive(Clone, Copy, Drop)]
pub struct Slot {
    pub taken: u32,
    pub label: u32,
    pub count: u64,
}

/// Totals of a heap at rest, since its opening.
#[repr(C)]
#[derive(Clone, Copy, Drop)]
pub struct Totals {
    pub born: u64,
    pub freed: u64,
    pub epoch: u32,
    pub collections: u32,
    pub cycles_freed: u64,
    pub cycles_refused_delta: u64,
    pub cycles_refused_sigma: u64,
}

/// What the listener heard: a label, where there is one.
#[repr(C)]
#[derive(Clone, Copy, Drop)]
pub struct Heard {
    pub any: u32,
    pub label: u32,
}

/// An answer of the listener as C reads it.
pub fn show_heard(label: Option<u32>) -> Heard
    ensures { result ≡ heard_of label }
{
    match label {
        None => Heard { any: 0, label: 0 },
        Some(label) => Heard { any: 1, label },
    }
}

/// A slot as C reads it: its label, if it holds an object, and its count.
pub fn show_slot(label: Option<u32>, count: u64) -> Slot
    ensures { result ≡ slot_told label count }
{
    match label {
        None => Slot {
            taken: 0,
            label: 0,
            count,
        },
        Some(label) => Slot {
            taken: 1,
            label,
            count,
        },
    }
}

/// An answer as C reads it.
pub fn show_answer(answer: Answer) -> Asked
    ensures { result ≡ asked_of answer }
{
    let plain = Asked {
        answer: 0,
        label: 0,
        before: 0,
        after: 0,
    };
    match answer {
        Answer::Done => plain,
        Answer::Null => Asked { answer: 1, ..plain },
        Answer::Object => Asked { answer: 2, ..plain },
        Answer::Value(label) => Asked {
            answer: 3,
            label,
            ..plain
        },
        Answer::Yes => Asked { answer: 4, ..plain },
        Answer::No => Asked { answer: 5, ..plain },
        Answer::NoObject => Asked { answer: 6, ..plain },
        Answer::Full => Asked { answer: 7, ..plain },
        Answer::Busy { before, after } => Asked {
            answer: 8,
            before,
            after,
            ..plain
        },
        Answer::LogFull => Asked { answer: 9, ..plain },
        Answer::NoField => Asked {
            answer: 10,
            ..plain
        },
        Answer::NotYet => Asked {
            answer: 11,
            ..plain
        },
    }
}

/// A turn as C reads it.
pub fn show_turn(turn: Turn) -> Turned
    ensures { result ≡ turned_of turn }
{
    let plain = Turned {
        what: 0,
        mutator: 0,
        epoch: 0,
        freed: 0,
    };
    match turn {
        Turn::Moved => plain,
        Turn::Waiting { mutator } => Turned {
            what: 1,
            mutator: u32::from(mutator),
            ..plain
        },
        Turn::Collected { epoch, freed } => Turned {
            what: 2,
            epoch,
            freed,
            ..plain
        },
        Turn::EpochsSpent => Turned { what: 3, ..plain },
    }
}

/// A turn that tells, as C reads it.
pub fn show_telling(telling: Telling) -> Turned
    ensures { result ≡ telling_of telling }
{
    match telling {
        Telling::Turned(turn) => show_turn(turn),
        Telling::Held { label: _ } => Turned {
            what: 4,
            mutator: 0,
            epoch: 0,
            freed: 0,
        },
    }
}
