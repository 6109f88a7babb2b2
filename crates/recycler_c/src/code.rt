//! The codes that every export answers.
ghost use Rattle.std.specs.Prelude.{◌≡◌};
ghost use Rattle.recycler_c.specs.Codes.{code_of, number_of};

use rec_world::{OpenError, Part};

/// Why a call did nothing, or, with `Shared`, not the whole; `Ok` where it did what it is for.
#[derive(Clone, Copy)]
pub enum Code {
    Ok = 0,
    /// There is no memory for it.
    NoMemory = 1,
    /// The first number of the heap that is out of its range, as it is opened or begins anew.
    Slots = 2,
    Fields = 3,
    Registers = 4,
    Mutators = 5,
    LogEntries = 6,
    FirstEpoch = 7,
    /// The handle is not open.
    Closed = 8,
    /// It is open already.
    Open = 9,
    /// The heap runs.
    Runs = 10,
    /// The heap rests.
    Rests = 11,
    /// The handle is another one than the call is for.
    Other = 12,
    /// A register, a field or a slot is out of its range.
    Range = 13,
    /// Fewer than four epochs are left.
    EpochsSpent = 14,
    /// Something else than its handles holds the running heap.
    Shared = 15,
    /// The mutator has left, and is asked nothing any more.
    Left = 16,
    /// Registers reach more objects than there would be slots.
    FewSlots = 17,
}

impl Code {
    /// The number that C sees.
    #[inline(always)]
    pub fn number(self) -> u32
        ensures { result ≡ number_of self }
    {
        self as u32
    }
}

/// The code of a heap that wasn't opened.
pub fn refusal(error: OpenError) -> Code
    ensures { result ≡ code_of error }
{
    match error {
        OpenError::NoMemory => Code::NoMemory,
        OpenError::Config { field } => match field {
            Part::Slots => Code::Slots,
            Part::Fields => Code::Fields,
            Part::Registers => Code::Registers,
            Part::Mutators => Code::Mutators,
            Part::LogEntries => Code::LogEntries,
            Part::FirstEpoch => Code::FirstEpoch,
        },
    }
}
