ghost use Rattle.std.specs.Prelude.{◌≡◌};

/// One of the steps by which a mutator parks and unparks. Each is one addition to its own crossing word, which can't fail.
#[derive(Clone, Copy, Debug, PartialEq, Eq)]
pub enum Shift {
    /// Take the present mailbox, which is home with a spare.
    Hold,
    /// Give the present mailbox back with the deposit in it: the mutator is parked.
    Park,
    /// Be parked no more. The present mailbox is taken where it has the deposit.
    Unpark,
    /// Give the present mailbox back with a spare in it.
    Free,
}

impl Shift {
    ghost use Rattle.rec_word.specs.Op.{amount_of};

    /// What it adds to the crossing word. To go back it adds so much less than 2^64.
    #[inline(always)]
    pub fn amount(self) -> u64
        ensures { result ≡ amount_of self }
    {
        match self {
            Shift::Hold => 1 << 32,
            Shift::Park => 1 << 33,
            Shift::Unpark => u64::MAX - (1 << 33) + 1,
            Shift::Free => u64::MAX - (1 << 32) + 1,
        }
    }
}
