ghost use Rattle.std.specs.Prelude.{◌≡◌, ◌^◌, ◌<◌};
ghost use Rattle.rec_word.specs.Mailbox.{crossing_word, crossing_with, epoch_in, holds, is_parked, low};

/// What the bit of a crossing word is worth that says that the present mailbox isn't home with a spare.
const HELD: u64 = 1 << 32;

/// What the bit of a crossing word is worth that says that the mutator is parked.
const PARKED: u64 = 1 << 33;

/// Where the mailbox of a mutator is, and what is in it.
#[derive(Clone, Copy, Debug, PartialEq, Eq)]
pub enum Mailbox {
    /// Home, with a spare buffer.
    Spare,
    /// With its mutator, which is crossing.
    WithMutator,
    /// Home, with what its mutator retired.
    Retired,
    /// With the collector.
    WithCollector,
}

impl Mailbox {
    ghost use Rattle.rec_word.specs.Mailbox.{mailbox_bits, mailbox_of};

    /// Where a crossing word says that the mailbox is.
    #[inline(always)]
    pub fn of(crossing: u64) -> Mailbox
        ensures { result ≡ mailbox_of crossing }
    {
        match crossing % 4 {
            0 => Mailbox::Spare,
            1 => Mailbox::WithMutator,
            2 => Mailbox::Retired,
            _ => Mailbox::WithCollector,
        }
    }

    // The two bits of a crossing word that say so.
    #[inline(always)]
    fn bits(self) -> u8
        ensures { result ≡ mailbox_bits self }
    {
        match self {
            Mailbox::Spare => 0,
            Mailbox::WithMutator => 1,
            Mailbox::Retired => 2,
            Mailbox::WithCollector => 3,
        }
    }
}

/// The crossing word that says that its mutator is in this epoch, or crossing into it, and where its mailbox is.
#[inline(always)]
pub fn crossing(epoch: u32, mailbox: Mailbox) -> u64
    ensures { result ≡ crossing_word epoch mailbox }
{
    u64::from(epoch) * 4 + u64::from(mailbox.bits())
}

/// The crossing word of a mutator in this epoch whose past mailbox is there. `held`: its present mailbox, for the log of this
/// epoch, isn't home with a spare; the mutator holds it or left its deposit there. `parked`: the mutator is parked.
#[inline(always)]
pub fn crossing_of(epoch: u32, mailbox: Mailbox, held: bool, parked: bool) -> u64
    ensures { result ≡ crossing_with epoch mailbox held parked }
{
    let held = if held { HELD } else { 0 };
    let parked = if parked { PARKED } else { 0 };
    crossing(epoch, mailbox) + held + parked
}

/// A crossing word without the two bits of the present mailbox.
#[inline(always)]
pub fn past_part(crossing: u64) -> u64
    ensures part { result ≡ low crossing }
    ensures in_range { result < 2 ^ 32 }
{
    crossing % HELD
}

/// The epoch that a crossing word names.
#[inline(always)]
pub fn named_epoch(crossing: u64) -> u32
    ensures epoch { result ≡ epoch_in crossing }
    ensures in_range { result < 2 ^ 30 }
{
    (past_part(crossing) / 4) as u32
}

/// Whether a crossing word says that the present mailbox isn't home with a spare.
#[inline(always)]
pub fn is_held(crossing: u64) -> bool
    ensures { result ≡ holds crossing }
{
    crossing / HELD % 2 == 1
}

/// Whether a crossing word says that its mutator is parked.
#[inline(always)]
pub fn says_parked(crossing: u64) -> bool
    ensures { result ≡ is_parked crossing }
{
    crossing / PARKED % 2 == 1
}
