ghost use Rattle.std.specs.Prelude.{◌≡◌, ◌+◌, ◌<◌, ◌^◌};
ghost use Rattle.rec_core.specs.Row.{index_at, IsLayout};

use rec_word::Cell;

/// Where the shared words of a heap stand in its row: the fields by place, a header for each slot, the epoch word, the freed
/// word, and a crossing word for each mutator.
#[derive(Clone, Copy, Debug, PartialEq, Eq)]
pub struct Layout {
    /// How many fields all slots have together.
    pub places: usize,
    /// How many slots there are.
    pub slots: usize,
    /// Where the freed word stands: just behind the epoch word, and a mutator's crossing word as far behind it as its number says.
    pub freed: usize,
}

impl Layout {
    /// The layout of a row with so many fields and headers.
    pub fn new(places: usize, slots: usize) -> Layout
        requires { places + slots + 1 < 2 ^ 63 }
        ensures parts { (result.places ≡ places) × (result.slots ≡ slots) }
        ensures layout { IsLayout result }
    {
        Layout {
            places,
            slots,
            freed: places + slots + 1,
        }
    }

    /// Where a word stands.
    #[inline(always)]
    pub fn index(self, cell: Cell) -> usize
        requires layout { IsLayout self }
        requires fits { self.freed < 2 ^ 63 }
        ensures { result ≡ index_at self.places self.slots cell }
    {
        match cell {
            Cell::Field(place) => place as usize,
            Cell::Header(slot) => self.places + usize::from(slot),
            Cell::Epoch => self.freed - 1,
            Cell::Freed => self.freed,
            Cell::Crossing(t) => self.freed + usize::from(t),
        }
    }
}
