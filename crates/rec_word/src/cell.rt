/// One shared word of a heap. A place numbers a field, a slot a header, a mutator's number its crossing word; the epoch word and
/// the freed word are one each.
#[derive(Clone, Copy, Debug, PartialEq, Eq)]
pub enum Cell {
    /// The field with this place.
    Field(u32),
    /// The header of this slot.
    Header(u16),
    /// The epoch word, the requested epoch.
    Epoch,
    /// The freed word, which is odd exactly during a sweep.
    Freed,
    /// The crossing word of this mutator.
    Crossing(u8),
}
