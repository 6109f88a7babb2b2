/// What a mutator did that counts.
#[derive(Clone, Copy, Debug, PartialEq, Eq)]
pub enum Entry {
    /// The field with this place became the word `new`, where the word `old` stood.
    Put { place: u32, new: u64, old: u64 },
    /// An object was born in this slot, which is (or is not) a leaf.
    Born { slot: u16, leaf: bool },
}
