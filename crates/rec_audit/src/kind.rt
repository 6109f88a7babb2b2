//! The kinds of lines that a journal has, and the words that they begin with.

ghost use Rattle.std.specs.Prelude.{◌≡◌};
ghost use Rattle.rec_audit.specs.Lines.{name_of};

/// What a line of a journal tells.
#[derive(Clone, Copy, Debug, PartialEq, Eq)]
pub enum Kind {
    /// That this is a journal, and its version.
    Title,
    /// How large the heap is, and the first block's number.
    Heap,
    /// That a block begins.
    Epoch,
    /// That a mutator put a word into a field.
    Put,
    /// That a mutator made an object.
    Born,
    /// What a mutator's registers held as it left the epoch.
    Snap,
    /// That the collector took a word out of a field.
    Out,
    /// That the collector gave up a set of slots.
    Free,
    /// That the collector swept a slot.
    Sweep,
    /// That a block ends.
    End,
}

impl Kind {
    /// What a line of this kind begins with.
    pub fn name(self) -> &'static [u8]
        ensures { result.now ≡ name_of self }
    {
        match self {
            Kind::Title => b"recycler audit",
            Kind::Heap => b"heap",
            Kind::Epoch => b"epoch",
            Kind::Put => b"put",
            Kind::Born => b"born",
            Kind::Snap => b"snap",
            Kind::Out => b"out",
            Kind::Free => b"free",
            Kind::Sweep => b"sweep",
            Kind::End => b"end",
        }
    }
}
