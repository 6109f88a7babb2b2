ghost use Rattle.std.specs.Prelude.{◌≡◌, ℕ};
ghost use Rattle.rec_word.specs.Header.{header_word, is_leaf, label_of, IsHeaderOf, IsTakenHeader};

// The bit that a leaf's header has.
const LEAF_BIT: u64 = 1 << 63;

/// What the header of a taken slot tells.
#[derive(Clone, Copy)]
pub struct Header {
    /// The object's label.
    pub label: u32,
    /// Whether the object is a leaf: its fields are null for good.
    pub leaf: bool,
}

impl Header {
    /// The word of this header.
    #[inline(always)]
    pub fn pack(self) -> u64
        ensures word { result ≡ header_word self.leaf self.label }
        ensures taken { IsTakenHeader result }
        ensures parts { IsHeaderOf self.leaf self.label result }

        // No other header has these parts.
        ensures only { (word : ℕ) → IsTakenHeader word → label_of word ≡ self.label → is_leaf word ≡ self.leaf → word ≡ result }
    {
        let low = u64::from(self.label) + 1;
        if self.leaf { low + LEAF_BIT } else { low }
    }

    /// What this word tells as the header of a taken slot.
    #[inline(always)]
    pub fn unpack(word: u64) -> Header
        requires { IsTakenHeader word }

        ensures label { result.label ≡ label_of word }
        ensures leaf { result.leaf ≡ is_leaf word }
    {
        Header {
            label: (word % LEAF_BIT - 1) as u32,
            leaf: word >= LEAF_BIT,
        }
    }
}
