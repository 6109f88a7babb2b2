ghost use Rattle.std.specs.Prelude.{◌≡◌, ℕ, ◌<◌, ◌^◌};
ghost use Rattle.rec_word.specs.Wide.{wide_word, wide_target_of, value_of, IsWideTarget};

const VALUE_UNIT: u64 = 1 << 32;

/// The field word of a wide heap with this target, and this value beside it.
pub fn pack_wide(target: Option<u32>, value: u32) -> u64
    requires { IsWideTarget target }

    ensures word { result ≡ wide_word target value }
    ensures gives_target { wide_target_of result ≡ target }
    ensures gives_value { value_of result ≡ value }

    // No other word of 64 bits has these parts.
    ensures only { (word : ℕ) → word < 2 ^ 64 → wide_target_of word ≡ target → value_of word ≡ value → word ≡ result }
{
    let low = match target {
        None => 0,
        Some(slot) => u64::from(slot) + 1,
    };
    low + u64::from(value) * VALUE_UNIT
}

/// The slot to which a field word of a wide heap leads, or `None` for null.
pub fn wide_target(word: u64) -> Option<u32>
    ensures target { result ≡ wide_target_of word }
    ensures in_range { IsWideTarget result }
{
    let low = word % VALUE_UNIT;
    if low == 0 {
        None
    } else {
        Some((low - 1) as u32)
    }
}

/// The value in a field word of a wide heap.
pub fn value(word: u64) -> u32
    ensures { result ≡ value_of word }
{
    (word / VALUE_UNIT) as u32
}
