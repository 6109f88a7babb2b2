ghost use Rattle.std.specs.Prelude.{◌≡◌, ℕ, ◌<◌, ◌≤◌, ◌+◌, ◌*◌, ◌^◌};
ghost use Rattle.rec_word.specs.Word.{packed, target_of, stamp_of, IsStamp, IsTarget};

use crate::Stamp;

const TARGET_BITS: u64 = 1 << 16;

const EPOCH_UNIT: u64 = 1 << 16;

/// The last epoch that a word can hold.
pub const LAST_EPOCH: u32 = 16_777_215;

const EPOCHS: u64 = 1 << 24;

const WRITER_UNIT: u64 = 1 << 40;

const WRITERS: u64 = 1 << 6;

const INDEX_UNIT: u64 = 1 << 46;

/// The field word with this target and this stamp.
pub fn pack(target: Option<u16>, stamp: Stamp) -> u64
    requires target { IsTarget target }
    requires stamp { IsStamp stamp }

    ensures word { result ≡ packed target stamp }
    ensures gives_target { target_of result ≡ target }
    ensures gives_stamp { stamp_of result ≡ stamp }

    // No other word of 64 bits has these parts.
    ensures only { (word : ℕ) → word < 2 ^ 64 → target_of word ≡ target → stamp_of word ≡ stamp → word ≡ result }
{
    let low = match target {
        None => 0,
        Some(slot) => u64::from(slot) + 1,
    };
    low + u64::from(stamp.epoch) * EPOCH_UNIT
        + u64::from(stamp.writer) * WRITER_UNIT
        + u64::from(stamp.index) * INDEX_UNIT
}

/// The slot that a field word leads to, or `None` for null. It is below 65,535.
pub fn target(word: u64) -> Option<u16>
    ensures target { result ≡ target_of word }
    ensures in_range { IsTarget result }
{
    let low = word % TARGET_BITS;
    if low == 0 {
        None
    } else {
        Some((low - 1) as u16)
    }
}

/// The stamp in a field word.
pub fn stamp(word: u64) -> Stamp
    ensures stamp { result ≡ stamp_of word }
    ensures in_range { IsStamp result }
{
    Stamp {
        writer: (word / WRITER_UNIT % WRITERS) as u8,
        epoch: (word / EPOCH_UNIT % EPOCHS) as u32,
        index: (word / INDEX_UNIT) as u32,
    }
}
