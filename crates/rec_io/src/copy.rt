//! Copying into a buffer.
ghost use Rattle.std.specs.Prelude.{◌≡◌, drop, length, min, take};

// Copies as many bytes of `from` as `into` has place for, and returns their number.
pub(crate) fn copy_front(from: &[u8], into: &mut [u8]) -> usize
    ensures count { result ≡ min (length into.old) (length from.now) }
    ensures bytes { take result into.new ≡ take result from.now }
    ensures behind { drop result into.new ≡ drop result into.old }
{
    let count = into.len().min(from.len());
    into[..count].copy_from_slice(&from[..count]);
    count
}
