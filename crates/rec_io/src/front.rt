//! Reading what stands at the front of a text: a numeral, or a byte.

ghost use Rattle.std.specs.Prelude.{◌≡◌, ◌≢◌, ℕ, ◌<◌, ◌≤◌, ◌++◌, ◌∷◌, List, IfSome, IfNone, MatchOption, length, slice_index};
ghost use Rattle.std.specs.Fmt.{decimal};
ghost use Rattle.rec_io.specs.Text.{EndsNumeral};

/// A numeral at the front whose number is at most this one, and what is behind it. A numeral has no leading zeros.
#[inline(always)]
pub fn numeral(most: u64, bytes: &[u8]) -> Option<(u64, &[u8])>
    ensures found { IfSome result (λ x. bytes.now ≡ decimal x.0 ++ x.1.now) }
    ensures within { IfSome result (λ x. x.0 ≤ most) }
    ensures apart { IfSome result (λ x. EndsNumeral x.1.now) }
    ensures none { IfNone result ((n : ℕ) (t : List ℕ) → n ≤ most → EndsNumeral t → bytes.now ≢ decimal n ++ t) }
{
    let [first, rest @ ..] = bytes else {
        return None;
    };
    if *first != b'0' {
        return long_numeral(most, bytes);
    }
    if let [second, ..] = rest {
        if second.is_ascii_digit() {
            return None;
        }
    }
    Some((0, rest))
}

/// The same where the first digit isn't 0.
#[inline(always)]
fn long_numeral(most: u64, bytes: &[u8]) -> Option<(u64, &[u8])>
    requires some { 0 < length bytes.now }
    requires front { slice_index bytes.now 0 ≢ 48 }
    ensures found { IfSome result (λ x. bytes.now ≡ decimal x.0 ++ x.1.now) }
    ensures within { IfSome result (λ x. x.0 ≤ most) }
    ensures apart { IfSome result (λ x. EndsNumeral x.1.now) }
    ensures none { IfNone result ((n : ℕ) (t : List ℕ) → n ≤ most → EndsNumeral t → bytes.now ≢ decimal n ++ t) }
{
    let mut value: u64 = 0;
    for (i, byte) in bytes.iter().enumerate() {
        if !byte.is_ascii_digit() {
            return if i == 0 {
                None
            } else {
                Some((value, &bytes[i..]))
            };
        }
        if value > most / 10 {
            return None;
        }
        let tens = 10 * value;
        let digit = u64::from(*byte - b'0');
        if digit > most - tens {
            return None;
        }
        value = tens + digit;
    }
    Some((value, &bytes[bytes.len()..]))
}

/// What is behind this byte at the front.
#[inline(always)]
pub fn behind_byte(first: u8, bytes: &[u8]) -> Option<&[u8]>
    ensures { MatchOption result ((t : List ℕ) → bytes.now ≢ first ∷ t) (λ rest. bytes.now ≡ first ∷ rest.now) }
{
    match bytes {
        [byte, rest @ ..] if *byte == first => Some(rest),
        _ => None,
    }
}
