//! The pieces of a line, each read from the front.

ghost use Rattle.std.specs.Prelude.{◌≡◌, ◌≢◌, ℕ, ◌+◌, ◌<◌, ◌≤◌, ◌^◌, ◌++◌, [], ◌∷◌, List, Option, IfSome, IfNone, MatchOption, length, slice_index};
ghost use Rattle.std.specs.Fmt.{decimal};
ghost use Rattle.rec_io.specs.Text.{EndsNumeral};
ghost use Rattle.rec_image.specs.Image.{IsOneOf, word as word_of};

use rec_io::behind_byte;

/// What is behind this piece at the front.
#[inline(always)]
pub(crate) fn behind<'b>(piece: &[u8], bytes: &'b [u8]) -> Option<&'b [u8]>
    ensures { MatchOption result ((t : List ℕ) → bytes.now ≢ piece.now ++ t)
        (λ rest. bytes.now ≡ piece.now ++ rest.now) }
{
    bytes.strip_prefix(piece)
}

/// A numeral of 32 bits at the front, and what is behind it, which begins with no digit.
#[inline(always)]
pub(crate) fn numeral(bytes: &[u8]) -> Option<(u32, &[u8])>
    ensures found { IfSome result (λ x. (bytes.now ≡ decimal x.0 ++ x.1.now) × (x.0 < 2 ^ 32) × EndsNumeral x.1.now) }
    ensures none { IfNone result ((n : ℕ) (t : List ℕ) → n < 2 ^ 32 → EndsNumeral t → bytes.now ≢ decimal n ++ t) }
{
    let Some((number, rest)) = rec_io::numeral(u64::from(u32::MAX), bytes) else {
        return None;
    };
    Some((number as u32, rest))
}

/// A number from 1 to the greatest one at the front, with this byte behind it, and what is behind that.
fn size(most: u32, end: u8, bytes: &[u8]) -> Option<(u32, &[u8])>
    requires { end < 48 }
    ensures found { IfSome result (λ x. (bytes.now ≡ decimal x.0 ++ end ∷ x.1.now) × (1 ≤ x.0) × (x.0 ≤ most)) }
    ensures only { MatchOption result
        ((n : ℕ) (t : List ℕ) → 1 ≤ n → n ≤ most → bytes.now ≢ decimal n ++ end ∷ t)
        (λ x. (n : ℕ) (t : List ℕ) → 1 ≤ n → n ≤ most → bytes.now ≡ decimal n ++ end ∷ t → (n ≡ x.0) × (t ≡ x.1.now)) }
{
    let (number, rest) = numeral(bytes)?;
    let rest = behind_byte(end, rest)?;
    if number == 0 {
        return None;
    }
    if number > most {
        return None;
    }
    Some((number, rest))
}

/// Two such numbers with a blank between them at the front, with this byte behind them, and what is behind that.
pub(crate) fn two_sizes(most: (u32, u32), end: u8, bytes: &[u8]) -> Option<(u32, u32, &[u8])>
    requires { end < 48 }
    ensures found { IfSome result (λ x. bytes.now ≡ decimal x.0 ++ 32 ∷ (decimal x.1 ++ end ∷ x.2.now)) }
    ensures sized { IfSome result (λ x. (1 ≤ x.0) × (x.0 ≤ most.0) × (1 ≤ x.1) × (x.1 ≤ most.1)) }
    ensures only { MatchOption result
        ((m n : ℕ) (t : List ℕ) → 1 ≤ m → m ≤ most.0 → 1 ≤ n → n ≤ most.1 → bytes.now ≢ decimal m ++ 32 ∷ (decimal n ++ end ∷ t))
        (λ x. (m n : ℕ) (t : List ℕ) → 1 ≤ m → m ≤ most.0 → 1 ≤ n → n ≤ most.1 → bytes.now ≡ decimal m ++ 32 ∷ (decimal n ++ end ∷ t)
        → (m ≡ x.0) × (n ≡ x.1) × (t ≡ x.2.now)) }
{
    let (first, rest) = size(most.0, b' ', bytes)?;
    let (second, rest) = size(most.1, end, rest)?;
    Some((first, second, rest))
}

/// What a field or register leads to at the front, where it is null or an object that the heap has room for, and what is
/// behind it. Objects are numbered from 0 here.
#[inline(always)]
pub(crate) fn word(slots: u32, bytes: &[u8]) -> Option<(Option<u16>, &[u8])>
    requires { slots ≤ 65535 }
    ensures found { IfSome result (λ x. (bytes.now ≡ word_of x.0 ++ x.1.now) × IsOneOf slots x.0) }
    ensures only { MatchOption result
        ((x : Option ℕ) (t : List ℕ) → IsOneOf slots x → EndsNumeral t → bytes.now ≢ word_of x ++ t)
        (λ found. (x : Option ℕ) (t : List ℕ) → IsOneOf slots x → EndsNumeral t → bytes.now ≡ word_of x ++ t
        → (x ≡ found.0) × (t ≡ found.1.now)) }
{
    match bytes {
        [b' ', b'-', rest @ ..] => Some((None, rest)),
        [b' ', b'#', rest @ ..] => numbered(slots, rest),
        _ => None,
    }
}

/// An object's number at the front, and what is behind it.
#[inline(always)]
fn numbered(slots: u32, bytes: &[u8]) -> Option<(Option<u16>, &[u8])>
    requires { slots ≤ 65535 }
    ensures found { IfSome result (λ x. (32 ∷ 35 ∷ bytes.now ≡ word_of x.0 ++ x.1.now) × IsOneOf slots x.0) }
    ensures only { MatchOption result
        ((n : ℕ) (t : List ℕ) → n < slots → EndsNumeral t → bytes.now ≢ decimal (n + 1) ++ t)
        (λ found. (x : Option ℕ) (t : List ℕ) → IsOneOf slots x → EndsNumeral t → 32 ∷ 35 ∷ bytes.now ≡ word_of x ++ t
        → (x ≡ found.0) × (t ≡ found.1.now)) }
{
    let (number, rest) = numeral(bytes)?;
    if number == 0 {
        return None;
    }
    if number > slots {
        return None;
    }
    Some((Some((number - 1) as u16), rest))
}
