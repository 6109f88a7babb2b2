//! The lines of a text and the words of a line, each read from the front.

ghost use Rattle.std.specs.Prelude.{◌≡◌, ◌≢◌, ◌↔◌, ℕ, ◌<◌, ◌≤◌, List, [], ◌∷◌, true, false, length, drop, slice_index, IfSome, IfNone, IsTrue};
ghost use Rattle.rec_script.specs.Lines.{is_blank, is_end, without_cr, lines, words};

fn is_blank(byte: u8) -> bool
    ensures { result ≡ is_blank byte }
{
    byte == b' ' || byte == b'\t'
}

/// How many bytes stand before the first LF.
fn line_length(bytes: &[u8]) -> usize
    ensures within { result ≤ length bytes.now }
    ensures before { (k : ℕ) → k < result → is_end (slice_index bytes.now k) ≡ false }
    ensures behind { result < length bytes.now → is_end (slice_index bytes.now result) ≡ true }
{
    bytes
        .iter()
        .position(|byte| *byte == b'\n')
        .unwrap_or(bytes.len())
}

/// How many blanks stand at the front.
fn blanks(bytes: &[u8]) -> usize
    ensures within { result ≤ length bytes.now }
    ensures before { (k : ℕ) → k < result → is_blank (slice_index bytes.now k) ≡ true }
    ensures behind { result < length bytes.now → is_blank (slice_index bytes.now result) ≡ false }
{
    bytes
        .iter()
        .position(|byte| !is_blank(*byte))
        .unwrap_or(bytes.len())
}

/// How many bytes stand before the first blank.
fn word_length(bytes: &[u8]) -> usize
    ensures within { result ≤ length bytes.now }
    ensures before { (k : ℕ) → k < result → is_blank (slice_index bytes.now k) ≡ false }
    ensures behind { result < length bytes.now → is_blank (slice_index bytes.now result) ≡ true }
{
    bytes
        .iter()
        .position(|byte| is_blank(*byte))
        .unwrap_or(bytes.len())
}

/// The bytes without the CR that may stand at their end.
fn without_cr(bytes: &[u8]) -> &[u8]
    ensures { result.now ≡ without_cr bytes.now }
{
    let length = bytes.len();
    if length > 0 && bytes[length - 1] == b'\r' {
        &bytes[..length - 1]
    } else {
        bytes
    }
}

/// The first line, and the bytes after it.
pub fn next_line(bytes: &[u8]) -> (&[u8], &[u8])
    requires { 0 < length bytes.now }
    ensures lines { lines bytes.now ≡ result.0.now ∷ lines result.1.now }
    ensures less { length result.1.now < length bytes.now }
{
    let length = line_length(bytes);
    let (line, end) = bytes.split_at(length);
    let line = without_cr(line);
    if end.is_empty() {
        (line, end)
    } else {
        (line, bytes.split_at(length + 1).1)
    }
}

/// The first word of a line, and the bytes after it.
pub fn next_word(line: &[u8]) -> Option<(&[u8], &[u8])>
    ensures none { IfNone result (words line.now ≡ []) }
    ensures some { IfSome result (λ x. words line.now ≡ x.0.now ∷ words x.1.now) }
    ensures letters { IfSome result (λ x. 0 < length x.0.now) }
{
    let (_, rest) = line.split_at(blanks(line));
    if rest.is_empty() {
        return None;
    }
    Some(rest.split_at(word_length(rest)))
}
