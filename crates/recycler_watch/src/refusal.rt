//! Why a script is none, as a person reads it: the place, a sentence, and the line with a mark under the word.

use rec_script::Kind;
use std::alloc::{AllocError as NoMemory, Global};
use std::fmt::Write;

/// A refusal of the text in a file, at this line; line 0 is the text as a whole.
pub fn refusal(
    alloc: Global,
    file: &str,
    bytes: &[u8],
    line: u32,
    kind: Kind,
) -> Result<String, NoMemory> {
    match line.checked_sub(1) {
        None => format!(in alloc; "{file}: {kind}: {}", sentence_on(kind)),
        Some(index) => {
            let spelled = nth_line(bytes, index as usize);
            let word = wrong_word(spelled, registers_of(bytes), kind);
            let mut text = reason(alloc, file, line, word.0, kind)?;
            add_marked(&mut text, line, spelled, word)?;
            Ok(text)
        }
    }
}

// The line of a text behind so many others.
fn nth_line(bytes: &[u8], index: usize) -> &[u8] {
    let mut lines = bytes.split(|byte| *byte == b'\n');
    let spelled = lines.nth(index).unwrap_or(&[]);
    spelled.strip_suffix(b"\r").unwrap_or(spelled)
}

// The place of a word behind so many bytes, and what is wrong with it.
fn reason(
    alloc: Global,
    file: &str,
    line: u32,
    column: usize,
    kind: Kind,
) -> Result<String, NoMemory> {
    let (place, sentence) = (column.saturating_add(1), sentence_on(kind));
    format!(in alloc; "{file}:{line}:{place}: {kind}: {sentence}\n")
}

// A hundred bytes around a word, and a line with a mark under the word.
fn add_marked(
    text: &mut String,
    number: u32,
    line: &[u8],
    word: (usize, &str),
) -> Result<(), NoMemory> {
    let (column, end) = (word.0, word.0.saturating_add(word.1.len()));
    let before = column.saturating_sub(50);
    write!(text, "{number:>5} | ")?;
    add_shown(text, line, before)?;
    text.push_str("\n      | ")?;
    add_mark(text, line, before, column, end)
}

// What isn't printable ASCII could be wider than a byte, or do anything, and is a `?`.
fn add_shown(text: &mut String, line: &[u8], before: usize) -> Result<(), NoMemory> {
    for byte in line.iter().skip(before).take(100) {
        text.push(shown(*byte))?;
    }
    Ok(())
}

fn shown(byte: u8) -> char {
    let is_shown = byte.is_ascii_graphic() || byte == b' ' || byte == b'\t';
    if is_shown { char::from(byte) } else { '?' }
}

// Tabs are in both lines, so that the mark stands under the word wherever a terminal has its stops.
fn add_mark(
    text: &mut String,
    line: &[u8],
    before: usize,
    column: usize,
    end: usize,
) -> Result<(), NoMemory> {
    let marked = line.get(before..end.min(line.len())).unwrap_or(&[]);
    if marked.is_empty() {
        return text.push('^');
    }
    for (index, byte) in marked.iter().enumerate().take(100) {
        let is_before = before.saturating_add(index) < column;
        text.push(if is_before { blank(*byte) } else { '^' })?;
    }
    Ok(())
}

// What stands in a line of marks for a byte that isn't marked.
fn blank(byte: u8) -> char {
    if byte == b'\t' { '\t' } else { ' ' }
}

fn sentence_on(kind: Kind) -> &'static str {
    match kind {
        Kind::TooLong => "a script has 16,777,216 bytes at most; split it, or leave commands out",
        Kind::NotUtf8 => "this line isn't UTF-8",
        Kind::NoHeader =>
            "the first line that counts has to be `recycler 1`, `recycler 2` or `recycler 3`",
        Kind::BadHeap =>
            "the second one has to be `heap`, 1 to 65535 slots, 1 to 16 fields, 1 to 64 registers",
        Kind::NoMutator => "the third line that counts has to be `mutator`",
        Kind::BadCommand => {
            "a line is one of `mutator`, `new R LABEL`, `null R`, `copy R R`, `get R R FIELD`, `put R FIELD R`, `value R`, `same R R`; from version 2 on also `leaf R LABEL`, and from version 3 on `leave`, behind which its mutator has no more"
        }
        Kind::TooManyMutators => "a script has eight mutators at most, and 63 in version 3",
        Kind::TooManyCommands => "a mutator has 200,000 commands at most",
        Kind::BadNumber => "this is no number up to 4294967295 without leading zeros",
        Kind::Register => "there is no such register; the heap's line says how many, from 0",
        Kind::Field => "there is no such field; the heap's line says how many, from 0",
        Kind::BadImage => "no image goes on with this line",
    }
}

// How many bytes stand before a word of a line, and the word. The index is how many words do.
fn nth_word(line: &[u8], index: usize) -> (usize, &str) {
    let (mut column, mut before) = (0usize, 0usize);
    for word in line.split(|byte| *byte == b' ' || *byte == b'\t') {
        if !word.is_empty() && before == index {
            return (column, str::from_utf8(word).unwrap_or("?"));
        }
        before = before.saturating_add(usize::from(!word.is_empty()));
        column = column.saturating_add(word.len()).saturating_add(1);
    }
    (0, "")
}

// The word that a kind speaks of: the first operand that it fits, the first byte that isn't UTF-8, or else the first word.
fn wrong_word(line: &[u8], registers: u32, kind: Kind) -> (usize, &str) {
    match kind {
        Kind::NotUtf8 => (valid_up_to(line), "?"),
        Kind::BadNumber => nth_word(line, bad_number(line)),
        Kind::Register => nth_word(line, bad_register(line, registers)),
        Kind::Field => nth_word(line, if is_put(line) { 2 } else { 3 }),
        _ => nth_word(line, 0),
    }
}

// How many bytes stand before the first one that isn't UTF-8.
fn valid_up_to(line: &[u8]) -> usize {
    let error = str::from_utf8(line).err();
    error.map_or(0, |error| error.valid_up_to())
}

// Which word is the first operand that is no number.
fn bad_number(line: &[u8]) -> usize {
    if !is_numeral(nth_word(line, 1).1) {
        return 1;
    }
    if is_numeral(nth_word(line, 2).1) {
        3
    } else {
        2
    }
}

// Which word is the first operand that names no register.
fn bad_register(line: &[u8], registers: u32) -> usize {
    let first = nth_word(line, 1).1.parse::<u32>();
    if !first.is_ok_and(|n| n < registers) {
        return 1;
    }
    if is_put(line) { 3 } else { 2 }
}

// Whether a line puts: then its third word is a field, and its last one a register.
fn is_put(line: &[u8]) -> bool {
    nth_word(line, 0).1 == "put"
}

// A numeral is spelled by digits alone, without leading zeros. `parse` takes such zeros, and a sign.
fn is_numeral(word: &str) -> bool {
    word == "0" || (!word.starts_with(['0', '+']) && word.parse::<u32>().is_ok())
}

// How many registers the heap's line says.
fn registers_of(bytes: &[u8]) -> u32 {
    let mut lines = bytes.split(|byte| *byte == b'\n');
    let sizes = lines.find_map(|line| {
        let line = str::from_utf8(line).unwrap_or("");
        line.trim_start().strip_prefix("heap")
    });
    let word = sizes.and_then(|sizes| sizes.split_whitespace().nth(2));
    word.and_then(|word| word.parse().ok()).unwrap_or(0)
}
