//! The lines of a report.

ghost use Rattle.std.specs.Prelude.{◌≡◌, ◌-◌, ◌++◌, false, map, slice_index_or, IfOk, OnOk, string_bytes};
ghost use Rattle.rec_word.specs.Word.{target_of};
ghost use Rattle.rec_report.specs.Summary.{answers_line, collections_line, no_field_words, not_yet_words, objects_line, sizes_line};
ghost use Rattle.rec_report.specs.Text.{field_number, field_word, field_words, line_feed, live_line, row_head as head_of, row_line, totals_line, trace_line};

use crate::tally::PLACES;
use rec_word::target;
use rec_world::Numbering;
use std::alloc::{AllocError as NoMemory, Global};
use std::fmt::Write;

/// How many objects are live.
pub(super) fn live(alloc: Global, live: usize) -> Result<String, NoMemory>
    ensures { IfOk result (λ line. string_bytes line ≡ live_line live) }
{
    format!(in alloc; "live {live}\n")
}

/// The live object with this number and this true count: `words` are those of its fields.
pub(super) fn row(
    alloc: Global,
    number: usize,
    leaf: bool,
    label: u32,
    count: u64,
    words: &[u64],
    numbering: &Numbering,
) -> Result<String, NoMemory>
    ensures { IfOk result (λ line. string_bytes line ≡ row_line number (record { label = label; leaf = leaf; count = count; fields = map (λ word. field_number numbering.now.list (target_of word)) words.now })) }
{
    let mut text = row_head(alloc, number, leaf, label, count)?;
    if !leaf {
        push_fields(&mut text, words, numbering)?;
    }
    text.push('\n')?;
    Ok(text)
}

/// Births, refusals, and how many objects are live no more.
pub(super) fn totals(alloc: Global, made: u64, refused: u64, live: u64) -> Result<String, NoMemory>
    ensures { IfOk result (λ line. string_bytes line ≡ totals_line made refused live) }
{
    let freed = freed(made, live);
    format!(in alloc; "made {made} refused {refused} freed {freed}\n")
}

/// How many mutators there are, and how many commands they were answered.
pub(super) fn sizes(alloc: Global, mutators: usize, commands: u64) -> Result<String, NoMemory>
    ensures { IfOk result (λ line. string_bytes line ≡ sizes_line mutators commands) }
{
    format!(in alloc; "mutators {mutators} commands {commands}\n")
}

/// How many answers there are of each kind, by their places, to a script of this version.
pub(super) fn answers(
    alloc: Global,
    version: u32,
    counts: &[u64; PLACES],
) -> Result<String, NoMemory>
    ensures { IfOk result (λ line. string_bytes line ≡ answers_line version (λ at. slice_index_or counts.now at 0)) }
{
    let mut text = String::new(alloc);
    push_answers(&mut text, version, counts)?;
    Ok(text)
}

// Adds the line of the answers, piece by piece.
fn push_answers(text: &mut String, version: u32, counts: &[u64; PLACES]) -> Result<(), NoMemory>
    ensures { OnOk result (string_bytes text.new ≡ string_bytes text.old ++ answers_line version (λ at. slice_index_or counts.now at 0)) }
{
    let [
        done,
        null,
        object,
        value,
        yes,
        no,
        none,
        full,
        busy,
        leaf,
        early,
    ] = *counts;
    write!(text, "done {done} null {null} object {object}")?;
    write!(text, " value {value} yes {yes} no {no}")?;
    write!(text, " none {none} full {full} busy {busy}")?;
    end_answers(text, version, leaf, early)?;
    Ok(())
}

/// Adds the end of that line: from version 2 on it tells how many puts found a leaf, and from version 3 on how many mutators
/// couldn't leave yet.
fn end_answers(text: &mut String, version: u32, no_field: u64, not_yet: u64) -> Result<(), NoMemory>
    ensures { OnOk result (string_bytes text.new
        ≡ string_bytes text.old ++ (no_field_words version no_field ++ not_yet_words version not_yet ++ line_feed)) }
{
    if version >= 3 {
        writeln!(text, " nofield {no_field} notyet {not_yet}")
    } else if version >= 2 {
        writeln!(text, " nofield {no_field}")
    } else {
        text.push('\n')
    }
}

/// Live objects, births, refusals, and how many objects are live no more.
pub(super) fn objects(alloc: Global, live: u64, made: u64, refused: u64) -> Result<String, NoMemory>
    ensures { IfOk result (λ line. string_bytes line ≡ objects_line live made refused) }
{
    let freed = freed(made, live);
    format!(in alloc; "live {live} made {made} refused {refused} freed {freed}\n")
}

/// Collections, and what became of the sets that they tested.
pub(super) fn collections(
    alloc: Global,
    collections: u32,
    cycles: u64,
    delta: u64,
    sigma: u64,
) -> Result<String, NoMemory>
    ensures { IfOk result (λ line. string_bytes line ≡ collections_line collections cycles delta sigma) }
{
    format!(in alloc; "epochs {collections} cycles {cycles} delta {delta} sigma {sigma}\n")
}

/// How many slots a trace lists, and how many hold objects before settling and after it.
pub(super) fn trace(
    alloc: Global,
    traced: usize,
    before: u32,
    after: u32,
) -> Result<String, NoMemory>
    ensures { IfOk result (λ line. string_bytes line ≡ trace_line traced before after) }
{
    format!(in alloc; "trace {traced} before {before} after {after}\n")
}

/// How many objects are live no more.
fn freed(made: u64, live: u64) -> u64
    ensures { result ≡ made - live }
{
    made.saturating_sub(live)
}

/// The line of a live object without its fields.
fn row_head(
    alloc: Global,
    number: usize,
    leaf: bool,
    label: u32,
    count: u64,
) -> Result<String, NoMemory>
    ensures { IfOk result (λ text. string_bytes text ≡ head_of number leaf label count) }
{
    if leaf {
        format!(in alloc; "#{number} leaf {label} count {count}")
    } else {
        format!(in alloc; "#{number} label {label} count {count}")
    }
}

/// The number of the slot that a field's word leads to.
fn number_of_field(numbering: &Numbering, word: u64) -> Option<u16>
    ensures { result ≡ field_number numbering.now.list (target_of word) }
{
    numbering.number(target(word)?)
}

/// Adds what the fields with these words lead to.
fn push_fields(text: &mut String, words: &[u64], numbering: &Numbering) -> Result<(), NoMemory>
    ensures { OnOk result (string_bytes text.new ≡ string_bytes text.old ++ field_words false (map (λ word. field_number numbering.now.list (target_of word)) words.now)) }
{
    text.push_str(" fields")?;
    for word in words {
        push_field(text, number_of_field(numbering, *word))?;
    }
    Ok(())
}

/// Adds what a field leads to, behind a space.
fn push_field(text: &mut String, number: Option<u16>) -> Result<(), NoMemory>
    ensures { OnOk result (string_bytes text.new ≡ string_bytes text.old ++ field_word number) }
{
    match number {
        None => text.push_str(" -"),
        Some(number) => write!(text, " #{number}"),
    }
}
