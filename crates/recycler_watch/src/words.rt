//! A move in words that a person reads. `#3` is the object in slot 3, and `#3.0` its first field.
//! The words are a function of the move and of what was seen before and behind it (`specs/Sentence`).

ghost use Rattle.std.specs.Prelude.{◌≡◌, ◌++◌, codes, decimal, length, map, not, string_bytes, IfOk, OnOk};
ghost use Rattle.std.specs.List.{flat_map};
ghost use Rattle.rec_report.specs.Text.{answer_word};
ghost use Rattle.rec_word.specs.Word.{target_of};
ghost use Rattle.recycler_watch.specs.Seen.{collector_seen, mutator_seen, seen, slot_seen};
ghost use Rattle.recycler_watch.specs.Sentence.{answer_name, batch_words, birth_words, change_words, changed_slots, changes_words, colour_words, command_words, counts_words, crossed, crossed_before, crosses_words, epoch_then, field_words, is_same_slot, loss_words, more_words, op_words, outcome_words, polls_words, put_words, root_words, sentence, set_words, sets_words, step_words, sweep_words, target_words, turn_words};

use crate::state::{Collector, Mutator, Slot, State, add_field, add_target};
use rec_model::Answer;
use rec_play::Move;
use rec_word::{Op, target};
use rec_world::{Cmd, Told, Turn};
use std::alloc::{AllocError as NoMemory, Global};
use std::fmt::Write;

// How many changed slots a line tells at most; the data have all.
const MOST_TOLD: usize = 6;

/// A command as a script spells it.
pub fn command_text(alloc: Global, cmd: Cmd) -> Result<String, NoMemory>
    ensures { IfOk result (λ text. string_bytes text ≡ command_words cmd) }
{
    match cmd {
        Cmd::New { reg, label } => with_two(alloc, "new", reg, label),
        Cmd::Leaf { reg, label } => with_two(alloc, "leaf", reg, label),
        Cmd::Null { reg } => with_one(alloc, "null", reg),
        Cmd::Copy { dst, src } => with_two(alloc, "copy", dst, u32::from(src)),
        Cmd::Get { dst, src, field } => with_three(alloc, "get", dst, src, field),
        Cmd::Put { src, field, val } => with_three(alloc, "put", src, field, val),
        Cmd::Value { reg } => with_one(alloc, "value", reg),
        Cmd::Same { a, b } => with_two(alloc, "same", a, u32::from(b)),
        Cmd::Leave => format!(in alloc; "leave"),
        Cmd::Park => format!(in alloc; "park"),
        Cmd::Unpark => format!(in alloc; "unpark"),
    }
}

// A command's word with its one operand.
fn with_one(alloc: Global, word: &str, reg: u8) -> Result<String, NoMemory>
    ensures { IfOk result (λ text. string_bytes text ≡ word.now ++ codes " " ++ decimal reg) }
{
    format!(in alloc; "{word} {reg}")
}

// A command's word with its two operands.
fn with_two(alloc: Global, word: &str, reg: u8, operand: u32) -> Result<String, NoMemory>
    ensures { IfOk result (λ text. string_bytes text ≡ word.now ++ codes " " ++ decimal reg ++ codes " " ++ decimal operand) }
{
    format!(in alloc; "{word} {reg} {operand}")
}

// A command's word with its three operands.
fn with_three(alloc: Global, word: &str, a: u8, b: u8, c: u8) -> Result<String, NoMemory>
    ensures { IfOk result (λ text. string_bytes text ≡ word.now ++ codes " " ++ decimal a ++ codes " " ++ decimal b ++ codes " " ++ decimal c) }
{
    format!(in alloc; "{word} {a} {b} {c}")
}

/// An answer as a run's text spells it.
pub fn answer_text(alloc: Global, answer: Answer) -> Result<String, NoMemory>
    ensures { IfOk result (λ text. string_bytes text ≡ answer_word answer) }
{
    let name = answer_name(answer);
    match answer {
        Answer::Value(label) => format!(in alloc; "{name} {label}"),
        Answer::Busy { before, after } => format!(in alloc; "{name} {before} {after}"),
        _ => format!(in alloc; "{name}"),
    }
}

// An answer's word, without the numbers behind it.
fn answer_name(answer: Answer) -> &'static str
    ensures { result.now ≡ answer_name answer }
{
    match answer {
        Answer::Done => "done",
        Answer::Null => "null",
        Answer::Object => "object",
        Answer::Value(_) => "value",
        Answer::Yes => "yes",
        Answer::No => "no",
        Answer::NoObject => "none",
        Answer::Full => "full",
        Answer::Busy { .. } => "busy",
        Answer::NoField => "nofield",
        Answer::NotYet => "notyet",
        Answer::LogFull => "logfull",
    }
}

/// A move, and what it changed, in a sentence.
pub fn says(alloc: Global, made: Move, was: &State, is: &State) -> Result<String, NoMemory>
    ensures { IfOk result (λ text. string_bytes text ≡ sentence made (seen was.now) (seen is.now)) }
{
    let mut text = String::new(alloc);
    add_sentence(&mut text, alloc, made, was, is)?;
    Ok(text)
}

/// A move, and what it changed, in a sentence behind a text.
pub fn add_sentence(
    text: &mut String,
    alloc: Global,
    made: Move,
    was: &State,
    is: &State,
) -> Result<(), NoMemory>
    ensures { OnOk result (string_bytes text.new ≡ string_bytes text.old ++ sentence made (seen was.now) (seen is.now)) }
{
    match made {
        Move::Command { mutator, cmd, told } => {
            let epoch = crossed_before(was.epoch(mutator), is.epoch(mutator), cmd, told.answer);
            add_crossing(text, epoch)?;
            add_answer(text, alloc, cmd, told)?;
            add_outcome(text, mutator, cmd, told, is)
        }
        Move::Step { seen, turn } => {
            add_step(text, seen, is)?;
            add_turn(text, turn)?;
            add_poll(text, crossed(&was.mutators, &is.mutators))?;
            add_sets(text, &was.collector, &is.collector)?;
            add_changes(text, alloc, was, is)
        }
    }
}

// The epoch into which a mutator crossed before its command.
fn add_crossing(text: &mut String, epoch: Option<u32>) -> Result<(), NoMemory>
    ensures { OnOk result (string_bytes text.new ≡ string_bytes text.old ++ crosses_words epoch) }
{
    match epoch {
        None => Ok(()),
        Some(epoch) => write!(text, "crosses into epoch {epoch}; "),
    }
}

// The epoch into which a mutator crossed that was waited for.
fn add_poll(text: &mut String, epoch: Option<u32>) -> Result<(), NoMemory>
    ensures { OnOk result (string_bytes text.new ≡ string_bytes text.old ++ polls_words epoch) }
{
    match epoch {
        None => Ok(()),
        Some(epoch) => write!(text, "; it polls, and crosses into epoch {epoch}"),
    }
}

// A command, and what it was told.
fn add_answer(text: &mut String, alloc: Global, cmd: Cmd, told: Told) -> Result<(), NoMemory>
    ensures { OnOk result (string_bytes text.new ≡ string_bytes text.old ++ (command_words cmd ++ codes ": " ++ answer_word told.answer)) }
{
    let (command, answer) = (command_text(alloc, cmd)?, answer_text(alloc, told.answer)?);
    text.push_str(&command)?;
    text.push_str(": ")?;
    text.push_str(&answer)
}

// What came of a turn of the collector.
fn add_turn(text: &mut String, turn: Turn) -> Result<(), NoMemory>
    ensures { OnOk result (string_bytes text.new ≡ string_bytes text.old ++ turn_words turn) }
{
    match turn {
        Turn::Waiting { .. } => text.push_str(", and waits: it hasn't crossed"),
        Turn::Collected { epoch, freed } => {
            write!(
                text,
                "; epoch {epoch} is collected, {freed} slots were swept"
            )
        }
        Turn::Moved | Turn::EpochsSpent => Ok(()),
    }
}

// The epoch into which a mutator crossed before its command, by the epochs in which it was before this move and is behind it.
fn crossed_before(before: u32, after: u32, cmd: Cmd, answer: Answer) -> Option<u32>
    ensures { result ≡ crossed_before before after cmd answer }
{
    let then = epoch_then(cmd, answer, after);
    if before == then { None } else { Some(then) }
}

// The epoch in which a mutator made its command that is in this one behind it: by leaving it comes into the next one.
fn epoch_then(cmd: Cmd, answer: Answer, after: u32) -> u32
    ensures { result ≡ epoch_then cmd answer after }
{
    match (cmd, answer) {
        (Cmd::Leave, Answer::Done) => after.saturating_sub(1),
        _ => after,
    }
}

// The epoch into which a mutator crossed that was waited for.
fn crossed(was: &[Mutator], is: &[Mutator]) -> Option<u32>
    ensures { result ≡ crossed (map mutator_seen was.now) (map mutator_seen is.now) }
{
    for (index, before) in was.iter().enumerate() {
        let after = is.get(index)?;
        if before.epoch != after.epoch {
            return Some(after.epoch);
        }
    }
    None
}

// What a command of mutator `t` found or left.
fn add_outcome(text: &mut String, t: u8, cmd: Cmd, told: Told, is: &State) -> Result<(), NoMemory>
    ensures { OnOk result (string_bytes text.new ≡ string_bytes text.old ++ outcome_words t cmd told.answer told.saw told.left (seen is.now)) }
{
    match (cmd, told.answer) {
        (Cmd::New { reg, .. } | Cmd::Leaf { reg, .. }, Answer::Done) => {
            add_birth(text, is.register(t, reg))
        }
        (Cmd::Put { src, field, .. }, Answer::Done) => {
            add_put(text, is.register(t, src), field, told)
        }
        (Cmd::Leave, Answer::Done) => text.push_str(", its registers are null now"),
        (Cmd::Leave, Answer::NotYet) => text.push_str(", its mailbox isn't back yet"),
        (_, Answer::Object) => add_target(text, " ", target(told.saw)),
        _ => Ok(()),
    }
}

// The object that was born.
fn add_birth(text: &mut String, born: Option<u16>) -> Result<(), NoMemory>
    ensures { OnOk result (string_bytes text.new ≡ string_bytes text.old ++ birth_words born) }
{
    add_target(text, ", ", born)?;
    text.push_str(" is born")
}

// A field of an object, with what it led to before and does now.
fn add_put(text: &mut String, object: Option<u16>, field: u8, told: Told) -> Result<(), NoMemory>
    ensures { OnOk result (string_bytes text.new ≡ string_bytes text.old ++ put_words object field (target_of told.saw) (target_of told.left)) }
{
    add_target(text, ", ", object)?;
    write!(text, ".{field}")?;
    add_target(text, " was ", target(told.saw))?;
    add_target(text, ", now ", target(told.left))
}

// What the collector did: its operation, the word that it found, and whether it applied the batch.
fn add_step(text: &mut String, seen: Option<(Op, u64)>, is: &State) -> Result<(), NoMemory>
    ensures { OnOk result (string_bytes text.new ≡ string_bytes text.old ++ step_words seen (collector_seen is.now.collector).phase is.now.fields) }
{
    match seen {
        None => text.push_str("finds the epochs spent"),
        Some((op, found)) => add_op(text, op, found, is.collector.phase, is.fields),
    }
}

// An operation of the collector with the word that it found, by the phase behind it.
fn add_op(text: &mut String, op: Op, found: u64, phase: &str, fields: u32) -> Result<(), NoMemory>
    ensures { OnOk result (string_bytes text.new ≡ string_bytes text.old ++ op_words op found phase.now fields) }
{
    match op {
        Op::StoreEpoch(epoch) => add_numbered(text, "requests epoch ", epoch, batch(phase)),
        Op::LookBox(t, _) => add_numbered(text, "looks at mutator ", u32::from(t), "'s mailbox"),
        Op::ReturnBox(t, _) => add_return(text, t, phase),
        Op::LoadChild(place) => add_found(text, "loads ", place, ", which is ", found, fields),
        Op::ClearField(place) => add_found(text, "clears ", place, ", which was ", found, fields),
        Op::FreeHeader(slot) => {
            add_numbered(
                text,
                "sweeps #",
                u32::from(slot),
                ", whose slot is free now",
            )
        }
        Op::AddFreed => text.push_str(side_of_sweep(found)),
        _ => text.push_str("makes a step"),
    }
}

// A number between words.
fn add_numbered(text: &mut String, words: &str, number: u32, behind: &str) -> Result<(), NoMemory>
    ensures { OnOk result (string_bytes text.new ≡ string_bytes text.old ++ (words.now ++ decimal number ++ behind.now)) }
{
    write!(text, "{words}{number}{behind}")
}

// A mailbox that its mutator has back, and whether the batch was applied.
fn add_return(text: &mut String, t: u8, phase: &str) -> Result<(), NoMemory>
    ensures { OnOk result (string_bytes text.new ≡ string_bytes text.old ++ (codes "gives mutator " ++ decimal t ++ codes "'s mailbox back" ++ batch_words phase.now)) }
{
    write!(text, "gives mutator {t}'s mailbox back{}", batch(phase))
}

// Whether a sweep begins or ends, by the freed word before.
fn side_of_sweep(freed: u64) -> &'static str
    ensures { result.now ≡ sweep_words freed }
{
    if freed % 2 == 0 {
        "begins a sweep"
    } else {
        "ends the sweep"
    }
}

// What comes in the same step, by the phase behind it: once no mailbox is waited for, the batch is applied.
fn batch(phase: &str) -> &'static str
    ensures { result.now ≡ batch_words phase.now }
{
    if phase == "gather" {
        ""
    } else {
        ", applies the batch"
    }
}

// A field with its place, and the word that was found in it, behind some words each.
fn add_found(
    text: &mut String,
    words: &str,
    place: u32,
    between: &str,
    found: u64,
    fields: u32,
) -> Result<(), NoMemory>
    ensures { OnOk result (string_bytes text.new ≡ string_bytes text.old ++ (words.now ++ field_words place fields ++ between.now ++ target_words (target_of found))) }
{
    add_field(text, words, place, fields)?;
    add_target(text, between, target(found))
}

// The slots of which the collector keeps something else now, each with what that is.
fn add_changes(text: &mut String, alloc: Global, was: &State, is: &State) -> Result<(), NoMemory>
    ensures { OnOk result (string_bytes text.new ≡ string_bytes text.old ++ changes_words (changed_slots (map slot_seen was.now.slots.items) (map slot_seen is.now.slots.items))) }
{
    let changed = changed_slots(alloc, &was.slots, &is.slots)?;
    add_changed(text, &changed)
}

// What changed of the first of these slots, and how many more there are.
fn add_changed(text: &mut String, changed: &[(&Slot, &Slot)]) -> Result<(), NoMemory>
    ensures { OnOk result (string_bytes text.new ≡ string_bytes text.old ++ changes_words (map (λ p. (slot_seen p.0.now, slot_seen p.1.now)) changed.now)) }
{
    add_first(text, &changed[..MOST_TOLD.min(changed.len())])?;
    add_more(text, changed.len())
}

// How many more slots changed than a line tells.
fn add_more(text: &mut String, changed: usize) -> Result<(), NoMemory>
    ensures { OnOk result (string_bytes text.new ≡ string_bytes text.old ++ more_words changed) }
{
    if changed <= MOST_TOLD {
        return Ok(());
    }
    write!(text, "; and {} more slots", changed - MOST_TOLD)
}

// The slots that aren't as they were.
fn changed_slots<'a>(
    alloc: Global,
    was: &'a [Slot],
    is: &'a [Slot],
) -> Result<Vec<(&'a Slot, &'a Slot)>, NoMemory>
    ensures { IfOk result (λ pairs. map (λ p. (slot_seen p.0.now, slot_seen p.1.now)) pairs.items ≡ changed_slots (map slot_seen was.now) (map slot_seen is.now)) }
{
    let mut changed = Vec::new(alloc);
    for (index, before) in was.iter().enumerate() {
        let Some(after) = is.get(index) else { break };
        if differ(before, after) {
            changed.push((before, after))?;
        }
    }
    Ok(changed)
}

// Whether anything that is seen of a slot changed.
fn differ(before: &Slot, after: &Slot) -> bool
    ensures { result ≡ not (is_same_slot (slot_seen before.now) (slot_seen after.now)) }
{
    before != after
}

// What changed of each of these slots.
fn add_first(text: &mut String, changed: &[(&Slot, &Slot)]) -> Result<(), NoMemory>
    ensures { OnOk result (string_bytes text.new ≡ string_bytes text.old ++ flat_map (λ p. change_words (slot_seen p.0.now) (slot_seen p.1.now)) changed.now) }
{
    for (before, after) in changed {
        add_change(text, before, after)?;
    }
    Ok(())
}

// What became of the sets, where one was tested.
fn add_sets(text: &mut String, was: &Collector, is: &Collector) -> Result<(), NoMemory>
    ensures { OnOk result (string_bytes text.new ≡ string_bytes text.old ++ sets_words (collector_seen was.now) (collector_seen is.now)) }
{
    if is.sets_freed != was.sets_freed {
        text.push_str("; a set passes both tests")?;
    }
    if is.sets_touched != was.sets_touched {
        text.push_str("; the Delta test refuses a set")?;
    }
    if is.sets_held != was.sets_held {
        text.push_str("; the Sigma test refuses a set")?;
    }
    Ok(())
}

// What changed of a slot.
fn add_change(text: &mut String, before: &Slot, after: &Slot) -> Result<(), NoMemory>
    ensures { OnOk result (string_bytes text.new ≡ string_bytes text.old ++ change_words (slot_seen before.now) (slot_seen after.now)) }
{
    write!(text, "; #{}", after.slot)?;
    add_counts(text, before, after)?;
    add_colour(text, before.colour, after.colour)?;
    add_loss(text, before, after)?;
    add_set(text, before.set, after.set)?;
    add_root(text, before.root, after.root)
}

fn add_counts(text: &mut String, before: &Slot, after: &Slot) -> Result<(), NoMemory>
    ensures { OnOk result (string_bytes text.new ≡ string_bytes text.old ++ counts_words (slot_seen before.now) (slot_seen after.now)) }
{
    if before.count != after.count {
        write!(text, " count {} -> {}", before.count, after.count)?;
    }
    if before.cyclic != after.cyclic {
        write!(text, " cyclic {} -> {}", before.cyclic, after.cyclic)?;
    }
    Ok(())
}

fn add_colour(text: &mut String, before: &str, after: &str) -> Result<(), NoMemory>
    ensures { OnOk result (string_bytes text.new ≡ string_bytes text.old ++ colour_words before.now after.now) }
{
    if before == after {
        return Ok(());
    }
    write!(text, " {before} -> {after}")
}

// Whether the slot was released, or lost a reference.
fn add_loss(text: &mut String, before: &Slot, after: &Slot) -> Result<(), NoMemory>
    ensures { OnOk result (string_bytes text.new ≡ string_bytes text.old ++ loss_words (slot_seen before.now) (slot_seen after.now)) }
{
    if after.released && !before.released {
        text.push_str(" released")?;
    }
    if after.fields != before.fields {
        text.push_str(" loses a reference")?;
    }
    Ok(())
}

// Whether the slot came into a set, or left it.
fn add_set(text: &mut String, before: Option<u16>, after: Option<u16>) -> Result<(), NoMemory>
    ensures { OnOk result (string_bytes text.new ≡ string_bytes text.old ++ set_words before after) }
{
    match (before, after) {
        (None, Some(set)) => write!(text, " joins set {set}"),
        (Some(set), None) => write!(text, " leaves set {set}"),
        _ => Ok(()),
    }
}

// Whether the slot came among the roots, or left them.
fn add_root(text: &mut String, before: bool, after: bool) -> Result<(), NoMemory>
    ensures { OnOk result (string_bytes text.new ≡ string_bytes text.old ++ root_words before after) }
{
    match (before, after) {
        (false, true) => text.push_str(" becomes a root"),
        (true, false) => text.push_str(" is no root any more"),
        _ => Ok(()),
    }
}
