//! A heap as a graph, in the language of `dot`.

use crate::state::{Mutator, Slot, State};
use std::alloc::{AllocError as NoMemory, Global};
use std::fmt::Write as _;
use std::io::{self, Write};

// What stands before the nodes.
const HEAD: &str =
    "digraph heap {\n  rankdir=LR;\n  node [shape=box, style=filled, fontname=monospace];\n";

/// Draws a heap: slots, what their fields lead to, registers by mutator, and sets as clusters.
pub fn write_graph<W: Write>(out: &mut W, alloc: Global, state: &State) -> io::Result<()> {
    out.write_all(HEAD.as_bytes())?;
    write_slots(out, alloc, &state.slots)?;
    write_mutators(out, alloc, &state.mutators)?;
    write_sets(out, alloc, &state.lists.sets)?;
    out.write_all(b"}\n")
}

fn write_slots<W: Write>(out: &mut W, alloc: Global, slots: &[Slot]) -> io::Result<()> {
    for seen in slots {
        write_node(out, drawn_slot(alloc, seen)?)?;
    }
    Ok(())
}

fn write_mutators<W: Write>(out: &mut W, alloc: Global, mutators: &[Mutator]) -> io::Result<()> {
    for seen in mutators {
        write_node(out, drawn_mutator(alloc, seen)?)?;
    }
    Ok(())
}

fn write_sets<W: Write>(out: &mut W, alloc: Global, sets: &[Vec<u16>]) -> io::Result<()> {
    for (number, members) in sets.iter().enumerate() {
        write_node(out, drawn_set(alloc, number, members)?)?;
    }
    Ok(())
}

fn write_node<W: Write>(out: &mut W, node: String) -> io::Result<()> {
    out.write_all(node.as_bytes())
}

// A slot, with an arrow for each of its fields.
fn drawn_slot(alloc: Global, seen: &Slot) -> Result<String, NoMemory> {
    let mut text = String::new(alloc);
    add_slot(&mut text, seen)?;
    add_arrows(&mut text, 's', u32::from(seen.slot), &seen.fields)?;
    Ok(text)
}

// A box with label, counts and colour, or a dotted one where the slot is free.
fn add_slot(text: &mut String, seen: &Slot) -> Result<(), NoMemory> {
    match seen.label {
        None => add_free(text, seen.slot),
        Some(label) => {
            add_label(text, seen, label)?;
            add_object(text, seen)
        }
    }
}

// The dotted box of a free slot.
fn add_free(text: &mut String, slot: u16) -> Result<(), NoMemory> {
    writeln!(text, "  s{slot} [label=\"#{slot}\\nfree\", style=dotted];")
}

// The first line in the box of an object.
fn add_label(text: &mut String, seen: &Slot, label: u32) -> Result<(), NoMemory> {
    let slot = seen.slot;
    let kind = if seen.leaf { "leaf" } else { "label" };
    write!(text, "  s{slot} [label=\"#{slot} {kind} {label}\\n")
}

// The rest of the box of an object.
fn add_object(text: &mut String, seen: &Slot) -> Result<(), NoMemory> {
    write!(text, "count {} cyclic {}\\n", seen.count, seen.cyclic)?;
    text.push_str(seen.colour)?;
    text.push_str(if seen.released { "\\nreleased" } else { "" })?;
    add_fill(text, seen.colour)
}

// What fills a box, and an ink that is seen on it.
fn add_fill(text: &mut String, colour: &str) -> Result<(), NoMemory> {
    writeln!(
        text,
        "\", fillcolor={colour}, fontcolor={}];",
        ink_on(colour)
    )
}

fn ink_on(colour: &str) -> &'static str {
    if colour == "Black" || colour == "Purple" {
        "white"
    } else {
        "black"
    }
}

// A mutator, with an arrow for each of its registers.
fn drawn_mutator(alloc: Global, seen: &Mutator) -> Result<String, NoMemory> {
    let mut text = String::new(alloc);
    add_mutator(&mut text, seen)?;
    add_arrows(&mut text, 'm', u32::from(seen.mutator), &seen.registers)?;
    Ok(text)
}

fn add_mutator(text: &mut String, seen: &Mutator) -> Result<(), NoMemory> {
    let t = seen.mutator;
    let left = if seen.left { ", has left" } else { "" };
    write!(text, "  m{t} [label=\"mutator {t}{left}\\n")?;
    add_mailbox(text, seen.epoch, seen.mailbox)
}

// The epoch of a mutator, and where its mailbox is.
fn add_mailbox(text: &mut String, epoch: u32, mailbox: &str) -> Result<(), NoMemory> {
    write!(text, "epoch {epoch}\\nmailbox {mailbox}\"")?;
    text.push_str(", shape=ellipse, fillcolor=white];\n")
}

// An arrow for each field of a slot, or each register of a mutator, that names an object. Those of registers are dashed.
fn add_arrows(
    text: &mut String,
    kind: char,
    from: u32,
    to: &[Option<u16>],
) -> Result<(), NoMemory> {
    let style = if kind == 'm' { ", style=dashed" } else { "" };
    for (index, target) in to.iter().enumerate() {
        if let Some(slot) = target {
            writeln!(text, "  {kind}{from} -> s{slot} [label={index}{style}];")?;
        }
    }
    Ok(())
}

// A set that waits for its tests.
fn drawn_set(alloc: Global, number: usize, members: &[u16]) -> Result<String, NoMemory> {
    let mut text = String::new(alloc);
    add_cluster(&mut text, number, members)?;
    Ok(text)
}

// A cluster with the members of a set.
fn add_cluster(text: &mut String, number: usize, members: &[u16]) -> Result<(), NoMemory> {
    write!(
        text,
        " subgraph cluster_{number} {{ label=\"set {number}\";"
    )?;
    for member in members {
        write!(text, " s{member};")?;
    }
    text.push_str(" }\n")
}
