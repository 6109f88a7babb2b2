//! What a run writes: the answers, the listing of the live objects, and totals.
//!
//! The rule that this crate keeps: the lines of a text are a stated function of the journals, the order, the listing of
//! the settled heap, and the births.
//! A summary has four lines in their place, a function of the script's version, the journals, the live objects, the births and
//! the collections. Behind either one may stand the line of a trace.
//! The layer above may use the clauses of `text` and `summary`, `Text::with_trace`, `Text::lines` and `Text::bytes`.
//! The form of a text is this project's profile (`docs/PROFILE.md`).
#![tactic(auto)]

ghost use Rattle.std.specs.Prelude.{◌≡◌, ◌+◌, ◌<◌, ◌≤◌, ◌^◌, ◌++◌, ◌∷◌, [], List, map, count_by, length, option_map, slice_index_or, IfOk, IfSome, OnOk};
ghost use Rattle.rec_model.specs.Listing.{Row, ListsSlots};
ghost use Rattle.rec_core.specs.Settled.{IsSettled};
ghost use Rattle.rec_world.specs.World.{sight};
ghost use Rattle.rec_report.specs.Report.{AreFor};
ghost use Rattle.rec_report.specs.Text.{IsOrderOf, is_refused, refusals, play_lines};

mod answer;
mod line;
mod listing;
mod page;
mod summing;
mod tally;
mod tracing;

pub use page::{Lines, Text};
use rec_model::{Answer, Cmd, Told};
use rec_script::Script;
use rec_world::{Journal, Order, World};
use std::alloc::{AllocError as NoMemory, Global};
pub use summing::summary;

// How many of these commands were refused.
fn own_refusals(journal: &[(Cmd, Told)]) -> u64
    ensures value { result ≡ count_by (λ line. is_refused line.1.answer) journal.now }
    ensures few { result < 2 ^ 58 }
{
    let refused = |line: &&(Cmd, Told)| matches!(line.1.answer, Answer::Full | Answer::Busy { .. });
    journal.iter().filter(refused).count() as u64
}

// How many commands were refused.
fn refusals_of(journals: &[Journal]) -> u64
    requires { length journals.now ≤ 63 }
    ensures { result ≡ refusals (map (λ journal. journal.lines) journals.now) }
{
    let mut refused = 0;
    for journal in journals {
        refused += own_refusals(journal.lines());
    }
    refused
}

/// What a run writes: the answers in their order, or without one mutator by mutator, then the listing, then totals.
pub fn text(
    alloc: Global,
    script: &Script,
    journals: &[Journal],
    order: Option<&Order>,
    world: &World,
) -> Result<Text, NoMemory>
    // The script's numbers are the world's, there is one journal per mutator, an order names each mutator as often as its
    // journal has lines and nobody else, and the world is settled.
    requires script { AreFor script.now world.now }
    requires journals { length journals.now ≡ world.now.config.mutators }
    requires order { IfSome order (λ turns. IsOrderOf (map (λ journal. journal.lines) journals.now) turns.now.list) }
    requires settled { IsSettled world.now }

    // The rows are those read off the slots. Wherever a heap that never frees stands for the world, they are its listing.
    ensures lines { IfOk result (λ text. (rows : List Row) × ListsSlots (sight world.now) rows × (text ≡ play_lines (map (λ journal. journal.lines) journals.now) (option_map (λ turns. turns.now.list) order.entry) rows world.now.made)) }
{
    let mut text = Text::new(alloc);
    match order {
        Some(order) => text.add_turns(alloc, journals, order.list())?,
        None => text.add_journals(journals)?,
    }
    let live = text.add_listing(alloc, script, world)?;
    let totals = line::totals(alloc, world.made(), refusals_of(journals), live as u64)?;
    text.add(totals)?;
    Ok(text)
}
