//! The summary of a run.

ghost use Rattle.std.specs.Prelude.{◌≡◌, ◌≤◌, ◌++◌, List, map, length, IfOk, IfSome, OnOk};
ghost use Rattle.rec_model.specs.Listing.{Row, ListsSlots};
ghost use Rattle.rec_model.specs.LegalOrder.{NoLogFull};
ghost use Rattle.rec_core.specs.Settled.{IsSettled};
ghost use Rattle.rec_world.specs.World.{sight};
ghost use Rattle.rec_report.specs.Report.{AreFor};
ghost use Rattle.rec_report.specs.Summary.{summary_lines};
ghost use Rattle.rec_report.specs.Text.{IsOrderOf};

use crate::listing::number_live;
use crate::tally::{commands_of, tally};
use crate::{Text, line, refusals_of};
use rec_script::Script;
use rec_world::{Journal, Order, World};
use std::alloc::{AllocError as NoMemory, Global};

/// The summary of a run: how many mutators and commands there were, how the commands were answered, what became of the
/// objects, and what the collections did. The order of the answers is of no account.
pub fn summary(
    alloc: Global,
    script: &Script,
    journals: &[Journal],
    _order: Option<&Order>,
    world: &World,
) -> Result<Text, NoMemory>
    // The conditions are those of `text`, and that no log was full: a summary has no word for that.
    requires script { AreFor script.now world.now }
    requires journals { length journals.now ≡ world.now.config.mutators }
    requires order { IfSome _order (λ turns. IsOrderOf (map (λ journal. journal.lines) journals.now) turns.now.list) }
    requires settled { IsSettled world.now }
    requires room { NoLogFull (map (λ journal. journal.lines) journals.now) }

    // The live objects are those that `text` lists.
    ensures lines { IfOk result (λ text. (rows : List Row) × ListsSlots (sight world.now) rows × (text ≡ summary_lines script.now.version (map (λ journal. journal.lines) journals.now) (length rows) world.now.made world.now.collector.collections world.now.collector.sets)) }
{
    let live = count_live(alloc, script, world)?;
    let mut text = Text::new(alloc);
    add_lines(&mut text, alloc, script.version(), journals, live, world)?;
    Ok(text)
}

// How many objects are live.
fn count_live(alloc: Global, script: &Script, world: &World) -> Result<usize, NoMemory>
    requires { AreFor script.now world.now }
    ensures { IfOk result (λ live. (rows : List Row) × ListsSlots (sight world.now) rows × (live ≡ length rows)) }
{
    let numbering = number_live(alloc, script, world)?;
    Ok(numbering.list().len())
}

// Adds the four lines, to a script of this version and with so many objects live. The text is lent, so that it ends in none of the ways out.
fn add_lines(
    text: &mut Text,
    alloc: Global,
    version: u32,
    journals: &[Journal],
    live: usize,
    world: &World,
) -> Result<(), NoMemory>
    requires few { length journals.now ≤ 63 }
    requires room { NoLogFull (map (λ journal. journal.lines) journals.now) }
    ensures { OnOk result (text.new ≡ text.old ++ summary_lines version (map (λ journal. journal.lines) journals.now) live world.now.made world.now.collector.collections world.now.collector.sets) }
{
    let sets = world.sets();
    text.add(line::sizes(alloc, journals.len(), commands_of(journals))?)?;
    text.add(line::answers(alloc, version, &tally(journals))?)?;
    text.add(line::objects(alloc, live as u64, world.made(), refusals_of(journals))?)?;
    text.add(line::collections(
        alloc,
        world.collections(),
        sets.freed,
        sets.delta,
        sets.sigma,
    )?)?;
    Ok(())
}
