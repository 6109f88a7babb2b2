//! The answer to a script: its commands are carried out on a heap of its own, which is then settled and listed.
ghost use Rattle.std.specs.Prelude.{◌≡◌, ◌+◌, ◌++◌, ◌≤◌, List, map, length, option_map, IfOk, IfSome};
ghost use Rattle.std.specs.List.{flat_map};
ghost use Rattle.rec_model.specs.LegalOrder.{NoLogFull};
ghost use Rattle.rec_model.specs.Listing.{Row, ListsSlots};
ghost use Rattle.rec_model.specs.declared.limits.TheConstants.{MOST_TURNS};
ghost use Rattle.rec_core.specs.Config.{IsConfig};
ghost use Rattle.rec_core.specs.Settled.{IsSettled};
ghost use Rattle.rec_report.specs.Report.{AreFor};
ghost use Rattle.rec_report.specs.Text.{IsOrderOf};
ghost use Rattle.rec_world.specs.World.{opened, sight};
ghost use Rattle.rec_play.specs.Played.{config_of, lines_of};
ghost use Rattle.rec_play.specs.Start.{MayBegin, Start, opening_of};
ghost use Rattle.rec_request.specs.declared.request.How.TheVariants as hows;
ghost use Rattle.rec_run.specs.Headline.{Answers, is_summary, printed};
ghost use Rattle.rec_run.specs.Outcome.{IsOutcome};
ghost use Rattle.rec_run.specs.Tracing.{tail_of};

use crate::auditing::Auditor;
use crate::driving::drive_script;
use crate::outcome::Outcome;
use crate::playing::play_script;
use crate::tracing::{Traced, trace_world};
use rec_play::config_for;
use rec_report::{Text, summary, text};
use rec_request::{How, Play};
use rec_script::Script;
use rec_settle::settle;
use rec_threads::Gate;
use rec_world::{OpenError, World};
use std::alloc::{AllocError as NoMemory, Global};
use std::sync::Wait;
use std::thread::Threads;

/// The answer to a script that is played so: the whole text, or a summary, and behind it the line of a trace where one is asked for. It
/// waits for nobody, so it returns.
pub fn answer_played<R: Threads + Sync>(
    rt: &R,
    alloc: Global,
    script: &Script,
    how: Play,
) -> Result<Text, NoMemory>
    requires { how.turns ≤ MOST_TURNS }
    ensures { IfOk result (λ text. Answers script.now (opening_of script.now) (hows.Play how) (flat_map (λ line. line) text)) }
{
    let mut outcome = play_script(alloc, script, how, &mut Auditor::without_audit())?;
    let answered = answer_outcome(rt, alloc, script, How::Play(how), &mut outcome);
    drop(outcome);
    answered
}

/// The answer to a script whose commands are carried out on threads.
pub fn answer_driven<R: Threads + Wait + Sync, G: Gate>(
    rt: &R,
    alloc: Global,
    script: &Script,
    gate: &G,
) -> Result<Text, NoMemory>
    ensures { IfOk result (λ text. Answers script.now (opening_of script.now) hows.Threads (flat_map (λ line. line) text)) }
{
    let mut outcome = drive_script(rt, alloc, script, gate)?;
    let answered = answer_outcome(rt, alloc, script, How::Threads, &mut outcome);
    drop(outcome);
    answered
}

/// The answer of a run that left this: its heap is settled, and what was told and what is left are written. Whichever way a script was
/// run, from whichever start, it ends here.
pub fn answer_outcome<R: Threads + Sync>(
    rt: &R,
    alloc: Global,
    script: &Script,
    how: How,
    outcome: &mut Outcome,
) -> Result<Text, NoMemory>
    requires outcome { (start : Start) × IsOutcome script.now start how outcome.old }
    requires epochs { outcome.old.world.epoch ≤ MOST_TURNS + 1 }
    ensures { (start : Start) → IsOutcome script.now start how outcome.old → IfOk result (λ text. Answers script.now start how (flat_map (λ line. line) text)) }
{
    let traced = trace_world(rt, alloc, how, &outcome.world)?;
    // There are epochs enough left to settle.
    let Ok(settled) = settle(&mut outcome.world) else {
        unreachable!();
    };
    let text = write_text(alloc, script, wants_summary(how), outcome)?;
    end_text(alloc, text, traced, settled.live)
}

// Whether a summary is written in place of the whole text.
fn wants_summary(how: How) -> bool
    ensures { result ≡ is_summary how }
{
    match how {
        How::Play(play) => play.summary,
        How::Threads => false,
    }
}

// The whole text of a run whose heap is settled, or its summary. It has one caller, so the compiler puts the writer into it.
fn write_text(
    alloc: Global,
    script: &Script,
    is_summary: bool,
    outcome: &Outcome,
) -> Result<Text, NoMemory>
    requires script { AreFor script.now outcome.now.world }
    requires journals { length outcome.now.journals.items ≡ outcome.now.world.config.mutators }
    requires order { IfSome outcome.now.order (λ order. IsOrderOf (lines_of outcome.now.journals.items) order.list) }
    requires settled { IsSettled outcome.now.world }
    requires room { NoLogFull (lines_of outcome.now.journals.items) }

    ensures { IfOk result (λ text. (rows : List Row) × ListsSlots (sight outcome.now.world) rows
        × (flat_map (λ line. line) text ≡ printed script.now.version is_summary (lines_of outcome.now.journals.items) (option_map (λ order. order.list) outcome.now.order) rows outcome.now.world.made outcome.now.world)) }
{
    let journals = outcome.journals.as_slice();
    let order = outcome.order.as_ref();
    if is_summary {
        summary(alloc, script, journals, order, &outcome.world)
    } else {
        text(alloc, script, journals, order, &outcome.world)
    }
}

// The text with the line of a trace behind it, where one was made. So many slots hold objects after settling.
fn end_text(alloc: Global, text: Text, traced: Option<Traced>, live: u32) -> Result<Text, NoMemory>
    ensures { IfOk result (λ whole. flat_map (λ line. line) whole ≡ flat_map (λ line. line) text ++ tail_of traced live) }
{
    match traced {
        Some(traced) => text.with_trace(alloc, traced.reached, traced.taken, live),
        None => Ok(text),
    }
}

/// The heap of a script.
pub fn open_world(alloc: Global, script: &Script) -> Result<World, NoMemory>
    ensures opened { IfOk result (λ world. world ≡ opened (config_of script.now)) }
    ensures begins { IfOk result (MayBegin script.now) }
    ensures first { IfOk result (λ world. world.epoch ≡ 1) }
    ensures config { IfOk result (λ world. IsConfig world.config) }
{
    match World::open(alloc, config_for(script)) {
        Ok(world) => Ok(world),
        Err(OpenError::NoMemory) => Err(NoMemory),
        // A script's numbers are those of a heap.
        Err(OpenError::Config { .. }) => unreachable!(),
    }
}
