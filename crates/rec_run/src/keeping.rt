//! A script is played, and something else than its answers is kept: the journal of its collector, or the image of its heap.
ghost use Rattle.std.specs.Prelude.{◌≡◌, ◌≤◌, IfOk};
ghost use Rattle.rec_model.specs.declared.limits.TheConstants.{MOST_TURNS};
ghost use Rattle.rec_run.specs.Headline.{TellsRun, played};
ghost use Rattle.rec_request.specs.declared.request.Kept.TheVariants.{Journal, Image};

use crate::auditing::Auditor;
use crate::playing::play_script;
use rec_image::write;
use rec_request::{Keeping, Kept, Play};
use rec_script::Script;
use rec_settle::{settle, settle_watched};
use std::alloc::{AllocError as NoMemory, Global};

/// What is to be kept of a script, whose commands are carried out in the order that the playing rule draws, and whose heap is settled
/// afterwards.
pub fn keep_script(alloc: Global, script: &Script, asked: Keeping) -> Result<Vec<u8>, NoMemory>
    requires { asked.turns ≤ MOST_TURNS }
    ensures { IfOk result (λ kept. TellsRun script.now asked kept.items) }
{
    match asked.kept {
        Kept::Journal => audit_script(alloc, script, asked),
        Kept::Image => image_script(alloc, script, asked),
    }
}

// The journal of its collector.
fn audit_script(alloc: Global, script: &Script, asked: Keeping) -> Result<Vec<u8>, NoMemory>
    requires turns { asked.turns ≤ MOST_TURNS }
    requires journal { asked.kept ≡ Journal }
    ensures { IfOk result (λ kept. TellsRun script.now asked kept.items) }
{
    let mut auditor = Auditor::open(alloc, script)?;
    let mut outcome = play_script(alloc, script, played(asked), &mut auditor)?;
    let settled = settle_watched(&mut outcome.world, &mut auditor);
    drop(outcome);
    // There are epochs enough left to settle.
    let Ok(_settled) = settled? else {
        unreachable!();
    };
    Ok(auditor.into_text())
}

// The image of its settled heap.
fn image_script(alloc: Global, script: &Script, asked: Keeping) -> Result<Vec<u8>, NoMemory>
    requires turns { asked.turns ≤ MOST_TURNS }
    requires image { asked.kept ≡ Image }
    ensures { IfOk result (λ kept. TellsRun script.now asked kept.items) }
{
    let mut unaudited = Auditor::without_audit();
    let mut outcome = play_script(alloc, script, played(asked), &mut unaudited)?;
    // There are epochs enough left to settle.
    let Ok(_settled) = settle(&mut outcome.world) else {
        unreachable!();
    };
    let image = write(alloc, &outcome.world);
    drop(outcome);
    image
}

// How the script is played.
fn played(asked: Keeping) -> Play
    ensures { result ≡ played asked }
{
    Play {
        seed: asked.seed,
        turns: asked.turns,
        summary: false,
        trace: false,
    }
}
