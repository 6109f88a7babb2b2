//! A script is played: its commands are carried out in an order that is drawn.
ghost use Rattle.std.specs.Prelude.{◌≡◌, ◌+◌, ◌≤◌, List, IfOk};
ghost use Rattle.rec_model.specs.declared.limits.TheConstants.{MOST_TURNS};
ghost use Rattle.rec_collector.specs.Shown.{Shown};
ghost use Rattle.rec_core.specs.Config.{IsConfig};
ghost use Rattle.rec_core.specs.Shown.{Shows};
ghost use Rattle.rec_play.specs.Played.{MayNote, config_of};
ghost use Rattle.rec_play.specs.Shown.{IsShownWhole};
ghost use Rattle.rec_play.specs.Start.{IsStartOf, MayBegin, Start, opening_of};
ghost use Rattle.rec_world.specs.World.{opened};
ghost use Rattle.rec_run.specs.Audited.{GoesOn};
ghost use Rattle.rec_run.specs.Outcome.{IsOutcome};
ghost use Rattle.rec_request.specs.declared.request.How.TheVariants as hows;

use crate::answer::open_world;
use crate::auditing::Auditor;
use crate::outcome::Outcome;
use rec_play::{journals_for, order_for, play_watched};
use rec_request::Play;
use rec_script::Script;
use rec_world::{Journal, Order, World};
use std::alloc::{AllocError as NoMemory, Global};

/// Carries out a script's commands in the order that the playing rule draws from the seed with at most so many turns, and shows the
/// auditor each step of the collector.
pub fn play_script(
    alloc: Global,
    script: &Script,
    how: Play,
    auditor: &mut Auditor,
) -> Result<Outcome, NoMemory>
    requires { how.turns ≤ MOST_TURNS }
    ensures outcome { IfOk result (IsOutcome script.now (opening_of script.now) (hows.Play how)) }
    ensures valid { IfOk result (λ outcome. IsConfig (config_of script.now)) }

    // The auditor was shown all of the collector's steps.
    ensures shown { IfOk result (λ outcome. (shown : List Shown) × IsShownWhole script.now how.seed how.turns (opened (config_of script.now)) shown outcome.world
        × GoesOn auditor.old.audit shown auditor.new.audit × Shows (opened (config_of script.now)) shown outcome.world) }

    // Each turn requests one epoch more at most.
    ensures epochs { IfOk result (λ outcome. outcome.world.epoch ≤ MOST_TURNS + 1) }
{
    let journals = journals_for(alloc, script)?;
    let order = order_for(alloc, script)?;
    let world = open_world(alloc, script)?;
    play_on(script, how, world, journals, order, auditor)
}

/// Carries out a script's commands on this heap, on which they may begin, as `play_script` does on a new one.
pub fn play_on(
    script: &Script,
    how: Play,
    mut world: World,
    mut journals: Vec<Journal>,
    mut order: Order,
    auditor: &mut Auditor,
) -> Result<Outcome, NoMemory>
    requires begins { MayBegin script.now world }
    requires notes { MayNote script.now journals.items order }
    ensures outcome { IfOk result (λ outcome. (start : Start) → start.world ≡ world → IsStartOf script.now start → IsOutcome script.now start (hows.Play how) outcome) }

    // The auditor was shown all of the collector's steps.
    ensures shown { IfOk result (λ outcome. (shown : List Shown) × IsShownWhole script.now how.seed how.turns world shown outcome.world
        × GoesOn auditor.old.audit shown auditor.new.audit × Shows world shown outcome.world) }

    // Each turn requests one epoch more at most.
    ensures epochs { IfOk result (λ outcome. outcome.world.epoch ≤ world.epoch + how.turns) }
{
    let played = play_watched(
        script,
        how.seed,
        how.turns,
        &mut world,
        journals.as_mut_slice(),
        &mut order,
        auditor,
    );
    let outcome = Outcome {
        world,
        journals,
        order: Some(order),
    };
    match played {
        Ok(()) => Ok(outcome),
        Err(error) => {
            drop(outcome);
            Err(error)
        }
    }
}
