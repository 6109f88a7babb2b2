//! The worker of the collector.

ghost use Rattle.std.specs.Prelude.{◌≡◌, ◌⊎◌, IsSome, length};
ghost use Rattle.rec_model.specs.declared.limits.TheConstants.{MOST_TURNS};
ghost use Rattle.rec_table.specs.Views.{IsCollectorOf};
ghost use Rattle.rec_threads.specs.Done.{HasCollected, HasTurned};

use crate::gate::Gate;
use crate::pause::Pause;
use crate::signals::{AllDone, Signals};
use rec_collector::Turn;
use rec_model::limits::MOST_TURNS;
use rec_table::{Collector, Heap};

/// The collector as its worker leaves it: after how many turns, and the evidence that every mutator's last command was answered by
/// then, where it was.
#[derive(Drop)]
pub struct Collected {
    pub collector: Collector,
    pub turns: u32,
    pub all_done: Option<AllDone>,
}

/// Makes turns, each behind the gate, until every mutator's last command is answered, or its turns are spent.
pub fn collect<G: Gate>(
    heap: &Heap,
    mutators: u8,
    gate: &G,
    signals: &Signals,
    mut collector: Collector,
) -> Collected
    requires own { IsCollectorOf heap.now collector }
    requires all { mutators ≡ length signals.now.script.value.commands }
    ensures own { IsCollectorOf heap.now result.collector }
    ensures turned { HasTurned result.turns collector result.collector }
    ensures ended { IsSome result.all_done ⊎ (result.turns ≡ MOST_TURNS) }
    ensures collected { HasCollected MOST_TURNS collector result.collector }
{
    let mut pause = Pause::new();
    for turns in 0..MOST_TURNS {
        gate.turn(turns + 1);
        let turn = collector.turn(heap);
        if let Some(all_done) = signals.all_done(mutators) {
            return Collected {
                collector,
                turns: turns + 1,
                all_done: Some(all_done),
            };
        }
        pace(signals, turn, &mut pause);
    }
    Collected {
        collector,
        turns: MOST_TURNS,
        all_done: None,
    }
}

// Where the turn waits, tells for whom, and lets others run; where it waits no more, tells that.
fn pace(signals: &Signals, turn: Turn, pause: &mut Pause) {
    match turn {
        Turn::Waiting { mutator } => {
            signals.tell_awaited(mutator);
            pause.wait();
        }
        Turn::EpochsSpent => pause.wait(),
        _ => {
            if pause.has_begun() {
                signals.tell_awaited(0);
                pause.reset();
            }
        }
    }
}
