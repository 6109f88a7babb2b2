//! What a mutator's worker owes.

ghost use Rattle.std.specs.Prelude.{◌≡◌, MatchBool};
ghost use Rattle.rec_threads.specs.Done.{HasStayed, IsHired};

use crate::gate::Gate;
use crate::signals::{Over, Signals};
use crate::worker::Worker;
use rec_script::Script;
use rec_table::Heap;
use std::snapshot::Snapshot;
use std::sync::{OnceToken, Wait};
use std::thread::Promise;

/// A worker that has ended, with what it was told at the start, whether all workers were there, and with the evidence that the
/// collector's worker had ended before, where it had.
#[derive(Drop)]
pub struct Report<'a> {
    pub worker: Worker,
    pub orders: OnceToken<'a, bool>,
    pub over: Option<Over>,
}

/// What a worker promises: where all workers were there it has done its commands and stayed, and else nothing.
#[derive(Drop)]
pub struct Duty<'a> {
    pub was: Snapshot<Worker>,
    pub signals: &'a Signals,
}

impl<'a> Promise<Report<'a>> for Duty<'a> {
    ghost use Rattle.rec_threads.specs.Done.{HasStayed};

    ghost kept_by = { λ p r. (r.orders.of ≡ p.signals.now.orders.id) × MatchBool r.orders.value (HasStayed p.signals.now.script.value p.was.value r.worker r.over) (r.worker ≡ p.was.value) };
}

/// What the thread of a mutator's worker does. Where the mutator has left it comes to its end, also while others go on.
pub fn follow<'a, R: Wait, G: Gate>(
    rt: &R,
    heap: &Heap,
    script: &Script,
    gate: &G,
    signals: &'a Signals,
    mut worker: Worker,
) -> Report<'a>
    requires ready { IsHired heap.now script.now worker }
    requires script { signals.now.script.value ≡ script.now }

    ensures orders { result.orders.of ≡ signals.now.orders.id }
    ensures done { MatchBool result.orders.value (HasStayed script.now worker result.worker result.over) (result.worker ≡ worker) }
{
    let orders = signals.await_orders(rt);
    if !signals.begin(&orders) {
        return Report {
            worker,
            orders,
            over: None,
        };
    }
    let was = Snapshot::of(&worker);
    let commands = script.commands(worker.mutator.number());
    worker.carry_out(heap, commands, gate);
    signals.tell_done(&was, &worker);
    let over = worker.attend(rt, heap, signals).over;
    Report {
        worker,
        orders,
        over,
    }
}
