//! The crew at work.

ghost use Rattle.std.specs.Prelude.{◌≡◌, ◌<◌, ◌∷◌, ◌++◌, [], IfErr, IfOk, MatchBool, vec_capacity, vec_len};
ghost use Rattle.std.specs.Thread.{IsSync};
ghost use Rattle.rec_model.specs.declared.limits.TheConstants.{MOST_TURNS};
ghost use Rattle.rec_table.specs.Views.{AreMutatorsOf, IsCollectorOf};
ghost use Rattle.rec_threads.specs.Done.{AreReady, HasCollected, HasEnded, HasStayed, HasWorked, HaveDone, IsCrewFor, IsHired, IsSame};

use crate::collecting::collect;
use crate::crew::Crew;
use crate::duty::{Duty, Report, follow};
use crate::gate::Gate;
use crate::signals::Signals;
use crate::worker::Worker;
use rec_script::Script;
use rec_table::Heap;
use std::alloc::{AllocError as NoMemory, Global};
use std::snapshot::Snapshot;
use std::sync::{OnceToken, Wait};
use std::thread;
use std::thread::{PromisedHandle, Scope, Threads};

/// Carries out the commands of a script on a running heap, each mutator's on a thread of its own, with the collector beside them.
///
/// The worker of mutator `t` calls `gate.pass(t, i)`, polls, and makes its command `i`, numbered from 1; the collector's worker calls
/// `gate.turn(n)` before its turn `n`. A mutator whose commands are done polls where the collector waits for it, until the collector's
/// worker has ended, at most 65,536 times. That ends when every mutator's last command is answered, or after 10,000,000 turns. By its
/// last command a mutator may leave the heap: then it polls no more, and its thread may end before the others. All threads are joined.
pub fn drive<R: Threads + Wait + Sync, G: Gate>(
    rt: &R,
    _alloc: Global,
    heap: &Heap,
    crew: Crew,
    script: &Script,
    gate: &G,
) -> Result<Crew, (Crew, NoMemory)>
    // The heap has the script's numbers. The crew has all its mutators, in order of number, and its collector, and a journal for each
    // mutator, empty, with room for its commands. No mutator that has commands has left before.
    requires { IsCrewFor heap.now script.now crew }

    // Each journal has its mutator's commands, each once and in order, with what was told: the lines that the mutator's list tells.
    ensures done { IfOk result (λ after. HaveDone script.now.commands crew.mutators.items crew.journals.items after.mutators.items after.journals.items) }
    ensures mutators { IfOk result (λ after. AreMutatorsOf heap.now after.mutators.items) }

    // The collector made at most 10,000,000 turns, and the requested epoch rose by at most as many.
    ensures collector { IfOk result (λ after. IsCollectorOf heap.now after.collector) }
    ensures collected { IfOk result (λ after. HasCollected MOST_TURNS crew.collector after.collector) }

    // Where a thread can't be had nothing is done, and the crew comes back as it was.
    ensures refused { IfErr result (λ r. IsSame crew r.0) }
{
    let signals = Signals::new(script);
    let shared = &signals;
    thread::scope(
        thread::scope_env(),
        rt,
        |scope| -> Result<Crew, (Crew, NoMemory)>
            requires ready { IsCrewFor heap.now script.now crew }
            requires script { shared.now.script.value ≡ script.now }
            ensures worked { IfOk result (λ after. HasWorked heap.entry.now script.entry.now.commands crew after) }
            ensures refused { IfErr result (λ r. IsSame crew r.0) }
        { run(rt, scope, heap, script, gate, shared, crew) },
    )
}

// The crew at work, on threads of this scope.
fn run<'s, 'e, R: Threads + Wait + Sync, G: Gate>(
    rt: &'e R,
    scope: &Scope<'s, &'e ()>,
    heap: &'e Heap,
    script: &'e Script,
    gate: &'e G,
    signals: &'e Signals,
    crew: Crew,
) -> Result<Crew, (Crew, NoMemory)>
    requires ready { IsCrewFor heap.now script.now crew }
    requires script { signals.now.script.value ≡ script.now }
    ensures worked { IfOk result (λ after. HasWorked heap.now script.now.commands crew after) }
    ensures refused { IfErr result (λ r. IsSame crew r.0) }
{
    let (crew, orders) = hire(rt, scope, heap, script, gate, signals, crew);
    if signals.begin(&orders) {
        Ok(crew)
    } else {
        Err((crew, NoMemory))
    }
}

// Starts a thread for each mutator, from the last one on, and then works as the collector. Once that has ended each thread is joined.
// Where one can't be had that is told, and so no worker begins.
fn hire<'s, 'e, R: Threads + Wait + Sync, G: Gate>(
    rt: &'e R,
    scope: &Scope<'s, &'e ()>,
    heap: &'e Heap,
    script: &'e Script,
    gate: &'e G,
    signals: &'e Signals,
    mut crew: Crew,
) -> (Crew, OnceToken<'e, bool>)
    requires shared { IsSync R.row × IsSync G.row }
    requires ready { AreReady heap.now script.now crew.mutators.items crew.journals.items }
    requires script { signals.now.script.value ≡ script.now }
    requires collector { IsCollectorOf heap.now crew.collector }
    ensures orders { result.1.of ≡ signals.now.orders.id }
    ensures ended { HasEnded result.1.value heap.now script.now.commands crew result.0 }
    ensures room { (vec_capacity result.0.mutators ≡ vec_capacity crew.mutators) × (vec_capacity result.0.journals ≡ vec_capacity crew.journals) }
{
    let Some(mutator) = crew.mutators.pop() else {
        return begin(rt, heap, script, gate, signals, crew);
    };
    let Some(journal) = crew.journals.pop() else {
        unreachable!()
    };
    let worker = Worker { mutator, journal };
    let hired = hire_one(rt, scope, heap, script, gate, signals, worker);
    let (crew, orders) = hire(rt, scope, heap, script, gate, signals, crew);
    let Report {
        worker,
        orders: told,
        over: _,
    } = report_of(rt, hired);
    told.agrees(&orders);
    (taken_back(crew, worker), orders)
}

// Starts the thread of one worker. Where it can't be had that is told, so the worker doesn't begin, and its report is here at once.
fn hire_one<'s, 'e, R: Threads + Wait + Sync, G: Gate>(
    rt: &'e R,
    scope: &Scope<'s, &'e ()>,
    heap: &'e Heap,
    script: &'e Script,
    gate: &'e G,
    signals: &'e Signals,
    worker: Worker,
) -> Result<PromisedHandle<Report<'e>, Duty<'e>>, Report<'e>>
    requires shared { IsSync R.row × IsSync G.row }
    requires ready { IsHired heap.now script.now worker }
    requires script { signals.now.script.value ≡ script.now }

    ensures signals { IfOk result (λ handle. handle.promise.signals.now.orders.id ≡ signals.now.orders.id) }
    ensures script { IfOk result (λ handle. handle.promise.signals.now.script.value ≡ script.now) }
    ensures was { IfOk result (λ handle. handle.promise.was.value ≡ worker) }
    ensures orders { IfErr result (λ report. report.orders.of ≡ signals.now.orders.id) }
    ensures done { IfErr result (λ report. MatchBool report.orders.value (HasStayed script.now worker report.worker report.over) (report.worker ≡ worker)) }
{
    let duty = Duty {
        was: Snapshot::of(&worker),
        signals,
    };
    match scope.spawn_with(
        duty,
        move || -> Report<'_>
            requires ready { IsHired heap.now script.now worker }
            requires script { signals.now.script.value ≡ script.now }
            ensures orders { result.orders.of ≡ signals.entry.now.orders.id }
            ensures done { MatchBool result.orders.value (HasStayed script.entry.now worker result.worker result.over) (result.worker ≡ worker) }
        { follow(rt, heap, script, gate, signals, worker) },
    ) {
        Ok(handle) => Ok(handle),
        Err(refused) => {
            signals.order(rt, false);
            Err((refused.value)())
        }
    }
}

// What a worker reports once its thread has ended.
fn report_of<'e, R: Threads>(
    rt: &R,
    hired: Result<PromisedHandle<Report<'e>, Duty<'e>>, Report<'e>>,
) -> Report<'e>
    ensures orders { IfOk hired.entry (λ handle. result.orders.of ≡ handle.promise.signals.now.orders.id) }
    ensures done { IfOk hired.entry (λ handle. MatchBool result.orders.value (HasStayed handle.promise.signals.now.script.value handle.promise.was.value result.worker result.over) (result.worker ≡ handle.promise.was.value)) }
    ensures ended { IfErr hired.entry (λ report. result ≡ report) }
{
    match hired {
        Ok(handle) => handle.join(rt),
        Err(report) => report,
    }
}

// The crew with the mutator of one worker more.
fn taken_back(mut crew: Crew, worker: Worker) -> Crew
    requires mutators_room { vec_len crew.mutators < vec_capacity crew.mutators }
    requires journals_room { vec_len crew.journals < vec_capacity crew.journals }
    ensures mutators { result.mutators.items ≡ crew.mutators.items ++ worker.mutator ∷ [] }
    ensures journals { result.journals.items ≡ crew.journals.items ++ worker.journal ∷ [] }
    ensures collector { result.collector ≡ crew.collector }
    ensures room { (vec_capacity result.mutators ≡ vec_capacity crew.mutators) × (vec_capacity result.journals ≡ vec_capacity crew.journals) }
{
    let Worker { mutator, journal } = worker;
    crew.mutators.push_reserved(mutator);
    crew.journals.push_reserved(journal);
    crew
}

// All workers are there, or it was told before that one is missing. Where they begin, the collector's worker does its work.
fn begin<'e, R: Wait, G: Gate>(
    rt: &R,
    heap: &Heap,
    script: &Script,
    gate: &G,
    signals: &'e Signals,
    mut crew: Crew,
) -> (Crew, OnceToken<'e, bool>)
    requires collector { IsCollectorOf heap.now crew.collector }
    requires script { signals.now.script.value ≡ script.now }
    ensures orders { result.1.of ≡ signals.now.orders.id }
    ensures begun { MatchBool result.1.value (IsCollectorOf heap.now result.0.collector × HasCollected MOST_TURNS crew.collector result.0.collector) (result.0.collector ≡ crew.collector) }
    ensures mutators { result.0.mutators ≡ crew.mutators }
    ensures journals { result.0.journals ≡ crew.journals }
{
    let orders = signals.order(rt, true);
    if !signals.begin(&orders) {
        return (crew, orders);
    }
    let was = Snapshot::of(&crew.collector);
    let collected = collect(heap, script.mutators(), gate, signals, crew.collector);
    signals.tell_over(&was, &collected);
    crew.collector = collected.collector;
    (crew, orders)
}
