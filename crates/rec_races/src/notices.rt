//! Notices of freed objects: a row over a tube in memory and over a ring, whose listener is on the same thread or on one of its own.

ghost use Rattle.std.specs.Prelude.{IfOk};
ghost use Rattle.rtrb.specs.Ring.{SameProducer};
ghost use Rattle.rec_notice.specs.Ring.{AreEnds, SameListener};
ghost use Rattle.rec_table.specs.Views.{IsCollectorOf};

use crate::race::set_running;
use crate::told::Tells;
use rec_collector::Turn;
use rec_model::Cmd;
use rec_notice::{Listener, RoomTube, Teller, Tube, notices, together};
use rec_table::{Collector, Heap, Mutator, Telling};
use rec_world::{Config, Policy, World};
use std::alloc::Global;
use std::process::Abort;
use std::test::Fail;
use std::thread::{Threads, join, yield_now};

const CONFIG: Config = Config {
    slots: 3,
    fields: 1,
    registers: 3,
    mutators: 1,
    log_entries: 16,
    first_epoch: 1,
    policy: Policy {
        steady: false,
        least_roots: 0,
        most_postponed: 0,
    },
};

// Two objects, that nothing holds any more.
const DROPPED: [Cmd; 4] = [
    Cmd::New { reg: 1, label: 1 },
    Cmd::New { reg: 2, label: 2 },
    Cmd::Null { reg: 1 },
    Cmd::Null { reg: 2 },
];

// The collection that frees both is complete.
const DONE: Telling = Telling::Turned(Turn::Collected { epoch: 2, freed: 2 });

// More turns than a collection of this heap takes.
const TURNS: u32 = 100;

// How often a label that the ring has no room for is offered again, and how often one that isn't there yet is listened for, at most.
const TRIES: u32 = 10_000_000;

fn ask(world: &mut World, cmd: Cmd) {
    if world.valid(1, &cmd) && !world.busy(1) {
        world.command(1, cmd);
    }
}

fn poll(world: &mut World) {
    let any = Cmd::Null { reg: 0 };
    if world.valid(1, &any) && !world.busy(1) {
        world.poll(1);
    }
}

// The collector requests an epoch, and the mutator crosses into it.
fn cross(world: &mut World) {
    world.turn();
    poll(world);
}

// Two objects are made and dropped, and the mutator crosses into the second epoch once the first collection is complete.
fn prepare(world: &mut World) {
    for cmd in &DROPPED {
        ask(world, *cmd);
    }
    cross(world);
    for _ in 0..TURNS {
        if let Turn::Collected { .. } = world.turn() {
            break;
        }
    }
    cross(world);
}

// The heap of that world, set running.
fn started(rt: &impl Abort, alloc: Global) -> Result<(Heap, Vec<Mutator>, Collector), Fail>
    ensures { IfOk result (λ r. IsCollectorOf r.0 r.2) }
{
    let mut world = World::open(alloc, CONFIG)?;
    prepare(&mut world);
    set_running(rt, alloc, world)
}

// Turns until a turn comes to something else than that the collection goes on.
fn tell_on<T: Tube>(heap: &Heap, collector: &mut Collector, teller: &mut Teller<T>) -> Telling
    requires { IsCollectorOf heap.now collector.old }
    ensures collector { IsCollectorOf heap.now collector.new }
    ensures same { T.SameTube teller.old.tube teller.new.tube }
{
    for _ in 0..TURNS {
        let telling = collector.turn_telling(heap, teller);
        if telling != Telling::Turned(Turn::Moved) {
            return telling;
        }
    }
    Telling::Turned(Turn::Moved)
}

// What the telling turns came to over a tube in memory with room for one label.
#[derive(Clone, Copy)]
struct InMemory {
    held: [Telling; 2],
    is_first_sent: bool,
    kept: Option<u32>,
}

fn tell_memory(rt: &impl Abort, alloc: Global) -> Result<InMemory, Fail> {
    let mut teller = Teller::over(RoomTube::open(alloc, 1)?);
    let (heap, mutators, mut collector) = started(rt, alloc)?;
    let first = tell_on(&heap, &mut collector, &mut teller);
    let second = tell_on(&heap, &mut collector, &mut teller);
    drop((heap, mutators, collector));
    Ok(InMemory {
        held: [first, second],
        is_first_sent: teller.tube().labels() == [1].as_slice(),
        kept: teller.kept(),
    })
}

#[test]
fn a_tube_in_memory_is_told(rt: HostRuntime) -> Result<(), Fail> {
    let row = tell_memory(&rt, rt.alloc())?;
    assert_eq!(rt; row.held, [Telling::Held { label: 2 }; 2]);
    assert!(rt; row.is_first_sent);
    assert_eq!(rt; row.kept, Some(2));
    Ok(())
}

// What the telling turns came to over a ring with room for one label, and what was heard: a label before the last of the turns, and then
// twice.
#[derive(Clone, Copy)]
struct OverRing {
    held: [Telling; 2],
    done: Telling,
    heard: [Option<u32>; 3],
    waiting: u32,
}

fn tell_ring(rt: &impl Abort, alloc: Global) -> Result<OverRing, Fail> {
    let (mut teller, mut listener) = notices(alloc, 1)?;
    let (heap, mutators, mut collector) = started(rt, alloc)?;
    let first = tell_on(&heap, &mut collector, &mut teller);
    let second = tell_on(&heap, &mut collector, &mut teller);
    let one = listener.hear();
    let done = tell_on(&heap, &mut collector, &mut teller);
    let two = listener.hear();
    let none = listener.hear();
    drop((heap, mutators, collector));
    Ok(OverRing {
        held: [first, second],
        done,
        heard: [one, two, none],
        waiting: together(&mut teller, &mut listener),
    })
}

#[test]
fn a_listener_is_told(rt: HostRuntime) -> Result<(), Fail> {
    let row = tell_ring(&rt, rt.alloc())?;
    assert_eq!(rt; row.held, [Telling::Held { label: 2 }; 2]);
    assert_eq!(rt; row.done, DONE);
    assert_eq!(rt; row.heard, [Some(1), Some(2), None]);
    assert_eq!(rt; row.waiting, 0);
    Ok(())
}

// A listener, and the two labels that it heard.
#[derive(Drop)]
struct Heard {
    listener: Listener,
    labels: [Option<u32>; 2],
}

// Tells on until a turn comes to something else than a label that is held. It answers whether the collection is complete then.
fn tell_all(heap: &Heap, mut tells: Tells) -> (Tells, bool)
    requires { IsCollectorOf heap.now tells.collector }
    ensures { SameProducer tells.teller.tube.producer result.0.teller.tube.producer }
{
    for _ in 0..TRIES {
        let telling = tell_on(heap, &mut tells.collector, &mut tells.teller);
        if !matches!(telling, Telling::Held { .. }) {
            return (tells, telling == DONE);
        }
        yield_now();
    }
    (tells, false)
}

// Listens until a label is there.
fn hear_next(listener: &mut Listener) -> Option<u32>
    ensures { SameListener listener.old listener.new }
{
    for _ in 0..TRIES {
        let label = listener.hear();
        if label.is_some() {
            return label;
        }
        yield_now();
    }
    None
}

fn hear_two(mut listener: Listener) -> Heard
    ensures { SameListener listener result.listener }
{
    let first = hear_next(&mut listener);
    let second = hear_next(&mut listener);
    Heard {
        listener,
        labels: [first, second],
    }
}

// The collector tells on one thread, and the listener hears on another.
fn tell_and_hear<R: Threads>(
    rt: &R,
    heap: &Heap,
    tells: Tells,
    listener: Listener,
) -> ((Tells, bool), Heard)
    requires collector { IsCollectorOf heap.now tells.collector }
    requires ends { AreEnds tells.teller.tube listener }
    ensures { AreEnds result.0.0.teller.tube result.1.listener }
{
    join(
        rt,
        || -> (Tells, bool)
            requires { IsCollectorOf heap.now tells.collector }
            ensures { SameProducer tells.teller.tube.producer result.0.teller.tube.producer }
        { tell_all(heap, tells) },
        || -> Heard
            ensures { SameListener listener result.listener }
        { hear_two(listener) },
    )
}

// Whether the collector completed its collection on a thread, what the listener heard on another, and what waited once both were joined.
#[derive(Clone, Copy)]
struct OnThreads {
    is_done: bool,
    heard: [Option<u32>; 2],
    waiting: u32,
    rest: Option<u32>,
}

fn tell_thread<R: Abort + Threads>(rt: &R, alloc: Global) -> Result<OnThreads, Fail> {
    let (teller, listener) = notices(alloc, 1)?;
    let (heap, mutators, collector) = started(rt, alloc)?;
    let ((mut tells, is_done), mut heard) = tell_and_hear(
        rt,
        &heap,
        Tells { collector, teller },
        listener,
    );
    let waiting = together(&mut tells.teller, &mut heard.listener);
    drop((heap, mutators, tells));
    Ok(OnThreads {
        is_done,
        heard: heard.labels,
        waiting,
        rest: heard.listener.hear(),
    })
}

#[test]
fn a_listener_on_a_thread_is_told(rt: HostRuntime) -> Result<(), Fail> {
    let row = tell_thread(&rt, rt.alloc())?;
    assert!(rt; row.is_done);
    assert_eq!(rt; row.heard, [Some(1), Some(2)]);
    assert_eq!(rt; row.waiting, 0);
    assert_eq!(rt; row.rest, None);
    Ok(())
}
