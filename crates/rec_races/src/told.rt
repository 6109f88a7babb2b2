//! What a listener hears of a race: each label that was freed, as often.

ghost use Rattle.std.specs.Prelude.{◌≡◌};
ghost use Rattle.std.specs.Thread.{IsSync};
ghost use Rattle.rtrb.specs.Ring.{SameProducer};
ghost use Rattle.rec_notice.specs.Ring.{AreEnds, SameListener};
ghost use Rattle.rec_table.specs.Views.{AreMutatorsOf, IsCollectorOf, IsMutatorOf};

use crate::crew::poll_on;
use crate::race::start;
use crate::signals::Signals;
use crate::threads::stop;
use rec_collector::Turn;
use rec_model::{Answer, Cmd};
use rec_notice::{Listener, RingTube, Teller, notices, together};
use rec_table::{Collector, Heap, Mutator, Telling};
use rec_world::{Config, Policy, World};
use std::alloc::{AllocError as NoMemory, Global};
use std::process::Abort;
use std::sync::atomic::{AtomicBool, AtomicU64, Ordering};
use std::test::Fail;
use std::thread::{Threads, for_each_mut, join, yield_now};

// Fewer slots than the mutators make objects, so that slots are freed and claimed again.
const CONFIG: Config = Config {
    slots: 8,
    fields: 1,
    registers: 2,
    mutators: 4,
    log_entries: 16,
    first_epoch: 1,
    policy: Policy {
        steady: false,
        least_roots: 0,
        most_postponed: 0,
    },
};

const ROUNDS: u32 = 300;

// A mutator makes so many objects.
const OBJECTS: u32 = 5;

// So few labels fit into the ring that the collector has to hold some.
const ROOM: u32 = 2;

// How many turns the collector makes, how often the listener listens, and how often a mutator asks for an object, at most.
const TRIES: u32 = 10_000_000;

/// How many objects there are of each label. The labels are the mutators' numbers.
#[derive(Clone, Copy)]
struct Counts {
    of: [u64; 5],
}

impl Counts {
    fn none() -> Counts {
        Counts { of: [0; 5] }
    }

    // One object more with this label.
    fn add(&mut self, label: u32) {
        let label = label as usize;
        if label < 5 {
            self.of[label] = self.of[label].wrapping_add(1);
        }
    }
}

// What the threads of a race share.
#[derive(Drop)]
struct Shared {
    signals: Signals,
    // How many objects each mutator made.
    births: Vec<AtomicU64>,
    // Whether the collector makes no more turns.
    over: AtomicBool,
}

impl Shared {
    fn new(alloc: Global) -> Result<Shared, NoMemory> {
        let mut births = Vec::new(alloc);
        for _ in 0..CONFIG.mutators {
            births.push(AtomicU64::new(0))?;
        }
        Ok(Shared {
            signals: Signals::of(CONFIG.mutators),
            births,
            over: AtomicBool::new(false),
        })
    }

    fn birth(&self, mutator: usize) {
        if let Some(births) = self.births.get(mutator) {
            births.fetch_add(1, Ordering::SeqCst);
        }
    }

    // How many objects of each label were made.
    fn made(&self) -> Counts {
        let mut made = Counts::none();
        for (place, births) in self.births.iter().enumerate() {
            if place < 4 {
                made.of[place + 1] = births.load(Ordering::SeqCst);
            }
        }
        made
    }
}

// Makes objects, with the mutator's number as their label, and drops each.
fn make_and_drop(heap: &Heap, mutator: &mut Mutator, place: usize, shared: &Shared)
    requires { IsMutatorOf heap.now mutator.old }
    ensures { mutator.new ≡ record mutator.old { log = mutator.new.log } }
{
    shared.signals.meet();
    for _ in 0..OBJECTS {
        if make(heap, mutator) {
            shared.birth(place);
        }
        let drop = Cmd::Null { reg: 1 };
        if mutator.valid(&drop) {
            mutator.command(heap, drop);
        }
    }
    shared.signals.end();
    poll_on(heap, mutator, &shared.signals);
}

// Makes an object, as soon as a slot and the log have room for it, and tells whether it did.
fn make(heap: &Heap, mutator: &mut Mutator) -> bool
    requires { IsMutatorOf heap.now mutator.old }
    ensures { mutator.new ≡ record mutator.old { log = mutator.new.log } }
{
    let label = u32::from(mutator.number());
    let birth = Cmd::New { reg: 1, label };
    for _ in 0..TRIES {
        if mutator.valid(&birth) && mutator.command(heap, birth).answer == Answer::Done {
            return true;
        }
        if !mutator.left() {
            mutator.poll(heap);
        }
        yield_now();
    }
    false
}

fn mutate_all<R: Threads + Sync>(
    rt: &R,
    heap: &Heap,
    mut mutators: Vec<Mutator>,
    shared: &Shared,
) -> Vec<Mutator>
    requires { AreMutatorsOf heap.now mutators.items }
    ensures { AreMutatorsOf heap.now result.items }
{
    let threads = mutators.len().max(1);
    for_each_mut(
        rt,
        mutators.as_mut_slice(),
        threads,
        &|i: usize, mutator: &mut Mutator|
            requires { IsMutatorOf heap.now mutator.old }
            ensures { mutator.new ≡ record mutator.old { log = mutator.new.log } }
        { make_and_drop(heap, mutator, i, shared) },
    );
    mutators
}

/// What the collector's thread has.
#[derive(Drop)]
pub struct Tells {
    pub collector: Collector,
    pub teller: Teller<RingTube>,
}

// What the listener's thread has.
#[derive(Drop)]
struct Listens {
    listener: Listener,
    heard: Counts,
}

// Turns and tells, as long as the mutators work.
fn tell(heap: &Heap, mut tells: Tells, shared: &Shared) -> Tells
    requires { IsCollectorOf heap.now tells.collector }
    ensures collector { IsCollectorOf heap.now result.collector }
    ensures same { SameProducer tells.teller.tube.producer result.teller.tube.producer }
{
    shared.signals.meet();
    for _ in 0..TRIES {
        if shared.signals.is_over() {
            break;
        }
        match tells.collector.turn_telling(heap, &mut tells.teller) {
            Telling::Turned(Turn::Moved) => {}
            _ => yield_now(),
        }
    }
    shared.over.store(true, Ordering::SeqCst);
    tells
}

// Hears as long as the collector turns.
fn listen(mut listens: Listens, shared: &Shared) -> Listens
    ensures { SameListener listens.listener result.listener }
{
    for _ in 0..TRIES {
        match listens.listener.hear() {
            Some(label) => listens.heard.add(label),
            None => {
                if shared.over.load(Ordering::SeqCst) {
                    break;
                }
                yield_now();
            }
        }
    }
    listens
}

// Hears the labels that still wait, and then the one that the teller kept, which there is room for by then.
fn hear_rest(teller: &mut Teller<RingTube>, listener: &mut Listener, heard: &mut Counts)
    requires { AreEnds teller.old.tube listener.old }
{
    for _ in 0..2u32 {
        let waiting = together(teller, listener);
        hear(listener, heard, waiting);
        teller.again();
    }
}

fn hear(listener: &mut Listener, heard: &mut Counts, most: u32)
    ensures { SameListener listener.old listener.new }
{
    for _ in 0..most {
        if let Some(label) = listener.hear() {
            heard.add(label);
        }
    }
}

// What came of the threads of a race.
#[derive(Drop)]
struct Ended {
    mutators: Vec<Mutator>,
    tells: Tells,
    listens: Listens,
}

// The mutators make and drop, the collector turns and tells, and the listener hears, each on a thread of its own.
fn run<R: Threads + Sync>(
    rt: &R,
    heap: &Heap,
    mutators: Vec<Mutator>,
    tells: Tells,
    listens: Listens,
    shared: &Shared,
) -> Ended
    requires mutators { AreMutatorsOf heap.now mutators.items }
    requires collector { IsCollectorOf heap.now tells.collector }
    requires ends { AreEnds tells.teller.tube listens.listener }
    ensures mutators { AreMutatorsOf heap.now result.mutators.items }
    ensures collector { IsCollectorOf heap.now result.tells.collector }
    ensures ends { AreEnds result.tells.teller.tube result.listens.listener }
{
    let (tells, (mutators, listens)) = join(
        rt,
        || -> Tells
            requires { IsCollectorOf heap.now tells.collector }
            ensures { IsCollectorOf heap.entry.now result.collector × SameProducer tells.teller.tube.producer result.teller.tube.producer }
        { tell(heap, tells, shared) },
        || -> (Vec<Mutator>, Listens)
            requires { IsSync R.row × AreMutatorsOf heap.now mutators.items }
            ensures { AreMutatorsOf heap.entry.now result.0.items × SameListener listens.listener result.1.listener }
        { mutate_and_listen(rt, heap, mutators, listens, shared) },
    );
    Ended {
        mutators,
        tells,
        listens,
    }
}

fn mutate_and_listen<R: Threads + Sync>(
    rt: &R,
    heap: &Heap,
    mutators: Vec<Mutator>,
    listens: Listens,
    shared: &Shared,
) -> (Vec<Mutator>, Listens)
    requires { AreMutatorsOf heap.now mutators.items }
    ensures mutators { AreMutatorsOf heap.now result.0.items }
    ensures listener { SameListener listens.listener result.1.listener }
{
    let (listened, mutators) = join(
        rt,
        || -> Listens
            ensures { SameListener listens.listener result.listener }
        { listen(listens, shared) },
        || -> Vec<Mutator>
            requires { IsSync R.row × AreMutatorsOf heap.now mutators.items }
            ensures { AreMutatorsOf heap.entry.now result.items }
        { mutate_all(rt, heap, mutators, shared) },
    );
    (mutators, listened)
}

// How many objects of each label a world holds.
fn left_in(world: &World) -> Counts {
    let mut left = Counts::none();
    for slot in 0..world.slots() {
        if let Some(label) = world.label(slot) {
            left.add(label);
        }
    }
    left
}

// What a race came to: how many objects of each label were made, heard of as freed, and left.
#[derive(Clone, Copy)]
struct Outcome {
    made: Counts,
    heard: Counts,
    left: Counts,
}

// One race.
fn race<R: Abort + Threads + Sync>(rt: &R, alloc: Global) -> Result<Outcome, Fail> {
    let shared = Shared::new(alloc)?;
    let (teller, listener) = notices(alloc, ROOM)?;
    let heard = Counts::none();
    let (heap, mutators, collector) = start(rt, alloc, CONFIG)?;
    let Ended {
        mutators,
        tells,
        listens,
    } = run(
        rt,
        &heap,
        mutators,
        Tells { collector, teller },
        Listens { listener, heard },
        &shared,
    );
    let Tells {
        collector,
        mut teller,
    } = tells;
    let Listens {
        mut listener,
        mut heard,
    } = listens;
    hear_rest(&mut teller, &mut listener, &mut heard);
    let world = stop(alloc, heap, mutators, collector);
    let left = left_in(&world);
    drop(world);
    Ok(Outcome {
        made: shared.made(),
        heard,
        left,
    })
}

// What was made and isn't left was freed, and each label of it was heard as often.
#[test]
fn each_freed_label_is_heard_as_often(rt: HostRuntime) -> Result<(), Fail> {
    let alloc: Global = rt.alloc();
    let mut heard = 0u64;
    for _ in 0..ROUNDS {
        let outcome = race(&rt, alloc)?;
        for label in 1..5usize {
            let freed = outcome.made.of[label].wrapping_sub(outcome.left.of[label]);
            assert_eq!(rt; outcome.heard.of[label], freed);
            heard = heard.wrapping_add(freed);
        }
    }
    assert!(rt; heard > 0);
    Ok(())
}
