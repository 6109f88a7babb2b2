//! A finalizer: what an object owns outside the heap is dropped once the collector has freed the object.
//!
//! An object of the heap has a label and fields, and no room for more. So a table beside the heap holds the payloads, each at its
//! object's label. The collector's turns tell the label of each object that they free, and a listener hears it. Then the payload is
//! taken out of the table and dropped, once.

ghost use Rattle.std.specs.Prelude.{◌≡◌, ◌%◌, All, IfOk};
ghost use Rattle.rec_core.specs.Worked.{AreIdle};
ghost use Rattle.rec_table.specs.Views.{AreMutatorsOf, IsCollectorOf, IsMutatorOf};

use rec_notice::{Listener, RingTube, Teller, notices};
use rec_table::{Collector, Heap, Mutator, Telling};
use rec_world::{Cmd, Config, OpenError, Policy, Turn, World};
use std::alloc::{AllocError as NoMemory, Global};
use std::io;

const CONFIG: Config = Config {
    slots: 8,
    fields: 1,
    registers: 3,
    mutators: 1,
    log_entries: 16,
    first_epoch: 1,
    policy: Policy {
        steady: false,
        least_roots: 0,
        most_postponed: 0,
    },
};

// How many labels may wait to be heard.
const ROOM: u32 = 4;

// More turns than three collections of this heap take.
const TURNS: u32 = 100;

// Two objects are made that own a payload each, and the second one is dropped.
const OWNERS: [Cmd; 3] = [
    Cmd::New { reg: 1, label: 1 },
    Cmd::New { reg: 2, label: 2 },
    Cmd::Null { reg: 2 },
];

// What objects own outside the heap: at an object's label, its payload.
#[derive(Drop)]
struct Payloads {
    of: Vec<Option<Vec<u8>>>,
}

impl Payloads {
    // Payloads of three bytes for the two owners. The heap's first object has label 0, and none.
    fn of_owners(alloc: Global) -> Result<Payloads, NoMemory> {
        let one = Vec::from_array(alloc, *b"one")?;
        let two = Vec::from_array(alloc, *b"two")?;
        let of = Vec::from_array(alloc, [None, Some(one), Some(two)])?;
        Ok(Payloads { of })
    }

    // Takes the payload of this label out of the table. A second time there is none.
    fn take(&mut self, label: u32) -> Option<Vec<u8>> {
        self.of.get_mut(label as usize)?.take()
    }
}

/// A heap with one mutator.
pub fn open(alloc: Global) -> Result<World, OpenError>
    ensures idle { IfOk result AreIdle }
    ensures home { IfOk result (λ world. All (λ word. word % 2 ≡ 0) world.crossing) }
{
    World::open(alloc, CONFIG)
}

/// Sets the heap running, makes the objects and drops one, and drops the payload of each object that is freed.
pub fn run(out: &impl Print, alloc: Global, world: World) -> anyhow::Result<()>
    requires idle { AreIdle world }
    requires home { All (λ word. word % 2 ≡ 0) world.crossing }
{
    match Heap::start(alloc, world) {
        Ok((heap, mut mutators, mut collector)) => {
            let worked = work(out, alloc, &heap, &mut mutators, &mut collector);
            drop((heap, mutators, collector));
            worked
        }
        Err((world, error)) => {
            drop(world);
            Err(error.into())
        }
    }
}

// The same, of a heap that was started. It has one mutator.
fn work(
    out: &impl Print,
    alloc: Global,
    heap: &Heap,
    mutators: &mut Vec<Mutator>,
    collector: &mut Collector,
) -> anyhow::Result<()>
    requires mutators { AreMutatorsOf heap.now mutators.old.items }
    requires collector { IsCollectorOf heap.now collector.old }
{
    if mutators.is_empty() {
        return Ok(());
    }
    let mutator = &mut mutators[0];
    make_owners(heap, mutator);
    finalize_all(out, alloc, heap, mutator, collector)
}

// Turns, and drops the payload of each object that is freed.
fn finalize_all(
    out: &impl Print,
    alloc: Global,
    heap: &Heap,
    mutator: &mut Mutator,
    collector: &mut Collector,
) -> anyhow::Result<()>
    requires mutator { IsMutatorOf heap.now mutator.old }
    requires collector { IsCollectorOf heap.now collector.old }
{
    let mut payloads = Payloads::of_owners(alloc)?;
    let (mut teller, mut listener) = notices(alloc, ROOM)?;
    for _ in 0..TURNS {
        turn(heap, mutator, collector, &mut teller);
        finalize(out, &mut listener, &mut payloads)?;
    }
    Ok(())
}

fn make_owners(heap: &Heap, mutator: &mut Mutator)
    requires { IsMutatorOf heap.now mutator.old }
    ensures { IsMutatorOf heap.now mutator.new }
{
    for cmd in &OWNERS {
        if mutator.valid(cmd) {
            mutator.command(heap, *cmd);
        }
    }
}

// One turn, which tells what it frees. The mutator polls where it is waited for.
fn turn(
    heap: &Heap,
    mutator: &mut Mutator,
    collector: &mut Collector,
    teller: &mut Teller<RingTube>,
)
    requires mutator { IsMutatorOf heap.now mutator.old }
    requires collector { IsCollectorOf heap.now collector.old }
    ensures mutator { IsMutatorOf heap.now mutator.new }
    ensures collector { IsCollectorOf heap.now collector.new }
{
    let telling = collector.turn_telling(heap, teller);
    if matches!(telling, Telling::Turned(Turn::Waiting { .. })) && !mutator.left() {
        mutator.poll(heap);
    }
}

// Drops the payload of the next freed object that is heard of. A turn frees one object at most, so behind each turn at most one label is
// new. A listener on a thread of its own would do the same.
fn finalize(out: &impl Print, listener: &mut Listener, payloads: &mut Payloads) -> io::Result<()> {
    if let Some(label) = listener.hear() {
        if let Some(payload) = payloads.take(label) {
            println!(out;
                "object {label} was freed, and {} bytes with it",
                payload.len()
            )?;
        }
    }
    Ok(())
}
