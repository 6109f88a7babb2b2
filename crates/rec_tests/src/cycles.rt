//! Garbage cycles in played runs: some collections after the last command each is gone.

ghost use Rattle.std.specs.Prelude.{◌≡◌, ◌≤◌, [], IfOk};
ghost use Rattle.std.specs.List.{sum};
ghost use Rattle.rec_play.specs.Played.{AreReady, lengths_of};
ghost use Rattle.rec_play.specs.Start.{MayBegin};

use rec_collector::{Sets, Turn};
use rec_model::Cmd;
use rec_play::{config_for, journals_for, order_for, play};
use rec_script::{Script, read};
use rec_world::{Journal, OpenError, Order, World};
use std::alloc::{AllocError as NoMemory, Global};
use std::test::Fail;

// How many turns are drawn for a script.
const DRAWN: u32 = 4_000;

// More turns than the collections take that free what nothing reaches, and how many those are: two count what was let go of,
// two find and free a cycle, and one may be under way.
const TURNS: u32 = 20_000;

const COLLECTIONS: u32 = 5;

// Mutators that make rings, rings with tails and rings that are joined, publish them in the first object, enter those of the
// others while these may be candidates, and let go of all.
const MAKER: &str =
    "new 1 1\nnew 2 2\nput 1 0 2\nput 2 0 1\nput 0 0 1\nnull 2\nget 2 1 0\nput 2 1 1\nnew 3 3\nput 1 1 3\nnull 1\nnull 2\nput 3 1 3\nput 0 0 3\nnull 3\nput 0 0 3\n";

const JOINER: &str =
    "new 1 4\nnew 2 5\nput 1 0 2\nput 2 1 1\nget 3 0 0\nput 1 1 3\nput 3 1 1\nnull 1\nnull 2\nvalue 3\nget 3 3 0\nput 0 1 3\nnull 3\nput 0 1 3\nput 0 0 3\n";

const VISITOR: &str =
    "get 1 0 0\nget 2 1 0\nput 1 1 2\nput 2 1 2\nget 2 2 0\nvalue 2\nput 0 1 2\nnull 1\nnull 2\nget 1 0 1\nput 1 0 1\nnull 1\nput 0 0 1\nput 0 1 1\n";

// A mutator that publishes an object in the first one, leaves it there over some epochs, and lets go of it: where that happens
// while a trial blackens what it has marked, the object is a set with a reference from outside.
const KEEPER: &str =
    "new 1 6\nput 0 0 1\nnull 1\nsame 0 0\nsame 0 0\nsame 0 0\nsame 0 0\nsame 0 0\nsame 0 0\nsame 0 0\nsame 0 0\nsame 0 0\nsame 0 0\nsame 0 0\nsame 0 0\nsame 0 0\nput 0 0 1\nsame 0 0\nsame 0 0\nsame 0 0\n";

// A script in which each of these mutators makes its commands ten times over.
fn repeated(alloc: Global, front: &str, mutators: &[&str]) -> Result<String, NoMemory> {
    let mut text = String::new(alloc);
    text.push_str(front)?;
    for commands in mutators {
        text.push_str("mutator\n")?;
        for _ in 0..10 {
            text.push_str(commands)?;
        }
    }
    Ok(text)
}

// The collector makes a turn. Where it waits for a mutator, that mutator polls.
fn turn(world: &mut World) {
    if let Turn::Waiting { mutator } = world.turn() {
        poll(world, mutator);
    }
}

fn poll(world: &mut World, t: u8) {
    let any = Cmd::Null { reg: 0 };
    if world.valid(t, &any) && !world.busy(t) {
        world.poll(t);
    }
}

// Turns until those collections are complete. How many objects are left then, and what became of the sets.
fn collect(world: &mut World) -> (u64, Sets) {
    let last = world.collections().saturating_add(COLLECTIONS);
    for _ in 0..TURNS {
        if world.collections() >= last {
            break;
        }
        turn(world);
    }
    (world.made().saturating_sub(world.freed()), world.sets())
}

// The heap of a script.
fn open_world(alloc: Global, script: &Script) -> Result<World, OpenError>
    ensures { IfOk result (MayBegin script.now) }
{
    World::open(alloc, config_for(script))
}

// Plays a script on a heap on which it may begin.
fn play_on(
    script: &Script,
    seed: u64,
    world: &mut World,
    journals: &mut [Journal],
    order: &mut Order,
)
    requires begins { MayBegin script.now world.old }
    requires journals { AreReady script.now.commands journals.old }
    requires order { order.old.list ≡ [] }
    requires room { sum (lengths_of script.now) ≤ order.old.room }
{
    play(script, seed, DRAWN, world, journals, order);
}

// Plays the script of a text, and collects. How many objects are left, and what became of the sets.
fn left_after(alloc: Global, text: &[u8], seed: u64) -> Result<(u64, Sets), Fail> {
    let script = read(alloc, text)?;
    play_and_collect(alloc, &script, seed)
}

// The world is opened last, so there is one way out that drops it.
fn play_and_collect(alloc: Global, script: &Script, seed: u64) -> Result<(u64, Sets), Fail> {
    let mut journals = journals_for(alloc, script)?;
    let mut order = order_for(alloc, script)?;
    let mut world = open_world(alloc, script)?;
    play_on(script, seed, &mut world, &mut journals, &mut order);
    let collected = collect(&mut world);
    drop(world);
    Ok(collected)
}

fn sum_of(a: Sets, b: Sets) -> Sets {
    Sets {
        freed: a.freed.saturating_add(b.freed),
        delta: a.delta.saturating_add(b.delta),
        sigma: a.sigma.saturating_add(b.sigma),
    }
}

// Under these seeds a set is freed, and each test refuses one.
#[test]
fn cycles_are_freed(rt: HostRuntime) -> Result<(), Fail> {
    let alloc: Global = rt.alloc();
    let scripts = [
        repeated(alloc, "recycler 1\nheap 4 2 4\n", &[MAKER, VISITOR])?,
        repeated(alloc, "recycler 1\nheap 8 1 2\n", &[KEEPER])?,
        repeated(alloc, "recycler 1\nheap 16 2 4\n", &[MAKER, JOINER])?,
        repeated(
            alloc,
            "recycler 1\nheap 64 2 4\n",
            &[MAKER, JOINER, VISITOR],
        )?,
    ];
    let mut all = Sets {
        freed: 0,
        delta: 0,
        sigma: 0,
    };
    for text in &scripts {
        for seed in 0..20 {
            let (left, sets) = left_after(alloc, text.as_bytes(), seed)?;
            assert_eq!(rt; left, 1, "with seed {seed}");
            all = sum_of(all, sets);
        }
    }
    assert!(rt; all.freed > 0 && all.delta > 0 && all.sigma > 0, "{all:?}");
    Ok(())
}
