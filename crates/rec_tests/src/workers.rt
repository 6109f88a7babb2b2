//! That the workers of `recycler threads` run beside each other: each of them is held until others have come on.

use crate::program::run_with;
use rec_io::{BytesSource, RoomSink};
use rec_run::Status;
use rec_threads::Gate;
use std::process::Abort;
use std::sync::Wait;
use std::sync::atomic::{AtomicBool, AtomicU64, Ordering};
use std::test::Fail;
use std::thread::{Threads, yield_now};

// How often a worker that is held looks for what it waits for, at most.
const LOOKS: u32 = 200_000_000;

// How many turns of the collector a command waits for; and how many where the collector waits for another mutator meanwhile.
const TURNS: u64 = 64;

const WAITING_TURNS: u64 = 5_000;

// Behind this gate the script is carried out on threads, to this text.
fn comes_to<R: Abort + AllocGlobal + Threads + Wait + Sync, G: Gate>(
    rt: &R,
    script: &str,
    gate: &G,
    text: &str,
) -> Result<(), Fail> {
    let words: [&str; 2] = ["recycler", "threads"];
    let mut source = BytesSource::open(rt.alloc(), script.as_bytes(), &[])?;
    let mut sink = RoomSink::open(rt.alloc(), 1_000, &[])?;
    let status = run_with(rt, &words, &mut source, &mut sink, gate);
    assert_eq!(rt; status, Status::Done);
    assert_eq!(rt; sink.bytes(), text.as_bytes());
    Ok(())
}

// Holds each of two mutators before its second command until the other has come to its own.
#[derive(Drop)]
struct Meeting {
    first: AtomicBool,
    second: AtomicBool,
    missed: AtomicBool,
}

// Whether it is set in time.
fn is_set(flag: &AtomicBool) -> bool {
    for _ in 0..LOOKS {
        if flag.load(Ordering::SeqCst) {
            return true;
        }
        yield_now();
    }
    false
}

impl Gate for Meeting {
    fn pass(&self, mutator: u8, command: u32) {
        if command != 2 {
            return;
        }
        let came = if mutator == 1 {
            self.first.store(true, Ordering::SeqCst);
            is_set(&self.second)
        } else {
            self.second.store(true, Ordering::SeqCst);
            is_set(&self.first)
        };
        if !came {
            self.missed.store(true, Ordering::SeqCst);
        }
    }

    fn turn(&self, _n: u32) {}
}

#[test]
fn mutators_run_beside_each_other(rt: HostRuntime) -> Result<(), Fail> {
    let gate = Meeting {
        first: AtomicBool::new(false),
        second: AtomicBool::new(false),
        missed: AtomicBool::new(false),
    };
    let script = "recycler 1\nheap 2 1 2\nmutator\nnull 1\nnull 1\nmutator\nnull 1\nnull 1\n";
    let text =
        "1.1 done\n1.2 done\n2.1 done\n2.2 done\nlive 1\n#1 label 0 count 2 fields -\nmade 1 refused 0 freed 0\n";
    comes_to(&rt, script, &gate, text)?;
    // Both passed the gate.
    assert!(rt; gate.first.load(Ordering::SeqCst));
    assert!(rt; gate.second.load(Ordering::SeqCst));
    assert!(rt; !gate.missed.load(Ordering::SeqCst));
    Ok(())
}

// Holds each command but the first until the collector has come to so many turns more.
#[derive(Drop)]
struct Turning {
    most: u64,
    turns: AtomicU64,
    missed: AtomicBool,
}

impl Gate for Turning {
    fn pass(&self, _mutator: u8, command: u32) {
        if command < 2 {
            return;
        }
        let before = self.turns.load(Ordering::SeqCst);
        for _ in 0..LOOKS {
            if self.turns.load(Ordering::SeqCst).wrapping_sub(before) >= self.most {
                return;
            }
            yield_now();
        }
        self.missed.store(true, Ordering::SeqCst);
    }

    fn turn(&self, _n: u32) {
        self.turns.fetch_add(1, Ordering::SeqCst);
    }
}

#[test]
fn the_collector_runs_beside_a_mutator(rt: HostRuntime) -> Result<(), Fail> {
    let gate = Turning {
        most: TURNS,
        turns: AtomicU64::new(0),
        missed: AtomicBool::new(false),
    };
    let script = "recycler 1\nheap 2 1 2\nmutator\nnew 1 1\nnull 1\nnull 1\nnew 1 2\n";
    let text =
        "1.1 done\n1.2 done\n1.3 done\n1.4 done\nlive 2\n#1 label 0 count 1 fields -\n#2 label 2 count 1 fields -\nmade 3 refused 0 freed 1\n";
    comes_to(&rt, script, &gate, text)?;
    assert!(rt; !gate.missed.load(Ordering::SeqCst));
    Ok(())
}

// The first mutator has no command. It polls on while the second one works, so collections become complete, and the slot of the object
// that the second one dropped is free for another.
#[test]
fn a_mutator_that_is_done_polls_on(rt: HostRuntime) -> Result<(), Fail> {
    let gate = Turning {
        most: WAITING_TURNS,
        turns: AtomicU64::new(0),
        missed: AtomicBool::new(false),
    };
    let script = "recycler 1\nheap 2 1 2\nmutator\nmutator\nnew 1 1\nnull 1\nnull 1\nnew 1 2\n";
    let text =
        "2.1 done\n2.2 done\n2.3 done\n2.4 done\nlive 2\n#1 label 0 count 2 fields -\n#2 label 2 count 1 fields -\nmade 3 refused 0 freed 1\n";
    comes_to(&rt, script, &gate, text)?;
    assert!(rt; !gate.missed.load(Ordering::SeqCst));
    Ok(())
}
