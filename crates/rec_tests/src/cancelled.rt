//! A batch in which a write and its replacement cancel: they leave a slot's count, and touch it.
ghost use Rattle.std.specs.Prelude.{◌≡◌, ◌∷◌, [], IfOk};
ghost use Rattle.rec_tests.specs.Paired.{IsSetOfOne, one_write};

use rec_counts::{Colour, Counts, apply};
use rec_log::{Buffer, Entry};
use rec_sigma::delta;
use std::alloc::{AllocError as NoMemory, Global};
use std::process::Abort;
use std::test::Fail;

#[test]
fn a_cancelled_pair_touches_its_slot(rt: HostRuntime) -> Result<(), Fail> {
    let mut counts = set_of_one(rt.alloc())?;
    let applied = apply_pair(&rt, rt.alloc(), &mut counts, false);
    drop(counts);
    applied?;
    Ok(())
}

#[test]
fn it_touches_its_slot_in_a_steady_heap_too(rt: HostRuntime) -> Result<(), Fail> {
    let mut counts = set_of_one(rt.alloc())?;
    let applied = apply_pair(&rt, rt.alloc(), &mut counts, true);
    drop(counts);
    applied?;
    Ok(())
}

// The set passes the second test before the pair is applied, and not behind it. The slot's count is as it was, and it is no root.
fn apply_pair(
    rt: &impl Abort,
    alloc: Global,
    counts: &mut Counts,
    steady: bool,
) -> Result<(), NoMemory>
    requires { IsSetOfOne counts.old }
{
    assert!(rt; delta(counts, 0));
    let (newer, older) = pair(rt, alloc)?;
    apply(counts, &newer, &older, steady);
    drop((newer, older));
    assert_eq!(rt; counts.count(1), 1);
    assert_eq!(rt; counts.colour(1), Colour::Purple);
    assert!(rt; counts.roots().is_empty());
    assert!(rt; !delta(counts, 0));
    Ok(())
}

// The logs of a write of slot 1 and of its replacement, an epoch later and in it.
fn pair(rt: &impl Abort, alloc: Global) -> Result<([Buffer; 1], [Buffer; 1]), NoMemory>
    ensures newer { IfOk result (λ pair. pair.0 ≡ one_write 2 0 ∷ []) }
    ensures older { IfOk result (λ pair. pair.1 ≡ one_write 0 2 ∷ []) }
{
    let newer = log_of(rt, alloc, 2, 0)?;
    let older = log_of(rt, alloc, 0, 2)?;
    Ok(([newer], [older]))
}

// Two slots, of which slot 1 has one reference, and is Orange and alone in set 0.
fn set_of_one(alloc: Global) -> Result<Counts, NoMemory>
    ensures { IfOk result IsSetOfOne }
{
    let mut counts = Counts::open(alloc, 2, &[1])?;
    counts.begin_set();
    counts.join_set(1);
    counts.set_colour(1, Colour::Orange);
    Ok(counts)
}

// A log with one write: this word in the place of that one. The word 2 leads to slot 1.
fn log_of(rt: &impl Abort, alloc: Global, new: u64, old: u64) -> Result<Buffer, NoMemory>
    ensures { IfOk result (λ log. log ≡ one_write new old) }
{
    let mut log = Buffer::open(alloc, 1, 0)?;
    let pushed = log.push(Entry::Put { place: 0, new, old });
    assert!(rt; pushed.is_ok());
    Ok(log)
}
