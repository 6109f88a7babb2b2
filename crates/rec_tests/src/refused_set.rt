//! A refused set, and the release of its zeros to the end. The test asks at run time for what a call requires.
ghost use Rattle.std.specs.Prelude.{◌≡◌, ◌<◌, length, IfOk, IsSome};
ghost use Rattle.rec_release.specs.Release.{IsAtWork, IsReady, next_of};
ghost use Rattle.rec_tests.specs.Worked.{IsWorked};

use rec_counts::{Colour, Counts};
use rec_release::Release;
use rec_sigma::refurbish;
use std::alloc::{AllocError as NoMemory, Global};
use std::process::Abort;
use std::test::Fail;

#[test]
fn a_refused_set_is_released_to_its_end(rt: HostRuntime) -> Result<(), Fail> {
    let mut counts = set_of_four(&rt, rt.alloc())?;
    refuse(&mut counts);
    look_at_refused(&rt, &counts);
    release_all(&rt, &mut counts);
    assert!(rt; has(counts.free_list(), &[4, 1]));
    assert!(rt; counts.zeros().is_empty());
    Ok(())
}

// Each member is where it belongs.
fn look_at_refused(rt: &impl Abort, counts: &Counts)
    requires { length counts.now.slots ≡ 8 }
{
    assert!(rt; has(counts.zeros(), &[1]));
    assert!(rt; has(counts.roots(), &[2]));
    assert!(rt; has(counts.free_list(), &[4]));
    assert!(rt; is_plain(counts, 1) && is_plain(counts, 3) && is_plain(counts, 4));
}

// The zeros are released, which takes one step.
fn release_all(rt: &impl Abort, counts: &mut Counts)
    requires { IsReady counts.old }
{
    let mut release = Release::idle(1);
    release.start(counts, true);
    assert!(rt; release.next().is_some());
    release.took(counts, 0);
    assert_eq!(rt; release.next(), None);
}

// Eight slots, and a set of four: an orange slot without references, a purple one and an orange one with a reference each, and a black
// one without references that is released.
fn set_of_four(rt: &impl Abort, alloc: Global) -> Result<Counts, NoMemory>
    ensures { IfOk result IsWorked }
{
    let mut counts = Counts::open(alloc, 8, &[1])?;
    counts.begin_set();
    join(rt, &mut counts, 1, Colour::Orange);
    join(rt, &mut counts, 2, Colour::Purple);
    join(rt, &mut counts, 3, Colour::Orange);
    join(rt, &mut counts, 4, Colour::Black);
    lose(rt, &mut counts, 1);
    lose(rt, &mut counts, 4);
    counts.release(4);
    Ok(counts)
}

// A slot of this colour joins the set.
fn join(rt: &impl Abort, counts: &mut Counts, slot: u16, colour: Colour)
    requires worked { IsWorked counts.old }
    requires in_range { slot < 8 }
    ensures worked { IsWorked counts.new }
{
    assert!(rt; !counts.buffered(slot));
    counts.join_set(slot);
    counts.set_colour(slot, colour);
}

// A slot loses its reference.
fn lose(rt: &impl Abort, counts: &mut Counts, slot: u16)
    requires worked { IsWorked counts.old }
    requires in_range { slot < 8 }
    ensures worked { IsWorked counts.new }
{
    assert!(rt; counts.count(slot) > 0);
    counts.lower(slot);
}

// The set is refurbished.
fn refuse(counts: &mut Counts)
    requires { IsWorked counts.old }
    ensures slots { length counts.new.slots ≡ 8 }
    ensures ready { IsReady counts.new }
{
    refurbish(counts, 0);
}

// Whether the list is this one.
fn has(list: &[u16], expected: &[u16]) -> bool {
    list == expected
}

// Whether a slot is Black and in no buffer.
fn is_plain(counts: &Counts, slot: u16) -> bool
    requires { slot < length counts.now.slots }
{
    counts.colour(slot) == Colour::Black && !counts.buffered(slot)
}
