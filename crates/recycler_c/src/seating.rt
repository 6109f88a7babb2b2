//! Mutators go out into their handles as a heap starts, and come home as it stops.
ghost use Rattle.std.specs.Prelude.{◌≡◌, ℕ, ◌<◌, ◌≤◌, All, IsSome, Some, [], length, vec_capacity, slice_index_or};
ghost use Rattle.std.specs.Arc.{arc_value};
ghost use Rattle.rec_table.specs.Views.{MutatorView, Started};
ghost use Rattle.recycler_c.specs.Calls.{IsOut};
ghost use Rattle.recycler_c.specs.First.{AreFirst};
ghost use Rattle.recycler_c.specs.Standing.{held_at, mutates_in};
ghost use Rattle.recycler_c.specs.declared.end.End.TheVariants as ends;
ghost use Rattle.recycler_c.specs.declared.end.Mutating.{Mutating as Out};
ghost use Rattle.recycler_c.specs.declared.handle.Handle.{Handle as Handles};

use crate::end::{End, Mutating};
use crate::handle::{Handle, fill};
use rec_table::{Heap, Mutator};
use std::alloc::Global;
use std::sync::Arc;

/// Each mutator goes out into the handle with its number, with a pointer to its heap.
pub fn hand_out(
    alloc: Global,
    handles: &mut [Handle],
    home: &mut Vec<Mutator>,
    mut heaps: Vec<Arc<Heap>>,
)
    requires room { length home.old.items ≤ length handles.old }
    requires open { (k : ℕ) (d : Handles) → k < length home.old.items → IsSome (held_at handles.old k d) }
    requires heaps { length heaps.items ≡ length home.old.items }
    requires own { (s : Started) × All (λ heap. arc_value heap ≡ s) heaps.items × AreFirst s home.old.items }

    ensures home { home.new.items ≡ [] }
    ensures capacity { vec_capacity home.new ≡ vec_capacity home.old }
    ensures out { (s : Started) → All (λ heap. arc_value heap ≡ s) heaps.items → (k : ℕ) (d : Handles) (e : MutatorView) → k < length home.old.items → IsOut s (slice_index_or home.old.items k e) (held_at handles.new k d) }
    ensures others { (k : ℕ) (d : Handles) → length home.old.items ≤ k → held_at handles.new k d ≡ held_at handles.old k d }
{
    while let Some(mutator) = home.pop() {
        let own = home.len();
        let heap = heaps.pop().unwrap();
        let mut seat = handles[own].take(alloc);
        fill(&mut seat, End::Mutating(Mutating { heap, mutator }));
        handles[own].put(seat);
    }
}

/// The mutators that are out come home, in order of number.
pub fn gather(alloc: Global, handles: &mut [Handle], home: &mut Vec<Mutator>, count: usize)
    requires none { home.old.items ≡ [] }
    requires room { (count ≤ length handles.old) × (count ≤ vec_capacity home.old) }
    requires out { (k : ℕ) (d : Handles) → k < count → IsSome (mutates_in (held_at handles.old k d)) }

    ensures count { length home.new.items ≡ count }
    ensures capacity { vec_capacity home.new ≡ vec_capacity home.old }
    ensures home { (k : ℕ) (d : Handles) (e : MutatorView) (m : Out) → k < count → mutates_in (held_at handles.old k d) ≡ Some m → slice_index_or home.new.items k e ≡ m.mutator }
    ensures vacant { (k : ℕ) (d : Handles) → k < count → held_at handles.new k d ≡ Some ends.Vacant }
    ensures others { (k : ℕ) (d : Handles) → count ≤ k → held_at handles.new k d ≡ held_at handles.old k d }
{
    for k in 0..count {
        let mut seat = handles[k].take(alloc);
        let out = Box::replace(&mut seat, End::Vacant);
        handles[k].put(seat);
        home.push_reserved(mutator_of(out));
    }
}

// The mutator that was out.
fn mutator_of(out: End) -> Mutator
    requires { IsSome (mutates_in (Some out)) }
    ensures { (m : Out) → mutates_in (Some out) ≡ Some m → result ≡ m.mutator }
{
    match out {
        End::Mutating(mutating) => {
            let Mutating { heap: _, mutator } = mutating;
            mutator
        }
        _ => unreachable!(),
    }
}
