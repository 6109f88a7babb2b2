//! A trace as a whole: what the registers name, and then frontier by frontier.

ghost use Rattle.std.specs.Prelude.{◌≡◌, ◌↔◌, ◌≤◌, ℕ, true, [], List, IfOk};
ghost use Rattle.rec_model.specs.Heap.{roots};
ghost use Rattle.rec_model.specs.Numbering.{IsDistinct, joined};
ghost use Rattle.rec_model.specs.Reach.{is_in};
ghost use Rattle.rec_model.specs.Sight.{NumbersSlots, Reaches};
ghost use Rattle.rec_world.specs.World.{sight};

use crate::fields::Fields;
use crate::frontier::follow;
use rec_world::{Numbering, World};
use std::alloc::{AllocError as NoMemory, Global};
use std::thread::Threads;

/// The slots on a path of fields from a register, each once, in the order of a listing. `pieces`, from 1, is how many chunks a frontier
/// is cut into at most, each for a thread; it changes nothing in the answer.
pub fn trace<R: Threads + Sync>(
    rt: &R,
    alloc: Global,
    world: &World,
    pieces: u16,
) -> Result<Vec<u16>, NoMemory>
    requires { 1 ≤ pieces }

    // By the registers, mutator by mutator, and then by the fields of each listed slot in order, each slot where it is first met.
    ensures numbers { IfOk result (λ slots. NumbersSlots (sight world.now) slots.items) }

    // It is just what is reached, without repeats, and there is no other such list.
    ensures reached { IfOk result (λ slots. (slot : ℕ) → Reaches (sight world.now) slot ↔ (is_in slot slots.items ≡ true)) }
    ensures once { IfOk result (λ slots. IsDistinct slots.items) }
    ensures only { IfOk result (λ slots. (others : List ℕ) → NumbersSlots (sight world.now) others → slots.items ≡ others) }
{
    let fields = Fields {
        words: world.words(),
        each: usize::from(world.fields()),
    };
    let mut found = Numbering::open(alloc, world.slots())?;
    meet_roots(world, &mut found);
    let mut first = 0;
    while first < found.list().len() {
        let next = found.list().len();
        found = follow(rt, alloc, fields, pieces, first, found)?;
        first = next;
    }
    Ok(found.into_list())
}

// Numbers what the registers name, mutator by mutator.
fn meet_roots(world: &World, found: &mut Numbering)
    requires slots { found.old.slots ≡ world.now.config.slots }
    requires empty { found.old.list ≡ [] }

    ensures slots { found.new.slots ≡ found.old.slots }
    ensures joined { found.new.list ≡ joined [] (roots (sight world.now).registers) }
{
    for i in 0..world.mutators() {
        found.meet_registers(world.registers(i + 1));
    }
}
