//! What a script is played with: the numbers of its heap, its journals and its order.

ghost use Rattle.std.specs.Prelude.{◌≡◌, ◌≤◌, [], IfOk};
ghost use Rattle.std.specs.List.{sum};
ghost use Rattle.rec_core.specs.Config.{IsConfig};
ghost use Rattle.rec_play.specs.Played.{AreReady, config_of, lengths_of};
ghost use Rattle.rec_script.specs.Script.{IsScript};

use crate::schedule::MOST_MUTATORS;
use arrayvec::ArrayVec;
use rec_script::Script;
use rec_world::{Config, Journal, Order, Policy};
use std::alloc::{AllocError as NoMemory, Global};

/// The numbers of the heap that a script is played on. Each log has room for the commands of the longest mutator, and for
/// one entry at least.
pub fn config_for(script: &Script) -> Config
    ensures config { result ≡ config_of script.now }
    ensures valid { IsConfig result }
{
    Config {
        slots: script.slots(),
        fields: script.fields(),
        registers: script.registers(),
        mutators: u32::from(script.mutators()),
        log_entries: script.longest().max(1),
        first_epoch: 1,
        policy: Policy {
            steady: false,
            least_roots: 0,
            most_postponed: 0,
        },
    }
}

/// An empty journal for each mutator, with room for its commands.
pub fn journals_for(alloc: Global, script: &Script) -> Result<Vec<Journal>, NoMemory>
    ensures { IfOk result (λ journals. AreReady script.now.commands journals.items) }
{
    let mut journals = Vec::new(alloc);
    for index in 0..script.mutators() {
        let room = script.commands(index + 1).len() as u32;
        journals.push(Journal::open(alloc, room)?)?;
    }
    Ok(journals)
}

/// An empty order with room for all commands.
pub fn order_for(alloc: Global, script: &Script) -> Result<Order, NoMemory>
    ensures { IfOk result (λ order. (order.list ≡ []) × (sum (lengths_of script.now) ≤ order.room)) }
{
    let mut room = 0;
    for index in 0..script.mutators() {
        room += script.commands(index + 1).len() as u32;
    }
    Order::open(alloc, room)
}

/// How many commands each mutator has.
pub fn lengths_of(script: &Script) -> ArrayVec<u32, MOST_MUTATORS>
    ensures lengths { result.items ≡ lengths_of script.now }
    ensures valid { IsScript script.now }
{
    let mut lengths = ArrayVec::new();
    for index in 0..script.mutators() {
        lengths.push(script.commands(index + 1).len() as u32);
    }
    lengths
}
