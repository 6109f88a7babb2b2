//! The mailboxes: each is home between two steps, with a buffer that one step swaps for another.

ghost use Rattle.std.specs.Prelude.{◌≡◌, ℕ, ◌-◌, ◌<◌, ◌≤◌, None, Some, All, length, replicate, slice_index_or, IsSome, IfOk, IfSome};
ghost use Rattle.rec_mutator.specs.Took.{spare, swapped_of, left_of, IsSwapping};
ghost use Rattle.rec_collector.specs.Given.{IsSized, IsSwapping as IsHeld, swapping_for};
ghost use Rattle.rec_collector.specs.Took.{left_of as left_for, swapped_of as gathered_of};
ghost use Rattle.rec_core.specs.Config.{IsConfig};
ghost use Rattle.rec_core.specs.Core.{spare_of};
ghost use Rattle.rec_world.specs.Mailbox.{held, held_by, gathered_by, gathered_from};

use crate::Config;
use rec_collector::Machine as Collector;
use rec_log::Buffer;
use rec_mutator::Machine;
use std::alloc::{AllocError as NoMemory, Global};

/// A mailbox with a spare buffer for each mutator.
pub fn open_boxes(alloc: Global, config: &Config) -> Result<Vec<Option<Buffer>>, NoMemory>
    requires { IsConfig config.now }
    ensures { IfOk result (λ boxes. boxes.items ≡ replicate config.now.mutators (Some (spare_of config.now))) }
{
    let mut boxes = Vec::with_capacity(alloc, config.mutators as usize)?;
    for _ in 0..config.mutators as u8 {
        boxes.push_reserved(Some(Buffer::open(alloc, config.log_entries, config.registers as u8)?));
    }
    Ok(boxes)
}

/// Where the mutator holds its mailbox, swaps the buffer in it for the retired log.
#[inline(always)]
pub fn swap_own(machine: &mut Machine, mailbox: &mut Option<Buffer>)
    requires home { IsSome mailbox.old }
    requires spare { IsSwapping machine.old.phase → held mailbox.old ≡ spare machine.old }

    ensures machine { machine.new ≡ swapped_of machine.old (held mailbox.old) }
    ensures mailbox { mailbox.new ≡ Some (left_of machine.old (held mailbox.old)) }
{
    if machine.is_swapping() {
        if let Some(buffer) = mailbox.take() {
            *mailbox = Some(machine.swap_box(buffer));
        }
    }
}

/// Swaps the retired buffer in the mailbox that the collector holds for a spare.
pub fn swap_gathered(collector: &mut Collector, mailbox: &mut Option<Buffer>)
    requires swapping { IsHeld collector.old.phase }
    requires home { IsSome mailbox.old }
    requires sized { IsSized collector.old.registers collector.old.capacity (held mailbox.old) }

    ensures collector { collector.new ≡ gathered_of collector.old (held mailbox.old) }
    ensures mailbox { mailbox.new ≡ Some (left_for collector.old (held mailbox.old)) }
{
    if let Some(buffer) = mailbox.take() {
        *mailbox = Some(collector.swap_box(buffer));
    }
}

/// Where the collector holds a mailbox, swaps the retired buffer in it for a spare.
#[inline(always)]
pub fn gather(collector: &mut Collector, boxes: &mut Vec<Option<Buffer>>)
    requires there { IfSome (swapping_for collector.old.phase) (λ t. (1 ≤ t) × (t - 1 < length boxes.old.items)) }
    requires home { (i : ℕ) → i < length boxes.old.items → IsSome (slice_index_or boxes.old.items i None) }
    requires sized { IfSome (swapping_for collector.old.phase) (λ t. IsSized collector.old.registers collector.old.capacity (held_by boxes.old.items t)) }

    ensures collector { collector.new ≡ gathered_by collector.old boxes.old.items (swapping_for collector.old.phase) }
    ensures boxes { boxes.new.items ≡ gathered_from collector.old boxes.old.items (swapping_for collector.old.phase) }
{
    if let Some(t) = collector.swapping() {
        swap_gathered(collector, &mut boxes[usize::from(t) - 1]);
    }
}
