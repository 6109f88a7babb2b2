//! A heap begins anew, with epochs from 1.

ghost use Rattle.std.specs.Prelude.{◌≡◌, ◌≢◌, ◌<◌, ◌≤◌, IfErr, IfOk, length};
ghost use Rattle.rec_core.specs.Settled.{IsSettled};
ghost use Rattle.rec_core.specs.Worked.{AreIdle};
ghost use Rattle.rec_world.specs.World.{IsWorld};
ghost use Rattle.rec_image.specs.Renewed.{IsRenewed, IsSlots, IsUnrenewed, in_slots};
ghost use Rattle.rec_image.specs.Restored.{restored};
ghost use Rattle.rec_image.specs.declared.error.RenewError.TheVariants.{FewSlots, Slots};

use crate::error::RenewError;
use crate::image::{Image, restore};
use rec_model::limits::MOST_SLOTS;
use rec_world::{Policy, World};
use std::alloc::Global;

/// The same heap with epochs from 1 and with so many slots, from 1 to 65,535 and no fewer than registers reach; else the world, with
/// the cause. The new heap is settled: an object that no register reaches isn't in it. A mutator that had left is there again, and
/// its registers are null. The memory of the new heap is taken here, and then the old one's is given back.
pub fn renew(alloc: Global, world: World, slots: u32) -> Result<World, (World, RenewError)>
    // No mutator works.
    requires { AreIdle world }

    // Whatever stood for the old heap, but for field words, stands for the new one.
    ensures renewed { IfOk result (λ new. IsRenewed world slots new) }
    ensures refused { IfErr result (λ left. IsUnrenewed world slots left.1) }
    ensures unchanged { IfErr result (λ left. left.0 ≡ world) }
    // Just what registers reach is taken, with true counts; and no mutator works.
    ensures settled { IfOk result IsSettled }
    ensures idle { IfOk result AreIdle }
    ensures kept { IfOk result IsWorld }
{
    let (world, log_entries, policy) = with_kind(world);
    match open_anew(alloc, &world, slots, log_entries, policy) {
        Ok(new) => {
            drop(world);
            Ok(new)
        }
        Err(error) => Err((world, error)),
    }
}

// The same world, how many entries its logs have, and its policy, which its parts tell.
fn with_kind(world: World) -> (World, u32, Policy)
    ensures same { result.0 ≡ world }
    ensures entries { result.1 ≡ world.config.log_entries }
    ensures policy { result.2 ≡ world.config.policy }
{
    let parts = world.into_parts();
    let log_entries = parts.config.log_entries;
    let policy = parts.config.policy;
    (World::of_parts(parts), log_entries, policy)
}

// Another heap that holds what this one holds.
fn open_anew(
    alloc: Global,
    world: &World,
    slots: u32,
    log_entries: u32,
    policy: Policy,
) -> Result<World, RenewError>
    requires entries { log_entries ≡ world.now.config.log_entries }
    requires policy { policy ≡ world.now.config.policy }
    ensures renewed { IfOk result (λ new. IsRenewed world.now slots new) }
    ensures refused { IfErr result (λ error. IsUnrenewed world.now slots error) }
    ensures settled { IfOk result IsSettled }
    ensures idle { IfOk result AreIdle }
    ensures kept { IfOk result IsWorld }
{
    if !(1..=MOST_SLOTS).contains(&slots) {
        return Err(RenewError::Slots);
    }
    let image = Image::of_world(alloc, world)?;
    restore_in(alloc, image, slots, log_entries, policy)
}

// The heap that the image is of, with so many slots.
fn restore_in(
    alloc: Global,
    image: Image,
    slots: u32,
    log_entries: u32,
    policy: Policy,
) -> Result<World, RenewError>
    requires { IsSlots slots }
    ensures opened { IfOk result (λ new. (length image.objects ≤ slots)
        × (new ≡ restored (in_slots image slots) log_entries policy)) }
    ensures refused { IfErr result (λ error. (error ≢ Slots)
        × (error ≡ FewSlots → slots < length image.objects)) }
    ensures settled { IfOk result IsSettled }
    ensures idle { IfOk result AreIdle }
    ensures kept { IfOk result IsWorld }
{
    if image.count() > slots {
        return Err(RenewError::FewSlots);
    }
    match restore(alloc, &image.with_slots(slots), log_entries, policy) {
        Ok(new) => Ok(new),
        // Each number is in its range.
        Err(_) => Err(RenewError::NoMemory),
    }
}
