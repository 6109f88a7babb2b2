//! A heap at rest begins anew.
ghost use Rattle.std.specs.Prelude.{◌≡◌, Option, Some, true};
ghost use Rattle.recycler_c.specs.Calls.{Renews};
ghost use Rattle.recycler_c.specs.Codes.{renewal_code};
ghost use Rattle.recycler_c.specs.Standing.{Tellers, can_collect};

use crate::code::Code;
use crate::end::{End, Resting};
use crate::handle::{Handle, fill};
use rec_image::{RenewError, renew};
use std::alloc::Global;

/// A heap at rest begins anew, with epochs from 1 and with so many slots: what registers reach is as it was.
pub fn renew_in(alloc: Global, handle: &mut Handle, slots: u32) -> Code
    requires { can_collect handle.old.owned.held ≡ true }
    ensures { Renews slots handle.old.owned.held result handle.new.owned.held }
{
    if !handle.full {
        return Code::Closed;
    }
    let mut whole = handle.take(alloc);
    let (end, code) = renew_end(alloc, Box::replace(&mut whole, End::Vacant), slots);
    fill(&mut whole, end);
    handle.put(whole);
    code
}

fn renew_end(alloc: Global, end: End, slots: u32) -> (End, Code)
    requires { can_collect (Some end) ≡ true }
    ensures { Renews slots (Some end) result.1 (Some result.0) }
{
    match end {
        End::Resting(resting, teller) => {
            let (renewed, code) = renew_world(alloc, resting, slots);
            (End::Resting(renewed, teller), code)
        }
        other => (other, Code::Runs),
    }
}

fn renew_world(alloc: Global, resting: Resting, slots: u32) -> (Resting, Code)
    ensures { (t : Option Tellers) → Renews slots (Some (End.Resting resting t)) result.1 (Some (End.Resting result.0 t)) }
{
    let world = resting.into_world();
    match renew(alloc, world, slots) {
        Ok(new) => (Resting::of(new), Code::Ok),
        Err((world, error)) => (Resting::of(world), unrenewed(error)),
    }
}

// The code of a heap that doesn't begin anew.
fn unrenewed(error: RenewError) -> Code
    ensures { result ≡ renewal_code error }
{
    match error {
        RenewError::Slots => Code::Slots,
        RenewError::FewSlots => Code::FewSlots,
        RenewError::NoMemory => Code::NoMemory,
    }
}
