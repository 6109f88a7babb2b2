//! Notices of freed objects: they are asked for, and heard.
ghost use Rattle.std.specs.Prelude.{◌≡◌, ◌≤◌, IfOk, None, Some, false, true};
ghost use Rattle.recycler_c.specs.Calls.{AreNew, AsksNotices, HearsIn};
ghost use Rattle.recycler_c.specs.Standing.{can_collect};
ghost use Rattle.rec_notice.specs.declared.listener.Listener.{Listener as Listeners};
ghost use Rattle.recycler_c.specs.declared.end.End.TheVariants as ends;

use crate::code::Code;
use crate::end::{End, Resting};
use crate::handle::{Handle, fill};
use crate::told::{Heard, show_heard};
use rec_notice::{RingTube, Teller, notices};
use std::alloc::{AllocError as NoMemory, Global};

/// From its next start on, the collector of a heap at rest tells the label of each object that it frees, and the listener's handle holds
/// who hears them. There is room for so many labels between them.
pub fn ask_for(alloc: Global, collector: &mut Handle, listener: &mut Handle, room: u32) -> Code
    requires collects { can_collect collector.old.owned.held ≡ true }

    ensures asks { AsksNotices room collector.old.owned.held listener.old.owned.held result collector.new.owned.held listener.new.owned.held }
    ensures collects { can_collect collector.new.owned.held ≡ true }
{
    if !collector.full {
        return Code::Closed;
    }
    if listener.full {
        return Code::Open;
    }
    let mut whole = collector.take(alloc);
    let (end, code) = ask_in(alloc, Box::replace(&mut whole, End::Vacant), listener, room);
    fill(&mut whole, end);
    collector.put(whole);
    code
}

fn ask_in(alloc: Global, end: End, listener: &mut Handle, room: u32) -> (End, Code)
    requires collects { can_collect (Some end) ≡ true }
    requires closed { listener.old.full ≡ false }

    ensures asks { AsksNotices room (Some end) listener.old.owned.held result.1 (Some result.0) listener.new.owned.held }
    ensures collects { can_collect (Some result.0) ≡ true }
{
    match end {
        End::Resting(resting, teller) => match teller {
            Some(teller) => (End::Resting(resting, Some(teller)), Code::Open),
            None => ask_first(alloc, resting, listener, room),
        },
        other => (other, Code::Runs),
    }
}

// Asks where nobody tells yet.
fn ask_first(alloc: Global, resting: Resting, listener: &mut Handle, room: u32) -> (End, Code)
    requires { listener.old.full ≡ false }

    ensures asks { AsksNotices room (Some (End.Resting resting None)) listener.old.owned.held result.1 (Some result.0) listener.new.owned.held }
    ensures collects { can_collect (Some result.0) ≡ true }
{
    if room == 0 || room > 65535 {
        return (End::Resting(resting, None), Code::Range);
    }
    match make(alloc, room) {
        Ok((teller, whole)) => {
            listener.put(whole);
            (End::Resting(resting, Some(teller)), Code::Ok)
        }
        Err(_) => (End::Resting(resting, None), Code::NoMemory),
    }
}

// Who tells, and who hears in a box.
fn make(alloc: Global, room: u32) -> Result<(Teller<RingTube>, Box<End>), NoMemory>
    requires { (1 ≤ room) × (room ≤ 65535) }
    ensures { IfOk result (λ made. (l : Listeners) × (made.1.value ≡ ends.Listening l) × AreNew room made.0 l) }
{
    let (teller, listener) = notices(alloc, room)?;
    let whole = Box::new(alloc, End::Listening(listener))?;
    Ok((teller, whole))
}

/// Hears the next label, if the listener sees one.
pub fn hear(alloc: Global, listener: &mut Handle, told: &mut Heard) -> Code
    ensures { HearsIn listener.old.owned.held told.old result listener.new.owned.held told.new }
{
    if !listener.full {
        return Code::Closed;
    }
    let mut whole = listener.take(alloc);
    let code = hear_in(&mut whole, told);
    listener.put(whole);
    code
}

fn hear_in(end: &mut End, told: &mut Heard) -> Code
    ensures { HearsIn (Some end.old) told.old result (Some end.new) told.new }
{
    match end {
        End::Listening(listener) => {
            *told = show_heard(listener.hear());
            Code::Ok
        }
        _ => Code::Other,
    }
}
