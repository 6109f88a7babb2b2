//! The two ends of a ring for labels, made together.
ghost use Rattle.std.specs.Prelude.{◌≡◌, ◌≤◌, ◌++◌, [], None, IfOk, length};
ghost use Rattle.rtrb.specs.Ring.{SameProducer};
ghost use Rattle.rec_notice.specs.Ring.{sent_by, room_of, heard_by, waits_for, AreEnds, SameListener};

use crate::listener::Listener;
use crate::ring_tube::RingTube;
use crate::teller::Teller;
use rtrb::RingBuffer;
use std::alloc::{AllocError as NoMemory, Global};

/// A teller and the listener that hears it, with room for so many labels between them: from 1 to 65,535.
pub fn notices(alloc: Global, room: u32) -> Result<(Teller<RingTube>, Listener), NoMemory>
    requires { (1 ≤ room) × (room ≤ 65535) }

    ensures ends { IfOk result (λ r. AreEnds r.0.tube r.1) }
    ensures room { IfOk result (λ r. room_of r.0.tube ≡ room) }
    // Nothing was sent, refused, kept or heard.
    ensures sent { IfOk result (λ r. sent_by r.0.tube ≡ []) }
    ensures refusals { IfOk result (λ r. r.0.tube.refusals ≡ 0) }
    ensures kept { IfOk result (λ r. r.0.kept ≡ None) }
    ensures heard { IfOk result (λ r. heard_by r.1 ≡ []) }
    ensures waits { IfOk result (λ r. waits_for r.1 ≡ []) }
{
    let (producer, consumer) = RingBuffer::new(alloc, room as usize)?;
    Ok((
        Teller::over(RingTube::over(producer)),
        Listener::over(consumer),
    ))
}

/// How many labels wait, for one who holds both ends of a ring: they were sent and not heard yet. The listener then sees each of them,
/// so its next answers, as many, are these labels in order.
pub fn together(teller: &mut Teller<RingTube>, listener: &mut Listener) -> u32
    requires { AreEnds teller.old.tube listener.old }

    ensures count { result ≡ length (waits_for listener.new) }
    ensures in_order { heard_by listener.new ++ waits_for listener.new ≡ sent_by teller.new.tube }

    // Nothing is sent, refused, kept or heard.
    ensures sent { sent_by teller.new.tube ≡ sent_by teller.old.tube }
    ensures refusals { teller.new.tube.refusals ≡ teller.old.tube.refusals }
    ensures kept { teller.new.kept ≡ teller.old.kept }
    ensures heard { heard_by listener.new ≡ heard_by listener.old }
    ensures tube { SameProducer teller.old.tube.producer teller.new.tube.producer }
    ensures listener { SameListener listener.old listener.new }
    ensures ends { AreEnds teller.new.tube listener.new }
{
    let waiting = listener.consumer.slots_beside(&mut teller.tube.producer);
    waiting as u32
}
