//! A tube over a wait-free ring.
ghost use Rattle.std.specs.Prelude.{◌≡◌, ◌+◌, ◌<◌, ◌≤◌, ◌++◌, [], ◌∷◌, length, IsTrue, IsFalse};
ghost use Rattle.rec_io.specs.Faults.{Rose, counted_up, last_count};
ghost use Rattle.rtrb.specs.Ring.{sent, known_free, producer_capacity, SameProducer};

use crate::tube::Tube;
use rtrb::{Producer, PushError};

/// A tube into a ring of `rtrb`. It may move to another thread than the listener's.
#[derive(Drop)]
pub struct RingTube {
    pub(crate) producer: Producer<u32>,
    refusals: u64,
    ghost room_first: { producer_capacity producer ≤ length (sent producer) + known_free producer },
    ghost within_count: { refusals ≤ last_count },
}

impl RingTube {
    /// The tube into the ring of this producer.
    pub fn over(producer: Producer<u32>) -> RingTube
        ensures producer { result.producer ≡ producer }
        ensures refusals { result.refusals ≡ 0 }
    {
        RingTube {
            producer,
            refusals: 0,
        }
    }

    /// How many labels were refused, up to the last value of a `u64`.
    pub fn refusals(&self) -> u64
        ensures { result ≡ self.now.refusals }
    {
        self.refusals
    }
}

impl Tube for RingTube {
    ghost use Rattle.std.proofs.Common.{refl, ◌∙◌};
    ghost use Rattle.rec_notice.specs.Ring.{sent_by, room_of};

    ghost sent = { sent_by };

    ghost refusals = { λ t. t.refusals };

    ghost SameTube = { λ a b. SameProducer a.producer b.producer };

    fn offer(&mut self, label: u32) -> bool
        // What each tube promises.
        ensures appends { IsTrue result → sent_by self.new ≡ sent_by self.old ++ label ∷ [] }
        ensures kept { IsFalse result → sent_by self.new ≡ sent_by self.old }
        ensures rose { IsFalse result → Rose self.old.refusals self.new.refusals }
        ensures never_falls { self.old.refusals ≤ self.new.refusals }
        ensures within_count { self.new.refusals ≤ last_count }
        ensures same { SameProducer self.old.producer self.new.producer }

        // The first labels, as many as there is room for, are sent, whatever the listener does; and refusals alone are counted.
        ensures first { length (sent_by self.old) < room_of self.old → IsTrue result }
        ensures counted { IsFalse result → self.new.refusals ≡ counted_up self.old.refusals }
        ensures uncounted { IsTrue result → self.new.refusals ≡ self.old.refusals }
    {
        match self.producer.push(label) {
            Ok(()) => true,
            Err(PushError::Full(_)) => {
                self.refusals = self.refusals.saturating_add(1);
                false
            }
        }
    }

    ghost same_at_first = { λ tube. ((refl, refl, refl, refl), refl) };

    ghost same_later = { λ a b c first then. ((then.0.0 ∙ first.0.0, then.0.1 ∙ first.0.1, then.0.2 ∙ first.0.2, then.0.3 ∙ first.0.3), then.1 ∙ first.1) };
}
