//! The end of a ring that hears.
ghost use Rattle.std.specs.Prelude.{◌≡◌, ◌≤◌, ◌++◌, length};
ghost use Rattle.rtrb.specs.Ring.{consumer_capacity};

use rtrb::Consumer;

/// Hears the labels that a `RingTube` sent, in order, each once. It may be on another thread.
#[derive(Drop)]
pub struct Listener {
    pub(crate) consumer: Consumer<u32>,
    ghost room: { consumer_capacity consumer ≤ 65535 },
}

impl Listener {
    ghost use Rattle.rec_notice.specs.Ring.{Hears};

    /// The listener at the ring of this consumer, which has at most 65,535 slots.
    pub fn over(consumer: Consumer<u32>) -> Listener
        requires { consumer_capacity consumer ≤ 65535 }
        ensures { result.consumer ≡ consumer }
    {
        Listener { consumer }
    }

    /// The next label that was sent, or `None` where it sees none. While a label is known to wait that is never the answer.
    pub fn hear(&mut self) -> Option<u32>
        ensures { Hears self.old result self.new }
    {
        self.consumer.pop().ok()
    }
}
