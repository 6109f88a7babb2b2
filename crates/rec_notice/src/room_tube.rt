//! A tube in memory.
ghost use Rattle.std.specs.Prelude.{◌≡◌, ℕ, ◌≤◌, ◌↔◌, List, [], ◌∷◌, ◌++◌, length, IsTrue, IsFalse, IfOk};
ghost use Rattle.rec_io.specs.Faults.{Rose, counted_up, last_count};

use crate::tube::Tube;
use std::alloc::{AllocError as NoMemory, Global};
use std::marker::Model;

/// A tube into memory, with a fixed room that is taken as it is opened. Once so many labels were sent it refuses each other.
#[derive(Drop)]
pub struct RoomTube {
    labels: Vec<u32>,
    room: u32,
    refusals: u64,
}

impl Model for RoomTube {
    ghost use Rattle.std.specs.Prelude.{◌≤◌, vec_len, vec_capacity};
    ghost use Rattle.rec_io.specs.Faults.{last_count};
    ghost use Rattle.rec_notice.specs.RoomTube.{RoomState};

    ghost Value = { RoomState };

    ghost view = { λ t. record { sent = t.labels.items; room = t.room; refusals = t.refusals } };

    ghost invariant = { λ t. (vec_len t.labels ≤ t.room) × (t.room ≤ vec_capacity t.labels) × (t.refusals ≤ last_count) };
}

impl RoomTube {
    /// An empty tube with room for so many labels.
    pub fn open(alloc: Global, room: u32) -> Result<RoomTube, NoMemory>
        ensures sent { IfOk result (λ tube. tube.sent ≡ []) }
        ensures room { IfOk result (λ tube. tube.room ≡ room) }
        ensures refusals { IfOk result (λ tube. tube.refusals ≡ 0) }
    {
        Ok(RoomTube {
            labels: Vec::with_capacity(alloc, room as usize)?,
            room,
            refusals: 0,
        })
    }

    /// The labels that were sent, in order.
    pub fn labels(&self) -> &[u32]
        ensures { result.now ≡ self.now.sent }
    {
        self.labels.as_slice()
    }

    /// How many labels were refused, up to the last value of a `u64`.
    pub fn refusals(&self) -> u64
        ensures { result ≡ self.now.refusals }
    {
        self.refusals
    }
}

impl Tube for RoomTube {
    ghost use Rattle.std.proofs.Common.{refl, ◌∙◌};

    ghost sent = { λ t. t.sent };

    ghost refusals = { λ t. t.refusals };

    ghost SameTube = { λ a b. b.room ≡ a.room };

    fn offer(&mut self, label: u32) -> bool
        // What each tube promises.
        ensures appends { IsTrue result → self.new.sent ≡ self.old.sent ++ label ∷ [] }
        ensures kept { IsFalse result → self.new.sent ≡ self.old.sent }
        ensures rose { IsFalse result → Rose self.old.refusals self.new.refusals }
        ensures never_falls { self.old.refusals ≤ self.new.refusals }
        ensures within_count { self.new.refusals ≤ last_count }
        ensures same { self.new.room ≡ self.old.room }

        // It refuses a label exactly where it has sent as many as it has room for, and counts refusals alone.
        ensures refuses { IsFalse result ↔ (length self.old.sent ≡ self.old.room) }
        ensures counted { IsFalse result → self.new.refusals ≡ counted_up self.old.refusals }
        ensures uncounted { IsTrue result → self.new.refusals ≡ self.old.refusals }
    {
        if self.labels.len() == self.room as usize {
            self.refusals = self.refusals.saturating_add(1);
            return false;
        }
        self.labels.push(label).unwrap();
        true
    }

    ghost same_at_first = { λ tube. refl };

    ghost same_later = { λ a b c first then. then ∙ first };
}
