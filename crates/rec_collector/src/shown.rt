//! What a watch is shown of a step, read off the machine right behind it.
ghost use Rattle.std.specs.Prelude.{◌≡◌, ℕ, None, Some, IfNone, IfSome};
ghost use Rattle.rec_collector.specs.Shown.{HasTaken, batch_made, batch_of, completed_of, passed_of};

use crate::machine::Machine;
use crate::phase::Phase;
use rec_log::Buffer;
use rec_word::Op;

/// A batch that a step applied.
#[derive(Clone, Copy)]
pub struct Applied<'a> {
    /// The epoch in which its newer buffers were filled.
    pub epoch: u32,
    /// These buffers: for each mutator, in order, what it did in that epoch.
    pub newer: &'a [Buffer],
}

impl Machine {
    /// The batch that the last step applied, if it applied one. `op` is the operation of that step.
    pub fn applied(&self, op: Op) -> Option<Applied<'_>>
        requires taken { (word : ℕ) × HasTaken op word self.now }

        ensures some { IfSome result (λ batch. batch_of op self.now ≡ Some (record { epoch = batch.epoch; newer = batch.newer.now })) }
        ensures none { IfNone result (batch_of op self.now ≡ None) }

        // It is what the step did, by whichever rule it was made.
        ensures made { (word : ℕ) (taken : HasTaken op word self.now) → batch_of op self.now ≡ batch_made taken.step }
    {
        let newer = match (op, self.phase()) {
            (_, Phase::Looking { .. } | Phase::Returning { .. }) => return None,
            (Op::StoreEpoch(_) | Op::LookBox(..) | Op::ReturnBox(..), Phase::Idle) => self.older(),
            (Op::StoreEpoch(_) | Op::LookBox(..) | Op::ReturnBox(..), _) => self.newer(),
            _ => return None,
        };
        let epoch = self.epoch().saturating_sub(1);
        Some(Applied { epoch, newer })
    }

    /// The members of the set that passed both tests in the last step, if one did. Their fields are exchanged from the next step on.
    pub fn passed(&self) -> Option<&[u16]>
        ensures some { IfSome result (λ members. passed_of self.now ≡ Some members.now) }
        ensures none { IfNone result (passed_of self.now ≡ None) }
    {
        let Phase::Freeing(freeing) = self.phase() else {
            return None;
        };
        let at = freeing.at()?;
        if at.index == 0 && at.field == 0 {
            Some(self.counts().work())
        } else {
            None
        }
    }

    /// The epoch whose collection the last step completed, if it completed one.
    pub fn completed(&self) -> Option<u32>
        ensures completed { result ≡ completed_of self.now }

        // Before the first collection is complete there is none.
        ensures none { self.now.collections ≡ 0 → result ≡ None }
    {
        match self.phase() {
            Phase::Idle if self.collections() != 0 => Some(self.epoch().saturating_sub(1)),
            _ => None,
        }
    }
}
