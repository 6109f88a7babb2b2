//! Tells labels, each once and in order, also where a tube has no room for a while.
ghost use Rattle.std.specs.Prelude.{◌≡◌, ◌≤◌, ◌↔◌, ◌++◌, [], ◌∷◌, None, IsTrue, IsFalse, IsNone, IsSome};
ghost use Rattle.rec_io.specs.Faults.{Rose};
ghost use Rattle.rec_notice.specs.Telling.{told};

use crate::tube::Tube;

/// Offers labels to a tube, and keeps the one that came back.
#[derive(Drop)]
pub struct Teller<T> {
    pub(crate) tube: T,
    kept: Option<u32>,
}

impl<T: Tube> Teller<T> {
    /// A teller over this tube, which keeps no label.
    pub fn over(tube: T) -> Teller<T>
        ensures tube { result.tube ≡ tube }
        ensures kept { result.kept ≡ None }
    {
        Teller { tube, kept: None }
    }

    /// The label that came back and is to be offered again.
    pub fn kept(&self) -> Option<u32>
        ensures { result ≡ self.now.kept }
    {
        self.kept
    }

    /// The tube.
    pub fn tube(&self) -> &T
        ensures { result.now ≡ self.now.tube }
    {
        &self.tube
    }

    /// Offers a label, and keeps it where it comes back. No label may be kept before: `again` empties the teller.
    pub fn tell(&mut self, label: u32)
        requires { self.old.kept ≡ None }

        ensures told { told T.sent self.new ≡ told T.sent self.old ++ label ∷ [] }
        ensures rose { IsSome self.new.kept → Rose (T.refusals self.old.tube) (T.refusals self.new.tube) }
        ensures never_falls { T.refusals self.old.tube ≤ T.refusals self.new.tube }
        ensures same { T.SameTube self.old.tube self.new.tube }
    {
        if !self.tube.offer(label) {
            self.kept = Some(label);
        }
    }

    /// Offers the kept label once more, where there is one. It answers whether none is kept now.
    pub fn again(&mut self) -> bool
        ensures told { told T.sent self.new ≡ told T.sent self.old }
        ensures none { IsTrue result ↔ IsNone self.new.kept }
        ensures rose { IsFalse result → Rose (T.refusals self.old.tube) (T.refusals self.new.tube) }
        ensures never_falls { T.refusals self.old.tube ≤ T.refusals self.new.tube }
        ensures same { T.SameTube self.old.tube self.new.tube }

        // Where none was kept nothing is offered. A label that comes back is kept on.
        ensures idle { self.old.kept ≡ None → self.new ≡ self.old }
        ensures kept { IsFalse result → self.new.kept ≡ self.old.kept }
        ensures unsent { IsFalse result → T.sent self.new.tube ≡ T.sent self.old.tube }
    {
        let Some(label) = self.kept else {
            return true;
        };
        let sent = self.tube.offer(label);
        if sent {
            self.kept = None;
        }
        sent
    }
}
