//! Where labels go.
ghost use Rattle.std.specs.Prelude.{◌≡◌, ℕ, ◌≤◌, List, [], ◌∷◌, ◌++◌, IsTrue, IsFalse};
ghost use Rattle.rec_io.specs.Faults.{Rose, last_count};

/// A way for labels to a listener, in order. It may have no room for a label, and says so.
pub trait Tube {
    // The labels that were sent, from the first on.
    ghost sent: { Self → List ℕ };

    // How many labels were refused, up to the last value of a `u64`.
    ghost refusals: { Self → ℕ };

    // It is the same tube later on: what doesn't change as labels are offered.
    ghost SameTube: { Self → Self → Type 0 };

    /// Sends a label, or refuses it.
    fn offer(&mut self, label: u32) -> bool
        ensures appends { IsTrue result → sent self.new ≡ sent self.old ++ label ∷ [] }

        // A label that is refused isn't sent, and the refusal is counted.
        ensures kept { IsFalse result → sent self.new ≡ sent self.old }
        ensures rose { IsFalse result → Rose (refusals self.old) (refusals self.new) }

        // On each answer.
        ensures never_falls { refusals self.old ≤ refusals self.new }
        ensures within_count { refusals self.new ≤ last_count }
        ensures same { SameTube self.old self.new };

    ghost same_at_first: { (tube : Self) → SameTube tube tube };

    ghost same_later: { (a b c : Self) → SameTube a b → SameTube b c → SameTube a c };
}
