//! What follows for sets of nodes that hold each other alone, each law as the contract of a function that does nothing.

ghost use Rattle.std.specs.Prelude.{◌≡◌, ◌≢◌, ◌+◌, ◌<◌, ◌≤◌, ℕ, Bool, true, false, length};
ghost use Rattle.rec_model.specs.Sums.{one_if_same};
ghost use Rattle.rec_model.specs.Pending.{Pending, node_of, home, word_in};
ghost use Rattle.rec_model.specs.References.{IsInReach, closed_at, references_at};
ghost use Rattle.rec_model.specs.Moves.{AccountMove, Applies};
ghost use Rattle.rec_model.specs.Accounted.{IsAccounted};
ghost use Rattle.rec_model.specs.Sets.{HasLoaded, with_load, IsAfterLoads, PassesTests, IsMarked, IsTesting, IsAmongTests, IsTested, ReleasesSet};

/// A set that passes its tests is out of reach.
pub fn sets_that_pass_are_out_of_reach()
    ensures { (w : Pending) (member : ℕ → Bool) (seen : ℕ → ℕ) → IsAccounted w → PassesTests w member seen → (node : ℕ) → member node ≡ true → IsInReach w w.applied node → ⊥ }
{}

/// Words that the collector loads once every mutator is past the applied epoch are references of the next batch's epoch, and
/// stay so until that batch; after it, while their field's node isn't given up. Where a field has another target by then, the
/// word that was loaded from it was replaced.
pub fn loaded_words_stand()
    ensures begun { (w : Pending) → HasLoaded w (λ place. 0) }
    ensures loaded { (w : Pending) (load : ℕ → ℕ) (place : ℕ) → IsAccounted w → w.applied + 1 ≡ w.requested → place < length w.words → HasLoaded w load → HasLoaded w (with_load load place (word_in w place)) }
    ensures moved { (before after : Pending) (load : ℕ → ℕ) (move : AccountMove before after) → IsAfterLoads move → IsAccounted before → HasLoaded before load → HasLoaded after load }
    ensures replaced { (w : Pending) (load : ℕ → ℕ) (place node : ℕ) → place < length w.words → 0 < node → node_of (word_in w place) ≢ node → HasLoaded w load → one_if_same node (node_of (load place)) ≤ closed_at w (w.applied + 1) place node }
    ensures closed { (before after : Pending) (move : AccountMove before after) → IsAfterLoads move → (place node : ℕ) → closed_at before (before.applied + 1) place node ≤ closed_at after (after.applied + 1) place node }
    ensures tested { (w u : Pending) (member : ℕ → Bool) (load : ℕ → ℕ) (place node : ℕ) → IsTesting w u member → HasLoaded u load → place < length w.words → 0 < node → w.released (home w.fields place) ≡ false → one_if_same node (node_of (load place)) ≤ references_at w w.applied place node }
{}

/// A batch begins the tests of the sets that a trial left, and they go on over what mutators do, releases and clearings. A set
/// that passes its tests may be given up: the accounts are kept, so nothing names its members any more, and the tests go on.
pub fn tests_keep_accounts()
    ensures begun { (before after : Pending) (member : ℕ → Bool) (mark : ℕ → ℕ) → IsAccounted before → Applies before after → ((node : ℕ) → 0 < node → member node ≡ true → before.released node ≡ false) → IsMarked before member mark → IsTesting after before member }
    ensures moved { (before after u : Pending) (member : ℕ → Bool) (move : AccountMove before after) → IsAmongTests move → IsAccounted before → IsTesting before u member → IsTesting after u member }
    ensures given_up { (before after u : Pending) (member chosen : ℕ → Bool) → IsAccounted before → IsTesting before u member → IsTested before u member chosen → ReleasesSet before after chosen → IsAccounted after × IsTesting after u member }
{}
