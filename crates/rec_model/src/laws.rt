//! What follows from the definitions alone, each law as the contract of a function that does nothing.

ghost use Rattle.std.specs.Prelude.{◌≡◌, ◌↔◌, ◌+◌, ◌<◌, ◌≤◌, ℕ, true, false, List, All, length};
ghost use Rattle.rec_model.specs.Reach.{is_in, IsReached};
ghost use Rattle.rec_model.specs.Numbering.{IsNumbering, IsDistinct};
ghost use Rattle.rec_model.specs.Heap.{Heap};
ghost use Rattle.rec_model.specs.Sight.{Sight, Represents, IsCollected, Reaches};
ghost use Rattle.rec_model.specs.Listing.{Row, IsListing, ListsSlots};
ghost use Rattle.rec_model.specs.Sums.{one_if_same, sum_at};
ghost use Rattle.rec_model.specs.Pending.{Pending, node_of, epoch_of, home, word_in, Holds};
ghost use Rattle.rec_model.specs.References.{count_formula, IsInReach, IsWriteInReach};
ghost use Rattle.rec_model.specs.Moves.{AccountMove, added, taken};
ghost use Rattle.rec_model.specs.Accounted.{IsAccounted, HasUncountedReleased, is_dead, names, named, named_anywhere};
ghost use Rattle.rec_model.specs.Opened.{IsBeginning, opening};
ghost use Rattle.rec_model.specs.Seen.{IsSightOf};

/// A numbering has just the numbers that are reached, each once.
pub fn numbering_lists_the_reached()
    ensures reached { (roots : List ℕ) (children : ℕ → List ℕ) (ns : List ℕ) → IsNumbering roots children ns → (n : ℕ) → IsReached roots children n ↔ (is_in n ns ≡ true) }
    ensures distinct { (roots : List ℕ) (children : ℕ → List ℕ) (ns : List ℕ) → IsNumbering roots children ns → IsDistinct ns }
{}

/// The same roots and children have one numbering.
pub fn numbering_is_unique()
    ensures { (roots : List ℕ) (children : ℕ → List ℕ) (ns ms : List ℕ) → IsNumbering roots children ns → IsNumbering roots children ms → ns ≡ ms }
{}

/// Where just the reached slots hold objects, the rows read off the slots are the listing of every heap that stands for them.
pub fn listing_stands()
    ensures { (heap : Heap) (w : Sight) (rows : List Row) → Represents heap w → IsCollected w → ListsSlots w rows → IsListing heap rows }
{}

/// A heap has one listing.
pub fn listing_is_unique()
    ensures { (heap : Heap) (xs ys : List Row) → IsListing heap xs → IsListing heap ys → xs ≡ ys }
{}

/// A heap that counts late keeps its accounts: as it is opened, and over every move of a mutator or of the collector.
pub fn moves_keep_accounts()
    ensures there { (fields places epoch mutators nulls : ℕ) → 0 < epoch → IsBeginning (opening fields places epoch mutators nulls) }
    ensures begun { (w : Pending) → IsBeginning w → IsAccounted w }
    ensures moved { (before after : Pending) → AccountMove before after → IsAccounted before → IsAccounted after }
{}

/// The true count of each node is the count formula at the applied epoch: the references of that epoch to it, how often the
/// snapshots written on leaving the epoch name it, and one if it was born in the epoch or later; of a free slot it is one.
pub fn counts_are_the_formula()
    ensures { (w : Pending) → IsAccounted w → (node : ℕ) → 0 < node → w.count node ≡ count_formula w w.applied node }
{}

/// What a later epoch has is in the reach of each epoch from the applied one up to it: what registers of its mutators name,
/// and the source, the new target and the replaced target of each of its writes.
pub fn later_epochs_stay_in_reach()
    ensures registers { (w : Pending) → IsAccounted w → (early late node : ℕ) → w.applied ≤ early → early < late → 0 < node → Holds w late node → IsInReach w early node }
    ensures writes { (w : Pending) → IsAccounted w → (early : ℕ) → w.applied ≤ early → early < w.requested → All (λ write. early < epoch_of write.new → IsWriteInReach w early write) w.writes }
{}

/// No register, no field of a node that isn't given up, and no part that is pending names a free slot or a node that was given
/// up, and it is in no reach from the applied epoch on. So what registers reach is neither free nor given up; and no field at
/// all leads to a free slot.
pub fn the_given_up_are_unnamed()
    ensures pending { (w : Pending) → IsAccounted w → (node : ℕ) → 0 < node → is_dead w node ≡ true → named w node ≡ 0 }
    ensures reach { (w : Pending) → IsAccounted w → (epoch node : ℕ) → w.applied ≤ epoch → is_dead w node ≡ true → IsInReach w epoch node → ⊥ }
    ensures registers { (w : Pending) → IsAccounted w → (epoch node : ℕ) → 0 < node → Holds w epoch node → is_dead w node ≡ false }
    ensures fields { (w : Pending) → IsAccounted w → (place : ℕ) → place < length w.words → w.released (home w.fields place) ≡ false → 0 < node_of (word_in w place) → is_dead w (node_of (word_in w place)) ≡ false }
    ensures slots { (w : Pending) → IsAccounted w → (place : ℕ) → place < length w.words → 0 < node_of (word_in w place) → w.free (node_of (word_in w place)) ≡ false }
    ensures reached { (w : Sight) (p : Pending) → IsAccounted p → IsSightOf w p → (slot : ℕ) → Reaches w slot → is_dead p (slot + 1) ≡ false }
{}

/// A batch takes no count below zero, changes no count of a node that nothing names, and makes no count greater than the
/// number of words, writes and snapshots, and one.
pub fn batches_are_covered()
    ensures covered { (w : Pending) → IsAccounted w → (node : ℕ) → 0 < node → taken w node ≤ w.count node + added w node }
    ensures named { (w : Pending) (node : ℕ) → named w node ≡ 0 → (added w node ≡ 0) × (taken w node ≡ 0) }
    ensures bounded { (w : Pending) → IsAccounted w → (node : ℕ) → 0 < node → w.count node + added w node ≤ length w.words + length w.writes + length w.snapshots + 1 }
{}

/// What clearing a field of a node that was given up takes off a count is there: the word in it is of the applied epoch or
/// before. The target of such a word in any field has a count.
pub fn clearings_are_covered()
    ensures covered { (w : Pending) → IsAccounted w → (place node : ℕ) → place < length w.words → w.released (home w.fields place) ≡ true → 0 < node → one_if_same node (node_of (word_in w place)) ≤ w.count node }
    ensures early { (w : Pending) → IsAccounted w → (place : ℕ) → place < length w.words → w.released (home w.fields place) ≡ true → epoch_of (word_in w place) ≤ w.applied }
    ensures counted { (w : Pending) → IsAccounted w → (place node : ℕ) → place < length w.words → epoch_of (word_in w place) ≤ w.applied → 0 < node → one_if_same node (node_of (word_in w place)) ≤ w.count node }
{}

/// A node without a count is out of reach, and nothing names it, from a batch to the next request.
pub fn the_uncounted_are_gone()
    ensures { (w : Pending) → IsAccounted w → (node : ℕ) → 0 < node → w.applied + 1 ≡ w.requested → w.count node ≡ 0 → (IsInReach w w.applied node → ⊥) × (named_anywhere w node ≡ 0) }
{}

/// The count of a node that was given up is the number of fields that name it. Where all that were given up are emptied, none
/// of them has a count; nor has any as long as none is given up but for its count.
pub fn the_given_up_are_uncounted()
    ensures counted { (w : Pending) → IsAccounted w → (node : ℕ) → 0 < node → w.released node ≡ true → w.count node ≡ sum_at (names node) w.words }
    ensures emptied { (w : Pending) → IsAccounted w → ((place : ℕ) → place < length w.words → w.released (home w.fields place) ≡ true → node_of (word_in w place) ≡ 0) → HasUncountedReleased w }
    ensures begun { (w : Pending) → IsBeginning w → HasUncountedReleased w }
    ensures moved { (before after : Pending) → AccountMove before after → IsAccounted before → HasUncountedReleased before → HasUncountedReleased after }
{}
