//! What holds of every run, as the contract of a function that does nothing.
ghost use Rattle.std.specs.Prelude.{◌≡◌, ℕ, ◌+◌, List, length};
ghost use Rattle.rec_model.specs.Heap.{Heap};
ghost use Rattle.rec_model.specs.LegalOrder.{Line};
ghost use Rattle.rec_model.specs.Sight.{StandsBy};
ghost use Rattle.rec_model.specs.Unfreed.{AreUnfreed};
ghost use Rattle.rec_core.specs.Config.{IsConfig};
ghost use Rattle.rec_core.specs.Core.{Core, sight};
ghost use Rattle.rec_core.specs.Moves.{Move, AllFit, EndsRun, after_moves};
ghost use Rattle.rec_order.specs.Naming.{naming_of, named_after_all};
ghost use Rattle.rec_order.specs.Legal.{AreIdle, AreJournals, HasLegalOrder};

/// Every run, step by step in any order, has a legal order, if no mutator works in the world where it begins. Its events are
/// those of the run: each answer at the step that decides it, each object at the turn that frees its slot, and the begin and
/// the end of each sweep. It is a legal order of the mutators' journals, from every heap that stands for the world, with the
/// objects of taken slots as the unfreed ones; and its last heap stands for the world at the end.
/// There are such unfreed objects for every such heap, and the naming counts the births.
pub fn runs_have_a_legal_order()
    ensures order { (w : Core) (heap : Heap) (number : ℕ → ℕ) (unfreed : List ℕ) (moves : List Move) (journals : List (List Line)) → IsConfig w.config → EndsRun w → AreIdle w → StandsBy heap (sight w) number → AreUnfreed (sight w) number unfreed → AllFit w moves → AreJournals w moves journals → HasLegalOrder w heap number unfreed moves journals }
    ensures unfreed { (w : Core) (heap : Heap) (number : ℕ → ℕ) → StandsBy heap (sight w) number → (unfreed : List ℕ) × AreUnfreed (sight w) number unfreed }
    ensures made { (w : Core) (heap : Heap) (number : ℕ → ℕ) (moves : List Move) → (named_after_all (naming_of heap number) w moves).next + w.made ≡ length heap.objects + (after_moves w moves).made }
{}
