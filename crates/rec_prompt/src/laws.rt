//! What holds of every run, each law as the contract of a function that does nothing.

ghost use Rattle.std.specs.Prelude.{◌≡◌, ℕ, ◌+◌, ◌≤◌, true, false, List, ◌∷◌, ◌++◌};
ghost use Rattle.rec_counts.specs.Counts.{slot_at};
ghost use Rattle.rec_collector.specs.declared.phase.Phase.TheVariants.{Idle};
ghost use Rattle.rec_core.specs.Config.{IsConfig};
ghost use Rattle.rec_core.specs.Core.{Core, sight};
ghost use Rattle.rec_core.specs.Moves.{Move, AllFit, EndsRun, Fits, after_move, after_moves, IsNoTurn};
ghost use Rattle.rec_prompt.specs.Cover.{IsCovered, refused_sets, touched_sets};
ghost use Rattle.rec_prompt.specs.Lost.{fields_to, IsBehindNoCycle, IsLost, Leads};
ghost use Rattle.rec_prompt.specs.Prompt.{Complete, IsFreed, IsLeft};

/// A lost slot to which no cycle leads is freed by the end of the second collection, whatever it leads to. Take any state of any run in
/// which no collection is under way, and any moves of mutators and collector from there over which two collections become complete. Then
/// a turn among these moves frees each slot that held an object in that state, that no register reached there, and to which no cycle
/// led. What mutators do meanwhile is open. From a state in which a collection is under way, three collections are enough.
pub fn lost_slots_behind_no_cycle_are_freed()
    ensures idle { (w : Core) (moves : List Move) (slot : ℕ) → IsConfig w.config → EndsRun w → w.collector.phase ≡ Idle → AllFit w moves → Complete 2 w moves → IsLost (sight w) slot → IsBehindNoCycle (sight w) slot → IsFreed w moves slot }
    ensures under_way { (w : Core) (moves : List Move) (slot : ℕ) → IsConfig w.config → EndsRun w → AllFit w moves → Complete 3 w moves → IsLost (sight w) slot → IsBehindNoCycle (sight w) slot → IsFreed w moves slot }
{}

/// A lost slot stays lost until it is freed, over any moves from any state of any run. What leads to it then is lost and not freed either,
/// and led to it in that state. At the end of a collection by which two epochs more were requested, its count is the number of fields
/// that lead to it.
pub fn lost_slots_stay_lost()
    ensures lost { (w : Core) (moves : List Move) (slot : ℕ) → IsConfig w.config → EndsRun w → AllFit w moves → IsLeft w moves slot → IsLost (sight (after_moves w moves)) slot }
    ensures led { (w : Core) (moves : List Move) (slot from : ℕ) → IsConfig w.config → EndsRun w → AllFit w moves → IsLeft w moves slot → Leads (sight (after_moves w moves)) from slot → IsLeft w moves from × Leads (sight w) from slot }
    ensures counted { (w : Core) (moves : List Move) (slot : ℕ) → IsConfig w.config → EndsRun w → AllFit w moves → (after_moves w moves).collector.phase ≡ Idle → w.epoch + 2 ≤ (after_moves w moves).epoch → IsLeft w moves slot → (slot_at (after_moves w moves).collector.counts slot).count ≡ fields_to (sight (after_moves w moves)) slot }
{}

/// Every lost slot is freed by the end of the third collection, as long as no set is refused, garbage cycles too. Take any state of any run
/// of a heap that makes a trial in each collection, in which no collection is under way, and any moves from there over which three
/// collections become complete. If no set was refused before of which a member was touched, and over these moves none is at all, a turn among
/// them frees each slot that held an object in that state and that no register reached there. From a state in which a collection is under
/// way, four collections are enough. What was refused before that state doesn't matter if each slot hangs there on something
/// (`nothing_is_forgotten`). Then, behind two collections that refuse only sets with untouched members, any collection that refuses no set
/// frees it: the first such one, from the third on.
pub fn lost_slots_are_freed_while_no_set_is_refused()
    ensures idle { (w : Core) (moves : List Move) (slot : ℕ) → IsConfig w.config → EndsRun w → w.config.policy.least_roots ≡ 0 → w.collector.phase ≡ Idle → AllFit w moves → touched_sets w ≡ 0 → refused_sets (after_moves w moves) ≡ refused_sets w → Complete 3 w moves → IsLost (sight w) slot → IsFreed w moves slot }
    ensures under_way { (w : Core) (moves : List Move) (slot : ℕ) → IsConfig w.config → EndsRun w → w.config.policy.least_roots ≡ 0 → AllFit w moves → touched_sets w ≡ 0 → refused_sets (after_moves w moves) ≡ refused_sets w → Complete 4 w moves → IsLost (sight w) slot → IsFreed w moves slot }
    ensures last { (w : Core) (first rest : List Move) (slot : ℕ) → IsConfig w.config → EndsRun w → w.config.policy.least_roots ≡ 0 → w.collector.phase ≡ Idle → AllFit w (first ++ rest) → IsCovered w → Complete 2 w first → (after_moves w first).collector.phase ≡ Idle → touched_sets (after_moves (after_moves w first) rest) ≡ touched_sets w → refused_sets (after_moves (after_moves w first) rest) ≡ refused_sets (after_moves w first) → Complete 1 (after_moves w first) rest → IsLost (sight w) slot → IsFreed w (first ++ rest) slot }
    ensures covered { (w : Core) (moves : List Move) (slot : ℕ) → IsConfig w.config → EndsRun w → w.config.policy.least_roots ≡ 0 → w.collector.phase ≡ Idle → AllFit w moves → IsCovered w → refused_sets (after_moves w moves) ≡ refused_sets w → Complete 3 w moves → IsLost (sight w) slot → IsFreed w moves slot }
{}

/// Nothing is forgotten, as long as no set is refused of which a member was touched. A slot hangs on something that the collector still has
/// to look at if it is pending or listed itself, or if fields lead to it from such a slot. It is pending while a batch to come takes
/// something off it: by a log, by a mailbox or by one of the collector's buffers. It is listed while it is released, a zero, a Purple
/// candidate root or a member of a set, or marked by the trial at work. In every state of a run in which no set was refused yet as a batch
/// had touched a member of it, each slot that holds an object hangs on something, unless it is Green. A refused set with untouched members
/// alone hides nothing. If each slot hangs on something in a state between two collections, it stays so until one more set is refused of
/// which a member was touched. And whatever was refused, it is so again once all slots were offered to a trial, from the turn on with
/// which the trial begins. No move of a mutator takes it away, in any phase of a collection and whatever was refused.
pub fn nothing_is_forgotten()
    ensures run { (w : Core) → IsConfig w.config → EndsRun w → touched_sets w ≡ 0 → IsCovered w }
    ensures between { (w : Core) (moves : List Move) → IsConfig w.config → EndsRun w → w.collector.phase ≡ Idle → AllFit w moves → touched_sets (after_moves w moves) ≡ touched_sets w → IsCovered w → IsCovered (after_moves w moves) }
    ensures offered { (w : Core) (m : Move) (moves : List Move) → IsConfig w.config → EndsRun w → AllFit w (m ∷ moves) → w.collector.offers ≡ true → (after_move w m).collector.offers ≡ false → touched_sets (after_moves (after_move w m) moves) ≡ touched_sets (after_move w m) → IsCovered (after_moves (after_move w m) moves) }
    ensures mutators { (w : Core) (m : Move) → IsConfig w.config → EndsRun w → Fits w m → IsNoTurn m → IsCovered w → IsCovered (after_move w m) }
{}
