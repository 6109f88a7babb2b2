//! What holds of the journal of every run from an opening, each law as the contract of a function that does nothing.

ghost use Rattle.std.specs.Prelude.{◌≡◌, ◌≤◌, ◌++◌, ◌∷◌, ℕ, [], false, List, Some, length};
ghost use Rattle.rec_core.specs.Pending.{has_batched};
ghost use Rattle.rec_collector.specs.Shown.{Batch, Shown};
ghost use Rattle.rec_core.specs.Bare.{Behind};
ghost use Rattle.rec_core.specs.Config.{IsConfig};
ghost use Rattle.rec_core.specs.Core.{Core, opened};
ghost use Rattle.rec_audit.specs.Logged.{HasOwnBuffers};
ghost use Rattle.rec_core.specs.Moves.{AllFit, Move, RunsFrom, after_moves, turned};
ghost use Rattle.rec_core.specs.Shown.{Shows, shown_over, turn_shown};
ghost use Rattle.rec_core.specs.declared.config.Config.{Config};
ghost use Rattle.rec_audit.specs.Form.{IsInForm, Stand};
ghost use Rattle.rec_audit.specs.Graph.{IsReachedAt};
ghost use Rattle.rec_audit.specs.Journal.{batch_lines, journal, op_lines, sets_passed};
ghost use Rattle.rec_audit.specs.Lines.{Line, text_of};
ghost use Rattle.rec_audit.specs.Keeping.{Keep, behind_steps, first_place};
ghost use Rattle.rec_audit.specs.Runs.{IsReachedIn, ReachesAsRun, TellEpoch, heap_for, place_of};
ghost use Rattle.rec_audit.specs.Verdicts.{HasReachFault, HasStampFault, IsVerdict};
ghost use Rattle.rec_audit.specs.declared.verdict.Verdict.TheVariants.{Yes};
ghost use Rattle.rec_model.specs.declared.limits.TheConstants.{MOST_BYTES};

/// The steps of the collector of every run keep their order and their ranges: batches follow one another, what is given up and swept
/// stands between a batch and the end of its collection, and all numbers are of the heap.
pub fn steps_of_runs_keep_order()
    ensures keep { (config : Config) (shown : List Shown) (end : Core) → IsConfig config → Shows (opened config) shown end
        → Keep (heap_for config) (first_place (heap_for config)) shown }
    ensures place { (config : Config) (shown : List Shown) (end : Core) → IsConfig config → Shows (opened config) shown end
        → behind_steps (first_place (heap_for config)) shown ≡ place_of end.collector }
{}

/// So each line of a run's journal may stand behind those before it. Where no collection is left open, the journal is in form.
pub fn journals_of_runs_are_in_form()
    ensures stand { (config : Config) (shown : List Shown) (end : Core) → IsConfig config → Shows (opened config) shown end
        → Stand (journal (heap_for config) shown) }
    ensures whole { (config : Config) (shown : List Shown) (end : Core) → IsConfig config → Shows (opened config) shown end
        → has_batched end.collector.phase ≡ false → IsInForm (journal (heap_for config) shown) }
{}

/// No word of such a journal names two references: no line puts a word with a target that an earlier one has put too.
pub fn words_of_runs_differ()
    ensures { (config : Config) (shown : List Shown) (end : Core) (before : List Line) (line : Line) (after : List Line) → IsConfig config
        → Shows (opened config) shown end → journal (heap_for config) shown ≡ before ++ line ∷ after → ¬ HasStampFault before line }
{}

/// And no member of a set that is given up is on a path of references from a root there.
pub fn sets_of_runs_are_unreached()
    ensures { (config : Config) (shown : List Shown) (end : Core) (before : List Line) (line : Line) (after : List Line) → IsConfig config
        → Shows (opened config) shown end → journal (heap_for config) shown ≡ before ++ line ∷ after → ¬ HasReachFault before line }
{}

/// Where the collector's step gives a set up, the journal reaches what the run does: what is on a path from a root there is in the reach of
/// the run's epoch, or is a free slot; and each slot in that reach, and each free one, is on a path from a root there.
pub fn reach_of_journals_is_of_runs()
    ensures within { (config : Config) (moves : List Move) (step : Shown) (members : List ℕ) (slot : ℕ) → IsConfig config → AllFit (opened config) moves
        → turn_shown (after_moves (opened config) moves) ≡ step ∷ [] → step.passed ≡ Some members
        → IsReachedAt (journal (heap_for config) (shown_over (opened config) moves) ++ (batch_lines step.batch ++ op_lines step.op step.word)) slot
        → Behind (turned (after_moves (opened config) moves)) (λ v. IsReachedIn v slot) }
    ensures same { (config : Config) (moves : List Move) (step : Shown) (members : List ℕ) → IsConfig config → AllFit (opened config) moves
        → turn_shown (after_moves (opened config) moves) ≡ step ∷ [] → step.passed ≡ Some members
        → Behind (turned (after_moves (opened config) moves))
        (λ v. ReachesAsRun v (journal (heap_for config) (shown_over (opened config) moves) ++ (batch_lines step.batch ++ op_lines step.op step.word))) }
{}

/// The block that a step begins tells all of its epoch that the heap's buffers have right behind that step: every write, every birth, and
/// what registers held as their mutators left the epoch.
pub fn blocks_of_runs_tell_their_epoch()
    ensures { (config : Config) (moves : List Move) (step : Shown) (batch : Batch) → IsConfig config → AllFit (opened config) moves
        → turn_shown (after_moves (opened config) moves) ≡ step ∷ [] → step.batch ≡ Some batch
        → Behind (turned (after_moves (opened config) moves)) (λ v. TellEpoch v batch.epoch (batch_lines (Some batch))) }
{}

/// So the journal of every run from an opening in which no collection is left open is answered yes, with as many sets as passed both
/// tests, unless its text is too long. No other verdict is that of its text.
pub fn journals_of_runs_are_answered_yes()
    ensures { (config : Config) (shown : List Shown) (end : Core) → IsConfig config → Shows (opened config) shown end
        → has_batched end.collector.phase ≡ false → length (text_of (journal (heap_for config) shown)) ≤ MOST_BYTES
        → IsVerdict (text_of (journal (heap_for config) shown)) (Yes (sets_passed shown)) }
{}

/// Over every run from an opening with one object, each buffer holds what its own mutator did: places and slots of the heap, and each
/// write under a stamp of the mutator's number and the write's place in its log.
pub fn buffers_are_their_mutators_own()
    ensures { (config : Config) (w : Core) → IsConfig config → RunsFrom (opened config) w → HasOwnBuffers w }
{}
