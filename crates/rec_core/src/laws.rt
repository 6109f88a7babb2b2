//! What holds of every run, each law as the contract of a function that does nothing.

ghost use Rattle.std.specs.Prelude.{◌≡◌, ℕ, ◌+◌, ◌<◌, ◌≤◌, Bool, List, Some, IfSome, false, true, map, slice_index_or};
ghost use Rattle.std.specs.List.{concat};
ghost use Rattle.rec_model.specs.Asking.{allocation};
ghost use Rattle.rec_model.specs.Heap.{Heap};
ghost use Rattle.rec_model.specs.References.{count_formula};
ghost use Rattle.rec_model.specs.Sight.{IsTaken, Reaches, StandsBy};
ghost use Rattle.rec_counts.specs.Counts.{slot_at};
ghost use Rattle.rec_model.specs.declared.told.Told.{Told};
ghost use Rattle.rec_mutator.specs.Private.{is_busy, answer_of};
ghost use Rattle.rec_mutator.specs.declared.made.Made.TheVariants as makes;
ghost use Rattle.rec_mutator.specs.declared.phase.Phase.TheVariants.{Begun};
ghost use Rattle.rec_mutator.specs.declared.work.Work.TheVariants as works;
ghost use Rattle.rec_collector.specs.Next.{next_of as collector_next};
ghost use Rattle.rec_collector.specs.Outside.{HasSets, IsOutside};
ghost use Rattle.rec_collector.specs.Shown.{passed_of};
ghost use Rattle.rec_counts.specs.Lists.{times};
ghost use Rattle.rec_collector.specs.Touched.{IsOrangeIn, WasUntouched};
ghost use Rattle.rec_collector.specs.Zeros.{AreTheZeros};
ghost use Rattle.rec_sigma.specs.Prepared.{seen};
ghost use Rattle.rec_core.specs.Bare.{bare_core, Behind};
ghost use Rattle.rec_core.specs.Config.{IsConfig, IsMutator};
ghost use Rattle.rec_core.specs.Core.{Core, sight, mutator, heap_by, opened, heap_from_by, opened_from};
ghost use Rattle.rec_word.specs.declared.op.Op.TheVariants.{FreeHeader};
ghost use Rattle.rec_word.specs.Header.{header_word};
ghost use Rattle.rec_word.specs.Place.{places_of};
ghost use Rattle.rec_core.specs.CutOff.{IsClear, IsCutOff};
ghost use Rattle.rec_core.specs.Freed.{AreGone, IsForgotten, IsGone, IsProvenGarbage, Passes, TestsSets};
ghost use Rattle.rec_core.specs.Kept.{IsKept};
ghost use Rattle.rec_core.specs.Loads.{BeginsPreparing, fields_loaded, IsSameTrial, Loaded, loaded_over, named_over};
ghost use Rattle.rec_core.specs.Preconditions.{MayStep, MayTurn};
ghost use Rattle.rec_core.specs.Moves.{Move, AllFit, Fits, after_move, after_moves, IsRun, EndsRun, RunsFrom, stepped, turned};
ghost use Rattle.rec_core.specs.Objects.{AreObjects, HaveLabels, Objects};
ghost use Rattle.rec_core.specs.Pending.{pending};
ghost use Rattle.rec_core.specs.Reach.{KeepsReached};
ghost use Rattle.rec_core.specs.Scans.{BeginsNone, FailsByProbes};
ghost use Rattle.rec_core.specs.StepAnswers.{IsShown};
ghost use Rattle.rec_core.specs.Turn.{IsTurn, turn_told};
ghost use Rattle.rec_core.specs.declared.config.Config.{Config};

/// What every heap keeps holds at the end of every run: behind it stands a heap of dated words, whose bare words are those of the end,
/// and which keeps what is said of epochs too.
pub fn runs_keep()
    ensures { (start : Core) (moves : List Move) (end : Core) → IsConfig start.config → IsRun start moves end → IsKept false end }
{}

/// Where a run ends, one from an opening with its numbers ends too, from objects. The opening with one object is such an opening.
pub fn runs_begin_with_an_opening()
    ensures { (w : Core) → EndsRun w → (o : Objects) × AreObjects w.config o × HaveLabels o.nodes × RunsFrom (opened_from w.config o) w }
{}

/// A run goes on with every move that fits its end.
pub fn runs_go_on()
    ensures { (w : Core) (m : Move) → EndsRun w → Fits w m → EndsRun (after_move w m) }
{}

/// Beside each run stands a run of dated words: from the dated opening with the same objects, by the same moves. Its bare words are those
/// of the heap in every state, and it keeps what is said of epochs too. So each date is the epoch of the write that put the word.
pub fn dated_runs_stand_beside()
    ensures opens { (config : Config) (moves : List Move) → IsConfig config → AllFit (opened config) moves → AllFit (heap_by true config) moves × ((bare_core (after_moves (heap_by true config) moves) ≡ after_moves (opened config) moves) × IsKept true (after_moves (heap_by true config) moves)) }
    ensures opens_from { (config : Config) (o : Objects) (moves : List Move) → IsConfig config → AreObjects config o → HaveLabels o.nodes → AllFit (opened_from config o) moves → AllFit (heap_from_by true config o) moves × ((bare_core (after_moves (heap_from_by true config o) moves) ≡ after_moves (opened_from config o) moves) × IsKept true (after_moves (heap_from_by true config o) moves)) }
{}

/// Whatever heap of dated words keeps this, its true counts are the count formula. A set of it that passes both tests is garbage, as is
/// the one that a watch is shown, and stays so once it is given up. And nothing names a slot that it frees.
pub fn dated_heaps_count_late()
    ensures counts { (v : Core) (slot : ℕ) → IsKept true v → slot < v.config.slots → (slot_at v.collector.counts slot).count ≡ count_formula (pending v) (pending v).applied (slot + 1) }
    ensures passed { (v : Core) (number : ℕ) → IsKept true v → TestsSets v.collector.phase → Passes v number → IsProvenGarbage v number }
    ensures gone { (v : Core) → IsKept true v → AreGone v }
    ensures forgotten { (v : Core) (slot : ℕ) → IsKept true v → collector_next v.collector ≡ Some (FreeHeader slot) → IsForgotten v slot }
    ensures shown { (v : Core) (members : List ℕ) (slot : ℕ) → IsKept true v → passed_of v.collector ≡ Some members → 0 < times slot members → IsGone v slot }
{}

/// Nothing that a register reaches is released, freed or handed out again, in any state of any run of a heap with its
/// collector: a reached slot is taken and not released; a turn of the collector keeps its header and its words; a step of a
/// mutator claims no taken slot. And whatever heap that never frees stood for what was seen stands for it after every turn,
/// by the same numbers.
pub fn nothing_reached_is_freed()
    ensures reached { (w : Core) → IsConfig w.config → EndsRun w → (slot : ℕ) → Reaches (sight w) slot → IsTaken (sight w) slot × ((slot_at w.collector.counts slot).released ≡ false) }
    ensures turned { (w : Core) → IsConfig w.config → EndsRun w → KeepsReached (sight w) (sight (turned w)) }
    ensures stands { (w : Core) (heap : Heap) (number : ℕ → ℕ) → IsConfig w.config → EndsRun w → StandsBy heap (sight w) number → StandsBy heap (sight (turned w)) number }
    ensures claimed { (w : Core) (t slot : ℕ) → IsTaken (sight w) slot → slice_index_or (stepped w t).headers slot 0 ≡ slice_index_or w.headers slot 0 }
{}

/// Each turn of the collector, in any run of a heap with its collector, is one, with the answer that its machine gives: whichever heap
/// makes the run, one turn after another or among the steps of the mutators.
pub fn turns_keep_their_promises()
    ensures { (w : Core) → IsConfig w.config → EndsRun w → IsTurn w (turned w) (turn_told w) }
{}

/// While sets are tested, in any state of any run of a heap with its collector, a set that passes the Delta test and the Sigma
/// test is garbage: no member is in the reach of the epoch whose batch was applied. And whatever was given up, as the members of
/// such a set are at once, is in the reach of no epoch from that one on, and is named by no register, by no field of a slot that
/// isn't given up and by nothing that is pending, until its slot is freed. The epochs are those of the heap of dated words behind, which
/// has the same counts, lists and sets.
pub fn sets_that_pass_are_garbage()
    ensures passed { (w : Core) → IsConfig w.config → EndsRun w → Behind w (λ v. (number : ℕ) → TestsSets v.collector.phase → Passes v number → IsProvenGarbage v number) }
    ensures gone { (w : Core) → IsConfig w.config → EndsRun w → Behind w AreGone }
{}

/// A header is set to 0, in any state of any run of a heap with its collector, only where no register, no field of any slot and
/// nothing that is pending names the slot, and the slot stands in no list of the collector but the free list. What is pending is told by
/// the epochs of the heap of dated words behind.
pub fn freed_slots_are_forgotten()
    ensures { (w : Core) → IsConfig w.config → EndsRun w → Behind w (λ v. (slot : ℕ) → collector_next v.collector ≡ Some (FreeHeader slot) → IsForgotten v slot) }
{}

/// Nothing leads to what is given up, in every state of every run of a heap with its collector: it is said of the heap's own registers and
/// field words. A member of a set that passes both tests is reached from no register. No register names a slot that was given up, or a
/// member of the set that a watch is shown. Nor does a field of a slot that isn't given up lead to it. Where a header is set to 0, no
/// register and no field of any slot leads to the slot, and no list of the collector but the free list has it.
pub fn nothing_leads_to_what_is_given_up()
    ensures passed { (w : Core) (number slot : ℕ) → IsConfig w.config → EndsRun w → TestsSets w.collector.phase → Passes w number → (slot_at w.collector.counts slot).set ≡ Some number → Reaches (sight w) slot → ⊥ }
    ensures given_up { (w : Core) (slot : ℕ) → IsConfig w.config → EndsRun w → slot < w.config.slots → (slot_at w.collector.counts slot).released ≡ true → IsCutOff w slot }
    ensures shown { (w : Core) (members : List ℕ) (slot : ℕ) → IsConfig w.config → EndsRun w → passed_of w.collector ≡ Some members → 0 < times slot members → IsCutOff w slot }
    ensures freed { (w : Core) (slot : ℕ) → IsConfig w.config → EndsRun w → collector_next w.collector ≡ Some (FreeHeader slot) → IsClear w slot }
{}

/// The true count of every slot is the count formula of its node at the epoch of the last batch, in every state of every run
/// of a heap with its collector, by the epochs of the heap of dated words behind it.
pub fn true_counts_are_the_formula()
    ensures { (w : Core) → IsConfig w.config → EndsRun w → Behind w (λ v. (slot : ℕ) → slot < v.config.slots → (slot_at v.collector.counts slot).count ≡ count_formula (pending v) (pending v).applied (slot + 1)) }
{}

/// Where an allocation is answered Full or Busy, over whatever moves of whatever run its steps were made, its first step found the
/// freed word that is told. Then each header was claimed, once round from the slot with which the allocation was begun, and each was
/// found taken. Full comes where that word was even and its last step found the same, and Busy tells both where that is not so.
pub fn failed_allocations_probed_every_slot()
    ensures { (w : Core) (moves : List Move) (t reg label : ℕ) (leaf : Bool) (told : Told) → IsConfig w.config → EndsRun w → IsMutator w.config t → (mutator w t).phase ≡ Begun (works.Command (allocation leaf reg label)) → AllFit w moves → BeginsNone t moves → is_busy (mutator (after_moves w moves) t) ≡ true → answer_of (mutator (stepped (after_moves w moves) t) t) ≡ Some (makes.Answered told) → FailsByProbes w t (header_word leaf label) moves (after_moves w moves) told.answer }
{}

/// A member of a prepared set that is Orange still was touched by nothing since. Take any moves of mutators and collector over which no
/// trial begins. The member was Orange in the same set before them. No increment, decrement or snapshot of a batch named it, and no
/// decrement since; but in a steady heap a register may have named it that named it in both snapshots of a batch. Each reference that was
/// lowered came off its true count and off its cyclic count, not below zero. It is said of the heap of dated words behind, which has the
/// same counts.
pub fn orange_members_stay_untouched()
    ensures { (w : Core) → IsConfig w.config → EndsRun w → Behind w (λ v. (moves : List Move) → AllFit w moves → (bare_core (after_moves v moves) ≡ after_moves w moves) × ((number x : ℕ) → HasSets v.collector.phase → IsSameTrial v (after_moves v moves) → IsOrangeIn (after_moves v moves).collector.counts number x → WasUntouched v.collector.counts (after_moves v moves).collector.counts number x (named_over v moves x))) }
{}

/// The outside count of a member is read off the run. Take the turn with which the preparation of sets begins, and any moves behind it
/// over which no trial begins, once the preparation is done. They loaded each field of each member once, in order, and no other. The
/// cyclic count of each member that is Orange still is its outside count by these words: its true count at that turn, less the words in
/// fields of its set's members that lead to it. Each reference that was lowered since took one more off, not below zero. So a member of
/// a set that passes both tests has no more references than there are such words. It is said of the heap of dated words behind.
pub fn outside_counts_are_of_the_run()
    ensures places { (w : Core) → IsConfig w.config → EndsRun w → Behind w (λ v. (moves : List Move) → BeginsPreparing v → AllFit (turned w) moves → (bare_core (after_moves (turned v) moves) ≡ after_moves (turned w) moves) × (IsSameTrial (turned v) (after_moves (turned v) moves) → HasSets (after_moves (turned v) moves).collector.phase → map (λ (l : Loaded). l.place) (loaded_over (turned v) moves) ≡ places_of v.config.fields (concat (turned v).collector.counts.sets))) }
    ensures passed { (w : Core) → IsConfig w.config → EndsRun w → Behind w (λ v. (moves : List Move) → BeginsPreparing v → AllFit (turned w) moves → (bare_core (after_moves (turned v) moves) ≡ after_moves (turned w) moves) × ((number x : ℕ) → IsSameTrial (turned v) (after_moves (turned v) moves) → HasSets (after_moves (turned v) moves).collector.phase → Passes (after_moves (turned v) moves) number → (slot_at (after_moves (turned v) moves).collector.counts x).set ≡ Some number → (slot_at (after_moves (turned v) moves).collector.counts x).count ≤ seen (turned v).collector.counts number (fields_loaded v.config.fields (loaded_over (turned v) moves)) x)) }
    ensures members { (w : Core) → IsConfig w.config → EndsRun w → Behind w (λ v. (moves : List Move) → BeginsPreparing v → AllFit (turned w) moves → (bare_core (after_moves (turned v) moves) ≡ after_moves (turned w) moves) × ((number x : ℕ) → IsSameTrial (turned v) (after_moves (turned v) moves) → HasSets (after_moves (turned v) moves).collector.phase → IsOrangeIn (after_moves (turned v) moves).collector.counts number x → IsOutside (turned v).collector.counts (after_moves (turned v) moves).collector.counts (fields_loaded v.config.fields (loaded_over (turned v) moves)) number x)) }
{}

/// So it is of the heap's own run and its own words. Take the turn with which the preparation of sets begins, and any moves behind it over
/// which no trial begins, once the preparation is done. They loaded each field of each member once, in order, and no other. By these words
/// the cyclic count of a member that is Orange still is its outside count, less what was lowered since. And a member of a set that passes
/// both tests has no more references than there are words of its own set that lead to it.
pub fn outside_counts_are_of_own_words()
    ensures places { (w : Core) (moves : List Move) → IsConfig w.config → EndsRun w → BeginsPreparing w → AllFit (turned w) moves → IsSameTrial (turned w) (after_moves (turned w) moves) → HasSets (after_moves (turned w) moves).collector.phase → map (λ (l : Loaded). l.place) (loaded_over (turned w) moves) ≡ places_of w.config.fields (concat (turned w).collector.counts.sets) }
    ensures passed { (w : Core) (moves : List Move) (number x : ℕ) → IsConfig w.config → EndsRun w → BeginsPreparing w → AllFit (turned w) moves → IsSameTrial (turned w) (after_moves (turned w) moves) → HasSets (after_moves (turned w) moves).collector.phase → Passes (after_moves (turned w) moves) number → (slot_at (after_moves (turned w) moves).collector.counts x).set ≡ Some number → (slot_at (after_moves (turned w) moves).collector.counts x).count ≤ seen (turned w).collector.counts number (fields_loaded w.config.fields (loaded_over (turned w) moves)) x }
    ensures members { (w : Core) (moves : List Move) (number x : ℕ) → IsConfig w.config → EndsRun w → BeginsPreparing w → AllFit (turned w) moves → IsSameTrial (turned w) (after_moves (turned w) moves) → HasSets (after_moves (turned w) moves).collector.phase → IsOrangeIn (after_moves (turned w) moves).collector.counts number x → IsOutside (turned w).collector.counts (after_moves (turned w) moves).collector.counts (fields_loaded w.config.fields (loaded_over (turned w) moves)) number x }
{}

/// In every state of every run of a heap with its collector, the zeros are exactly the slots without a count that are neither
/// released nor Orange.
pub fn zeros_are_exact()
    ensures { (w : Core) → IsConfig w.config → EndsRun w → AreTheZeros w.collector.counts }
{}

/// Where a step of a mutator answers a command, in any state of any run of a heap with its collector, whatever heap that never
/// frees stood for what was seen gives the answer, and what asking makes of it stands for what is seen afterwards. Full is
/// answered only where no slot is free. That a mutator leaves is decided by the step that takes its mailbox, before the one that
/// answers. Every other step leaves all that is seen.
pub fn answers_are_explained()
    ensures { (w : Core) (t : ℕ) → IsConfig w.config → EndsRun w → IsMutator w.config t → is_busy (mutator w t) ≡ true → IsShown w t (answer_of (mutator (stepped w t) t)) (stepped w t) }
{}

/// Whatever the machines ask of the heap in which they make a step holds in every state of every run of a heap with its
/// collector: the word that a step names is there, and is one that the machine may find, and a mailbox that is taken holds what
/// it has to. So the code that runs them tests none of it.
pub fn conditions_are_met()
    ensures steps { (w : Core) (t : ℕ) → IsConfig w.config → EndsRun w → IsMutator w.config t → is_busy (mutator w t) ≡ true → MayStep w t }
    ensures turns { (w : Core) → IsConfig w.config → EndsRun w → IfSome (collector_next w.collector) (MayTurn w) }
{}

/// The set of which a watch is shown that it passed both tests is garbage. Behind that step, in any state of any run of a heap with its
/// collector, each member is in the reach of no epoch from that of the last batch on, and nothing names it, by the epochs of the heap of
/// dated words behind.
pub fn shown_sets_are_garbage()
    ensures { (w : Core) → IsConfig w.config → EndsRun w → Behind w (λ v. (members : List ℕ) (slot : ℕ) → passed_of v.collector ≡ Some members → 0 < times slot members → IsGone v slot) }
{}
