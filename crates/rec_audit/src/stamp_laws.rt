//! What the stamps in the words of a heap tell of its runs, each law as the contract of a function that does nothing.

ghost use Rattle.std.specs.Prelude.{◌≡◌, ℕ, ◌+◌, ◌<◌, List, Some, true, map};
ghost use Rattle.std.specs.List.{Contains};
ghost use Rattle.rec_model.specs.References.{count_formula};
ghost use Rattle.rec_counts.specs.Counts.{slot_at};
ghost use Rattle.rec_collector.specs.Next.{next_of as collector_next};
ghost use Rattle.rec_collector.specs.Shown.{passed_of};
ghost use Rattle.rec_counts.specs.Lists.{times};
ghost use Rattle.rec_core.specs.Bare.{bare_core, Behind};
ghost use Rattle.rec_audit.specs.ByStamps.{by_stamps, cleared_by_stamp, load_by_stamp};
ghost use Rattle.rec_core.specs.Config.{IsConfig};
ghost use Rattle.rec_core.specs.Core.{Core, heap_by, opened, heap_from_by, opened_from};
ghost use Rattle.rec_word.specs.declared.op.Op.TheVariants.{FreeHeader};
ghost use Rattle.rec_core.specs.Freed.{AreGone, IsForgotten, IsGone, IsProvenGarbage, Passes, TestsSets};
ghost use Rattle.rec_core.specs.Loads.{cleared_over, IsReferenceStill, IsSameTrial, Loaded, loaded_over};
ghost use Rattle.rec_core.specs.Moves.{Move, AllFit, after_moves, EndsRun};
ghost use Rattle.rec_core.specs.Objects.{AreObjects, HaveLabels, Objects};
ghost use Rattle.rec_core.specs.Pending.{pending};
ghost use Rattle.rec_core.specs.declared.config.Config.{Config};

/// Stamps are dates. Take a run, and the run of dated words beside it. What the dated heap has to account for is what the heap itself has,
/// where each word in a field or in a buffer is dated by its own stamp. So the date of each such word is the epoch that its stamp tells.
pub fn stamps_are_dates()
    ensures opens { (config : Config) (moves : List Move) → IsConfig config → AllFit (opened config) moves → pending (after_moves (heap_by true config) moves) ≡ pending (by_stamps (after_moves (opened config) moves)) }
    ensures opens_from { (config : Config) (o : Objects) (moves : List Move) → IsConfig config → AreObjects config o → HaveLabels o.nodes → AllFit (opened_from config o) moves → pending (after_moves (heap_from_by true config o) moves) ≡ pending (by_stamps (after_moves (opened_from config o) moves)) }
{}

/// A heap counts late, by the epochs that its own stamps tell, in every state of every run of it with its collector. The true count of
/// every slot is the count formula of its node at the epoch of the last batch. A set that passes both tests is garbage: no member is in the
/// reach of that epoch. What was given up, as the members of the set that a watch is shown, is in the reach of no epoch from that one on.
/// No register, no field of a slot that isn't given up and nothing that is pending names it. And no register, no field of any slot and
/// nothing that is pending names a slot whose header is set to 0.
pub fn stamped_heaps_count_late()
    ensures counts { (w : Core) (slot : ℕ) → IsConfig w.config → EndsRun w → slot < w.config.slots → (slot_at w.collector.counts slot).count ≡ count_formula (pending (by_stamps w)) (pending (by_stamps w)).applied (slot + 1) }
    ensures passed { (w : Core) (number : ℕ) → IsConfig w.config → EndsRun w → TestsSets w.collector.phase → Passes w number → IsProvenGarbage (by_stamps w) number }
    ensures gone { (w : Core) → IsConfig w.config → EndsRun w → AreGone (by_stamps w) }
    ensures forgotten { (w : Core) (slot : ℕ) → IsConfig w.config → EndsRun w → collector_next w.collector ≡ Some (FreeHeader slot) → IsForgotten (by_stamps w) slot }
    ensures shown { (w : Core) (members : List ℕ) (slot : ℕ) → IsConfig w.config → EndsRun w → passed_of w.collector ≡ Some members → 0 < times slot members → IsGone (by_stamps w) slot }
{}

/// What the collector loads from fields stays what it is, whether marking, blackening, collecting or preparation loads it, until the
/// sets that the trial found are tested. Take any moves of mutators and collector over which no other trial begins. Each word that they
/// loaded was put in the epoch requested then, or before. At their end it stands in its field, or a write of that epoch or of a later
/// one replaced it there, or the collector took it out. The epochs are those of the heap of dated words behind, and the same moves lead
/// that one to the heap behind the heap that they lead to.
pub fn loaded_words_stay_references()
    ensures { (w : Core) → IsConfig w.config → EndsRun w → Behind w (λ v. (moves : List Move) → AllFit w moves → (bare_core (after_moves v moves) ≡ after_moves w moves) × ((l : Loaded) → IsSameTrial v (after_moves v moves) → Contains (loaded_over v moves) l → IsReferenceStill (after_moves v moves) (cleared_over v moves) l)) }
{}

/// What the collector loads from fields stays what it is, by the epochs that the heap's own stamps tell. Take any moves of mutators and
/// collector, in any state of any run, over which no other trial begins. Each word that they loaded was put in the epoch requested then,
/// or before. At their end it stands in its field, or a write of that epoch or of a later one replaced it there, or the collector took it
/// out.
pub fn stamped_words_stay_references()
    ensures { (w : Core) (moves : List Move) (l : Loaded) → IsConfig w.config → EndsRun w → AllFit w moves → IsSameTrial w (after_moves w moves) → Contains (loaded_over w moves) l → IsReferenceStill (by_stamps (after_moves w moves)) (map cleared_by_stamp (cleared_over w moves)) (load_by_stamp l) }
{}
