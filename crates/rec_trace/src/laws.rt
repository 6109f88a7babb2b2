//! What a trace has to do with settling, each law as the contract of a function that does nothing.

ghost use Rattle.std.specs.Prelude.{◌≡◌, ◌↔◌, ℕ, true, List, length};
ghost use Rattle.rec_model.specs.Reach.{is_in};
ghost use Rattle.rec_model.specs.Sight.{IsTaken, NumbersSlots};
ghost use Rattle.rec_core.specs.Core.{Core, sight};
ghost use Rattle.rec_core.specs.Settled.{IsSettled};
ghost use Rattle.rec_core.specs.Worked.{AreIdle};
ghost use Rattle.rec_settle.specs.Collecting.{taken_slots};
ghost use Rattle.rec_settle.specs.Whole.{HasSettled};
ghost use Rattle.rec_settle.specs.declared.whole.Settled.{Settled};
ghost use Rattle.rec_world.specs.World.{IsWorld};

/// In a settled heap just the slots of a trace hold objects, so there are as many of these as of those.
pub fn settled_heaps_are_traced()
    ensures taken { (w : Core) (slots : List ℕ) → IsSettled w → NumbersSlots (sight w) slots → (slot : ℕ) → IsTaken (sight w) slot ↔ (is_in slot slots ≡ true) }
    ensures many { (w : Core) (slots : List ℕ) → IsSettled w → NumbersSlots (sight w) slots → length slots ≡ taken_slots w }
{}

/// Settling keeps the trace: what one lists before settling, one lists afterwards, and just these slots hold objects then. So a trace
/// that is made before settling tells how many slots settling leaves.
pub fn settling_keeps_traces()
    ensures same { (before after : Core) (told : Settled) (slots : List ℕ) → IsWorld before → AreIdle before → HasSettled before after told → NumbersSlots (sight before) slots → NumbersSlots (sight after) slots }
    ensures taken { (before after : Core) (told : Settled) (slots : List ℕ) → IsWorld before → AreIdle before → HasSettled before after told → NumbersSlots (sight before) slots → (slot : ℕ) → IsTaken (sight after) slot ↔ (is_in slot slots ≡ true) }
    ensures many { (before after : Core) (told : Settled) (slots : List ℕ) → IsWorld before → AreIdle before → HasSettled before after told → NumbersSlots (sight before) slots → length slots ≡ told.live }
{}
