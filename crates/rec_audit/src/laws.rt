//! What follows from the definitions alone, each law as the contract of a function that does nothing.

ghost use Rattle.std.specs.Prelude.{◌≡◌, ◌≤◌, ◌++◌, ◌∷◌, ℕ, false, List, length};
ghost use Rattle.rec_collector.specs.Shown.{Shown};
ghost use Rattle.rec_audit.specs.Lines.{Line, text_of};
ghost use Rattle.rec_audit.specs.Form.{AreHeapNumbers, IsInForm, MayStand, Stand, form_of};
ghost use Rattle.rec_audit.specs.Journal.{heap_numbers, journal, sets_passed};
ghost use Rattle.rec_audit.specs.Keeping.{Keep, behind_steps, first_place};
ghost use Rattle.rec_audit.specs.Verdicts.{IsClean, IsVerdict};
ghost use Rattle.rec_audit.specs.declared.form.Heap.{Heap};
ghost use Rattle.rec_audit.specs.declared.verdict.Verdict.{Verdict as Said};
ghost use Rattle.rec_audit.specs.declared.verdict.Verdict.TheVariants.{Yes};
ghost use Rattle.rec_model.specs.declared.limits.TheConstants.{MOST_BYTES};

/// A journal has one verdict.
pub fn verdicts_are_unique()
    ensures { (bytes : List ℕ) (a b : Said) → IsVerdict bytes a → IsVerdict bytes b → a ≡ b }
{}

/// No journal in form goes on with a line that may not stand behind those before it.
pub fn no_journal_goes_on()
    ensures { (lines more : List Line) (line : Line) → ¬ MayStand (form_of lines) line
        → ¬ IsInForm (lines ++ line ∷ more) }
{}

/// Lines that may stand so are the beginning of a journal in form.
pub fn lines_are_a_beginning()
    ensures { (lines : List Line) → Stand lines → (more : List Line) × IsInForm (lines ++ more) }
{}

/// Where the steps of a collector keep what they have to, the lines of their journal may stand so. The journal is in form where
/// the last collection was completed.
pub fn journals_are_in_form()
    ensures stand { (heap : Heap) (steps : List Shown) → AreHeapNumbers (heap_numbers heap) → Keep heap (first_place heap) steps
        → Stand (journal heap steps) }
    ensures whole { (heap : Heap) (steps : List Shown) → AreHeapNumbers (heap_numbers heap) → Keep heap (first_place heap) steps
        → (behind_steps (first_place heap) steps).working ≡ false → IsInForm (journal heap steps) }
{}

/// Where no word names two references in such a journal, and no member of a set that was given up is on a path from a root
/// there, it is answered yes, with as many sets as passed both tests: each line is clean behind those before it. No other
/// verdict is that of its text, since a journal has one.
pub fn clean_journals_are_answered_yes()
    ensures { (heap : Heap) (steps : List Shown) → AreHeapNumbers (heap_numbers heap) → Keep heap (first_place heap) steps
        → (behind_steps (first_place heap) steps).working ≡ false
        → ((before : List Line) (line : Line) (after : List Line) → journal heap steps ≡ before ++ line ∷ after → IsClean before line)
        → length (text_of (journal heap steps)) ≤ MOST_BYTES
        → IsVerdict (text_of (journal heap steps)) (Yes (sets_passed steps)) }
{}
