//! What follows from the definitions alone, each law as the contract of a function that does nothing.

ghost use Rattle.std.specs.Prelude.{◌≡◌, ℕ, List};
ghost use Rattle.rec_script.specs.Behind.{IsRefusedBehind, Numbers};
ghost use Rattle.rec_script.specs.Script.{ScriptContents, IsRefused, IsText, Spells};
ghost use Rattle.rec_script.specs.declared.error.Kind.{Kind};

/// The lines of a text spell one script at most.
pub fn texts_spell_one_script()
    ensures { (text : List (List ℕ)) (a b : ScriptContents) → Spells text a → Spells text b → a ≡ b }
{}

/// A text that is refused, with whichever line and kind, is no script's.
pub fn refused_texts_spell_nothing()
    ensures { (bytes : List ℕ) (line : ℕ) (kind : Kind) → IsRefused bytes line kind → ¬ IsText bytes }
{}

/// A text is refused with one line and one kind.
pub fn refusals_are_unique()
    ensures { (bytes : List ℕ) (line other : ℕ) (kind wrong : Kind) → IsRefused bytes line kind
        → IsRefused bytes other wrong → (line ≡ other) × (kind ≡ wrong) }
{}

/// And so are mutators behind a heap that is told before: their bytes, which follow this line, are refused with one number and one kind.
pub fn refusals_behind_are_unique()
    ensures { (heap : Numbers) (bytes : List ℕ) (line number other : ℕ) (kind wrong : Kind) → IsRefusedBehind heap bytes line number kind
        → IsRefusedBehind heap bytes line other wrong → (number ≡ other) × (kind ≡ wrong) }
{}
