//! What follows from the definitions alone, as the contract of a function that does nothing.

ghost use Rattle.std.specs.Prelude.{◌≡◌, ℕ, List};
ghost use Rattle.rec_script.specs.declared.error.Kind.{Kind};
ghost use Rattle.rec_run.specs.Resuming.{IsUnresumed};

/// Bytes with which no heap goes on are refused with one line and one kind.
pub fn refused_images_have_one_cause()
    ensures { (bytes : List ℕ) (line other : ℕ) (kind wrong : Kind) → IsUnresumed bytes line kind → IsUnresumed bytes other wrong
        → (line ≡ other) × (kind ≡ wrong) }
{}
