//! What holds of images and of the heaps that they make, each law as the contract of a function that does nothing.

ghost use Rattle.std.specs.Prelude.{◌≡◌, ℕ, List};
ghost use Rattle.rec_collector.specs.declared.policy.Policy.{Policy};
ghost use Rattle.rec_core.specs.Config.{IsConfig};
ghost use Rattle.rec_model.specs.Sight.{NumbersSlots};
ghost use Rattle.rec_world.specs.World.{sight};
ghost use Rattle.rec_image.specs.Image.{ImageContents, IsImage, StopsAt};
ghost use Rattle.rec_image.specs.Restored.{config_of, restored};
ghost use Rattle.rec_image.specs.Standing.{image_of};

/// A heap that is restored from an image has that image again: so what was read is what is written of it, byte for byte.
pub fn restored_heaps_have_their_image()
    ensures { (v : ImageContents) (log_entries : ℕ) (policy : Policy) (slots : List ℕ) → IsImage v → IsConfig (config_of v log_entries policy) → NumbersSlots (sight (restored v log_entries policy)) slots → image_of (restored v log_entries policy) slots ≡ v }
{}

/// Bytes that are no image's text stop at one line.
pub fn images_stop_at_one_line()
    ensures { (bytes : List ℕ) (line other : ℕ) → StopsAt bytes line → StopsAt bytes other → line ≡ other }
{}
