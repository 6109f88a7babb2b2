ghost use Rattle.std.specs.Prelude.{◌≡◌, ℕ, ◌<◌, ◌+◌, ◌*◌};
ghost use Rattle.rec_word.specs.Place.{place_of};

/// The place of a field: its number among all fields of a heap whose objects have `fields` fields each.
pub fn place(slot: u16, field: u8, fields: u8) -> u32
    requires { field < fields }

    ensures place { result ≡ place_of slot field fields }

    // No other field has this place.
    ensures only { (s f : ℕ) → f < fields → place_of s f fields ≡ result → (s ≡ slot) × (f ≡ field) }
{
    u32::from(slot) * u32::from(fields) + u32::from(field)
}
