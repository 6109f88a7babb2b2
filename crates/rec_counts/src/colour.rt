//! The six colours.
ghost use Rattle.std.specs.Prelude.{◌≡◌};
ghost use Rattle.rec_counts.specs.Colour.{in_use, is_green, whitened};

/// The colour of a slot, which says what the collector knows of it.
#[derive(Clone, Copy, PartialEq, Eq, Debug, Drop)]
pub enum Colour {
    /// In use, or free.
    Black,
    /// A possible root of a garbage cycle: a count of it fell, and not to zero.
    Purple,
    /// Reached by marking.
    Gray,
    /// Possibly garbage: nothing outside the marked slots was seen to hold it.
    White,
    /// A member of a set of the cycle buffer.
    Orange,
    /// A leaf: it has no fields, so no garbage cycle goes through it.
    Green,
}

impl Colour {
    /// The colour of a slot of this colour once something holds it: Green stays, any other is Black.
    #[inline(always)]
    pub fn in_use(self) -> Colour
        ensures { result ≡ in_use self }
    {
        match self {
            Colour::Green => Colour::Green,
            _ => Colour::Black,
        }
    }

    /// White where this is Gray; any other colour stays.
    #[inline(always)]
    pub fn whitened(self) -> Colour
        ensures { result ≡ whitened self }
    {
        match self {
            Colour::Gray => Colour::White,
            _ => self,
        }
    }

    /// Whether it is Green.
    #[inline(always)]
    pub fn is_green(self) -> bool
        ensures { result ≡ is_green self }
    {
        matches!(self, Colour::Green)
    }
}
