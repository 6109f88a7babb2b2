//! What is kept of one slot.
ghost use Rattle.std.specs.Prelude.{◌≡◌, ◌+◌, ◌<◌, ◌^◌, true, Some};
ghost use Rattle.rec_counts.specs.Slot.{raised, lessened, due_of, lowered, settled, settled_due, swept_clean, fresh, unbuffered};

use crate::colour::Colour;

/// What is kept of one slot.
#[derive(Clone, Copy, Drop)]
pub struct Slot {
    /// How many references to the slot were counted.
    pub count: u64,
    /// What trial deletion left of that count.
    pub cyclic: u64,
    /// What the collector knows of the slot.
    pub colour: Colour,
    /// Whether the slot stands in the root buffer or in a set.
    pub buffered: bool,
    /// Whether the slot was given up, and waits to be swept.
    pub released: bool,
    /// The number of its set, where it is in one.
    pub set: Option<u16>,
}

/// Where a slot goes whose count fell.
#[derive(Clone, Copy, Drop)]
pub enum Due {
    /// It stays where it is.
    Nothing,
    /// To the zeros: nothing holds it any more.
    Zero,
    /// To the root buffer: it may be held by nothing but a cycle.
    Root,
}

impl Slot {
    /// A slot as it is at opening.
    pub(crate) fn new() -> Slot
        ensures { result ≡ fresh }
    {
        Slot {
            count: 1,
            cyclic: 0,
            colour: Colour::Black,
            buffered: false,
            released: false,
            set: None,
        }
    }

    /// Counts one reference more.
    pub(crate) fn raise(&mut self)
        requires { self.old.count + 1 < 2 ^ 64 }
        ensures { self.new ≡ raised self.old }
    {
        self.count += 1;
        self.colour = self.colour.in_use();
    }

    /// Counts one reference less, and answers where the slot goes. A slot that goes to the root buffer is marked as
    /// buffered.
    pub(crate) fn lessen(&mut self) -> Due
        requires { 0 < self.old.count }
        ensures after { self.new ≡ lessened self.old }
        ensures due { result ≡ due_of self.old }
    {
        self.count -= 1;
        self.settle()
    }

    /// Gives it the colour that its count calls for, once references were taken off, and answers where the slot goes. A slot that
    /// goes to the root buffer is marked as buffered.
    pub(crate) fn settle(&mut self) -> Due
        ensures after { self.new ≡ settled self.old }
        ensures due { result ≡ settled_due self.old }
    {
        if self.released {
            return Due::Nothing;
        }
        if self.colour.is_green() {
            return if self.count == 0 {
                Due::Zero
            } else {
                Due::Nothing
            };
        }
        if self.count == 0 {
            self.colour = Colour::Black;
            return Due::Zero;
        }
        self.colour = Colour::Purple;
        if self.buffered {
            return Due::Nothing;
        }
        self.buffered = true;
        Due::Root
    }

    /// Counts one reference less, in both counts.
    pub(crate) fn lower(&mut self)
        requires { 0 < self.old.count }
        ensures { self.new ≡ lowered self.old }
    {
        self.count -= 1;
        self.cyclic = self.cyclic.saturating_sub(1);
    }

    /// Makes it one of the free slots.
    pub(crate) fn sweep(&mut self)
        ensures { self.new ≡ swept_clean self.old }
    {
        self.count = 1;
        self.colour = Colour::Black;
        self.released = false;
    }

    /// Puts it into the set of this number.
    pub(crate) fn join(&mut self, number: u16)
        ensures { self.new ≡ record self.old { buffered = true; set = Some number } }
    {
        self.buffered = true;
        self.set = Some(number);
    }

    /// Takes it out of its buffer.
    pub(crate) fn leave(&mut self)
        ensures { self.new ≡ unbuffered self.old }
    {
        self.buffered = false;
        self.set = None;
    }
}
