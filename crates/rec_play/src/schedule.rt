ghost use Rattle.std.specs.Prelude.{◌≡◌, ◌+◌, ◌-◌, ◌%◌, ◌∷◌, [], ◌<◌, ◌≤◌, length, IsNone, IfSome, slice_index, slice_set};
ghost use Rattle.rand_pcg.specs.Pcg.{pcg32};
ghost use Rattle.rec_model.specs.declared.limits.TheConstants.{MOST_MUTATORS};
ghost use Rattle.rec_play.specs.Playing.{generator_of, unfinished, to_come};

use crate::Actor;
use arrayvec::ArrayVec;
use rand_core::utils::NextWord;
use rand_pcg::Pcg32;
use std::marker::Model;

/// How many mutators there are at most.
pub const MOST_MUTATORS: usize = rec_model::limits::MOST_MUTATORS as usize;

// The stream of the generator whose words name the actors.
const STREAM: u64 = 1;

/// The playing rule as it goes on. It knows how many commands each mutator has left, and nothing of the heap.
#[derive(Drop)]
pub struct Schedule {
    left: ArrayVec<u32, MOST_MUTATORS>,
    // The mutators with commands left, in rising order.
    unfinished: ArrayVec<u8, MOST_MUTATORS>,
    generator: Pcg32,
    turns: u32,
}

impl Model for Schedule {
    ghost use Rattle.rec_play.specs.Playing.{Rest};

    ghost Value = { Rest };

    ghost use Rattle.rec_play.specs.Inside.{rest, AreNamed};

    ghost view = { rest };

    ghost invariant = { AreNamed };
}

impl Schedule {
    /// The rule at its start: mutators with so many commands each, and so many turns to draw.
    pub fn new(left: ArrayVec<u32, MOST_MUTATORS>, seed: u64, turns: u32) -> Schedule
        ensures { result ≡ record { left = left.items; generator = generator_of seed; turns = turns } }
    {
        let unfinished = unfinished_of(left.as_slice());
        Schedule {
            left,
            unfinished,
            generator: Pcg32::new(seed, STREAM),
            turns,
        }
    }

    /// Whose turn comes next; none where no mutator has commands left.
    pub fn next_turn(&mut self) -> Option<Actor>
        ensures turn { IfSome result (λ actor. to_come self.old ≡ actor ∷ to_come self.new) }
        ensures ended { IsNone result → to_come self.old ≡ [] }
        ensures stays { IsNone result → self.new ≡ self.old }
    {
        if self.unfinished.is_empty() {
            return None;
        }
        let place = self.draw() as usize;
        if place == self.unfinished.len() {
            return Some(Actor::Collector);
        }
        let t = self.unfinished[place];
        self.take(usize::from(t) - 1);
        Some(Actor::Mutator(t))
    }

    // Draws a place: of an unfinished mutator among them, or after them the collector's. Once all turns are drawn it is the
    // first mutator's.
    fn draw(&mut self) -> u32
        requires { 0 < length (unfinished self.old.left) }
        ensures drawn { 0 < self.old.turns → (result ≡ (pcg32 self.old.generator).0 % (length (unfinished self.old.left) + 1))
            × (self.new ≡ record self.old { generator = (pcg32 self.old.generator).1; turns = self.old.turns - 1 }) }
        ensures no_more { self.old.turns ≡ 0 → (result ≡ 0) × (self.new ≡ self.old) }
    {
        if self.turns == 0 {
            return 0;
        }
        self.turns -= 1;
        self.generator.next_word() % (self.unfinished.len() as u32 + 1)
    }

    // Takes one command off those that a mutator, by its index, has left.
    fn take(&mut self, at: usize)
        requires there { at < length self.old.left }
        requires some { 0 < slice_index self.old.left at }
        ensures { self.new ≡ record self.old { left = slice_set self.old.left at (slice_index self.old.left at - 1) } }
    {
        self.left[at] -= 1;
        if self.left[at] == 0 {
            self.unfinished = unfinished_of(self.left.as_slice());
        }
    }
}

// The mutators with commands left.
fn unfinished_of(left: &[u32]) -> ArrayVec<u8, MOST_MUTATORS>
    requires { length left.now ≤ MOST_MUTATORS }
    ensures { result.items ≡ unfinished left.now }
{
    let mut unfinished = ArrayVec::new();
    for (at, left) in left.iter().enumerate() {
        if *left > 0 {
            unfinished.push(at as u8 + 1);
        }
    }
    unfinished
}
