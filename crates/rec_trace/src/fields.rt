//! The fields of a heap, as threads share them.

ghost use Rattle.std.specs.Prelude.{◌≡◌, ◌+◌, ◌*◌, ◌<◌, ◌≤◌, ◌^◌, length, slice_range};

/// The words of all fields, by place, and how many each slot has of them. It is all that threads see of a heap.
#[derive(Clone, Copy)]
pub struct Fields<'a> {
    pub words: &'a [u64],
    pub each: usize,
}

impl<'a> Fields<'a> {
    /// The words of a slot's fields, in order.
    pub fn of(self, slot: u16) -> &'a [u64]
        requires { slot * self.each + self.each ≤ length self.words.now }
        ensures { result.now ≡ slice_range self.entry.words.now (slot * self.entry.each) (slot * self.entry.each + self.entry.each) }
    {
        let first = usize::from(slot) * self.each;
        &self.words[first..first + self.each]
    }
}
