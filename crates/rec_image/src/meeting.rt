//! Which objects are met while an image is read, in the order in which a listing numbers them.

ghost use Rattle.std.specs.Prelude.{◌≡◌, ◌↔◌, ◌+◌, ◌<◌, ◌≤◌, ◌^◌, [], ◌∷◌, IsTrue};
ghost use Rattle.rec_model.specs.Reach.{named};
ghost use Rattle.rec_image.specs.Drafts.{begins, meets, meets_all, unmet};

/// The objects below `met` are met by fields so far. The numbering so far is a listing's exactly where registers, which
/// are told later, name the objects below one that is at least `due`.
#[derive(Clone, Copy)]
pub(crate) struct Meeting {
    pub(crate) met: u32,
    pub(crate) due: u32,
}

impl Meeting {
    /// Nothing is met.
    pub(crate) fn new() -> Meeting
        ensures { result ≡ unmet }
    {
        Meeting { met: 0, due: 0 }
    }

    /// A field or register names object `n`, so those before it are met already.
    #[inline(always)]
    fn meet(&mut self, n: u16)
        ensures { self.new ≡ meets self.old n }
    {
        let n = u32::from(n);
        if n > self.met && n > self.due {
            self.due = n;
        }
        if n + 1 > self.met {
            self.met = n + 1;
        }
    }

    /// A field or register leads there.
    #[inline(always)]
    pub(crate) fn meet_target(&mut self, target: Option<u16>)
        ensures { self.new ≡ meets_all self.old (named (target ∷ [])) }
    {
        if let Some(n) = target {
            self.meet(n);
        }
    }

    /// Object `n` has its turn, so it is met already.
    #[inline(always)]
    pub(crate) fn begin(&mut self, n: u32)
        requires { n < 2 ^ 16 }
        ensures { self.new ≡ begins self.old n }
    {
        if n + 1 > self.met && n + 1 > self.due {
            self.due = n + 1;
        }
    }

    /// These are registers' names, which come before all objects. They name no more than there are, and with so many
    /// registers that are left they can name as many as is least due.
    #[inline(always)]
    pub(crate) fn names_enough(&self, count: u32, least: u32, left: u32) -> bool
        ensures { IsTrue result ↔ ((self.now.due ≡ 0) × (self.now.met ≤ count) × (least ≤ self.now.met + left)) }
    {
        self.due == 0
            && self.met <= count
            && u64::from(least) <= u64::from(self.met) + u64::from(left)
    }
}
