/// Where a member of a refused set belongs.
#[derive(Clone, Copy, Drop)]
pub enum Fate {
    /// In the free list: it was released.
    Free,
    /// In the zeros: it has no count.
    Zero,
    /// In the root buffer: it may still lead to a garbage cycle.
    Root,
    /// In no list: it is in use.
    Plain,
}
