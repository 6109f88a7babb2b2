//! The collector's counts: for each slot a true and a cyclic count, a colour, its flags and its set, and the buffers and
//! lists that the collector works off.
//!
//! The rule that it keeps: a slot stands at most once in each list, and is buffered exactly while it stands in one of
//! the two buffers, the root buffer and the cycle buffer with its sets, and then in one of them and once.
//!
//! A batch (`apply`): the collector counts what the mutators logged, in one go and long after they did it. The collection of an epoch
//! adds what the logs and snapshots of that epoch refer to, and takes off what those of the epoch before no longer refer to. So a
//! reference that came and went in between costs nothing but its entries, and no count falls to zero for a moment only.
//! The rule of a batch: each true count afterwards is the old one, plus the slot's occurrences among new targets and snapshots, less
//! those among replaced targets, births and snapshots.
//! Pairs of what is added and what is taken off cancel, and still touch their slot: a register that names the same slot in both
//! snapshots is one, and by far the commonest. A write and its replacement within one log are none, since they are counted by two
//! batches. In a steady heap a batch leaves such registers out: counts come to the same, and a slot that nothing else names stays as
//! it is, so the next trial need not look at it. Entries that cancel touch their slot there too.
//! Each slot that a batch touches is changed once (`Counts::count_batch`). In between it has a mark, which no call leaves behind.
//!
//! All memory is taken at opening: each list has room for every slot, and no later call takes any.
//! The layer above may use the contracts of `Counts`, which see one plain record (`specs/Counts.antt`): each call
//! changes its own part of it alone, and says so in one equation. Of a batch it may use what `IsBatch` says: that formula, which slots
//! are touched, become Green, roots or zeros, and that all else stays. `apply` also says in which order roots and zeros are listed: that
//! in which the older buffers first name them.
//! Colours, root buffer and cycle buffer are those of the concurrent cycle collection in "Java without the Coffee
//! Breaks" (2001), and so is it that increments of an epoch are applied with the decrements of the epoch before. When a decrement
//! offers a slot, what lowering does, and that a batch is applied whole, are this project's profile (`docs/PROFILE.md`).
#![tactic(auto)]

mod batch;
mod changes;
mod colour;
mod counts;
mod cycle_buffer;
mod queue;
mod row;
mod settle;
mod slot;
mod targets;
mod telling;
mod touched;
mod unbuffer;

pub use batch::apply;
pub use changes::Changes;
pub use colour::Colour;
pub use counts::Counts;
pub use slot::{Due, Slot};
pub use touched::{Mark, Touched};
