//! The running heap as a C library: a static library that starts no thread and prints nothing. `include/recycler.h` says what each
//! export asks of its caller.
//!
//! A `Recycler` lies in memory of the caller's: a handle of the collector, which is the heap's while it rests, and one of each mutator.
//! A handle is closed or owns a box, and what lies in the box is an `End`. Boxes are taken as a heap is opened, so starting takes
//! memory for the running heap alone.
//! The rule that it keeps: while the heap runs, the handle of each of its mutators holds that heap's mutator with that number, and
//! while it rests none holds a mutator (`specs/Standing`). What the collector's handle takes back is therefore its own.
//! Where notices were asked for, the collector tells the label of each object that it frees, and a listener in a handle of its own hears
//! them: who tells goes with the heap as it is started and stopped.
//! Every export answers a code. `specs/Calls` says of each call, code by code, why that code came and what the call left.
#![tactic(auto)]

mod code;
mod collecting;
mod command;
mod end;
mod export;
mod handle;
mod looking;
mod noticing;
mod opening;
mod owned;
mod recycler;
mod renewing;
mod running;
mod seating;
mod sizes;
mod told;
mod version;

pub use code::Code;
pub use end::{Collecting, End, Mutating, Resting};
pub use handle::Handle;
pub use owned::Owned;
pub use recycler::Recycler;
pub use sizes::Sizes;
pub use told::{Asked, Heard, Settled, Slot, Totals, Turned};
pub use version::VERSION;
