//! The Recycler's program, from bytes to bytes.
//!
//! `run` reads a script, carries out its commands on a heap, settles the heap, and writes what was told, the listing of
//! the settled heap and the totals, or a summary of them. Where a trace is asked for, the heap is traced before it is settled, and a
//! line behind the text tells of it. Asked to make a script, it writes one that is drawn from a seed; asked to audit, it writes what is
//! to be said of a journal. Of a script that is played it can write the collector's journal or the settled heap's image instead.
//! Asked to resume, it reads such an image and mutators behind it, and their commands go on with that heap.
//! The rule that it keeps: each printed answer is the one that a heap that never frees gives to the same commands in one
//! order; an allocation is answered full only where no slot was free; and after settling just the objects that registers
//! reach hold slots, listed with true counts. Leaving is answered `NotYet` only by a step that found the log that the
//! mutator handed over last still to be collected. A run that is done left nothing behind in the sink.
//! The layer above may use the contract of `run`, the number of a `Status` and its line, and the definitions of `specs/`.
//! The form of a script and of its answer is this project's profile (`docs/PROFILE.md`).
#![tactic(auto)]

mod alone;
mod answer;
mod auditing;
mod driving;
mod finish;
mod keeping;
mod laws;
mod outcome;
mod playing;
mod resuming;
mod running;
mod status;
mod tracing;
mod writing;

pub use alone::carry_out_alone;
pub use laws::refused_images_have_one_cause;
pub use running::run;
pub use status::Status;
