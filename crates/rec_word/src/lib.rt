//! The shared words of the heap: what a field's word says, where it stands, what a crossing word says, and what one atomic
//! operation does to a word.
//!
//! A field word holds its target and the stamp of the log entry that put it there, so that no two stores leave one word.
//! The rule that this crate keeps: unpacking a packed word gives its parts, and no other word has them.
//! The layer above may use exactly that, that places are one to one, and of each operation: which of the five words it names,
//! which of the five atoms it is there, which word that leaves, and whose mailbox it takes. A crossing word has two bits for
//! mutators that park (`crossing_words_tell`), which a `Shift` sets (`shifts_follow_the_table`), and `Looked` is what the collector
//! makes of it (`looks_follow_the_table`). What gives a mailbox back leaves these bits as they are
//! (`returns_leave_the_present_mailbox`).
//! The machines of a collection exchange or load the fields of a set's members on walks (`Member`): a walk that begins at the first
//! member passes exactly the places of all fields of all slots of its list, each once and in order, and then ends (`walk_is_whole`).
//! What a machine learns on a walk is a `Load` of `specs/`.
//! The layout of a word and a step of a walk for each operation are this project's profile (`docs/PROFILE.md`).
#![tactic(auto)]

mod atom;
mod cell;
mod header;
mod laws;
mod looked;
mod mailbox;
mod member;
mod op;
mod places;
mod shift;
mod stamps;
mod wide;
mod word;

pub use atom::Atom;
pub use cell::Cell;
pub use header::Header;
pub use laws::{
    crossing_words_tell, looks_follow_the_table, returns_leave_the_present_mailbox,
    shifts_follow_the_table, walk_is_whole,
};
pub use looked::Looked;
pub use mailbox::{Mailbox, crossing, crossing_of, is_held, named_epoch, past_part, says_parked};
pub use member::Member;
pub use op::{Op, RETURNS};
pub use places::place;
pub use shift::Shift;
pub use stamps::Stamp;
pub use wide::{pack_wide, value, wide_target};
pub use word::{LAST_EPOCH, pack, stamp, target};
