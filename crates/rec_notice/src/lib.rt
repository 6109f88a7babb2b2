//! Notices of freed objects: how the one who turns a collector tells another, who may be on another thread, the label of each
//! object that it frees.
//!
//! A `Teller` offers each label to a `Tube`. A tube that has no room refuses it and counts that. The teller keeps the one label that
//! came back, and offers it again before any other: so a label is told late, but never lost, told twice or overtaken. The rule:
//! what was sent followed by what is kept grows by each label that is told, and by nothing else.
//!
//! `RoomTube` is a tube in memory. `RingTube` stands over the producer of a wait-free ring of `rtrb`, and a `Listener` over its
//! consumer hears what was sent, in order; `notices` makes both ends. Whoever holds both asks by `together` how many labels wait.
//! What the ends promise of each other is what `rtrb` promises of its own. No clause says that one sees the other's work in time.
//!
//! The rule is this project's own; the papers on the Recycler have no notices.
#![tactic(auto)]

mod ends;
mod laws;
mod listener;
mod ring_tube;
mod room_tube;
mod teller;
mod tube;

pub use ends::{notices, together};
pub use laws::waiting_labels_are_heard;
pub use listener::Listener;
pub use ring_tube::RingTube;
pub use room_tube::RoomTube;
pub use teller::Teller;
pub use tube::Tube;
