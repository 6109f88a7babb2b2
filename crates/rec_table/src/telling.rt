//! What a telling turn of the collector comes to.

use rec_collector::Turn;

/// What a turn comes to whose collector tells what it frees.
#[derive(Clone, Copy, Debug, PartialEq, Eq)]
pub enum Telling {
    /// The turn was made, and came to this.
    Turned(Turn),
    /// A label that was kept came back again, and no turn was made.
    Held { label: u32 },
}
