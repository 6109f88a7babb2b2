//! What carrying out a script's commands leaves.
use rec_world::{Journal, Order, World};

/// The heap that a script's commands left, in which nobody works any more, and what each mutator was told.
#[derive(Drop)]
pub struct Outcome {
    pub world: World,
    /// A journal for each mutator.
    pub journals: Vec<Journal>,
    /// The order of the answers, where they were given one after another. Those of threads have none.
    pub order: Option<Order>,
}
