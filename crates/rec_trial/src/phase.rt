/// What a trial is about.
#[derive(Clone, Copy, PartialEq, Eq, Drop)]
pub enum Phase {
    /// Nothing: no trial is at work.
    Idle,
    /// Roots are dropped, and what a Purple one leads to is marked.
    Marking,
    /// Marked slots that something else holds become Black, with all that they lead to.
    Scanning,
    /// What is White goes into new sets.
    Collecting,
}
