use rec_model::Told;

/// What came of a work.
#[derive(Clone, Copy, Debug, PartialEq, Eq)]
pub enum Made {
    /// A command's answer, with the field words that it saw and left.
    Answered(Told),
    /// A poll's: the epoch that the mutator crossed into, or `None` where the epoch word was the mutator's own epoch.
    Crossed(Option<u32>),
}
