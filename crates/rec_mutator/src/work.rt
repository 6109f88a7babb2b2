use rec_model::Cmd;

/// What a mutator is to do.
#[derive(Clone, Copy, Debug, PartialEq, Eq)]
pub enum Work {
    /// Carry out a command and answer it.
    Command(Cmd),
    /// Look at the epoch word, and cross into the requested epoch where it is another one.
    Poll,
}
