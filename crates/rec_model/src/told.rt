use crate::Answer;

/// A command's answer, and the field words that it saw and left.
#[derive(Clone, Copy, Debug, PartialEq, Eq)]
pub struct Told {
    pub answer: Answer,
    /// The word that a `Get` loaded or a `Put` replaced; 0 for every other command and for a refusal.
    pub saw: u64,
    /// The word that a `Put` left in the field; 0 for every other command and for a refusal.
    pub left: u64,
}
