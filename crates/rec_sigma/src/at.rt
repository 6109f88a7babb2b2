use rec_word::Member;

/// The field that is loaded next.
#[derive(Clone, Copy)]
pub struct At {
    /// The set at work, by its number.
    pub set: u16,
    /// The member of it at work, and its field.
    pub member: Member,
}
