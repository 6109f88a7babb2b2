/// What a command is answered.
#[derive(Clone, Copy, Debug, PartialEq, Eq)]
pub enum Answer {
    /// The command was made.
    Done,
    /// The field that was read is null.
    Null,
    /// The field that was read leads to an object.
    Object,
    /// The object's label.
    Value(u32),
    /// Both registers name one object, or both are null.
    Yes,
    /// The registers differ.
    No,
    /// The register that should name an object is null. Nothing changed.
    NoObject,
    /// Every slot was taken. Nothing changed.
    Full,
    /// No free slot was found, but a sweep ran, began or ended meanwhile: the freed word before and after.
    /// Nothing changed.
    Busy { before: u64, after: u64 },
    /// The object that was to be written is a leaf. Nothing changed.
    NoField,
    /// The mutator's log has no room for another entry. Nothing changed.
    LogFull,
    /// The mutator can't leave yet: the collector hasn't given back the mailbox with its log of the epoch before. Nothing changed.
    NotYet,
}
