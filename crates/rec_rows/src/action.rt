//! What a line asks.

use rec_model::Cmd;
use rec_mutator::Work;

/// What a line asks of a heap.
#[derive(Clone, Copy)]
pub enum Action {
    /// Something that a mutator does.
    Mutator { mutator: u8, deed: Deed },
    /// Turns of the collector.
    Collector(Turns),
    /// Every slot is to be offered to the next trial.
    Offer,
    /// The heap is settled. Where `live` is set, only how many objects are left is told.
    Settle { live: bool },
    /// The heap is settled, and its image is told.
    Write,
    /// An image is read, for which no heap is needed.
    Read,
    /// An image is read, and its heap comes in place of the row's.
    Restore,
    /// The heap is taken apart, and put together again.
    Apart(Piece),
    /// The heap is traced, and a frontier is cut into so many pieces at most.
    Trace(u16),
    /// What the heap shows.
    Show(Fact),
    /// The text of an error, for which no heap is needed.
    Say(Message),
    /// The heap runs from here on, or no longer.
    TurnOver,
}

/// What a mutator does.
#[derive(Clone, Copy)]
pub enum Deed {
    /// It asks. Where `words` is set, the words that it saw and left are told too.
    Ask { cmd: Cmd, words: bool },
    /// It begins a work.
    Begin(Work),
    /// It makes a step of its work.
    Step,
    /// It polls.
    Poll,
    /// It makes objects, so many at most, until one is refused.
    Births(u32),
}

/// How the collector turns.
#[derive(Clone, Copy)]
pub enum Turns {
    /// Once.
    One,
    /// So many times, and each goes on.
    Moves(u32),
    /// To the end of a collection, and nothing else happens.
    Collect,
    /// To the end of a collection, and whoever it waits for polls.
    Finish,
    /// Until the freed word is this, and nothing else happens.
    Sweep(u64),
    /// Until the collection has come so far, and whoever it waits for polls.
    Reach(Stage),
}

/// How far a collection has come.
#[derive(Clone, Copy)]
pub enum Stage {
    /// It looks at the mailbox of this mutator next.
    Looks(u8),
    /// It gives the mailbox of this mutator back next.
    Returns(u8),
    /// It releases slots.
    Releases,
    /// It frees a set.
    Frees,
    /// A trial is at work.
    Tries,
    /// The sets of a trial are prepared.
    Prepares,
    /// A sweep begins next.
    Opens,
    /// It has swept so many slots, and sweeps another one next.
    Sweeps(u32),
    /// The sweep ends next.
    Closes,
}

/// What a heap shows.
#[derive(Clone, Copy)]
pub enum Fact {
    /// Whether the slot holds an object, and its true count.
    Slot(u16),
    /// The label of the object in the slot.
    Label(u16),
    /// Whether the object in the slot is a leaf.
    Leaf(u16),
    /// The colour of the slot.
    Colour(u16),
    /// The word of the field with this place.
    Field(u32),
    /// What a register of a mutator names.
    Register(u8, u8),
    /// The number of the slot in the list of those that registers reach.
    Number(u16),
    /// Whether a mutator may ask this.
    Valid(u8, Cmd),
    /// Whether a mutator works.
    Busy(u8),
    /// Whether a mutator has left.
    Left(u8),
    /// The epoch that a mutator is in.
    EpochOf(u8),
    /// What became of the sets that were tested.
    Sets,
    /// The candidate roots that no trial has taken yet, in order.
    Roots,
    /// Whether every mailbox is home.
    Mailboxes,
    /// A number of the heap as a whole.
    Whole(Whole),
}

/// A number of a heap as a whole.
#[derive(Clone, Copy)]
pub enum Whole {
    /// The requested epoch.
    Epoch,
    /// The freed word.
    FreedWord,
    /// How many slots were freed.
    Freed,
    /// How many collections were completed.
    Collections,
    /// How many objects were born.
    Made,
    /// How many mutators there are.
    Mutators,
    /// How many slots there are.
    Slots,
}

/// A part of a heap that was taken apart.
#[derive(Clone, Copy)]
pub enum Piece {
    /// A word of its row.
    Word(u32),
    /// How many words the row has.
    Words,
    /// How many mailboxes there are.
    Mailboxes,
    /// How many objects were born.
    Made,
}

/// An error whose text is told.
#[derive(Clone, Copy)]
pub enum Message {
    /// There is no memory for a heap.
    NoMemoryToOpen,
    /// Bytes are no script.
    NoScript,
    /// There is no memory for a script.
    NoMemoryForScript,
    /// There is no memory for an image.
    NoMemoryForImage,
}

impl Action {
    /// Whether it may be asked of a heap that runs.
    pub fn may_run(&self) -> bool {
        match self {
            Action::Mutator { deed, .. } => matches!(deed, Deed::Ask { .. } | Deed::Poll),
            Action::Collector(turns) => matches!(turns, Turns::One),
            _ => false,
        }
    }
}
