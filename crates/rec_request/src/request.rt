//! What the program can be asked for.

/// What a command line asks for.
#[derive(Clone, Copy)]
pub enum Request {
    /// Answer the script that is read, which is run so.
    Answer(How),
    /// Play the script that is read so, and write what is kept of it.
    Keep(Keeping),
    /// Go on with the heap of the image that is read, by the commands behind it, and answer these.
    Resume(Resume),
    /// Write a script.
    Make(Make),
    /// Say what is to be said of the journal that is read.
    Audit,
}

/// How a script is run.
#[derive(Clone, Copy)]
pub enum How {
    /// One thread carries everything out, in an order that is drawn.
    Play(Play),
    /// Each mutator and the collector have a thread of their own.
    Threads,
}

/// How a script is played, and what is written of it.
#[derive(Clone, Copy)]
pub struct Play {
    /// What the order of the commands is drawn from.
    pub seed: u64,
    /// How many draws there are at most, up to 10,000,000.
    pub turns: u32,
    /// Whether a summary is written in place of the whole text.
    pub summary: bool,
    /// Whether the heap is traced before it is settled, and a line tells of it.
    pub trace: bool,
}

/// How a script is played of which something else than its answers is written.
#[derive(Clone, Copy)]
pub struct Keeping {
    /// What the order of the commands is drawn from.
    pub seed: u64,
    /// How many draws there are at most, up to 10,000,000.
    pub turns: u32,
    /// What is written in place of the text.
    pub kept: Kept,
}

/// What is kept of a script that is played.
#[derive(Clone, Copy)]
pub enum Kept {
    /// The journal of its collector.
    Journal,
    /// The image of its settled heap.
    Image,
}

/// How commands go on with the heap of an image.
#[derive(Clone, Copy)]
pub struct Resume {
    /// What the order of the commands is drawn from.
    pub seed: u64,
    /// How many draws there are at most, up to 10,000,000.
    pub turns: u32,
}

/// Which script is made.
#[derive(Clone, Copy)]
pub struct Make {
    /// What the commands are drawn from.
    pub seed: u64,
    /// How many mutators it has, from 1 to 8.
    pub mutators: u8,
    /// How many commands each of them has, up to 200,000.
    pub commands: u32,
}
