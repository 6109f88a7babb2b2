ghost use Rattle.std.specs.Prelude.{◌≡◌, ◌≤◌, ◌↔◌, ◌∷◌, ◌++◌, [], false, true, length, replicate, IsTrue, IfOk, OnOk, OnErr, IsErr};

use crate::{Entry, Frame, Full};
use std::alloc::{AllocError as NoMemory, Global};
use std::marker::Model;

/// The log of a mutator. Its memory is taken when it is opened.
#[derive(Drop)]
pub struct Buffer {
    entries: Vec<Entry>,
    snapshot: Vec<Option<u16>>,
    capacity: u32,
    last: bool,
    still: bool,
}

impl Model for Buffer {
    ghost use Rattle.rec_log.specs.declared.contents.Contents.{Contents};

    ghost Value = { Contents };

    ghost use Rattle.rec_log.specs.Buffer.{contents, IsRoomy};

    ghost view = { contents };

    ghost invariant = { IsRoomy };
}

impl Buffer {
    /// An empty buffer for `cap` entries, with a null snapshot of `regs` registers.
    pub fn open(alloc: Global, cap: u32, regs: u8) -> Result<Buffer, NoMemory>
        ensures { IfOk result (λ buffer. buffer ≡ record { entries = []; snapshot = replicate regs None; capacity = cap; last = false; still = false }) }
    {
        Ok(Buffer {
            entries: Vec::with_capacity(alloc, cap as usize)?,
            snapshot: vec![in alloc; None; usize::from(regs)]?,
            capacity: cap,
            last: false,
            still: false,
        })
    }

    /// Adds an entry at the end.
    pub fn push(&mut self, entry: Entry) -> Result<(), Full>
        ensures full { IsErr result ↔ (length self.old.entries ≡ self.old.capacity) }
        ensures ok { OnOk result (self.new ≡ record self.old { entries = self.old.entries ++ entry ∷ [] }) }
        ensures err { OnErr result (self.new ≡ self.old) }
    {
        if self.is_full() {
            return Err(Full);
        }
        self.entries.push_reserved(entry);
        Ok(())
    }

    /// Whether the buffer is at its capacity.
    pub fn is_full(&self) -> bool
        ensures full { IsTrue result ↔ (length self.now.entries ≡ self.now.capacity) }
        ensures within { length self.now.entries ≤ self.now.capacity }
    {
        self.entries.len() == self.capacity as usize
    }

    /// The entries so far, in order.
    pub fn entries(&self) -> &[Entry]
        ensures entries { result.now ≡ self.now.entries }
        ensures within { length self.now.entries ≤ self.now.capacity }
    {
        self.entries.as_slice()
    }

    /// Writes the registers as the snapshot. The entries stay.
    pub fn retire(&mut self, frame: &Frame)
        requires { length frame.now ≡ length self.old.snapshot }
        ensures { self.new ≡ record self.old { snapshot = frame.now } }
    {
        self.snapshot.copy_from_slice(frame.registers());
    }

    /// Writes the registers as the snapshot, and marks the buffer as its mutator's last. The entries stay.
    pub fn retire_last(&mut self, frame: &Frame)
        requires { length frame.now ≡ length self.old.snapshot }
        ensures { self.new ≡ record self.old { snapshot = frame.now; last = true } }
    {
        self.retire(frame);
        self.last = true;
    }

    /// Copies the snapshot of the buffer of the epoch before, and marks this one as still: in its epoch the mutator was parked and
    /// logged nothing, so its registers were the same throughout. The entries stay; a spare has none.
    pub fn retire_still(&mut self, older: &Buffer)
        requires { length older.now.snapshot ≡ length self.old.snapshot }
        ensures { self.new ≡ record self.old { snapshot = older.now.snapshot; still = true } }
    {
        self.snapshot.copy_from_slice(older.snapshot.as_slice());
        self.still = true;
    }

    /// Makes the snapshot all null, so that the log goes on with its next entry. Entries and marks stay.
    pub fn reopen(&mut self)
        ensures { self.new ≡ record self.old { snapshot = replicate (length self.old.snapshot) None } }
    {
        self.snapshot.fill(None);
    }

    /// Whether the collector wrote it for a parked mutator that logged nothing in its epoch and kept its registers.
    pub fn is_still(&self) -> bool
        ensures { result ≡ self.now.still }
    {
        self.still
    }

    /// Whether its mutator retired it as its last one.
    pub fn is_last(&self) -> bool
        ensures { result ≡ self.now.last }
    {
        self.last
    }

    /// Empties the entries, makes the snapshot all null, and takes both marks away. The capacity stays.
    pub fn clear(&mut self)
        ensures { self.new ≡ record self.old { entries = []; snapshot = replicate (length self.old.snapshot) None; last = false; still = false } }
    {
        self.entries.clear();
        self.reopen();
        self.last = false;
        self.still = false;
    }

    /// What the registers named when the buffer was retired; all null before, and once it was cleared.
    pub fn snapshot(&self) -> &[Option<u16>]
        ensures { result.now ≡ self.now.snapshot }
    {
        self.snapshot.as_slice()
    }
}
