//! A sink in memory, with room for some bytes and with calls that fail.
ghost use Rattle.std.specs.Prelude.{◌≡◌, ◌↔◌, ◌⊎◌, ◌<◌, ◌≤◌, ◌-◌, ◌++◌, ℕ, [], IfOk, IsOk, Some, length, min, take};
ghost use Rattle.rec_io.specs.Calls.{NextFails};
ghost use Rattle.rec_io.specs.Faults.{Rose, counted_up, last_count};
ghost use Rattle.rec_io.specs.Sink.{IfTaken, OnWriteFailed, Appends};
ghost use Rattle.rec_io.specs.Told.{KeepsTold, StaysTold};

use crate::calls::Calls;
use crate::flush::Flush;
use crate::flush_fault::FlushFault;
use crate::sink::{Sink, Taken};
use std::alloc::{AllocError as NoMemory, Global};
use std::marker::Model;

/// A memory of bytes with a fixed room, all of it taken when it is opened. The calls whose numbers are listed
/// fail, and once the room is spent each write of a piece that is not empty fails too.
#[derive(Drop)]
pub struct RoomSink {
    bytes: Vec<u8>,
    room: usize,
    calls: Calls,
}

impl Model for RoomSink {
    ghost use Rattle.std.specs.Prelude.{◌≤◌, ◌+◌, vec_len, vec_capacity};
    ghost use Rattle.rec_io.specs.RoomSink.{RoomState};
    ghost use Rattle.rec_io.specs.Faults.{last_count};

    ghost Value = { RoomState };

    ghost view = { λ s. record {
      written = s.bytes.items;
      room = s.room;
      fails = s.calls.fails.items;
      calls = s.calls.made;
      faults = s.calls.faults;
    } };

    ghost invariant = { λ s. (vec_len s.bytes + s.room ≤ vec_capacity s.bytes)
        × (s.calls.faults ≤ last_count) };
}

impl RoomSink {
    /// An empty sink with room for `room` bytes. `fails` lists the numbers of the calls that fail, where the
    /// first call is number 1; their order does not matter.
    pub fn open(alloc: Global, room: usize, fails: &[u64]) -> Result<RoomSink, NoMemory>
        ensures written { IfOk result (λ sink. sink.written ≡ []) }
        ensures room { IfOk result (λ sink. sink.room ≡ room) }
        ensures fails { IfOk result (λ sink. sink.fails ≡ fails.now) }
        ensures calls { IfOk result (λ sink. sink.calls ≡ 0) }
        ensures faults { IfOk result (λ sink. sink.faults ≡ 0) }
    {
        Ok(RoomSink {
            bytes: Vec::with_capacity(alloc, room)?,
            room,
            calls: Calls::open(alloc, fails)?,
        })
    }

    /// The bytes written so far, in order.
    pub fn bytes(&self) -> &[u8]
        ensures { result.now ≡ self.now.written }
    {
        self.bytes.as_slice()
    }
}

impl Sink for RoomSink {
    ghost written = { λ s. Some s.written };

    ghost faults = { λ s. s.faults };

    fn write(&mut self, piece: &[u8]) -> Taken
        // What each sink promises.
        ensures some { IfTaken result (λ n. 0 < length piece.now → 1 ≤ n) }
        ensures fits { IfTaken result (λ n. n ≤ length piece.now) }
        ensures appends { IfTaken result (λ n.
            Appends (Some self.old.written) (Some self.new.written) (take n piece.now)) }
        ensures kept { OnWriteFailed result
            (KeepsTold (Some self.old.written) (Some self.new.written)) }
        ensures rose { OnWriteFailed result (Rose self.old.faults self.new.faults) }
        ensures never_falls { self.old.faults ≤ self.new.faults }
        ensures within_count { self.new.faults ≤ last_count }
        ensures stays_told { StaysTold (Some self.old.written) (Some self.new.written) }

        // It fails at the calls that are listed, and where no room is left for a piece that is not
        // empty; else it takes as much as there is room for.
        ensures fails { (result ≡ Taken.Failed) ↔ (NextFails self.old.fails self.old.calls
            ⊎ ((self.old.room ≡ 0) × (0 < length piece.now))) }
        ensures takes { IfTaken result (λ n. n ≡ min (length piece.now) self.old.room) }

        // What it holds afterwards.
        ensures after_bytes { IfTaken result (λ n. self.new ≡ record self.old {
          written = self.old.written ++ take n piece.now;
          room = self.old.room - n;
          calls = counted_up self.old.calls;
        }) }
        ensures after_failed { OnWriteFailed result (self.new ≡ record self.old {
          calls = counted_up self.old.calls;
          faults = counted_up self.old.faults;
        }) }
    {
        let listed = self.calls.next_fails();
        if listed || (self.room == 0 && !piece.is_empty()) {
            self.calls.count_fault();
            return Taken::Failed;
        }
        let count = piece.len().min(self.room);
        self.bytes.extend_from_slice(&piece[..count]).unwrap();
        self.room -= count;
        Taken::Bytes(count)
    }
}

/// It holds nothing back, so a flush has nothing to do.
impl Flush for RoomSink {
    ghost passed_on = { λ s. Some s.written };

    fn flush(&mut self) -> Result<(), FlushFault>
        ensures ok { IsOk result }
        ensures unchanged { self.new ≡ self.old }
    {
        Ok(())
    }
}
