//! Sources and sinks of bytes: the collector's programs read their scripts from the one and write their texts to
//! the other.
//!
//! The rule: a source gives its rest in order, a sink appends what it says that it took, and a call that fails
//! changes neither and is counted.
//!
//! The layers above take any `Source` and any `Sink`, and may use of them what the traits promise: the bytes,
//! where the type tells them, and the count of faults, which never falls and rises at each call that fails. `read_all` reads a
//! source to its end or past a limit, and `write_all` and `write_text` write until all is taken. `proofs` has the lemmas on
//! several calls in a row. `BytesSource`, `RoomSink` and `SteadySource` stand in memory and tell
//! all their bytes. `StdSource` and `StdSink` stand over std's reader and writer and tell none: they are the
//! trusted edge.
//!
//! What is written is spelled in bytes, and `numeral` and `behind_byte` read what stands at the front of these: a numeral
//! in decimal, which has no leading zeros, or a byte. `proofs/Numerals` has the law that a text begins with one numeral at most.
//!
//! The rule is this project's profile; the papers on the Recycler have no input or output.
#![tactic(auto)]

mod bytes_source;
mod calls;
mod copy;
mod flush;
mod flush_fault;
mod front;
mod reader;
mod room_sink;
mod sink;
mod source;
mod std_sink;
mod std_source;
mod steady_source;
mod writer;

pub use bytes_source::BytesSource;
pub use flush::Flush;
pub use flush_fault::FlushFault;
pub use front::{behind_byte, numeral};
pub use reader::{ReadStop, read_all};
pub use room_sink::RoomSink;
pub use sink::{Sink, Taken};
pub use source::{Given, Source};
pub use std_sink::StdSink;
pub use std_source::StdSource;
pub use steady_source::SteadySource;
pub use writer::{WriteFault, write_all, write_text};
