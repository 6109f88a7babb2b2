//! A mutator's registers, and its log of one epoch: an entry for each write and each birth, and the registers as they were at its end.
//!
//! The rule that this crate keeps: a frame is a list of registers, null or names of slots, of which each call changes those that
//! it says, and every register of a new one is null. A buffer is a list of entries, a snapshot, a capacity and the mark that it
//! is its mutator's last. A push adds one entry at the end, or answers `Full` exactly at the capacity and changes nothing. One
//! that is retired takes the registers as its snapshot and keeps its entries, and the last one is marked too; one that is
//! retired as still takes the snapshot of another; one that is reopened has a null snapshot, and keeps its entries; one that is
//! cleared is as it was opened. No call but the opening can be refused memory.
//! The layer above may use exactly that. The snapshot of a buffer that was never retired is all null.
//! Logging each write with the value that it replaced, and counting from the logs later, is the idea of the paper "Java
//! without the Coffee Breaks" (2001); stamps, births as entries of their own and the fixed capacity are this project's
//! profile. So is that the registers, of which the paper takes a thread's stack, are a list of fixed length.
#![tactic(auto)]

mod buffer;
mod contents;
mod entry;
mod frame;
mod full;

pub use buffer::Buffer;
pub use contents::Contents;
pub use entry::Entry;
pub use frame::Frame;
pub use full::Full;
