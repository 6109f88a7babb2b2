//! An index of slots: a set of which the lowest member is found in three looks, however many slots there are.
//!
//! The rule that it keeps: the set is a bit for each slot, in words of 64 bits, and above it stand two levels more. Each of these
//! has a bit for every word of the level below, and it is set exactly where that word isn't 0. So an insertion sets a bit in each
//! level, a removal goes up as long as it empties a word, and the lowest member is looked for from the top down.
//! The set has room for slots of every number, and no call but the opening can be refused memory.
//! The layer above may use the contracts of `Index`, which see the lowest level's words alone: a number is a member where `bit`
//! is 1 (`specs/Sets.antt`). What a member means is for that layer to say; a heap keeps its free slots in such a set.
//! Sets of bits in levels are known from schedulers and allocators; that a birth takes the lowest free slot is this project's
//! profile (`docs/PROFILE.md`).
#![tactic(auto)]

mod index;
mod level;

pub use index::Index;
