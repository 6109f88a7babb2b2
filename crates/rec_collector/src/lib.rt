//! The collector's machine: it decides which atomic step of a collection comes next, and learns the word that the step
//! found.
//!
//! A collection requests the next epoch, and gathers from each mutator that hasn't left the buffer that it retired on crossing. For a
//! parked mutator it crosses itself: it takes the deposit, or, if there is none, writes a buffer without entries. A mutator whose buffer
//! was its last is passed over from then on. With the last buffer the batch is applied, and its zeros are released. Then
//! the sets that the last collection found are tested, the last one first, and freed or refurbished; a trial is made from the roots,
//! the sets that it finds are prepared for their tests, and what is free is swept. The trial is postponed while fewer roots wait than the
//! policy asks for. Where `offer_all` has asked for that, the next trial
//! begins by offering every slot: each that isn't released is then one of its roots. The machine never sees the words: `next` names one
//! operation, whoever has the words carries it out, and `took` learns what was found.
//! The rule that this crate keeps: what comes next and what is learnt are functions of the machine's private record and of
//! the word found alone; an epoch is requested only after the last collection is complete, a batch is applied only once all
//! mutators have crossed, and no collection takes more than a bounded number of turns, beside those in which it waits.
//! What a watch is shown of a step is read off the machine right behind it (`applied`, `passed`, `completed`).
//! The layer above may use that `next`, `took` and `swap_box` are exactly `next_of`, `took_of` and `swapped_of` of `specs/`, that
//! `offer_all` changes nothing but whether every slot is offered to the next trial, and the laws, which are the contracts of the
//! functions in `laws`.
//! That mutators cross into an epoch one by one, and the collector counts an epoch behind them, is the idea of the paper "Java
//! without the Coffee Breaks" (2001); the handshake by crossing words and mailboxes is this project's profile
//! (`docs/PROFILE.md`). The two tests have their names from "Concurrent Cycle Collection in Reference Counted Systems" (2001).
#![tactic(auto)]

mod buffers;
mod kind;
mod laws;
mod machine;
mod offer;
mod parts;
mod phase;
mod policy;
mod present;
mod sets;
mod shown;
mod turn;
mod turns;
mod verdict;
mod words;

pub use kind::Kind;
pub use laws::{
    batches_colour_what_they_name, machine_makes_steps, machine_names_words,
    machines_stay_machines, offers_are_whole, orange_members_are_untouched,
    orange_members_have_outside_counts, parked_mutators_are_crossed_for,
    trials_are_made_where_asked, trials_are_not_postponed_for_ever, what_is_shown_was_done,
    zeros_are_exact,
};
pub use machine::Machine;
pub use phase::Phase;
pub use policy::Policy;
pub use sets::Sets;
pub use shown::Applied;
pub use turn::Turn;
pub use turns::Turns;
