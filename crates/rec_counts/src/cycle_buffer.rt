//! The sets that wait for their tests.
ghost use Rattle.std.specs.Prelude.{IfOk, ◌≡◌, ℕ, ◌+◌, ◌-◌, ◌<◌, ◌≤◌, ◌^◌, [], ◌∷◌, ◌++◌, length, take, drop, slice_index_or};
ghost use Rattle.std.specs.List.{concat};
ghost use Rattle.rec_counts.specs.Groups.{IsRising, parts_at, earlier_sets, last_set, with_member};

use crate::row::Row;
use std::alloc::{AllocError as NoMemory, Global};
use std::marker::Model;

/// The sets in the order in which they were begun. Their members stand in one list, set after set, in the order of
/// joining; each set is known by the place of its first member.
#[derive(Drop)]
pub(crate) struct CycleBuffer {
    members: Row,
    starts: Row,
}

impl Model for CycleBuffer {
    ghost use Rattle.rec_counts.specs.Groups.{Groups, parts_at, IsGrouped};

    ghost Value = { Groups };

    ghost view = { λ b. record { sets = parts_at b.starts.list b.members.list; room = b.members.room } };

    ghost invariant = { λ b. IsGrouped b.starts.list b.members.list b.starts.room b.members.room };
}

/// Where the part of this number begins, or `end` where there is no such part.
fn place_at(starts: &[u16], number: usize, end: usize) -> usize
    ensures { result ≡ slice_index_or starts.now number end }
{
    if number < starts.len() {
        starts[number] as usize
    } else {
        end
    }
}

/// The part of `members` from one of these places up to the next, or to the end.
fn part<'a>(members: &'a [u16], starts: &[u16], number: usize) -> &'a [u16]
    requires rising { IsRising starts.now (length members.now) }
    requires in_range { number < length starts.now }
    ensures { result.now ≡ slice_index_or (parts_at starts.now members.now) number [] }
{
    let start = starts[number] as usize;
    let end = place_at(starts, number + 1, members.len());
    between(members, start, end)
}

/// The last of the parts of `members` that begin at these places, none where there is none.
fn last_part<'a>(members: &'a [u16], starts: &[u16]) -> &'a [u16]
    requires { IsRising starts.now (length members.now) }
    ensures { result.now ≡ last_set (parts_at starts.now members.now) }
{
    let many = starts.len();
    if many == 0 {
        return &[];
    }
    let start = place_at(starts, many - 1, members.len());
    between(members, start, members.len())
}

/// The part of `members` from `start` up to `end`.
fn between(members: &[u16], start: usize, end: usize) -> &[u16]
    requires rising { start ≤ end }
    requires in_range { end ≤ length members.now }
    ensures { result.now ≡ take (end - start) (drop start members.now) }
{
    &members[start..end]
}

impl CycleBuffer {
    /// A buffer with no set, and room for this many members and as many sets.
    pub fn open(alloc: Global, room: u16) -> Result<CycleBuffer, NoMemory>
        ensures { IfOk result (λ buffer. buffer ≡ record { sets = []; room = room }) }
    {
        let members = Row::open(alloc, room as usize)?;
        let starts = Row::open(alloc, room as usize)?;
        Ok(CycleBuffer { members, starts })
    }

    /// How many sets there are.
    pub fn len(&self) -> usize
        ensures { result ≡ length self.now.sets }
    {
        self.starts.len()
    }

    /// The members of set `number`.
    pub fn set(&self, number: usize) -> &[u16]
        requires { number < length self.now.sets }
        ensures { result.now ≡ slice_index_or self.now.sets number [] }
    {
        part(self.members.as_slice(), self.starts.as_slice(), number)
    }

    /// The members of the last set, none where there is no set.
    pub fn last(&self) -> &[u16]
        ensures { result.now ≡ last_set self.now.sets }
    {
        last_part(self.members.as_slice(), self.starts.as_slice())
    }

    /// Begins a set without members.
    pub fn begin(&mut self)
        requires { length self.old.sets < self.old.room }
        ensures { self.new ≡ record self.old { sets = self.old.sets ++ [] ∷ [] } }
    {
        let start = self.members.len() as u16;
        self.starts.push(start);
    }

    /// Lets `slot` join the last set.
    pub fn join(&mut self, slot: u16)
        requires some { 0 < length self.old.sets }
        requires room { length (concat self.old.sets) < self.old.room }
        ensures { self.new ≡ record self.old { sets = with_member self.old.sets slot } }
    {
        self.members.push(slot);
    }

    /// Takes out the last set.
    pub fn drop_last(&mut self)
        requires { 0 < length self.old.sets }
        ensures { self.new ≡ record self.old { sets = earlier_sets self.old.sets } }
    {
        let last = self.starts.len() - 1;
        let start = self.starts.as_slice()[last] as usize;
        self.members.truncate(start);
        self.starts.truncate(last);
    }
}
