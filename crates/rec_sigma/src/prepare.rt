ghost use Rattle.std.specs.Prelude.{◌≡◌, ◌+◌, ◌<◌, ◌≤◌, ◌↔◌, ◌++◌, ℕ, List, [], None, length, drop, IfSome, IsNone, IsSome, IsTrue, Some, true};
ghost use Rattle.rec_word.specs.Word.{target_of};
ghost use Rattle.rec_word.specs.declared.op.Op.TheVariants.{LoadChild};
ghost use Rattle.rec_counts.specs.Counts.{State};
ghost use Rattle.rec_word.specs.Load.{Load};
ghost use Rattle.rec_sigma.specs.declared.at.At.{At};
ghost use Rattle.rec_sigma.specs.Prepare.{IsAtWork, IsHeld, Work, first_of, gone_on, next_of, next_set, renewed, started_of, taken_off, took_of};
ghost use Rattle.rec_sigma.specs.Prepared.{KeepsOthers, PreparedTo, loaded_at};
ghost use Rattle.rec_sigma.specs.Ran.{Ran};

use crate::at::At;
use crate::loads::Loads;
use rec_counts::Counts;
use rec_word::{Member, Op, place, target};
use std::marker::Model;

/// The preparation of all sets for their tests. No call of it can be refused memory.
#[derive(Drop)]
pub struct Prep {
    fields: u8,
    at: Option<At>,
}

impl Model for Prep {
    ghost use Rattle.std.specs.Prelude.{◌<◌, IfSome};
    ghost use Rattle.rec_sigma.specs.declared.at.At.{At};
    ghost use Rattle.rec_sigma.specs.Prepare.{Machine};

    ghost Value = { Machine };

    ghost view = { λ prep. record { fields = prep.fields; at = prep.at } };

    ghost invariant = { λ prep. (0 < prep.fields) × IfSome prep.at (λ (a : At). a.member.field < prep.fields) };
}

impl Prep {
    /// A preparation with no work, over slots with so many fields, at least one.
    #[tactic(auto, unfolding(crate::specs::Prepare::next_of))]
    pub fn idle(fields: u8) -> Prep
        requires { 0 < fields }
        ensures idle { result ≡ record { fields = fields; at = None } }
        ensures none { IsNone (next_of result) }
    {
        Prep { fields, at: None }
    }

    /// Begins to prepare the sets: each member of the first one has its true count as its cyclic count.
    pub fn start(&mut self, counts: &mut Counts)
        requires idle { IsNone (next_of self.old) }

        ensures started { record { machine = self.new; counts = counts.new } ≡ started_of self.old counts.old }
        ensures kept { IsAtWork self.new counts.new }
        ensures others { KeepsOthers counts.old counts.new }

        // Nothing is loaded yet.
        ensures whole { PreparedTo self.new.fields counts.old self.new.at counts.new [] }
    {
        counts.rules();
        self.at = begin_next(counts, 0);
    }

    /// What comes next: a field of a member is loaded. None where the work is done.
    #[tactic(auto, unfolding(crate::specs::Prepare::next_of))]
    pub fn next(&self) -> Option<Op>
        ensures next { result ≡ next_of self.now }
        ensures none { IsNone result ↔ IsNone self.now.at }
    {
        let at = self.at?;
        Some(Op::LoadChild(place(at.member.slot, at.member.field, self.fields)))
    }

    /// Learns the word that was found in the field: where it leads to a member of the same set, it takes one off that
    /// member's cyclic count, not below zero.
    #[inline(always)]
    pub fn took(&mut self, counts: &mut Counts, word: u64)
        requires busy { IsSome (next_of self.old) }
        requires kept { IsAtWork self.old counts.old }
        requires in_range { IfSome (target_of word) (λ slot. slot < length counts.old.slots) }

        ensures took { record { machine = self.new; counts = counts.new } ≡ took_of (record { machine = self.old; counts = counts.old }) word }
        ensures kept { IsAtWork self.new counts.new }
        ensures others { KeepsOthers counts.old counts.new }

        // One field more was loaded, whatever this preparation loaded before.
        ensures whole { (before : State) (loads : List Load) → PreparedTo self.old.fields before self.old.at counts.old loads → PreparedTo self.new.fields before self.new.at counts.new (loads ++ loaded_at self.old.at word) }
    {
        counts.rules();
        let Some(at) = self.at else {
            return;
        };
        take_off(counts, at.set, target(word));
        go_on(counts, &mut self.at, self.fields);
    }

    /// Loads words and learns them, at least one and at most so many, as long as something comes next. It answers how many. Where it
    /// stands is kept in locals meanwhile: the compiler loads nothing of it again behind a load that others may see.
    #[inline(always)]
    pub fn run<B, S, L: Loads<B, S>>(
        &mut self,
        counts: &mut Counts,
        board: &B,
        seat: &mut S,
        most: u32,
    ) -> u32
        requires busy { IsSome (next_of self.old) }
        requires kept { IsAtWork self.old counts.old }
        requires some { 0 < most }
        requires stands { L.StandsAt board.now seat.old 0 (record { machine = self.old; counts = counts.old }) }

        ensures ran { Ran (record { machine = self.old; counts = counts.old }) result (record { machine = self.new; counts = counts.new }) }
        ensures some { 0 < result }
        ensures few { result ≤ most }
        ensures stands { L.StandsAt board.now seat.new result (record { machine = self.new; counts = counts.new }) }
    {
        let mut prep = Prep {
            fields: self.fields,
            at: self.at,
        };
        let made = prep.run_on::<B, S, L>(counts, board, seat, most);
        *self = prep;
        made
    }

    // The loop of `run`.
    #[inline(always)]
    fn run_on<B, S, L: Loads<B, S>>(
        &mut self,
        counts: &mut Counts,
        board: &B,
        seat: &mut S,
        most: u32,
    ) -> u32
        requires busy { IsSome (next_of self.old) }
        requires kept { IsAtWork self.old counts.old }
        requires some { 0 < most }
        requires stands { L.StandsAt board.now seat.old 0 (record { machine = self.old; counts = counts.old }) }

        ensures ran { Ran (record { machine = self.old; counts = counts.old }) result (record { machine = self.new; counts = counts.new }) }
        ensures some { 0 < result }
        ensures few { result ≤ most }
        ensures stands { L.StandsAt board.now seat.new result (record { machine = self.new; counts = counts.new }) }
    {
        for made in 0..most {
            let word = L::load(board, seat, self.place());
            self.took(counts, word);
            if !self.is_busy() {
                return made + 1;
            }
        }
        most
    }

    // The place of the field that is loaded next.
    #[inline(always)]
    fn place(&self) -> u32
        requires { IsSome (next_of self.now) }
        ensures { next_of self.now ≡ Some (LoadChild result) }
    {
        let Some(at) = self.at else { unreachable!() };
        place(at.member.slot, at.member.field, self.fields)
    }

    #[inline(always)]
    fn is_busy(&self) -> bool
        ensures { IsTrue result ↔ IsSome (next_of self.now) }
    {
        self.next().is_some()
    }
}

// A word that leads to a member of the set takes one off.
fn take_off(counts: &mut Counts, set: u16, target: Option<u16>)
    requires in_range { IfSome target (λ slot. slot < length counts.old.slots) }
    ensures { counts.new ≡ taken_off set counts.old target }
{
    let Some(slot) = target else {
        return;
    };
    if counts.set_of(slot) == Some(set) {
        let left = counts.cyclic(slot).saturating_sub(1);
        counts.set_cyclic(slot, left);
    }
}

// The field behind this one comes next; behind the last one of its set, the first of the next set.
#[inline(always)]
fn go_on(counts: &mut Counts, next: &mut Option<At>, fields: u8)
    requires busy { IsSome next.old }
    requires field { IfSome next.old (λ at. at.member.field < fields) }
    requires held { IfSome next.old (IsHeld counts.old) }
    ensures { IfSome next.old (λ at. record { at = next.new; counts = counts.new } ≡ gone_on fields counts.old at) }
{
    let Some(at) = next else {
        return;
    };
    if at.member.next_field(fields) {
        return;
    }
    counts.rules();
    let set = at.set;
    match at.member.next_member(counts.set(set)) {
        Some(member) => at.member = member,
        None => *next = begin_next(counts, set + 1),
    }
}

// Begins the next set that has a member, from this number on; None where there is none.
fn begin_next(counts: &mut Counts, from: u16) -> Option<At>
    requires { from ≤ length counts.old.sets }
    ensures { record { at = result; counts = counts.new } ≡ next_set counts.old from }
{
    let at = first_member(counts, from)?;
    renew(counts, at.set);
    Some(at)
}

// The first member of the first set that has one, from this number on.
fn first_member(counts: &Counts, from: u16) -> Option<At>
    requires { from ≤ length counts.now.sets }
    ensures first { result ≡ first_of from (drop from counts.now.sets) }
    ensures held { IfSome result (IsHeld counts.now) }
{
    for set in from..counts.sets() {
        if let Some(member) = Member::first(counts.set(set)) {
            return Some(At { set, member });
        }
    }
    None
}

// The cyclic count of each member becomes its true count.
fn renew(counts: &mut Counts, set: u16)
    requires { set < length counts.old.sets }
    ensures { counts.new ≡ renewed counts.old set }
{
    counts.rules();
    counts.renew_set(set);
}
