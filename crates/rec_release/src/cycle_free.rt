ghost use Rattle.std.specs.Prelude.{◌≡◌, ◌+◌, ◌<◌, ◌↔◌, ◌++◌, ℕ, List, [], None, length, true, IfSome, IsNone, IsSome, IsTrue, ◌≤◌, Some};
ghost use Rattle.rec_word.specs.Word.{target_of};
ghost use Rattle.rec_word.specs.declared.op.Op.TheVariants.{ClearField};
ghost use Rattle.rec_counts.specs.Counts.{State, slot_at};
ghost use Rattle.rec_counts.specs.Groups.{earlier_sets, last_set};
ghost use Rattle.rec_counts.specs.Lists.{times};
ghost use Rattle.rec_word.specs.Load.{Load, loaded_at};
ghost use Rattle.rec_word.specs.Walk.{IsOf, first_member};
ghost use Rattle.rec_release.specs.CycleFree.{IsAtWork, IsFreeable, Work, gone_on, listed, next_of, started_of, took_of};
ghost use Rattle.rec_release.specs.Freed.{FreedTo};
ghost use Rattle.rec_release.specs.Ran.{RanFreeing};
ghost use Rattle.rec_release.specs.TakenOff.{AllZerosButOrange, IsApart, Keeps, KeepsOrange};

use crate::clears::Clears;
use crate::take_off::take_off;
use rec_counts::Counts;
use rec_word::{Member, Op, place, target};
use std::marker::Model;

/// The freeing of a set that passed both tests. No call of it can be refused memory.
#[derive(Drop)]
pub struct CycleFree {
    fields: u8,
    at: Option<Member>,
}

impl Model for CycleFree {
    ghost use Rattle.std.specs.Prelude.{◌<◌, IfSome};
    ghost use Rattle.rec_word.specs.declared.member.Member.{Member};
    ghost use Rattle.rec_release.specs.CycleFree.{Machine};

    ghost Value = { Machine };

    ghost view = { λ free. record { fields = free.fields; at = free.at } };

    ghost invariant = { λ free. (0 < free.fields) × IfSome free.at (λ (a : Member). a.field < free.fields) };
}

impl CycleFree {
    /// A freeing with no work, over slots with so many fields, at least one.
    #[tactic(auto, unfolding(crate::specs::CycleFree::next_of))]
    pub fn idle(fields: u8) -> CycleFree
        requires { 0 < fields }
        ensures idle { result ≡ record { fields = fields; at = None } }
        ensures none { IsNone (next_of result) }
    {
        CycleFree { fields, at: None }
    }

    /// Begins to free set `set`, the last one: its members leave the cycle buffer, and are released and Black.
    pub fn start(&mut self, counts: &mut Counts, set: u16)
        requires idle { IsNone (next_of self.old) }
        requires last { set + 1 ≡ length counts.old.sets }
        requires freeable { IsFreeable counts.old }

        ensures started { record { machine = self.new; counts = counts.new } ≡ started_of self.old counts.old }
        ensures kept { IsAtWork self.new counts.new }
        ensures slots { length counts.new.slots ≡ length counts.old.slots }
        ensures sets { counts.new.sets ≡ earlier_sets counts.old.sets }
        ensures all_but_orange { AllZerosButOrange counts.old → AllZerosButOrange counts.new }
        ensures apart { IsApart counts.old → IsApart counts.new }

        // The members are Black.
        ensures orange { KeepsOrange (last_set counts.old.sets) counts.old counts.new }

        // Nothing is exchanged yet.
        ensures whole { FreedTo self.new.fields counts.old self.new.at counts.new [] }
    {
        counts.rules();
        let first = Member::first(counts.set(set));
        counts.give_up_set();
        self.at = first;
    }

    /// What comes next: a field of a member is exchanged for 0. None where the work is done.
    #[tactic(auto, unfolding(crate::specs::CycleFree::next_of))]
    pub fn next(&self) -> Option<Op>
        ensures next { result ≡ next_of self.now }
        ensures none { IsNone result ↔ IsNone self.now.at }
    {
        let at = self.at?;
        Some(Op::ClearField(place(at.slot, at.field, self.fields)))
    }

    /// Where it stands: the field that is exchanged next, of a member in the work list. None where the work is done.
    pub fn at(&self) -> Option<Member>
        ensures { result ≡ self.now.at }
    {
        self.at
    }

    /// Learns the word that came out of the field: its target has one reference less. An orange target is lowered, any
    /// other is decremented.
    #[inline(always)]
    pub fn took(&mut self, counts: &mut Counts, word: u64)
        requires busy { IsSome (next_of self.old) }
        requires kept { IsAtWork self.old counts.old }
        requires counted { IfSome (target_of word) (λ slot. 0 < (slot_at counts.old slot).count) }

        ensures took { record { machine = self.new; counts = counts.new } ≡ took_of (record { machine = self.old; counts = counts.old }) word }
        ensures kept { IsAtWork self.new counts.new }
        ensures keeps { Keeps true counts.old counts.new }
        ensures orange { KeepsOrange [] counts.old counts.new }

        // One word more came out of one place more, whatever this freeing took in before.
        ensures whole { (before : State) (loads : List Load) → FreedTo self.old.fields before self.old.at counts.old loads → FreedTo self.new.fields before self.new.at counts.new (loads ++ loaded_at self.old.at word) }
    {
        take_off(counts, target(word), true);
        go_on(counts, &mut self.at, self.fields);
    }

    /// Clears fields and learns what came out, at least one and at most so many, as long as something comes next. It answers how many.
    /// Where it stands is kept in locals meanwhile: the compiler loads nothing of it again behind an exchange that others may see.
    #[inline(always)]
    pub fn run<B, S, C: Clears<B, S>>(
        &mut self,
        counts: &mut Counts,
        board: &B,
        seat: &mut S,
        most: u32,
    ) -> u32
        requires busy { IsSome (next_of self.old) }
        requires kept { IsAtWork self.old counts.old }
        requires some { 0 < most }
        requires stands { C.StandsAt board.now seat.old 0 (record { machine = self.old; counts = counts.old }) }

        ensures ran { RanFreeing (record { machine = self.old; counts = counts.old }) result (record { machine = self.new; counts = counts.new }) }
        ensures kept { IsAtWork self.new counts.new }
        ensures some { 0 < result }
        ensures few { result ≤ most }
        ensures stands { C.StandsAt board.now seat.new result (record { machine = self.new; counts = counts.new }) }
    {
        let mut freeing = CycleFree {
            fields: self.fields,
            at: self.at,
        };
        let made = freeing.run_on::<B, S, C>(counts, board, seat, most);
        *self = freeing;
        made
    }

    // The loop of `run`.
    #[inline(always)]
    fn run_on<B, S, C: Clears<B, S>>(
        &mut self,
        counts: &mut Counts,
        board: &B,
        seat: &mut S,
        most: u32,
    ) -> u32
        requires busy { IsSome (next_of self.old) }
        requires kept { IsAtWork self.old counts.old }
        requires some { 0 < most }
        requires stands { C.StandsAt board.now seat.old 0 (record { machine = self.old; counts = counts.old }) }

        ensures ran { RanFreeing (record { machine = self.old; counts = counts.old }) result (record { machine = self.new; counts = counts.new }) }
        ensures kept { IsAtWork self.new counts.new }
        ensures some { 0 < result }
        ensures few { result ≤ most }
        ensures stands { C.StandsAt board.now seat.new result (record { machine = self.new; counts = counts.new }) }
    {
        for made in 0..most {
            let word = C::clear(board, seat, self.place());
            self.took(counts, word);
            if !self.is_busy() {
                return made + 1;
            }
        }
        most
    }

    // The place of the field that is exchanged next.
    #[inline(always)]
    fn place(&self) -> u32
        requires { IsSome (next_of self.now) }
        ensures { next_of self.now ≡ Some (ClearField result) }
    {
        let Some(at) = self.at else { unreachable!() };
        place(at.slot, at.field, self.fields)
    }

    #[inline(always)]
    fn is_busy(&self) -> bool
        ensures { IsTrue result ↔ IsSome (next_of self.now) }
    {
        self.next().is_some()
    }
}

// The field behind this one comes next; behind the last one all members go to the free list.
#[inline(always)]
fn go_on(counts: &mut Counts, next: &mut Option<Member>, fields: u8)
    requires busy { IsSome next.old }
    requires field { IfSome next.old (λ at. at.field < fields) }
    requires member { IfSome next.old (IsOf counts.old.work) }
    requires unlisted { (x : ℕ) → 0 < times x counts.old.work → times x counts.old.free ≡ 0 }
    ensures { IfSome next.old (λ at. record { at = next.new; counts = counts.new } ≡ gone_on fields counts.old at) }
{
    let Some(at) = next else {
        return;
    };
    if at.next_field(fields) {
        return;
    }
    counts.rules();
    match at.next_member(counts.work()) {
        Some(member) => *at = member,
        None => {
            *next = None;
            list_members(counts);
        }
    }
}

// The members go to the free list.
fn list_members(counts: &mut Counts)
    requires { (x : ℕ) → 0 < times x counts.old.work → times x counts.old.free ≡ 0 }
    ensures { counts.new ≡ listed counts.old }
{
    counts.free_work();
}
