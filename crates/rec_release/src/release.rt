ghost use Rattle.std.specs.Prelude.{◌≡◌, ◌<◌, ◌↔◌, ◌++◌, ◌∷◌, ℕ, Bool, List, [], None, false, length, true, IfSome, IsNone, IsSome};
ghost use Rattle.rec_word.specs.Word.{target_of};
ghost use Rattle.rec_counts.specs.Counts.{State, slot_at};
ghost use Rattle.rec_counts.specs.Lists.{times};
ghost use Rattle.rec_release.specs.Release.{IsAtWork, IsHeld, IsReady, emptied, first_of, gone_on, next_from, next_of, started_of, took_of, without_first};
ghost use Rattle.rec_release.specs.Released.{Released, place_due};
ghost use Rattle.rec_release.specs.TakenOff.{Keeps, KeepsOrange};

use crate::at::At;
use crate::take_off::take_off;
use rec_counts::Counts;
use rec_word::{Op, place, target};
use std::marker::Model;

/// The release of the zeros. No call of it can be refused memory.
#[derive(Drop)]
pub struct Release {
    fields: u8,
    at: Option<At>,
    lowers: bool,
}

impl Model for Release {
    ghost use Rattle.std.specs.Prelude.{◌<◌, IfSome};
    ghost use Rattle.rec_release.specs.declared.at.At.{At};
    ghost use Rattle.rec_release.specs.Release.{Machine};

    ghost Value = { Machine };

    ghost view = { λ release. record { fields = release.fields; at = release.at; lowers = release.lowers } };

    ghost invariant = { λ release. (0 < release.fields) × IfSome release.at (λ (a : At). a.field < release.fields) };
}

impl Release {
    /// A release with no work, over slots with so many fields, at least one.
    #[tactic(auto, unfolding(crate::specs::Release::next_of))]
    pub fn idle(fields: u8) -> Release
        requires { 0 < fields }
        ensures idle { result ≡ record { fields = fields; at = None; lowers = false } }
        ensures none { IsNone (next_of result) }
    {
        Release {
            fields,
            at: None,
            lowers: false,
        }
    }

    /// Begins to release the zeros, as far as no field is due: the first of them is released, and each Green one before the first
    /// that isn't. This release lowers orange targets, or decrements them.
    pub fn start(&mut self, counts: &mut Counts, lowers: bool)
        requires idle { IsNone (next_of self.old) }
        requires ready { IsReady counts.old }

        ensures started { record { machine = self.new; counts = counts.new } ≡ started_of self.old lowers counts.old }
        ensures kept { IsAtWork self.new counts.new }
        ensures lowers { self.new.lowers ≡ lowers }
        ensures done { IsNone (next_of self.new) → counts.new.zeros ≡ [] }

        // Either kind of release keeps as much: no target was lowered or decremented yet.
        ensures keeps { (lowers : Bool) → Keeps lowers counts.old counts.new }
        ensures orange { KeepsOrange [] counts.old counts.new }

        // Nothing is exchanged yet.
        ensures whole { (slots : List ℕ) × Released self.new.fields counts.old self.new.at counts.new [] [] slots }
    {
        self.lowers = lowers;
        self.at = release_next(counts);
    }

    /// What comes next: a field of a released slot is exchanged for 0. None where the work is done.
    #[tactic(auto, unfolding(crate::specs::Release::next_of))]
    pub fn next(&self) -> Option<Op>
        ensures next { result ≡ next_of self.now }
        ensures none { IsNone result ↔ IsNone self.now.at }
    {
        let at = self.at?;
        Some(Op::ClearField(place(at.slot, at.field, self.fields)))
    }

    /// Learns the word that came out of the field: its target has one reference less. Where this release lowers, an orange
    /// target is lowered, and any other is decremented.
    #[inline(always)]
    pub fn took(&mut self, counts: &mut Counts, word: u64)
        requires busy { IsSome (next_of self.old) }
        requires kept { IsAtWork self.old counts.old }
        requires counted { IfSome (target_of word) (λ slot. 0 < (slot_at counts.old slot).count) }

        ensures took { record { machine = self.new; counts = counts.new } ≡ took_of (record { machine = self.old; counts = counts.old }) word }
        ensures kept { IsAtWork self.new counts.new }
        ensures lowers { self.new.lowers ≡ self.old.lowers }
        ensures done { IsNone (next_of self.new) → counts.new.zeros ≡ [] }
        ensures keeps { Keeps self.new.lowers counts.old counts.new }
        ensures orange { self.new.lowers ≡ true → KeepsOrange [] counts.old counts.new }

        // One word more came out of one place more, whatever this release took in before.
        ensures whole { (before : State) (words from slots : List ℕ) → Released self.old.fields before self.old.at counts.old words from slots → (more : List ℕ) × Released self.new.fields before self.new.at counts.new (words ++ word ∷ []) (from ++ place_due self.old) more }
    {
        let Some(at) = self.at else {
            return;
        };
        take_off(counts, target(word), self.lowers);
        self.at = go_on(counts, at, self.fields);
    }
}

// The next field of the same slot comes next; after its last one the slot is emptied, and the next zero is released.
#[inline(always)]
fn go_on(counts: &mut Counts, at: At, fields: u8) -> Option<At>
    requires field { at.field < fields }
    requires held { IsHeld counts.old at }
    requires ready { IsReady counts.old }
    ensures field { IfSome result (λ a. a.field < fields) }
    ensures gone { (lowers : Bool) → record { machine = record { fields = fields; at = result; lowers = lowers }; counts = counts.new } ≡ gone_on fields lowers at counts.old }
{
    if at.field + 1 < fields {
        return Some(At {
            slot: at.slot,
            field: at.field + 1,
        });
    }
    empty(counts, at.slot);
    release_next(counts)
}

// An emptied slot goes to the free list, if it is in no buffer.
fn empty(counts: &mut Counts, slot: u16)
    requires in_range { slot < length counts.old.slots }
    requires unlisted { times slot counts.old.free ≡ 0 }
    ensures { counts.new ≡ emptied counts.old slot }
{
    if !counts.buffered(slot) {
        counts.push_free(slot);
    }
}

// The first of the zeros is released, and its first field is due. A Green one has no fields: it is empty at once, and the next
// zero follows. None where there are no zeros left.
fn release_next(counts: &mut Counts) -> Option<At>
    requires ready { IsReady counts.old }
    ensures first { result ≡ (next_from counts.old.zeros counts.old).at }
    ensures released { counts.new ≡ (next_from counts.old.zeros counts.old).counts }
{
    while let Some(at) = release_first(counts) {
        if !counts.colour(at.slot).is_green() {
            return Some(at);
        }
        empty(counts, at.slot);
    }
    None
}

// The first of the zeros leaves them and is released; None where there are no zeros.
fn release_first(counts: &mut Counts) -> Option<At>
    ensures first { result ≡ first_of counts.old.zeros }
    ensures released { counts.new ≡ without_first counts.old.zeros counts.old }
{
    counts.rules();
    let slot = counts.pop_zero()?;
    counts.release(slot);
    Some(At { slot, field: 0 })
}
