//! What the buffers of a batch tell of the slots.
ghost use Rattle.std.specs.Prelude.{◌≡◌, ℕ, ◌<◌, ◌≤◌, ◌+◌, ◌∷◌, [], true, IfSome, flat_map, length, map};
ghost use Rattle.rec_counts.specs.Lists.{one};
ghost use Rattle.rec_word.specs.Word.{is_slot};
ghost use Rattle.rec_counts.specs.Batch.{AreAlike};
ghost use Rattle.rec_counts.specs.Targets.{held, leaf_born, leaves, named, new_target, old_target, slots_in, taken, taken_targets, told_buffer, told_buffers, told_of, told_registers, written};
ghost use Rattle.rec_counts.specs.Telling.{Tells};

use crate::targets::old_target;
use crate::{Colour, Slot, Touched};
use rec_log::{Buffer, Entry};
use rec_word::target;

/// Tells what the entries of the newer buffers bore and what they refer to. Their snapshots are told beside the older ones.
pub(crate) fn tell_newer(slots: &mut [Slot], touched: &mut Touched, newer: &[Buffer])
    requires marked { length touched.old.marks ≡ length slots.old }
    requires in_range { (x : ℕ) → length slots.old ≤ x → leaves x newer.now + written x newer.now ≡ 0 }
    ensures { Tells (λ x. leaves x newer.now) (λ x. written x newer.now) [] slots.old touched.old slots.new touched.new }
{
    for buffer in newer {
        tell_new_entries(slots, touched, buffer.entries());
    }
}

fn tell_new_entries(slots: &mut [Slot], touched: &mut Touched, entries: &[Entry])
    requires marked { length touched.old.marks ≡ length slots.old }
    requires in_range { (x : ℕ) → length slots.old ≤ x → named x (map leaf_born entries.now) + named x (map new_target entries.now) ≡ 0 }
    ensures { Tells (λ x. named x (map leaf_born entries.now)) (λ x. named x (map new_target entries.now)) [] slots.old touched.old slots.new touched.new }
{
    for entry in entries {
        tell_new_entry(slots, touched, *entry);
    }
}

// The leaf that the entry bore, or the target that it put.
#[inline(always)]
fn tell_new_entry(slots: &mut [Slot], touched: &mut Touched, entry: Entry)
    requires marked { length touched.old.marks ≡ length slots.old }
    requires born { IfSome (leaf_born entry) (λ slot. slot < length slots.old) }
    requires in_range { IfSome (new_target entry) (λ slot. slot < length slots.old) }
    ensures { Tells (λ x. one (is_slot x (leaf_born entry))) (λ x. one (is_slot x (new_target entry))) [] slots.old touched.old slots.new touched.new }
{
    match entry {
        Entry::Put { new, .. } => tell_more(slots, touched, target(new)),
        Entry::Born { slot, leaf: true } => slots[slot as usize].colour = Colour::Green,
        Entry::Born { .. } => {}
    }
}

/// Tells what the older buffers no longer refer to, mutator by mutator, and of each what its registers hold now. In a steady heap
/// registers that hold what they held are left out.
pub(crate) fn tell_older(
    slots: &mut [Slot],
    touched: &mut Touched,
    newer: &[Buffer],
    older: &[Buffer],
    steady: bool,
)
    requires marked { length touched.old.marks ≡ length slots.old }
    requires alike { AreAlike newer.now older.now }
    requires in_range { (x : ℕ) → length slots.old ≤ x → held x newer.now + taken x older.now ≡ 0 }
    ensures { Tells (λ x. 0) (λ x. held x (told_buffers steady newer.now older.now)) (slots_in (flat_map taken_targets (told_buffers steady older.now newer.now))) slots.old touched.old slots.new touched.new }
{
    for place in 0..older.len() {
        tell_older_buffer(slots, touched, &newer[place], &older[place], steady);
    }
}

// What one older buffer no longer refers to, and the registers of its mutator.
#[inline(always)]
fn tell_older_buffer(
    slots: &mut [Slot],
    touched: &mut Touched,
    newer: &Buffer,
    older: &Buffer,
    steady: bool,
)
    requires marked { length touched.old.marks ≡ length slots.old }
    requires alike { length older.now.snapshot ≡ length newer.now.snapshot }
    requires in_range { (x : ℕ) → length slots.old ≤ x → named x newer.now.snapshot + named x (taken_targets older.now) ≡ 0 }
    ensures { Tells (λ x. 0) (λ x. named x (told_buffer steady newer.now older.now).snapshot) (slots_in (taken_targets (told_buffer steady older.now newer.now))) slots.old touched.old slots.new touched.new }
{
    tell_old_entries(slots, touched, older.entries());
    tell_registers(slots, touched, newer.snapshot(), older.snapshot(), steady);
}

fn tell_old_entries(slots: &mut [Slot], touched: &mut Touched, entries: &[Entry])
    requires marked { length touched.old.marks ≡ length slots.old }
    requires in_range { (x : ℕ) → length slots.old ≤ x → named x (map old_target entries.now) ≡ 0 }
    ensures { Tells (λ x. 0) (λ x. 0) (slots_in (map old_target entries.now)) slots.old touched.old slots.new touched.new }
{
    for entry in entries {
        tell_less(slots, touched, old_target(*entry));
    }
}

// What the registers of one mutator hold now, and what they no longer hold.
#[inline(always)]
fn tell_registers(
    slots: &mut [Slot],
    touched: &mut Touched,
    newer: &[Option<u16>],
    older: &[Option<u16>],
    steady: bool,
)
    requires marked { length touched.old.marks ≡ length slots.old }
    requires alike { length older.now ≡ length newer.now }
    requires in_range { (x : ℕ) → length slots.old ≤ x → named x newer.now + named x older.now ≡ 0 }
    ensures { Tells (λ x. 0) (λ x. named x (told_registers steady newer.now older.now)) (slots_in (told_registers steady older.now newer.now)) slots.old touched.old slots.new touched.new }
{
    if steady {
        tell_changes(slots, touched, newer, older);
    } else {
        tell_all(slots, touched, newer, older);
    }
}

fn tell_all(slots: &mut [Slot], touched: &mut Touched, newer: &[Option<u16>], older: &[Option<u16>])
    requires marked { length touched.old.marks ≡ length slots.old }
    requires alike { length older.now ≡ length newer.now }
    requires in_range { (x : ℕ) → length slots.old ≤ x → named x newer.now + named x older.now ≡ 0 }
    ensures { Tells (λ x. 0) (λ x. named x newer.now) (slots_in older.now) slots.old touched.old slots.new touched.new }
{
    for place in 0..older.len() {
        tell_register(slots, touched, newer[place], older[place]);
    }
}

// What a register held before and holds now. Where that is the same slot, its count stays.
#[inline(always)]
fn tell_register(slots: &mut [Slot], touched: &mut Touched, newer: Option<u16>, older: Option<u16>)
    requires marked { length touched.old.marks ≡ length slots.old }
    requires newer { IfSome newer (λ slot. slot < length slots.old) }
    requires older { IfSome older (λ slot. slot < length slots.old) }
    ensures { Tells (λ x. 0) (λ x. one (is_slot x newer)) (slots_in (older ∷ [])) slots.old touched.old slots.new touched.new }
{
    if newer == older {
        if let Some(slot) = older {
            touched.keep(slot);
        }
        return;
    }
    tell_more(slots, touched, newer);
    tell_less(slots, touched, older);
}

// The registers of a steady heap that changed.
fn tell_changes(
    slots: &mut [Slot],
    touched: &mut Touched,
    newer: &[Option<u16>],
    older: &[Option<u16>],
)
    requires marked { length touched.old.marks ≡ length slots.old }
    requires alike { length older.now ≡ length newer.now }
    requires in_range { (x : ℕ) → length slots.old ≤ x → named x newer.now + named x older.now ≡ 0 }
    ensures { Tells (λ x. 0) (λ x. named x (told_registers true newer.now older.now)) (slots_in (told_registers true older.now newer.now)) slots.old touched.old slots.new touched.new }
{
    for place in 0..older.len() {
        tell_change(slots, touched, newer[place], older[place]);
    }
}

// What a register of a steady heap held before and holds now. Where that is the same slot, the slot stays as it is.
#[inline(always)]
fn tell_change(slots: &mut [Slot], touched: &mut Touched, newer: Option<u16>, older: Option<u16>)
    requires marked { length touched.old.marks ≡ length slots.old }
    requires newer { IfSome newer (λ slot. slot < length slots.old) }
    requires older { IfSome older (λ slot. slot < length slots.old) }
    ensures { Tells (λ x. 0) (λ x. one (is_slot x (told_of true newer older))) (slots_in (told_of true older newer ∷ [])) slots.old touched.old slots.new touched.new }
{
    if newer != older {
        tell_more(slots, touched, newer);
        tell_less(slots, touched, older);
    }
}

// A reference more to what is named here, if anything is.
#[inline(always)]
fn tell_more(slots: &mut [Slot], touched: &mut Touched, name: Option<u16>)
    requires marked { length touched.old.marks ≡ length slots.old }
    requires in_range { IfSome name (λ slot. slot < length slots.old) }
    ensures { Tells (λ x. 0) (λ x. one (is_slot x name)) [] slots.old touched.old slots.new touched.new }
{
    if let Some(slot) = name {
        touched.add(slots, slot);
    }
}

// A reference less.
#[inline(always)]
fn tell_less(slots: &mut [Slot], touched: &mut Touched, name: Option<u16>)
    requires marked { length touched.old.marks ≡ length slots.old }
    requires in_range { IfSome name (λ slot. slot < length slots.old) }
    ensures { Tells (λ x. 0) (λ x. 0) (slots_in (name ∷ [])) slots.old touched.old slots.new touched.new }
{
    if let Some(slot) = name {
        touched.take(slots, slot);
    }
}
