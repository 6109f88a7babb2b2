//! Commands and polls of a mutator that is out.
ghost use Rattle.std.specs.Prelude.{Some, ◌≡◌, if◌then◌else◌, None};
ghost use Rattle.rec_model.specs.Asking.{allocation};
ghost use Rattle.rec_model.specs.declared.told.Told.{Told};
ghost use Rattle.rec_mutator.specs.Private.{answer_of};
ghost use Rattle.rec_mutator.specs.declared.made.Made.TheVariants as makes;
ghost use Rattle.rec_table.specs.Views.{mutator_now};
ghost use Rattle.recycler_c.specs.Calls.{Asks, LacksMutator, Polls, Tries};
ghost use Rattle.recycler_c.specs.Codes.{Answers};
ghost use Rattle.recycler_c.specs.Shown.{asked_of};
ghost use Rattle.recycler_c.specs.Standing.{mutates_in};
ghost use Rattle.recycler_c.specs.Narrow.{narrow, byte as is_byte};
ghost use Rattle.rec_model.specs.declared.command.Cmd.TheVariants as commands;

use crate::code::Code;
use crate::end::{End, Mutating};
use crate::handle::Handle;
use crate::told::{Asked, show_answer};
use rec_model::{Answer, Cmd};
use rec_table::Mutator;
use std::alloc::Global;

/// Carries out a command; `None` is one with a number that no byte holds.
#[inline(never)]
pub fn ask(alloc: Global, mutator: &mut Handle, cmd: Option<Cmd>, told: &mut Asked) -> Code
    ensures { Asks mutator.old.owned.held cmd told.old result mutator.new.owned.held told.new }
{
    if !mutator.full {
        return Code::Closed;
    }
    let mut whole = mutator.take(alloc);
    let code = ask_in(&mut whole, cmd, told);
    mutator.put(whole);
    code
}

fn ask_in(end: &mut End, cmd: Option<Cmd>, told: &mut Asked) -> Code
    ensures { Asks (Some end.old) cmd told.old result (Some end.new) told.new }
{
    match end {
        End::Mutating(out) => {
            if out.has_left() {
                return Code::Left;
            }
            let Some(cmd) = cmd else {
                return Code::Range;
            };
            if !out.can_ask(&cmd) {
                return Code::Range;
            }
            let answered = out.mutator.by_steps(&out.heap, cmd);
            *told = show_answer(answered.answer);
            Code::Ok
        }
        End::Collecting(_, _) | End::Listening(_) => Code::Other,
        _ => Code::Rests,
    }
}

/// Makes an object or a leaf, in straight code where the log has room and the slot behind the last claim is found free.
#[inline(always)]
pub fn ask_birth(
    alloc: Global,
    mutator: &mut Handle,
    reg: u32,
    label: u32,
    is_leaf: bool,
    told: &mut Asked,
) -> u32
    ensures { Answers result (λ code. Asks mutator.old.owned.held (narrow (allocation is_leaf reg label)) told.old code mutator.new.owned.held told.new) }
{
    if !mutator.full {
        return birth_by_steps(alloc, mutator, reg, label, is_leaf, told);
    }
    let mut whole = mutator.take(alloc);
    let done = birth_in(&mut whole, reg, label, is_leaf, told);
    mutator.put(whole);
    if done {
        return Code::Ok.number();
    }
    birth_by_steps(alloc, mutator, reg, label, is_leaf, told)
}

#[inline(never)]
fn birth_by_steps(
    alloc: Global,
    mutator: &mut Handle,
    reg: u32,
    label: u32,
    is_leaf: bool,
    told: &mut Asked,
) -> u32
    ensures { Answers result (λ code. Asks mutator.old.owned.held (narrow (allocation is_leaf reg label)) told.old code mutator.new.owned.held told.new) }
{
    ask(alloc, mutator, birth(reg, label, is_leaf), told).number()
}

#[inline(always)]
fn birth_in(end: &mut End, reg: u32, label: u32, is_leaf: bool, told: &mut Asked) -> bool
    ensures { Tries (Some end.old) (narrow (allocation is_leaf reg label)) told.old result (Some end.new) told.new }
{
    let End::Mutating(out) = end else {
        return false;
    };
    let Some(reg) = byte(reg) else {
        return false;
    };
    if !out.can_ask(&Cmd::New { reg, label }) {
        return false;
    }
    if out.is_full() {
        return false;
    }
    let Some(from) = out.finds_free() else {
        return false;
    };
    if out.mutator.bear(&out.heap, reg, label, is_leaf, from) {
        *told = show_answer(Answer::Done);
        return true;
    }
    *told = show_last(&out.mutator);
    true
}

// What the last command was answered, as C reads it.
#[inline(never)]
fn show_last(mutator: &Mutator) -> Asked
    requires { (told : Told) × (answer_of (mutator_now mutator.now) ≡ Some (makes.Answered told)) }
    ensures { (told : Told) → answer_of (mutator_now mutator.now) ≡ Some (makes.Answered told) → result ≡ asked_of told.answer }
{
    show_answer(mutator.told().answer)
}

/// Reads a field, in straight code where there is an object.
#[inline(always)]
pub fn ask_get(
    alloc: Global,
    mutator: &mut Handle,
    dst: u32,
    src: u32,
    field: u32,
    told: &mut Asked,
) -> u32
    ensures { Answers result (λ code. Asks mutator.old.owned.held (narrow (commands.Get dst src field)) told.old code mutator.new.owned.held told.new) }
{
    if !mutator.full {
        return get_by_steps(alloc, mutator, dst, src, field, told);
    }
    let mut whole = mutator.take(alloc);
    let done = get_in(&mut whole, dst, src, field, told);
    mutator.put(whole);
    if done {
        return Code::Ok.number();
    }
    get_by_steps(alloc, mutator, dst, src, field, told)
}

#[inline(never)]
fn get_by_steps(
    alloc: Global,
    mutator: &mut Handle,
    dst: u32,
    src: u32,
    field: u32,
    told: &mut Asked,
) -> u32
    ensures { Answers result (λ code. Asks mutator.old.owned.held (narrow (commands.Get dst src field)) told.old code mutator.new.owned.held told.new) }
{
    ask(alloc, mutator, get(dst, src, field), told).number()
}

#[inline(always)]
fn get_in(end: &mut End, dst: u32, src: u32, field: u32, told: &mut Asked) -> bool
    ensures { Tries (Some end.old) (narrow (commands.Get dst src field)) told.old result (Some end.new) told.new }
{
    let End::Mutating(out) = end else {
        return false;
    };
    let Some(Cmd::Get { dst, src, field }) = get(dst, src, field) else {
        return false;
    };
    if !out.can_ask(&Cmd::Get { dst, src, field }) {
        return false;
    }
    if out.register(src).is_none() {
        return false;
    }
    let answer = out.mutator.get(&out.heap, dst, src, field);
    *told = show_answer(answer);
    true
}

/// Writes a field, in straight code where there is an object and the log has room.
#[inline(always)]
pub fn ask_put(
    alloc: Global,
    mutator: &mut Handle,
    src: u32,
    field: u32,
    val: u32,
    told: &mut Asked,
) -> u32
    ensures { Answers result (λ code. Asks mutator.old.owned.held (narrow (commands.Put src field val)) told.old code mutator.new.owned.held told.new) }
{
    if !mutator.full {
        return put_by_steps(alloc, mutator, src, field, val, told);
    }
    let mut whole = mutator.take(alloc);
    let done = put_in(&mut whole, src, field, val, told);
    mutator.put(whole);
    if done {
        return Code::Ok.number();
    }
    put_by_steps(alloc, mutator, src, field, val, told)
}

#[inline(never)]
fn put_by_steps(
    alloc: Global,
    mutator: &mut Handle,
    src: u32,
    field: u32,
    val: u32,
    told: &mut Asked,
) -> u32
    ensures { Answers result (λ code. Asks mutator.old.owned.held (narrow (commands.Put src field val)) told.old code mutator.new.owned.held told.new) }
{
    ask(alloc, mutator, put(src, field, val), told).number()
}

#[inline(always)]
fn put_in(end: &mut End, src: u32, field: u32, val: u32, told: &mut Asked) -> bool
    ensures { Tries (Some end.old) (narrow (commands.Put src field val)) told.old result (Some end.new) told.new }
{
    let End::Mutating(out) = end else {
        return false;
    };
    let Some(Cmd::Put { src, field, val }) = put(src, field, val) else {
        return false;
    };
    if !out.can_ask(&Cmd::Put { src, field, val }) {
        return false;
    }
    if out.register(src).is_none() {
        return false;
    }
    if out.is_full() {
        return false;
    }
    let answer = out.mutator.put(&out.heap, src, field, val);
    *told = show_answer(answer);
    true
}

/// Copies a register, in straight code.
#[inline(always)]
pub fn ask_copy(alloc: Global, mutator: &mut Handle, dst: u32, src: u32, told: &mut Asked) -> u32
    ensures { Answers result (λ code. Asks mutator.old.owned.held (narrow (commands.Copy dst src)) told.old code mutator.new.owned.held told.new) }
{
    if !mutator.full {
        return copy_by_steps(alloc, mutator, dst, src, told);
    }
    let mut whole = mutator.take(alloc);
    let done = copy_in(&mut whole, dst, src, told);
    mutator.put(whole);
    if done {
        return Code::Ok.number();
    }
    copy_by_steps(alloc, mutator, dst, src, told)
}

#[inline(never)]
fn copy_by_steps(alloc: Global, mutator: &mut Handle, dst: u32, src: u32, told: &mut Asked) -> u32
    ensures { Answers result (λ code. Asks mutator.old.owned.held (narrow (commands.Copy dst src)) told.old code mutator.new.owned.held told.new) }
{
    ask(alloc, mutator, copy(dst, src), told).number()
}

#[inline(always)]
fn copy_in(end: &mut End, dst: u32, src: u32, told: &mut Asked) -> bool
    ensures { Tries (Some end.old) (narrow (commands.Copy dst src)) told.old result (Some end.new) told.new }
{
    let End::Mutating(out) = end else {
        return false;
    };
    let Some(Cmd::Copy { dst, src }) = copy(dst, src) else {
        return false;
    };
    if !out.can_ask(&Cmd::Copy { dst, src }) {
        return false;
    }
    out.mutator.copy(&out.heap, dst, src);
    *told = show_answer(Answer::Done);
    true
}

/// Lets a register be null, in straight code.
#[inline(always)]
pub fn ask_null(alloc: Global, mutator: &mut Handle, reg: u32, told: &mut Asked) -> u32
    ensures { Answers result (λ code. Asks mutator.old.owned.held (narrow (commands.Null reg)) told.old code mutator.new.owned.held told.new) }
{
    if !mutator.full {
        return null_by_steps(alloc, mutator, reg, told);
    }
    let mut whole = mutator.take(alloc);
    let done = null_in(&mut whole, reg, told);
    mutator.put(whole);
    if done {
        return Code::Ok.number();
    }
    null_by_steps(alloc, mutator, reg, told)
}

#[inline(never)]
fn null_by_steps(alloc: Global, mutator: &mut Handle, reg: u32, told: &mut Asked) -> u32
    ensures { Answers result (λ code. Asks mutator.old.owned.held (narrow (commands.Null reg)) told.old code mutator.new.owned.held told.new) }
{
    ask(alloc, mutator, null(reg), told).number()
}

#[inline(always)]
fn null_in(end: &mut End, reg: u32, told: &mut Asked) -> bool
    ensures { Tries (Some end.old) (narrow (commands.Null reg)) told.old result (Some end.new) told.new }
{
    let End::Mutating(out) = end else {
        return false;
    };
    let Some(Cmd::Null { reg }) = null(reg) else {
        return false;
    };
    if !out.can_ask(&Cmd::Null { reg }) {
        return false;
    }
    out.mutator.null(&out.heap, reg);
    *told = show_answer(Answer::Done);
    true
}

/// Tells a label, in straight code where there is an object.
#[inline(always)]
pub fn ask_value(alloc: Global, mutator: &mut Handle, reg: u32, told: &mut Asked) -> u32
    ensures { Answers result (λ code. Asks mutator.old.owned.held (narrow (commands.Value reg)) told.old code mutator.new.owned.held told.new) }
{
    if !mutator.full {
        return value_by_steps(alloc, mutator, reg, told);
    }
    let mut whole = mutator.take(alloc);
    let done = value_in(&mut whole, reg, told);
    mutator.put(whole);
    if done {
        return Code::Ok.number();
    }
    value_by_steps(alloc, mutator, reg, told)
}

#[inline(never)]
fn value_by_steps(alloc: Global, mutator: &mut Handle, reg: u32, told: &mut Asked) -> u32
    ensures { Answers result (λ code. Asks mutator.old.owned.held (narrow (commands.Value reg)) told.old code mutator.new.owned.held told.new) }
{
    ask(alloc, mutator, value(reg), told).number()
}

#[inline(always)]
fn value_in(end: &mut End, reg: u32, told: &mut Asked) -> bool
    ensures { Tries (Some end.old) (narrow (commands.Value reg)) told.old result (Some end.new) told.new }
{
    let End::Mutating(out) = end else {
        return false;
    };
    let Some(Cmd::Value { reg }) = value(reg) else {
        return false;
    };
    if !out.can_ask(&Cmd::Value { reg }) {
        return false;
    }
    if out.register(reg).is_none() {
        return false;
    }
    let answer = out.mutator.value(&out.heap, reg);
    *told = show_answer(answer);
    true
}

/// Compares two registers, in straight code.
#[inline(always)]
pub fn ask_same(alloc: Global, mutator: &mut Handle, a: u32, b: u32, told: &mut Asked) -> u32
    ensures { Answers result (λ code. Asks mutator.old.owned.held (narrow (commands.Same a b)) told.old code mutator.new.owned.held told.new) }
{
    if !mutator.full {
        return same_by_steps(alloc, mutator, a, b, told);
    }
    let mut whole = mutator.take(alloc);
    let done = same_in(&mut whole, a, b, told);
    mutator.put(whole);
    if done {
        return Code::Ok.number();
    }
    same_by_steps(alloc, mutator, a, b, told)
}

#[inline(never)]
fn same_by_steps(alloc: Global, mutator: &mut Handle, a: u32, b: u32, told: &mut Asked) -> u32
    ensures { Answers result (λ code. Asks mutator.old.owned.held (narrow (commands.Same a b)) told.old code mutator.new.owned.held told.new) }
{
    ask(alloc, mutator, same(a, b), told).number()
}

#[inline(always)]
fn same_in(end: &mut End, a: u32, b: u32, told: &mut Asked) -> bool
    ensures { Tries (Some end.old) (narrow (commands.Same a b)) told.old result (Some end.new) told.new }
{
    let End::Mutating(out) = end else {
        return false;
    };
    let Some(Cmd::Same { a, b }) = same(a, b) else {
        return false;
    };
    if !out.can_ask(&Cmd::Same { a, b }) {
        return false;
    }
    let answer = out.mutator.same(&out.heap, a, b);
    *told = show_answer(answer);
    true
}

/// Crosses into the requested epoch, if the mutator isn't in it: which one, or 0.
#[inline(always)]
pub fn poll(alloc: Global, mutator: &mut Handle, crossed: &mut u32) -> Code
    ensures { Polls mutator.old.owned.held crossed.old result mutator.new.owned.held crossed.new }
{
    if !mutator.full {
        return Code::Closed;
    }
    let mut whole = mutator.take(alloc);
    let code = poll_in(&mut whole, crossed);
    mutator.put(whole);
    code
}

#[inline(always)]
fn poll_in(end: &mut End, crossed: &mut u32) -> Code
    ensures { Polls (Some end.old) crossed.old result (Some end.new) crossed.new }
{
    let End::Mutating(out) = end else {
        return lacks_mutator(end);
    };
    if out.has_left() {
        return Code::Left;
    }
    let epoch = out.mutator.poll(&out.heap);
    *crossed = epoch.unwrap_or(0);
    Code::Ok
}

// Why no mutator is asked: the handle has another end of a running heap, or the heap rests.
#[inline(never)]
fn lacks_mutator(end: &End) -> Code
    requires { mutates_in (Some end.now) ≡ None }
    ensures { LacksMutator (Some end.now) result }
{
    match end {
        End::Collecting(_, _) | End::Listening(_) => Code::Other,
        _ => Code::Rests,
    }
}

// The number as a byte, if it fits one.
#[inline(always)]
fn byte(number: u32) -> Option<u8>
    ensures { result ≡ (if is_byte number then Some number else None) }
{
    if number < 256 {
        Some(number as u8)
    } else {
        None
    }
}

/// The command that makes an object, or `None` where a number of it fits no byte.
#[inline(always)]
pub fn new(reg: u32, label: u32) -> Option<Cmd>
    ensures { result ≡ narrow (commands.New reg label) }
{
    Some(Cmd::New {
        reg: byte(reg)?,
        label,
    })
}

/// The command that makes a leaf, likewise.
#[inline(always)]
pub fn leaf(reg: u32, label: u32) -> Option<Cmd>
    ensures { result ≡ narrow (commands.Leaf reg label) }
{
    Some(Cmd::Leaf {
        reg: byte(reg)?,
        label,
    })
}

/// The command that makes the one or the other, likewise.
#[inline(always)]
pub fn birth(reg: u32, label: u32, is_leaf: bool) -> Option<Cmd>
    ensures { result ≡ narrow (allocation is_leaf reg label) }
{
    if is_leaf {
        leaf(reg, label)
    } else {
        new(reg, label)
    }
}

/// The command that lets a register be null, likewise.
#[inline(always)]
pub fn null(reg: u32) -> Option<Cmd>
    ensures { result ≡ narrow (commands.Null reg) }
{
    Some(Cmd::Null { reg: byte(reg)? })
}

/// The command that copies a register, likewise.
#[inline(always)]
pub fn copy(dst: u32, src: u32) -> Option<Cmd>
    ensures { result ≡ narrow (commands.Copy dst src) }
{
    Some(Cmd::Copy {
        dst: byte(dst)?,
        src: byte(src)?,
    })
}

/// The command that reads a field, likewise.
#[inline(always)]
pub fn get(dst: u32, src: u32, field: u32) -> Option<Cmd>
    ensures { result ≡ narrow (commands.Get dst src field) }
{
    Some(Cmd::Get {
        dst: byte(dst)?,
        src: byte(src)?,
        field: byte(field)?,
    })
}

/// The command that writes a field, likewise.
#[inline(always)]
pub fn put(src: u32, field: u32, val: u32) -> Option<Cmd>
    ensures { result ≡ narrow (commands.Put src field val) }
{
    Some(Cmd::Put {
        src: byte(src)?,
        field: byte(field)?,
        val: byte(val)?,
    })
}

/// The command that asks for a label, likewise.
#[inline(always)]
pub fn value(reg: u32) -> Option<Cmd>
    ensures { result ≡ narrow (commands.Value reg) }
{
    Some(Cmd::Value { reg: byte(reg)? })
}

/// The command that compares two registers, likewise.
#[inline(always)]
pub fn same(a: u32, b: u32) -> Option<Cmd>
    ensures { result ≡ narrow (commands.Same a b) }
{
    Some(Cmd::Same {
        a: byte(a)?,
        b: byte(b)?,
    })
}
