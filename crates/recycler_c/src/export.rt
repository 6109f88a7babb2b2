//! What C calls. Each export calls one function of the modules beside this one.
ghost use Rattle.std.specs.Prelude.{◌≡◌, Some};
ghost use Rattle.rec_model.specs.declared.command.Cmd.TheVariants as commands;
ghost use Rattle.recycler_c.specs.Calls.{Asks, AsksNotices, CollectsIn, Closes, Counts, HearsIn, Looks, Opens, Polls, Renews, Settles, Starts, Stops, Tallies, TurnsIn, held};
ghost use Rattle.recycler_c.specs.Codes.{Answers};
ghost use Rattle.recycler_c.specs.Narrow.{narrow};
ghost use Rattle.recycler_c.specs.Sizes.{config_of};

use crate::handle::Handle;
use crate::recycler::Recycler;
use crate::sizes::{Sizes, config};
use crate::told::{Asked, Heard, Settled, Slot, Totals, Turned};
use crate::version::VERSION;
use crate::{collecting, command, looking, noticing, opening, renewing, running};
use rec_model::Cmd;
use std::alloc::Global;

/// The version of the library: 10,000 times the major number, 100 times the minor one, and the patch.
#[unsafe(no_mangle)]
pub extern "C" fn recycler_version() -> u32
    ensures { result ≡ 30000 }
{
    VERSION
}

/// Opens a heap at rest, in closed handles. It is steady: registers that didn't change touch nothing.
#[unsafe(no_mangle)]
pub extern "C" fn recycler_open(alloc: Global, r: &mut Recycler, sizes: &Sizes) -> u32
    ensures opens { Answers result (λ code. Opens (config_of sizes.now) (held r.old) r.old.mutators code (held r.new) r.new.mutators) }
    ensures listener { r.new.listener ≡ r.old.listener }
{
    opening::open(alloc, &mut r.collector, &mut r.mutators, config(sizes)).number()
}

/// Closes a heap at rest.
#[unsafe(no_mangle)]
pub extern "C" fn recycler_close(alloc: Global, r: &mut Recycler) -> u32
    ensures { Answers result (λ code. Closes (held r.old) r.old.mutators r.old.listener code (held r.new) r.new.mutators r.new.listener) }
{
    opening::close(alloc, &mut r.collector, &mut r.mutators, &mut r.listener).number()
}

/// Asks for notices: from its next start on, the collector of a heap at rest tells the label of each object that it frees, and the listener
/// hears them.
#[unsafe(no_mangle)]
pub extern "C" fn recycler_notices(alloc: Global, r: &mut Recycler, room: u32) -> u32
    ensures asks { Answers result (λ code. AsksNotices room (held r.old) r.old.listener.owned.held code (held r.new) r.new.listener.owned.held) }
    ensures mutators { r.new.mutators ≡ r.old.mutators }
{
    noticing::ask_for(alloc, &mut r.collector, &mut r.listener, room).number()
}

/// Hears the next label of an object that was freed.
#[unsafe(no_mangle)]
pub extern "C" fn recycler_hear(alloc: Global, listener: &mut Handle, told: &mut Heard) -> u32
    ensures { Answers result (λ code. HearsIn listener.old.owned.held told.old code listener.new.owned.held told.new) }
{
    noticing::hear(alloc, listener, told).number()
}

/// Sets a heap at rest running: its mutators go out into their handles.
#[unsafe(no_mangle)]
pub extern "C" fn recycler_start(alloc: Global, r: &mut Recycler) -> u32
    ensures starts { Answers result (λ code. Starts (held r.old) r.old.mutators code (held r.new) r.new.mutators) }
    ensures listener { r.new.listener ≡ r.old.listener }
{
    running::start(alloc, &mut r.collector, &mut r.mutators).number()
}

/// Stops a running heap: it rests, as its actors left it.
#[unsafe(no_mangle)]
pub extern "C" fn recycler_stop(alloc: Global, r: &mut Recycler) -> u32
    ensures stops { Answers result (λ code. Stops (held r.old) r.old.mutators code (held r.new) r.new.mutators) }
    ensures listener { r.new.listener ≡ r.old.listener }
{
    running::stop(alloc, &mut r.collector, &mut r.mutators).number()
}

/// Settles a heap at rest: afterwards just the slots that registers reach hold objects, with true counts.
#[unsafe(no_mangle)]
pub extern "C" fn recycler_settle(alloc: Global, r: &mut Recycler, told: &mut Settled) -> u32
    ensures settles { Answers result (λ code. Settles (held r.old) told.old code (held r.new) told.new) }
    ensures mutators { r.new.mutators ≡ r.old.mutators }
    ensures listener { r.new.listener ≡ r.old.listener }
{
    looking::settle_in(alloc, &mut r.collector, told).number()
}

/// A heap at rest begins anew, with epochs from 1 and with so many slots: what registers reach is as it was.
#[unsafe(no_mangle)]
pub extern "C" fn recycler_renew(alloc: Global, r: &mut Recycler, slots: u32) -> u32
    ensures renews { Answers result (λ code. Renews slots (held r.old) code (held r.new)) }
    ensures mutators { r.new.mutators ≡ r.old.mutators }
    ensures listener { r.new.listener ≡ r.old.listener }
{
    renewing::renew_in(alloc, &mut r.collector, slots).number()
}

/// Looks at a slot of a heap at rest.
#[unsafe(no_mangle)]
pub extern "C" fn recycler_slot(alloc: Global, r: &mut Recycler, slot: u32, told: &mut Slot) -> u32
    ensures looks { Answers result (λ code. Looks (held r.old) slot told.old code told.new) }
    ensures collector { held r.new ≡ held r.old }
    ensures mutators { r.new.mutators ≡ r.old.mutators }
    ensures listener { r.new.listener ≡ r.old.listener }
{
    looking::look(alloc, &mut r.collector, slot, told).number()
}

/// Counts the slots of a heap at rest that hold objects.
#[unsafe(no_mangle)]
pub extern "C" fn recycler_taken(alloc: Global, r: &mut Recycler, taken: &mut u32) -> u32
    ensures counts { Answers result (λ code. Counts (held r.old) taken.old code taken.new) }
    ensures collector { held r.new ≡ held r.old }
    ensures mutators { r.new.mutators ≡ r.old.mutators }
    ensures listener { r.new.listener ≡ r.old.listener }
{
    looking::count(alloc, &mut r.collector, taken).number()
}

/// Tells the totals of a heap at rest.
#[unsafe(no_mangle)]
pub extern "C" fn recycler_totals(alloc: Global, r: &mut Recycler, told: &mut Totals) -> u32
    ensures tallies { Answers result (λ code. Tallies (held r.old) told.old code told.new) }
    ensures collector { held r.new ≡ held r.old }
    ensures mutators { r.new.mutators ≡ r.old.mutators }
    ensures listener { r.new.listener ≡ r.old.listener }
{
    looking::total(alloc, &mut r.collector, told).number()
}

/// One turn of the collector of a running heap.
#[unsafe(no_mangle)]
pub extern "C" fn recycler_turn(alloc: Global, collector: &mut Handle, told: &mut Turned) -> u32
    ensures { Answers result (λ code. TurnsIn collector.old.owned.held told.old code collector.new.owned.held told.new) }
{
    collecting::turn(alloc, collector, told).number()
}

/// Turns of the collector of a running heap until one comes to something else than that it moved or a label is held, and at most so many.
#[unsafe(no_mangle)]
pub extern "C" fn recycler_collect(
    alloc: Global,
    collector: &mut Handle,
    turns: u32,
    told: &mut Turned,
) -> u32
    ensures { Answers result (λ code. CollectsIn collector.old.owned.held turns told.old code collector.new.owned.held told.new) }
{
    collecting::collect(alloc, collector, turns, told).number()
}

/// A mutator crosses into the requested epoch, if it isn't in it.
#[unsafe(no_mangle)]
pub extern "C" fn recycler_poll(alloc: Global, mutator: &mut Handle, crossed: &mut u32) -> u32
    ensures { Answers result (λ code. Polls mutator.old.owned.held crossed.old code mutator.new.owned.held crossed.new) }
{
    command::poll(alloc, mutator, crossed).number()
}

/// Lets a mutator leave for good: its registers become null, and its last log is handed over.
#[unsafe(no_mangle)]
pub extern "C" fn recycler_leave(alloc: Global, mutator: &mut Handle, told: &mut Asked) -> u32
    ensures { Answers result (λ code. Asks mutator.old.owned.held (Some commands.Leave) told.old code mutator.new.owned.held told.new) }
{
    command::ask(alloc, mutator, Some(Cmd::Leave), told).number()
}

/// Makes an object with this label and null fields, and lets a register name it.
#[unsafe(no_mangle)]
pub extern "C" fn recycler_new(
    alloc: Global,
    mutator: &mut Handle,
    reg: u32,
    label: u32,
    told: &mut Asked,
) -> u32
    ensures { Answers result (λ code. Asks mutator.old.owned.held (narrow (commands.New reg label)) told.old code mutator.new.owned.held told.new) }
{
    command::ask_birth(alloc, mutator, reg, label, false, told)
}

/// Makes a leaf, an object whose fields are null for good.
#[unsafe(no_mangle)]
pub extern "C" fn recycler_leaf(
    alloc: Global,
    mutator: &mut Handle,
    reg: u32,
    label: u32,
    told: &mut Asked,
) -> u32
    ensures { Answers result (λ code. Asks mutator.old.owned.held (narrow (commands.Leaf reg label)) told.old code mutator.new.owned.held told.new) }
{
    command::ask_birth(alloc, mutator, reg, label, true, told)
}

/// Lets a register be null.
#[unsafe(no_mangle)]
pub extern "C" fn recycler_null(
    alloc: Global,
    mutator: &mut Handle,
    reg: u32,
    told: &mut Asked,
) -> u32
    ensures { Answers result (λ code. Asks mutator.old.owned.held (narrow (commands.Null reg)) told.old code mutator.new.owned.held told.new) }
{
    command::ask_null(alloc, mutator, reg, told)
}

/// Lets `dst` name what `src` names.
#[unsafe(no_mangle)]
pub extern "C" fn recycler_copy(
    alloc: Global,
    mutator: &mut Handle,
    dst: u32,
    src: u32,
    told: &mut Asked,
) -> u32
    ensures { Answers result (λ code. Asks mutator.old.owned.held (narrow (commands.Copy dst src)) told.old code mutator.new.owned.held told.new) }
{
    command::ask_copy(alloc, mutator, dst, src, told)
}

/// Lets `dst` name what a field of the object in `src` leads to.
#[unsafe(no_mangle)]
pub extern "C" fn recycler_get(
    alloc: Global,
    mutator: &mut Handle,
    dst: u32,
    src: u32,
    field: u32,
    told: &mut Asked,
) -> u32
    ensures { Answers result (λ code. Asks mutator.old.owned.held (narrow (commands.Get dst src field)) told.old code mutator.new.owned.held told.new) }
{
    command::ask_get(alloc, mutator, dst, src, field, told)
}

/// Lets a field of the object in `src` lead to what `val` names.
#[unsafe(no_mangle)]
pub extern "C" fn recycler_put(
    alloc: Global,
    mutator: &mut Handle,
    src: u32,
    field: u32,
    val: u32,
    told: &mut Asked,
) -> u32
    ensures { Answers result (λ code. Asks mutator.old.owned.held (narrow (commands.Put src field val)) told.old code mutator.new.owned.held told.new) }
{
    command::ask_put(alloc, mutator, src, field, val, told)
}

/// Tells the label of the object in a register.
#[unsafe(no_mangle)]
pub extern "C" fn recycler_value(
    alloc: Global,
    mutator: &mut Handle,
    reg: u32,
    told: &mut Asked,
) -> u32
    ensures { Answers result (λ code. Asks mutator.old.owned.held (narrow (commands.Value reg)) told.old code mutator.new.owned.held told.new) }
{
    command::ask_value(alloc, mutator, reg, told)
}

/// Tells whether two registers name one object, or both none.
#[unsafe(no_mangle)]
pub extern "C" fn recycler_same(
    alloc: Global,
    mutator: &mut Handle,
    a: u32,
    b: u32,
    told: &mut Asked,
) -> u32
    ensures { Answers result (λ code. Asks mutator.old.owned.held (narrow (commands.Same a b)) told.old code mutator.new.owned.held told.new) }
{
    command::ask_same(alloc, mutator, a, b, told)
}
