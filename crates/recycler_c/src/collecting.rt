//! The collector turns.
ghost use Rattle.std.specs.Prelude.{Some};
ghost use Rattle.rec_table.specs.Turn.{MakesTurn, MakesTurns};
ghost use Rattle.recycler_c.specs.Calls.{CollectsIn, TurnsIn};
ghost use Rattle.recycler_c.specs.Telling.{HasMade, TellsMany, TellsOne};

use crate::code::Code;
use crate::end::{Collecting, End};
use crate::handle::Handle;
use crate::told::{Turned, show_telling, show_turn};
use rec_notice::{RingTube, Teller};
use std::alloc::Global;

/// One turn of the collector.
pub fn turn(alloc: Global, collector: &mut Handle, told: &mut Turned) -> Code
    ensures { TurnsIn collector.old.owned.held told.old result collector.new.owned.held told.new }
{
    if !collector.full {
        return Code::Closed;
    }
    let mut whole = collector.take(alloc);
    let code = turn_in(&mut whole, told);
    collector.put(whole);
    code
}

/// Turns of the collector until one comes to something else than that it moved or a label is held, and at most so many.
pub fn collect(alloc: Global, collector: &mut Handle, turns: u32, told: &mut Turned) -> Code
    ensures { CollectsIn collector.old.owned.held turns told.old result collector.new.owned.held told.new }
{
    if !collector.full {
        return Code::Closed;
    }
    let mut whole = collector.take(alloc);
    let code = collect_in(&mut whole, turns, told);
    collector.put(whole);
    code
}

fn turn_in(end: &mut End, told: &mut Turned) -> Code
    ensures { TurnsIn (Some end.old) told.old result (Some end.new) told.new }
{
    match end {
        End::Collecting(running, teller) => {
            *told = turn_of(running, teller);
            Code::Ok
        }
        End::Mutating(_) | End::Listening(_) => Code::Other,
        _ => Code::Rests,
    }
}

fn collect_in(end: &mut End, turns: u32, told: &mut Turned) -> Code
    ensures { CollectsIn (Some end.old) turns told.old result (Some end.new) told.new }
{
    match end {
        End::Collecting(running, teller) => {
            *told = turns_of(running, teller, turns);
            Code::Ok
        }
        End::Mutating(_) | End::Listening(_) => Code::Other,
        _ => Code::Rests,
    }
}

// One turn, and where somebody tells, what it frees is told.
fn turn_of(running: &mut Collecting, teller: &mut Option<Teller<RingTube>>) -> Turned
    ensures { HasMade MakesTurn TellsOne running.old teller.old result running.new teller.new }
{
    match teller {
        None => show_turn(running.collector.turn(&running.heap)),
        Some(teller) => show_telling(running.collector.turn_telling(&running.heap, teller)),
    }
}

// Turns, likewise.
fn turns_of(running: &mut Collecting, teller: &mut Option<Teller<RingTube>>, most: u32) -> Turned
    ensures { HasMade (λ before after answer. MakesTurns before after most answer) (TellsMany most) running.old teller.old result running.new teller.new }
{
    match teller {
        None => show_turn(running.collector.turns(&running.heap, most)),
        Some(teller) => {
            show_telling(running.collector.turns_telling(&running.heap, most, teller))
        }
    }
}
