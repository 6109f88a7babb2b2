//! The rule of the table, and what its steps tell.

use crate::views::View;
use atomic_table::{Join, Play, Split, TableRule};
use rec_log::Buffer;
use rec_world::World;
use std::marker::{Brand, PhantomData};
use std::snapshot::Snapshot;

pub struct Running;

impl TableRule<Option<Buffer>, View, Snapshot<World>> for Running {
    ghost use Rattle.rec_table.specs.Operations.{Runs};
    ghost use Rattle.rec_table.specs.Rule.{first_view};

    ghost holds = { λ key s. Runs key.value s };

    ghost first = { λ key. first_view };
}

/// Which kind of atomic operation a call of a seat makes, and so what it makes of the run.
pub trait Operating: Play<Option<Buffer>, View> {
    ghost use Rattle.rec_table.specs.Operations.{Kind};

    ghost kind: { Kind };
}

/// The record with which a step is made, and the work that begins first. Each call picks them.
pub trait Doing {
    ghost use Rattle.std.specs.Prelude.{Option};
    ghost use Rattle.rec_mutator.specs.Private.{Private};
    ghost use Rattle.rec_table.specs.declared.start.Start.{Start};

    ghost actor: { Private };

    ghost work: { Option Start };
}

impl Doing for Brand {
    ghost use Rattle.std.specs.Prelude.{None};
    ghost use Rattle.rec_core.specs.Core.{nobody};

    ghost actor = { nobody };

    ghost work = { None };
}

pub struct Makes<W: Doing> {
    of: PhantomData<W>,
}

impl<W: Doing> Play<Option<Buffer>, View> for Makes<W> {
    ghost use Rattle.rec_table.specs.Rule.{MadeBy};

    ghost then = { MadeBy W.actor W.work };
}

impl<W: Doing> Operating for Makes<W> {
    ghost use Rattle.rec_table.specs.Operations.{Kind};

    ghost kind = { Kind.Steps W.work };
}

pub struct Takes<W: Doing> {
    of: PhantomData<W>,
}

impl<W: Doing> Play<Option<Buffer>, View> for Takes<W> {
    ghost use Rattle.rec_table.specs.Rule.{TakenBy};

    ghost then = { TakenBy W.actor };
}

impl<W: Doing> Operating for Takes<W> {
    ghost use Rattle.std.specs.Prelude.{None};
    ghost use Rattle.rec_table.specs.Operations.{Kind};

    ghost kind = { Kind.Steps None };
}

pub struct Gives<W: Doing> {
    of: PhantomData<W>,
}

impl<W: Doing> Play<Option<Buffer>, View> for Gives<W> {
    ghost use Rattle.rec_table.specs.Rule.{GivenBy};

    ghost then = { GivenBy W.actor };
}

impl<W: Doing> Operating for Gives<W> {
    ghost use Rattle.std.specs.Prelude.{None};
    ghost use Rattle.rec_table.specs.Operations.{Kind};

    ghost kind = { Kind.Steps None };
}

/// A load of a header that a scan has come to.
pub struct Passes;

impl Play<Option<Buffer>, View> for Passes {
    ghost use Rattle.rec_table.specs.Rule.{PassedBy};

    ghost then = { PassedBy };
}

impl Operating for Passes {
    ghost use Rattle.rec_table.specs.Operations.{Kind};

    ghost kind = { Kind.Passes };
}

/// The collector's record with which a turn is made, and whose mailbox is looked at. Each call picks them.
pub trait Turning {
    ghost use Rattle.std.specs.Prelude.{ℕ};
    ghost use Rattle.rec_collector.specs.Private.{Private};

    ghost actor: { Private };

    ghost number: { ℕ };
}

impl Turning for Brand {
    ghost use Rattle.rec_table.specs.Rule.{no_collector};

    ghost actor = { no_collector };

    ghost number = { 0 };
}

pub struct Turned<W: Turning> {
    of: PhantomData<W>,
}

impl<W: Turning> Play<Option<Buffer>, View> for Turned<W> {
    ghost use Rattle.rec_table.specs.Rule.{TurnedBy};

    ghost then = { TurnedBy W.actor };
}

impl<W: Turning> Operating for Turned<W> {
    ghost use Rattle.rec_table.specs.Operations.{Kind};

    ghost kind = { Kind.Turns };
}

pub struct Looked<W: Turning> {
    of: PhantomData<W>,
}

impl<W: Turning> Play<Option<Buffer>, View> for Looked<W> {
    ghost use Rattle.rec_table.specs.Rule.{LookedBy};

    ghost then = { LookedBy W.actor W.number };
}

impl<W: Turning> Operating for Looked<W> {
    ghost use Rattle.rec_word.specs.Mailbox.{crossing_word};
    ghost use Rattle.rec_word.specs.declared.mailbox.Mailbox.TheVariants.{Retired};
    ghost use Rattle.rec_table.specs.Operations.{Kind};

    ghost kind = { Kind.Tries (crossing_word W.actor.epoch Retired) };
}

pub struct Glanced<W: Turning> {
    of: PhantomData<W>,
}

impl<W: Turning> Play<Option<Buffer>, View> for Glanced<W> {
    ghost use Rattle.rec_table.specs.Rule.{GlancedBy};

    ghost then = { GlancedBy W.actor W.number };
}

impl<W: Turning> Operating for Glanced<W> {
    ghost use Rattle.rec_table.specs.Operations.{Kind};

    ghost kind = { Kind.Glances };
}

pub struct Returned<W: Turning> {
    of: PhantomData<W>,
}

impl<W: Turning> Play<Option<Buffer>, View> for Returned<W> {
    ghost use Rattle.rec_table.specs.Rule.{ReturnedBy};

    ghost then = { ReturnedBy W.actor };
}

impl<W: Turning> Operating for Returned<W> {
    ghost use Rattle.rec_table.specs.Operations.{Kind};

    ghost kind = { Kind.Turns };
}

/// The first seat makes the seats of the mutators, and takes them in.
pub struct Seats;

impl Split<View> for Seats {
    ghost use Rattle.rec_table.specs.Rule.{without, newcomer};

    ghost left = { without };

    ghost right = { newcomer };
}

impl Join<View> for Seats {
    ghost use Rattle.rec_table.specs.declared.views.View.TheVariants.{Spent};
    ghost use Rattle.rec_table.specs.Rule.{joined};

    ghost both = { joined };

    ghost spent = { Spent };
}
