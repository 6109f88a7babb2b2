//! The table.
ghost use Rattle.std.specs.Prelude.{◌≡◌, ◌+◌, ◌<◌, ◌^◌, length};
ghost use Rattle.std.specs.Prelude.{◌≤◌, IfOk, IfErr, map, [], All, vec_capacity};
ghost use Rattle.rec_table.specs.Ends.{IsRunOf};
ghost use Rattle.rec_table.specs.Views.{collector_now, IsOwn};
ghost use mathlib.Core.Option.{some};
ghost use Rattle.rec_collector.specs.Step.{IsBetween};
ghost use Rattle.rec_table.specs.Homes.{homes_of};
ghost use Rattle.rec_core.specs.Row.{row, index_of, IsLayout};
ghost use Rattle.rec_table.specs.Rule.{boxes_out, first_view};
ghost use Rattle.rec_core.specs.Core.{cells_of};
ghost use Rattle.rec_world.specs.World.{IsWorld};

use crate::collector::Collector;
use crate::rule::Running;
use crate::views::View;
use atomic_table::{Refused, Table};
use rec_collector::Machine;
use rec_core::Layout;
use rec_log::Buffer;
use rec_word::{Cell, Op};
use rec_world::World;
use std::alloc::Global;
use std::snapshot::Snapshot;

#[derive(Drop)]
pub struct Board {
    pub(crate) table: Table<Option<Buffer>, View, Snapshot<World>, Running, Global>,
    pub(crate) layout: Layout,
    pub ghost wide: { (layout.places ≡ length table.shared.key.value.words) × (layout.slots ≡ length table.shared.key.value.headers) × (table.shared.table_id.words ≡ layout.places + layout.slots + 2 + length table.shared.key.value.crossing) × (table.shared.table_id.words < 2 ^ 63) × IsLayout layout },
}

impl Board {
    // Where the word of an operation stands.
    #[inline(always)]
    pub(crate) fn index(&self, op: Op) -> usize
        ensures { result ≡ index_of (length self.now.table.shared.key.value.words) (length self.now.table.shared.key.value.headers) op }
    {
        self.layout.index(op.cell())
    }

    // Whether the header of a slot is found free, by a look that is no step and tells nothing.
    #[inline(always)]
    pub(crate) fn finds_free(&self, slot: u16) -> bool
        requires { slot < self.now.layout.slots }
    {
        self.table
            .shared
            .peek(self.layout.index(Cell::Header(slot)))
            == 0
    }

    /// Puts the words and the mailboxes of a world on a table. Where memory is short all comes back.
    pub(crate) fn open(
        alloc: Global,
        words: &[u64],
        boxes: Vec<Option<Buffer>>,
        layout: Layout,
        machine: Machine,
        was: &Snapshot<World>,
    ) -> Result<(Board, Collector), (Vec<Option<Buffer>>, Machine)>
        requires world { IsWorld was.now.value }
        requires words { words.now ≡ row (cells_of was.now.value) }
        requires home { map some boxes.items ≡ homes_of was.now.value.crossing was.now.value.boxes }
        requires layout { (layout.places ≡ length was.now.value.words) × (layout.slots ≡ length was.now.value.headers) × IsLayout layout }
        requires few { length words.now < 2 ^ 63 }
        requires collector { (machine ≡ was.now.value.collector) × (boxes_out machine ≡ []) × IsBetween machine.phase }

        ensures ok { IfOk result (λ r. (r.0.table.shared.key ≡ was.now) × (r.1 ≡ record { table = r.0.table.shared.table_id; opened = was.now.value.collector; collecting = record { log = []; made = 0; known = [] } })) }
        ensures sizes { IfOk result (λ r. (r.0.table.shared.table_id.words ≡ length words.now) × (r.0.table.shared.table_id.slots ≡ length boxes.items)) }
        ensures err { IfErr result (λ r. (r.0.items ≡ boxes.items) × (r.1 ≡ machine)) }
    {
        let opened = Snapshot::of(&machine);
        match Table::new(alloc, words, boxes, was) {
            Ok((table, seat)) => Ok((
                Board { table, layout },
                Collector::sat(machine, opened, seat),
            )),
            Err(Refused { slots }) => Err((slots, machine)),
        }
    }

    /// Takes the words and the mailboxes off the table. All seats but the collector's were taken in.
    pub(crate) fn close(
        self,
        collector: Collector,
        words: &mut Vec<u64>,
        boxes: &mut Vec<Option<Buffer>>,
    ) -> Machine
        requires own { IsOwn self.table.shared.table_id self.table.shared.key.value collector }
        requires seats { (collector.collecting.made ≡ self.table.shared.key.value.config.mutators) × (length collector.collecting.known ≡ self.table.shared.key.value.config.mutators) }
        requires none { boxes_out (collector_now collector) ≡ [] }
        requires room { (words.old.items ≡ []) × (self.table.shared.table_id.words ≤ vec_capacity words.old) }
        requires room_boxes { (boxes.old.items ≡ []) × (self.table.shared.table_id.slots ≤ vec_capacity boxes.old) }

        ensures machine { result ≡ collector_now collector }
        ensures run { IsRunOf self.table.shared.key.value collector.collecting words.new.items boxes.new.items }
    {
        let count = self.table.word_count();
        let slots = self.table.slot_count();
        let (machine, seat) = collector.stood();
        let Board { table, layout: _ } = self;
        let mut closed = table.close_with(seat);
        for i in 0..count {
            words.push_reserved(closed.word(i));
        }
        for k in 0..slots {
            boxes.push_reserved(closed.take(k));
        }
        closed.free();
        machine
    }
}
