//! The listing of a world's live objects.

ghost use Rattle.std.specs.Prelude.{◌≡◌, ◌++◌, ◌∷◌, List, length, map, IfOk, OnOk};
ghost use Rattle.rec_model.specs.Listing.{Row, slot_row, ListsSlots};
ghost use Rattle.rec_model.specs.Sight.{NumbersSlots};
ghost use Rattle.rec_core.specs.Settled.{IsSettled};
ghost use Rattle.rec_world.specs.World.{sight};
ghost use Rattle.rec_report.specs.Report.{AreFor, IsNumbered};
ghost use Rattle.rec_report.specs.Text.{live_line, row_lines};

use crate::{Text, line};
use rec_script::Script;
use rec_world::{Numbering, World};
use std::alloc::{AllocError as NoMemory, Global};

/// The live objects, numbered as the listing numbers them.
pub(super) fn number_live(
    alloc: Global,
    script: &Script,
    world: &World,
) -> Result<Numbering, NoMemory>
    requires { AreFor script.now world.now }
    ensures { IfOk result (λ numbering. NumbersSlots (sight world.now) numbering.list) }
{
    let mut numbering = Numbering::open(alloc, script.slots() as u16)?;
    world.number(&mut numbering);
    Ok(numbering)
}

impl Text {
    /// How many objects are live, and then their listing.
    pub(super) fn add_listing(
        &mut self,
        alloc: Global,
        script: &Script,
        world: &World,
    ) -> Result<usize, NoMemory>
        requires script { AreFor script.now world.now }
        requires settled { IsSettled world.now }

        ensures { IfOk result (λ live. (rows : List Row) × ListsSlots (sight world.now) rows × (live ≡ length rows) × (self.new ≡ self.old ++ live_line live ∷ row_lines rows)) }
    {
        let numbering = number_live(alloc, script, world)?;
        let live = numbering.list().len();
        self.add(line::live(alloc, live)?)?;
        self.add_rows(alloc, world, script.fields() as u8, &numbering)?;
        Ok(live)
    }

    // The rows of the numbered slots. In a settled world the true count of a slot is the number of its holders.
    fn add_rows(
        &mut self,
        alloc: Global,
        world: &World,
        fields: u8,
        numbering: &Numbering,
    ) -> Result<(), NoMemory>
        requires numbers { IsNumbered world.now fields numbering.now }
        requires settled { IsSettled world.now }

        ensures { OnOk result (self.new ≡ self.old ++ row_lines (map (slot_row (sight world.now) numbering.now.list) numbering.now.list)) }
    {
        let words = world.words();
        for (i, slot) in numbering.list().iter().enumerate() {
            let label = world.label(*slot).unwrap_or(0);
            let leaf = world.leaf(*slot);
            let first = usize::from(*slot) * usize::from(fields);
            let own = &words[first..first + usize::from(fields)];
            let count = world.count(*slot);
            self.add(line::row(alloc, i + 1, leaf, label, count, own, numbering)?)?;
        }
        Ok(())
    }
}
