//! Opening a heap from objects.

ghost use Rattle.std.specs.Prelude.{◌≡◌, ℕ, ◌+◌, ◌-◌, ◌*◌, ◌^◌, ◌<◌, ◌≤◌, if◌then◌else◌, ◌++◌, All, IfErr, IfOk, IfSome, OnOk, count_by, length, map, replicate, slice_index};
ghost use Rattle.rec_word.specs.Header.{header_word};
ghost use Rattle.rec_word.specs.Mailbox.{crossing_word};
ghost use Rattle.rec_word.specs.Word.{IsTarget, is_slot};
ghost use Rattle.rec_word.specs.declared.mailbox.Mailbox.TheVariants.{Spare};
ghost use Rattle.rec_model.specs.Sight.{StandsBy};
ghost use Rattle.rec_core.specs.Config.{IsConfig, IsMutator};
ghost use Rattle.rec_core.specs.Core.{holding_mutator, holding_mutators, opened, opened_from, sight};
ghost use Rattle.rec_core.specs.Objects.{AreObjects, HaveLabels, IsOneOf, counts_of, described, early_word as early_word_of, early_words, rows_of};
ghost use Rattle.rec_core.specs.Row.{row};
ghost use Rattle.rec_core.specs.Settled.{IsSettled};
ghost use Rattle.rec_core.specs.Worked.{AreIdle};
ghost use Rattle.rec_world.specs.OpenError.{IsRefused};
ghost use Rattle.rec_world.specs.World.{IsWorld};

use crate::mailbox::open_boxes;
use crate::memory::Memory;
use crate::world::World;
use crate::{Config, OpenError};
use rec_collector::Machine as Collector;
use rec_core::Layout;
use rec_index::Index;
use rec_mutator::Machine;
use rec_word::{Header, Mailbox, Stamp, crossing, pack};
use std::alloc::{AllocError as NoMemory, Global};

// How many indices a stamp may have.
const INDICES: u32 = 1 << 18;

impl World {
    /// A heap with these objects, each a label and a leaf mark, numbered from 0: object n stands in slot n, and all other slots
    /// are free. Which object each field leads to stands object after object, and which one each register names mutator after
    /// mutator. The fields of a leaf are null, and each object is on a path of fields from a register. The collection of the
    /// epoch before the first counts as done. All its memory is taken here.
    pub fn open_from(
        alloc: Global,
        config: Config,
        nodes: &[(u32, bool)],
        fields: &[Option<u16>],
        registers: &[Option<u16>],
    ) -> Result<World, OpenError>
        requires { AreObjects config (record { nodes = nodes.now; fields = fields.now; registers = registers.now }) }

        // The first number that is out of its range is named, before any memory is asked for.
        ensures refused { IfErr result (λ error. IsRefused config error) }
        ensures config { IfOk result (λ world. IsConfig config) }

        ensures opened { IfOk result (λ world. world ≡ opened_from config (record { nodes = nodes.now; fields = fields.now; registers = registers.now })) }

        // The heap that they describe stands for it: each slot's object has the slot's number.
        ensures stands { IfOk result (λ world. StandsBy (described config (record { nodes = nodes.now; fields = fields.now; registers = registers.now })) (sight world) (λ slot. slot)) }

        // Just what registers reach is taken, with true counts; and no mutator works.
        ensures settled { IfOk result IsSettled }
        ensures idle { IfOk result AreIdle }
        ensures kept { IfOk result IsWorld }
    {
        if let Some(field) = config.first_wrong() {
            return Err(OpenError::Config { field });
        }
        let world = open_objects(alloc, config, nodes, fields, registers)?;
        Ok(world)
    }
}

/// A heap with these numbers, which are in their ranges, and one object, whose label is 0.
pub(super) fn open_with_one(alloc: Global, config: Config) -> Result<World, NoMemory>
    requires { IsConfig config }

    ensures opened { IfOk result (λ world. world ≡ opened config) }
    ensures kept { IfOk result IsWorld }
{
    let fields = vec![in alloc; None; config.fields as usize]?;
    let mut own = vec![in alloc; None; config.registers as usize]?;
    own[0] = Some(0);
    let registers = own.repeat(alloc, config.mutators as usize)?;
    open_objects(
        alloc,
        config,
        &[(0, false)],
        fields.as_slice(),
        registers.as_slice(),
    )
}

// A heap with these numbers, which are in their ranges, and these objects.
fn open_objects(
    alloc: Global,
    config: Config,
    nodes: &[(u32, bool)],
    fields: &[Option<u16>],
    registers: &[Option<u16>],
) -> Result<World, NoMemory>
    requires config { IsConfig config }
    requires objects { AreObjects config (record { nodes = nodes.now; fields = fields.now; registers = registers.now }) }

    ensures opened { IfOk result (λ world. world ≡ opened_from config (record { nodes = nodes.now; fields = fields.now; registers = registers.now })) }
    ensures labels { IfOk result (λ world. HaveLabels nodes.now) }
    ensures kept { IfOk result IsWorld }
{
    let slots = config.slots as usize;
    let row = open_row(alloc, &config, nodes, fields)?;
    let free = Index::open(alloc)?;
    let boxes = open_boxes(alloc, &config)?;
    let machines = open_holders(alloc, &config, registers)?;
    let collector = match open_collector(alloc, &config, nodes, fields, registers) {
        Ok(collector) => collector,
        Err(error) => {
            drop((row, free, boxes, machines));
            return Err(error);
        }
    };
    let layout = Layout::new(slots * config.fields as usize, slots);
    Ok(World {
        config,
        memory: Memory::of_row(row, layout, free),
        boxes,
        machines,
        collector,
        made: nodes.len() as u64,
    })
}

// The collector of a heap with these objects.
fn open_collector(
    alloc: Global,
    config: &Config,
    nodes: &[(u32, bool)],
    fields: &[Option<u16>],
    registers: &[Option<u16>],
) -> Result<Collector, NoMemory>
    requires config { IsConfig config.now }
    requires objects { AreObjects config.now (record { nodes = nodes.now; fields = fields.now; registers = registers.now }) }
    requires labels { HaveLabels nodes.now }
    ensures { IfOk result (λ collector. collector ≡ (opened_from config.now (record { nodes = nodes.now; fields = fields.now; registers = registers.now })).collector) }
{
    let counts = count_holders(alloc, nodes.len(), fields, registers)?;
    Collector::open(
        alloc,
        config.slots as u16,
        config.fields as u8,
        config.registers as u8,
        config.mutators as u8,
        config.log_entries,
        config.first_epoch,
        config.policy,
        counts.as_slice(),
        registers,
    )
}

// The shared words of a heap with these objects, in one row.
fn open_row(
    alloc: Global,
    config: &Config,
    nodes: &[(u32, bool)],
    fields: &[Option<u16>],
) -> Result<Vec<u64>, NoMemory>
    requires config { IsConfig config.now }
    requires few { length nodes.now ≤ config.now.slots }
    requires fields { length fields.now ≡ length nodes.now * config.now.fields }
    requires targets { All IsTarget fields.now }

    ensures row { IfOk result (λ words. words.items ≡ row (record {
      headers = map (λ node. header_word node.1 node.0) nodes.now ++ replicate (config.now.slots - length nodes.now) 0;
      words = early_words 0 fields.now ++ replicate ((config.now.slots - length nodes.now) * config.now.fields) 0;
      epoch = config.now.first_epoch;
      freed = 0;
      crossing = replicate config.now.mutators (crossing_word config.now.first_epoch Spare);
    })) }
    ensures labels { IfOk result (λ words. HaveLabels nodes.now) }
{
    let slots = config.slots as usize;
    let places = slots * config.fields as usize;
    let all = places + slots + 2 + config.mutators as usize;
    let mut row = Vec::with_capacity(alloc, all)?;
    add_words(&mut row, fields)?;
    row.resize(places, 0)?;
    add_headers(&mut row, nodes)?;
    row.resize(places + slots, 0)?;
    row.push(u64::from(config.first_epoch))?;
    row.push(0)?;
    row.resize(all, crossing(config.first_epoch, Mailbox::Spare))?;
    Ok(row)
}

// The words of references from before all epochs, at their places.
fn add_words(row: &mut Vec<u64>, fields: &[Option<u16>]) -> Result<(), NoMemory>
    requires few { length fields.now < 2 ^ 32 }
    requires targets { All IsTarget fields.now }
    ensures { OnOk result (row.new.items ≡ row.old.items ++ early_words 0 fields.now) }
{
    for (place, target) in fields.iter().enumerate() {
        row.push(early_word(place as u32, *target))?;
    }
    Ok(())
}

// The word of such a reference at its place.
fn early_word(place: u32, target: Option<u16>) -> u64
    requires { IsTarget target }
    ensures { result ≡ early_word_of place target }
{
    if target.is_none() {
        return 0;
    }
    let stamp = Stamp {
        writer: 0,
        epoch: place / INDICES,
        index: place % INDICES,
    };
    pack(target, stamp)
}

// The headers of objects. Each label fits.
fn add_headers(row: &mut Vec<u64>, nodes: &[(u32, bool)]) -> Result<(), NoMemory>
    ensures headers { OnOk result (row.new.items ≡ row.old.items ++ map (λ node. header_word node.1 node.0) nodes.now) }
    ensures labels { OnOk result (HaveLabels nodes.now) }
{
    for node in nodes {
        let (label, leaf) = *node;
        row.push(Header { label, leaf }.pack())?;
    }
    Ok(())
}

// How many fields and registers hold each object.
fn count_holders(
    alloc: Global,
    objects: usize,
    fields: &[Option<u16>],
    registers: &[Option<u16>],
) -> Result<Vec<u64>, NoMemory>
    requires targets { All (IsOneOf objects) fields.now }
    requires held { All (IsOneOf objects) registers.now }
    requires few { length fields.now + length registers.now < 2 ^ 64 }
    ensures many { IfOk result (λ counts. length counts.items ≡ objects) }
    ensures counts { IfOk result (λ counts. (n : ℕ) → n < objects → slice_index counts.items n ≡ count_by (is_slot n) fields.now + count_by (is_slot n) registers.now) }
{
    let mut counts = vec![in alloc; 0u64; objects]?;
    count_names(&mut counts, fields);
    count_names(&mut counts, registers);
    Ok(counts)
}

// Counts each of these names.
fn count_names(counts: &mut [u64], names: &[Option<u16>])
    requires targets { All (IsOneOf (length counts.old)) names.now }
    requires room { (n : ℕ) → n < length counts.old → slice_index counts.old n + length names.now < 2 ^ 64 }
    ensures { (n : ℕ) → n < length counts.old → slice_index counts.new n ≡ slice_index counts.old n + count_by (is_slot n) names.now }
{
    for name in names {
        count_name(counts, *name);
    }
}

// Counts a name.
fn count_name(counts: &mut [u64], name: Option<u16>)
    requires target { IsOneOf (length counts.old) name }
    requires room { IfSome name (λ n. slice_index counts.old n + 1 < 2 ^ 64) }
    ensures { (n : ℕ) → n < length counts.old → slice_index counts.new n ≡ slice_index counts.old n + (if is_slot n name then 1 else 0) }
{
    if let Some(n) = name {
        counts[usize::from(n)] += 1;
    }
}

// The mutators of a heap with these numbers, in order, each with its registers.
fn open_holders(
    alloc: Global,
    config: &Config,
    registers: &[Option<u16>],
) -> Result<Vec<Machine>, NoMemory>
    requires config { IsConfig config.now }
    requires registers { length registers.now ≡ config.now.mutators * config.now.registers }
    requires targets { All IsTarget registers.now }
    ensures { IfOk result (λ machines. machines.items ≡ holding_mutators config.now 1 (rows_of config.now.registers config.now.mutators registers.now)) }
{
    let mut machines = Vec::with_capacity(alloc, config.mutators as usize)?;
    let mut rest = registers;
    for t in 0..config.mutators as u8 {
        let (own, others) = rest.split_at(config.registers as usize);
        machines.push(open_holder(alloc, config, t + 1, own)?)?;
        rest = others;
    }
    Ok(machines)
}

// Mutator `number` of a heap with these numbers, with these registers.
fn open_holder(
    alloc: Global,
    config: &Config,
    number: u8,
    held: &[Option<u16>],
) -> Result<Machine, NoMemory>
    requires config { IsConfig config.now }
    requires number { IsMutator config.now number }
    requires registers { length held.now ≡ config.now.registers }
    requires targets { All IsTarget held.now }
    ensures { IfOk result (λ machine. machine ≡ holding_mutator config.now number held.now) }
{
    Machine::open(
        alloc,
        number,
        config.first_epoch,
        config.slots as u16,
        config.fields as u8,
        held,
        config.log_entries,
    )
}
