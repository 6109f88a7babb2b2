//! A heap goes on from its image: the commands of the mutators behind it are carried out.
ghost use Rattle.std.specs.Prelude.{◌≡◌, ℕ, ◌+◌, ◌<◌, ◌≤◌, ◌==◌, Err, IfOk, false, true, length, slice_index};
ghost use Rattle.rec_collector.specs.Private.{plain};
ghost use Rattle.rec_model.specs.declared.limits.TheConstants.{MOST_BYTES, MOST_TURNS};
ghost use Rattle.rec_image.specs.Image.{StopsAt, feeds};
ghost use Rattle.rec_image.specs.Restored.{config_of as config_in};
ghost use Rattle.rec_play.specs.Played.{config_of, log_room};
ghost use Rattle.rec_play.specs.Start.{MayBegin, Start};
ghost use Rattle.rec_script.specs.Behind.{IsRefusedBehind, SpellsMutators, with_all};
ghost use Rattle.rec_script.specs.Lines.{lines};
ghost use Rattle.rec_script.specs.Script.{ScriptContents};
ghost use Rattle.rec_script.specs.declared.error.Kind.{Kind as Kinds};
ghost use Rattle.rec_script.specs.declared.error.Kind.TheVariants.{BadImage};
ghost use Rattle.rec_script.specs.declared.error.ScriptError.TheVariants.{Bad};
ghost use Rattle.rec_run.specs.Outcome.{IsOutcome};
ghost use Rattle.rec_run.specs.Resuming.{AreImage, CutsAt, IsRestoredFor, IsResumedAs, IsUnresumed, numbers_of};
ghost use Rattle.rec_request.specs.declared.request.How.TheVariants as hows;

use crate::auditing::Auditor;
use crate::outcome::Outcome;
use crate::playing::play_on;
use rec_image::{Image, ImageError, read, restore};
use rec_model::limits::MOST_BYTES;
use rec_play::{config_for, journals_for, order_for};
use rec_request::Play;
use rec_script::{Kind, Script, ScriptError, read_after};
use rec_world::{OpenError, Policy, World};
use std::alloc::{AllocError as NoMemory, Global};

// How many bytes stand before the first LF, or all where there is none.
fn line_length(bytes: &[u8]) -> usize
    ensures within { result ≤ length bytes.now }
    ensures before { (k : ℕ) → k < result → (slice_index bytes.now k == 10) ≡ false }
    ensures behind { result < length bytes.now → (slice_index bytes.now result == 10) ≡ true }
{
    bytes
        .iter()
        .position(|byte| *byte == b'\n')
        .unwrap_or(bytes.len())
}

// How many of the bytes are the image: those up to the first line `end`, with its LF; where there is none, all.
fn image_length(bytes: &[u8]) -> usize
    ensures cut { CutsAt bytes.now result }
    ensures within { result ≤ length bytes.now }
{
    let mut at = 0;
    while at < bytes.len() {
        let rest = bytes.split_at(at).1;
        if rest.strip_prefix(b"end\n").is_some() {
            return at + 4;
        }
        at += line_length(rest) + 1;
    }
    bytes.len()
}

// How many lines end in the bytes.
fn count_lines(bytes: &[u8]) -> u32
    requires { length bytes.now ≤ MOST_BYTES }
    ensures { result ≡ feeds bytes.now }
{
    let is_feed = |byte: &&u8| **byte == b'\n';
    bytes.iter().filter(is_feed).count() as u32
}

// The image whose text the bytes are.
fn read_image(alloc: Global, bytes: &[u8]) -> Result<Image, ScriptError>
    ensures found { IfOk result (AreImage bytes.now) }
    ensures refused { (line : ℕ) (kind : Kinds) → result ≡ Err (Bad line kind) → StopsAt bytes.now line × (kind ≡ BadImage) }
{
    match read(alloc, bytes) {
        Ok(image) => Ok(image),
        Err(ImageError::Bad { line }) => Err(ScriptError::Bad {
            line,
            kind: Kind::BadImage,
        }),
        Err(ImageError::NoMemory) => Err(ScriptError::NoMemory),
    }
}

/// The image in the bytes, and the script of the mutators behind it.
pub fn read_resumed(alloc: Global, bytes: &[u8]) -> Result<(Image, Script), ScriptError>
    ensures found { IfOk result (λ read. IsResumedAs bytes.now read.0 read.1) }
    ensures refused { (line : ℕ) (kind : Kinds) → result ≡ Err (Bad line kind) → IsUnresumed bytes.now line kind }
{
    if bytes.len() > MOST_BYTES {
        return Err(ScriptError::Bad {
            line: 0,
            kind: Kind::TooLong,
        });
    }
    let (front, behind) = bytes.split_at(image_length(bytes));
    let image = match read_image(alloc, front) {
        Ok(image) => image,
        Err(error) => return Err(error),
    };
    match read_behind(alloc, &image, behind, count_lines(front)) {
        Ok(script) => Ok((image, script)),
        Err(error) => Err(error),
    }
}

// The script of the mutators behind an image, whose last line this is.
fn read_behind(alloc: Global, image: &Image, bytes: &[u8], line: u32) -> Result<Script, ScriptError>
    requires line { line ≤ MOST_BYTES }
    requires few { length bytes.now ≤ MOST_BYTES }
    ensures found { IfOk result (λ script. (given : ScriptContents) × SpellsMutators (numbers_of image.now) (lines bytes.now) given × (script ≡ with_all (numbers_of image.now) given)) }
    ensures refused { (number : ℕ) (kind : Kinds) → result ≡ Err (Bad number kind) → IsRefusedBehind (numbers_of image.now) bytes.now line number kind }
{
    read_after(
        alloc,
        bytes,
        image.slots(),
        image.fields(),
        image.registers(),
        image.mutators(),
        line,
    )
}

/// Carries out a script's commands on the heap of an image, in the order that the playing rule draws.
pub fn resume_script(
    alloc: Global,
    script: &Script,
    image: &Image,
    how: Play,
) -> Result<Outcome, NoMemory>
    requires turns { how.turns ≤ MOST_TURNS }
    requires numbers { config_in image.now (log_room script.now) plain ≡ config_of script.now }
    ensures outcome { IfOk result (λ outcome. (start : Start) × IsRestoredFor image.now script.now start × IsOutcome script.now start (hows.Play how) outcome) }

    // Each turn requests one epoch more at most.
    ensures epochs { IfOk result (λ outcome. outcome.world.epoch ≤ MOST_TURNS + 1) }
{
    let journals = journals_for(alloc, script)?;
    let order = order_for(alloc, script)?;
    let world = restore_world(alloc, script, image)?;
    let mut unaudited = Auditor::without_audit();
    play_on(script, how, world, journals, order, &mut unaudited)
}

// The heap of an image, with logs that have room for a script's commands.
fn restore_world(alloc: Global, script: &Script, image: &Image) -> Result<World, NoMemory>
    requires numbers { config_in image.now (log_room script.now) plain ≡ config_of script.now }
    ensures begins { IfOk result (MayBegin script.now) }
    ensures start { IfOk result (λ world. (start : Start) × (start.world ≡ world) × IsRestoredFor image.now script.now start) }
    ensures first { IfOk result (λ world. world.epoch ≡ 1) }
{
    let plain = Policy {
        steady: false,
        least_roots: 0,
        most_postponed: 0,
    };
    match restore(alloc, image, config_for(script).log_entries, plain) {
        Ok(world) => Ok(world),
        Err(OpenError::NoMemory) => Err(NoMemory),
        // An image's numbers and a script's are those of a heap.
        Err(OpenError::Config { .. }) => unreachable!(),
    }
}
