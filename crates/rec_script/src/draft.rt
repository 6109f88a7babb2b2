//! What the lines so far have spelled, while a text is read.

ghost use Rattle.std.specs.Prelude.{◌≡◌, ◌≢◌, ◌↔◌, ◌<◌, ◌≤◌, ℕ, List, [], ◌∷◌, ◌++◌, Err, Ok, IfErr, IfNone, IfOk, IfSome, IsTrue, length};
ghost use Rattle.std.specs.Str.{IsUtf8};
ghost use Rattle.rec_script.specs.Lines.{lines, words, counted};
ghost use Rattle.rec_script.specs.Script.{Fits, IsFault, IsNeed, IsScript, mutator_line, spelled};
ghost use Rattle.rec_script.specs.Behind.{BeginsMutator, mutators_in};
ghost use Rattle.rec_script.specs.Drafts.{so_far, IsDraft, IsTaken, IsWrongFirst};
ghost use Rattle.rec_script.specs.declared.error.Kind.{Kind};
ghost use Rattle.rec_script.specs.declared.error.ScriptError.TheVariants.{Bad};

use crate::command::command;
use crate::error::{Kind, ScriptError};
use crate::heap::{Heap, read_heap};
use crate::line::{next_line, next_word};
use crate::operand::{is_name, no_word};
use crate::script::Script;
use crate::spaced::spaced_command;
use crate::version::{most_mutators, read_version};
use rec_model::limits::MOST_COMMANDS;
use std::alloc::{AllocError, Global};
use std::str::from_utf8;

/// What the lines so far have spelled.
#[derive(Drop)]
pub enum Draft {
    Nothing,
    Header(u32),
    Sized(u32, Heap),
    Whole(Script),
}

/// The line is the one above a mutator's commands.
fn is_mutator(word: &[u8], rest: &[u8]) -> bool
    ensures { IsTrue result ↔ (word.now ∷ words rest.now ≡ mutator_line) }
{
    is_name(word, b"mutator") && no_word(rest)
}

/// The bytes are UTF-8.
fn is_utf8(bytes: &[u8]) -> bool
    ensures { IsTrue result ↔ IsUtf8 bytes.now }
{
    match from_utf8(bytes) {
        Ok(_) => true,
        Err(_) => false,
    }
}

/// The first line of the bytes is the one above a mutator's commands.
pub(crate) fn begins_mutator(bytes: &[u8]) -> bool
    requires { 0 < length bytes.now }
    ensures { IsTrue result ↔ BeginsMutator (lines bytes.now) }
{
    let (line, _) = next_line(bytes);
    match next_word(line) {
        Some((word, rest)) => is_mutator(word, rest),
        None => false,
    }
}

/// A line that is wrong.
fn bad(number: u32, kind: Kind) -> ScriptError
    ensures { result ≡ Bad number kind }
{
    ScriptError::Bad { line: number, kind }
}

/// Adds the command at the front of the bytes, where it is spaced and its mutator takes one more; gives what is behind its line.
#[inline(always)]
fn add_spaced<'b>(script: &mut Script, bytes: &'b [u8]) -> Result<Option<&'b [u8]>, AllocError>
    ensures taken { IfOk result (λ found. IfSome found (λ rest.
        IsTaken bytes.now rest.now (spelled script.old) (spelled script.new))) }
    ensures left { IfOk result (λ found. IfNone found (script.new ≡ script.old)) }
    ensures valid { IsScript script.new }
{
    let Some((cmd, rest)) = spaced_command(
        script.version(),
        script.registers(),
        script.fields(),
        bytes,
    ) else {
        return Ok(None);
    };
    if script.has_left() || script.last() == MOST_COMMANDS {
        return Ok(None);
    }
    script.add(cmd)?;
    Ok(Some(rest))
}

/// A script with one line more that counts, of this first word and what is behind it.
fn add_to_script(
    script: &mut Script,
    alloc: Global,
    number: u32,
    word: &[u8],
    rest: &[u8],
) -> Result<(), ScriptError>
    ensures more { IfOk result (λ x. spelled script.new
        ≡ spelled script.old ++ (word.now ∷ words rest.now) ∷ []) }
    ensures valid { IsScript script.new }
    ensures refused { (line : ℕ) (kind : Kind) → result ≡ Err (Bad line kind)
        → (line ≡ number) × Fits (spelled script.old) (word.now ∷ words rest.now) kind }
{
    if is_mutator(word, rest) {
        if script.mutators() == most_mutators(script.version()) {
            return Err(bad(number, Kind::TooManyMutators));
        }
        return script.add_mutator(alloc).map_err(|_| ScriptError::NoMemory);
    }
    if script.has_left() {
        return Err(bad(number, Kind::BadCommand));
    }
    let cmd = match command(
        script.version(),
        script.registers(),
        script.fields(),
        script.last(),
        word,
        rest,
    ) {
        Ok(cmd) => cmd,
        Err(kind) => return Err(bad(number, kind)),
    };
    script.add(cmd).map_err(|_| ScriptError::NoMemory)
}

impl Draft {
    /// How many mutators it has so far.
    pub(crate) fn mutators(&self) -> u8
        ensures { result ≡ mutators_in self.now }
    {
        match self {
            Draft::Whole(script) => script.mutators(),
            _ => 0,
        }
    }

    /// Takes a line that counts, of this first word and what is behind it.
    fn add(
        &mut self,
        alloc: Global,
        number: u32,
        word: &[u8],
        rest: &[u8],
    ) -> Result<(), ScriptError>
        requires { IsDraft self.old }
        ensures more { IfOk result (λ x. so_far self.new
            ≡ so_far self.old ++ (word.now ∷ words rest.now) ∷ []) }
        ensures valid { IfOk result (λ x. IsDraft self.new) }
        ensures refused { (line : ℕ) (kind : Kind) → result ≡ Err (Bad line kind)
            → (line ≡ number) × Fits (so_far self.old) (word.now ∷ words rest.now) kind }
    {
        match self {
            Draft::Nothing => {
                let Some(version) = read_version(word, rest) else {
                    return Err(bad(number, Kind::NoHeader));
                };
                *self = Draft::Header(version);
                Ok(())
            }
            Draft::Header(version) => {
                let Some(heap) = read_heap(word, rest) else {
                    return Err(bad(number, Kind::BadHeap));
                };
                *self = Draft::Sized(*version, heap);
                Ok(())
            }
            Draft::Sized(version, heap) => {
                if !is_mutator(word, rest) {
                    return Err(bad(number, Kind::NoMutator));
                }
                let script = Script::open(alloc, *version, *heap);
                *self = Draft::Whole(script);
                Ok(())
            }
            Draft::Whole(script) => add_to_script(script, alloc, number, word, rest),
        }
    }

    /// Takes a line.
    fn take(&mut self, alloc: Global, number: u32, line: &[u8]) -> Result<(), ScriptError>
        requires { IsDraft self.old }
        ensures more { IfOk result (λ x. so_far self.new
            ≡ so_far self.old ++ counted (line.now ∷ [])) }
        ensures valid { IfOk result (λ x. IsDraft self.new) }
        ensures utf8 { IfOk result (λ x. IsUtf8 line.now) }
        ensures refused { (at : ℕ) (kind : Kind) → result ≡ Err (Bad at kind)
            → (at ≡ number) × IsFault (so_far self.old) line.now kind }
    {
        let Some((word, rest)) = next_word(line) else {
            return Ok(());
        };
        if word[0] == b'#' {
            if is_utf8(line) {
                return Ok(());
            }
            return Err(bad(number, Kind::NotUtf8));
        }
        // The words of a line that goes on are of ASCII, so only another one is looked through.
        match self.add(alloc, number, word, rest) {
            Ok(()) => Ok(()),
            Err(error) => {
                if is_utf8(line) {
                    Err(error)
                } else {
                    Err(bad(number, Kind::NotUtf8))
                }
            }
        }
    }

    /// Takes the first line of the bytes by its words, and gives what is behind it.
    #[inline(never)]
    pub fn take_words<'b>(
        &mut self,
        alloc: Global,
        number: u32,
        bytes: &'b [u8],
    ) -> Result<&'b [u8], ScriptError>
        requires draft { IsDraft self.old }
        requires some { 0 < length bytes.now }
        ensures taken { IfOk result (λ rest. IsTaken bytes.now rest.now (so_far self.old) (so_far self.new)) }
        ensures valid { IfOk result (λ rest. IsDraft self.new) }
        ensures refused { (at : ℕ) (kind : Kind) → result ≡ Err (Bad at kind)
            → (at ≡ number) × IsWrongFirst (lines bytes.now) (so_far self.old) kind }
    {
        let (line, rest) = next_line(bytes);
        match self.take(alloc, number, line) {
            Ok(()) => Ok(rest),
            Err(error) => Err(error),
        }
    }

    /// Takes the first line of the bytes where it is a spaced command, and gives what is behind it.
    #[inline(always)]
    pub fn take_spaced<'b>(&mut self, bytes: &'b [u8]) -> Result<Option<&'b [u8]>, AllocError>
        requires { IsDraft self.old }
        ensures taken { IfOk result (λ found. IfSome found (λ rest.
            IsTaken bytes.now rest.now (so_far self.old) (so_far self.new))) }
        ensures left { IfOk result (λ found. IfNone found (self.new ≡ self.old)) }
        ensures valid { IsDraft self.new }
    {
        match self {
            Draft::Whole(script) => add_spaced(script, bytes),
            _ => Ok(None),
        }
    }

    /// The script, where the lines so far spell one; else the need that stands open.
    pub fn close(self) -> Result<Script, Kind>
        requires { IsDraft self }
        ensures whole { IfOk result (λ script. IsScript script × (so_far self ≡ spelled script)) }
        ensures open { IfErr result (λ kind. IsNeed (so_far self) kind) }
    {
        match self {
            Draft::Nothing => Err(Kind::NoHeader),
            Draft::Header(_) => Err(Kind::BadHeap),
            Draft::Sized(_, _) => Err(Kind::NoMutator),
            Draft::Whole(script) => Ok(script),
        }
    }
}
