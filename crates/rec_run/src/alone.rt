//! What a request asks, where nobody is waited for: all but the commands of a script on threads.
ghost use Rattle.std.specs.Prelude.{◌≡◌, ◌≢◌, ℕ, ◌≤◌, false, List, Option, string_bytes, IfOk};
ghost use Rattle.std.specs.List.{flat_map};
ghost use Rattle.rec_collector.specs.Private.{plain};
ghost use Rattle.rec_model.specs.declared.limits.TheConstants.{MOST_COMMANDS, MOST_SCRIPT_MUTATORS, MOST_TURNS};
ghost use Rattle.rec_io.specs.Source.{Passes};
ghost use Rattle.rec_image.specs.Restored.{config_of as config_in};
ghost use Rattle.rec_play.specs.Played.{config_of, log_room};
ghost use Rattle.rec_play.specs.Start.{Start};
ghost use Rattle.rec_script.specs.Script.{IsRefused};
ghost use Rattle.rec_script.specs.declared.error.Kind.{Kind};
ghost use Rattle.rec_request.specs.CommandLine.{IsInRange, ReadsSource};
ghost use Rattle.rec_run.specs.Ends.{Ends, passage, untouched};
ghost use Rattle.rec_run.specs.Headline.{Answers, AnswersTo, ResumesTo, SaysVerdict, TellsOf};
ghost use Rattle.rec_run.specs.Resuming.{IsRestoredFor, IsUnresumed};
ghost use Rattle.rec_run.specs.Running.{on_threads};
ghost use Rattle.rec_run.specs.Status.{may_write};
ghost use Rattle.rec_request.specs.declared.request.How.TheVariants as hows;

use crate::answer::{answer_outcome, answer_played};
use crate::keeping::keep_script;
use crate::resuming::{read_resumed, resume_script};
use crate::status::Status;
use crate::writing::write_lines;
use rec_audit::check;
use rec_image::Image;
use rec_io::{ReadStop, Sink, Source, read_all, write_text};
use rec_model::limits::MOST_BYTES;
use rec_report::Text;
use rec_request::{How, Keeping, Make, Play, Request, Resume};
use rec_script::{Script, ScriptError, read};
use std::alloc::{AllocError as NoMemory, Global};
use std::thread::Threads;

/// Does what a request asks, unless it is `threads`, and tells how it ended. It waits for nobody, so it returns: a trace's threads are
/// joined, and each of them ends.
pub fn carry_out_alone<R: Threads + Sync, S: Source, K: Sink>(
    rt: &R,
    alloc: Global,
    request: Request,
    source: &mut S,
    sink: &mut K,
) -> Status
    requires range { IsInRange request }
    requires alone { on_threads request ≡ false }
    ensures ends { Ends request result (passage S.rest S.faults source.old source.new) (passage K.written K.faults sink.old sink.new) }
    ensures unwritten { may_write result ≡ false → sink.new ≡ sink.old }
    ensures unread { ¬ ReadsSource request → source.new ≡ source.old }
    ensures reads { result ≢ Status.ReadFault → S.faults source.new ≡ S.faults source.old }
    ensures writes { result ≢ Status.WriteFault → K.faults sink.new ≡ K.faults sink.old }
    ensures left { (bytes : List ℕ) × Passes (S.rest source.old) (S.rest source.new) bytes }
    ensures never_falls { K.faults sink.old ≤ K.faults sink.new }
{
    match request {
        Request::Answer(how) => match how {
            How::Play(play) => play_source(rt, alloc, play, source, sink),
            How::Threads => unreachable!(),
        },
        Request::Keep(asked) => keep_source(alloc, asked, source, sink),
        Request::Resume(asked) => resume_source(rt, alloc, asked, source, sink),
        Request::Make(make) => write_made(alloc, make, sink),
        Request::Audit => audit_source(alloc, source, sink),
    }
}

// Reads a script to its end, plays it, and writes its answer.
fn play_source<R: Threads + Sync, S: Source, K: Sink>(
    rt: &R,
    alloc: Global,
    how: Play,
    source: &mut S,
    sink: &mut K,
) -> Status
    requires { how.turns ≤ MOST_TURNS }
    ensures ends { Ends (Request.Answer (hows.Play how)) result (passage S.rest S.faults source.old source.new) (passage K.written K.faults sink.old sink.new) }
    ensures unwritten { may_write result ≡ false → sink.new ≡ sink.old }
    ensures reads { result ≢ Status.ReadFault → S.faults source.new ≡ S.faults source.old }
    ensures writes { result ≢ Status.WriteFault → K.faults sink.new ≡ K.faults sink.old }
    ensures left { (bytes : List ℕ) × Passes (S.rest source.old) (S.rest source.new) bytes }
    ensures never_falls { K.faults sink.old ≤ K.faults sink.new }
{
    let bytes = match read_all(alloc, source, MOST_BYTES) {
        Ok(bytes) => bytes,
        Err(ReadStop::Fault) => return Status::ReadFault,
        Err(ReadStop::NoMemory) => return Status::NoMemory,
    };
    let text = match play(rt, alloc, how, bytes) {
        Ok(text) => text,
        Err(ScriptError::Bad { line, kind }) => return Status::BadScript { line, kind },
        Err(ScriptError::NoMemory) => return Status::NoMemory,
    };
    match write_lines(sink, &text) {
        Ok(()) => Status::Done,
        Err(_) => Status::WriteFault,
    }
}

// The answer of the script in the bytes, which is played.
fn play<R: Threads + Sync>(
    rt: &R,
    alloc: Global,
    how: Play,
    bytes: Vec<u8>,
) -> Result<Text, ScriptError>
    requires { how.turns ≤ MOST_TURNS }
    ensures answer { IfOk result (λ text. AnswersTo bytes.items (hows.Play how) (flat_map (λ line. line) text)) }
    ensures refused { (line : ℕ) (kind : Kind) → result ≡ Err (ScriptError.Bad line kind) → IsRefused bytes.items line kind }
{
    let script = read(alloc, &bytes)?;
    // The bytes are needed no more: their room is given back before the journals take theirs.
    drop(bytes);
    answer_played(rt, alloc, &script, how).map_err(|_| ScriptError::NoMemory)
}

// Reads a script to its end, plays it, and writes what is to be kept of it.
fn keep_source<S: Source, K: Sink>(
    alloc: Global,
    asked: Keeping,
    source: &mut S,
    sink: &mut K,
) -> Status
    requires { asked.turns ≤ MOST_TURNS }
    ensures ends { Ends (Request.Keep asked) result (passage S.rest S.faults source.old source.new) (passage K.written K.faults sink.old sink.new) }
    ensures unwritten { may_write result ≡ false → sink.new ≡ sink.old }
    ensures reads { result ≢ Status.ReadFault → S.faults source.new ≡ S.faults source.old }
    ensures writes { result ≢ Status.WriteFault → K.faults sink.new ≡ K.faults sink.old }
    ensures left { (bytes : List ℕ) × Passes (S.rest source.old) (S.rest source.new) bytes }
    ensures never_falls { K.faults sink.old ≤ K.faults sink.new }
{
    let bytes = match read_all(alloc, source, MOST_BYTES) {
        Ok(bytes) => bytes,
        Err(ReadStop::Fault) => return Status::ReadFault,
        Err(ReadStop::NoMemory) => return Status::NoMemory,
    };
    let kept = match keep(alloc, asked, bytes) {
        Ok(kept) => kept,
        Err(ScriptError::Bad { line, kind }) => return Status::BadScript { line, kind },
        Err(ScriptError::NoMemory) => return Status::NoMemory,
    };
    match write_text(sink, &kept) {
        Ok(()) => Status::Done,
        Err(_) => Status::WriteFault,
    }
}

// What is to be kept of the script in the bytes.
fn keep(alloc: Global, asked: Keeping, bytes: Vec<u8>) -> Result<Vec<u8>, ScriptError>
    requires { asked.turns ≤ MOST_TURNS }
    ensures told { IfOk result (λ kept. TellsOf bytes.items asked kept.items) }
    ensures refused { (line : ℕ) (kind : Kind) → result ≡ Err (ScriptError.Bad line kind) → IsRefused bytes.items line kind }
{
    let played = read(alloc, &bytes)?;
    // The bytes are needed no more: their room is given back before what is kept takes its own.
    drop(bytes);
    keep_script(alloc, &played, asked).map_err(|_| ScriptError::NoMemory)
}

// Reads an image and the mutators behind it to the end, goes on from there, and writes the answer.
fn resume_source<R: Threads + Sync, S: Source, K: Sink>(
    rt: &R,
    alloc: Global,
    asked: Resume,
    source: &mut S,
    sink: &mut K,
) -> Status
    requires { asked.turns ≤ MOST_TURNS }
    ensures ends { Ends (Request.Resume asked) result (passage S.rest S.faults source.old source.new) (passage K.written K.faults sink.old sink.new) }
    ensures unwritten { may_write result ≡ false → sink.new ≡ sink.old }
    ensures reads { result ≢ Status.ReadFault → S.faults source.new ≡ S.faults source.old }
    ensures writes { result ≢ Status.WriteFault → K.faults sink.new ≡ K.faults sink.old }
    ensures left { (bytes : List ℕ) × Passes (S.rest source.old) (S.rest source.new) bytes }
    ensures never_falls { K.faults sink.old ≤ K.faults sink.new }
{
    let bytes = match read_all(alloc, source, MOST_BYTES) {
        Ok(bytes) => bytes,
        Err(ReadStop::Fault) => return Status::ReadFault,
        Err(ReadStop::NoMemory) => return Status::NoMemory,
    };
    let text = match resume(rt, alloc, asked, bytes) {
        Ok(text) => text,
        Err(ScriptError::Bad { line, kind }) => return Status::BadScript { line, kind },
        Err(ScriptError::NoMemory) => return Status::NoMemory,
    };
    match write_lines(sink, &text) {
        Ok(()) => Status::Done,
        Err(_) => Status::WriteFault,
    }
}

// The answer of the image in the bytes, and of the mutators behind it.
fn resume<R: Threads + Sync>(
    rt: &R,
    alloc: Global,
    asked: Resume,
    bytes: Vec<u8>,
) -> Result<Text, ScriptError>
    requires { asked.turns ≤ MOST_TURNS }
    ensures answer { IfOk result (λ text. ResumesTo bytes.items asked (flat_map (λ line. line) text)) }
    ensures refused { (line : ℕ) (kind : Kind) → result ≡ Err (ScriptError.Bad line kind) → IsUnresumed bytes.items line kind }
{
    let (image, script) = match read_resumed(alloc, &bytes) {
        Ok(read) => read,
        Err(error) => return Err(error),
    };
    // The bytes are needed no more: their room is given back before the heap takes its own.
    drop(bytes);
    let how = Play {
        seed: asked.seed,
        turns: asked.turns,
        summary: false,
        trace: false,
    };
    let answered = answer_resumed(rt, alloc, &image, &script, how);
    drop((image, script));
    match answered {
        Ok(text) => Ok(text),
        Err(_) => Err(ScriptError::NoMemory),
    }
}

// The answer of a script that goes on from an image with its numbers.
fn answer_resumed<R: Threads + Sync>(
    rt: &R,
    alloc: Global,
    image: &Image,
    script: &Script,
    how: Play,
) -> Result<Text, NoMemory>
    requires turns { how.turns ≤ MOST_TURNS }
    requires numbers { config_in image.now (log_room script.now) plain ≡ config_of script.now }
    ensures { IfOk result (λ text. (start : Start) × IsRestoredFor image.now script.now start × Answers script.now start (hows.Play how) (flat_map (λ line. line) text)) }
{
    let mut outcome = resume_script(alloc, script, image, how)?;
    let answered = answer_outcome(rt, alloc, script, How::Play(how), &mut outcome);
    drop(outcome);
    answered
}

// Reads a journal to its end, or past its limit, and writes what is to be said of it.
fn audit_source<S: Source, K: Sink>(alloc: Global, source: &mut S, sink: &mut K) -> Status
    ensures ends { Ends Request.Audit result (passage S.rest S.faults source.old source.new) (passage K.written K.faults sink.old sink.new) }
    ensures unwritten { may_write result ≡ false → sink.new ≡ sink.old }
    ensures reads { result ≢ Status.ReadFault → S.faults source.new ≡ S.faults source.old }
    ensures writes { result ≢ Status.WriteFault → K.faults sink.new ≡ K.faults sink.old }
    ensures left { (bytes : List ℕ) × Passes (S.rest source.old) (S.rest source.new) bytes }
    ensures never_falls { K.faults sink.old ≤ K.faults sink.new }
{
    let bytes = match read_all(alloc, source, MOST_BYTES) {
        Ok(bytes) => bytes,
        Err(ReadStop::Fault) => return Status::ReadFault,
        Err(ReadStop::NoMemory) => return Status::NoMemory,
    };
    let Ok(text) = verdict_text(alloc, &bytes) else {
        return Status::NoMemory;
    };
    match write_text(sink, text.as_bytes()) {
        Ok(()) => Status::Done,
        Err(_) => Status::WriteFault,
    }
}

// What is to be said of a journal, as a line.
fn verdict_text(alloc: Global, bytes: &[u8]) -> Result<String, NoMemory>
    ensures { IfOk result (λ text. SaysVerdict bytes.now (string_bytes text)) }
{
    let verdict = check(alloc, bytes)?;
    let text = format!(in alloc; "{verdict}\n")?;
    Ok(text)
}

// Writes a made script. Whatever source there is, nothing is read from it.
fn write_made<K: Sink>(alloc: Global, make: Make, sink: &mut K) -> Status
    requires mutators { (1 ≤ make.mutators) × (make.mutators ≤ MOST_SCRIPT_MUTATORS) }
    requires commands { make.commands ≤ MOST_COMMANDS }
    ensures ends { (rest : Option (List ℕ)) (faults : ℕ) → Ends (Request.Make make) result (untouched rest faults) (passage K.written K.faults sink.old sink.new) }
    ensures unwritten { may_write result ≡ false → sink.new ≡ sink.old }
    ensures writes { result ≢ Status.WriteFault → K.faults sink.new ≡ K.faults sink.old }
    ensures never_falls { K.faults sink.old ≤ K.faults sink.new }
{
    let Ok(text) = rec_script::make(alloc, make.seed, make.mutators, make.commands) else {
        return Status::NoMemory;
    };
    match write_text(sink, &text) {
        Ok(()) => Status::Done,
        Err(_) => Status::WriteFault,
    }
}
