//! The top call: from words, and the bytes of a script or a journal, to the bytes of an answer.
ghost use Rattle.std.specs.Prelude.{◌≡◌, ◌≢◌, ◌⊎◌, ℕ, ◌≤◌, false, List, map, IfOk};
ghost use Rattle.std.specs.List.{flat_map};
ghost use Rattle.rec_io.specs.Source.{Passes};
ghost use Rattle.rec_io.specs.Told.{KeepsTold};
ghost use Rattle.rec_script.specs.Script.{IsRefused};
ghost use Rattle.rec_script.specs.declared.error.Kind.{Kind};
ghost use Rattle.rec_request.specs.CommandLine.{Asks, AsksToMake, IsCommandLine, IsInRange, ReadsSource};
ghost use Rattle.rec_run.specs.Ends.{Ends, HasCause, MustEnd, passage};
ghost use Rattle.rec_run.specs.Headline.{AnswersTo, WroteAnswer, WroteFront};
ghost use Rattle.rec_run.specs.Running.{on_threads};
ghost use Rattle.rec_run.specs.Status.{may_write};
ghost use Rattle.rec_request.specs.declared.request.How.TheVariants as hows;
ghost use Rattle.rec_request.specs.declared.request.Request.{Request as Asked};

use crate::alone::carry_out_alone;
use crate::answer::answer_driven;
use crate::finish::finish;
use crate::status::Status;
use crate::writing::write_lines;
use rec_io::{Flush, ReadStop, Sink, Source, read_all};
use rec_model::limits::MOST_BYTES;
use rec_report::Text;
use rec_request::{How, Refusal, Request, read_words};
use rec_script::{ScriptError, read};
use rec_threads::Gate;
use std::alloc::Global;
use std::sync::Wait;
use std::thread::Threads;

/// Does what a command line asks, and tells how it ended. Everything is computed before the first byte is written.
pub fn run<R: Threads + Wait + Sync, S: Source, K: Flush, G: Gate>(
    rt: &R,
    alloc: Global,
    words: &[&str],
    source: &mut S,
    sink: &mut K,
    gate: &G,
) -> Status
    // The headline: the script was read to its end, and its whole answer to what the words ask was written.
    ensures done { result ≡ Status.Done → (request : Asked) × Asks (map (λ word. word.now) words.now) request
        × WroteAnswer request (S.rest source.old) (S.rest source.new) (K.written sink.old) (K.written sink.new) }

    // Nothing of it stayed behind: the sink passed on all that was written.
    ensures passed { result ≡ Status.Done → KeepsTold (K.written sink.new) (K.passed_on sink.new) }

    // When each other status comes. Words that are no command line give Usage, or memory ran out.
    ensures cause { HasCause (map (λ word. word.now) words.now) result (passage S.rest S.faults source.old source.new) (passage K.written K.faults sink.old sink.new) }
    ensures words { ¬ IsCommandLine (map (λ word. word.now) words.now) → (result ≡ Status.Usage) ⊎ (result ≡ Status.NoMemory) }

    // A fault ends the run: with every other status no read or no write failed.
    ensures reads { result ≢ Status.ReadFault → S.faults source.new ≡ S.faults source.old }
    ensures writes { result ≢ Status.WriteFault → K.faults sink.new ≡ K.faults sink.old }

    // What is left of the source stood there behind the bytes that were read, whatever the status.
    ensures left { (bytes : List ℕ) × Passes (S.rest source.old) (S.rest source.new) bytes }

    // What each leaves: a front of the answer, or nothing written, or nothing read either.
    ensures front { result ≡ Status.WriteFault → (request : Asked) × Asks (map (λ word. word.now) words.now) request
        × WroteFront request (S.rest source.old) (S.rest source.new) (K.written sink.old) (K.written sink.new) }
    ensures unwritten { may_write result ≡ false → sink.new ≡ sink.old }
    ensures unread { result ≡ Status.Usage → source.new ≡ source.old }
    ensures made_unread { AsksToMake (map (λ word. word.now) words.now) → source.new ≡ source.old }

    // When it must end in Done, or refuse what it read, unless memory runs out.
    ensures must { MustEnd (map (λ word. word.now) words.now) result (passage S.rest S.faults source.old source.new) (passage K.written K.faults sink.old sink.new) }
{
    match read_words(alloc, words) {
        Ok(request) => {
            let status = carry_out(rt, alloc, request, source, sink, gate);
            finish(status, sink)
        }
        Err(Refusal::Usage) => Status::Usage,
        Err(Refusal::NoMemory) => Status::NoMemory,
    }
}

// Does what a request asks.
fn carry_out<R: Threads + Wait + Sync, S: Source, K: Sink, G: Gate>(
    rt: &R,
    alloc: Global,
    request: Request,
    source: &mut S,
    sink: &mut K,
    gate: &G,
) -> Status
    requires { IsInRange request }
    ensures ends { Ends request result (passage S.rest S.faults source.old source.new) (passage K.written K.faults sink.old sink.new) }
    ensures unwritten { may_write result ≡ false → sink.new ≡ sink.old }
    ensures unread { ¬ ReadsSource request → source.new ≡ source.old }
    ensures reads { result ≢ Status.ReadFault → S.faults source.new ≡ S.faults source.old }
    ensures writes { result ≢ Status.WriteFault → K.faults sink.new ≡ K.faults sink.old }
    ensures left { (bytes : List ℕ) × Passes (S.rest source.old) (S.rest source.new) bytes }
    ensures never_falls { K.faults sink.old ≤ K.faults sink.new }
{
    if on_threads(&request) {
        drive_source(rt, alloc, source, sink, gate)
    } else {
        carry_out_alone(rt, alloc, request, source, sink)
    }
}

// Whether a request is carried out by threads that wait for one another.
fn on_threads(request: &Request) -> bool
    ensures { result ≡ on_threads request.now }
{
    matches!(request, Request::Answer(How::Threads))
}

// Reads a script to its end, has threads carry out its commands, and writes its answer.
fn drive_source<R: Threads + Wait + Sync, S: Source, K: Sink, G: Gate>(
    rt: &R,
    alloc: Global,
    source: &mut S,
    sink: &mut K,
    gate: &G,
) -> Status
    ensures ends { Ends (Request.Answer hows.Threads) result (passage S.rest S.faults source.old source.new) (passage K.written K.faults sink.old sink.new) }
    ensures unwritten { may_write result ≡ false → sink.new ≡ sink.old }
    ensures reads { result ≢ Status.ReadFault → S.faults source.new ≡ S.faults source.old }
    ensures writes { result ≢ Status.WriteFault → K.faults sink.new ≡ K.faults sink.old }
    ensures left { (bytes : List ℕ) × Passes (S.rest source.old) (S.rest source.new) bytes }
    ensures never_falls { K.faults sink.old ≤ K.faults sink.new }
{
    let bytes = match read_all(alloc, source, MOST_BYTES) {
        Ok(bytes) => bytes,
        Err(ReadStop::Fault) => return Status::ReadFault,
        Err(ReadStop::NoMemory) => return Status::NoMemory,
    };
    let text = match answer_on_threads(rt, alloc, bytes, gate) {
        Ok(text) => text,
        Err(ScriptError::Bad { line, kind }) => return Status::BadScript { line, kind },
        Err(ScriptError::NoMemory) => return Status::NoMemory,
    };
    match write_lines(sink, &text) {
        Ok(()) => Status::Done,
        Err(_) => Status::WriteFault,
    }
}

// The answer of the script in the bytes, whose commands threads carry out.
fn answer_on_threads<R: Threads + Wait + Sync, G: Gate>(
    rt: &R,
    alloc: Global,
    bytes: Vec<u8>,
    gate: &G,
) -> Result<Text, ScriptError>
    ensures answer { IfOk result (λ text. AnswersTo bytes.items hows.Threads (flat_map (λ line. line) text)) }
    ensures refused { (line : ℕ) (kind : Kind) → result ≡ Err (ScriptError.Bad line kind) → IsRefused bytes.items line kind }
{
    let script = read(alloc, &bytes)?;
    // The bytes are needed no more: their room is given back before the journals take theirs.
    drop(bytes);
    answer_driven(rt, alloc, &script, gate).map_err(|_| ScriptError::NoMemory)
}
