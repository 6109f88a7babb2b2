//! The Recycler at a terminal: its words, standard input and standard output.
//!
//! `main` gives `run` what a person called the program with. What comes of a run, and what its answer says, is the contract of `run`
//! (`rec_run`); how it ended is told by the exit status and, where it isn't done, by a line on standard error.
#![tactic(auto)]

use rec_io::{StdSink, StdSource};
use rec_run::{Status, run};
use rec_threads::OpenGate;
use std::env;
use std::io::{self, BufWriter, ErrorKind, Input};
use std::process::ExitCode;
use std::rt::Env;
use std::sync::Wait;
use std::thread::Threads;

// How many bytes go to standard output at once.
const OUTPUT_BUFFER: usize = 65_536;

// The run that the program's arguments ask for, over standard input and standard output.
fn run_arguments<R: Env + AllocGlobal + Input + Print + Threads + Wait + Sync>(rt: &R) -> Status {
    let alloc = rt.alloc();
    let arguments = match env::args(rt) {
        Ok(arguments) => arguments,
        Err(error) if error.kind() == ErrorKind::OutOfMemory => return Status::NoMemory,
        Err(_) => return Status::Usage,
    };
    let Ok(arguments): Result<Vec<String>, _> = arguments.collect(alloc) else {
        return Status::NoMemory;
    };
    let Ok(words): Result<Vec<&str>, _> = arguments.iter().map(|word| word.as_str()).collect(alloc)
    else {
        return Status::NoMemory;
    };
    let Ok(writer) = BufWriter::with_capacity(alloc, OUTPUT_BUFFER, io::writer(rt)) else {
        return Status::NoMemory;
    };
    let mut source = StdSource::over(rt.reader());
    let mut sink = StdSink::over(writer);
    run(rt, alloc, &words, &mut source, &mut sink, &OpenGate)
}

fn main(rt: HostRuntime) -> ExitCode {
    let status = run_arguments(&rt);
    if status != Status::Done {
        // Where standard error can't be written either, the exit status still tells.
        let _ = rt.eprintln(status);
    }
    ExitCode::from(status.number())
}
