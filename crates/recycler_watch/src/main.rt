//! See the collector work: a script is played as `recycler play` does, and what happens is shown, move by move.
//! The run is that of `rec_play`, which proves it to be the one that `play` and `settle` make, and `Teller::open` opens it as it is
//! asked.
//! What `trace` writes of it is a function of its moves (`Teller::tell`). Of data, graphs and pages no more is promised than that they
//! are written safely, and that the program ends.
#![tactic(auto)]

mod graph;
mod line;
mod page_text;
mod refusal;
mod request;
mod state;
mod tell;
mod words;

ghost use Rattle.std.specs.Prelude.{◌≡◌};

use anyhow::Context;
use clap::ArgMatches;
use rec_model::limits::MOST_BYTES;
use rec_script::{Kind, Script, ScriptError, read};
use refusal::refusal;
use request::{Asked, Request, command, what_is_asked};
use std::alloc::Global;
use std::io::{self, BufWriter, ErrorKind, Input, IsTerminal, Read, Write};
use std::process::ExitCode;
use std::rt::{Env, Files, Stderr};
use std::{env, fs};
use tell::Teller;

fn main(rt: HostRuntime) -> anyhow::Result<ExitCode> {
    let alloc = rt.alloc();
    let words: Vec<String> = env::args(&rt)?.collect(alloc)?;
    let terminal = free_terminal(&rt, &words);
    let done = run(&rt, alloc, &words, terminal);
    drop(words);
    status_of(&rt, done)
}

// What the program ends with. What went wrong is told on standard error.
fn status_of<R: Eprint>(rt: &R, done: anyhow::Result<u8>) -> anyhow::Result<ExitCode> {
    match done {
        Ok(status) => Ok(ExitCode::from(status)),
        Err(error) => {
            eprintln!(rt; "recycler_watch: {error:#}")?;
            Ok(ExitCode::FAILURE)
        }
    }
}

// The terminal that may be told how far a run has come. Such a note would stand among what is told on the same terminal.
fn free_terminal(rt: &HostRuntime, words: &[String]) -> Option<Stderr> {
    let is_page = words.get(1).is_some_and(|word| word.as_str() == "page");
    let is_free = is_page || !rt.stdout().is_terminal();
    (is_free && rt.stderr().is_terminal()).then_some(rt.stderr())
}

// Does what the words ask. What they ask wrongly is told on standard error.
fn run<R: Files + AllocGlobal + Input + Print + Eprint>(
    rt: &R,
    alloc: Global,
    words: &[String],
    terminal: Option<Stderr>,
) -> anyhow::Result<u8> {
    match command(alloc)?.try_get_matches_from(words) {
        Ok(matches) => {
            let status = answer(rt, alloc, &matches, terminal);
            drop(matches);
            status
        }
        Err(error) => {
            let status = refuse_words(rt, &error);
            drop(error);
            status
        }
    }
}

// Tells what is wrong with the words, or the help for which they ask.
fn refuse_words<R: Print + Eprint>(rt: &R, error: &clap::Error) -> anyhow::Result<u8> {
    error.print(rt)?;
    Ok(u8::try_from(error.exit_code())?)
}

// Does what was matched.
fn answer<R: Files + AllocGlobal + Input + Print + Eprint>(
    rt: &R,
    alloc: Global,
    matches: &ArgMatches<'_>,
    terminal: Option<Stderr>,
) -> anyhow::Result<u8> {
    let asked = what_is_asked(matches).context("no such word")?;
    if asked.from > asked.to {
        return refuse_window(rt);
    }
    tell_file(rt, alloc, asked, terminal)
}

// Says that the window has no move.
fn refuse_window<R: Print + Eprint>(rt: &R) -> anyhow::Result<u8> {
    eprintln!(rt; "recycler_watch: --from is past --to, so there is no move to tell")?;
    Ok(2) // as for other words that ask for nothing
}

// Tells the run of the script in a file.
fn tell_file<R: Files + AllocGlobal + Input + Print + Eprint>(
    rt: &R,
    alloc: Global,
    asked: Asked<'_>,
    terminal: Option<Stderr>,
) -> anyhow::Result<u8> {
    let bytes = read_bytes(rt, alloc, asked.script).context(asked.script)?;
    tell_bytes(rt, alloc, asked, &bytes, terminal)
}

// Tells the run of a script, or why the bytes are none.
fn tell_bytes<R: Files + Print + Eprint>(
    rt: &R,
    alloc: Global,
    asked: Asked<'_>,
    bytes: &[u8],
    terminal: Option<Stderr>,
) -> anyhow::Result<u8> {
    match read(alloc, bytes) {
        Ok(script) => tell_script(rt, alloc, asked, &script, terminal),
        Err(ScriptError::Bad { line, kind }) => {
            tell_refusal(rt, alloc, asked.script, bytes, line, kind)
        }
        Err(error) => Err(error.into()),
    }
}

// Tells why the bytes of a file are no script.
fn tell_refusal<R: Print + Eprint>(
    rt: &R,
    alloc: Global,
    file: &str,
    bytes: &[u8],
    line: u32,
    kind: Kind,
) -> anyhow::Result<u8> {
    rt.eprintln(&refusal(alloc, file, bytes, line, kind)?)?;
    Ok(3) // as `recycler` has it
}

// Tells the run of a script. The run ends by name, so that its heap's end is one step here.
fn tell_script<R: Files + Print + Eprint>(
    rt: &R,
    alloc: Global,
    asked: Asked<'_>,
    script: &Script,
    terminal: Option<Stderr>,
) -> anyhow::Result<u8> {
    let mut teller = Teller::open(alloc, asked, script, terminal)?;
    let status = watch(rt, &mut teller);
    drop(teller);
    status
}

// Tells a run, and says how many moves it has where it ends before the window.
fn watch<R: Files + Print + Eprint>(rt: &R, teller: &mut Teller<'_>) -> anyhow::Result<u8>
    requires { teller.old.moves ≡ 0 }
{
    let told = write_out(rt, teller);
    if let Some(mut terminal) = teller.terminal {
        let _ = terminal.write_all(b"\r\x1b[K"); // the note goes before anything else is said
    }
    if !told? {
        let moves = teller.moves;
        eprintln!(rt; "recycler_watch: the run has {moves} moves, and --from is past them")?;
    }
    Ok(0)
}

// Tells a run: a page to its file, everything else to standard output. The answer is whether the run came to the window.
fn write_out<R: Files + Print>(rt: &R, teller: &mut Teller<'_>) -> anyhow::Result<bool>
    requires { teller.old.moves ≡ 0 }
{
    match teller.asked.request {
        Request::Page(output) => write_page(rt, teller, output),
        _ => print(rt, teller),
    }
}

// Tells a run to the file of a page.
fn write_page<R: Files>(rt: &R, teller: &mut Teller<'_>, output: &str) -> anyhow::Result<bool>
    requires { teller.old.moves ≡ 0 }
{
    let file = fs::create(rt, output).context(output)?;
    let mut out = BufWriter::new(teller.alloc, file)?;
    teller.tell(&mut out).context(output)
}

// Tells a run to standard output.
fn print<R: Print>(rt: &R, teller: &mut Teller<'_>) -> anyhow::Result<bool>
    requires { teller.old.moves ≡ 0 }
{
    let mut out = BufWriter::new(teller.alloc, io::writer(rt))?;
    let told = teller.tell(&mut out);
    drop(out);
    match told {
        // Whoever stops to read has seen enough.
        Err(error) if error.kind() == ErrorKind::BrokenPipe => Ok(true),
        done => done.context("standard output"),
    }
}

// The bytes of a file, or of standard input where the file is `-`.
fn read_bytes<R: Files + Input>(rt: &R, alloc: Global, file: &str) -> io::Result<Vec<u8>> {
    if file == "-" {
        return read_input(alloc, rt.reader());
    }
    read_input(alloc, fs::open(rt, file)?)
}

// What is longer than a script may be is cut.
fn read_input<I: Read + Drop>(alloc: Global, input: I) -> io::Result<Vec<u8>> {
    let mut bytes = Vec::new(alloc);
    input.take(MOST_BYTES as u64 + 1).read_to_end(&mut bytes)?;
    Ok(bytes)
}
