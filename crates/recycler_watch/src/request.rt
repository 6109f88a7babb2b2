//! What the program's words ask for.

use clap::{Arg, ArgAction, ArgMatches, Command, value_parser};
use std::alloc::{AllocError as NoMemory, Global};

/// What is asked of a script: its moves as text or as data, its heap after the last move, or a page in a file.
#[derive(Clone, Copy, PartialEq)]
pub enum Request<'a> {
    Text,
    Data,
    Graph,
    Page(&'a str),
}

/// A request on a script: its file, or `-` for standard input, what its order is drawn from, and which moves are told.
#[derive(Clone, Copy)]
pub struct Asked<'a> {
    pub request: Request<'a>,
    pub script: &'a str,
    pub seed: u64,
    pub turns: u32,
    pub from: u64,
    pub to: u64,
}

// What stands behind a word of the program.
#[derive(Clone, Copy)]
enum Part {
    Script,
    Seed,
    Turns,
    From,
    To,
    Json,
    Output,
}

// A word of the program: what it does, what its help tells at the end, and what stands behind it.
#[derive(Clone, Copy)]
struct Word {
    name: &'static str,
    about: &'static str,
    more: &'static str,
    parts: &'static [Part],
}

const WORDS: [Word; 3] = [
    Word {
        name: "trace",
        about: "Tells each move in a line",
        more: "Example: recycler_watch trace --to 20 examples/cycle.script",
        parts: &[
            Part::Script,
            Part::Seed,
            Part::Turns,
            Part::From,
            Part::To,
            Part::Json,
        ],
    },
    Word {
        name: "graph",
        about: "Draws the heap after the moves, for `dot`",
        more: "Example: recycler_watch graph --to 16 examples/cycle.script | dot -Tsvg",
        parts: &[Part::Script, Part::Seed, Part::Turns, Part::To],
    },
    Word {
        name: "page",
        about: "Writes a page for a browser",
        more: "Example: recycler_watch page -o cycle.html examples/cycle.script\n\nA page has 100,000 moves at most; --from shows later ones.",
        parts: &[
            Part::Script,
            Part::Seed,
            Part::Turns,
            Part::From,
            Part::To,
            Part::Output,
        ],
    },
];

/// The program's command, with the help that it prints.
pub fn command<'a>(alloc: Global) -> Result<Command<'a>, NoMemory> {
    let words = subcommands(alloc)?;
    Command::new(alloc, "recycler_watch")
        .version("1")
        .about("Plays a script as `recycler play` does, and shows what happens, move by move.")
        .subcommand_required(true)
        .arg_required_else_help(true)
        .subcommands(words)
}

// What the program's words do.
fn subcommands<'a>(alloc: Global) -> Result<Vec<Command<'a>>, NoMemory> {
    let mut commands = Vec::new(alloc);
    for word in &WORDS {
        commands.push(subcommand(alloc, *word)?)?;
    }
    Ok(commands)
}

/// What the matches ask for.
pub fn what_is_asked<'a>(matches: &ArgMatches<'a>) -> Option<Asked<'a>> {
    let (word, options) = matches.subcommand()?;
    asked_of(request_of(word, options)?, options)
}

// A request on a script with its options.
fn asked_of<'a>(request: Request<'a>, options: &ArgMatches<'a>) -> Option<Asked<'a>> {
    let (from, to) = window_of(options);
    Some(Asked {
        request,
        script: options.get_str("script")?,
        seed: options.get_one("seed")?,
        turns: options.get_one("turns")?,
        from,
        to,
    })
}

// The first move that is told, and the last one.
fn window_of(options: &ArgMatches<'_>) -> (u64, u64) {
    let from = options.get_one("from").unwrap_or(0); // a graph has no begin
    (from, options.get_one("to").unwrap_or(u64::MAX))
}

// What a word asks for.
fn request_of<'a>(word: &str, options: &ArgMatches<'a>) -> Option<Request<'a>> {
    match word {
        "trace" if options.get_flag("json") => Some(Request::Data),
        "trace" => Some(Request::Text),
        "graph" => Some(Request::Graph),
        _ => options.get_str("output").map(Request::Page),
    }
}

fn subcommand<'a>(alloc: Global, word: Word) -> Result<Command<'a>, NoMemory> {
    let args = args_of(alloc, word.parts)?;
    Command::new(alloc, word.name)
        .about(word.about)
        .after_help(word.more)
        .args(args)
}

// What stands behind a word, in order.
fn args_of<'a>(alloc: Global, parts: &[Part]) -> Result<Vec<Arg<'a>>, NoMemory> {
    let mut args = Vec::new(alloc);
    for part in parts {
        args.push(arg(alloc, *part))?;
    }
    Ok(args)
}

fn arg<'a>(alloc: Global, part: Part) -> Arg<'a> {
    match part {
        Part::Script => script(alloc),
        Part::Seed => number(alloc, "seed", "Draw the order from this seed").default_value("0"),
        Part::Turns => turns(alloc),
        Part::From => number(alloc, "from", "Begin with this move").default_value("1"),
        Part::To => number(alloc, "to", "End with this move"),
        Part::Json => json(alloc),
        Part::Output => output(alloc),
    }
}

fn script<'a>(alloc: Global) -> Arg<'a> {
    Arg::new(alloc, "script")
        .value_name("SCRIPT")
        .help("The script's file, or - for standard input")
        .required(true)
}

fn turns<'a>(alloc: Global) -> Arg<'a> {
    number(alloc, "turns", "Draw so many turns at most, up to 10000000")
        .value_parser(value_parser!(u32).range(0..=10_000_000))
        .default_value("1000000")
}

fn json<'a>(alloc: Global) -> Arg<'a> {
    Arg::new(alloc, "json")
        .long("json")
        .help("Tell the moves as data, a line of JSON a move")
        .action(ArgAction::SetTrue)
}

fn output<'a>(alloc: Global) -> Arg<'a> {
    Arg::new(alloc, "output")
        .short('o')
        .long("output")
        .value_name("FILE")
        .help("Write the page into this file")
        .required(true)
}

fn number<'a>(alloc: Global, name: &'a str, help: &'a str) -> Arg<'a> {
    Arg::new(alloc, name)
        .long(name)
        .value_name("N")
        .help(help)
        .value_parser(value_parser!(u64))
}
