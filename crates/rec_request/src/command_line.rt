//! The words that the program is called with.
ghost use Rattle.std.specs.Prelude.{◌≡◌, ◌≢◌, false, ◌≤◌, ℕ, [], map, option_map, true, Err, IfOk, IsOk, IfSome, IfNone};
ghost use Rattle.clap.specs.Words.{with_subcommand as joined, app_of, fault_of, found_of, rows_of, rule_of, subcommand_of, subcommand_rows_of, with_rule};
ghost use Rattle.clap.specs.Simple.{new_shape};
ghost use Rattle.rec_request.specs.CommandLine.{app_with, flag, option, make as make_shape, play as play_shape, recycler, resume as resume_shape, run as run_shape, is_set, Says, AsksKeeping, AsksPlay, AsksMake, AsksResume, AsksBy, Asks, IsCommandLine};
ghost use Rattle.rec_request.specs.declared.request.Keeping.{Keeping as Keeps};
ghost use Rattle.rec_request.specs.declared.request.Make.{Make as Making};
ghost use Rattle.rec_request.specs.declared.request.Play.{Play as Playing};
ghost use Rattle.rec_request.specs.declared.request.Request.{Request as Asking};
ghost use Rattle.rec_request.specs.declared.request.Resume.{Resume as Resumes};

use crate::request::{How, Keeping, Kept, Make, Play, Request, Resume};
use clap::error::ErrorKind;
use clap::{Arg, ArgAction, ArgMatches, Command};
use std::alloc::{AllocError as NoMemory, Global};

/// The seed where none is given.
const SEED: u64 = 0;

/// How many turns are drawn where no number is given, and at most.
const TURNS: u64 = 1_000_000;

const MOST_TURNS: u64 = rec_model::limits::MOST_TURNS as u64;

/// How many mutators a made script has where no number is given, and at most.
const MUTATORS: u64 = 2;

const MOST_MUTATORS: u64 = rec_model::limits::MOST_SCRIPT_MUTATORS as u64;

/// How many commands each mutator of a made script has where no number is given, and at most.
const COMMANDS: u64 = 1_000;

const MOST_COMMANDS: u64 = rec_model::limits::MOST_COMMANDS as u64;

/// Why words ask for nothing.
#[derive(Clone, Copy)]
pub enum Refusal {
    /// They are no command line.
    Usage,
    /// Memory ran out.
    NoMemory,
}

/// What the words ask for. The first is the program's name.
pub fn read_words(alloc: Global, words: &[&str]) -> Result<Request, Refusal>
    ensures asked { IfOk result (λ request. Asks (map (λ word. word.now) words.now) request) }
    ensures usage { result ≡ Err Refusal.Usage → ¬ IsCommandLine (map (λ word. word.now) words.now) }
{
    let matches = matches_of(alloc, words)?;
    asked(&matches).ok_or(Refusal::Usage)
}

// What the program's command finds in the words.
fn matches_of<'a>(alloc: Global, words: &'a [&'a str]) -> Result<ArgMatches<'a>, Refusal>
    ensures taken { IfOk result (λ matches. fault_of recycler (map (λ word. word.now) words.entry.now) ≡ []) }
    ensures found { IfOk result (λ matches. subcommand_rows_of matches ≡ subcommand_of recycler (map (λ word. word.now) words.entry.now)) }
    ensures usage { result ≡ Err Refusal.Usage → fault_of recycler (map (λ word. word.now) words.entry.now) ≢ [] }
{
    let Ok(command) = command(alloc) else {
        return Err(Refusal::NoMemory);
    };
    match command.try_get_matches_from(words) {
        Ok(matches) => Ok(matches),
        Err(error) if error.kind() == ErrorKind::OutOfMemory => Err(Refusal::NoMemory),
        Err(_) => Err(Refusal::Usage),
    }
}

// The program's command.
fn command<'a>(alloc: Global) -> Result<Command<'a>, NoMemory>
    ensures { IfOk result (λ command. app_of command ≡ recycler) }
{
    let command = Command::new(alloc, "recycler")
        .disable_help_flag(true)
        .disable_help_subcommand(true)
        .disable_version_flag(true)
        .subcommand_required(true);
    let command = with_subcommands(alloc, command, play_command(alloc), "threads")?;
    let command = with_subcommands(alloc, command, make_command(alloc), "audit")?;
    with_subcommand(command, resume_command(alloc))
}

// The command with two subcommands more, one that was made and one with this name that has no options.
fn with_subcommands<'a>(
    alloc: Global,
    command: Command<'a>,
    made: Result<Command<'a>, NoMemory>,
    plain: &'a str,
) -> Result<Command<'a>, NoMemory>
    requires plain { IfOk made (λ sub. (app_of sub).top.is_plain ≡ true) }
    ensures made { IfOk result (λ whole. IsOk made.entry) }
    ensures joined { IfOk result (λ whole. IfOk made.entry (λ sub. app_of whole ≡ joined (joined (app_of command.entry) (app_of sub).top) (new_shape plain.now))) }
{
    with_subcommand(command, made)?.subcommand(Command::new(alloc, plain))
}

// The command with one subcommand more, where that one was made.
fn with_subcommand<'a>(
    command: Command<'a>,
    made: Result<Command<'a>, NoMemory>,
) -> Result<Command<'a>, NoMemory>
    requires plain { IfOk made (λ sub. (app_of sub).top.is_plain ≡ true) }
    ensures made { IfOk result (λ whole. IsOk made.entry) }
    ensures joined { IfOk result (λ whole. IfOk made.entry (λ sub. app_of whole ≡ joined (app_of command.entry) (app_of sub).top)) }
{
    command.subcommand(made?)
}

// The subcommand that plays a script.
fn play_command<'a>(alloc: Global) -> Result<Command<'a>, NoMemory>
    ensures { IfOk result (λ command. app_of command ≡ app_with play_shape) }
{
    let command = run_command(alloc, "play")?;
    let command = with_flags(alloc, command, "summary", "trace")?;
    with_flags(alloc, command, "audit", "image")
}

// A subcommand that runs commands, by a seed and with so many turns.
fn run_command<'a>(alloc: Global, name: &'a str) -> Result<Command<'a>, NoMemory>
    ensures { IfOk result (λ command. app_of command ≡ app_with (run_shape name.now)) }
{
    Command::new(alloc, name)
        .arg(option(alloc, "seed"))?
        .arg(option(alloc, "turns"))
}

// The command with two flags more.
fn with_flags<'a>(
    alloc: Global,
    command: Command<'a>,
    first: &'a str,
    second: &'a str,
) -> Result<Command<'a>, NoMemory>
    ensures { IfOk result (λ whole. app_of whole ≡ with_rule (with_rule (app_of command.entry) (flag first.now)) (flag second.now)) }
{
    command.arg(flag(alloc, first))?.arg(flag(alloc, second))
}

// An option with a value.
fn option<'a>(alloc: Global, name: &'a str) -> Arg<'a>
    ensures rule { rule_of result ≡ option name.now }
    ensures own { result.global ≡ false }
{
    Arg::new(alloc, name).long(name)
}

// A flag, which has no value.
fn flag<'a>(alloc: Global, name: &'a str) -> Arg<'a>
    ensures rule { rule_of result ≡ flag name.now }
    ensures own { result.global ≡ false }
{
    Arg::new(alloc, name).long(name).action(ArgAction::SetTrue)
}

// The subcommand that makes a script.
fn make_command<'a>(alloc: Global) -> Result<Command<'a>, NoMemory>
    ensures { IfOk result (λ command. app_of command ≡ app_with make_shape) }
{
    Command::new(alloc, "make")
        .arg(option(alloc, "seed"))?
        .arg(option(alloc, "mutators"))?
        .arg(option(alloc, "commands"))
}

// The subcommand that goes on with the heap of an image.
fn resume_command<'a>(alloc: Global) -> Result<Command<'a>, NoMemory>
    ensures { IfOk result (λ command. app_of command ≡ app_with resume_shape) }
{
    run_command(alloc, "resume")
}

// What the subcommand that was found asks for.
fn asked(matches: &ArgMatches) -> Option<Request>
    ensures some { IfSome result (AsksBy (subcommand_rows_of matches.now)) }
    ensures none { IfNone result ((request : Asking) → ¬ AsksBy (subcommand_rows_of matches.now) request) }
{
    match matches.subcommand() {
        Some(("play", options)) => match play_options(options) {
            Some(play) => Some(Request::Answer(How::Play(play))),
            None => keeping_options(options).map(Request::Keep),
        },
        Some(("threads", _)) => Some(Request::Answer(How::Threads)),
        Some(("make", options)) => make_options(options).map(Request::Make),
        Some(("audit", _)) => Some(Request::Audit),
        Some(("resume", options)) => resume_options(options).map(Request::Resume),
        _ => None,
    }
}

// What the options of `play` ask for, where their numbers are in range and they ask for the text.
fn play_options(options: &ArgMatches) -> Option<Play>
    ensures some { IfSome result (AsksPlay (rows_of (found_of options.now))) }
    ensures none { IfNone result ((play : Playing) → ¬ AsksPlay (rows_of (found_of options.now)) play) }
{
    let seed = number(options.get_str("seed"), SEED, u64::MAX)?;
    let turns = number(options.get_str("turns"), TURNS, MOST_TURNS)?;
    let summary = is_flag_set(options.get_str("summary"));
    let trace = is_flag_set(options.get_str("trace"));
    let audit = is_flag_set(options.get_str("audit"));
    let image = is_flag_set(options.get_str("image"));
    if audit || image {
        return None;
    }
    Some(Play {
        seed,
        turns: turns as u32,
        summary,
        trace,
    })
}

// What the options of `play` ask for, where their numbers are in range and they ask for a journal or an image, and for
// nothing beside it.
fn keeping_options(options: &ArgMatches) -> Option<Keeping>
    ensures some { IfSome result (AsksKeeping (rows_of (found_of options.now))) }
    ensures none { IfNone result ((asked : Keeps) → ¬ AsksKeeping (rows_of (found_of options.now)) asked) }
{
    let seed = number(options.get_str("seed"), SEED, u64::MAX)?;
    let turns = number(options.get_str("turns"), TURNS, MOST_TURNS)?;
    let summary = is_flag_set(options.get_str("summary"));
    let trace = is_flag_set(options.get_str("trace"));
    let audit = is_flag_set(options.get_str("audit"));
    let image = is_flag_set(options.get_str("image"));
    if summary || trace || audit == image {
        return None;
    }
    Some(Keeping {
        seed,
        turns: turns as u32,
        kept: if audit { Kept::Journal } else { Kept::Image },
    })
}

// What the options of `resume` ask for, where their numbers are in range.
fn resume_options(options: &ArgMatches) -> Option<Resume>
    ensures some { IfSome result (AsksResume (rows_of (found_of options.now))) }
    ensures none { IfNone result ((asked : Resumes) → ¬ AsksResume (rows_of (found_of options.now)) asked) }
{
    let seed = number(options.get_str("seed"), SEED, u64::MAX)?;
    let turns = number(options.get_str("turns"), TURNS, MOST_TURNS)?;
    Some(Resume {
        seed,
        turns: turns as u32,
    })
}

// What the options of `make` ask for, where their numbers are in range.
fn make_options(options: &ArgMatches) -> Option<Make>
    ensures some { IfSome result (AsksMake (rows_of (found_of options.now))) }
    ensures none { IfNone result ((made : Making) → ¬ AsksMake (rows_of (found_of options.now)) made) }
{
    let seed = number(options.get_str("seed"), SEED, u64::MAX)?;
    let mutators = number(options.get_str("mutators"), MUTATORS, MOST_MUTATORS)?;
    let commands = number(options.get_str("commands"), COMMANDS, MOST_COMMANDS)?;
    if mutators == 0 {
        return None;
    }
    Some(Make {
        seed,
        mutators: mutators as u8,
        commands: commands as u32,
    })
}

// Whether a flag is set, by the value that was found for it.
fn is_flag_set(text: Option<&str>) -> bool
    ensures { result ≡ is_set (option_map (λ text. text.now) text.entry) }
{
    text == Some("true")
}

// The number that an option says, or its default where it isn't given.
fn number(text: Option<&str>, default: u64, most: u64) -> Option<u64>
    requires { default ≤ most }

    ensures some { IfSome result (λ n. Says (option_map (λ text. text.now) text.entry) default most n) }
    ensures most { IfSome result (λ n. n ≤ most) }
    ensures none { IfNone result ((n : ℕ) → ¬ Says (option_map (λ text. text.now) text.entry) default most n) }
{
    let Some(text) = text else {
        return Some(default);
    };
    let number = text.parse::<u64>().ok()?;
    (number <= most).then_some(number)
}
