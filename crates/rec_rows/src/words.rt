//! The words of a line.

use crate::action::{Action, Deed, Fact, Message, Piece, Stage, Turns, Whole};
use crate::wrong::Wrong;
use rec_model::Cmd;
use rec_mutator::Work;
use rec_world::{Config, Policy};

/// What a line with these words asks. Where `words` is set, what a command saw and left is told too.
pub fn action(line: &[&str], words: bool) -> Result<Action, Wrong> {
    let [first, rest @ ..] = line else {
        return Err(Wrong::Unknown);
    };
    match first.parse::<u8>() {
        Ok(mutator) => Ok(Action::Mutator {
            mutator,
            deed: deed(rest, words)?,
        }),
        Err(_) => collecting(line, first, rest),
    }
}

// What a line asks that begins with another word than a mutator's number.
fn collecting(line: &[&str], first: &str, rest: &[&str]) -> Result<Action, Wrong> {
    match first {
        "turn" | "move" | "collect" | "finish" | "sweep" | "reach" => {
            turns(line).map(Action::Collector)
        }
        "apart" => piece(rest).map(Action::Apart),
        "says" => message(rest).map(Action::Say),
        "trace" => pieces(rest).map(Action::Trace),
        "offer" | "settle" => settling(line),
        "image" if rest.is_empty() => Ok(Action::Write),
        "reads" => Ok(Action::Read),
        "restores" => Ok(Action::Restore),
        _ => fact(line).map(Action::Show),
    }
}

/// The numbers of a heap, each preceded by its name, in their order. Two may follow: `least` has how many roots a trial waits for, and
/// `postponed` how many collections in a row postpone theirs at most. `steady` comes last.
pub fn config(words: &[&str]) -> Result<Config, Wrong> {
    let (words, steady) = kind(words);
    let (named, least_roots, most_postponed) = waiting(words)?;
    if !are_named(named) {
        return Err(Wrong::Unknown);
    }
    let [slots, fields, registers, mutators, log_entries, first_epoch] = numbers(named)?;
    Ok(Config {
        slots,
        fields,
        registers,
        mutators,
        log_entries,
        first_epoch,
        policy: Policy {
            steady,
            least_roots,
            most_postponed,
        },
    })
}

// The words that name numbers, and whether the heap is to be steady.
fn kind<'a, 'b>(words: &'a [&'b str]) -> (&'a [&'b str], bool) {
    match words {
        [named @ .., "steady"] => (named, true),
        _ => (words, false),
    }
}

// The words that name numbers, how many roots a trial waits for, and how often it is postponed: both 0 where that isn't said.
fn waiting<'a, 'b>(words: &'a [&'b str]) -> Result<(&'a [&'b str], u32, u32), Wrong> {
    match words {
        [named @ .., "least", roots, "postponed", times] => {
            Ok((named, number(roots)?, number(times)?))
        }
        _ => Ok((words, 0, 0)),
    }
}

// What the numbers of a heap are called.
const NUMBERS: [&str; 6] = ["slots", "fields", "registers", "mutators", "log", "epoch"];

// Whether these are the names of a heap's numbers, with a word behind each.
fn are_named(words: &[&str]) -> bool {
    let mut left = words;
    for name in &NUMBERS {
        match left {
            [first, _, rest @ ..] if first == name => left = rest,
            _ => return false,
        }
    }
    left.is_empty()
}

// The numbers behind their names.
fn numbers(words: &[&str]) -> Result<[u32; 6], Wrong> {
    let mut numbers = [0; 6];
    for (into, pair) in numbers.iter_mut().zip(words.chunks(2)) {
        *into = number(pair.last().unwrap_or(&""))?;
    }
    Ok(numbers)
}

fn number(word: &str) -> Result<u32, Wrong> {
    word.parse::<u32>().or(Err(Wrong::NoNumber))
}

fn short(word: &str) -> Result<u8, Wrong> {
    word.parse::<u8>().or(Err(Wrong::NoNumber))
}

fn slot(word: &str) -> Result<u16, Wrong> {
    word.parse::<u16>().or(Err(Wrong::NoNumber))
}

// What a mutator does.
fn deed(line: &[&str], words: bool) -> Result<Deed, Wrong> {
    match line {
        ["begin", rest @ ..] => work(rest).map(Deed::Begin),
        ["step"] => Ok(Deed::Step),
        ["poll"] => Ok(Deed::Poll),
        ["births", most] => number(most).map(Deed::Births),
        _ => {
            let cmd = command(line)?;
            Ok(Deed::Ask { cmd, words })
        }
    }
}

// A work that is made step by step.
fn work(line: &[&str]) -> Result<Work, Wrong> {
    match line {
        ["poll"] => Ok(Work::Poll),
        _ => command(line).map(Work::Command),
    }
}

// A command, spelled as in a script.
fn command(line: &[&str]) -> Result<Cmd, Wrong> {
    match line {
        ["leave"] => Ok(Cmd::Leave),
        [name, reg] => command_of_one(name, reg),
        [name, first, second] => command_of_two(name, first, second),
        [name, first, second, third] => command_of_three(name, first, second, third),
        _ => Err(Wrong::Unknown),
    }
}

fn command_of_one(name: &str, reg: &str) -> Result<Cmd, Wrong> {
    match name {
        "null" => Ok(Cmd::Null { reg: short(reg)? }),
        "value" => Ok(Cmd::Value { reg: short(reg)? }),
        _ => Err(Wrong::Unknown),
    }
}

fn command_of_two(name: &str, first: &str, second: &str) -> Result<Cmd, Wrong> {
    match name {
        "new" => birth(false, first, second),
        "leaf" => birth(true, first, second),
        _ => command_of_two_registers(name, short(first)?, short(second)?),
    }
}

fn birth(leaf: bool, reg: &str, label: &str) -> Result<Cmd, Wrong> {
    let (reg, label) = (short(reg)?, number(label)?);
    Ok(if leaf {
        Cmd::Leaf { reg, label }
    } else {
        Cmd::New { reg, label }
    })
}

fn command_of_two_registers(name: &str, first: u8, second: u8) -> Result<Cmd, Wrong> {
    match name {
        "copy" => Ok(Cmd::Copy {
            dst: first,
            src: second,
        }),
        "same" => Ok(Cmd::Same {
            a: first,
            b: second,
        }),
        _ => Err(Wrong::Unknown),
    }
}

fn command_of_three(name: &str, first: &str, second: &str, third: &str) -> Result<Cmd, Wrong> {
    let (first, second, third) = (short(first)?, short(second)?, short(third)?);
    match name {
        "get" => Ok(Cmd::Get {
            dst: first,
            src: second,
            field: third,
        }),
        "put" => Ok(Cmd::Put {
            src: first,
            field: second,
            val: third,
        }),
        _ => Err(Wrong::Unknown),
    }
}

// How the collector turns.
fn turns(line: &[&str]) -> Result<Turns, Wrong> {
    match line {
        ["turn"] => Ok(Turns::One),
        ["move", turns] => number(turns).map(Turns::Moves),
        ["collect"] => Ok(Turns::Collect),
        ["finish"] => Ok(Turns::Finish),
        ["sweep", word] => Ok(Turns::Sweep(u64::from(number(word)?))),
        ["reach", rest @ ..] => stage(rest).map(Turns::Reach),
        _ => Err(Wrong::Unknown),
    }
}

// A stage of a collection.
fn stage(line: &[&str]) -> Result<Stage, Wrong> {
    match line {
        ["look", mutator] => short(mutator).map(Stage::Looks),
        ["return", mutator] => short(mutator).map(Stage::Returns),
        ["sweep", slots] => number(slots).map(Stage::Sweeps),
        [name] => stage_alone(name),
        _ => Err(Wrong::Unknown),
    }
}

fn stage_alone(name: &str) -> Result<Stage, Wrong> {
    match name {
        "release" => Ok(Stage::Releases),
        "free" => Ok(Stage::Frees),
        "trial" => Ok(Stage::Tries),
        "preparation" => Ok(Stage::Prepares),
        "opening" => Ok(Stage::Opens),
        "closing" => Ok(Stage::Closes),
        _ => Err(Wrong::Unknown),
    }
}

fn settling(line: &[&str]) -> Result<Action, Wrong> {
    match line {
        ["offer"] => Ok(Action::Offer),
        ["settle"] => Ok(Action::Settle { live: false }),
        ["settle", "live"] => Ok(Action::Settle { live: true }),
        _ => Err(Wrong::Unknown),
    }
}

// How many pieces a frontier of a trace is cut into.
fn pieces(line: &[&str]) -> Result<u16, Wrong> {
    match line {
        [pieces] => pieces.parse::<u16>().or(Err(Wrong::NoNumber)),
        _ => Err(Wrong::Unknown),
    }
}

// A part of a heap that is taken apart.
fn piece(line: &[&str]) -> Result<Piece, Wrong> {
    match line {
        ["word", index] => number(index).map(Piece::Word),
        ["words"] => Ok(Piece::Words),
        ["mailboxes"] => Ok(Piece::Mailboxes),
        ["made"] => Ok(Piece::Made),
        _ => Err(Wrong::Unknown),
    }
}

fn message(line: &[&str]) -> Result<Message, Wrong> {
    match line {
        ["open", "memory"] => Ok(Message::NoMemoryToOpen),
        ["script", "bad"] => Ok(Message::NoScript),
        ["script", "memory"] => Ok(Message::NoMemoryForScript),
        ["image", "memory"] => Ok(Message::NoMemoryForImage),
        _ => Err(Wrong::Unknown),
    }
}

// What a heap shows.
fn fact(line: &[&str]) -> Result<Fact, Wrong> {
    match line {
        ["register", mutator, reg] => register(mutator, reg),
        ["valid", mutator, rest @ ..] => validity(mutator, rest),
        ["epoch", "of", mutator] => short(mutator).map(Fact::EpochOf),
        ["freed", "word"] => Ok(Fact::Whole(Whole::FreedWord)),
        [name, at] => fact_at(name, at),
        [name] => fact_alone(name),
        _ => Err(Wrong::Unknown),
    }
}

// What a register names.
fn register(mutator: &str, reg: &str) -> Result<Fact, Wrong> {
    Ok(Fact::Register(short(mutator)?, short(reg)?))
}

// Whether a mutator may ask what stands behind its number.
fn validity(mutator: &str, line: &[&str]) -> Result<Fact, Wrong> {
    Ok(Fact::Valid(short(mutator)?, command(line)?))
}

// What it shows by one word.
fn fact_alone(name: &str) -> Result<Fact, Wrong> {
    match name {
        "sets" => Ok(Fact::Sets),
        "roots" => Ok(Fact::Roots),
        "mailboxes" => Ok(Fact::Mailboxes),
        _ => whole(name).map(Fact::Whole),
    }
}

// What it shows of one slot, field or mutator.
fn fact_at(name: &str, at: &str) -> Result<Fact, Wrong> {
    match name {
        "slot" => slot(at).map(Fact::Slot),
        "label" => slot(at).map(Fact::Label),
        "leaf" => slot(at).map(Fact::Leaf),
        "colour" => slot(at).map(Fact::Colour),
        "number" => slot(at).map(Fact::Number),
        "field" => number(at).map(Fact::Field),
        "busy" => short(at).map(Fact::Busy),
        "left" => short(at).map(Fact::Left),
        _ => Err(Wrong::Unknown),
    }
}

// A number of it as a whole.
fn whole(name: &str) -> Result<Whole, Wrong> {
    match name {
        "epoch" => Ok(Whole::Epoch),
        "freed" => Ok(Whole::Freed),
        "collections" => Ok(Whole::Collections),
        "made" => Ok(Whole::Made),
        "mutators" => Ok(Whole::Mutators),
        "slots" => Ok(Whole::Slots),
        _ => Err(Wrong::Unknown),
    }
}
