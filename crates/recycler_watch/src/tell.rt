//! A run that is told: as text, as data, as a graph or as a page. `docs/WATCH.md` has the forms.
//!
//! As text it is a function of the moves that the run makes: each has its line, once, in order (`specs/Told`).

ghost use Rattle.std.specs.Prelude.{◌≡◌, ◌≢◌, ◌+◌, ◌-◌, ◌^◌, ◌<◌, ◌≤◌, ◌↔◌, ◌∷◌, ◌++◌, [], ℕ, IsTrue, List, length, max, IfOk, IfSome, IsNone, OnOk, map, option_map, string_bytes};
ghost use Rattle.std.specs.Io.KnownBytes.{Appends};
ghost use Rattle.rec_play.specs.Watched.{IsOver};
ghost use Rattle.recycler_watch.specs.Seen.{seen, seen_of};
ghost use Rattle.recycler_watch.specs.Data.{answered_words, asked_words, asker, data_line, first_line, line_seen, others};
ghost use Rattle.recycler_watch.specs.Told.{before_window, HasPassed, HasTold, IsAsked, IsMade, IsNext, IsTrace, move_text};
ghost use Rattle.recycler_watch.specs.declared.request.Request.TheVariants.{Text};

use crate::graph::write_graph;
use crate::line::move_text;
use crate::page_text::{HEAD, TAIL};
use crate::request::{Asked, Request};
use crate::state::{Collector, Lists, Mutator, Slot, State};
use crate::words::{answer_text, command_text, says};
use rec_play::{Move, Walk};
use rec_script::Script;
use rec_world::OpenError;
use serde::Serialize;
use std::alloc::{AllocError as NoMemory, Global};
use std::io::{self, Write};
use std::rt::Stderr;

// What is watched, and how. Names are in the order of their letters.
#[derive(Clone, Copy, Serialize)]
struct Head<'a> {
    fields: u32,
    mutators: u8,
    registers: u32,
    script: &'a str,
    seed: u64,
    slots: u32,
    turns: u32,
}

// A move, with the parts of the heap that it changed. The line before the first move has the whole heap.
#[derive(Drop, Serialize)]
struct Line<'a> {
    #[serde(rename = "move")]
    number: u64,
    mutator: Option<u8>,
    command: Option<String>,
    answer: Option<String>,
    says: String,
    collector: Collector,
    slots: Vec<&'a Slot>,
    mutators: Vec<&'a Mutator>,
    lists: Option<&'a Lists>,
}

// What a mutator asked, if the move was one of a mutator, and what it was told.
#[derive(Drop)]
struct Asking {
    mutator: Option<u8>,
    command: Option<String>,
    answer: Option<String>,
}

/// A run, what is asked of it, and how many moves are made. A terminal is told how far a long one has come.
#[derive(Drop)]
pub struct Teller<'a> {
    pub alloc: Global,
    pub asked: Asked<'a>,
    pub walk: Walk<'a>,
    pub moves: u64,
    pub terminal: Option<Stderr>,
}

impl<'a> Teller<'a> {
    /// The run of the script at its opening, with the seed and the most drawn turns that are asked. No move is made yet.
    pub fn open(
        alloc: Global,
        asked: Asked<'a>,
        script: &'a Script,
        terminal: Option<Stderr>,
    ) -> Result<Teller<'a>, OpenError>
        ensures walk { IfOk result (λ teller. IsAsked script.now asked.entry teller.walk) }
        ensures asked { IfOk result (λ teller. teller.asked ≡ asked.entry) }
        ensures begins { IfOk result (λ teller. teller.moves ≡ 0) }
    {
        let walk = Walk::open(alloc, script, asked.seed, asked.turns)?;
        Ok(Teller {
            alloc,
            asked,
            walk,
            moves: 0,
            terminal,
        })
    }
}

impl Teller<'_> {
    /// Makes the moves up to the end of the window, writes what is asked of them, and tells whether the run came to the window.
    pub fn tell<W: Write>(&mut self, out: &mut W) -> io::Result<bool>
        requires { self.old.moves ≡ 0 }

        ensures trace { self.old.asked.request ≡ Text → OnOk result (IsTrace self.old.walk self.old.asked.from self.old.asked.to self.new.walk (W.contents out.old) (W.contents out.new)) }
        ensures reached { self.old.asked.request ≡ Text → IfOk result (λ reached. IsTrue reached ↔ (self.old.asked.from ≤ self.new.moves)) }
    {
        self.pass();
        self.tell_window(out)?;
        out.flush()?;
        Ok(self.moves >= self.asked.from)
    }

    // Writes what is asked of the moves in the window.
    fn tell_window<W: Write>(&mut self, out: &mut W) -> io::Result<()>
        ensures asked { self.new.asked ≡ self.old.asked }
        ensures told { self.old.asked.request ≡ Text → OnOk result (HasTold self.old.walk self.old.moves self.old.asked.to self.new.walk self.new.moves (W.contents out.old) (W.contents out.new)) }
    {
        match self.asked.request {
            Request::Text | Request::Data => self.tell_moves(out, self.asked.to),
            Request::Graph => self.draw(out),
            Request::Page(_) => self.tell_page(out),
        }
    }

    // Makes the moves before the window.
    fn pass(&mut self)
        requires { self.old.moves ≡ 0 }

        ensures asked { self.new.asked ≡ self.old.asked }
        ensures passed { HasPassed self.old.walk (before_window self.old.asked) self.new.walk self.new.moves }
    {
        for _ in 0..before_window(self.asked) {
            let Some(_) = self.make_move() else { break };
        }
    }

    fn draw<W: Write>(&self, out: &mut W) -> io::Result<()> {
        let seen = State::of(self.alloc, &self.walk)?;
        write_graph(out, self.alloc, &seen)
    }

    fn tell_page<W: Write>(&mut self, out: &mut W) -> io::Result<()>
        ensures { self.new.asked ≡ self.old.asked }
    {
        out.write_all(HEAD.as_bytes())?;
        let most = self.moves.saturating_add(100_000);
        self.tell_moves(out, self.asked.to.min(most))?;
        out.write_all(TAIL.as_bytes())
    }

    // Makes the next move. A terminal is told of every ten thousandth.
    fn make_move(&mut self) -> Option<Move>
        requires { self.old.moves < 2 ^ 64 - 1 }

        ensures asked { self.new.asked ≡ self.old.asked }
        ensures made { IfSome result (λ made. IsMade self.old.walk made self.new.walk × (self.new.moves ≡ self.old.moves + 1)) }
        ensures none { IsNone result → IsOver self.new.walk.stage × (self.new.moves ≡ self.old.moves) }
    {
        let made = self.walk.make_move()?;
        self.moves += 1;
        if let Some(mut terminal) = self.terminal {
            if self.moves % 10_000 == 0 {
                let _ = write!(terminal, "\rmove {} ", self.moves);
            }
        }
        Some(made)
    }

    // Makes the moves from here on up to this one, and tells each.
    fn tell_moves<W: Write>(&mut self, out: &mut W, to: u64) -> io::Result<()>
        ensures asked { self.new.asked ≡ self.old.asked }
        ensures told { self.old.asked.request ≡ Text → OnOk result (HasTold self.old.walk self.old.moves to self.new.walk self.new.moves (W.contents out.old) (W.contents out.new)) }
    {
        let mut known = State::of(self.alloc, &self.walk)?;
        let told = self.tell_from(out, to, &mut known);
        drop(known);
        told
    }

    // Tells the moves from here on up to this one, and what stands before them.
    fn tell_from<W: Write>(&mut self, out: &mut W, to: u64, known: &mut State) -> io::Result<()>
        requires { seen known.old ≡ seen_of self.old.walk }

        ensures asked { self.new.asked ≡ self.old.asked }
        ensures told { self.old.asked.request ≡ Text → OnOk result (HasTold self.old.walk self.old.moves to self.new.walk self.new.moves (W.contents out.old) (W.contents out.new)) }
    {
        self.begin(out, known)?;
        for _ in self.moves..to.max(self.moves) {
            if !self.tell_next(out, known)? {
                break;
            }
        }
        Ok(())
    }

    // Makes the next move and tells it, if there is one. What is known of the heap before it is known again behind it.
    fn tell_next<W: Write>(&mut self, out: &mut W, known: &mut State) -> io::Result<bool>
        requires few { self.old.moves < 2 ^ 64 - 1 }
        requires seen { seen known.old ≡ seen_of self.old.walk }

        ensures asked { self.new.asked ≡ self.old.asked }
        ensures count { IfOk result (λ goes_on. IsTrue goes_on → self.new.moves ≡ self.old.moves + 1) }
        ensures seen { IfOk result (λ goes_on. IsTrue goes_on → seen known.new ≡ seen_of self.new.walk) }
        ensures told { self.old.asked.request ≡ Text → IfOk result (λ goes_on. IsNext goes_on self.old.walk self.old.moves self.new.walk self.new.moves (W.contents out.old) (W.contents out.new)) }
    {
        let Some(made) = self.make_move() else {
            return Ok(false);
        };
        let is = State::of(self.alloc, &self.walk)?;
        self.write_move(out, made, known, &is)?;
        *known = is;
        Ok(true)
    }

    // What stands before the moves: where they are data a line of what is watched, and the whole heap.
    fn begin<W: Write>(&self, out: &mut W, is: &State) -> io::Result<()>
        ensures { self.now.asked.request ≡ Text → out.new ≡ out.old }
    {
        if self.asked.request == Request::Text {
            return Ok(());
        }
        self.write_head(out)?;
        self.write_line(out, whole_line(self.alloc, self.moves, is)?)
    }

    fn write_move<W: Write>(
        &self,
        out: &mut W,
        made: Move,
        was: &State,
        is: &State,
    ) -> io::Result<()>
        ensures { self.now.asked.request ≡ Text → OnOk result (Appends (W.contents out.old) (W.contents out.new) (move_text self.now.moves made (seen was.now) (seen is.now))) }
    {
        match self.asked.request {
            Request::Text => {
                let text = move_text(self.alloc, self.moves, made, was, is)?;
                out.write_all(text.as_bytes())
            }
            _ => self.write_line(out, line_of(self.alloc, self.moves, made, was, is)?),
        }
    }

    fn write_head<W: Write>(&self, out: &mut W) -> io::Result<()> {
        let (asked, script) = (self.asked, self.walk.script());
        let head = Head {
            fields: script.fields(),
            mutators: script.mutators(),
            registers: script.registers(),
            script: asked.script,
            seed: asked.seed,
            slots: script.slots(),
            turns: asked.turns,
        };
        let text = text_of(self.alloc, &head)?;
        // A `<` in the file's name would begin a tag of a page.
        writeln!(out, "{}", text.replace(self.alloc, '<', "\\u003c")?)
    }

    fn write_line<W: Write>(&self, out: &mut W, line: Line<'_>) -> io::Result<()> {
        let text = text_of(self.alloc, &line);
        drop(line);
        writeln!(out, "{}", text?)
    }
}

// The line of a move: what was asked and answered, its words, and what it changed.
fn line_of<'l>(
    alloc: Global,
    number: u64,
    made: Move,
    was: &State,
    is: &'l State,
) -> Result<Line<'l>, NoMemory>
    ensures { IfOk result (λ line. line_seen line ≡ data_line number made (seen was.now) (seen is.now)) }
{
    let slots = others_of(alloc, &was.slots, &is.slots)?;
    let mutators = others_of(alloc, &was.mutators, &is.mutators)?;
    let says = says(alloc, made, was, is)?;
    let asking = asking_of(alloc, made)?;
    Ok(Line {
        number,
        mutator: asking.mutator,
        command: asking.command,
        answer: asking.answer,
        says,
        collector: is.collector,
        slots,
        mutators,
        lists: (was.lists != is.lists).then_some(&is.lists),
    })
}

// The line before the first move.
fn whole_line<'l>(alloc: Global, number: u64, is: &'l State) -> Result<Line<'l>, NoMemory>
    ensures { IfOk result (λ line. line_seen line ≡ first_line number (seen is.now)) }
{
    Ok(Line {
        number,
        mutator: None,
        command: None,
        answer: None,
        says: format!(in alloc; "the whole heap as it is here")?,
        collector: is.collector,
        slots: others_of(alloc, &[], &is.slots)?,
        mutators: others_of(alloc, &[], &is.mutators)?,
        lists: Some(&is.lists),
    })
}

// How many moves are made before those that are told.
fn before_window(asked: Asked<'_>) -> u64
    ensures { result ≡ before_window asked.entry }
{
    match asked.request {
        Request::Graph => asked.to,
        _ => asked.from.saturating_sub(1),
    }
}

// Data in a line. Only memory can be short: nothing here nests deep, and nothing is a float.
fn text_of<T: Serialize>(alloc: Global, data: &T) -> Result<String, NoMemory> {
    serde_json::to_string(alloc, data).map_err(|_| NoMemory)
}

// What a mutator asked with a move, and was told.
fn asking_of(alloc: Global, made: Move) -> Result<Asking, NoMemory>
    ensures { IfOk result (λ asking. (asking.mutator ≡ asker made) × (option_map string_bytes asking.command ≡ asked_words made) × (option_map string_bytes asking.answer ≡ answered_words made)) }
{
    match made {
        Move::Command { mutator, cmd, told } => Ok(Asking {
            mutator: Some(mutator),
            command: Some(command_text(alloc, cmd)?),
            answer: Some(answer_text(alloc, told.answer)?),
        }),
        Move::Step { .. } => Ok(Asking {
            mutator: None,
            command: None,
            answer: None,
        }),
    }
}

// What isn't as it was; all, where nothing was.
fn others_of<'a, T: PartialEq>(
    alloc: Global,
    was: &[T],
    is: &'a [T],
) -> Result<Vec<&'a T>, NoMemory>
    ensures { IfOk result (λ found. map (λ one. one.now) found.items ≡ others T.eq was.now is.now) }
{
    let mut found = Vec::new(alloc);
    for (index, seen) in is.iter().enumerate() {
        match was.get(index) {
            Some(known) if known == seen => {}
            _ => found.push(seen)?,
        }
    }
    Ok(found)
}
