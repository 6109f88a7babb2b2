//! Runs of the program over sources and sinks that fail, each at every place.

use crate::program::run_with;
use rec_io::{BytesSource, RoomSink, StdSink, StdSource};
use rec_run::Status;
use rec_script::Kind;
use rec_threads::OpenGate;
use std::io::{self, Error, ErrorKind, Read, Write};
use std::process::Abort;
use std::sync::Wait;
use std::test::Fail;
use std::thread::Threads;

// The worked script, and its text.
const SCRIPT: &str =
    "recycler 1\nheap 4 1 2\nmutator\nnew 1 7\nput 0 0 1\nnull 1\nget 1 0 0\nvalue 1\n";

const TEXT: &str =
    "1.1 done\n1.2 done\n1.3 done\n1.4 object\n1.5 value 7\nlive 2\n#1 label 0 count 1 fields #2\n#2 label 7 count 2 fields -\nmade 2 refused 0 freed 0\n";

const PLAY: [&str; 2] = ["recycler", "play"];

const MAKE: [&str; 4] = ["recycler", "make", "--mutators=1", "--commands=0"];

// Words with which the worked script is run, and the text that is written.
const WHOLE: [(&'static [&'static str], &str); 5] = [
    (&PLAY, TEXT),
    (&["recycler", "threads"], TEXT),
    (
        &["recycler", "play", "--turns=0", "--summary"],
        "mutators 1 commands 5\n\
         done 3 null 0 object 1 value 1 yes 0 no 0 none 0 full 0 busy 0\n\
         live 2 made 2 refused 0 freed 0\n\
         epochs 3 cycles 0 delta 0 sigma 0\n",
    ),
    (
        &["recycler", "play", "--image"],
        "recycler image 1\nheap 4 1 2 1\nobject 0 #2\nobject 7 -\nregisters #1 #2\nend\n",
    ),
    (&MAKE, "recycler 1\nheap 1024 2 8\nmutator\n"),
];

// A run: its words, the call of the source and that of the sink that fail, 0 for none, and the room in the sink.
#[derive(Clone, Copy)]
struct Case {
    words: &'static [&'static str],
    fails: [u64; 2],
    room: usize,
}

// The run comes to this status, and this is written.
fn comes_to<R: Abort + AllocGlobal + Threads + Wait + Sync>(
    rt: &R,
    case: Case,
    status: Status,
    written: Option<&[u8]>,
) -> Result<(), Fail> {
    let Case { words, fails, room } = case;
    let [read, write] = fails;
    let mut source = BytesSource::open(rt.alloc(), SCRIPT.as_bytes(), &[read])?;
    let mut sink = RoomSink::open(rt.alloc(), room, &[write])?;
    let ended = run_with(rt, words, &mut source, &mut sink, &OpenGate);
    assert_eq!(rt; ended, status, "at {words:?}, {fails:?}, {room}");
    assert_eq!(rt;
        Some(sink.bytes()),
        written,
        "at {words:?}, {fails:?}, {room}"
    );
    Ok(())
}

// Two reads give the whole script: its bytes, and the end. A made script is read from nowhere.
#[test]
fn each_read_fails(rt: HostRuntime) -> Result<(), Fail> {
    for (words, text) in WHOLE {
        for n in 1..=3 {
            let case = Case {
                words,
                fails: [n, 0],
                room: 1_000,
            };
            if n < 3 && words.get(1) != Some(&"make") {
                comes_to(&rt, case, Status::ReadFault, Some(b""))?;
            } else {
                comes_to(&rt, case, Status::Done, Some(text.as_bytes()))?;
            }
        }
    }
    Ok(())
}

// The sink takes whole lines, and one call fails: the lines before it are written. The call after the last line's isn't made.
fn fail_each_write<R: Abort + AllocGlobal + Threads + Wait + Sync>(
    rt: &R,
    words: &'static [&'static str],
    text: &str,
) -> Result<(), Fail> {
    let mut case = Case {
        words,
        fails: [0, 1],
        room: 1_000,
    };
    let mut written: usize = 0;
    for line in text.lines() {
        comes_to(rt, case, Status::WriteFault, text.as_bytes().get(..written))?;
        written = written.saturating_add(line.len()).saturating_add(1);
        case.fails[1] = case.fails[1].saturating_add(1);
    }
    comes_to(rt, case, Status::Done, Some(text.as_bytes()))
}

// The sink has room for so many bytes of the text, and these are written.
fn fill_each_room<R: Abort + AllocGlobal + Threads + Wait + Sync>(
    rt: &R,
    words: &'static [&'static str],
    text: &str,
) -> Result<(), Fail> {
    for room in 0..=text.len() {
        let case = Case {
            words,
            fails: [0, 0],
            room,
        };
        let status = if room < text.len() {
            Status::WriteFault
        } else {
            Status::Done
        };
        comes_to(rt, case, status, text.as_bytes().get(..room))?;
    }
    Ok(())
}

#[test]
fn each_write_fails(rt: HostRuntime) -> Result<(), Fail> {
    for (words, text) in WHOLE {
        fail_each_write(&rt, words, text)?;
        fill_each_room(&rt, words, text)?;
    }
    Ok(())
}

// Gives one byte at each call, and none at the end. One call fails.
#[derive(Drop)]
struct Drip<'a> {
    rest: &'a [u8],
    calls: u64,
    fails: u64,
}

impl Read for Drip<'_> {
    fn read(&mut self, buf: &mut [u8]) -> io::Result<usize> {
        self.calls = self.calls.saturating_add(1);
        if self.calls == self.fails {
            return Err(Error::from(ErrorKind::Other));
        }
        match self.rest.split_first() {
            Some((first, rest)) if !buf.is_empty() => {
                buf[0] = *first;
                self.rest = rest;
                Ok(1)
            }
            _ => Ok(0),
        }
    }
}

// The script has 73 bytes, and the read after them finds the end.
#[test]
fn each_read_of_a_byte_fails(rt: HostRuntime) -> Result<(), Fail> {
    for fails in 1..=75 {
        let mut source = StdSource::over(Drip {
            rest: SCRIPT.as_bytes(),
            calls: 0,
            fails,
        });
        let mut sink = RoomSink::open(rt.alloc(), 1_000, &[])?;
        let status = run_with(&rt, &PLAY, &mut source, &mut sink, &OpenGate);
        let (ends, text) = if fails < 75 {
            (Status::ReadFault, "")
        } else {
            (Status::Done, TEXT)
        };
        assert_eq!(rt; status, ends, "at {fails}");
        assert_eq!(rt; sink.bytes(), text.as_bytes(), "at {fails}");
    }
    Ok(())
}

// Takes whatever it is given, and loses it when it is flushed.
#[derive(Drop)]
struct Loses;

impl Write for Loses {
    fn write(&mut self, buf: &[u8]) -> io::Result<usize> {
        Ok(buf.len())
    }

    fn flush(&mut self) -> io::Result<()> {
        Err(Error::from(ErrorKind::BrokenPipe))
    }
}

#[test]
fn a_failed_flush_is_a_write_fault(rt: HostRuntime) -> Result<(), Fail> {
    let mut source = BytesSource::open(rt.alloc(), b"", &[])?;
    let mut sink = StdSink::over(Loses);
    let status = run_with(&rt, &MAKE, &mut source, &mut sink, &OpenGate);
    assert_eq!(rt; status, Status::WriteFault);
    assert_eq!(rt; sink.fault_count(), 1);
    // Any other status is told as it was, and nothing is flushed.
    let status = run_with(&rt, &PLAY, &mut source, &mut sink, &OpenGate);
    assert_eq!(rt;
        status,
        Status::BadScript {
            line: 1,
            kind: Kind::NoHeader
        }
    );
    assert_eq!(rt; sink.fault_count(), 1);
    Ok(())
}
