//! The adapters over a reader and a writer, which fail.

use rec_io::{Flush, FlushFault, Given, Sink, Source, StdSink, StdSource, Taken};
use std::alloc::{AllocError, Global};
use std::io::{self, Error, ErrorKind, Read, Write};
use std::process::Abort;
use std::test::Fail;

// What reads by three bytes answer, through the bound, and all that they gave.
#[derive(Drop)]
struct Reads {
    answers: Vec<Given>,
    bytes: Vec<u8>,
}

fn read_by_threes<S: Source>(
    alloc: Global,
    source: &mut S,
    times: u8,
) -> Result<Reads, AllocError> {
    let mut answers = Vec::new(alloc);
    let mut bytes = Vec::new(alloc);
    for _ in 0..times {
        let mut into = [0; 3];
        let answer = source.read(&mut into);
        if let Given::Bytes(count) = answer {
            bytes.extend_from_slice(&into[..count])?;
        }
        answers.push(answer)?;
    }
    Ok(Reads { answers, bytes })
}

fn write_each<S: Sink>(
    alloc: Global,
    sink: &mut S,
    pieces: &[&[u8]],
) -> Result<Vec<Taken>, AllocError> {
    let mut answers = Vec::new(alloc);
    for piece in pieces {
        answers.push(sink.write(piece))?;
    }
    Ok(answers)
}

// Gives one byte at the first and third read, fails at the second, and ends there.
#[derive(Drop)]
struct FlakyReader {
    reads: u8,
}

impl Read for FlakyReader {
    fn read(&mut self, buf: &mut [u8]) -> io::Result<usize> {
        self.reads = self.reads.saturating_add(1);
        match self.reads {
            2 => Err(Error::from(ErrorKind::Interrupted)),
            1 | 3 if !buf.is_empty() => {
                buf[0] = b'a';
                Ok(1)
            }
            _ => Ok(0),
        }
    }
}

#[test]
fn a_reader_that_fails_is_counted(rt: HostRuntime) -> Result<(), Fail> {
    let mut source = StdSource::over(FlakyReader { reads: 0 });
    let reads = read_by_threes(rt.alloc(), &mut source, 4)?;
    let want = [Given::Bytes(1), Given::Failed, Given::Bytes(1), Given::End];
    assert_eq!(rt; reads.answers.as_slice(), want.as_slice());
    assert_eq!(rt; reads.bytes.as_slice(), b"aa".as_slice());
    assert_eq!(rt; source.fault_count(), 1);
    Ok(())
}

// Takes one byte at the first write, none at the second, and fails at the third and at each flush.
#[derive(Drop)]
struct FlakyWriter {
    writes: u8,
}

impl Write for FlakyWriter {
    fn write(&mut self, buf: &[u8]) -> io::Result<usize> {
        self.writes = self.writes.saturating_add(1);
        match self.writes {
            1 => Ok(buf.len().min(1)),
            2 => Ok(0),
            _ => Err(Error::from(ErrorKind::BrokenPipe)),
        }
    }

    fn flush(&mut self) -> io::Result<()> {
        Err(Error::from(ErrorKind::BrokenPipe))
    }
}

#[test]
fn a_writer_that_fails_is_counted(rt: HostRuntime) -> Result<(), Fail> {
    let mut sink = StdSink::over(FlakyWriter { writes: 0 });
    let pieces = [b"".as_slice(), b"ab", b"b", b"b"];
    let answers = write_each(rt.alloc(), &mut sink, &pieces)?;
    let want = [
        Taken::Bytes(0),
        Taken::Bytes(1),
        Taken::Failed,
        Taken::Failed,
    ];
    assert_eq!(rt; answers.as_slice(), want.as_slice());
    assert_eq!(rt; sink.fault_count(), 2);
    assert_eq!(rt; sink.flush(), Err(FlushFault));
    assert_eq!(rt; sink.fault_count(), 3);
    Ok(())
}

#[test]
fn a_writer_that_takes_all_has_no_faults(rt: HostRuntime) -> Result<(), Fail> {
    let alloc = rt.alloc();
    let mut written: Vec<u8> = Vec::new(alloc);
    let mut sink = StdSink::over(&mut written);
    let answers = write_each(alloc, &mut sink, &[b"ab".as_slice(), b"c"])?;
    assert_eq!(rt;
        answers.as_slice(),
        [Taken::Bytes(2), Taken::Bytes(1)].as_slice()
    );
    assert_eq!(rt; sink.flush(), Ok(()));
    assert_eq!(rt; sink.fault_count(), 0);
    drop(sink);
    assert_eq!(rt; written.as_slice(), b"abc".as_slice());
    Ok(())
}
