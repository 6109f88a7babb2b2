//! Rows of what happens on a heap and of what is told then, read from files and carried out.
//!
//! A row is data: `README.md` says how it is spelled. Where a call requires something it is asked at run time, so that any row may
//! be carried out, and a row costs no proof. The values in the rows come from outside: from the profile, reckoned by hand.
//! No clause says that a row is carried out rightly. What is promised is that the program is safe and ends.
#![tactic(auto)]

mod action;
mod fact;
mod failure;
mod imaging;
mod mutating;
mod playing;
mod reading;
mod running;
mod settled;
mod told;
mod traced;
mod turning;
mod words;
mod wrong;

use anyhow::Context;
use playing::play;
use reading::{Row, rows};
use std::alloc::Global;
use std::process::ExitCode;
use std::rt::{Env, Files};
use std::thread::Threads;
use std::{env, fs};

fn main(rt: HostRuntime) -> anyhow::Result<ExitCode> {
    let alloc = rt.alloc();
    let words: Vec<String> = env::args(&rt)?.collect(alloc)?;
    let status = carry_out_files(&rt, alloc, &words);
    drop(words);
    Ok(ExitCode::from(status?))
}

// Carries out the rows of the files behind the program's name, and tells how that went at worst.
fn carry_out_files<R: Files + AllocGlobal + Print + Eprint + Threads + Sync>(
    rt: &R,
    alloc: Global,
    words: &[String],
) -> anyhow::Result<u8> {
    if words.len() < 2 {
        eprintln!(rt; "usage: rec_rows FILE..")?;
        return Ok(2);
    }
    let mut status = 0;
    for file in words.iter().skip(1) {
        status = carry_out(rt, alloc, file.as_str())?.max(status);
    }
    Ok(status)
}

// Carries out the rows of a file. The answer is 0 where each is as it should be, 1 where one isn't, and 2 where there are none.
fn carry_out<R: Files + AllocGlobal + Print + Eprint + Threads + Sync>(
    rt: &R,
    alloc: Global,
    file: &str,
) -> anyhow::Result<u8> {
    let text = fs::read_to_string(rt, file).context(file)?;
    let status = carry_out_text(rt, alloc, file, text.as_str());
    drop(text);
    status
}

// The same, of a file's text.
fn carry_out_text<R: Print + Eprint + Threads + Sync>(
    rt: &R,
    alloc: Global,
    file: &str,
    text: &str,
) -> anyhow::Result<u8> {
    match rows(alloc, text) {
        Ok(rows) => {
            let failed = failures(rt, alloc, file, &rows);
            let count = rows.len();
            drop(rows);
            tell(rt, file, count, failed?)
        }
        Err(bad) => {
            eprintln!(rt; "{file}:{bad}")?;
            Ok(2)
        }
    }
}

// Tells how many rows a file has, and how many of them failed.
fn tell<R: Print>(rt: &R, file: &str, count: usize, failed: u32) -> anyhow::Result<u8> {
    if failed == 0 {
        println!(rt; "{file}: {count} rows, all as they should be")?;
        Ok(0)
    } else {
        println!(rt; "{file}: {count} rows, {failed} not as they should be")?;
        Ok(1)
    }
}

// How many rows aren't as they should be. Each is told.
fn failures<R: Print + Threads + Sync>(
    rt: &R,
    alloc: Global,
    file: &str,
    rows: &[Row<'_>],
) -> anyhow::Result<u32> {
    let mut failed = 0u32;
    for row in rows {
        if let Err(failure) = play(rt, alloc, row) {
            println!(rt; "{file}:{failure}")?;
            failed = failed.saturating_add(1);
        }
    }
    Ok(failed)
}
