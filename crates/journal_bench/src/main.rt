//! The program `journal_bench`: reads a journal and writes it again so many times, so that both can be
//! timed from outside. `journal_bench FILE WRITES` prints how many entries the journal has, or its bad
//! line, and where it is written again, whether the bytes came back.
//!
//! It stands on `run_text`, whose contracts say what is read and what is written, and on `jv_outer`
//! for the file.
#![tactic(auto)]

use jv_outer::{DiskFiles, Files, ReadError};
use jv_types::{Entry, List, NoMemory};
use run_text::{JournalRead, journal_text, read_journal};
use std::alloc::Global;
use std::process::ExitCode;
use std::{env, io};

/// The most bytes that a journal has.
const MOST_JOURNAL_BYTES: u64 = 268_435_456;

/// Writes the entries so many times, and tells whether these bytes came each time.
fn is_written(
    alloc: Global,
    entries: &List<Entry>,
    text: &[u8],
    writes: u32,
) -> Result<bool, NoMemory> {
    let mut is_same = true;
    for _ in 0..writes {
        is_same = is_same && journal_text(alloc, entries)?.as_slice() == text;
    }
    Ok(is_same)
}

/// What there is to say of the journal that this text spells.
fn said_of(rt: &HostRuntime, name: &str, text: &[u8], writes: u32) -> io::Result<()> {
    let alloc = rt.alloc();
    let Ok(JournalRead { entries, bad }) = read_journal(alloc, text) else {
        return println!(rt; "{name}: no memory");
    };
    if let Some(line) = bad {
        return println!(rt; "{name}: bad line {line}");
    }
    println!(rt; "{name}: {} entries", entries.len())?;
    if writes == 0 {
        return Ok(());
    }
    match is_written(alloc, &entries, text, writes) {
        Ok(true) => println!(rt; "{name}: the same {} bytes", text.len()),
        Ok(false) => println!(rt; "{name}: other bytes"),
        Err(NoMemory) => println!(rt; "{name}: no memory"),
    }
}

/// What there is to say of the file of this name.
fn said(rt: &HostRuntime, name: &str, writes: u32) -> io::Result<()> {
    let mut files = DiskFiles::new(rt);
    match files.read(rt.alloc(), name, MOST_JOURNAL_BYTES) {
        Ok(text) => said_of(rt, name, text.as_slice(), writes),
        Err(ReadError::Failed) => println!(rt; "{name}: not read"),
        Err(ReadError::NoMemory) => println!(rt; "{name}: no memory"),
    }
}

fn main(rt: HostRuntime) -> ExitCode {
    let Ok(mut words) = env::args(&rt) else {
        return ExitCode::FAILURE;
    };
    let _program = words.next();
    let (Some(name), Some(writes), None) = (words.next(), words.next(), words.next()) else {
        return ExitCode::FAILURE;
    };
    let Ok(writes) = writes.as_str().parse::<u32>() else {
        return ExitCode::FAILURE;
    };
    match said(&rt, name.as_str(), writes) {
        Ok(()) => ExitCode::SUCCESS,
        Err(_) => ExitCode::FAILURE,
    }
}
