//! The program `class_bench`: reads a class file and writes it again, over and over, so that both can
//! be timed from outside. `class_bench FILE ROUNDS` prints that the bytes came back, or why not.
//!
//! It stands on `class_round_trip`, whose contract is that what comes back is the same bytes, and on
//! `jv_outer` for the file.
#![tactic(auto)]

use class_round_trip::{RoundTripError, written_again};
use jv_outer::{DiskFiles, Files, ReadError};
use jv_types::MOST_FILE_BYTES;
use std::alloc::Global;
use std::process::ExitCode;
use std::{env, io};

/// Reads and writes the bytes so many times.
fn rounds(alloc: Global, bytes: &[u8], count: u32) -> Result<(), RoundTripError> {
    for _ in 0..count {
        let _again = written_again(alloc, bytes)?;
    }
    Ok(())
}

/// What there is to say of so many rounds over the file of this name.
fn said(rt: &HostRuntime, name: &str, count: u32) -> io::Result<()> {
    let alloc = rt.alloc();
    let mut files = DiskFiles::new(rt);
    match files.read(alloc, name, MOST_FILE_BYTES) {
        Ok(bytes) => match rounds(alloc, bytes.as_slice(), count) {
            Ok(()) => println!(rt; "{name}: the same {} bytes", bytes.len()),
            Err(error) => println!(rt; "{name}: {error:?}"),
        },
        Err(ReadError::Failed) => println!(rt; "{name}: not read"),
        Err(ReadError::NoMemory) => println!(rt; "{name}: no memory"),
    }
}

fn main(rt: HostRuntime) -> ExitCode {
    let Ok(mut words) = env::args(&rt) else {
        return ExitCode::FAILURE;
    };
    let _program = words.next();
    let (Some(name), Some(rounds), None) = (words.next(), words.next(), words.next()) else {
        return ExitCode::FAILURE;
    };
    let Ok(rounds) = rounds.as_str().parse::<u32>() else {
        return ExitCode::FAILURE;
    };
    match said(&rt, name.as_str(), rounds) {
        Ok(()) => ExitCode::SUCCESS,
        Err(_) => ExitCode::FAILURE,
    }
}
