//! The program `code_bench`: reads a class file and loads it, over and over, so that both can be
//! timed from outside, or lists its instructions, so that they can be compared with what others say
//! of them.
//!
//! `code_bench FILE READS LOADS` reads the class, then reads it `READS` times more, and then loads it
//! `LOADS` times. `code_bench FILE` loads it once, and prints a line for each method that has code,
//! and behind it one for each instruction, with its pc and its mnemonic.
//!
//! It stands on `class_reader` and `code_reader`, whose contracts say what is read and loaded, and on
//! `jv_outer` for the file.
#![tactic(auto)]

mod mnemonic;

use class_reader::{ClassError, read_class};
use code_reader::{CodeError, load_class};
use jv_outer::{DiskFiles, Files, ReadError};
use jv_types::{ClassData, CodeBody, Loaded, MOST_FILE_BYTES};
use mnemonic::{Mnemonic, mnemonic_of};
use std::alloc::Global;
use std::process::ExitCode;
use std::{env, io};

/// Why a class isn't loaded.
#[derive(Debug, Drop)]
enum LoadError {
    Class(ClassError),
    /// What is wrong with the code of the method with that index.
    Code(u32, CodeError),
}

/// How often a class is read and loaded.
#[derive(Clone, Copy)]
struct Rounds {
    reads: u32,
    loads: u32,
}

/// The class that the bytes spell.
fn read(alloc: Global, bytes: &[u8]) -> Result<ClassData, LoadError> {
    match read_class(alloc, bytes) {
        Ok(file) => Ok(file),
        Err(error) => Err(LoadError::Class(error)),
    }
}

/// The class with its code.
fn load(alloc: Global, file: ClassData) -> Result<Loaded, LoadError> {
    match load_class(alloc, file) {
        Ok(class) => Ok(class),
        Err((method, error)) => Err(LoadError::Code(method, error)),
    }
}

/// Reads the class so many times.
fn read_again(alloc: Global, bytes: &[u8], reads: u32) -> Result<(), LoadError> {
    for _ in 0..reads {
        let _file = read(alloc, bytes)?;
    }
    Ok(())
}

/// Loads the class so many times, each time what the last time gave back.
fn load_again(alloc: Global, file: ClassData, loads: u32) -> Result<(), LoadError> {
    let mut file = file;
    for _ in 0..loads {
        file = load(alloc, file)?.file;
    }
    Ok(())
}

/// Reads the class once more than so many times, and loads it.
fn rounds_over(alloc: Global, bytes: &[u8], rounds: Rounds) -> Result<(), LoadError> {
    let file = read(alloc, bytes)?;
    read_again(alloc, bytes, rounds.reads)?;
    load_again(alloc, file, rounds.loads)
}

/// Prints the pc and the mnemonic of each instruction.
fn list_code(rt: &HostRuntime, body: &CodeBody) -> io::Result<()> {
    for insn in body.instructions.as_slice() {
        let Mnemonic(front, stem, end) = mnemonic_of(insn);
        println!(rt; "{} {front}{stem}{end}", insn.pc)?;
    }
    Ok(())
}

/// Prints the code of each method that has some, below the method's index.
fn list(rt: &HostRuntime, class: &Loaded) -> io::Result<()> {
    for method in 0..class.codes.len() {
        if let Some(body) = class.codes.get(method) {
            println!(rt; "method {method}")?;
            list_code(rt, body)?;
        }
    }
    Ok(())
}

/// The class that the bytes spell, with its code.
fn loaded(alloc: Global, bytes: &[u8]) -> Result<Loaded, LoadError> {
    let file = read(alloc, bytes)?;
    load(alloc, file)
}

/// What there is to say of the class that the bytes spell.
fn said_of(rt: &HostRuntime, name: &str, bytes: &[u8], rounds: Option<Rounds>) -> io::Result<()> {
    let outcome = match rounds {
        Some(rounds) => rounds_over(rt.alloc(), bytes, rounds).map(|()| None),
        None => loaded(rt.alloc(), bytes).map(Some),
    };
    match outcome {
        Ok(Some(class)) => list(rt, &class),
        Ok(None) => println!(rt; "{name}: loaded"),
        Err(error) => println!(rt; "{name}: {error:?}"),
    }
}

/// What there is to say of the file of this name.
fn said(rt: &HostRuntime, name: &str, rounds: Option<Rounds>) -> io::Result<()> {
    let mut files = DiskFiles::new(rt);
    match files.read(rt.alloc(), name, MOST_FILE_BYTES) {
        Ok(bytes) => said_of(rt, name, bytes.as_slice(), rounds),
        Err(ReadError::Failed) => println!(rt; "{name}: not read"),
        Err(ReadError::NoMemory) => println!(rt; "{name}: no memory"),
    }
}

fn main(rt: HostRuntime) -> ExitCode {
    let Ok(mut words) = env::args(&rt) else {
        return ExitCode::FAILURE;
    };
    let _program = words.next();
    let Some(name) = words.next() else {
        return ExitCode::FAILURE;
    };
    let rounds = match (words.next(), words.next(), words.next()) {
        (None, None, None) => None,
        (Some(reads), Some(loads), None) => {
            let (Ok(reads), Ok(loads)) = (reads.as_str().parse(), loads.as_str().parse()) else {
                return ExitCode::FAILURE;
            };
            Some(Rounds { reads, loads })
        }
        _ => return ExitCode::FAILURE,
    };
    match said(&rt, name.as_str(), rounds) {
        Ok(()) => ExitCode::SUCCESS,
        Err(_) => ExitCode::FAILURE,
    }
}
