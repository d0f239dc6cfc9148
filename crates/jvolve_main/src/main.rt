//! The program `jvolve`: it hands the words of its command line, the files of the disk, standard
//! output and the file `jvolve.journal` to `jvolve_alone`, prints the status line and ends with the
//! status as its exit status. It stands on `jvolve_top`, whose contract is what is promised.
#![tactic(auto)]

use jv_outer::{DiskFiles, FileSink, StdSink, write_all};
use jv_types::Status;
use jvolve_top::{exit_status, jvolve_alone, status_line};
use std::alloc::{AllocError, Global};
use std::process::ExitCode;
use std::rt::Env;
use std::{env, io};

/// The words behind the program's own name.
fn words(rt: &(impl Env + AllocGlobal)) -> io::Result<Vec<String>> {
    let mut words = Vec::new(rt.alloc());
    for word in env::args(rt)?.skip(1) {
        words.push(word)?;
    }
    Ok(words)
}

/// The words as they are handed on.
fn lent(alloc: Global, words: &Vec<String>) -> Result<Vec<&str>, AllocError> {
    words.iter().map(|word| word.as_str()).collect(alloc)
}

/// Runs the program over the real files and streams.
fn call(rt: &HostRuntime, words: &Vec<String>) -> Status {
    let Ok(words) = lent(rt.alloc(), words) else {
        return Status::NoMemory;
    };
    let mut files = DiskFiles::new(rt);
    let mut out = StdSink::new(rt);
    let mut report = StdSink::new(rt);
    let mut trace = FileSink::new(rt, "jvolve.journal");
    let reply = jvolve_alone(
        rt.alloc(),
        words.as_slice(),
        &mut files,
        &mut out,
        &mut report,
        &mut trace,
    );
    reply.status
}

/// Prints the status line, and answers the status that is left: a line that can't be made or
/// written is want of memory or a write fault.
fn print_status(rt: &HostRuntime, status: Status) -> Status {
    let mut out = StdSink::new(rt);
    let Ok(line) = status_line(rt.alloc(), &status) else {
        return Status::NoMemory;
    };
    match write_all(&mut out, line.as_slice()) {
        Ok(()) => status,
        Err(_) => Status::WriteFault,
    }
}

fn main(rt: HostRuntime) -> ExitCode {
    let status = match words(&rt) {
        Ok(words) => call(&rt, &words),
        Err(error) if error.kind() == io::ErrorKind::OutOfMemory => Status::NoMemory,
        Err(_) => Status::BadWords,
    };
    ExitCode::from(exit_status(&print_status(&rt, status)))
}
