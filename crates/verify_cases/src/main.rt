//! The program `verify_cases`: checks a program for each method of the table `methods`, and says
//! where what comes of it isn't what the table expects, which was worked out by hand from the rules
//! of the verifier. The last line is how many rows came out as expected. It stands on `jvolve_top`,
//! whose contract says what a call leaves, but not that it comes to its end with memory to spare.
#![tactic(auto)]

use jv_outer::{
    DiskFiles, Files, MemFiles, MemSink, ReadError, Sink, StdSink, WriteError, write_all,
};
use jv_types::text::units;
use jv_types::{Bytes, List, MOST_FILE_BYTES, NoMemory};
use jvolve_top::{jvolve_alone, status_line};
use std::alloc::{AllocError, Global};
use std::process::ExitCode;
use std::str::{Utf8Error, from_utf8};

/// There was no memory, the table isn't one, or a file or standard output failed.
#[derive(Debug, Drop)]
struct Failed;

impl From<NoMemory> for Failed {
    fn from(_error: NoMemory) -> Failed {
        Failed
    }
}

impl From<AllocError> for Failed {
    fn from(_error: AllocError) -> Failed {
        Failed
    }
}

impl From<ReadError> for Failed {
    fn from(_error: ReadError) -> Failed {
        Failed
    }
}

impl From<WriteError> for Failed {
    fn from(_error: WriteError) -> Failed {
        Failed
    }
}

impl From<Utf8Error> for Failed {
    fn from(_error: Utf8Error) -> Failed {
        Failed
    }
}

/// What stands before the lines of a row that don't say how its class begins.
const CLASS: &[u8] = b"class Main extends A\n";

/// What stands behind the lines of a row.
const MAIN: &[u8] =
    b"end\nmethod 9 main ([Ljava/lang/String;)V\nstack 0 locals 1\nreturn\nend\n.end\n";

/// Whether a line of the table is neither empty nor a remark.
fn says_something(line: &str) -> bool {
    !line.is_empty() && !line.starts_with('#')
}

/// The classes that each program has beside its main class.
fn other_classes(alloc: Global, text: &str) -> Result<Bytes, Failed> {
    let mut classes = List::new(alloc);
    for line in text.lines() {
        if says_something(line) {
            classes.append(line.as_bytes())?;
            classes.append(b"\n")?;
        }
    }
    Ok(classes)
}

/// The manifest of the program of a row.
fn manifest_of(alloc: Global, lines: &str, others: &[u8]) -> Result<Bytes, Failed> {
    let mut manifest = List::from_slice(alloc, b"jvolve 1\nmain Main\nasm Main\n")?;
    if !lines.starts_with("class ") {
        manifest.append(CLASS)?;
    }
    for line in lines.split(" / ") {
        manifest.append(line.as_bytes())?;
        manifest.append(b"\n")?;
    }
    manifest.append(MAIN)?;
    manifest.append(others)?;
    Ok(manifest)
}

/// The status line that a row expects.
fn line_expected(alloc: Global, expected: &str) -> Result<Bytes, Failed> {
    if expected == "ok" {
        return Ok(List::from_slice(alloc, b"jvolve: 0 finished\n")?);
    }
    let line = format!(in alloc; "jvolve: 3 bad input 0 0 41 not verified Main {expected}\n")?;
    Ok(List::from_slice(alloc, line.as_bytes())?)
}

/// The status line of `check` on a manifest.
fn line_of_check(alloc: Global, manifest: Bytes) -> Result<Bytes, Failed> {
    let mut held = List::new(alloc);
    held.push((units(alloc, "manifest")?, manifest))?;
    let mut files = MemFiles::new(held, List::new(alloc));
    let mut out = MemSink::new(alloc, 99, List::new(alloc))?;
    let mut report = MemSink::new(alloc, 99, List::new(alloc))?;
    let mut trace = MemSink::new(alloc, 99, List::new(alloc))?;
    let reply = jvolve_alone(
        alloc,
        &["check", "manifest"],
        &mut files,
        &mut out,
        &mut report,
        &mut trace,
    );
    Ok(status_line(alloc, &reply.status)?)
}

/// Checks the program of a row, and shows the row and the status line where it isn't the expected
/// one. It answers whether it is.
fn try_row<S: Sink>(
    alloc: Global,
    shown: &mut S,
    row: &str,
    others: &[u8],
) -> Result<bool, Failed> {
    let Some((expected, lines)) = row.split_once(" : ") else {
        return Err(Failed);
    };
    let line = line_of_check(alloc, manifest_of(alloc, lines, others)?)?;
    if line.as_slice() == line_expected(alloc, expected)?.as_slice() {
        return Ok(true);
    }
    write_all(shown, row.as_bytes())?;
    write_all(shown, b"\n")?;
    write_all(shown, line.as_slice())?;
    Ok(false)
}

/// Tries the rows of a table. It answers how many came out as expected.
fn try_rows<S: Sink>(alloc: Global, shown: &mut S, table: &str) -> Result<u32, Failed> {
    let Some((classes, rows)) = table.split_once("\nrows\n") else {
        return Err(Failed);
    };
    let others = other_classes(alloc, classes)?;
    let mut right: u32 = 0;
    for row in rows.lines() {
        if says_something(row) && try_row(alloc, shown, row, others.as_slice())? {
            right = right.saturating_add(1);
        }
    }
    Ok(right)
}

fn show_all(rt: &HostRuntime) -> Result<(), Failed> {
    let alloc = rt.alloc();
    let table = DiskFiles::new(rt).read(alloc, "methods", MOST_FILE_BYTES)?;
    let mut shown = StdSink::new(rt);
    let right = try_rows(alloc, &mut shown, from_utf8(table.as_slice())?)?;
    let line = format!(in alloc; "{right} rows as expected\n")?;
    write_all(&mut shown, line.as_bytes())?;
    Ok(())
}

fn main(rt: HostRuntime) -> ExitCode {
    match show_all(&rt) {
        Ok(()) => ExitCode::SUCCESS,
        Err(_) => ExitCode::FAILURE,
    }
}
