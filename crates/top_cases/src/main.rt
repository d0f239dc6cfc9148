//! The program `top_cases`: calls of the top call over files and sinks that fail where they are
//! told to, and what each leaves, so that it can be compared with what was worked out by hand. It
//! stands on `jvolve_top`, whose contract says what a call leaves, but not that it comes to its end
//! with memory to spare.
#![tactic(auto)]

use class_samples::RETURN;
use jv_outer::{
    DiskFiles, FileSink, Files, MemFiles, MemSink, ReadError, Sink, StdSink, WriteError, write_all,
};
use jv_types::text::units;
use jv_types::{Bytes, Entry, List, MOST_FILE_BYTES, NoMemory};
use jvolve_top::{Reply, jvolve_alone, status_line};
use std::alloc::{AllocError, Global};
use std::process::ExitCode;

/// There was no memory for a case, or a file or standard output failed.
#[derive(Debug, Drop)]
struct Failed;

impl From<NoMemory> for Failed {
    fn from(_error: NoMemory) -> Failed {
        Failed
    }
}

impl From<AllocError> for Failed {
    fn from(_error: AllocError) -> Failed {
        Failed
    }
}

impl From<ReadError> for Failed {
    fn from(_error: ReadError) -> Failed {
        Failed
    }
}

impl From<WriteError> for Failed {
    fn from(_error: WriteError) -> Failed {
        Failed
    }
}

/// A call, with the numbers of the reads and of the writes that fail.
#[derive(Clone, Copy)]
struct Case<'a> {
    name: &'a [u8],
    words: &'a [&'a str],
    reads: &'a [u64],
    /// The most bytes that a write to the output takes.
    piece: u32,
    out: &'a [u64],
    report: &'a [u64],
    trace: &'a [u64],
}

const RUN: [&str; 2] = ["run", "manifest"];

const NO_FAULT: Case<'static> = Case {
    name: b"a sum is printed",
    words: &RUN,
    reads: &[],
    piece: 1,
    out: &[],
    report: &[],
    trace: &[],
};

/// The files of the disk, with these names, as files in memory of which some reads fail.
fn copy_files<F: Files>(
    disk: &mut F,
    alloc: Global,
    names: &[&str],
    fails: &[u64],
) -> Result<MemFiles, Failed> {
    let mut files = List::new(alloc);
    for name in names {
        let bytes = disk.read(alloc, name, MOST_FILE_BYTES)?;
        files.push((units(alloc, name)?, bytes))?;
    }
    Ok(MemFiles::new(files, List::from_slice(alloc, fails)?))
}

fn sink(alloc: Global, piece: u32, fails: &[u64]) -> Result<MemSink, Failed> {
    Ok(MemSink::new(alloc, piece, List::from_slice(alloc, fails)?)?)
}

/// Writes what a call left.
fn show<S: Sink>(
    alloc: Global,
    shown: &mut S,
    name: &[u8],
    reply: &Reply,
    out: &[u8],
    trace: &[u8],
) -> Result<(), Failed> {
    write_all(shown, b"== ")?;
    write_all(shown, name)?;
    write_all(shown, b"\n")?;
    write_all(shown, out)?;
    write_all(shown, b"|\n")?;
    write_all(shown, trace)?;
    write_all(shown, b"|\n")?;
    write_all(shown, status_line(alloc, &reply.status)?.as_slice())?;
    Ok(())
}

/// The files of the cases.
const NAMES: [&str; 4] = ["manifest", "Main.class", "text", "Main.asm"];

fn show_case<F: Files, S: Sink>(
    disk: &mut F,
    alloc: Global,
    shown: &mut S,
    case: &Case<'_>,
) -> Result<(), Failed> {
    let mut files = copy_files(disk, alloc, &NAMES, case.reads)?;
    let mut out = sink(alloc, case.piece, case.out)?;
    let mut report = sink(alloc, 1, case.report)?;
    let mut trace = sink(alloc, 1, case.trace)?;
    let reply = jvolve_alone(
        alloc,
        case.words,
        &mut files,
        &mut out,
        &mut report,
        &mut trace,
    );
    show(alloc, shown, case.name, &reply, out.bytes(), trace.bytes())
}

/// The calls whose sinks are shown byte by byte.
fn show_cases<F: Files, S: Sink>(disk: &mut F, alloc: Global, shown: &mut S) -> Result<(), Failed> {
    let cases = [
        NO_FAULT,
        Case {
            name: b"the manifest isn't read",
            reads: &[0],
            ..NO_FAULT
        },
        Case {
            name: b"the class file isn't read",
            reads: &[1],
            ..NO_FAULT
        },
        Case {
            name: b"a third file would not be read",
            reads: &[2],
            ..NO_FAULT
        },
        Case {
            name: b"the third byte isn't written",
            out: &[2],
            ..NO_FAULT
        },
        Case {
            name: b"the fifth byte of the journal isn't written",
            trace: &[4],
            ..NO_FAULT
        },
        Case {
            name: b"there is no report that can't be written",
            report: &[0],
            ..NO_FAULT
        },
        Case {
            name: b"the second piece of three bytes isn't written",
            piece: 3,
            out: &[1],
            ..NO_FAULT
        },
        Case {
            name: b"the class is in the manifest",
            words: &["run", "text"],
            ..NO_FAULT
        },
        Case {
            name: b"no file is read behind such a manifest",
            words: &["run", "text"],
            reads: &[1],
            ..NO_FAULT
        },
        Case {
            name: b"a class file is no assembler text",
            words: &["asm", "Main.class"],
            ..NO_FAULT
        },
        Case {
            name: b"the fifth byte of a class file isn't written",
            words: &["asm", "Main.asm"],
            out: &[4],
            ..NO_FAULT
        },
        Case {
            name: b"there is no such mode",
            words: &["walk", "manifest"],
            reads: &[0],
            ..NO_FAULT
        },
    ];
    for case in &cases {
        show_case(disk, alloc, shown, case)?;
    }
    Ok(())
}

/// A class whose main is as long as code may be: it pushes an int and drops it, over and over.
fn longest_class(alloc: Global) -> Result<Bytes, Failed> {
    let mut class = List::from_slice(alloc, &RETURN[..103])?;
    // The attribute's length, then max_stack, max_locals and the code's length.
    class.append(b"\x00\x01\x00\x0b\x00\x01\x00\x01\x00\x00\xff\xff")?;
    for _ in 0..32_767 {
        class.append(b"\x04\x57")?;
    }
    class.append(b"\xb1\0\0\0\0\0\0")?;
    Ok(class)
}

/// How many entries a journal has, and how many steps the last one has.
fn count_steps(journal: &[Entry]) -> (usize, u32) {
    match journal.last() {
        Some(Entry::Run { steps, .. }) => (journal.len(), *steps),
        _ => (journal.len(), 0),
    }
}

/// Runs the longest main, and shows how many turns it took: 1,023 of 64 steps and one of 63 make
/// 65,535.
fn show_longest<S: Sink>(alloc: Global, shown: &mut S) -> Result<(), Failed> {
    let mut held = List::new(alloc);
    let manifest = List::from_slice(alloc, b"jvolve 1\nmain Main\nclass Main Main.class\n")?;
    held.push((units(alloc, "manifest")?, manifest))?;
    held.push((units(alloc, "Main.class")?, longest_class(alloc)?))?;
    let mut files = MemFiles::new(held, List::new(alloc));
    let mut out = sink(alloc, 1, &[])?;
    let mut report = sink(alloc, 1, &[])?;
    let mut trace = sink(alloc, 9, &[])?;
    let reply = jvolve_alone(alloc, &RUN, &mut files, &mut out, &mut report, &mut trace);
    let (turns, steps) = count_steps(reply.journal.as_slice());
    let said = format!(in alloc; "{turns} turns, the last of {steps} steps")?;
    show(
        alloc,
        shown,
        b"the longest main",
        &reply,
        said.as_bytes(),
        b"",
    )
}

/// Shows that calls which write nothing leave a file as it is that an older journal lies in.
fn show_older<S: Sink>(rt: &HostRuntime, alloc: Global, shown: &mut S) -> Result<(), Failed> {
    let mut disk = DiskFiles::new(rt);
    let mut trace = FileSink::new(rt, "older.journal");
    for words in [
        ["run", "faulty"],
        ["run", "missing"],
        ["asm", "manifest"],
        ["walk", "faulty"],
    ] {
        let mut files = copy_files(&mut disk, alloc, &["faulty", "manifest"], &[])?;
        let mut out = sink(alloc, 1, &[])?;
        let mut report = sink(alloc, 1, &[])?;
        let reply = jvolve_alone(alloc, &words, &mut files, &mut out, &mut report, &mut trace);
        let older = disk.read(alloc, "older.journal", MOST_FILE_BYTES)?;
        show(
            alloc,
            shown,
            words[1].as_bytes(),
            &reply,
            out.bytes(),
            older.as_slice(),
        )?;
    }
    Ok(())
}

/// The files of programs that are linked and verified, or refused there: what runs, what is for
/// later, and each refusal.
const LINKED: [&str; 15] = [
    "constructor",
    "handler",
    "branch",
    "two",
    "update",
    "twice",
    "cycle",
    "absent",
    "final",
    "no-main",
    "double",
    "native",
    "kept-name",
    "no-frame",
    "empty-stack",
];

/// Shows what is told of them.
fn show_linked<F: Files, S: Sink>(
    disk: &mut F,
    alloc: Global,
    shown: &mut S,
) -> Result<(), Failed> {
    for file in LINKED {
        for mode in ["run", "check"] {
            let mut files = copy_files(disk, alloc, &[file], &[])?;
            let mut out = sink(alloc, 1, &[])?;
            let mut report = sink(alloc, 1, &[])?;
            let mut trace = sink(alloc, 1, &[])?;
            let words = [mode, file];
            let reply = jvolve_alone(alloc, &words, &mut files, &mut out, &mut report, &mut trace);
            let name = format!(in alloc; "{mode} {file}")?;
            show(
                alloc,
                shown,
                name.as_bytes(),
                &reply,
                out.bytes(),
                trace.bytes(),
            )?;
        }
    }
    Ok(())
}

fn show_all(rt: &HostRuntime) -> Result<(), Failed> {
    let alloc = rt.alloc();
    let mut shown = StdSink::new(rt);
    show_cases(&mut DiskFiles::new(rt), alloc, &mut shown)?;
    show_linked(&mut DiskFiles::new(rt), alloc, &mut shown)?;
    show_longest(alloc, &mut shown)?;
    show_older(rt, alloc, &mut shown)
}

fn main(rt: HostRuntime) -> ExitCode {
    match show_all(&rt) {
        Ok(()) => ExitCode::SUCCESS,
        Err(_) => ExitCode::FAILURE,
    }
}
