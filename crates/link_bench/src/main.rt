//! The program `link_bench`: links the program of a manifest, over and over, so that it can be timed
//! from outside, and says what comes of it, so that it can be compared with what was worked out by
//! hand.
//!
//! `link_bench COUNT MANIFEST.. [members MANIFEST..]` loads the classes of each manifest and links
//! them `COUNT` times. It prints a line for each manifest: `ok N`, with the number of its classes, or
//! the status line that tells the refusal. With a `COUNT` of 0 the classes are loaded alone. For each
//! manifest after the word `members` it prints a line for each member reference in their constant
//! pools instead: the class, the index, and the class that declares what the reference names.
//!
//! It stands on `linked_samples` and `boot_classes`, whose contracts say what is loaded and linked, on
//! `use_faults` for what references name, on `run_text` for the line of a refusal, and on `jv_outer`
//! for files and standard output.
#![tactic(auto)]

ghost use Rattle.class_loader.specs.Items.{AreRead};

mod members;

use crate::members::member_lines;
use boot_classes::boot_table;
use class_loader::Stop;
use jv_outer::{DiskFiles, Files, StdSink, WriteError, write_all};
use jv_types::{Bytes, List, NoMemory, Status};
use linked_samples::{Program, link_program, load_program};
use run_text::status_line;
use std::alloc::Global;
use std::env;
use std::process::ExitCode;

/// Links the program so many times.
fn link_again(alloc: Global, program: &Program, count: u32) -> Result<(), Stop>
    requires { AreRead program.now.classes }
{
    let boot = boot_table(alloc)?;
    for _ in 0..count {
        link_program(alloc, &boot, program)?;
    }
    Ok(())
}

/// The line that tells of how many classes a program is.
fn line_of(alloc: Global, classes: u32) -> Result<Bytes, NoMemory> {
    let line = format!(in alloc; "ok {classes}\n")?;
    List::from_slice(alloc, line.as_bytes())
}

/// What is asked of a program.
#[derive(Clone, Copy)]
enum Question {
    /// How many classes it has, once it was linked so many times.
    Rounds(u32),
    /// Which class declares what each member reference names.
    Members,
}

/// Loads the program of a manifest and links it so many times. It answers the line of its count.
fn rounds<F: Files>(alloc: Global, files: &mut F, name: &str, count: u32) -> Result<Bytes, Stop> {
    let program = load_program(alloc, files, name)?;
    link_again(alloc, &program, count)?;
    let line = line_of(alloc, program.classes.len())?;
    Ok(line)
}

/// Loads the program of a manifest and links it. It answers the lines of its member references.
fn found_members<F: Files>(alloc: Global, files: &mut F, name: &str) -> Result<Bytes, Stop> {
    let program = load_program(alloc, files, name)?;
    let boot = boot_table(alloc)?;
    let world = link_program(alloc, &boot, &program)?;
    let lines = member_lines(alloc, &world)?;
    Ok(lines)
}

/// The lines that answer a question.
fn answer<F: Files>(
    alloc: Global,
    files: &mut F,
    name: &str,
    question: Question,
) -> Result<Bytes, Stop> {
    match question {
        Question::Rounds(count) => rounds(alloc, files, name, count),
        Question::Members => found_members(alloc, files, name),
    }
}

/// What is printed of a program: the lines, or the status line that tells what stopped it.
fn text_of(alloc: Global, outcome: Result<Bytes, Stop>) -> Result<Bytes, NoMemory> {
    match outcome {
        Ok(lines) => Ok(lines),
        Err(stop) => status_line(alloc, &Status::from(stop)),
    }
}

/// Writes what is printed of the program of a manifest.
fn say(rt: &HostRuntime, name: &str, question: Question) -> Result<(), WriteError> {
    let outcome = answer(rt.alloc(), &mut DiskFiles::new(rt), name, question);
    let Ok(text) = text_of(rt.alloc(), outcome) else {
        return Err(WriteError::NoMemory);
    };
    write_all(&mut StdSink::new(rt), text.as_slice())
}

fn main(rt: HostRuntime) -> ExitCode {
    let Ok(words) = env::args(&rt) else {
        return ExitCode::FAILURE;
    };
    let mut words = words.skip(1);
    let Some(Ok(count)) = words.next().map(|word| word.as_str().parse::<u32>()) else {
        return ExitCode::FAILURE;
    };
    let mut question = Question::Rounds(count);
    for word in words {
        if word.as_str() == "members" {
            question = Question::Members;
        } else if say(&rt, word.as_str(), question).is_err() {
            return ExitCode::FAILURE;
        }
    }
    ExitCode::SUCCESS
}
