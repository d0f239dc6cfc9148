//! The call that does all that the program does.

ghost use Rattle.std.specs.Prelude.{◌≡◌, [], IfOk};
ghost use Rattle.straight_line_model.specs.StraightLine.{IsStraightLine};
ghost use Rattle.run_model.specs.Headline.{Headline};
ghost use Rattle.run_model.specs.Work.{runs, writes};
ghost use Rattle.run_model.specs.Works.{Works};
ghost use Rattle.class_loader.specs.Outside.{read};
ghost use Rattle.straight_line.specs.Body.{body_of};
ghost use Rattle.straight_line.specs.Programs.{program};
ghost use Rattle.jvolve_top.specs.Outside.{sunk};
ghost use Rattle.jvolve_top.specs.Loads.{work_of, IsStraight};
ghost use Rattle.jvolve_top.specs.Calls.{call, product_view, DoesOrStarves};

use crate::deliver::{Texts, deliver};
use crate::load::{Work, load};
use crate::words::read_words;
use jv_outer::{Files, Sink, WriteError};
use jv_types::{Bytes, Entry, List, NoMemory, Status};
use run_text::journal_text;
use std::alloc::Global;
use straight_line::{Body, Run, run_to_end};

/// What a call answers, beside what it wrote.
#[derive(Debug, Drop)]
pub struct Reply {
    /// How it ended.
    pub status: Status,
    /// The entries of the run, all that it depends on beside its program.
    pub journal: List<Entry>,
    /// The number of entries that each worker made, of whom there is one. It may be empty where the
    /// journal is.
    pub shares: List<u64>,
}

/// The reply of a call that ran nothing.
fn silent(alloc: Global, status: Status) -> Reply
    ensures status { result.status ≡ status }
    ensures journal { result.journal.items ≡ [] }
    ensures shares { result.shares.items ≡ [] }
{
    Reply {
        status,
        journal: List::new(alloc),
        shares: List::new(alloc),
    }
}

/// What work gives that is done.
#[derive(Drop)]
struct Product {
    journal: List<Entry>,
    shares: List<u64>,
    texts: Texts,
}

/// Makes a run to its end, before anything is written of it.
fn make_run(alloc: Global, body: &Body) -> Result<Product, NoMemory>
    requires { IsStraightLine (body_of body.now) }
    ensures { IfOk result (λ product. Works (runs (program body.now)) (product_view product)) }
{
    let Run { output, journal } = run_to_end(alloc, body)?;
    let trace = journal_text(alloc, &journal)?;
    let mut shares = List::new(alloc);
    shares.push(u64::from(journal.len()))?;
    let texts = Texts {
        out: output,
        report: List::new(alloc),
        trace,
    };
    Ok(Product {
        journal,
        shares,
        texts,
    })
}

/// A text that is to be written, and no run.
fn make_text(alloc: Global, text: Bytes) -> Product
    ensures { Works (writes text.items) (product_view result) }
{
    Product {
        journal: List::new(alloc),
        shares: List::new(alloc),
        texts: Texts {
            out: text,
            report: List::new(alloc),
            trace: List::new(alloc),
        },
    }
}

/// Does work, before anything is written of it.
fn make(alloc: Global, work: Work) -> Result<Product, NoMemory>
    requires { IsStraight work }
    ensures { IfOk result (λ product. Works (work_of work) (product_view product)) }
{
    match work {
        Work::Runs(body) => make_run(alloc, &body),
        Work::Writes(text) => Ok(make_text(alloc, text)),
    }
}

/// Does work and writes what it gave.
fn do_work<O: Sink, R: Sink, J: Sink>(
    alloc: Global,
    work: Work,
    out: &mut O,
    report: &mut R,
    trace: &mut J,
) -> Reply
    requires { IsStraight work }
    ensures { DoesOrStarves (work_of work) result
        (sunk O.bytes O.writes O.faults out.old out.new)
        (sunk R.bytes R.writes R.faults report.old report.new)
        (sunk J.bytes J.writes J.faults trace.old trace.new) }
{
    let Ok(product) = make(alloc, work) else {
        return silent(alloc, Status::NoMemory);
    };
    let Product {
        journal,
        shares,
        texts,
    } = product;
    let status = match deliver(&texts, out, report, trace) {
        Ok(()) => Status::Finished,
        Err(WriteError::Failed) => Status::WriteFault,
        Err(WriteError::NoMemory) => Status::NoMemory,
    };
    Reply {
        status,
        journal,
        shares,
    }
}

/// Does what the words ask for. `run MANIFEST` links and verifies the program that the manifest and
/// its class files say, and runs it; it writes the output to `out`, then the report to `report`,
/// then the journal's text to `trace`. `check MANIFEST` links and verifies it alone, and writes to
/// `out` how many classes it has. `asm FILE` writes the bytes of the class file of an assembler text
/// to `out`. It always returns.
///
/// `Reply` tells the status, the journal and the shares; the clause says of what they, and the
/// bytes at the sinks, are a function, which files are asked for, and when each status comes.
pub fn jvolve_alone<F: Files, O: Sink, R: Sink, J: Sink>(
    alloc: Global,
    words: &[&str],
    files: &mut F,
    out: &mut O,
    report: &mut R,
    trace: &mut J,
) -> Reply
    ensures { Headline (call words.now result (read F.folder F.asked F.faults files.old files.new)
        (sunk O.bytes O.writes O.faults out.old out.new)
        (sunk R.bytes R.writes R.faults report.old report.new)
        (sunk J.bytes J.writes J.faults trace.old trace.new)) }
{
    let Some(invocation) = read_words(words) else {
        return silent(alloc, Status::BadWords);
    };
    match load(alloc, files, invocation) {
        Ok(work) => do_work(alloc, work, out, report, trace),
        Err(stop) => silent(alloc, Status::from(stop)),
    }
}
