//! From a command's files to its work.

ghost use Rattle.std.specs.Prelude.{◌≡◌, All, IfOk, map};
ghost use Rattle.jv_model.specs.Limits.{most_file_bytes};
ghost use Rattle.straight_line_model.specs.StraightLine.{IsStraightLine};
ghost use Rattle.run_model.specs.Invocation.{run_of, check_of, asm_of};
ghost use Rattle.run_model.specs.LoadProgram.{load_manifest, load_program};
ghost use Rattle.run_model.specs.LoadWork.{load_work, load_run, load_check, load_asm};
ghost use Rattle.manifest_laws.specs.Laws.{BlockIsWithin};
ghost use Rattle.manifest_reader.specs.Statements.{manifest_view};
ghost use Rattle.class_loader.specs.Loads.{IsLoaded};
ghost use Rattle.class_loader.specs.Outside.{read};
ghost use Rattle.straight_line.specs.Body.{body_of};
ghost use Rattle.straight_line.specs.Programs.{program};
ghost use Rattle.jvolve_top.specs.Words.{invocation_view};
ghost use Rattle.jvolve_top.specs.Loads.{work_of, IsStraight};
ghost use Rattle.jvolve_top.specs.Programs.{verified_of, IsVerified};

use crate::asm::class_file_of;
use crate::program::{VerifiedProgram, check_text, runnable, verified_program};
use crate::words::Invocation;
use class_loader::{Stop, load_items, read_file};
use jv_outer::Files;
use jv_types::Bytes;
use manifest_reader::{Manifest, read_manifest};
use std::alloc::Global;
use straight_line::Body;

/// What a command's words and files come to.
#[derive(Drop)]
pub(crate) enum Work {
    /// To run a program.
    Runs(Body),
    /// To write a text.
    Writes(Bytes),
}

/// The items of a manifest, and then the program that they make. Their blocks are no longer than a
/// file may be.
fn load_manifest<F: Files>(
    alloc: Global,
    files: &mut F,
    manifest: &Manifest<'_>,
) -> Result<VerifiedProgram, Stop>
    requires { All (BlockIsWithin most_file_bytes) (manifest_view manifest.now).items }
    ensures loaded { IsLoaded verified_of result
        (read F.folder F.asked F.faults files.old files.new)
        (λ folder. load_manifest folder (manifest_view manifest.now)) }
    ensures verified { IfOk result IsVerified }
{
    let classes = load_items(alloc, files, &manifest.items)?;
    verified_program(alloc, manifest, classes)
}

/// Reads a manifest, all of its text, and then its items in order; links and verifies the program
/// that they make.
fn load_program<F: Files>(alloc: Global, files: &mut F, name: &str) -> Result<VerifiedProgram, Stop>
    ensures loaded { IsLoaded verified_of result
        (read F.folder F.asked F.faults files.old files.new)
        (λ folder. load_program folder name.now) }
    ensures verified { IfOk result IsVerified }
{
    let text = read_file(alloc, files, name, 0, 0)?;
    let manifest = read_manifest(alloc, text.as_slice())?;
    load_manifest(alloc, files, &manifest)
}

/// The program of a manifest, where this version runs it.
fn load_run<F: Files>(alloc: Global, files: &mut F, manifest: &str) -> Result<Body, Stop>
    ensures loaded { IsLoaded program result (read F.folder F.asked F.faults files.old files.new)
        (λ folder. load_run folder manifest.now) }
    ensures straight { IfOk result (λ body. IsStraightLine (body_of body)) }
{
    let verified = load_program(alloc, files, manifest)?;
    runnable(alloc, &verified)
}

/// What there is to tell of the program of a manifest.
fn load_check<F: Files>(alloc: Global, files: &mut F, manifest: &str) -> Result<Bytes, Stop>
    ensures { IsLoaded (λ text. text.items) result
        (read F.folder F.asked F.faults files.old files.new)
        (λ folder. load_check folder manifest.now) }
{
    let verified = load_program(alloc, files, manifest)?;
    check_text(alloc, &verified)
}

/// The bytes of the class file of the assembler text in this file.
fn load_asm<F: Files>(alloc: Global, files: &mut F, file: &str) -> Result<Bytes, Stop>
    ensures { IsLoaded (λ bytes. bytes.items) result
        (read F.folder F.asked F.faults files.old files.new) (λ folder. load_asm folder file.now) }
{
    let text = read_file(alloc, files, file, 0, 0)?;
    class_file_of(alloc, text.as_slice())
}

/// What `run` does: it runs the program of a manifest.
fn run_work<F: Files>(alloc: Global, files: &mut F, manifest: &str) -> Result<Work, Stop>
    ensures loaded { IsLoaded work_of result (read F.folder F.asked F.faults files.old files.new)
        (λ folder. load_work folder (run_of manifest.now)) }
    ensures straight { IfOk result IsStraight }
{
    let body = load_run(alloc, files, manifest)?;
    Ok(Work::Runs(body))
}

/// What `check` does: it writes what there is to tell of the program of a manifest.
fn check_work<F: Files>(alloc: Global, files: &mut F, manifest: &str) -> Result<Work, Stop>
    ensures loaded { IsLoaded work_of result (read F.folder F.asked F.faults files.old files.new)
        (λ folder. load_work folder (check_of manifest.now)) }
    ensures straight { IfOk result IsStraight }
{
    let text = load_check(alloc, files, manifest)?;
    Ok(Work::Writes(text))
}

/// What `asm` does: it writes the class file of an assembler text.
fn asm_work<F: Files>(alloc: Global, files: &mut F, file: &str) -> Result<Work, Stop>
    ensures loaded { IsLoaded work_of result (read F.folder F.asked F.faults files.old files.new)
        (λ folder. load_work folder (asm_of file.now)) }
    ensures straight { IfOk result IsStraight }
{
    let bytes = load_asm(alloc, files, file)?;
    Ok(Work::Writes(bytes))
}

/// The work that an invocation asks for, as its files say it, or why there is none.
pub(crate) fn load<F: Files>(
    alloc: Global,
    files: &mut F,
    invocation: Invocation<'_>,
) -> Result<Work, Stop>
    ensures loaded { IsLoaded work_of result (read F.folder F.asked F.faults files.old files.new)
        (λ folder. load_work folder (invocation_view invocation.entry)) }
    ensures straight { IfOk result IsStraight }
{
    match invocation {
        Invocation::Run { manifest } => run_work(alloc, files, manifest),
        Invocation::Check { manifest } => check_work(alloc, files, manifest),
        Invocation::Asm { file } => asm_work(alloc, files, file),
    }
}
