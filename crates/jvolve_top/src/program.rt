//! A program that links and verifies, and what comes of it.

ghost use Rattle.std.specs.Prelude.{◌≡◌, IfOk, map};
ghost use Rattle.std.specs.List.{list_any};
ghost use Rattle.straight_line_model.specs.StraightLine.{IsStraightLine};
ghost use Rattle.run_model.specs.Later.{program_of, unless_later};
ghost use Rattle.run_model.specs.CheckText.{ok_line, check_text};
ghost use Rattle.run_model.specs.LoadProgram.{is_update, verified_program};
ghost use Rattle.manifest_reader.specs.Items.{item_of};
ghost use Rattle.manifest_reader.specs.Statements.{manifest_view};
ghost use Rattle.class_loader.specs.Items.{classes_in, AreRead};
ghost use Rattle.class_loader.specs.Placed.{IsPlaced};
ghost use Rattle.straight_line.specs.Body.{body_of};
ghost use Rattle.straight_line.specs.Programs.{program};
ghost use Rattle.jvolve_top.specs.Programs.{verified_of, IsVerified};

use crate::world::{refused, verified_world};
use class_loader::Stop;
use jv_types::text::units;
use jv_types::{Bytes, Cause, List, Loaded, NoMemory};
use manifest_reader::{Manifest, ManifestItem};
use std::alloc::Global;
use straight_line::{Body, main_body};

/// A program that links and verifies.
#[derive(Drop)]
pub(crate) struct VerifiedProgram {
    /// The classes that its manifest brings.
    pub(crate) classes: List<Loaded>,
    /// Whether its manifest has updates, too.
    pub(crate) has_updates: bool,
}

fn is_update(item: &ManifestItem<'_>) -> bool
    ensures { result ≡ is_update (item_of item.now) }
{
    matches!(item, ManifestItem::Update(_))
}

/// Whether one of the items is an update.
fn has_update(items: &[ManifestItem<'_>]) -> bool
    ensures { result ≡ list_any (λ item. is_update (item_of item)) items.now }
{
    items.iter().any(|item| is_update(item))
}

/// The program that the classes of a manifest make, or the refusal of its linking, or of its
/// verifying.
pub(crate) fn verified_program(
    alloc: Global,
    manifest: &Manifest<'_>,
    classes: List<Loaded>,
) -> Result<VerifiedProgram, Stop>
    requires { AreRead classes }
    ensures program { IsPlaced verified_of result
        (verified_program (manifest_view manifest.now) (classes_in classes)) }
    ensures verified { IfOk result IsVerified }
{
    let main = units(alloc, manifest.main)?;
    let _world = verified_world(alloc, &main, &classes)?;
    Ok(VerifiedProgram {
        classes,
        has_updates: has_update(manifest.items.as_slice()),
    })
}

/// The program, where this version runs it; else it's refused as one for later.
pub(crate) fn runnable(alloc: Global, verified: &VerifiedProgram) -> Result<Body, Stop>
    requires { IsVerified verified.now }
    ensures program { IsPlaced program result
        (unless_later (program_of (verified_of verified.now))) }
    ensures straight { IfOk result (λ body. IsStraightLine (body_of body)) }
{
    if verified.has_updates {
        return Err(refused(Cause::Later));
    }
    match main_body(alloc, verified.classes.as_slice())? {
        Some(body) => Ok(body),
        None => Err(refused(Cause::Later)),
    }
}

/// The line that tells the number of a program's classes.
fn ok_line(alloc: Global, classes: u32) -> Result<Bytes, NoMemory>
    ensures { IfOk result (λ line. line.items ≡ ok_line classes) }
{
    List::from_slice(alloc, format!(in alloc; "ok {classes}\n")?.as_bytes())
}

/// What there is to tell of a program, where this version can tell all of it; else it's refused as
/// one for later.
pub(crate) fn check_text(alloc: Global, verified: &VerifiedProgram) -> Result<Bytes, Stop>
    ensures { IsPlaced (λ text. text.items) result
        (unless_later (check_text (verified_of verified.now))) }
{
    if verified.has_updates {
        return Err(refused(Cause::Later));
    }
    let line = ok_line(alloc, verified.classes.len())?;
    Ok(line)
}
