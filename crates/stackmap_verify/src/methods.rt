//! The methods of classes.

ghost use Rattle.std.specs.Prelude.{◌≡◌, ◌<◌, [], is_some, Some, length, option_and_then, option_map, slice_get, IfOk, IfSome};
ghost use Rattle.world_model.specs.World.{Class, Method as ModelMethod};
ghost use Rattle.link_model.specs.WorldOf.{class_of};
ghost use Rattle.linked_laws.specs.Worlds.{IsLinkedWorld};
ghost use Rattle.verifier_laws.proofs.Failures.{class_failure};
ghost use Rattle.jv_types.specs.Loaded.{loaded_of};
ghost use Rattle.class_world.specs.World.{IsInfo};
ghost use Rattle.stackmap_verify.specs.Codes.{HoldsClass, told_of};
ghost use Rattle.stackmap_verify.specs.Outcome.{Answers, Tells};
ghost use Rattle.stackmap_verify.specs.Passed.{PassesMethod};

use crate::code::{Coded, pass_code};
use crate::error::VerifyError;
use crate::failure::Place;
use crate::kept::Kept;
use crate::pass::Passed;
use class_world::{ClassInfo, Origin, World};
use jv_types::{ClassNo, CodeBody, List, Loaded, Member, NoMemory, Steps, text_at};
use std::alloc::Global;
use std::sync::ledger::Ledger;

/// What is told of a method that fails at a place.
fn not_verified(
    alloc: Global,
    class: &ClassInfo,
    loaded: &Loaded,
    member: &Member,
    place: Place,
) -> Result<VerifyError, NoMemory>
    ensures { IfOk result (Tells (Some (told_of class.now loaded.now member.now place))) }
{
    let pool = loaded.file.pool.as_slice();
    Ok(VerifyError::NotVerified {
        class: class.name.copy(alloc)?,
        method: List::from_slice(alloc, text_at(pool, member.name))?,
        descriptor: List::from_slice(alloc, text_at(pool, member.descriptor))?,
        pc: place.pc,
        rule: place.rule,
    })
}

/// The code of the method with that index, where it has some.
fn code_at(loaded: &Loaded, index: u32) -> Option<&CodeBody>
    ensures { option_map (λ body. body.now) result
        ≡ option_and_then (λ code. code) (slice_get loaded.now.codes.items index) }
{
    match loaded.codes.as_slice().get(index as usize) {
        Some(Some(body)) => Some(body),
        _ => None,
    }
}

/// Goes over a method of a class that was read, and keeps the frames of its instructions where they
/// are wanted.
pub fn pass_method<L: Ledger>(
    alloc: Global,
    world: &World,
    class: &ClassInfo,
    loaded: &Loaded,
    index: u32,
    kept: Kept,
    steps: &mut Steps<L>,
) -> Result<Kept, VerifyError>
    requires world { IsLinkedWorld world.now }
    requires class { HoldsClass world.now loaded.now class.now }
    requires index { index < length loaded.now.file.methods.items }
    requires kept { IfSome kept (λ frames. frames ≡ []) }
    ensures { (m : ModelMethod)
        × (slice_get (class_of (loaded_of loaded.now)).methods index ≡ Some m)
        × PassesMethod world.now (class_of (loaded_of loaded.now)) m (is_some kept) result }
{
    let member = loaded.file.methods.get(index);
    let Some(body) = code_at(loaded, index) else {
        return Ok(kept);
    };
    let coded = Coded {
        class,
        loaded,
        member,
        body,
    };
    match pass_code(alloc, world, &coded, kept, steps)? {
        Passed::Typed(kept) => Ok(kept),
        Passed::Breaks(place) => Err(not_verified(alloc, class, loaded, member, place)?),
    }
}

/// Verifies the methods of a class that was read.
fn verify_members<L: Ledger>(
    alloc: Global,
    world: &World,
    class: &ClassInfo,
    loaded: &Loaded,
    steps: &mut Steps<L>,
) -> Result<(), VerifyError>
    requires world { IsLinkedWorld world.now }
    requires class { HoldsClass world.now loaded.now class.now }
    ensures { Answers (class_failure world.now (class_of (loaded_of loaded.now))) result }
{
    for index in 0..loaded.file.methods.len() {
        pass_method(alloc, world, class, loaded, index, Kept::nothing(), steps)?;
    }
    Ok(())
}

/// Verifies the methods of a class. Those of a boot class have no code.
pub fn verify_class<L: Ledger>(
    alloc: Global,
    world: &World,
    class: ClassNo,
    steps: &mut Steps<L>,
) -> Result<(), VerifyError>
    requires world { IsLinkedWorld world.now }
    requires class { class.0 < length world.now.classes }
    ensures { (c : Class) × (slice_get world.now.classes class.0 ≡ Some c)
        × Answers (class_failure world.now c) result }
{
    let class = world.class(class);
    match &class.origin {
        Origin::Boot(_) => Ok(()),
        Origin::Program(loaded) => verify_members(alloc, world, class, loaded, steps),
    }
}
