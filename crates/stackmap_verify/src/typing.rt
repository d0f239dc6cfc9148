//! Methods that are well typed, one by one.

ghost use Rattle.std.specs.Prelude.{◌≡◌, ◌<◌, IsSome, Some, length, slice_get};
ghost use Rattle.world_model.specs.World.{Method as ModelMethod};
ghost use Rattle.link_model.specs.WorldOf.{class_of};
ghost use Rattle.linked_laws.specs.Worlds.{IsLinkedWorld};
ghost use Rattle.jv_types.specs.Loaded.{loaded_of};
ghost use Rattle.class_world.specs.World.{method_at};
ghost use Rattle.stackmap_verify.specs.Codes.{HoldsClass};
ghost use Rattle.stackmap_verify.specs.Typings.{Types, TypesMethod};

use crate::error::VerifyError;
use crate::kept::Kept;
use crate::methods::pass_method;
use class_world::{ClassInfo, Origin, World};
use jv_types::{List, Loaded, MethodNo, Steps};
use std::alloc::Global;
use std::marker::Brand;
use std::sync::ledger::{Blank, Ledger};
use type_rules::TypeFrame;

/// A method that is well typed (JVMS 4.10.1).
#[derive(Debug, Drop)]
pub struct Typed {
    /// One for each of its instructions, in their order. A method without code has none.
    pub frames: List<TypeFrame>,
}

/// Verifies a method of a class that was read, and keeps its frames.
fn type_method<L: Ledger>(
    alloc: Global,
    world: &World,
    class: &ClassInfo,
    loaded: &Loaded,
    index: u32,
    steps: &mut Steps<L>,
) -> Result<Typed, VerifyError>
    requires world { IsLinkedWorld world.now }
    requires class { HoldsClass world.now loaded.now class.now }
    requires index { index < length loaded.now.file.methods.items }
    ensures { (m : ModelMethod)
        × (slice_get (class_of (loaded_of loaded.now)).methods index ≡ Some m)
        × Types world.now (class_of (loaded_of loaded.now)) m result }
{
    let kept = Kept::frames(alloc);
    let kept = pass_method(alloc, world, class, loaded, index, kept, steps)?;
    Ok(Typed {
        frames: kept.into_frames(alloc),
    })
}

/// Verifies a method over a ledger of the steps. That of a boot class has no code.
fn type_method_at<L: Ledger>(
    alloc: Global,
    blank: Blank,
    world: &World,
    method: MethodNo,
) -> Result<Typed, VerifyError>
    requires name { blank.name ≡ L.name }
    requires parts { blank.parts ≡ L.parts }
    requires shared { 0 < blank.parts }
    requires world { IsLinkedWorld world.now }
    requires method { IsSome (method_at world.now method) }
    ensures { TypesMethod world.now method result }
{
    let mut steps = Steps::<L>::new(blank);
    let class = world.class(method.class);
    match &class.origin {
        Origin::Boot(_) => Ok(Typed {
            frames: List::new(alloc),
        }),
        Origin::Program(loaded) => {
            type_method(alloc, world, class, loaded, method.index, &mut steps)
        }
    }
}

/// Verifies a method of a linked world (JVMS 4.10.1): it's well typed exactly where its frames come.
/// The error is its first instruction that breaks a rule, and the first rule that it breaks there.
/// Only want of memory may come instead.
pub fn verify_method(alloc: Global, world: &World, method: MethodNo) -> Result<Typed, VerifyError>
    requires world { IsLinkedWorld world.now }
    requires method { IsSome (method_at world.now method) }
    ensures { TypesMethod world.now method result }
{
    type_method_at::<Brand>(alloc, Blank::new(1), world, method)
}
