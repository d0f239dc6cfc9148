//! Worlds.

ghost use Rattle.std.specs.Prelude.{◌≡◌, ◌<◌};
ghost use Rattle.typing_model.specs.FailingPlace.{world_failure};
ghost use Rattle.linked_laws.specs.Worlds.{IsLinkedWorld};
ghost use Rattle.stackmap_verify.specs.Outcome.{Answers, VerifiesAs};

use crate::error::VerifyError;
use crate::methods::verify_class;
use crate::verified::Verified;
use class_world::World;
use jv_types::{ClassNo, Steps};
use std::alloc::Global;
use std::marker::Brand;
use std::sync::ledger::{Blank, Ledger};

/// Verifies the methods of all classes in order, over a ledger of the steps.
fn verify_classes<L: Ledger>(alloc: Global, blank: Blank, world: &World) -> Result<(), VerifyError>
    requires name { blank.name ≡ L.name }
    requires parts { blank.parts ≡ L.parts }
    requires shared { 0 < blank.parts }
    requires world { IsLinkedWorld world.now }
    ensures { Answers (world_failure world.now) result }
{
    let mut steps = Steps::<L>::new(blank);
    for class in 0..world.classes() {
        verify_class(alloc, world, ClassNo(class), &mut steps)?;
    }
    Ok(())
}

/// Verifies each method of a linked world (JVMS 4.10.1). The error is the first failure: the first
/// method in the order of classes and of their methods, its first instruction and the first rule
/// that it breaks there. Only want of memory may come instead. With an error the world comes back.
pub fn verify_world(alloc: Global, world: World) -> Result<Verified, (World, VerifyError)>
    requires { IsLinkedWorld world }
    ensures { VerifiesAs world result }
{
    match verify_classes::<Brand>(alloc, Blank::new(1), &world) {
        Ok(()) => Ok(Verified::of(world)),
        Err(error) => Err((world, error)),
    }
}
