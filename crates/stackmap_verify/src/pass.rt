//! The pass over the code of a method.

ghost use Rattle.std.specs.Prelude.{◌≡◌, [], is_some, IfOk, IfSome};
ghost use Rattle.typing_model.specs.Environment.{Environment as ModelEnvironment};
ghost use Rattle.typing_model.specs.DescriptorFrame.{descriptor_frame};
ghost use Rattle.type_rules.specs.Frames.{frame_of, IsKnownFrame};
ghost use Rattle.stackmap_verify.specs.Methods.{IsMethod, IsSound};
ghost use Rattle.stackmap_verify.specs.Passed.{Passes};

use crate::cover::Cover;
use crate::failure::{Failure, Place};
use crate::handlers::Watch;
use crate::kept::Kept;
use crate::method::Method;
use crate::visit::{Trail, visit};
use jv_types::{List, NoMemory, Steps};
use std::alloc::Global;
use std::sync::ledger::Ledger;
use type_rules::TypeFrame;

/// What comes of a pass over the code of a method.
#[derive(Drop)]
pub enum Passed {
    /// No instruction breaks a rule. Where frames are wanted, these are those of all instructions.
    Typed(Kept),
    /// The first one that does, and the first rule that it breaks.
    Breaks(Place),
}

/// The place of an instruction where the pass goes no further.
fn place_at(pc: u32, failure: Failure) -> Result<Place, NoMemory>
    ensures { IfOk result (λ place. (place.pc ≡ pc) × (failure ≡ Failure.Breaks place.rule)) }
{
    match failure {
        Failure::Breaks(rule) => Ok(Place { pc, rule }),
        Failure::NoMemory => Err(NoMemory),
    }
}

/// Goes over the instructions of a method from the frame that it begins with, and keeps their
/// frames where they are wanted.
pub fn pass_over<L: Ledger>(
    alloc: Global,
    method: &Method,
    start: TypeFrame,
    kept: Kept,
    steps: &mut Steps<L>,
) -> Result<Passed, NoMemory>
    requires method { IsSound method.now }
    requires start { IsKnownFrame method.now.world.now start }
    requires kept { IfSome kept (λ frames. frames ≡ []) }
    ensures { IfOk result (λ passed. (e : ModelEnvironment) → IsMethod method.now e
        → descriptor_frame e ≡ frame_of method.now.world.now start
        → Passes method.now.world.now e (is_some kept) passed) }
{
    let instructions = &method.code.body.instructions;
    let cover = Cover::of(alloc, method.code.body.handlers.as_slice())?;
    let watch = Watch {
        cover,
        locals: List::new(alloc),
    };
    let mut trail = Trail { watch, kept };
    let mut flow = Some(start);
    for number in 0..instructions.len() {
        let insn = instructions.get(number);
        let is_last = number + 1 == instructions.len();
        match visit(alloc, method, &mut trail, insn, is_last, flow, steps) {
            Ok(next) => flow = next,
            Err(failure) => return Ok(Passed::Breaks(place_at(insn.pc, failure)?)),
        }
    }
    Ok(Passed::Typed(trail.kept))
}
