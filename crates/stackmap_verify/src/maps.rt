//! The frames of a stack map at their places (JVMS 4.7.4).

ghost use Rattle.std.specs.Prelude.{◌≡◌, option_map, IfOk, IfSome};
ghost use Rattle.typing_model.specs.Environment.{Environment as ModelEnvironment};
ghost use Rattle.typing_model.specs.DescriptorFrame.{map_frame_at as model_map_frame_at};
ghost use Rattle.typing_model.specs.Rules.{goes_to as model_goes_to};
ghost use Rattle.type_rules.specs.Frames.{frame_of, IsKnownFrame};
ghost use Rattle.stackmap_verify.specs.Methods.{IsMethod, IsSound};

use crate::method::Method;
use jv_types::{NoMemory, Steps};
use map_frames::map_frame;
use std::alloc::Global;
use std::sync::ledger::Ledger;
use type_rules::{TypeFrame, frame_assignable};

/// The map frame at a place, where there is one.
pub fn map_frame_at(alloc: Global, method: &Method, pc: u32) -> Result<Option<TypeFrame>, NoMemory>
    requires { IsSound method.now }
    ensures same { IfOk result (λ found. (e : ModelEnvironment) → IsMethod method.now e
        → option_map (frame_of method.now.world.now) found ≡ model_map_frame_at e pc) }
    ensures known { IfOk result (λ found. IfSome found (IsKnownFrame method.now.world.now)) }
{
    let Some(number) = method.numbers.at(pc) else {
        return Ok(None);
    };
    let frame = method.code.body.frames.frame(alloc, number)?;
    Ok(Some(map_frame(alloc, method.world, method.code, &frame)?))
}

/// Whether a map frame is at a place, and the frame goes to it. Each class looked at is a step.
pub fn goes_to<L: Ledger>(
    alloc: Global,
    method: &Method,
    frame: &TypeFrame,
    pc: u32,
    steps: &mut Steps<L>,
) -> Result<bool, NoMemory>
    requires method { IsSound method.now }
    requires frame { IsKnownFrame method.now.world.now frame.now }
    ensures { IfOk result (λ goes. (e : ModelEnvironment) → IsMethod method.now e
        → goes ≡ model_goes_to e (frame_of method.now.world.now frame.now) pc) }
{
    match map_frame_at(alloc, method, pc)? {
        Some(target) => Ok(frame_assignable(method.world, frame, &target, steps)),
        None => Ok(false),
    }
}
