//! Where flow goes on after an instruction (JVMS 4.10.1.6).

ghost use Rattle.std.specs.Prelude.{◌≡◌, ℕ, map, IfOk};
ghost use Rattle.std.specs.List.{list_all};
ghost use Rattle.jv_model.specs.Operand.{Operand};
ghost use Rattle.jv_model.specs.Flow.{goes_on as model_goes_on, targets_of};
ghost use Rattle.code_model.specs.MappedInstruction.{mapped_instruction};
ghost use Rattle.typing_model.specs.Environment.{Environment as ModelEnvironment};
ghost use Rattle.typing_model.specs.Rules.{goes_to as model_goes_to};
ghost use Rattle.jv_types.specs.Instruction.{instruction_of};
ghost use Rattle.jv_types.specs.declared.instruction.SwitchPair.{SwitchPair};
ghost use Rattle.type_rules.specs.Frames.{frame_of, IsKnownFrame};
ghost use Rattle.stackmap_verify.specs.Methods.{IsMethod, IsSound};

use crate::maps::goes_to;
use crate::method::Method;
use jv_types::{Instruction, NoMemory, Steps, SwitchPair};
use std::alloc::Global;
use std::sync::ledger::Ledger;
use type_rules::TypeFrame;

/// Whether flow goes to the next instruction.
#[tactic(auto, unfolding(jv_model::specs::Flow::goes_on))]
pub fn goes_on(instruction: &Instruction) -> bool
    ensures { (names : ℕ → Operand) → result
        ≡ model_goes_on (mapped_instruction names (instruction_of instruction.now)) }
{
    !matches!(
        instruction,
        Instruction::Goto(_)
            | Instruction::Tableswitch { .. }
            | Instruction::Lookupswitch { .. }
            | Instruction::ReturnValue(_)
            | Instruction::ReturnVoid
            | Instruction::Athrow
    )
}

/// Whether a frame goes to the map frame at each of some places.
fn goes_to_all<L: Ledger>(
    alloc: Global,
    method: &Method,
    frame: &TypeFrame,
    targets: &[u32],
    steps: &mut Steps<L>,
) -> Result<bool, NoMemory>
    requires method { IsSound method.now }
    requires frame { IsKnownFrame method.now.world.now frame.now }
    ensures { IfOk result (λ go. (e : ModelEnvironment) → IsMethod method.now e
        → go ≡ list_all (model_goes_to e (frame_of method.now.world.now frame.now)) targets.now) }
{
    for target in targets {
        if !goes_to(alloc, method, frame, *target, steps)? {
            return Ok(false);
        }
    }
    Ok(true)
}

/// Whether a frame goes to the map frame at the target of each pair.
fn goes_to_pairs<L: Ledger>(
    alloc: Global,
    method: &Method,
    frame: &TypeFrame,
    pairs: &[SwitchPair],
    steps: &mut Steps<L>,
) -> Result<bool, NoMemory>
    requires method { IsSound method.now }
    requires frame { IsKnownFrame method.now.world.now frame.now }
    ensures { IfOk result (λ go. (e : ModelEnvironment) → IsMethod method.now e
        → go ≡ list_all (λ (pair : SwitchPair).
        model_goes_to e (frame_of method.now.world.now frame.now) pair.target) pairs.now) }
{
    for pair in pairs {
        if !goes_to(alloc, method, frame, pair.target, steps)? {
            return Ok(false);
        }
    }
    Ok(true)
}

/// Whether a frame goes to each target of an instruction. Each class looked at is a step.
#[tactic(auto, unfolding(jv_model::specs::Flow::targets_of))]
pub fn goes_to_targets<L: Ledger>(
    alloc: Global,
    method: &Method,
    frame: &TypeFrame,
    instruction: &Instruction,
    steps: &mut Steps<L>,
) -> Result<bool, NoMemory>
    requires method { IsSound method.now }
    requires frame { IsKnownFrame method.now.world.now frame.now }
    ensures { IfOk result (λ go. (e : ModelEnvironment) → IsMethod method.now e
        → (names : ℕ → Operand)
        → go ≡ list_all (model_goes_to e (frame_of method.now.world.now frame.now))
        (targets_of (mapped_instruction names (instruction_of instruction.now)))) }
{
    match instruction {
        Instruction::IfZero(_, target)
        | Instruction::IfInts(_, target)
        | Instruction::IfReferences(_, target)
        | Instruction::IfNull(_, target)
        | Instruction::Goto(target) => goes_to(alloc, method, frame, *target, steps),
        Instruction::Tableswitch {
            otherwise,
            targets,
            ..
        } => {
            let goes = goes_to(alloc, method, frame, *otherwise, steps)?;
            Ok(goes && goes_to_all(alloc, method, frame, targets.as_slice(), steps)?)
        }
        Instruction::Lookupswitch { otherwise, pairs } => {
            let goes = goes_to(alloc, method, frame, *otherwise, steps)?;
            Ok(goes && goes_to_pairs(alloc, method, frame, pairs.as_slice(), steps)?)
        }
        _ => Ok(true),
    }
}
