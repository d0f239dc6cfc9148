//! The rules at an instruction, in their order (JVMS 4.10.1.6).

ghost use Rattle.std.specs.Prelude.{◌≡◌, ◌==◌, ◌&&◌, ℕ, ◌++◌, ◌∷◌, [], not, if◌then◌else◌, option_map, IfOk, IfSome, OnOk};
ghost use Rattle.jv_model.specs.Operand.{Operand};
ghost use Rattle.jv_model.specs.Flow.{goes_on as model_goes_on};
ghost use Rattle.code_model.specs.MappedInstruction.{mapped_instruction};
ghost use Rattle.code_model.specs.Names.{named_placed};
ghost use Rattle.typing_model.specs.Environment.{Environment as ModelEnvironment};
ghost use Rattle.typing_model.specs.DescriptorFrame.{has_room};
ghost use Rattle.typing_model.specs.Rules.{Visit as ModelVisit, frame_of as model_frame_of};
ghost use Rattle.linked_laws.specs.Code.{InstructionIsLinked};
ghost use Rattle.jv_types.specs.ClassData.{pool_of};
ghost use Rattle.jv_types.specs.Instruction.{instruction_of};
ghost use Rattle.jv_types.specs.Instructions.{placed_of};
ghost use Rattle.type_rules.specs.Frames.{Types, frame_of, IsKnownFrame};
ghost use Rattle.stackmap_verify.specs.Methods.{IsMethod, IsSound};
ghost use Rattle.stackmap_verify.specs.Watch.{IsWatch};
ghost use Rattle.stackmap_verify.specs.Visits.{flow_of, HasFrame, Enters, StepsTo, Leaves};

use crate::failure::Failure;
use crate::flow::{goes_on, goes_to_targets};
use crate::handlers::{Watch, one_misfits};
use crate::kept::Kept;
use crate::maps::map_frame_at;
use crate::method::Method;
use instruction_step::type_step;
use instruction_types::TypingError;
use jv_types::{Insn, Rule, Steps};
use member_types::constructors::Code;
use std::alloc::Global;
use std::sync::ledger::Ledger;
use type_rules::{TypeFrame, frame_assignable};

/// The frame of the instruction at a place: the map frame, to which the frame goes with which flow
/// comes, or else that one.
pub fn entry_frame<L: Ledger>(
    alloc: Global,
    method: &Method,
    pc: u32,
    flow: Option<TypeFrame>,
    steps: &mut Steps<L>,
) -> Result<TypeFrame, Failure>
    requires method { IsSound method.now }
    requires flow { IfSome flow (IsKnownFrame method.now.world.now) }
    ensures enters { (e : ModelEnvironment) → IsMethod method.now e → (v : ModelVisit)
        → v.placed.pc ≡ pc → v.flow ≡ flow_of method.now.world.now flow
        → Enters method.now.world.now e v result }
    ensures known { IfOk result (IsKnownFrame method.now.world.now) }
{
    match (map_frame_at(alloc, method, pc)?, flow) {
        (None, None) => Err(Failure::Breaks(Rule::After)),
        (None, Some(frame)) => Ok(frame),
        (Some(map), None) => Ok(map),
        (Some(map), Some(frame)) => {
            if frame_assignable(method.world, &frame, &map, steps) {
                Ok(map)
            } else {
                Err(Failure::Breaks(Rule::Map))
            }
        }
    }
}

/// Whether the parameters find their places, where the place is that of the first instruction.
fn has_room_at(method: &Method, pc: u32) -> bool
    ensures { (e : ModelEnvironment) → IsMethod method.now e
        → result ≡ not ((pc == 0) && not (has_room e)) }
{
    pc != 0 || method.has_room
}

/// The frame after an instruction. At the first one the parameters find their places.
fn step<L: Ledger>(
    alloc: Global,
    method: &Method,
    insn: &Insn,
    mut frame: TypeFrame,
    steps: &mut Steps<L>,
) -> Result<TypeFrame, TypingError>
    requires method { IsSound method.now }
    requires linked { InstructionIsLinked method.now.world.now
        (named_placed (pool_of method.now.code.now.pool.now) (placed_of insn.now)).instruction }
    requires frame { IsKnownFrame method.now.world.now frame }
    ensures steps { (e : ModelEnvironment) → IsMethod method.now e → (v : ModelVisit)
        → v.placed ≡ named_placed (pool_of method.now.code.now.pool.now) (placed_of insn.now)
        → model_frame_of e v ≡ Some (frame_of method.now.world.now frame)
        → StepsTo method.now.world.now e v result }
    ensures known { IfOk result (IsKnownFrame method.now.world.now) }
{
    if !has_room_at(method, insn.pc) {
        return Err(TypingError::Misfit);
    }
    let code = Code {
        pool: method.code.pool,
        instructions: &method.code.body.instructions,
    };
    type_step(
        alloc,
        method.world,
        method.here,
        &code,
        insn,
        &mut frame,
        steps,
    )?;
    Ok(frame)
}

/// Whether flow goes past the last instruction.
fn runs_out(insn: &Insn, is_last: bool) -> bool
    ensures { (names : ℕ → Operand) → result
        ≡ (model_goes_on (mapped_instruction names (instruction_of insn.now.instruction))
        && is_last) }
{
    is_last && goes_on(&insn.instruction)
}

/// The frame with which flow goes on from the one after an instruction.
fn flow_after(insn: &Insn, after: TypeFrame) -> Option<TypeFrame>
    ensures { (names : ℕ → Operand) → result
        ≡ (if model_goes_on (mapped_instruction names (instruction_of insn.now.instruction))
        then Some after else None) }
{
    if goes_on(&insn.instruction) {
        Some(after)
    } else {
        None
    }
}

/// The frame with which flow goes on from an instruction and its frame, where no rule fails.
pub fn leave<L: Ledger>(
    alloc: Global,
    method: &Method,
    watch: &mut Watch,
    insn: &Insn,
    is_last: bool,
    frame: TypeFrame,
    steps: &mut Steps<L>,
) -> Result<Option<TypeFrame>, Failure>
    requires method { IsSound method.now }
    requires watch { IsWatch method.now watch.old }
    requires linked { InstructionIsLinked method.now.world.now
        (named_placed (pool_of method.now.code.now.pool.now) (placed_of insn.now)).instruction }
    requires frame { IsKnownFrame method.now.world.now frame }
    ensures leaves { (e : ModelEnvironment) → IsMethod method.now e → (v : ModelVisit)
        → v.placed ≡ named_placed (pool_of method.now.code.now.pool.now) (placed_of insn.now)
        → v.is_last ≡ is_last → HasFrame e v (frame_of method.now.world.now frame)
        → Leaves method.now.world.now e v result }
    ensures watch { OnOk result (IsWatch method.now watch.new) }
    ensures known { IfOk result (λ flow. IfSome flow (IsKnownFrame method.now.world.now)) }
{
    if one_misfits(alloc, method, watch, insn.pc, &frame, steps)? {
        return Err(Failure::Breaks(Rule::Handler));
    }
    let after = step(alloc, method, insn, frame, steps)?;
    if !goes_to_targets(alloc, method, &after, &insn.instruction, steps)? {
        return Err(Failure::Breaks(Rule::Target));
    }
    if runs_out(insn, is_last) {
        return Err(Failure::Breaks(Rule::End));
    }
    Ok(flow_after(insn, after))
}

/// What a pass takes along: the handlers, and the frames so far.
#[derive(Drop)]
pub struct Trail {
    pub watch: Watch,
    pub kept: Kept,
}

/// Visits an instruction: the frame with which flow goes on, where no rule fails.
pub fn visit<L: Ledger>(
    alloc: Global,
    method: &Method,
    trail: &mut Trail,
    insn: &Insn,
    is_last: bool,
    flow: Option<TypeFrame>,
    steps: &mut Steps<L>,
) -> Result<Option<TypeFrame>, Failure>
    requires method { IsSound method.now }
    requires watch { IsWatch method.now trail.old.watch }
    requires linked { InstructionIsLinked method.now.world.now
        (named_placed (pool_of method.now.code.now.pool.now) (placed_of insn.now)).instruction }
    requires flow { IfSome flow (IsKnownFrame method.now.world.now) }
    ensures leaves { (e : ModelEnvironment) → IsMethod method.now e → (v : ModelVisit)
        → v.placed ≡ named_placed (pool_of method.now.code.now.pool.now) (placed_of insn.now)
        → v.flow ≡ flow_of method.now.world.now flow → v.is_last ≡ is_last
        → Leaves method.now.world.now e v result }
    ensures kept { OnOk result ((frame : Types)
        × (trail.new.kept ≡ option_map (λ frames. frames ++ frame ∷ []) trail.old.kept)
        × ((e : ModelEnvironment) → IsMethod method.now e → (v : ModelVisit)
        → v.placed ≡ named_placed (pool_of method.now.code.now.pool.now) (placed_of insn.now)
        → v.flow ≡ flow_of method.now.world.now flow
        → model_frame_of e v ≡ Some (frame_of method.now.world.now frame))) }
    ensures watch { OnOk result (IsWatch method.now trail.new.watch) }
    ensures known { IfOk result (λ flow. IfSome flow (IsKnownFrame method.now.world.now)) }
{
    let frame = entry_frame(alloc, method, insn.pc, flow, steps)?;
    trail.kept.keep(alloc, &frame)?;
    leave(alloc, method, &mut trail.watch, insn, is_last, frame, steps)
}
