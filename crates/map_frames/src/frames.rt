//! The frames that a method's code begins with, and that its stack map says.

ghost use Rattle.std.specs.Prelude.{◌≡◌, ◌++◌, if◌then◌else◌, IfOk, OnOk, map};
ghost use Rattle.world_model.specs.World.{World as ModelWorld};
ghost use Rattle.code_model.specs.Names.{named_type, named_frame};
ghost use Rattle.typing_model.specs.VerificationType.{this, class, type_of as model_type_of};
ghost use Rattle.typing_model.specs.Environment.{Environment as ModelEnvironment, is_constructor};
ghost use Rattle.typing_model.specs.DescriptorFrame.{as_locals, receivers as model_receivers, parameter_locals as model_parameter_locals, descriptor_frame, has_room as model_has_room, map_type as model_map_type, map_frame as model_map_frame};
ghost use Rattle.jv_types.specs.ClassData.{pool_of};
ghost use Rattle.jv_types.specs.Code.{map_types_of, frame_of as map_frame_of};
ghost use Rattle.type_rules.specs.Types.{type_of, field_type_of, IsKnown, IsKnownType};
ghost use Rattle.type_rules.specs.Frames.{types_of, frame_of, AreKnown, IsKnownFrame};
ghost use Rattle.instruction_types.specs.Environment.{IsEnvironment};
ghost use Rattle.member_types.specs.Signatures.{AreKnownFields};
ghost use Rattle.map_frames.specs.Methods.{HasParameters, HasMethodCode};
ghost use Rattle.map_frames.specs.Linked.{AreLinkedEntries, HasLinkedEntries};

use crate::locals::{fill, push_local};
use crate::method::MethodCode;
use crate::types::map_type;
use class_world::World;
use instruction_types::Environment;
use jv_types::{List, MapFrame, MapType, NoMemory};
use std::alloc::Global;
use type_rules::{FieldType, TypeFrame, VerificationType};

/// What `this` is where a method that isn't static begins.
fn receiver(here: &Environment) -> VerificationType
    ensures same { (world : ModelWorld) → (e : ModelEnvironment)
        → IsEnvironment world here.now e → type_of world result
        ≡ (if is_constructor e then this else class e.class.name) }
    ensures known { (world : ModelWorld) → IsKnown world here.now.class
        → IsKnownType world result }
{
    if here.is_constructor {
        VerificationType::This
    } else {
        VerificationType::Class(here.class)
    }
}

/// The receiver, where there is one.
fn receivers(
    alloc: Global,
    here: &Environment,
    code: &MethodCode,
) -> Result<List<VerificationType>, NoMemory>
    ensures same { IfOk result (λ locals. (world : ModelWorld) → (e : ModelEnvironment)
        → IsEnvironment world here.now e → HasMethodCode world code.now e
        → types_of world locals.items ≡ model_receivers e) }
    ensures known { IfOk result (λ locals. (world : ModelWorld) → IsKnown world here.now.class
        → AreKnown world locals.items) }
{
    let mut locals = List::new(alloc);
    if code.is_static {
        return Ok(locals);
    }
    locals.push(receiver(here))?;
    Ok(locals)
}

/// Adds what parameters are.
fn push_parameters(
    locals: &mut List<VerificationType>,
    parameters: &[FieldType],
) -> Result<(), NoMemory>
    ensures same { (world : ModelWorld) → OnOk result (types_of world locals.new.items
        ≡ types_of world locals.old.items ++ as_locals
        (map (λ parameter. model_type_of (field_type_of world parameter)) parameters.now)) }
    ensures known { (world : ModelWorld) → AreKnown world locals.old.items
        → AreKnownFields world parameters.now → OnOk result (AreKnown world locals.new.items) }
{
    for parameter in parameters {
        push_local(locals, parameter.verification_type())?;
    }
    Ok(())
}

/// The receiver, where there is one, and the parameters, as locals.
fn parameter_locals(
    alloc: Global,
    here: &Environment,
    code: &MethodCode,
) -> Result<List<VerificationType>, NoMemory>
    ensures same { IfOk result (λ locals. (world : ModelWorld) → (e : ModelEnvironment)
        → IsEnvironment world here.now e → HasMethodCode world code.now e
        → types_of world locals.items ≡ model_parameter_locals e) }
    ensures known { IfOk result (λ locals. (world : ModelWorld) → IsKnown world here.now.class
        → AreKnownFields world code.now.parameters.now → AreKnown world locals.items) }
{
    let mut locals = receivers(alloc, here, code)?;
    push_parameters(&mut locals, code.parameters)?;
    Ok(locals)
}

/// The frame that a method's code begins with. Where the parameters don't find their places, it has
/// more locals than the code.
pub fn start_frame(
    alloc: Global,
    here: &Environment,
    code: &MethodCode,
) -> Result<TypeFrame, NoMemory>
    ensures same { IfOk result (λ frame. (world : ModelWorld) → (e : ModelEnvironment)
        → IsEnvironment world here.now e → HasMethodCode world code.now e
        → descriptor_frame e ≡ frame_of world frame) }
    ensures known { IfOk result (λ frame. (world : ModelWorld) → IsKnown world here.now.class
        → AreKnownFields world code.now.parameters.now → IsKnownFrame world frame) }
{
    let mut locals = parameter_locals(alloc, here, code)?;
    fill(&mut locals, code.body.max_locals)?;
    Ok(TypeFrame::new(locals, List::new(alloc)))
}

/// Whether the parameters of a method find their places in the frame that its code begins with.
pub fn has_room(code: &MethodCode, start: &TypeFrame) -> bool
    ensures { (world : ModelWorld) → (e : ModelEnvironment) → HasMethodCode world code.now e
        → descriptor_frame e ≡ frame_of world start.now → result ≡ model_has_room e }
{
    start.local_count() <= u32::from(code.body.max_locals)
}

/// What types of the map are, as locals.
fn map_locals(
    alloc: Global,
    world: &World,
    code: &MethodCode,
    types: &[MapType],
) -> Result<List<VerificationType>, NoMemory>
    requires linked { AreLinkedEntries world.now (pool_of code.now.pool.now)
        (map_types_of types.now) }
    requires parameters { AreKnownFields world.now code.now.parameters.now }
    ensures same { IfOk result (λ locals. (e : ModelEnvironment)
        → HasParameters world.now code.now e → types_of world.now locals.items
        ≡ as_locals (map (model_map_type e) (map
        (named_type (pool_of code.now.pool.now) (Some e.type)) (map_types_of types.now)))) }
    ensures known { IfOk result (λ locals. AreKnown world.now locals.items) }
{
    let mut locals = List::new(alloc);
    locals.reserve(u32::from(code.body.max_locals))?;
    for there in types {
        push_local(&mut locals, map_type(world, code, *there))?;
    }
    Ok(locals)
}

/// What types of the map are, as operands.
fn map_operands(
    alloc: Global,
    world: &World,
    code: &MethodCode,
    types: &[MapType],
) -> Result<List<VerificationType>, NoMemory>
    requires linked { AreLinkedEntries world.now (pool_of code.now.pool.now)
        (map_types_of types.now) }
    requires parameters { AreKnownFields world.now code.now.parameters.now }
    ensures same { IfOk result (λ operands. (e : ModelEnvironment)
        → HasParameters world.now code.now e → types_of world.now operands.items
        ≡ map (model_map_type e) (map
        (named_type (pool_of code.now.pool.now) (Some e.type)) (map_types_of types.now))) }
    ensures known { IfOk result (λ operands. AreKnown world.now operands.items) }
{
    let mut operands = List::new(alloc);
    for there in types {
        operands.push(map_type(world, code, *there))?;
    }
    Ok(operands)
}

/// A frame that the map says.
pub fn map_frame(
    alloc: Global,
    world: &World,
    code: &MethodCode,
    frame: &MapFrame,
) -> Result<TypeFrame, NoMemory>
    requires linked { HasLinkedEntries world.now (pool_of code.now.pool.now)
        (map_frame_of frame.now) }
    requires parameters { AreKnownFields world.now code.now.parameters.now }
    ensures same { IfOk result (λ made. (e : ModelEnvironment)
        → HasMethodCode world.now code.now e → model_map_frame e
        (named_frame (pool_of code.now.pool.now) (Some e.type) (map_frame_of frame.now))
        ≡ frame_of world.now made) }
    ensures known { IfOk result (IsKnownFrame world.now) }
{
    let mut locals = map_locals(alloc, world, code, frame.locals.as_slice())?;
    fill(&mut locals, code.body.max_locals)?;
    let operands = map_operands(alloc, world, code, frame.stack.as_slice())?;
    Ok(TypeFrame::new(locals, operands))
}
