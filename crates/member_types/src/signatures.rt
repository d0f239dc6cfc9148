//! What the descriptor of a method asks of a call (JVMS 4.3.3).

ghost use Rattle.std.specs.Prelude.{◌≡◌, ◌++◌, true, option_to_list, IfOk, IfSome, map, reverse, option_map};
ghost use Rattle.world_model.specs.World.{World as ModelWorld};
ghost use Rattle.typing_model.specs.VerificationType.{type_of as model_type_of};
ghost use Rattle.jv_model.specs.Partial.{passes};
ghost use Rattle.code_model.specs.TypeReading.{method_type_of};
ghost use Rattle.link_model.specs.UseFaults.{are_types_there};
ghost use Rattle.type_rules.specs.Types.{type_of, field_type_of, IsKnownElement, IsKnownType};
ghost use Rattle.type_rules.specs.Frames.{types_of, AreKnown};
ghost use Rattle.instruction_types.specs.declared.operands.Wanted.TheVariants as wanted_types;
ghost use Rattle.member_types.specs.Signatures.{AreKnownFields, IsSignature};

use class_world::World;
use instruction_types::Wanted;
use jv_types::{List, NoMemory};
use numbered_types::method_type;
use std::alloc::{AllocError, Global};
use type_rules::{FieldType, VerificationType};

/// What the parameters and the result of a method are to the verifier.
#[derive(Debug, Drop)]
pub struct Signature {
    pub parameters: List<VerificationType>,
    /// None where the method returns nothing.
    pub result: Option<VerificationType>,
}

/// What values of some types are to the verifier.
fn verification_types(
    alloc: Global,
    types: &[FieldType],
) -> Result<List<VerificationType>, NoMemory>
    ensures same { IfOk result (λ found. (world : ModelWorld) → types_of world found.items
        ≡ map (λ type. model_type_of (field_type_of world type)) types.now) }
    ensures known { IfOk result (λ found. (world : ModelWorld) → AreKnownFields world types.now
        → AreKnown world found.items) }
{
    let mut found = List::new(alloc);
    for field_type in types {
        found.push(field_type.verification_type())?;
    }
    Ok(found)
}

/// What the result of a method is to the verifier.
fn result_type(returned: Option<FieldType>) -> Option<VerificationType>
    ensures same { (world : ModelWorld) → option_map (type_of world) result
        ≡ option_map (λ type. model_type_of (field_type_of world type)) returned }
    ensures known { (world : ModelWorld)
        → IfSome returned (λ type. IsKnownElement world type.element)
        → IfSome result (IsKnownType world) }
{
    match returned {
        Some(there) => Some(there.verification_type()),
        None => None,
    }
}

/// What the descriptor of a linked method asks of a call.
pub fn read_signature(
    alloc: Global,
    world: &World,
    descriptor: &[u16],
) -> Result<Signature, NoMemory>
    requires { passes (are_types_there world.now) (method_type_of descriptor.now) ≡ true }
    ensures { IfOk result (λ found. IsSignature world.now descriptor.now found) }
{
    let types = method_type(alloc, world, descriptor)?.unwrap();
    Ok(Signature {
        parameters: verification_types(alloc, types.parameters.as_slice())?,
        result: result_type(types.result),
    })
}

/// What the arguments of a call have to be, from the last one on.
fn arguments_wanted(alloc: Global, types: &[VerificationType]) -> Result<Vec<Wanted>, AllocError>
    ensures { IfOk result (λ wanted. wanted.items ≡ map wanted_types.To (reverse types.now)) }
{
    types
        .iter()
        .rev()
        .map(|there| Wanted::To(*there))
        .collect(alloc)
}

/// What the operands of a call have to be, from the last argument on to the receiver, where there
/// is one.
pub fn operands_wanted(
    alloc: Global,
    types: &[VerificationType],
    receiver: Option<Wanted>,
) -> Result<Vec<Wanted>, NoMemory>
    ensures { IfOk result (λ wanted. wanted.items
        ≡ map wanted_types.To (reverse types.now) ++ option_to_list receiver) }
{
    let mut wanted = arguments_wanted(alloc, types)?;
    match receiver {
        Some(receiver) => {
            wanted.push(receiver)?;
            Ok(wanted)
        }
        None => Ok(wanted),
    }
}
