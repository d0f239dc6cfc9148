//! What the types that a stack map names are to the verifier (JVMS 4.7.4, 4.10.1.2).

ghost use Rattle.std.specs.Prelude.{◌≡◌, true, slice_get};
ghost use Rattle.std.specs.Option.{option_map_or};
ghost use Rattle.world_model.specs.World.{World as ModelWorld, Class};
ghost use Rattle.code_model.specs.Laws.{IsFieldType};
ghost use Rattle.code_model.specs.Names.{operand_at, argument_type as model_argument_type, named_type as map_type_named};
ghost use Rattle.link_model.specs.UseFaults.{names_type};
ghost use Rattle.typing_model.specs.VerificationType.{top, type_of as model_type_of};
ghost use Rattle.typing_model.specs.Environment.{Environment as ModelEnvironment, class_of, named_type as model_named_type};
ghost use Rattle.typing_model.specs.DescriptorFrame.{map_type as model_map_type};
ghost use Rattle.jv_types.specs.ClassData.{pool_of};
ghost use Rattle.jv_types.specs.Code.{map_type_of};
ghost use Rattle.type_rules.specs.Types.{type_of, field_type_of, IsKnownElement, IsKnownType};
ghost use Rattle.linked_laws.specs.Operands.{ClassIsLinked};
ghost use Rattle.member_types.specs.Signatures.{AreKnownFields};
ghost use Rattle.map_frames.specs.Methods.{HasParameters};
ghost use Rattle.map_frames.specs.Linked.{EntryIsLinked};

use crate::method::MethodCode;
use class_world::World;
use jv_types::{Const, MapType};
use member_types::names::class_name;
use numbered_types::field_type;
use type_rules::{ElementType, FieldType, VerificationType};

const BRACKET: u16 = 0x5b;

/// What an object of the type that a Class entry's name stands for is to the verifier: an array
/// where it is the descriptor of one.
fn named_type(world: &World, name: &[u16]) -> VerificationType
    requires { names_type world.now (λ (class : Class). true) name.now ≡ true }
    ensures same { type_of world.now result ≡ model_type_of (model_named_type name.now) }
    ensures known { IsKnownType world.now result }
{
    if name.starts_with(&[BRACKET]) {
        return field_type(world, name).unwrap().verification_type();
    }
    VerificationType::Class(world.class_named(name).unwrap())
}

/// What an object of the type that an entry names is to the verifier.
fn object_type(world: &World, pool: &[Const], index: u16) -> VerificationType
    requires { ClassIsLinked world.now (operand_at (pool_of pool.now) index) }
    ensures same { type_of world.now result
        ≡ option_map_or (λ name. model_type_of (model_named_type name))
        (class_of (operand_at (pool_of pool.now) index)) top }
    ensures known { IsKnownType world.now result }
{
    match class_name(pool, index) {
        Some(name) => named_type(world, name),
        None => VerificationType::Top,
    }
}

/// What a parameter is in a frame of the map. Of a double the map keeps the words alone.
fn argument_type(parameter: FieldType) -> VerificationType
    ensures same { (world : ModelWorld) → (e : ModelEnvironment)
        → IsFieldType (field_type_of world parameter) → type_of world result
        ≡ model_map_type e (model_argument_type (field_type_of world parameter)) }
    ensures known { (world : ModelWorld) → IsKnownElement world parameter.element
        → IsKnownType world result }
{
    if parameter.dimensions > 0 {
        return parameter.verification_type();
    }
    match parameter.element {
        ElementType::Double => VerificationType::Long,
        _ => parameter.verification_type(),
    }
}

/// The type of the parameter with a number, where there is one.
fn parameter(code: &MethodCode, number: u16) -> Option<FieldType>
    ensures { result ≡ slice_get code.now.parameters.now number }
{
    code.parameters.get(usize::from(number)).copied()
}

/// What a type of the map is to the verifier.
#[tactic(auto, unfolding(typing_model::specs::DescriptorFrame::map_type))]
pub fn map_type(world: &World, code: &MethodCode, there: MapType) -> VerificationType
    requires linked { EntryIsLinked world.now (pool_of code.now.pool.now) (map_type_of there) }
    requires parameters { AreKnownFields world.now code.now.parameters.now }
    ensures same { (e : ModelEnvironment) → HasParameters world.now code.now e
        → type_of world.now result ≡ model_map_type e
        (map_type_named (pool_of code.now.pool.now) (Some e.type) (map_type_of there)) }
    ensures known { IsKnownType world.now result }
{
    match there {
        MapType::Top => VerificationType::Top,
        MapType::Int => VerificationType::Int,
        MapType::Long => VerificationType::Long,
        MapType::Null => VerificationType::Null,
        MapType::This => VerificationType::This,
        MapType::Object(index) => object_type(world, code.pool, index),
        MapType::Argument(number) => match parameter(code, number) {
            Some(parameter) => argument_type(parameter),
            None => VerificationType::Top,
        },
        MapType::New(pc) => VerificationType::New(pc),
    }
}
