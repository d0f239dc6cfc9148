//! What the typing of a method's instructions looks at.

ghost use Rattle.std.specs.Prelude.{◌≡◌, option_map, Some, true, IfSome};
ghost use Rattle.world_model.specs.World.{World as ModelWorld, Class};
ghost use Rattle.link_model.specs.UseFaults.{is_class_where};
ghost use Rattle.typing_model.specs.VerificationType.{type_of as model_type_of};
ghost use Rattle.linked_laws.specs.Laws.{TypingIsGrounded};
ghost use Rattle.class_world.specs.World.{number_of};
ghost use Rattle.type_rules.specs.Types.{type_of, field_type_of, IsKnown, IsKnownElement, IsKnownType};
ghost use Rattle.instruction_types.specs.Environment.{IsReady};
ghost use Rattle.stackmap_verify.specs.Environments.{Describes};

use class_world::{ClassInfo, World};
use instruction_types::Environment;
use jv_types::{ClassNo, is_text};
use type_rules::{FieldType, VerificationType};

/// `java/lang/Object`
const OBJECT: [u16; 16] = [
    0x6a, 0x61, 0x76, 0x61, 0x2f, 0x6c, 0x61, 0x6e, 0x67, 0x2f, 0x4f, 0x62, 0x6a, 0x65, 0x63, 0x74,
];

/// `java/lang/String`
const STRING: [u16; 16] = [
    0x6a, 0x61, 0x76, 0x61, 0x2f, 0x6c, 0x61, 0x6e, 0x67, 0x2f, 0x53, 0x74, 0x72, 0x69, 0x6e, 0x67,
];

/// `java/lang/Throwable`
const THROWABLE: [u16; 19] = [
    0x6a, 0x61, 0x76, 0x61, 0x2f, 0x6c, 0x61, 0x6e, 0x67, 0x2f, 0x54, 0x68, 0x72, 0x6f, 0x77, 0x61,
    0x62, 0x6c, 0x65,
];

/// The class of a name, which is there.
fn class_there(world: &World, name: &[u16]) -> ClassNo
    requires { is_class_where world.now (λ (class : Class). true) name.now ≡ true }
    ensures { number_of world.now name.now ≡ Some result }
{
    world.class_named(name).unwrap()
}

/// What a method returns is to the verifier, where it returns something.
fn returned_type(returned: Option<FieldType>) -> Option<VerificationType>
    ensures same { (world : ModelWorld) → option_map (type_of world) result
        ≡ option_map model_type_of (option_map (field_type_of world) returned) }
    ensures known { (world : ModelWorld)
        → IfSome returned (λ type. IsKnownElement world type.element)
        → IfSome result (IsKnownType world) }
{
    match returned {
        Some(type_read) => Some(type_read.verification_type()),
        None => None,
    }
}

/// What the typing of the instructions of a method of that name looks at, which returns that type
/// and whose code has that size of stack.
pub fn environment(
    world: &World,
    class: &ClassInfo,
    name: &[u16],
    returned: Option<FieldType>,
    max_stack: u16,
) -> Environment
    requires grounded { TypingIsGrounded world.now }
    requires class { is_class_where world.now (λ (c : Class). true) class.now.name.items ≡ true }
    requires superclass { IfSome class.now.superclass (IsKnown world.now) }
    requires returned { IfSome returned (λ type. IsKnownElement world.now type.element) }
    ensures describes { Describes world.now class.now name.now returned max_stack result }
    ensures ready { IsReady world.now result }
{
    Environment {
        max_stack,
        class: class_there(world, class.name.as_slice()),
        superclass: class.superclass,
        is_constructor: is_text(name, b"<init>"),
        result: returned_type(returned),
        object: class_there(world, &OBJECT),
        string: class_there(world, &STRING),
        throwable: class_there(world, &THROWABLE),
    }
}
