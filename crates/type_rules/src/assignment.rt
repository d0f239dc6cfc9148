//! Which types go where which types are wanted (JVMS 4.10.1.2).

ghost use Rattle.std.specs.Prelude.{◌≡◌};
ghost use Rattle.typing_model.specs.Assignable.{component_assignable as is_component_assignable, assignable as is_assignable, operand_assignable as is_operand_assignable};
ghost use Rattle.class_world.specs.World.{name_at};
ghost use Rattle.typing_model.specs.VerificationType.{class, array};
ghost use Rattle.type_rules.specs.Types.{type_of, element_of, field_type_of, names_object, IsKnown, IsKnownElement, IsKnownType};

use crate::class::{class_assignable, has_name};
use crate::types::{ElementType, FieldType, VerificationType};
use class_world::World;
use jv_types::{ClassNo, Steps};
use std::sync::ledger::Ledger;

/// The class of all objects, arrays among them.
const OBJECT: &[u8] = b"java/lang/Object";

/// Whether an element type is the class of all objects.
fn is_object(world: &World, element: ElementType) -> bool
    requires { IsKnownElement world.now element }
    ensures { result ≡ names_object (element_of world.now element) }
{
    match element {
        ElementType::Class(class) => has_name(world, class, OBJECT),
        _ => false,
    }
}

/// Whether components of one element type go where those of another are wanted.
#[tactic(auto, unfolding(typing_model::specs::Assignable::component_assignable, typing_model::specs::VerificationType::is_same_field_type))]
fn element_assignable<L: Ledger>(
    world: &World,
    from: ElementType,
    to: ElementType,
    steps: &mut Steps<L>,
) -> bool
    requires from { IsKnownElement world.now from }
    requires to { IsKnownElement world.now to }
    ensures { result
        ≡ is_component_assignable world.now (element_of world.now from) (element_of world.now to) }
{
    match from {
        ElementType::Class(from) => match to {
            ElementType::Class(to) => class_assignable(world, from, to, steps),
            _ => false,
        },
        _ => from.letter() == to.letter(),
    }
}

/// Whether components of one type go where those of another are wanted: references as they are by
/// themselves, others to their equals.
fn component_assignable<L: Ledger>(
    world: &World,
    from: FieldType,
    to: FieldType,
    steps: &mut Steps<L>,
) -> bool
    requires from { IsKnownElement world.now from.element }
    requires to { IsKnownElement world.now to.element }
    ensures { result
        ≡ is_component_assignable world.now (field_type_of world.now from) (field_type_of world.now to) }
{
    if from.dimensions > to.dimensions {
        return is_object(world, to.element);
    }
    from.dimensions == to.dimensions && element_assignable(world, from.element, to.element, steps)
}

/// Whether a value of a type goes where one of a class is wanted.
#[tactic(auto, unfolding(typing_model::specs::Assignable::assignable, typing_model::specs::VerificationType::is_same))]
fn goes_to_class<L: Ledger>(
    world: &World,
    from: VerificationType,
    to: ClassNo,
    steps: &mut Steps<L>,
) -> bool
    requires from { IsKnownType world.now from }
    requires to { IsKnown world.now to }
    ensures { result
        ≡ is_assignable world.now (type_of world.now from) (class (name_at world.now to)) }
{
    match from {
        VerificationType::Null => true,
        VerificationType::Class(from) => class_assignable(world, from, to, steps),
        VerificationType::Array(_) => has_name(world, to, OBJECT),
        VerificationType::Top
        | VerificationType::Int
        | VerificationType::Long
        | VerificationType::This
        | VerificationType::New(_) => false,
    }
}

/// Whether a value of a type goes where an array of such components is wanted.
#[tactic(auto, unfolding(typing_model::specs::Assignable::assignable, typing_model::specs::VerificationType::is_same))]
fn goes_to_array<L: Ledger>(
    world: &World,
    from: VerificationType,
    to: FieldType,
    steps: &mut Steps<L>,
) -> bool
    requires from { IsKnownType world.now from }
    requires to { IsKnownElement world.now to.element }
    ensures { result
        ≡ is_assignable world.now (type_of world.now from) (array (field_type_of world.now to)) }
{
    match from {
        VerificationType::Null => true,
        VerificationType::Array(from) => component_assignable(world, from, to, steps),
        VerificationType::Top
        | VerificationType::Int
        | VerificationType::Long
        | VerificationType::This
        | VerificationType::New(_)
        | VerificationType::Class(_) => false,
    }
}

/// Whether a value of one type goes where one of another is wanted. Uninitialized types go only to
/// themselves and to Top. Each class looked at is a step.
#[tactic(auto, unfolding(typing_model::specs::Assignable::assignable, typing_model::specs::VerificationType::is_same))]
pub fn assignable<L: Ledger>(
    world: &World,
    from: VerificationType,
    to: VerificationType,
    steps: &mut Steps<L>,
) -> bool
    requires from { IsKnownType world.now from }
    requires to { IsKnownType world.now to }
    ensures { result ≡ is_assignable world.now (type_of world.now from) (type_of world.now to) }
{
    match to {
        VerificationType::Top => true,
        VerificationType::Class(to) => goes_to_class(world, from, to, steps),
        VerificationType::Array(to) => goes_to_array(world, from, to, steps),
        VerificationType::Int => matches!(from, VerificationType::Int),
        VerificationType::Long => matches!(from, VerificationType::Long),
        VerificationType::Null => matches!(from, VerificationType::Null),
        VerificationType::This => matches!(from, VerificationType::This),
        VerificationType::New(pc) => matches!(from, VerificationType::New(made) if made == pc),
    }
}

/// Whether an operand of one type goes where one of another is wanted: on a stack a Long goes only
/// to Long. Each class looked at is a step.
pub fn operand_assignable<L: Ledger>(
    world: &World,
    from: VerificationType,
    to: VerificationType,
    steps: &mut Steps<L>,
) -> bool
    requires from { IsKnownType world.now from }
    requires to { IsKnownType world.now to }
    ensures { result
        ≡ is_operand_assignable world.now (type_of world.now from) (type_of world.now to) }
{
    match from {
        VerificationType::Long => matches!(to, VerificationType::Long),
        _ => assignable(world, from, to, steps),
    }
}
