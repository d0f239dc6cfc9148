//! The types of fields (JVMS 4.3.2).

ghost use Rattle.std.specs.Prelude.{◌≡◌, false, option_map, option_and_then};
ghost use Rattle.code_model.specs.TypeReading.{class_type_at, type_at, field_type_at, field_type_of};
ghost use Rattle.method_descriptors.specs.Parameters.{is_there};
ghost use Rattle.numbered_types.specs.Numbered.{plain, number_of_type, numbered};

use crate::units::{before_semicolon, dimensions_at, is_class_name};
use class_world::World;
use type_rules::{ElementType, FieldType};

/// The most dimensions of an array.
const MOST_DIMENSIONS: usize = 255;

/// The class whose name ends at the first semicolon, and the units after it.
fn class_at<'a>(world: &World, units: &'a [u16]) -> Option<(ElementType, &'a [u16])>
    ensures { option_map (λ read. (plain read.0, read.1.now)) result
        ≡ numbered world.now (class_type_at units.now) }
{
    let Some((name, behind)) = before_semicolon(units) else {
        return None;
    };
    if !is_class_name(name) {
        return None;
    }
    match world.class_named(name) {
        Some(class) => Some((ElementType::Class(class), behind)),
        None => None,
    }
}

/// The first type, which is no array, and the units after it.
#[tactic(auto, unfolding(code_model::specs::TypeReading::type_at))]
fn element_at<'a>(world: &World, units: &'a [u16]) -> Option<(ElementType, &'a [u16])>
    requires { is_there 0x5B units.now ≡ false }
    ensures { option_map (λ read. (plain read.0, read.1.now)) result
        ≡ numbered world.now (type_at units.now) }
{
    let [unit, rest @ ..] = units else {
        return None;
    };
    match *unit {
        // B
        0x42 => Some((ElementType::Byte, rest)),
        // C
        0x43 => Some((ElementType::Char, rest)),
        // D
        0x44 => Some((ElementType::Double, rest)),
        // F
        0x46 => Some((ElementType::Float, rest)),
        // I
        0x49 => Some((ElementType::Int, rest)),
        // J
        0x4a => Some((ElementType::Long, rest)),
        // S
        0x53 => Some((ElementType::Short, rest)),
        // Z
        0x5a => Some((ElementType::Boolean, rest)),
        // L
        0x4c => class_at(world, rest),
        _ => None,
    }
}

/// The first type, and the units after it.
pub fn next_type<'a>(world: &World, units: &'a [u16]) -> Option<(FieldType, &'a [u16])>
    ensures { option_map (λ read. (read.0, read.1.now)) result
        ≡ numbered world.now (field_type_at units.now) }
{
    let dimensions = dimensions_at(units);
    let Some((element, behind)) = element_at(world, &units[dimensions..]) else {
        return None;
    };
    if dimensions > MOST_DIMENSIONS {
        return None;
    }
    let type_read = FieldType {
        dimensions: dimensions as u8,
        element,
    };
    Some((type_read, behind))
}

/// The type that a field descriptor spells, where it is well formed and the class in it is there.
pub fn field_type(world: &World, units: &[u16]) -> Option<FieldType>
    ensures { result ≡ option_and_then (number_of_type world.now) (field_type_of units.now) }
{
    match next_type(world, units) {
        Some((type_read, [])) => Some(type_read),
        _ => None,
    }
}
