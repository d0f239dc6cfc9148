//! The types of methods (JVMS 4.3.3).

ghost use Rattle.std.specs.Prelude.{◌≡◌, ◌≤◌, [], IfOk, option_map, option_and_then, length};
ghost use Rattle.code_model.specs.TypeReading.{parameters_within, result_of, method_type_of};
ghost use Rattle.numbered_types.specs.Numbered.{all_numbered, number_of_result};
ghost use Rattle.numbered_types.specs.Methods.{types_before, method_shown, number_of_method};

use crate::field_types::{field_type, next_type};
use crate::units::is_there;
use class_world::World;
use jv_types::{List, NoMemory, is_text};
use method_descriptors::parameter_words;
use std::alloc::Global;
use type_rules::FieldType;

/// The type of a method.
#[derive(Debug, Drop)]
pub struct MethodType {
    pub parameters: List<FieldType>,
    /// None where the method returns nothing.
    pub result: Option<FieldType>,
}

/// The most words that the parameters of a method have.
const MOST: u32 = 255;

const CLOSE: u16 = 0x29;

/// Adds the types of parameters up to the parenthesis, and gives the units after it.
fn read_parameters<'a>(
    world: &World,
    types: &mut List<FieldType>,
    units: &'a [u16],
) -> Result<Option<&'a [u16]>, NoMemory>
    requires { types.old.items ≡ [] }
    ensures { IfOk result (λ behind. types_before types.new.items behind
        ≡ all_numbered world.now (parameters_within 255 units.now)) }
{
    let mut rest = units;
    while types.len() < MOST && !is_there(CLOSE, rest) {
        let Some((parameter, behind)) = next_type(world, rest) else {
            return Ok(None);
        };
        types.push(parameter)?;
        rest = behind;
    }
    if is_there(CLOSE, rest) {
        Ok(Some(&rest[1..]))
    } else {
        Ok(None)
    }
}

/// What a method returns: a type, or nothing.
fn result_type(world: &World, units: &[u16]) -> Option<Option<FieldType>>
    ensures { result ≡ option_and_then (number_of_result world.now) (result_of units.now) }
{
    if is_text(units, b"V") {
        return Some(None);
    }
    match field_type(world, units) {
        Some(type_read) => Some(Some(type_read)),
        None => None,
    }
}

/// The type that a method descriptor spells, where it is well formed and the classes in it are
/// there.
pub fn method_type(
    alloc: Global,
    world: &World,
    units: &[u16],
) -> Result<Option<MethodType>, NoMemory>
    ensures { IfOk result (λ found. option_map method_shown found
        ≡ option_and_then (number_of_method world.now) (method_type_of units.now)) }
{
    let Some(_) = parameter_words(alloc, units)? else {
        return Ok(None);
    };
    let mut parameters = List::new(alloc);
    let Some(behind) = read_parameters(world, &mut parameters, &units[1..])? else {
        return Ok(None);
    };
    match result_type(world, behind) {
        Some(result) => Ok(Some(MethodType { parameters, result })),
        None => Ok(None),
    }
}
