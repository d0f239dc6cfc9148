//! Method descriptors (JVMS 4.3.3).

ghost use Rattle.std.specs.Prelude.{◌≡◌, ◌≤◌, option_map, length, map, sum, [], IfOk};
ghost use Rattle.code_model.specs.TypeReading.{parameters_within, result_of, words_of_type, method_type_of as type_spelled};
ghost use Rattle.descriptor_types.specs.Types.{field_type_of, field_types_of, method_type_of, behind_types};

use crate::field::{field_type, field_type_at, is_there};
use crate::types::{ElementType, FieldType, MethodType};
use jv_types::{List, NoMemory};
use std::alloc::Global;

/// The most words that the parameters of a method take.
const MOST_WORDS: u32 = 255;

const OPEN: u16 = 0x28;

const CLOSE: u16 = 0x29;

const VOID: u16 = 0x56;

/// What a method gives: a type, or nothing where the units are V.
fn result_type(units: &[u16]) -> Option<Option<FieldType<'_>>>
    ensures { option_map (λ found. option_map field_type_of found) result ≡ result_of units.now }
{
    if let [VOID] = units {
        return Some(None);
    }
    Some(Some(field_type(units)?))
}

/// Adds the parameters up to the parenthesis, and gives the units behind it.
fn read_parameters<'a>(
    parameters: &mut List<FieldType<'a>>,
    units: &'a [u16],
) -> Result<Option<&'a [u16]>, NoMemory>
    requires { parameters.old.items ≡ [] }
    ensures few { length parameters.new.items ≤ 255 }
    ensures types { IfOk result (λ behind. behind_types parameters.new.items behind
        ≡ parameters_within 255 units.now) }
{
    let mut rest = units;
    while parameters.len() < MOST_WORDS && !is_there(CLOSE, rest) {
        let Some((parameter, behind)) = field_type_at(rest) else {
            return Ok(None);
        };
        parameters.push(parameter)?;
        rest = behind;
    }
    if is_there(CLOSE, rest) {
        Ok(Some(&rest[1..]))
    } else {
        Ok(None)
    }
}

/// The words that a value of a type takes (JVMS 2.6.1, 2.6.2).
fn words_of(parameter: FieldType<'_>) -> u32
    ensures words { result ≡ words_of_type (field_type_of parameter.entry) }
    ensures few { result ≤ 2 }
{
    if parameter.dimensions > 0 {
        return 1;
    }
    match parameter.element {
        ElementType::Long | ElementType::Double => 2,
        _ => 1,
    }
}

/// The words that parameters take.
fn words_of_all(parameters: &[FieldType<'_>]) -> u32
    requires { length parameters.now ≤ 255 }
    ensures { result ≡ sum (map words_of_type (field_types_of parameters.now)) }
{
    let mut words = 0;
    for parameter in parameters {
        words += words_of(*parameter);
    }
    words
}

/// The type that a method descriptor spells, where it is well formed. It fails only for want of
/// memory.
pub fn method_type(alloc: Global, units: &[u16]) -> Result<Option<MethodType<'_>>, NoMemory>
    ensures { IfOk result (λ found. option_map method_type_of found ≡ type_spelled units.now) }
{
    if !is_there(OPEN, units) {
        return Ok(None);
    }
    let mut parameters = List::new(alloc);
    let Some(rest) = read_parameters(&mut parameters, &units[1..])? else {
        return Ok(None);
    };
    let Some(result) = result_type(rest) else {
        return Ok(None);
    };
    if words_of_all(parameters.as_slice()) > MOST_WORDS {
        return Ok(None);
    }
    Ok(Some(MethodType { parameters, result }))
}
