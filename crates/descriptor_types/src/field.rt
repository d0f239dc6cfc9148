//! Field descriptors (JVMS 4.3.2).

ghost use Rattle.std.specs.Prelude.{◌≡◌, ◌≤◌, option_map, length, drop, false};
ghost use Rattle.code_model.specs.TypeReading.{before_semicolon, is_part_unit, is_class_name, type_at, field_type_at, field_type_of as type_spelled};
ghost use Rattle.descriptor_types.specs.Types.{element_of, field_type_of, is_there, arrays};

use crate::types::{ElementType, FieldType};

const SLASH: u16 = 0x2f;

const DOT: u16 = 0x2e;

const SEMICOLON: u16 = 0x3b;

const BRACKET: u16 = 0x5b;

/// The units before the first semicolon, and those behind it.
fn before_semicolon(units: &[u16]) -> Option<(&[u16], &[u16])>
    ensures { option_map (λ parts. (parts.0.now, parts.1.now)) result
        ≡ before_semicolon units.now }
{
    for at in 0..units.len() {
        if units[at] == SEMICOLON {
            return Some((&units[..at], &units[at + 1..]));
        }
    }
    None
}

/// Whether a unit stands in a part of a name.
fn is_part_unit(unit: u16) -> bool
    ensures { result ≡ is_part_unit unit }
{
    unit != DOT && unit != SEMICOLON && unit != BRACKET
}

/// Whether these are parts with slashes between them, none of them empty (JVMS 4.2.1).
fn is_class_name(name: &[u16]) -> bool
    ensures { result ≡ is_class_name name.now }
{
    let mut begun = false;
    for unit in name {
        if *unit == SLASH {
            if !begun {
                return false;
            }
            begun = false;
        } else {
            if !is_part_unit(*unit) {
                return false;
            }
            begun = true;
        }
    }
    begun
}

/// The first type, where it's no array, and the units behind it.
#[tactic(auto, unfolding(code_model::specs::TypeReading::type_at))]
fn element_at(units: &[u16]) -> Option<(ElementType<'_>, &[u16])>
    requires { is_there 0x5B units.now ≡ false }
    ensures { option_map (λ read. (element_of read.0, read.1.now)) result ≡ type_at units.now }
{
    let [unit, rest @ ..] = units else {
        return None;
    };
    match *unit {
        0x42 => Some((ElementType::Byte, rest)),
        0x43 => Some((ElementType::Char, rest)),
        0x44 => Some((ElementType::Double, rest)),
        0x46 => Some((ElementType::Float, rest)),
        0x49 => Some((ElementType::Int, rest)),
        0x4a => Some((ElementType::Long, rest)),
        0x53 => Some((ElementType::Short, rest)),
        0x5a => Some((ElementType::Boolean, rest)),
        0x4c => {
            let (name, behind) = before_semicolon(rest)?;
            if is_class_name(name) {
                Some((ElementType::Class(name), behind))
            } else {
                None
            }
        }
        _ => None,
    }
}

/// Whether that unit stands first.
pub fn is_there(unit: u16, units: &[u16]) -> bool
    ensures { result ≡ is_there unit units.now }
{
    match units {
        [first, ..] => *first == unit,
        [] => false,
    }
}

/// How many brackets stand first.
fn dimensions_at(units: &[u16]) -> usize
    ensures within { result ≤ length units.now }
    ensures arrays { arrays result (type_at (drop result units.now)) ≡ type_at units.now }
    ensures no_more { is_there 0x5B (drop result units.now) ≡ false }
{
    for at in 0..units.len() {
        if units[at] != BRACKET {
            return at;
        }
    }
    units.len()
}

/// The first type, and the units behind it.
pub fn field_type_at(units: &[u16]) -> Option<(FieldType<'_>, &[u16])>
    ensures { option_map (λ read. (field_type_of read.0, read.1.now)) result
        ≡ field_type_at units.now }
{
    let brackets = dimensions_at(units);
    let (element, behind) = element_at(&units[brackets..])?;
    let Ok(dimensions) = u8::try_from(brackets) else {
        return None;
    };
    Some((
        FieldType {
            dimensions,
            element,
        },
        behind,
    ))
}

/// The type that a field descriptor spells, where it is well formed.
pub fn field_type(units: &[u16]) -> Option<FieldType<'_>>
    ensures { option_map field_type_of result ≡ type_spelled units.now }
{
    match field_type_at(units) {
        Some((field_type, [])) => Some(field_type),
        _ => None,
    }
}
