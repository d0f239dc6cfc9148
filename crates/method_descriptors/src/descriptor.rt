//! What the descriptor of a method (JVMS 4.3.3) says of its parameters.

ghost use Rattle.std.specs.Prelude.{◌≡◌, ◌≤◌, IfOk, IfSome, option_map, length, map, sum, [], is_some, false, drop};
ghost use Rattle.code_model.specs.TypeReading.{before_semicolon, is_part_unit, is_class_name, field_type_at, type_at, parameters_within, parameter_words, method_type_of, result_of};
ghost use Rattle.method_descriptors.specs.Parameters.{kind_front, kinds_front, words_of_kind, kinds_of, is_there, arrays, behind_kinds};

use jv_types::{List, NoMemory, is_text};
use std::alloc::Global;

/// What the type of a parameter is, as far as its words and frames tell.
#[derive(Clone, Copy)]
pub enum ParameterKind {
    Int,
    Long,
    Float,
    Double,
    Reference,
}

/// The most words that the parameters of a method have, and the most dimensions of an array.
const MOST: u32 = 255;

const SLASH: u16 = 0x2f;

const DOT: u16 = 0x2e;

const SEMICOLON: u16 = 0x3b;

const BRACKET: u16 = 0x5b;

const OPEN: u16 = 0x28;

const CLOSE: u16 = 0x29;

/// The units before the first semicolon, and those behind it.
fn before_semicolon(units: &[u16]) -> Option<(&[u16], &[u16])>
    ensures { option_map (λ parts. (parts.0.now, parts.1.now)) result
        ≡ before_semicolon units.now }
{
    for at in 0..units.len() {
        if units[at] == SEMICOLON {
            return Some((&units[..at], &units[at + 1..]));
        }
    }
    None
}

/// Whether a unit stands in a part of a name.
fn is_part_unit(unit: u16) -> bool
    ensures { result ≡ is_part_unit unit }
{
    unit != DOT && unit != SEMICOLON && unit != BRACKET
}

/// Whether these are parts with slashes between them, none of them empty (JVMS 4.2.1).
fn is_class_name(name: &[u16]) -> bool
    ensures { result ≡ is_class_name name.now }
{
    let mut begun = false;
    for unit in name {
        if *unit == SLASH {
            if !begun {
                return false;
            }
            begun = false;
        } else {
            if !is_part_unit(*unit) {
                return false;
            }
            begun = true;
        }
    }
    begun
}

/// The first type, where it's no array, and the units behind it.
#[tactic(auto, unfolding(code_model::specs::TypeReading::type_at))]
fn component_at(units: &[u16]) -> Option<(ParameterKind, &[u16])>
    requires { is_there 0x5B units.now ≡ false }
    ensures { option_map (λ read. (read.0, read.1.now)) result
        ≡ kind_front (type_at units.now) }
{
    let [unit, rest @ ..] = units else {
        return None;
    };
    match *unit {
        // B, C, I, S, Z
        0x42 | 0x43 | 0x49 | 0x53 | 0x5a => Some((ParameterKind::Int, rest)),
        // J
        0x4a => Some((ParameterKind::Long, rest)),
        // F
        0x46 => Some((ParameterKind::Float, rest)),
        // D
        0x44 => Some((ParameterKind::Double, rest)),
        // L
        0x4c => {
            let (name, behind) = before_semicolon(rest)?;
            if is_class_name(name) {
                Some((ParameterKind::Reference, behind))
            } else {
                None
            }
        }
        _ => None,
    }
}

/// Whether that unit stands first.
fn is_there(unit: u16, units: &[u16]) -> bool
    ensures { result ≡ is_there unit units.now }
{
    match units {
        [first, ..] => *first == unit,
        [] => false,
    }
}

/// How many brackets stand first.
fn dimensions_at(units: &[u16]) -> usize
    ensures within { result ≤ length units.now }
    ensures arrays { arrays result (type_at (drop result units.now)) ≡ type_at units.now }
    ensures no_more { is_there 0x5B (drop result units.now) ≡ false }
{
    for at in 0..units.len() {
        if units[at] != BRACKET {
            return at;
        }
    }
    units.len()
}

/// The first type, and the units behind it.
fn next_kind(units: &[u16]) -> Option<(ParameterKind, &[u16])>
    ensures { option_map (λ read. (read.0, read.1.now)) result
        ≡ kind_front (field_type_at units.now) }
{
    let dimensions = dimensions_at(units);
    let (kind, behind) = component_at(&units[dimensions..])?;
    match dimensions {
        0 => Some((kind, behind)),
        1..=255 => Some((ParameterKind::Reference, behind)),
        _ => None,
    }
}

/// Whether the units are those of a result: a type, or V for none.
fn is_result(units: &[u16]) -> bool
    ensures { result ≡ is_some (result_of units.now) }
{
    is_text(units, b"V") || matches!(next_kind(units), Some((_, [])))
}

/// Adds what the parameters are up to the parenthesis, and gives the units behind it.
fn read_parameters<'a>(
    kinds: &mut List<ParameterKind>,
    units: &'a [u16],
) -> Result<Option<&'a [u16]>, NoMemory>
    requires { kinds.old.items ≡ [] }
    ensures few { length kinds.new.items ≤ 255 }
    ensures kinds { IfOk result (λ behind. behind_kinds kinds.new.items behind
        ≡ kinds_front (parameters_within 255 units.now)) }
{
    let mut rest = units;
    while kinds.len() < MOST && !is_there(CLOSE, rest) {
        let Some((kind, behind)) = next_kind(rest) else {
            return Ok(None);
        };
        kinds.push(kind)?;
        rest = behind;
    }
    if is_there(CLOSE, rest) {
        Ok(Some(&rest[1..]))
    } else {
        Ok(None)
    }
}

/// The words that parameters take.
fn words_of(kinds: &[ParameterKind]) -> u64
    ensures { result ≡ sum (map words_of_kind kinds.now) }
{
    let mut words = 0;
    for kind in kinds {
        words += match kind {
            ParameterKind::Long | ParameterKind::Double => 2,
            _ => 1,
        };
    }
    words
}

/// What the parameters of a method are, where its descriptor is well formed.
pub fn parameter_kinds(
    alloc: Global,
    units: &[u16],
) -> Result<Option<List<ParameterKind>>, NoMemory>
    ensures kinds { IfOk result (λ found. option_map (λ kinds. kinds.items) found
        ≡ option_map (λ type. kinds_of type.parameters) (method_type_of units.now)) }
    ensures few { IfOk result (λ found. IfSome found (λ kinds. length kinds.items ≤ 255)) }
{
    if !is_there(OPEN, units) {
        return Ok(None);
    }
    let mut kinds = List::new(alloc);
    let Some(result) = read_parameters(&mut kinds, &units[1..])? else {
        return Ok(None);
    };
    if is_result(result) && words_of(kinds.as_slice()) <= u64::from(MOST) {
        Ok(Some(kinds))
    } else {
        Ok(None)
    }
}

/// The words that the parameters of a method take, where its descriptor is well formed.
#[tactic(auto, using(crate::proofs::Words::words_some, crate::proofs::Words::words_none))]
pub fn parameter_words(alloc: Global, units: &[u16]) -> Result<Option<u64>, NoMemory>
    ensures words { IfOk result (λ words. words
        ≡ option_map parameter_words (method_type_of units.now)) }
    ensures few { IfOk result (λ found. IfSome found (λ words. words ≤ 255)) }
{
    match parameter_kinds(alloc, units)? {
        Some(kinds) => Ok(Some(words_of(kinds.as_slice()))),
        None => Ok(None),
    }
}
