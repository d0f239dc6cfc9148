//! Descriptors, unit by unit (JVMS 4.2.1, 4.3.2).

ghost use Rattle.std.specs.Prelude.{◌≡◌, ◌≤◌, false, drop, length, option_map};
ghost use Rattle.code_model.specs.TypeReading.{before_semicolon as model_before_semicolon, is_part_unit as is_model_part_unit, is_class_name as is_model_class_name, type_at};
ghost use Rattle.method_descriptors.specs.Parameters.{arrays, is_there as is_unit_there};

const SLASH: u16 = 0x2f;

const DOT: u16 = 0x2e;

const SEMICOLON: u16 = 0x3b;

const BRACKET: u16 = 0x5b;

/// The units before the first semicolon, and those after it.
pub fn before_semicolon(units: &[u16]) -> Option<(&[u16], &[u16])>
    ensures { option_map (λ parts. (parts.0.now, parts.1.now)) result
        ≡ model_before_semicolon units.now }
{
    for at in 0..units.len() {
        if units[at] == SEMICOLON {
            return Some((&units[..at], &units[at + 1..]));
        }
    }
    None
}

/// Whether a unit stands in a part of a name.
fn is_part_unit(unit: u16) -> bool
    ensures { result ≡ is_model_part_unit unit }
{
    unit != DOT && unit != SEMICOLON && unit != BRACKET
}

/// Whether these are parts with slashes between them, none of them empty.
pub fn is_class_name(name: &[u16]) -> bool
    ensures { result ≡ is_model_class_name name.now }
{
    let mut begun = false;
    for unit in name {
        if *unit == SLASH {
            if !begun {
                return false;
            }
            begun = false;
        } else {
            if !is_part_unit(*unit) {
                return false;
            }
            begun = true;
        }
    }
    begun
}

/// Whether that unit stands first.
pub fn is_there(unit: u16, units: &[u16]) -> bool
    ensures { result ≡ is_unit_there unit units.now }
{
    match units {
        [first, ..] => *first == unit,
        [] => false,
    }
}

/// How many brackets stand first.
pub fn dimensions_at(units: &[u16]) -> usize
    ensures within { result ≤ length units.now }
    ensures arrays { arrays result (type_at (drop result units.now)) ≡ type_at units.now }
    ensures no_more { is_unit_there 0x5B (drop result units.now) ≡ false }
{
    for at in 0..units.len() {
        if units[at] != BRACKET {
            return at;
        }
    }
    units.len()
}
