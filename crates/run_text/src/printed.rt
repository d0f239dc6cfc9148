//! Units of UTF-16, printed as UTF-8.

ghost use Rattle.std.specs.Prelude.{◌≡◌, ◌≤◌, ◌++◌, ◌∷◌, ◌&&◌, length, encode_utf8, IsTrue, IfOk, OnOk};
ghost use Rattle.jv_model.specs.Utf16.{is_high_surrogate, is_low_surrogate, joined, printed_alone, printed_units};

use jv_types::{Bytes, List, NoMemory};
use std::alloc::Global;

/// Whether the units are a high surrogate and a low one.
fn is_pair(high: u16, low: u16) -> bool
    ensures { result ≡ (is_high_surrogate high && is_low_surrogate low) }
{
    (0xd800..0xdc00).contains(&high) && (0xdc00..0xe000).contains(&low)
}

/// The character that a pair of surrogates stands for.
fn joined(high: u16, low: u16) -> char
    requires { IsTrue (is_high_surrogate high && is_low_surrogate low) }
    ensures { result ≡ joined high low }
{
    let code = 0x1_0000 + (u32::from(high) - 0xd800) * 0x400 + (u32::from(low) - 0xdc00);
    char::from_u32(code).unwrap()
}

/// The character that a unit stands for by itself.
fn alone(unit: u16) -> char
    ensures { encode_utf8 result ≡ printed_alone unit }
{
    char::from_u32(u32::from(unit)).unwrap_or('?')
}

/// The character that the unit and maybe the first behind it stand for, and the units behind those.
fn first_character(unit: u16, rest: &[u16]) -> (char, &[u16])
    ensures printed { printed_units (unit ∷ rest.now) ≡ encode_utf8 result.0 ++ printed_units result.1.now }
    ensures shorter { length result.1.now ≤ length rest.now }
{
    let [low, behind @ ..] = rest else {
        return (alone(unit), rest);
    };
    if is_pair(unit, *low) {
        (joined(unit, *low), behind)
    } else {
        (alone(unit), rest)
    }
}

fn push_character(text: &mut Bytes, character: char) -> Result<(), NoMemory>
    ensures { OnOk result (text.new.items ≡ text.old.items ++ encode_utf8 character) }
{
    let mut bytes = [0; 4];
    text.append(character.encode_utf8(&mut bytes).as_bytes())
}

/// Adds the characters at the end.
pub(crate) fn push_units(text: &mut Bytes, units: &[u16]) -> Result<(), NoMemory>
    ensures { OnOk result (text.new.items ≡ text.old.items ++ printed_units units.now) }
{
    let mut left = units;
    while let [unit, rest @ ..] = left {
        let (character, behind) = first_character(*unit, rest);
        push_character(text, character)?;
        left = behind;
    }
    Ok(())
}

/// The characters of a text in units of UTF-16, as UTF-8. A surrogate without its other half is
/// printed as `?`.
pub fn printed_units(alloc: Global, units: &[u16]) -> Result<Bytes, NoMemory>
    ensures { IfOk result (λ text. text.items ≡ printed_units units.now) }
{
    let mut text = List::new(alloc);
    push_units(&mut text, units)?;
    Ok(text)
}
