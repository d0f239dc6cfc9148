//! Modified UTF-8 (JVMS 4.4.7), in which a class file spells its texts.

ghost use Rattle.std.specs.Prelude.{◌≡◌, ◌-◌, ◌<◌, ◌≤◌, IfOk, Some, None, if◌then◌else◌, option_map};
ghost use Rattle.jv_model.specs.ModifiedUtf8.{is_later, is_double, is_triple, unit_of_two, unit_of_three, units_of};
ghost use Rattle.class_reader.specs.Units.{first_unit};

use jv_types::{List, NoMemory, Text};
use std::alloc::Global;

/// The bits that a byte behind the first of a unit brings.
fn later_bits(byte: u8) -> Option<u16>
    ensures { result ≡ (if is_later byte then Some (byte - 0x80) else None) }
{
    match byte {
        0x80..=0xbf => Some(u16::from(byte - 0x80)),
        _ => None,
    }
}

/// The unit that two bytes stand for, where it takes two.
fn unit_of_two(a: u8, b: u8) -> Option<u16>
    requires least { 0xC0 ≤ a }
    requires most { a < 0xE0 }
    ensures { result ≡ (if is_double a b then Some (unit_of_two a b) else None) }
{
    let unit = u16::from(a - 0xc0) * 0x40 + later_bits(b)?;
    if unit == 0 || unit >= 0x80 {
        Some(unit)
    } else {
        None
    }
}

/// The unit that three bytes stand for, where it takes three.
fn unit_of_three(a: u8, b: u8, c: u8) -> Option<u16>
    requires least { 0xE0 ≤ a }
    requires most { a < 0xF0 }
    ensures { result ≡ (if is_triple a b c then Some (unit_of_three a b c) else None) }
{
    let unit = u16::from(a - 0xe0) * 0x1000 + later_bits(b)? * 0x40 + later_bits(c)?;
    if unit >= 0x800 { Some(unit) } else { None }
}

/// The first unit, and the bytes behind it.
fn first_unit(bytes: &[u8]) -> Option<(u16, &[u8])>
    ensures { option_map (λ first. (first.0, first.1.now)) result ≡ first_unit bytes.now }
{
    match bytes {
        [a @ 0x01..=0x7f, rest @ ..] => Some((u16::from(*a), rest)),
        [a @ 0xc0..=0xdf, b, rest @ ..] => Some((unit_of_two(*a, *b)?, rest)),
        [a @ 0xe0..=0xef, b, c, rest @ ..] => Some((unit_of_three(*a, *b, *c)?, rest)),
        _ => None,
    }
}

/// The units that the bytes spell, where they spell any, unless there is no memory for them.
pub fn text_of(alloc: Global, bytes: &[u8]) -> Result<Option<Text>, NoMemory>
    ensures { IfOk result (λ found. option_map (λ text. text.items) found ≡ units_of bytes.now) }
{
    let mut text = List::new(alloc);
    let mut rest = bytes;
    while !rest.is_empty() {
        let Some((unit, others)) = first_unit(rest) else {
            return Ok(None);
        };
        text.push(unit)?;
        rest = others;
    }
    Ok(Some(text))
}
