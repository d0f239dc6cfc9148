//! Texts and bytes.

ghost use Rattle.std.specs.Prelude.{◌≡◌, ◌++◌, bytes_eq, IfOk, OnOk};
ghost use Rattle.std.specs.Char.Escape.{encode_utf16};
ghost use Rattle.jv_model.specs.Utf16.{units_of_utf8};

use crate::list::List;
use crate::memory::NoMemory;
use std::alloc::Global;

/// A text as units of UTF-16.
pub type Text = List<u16>;

/// Any bytes.
pub type Bytes = List<u8>;

/// Adds the one or two units of a character at the end.
fn push_character(units: &mut Text, character: char) -> Result<(), NoMemory>
    ensures { OnOk result (units.new.items ≡ units.old.items ++ encode_utf16 character) }
{
    let code = character as u32;
    if code < 0x1_0000 {
        return units.push(code as u16);
    }
    let over = code - 0x1_0000;
    units.append(&[
        (0xd800 + over / 0x400) as u16,
        (0xdc00 + over % 0x400) as u16,
    ])
}

/// The units of UTF-16 that a text in UTF-8 stands for, unless there is no memory for them.
pub fn units(alloc: Global, text: &str) -> Result<Text, NoMemory>
    ensures { IfOk result (λ units. units.items ≡ units_of_utf8 text.now) }
{
    let mut units = List::new(alloc);
    for character in text.chars() {
        push_character(&mut units, character)?;
    }
    Ok(units)
}

/// Whether the units are those of a text in ASCII.
pub fn is_text(units: &[u16], text: &[u8]) -> bool
    ensures { result ≡ bytes_eq units.now text.now }
{
    units.len() == text.len()
        && units
            .iter()
            .zip(text)
            .all(|(unit, byte)| *unit == u16::from(*byte))
}
