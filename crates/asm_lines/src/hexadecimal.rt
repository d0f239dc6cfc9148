//! Bytes as hexadecimal digits.

ghost use Rattle.std.specs.Prelude.{◌≡◌, IfOk, option_map};
ghost use Rattle.text_model.specs.Numerals.{hex_bytes, hex_digit, hex_pair};
ghost use Rattle.asm_lines.specs.Words.{bytes_of};

use jv_types::{Bytes, List, NoMemory};
use std::alloc::Global;

/// The value of a hexadecimal digit, of either case.
fn hex_digit(byte: u8) -> Option<u8>
    ensures { result ≡ hex_digit byte }
{
    match byte {
        b'0'..=b'9' => Some(byte - b'0'),
        b'a'..=b'f' => Some(byte - b'a' + 10),
        b'A'..=b'F' => Some(byte - b'A' + 10),
        _ => None,
    }
}

/// The byte that two digits spell.
fn hex_pair(high: u8, low: u8) -> Option<u8>
    ensures { result ≡ hex_pair high low }
{
    let high = hex_digit(high)?;
    let low = hex_digit(low)?;
    Some(high * 16 + low)
}

/// The bytes that pairs of hexadecimal digits spell, where the word is such pairs.
pub(crate) fn hex_bytes(alloc: Global, word: &[u8]) -> Result<Option<Bytes>, NoMemory>
    ensures { IfOk result (λ found. option_map bytes_of found ≡ hex_bytes word.now) }
{
    let mut bytes = List::new(alloc);
    let mut left = word;
    while let [high, low, behind @ ..] = left {
        let Some(byte) = hex_pair(*high, *low) else {
            return Ok(None);
        };
        bytes.push(byte)?;
        left = behind;
    }
    if !left.is_empty() {
        return Ok(None);
    }
    Ok(Some(bytes))
}
