//! Words, each behind a space.

ghost use Rattle.std.specs.Prelude.{◌≡◌, ◌++◌, ◌∷◌, decimal, OnOk};
ghost use Rattle.jv_model.specs.Utf16.{printed_units};

use crate::printed::push_units;
use itoa::Buffer;
use jv_types::{Bytes, NoMemory, Text};

/// Adds a number at the end.
pub(crate) fn push_decimal(text: &mut Bytes, number: u64) -> Result<(), NoMemory>
    ensures { OnOk result (text.new.items ≡ text.old.items ++ decimal number) }
{
    let mut buffer = Buffer::new();
    text.append(buffer.format(number).as_bytes())
}

/// Adds a space and a word, or several with a space between each two.
pub(crate) fn push_word(text: &mut Bytes, word: &str) -> Result<(), NoMemory>
    ensures { OnOk result (text.new.items ≡ text.old.items ++ 32 ∷ word.now) }
{
    text.push(b' ')?;
    text.append(word.as_bytes())
}

/// Adds a space and a number.
pub(crate) fn push_number(text: &mut Bytes, number: u64) -> Result<(), NoMemory>
    ensures { OnOk result (text.new.items ≡ text.old.items ++ 32 ∷ decimal number) }
{
    text.push(b' ')?;
    push_decimal(text, number)
}

/// Adds a space and a name of the program.
pub(crate) fn push_name(text: &mut Bytes, name: &Text) -> Result<(), NoMemory>
    ensures { OnOk result (text.new.items ≡ text.old.items ++ 32 ∷ printed_units name.now.items) }
{
    text.push(b' ')?;
    push_units(text, name.as_slice())
}
