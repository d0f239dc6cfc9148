//! The numbers of lines.

ghost use Rattle.std.specs.Prelude.{◌≡◌, ◌+◌, IfOk, length};
ghost use Rattle.jv_model.specs.Lines.{lines_of};

use jv_types::NoMemory;
use jv_types::lines::split_line;

/// The number behind this one, where 32 bits hold it.
pub fn next_number(number: u32) -> Result<u32, NoMemory>
    ensures { IfOk result (λ next. next ≡ number + 1) }
{
    match number.checked_add(1) {
        Some(next) => Ok(next),
        None => Err(NoMemory),
    }
}

/// The number of the last line of a text, which has these lines behind its first.
pub fn last_line(text: &[u8]) -> Result<u32, NoMemory>
    ensures { IfOk result (λ last. last ≡ length (lines_of text.now) + 1) }
{
    let mut last = 1;
    let mut left = text;
    'lines: while !left.is_empty() {
        let (_, behind) = split_line(left);
        last = next_number(last)?;
        left = behind;
    }
    Ok(last)
}
