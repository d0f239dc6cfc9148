//! Blocks of a text: the lines behind one that opens a block, up to the one that ends it.

ghost use Rattle.std.specs.Prelude.{◌≡◌, ◌+◌, ◌≤◌, ◌<◌, ◌^◌, IfOk, length};
ghost use Rattle.jv_types.specs.Lines.{line_view};
ghost use Rattle.manifest_laws.specs.Blocks.{is_line};
ghost use Rattle.manifest_reader.specs.Blocks.{CutsBlock};

use crate::text::is_text;
use asm_parts::first_fault::LineFault;
use jv_types::LineKind;
use jv_types::lines::{Line, split_line};

/// A block of a text.
#[derive(Clone, Copy, Debug)]
pub struct Block<'a> {
    /// Its lines, as a text of their own: a range of the text.
    pub text: &'a [u8],
    /// The number of its last line, which ends it.
    pub last: u32,
    /// What is left of the text behind that line.
    pub left: &'a [u8],
}

/// Whether a line that a line feed ends has these bytes.
fn is_line(end: &str, line: Line<'_>) -> bool
    ensures { result ≡ is_line end.now (line_view line.entry) }
{
    line.is_ended && line.bytes == end.as_bytes()
}

/// The block that the line with this number opens, at the front of the text behind it: its lines up
/// to the first that is `end`. No memory is asked for, and no byte copied.
///
/// The error is the first line that is no text, or, where no line ends the block, the text's last
/// line.
pub fn cut_block<'a>(end: &str, opening: u32, text: &'a [u8]) -> Result<Block<'a>, LineFault>
    requires { opening + length text.now < 2 ^ 32 }
    ensures block { CutsBlock end.now opening text.now result }

    // The lines that are left have numbers of 32 bits.
    ensures numbers { IfOk result (λ block.
        block.last + length block.left.now ≤ opening + length text.now) }
    ensures shorter { IfOk result (λ block. length block.left.now ≤ length text.now) }
{
    let mut last = opening;
    let mut left = text;
    'lines: while !left.is_empty() {
        let (line, behind) = split_line(left);
        last += 1;
        if !is_text(line) {
            let kind = LineKind::Text;
            return Err(LineFault { line: last, kind });
        }
        if is_line(end, line) {
            let text = &text[..text.len() - left.len()];
            let left = behind;
            return Ok(Block { text, last, left });
        }
        left = behind;
    }
    let kind = LineKind::Open;
    Err(LineFault { line: last, kind })
}
