//! The lines of a method's block.

ghost use Rattle.std.specs.Prelude.{◌≡◌, drop};
ghost use Rattle.asm_parts.specs.Parts.{lines_in};
ghost use Rattle.asm_pool.specs.Needs.{numbered_lines};

use asm_lines::numbered_line::NumberedLine;
use jv_types::List;

/// The lines behind the first one.
pub fn behind_first<'t, 'a>(block: &'t List<NumberedLine<'a>>) -> &'t [NumberedLine<'a>]
    ensures { numbered_lines result.now ≡ drop 1 (lines_in block.now) }
{
    match block.as_slice() {
        [_, lines @ ..] => lines,
        [] => &[],
    }
}
