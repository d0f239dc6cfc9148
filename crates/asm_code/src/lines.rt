//! The lines of a method's code, each at its place.

ghost use Rattle.std.specs.Prelude.{◌≡◌, IfOk, map};
ghost use Rattle.assembler_model.specs.CodeFaults.{labels_of};
ghost use Rattle.assembler_model.specs.CodeLines.{at_start, code_lines};
ghost use Rattle.asm_parts.specs.Pools.{entries_in, IsPool};
ghost use Rattle.asm_pool.specs.Needs.{numbered_lines};
ghost use Rattle.asm_code.specs.Labels.{labels_in, SameLabels};
ghost use Rattle.asm_code.specs.Places.{code_line_of, lines_of};

use crate::code_line::{Code, Place};
use crate::place::{code_line, go_on};
use asm_lines::numbered_line::NumberedLine;
use asm_parts::pool_entries::Pool;
use indexmap::IndexMap;
use jv_types::{List, NoMemory};
use std::alloc::Global;

/// The lines behind the first one of a method's block, with the method's labels.
pub fn read_code<'t, 'a>(
    alloc: Global,
    pool: &Pool<'_>,
    lines: &'t [NumberedLine<'a>],
) -> Result<Code<'t, 'a>, NoMemory>
    requires { IsPool pool.now }
    ensures lines { IfOk result (λ code. lines_of code.lines.items
        ≡ code_lines (entries_in pool.now) at_start (numbered_lines lines.now)) }
    ensures labels { IfOk result (λ code. SameLabels (labels_in code.labels.entries)
        (labels_of (lines_of code.lines.items))) }
{
    let mut placed = List::new(alloc);
    let mut place = Place {
        pc: Some(0),
        framed: None,
        labels: IndexMap::new(alloc),
    };
    for line in lines {
        let here = code_line(pool, &place, line);
        go_on(pool, &mut place, &here)?;
        placed.push(here)?;
    }
    Ok(Code {
        lines: placed,
        labels: place.labels,
    })
}
