//! The lines of a method's code, with where they stand.

use crate::labels::Labels;
use asm_lines::numbered_line::NumberedLine;
use jv_types::{LineKind, List};

/// A line of code with its pc, unless a line before it is faulty by itself; and what is wrong with
/// the line by itself, the targets of its labels apart.
#[derive(Clone, Copy, Debug)]
pub struct CodeLine<'t, 'a> {
    pub line: &'t NumberedLine<'a>,
    pub pc: Option<u32>,
    /// It may not stand there.
    pub is_out_of_order: bool,
    /// What else is wrong with it.
    pub fault: Option<LineKind>,
}

/// Where a line stands: its pc, and the pc of the last frame before it.
#[derive(Drop)]
pub struct Place<'a> {
    /// None where a line before is faulty by itself.
    pub pc: Option<u32>,
    pub framed: Option<u32>,
    pub labels: Labels<'a>,
}

/// The lines of a method's code, and its labels.
#[derive(Drop)]
pub struct Code<'t, 'a> {
    pub lines: List<CodeLine<'t, 'a>>,
    pub labels: Labels<'a>,
}
