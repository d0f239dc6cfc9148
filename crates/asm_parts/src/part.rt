//! The parts of a text.

use asm_lines::numbered_line::NumberedLine;
use jv_types::List;

/// A line that stands outside methods; and where it begins a method, the lines up to its `end`.
#[derive(Debug, Drop)]
pub struct Part<'a> {
    pub line: NumberedLine<'a>,
    pub block: List<NumberedLine<'a>>,
    /// It begins no method, or a line ends the method.
    pub is_closed: bool,
}

/// The lines of a method up to the one that ends it, and what is left behind that.
#[derive(Debug, Drop)]
pub struct Block<'a> {
    pub lines: List<NumberedLine<'a>>,
    /// A line ends the block.
    pub is_closed: bool,
    /// The number of the first line behind it.
    pub next: u32,
    pub left: &'a [u8],
}
