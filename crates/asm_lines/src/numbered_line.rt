//! Lines with their numbers.

use crate::form::LineForm;
use crate::term::AssemblerLine;
use jv_types::LineKind;

/// A line with its number: the form of its first word, and what it says or its least fault by
/// itself.
#[derive(Debug, Drop)]
pub struct NumberedLine<'a> {
    pub number: u32,
    pub form: Option<LineForm>,
    pub said: Result<AssemblerLine<'a>, LineKind>,
}
