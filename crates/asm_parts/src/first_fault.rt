//! Faults of lines.

use jv_types::LineKind;

/// A line's number, from 1, and what is wrong with it.
#[derive(Clone, Copy, Debug)]
pub struct LineFault {
    pub line: u32,
    pub kind: LineKind,
}

/// The first of the faults that were noted: one of the least line, and of the least rank there.
#[derive(Clone, Copy, Debug)]
pub struct FirstFault {
    pub told: Option<LineFault>,
}
