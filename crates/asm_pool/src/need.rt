//! What lines need of the constant pool.

use asm_parts::entry::Entry;

/// An entry, and the number of the line that needs it.
#[derive(Clone, Copy, Debug)]
pub struct Need<'a> {
    pub line: u32,
    pub entry: Entry<'a>,
}

/// In which of three turns the lines of a method need entries: the entries of its code, then those
/// of its handlers, then those of its frames.
#[derive(Clone, Copy, Debug)]
pub enum Turn {
    Lines,
    Handlers,
    Frames,
}
