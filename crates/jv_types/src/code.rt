//! The code of a method (JVMS 4.7.3), with the frames of its stack map (JVMS 4.7.4) as absolute
//! frames.

ghost use Rattle.std.specs.Prelude.{◌≡◌, IfOk};
ghost use Rattle.jv_types.specs.Code.{body_of};

use crate::frames::Frames;
use crate::instructions::Instructions;
use crate::list::List;
use crate::memory::NoMemory;
use std::alloc::Global;

/// A row of the exception table (JVMS 4.7.3). It covers the places from `from` to before `to`.
#[derive(Clone, Copy, Debug, PartialEq, Eq)]
pub struct Handler {
    pub from: u32,
    pub to: u32,
    /// The place of the handler.
    pub target: u32,
    /// The index of the class that it catches; without one it catches every throwable.
    pub catch: Option<u16>,
}

/// A verification type (JVMS 4.7.4).
#[derive(Clone, Copy, Debug, PartialEq, Eq)]
pub enum MapType {
    Top,
    Int,
    Long,
    Null,
    /// `uninitializedThis`.
    This,
    /// The index of the class.
    Object(u16),
    /// The type of the descriptor's parameter with this number, from 0 and without the receiver.
    Argument(u16),
    /// `uninitialized`: the pc of its `new`.
    New(u32),
}

/// A frame of the stack map by itself: the locals by number, a Long once, and the stack from the
/// bottom up.
#[derive(Debug, Drop)]
pub struct MapFrame {
    pub pc: u32,
    pub locals: List<MapType>,
    pub stack: List<MapType>,
}

/// The code of a method.
#[derive(Debug, Drop)]
pub struct CodeBody {
    /// The words of an operand stack, a Long counted as two.
    pub max_stack: u16,
    /// The words of the local variables.
    pub max_locals: u16,
    pub instructions: Instructions,
    /// The rows of the exception table, the first one that fits first.
    pub handlers: List<Handler>,
    /// In the order of their places.
    pub frames: Frames,
}

impl CodeBody {
    /// Equal code, unless there is no memory for it.
    pub fn copy(&self, alloc: Global) -> Result<CodeBody, NoMemory>
        ensures { IfOk result (λ copy. body_of copy ≡ body_of self.now) }
    {
        Ok(CodeBody {
            max_stack: self.max_stack,
            max_locals: self.max_locals,
            instructions: self.instructions.copy(alloc)?,
            handlers: self.handlers.copy(alloc)?,
            frames: self.frames.copy(alloc)?,
        })
    }
}
