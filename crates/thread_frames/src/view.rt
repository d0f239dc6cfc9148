//! A frame that is looked at.

use code_store::CodeMark;
use jv_types::{MethodNo, Pc};
use jv_values::Value;

/// A frame, whose words are lent where they lie.
#[derive(Clone, Copy, Debug)]
pub struct FrameView<'a> {
    /// What stands for its code.
    pub code: CodeMark,
    pub method: MethodNo,
    /// The place of the instruction that comes next; while a frame that it called lives, that of the
    /// call.
    pub pc: Pc,
    /// The receiver whose monitor a synchronized method that isn't static holds, or `Null`.
    pub held: Value,
    pub locals: &'a [Value],
    /// The operands from the bottom up.
    pub stack: &'a [Value],
}
