//! The code of a method that is a straight line.

use jv_types::{IntOperation, List};

/// An instruction of a method (JVMS 6.5).
#[derive(Clone, Copy, Debug, PartialEq, Eq)]
pub enum Instruction {
    /// `iconst_<i>`, `bipush`, `sipush`, and `ldc` and `ldc_w` of an Integer: pushes this int.
    Constant(i32),
    /// `iadd`, `isub`, `imul`, `iand`, `ior`, `ixor`: pops value2 and value1, and pushes the result.
    Arithmetic(IntOperation),
    /// `ineg`: pops an int, and pushes its negation.
    Negate,
    /// `pop`: drops the top operand.
    Pop,
    /// `getstatic` of `java/lang/System.out`: pushes the PrintStream.
    GetOut,
    /// `invokevirtual` of `java/io/PrintStream.println (I)V`: pops an int and the PrintStream, and
    /// prints the int as a line.
    PrintLine,
    /// `return`: ends the method, without a value.
    Return,
}

/// A method's code (JVMS 4.7.3), as far as it is reached.
#[derive(Debug, Drop)]
pub struct Body {
    /// The most words that the operand stack of a frame holds.
    pub max_stack: u16,
    /// How many words the local variables of a frame take.
    pub max_locals: u16,
    /// The instructions up to the first `return`, as they stand in the code array.
    pub instructions: List<Instruction>,
}
