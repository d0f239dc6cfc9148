//! What the lines of an assembler text say. Names and labels are lent from the text.

use jv_types::{Bytes, List};

/// A constant.
#[derive(Clone, Copy, Debug)]
pub enum ConstantText<'a> {
    Int(i32),
    Long(i64),
    String(&'a str),
}

/// What a member reference names.
#[derive(Clone, Copy, Debug, PartialEq, Eq, Hash)]
pub enum ReferenceKind {
    Field,
    Method,
    InterfaceMethod,
}

/// A reference to a field or a method.
#[derive(Clone, Copy, Debug, PartialEq, Eq, Hash)]
pub struct MemberReference<'a> {
    pub class: &'a str,
    pub name: &'a str,
    pub descriptor: &'a str,
}

/// An instruction. Where a form has several, its opcode stands first.
#[derive(Debug, Drop)]
pub enum Operation<'a> {
    Plain(u8),
    Local(u8, u16),
    Byte(u8, i8),
    Short(u8, i16),
    /// A branch of 16 bits, to a label.
    Branch(u8, &'a str),
    /// A branch of 32 bits.
    WideBranch(u8, &'a str),
    Member(u8, ReferenceKind, MemberReference<'a>),
    Class(u8, &'a str),
    /// `ldc`, or `ldc_w` where the constant's index needs it.
    LoadConstant(ConstantText<'a>),
    /// `ldc2_w`
    LoadLong(i64),
    /// The number of an element type.
    NewArray(u8),
    /// `iinc`: a local, and what is added to it.
    Increment(u16, i16),
    TableSwitch {
        low: i32,
        /// One for each key from the lowest on.
        labels: List<&'a str>,
        default: &'a str,
    },
    LookupSwitch {
        /// Rising keys, each with its label.
        rows: List<(i32, &'a str)>,
        default: &'a str,
    },
}

/// A type of a stack map frame (JVMS 4.7.4).
#[derive(Clone, Copy, Debug)]
pub enum FrameType<'a> {
    Top,
    Int,
    Long,
    Null,
    /// uninitializedThis
    This,
    /// uninitialized: the label of its `new`.
    New(&'a str),
    /// A class name or the descriptor of an array type.
    Object(&'a str),
}

/// What a line behind the first says.
#[derive(Debug, Drop)]
pub enum AssemblerLine<'a> {
    Flags(u16),
    Implements(&'a str),
    Field {
        flags: u16,
        name: &'a str,
        descriptor: &'a str,
        value: Option<ConstantText<'a>>,
    },
    Method {
        flags: u16,
        name: &'a str,
        descriptor: &'a str,
    },
    /// The most words of stack and of locals.
    Stack {
        stack: u16,
        locals: u16,
    },
    End,
    At(&'a str),
    Frame {
        locals: List<FrameType<'a>>,
        stack: List<FrameType<'a>>,
    },
    Catch {
        from: &'a str,
        to: &'a str,
        target: &'a str,
        /// The type that it catches, if not any.
        caught: Option<&'a str>,
    },
    Operation(Operation<'a>),
    Attribute {
        name: &'a str,
        bytes: Bytes,
    },
}
