//! The formats of instructions: what stands behind an opcode (JVMS 6.5).

use jv_types::{Arithmetic, Comparison, Conversion, ElementKind, Shift, StackForm, ValueKind};

/// An instruction without operands.
#[derive(Clone, Copy)]
pub enum Plain {
    Nop,
    AconstNull,
    PushInt(i32),
    PushLong(i64),
    Load(ValueKind, u16),
    Store(ValueKind, u16),
    ArrayLoad(ElementKind),
    ArrayStore(ElementKind),
    Stack(StackForm),
    IntArithmetic(Arithmetic),
    IntShift(Shift),
    IntNegate,
    LongArithmetic(Arithmetic),
    LongShift(Shift),
    LongNegate,
    Convert(Conversion),
    CompareLongs,
    ReturnValue(ValueKind),
    ReturnVoid,
    Arraylength,
    Athrow,
    Monitorenter,
    Monitorexit,
}

/// An instruction with the index of a local variable.
#[derive(Clone, Copy)]
pub enum LocalAccess {
    Load(ValueKind),
    Store(ValueKind),
}

/// An instruction with one target.
#[derive(Clone, Copy)]
pub enum Branch {
    /// `ifeq` to `ifle`.
    OnZero(Comparison),
    /// `if_icmpeq` to `if_icmple`.
    OnInts(Comparison),
    /// `if_acmpeq` (true), `if_acmpne`.
    OnReferences(bool),
    /// `ifnull` (true), `ifnonnull`.
    OnNull(bool),
    /// `goto`, `goto_w`.
    Always,
}

/// What kind of entry of the constant pool an instruction needs.
#[derive(Clone, Copy)]
pub enum EntryKind {
    /// An Integer or a String.
    Loadable,
    Long,
    Field,
    Method,
    /// A method of a class or, from major version 52 on, of an interface.
    MethodOfAny,
    MethodOfInterface,
    Class,
}

/// An instruction with the index of an entry, and nothing else.
#[derive(Clone, Copy)]
pub enum Indexed {
    /// `ldc`, `ldc_w`.
    Ldc,
    Ldc2W,
    Getstatic,
    Putstatic,
    Getfield,
    Putfield,
    Invokevirtual,
    Invokespecial,
    Invokestatic,
    New,
    Anewarray,
    Checkcast,
    Instanceof,
}

/// What stands behind an opcode, and the instruction that it makes of it.
#[derive(Clone, Copy)]
pub enum Format {
    /// Nothing.
    Alone(Plain),
    /// `bipush`: a signed number of one byte, which is pushed.
    ByteConstant,
    /// `sipush`: one of two bytes.
    ShortConstant,
    /// `ldc`: the index of what is pushed, of one byte.
    LoadableIndex,
    /// `ldc_w`: one of two bytes.
    WideLoadableIndex,
    /// A local variable, of one byte, or of two behind `wide`.
    Local(LocalAccess),
    /// `iinc`: a local variable and a signed number, of one byte each, or of two behind `wide`.
    LocalAndConstant,
    /// A signed offset from this instruction to the target, of two bytes.
    Branch(Branch),
    /// `goto_w`: one of four bytes.
    WideBranch(Branch),
    /// Padding, and offsets to targets for keys from a lowest to a highest.
    TableSwitch,
    /// Padding, and offsets to targets for each of some keys.
    LookupSwitch,
    /// An index of two bytes, of an entry of that kind.
    PoolIndex(EntryKind, Indexed),
    /// `invokeinterface`: the index of a method, the count of its words, and a zero byte.
    InterfaceCall,
    /// `newarray`: one byte that stands for a type.
    ElementType,
    /// `wide`: an opcode with a local variable, and its operands, of two bytes each.
    WideForm,
    /// This machine hasn't it: it works on floats or doubles, or it's one that these versions of
    /// class files can do without.
    LeftOut,
    /// Nor this one, which has a local variable.
    LeftOutLocal,
}
