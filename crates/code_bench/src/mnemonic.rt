//! The mnemonics of instructions (JVMS 6.5), as `javap -c` prints them: what `wide` widens ends in
//! `_w`.

use jv_types::{
    Arithmetic, Comparison, Conversion, ElementKind, Insn, Instruction, Shift, StackForm, ValueKind,
};

/// A mnemonic, in the parts that a family of instructions has in common.
pub struct Mnemonic(pub &'static str, pub &'static str, pub &'static str);

fn kind(kind: ValueKind) -> &'static str {
    match kind {
        ValueKind::Int => "i",
        ValueKind::Long => "l",
        ValueKind::Reference => "a",
    }
}

fn element(kind: ElementKind) -> &'static str {
    match kind {
        ElementKind::Int => "i",
        ElementKind::Long => "l",
        ElementKind::Reference => "a",
        ElementKind::Byte => "b",
        ElementKind::Char => "c",
        ElementKind::Short => "s",
    }
}

fn stack_form(form: StackForm) -> &'static str {
    match form {
        StackForm::Pop => "pop",
        StackForm::PopTwo => "pop2",
        StackForm::Duplicate => "dup",
        StackForm::DuplicateX1 => "dup_x1",
        StackForm::DuplicateX2 => "dup_x2",
        StackForm::DuplicateTwo => "dup2",
        StackForm::DuplicateTwoX1 => "dup2_x1",
        StackForm::DuplicateTwoX2 => "dup2_x2",
        StackForm::Swap => "swap",
    }
}

fn operation(operation: Arithmetic) -> &'static str {
    match operation {
        Arithmetic::Add => "add",
        Arithmetic::Subtract => "sub",
        Arithmetic::Multiply => "mul",
        Arithmetic::Divide => "div",
        Arithmetic::Remainder => "rem",
        Arithmetic::And => "and",
        Arithmetic::Or => "or",
        Arithmetic::Xor => "xor",
    }
}

fn shift(shift: Shift) -> &'static str {
    match shift {
        Shift::Left => "shl",
        Shift::Right => "shr",
        Shift::RightUnsigned => "ushr",
    }
}

fn conversion(conversion: Conversion) -> &'static str {
    match conversion {
        Conversion::IntToLong => "i2l",
        Conversion::LongToInt => "l2i",
        Conversion::IntToByte => "i2b",
        Conversion::IntToChar => "i2c",
        Conversion::IntToShort => "i2s",
    }
}

fn comparison(comparison: Comparison) -> &'static str {
    match comparison {
        Comparison::Equal => "eq",
        Comparison::NotEqual => "ne",
        Comparison::Less => "lt",
        Comparison::GreaterOrEqual => "ge",
        Comparison::Greater => "gt",
        Comparison::LessOrEqual => "le",
    }
}

fn equality(equal: bool) -> &'static str {
    if equal { "eq" } else { "ne" }
}

/// How a local variable is named: in the opcode, by one byte, or by two behind `wide`.
fn local_suffix(bytes: u32, local: u16) -> &'static str {
    match (bytes, local) {
        (1, 0) => "_0",
        (1, 1) => "_1",
        (1, 2) => "_2",
        (1, _) => "_3",
        (2, _) => "",
        _ => "_w",
    }
}

/// What pushes an int: the opcode, or a number of one byte or of two.
fn push(bytes: u32, value: i32) -> &'static str {
    match (bytes, value) {
        (1, -1) => "iconst_m1",
        (1, 0) => "iconst_0",
        (1, 1) => "iconst_1",
        (1, 2) => "iconst_2",
        (1, 3) => "iconst_3",
        (1, 4) => "iconst_4",
        (1, _) => "iconst_5",
        (2, _) => "bipush",
        _ => "sipush",
    }
}

fn alone(mnemonic: &'static str) -> Mnemonic {
    Mnemonic(mnemonic, "", "")
}

/// A mnemonic whose opcode for wider operands ends in `_w`.
fn widened(mnemonic: &'static str, is_wide: bool) -> Mnemonic {
    Mnemonic(mnemonic, if is_wide { "_w" } else { "" }, "")
}

/// The mnemonic of an instruction. Where several opcodes give one instruction, the bytes that it
/// has tell which it was.
pub fn mnemonic_of(insn: &Insn) -> Mnemonic {
    let bytes = insn.next.saturating_sub(insn.pc);
    match &insn.instruction {
        Instruction::Nop => alone("nop"),
        Instruction::AconstNull => alone("aconst_null"),
        Instruction::PushInt(value) => alone(push(bytes, *value)),
        Instruction::PushLong(value) => alone(if *value == 0 { "lconst_0" } else { "lconst_1" }),
        Instruction::Ldc(_) => widened("ldc", bytes == 3),
        Instruction::Ldc2W(_) => alone("ldc2_w"),
        Instruction::Load(of, local) => Mnemonic(kind(*of), "load", local_suffix(bytes, *local)),
        Instruction::Store(of, local) => Mnemonic(kind(*of), "store", local_suffix(bytes, *local)),
        Instruction::ArrayLoad(of) => Mnemonic(element(*of), "aload", ""),
        Instruction::ArrayStore(of) => Mnemonic(element(*of), "astore", ""),
        Instruction::Stack(form) => alone(stack_form(*form)),
        Instruction::IntArithmetic(its) => Mnemonic("i", operation(*its), ""),
        Instruction::IntShift(its) => Mnemonic("i", shift(*its), ""),
        Instruction::IntNegate => alone("ineg"),
        Instruction::LongArithmetic(its) => Mnemonic("l", operation(*its), ""),
        Instruction::LongShift(its) => Mnemonic("l", shift(*its), ""),
        Instruction::LongNegate => alone("lneg"),
        Instruction::Increment(_, _) => widened("iinc", bytes == 6),
        Instruction::Convert(its) => alone(conversion(*its)),
        Instruction::CompareLongs => alone("lcmp"),
        Instruction::IfZero(its, _) => Mnemonic("if", comparison(*its), ""),
        Instruction::IfInts(its, _) => Mnemonic("if_icmp", comparison(*its), ""),
        Instruction::IfReferences(equal, _) => Mnemonic("if_acmp", equality(*equal), ""),
        Instruction::IfNull(equal, _) => alone(if *equal { "ifnull" } else { "ifnonnull" }),
        Instruction::Goto(_) => widened("goto", bytes == 5),
        Instruction::Tableswitch { .. } => alone("tableswitch"),
        Instruction::Lookupswitch { .. } => alone("lookupswitch"),
        Instruction::ReturnValue(of) => Mnemonic(kind(*of), "return", ""),
        Instruction::ReturnVoid => alone("return"),
        Instruction::Getstatic(_) => alone("getstatic"),
        Instruction::Putstatic(_) => alone("putstatic"),
        Instruction::Getfield(_) => alone("getfield"),
        Instruction::Putfield(_) => alone("putfield"),
        Instruction::Invokevirtual(_) => alone("invokevirtual"),
        Instruction::Invokespecial(_) => alone("invokespecial"),
        Instruction::Invokestatic(_) => alone("invokestatic"),
        Instruction::Invokeinterface(_) => alone("invokeinterface"),
        Instruction::New(_) => alone("new"),
        Instruction::Newarray(_) => alone("newarray"),
        Instruction::Anewarray(_) => alone("anewarray"),
        Instruction::Arraylength => alone("arraylength"),
        Instruction::Athrow => alone("athrow"),
        Instruction::Checkcast(_) => alone("checkcast"),
        Instruction::Instanceof(_) => alone("instanceof"),
        Instruction::Monitorenter => alone("monitorenter"),
        Instruction::Monitorexit => alone("monitorexit"),
    }
}
