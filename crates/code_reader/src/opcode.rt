//! The table of the opcodes (JVMS 7): each with what stands behind it (JVMS 6.5).

ghost use Rattle.std.specs.Prelude.{◌≡◌, option_map, slice_get};
ghost use Rattle.code_model.specs.Opcodes.{format_of as format_of_opcode};
ghost use Rattle.code_reader.specs.Format.{format_of};

use crate::format::{Branch, EntryKind, Format, Indexed, LocalAccess, Plain};
use jv_types::{Arithmetic, Comparison, Conversion, ElementKind, Shift, StackForm, ValueKind};

/// The opcodes from 0 on, each with its mnemonic.
const FORMATS: [Format; 202] = [
    Format::Alone(Plain::Nop), // 00 nop
    Format::Alone(Plain::AconstNull), // 01 aconst_null
    Format::Alone(Plain::PushInt(-1)), // 02 iconst_m1
    Format::Alone(Plain::PushInt(0)), // 03 iconst_0
    Format::Alone(Plain::PushInt(1)), // 04 iconst_1
    Format::Alone(Plain::PushInt(2)), // 05 iconst_2
    Format::Alone(Plain::PushInt(3)), // 06 iconst_3
    Format::Alone(Plain::PushInt(4)), // 07 iconst_4
    Format::Alone(Plain::PushInt(5)), // 08 iconst_5
    Format::Alone(Plain::PushLong(0)), // 09 lconst_0
    Format::Alone(Plain::PushLong(1)), // 0a lconst_1
    Format::LeftOut, // 0b fconst_0
    Format::LeftOut, // 0c fconst_1
    Format::LeftOut, // 0d fconst_2
    Format::LeftOut, // 0e dconst_0
    Format::LeftOut, // 0f dconst_1
    Format::ByteConstant, // 10 bipush
    Format::ShortConstant, // 11 sipush
    Format::LoadableIndex, // 12 ldc
    Format::WideLoadableIndex, // 13 ldc_w
    Format::PoolIndex(EntryKind::Long, Indexed::Ldc2W), // 14 ldc2_w
    Format::Local(LocalAccess::Load(ValueKind::Int)), // 15 iload
    Format::Local(LocalAccess::Load(ValueKind::Long)), // 16 lload
    Format::LeftOutLocal, // 17 fload
    Format::LeftOutLocal, // 18 dload
    Format::Local(LocalAccess::Load(ValueKind::Reference)), // 19 aload
    Format::Alone(Plain::Load(ValueKind::Int, 0)), // 1a iload_0
    Format::Alone(Plain::Load(ValueKind::Int, 1)), // 1b iload_1
    Format::Alone(Plain::Load(ValueKind::Int, 2)), // 1c iload_2
    Format::Alone(Plain::Load(ValueKind::Int, 3)), // 1d iload_3
    Format::Alone(Plain::Load(ValueKind::Long, 0)), // 1e lload_0
    Format::Alone(Plain::Load(ValueKind::Long, 1)), // 1f lload_1
    Format::Alone(Plain::Load(ValueKind::Long, 2)), // 20 lload_2
    Format::Alone(Plain::Load(ValueKind::Long, 3)), // 21 lload_3
    Format::LeftOut, // 22 fload_0
    Format::LeftOut, // 23 fload_1
    Format::LeftOut, // 24 fload_2
    Format::LeftOut, // 25 fload_3
    Format::LeftOut, // 26 dload_0
    Format::LeftOut, // 27 dload_1
    Format::LeftOut, // 28 dload_2
    Format::LeftOut, // 29 dload_3
    Format::Alone(Plain::Load(ValueKind::Reference, 0)), // 2a aload_0
    Format::Alone(Plain::Load(ValueKind::Reference, 1)), // 2b aload_1
    Format::Alone(Plain::Load(ValueKind::Reference, 2)), // 2c aload_2
    Format::Alone(Plain::Load(ValueKind::Reference, 3)), // 2d aload_3
    Format::Alone(Plain::ArrayLoad(ElementKind::Int)), // 2e iaload
    Format::Alone(Plain::ArrayLoad(ElementKind::Long)), // 2f laload
    Format::LeftOut, // 30 faload
    Format::LeftOut, // 31 daload
    Format::Alone(Plain::ArrayLoad(ElementKind::Reference)), // 32 aaload
    Format::Alone(Plain::ArrayLoad(ElementKind::Byte)), // 33 baload
    Format::Alone(Plain::ArrayLoad(ElementKind::Char)), // 34 caload
    Format::Alone(Plain::ArrayLoad(ElementKind::Short)), // 35 saload
    Format::Local(LocalAccess::Store(ValueKind::Int)), // 36 istore
    Format::Local(LocalAccess::Store(ValueKind::Long)), // 37 lstore
    Format::LeftOutLocal, // 38 fstore
    Format::LeftOutLocal, // 39 dstore
    Format::Local(LocalAccess::Store(ValueKind::Reference)), // 3a astore
    Format::Alone(Plain::Store(ValueKind::Int, 0)), // 3b istore_0
    Format::Alone(Plain::Store(ValueKind::Int, 1)), // 3c istore_1
    Format::Alone(Plain::Store(ValueKind::Int, 2)), // 3d istore_2
    Format::Alone(Plain::Store(ValueKind::Int, 3)), // 3e istore_3
    Format::Alone(Plain::Store(ValueKind::Long, 0)), // 3f lstore_0
    Format::Alone(Plain::Store(ValueKind::Long, 1)), // 40 lstore_1
    Format::Alone(Plain::Store(ValueKind::Long, 2)), // 41 lstore_2
    Format::Alone(Plain::Store(ValueKind::Long, 3)), // 42 lstore_3
    Format::LeftOut, // 43 fstore_0
    Format::LeftOut, // 44 fstore_1
    Format::LeftOut, // 45 fstore_2
    Format::LeftOut, // 46 fstore_3
    Format::LeftOut, // 47 dstore_0
    Format::LeftOut, // 48 dstore_1
    Format::LeftOut, // 49 dstore_2
    Format::LeftOut, // 4a dstore_3
    Format::Alone(Plain::Store(ValueKind::Reference, 0)), // 4b astore_0
    Format::Alone(Plain::Store(ValueKind::Reference, 1)), // 4c astore_1
    Format::Alone(Plain::Store(ValueKind::Reference, 2)), // 4d astore_2
    Format::Alone(Plain::Store(ValueKind::Reference, 3)), // 4e astore_3
    Format::Alone(Plain::ArrayStore(ElementKind::Int)), // 4f iastore
    Format::Alone(Plain::ArrayStore(ElementKind::Long)), // 50 lastore
    Format::LeftOut, // 51 fastore
    Format::LeftOut, // 52 dastore
    Format::Alone(Plain::ArrayStore(ElementKind::Reference)), // 53 aastore
    Format::Alone(Plain::ArrayStore(ElementKind::Byte)), // 54 bastore
    Format::Alone(Plain::ArrayStore(ElementKind::Char)), // 55 castore
    Format::Alone(Plain::ArrayStore(ElementKind::Short)), // 56 sastore
    Format::Alone(Plain::Stack(StackForm::Pop)), // 57 pop
    Format::Alone(Plain::Stack(StackForm::PopTwo)), // 58 pop2
    Format::Alone(Plain::Stack(StackForm::Duplicate)), // 59 dup
    Format::Alone(Plain::Stack(StackForm::DuplicateX1)), // 5a dup_x1
    Format::Alone(Plain::Stack(StackForm::DuplicateX2)), // 5b dup_x2
    Format::Alone(Plain::Stack(StackForm::DuplicateTwo)), // 5c dup2
    Format::Alone(Plain::Stack(StackForm::DuplicateTwoX1)), // 5d dup2_x1
    Format::Alone(Plain::Stack(StackForm::DuplicateTwoX2)), // 5e dup2_x2
    Format::Alone(Plain::Stack(StackForm::Swap)), // 5f swap
    Format::Alone(Plain::IntArithmetic(Arithmetic::Add)), // 60 iadd
    Format::Alone(Plain::LongArithmetic(Arithmetic::Add)), // 61 ladd
    Format::LeftOut, // 62 fadd
    Format::LeftOut, // 63 dadd
    Format::Alone(Plain::IntArithmetic(Arithmetic::Subtract)), // 64 isub
    Format::Alone(Plain::LongArithmetic(Arithmetic::Subtract)), // 65 lsub
    Format::LeftOut, // 66 fsub
    Format::LeftOut, // 67 dsub
    Format::Alone(Plain::IntArithmetic(Arithmetic::Multiply)), // 68 imul
    Format::Alone(Plain::LongArithmetic(Arithmetic::Multiply)), // 69 lmul
    Format::LeftOut, // 6a fmul
    Format::LeftOut, // 6b dmul
    Format::Alone(Plain::IntArithmetic(Arithmetic::Divide)), // 6c idiv
    Format::Alone(Plain::LongArithmetic(Arithmetic::Divide)), // 6d ldiv
    Format::LeftOut, // 6e fdiv
    Format::LeftOut, // 6f ddiv
    Format::Alone(Plain::IntArithmetic(Arithmetic::Remainder)), // 70 irem
    Format::Alone(Plain::LongArithmetic(Arithmetic::Remainder)), // 71 lrem
    Format::LeftOut, // 72 frem
    Format::LeftOut, // 73 drem
    Format::Alone(Plain::IntNegate), // 74 ineg
    Format::Alone(Plain::LongNegate), // 75 lneg
    Format::LeftOut, // 76 fneg
    Format::LeftOut, // 77 dneg
    Format::Alone(Plain::IntShift(Shift::Left)), // 78 ishl
    Format::Alone(Plain::LongShift(Shift::Left)), // 79 lshl
    Format::Alone(Plain::IntShift(Shift::Right)), // 7a ishr
    Format::Alone(Plain::LongShift(Shift::Right)), // 7b lshr
    Format::Alone(Plain::IntShift(Shift::RightUnsigned)), // 7c iushr
    Format::Alone(Plain::LongShift(Shift::RightUnsigned)), // 7d lushr
    Format::Alone(Plain::IntArithmetic(Arithmetic::And)), // 7e iand
    Format::Alone(Plain::LongArithmetic(Arithmetic::And)), // 7f land
    Format::Alone(Plain::IntArithmetic(Arithmetic::Or)), // 80 ior
    Format::Alone(Plain::LongArithmetic(Arithmetic::Or)), // 81 lor
    Format::Alone(Plain::IntArithmetic(Arithmetic::Xor)), // 82 ixor
    Format::Alone(Plain::LongArithmetic(Arithmetic::Xor)), // 83 lxor
    Format::LocalAndConstant, // 84 iinc
    Format::Alone(Plain::Convert(Conversion::IntToLong)), // 85 i2l
    Format::LeftOut, // 86 i2f
    Format::LeftOut, // 87 i2d
    Format::Alone(Plain::Convert(Conversion::LongToInt)), // 88 l2i
    Format::LeftOut, // 89 l2f
    Format::LeftOut, // 8a l2d
    Format::LeftOut, // 8b f2i
    Format::LeftOut, // 8c f2l
    Format::LeftOut, // 8d f2d
    Format::LeftOut, // 8e d2i
    Format::LeftOut, // 8f d2l
    Format::LeftOut, // 90 d2f
    Format::Alone(Plain::Convert(Conversion::IntToByte)), // 91 i2b
    Format::Alone(Plain::Convert(Conversion::IntToChar)), // 92 i2c
    Format::Alone(Plain::Convert(Conversion::IntToShort)), // 93 i2s
    Format::Alone(Plain::CompareLongs), // 94 lcmp
    Format::LeftOut, // 95 fcmpl
    Format::LeftOut, // 96 fcmpg
    Format::LeftOut, // 97 dcmpl
    Format::LeftOut, // 98 dcmpg
    Format::Branch(Branch::OnZero(Comparison::Equal)), // 99 ifeq
    Format::Branch(Branch::OnZero(Comparison::NotEqual)), // 9a ifne
    Format::Branch(Branch::OnZero(Comparison::Less)), // 9b iflt
    Format::Branch(Branch::OnZero(Comparison::GreaterOrEqual)), // 9c ifge
    Format::Branch(Branch::OnZero(Comparison::Greater)), // 9d ifgt
    Format::Branch(Branch::OnZero(Comparison::LessOrEqual)), // 9e ifle
    Format::Branch(Branch::OnInts(Comparison::Equal)), // 9f if_icmpeq
    Format::Branch(Branch::OnInts(Comparison::NotEqual)), // a0 if_icmpne
    Format::Branch(Branch::OnInts(Comparison::Less)), // a1 if_icmplt
    Format::Branch(Branch::OnInts(Comparison::GreaterOrEqual)), // a2 if_icmpge
    Format::Branch(Branch::OnInts(Comparison::Greater)), // a3 if_icmpgt
    Format::Branch(Branch::OnInts(Comparison::LessOrEqual)), // a4 if_icmple
    Format::Branch(Branch::OnReferences(true)), // a5 if_acmpeq
    Format::Branch(Branch::OnReferences(false)), // a6 if_acmpne
    Format::Branch(Branch::Always), // a7 goto
    Format::LeftOut, // a8 jsr
    Format::LeftOutLocal, // a9 ret
    Format::TableSwitch, // aa tableswitch
    Format::LookupSwitch, // ab lookupswitch
    Format::Alone(Plain::ReturnValue(ValueKind::Int)), // ac ireturn
    Format::Alone(Plain::ReturnValue(ValueKind::Long)), // ad lreturn
    Format::LeftOut, // ae freturn
    Format::LeftOut, // af dreturn
    Format::Alone(Plain::ReturnValue(ValueKind::Reference)), // b0 areturn
    Format::Alone(Plain::ReturnVoid), // b1 return
    Format::PoolIndex(EntryKind::Field, Indexed::Getstatic), // b2 getstatic
    Format::PoolIndex(EntryKind::Field, Indexed::Putstatic), // b3 putstatic
    Format::PoolIndex(EntryKind::Field, Indexed::Getfield), // b4 getfield
    Format::PoolIndex(EntryKind::Field, Indexed::Putfield), // b5 putfield
    Format::PoolIndex(EntryKind::Method, Indexed::Invokevirtual), // b6 invokevirtual
    Format::PoolIndex(EntryKind::MethodOfAny, Indexed::Invokespecial), // b7 invokespecial
    Format::PoolIndex(EntryKind::MethodOfAny, Indexed::Invokestatic), // b8 invokestatic
    Format::InterfaceCall, // b9 invokeinterface
    Format::LeftOut, // ba invokedynamic
    Format::PoolIndex(EntryKind::Class, Indexed::New), // bb new
    Format::ElementType, // bc newarray
    Format::PoolIndex(EntryKind::Class, Indexed::Anewarray), // bd anewarray
    Format::Alone(Plain::Arraylength), // be arraylength
    Format::Alone(Plain::Athrow), // bf athrow
    Format::PoolIndex(EntryKind::Class, Indexed::Checkcast), // c0 checkcast
    Format::PoolIndex(EntryKind::Class, Indexed::Instanceof), // c1 instanceof
    Format::Alone(Plain::Monitorenter), // c2 monitorenter
    Format::Alone(Plain::Monitorexit), // c3 monitorexit
    Format::WideForm, // c4 wide
    Format::LeftOut, // c5 multianewarray
    Format::Branch(Branch::OnNull(true)), // c6 ifnull
    Format::Branch(Branch::OnNull(false)), // c7 ifnonnull
    Format::WideBranch(Branch::Always), // c8 goto_w
    Format::LeftOut, // c9 jsr_w
];

/// The format at a place of a table.
fn row(table: &[Format], opcode: u8) -> Option<Format>
    ensures { result ≡ slice_get table.now opcode }
{
    match table.get(usize::from(opcode)) {
        Some(format) => Some(*format),
        None => None,
    }
}

/// What stands behind an opcode; behind the last of the table there are none.
pub fn format_of(opcode: u8) -> Option<Format>
    ensures { option_map format_of result ≡ format_of_opcode opcode }
{
    row(&FORMATS, opcode)
}
