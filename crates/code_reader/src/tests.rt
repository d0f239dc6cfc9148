use super::*;
use crate::body::read_body;
use class_reader::read_class;
use class_samples::ADD;
use jv_types::ClassData;
use std::alloc::Global;
use std::test::Fail;

/// A class whose method has a long and a reference as parameters, and entries that code may name.
///
/// ```text
///  10 1 Utf8 A
///  14 2 Class 1
///  17 3 Utf8 Code
///  24 4 Utf8 StackMapTable
///  40 5 Utf8 (JLA;)V
///  50 6 NameAndType 1 5
///  55 7 InterfaceMethodref 2 6
///  60 8 Long 1
///  69 10 Double 1.0
///  78 12 Integer 1
///  83  public super class 2 extends 2, no interfaces, no fields
///  95  public static method 1 of type 5
/// 103    attribute 3 of 13 bytes: max_stack 0, max_locals 3, 1 byte of code
/// 117      0 return
/// 122  no attributes
/// ```
const SAMPLE: [u8; 124] = *b"\xca\xfe\xba\xbe\0\0\0\x34\0\x0d\
    \x01\0\x01A\
    \x07\0\x01\
    \x01\0\x04Code\
    \x01\0\x0dStackMapTable\
    \x01\0\x07(JLA;)V\
    \x0c\0\x01\0\x05\
    \x0b\0\x02\0\x06\
    \x05\0\0\0\0\0\0\0\x01\
    \x06\x3f\xf0\0\0\0\0\0\0\
    \x03\0\0\0\x01\
    \0\x21\0\x02\0\x02\0\0\0\0\0\x01\
    \0\x09\0\x01\0\x05\0\x01\
    \0\x03\0\0\0\x0d\
    \0\0\0\x03\0\0\0\x01\
    \xb1\0\0\0\0\
    \0\0";

/// The bytes of a Code attribute, and how many instructions they spell, or why they are refused.
/// They are max_stack, max_locals, the length of the code and it, the rows of the exception table
/// and the attributes, each after its count.
type Case = (&'static [u8], Result<u32, CodeError>);

const CASES: [Case; 77] = [
    // return, and the attribute ending early, and late.
    (b"\0\0\0\x01\0\0\0\x01\xb1\0\0\0\0", Ok(1)),
    (
        b"\0\0\0\x01\0\0\0\x01\xb1\0\0\0",
        Err(CodeError::Shape { at: 11 }),
    ),
    (
        b"\0\0\0\x01\0\0\0\x01\xb1\0\0\0\0\0",
        Err(CodeError::Shape { at: 13 }),
    ),
    // More bytes of code than there may be.
    (b"\0\0\0\x01\0\x01\0\0", Err(CodeError::Shape { at: 4 })),
    // No code.
    (
        b"\0\0\0\x01\0\0\0\0\0\0\0\0",
        Err(CodeError::Shape { at: 4 }),
    ),
    // 4,095 words and one, and two, also in front of no opcode.
    (b"\x0f\xff\0\x01\0\0\0\x01\xb1\0\0\0\0", Ok(1)),
    (
        b"\x0f\xff\0\x02\0\0\0\x01\xb1\0\0\0\0",
        Err(CodeError::FrameTooBig { words: 4_097 }),
    ),
    (
        b"\x0f\xff\0\x02\0\0\0\x01\xca\0\0\0\0",
        Err(CodeError::FrameTooBig { words: 4_097 }),
    ),
    // No opcode, fadd, a cut bipush, and newarray of floats, each behind a nop.
    (
        b"\0\0\0\x01\0\0\0\x02\0\xca\0\0\0\0",
        Err(CodeError::Opcode { pc: 1 }),
    ),
    (
        b"\0\0\0\x01\0\0\0\x02\0\x62\0\0\0\0",
        Err(CodeError::Unsupported { pc: 1 }),
    ),
    (
        b"\0\0\0\x01\0\0\0\x02\0\x10\0\0\0\0",
        Err(CodeError::Operand { pc: 1 }),
    ),
    (
        b"\0\0\0\x01\0\0\0\x03\0\xbc\x06\0\0\0\0",
        Err(CodeError::Unsupported { pc: 1 }),
    ),
    // fadd in front of no opcode, jsr_w without its offset, and newarray of longs.
    (
        b"\0\0\0\x01\0\0\0\x02\x62\xca\0\0\0\0",
        Err(CodeError::Unsupported { pc: 0 }),
    ),
    (
        b"\0\0\0\x01\0\0\0\x01\xc9\0\0\0\0",
        Err(CodeError::Unsupported { pc: 0 }),
    ),
    (b"\0\0\0\x01\0\0\0\x02\xbc\x0b\0\0\0\0", Ok(1)),
    // wide nop, and wide ret.
    (
        b"\0\0\0\x01\0\0\0\x02\xc4\0\0\0\0\0",
        Err(CodeError::Operand { pc: 0 }),
    ),
    (
        b"\0\0\0\x01\0\0\0\x04\xc4\xa9\0\0\0\0\0\0",
        Err(CodeError::Unsupported { pc: 0 }),
    ),
    // goto to itself, and into itself.
    (b"\0\0\0\x01\0\0\0\x03\xa7\0\0\0\0\0\0", Ok(1)),
    (
        b"\0\0\0\x01\0\0\0\x03\xa7\0\x01\0\0\0\0",
        Err(CodeError::Target { pc: 0 }),
    ),
    // A row up to the code's end, and one that is empty.
    (
        b"\0\0\0\x01\0\0\0\x01\xb1\0\x01\0\0\0\x01\0\0\0\0\0\0",
        Ok(1),
    ),
    (
        b"\0\0\0\x01\0\0\0\x01\xb1\0\x01\0\0\0\0\0\0\0\0\0\0",
        Err(CodeError::Handler { row: 0 }),
    ),
    // wide iload, lload, aload, istore, lstore, astore and iinc.
    (
        b"\0\0\0\0\0\0\0\x1e\xc4\x15\0\x01\xc4\x16\0\x01\xc4\x19\0\x01\xc4\x36\0\x01\xc4\
        \x37\0\x01\xc4\x3a\0\x01\xc4\x84\0\x01\0\x01\0\0\0\0",
        Ok(7),
    ),
    // wide fload, wide wide, and wide iinc with a constant of one byte.
    (
        b"\0\0\0\0\0\0\0\x04\xc4\x17\0\0\0\0\0\0",
        Err(CodeError::Unsupported { pc: 0 }),
    ),
    (
        b"\0\0\0\0\0\0\0\x04\xc4\xc4\0\0\0\0\0\0",
        Err(CodeError::Operand { pc: 0 }),
    ),
    (
        b"\0\0\0\0\0\0\0\x05\xc4\x84\0\0\x01\0\0\0\0",
        Err(CodeError::Operand { pc: 0 }),
    ),
    // wide of no opcode, and of nothing.
    (
        b"\0\0\0\0\0\0\0\x02\xc4\xca\0\0\0\0",
        Err(CodeError::Operand { pc: 0 }),
    ),
    (
        b"\0\0\0\0\0\0\0\x01\xc4\0\0\0\0",
        Err(CodeError::Operand { pc: 0 }),
    ),
    // tableswitch behind a nop: two bytes of padding, to itself, and for 0 to the nop.
    (
        b"\0\0\0\0\0\0\0\x14\0\xaa\xff\x7f\0\0\0\0\0\0\0\0\0\0\0\0\xff\xff\xff\xff\0\0\0\0",
        Ok(2),
    ),
    // The lowest key above the highest, a target that isn't whole, all the keys, and into itself.
    (
        b"\0\0\0\0\0\0\0\x14\xaa\0\0\0\0\0\0\0\0\0\0\x01\0\0\0\0\0\0\0\0\0\0\0\0",
        Err(CodeError::Operand { pc: 0 }),
    ),
    (
        b"\0\0\0\0\0\0\0\x17\xaa\0\0\0\0\0\0\0\0\0\0\0\0\0\0\x01\0\0\0\0\0\0\0\0\0\0\0",
        Err(CodeError::Operand { pc: 0 }),
    ),
    (
        b"\0\0\0\0\0\0\0\x14\xaa\0\0\0\0\0\0\0\x80\0\0\0\x7f\xff\xff\xff\0\0\0\0\0\0\0\0",
        Err(CodeError::Operand { pc: 0 }),
    ),
    (
        b"\0\0\0\0\0\0\0\x14\xaa\0\0\0\0\0\0\0\0\0\0\0\0\0\0\0\0\0\0\x04\0\0\0\0",
        Err(CodeError::Target { pc: 0 }),
    ),
    // lookupswitch: three bytes of padding, and keys -1 and 1.
    (
        b"\0\0\0\0\0\0\0\x1c\xab\x01\x80\xff\0\0\0\0\0\0\0\x02\xff\xff\xff\xff\0\0\0\0\0\0\
        \0\x01\0\0\0\0\0\0\0\0",
        Ok(1),
    ),
    // No padding, and fewer keys than none.
    (
        b"\0\0\0\0\0\0\0\x02\xab\0\0\0\0\0",
        Err(CodeError::Operand { pc: 0 }),
    ),
    (
        b"\0\0\0\0\0\0\0\x0c\xab\0\0\0\0\0\0\0\xff\xff\xff\xff\0\0\0\0",
        Err(CodeError::Operand { pc: 0 }),
    ),
    // Keys that don't rise, and a pair that isn't whole.
    (
        b"\0\0\0\0\0\0\0\x1c\xab\0\0\0\0\0\0\0\0\0\0\x02\0\0\0\x01\0\0\0\0\0\0\0\x01\0\0\0\
        \0\0\0\0\0",
        Err(CodeError::Operand { pc: 0 }),
    ),
    (
        b"\0\0\0\0\0\0\0\x18\xab\0\0\0\0\0\0\0\0\0\0\x02\xff\xff\xff\xff\0\0\0\0\0\0\0\x01\
        \0\0\0\0",
        Err(CodeError::Operand { pc: 0 }),
    ),
    // ldc2_w of a Long, of a Double, and of an Integer; ldc of a Class.
    (b"\0\0\0\0\0\0\0\x03\x14\0\x08\0\0\0\0", Ok(1)),
    (
        b"\0\0\0\0\0\0\0\x03\x14\0\x0a\0\0\0\0",
        Err(CodeError::Unsupported { pc: 0 }),
    ),
    (
        b"\0\0\0\0\0\0\0\x03\x14\0\x0c\0\0\0\0",
        Err(CodeError::Operand { pc: 0 }),
    ),
    (
        b"\0\0\0\0\0\0\0\x02\x12\x02\0\0\0\0",
        Err(CodeError::Unsupported { pc: 0 }),
    ),
    // ldc of an index behind the pool, getstatic of a Double, and of an interface's method
    // invokestatic and invokevirtual.
    (
        b"\0\0\0\0\0\0\0\x02\x12\xff\0\0\0\0",
        Err(CodeError::Operand { pc: 0 }),
    ),
    (
        b"\0\0\0\0\0\0\0\x03\xb2\0\x0a\0\0\0\0",
        Err(CodeError::Unsupported { pc: 0 }),
    ),
    (b"\0\0\0\0\0\0\0\x03\xb8\0\x07\0\0\0\0", Ok(1)),
    (
        b"\0\0\0\0\0\0\0\x03\xb6\0\x07\0\0\0\0",
        Err(CodeError::Operand { pc: 0 }),
    ),
    // invokeinterface of a long and a reference: with 4 words, with 3, and with a last byte of 1.
    (b"\0\0\0\0\0\0\0\x05\xb9\0\x07\x04\0\0\0\0\0", Ok(1)),
    (
        b"\0\0\0\0\0\0\0\x05\xb9\0\x07\x03\0\0\0\0\0",
        Err(CodeError::Operand { pc: 0 }),
    ),
    (
        b"\0\0\0\0\0\0\0\x05\xb9\0\x07\x04\x01\0\0\0\0",
        Err(CodeError::Operand { pc: 0 }),
    ),
    // goto_w to the code's end, and goto in front of its begin.
    (
        b"\0\0\0\0\0\0\0\x05\xc8\0\0\0\x05\0\0\0\0",
        Err(CodeError::Target { pc: 0 }),
    ),
    (
        b"\0\0\0\0\0\0\0\x03\xa7\xff\xff\0\0\0\0",
        Err(CodeError::Target { pc: 0 }),
    ),
    // A second row beyond the code's end, and a row that catches an Integer.
    (
        b"\0\0\0\0\0\0\0\x01\0\0\x02\0\0\0\x01\0\0\0\x02\0\0\0\x02\0\0\0\0\0\0",
        Err(CodeError::Handler { row: 1 }),
    ),
    (
        b"\0\0\0\0\0\0\0\x01\0\0\x01\0\0\0\x01\0\0\0\x0c\0\0",
        Err(CodeError::Handler { row: 0 }),
    ),
    // Rows that begin, end and lead inside bipush.
    (
        b"\0\0\0\0\0\0\0\x03\x10\0\0\0\x01\0\x01\0\x03\0\0\0\0\0\0",
        Err(CodeError::Handler { row: 0 }),
    ),
    (
        b"\0\0\0\0\0\0\0\x03\x10\0\0\0\x01\0\0\0\x01\0\0\0\0\0\0",
        Err(CodeError::Handler { row: 0 }),
    ),
    (
        b"\0\0\0\0\0\0\0\x03\x10\0\0\0\x01\0\0\0\x03\0\x01\0\0\0\0",
        Err(CodeError::Handler { row: 0 }),
    ),
    // An empty row behind a goto into itself, and in front of a chop of three locals.
    (
        b"\0\0\0\x01\0\0\0\x03\xa7\0\x01\0\x01\0\0\0\0\0\0\0\0\0\0",
        Err(CodeError::Target { pc: 0 }),
    ),
    (
        b"\0\0\0\x03\0\0\0\x01\0\0\x01\0\0\0\0\0\0\0\0\0\x01\0\x04\0\0\0\x05\0\x01\
        \xf8\0\0",
        Err(CodeError::Handler { row: 0 }),
    ),
    // same, same_locals_1_stack_item and its extended form, chop, same_extended, append and full.
    (
        b"\0\x02\0\x03\0\0\0\x07\0\0\0\0\0\0\0\0\0\0\x01\0\x04\0\0\0\x1e\0\x07\0\x40\x01\
        \xf7\0\0\x04\xfa\0\0\xfb\0\0\xfc\0\0\x01\xff\0\0\0\x01\x07\0\x02\0\x01\x05",
        Ok(7),
    ),
    // chop of three locals where there are two.
    (
        b"\0\0\0\x03\0\0\0\x01\0\0\0\0\x01\0\x04\0\0\0\x05\0\x01\xf8\0\0",
        Err(CodeError::MapFrame { index: 0 }),
    ),
    // append of an Int and of a Long to three words, where there is room for one.
    (
        b"\0\0\0\x04\0\0\0\x01\0\0\0\0\x01\0\x04\0\0\0\x06\0\x01\xfc\0\0\x01",
        Ok(1),
    ),
    (
        b"\0\0\0\x04\0\0\0\x01\0\0\0\0\x01\0\x04\0\0\0\x06\0\x01\xfc\0\0\x04",
        Err(CodeError::MapFrame { index: 0 }),
    ),
    // A Long on a stack of one word.
    (
        b"\0\x01\0\x03\0\0\0\x01\0\0\0\0\x01\0\x04\0\0\0\x04\0\x01\x40\x04",
        Err(CodeError::MapFrame { index: 0 }),
    ),
    // A second frame at the byte after the first, which is an operand's.
    (
        b"\0\0\0\x03\0\0\0\x02\x10\0\0\0\0\x01\0\x04\0\0\0\x04\0\x02\0\0",
        Err(CodeError::MapFrame { index: 1 }),
    ),
    // A frame at the code's end, and a type that the instruction at 99 would make.
    (
        b"\0\0\0\x03\0\0\0\x01\0\0\0\0\x01\0\x04\0\0\0\x03\0\x01\x01",
        Err(CodeError::MapFrame { index: 0 }),
    ),
    (
        b"\0\x01\0\x03\0\0\0\x01\0\0\0\0\x01\0\x04\0\0\0\x06\0\x01\x40\x08\0\x63",
        Ok(1),
    ),
    // A byte left over behind the reserved type 128, and behind a Float.
    (
        b"\0\0\0\x03\0\0\0\x01\0\0\0\0\x01\0\x04\0\0\0\x04\0\x01\x80\0",
        Err(CodeError::MapFrame { index: 0 }),
    ),
    (
        b"\0\x01\0\x03\0\0\0\x01\0\0\0\0\x01\0\x04\0\0\0\x05\0\x01\x40\x02\0",
        Err(CodeError::Shape { at: 23 }),
    ),
    // The reserved type 128, a tag of 9, a Float, and an Object of an Integer.
    (
        b"\0\0\0\x03\0\0\0\x01\0\0\0\0\x01\0\x04\0\0\0\x03\0\x01\x80",
        Err(CodeError::MapFrame { index: 0 }),
    ),
    (
        b"\0\x01\0\x03\0\0\0\x01\0\0\0\0\x01\0\x04\0\0\0\x04\0\x01\x40\x09",
        Err(CodeError::MapFrame { index: 0 }),
    ),
    (
        b"\0\x01\0\x03\0\0\0\x01\0\0\0\0\x01\0\x04\0\0\0\x04\0\x01\x40\x02",
        Err(CodeError::MapFrame { index: 0 }),
    ),
    (
        b"\0\x01\0\x03\0\0\0\x01\0\0\0\0\x01\0\x04\0\0\0\x06\0\x01\x40\x07\0\x0c",
        Err(CodeError::MapFrame { index: 0 }),
    ),
    // An attribute of another name, one without a name, and a second StackMapTable.
    (
        b"\0\0\0\x03\0\0\0\x01\0\0\0\0\x01\0\x01\0\0\0\x01\xff",
        Ok(1),
    ),
    (
        b"\0\0\0\x03\0\0\0\x01\0\0\0\0\x01\0\x0c\0\0\0\0",
        Err(CodeError::Shape { at: 13 }),
    ),
    (
        b"\0\0\0\x03\0\0\0\x01\0\0\0\0\x02\0\x04\0\0\0\x02\0\0\0\x04\0\0\0\x02\0\0",
        Err(CodeError::Shape { at: 21 }),
    ),
    // A StackMapTable with a byte behind it, one without its entry, and one that the end cuts.
    (
        b"\0\0\0\x03\0\0\0\x01\0\0\0\0\x01\0\x04\0\0\0\x03\0\0\0",
        Err(CodeError::Shape { at: 21 }),
    ),
    (
        b"\0\0\0\x03\0\0\0\x01\0\0\0\0\x01\0\x04\0\0\0\x02\0\x01",
        Err(CodeError::Shape { at: 21 }),
    ),
    (
        b"\0\0\0\x03\0\0\0\x01\0\0\0\0\x01\0\x04\0\0\0\x09\0\0",
        Err(CodeError::Shape { at: 19 }),
    ),
];

/// How many instructions a Code attribute of the class's first method spells.
fn outcome(alloc: Global, class: &ClassData, bytes: &[u8]) -> Result<u32, CodeError> {
    match class.methods.as_slice().first() {
        Some(member) if bytes.len() < 100 => {
            let body = read_body(alloc, class, 0, member, bytes)?;
            Ok(body.instructions.len())
        }
        _ => Err(CodeError::NoMemory),
    }
}

#[test]
fn attributes_are_read_or_refused(rt: HostRuntime) -> Result<(), Fail> {
    let class = read_class(rt.alloc(), &SAMPLE)?;
    for (bytes, expected) in CASES.as_slice() {
        assert_eq!(rt; outcome(rt.alloc(), &class, bytes), *expected, "{bytes:?}");
    }
    Ok(())
}

#[test]
fn classes_are_loaded(rt: HostRuntime) -> Result<(), Fail> {
    let file = read_class(rt.alloc(), &ADD)?;
    if 0 < file.methods.len() {
        let body = read_code(rt.alloc(), &file, 0).ok();
        let instructions = body.map_or(0, |body| body.instructions.len());
        assert_eq!(rt; instructions, 6);
    }
    let class = load_class(rt.alloc(), file).ok();
    let codes = class.map_or(0, |class| class.codes.len());
    assert_eq!(rt; codes, 1);
    Ok(())
}
