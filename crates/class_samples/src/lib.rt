//! Class files for tests, each with its listing: the indices of its constant pool, and the place of
//! each part, in bytes from 0.
#![tactic(auto)]

/// A class `Main` of Java SE 8, whose main method only returns.
///
/// ```text
///  10  1 Utf8 Main
///  17  2 Class 1
///  20  3 Utf8 java/lang/Object
///  39  4 Class 3
///  42  5 Utf8 main
///  49  6 Utf8 ([Ljava/lang/String;)V
///  74  7 Utf8 Code
///  81  public super class 2 extends 4, no interfaces, no fields
///  93  public static method 5 of type 6
/// 101    attribute 7 of 13 bytes: max_stack 0, max_locals 1, 1 byte of code
/// 115      0 return
/// 120  no attributes
/// ```
pub const RETURN: [u8; 122] = *b"\xca\xfe\xba\xbe\0\0\0\x34\0\x08\
    \x01\0\x04Main\
    \x07\0\x01\
    \x01\0\x10java/lang/Object\
    \x07\0\x03\
    \x01\0\x04main\
    \x01\0\x16([Ljava/lang/String;)V\
    \x01\0\x04Code\
    \0\x21\0\x02\0\x04\0\0\0\0\0\x01\
    \0\x09\0\x05\0\x06\0\x01\
    \0\x07\0\0\0\x0d\
    \0\0\0\x01\0\0\0\x01\
    \xb1\0\0\0\0\
    \0\0";

/// A class `Main` of Java SE 8, whose main method prints 2147483647 + 1.
///
/// ```text
///  10  1 Utf8 Main                     109 11 Utf8 Ljava/io/PrintStream;
///  17  2 Class 1                       133 12 NameAndType 10 11
///  20  3 Utf8 java/lang/Object         138 13 Fieldref 9 12
///  39  4 Class 3                       143 14 Integer 2147483647
///  42  5 Utf8 main                     148 15 Utf8 java/io/PrintStream
///  49  6 Utf8 ([Ljava/lang/String;)V   170 16 Class 15
///  74  7 Utf8 Code                     173 17 Utf8 println
///  81  8 Utf8 java/lang/System         183 18 Utf8 (I)V
/// 100  9 Class 8                       190 19 NameAndType 17 18
/// 103 10 Utf8 out                      195 20 Methodref 16 19
/// 200  public super class 2 extends 4, no interfaces, no fields
/// 212  public static method 5 of type 6
/// 220    attribute 7 of 23 bytes: max_stack 3, max_locals 1, 11 bytes of code
/// 234      0 getstatic 13, 3 ldc 14, 5 iconst_1, 6 iadd, 7 invokevirtual 20, 10 return
/// 249  no attributes
/// ```
pub const ADD: [u8; 251] = *b"\xca\xfe\xba\xbe\0\0\0\x34\0\x15\
    \x01\0\x04Main\
    \x07\0\x01\
    \x01\0\x10java/lang/Object\
    \x07\0\x03\
    \x01\0\x04main\
    \x01\0\x16([Ljava/lang/String;)V\
    \x01\0\x04Code\
    \x01\0\x10java/lang/System\
    \x07\0\x08\
    \x01\0\x03out\
    \x01\0\x15Ljava/io/PrintStream;\
    \x0c\0\x0a\0\x0b\
    \x09\0\x09\0\x0c\
    \x03\x7f\xff\xff\xff\
    \x01\0\x13java/io/PrintStream\
    \x07\0\x0f\
    \x01\0\x07println\
    \x01\0\x04(I)V\
    \x0c\0\x11\0\x12\
    \x0a\0\x10\0\x13\
    \0\x21\0\x02\0\x04\0\0\0\0\0\x01\
    \0\x09\0\x05\0\x06\0\x01\
    \0\x07\0\0\0\x17\
    \0\x03\0\x01\0\0\0\x0b\
    \xb2\0\x0d\x12\x0e\x04\x60\xb6\0\x14\xb1\
    \0\0\0\0\
    \0\0";

/// A class `A` with a field `A` of type long, whose constant value is 1.
///
/// ```text
///  10  1 Utf8 A
///  14  2 Class 1
///  17  3 Utf8 J
///  21  4 Long 1
///  30  6 Utf8 ConstantValue
///  46  public super class 2 extends 2, no interfaces
///  56  field 1 of type 3
///  64    attribute 6 of 2 bytes: 4
///  72  no methods
///  74  no attributes
/// ```
pub const FIELD: [u8; 76] = *b"\xca\xfe\xba\xbe\0\0\0\x34\0\x07\
    \x01\0\x01A\
    \x07\0\x01\
    \x01\0\x01J\
    \x05\0\0\0\0\0\0\0\x01\
    \x01\0\x0dConstantValue\
    \0\x21\0\x02\0\x02\0\0\0\x01\
    \0\0\0\x01\0\x03\0\x01\
    \0\x06\0\0\0\x02\0\x04\
    \0\0\
    \0\0";
