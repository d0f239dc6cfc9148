//! What no clause says: that each call succeeds, and the faults of lines as a user meets them.

use crate::line::read_line;
use crate::term::{AssemblerLine, ConstantText, Operation};
use jv_types::LineKind;
use jv_types::lines::split_line;
use std::alloc::Global;

/// Whether the first line of a text is faulty by itself, with this kind.
fn is_faulty(alloc: Global, text: &[u8], kind: LineKind) -> bool {
    if text.is_empty() {
        return false;
    }
    let (line, _) = split_line(text);
    match read_line(alloc, 2, line) {
        Ok(read) => match read.said {
            Ok(_) => false,
            Err(found) => found == kind,
        },
        Err(_) => false,
    }
}

/// Whether the first line of a text says something.
fn is_read(alloc: Global, text: &[u8]) -> bool {
    if text.is_empty() {
        return false;
    }
    let (line, _) = split_line(text);
    match read_line(alloc, 2, line) {
        Ok(read) => read.said.is_ok(),
        Err(_) => false,
    }
}

#[test]
fn lines_are_read(rt: HostRuntime) {
    let texts: [&[u8]; 40] = [
        b"flags 65535\n",
        b"implements a/B\n",
        b"field 0 a I\n",
        b"field 25 a I const int -2147483648\n",
        b"field 25 a J const long 9223372036854775807\n",
        b"field 25 a Ljava/lang/String; const string two  words \n",
        b"field 25 a Ljava/lang/String; const string \n",
        b"method 9 main ([Ljava/lang/String;)V\n",
        b"stack 0 locals 65535\n",
        b"end\n",
        b"at L\n",
        b"frame |\n",
        b"frame int long | null top\n",
        b"frame this new:L A [I |\n",
        b"catch A B C any\n",
        b"catch A B C java/lang/Throwable\n",
        b"attr Name 00fFA9\n",
        b"nop\n",
        b"bipush -128\n",
        b"bipush 127\n",
        b"bipush -0\n",
        b"sipush 32767\n",
        b"iload 65535\n",
        b"goto L\n",
        b"goto_w L\n",
        b"ifnull L\n",
        b"getfield a.b I\n",
        b"getfield a.b.c I\n",
        b"getfield .x I\n",
        b"getfield A. I\n",
        b"invokeinterface a.b ()V\n",
        b"new [I\n",
        b"ldc int 7\n",
        b"ldc string \n",
        b"ldc string  a  b \n",
        b"ldc2_w long -9223372036854775808\n",
        b"newarray long\n",
        b"iinc 65535 -32768\n",
        b"tableswitch 2147483646 A B default C\n",
        b"lookupswitch -5:A 0:B: 7: default C\n",
    ];
    for text in texts {
        assert!(rt; is_read(rt.alloc(), text));
    }
    assert!(rt; is_read(rt.alloc(), b"lookupswitch default C\n"));
}

#[test]
fn a_wrong_word_is_told_first(rt: HostRuntime) {
    let texts: [&[u8]; 30] = [
        b"\n",
        b" nop\n",
        b"Nop\n",
        b"wide iload 1\n",
        b"ldc_w int 1\n",
        b"jsr L\n",
        b"fadd\n",
        b"multianewarray A 2\n",
        b"class A expands B\n",
        b"field x a  constant\n",
        b"field x a J const short x\n",
        b"field x a J const  x\n",
        b"stack x local y\n",
        b"stack x  y\n",
        b"frame\n",
        b"frame int  int\n",
        b"frame | int |\n",
        b"getfield ab\n",
        b"getfield  I\n",
        b"getfield ab I x y\n",
        b"ldc float 1\n",
        b"ldc  1\n",
        b"ldc2_w int 1 1\n",
        b"newarray float x\n",
        b"newarray \n",
        b"tableswitch x A B defalt C\n",
        b"tableswitch x A B  C\n",
        b"lookupswitch x:A 5 default C\n",
        b"lookupswitch  default C\n",
        b"lookupswitch 1:A defaults C\n",
    ];
    for text in texts {
        assert!(rt; is_faulty(rt.alloc(), text, LineKind::Word));
    }
}

#[test]
fn a_wrong_count_is_told_before_a_wrong_number(rt: HostRuntime) {
    let texts: [&[u8]; 30] = [
        b"flags\n",
        b"flags \n",
        b"flags x 1\n",
        b"implements  A\n",
        b"field x a\n",
        b"field x  I\n",
        b"field x a I const\n",
        b"field x a I const int\n",
        b"field x a I const int x y\n",
        b"field x a Ljava/lang/String; const string\n",
        b"field x  Ljava/lang/String; const string a\n",
        b"method x a\n",
        b"stack x locals\n",
        b"stack x locals y z\n",
        b"end \n",
        b"at\n",
        b"at L \n",
        b"frame int  |\n",
        b"frame | \n",
        b"catch A B C\n",
        b"attr A x \n",
        b"nop nop\n",
        b"bipush x \n",
        b"getfield\n",
        b"getfield a.b\n",
        b"ldc string\n",
        b"ldc int x \n",
        b"newarray int int\n",
        b"tableswitch x A\n",
        b"lookupswitch x:A x:B default \n",
    ];
    for text in texts {
        assert!(rt; is_faulty(rt.alloc(), text, LineKind::Count));
    }
}

#[test]
fn a_wrong_number_is_told(rt: HostRuntime) {
    let texts: [&[u8]; 24] = [
        b"flags 65536\n",
        b"flags 01\n",
        b"flags -0\n",
        b"flags +1\n",
        b"field -1 a I\n",
        b"field 1 a I const int 2147483648\n",
        b"field 1 a J const long -9223372036854775809\n",
        b"stack 1 locals 65536\n",
        b"attr A 0\n",
        b"attr A 0g\n",
        b"attr A 000\n",
        b"bipush 128\n",
        b"bipush -129\n",
        b"bipush --1\n",
        b"bipush -\n",
        b"sipush 32768\n",
        b"iload 65536\n",
        b"ldc int -2147483649\n",
        b"ldc2_w long 9223372036854775808\n",
        b"iinc 1 32768\n",
        b"tableswitch 2147483647 A B default C\n",
        b"lookupswitch 1:A 1:B default C\n",
        b"lookupswitch 1:A 0:B default C\n",
        b"lookupswitch 2147483648:A default C\n",
    ];
    for text in texts {
        assert!(rt; is_faulty(rt.alloc(), text, LineKind::Number));
    }
}

#[test]
fn other_faults_of_lines_are_told(rt: HostRuntime) {
    let alloc = rt.alloc();
    assert!(rt; is_faulty(alloc, b"nop", LineKind::Text));
    assert!(rt; is_faulty(alloc, b"ldc string \xff\n", LineKind::Text));
    assert!(rt; is_faulty(alloc, b"class A extends B\n", LineKind::Order));
    assert!(rt; is_faulty(alloc, b"class\n", LineKind::Order));
    assert!(rt; is_faulty(alloc, b"field x a J const int x y\n", LineKind::Order));
    assert!(rt; is_faulty(alloc, b"field 0 a F const int 1\n", LineKind::Order));
    assert!(rt; is_faulty(alloc, b"field 0 a I const string 1\n", LineKind::Order));
}

#[test]
fn a_text_stands_as_it_is(rt: HostRuntime) {
    let (line, _) = split_line(b"ldc string  a  b \n");
    let is_it = match read_line(rt.alloc(), 2, line) {
        Ok(read) => match read.said {
            Ok(AssemblerLine::Operation(Operation::LoadConstant(ConstantText::String(text)))) => {
                text == " a  b "
            }
            _ => false,
        },
        Err(_) => false,
    };
    assert!(rt; is_it);
}
