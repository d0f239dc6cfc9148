//! What no clause says: that each call succeeds, and what texts come to as class files.

use crate::assembler::assemble;
use crate::error::AsmError;
use class_samples::{ADD, RETURN};
use class_writer::write_class;
use jv_types::{LineKind, List, NoMemory};
use std::alloc::Global;

/// A class whose main method prints 2147483647 + 1.
const ADDING: &[u8; 234] = b"class Main extends java/lang/Object
method 9 main ([Ljava/lang/String;)V
stack 3 locals 1
getstatic java/lang/System.out Ljava/io/PrintStream;
ldc int 2147483647
iconst_1
iadd
invokevirtual java/io/PrintStream.println (I)V
return
end
";

/// A class whose main method only returns.
const RETURNING: &[u8; 101] = b"class Main extends java/lang/Object
method 9 main ([Ljava/lang/String;)V
stack 0 locals 1
return
end
";

/// Whether a text comes to this class file.
fn is_file(alloc: Global, text: &[u8], file: &[u8]) -> bool {
    match assemble(alloc, text) {
        Ok(class) => match write_class(alloc, &class) {
            Ok(bytes) => bytes.as_slice() == file,
            Err(_) => false,
        },
        Err(_) => false,
    }
}

#[test]
fn texts_are_assembled(rt: HostRuntime) {
    let alloc = rt.alloc();
    assert!(rt; is_file(alloc, ADDING, &ADD));
    assert!(rt; is_file(alloc, RETURNING, &RETURN));
}

/// The first faulty line of a text and its kind.
fn fault_of(alloc: Global, text: &[u8]) -> Result<Option<(u32, LineKind)>, NoMemory> {
    match assemble(alloc, text) {
        Ok(_) => Ok(None),
        Err(AsmError::Line(fault)) => Ok(Some((fault.line, fault.kind))),
        Err(AsmError::NoMemory) => Err(NoMemory),
    }
}

/// The first faulty line of a text, of these lines behind a right first one.
fn fault_behind(alloc: Global, lines: &[u8]) -> Result<Option<(u32, LineKind)>, NoMemory> {
    let mut text = List::from_slice(alloc, b"class A extends B\n")?;
    text.append(lines)?;
    fault_of(alloc, text.as_slice())
}

#[test]
fn a_faulty_first_line_is_told(rt: HostRuntime) {
    let alloc = rt.alloc();
    let texts: [(&[u8], LineKind); 6] = [
        (b"", LineKind::Head),
        (b"class A extends B", LineKind::Text),
        (b"class \xff extends B\nflags x\n", LineKind::Text),
        (b"class A extends B C\nflags x\n", LineKind::Head),
        (b"class  extends B\n", LineKind::Head),
        (b"class A extend B\n", LineKind::Head),
    ];
    for (text, kind) in texts {
        assert!(rt; fault_of(alloc, text) == Ok(Some((1, kind))));
    }
}

#[test]
fn the_first_faulty_line_is_told(rt: HostRuntime) {
    let alloc = rt.alloc();
    let texts: [(&[u8], u32, LineKind); 16] = [
        (b"flags x\nflags\n", 2, LineKind::Number),
        (b"flags 1\nflags x\n", 3, LineKind::Order),
        (b"flags 1\n\xff\n", 3, LineKind::Text),
        (b"\n", 2, LineKind::Word),
        (b"implements A B\n", 2, LineKind::Count),
        (b"field 0 a J const int x y\n", 2, LineKind::Order),
        (b"attr A 00\nattr A 0\n", 3, LineKind::Number),
        (b"method 9 m ()V\nend\n", 3, LineKind::Order),
        (
            b"method 256 m ()V\nstack 1 locals 1\nend\n",
            3,
            LineKind::Order,
        ),
        (b"method 9 m ()V\nstack 1 locals 1\n", 3, LineKind::Open),
        (b"method 9 m ()V\nstack 1 local 1\nend\n", 3, LineKind::Word),
        (
            b"method 9 m ()V\nstack 0 locals 1\ngoto L\nend\n",
            4,
            LineKind::Label,
        ),
        (
            b"method 9 m ()V\nstack 0 locals 1\nat L\nat L\nend\n",
            5,
            LineKind::Label,
        ),
        (
            b"method 9 m ()V\nstack 0 locals 1\nframe |\nframe |\nend\n",
            5,
            LineKind::Order,
        ),
        (
            b"method 9 m ()V\nstack 0 locals 1\nlookupswitch 2:L 1:L default L\nend\n",
            4,
            LineKind::Number,
        ),
        (
            b"method 9 m ()V\nstack 0 locals 1\nnewarray float\nend\n",
            4,
            LineKind::Word,
        ),
    ];
    for (text, line, kind) in texts {
        assert!(rt; fault_behind(alloc, text) == Ok(Some((line, kind))));
    }
}
