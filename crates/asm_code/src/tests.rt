//! What no clause says: that each call succeeds.

use crate::code_line::Code;
use crate::faults::note_code;
use crate::lines::read_code;
use asm_parts::fault::no_fault;
use asm_parts::parts::read_parts;
use asm_parts::pool::empty_pool;
use jv_types::{LineKind, NoMemory};
use std::alloc::Global;

/// The pc of the last line of a method's code.
fn last_pc(code: &Code<'_, '_>) -> Option<u32> {
    match code.lines.as_slice() {
        [.., last] => last.pc,
        [] => None,
    }
}

/// The pc of the last line of the first method of a text, and what is wrong first.
fn read(alloc: Global, text: &[u8]) -> Result<(Option<u32>, Option<LineKind>), NoMemory> {
    let pool = empty_pool(alloc);
    let parts = read_parts(alloc, text)?;
    match parts.as_slice() {
        [part, ..] => {
            let code = read_code(alloc, &pool, part.block.as_slice())?;
            let mut first = no_fault();
            note_code(alloc, &code, &mut first)?;
            Ok((last_pc(&code), first.told.map(|fault| fault.kind)))
        }
        [] => Ok((None, None)),
    }
}

#[test]
fn lines_are_placed(rt: HostRuntime) {
    let alloc = rt.alloc();
    let texts: [(&[u8], Option<u32>, Option<LineKind>); 6] = [
        (
            b"method 9 m ()V\nnop\niload 256\niinc 1 128\nnop\nend\n",
            Some(11),
            None,
        ),
        (
            b"method 9 m ()V\ngoto A\ntableswitch 0 A default A\nat A\nend\n",
            Some(20),
            None,
        ),
        (
            b"method 9 m ()V\nat A\nlookupswitch 1:A default A\nnop\nend\n",
            Some(20),
            None,
        ),
        (
            b"method 9 m ()V\ngoto A\nnop\nend\n",
            Some(3),
            Some(LineKind::Label),
        ),
        (
            b"method 9 m ()V\nflags 1\nnop\nend\n",
            None,
            Some(LineKind::Order),
        ),
        (
            b"method 9 m ()V\nat A\nframe new:A | A\ncatch A A B any\nend\n",
            Some(0),
            Some(LineKind::Label),
        ),
    ];
    for (text, pc, kind) in texts {
        assert!(rt; read(alloc, text) == Ok((pc, kind)));
    }
}
