//! What no clause says: that each call succeeds.

use crate::code::code_bytes;
use asm_code::lines::read_code;
use asm_parts::parts::read_parts;
use asm_parts::pool::empty_pool;
use jv_types::{Bytes, NoMemory};
use std::alloc::Global;

/// The contents of the Code attribute of the first method of a text, behind the first line of its
/// block.
fn contents(alloc: Global, text: &[u8]) -> Result<Option<Bytes>, NoMemory> {
    let pool = empty_pool(alloc);
    let parts = read_parts(alloc, text)?;
    match parts.as_slice() {
        [part, ..] => {
            let code = read_code(alloc, &pool, part.block.as_slice())?;
            Ok(Some(code_bytes(alloc, &pool, 1, 2, &code)?))
        }
        [] => Ok(None),
    }
}

/// Whether these are the contents.
fn are_contents(alloc: Global, text: &[u8], bytes: &[u8]) -> bool {
    match contents(alloc, text) {
        Ok(Some(found)) => found.as_slice() == bytes,
        _ => false,
    }
}

#[test]
fn code_is_written(rt: HostRuntime) {
    let alloc = rt.alloc();
    let texts: [(&[u8], &[u8]); 4] = [
        (
            b"method 9 m ()V\nat A\niload 256\ngoto A\nend\n",
            b"\0\x01\0\x02\0\0\0\x07\xc4\x15\x01\0\xa7\xff\xfc\0\0\0\0",
        ),
        (
            b"method 9 m ()V\niinc 1 -129\nat A\nlookupswitch 7:A default A\nend\n",
            b"\0\x01\0\x02\0\0\0\x18\xc4\x84\0\x01\xff\x7f\xab\0\0\0\0\0\0\0\0\x01\0\0\0\x07\0\0\0\0\0\0\0\0",
        ),
        (
            b"method 9 m ()V\nat A\nnop\nat B\nframe int | new:A\ncatch A B B any\nend\n",
            b"\0\x01\0\x02\0\0\0\x01\0\0\x01\0\0\0\x01\0\x01\0\0\0\x01\0\x01\0\0\0\x0d\0\x01\xff\0\x01\0\x01\x01\0\x01\x08\0\0",
        ),
        (
            b"method 9 m ()V\nat A\ntableswitch -1 A A default A\nend\n",
            b"\0\x01\0\x02\0\0\0\x18\xaa\0\0\0\0\0\0\0\xff\xff\xff\xff\0\0\0\0\0\0\0\0\0\0\0\0\0\0\0\0",
        ),
    ];
    for (text, bytes) in texts {
        assert!(rt; are_contents(alloc, text, bytes));
    }
}
