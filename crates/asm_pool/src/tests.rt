//! What no clause says: that each call succeeds.

use crate::constants::constants;
use crate::fill::{fill, note_far};
use crate::needs::all_needs;
use asm_lines::term::{MemberReference, ReferenceKind};
use asm_parts::entry::Entry;
use asm_parts::fault::no_fault;
use asm_parts::parts::read_parts;
use asm_parts::pool::index_of;
use jv_types::NoMemory;
use std::alloc::Global;

/// Prints 2147483647 + 1, behind the first line of a class `Main`.
const ADDING: &[u8; 198] = b"method 9 main ([Ljava/lang/String;)V
stack 3 locals 1
getstatic java/lang/System.out Ljava/io/PrintStream;
ldc int 2147483647
iconst_1
iadd
invokevirtual java/io/PrintStream.println (I)V
return
end
";

/// The index of an entry of the pool of a class `Main`, and how long the pool is.
fn index_in(
    alloc: Global,
    behind: &[u8],
    entry: Entry<'_>,
) -> Result<Option<(u32, u32)>, NoMemory> {
    let parts = read_parts(alloc, behind)?;
    let needs = all_needs(alloc, "Main", "java/lang/Object", parts.as_slice())?;
    let pool = fill(alloc, needs.as_slice())?;
    let mut first = no_fault();
    note_far(&pool, needs.as_slice(), &mut first);
    if first.told.is_some() {
        return Ok(None);
    }
    let constants = constants(alloc, &pool)?;
    Ok(Some((index_of(&pool, entry), constants.len())))
}

#[test]
fn a_pool_is_filled_in_the_order_of_first_need(rt: HostRuntime) {
    let alloc = rt.alloc();
    let println = MemberReference {
        class: "java/io/PrintStream",
        name: "println",
        descriptor: "(I)V",
    };
    let entries = [
        (Entry::Text("Main"), 1),
        (Entry::Class("Main"), 2),
        (Entry::Class("java/lang/Object"), 4),
        (Entry::Text("main"), 5),
        (Entry::Text("Code"), 7),
        (Entry::Class("java/lang/System"), 9),
        (Entry::NameAndType("out", "Ljava/io/PrintStream;"), 12),
        (Entry::Int(2147483647), 14),
        (Entry::Member(ReferenceKind::Method, println), 20),
    ];
    for (entry, index) in entries {
        assert!(rt; index_in(alloc, ADDING, entry) == Ok(Some((index, 21))));
    }
}
