//! What no clause says: that each call succeeds.

use crate::entry::Entry;
use crate::fault::no_fault;
use crate::order::note_order;
use crate::parts::read_parts;
use crate::pool::{empty_pool, index_of, need};
use asm_lines::term::{MemberReference, ReferenceKind};
use jv_types::{LineKind, NoMemory};
use std::alloc::Global;

/// The line and the kind of the first line outside methods that is out of order.
fn first_out_of_order(alloc: Global, text: &[u8]) -> Option<(u32, LineKind)> {
    match read_parts(alloc, text) {
        Ok(parts) => {
            let mut first = no_fault();
            note_order(parts.as_slice(), &mut first);
            first.told.map(|fault| (fault.line, fault.kind))
        }
        Err(NoMemory) => None,
    }
}

/// How many parts a text has, and how many of them are closed.
fn count(alloc: Global, text: &[u8]) -> Option<(usize, usize)> {
    match read_parts(alloc, text) {
        Ok(parts) => {
            let parts = parts.as_slice();
            let closed = parts.iter().filter(|part| part.is_closed).count();
            Some((parts.len(), closed))
        }
        Err(NoMemory) => None,
    }
}

#[test]
fn texts_are_cut_into_parts(rt: HostRuntime) {
    let alloc = rt.alloc();
    assert!(rt; count(alloc, b"") == Some((0, 0)));
    assert!(rt; count(alloc, b"flags 1\nmethod 9 a ()V\nnop\nend\nattr A 00\n") == Some((3, 3)));
    assert!(rt; count(alloc, b"method 9 a ()V\nmethod 9 b ()V\nend \nend") == Some((1, 0)));
    assert!(rt; count(alloc, b"method\nend\nend\n") == Some((2, 2)));
}

#[test]
fn lines_out_of_order_are_told(rt: HostRuntime) {
    let alloc = rt.alloc();
    let order = LineKind::Order;
    let texts: [(&[u8], u32); 6] = [
        (b"flags 1\nflags 1\n", 3),
        (b"field 1 a I\nflags 1\nimplements A\n", 3),
        (b"method 256 a ()V\nend\nfield 1 a I\n", 4),
        (b"attr A 00\nmethod 256 a ()V\nend\n", 3),
        (b"nop\n", 2),
        (b"implements A\nimplements B\nend\n", 4),
    ];
    for (text, line) in texts {
        assert!(rt; first_out_of_order(alloc, text) == Some((line, order)));
    }
    assert!(rt; first_out_of_order(alloc, b"unknown\nflags 1\n").is_none());
}

/// The index of an entry after these needs, in a pool of its own.
fn index_after(alloc: Global, needs: &[Entry<'_>], entry: Entry<'_>) -> Result<u32, NoMemory> {
    let mut pool = empty_pool(alloc);
    for entry in needs {
        need(&mut pool, *entry)?;
    }
    Ok(index_of(&pool, entry))
}

#[test]
fn entries_have_the_indices_of_their_first_need(rt: HostRuntime) {
    let alloc = rt.alloc();
    let reference = MemberReference {
        class: "A",
        name: "m",
        descriptor: "()V",
    };
    let member = Entry::Member(ReferenceKind::Method, reference);
    let needs = [Entry::Class("A"), Entry::Long(1), Entry::Class("A"), member];
    assert!(rt; index_after(alloc, &needs, Entry::Text("A")) == Ok(1));
    assert!(rt; index_after(alloc, &needs, Entry::Class("A")) == Ok(2));
    assert!(rt; index_after(alloc, &needs, Entry::Long(1)) == Ok(3));
    assert!(rt; index_after(alloc, &needs, Entry::Text("m")) == Ok(5));
    assert!(rt; index_after(alloc, &needs, Entry::Text("()V")) == Ok(6));
    assert!(rt; index_after(alloc, &needs, Entry::NameAndType("m", "()V")) == Ok(7));
    assert!(rt; index_after(alloc, &needs, member) == Ok(8));
    assert!(rt; index_after(alloc, &needs, Entry::Int(0)) == Ok(9));
}
