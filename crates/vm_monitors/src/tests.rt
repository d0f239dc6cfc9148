use super::*;
use heap_face::{Addr, Kind, ObjectHeap, Shape};
use jv_types::{ClassNo, ThreadNo};
use row_heap::RowHeap;
use std::test::Fail;

/// What a thread does next with a monitor, and whether it can.
enum Change {
    Enters(u32, bool),
    Leaves(u32, bool),
}

/// An entry twice, what others try meanwhile, and an owner after it.
const CHANGES: [Change; 12] = [
    Change::Leaves(3, false),
    Change::Enters(3, true),
    Change::Enters(3, true),
    Change::Enters(63, false),
    Change::Leaves(63, false),
    Change::Leaves(3, true),
    Change::Enters(0, false),
    Change::Leaves(3, true),
    Change::Leaves(3, false),
    Change::Enters(0, true),
    Change::Enters(3, false),
    Change::Leaves(0, true),
];

/// No word here gets that high.
const HIGH: u64 = 1_000_000;

fn entered(word: u64, thread: u32) -> Option<u64> {
    if word < HIGH && thread < 64 {
        enter_word(word, ThreadNo(thread))
    } else {
        None
    }
}

#[test]
fn words_are_entered_and_left(rt: HostRuntime) {
    let mut word = 0;
    for (at, change) in CHANGES.iter().enumerate() {
        let (after, done) = match change {
            Change::Enters(thread, done) => (entered(word, *thread), *done),
            Change::Leaves(thread, done) => (leave_word(word, ThreadNo(*thread)), *done),
        };
        assert_eq!(rt; after.is_some(), done, "change {at}");
        word = after.unwrap_or(word);
    }
    assert_eq!(rt; word, 0);
}

fn object(heap: &mut RowHeap) -> Option<Addr> {
    if heap.free_serial() == u64::MAX {
        return None;
    }
    heap.alloc(Shape {
        class: ClassNo(0),
        kind: Kind::Object,
        words: 4,
    })
    .ok()
}

fn enters(heap: &mut RowHeap, a: Addr, thread: u32) -> Option<bool> {
    if !heap.is_live(a) || heap.lock(a) >= HIGH || thread >= 64 {
        return None;
    }
    let waits = other_owns(heap, a, ThreadNo(thread));
    let done = enter(heap, a, ThreadNo(thread));
    if done == waits { None } else { Some(done) }
}

fn leaves(heap: &mut RowHeap, a: Addr, thread: u32) -> Option<bool> {
    if !heap.is_live(a) {
        return None;
    }
    let owned = owns(heap, a, ThreadNo(thread));
    let done = leave(heap, a, ThreadNo(thread));
    if done == owned { Some(done) } else { None }
}

#[test]
fn objects_are_entered_and_left(rt: HostRuntime) -> Result<(), Fail> {
    let mut heap = RowHeap::open(rt.alloc(), 100)?;
    let other = object(&mut heap).unwrap_or(Addr(0));
    let a = object(&mut heap).unwrap_or(Addr(0));
    for (at, change) in CHANGES.iter().enumerate() {
        let (got, done) = match change {
            Change::Enters(thread, done) => (enters(&mut heap, a, *thread), *done),
            Change::Leaves(thread, done) => (leaves(&mut heap, a, *thread), *done),
        };
        assert_eq!(rt; got, Some(done), "change {at}");
    }
    assert!(rt; heap.is_live(a) && heap.lock(a) == 0);
    assert_eq!(rt; enters(&mut heap, other, 5), Some(true));
    Ok(())
}
