use super::RowHeap;
use heap_face::{Addr, Cell, Full, Kind, Layouts, ObjectHeap, Roots, Shape};
use jv_types::{ClassNo, List};
use std::test::Fail;

/// A new object, or what is told where there is no room.
fn object(heap: &mut RowHeap, kind: Kind, words: u16) -> Result<Addr, Full> {
    let shape = Shape {
        class: ClassNo(0),
        kind,
        words: u32::from(words) + 4,
    };
    let used = used_of(heap);
    if heap.free_serial() == u64::MAX {
        return Err(Full { used, asked: 0 });
    }
    heap.alloc(shape)
}

/// An array of references, or null where there is no room.
fn array(heap: &mut RowHeap, length: u16) -> Addr {
    object(heap, Kind::Refs, length).unwrap_or(Addr(0))
}

fn used_of<H: ObjectHeap>(heap: &H) -> u32 {
    heap.used()
}

fn link(heap: &mut RowHeap, from: Addr, at: u32, word: u32) {
    if at < heap.contents_len(from) {
        heap.put(from, at, u64::from(word));
    }
}

fn collected(heap: &mut RowHeap, layouts: &Layouts, roots: &mut Roots) -> bool {
    let can = heap.can_collect(layouts, roots);
    if can {
        heap.collect(layouts, roots);
    }
    can
}

fn serial(heap: &RowHeap, a: Addr) -> Option<u64> {
    if heap.is_live(a) {
        Some(heap.serial(a))
    } else {
        None
    }
}

fn target(heap: &RowHeap, a: Addr, at: u32) -> Addr {
    if at < heap.contents_len(a) {
        Addr(u32::try_from(heap.get(a, at)).unwrap_or(0))
    } else {
        Addr(0)
    }
}

fn root(roots: &Roots, at: usize) -> Addr {
    match roots.addrs.as_slice().get(at) {
        Some(a) => *a,
        None => Addr(0),
    }
}

/// What is reached twice, and by a cycle, is kept once, and in reach order.
#[test]
fn a_cycle_is_kept_once(rt: HostRuntime) -> Result<(), Fail> {
    let alloc = rt.alloc();
    let layouts = Layouts {
        classes: List::new(alloc),
    };
    let mut heap = RowHeap::open(alloc, 64)?;
    let a = array(&mut heap, 2);
    let lost = array(&mut heap, 1);
    let b = array(&mut heap, 1);
    let c = array(&mut heap, 0);
    link(&mut heap, a, 0, c.0);
    link(&mut heap, a, 1, b.0);
    link(&mut heap, b, 0, a.0);
    link(&mut heap, lost, 0, a.0);
    let mut roots = Roots {
        addrs: List::from_slice(alloc, &[b, a, b])?,
    };
    assert!(rt; collected(&mut heap, &layouts, &mut roots));
    let now = root(&roots, 0);
    let other = root(&roots, 1);
    assert_eq!(rt;
        [now, target(&heap, now, 0), target(&heap, other, 1)],
        [root(&roots, 2), other, now]
    );
    let leaf = target(&heap, other, 0);
    assert_eq!(rt;
        [
            serial(&heap, now),
            serial(&heap, other),
            serial(&heap, leaf)
        ],
        [Some(2), Some(0), Some(3)]
    );
    assert_eq!(rt; used_of(&heap), 15);
    let next = array(&mut heap, 0);
    assert_eq!(rt; serial(&heap, next), Some(4));
    Ok(())
}

/// A number that looks like an address is followed nowhere.
#[test]
fn numbers_are_not_followed(rt: HostRuntime) -> Result<(), Fail> {
    let alloc = rt.alloc();
    let mut classes = List::new(alloc);
    classes.push(List::from_slice(alloc, &[Cell::Long, Cell::Ref, Cell::Int])?)?;
    let layouts = Layouts { classes };
    let mut heap = RowHeap::open(alloc, 64)?;
    let lost = array(&mut heap, 0);
    let ints = object(&mut heap, Kind::Ints, 1).unwrap_or(Addr(0));
    let fields = object(&mut heap, Kind::Object, 2).unwrap_or(Addr(0));
    link(&mut heap, ints, 0, lost.0);
    link(&mut heap, fields, 0, lost.0);
    link(&mut heap, fields, 1, ints.0);
    let mut roots = Roots {
        addrs: List::from_slice(alloc, &[fields])?,
    };
    assert!(rt; collected(&mut heap, &layouts, &mut roots));
    assert_eq!(rt; used_of(&heap), 11);
    let now = root(&roots, 0);
    assert_eq!(rt; target(&heap, now, 0), lost);
    assert_eq!(rt; target(&heap, target(&heap, now, 1), 0), lost);
    Ok(())
}

/// Room is refused exactly past the half.
#[test]
fn a_full_heap_refuses(rt: HostRuntime) -> Result<(), Fail> {
    for (half, second, used) in [
        (16, Ok(Addr(2)), 16),
        (15, Err(Full { used: 8, asked: 8 }), 8),
    ] {
        let mut heap = RowHeap::open(rt.alloc(), half)?;
        let _first = array(&mut heap, 4);
        assert_eq!(rt; object(&mut heap, Kind::Ints, 4), second);
        assert_eq!(rt; used_of(&heap), used);
    }
    Ok(())
}
