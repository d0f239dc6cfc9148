//! The program `heap_bench`: makes objects on a heap and collects it, so that both can be timed from
//! outside.
//!
//! `heap_bench WORK COUNT ROUNDS` takes the room of `COUNT` objects and does what `WORK` says:
//!
//! - `open`: nothing more;
//! - `alloc`: fills the heap `ROUNDS` times, and after each time drops all objects;
//! - `check`: fills the heap once, and asks `ROUNDS` times whether a collection can follow all;
//! - `collect`: the same, and collects each time, with a root from which all objects are reached.
//!
//! Each object has two fields, which refer to the two objects before it, so all but a few are reached
//! twice. It prints how many words are used in the end.
//!
//! It stands on `row_heap`, whose contract says what a collection keeps.
#![tactic(auto)]

use heap_face::{Addr, Cell, Kind, Layouts, ObjectHeap, Roots, Shape};
use jv_types::{ClassNo, List, NoMemory};
use row_heap::RowHeap;
use std::alloc::Global;
use std::process::ExitCode;
use std::{env, io};

/// The header and two fields.
const WORDS: u32 = 5;

/// What is to be timed.
#[derive(Clone, Copy)]
enum Work {
    Open,
    Alloc,
    Check,
    Collect,
}

/// The words for it.
const WORKS: [(&str, Work); 4] = [
    ("open", Work::Open),
    ("alloc", Work::Alloc),
    ("check", Work::Check),
    ("collect", Work::Collect),
];

/// What a word says.
fn work_of(word: &str) -> Option<Work> {
    for (name, work) in WORKS {
        if word == name {
            return Some(work);
        }
    }
    None
}

/// A new object, where there is room.
fn object(heap: &mut RowHeap) -> Option<Addr> {
    if heap.free_serial() == u64::MAX {
        return None;
    }
    let shape = Shape {
        class: ClassNo(0),
        kind: Kind::Object,
        words: WORDS,
    };
    heap.alloc(shape).ok()
}

/// Lets a field of an object refer to another one.
fn refer(heap: &mut RowHeap, from: Addr, field: u32, to: Addr) {
    if field < heap.contents_len(from) {
        heap.put(from, field, u64::from(to.0));
    }
}

/// Makes as many objects, each of which refers to the two before it. The last one is given.
fn fill(heap: &mut RowHeap, count: u32) -> Addr {
    let mut before = Addr(0);
    let mut last = Addr(0);
    for _ in 0..count {
        let Some(next) = object(heap) else {
            return last;
        };
        refer(heap, next, 0, last);
        refer(heap, next, 1, before);
        before = last;
        last = next;
    }
    last
}

/// Collects, where a collection can follow everything.
fn collect(heap: &mut RowHeap, layouts: &Layouts, roots: &mut Roots) {
    if heap.can_collect(layouts, roots) {
        heap.collect(layouts, roots);
    }
}

/// Fills the heap and drops all objects, so many times.
fn alloc_again(heap: &mut RowHeap, layouts: &Layouts, none: &mut Roots, count: u32, rounds: u32) {
    for _ in 0..rounds {
        let _last = fill(heap, count);
        collect(heap, layouts, none);
    }
}

/// Does the work so many times.
fn work_again(heap: &mut RowHeap, layouts: &Layouts, roots: &mut Roots, work: Work, rounds: u32) {
    for _ in 0..rounds {
        match work {
            Work::Collect => collect(heap, layouts, roots),
            _ => {
                let _can = heap.can_collect(layouts, roots);
            }
        }
    }
}

/// A class with two references.
fn layouts(alloc: Global) -> Result<Layouts, NoMemory> {
    let mut classes = List::new(alloc);
    classes.push(List::from_slice(alloc, &[Cell::Ref, Cell::Ref])?)?;
    Ok(Layouts { classes })
}

/// Does the work, and tells how many words are used then.
fn timed(alloc: Global, work: Work, count: u32, rounds: u32) -> Result<u32, NoMemory> {
    let half = count.checked_mul(WORDS).ok_or(NoMemory)?;
    let mut heap = RowHeap::open(alloc, half)?;
    let layouts = layouts(alloc)?;
    let mut roots = Roots {
        addrs: List::new(alloc),
    };
    match work {
        Work::Open => {}
        Work::Alloc => alloc_again(&mut heap, &layouts, &mut roots, count, rounds),
        Work::Check | Work::Collect => {
            roots.addrs.push(fill(&mut heap, count))?;
            work_again(&mut heap, &layouts, &mut roots, work, rounds);
        }
    }
    Ok(heap.used())
}

/// Prints what there is to say.
fn say(rt: &HostRuntime, work: Work, count: u32, rounds: u32) -> io::Result<()> {
    match timed(rt.alloc(), work, count, rounds) {
        Ok(used) => println!(rt; "{used} words"),
        Err(_) => println!(rt; "no memory"),
    }
}

fn main(rt: HostRuntime) -> ExitCode {
    let Ok(mut words) = env::args(&rt) else {
        return ExitCode::FAILURE;
    };
    let _program = words.next();
    let (Some(work), Some(count), Some(rounds)) = (words.next(), words.next(), words.next()) else {
        return ExitCode::FAILURE;
    };
    let Some(work) = work_of(work.as_str()) else {
        return ExitCode::FAILURE;
    };
    let (Ok(count), Ok(rounds)) = (count.as_str().parse(), rounds.as_str().parse()) else {
        return ExitCode::FAILURE;
    };
    match say(&rt, work, count, rounds) {
        Ok(()) => ExitCode::SUCCESS,
        Err(_) => ExitCode::FAILURE,
    }
}
