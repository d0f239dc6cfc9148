//! What no clause says: that the call succeeds; and manifests as a user meets them, each with what
//! the grammar says of it, worked out by hand.

use crate::error::ManifestError;
use crate::item::{ClassItem, ItemForm, ManifestItem, UpdateItem, When};
use crate::manifest::read_manifest;
use jv_types::{Bytes, LineKind, List, NoMemory};
use std::alloc::Global;

/// The most bytes of a manifest here.
const MOST_BYTES: usize = 0x10_0000;

/// The line and the kind of a manifest's fault, if it has one.
fn fault_of(alloc: Global, text: &[u8]) -> Option<(u32, LineKind)> {
    if text.len() > MOST_BYTES {
        return None;
    }
    match read_manifest(alloc, text) {
        Ok(_) | Err(ManifestError::NoMemory) => None,
        Err(ManifestError::Line(fault)) => Some((fault.line, fault.kind)),
    }
}

/// Whether a manifest says this.
fn says(alloc: Global, text: &[u8], main: &str, items: &[ManifestItem<'_>]) -> bool {
    if text.len() > MOST_BYTES {
        return false;
    }
    match read_manifest(alloc, text) {
        Ok(manifest) => manifest.main == main && manifest.items.as_slice() == items,
        Err(_) => false,
    }
}

/// How many items a manifest has.
fn count(alloc: Global, text: &[u8]) -> Option<u32> {
    if text.len() > MOST_BYTES {
        return None;
    }
    match read_manifest(alloc, text) {
        Ok(manifest) => Some(manifest.items.len()),
        Err(_) => None,
    }
}

#[test]
fn a_manifest_is_read(rt: HostRuntime) {
    let text = "jvolve 1\nclass A a/b\nmain M\nasm \u{e9}\nx\n.done\n.end\nupdate u at 0\n\
        update here on call\n.end\n\n.done\nupdate here at 20000000\n.done\n";
    let items = [
        ManifestItem::Class(ClassItem {
            line: 2,
            class: "A",
            form: ItemForm::InFile("a/b"),
        }),
        ManifestItem::Class(ClassItem {
            line: 4,
            class: "\u{e9}",
            form: ItemForm::InLines(b"x\n.done\n"),
        }),
        ManifestItem::Update(UpdateItem {
            line: 8,
            when: When::AtStep(0),
            form: ItemForm::InFile("u"),
        }),
        ManifestItem::Update(UpdateItem {
            line: 9,
            when: When::OnCall,
            form: ItemForm::InLines(b".end\n\n"),
        }),
        ManifestItem::Update(UpdateItem {
            line: 13,
            when: When::AtStep(20_000_000),
            form: ItemForm::InLines(b""),
        }),
    ];
    assert!(rt; says(rt.alloc(), text.as_bytes(), "M", &items));
}

#[test]
fn faults_are_told(rt: HostRuntime) {
    let texts: [(&[u8], u32, LineKind); 40] = [
        (b"", 1, LineKind::Head),
        (b"\n", 1, LineKind::Head),
        (b"jvolve 2\n", 1, LineKind::Head),
        (b"jvolve 1 \n", 1, LineKind::Head),
        (b"jvolve 1", 1, LineKind::Text),
        (b"\xff\n", 1, LineKind::Text),
        (b"jvolve 1\n", 1, LineKind::Main),
        (b"jvolve 1\nclass A a\n", 2, LineKind::Main),
        (b"jvolve 1\nmain M\nmain M\n", 3, LineKind::Main),
        (b"jvolve 1\nmain M", 2, LineKind::Text),
        (b"jvolve 1\nmain \xc3\n", 2, LineKind::Text),
        (b"jvolve 1\nmain M\nasm A\n\xff\n.end\n", 4, LineKind::Text),
        (b"jvolve 1\nmain M\nasm A\n.end", 4, LineKind::Text),
        (b"jvolve 1\nmain M\nasm A\n", 3, LineKind::Open),
        (b"jvolve 1\nmain M\nasm A\nx\n", 4, LineKind::Open),
        (b"jvolve 1\nasm A\nx\n", 3, LineKind::Open),
        (b"jvolve 1\nmain M\nasm A\n.done\n", 4, LineKind::Open),
        (
            b"jvolve 1\nmain M\nupdate here at 1\n.end\n",
            4,
            LineKind::Open,
        ),
        (
            b"jvolve 1\nmain M\nupdate here at 1\nasm A\n.done\n.end\n",
            6,
            LineKind::Order,
        ),
        (b"jvolve 1\nmain M\n.end\n", 3, LineKind::Order),
        (b"jvolve 1\nmain M\n.done x\n", 3, LineKind::Order),
        (b"jvolve 1\njvolve 1\nmain M\n", 2, LineKind::Order),
        (b"jvolve 1\nmain M\n\n", 3, LineKind::Word),
        (b"jvolve 1\nmain M\n class A a\n", 3, LineKind::Word),
        (b"jvolve 1\nmain M\nend\n", 3, LineKind::Word),
        (b"jvolve 1\nmain\nx\n", 2, LineKind::Count),
        (b"jvolve 1\nmain M \n", 2, LineKind::Count),
        (b"jvolve 1\nmain M\nclass A\n", 3, LineKind::Count),
        (b"jvolve 1\nmain M\nclass A a b\n", 3, LineKind::Count),
        (b"jvolve 1\nmain M\nasm A A\n", 3, LineKind::Count),
        (b"jvolve 1\nmain M\nupdate u\n", 3, LineKind::Count),
        (b"jvolve 1\nmain M\nupdate u at\n", 3, LineKind::Count),
        (b"jvolve 1\nmain M\nupdate  at 1\n", 3, LineKind::Count),
        (b"jvolve 1\nmain M\nupdate u at 1 1\n", 3, LineKind::Count),
        (b"jvolve 1\nmain M\nupdate u in 1\n", 3, LineKind::Word),
        (
            b"jvolve 1\nmain M\nupdate u on demand now\n",
            3,
            LineKind::Word,
        ),
        (
            b"jvolve 1\nmain M\nupdate u at 20000001\n",
            3,
            LineKind::Number,
        ),
        (b"jvolve 1\nmain M\nupdate u at 01\n", 3, LineKind::Number),
        (b"jvolve 1\nmain M\nupdate u at -0\n", 3, LineKind::Number),
        (b"jvolve 1\nmain M\nupdate here at x\n", 3, LineKind::Number),
    ];
    for (text, line, kind) in texts {
        assert!(rt; fault_of(rt.alloc(), text) == Some((line, kind)));
    }
}

/// A manifest of so many equal lines.
fn of_lines(alloc: Global, line: &[u8], count: usize) -> Result<Bytes, NoMemory> {
    let mut text = List::from_slice(alloc, b"jvolve 1\nmain M\n")?;
    for _ in 0..count {
        text.append(line)?;
    }
    Ok(text)
}

/// How many items a manifest of so many equal lines has, or its fault.
fn items_of(alloc: Global, line: &[u8], most: usize) -> (Option<u32>, Option<(u32, LineKind)>) {
    match of_lines(alloc, line, most) {
        Ok(text) => (
            count(alloc, text.as_slice()),
            fault_of(alloc, text.as_slice()),
        ),
        Err(NoMemory) => (None, None),
    }
}

#[test]
fn items_have_a_limit(rt: HostRuntime) {
    let many = LineKind::Many;
    let alloc = rt.alloc();
    assert!(rt; items_of(alloc, b"class A a\n", 1024) == (Some(1024), None));
    assert!(rt; items_of(alloc, b"asm A\n.end\n", 1025) == (None, Some((2051, many))));
    assert!(rt; items_of(alloc, b"update u on call\n", 16) == (Some(16), None));
    assert!(rt; items_of(alloc, b"update here at 1\n.done\n", 17) == (None, Some((35, many))));
}
