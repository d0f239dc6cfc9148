//! The tables of the classes of a large program (JVMS 5.5, 6.5).

use crate::opened::{Named, Opened};
use jv_types::{Bytes, List, NoMemory};
use std::alloc::Global;
use std::test::Fail;

/// How many classes a program has, its main class included.
const MOST_CLASSES: u32 = 1_024;

/// The manifest of a program of so many classes. Of the others each is below the one of half its
/// number, and those whose number is even override the method `m`.
fn tree(alloc: Global) -> Result<Bytes, NoMemory> {
    let head = "jvolve 1\nmain C0\nasm C0\nclass C0 extends java/lang/Object\n\
        method 9 main ([Ljava/lang/String;)V\nstack 0 locals 1\nreturn\nend\n\
        method 1 m ()V\nstack 0 locals 1\nreturn\nend\n.end\n";
    let mut text = List::from_slice(alloc, head.as_bytes())?;
    for class in 1..MOST_CLASSES {
        let above = class / 2;
        let line = format!(in alloc;
            "asm C{class}\nclass C{class} extends C{above}\nfield 1 f I\n"
        )?;
        text.append(line.as_bytes())?;
        if class % 2 == 0 {
            text.append(b"method 1 m ()V\nstack 0 locals 1\nreturn\nend\n")?;
        }
        text.append(b".end\n")?;
    }
    Ok(text)
}

/// Whether a class of the tree selects the method of the nearest class of an even number, and has as
/// many fields as classes lead to it.
fn is_in_tree(alloc: Global, opened: &Opened, class: u32) -> Result<bool, Fail> {
    let name = format!(in alloc; "C{class}")?;
    let selected = opened.selected(alloc, name.as_str(), Named("C0", "m", "()V"))?;
    let above = class.checked_shr(class.trailing_ones()).unwrap_or(0);
    let declaring = opened.class(alloc, format!(in alloc; "C{above}")?.as_str())?;
    let depth = 32_u32.saturating_sub(class.leading_zeros());
    Ok(
        matches!(selected, Some(method) if method.class == declaring)
            && opened.layout(alloc, name.as_str())?.len() == depth,
    )
}

/// Whether each class is.
fn are_in_tree(alloc: Global, opened: &Opened) -> Result<bool, Fail> {
    for class in 0..MOST_CLASSES {
        if !is_in_tree(alloc, opened, class)? {
            return Ok(false);
        }
    }
    Ok(true)
}

#[test]
fn a_thousand_classes_select(rt: HostRuntime) -> Result<(), Fail> {
    let opened = Opened::open(rt.alloc(), tree(rt.alloc())?.as_slice())?;
    assert!(rt; are_in_tree(rt.alloc(), &opened)?);
    Ok(())
}
