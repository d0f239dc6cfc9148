use super::*;
use jv_types::text::units;
use jv_types::{Cause, ClassData, Const, List, Loaded, Member, NoMemory};
use std::alloc::Global;
use std::test::Fail;

const DESCRIPTOR: u16 = 3;

fn member(alloc: Global, flags: u16, descriptor: u16) -> Member {
    Member {
        flags,
        name: 4,
        descriptor,
        attributes: List::new(alloc),
    }
}

/// A class of this name with a field of this descriptor, and a method with these flags.
fn class(alloc: Global, name: &str, descriptor: &str, flags: u16) -> Result<Loaded, NoMemory> {
    let mut pool = List::new(alloc);
    pool.push(Const::Gap)?;
    pool.push(Const::Utf8(units(alloc, name)?))?;
    pool.push(Const::Class(1))?;
    pool.push(Const::Utf8(units(alloc, descriptor)?))?;
    pool.push(Const::Utf8(units(alloc, "m")?))?;
    pool.push(Const::Utf8(units(alloc, "()V")?))?;
    let mut fields = List::new(alloc);
    fields.push(member(alloc, 0, DESCRIPTOR))?;
    let mut methods = List::new(alloc);
    methods.push(member(alloc, flags, 5))?;
    Ok(Loaded {
        file: ClassData {
            minor: 0,
            major: 52,
            pool,
            flags: 0,
            this_class: 2,
            super_class: 2,
            interfaces: List::new(alloc),
            fields,
            methods,
            attributes: List::new(alloc),
        },
        codes: List::new(alloc),
        base: 0,
    })
}

/// Names, and whether they are kept for the machine's own.
const NAMES: [(&str, bool); 5] = [
    ("p/A", false),
    ("javax/A", false),
    ("java/lang/A", true),
    ("jvold/A", true),
    ("[I", true),
];

#[test]
fn kept_names_are_reserved(rt: HostRuntime) -> Result<(), Fail> {
    for (name, expected) in NAMES {
        let classes = [class(rt.alloc(), name, "I", 1)?];
        let fault = first_reserved(rt.alloc(), &classes)?;
        assert_eq!(rt;
            matches!(fault, Some(Cause::Reserved { .. })),
            expected,
            "{name}"
        );
    }
    Ok(())
}

/// Descriptors of a field, and whether they are refused (JVMS 4.3.2).
const DESCRIPTORS: [(&str, bool); 6] = [
    ("J", false),
    ("[[Lp/A;", false),
    ("F", true),
    ("[D", true),
    ("Lp/A", true),
    ("()V", true),
];

#[test]
fn wrong_descriptors_are_found(rt: HostRuntime) -> Result<(), Fail> {
    for (descriptor, expected) in DESCRIPTORS {
        let classes = [
            class(rt.alloc(), "p/A", "I", 1)?,
            class(rt.alloc(), "p/B", descriptor, 1)?,
        ];
        let fault = first_wrong_descriptor(rt.alloc(), &classes)?;
        assert_eq!(rt;
            matches!(fault, Some(Cause::Descriptor { index: 3, .. })),
            expected,
            "{descriptor}"
        );
    }
    Ok(())
}

/// Flags of a method without code, and whether they are refused.
const METHODS: [(u16, bool); 4] = [
    (0x0401, false),
    (0x0009, false),
    (0x0101, true),
    (0x0408, true),
];

#[test]
fn wrong_methods_are_found(rt: HostRuntime) -> Result<(), Fail> {
    for (flags, expected) in METHODS {
        let classes = [class(rt.alloc(), "p/A", "I", flags)?];
        let fault = first_wrong_method(rt.alloc(), &classes)?;
        assert_eq!(rt;
            matches!(fault, Some(Cause::MethodKind { method: 0, .. })),
            expected,
            "{flags}"
        );
    }
    Ok(())
}
