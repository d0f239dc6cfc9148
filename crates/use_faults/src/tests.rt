use super::*;
use class_names::Names;
use class_world::World;
use jv_types::text::units;
use jv_types::{Cause, List};
use std::test::Fail;

#[test]
fn a_world_of_no_classes_has_no_main(rt: HostRuntime) -> Result<(), Fail> {
    let alloc = rt.alloc();
    let world = World::of(alloc, Names::new(alloc), List::new(alloc))?;
    let main = units(alloc, "Main")?;
    assert!(rt; first_unresolved(alloc, &world)?.is_none());
    assert!(rt; first_final_override(alloc, &world)?.is_none());
    assert!(rt; matches!(main_fault(&world, &main), Some(Cause::NoMain)));
    Ok(())
}

/// Flags and names of methods, and whether they can be overridden (JVMS 5.4.5).
const METHODS: [(u16, &str, bool); 5] = [
    (0x0001, "m", true),
    (0x0010, "m", true),
    (0x0002, "m", false),
    (0x0008, "m", false),
    (0x0001, "<init>", false),
];

#[test]
fn methods_that_override_are_told(rt: HostRuntime) -> Result<(), Fail> {
    for (flags, name, expected) in METHODS {
        let name_units = units(rt.alloc(), name)?;
        assert_eq!(rt;
            final_methods::is_virtual(flags, name_units.as_slice()),
            expected,
            "{name}"
        );
    }
    Ok(())
}
