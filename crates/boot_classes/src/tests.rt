use super::*;
use jv_types::ClassNo;
use std::test::Fail;

#[test]
fn the_table_has_its_classes(rt: HostRuntime) -> Result<(), Fail> {
    let table = boot_table(rt.alloc())?;
    assert_eq!(rt; table.len(), 26);
    // The number of a class, its superclass, and the numbers of its fields and methods.
    let cases = [
        (0, None, 0, 2),
        (3, Some(ClassNo(0)), 2, 4),
        (4, Some(ClassNo(0)), 0, 11),
        (24, Some(ClassNo(23)), 0, 2),
    ];
    for (number, superclass, fields, methods) in cases {
        let class = table.as_slice().get(number);
        assert!(rt; class.is_some_and(|class| class.superclass == superclass));
        assert!(rt; class.is_some_and(|class| class.fields.len() == fields));
        assert!(rt; class.is_some_and(|class| class.methods.len() == methods));
    }
    Ok(())
}
