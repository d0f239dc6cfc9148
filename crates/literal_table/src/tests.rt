use super::LiteralTable;
use class_names::Names;
use std::test::Fail;

/// A table can be made.
#[test]
fn a_table_is_made(rt: HostRuntime) -> Result<(), Fail> {
    let alloc = rt.alloc();
    let table = LiteralTable::open(alloc, Names::new(alloc), 1)?;
    assert_eq!(rt; table.strings(), 0);
    Ok(())
}
