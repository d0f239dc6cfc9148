use super::SelectionTable;
use class_names::Signature;
use jv_types::{ClassNo, MethodNo};
use std::test::Fail;

#[test]
fn a_method_is_added(rt: HostRuntime) -> Result<(), Fail> {
    let mut table = SelectionTable::new(rt.alloc());
    let signature = Signature {
        name: 0,
        descriptor: 1,
    };
    let method = MethodNo {
        class: ClassNo(2),
        index: 3,
    };
    table.add(signature, method)?;
    assert_eq!(rt; table.find(signature), Some(method));
    Ok(())
}
