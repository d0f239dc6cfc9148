use super::*;
use jv_types::List;
use std::test::Fail;

#[test]
fn a_walk_meets_each_node_once(rt: HostRuntime) -> Result<(), Fail> {
    // 0 leads to 2 and 1, both of them to 3, and 3 back to 2.
    let graph = [
        List::from_slice(rt.alloc(), &[2, 1])?,
        List::from_slice(rt.alloc(), &[3])?,
        List::from_slice(rt.alloc(), &[3])?,
        List::from_slice(rt.alloc(), &[2])?,
    ];
    let nodes = preorder(rt.alloc(), &graph, 0)?;
    assert_eq!(rt; nodes.as_slice(), [0, 2, 3, 1].as_slice());
    let nodes = preorder(rt.alloc(), &graph, 3)?;
    assert_eq!(rt; nodes.as_slice(), [3, 2].as_slice());
    Ok(())
}
