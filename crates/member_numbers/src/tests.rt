use super::MemberNumbers;
use std::test::Fail;

#[test]
fn classes_are_added(rt: HostRuntime) -> Result<(), Fail> {
    let mut numbers = MemberNumbers::new(rt.alloc());
    for count in [2, 0, 3] {
        numbers.push(count)?;
    }
    assert_eq!(rt; numbers.total(), 5);
    Ok(())
}
