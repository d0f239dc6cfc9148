//! Threads that come, run and end.

use super::*;
use code_store::CodeMark;
use jv_types::{ClassNo, MethodNo, ThreadNo};
use jv_values::Value;
use std::test::Fail;

const METHOD: MethodNo = MethodNo {
    class: ClassNo(2),
    index: 5,
};

#[test]
fn threads_come_up_to_the_most(rt: HostRuntime) -> Result<(), Fail> {
    let mut stacks = Stacks::open(rt.alloc(), MOST_THREADS)?;
    for number in 0..MOST_THREADS {
        assert!(rt; stacks.threads() == number);
        assert_eq!(rt; stacks.add_thread(METHOD), Some(ThreadNo(number)));
    }
    assert!(rt; stacks.threads() == MOST_THREADS);
    assert_eq!(rt; stacks.add_thread(METHOD), None);
    assert_eq!(rt; stacks.next_start(ThreadNo(63)), Some(METHOD));
    Ok(())
}

#[test]
fn a_thread_runs_and_ends(rt: HostRuntime) -> Result<(), Fail> {
    let code = CodeMark {
        body: 3,
        version: 1,
    };
    let mut stacks = Stacks::open(rt.alloc(), 2)?;
    let t = stacks.add_thread(METHOD).expect(&rt, "there is room");
    assert!(rt; stacks.mark(t));
    stacks.push_frame(t, code, METHOD, Value::Null, &[Value::Int(7)], 2, 4);
    stacks.push_value(t, Value::Long(9));
    assert_eq!(rt; stacks.pop_value(t), Value::Long(9));
    assert_eq!(rt; stacks.frame(t, 0).locals.len(), 2);
    stacks.pop_frame(t);
    stacks.finish(t, Some(ClassNo(4)));
    assert!(rt; stacks.ended(t));
    assert_eq!(rt; stacks.thrown(t), Some(ClassNo(4)));
    Ok(())
}
