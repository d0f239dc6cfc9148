//! Throws that end frames (JVMS 2.10).

use code_store::CodeMark;
use frame_stacks::Stacks;
use heap_face::Addr;
use jv_types::{ClassNo, MethodNo, Pc};
use jv_values::Value;
use std::test::Fail;
use vm_unwind::{catch_in_newest, end_by_throwable};

/// What stands for the code of each method here.
const CODE: CodeMark = CodeMark {
    body: 0,
    version: 0,
};

#[test]
fn a_caught_frame_has_the_throwable_alone(rt: HostRuntime) -> Result<(), Fail> {
    let alloc = rt.alloc();
    let mut stacks = Stacks::open(alloc, 1)?;
    let method = MethodNo {
        class: ClassNo(30),
        index: 0,
    };
    let t = stacks.add_thread(method).expect(&rt, "there is room");
    stacks.push_frame(t, CODE, method, Value::Null, &[Value::Int(7)], 1, 2);
    stacks.push_value(t, Value::Long(8));
    catch_in_newest(&mut stacks, t, Pc(4), Addr(9));
    let frame = stacks.frame(t, 0);
    assert_eq!(rt; frame.pc, Pc(4));
    assert_eq!(rt; frame.locals, [Value::Int(7)].as_slice());
    assert_eq!(rt; frame.stack, [Value::Ref(9)].as_slice());
    end_by_throwable(&mut stacks, t, ClassNo(31));
    assert!(rt; stacks.ended(t));
    assert_eq!(rt; stacks.thrown(t), Some(ClassNo(31)));
    assert_eq!(rt; stacks.depth(t), 0);
    Ok(())
}
