//! Frames up to their limits, and each change of one.

use super::*;
use code_store::CodeMark;
use jv_types::{ClassNo, MethodNo, Pc};
use jv_values::Value;
use std::test::Fail;

const CODE: CodeMark = CodeMark {
    body: 3,
    version: 1,
};

const METHOD: MethodNo = MethodNo {
    class: ClassNo(2),
    index: 5,
};

#[test]
fn as_many_come_and_go_as_there_may_be(rt: HostRuntime) -> Result<(), Fail> {
    let mut frames = ThreadFrames::open(rt.alloc())?;
    for number in 0..1024 {
        assert!(rt; frames.depth() < MOST_FRAMES);
        assert!(rt; frames.words() <= MOST_STACK_WORDS - 16);
        frames.push_frame(CODE, METHOD, Value::Null, &[Value::Int(number)], 6, 10);
    }
    assert_eq!(rt; frames.depth(), 1024);
    assert_eq!(rt; frames.words(), 16_384);
    for number in 0..1024 {
        assert!(rt; frames.depth() == 1024 - number);
        let newest = frames.frame(1023 - number);
        assert_eq!(rt; newest.locals.len(), 6);
        assert_eq!(rt; newest.locals[0], Value::Int(1023 - number as i32));
        assert_eq!(rt; newest.locals[5], Value::Int(0));
        frames.pop_frame();
    }
    assert_eq!(rt; frames.words(), 0);
    Ok(())
}

#[test]
fn one_frame_has_all_words(rt: HostRuntime) -> Result<(), Fail> {
    let mut frames = ThreadFrames::open(rt.alloc())?;
    frames.push_frame(CODE, METHOD, Value::Null, &[], 16_383, 1);
    frames.push_value(Value::Ref(4));
    assert_eq!(rt; frames.frame(0).stack.len(), 1);
    assert_eq!(rt; frames.frame(0).pc, Pc(0));
    assert_eq!(rt; frames.words(), MOST_STACK_WORDS);
    Ok(())
}
