//! A copy that is made, set and emptied.

use super::*;
use code_store::{CodeMark, Codes};
use jv_types::{ClassNo, MethodNo, Pc, ThreadNo};
use jv_values::Value;
use std::test::Fail;

/// A table of one code, which has no instructions.
struct OneCode;

impl Codes for OneCode {
    ghost use Rattle.std.specs.Prelude.{◌∷◌, []};

    ghost table = { (record {
      max_stack = 1;
      max_locals = 2;
      instructions = [];
      handlers = [];
      frames = [];
    }) ∷ [] };
}

#[test]
fn copies(rt: HostRuntime) -> Result<(), Fail> {
    let mut lent = Lent::<OneCode>::new(rt.alloc())?;
    let method = MethodNo {
        class: ClassNo(3),
        index: 4,
    };
    let code = CodeMark {
        body: 0,
        version: 7,
    };
    lent.set(
        ThreadNo(1),
        &code,
        method,
        Pc(9),
        &[Value::Int(1), Value::Null],
        &[Value::Ref(5)],
    );
    assert_eq!(rt; lent.now().locals.len(), 2);
    assert_eq!(rt; lent.start().stack[0], Value::Ref(5));
    assert_eq!(rt; lent.code(), code);
    lent.empty();
    assert_eq!(rt; lent.now().locals.len(), 0);
    assert_eq!(rt; lent.steps(), 0);
    Ok(())
}
