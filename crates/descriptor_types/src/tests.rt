use super::*;
use jv_types::text::units;
use std::test::Fail;

/// A method descriptor, and how many parameters it has where it is well formed (JVMS 4.3.3).
const METHODS: [(&str, Option<u32>); 7] = [
    ("()V", Some(0)),
    ("([[Ljava/lang/String;JD)[I", Some(3)),
    ("(I)", None),
    ("(V)V", None),
    ("(La.b;)V", None),
    ("()VV", None),
    ("()[V", None),
];

#[test]
fn parameters_are_counted(rt: HostRuntime) -> Result<(), Fail> {
    for (text, expected) in METHODS {
        let units = units(rt.alloc(), text)?;
        let found = method_type(rt.alloc(), units.as_slice())?;
        assert_eq!(rt; found.map(|read| read.parameters.len()), expected);
    }
    Ok(())
}
