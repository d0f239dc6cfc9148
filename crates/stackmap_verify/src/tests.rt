//! The texts of errors. Worlds to verify come of the linker, which stands above this crate.

use super::*;
use jv_types::text::units;
use jv_types::{NoMemory, Rule};
use std::test::Fail;

#[test]
fn errors_have_their_texts(rt: HostRuntime) -> Result<(), Fail> {
    let alloc = rt.alloc();
    let error = VerifyError::NotVerified {
        class: units(alloc, "Main")?,
        method: units(alloc, "main")?,
        descriptor: units(alloc, "([Ljava/lang/String;)V")?,
        pc: 7,
        rule: Rule::Operand,
    };
    assert_eq!(rt;
        format!(in alloc; "{error}")?.as_str(),
        "a method breaks a rule of the verifier at 7 (Operand)"
    );
    let error = VerifyError::from(NoMemory);
    assert_eq!(rt; format!(in alloc; "{error}")?.as_str(), "out of memory");
    Ok(())
}
