use super::*;
use jv_types::text::units;
use std::test::Fail;

#[test]
fn names_have_their_numbers(rt: HostRuntime) -> Result<(), Fail> {
    let mut names = Names::new(rt.alloc());
    // Each text, and its number.
    let cases = [("run", 0), ("()V", 1), ("run", 0), ("", 2), ("()V", 1)];
    for (text, number) in cases {
        assert_eq!(rt;
            names.add(rt.alloc(), units(rt.alloc(), text)?.as_slice())?,
            number
        );
    }
    assert_eq!(rt; names.len(), 3);
    assert_eq!(rt; names.number_of(&[]), Some(2));
    assert_eq!(rt; names.number_of(units(rt.alloc(), "ru")?.as_slice()), None);
    let copy = names.copy(rt.alloc())?;
    assert_eq!(rt; copy.len(), 3);
    assert_eq!(rt; copy.number_of(&[]), Some(2));
    Ok(())
}

#[test]
fn signatures_are_told_apart(rt: HostRuntime) -> Result<(), Fail> {
    let mut signatures = Signatures::new(rt.alloc());
    // A name, a descriptor, and whether they are new.
    let cases = [(0, 1, true), (1, 0, true), (0, 1, false), (0, 0, true)];
    for (name, descriptor, is_new) in cases {
        assert_eq!(rt; signatures.add(Signature { name, descriptor })?, is_new);
    }
    let last = Signature {
        name: 0,
        descriptor: 0,
    };
    assert_eq!(rt; signatures.number_of(last), Some(2));
    Ok(())
}
