use super::*;
use class_samples::{ADD, FIELD, RETURN};
use jv_types::{Const, What};
use std::alloc::{AllocError, Global};
use std::test::Fail;

/// As the page of this crate has it.
#[test]
fn how_to_call_it(rt: HostRuntime) {
    match read_class(rt.alloc(), b"no class file") {
        Ok(file) => assert!(rt; file.major == 52),
        Err(error) => assert_eq!(rt; error, ClassError::Magic),
    }
}

/// A change of one byte: its index, and what it becomes.
type Change = (usize, u8);

fn changed(alloc: Global, bytes: &[u8], changes: &[Change]) -> Result<Vec<u8>, AllocError> {
    let mut changed = bytes.to_vec(alloc)?;
    for (at, byte) in changes {
        if let Some(place) = changed.get_mut(*at) {
            *place = *byte;
        }
    }
    Ok(changed)
}

fn refusal(alloc: Global, bytes: &[u8]) -> Option<ClassError> {
    read_class(alloc, bytes).err()
}

#[test]
fn a_class_that_adds(rt: HostRuntime) -> Result<(), Fail> {
    let file = read_class(rt.alloc(), &ADD)?;
    assert_eq!(rt; (file.minor, file.major), (0, 52));
    assert_eq!(rt;
        (file.flags, file.this_class, file.super_class),
        (0x21, 2, 4)
    );
    assert_eq!(rt; file.pool.len(), 21);
    assert_eq!(rt;
        (
            file.interfaces.len(),
            file.fields.len(),
            file.attributes.len(),
        ),
        (0, 0, 0)
    );
    let entries = file.pool.as_slice();
    assert!(rt; matches!(entries.get(14), Some(Const::Integer(0x7fff_ffff))));
    assert!(rt; matches!(entries.get(20), Some(Const::Methodref(16, 19))));
    for main in file.methods.as_slice() {
        assert_eq!(rt; (main.flags, main.name, main.descriptor), (9, 5, 6));
        for code in main.attributes.as_slice() {
            assert_eq!(rt; (code.name, code.bytes.len()), (7, 23));
            assert_eq!(rt; code.bytes.as_slice().last().copied(), Some(0));
        }
        assert_eq!(rt; main.attributes.len(), 1);
    }
    assert_eq!(rt; file.methods.len(), 1);
    Ok(())
}

#[test]
fn a_field_with_a_value(rt: HostRuntime) -> Result<(), Fail> {
    let file = read_class(rt.alloc(), &FIELD)?;
    let entries = file.pool.as_slice();
    assert_eq!(rt; entries.len(), 7);
    assert!(rt; matches!(entries.get(4), Some(Const::Long(1))));
    assert!(rt; matches!(entries.get(5), Some(Const::Gap)));
    for field in file.fields.as_slice() {
        for value in field.attributes.as_slice() {
            assert_eq!(rt; value.bytes.as_slice(), [0, 4].as_slice());
        }
    }
    assert_eq!(rt; file.fields.len(), 1);
    Ok(())
}

#[test]
fn texts(rt: HostRuntime) -> Result<(), Fail> {
    // What becomes of the bytes of `Main`, and the units that they then spell.
    let cases: [([u8; 4], &[u16]); 4] = [
        (*b"Main", &[0x4d, 0x61, 0x69, 0x6e]),
        (*b"\xc0\x80in", &[0, 0x69, 0x6e]),
        (*b"\xed\xa0\xbdn", &[0xd83d, 0x6e]),
        (*b"\xc2\x80\xdf\xbf", &[0x80, 0x7ff]),
    ];
    for (text, units) in cases {
        let [a, b, c, d] = text;
        let bytes = changed(rt.alloc(), &RETURN, &[(13, a), (14, b), (15, c), (16, d)])?;
        let file = read_class(rt.alloc(), &bytes)?;
        match file.pool.as_slice().get(1) {
            Some(Const::Utf8(found)) => assert_eq!(rt; found.as_slice(), units),
            _ => assert!(rt; false),
        }
    }
    Ok(())
}

#[test]
fn cut_classes(rt: HostRuntime) {
    // The magic number, the versions, the count of entries, a tag, a text's count, a text, the
    // flags, the count of fields, an attribute's bytes, and the count of attributes.
    let cases = [
        (0, 0),
        (3, 0),
        (5, 4),
        (7, 6),
        (9, 8),
        (10, 10),
        (12, 11),
        (16, 13),
        (82, 81),
        (90, 89),
        (119, 107),
        (121, 120),
    ];
    for (count, at) in cases {
        let cut = &RETURN[..RETURN.len().min(count)];
        assert_eq!(rt;
            refusal(rt.alloc(), cut),
            Some(ClassError::Truncated { at }),
            "at {count}"
        );
    }
}

#[test]
fn refused_classes(rt: HostRuntime) -> Result<(), Fail> {
    let cases: [(&[Change], ClassError); 22] = [
        (&[(3, 0)], ClassError::Magic),
        (&[(7, 53)], ClassError::Version { major: 53 }),
        (&[(6, 1)], ClassError::Version { major: 308 }),
        // No tag.
        (&[(10, 2)], ClassError::Pool { index: 1 }),
        (&[(20, 17)], ClassError::Pool { index: 3 }),
        // A text of more bytes than the file has.
        (&[(11, 0xff)], ClassError::Truncated { at: 13 }),
        // Texts that no bytes spell: a zero, bytes too many for a unit, no first byte, and units
        // that are cut or go on with another byte.
        (&[(13, 0)], ClassError::Utf8 { index: 1 }),
        (&[(13, 0xc1), (14, 0xbf)], ClassError::Utf8 { index: 1 }),
        (
            &[(13, 0xe0), (14, 0x9f), (15, 0xbf)],
            ClassError::Utf8 { index: 1 },
        ),
        (&[(13, 0xf0)], ClassError::Utf8 { index: 1 }),
        (&[(16, 0xc3)], ClassError::Utf8 { index: 1 }),
        (&[(15, 0xe2), (16, 0x82)], ClassError::Utf8 { index: 1 }),
        (&[(13, 0xc3)], ClassError::Utf8 { index: 1 }),
        // A class that names a class, and none.
        (&[(19, 2)], ClassError::Pool { index: 2 }),
        (&[(41, 0), (19, 0)], ClassError::Pool { index: 2 }),
        // What an entry names is looked at once all are read.
        (&[(19, 2), (74, 2)], ClassError::Pool { index: 7 }),
        // The class, its superclass, and the method's name.
        (&[(84, 0)], ClassError::Pool { index: 0 }),
        (&[(86, 3)], ClassError::Pool { index: 3 }),
        (&[(95, 1)], ClassError::Pool { index: 0x105 }),
        // A method without its code, an abstract one with code, and a native one.
        (&[(102, 5)], ClassError::Attribute { at: 93 }),
        (&[(93, 4)], ClassError::Attribute { at: 93 }),
        (&[(93, 1)], ClassError::Attribute { at: 93 }),
    ];
    for (changes, error) in cases {
        let bytes = changed(rt.alloc(), &RETURN, changes)?;
        assert_eq!(rt; refusal(rt.alloc(), &bytes), Some(error));
    }
    Ok(())
}

#[test]
fn refused_fields(rt: HostRuntime) -> Result<(), Fail> {
    let cases: [(&[Change], ClassError); 5] = [
        // A Long at the last index, and as the last entry, behind which the class has a wrong
        // index.
        (&[(9, 5)], ClassError::Pool { index: 4 }),
        (&[(9, 6)], ClassError::Pool { index: 0xd43 }),
        // The constant's length, and constants of a wrong kind.
        (&[(69, 4)], ClassError::Attribute { at: 64 }),
        (&[(71, 1)], ClassError::Pool { index: 1 }),
        (&[(71, 5)], ClassError::Pool { index: 5 }),
    ];
    for (changes, error) in cases {
        let bytes = changed(rt.alloc(), &FIELD, changes)?;
        assert_eq!(rt; refusal(rt.alloc(), &bytes), Some(error));
    }
    Ok(())
}

/// The bytes with a count at an index raised to 2, and those from there to another index twice.
fn with_two(alloc: Global, bytes: &[u8], count: usize, end: usize) -> Result<Vec<u8>, AllocError> {
    let end = end.min(bytes.len());
    let mut twice = bytes[..end].to_vec(alloc)?;
    if let Some(place) = twice.get_mut(count) {
        *place = 2;
    }
    twice.extend_from_slice(&bytes[end.min(count.saturating_add(1))..])?;
    Ok(twice)
}

#[test]
fn attributes_that_come_twice(rt: HostRuntime) -> Result<(), Fail> {
    let methods = with_two(rt.alloc(), &RETURN, 100, 120)?;
    assert_eq!(rt;
        refusal(rt.alloc(), &methods),
        Some(ClassError::Attribute { at: 93 })
    );
    let fields = with_two(rt.alloc(), &FIELD, 63, 72)?;
    assert_eq!(rt;
        refusal(rt.alloc(), &fields),
        Some(ClassError::Attribute { at: 72 })
    );
    Ok(())
}

#[test]
fn files_that_are_too_long(rt: HostRuntime) -> Result<(), Fail> {
    let mut bytes = RETURN.to_vec(rt.alloc())?;
    bytes.push(0)?;
    assert_eq!(rt;
        refusal(rt.alloc(), &bytes),
        Some(ClassError::Extra { at: 122 })
    );
    let zeros = vec![in rt.alloc(); 0u8; 1_048_577]?;
    assert_eq!(rt;
        refusal(rt.alloc(), &zeros),
        Some(ClassError::Limit {
            what: What::File,
            n: 1_048_577,
        })
    );
    Ok(())
}
