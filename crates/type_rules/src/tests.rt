//! Types and frames alone: nothing makes a world for assignability yet.

use super::*;
use jv_types::{ClassNo, List};
use std::test::Fail;

const INT: VerificationType = VerificationType::Int;

#[test]
fn frames_change_as_they_are_told(rt: HostRuntime) -> Result<(), Fail> {
    let alloc = rt.alloc();
    let locals = List::from_slice(alloc, &[VerificationType::This, VerificationType::Top])?;
    let operands = List::from_slice(alloc, &[INT, VerificationType::Long])?;
    let mut frame = TypeFrame::new(locals, operands);
    frame.push(VerificationType::Null)?;
    frame.drop_operands(1);
    frame.set_local(1, INT);
    let copy = frame.copy(alloc)?;
    assert_eq!(rt; copy.locals(), [VerificationType::This, INT].as_slice());
    assert_eq!(rt; copy.operands(), [INT, VerificationType::Long].as_slice());
    assert_eq!(rt; copy.operand(1), Some(INT));
    assert_eq!(rt; copy.local(2), None);
    Ok(())
}

/// Types, and what they are to the verifier (JVMS 4.10.1.2).
const TYPES: [(u8, ElementType, VerificationType); 5] = [
    (0, ElementType::Boolean, INT),
    (0, ElementType::Float, VerificationType::Top),
    (
        0,
        ElementType::Class(ClassNo(7)),
        VerificationType::Class(ClassNo(7)),
    ),
    (
        1,
        ElementType::Long,
        VerificationType::Array(FieldType {
            dimensions: 0,
            element: ElementType::Long,
        }),
    ),
    (
        255,
        ElementType::Byte,
        VerificationType::Array(FieldType {
            dimensions: 254,
            element: ElementType::Byte,
        }),
    ),
];

#[test]
fn types_of_descriptors_are_known(rt: HostRuntime) {
    for (dimensions, element, expected) in TYPES {
        let type_read = FieldType {
            dimensions,
            element,
        };
        assert_eq!(rt; type_read.verification_type(), expected);
    }
}
