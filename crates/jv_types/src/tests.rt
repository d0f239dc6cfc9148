use super::*;
use crate::text::units;
use std::alloc::Global;
use std::test::Fail;

#[test]
fn lists_keep_room(rt: HostRuntime) -> Result<(), Fail> {
    let mut list = List::new(rt.alloc());
    list.reserve(2)?;
    list.add(7u8);
    list.push(8)?;
    list.set(0, 9);
    list.append(&[1, 2])?;
    list.cut(3);
    assert_eq!(rt; list.copy(rt.alloc())?.as_slice(), [9, 8, 1].as_slice());
    Ok(())
}

#[test]
fn units_are_those_of_utf_16(rt: HostRuntime) -> Result<(), Fail> {
    assert_eq!(rt;
        units(rt.alloc(), "aé\u{10000}")?.as_slice(),
        [0x61, 0xe9, 0xd800, 0xdc00].as_slice()
    );
    Ok(())
}

#[test]
fn errors_are_told(rt: HostRuntime) -> Result<(), Fail> {
    let alloc = rt.alloc();
    assert_eq!(rt; format!(in alloc; "{NoMemory}")?.as_str(), "out of memory");
    let cut = Input::whole_of(b"abc").u4();
    assert!(rt; matches!(cut, Err(Cut { at: 0 })));
    let cut = Cut { at: 8 };
    assert_eq!(rt;
        format!(in alloc; "{cut}")?.as_str(),
        "the item at byte 8 isn't whole"
    );
    Ok(())
}

#[test]
fn ints_wrap(rt: HostRuntime) {
    // As `java` computes them.
    for (operation, a, b, result) in [
        (IntOperation::Add, 2_147_483_647, 1, -2_147_483_648),
        (IntOperation::Subtract, -2_147_483_648, 1, 2_147_483_647),
        (IntOperation::Subtract, 5, 7, -2),
        (IntOperation::Multiply, 65_536, 65_536, 0),
        (IntOperation::Multiply, 46_341, 46_341, -2_147_479_015),
        (IntOperation::Conjunction, -7, 12, 8),
        (IntOperation::Disjunction, -7, 12, -3),
        (IntOperation::ExclusiveDisjunction, -7, 12, -11),
    ] {
        assert_eq!(rt;
            int_op(operation, a, b),
            result,
            "{operation:?} of {a} and {b}"
        );
    }
    assert_eq!(rt; int_negate(-2_147_483_648), -2_147_483_648);
    assert_eq!(rt; int_negate(5), -5);
}

#[test]
fn the_last_operand_is_on_top(rt: HostRuntime) -> Result<(), Fail> {
    let mut stack = OperandStack::new(rt.alloc());
    stack.push(1u8)?;
    stack.push(2)?;
    assert_eq!(rt; stack.len(), 2);
    assert_eq!(rt; stack.pop(), Some(2));
    assert_eq!(rt; stack.pop(), Some(1));
    assert_eq!(rt; stack.pop(), None);
    Ok(())
}

#[test]
fn class_data_are_copied(rt: HostRuntime) -> Result<(), Fail> {
    let alloc = rt.alloc();
    let mut value = Attr {
        name: 1,
        bytes: List::new(alloc),
    };
    value.bytes.append(&[0, 2])?;
    let mut field = Member {
        flags: 3,
        name: 4,
        descriptor: 5,
        attributes: List::new(alloc),
    };
    field.attributes.push(value)?;
    let mut file = ClassData {
        minor: 0,
        major: 52,
        pool: List::new(alloc),
        flags: 6,
        this_class: 7,
        super_class: 8,
        interfaces: List::new(alloc),
        fields: List::new(alloc),
        methods: List::new(alloc),
        attributes: List::new(alloc),
    };
    file.pool.push(Const::Gap)?;
    file.pool.push(Const::Utf8(units(alloc, "Main")?))?;
    file.pool.push(Const::MethodHandle(9, 10))?;
    file.interfaces.push(11)?;
    file.fields.push(field)?;
    let copy = file.copy(alloc)?;
    assert_eq!(rt;
        format!(in alloc; "{copy:?}")?,
        format!(in alloc; "{file:?}")?
    );
    Ok(())
}

/// One instruction, with a row of the exception table and a frame.
fn endless(alloc: Global) -> Result<CodeBody, NoMemory> {
    let mut instructions = Instructions::new(alloc);
    instructions.push(Insn {
        pc: 0,
        next: 3,
        instruction: Instruction::Goto(3),
    })?;
    let mut handlers = List::new(alloc);
    handlers.push(Handler {
        from: 0,
        to: 3,
        target: 3,
        catch: Some(7),
    })?;
    let mut frames = Frames::new(alloc);
    let locals = List::from_slice(alloc, &[MapType::Argument(0), MapType::Long])?;
    let stack = List::from_slice(alloc, &[MapType::Object(7)])?;
    frames.push(3, 0, &locals, &stack)?;
    Ok(CodeBody {
        max_stack: 1,
        max_locals: 3,
        instructions,
        handlers,
        frames,
    })
}

#[test]
fn instructions_are_found(rt: HostRuntime) -> Result<(), Fail> {
    let instructions = endless(rt.alloc())?.instructions;
    assert_eq!(rt; instructions.len(), 1);
    assert_eq!(rt; instructions.number_at(0), Some(0));
    assert_eq!(rt; instructions.number_at(1), None);
    assert_eq!(rt; instructions.number_at(3), None);
    Ok(())
}

#[test]
fn code_is_copied(rt: HostRuntime) -> Result<(), Fail> {
    let alloc = rt.alloc();
    let body = endless(alloc)?;
    let copy = body.copy(alloc)?;
    assert_eq!(rt;
        format!(in alloc; "{copy:?}")?,
        format!(in alloc; "{body:?}")?
    );
    Ok(())
}

#[test]
fn frames_share_types(rt: HostRuntime) -> Result<(), Fail> {
    let alloc = rt.alloc();
    let none = List::new(alloc);
    let three = [MapType::Argument(0), MapType::Long, MapType::Int];
    let mut frames = Frames::new(alloc);
    frames.push(0, 0, &List::from_slice(alloc, &three)?, &none)?;
    frames.push(
        4,
        3,
        &none,
        &List::from_slice(alloc, &[MapType::Object(7)])?,
    )?;
    frames.push(9, 2, &List::from_slice(alloc, &[MapType::Null])?, &none)?;
    assert_eq!(rt; frames.types().len(), 5);
    assert_eq!(rt; frames.local_count(), 3);
    assert_eq!(rt; frames.local_words(), 4);
    assert_eq!(rt; frames.len(), 3);
    assert_eq!(rt; frames.pc(1), 4);
    let last = frames.frame(alloc, 2)?;
    let locals = [MapType::Argument(0), MapType::Long, MapType::Null];
    assert_eq!(rt; last.locals.as_slice(), locals.as_slice());
    assert!(rt; last.stack.is_empty());
    Ok(())
}
