//! Each local family at its edges. The numbers are those that `java` prints.

ghost use Rattle.std.specs.Prelude.{◌<◌, length};

use jv_types::{Conversion, Insn, Instruction, List, Shift, StackForm, SwitchPair, ValueKind};
use jv_values::Value;
use local_steps::local_step;
use std::test::Fail;

/// The word that a shift of ints leaves.
#[tactic(auto, unfolding(machine_model::specs::LocalStep::local_step_of, jv_values::specs::Values::operands_in))]
fn int_shifted(shift: Shift, a: i32, distance: i32) -> Value {
    let insn = Insn {
        pc: 0,
        next: 1,
        instruction: Instruction::IntShift(shift),
    };
    let mut stack = [Value::Int(a), Value::Int(distance)];
    let _next = local_step(&insn, &[], &mut [], &mut stack, 2);
    stack[0]
}

/// The word that a shift of a long leaves.
#[tactic(auto, unfolding(machine_model::specs::LocalStep::local_step_of, jv_values::specs::Values::operands_in))]
fn long_shifted(shift: Shift, a: i64, distance: i32) -> Value {
    let insn = Insn {
        pc: 0,
        next: 1,
        instruction: Instruction::LongShift(shift),
    };
    let mut stack = [Value::Long(a), Value::Half, Value::Int(distance)];
    let _next = local_step(&insn, &[], &mut [], &mut stack, 3);
    stack[0]
}

/// The word that `lcmp` leaves.
#[tactic(auto, unfolding(machine_model::specs::LocalStep::local_step_of, jv_values::specs::Values::operands_in))]
fn compared(a: i64, b: i64) -> Value {
    let insn = Insn {
        pc: 0,
        next: 1,
        instruction: Instruction::CompareLongs,
    };
    let mut stack = [Value::Long(a), Value::Half, Value::Long(b), Value::Half];
    let _next = local_step(&insn, &[], &mut [], &mut stack, 4);
    stack[0]
}

/// The words that `dup_x2` leaves of three.
#[tactic(auto, unfolding(machine_model::specs::LocalStep::local_step_of, jv_values::specs::Values::operands_in))]
fn dup_x2(c: Value, b: Value, a: Value) -> [Value; 4] {
    let insn = Insn {
        pc: 0,
        next: 1,
        instruction: Instruction::Stack(StackForm::DuplicateX2),
    };
    let mut stack = [c, b, a, Value::Null];
    let _next = local_step(&insn, &[], &mut [], &mut stack, 3);
    stack
}

/// The words that `dup2_x1` leaves of three.
#[tactic(auto, unfolding(machine_model::specs::LocalStep::local_step_of, jv_values::specs::Values::operands_in))]
fn dup2_x1(c: Value, b: Value, a: Value) -> [Value; 5] {
    let insn = Insn {
        pc: 0,
        next: 1,
        instruction: Instruction::Stack(StackForm::DuplicateTwoX1),
    };
    let mut stack = [c, b, a, Value::Null, Value::Null];
    let _next = local_step(&insn, &[], &mut [], &mut stack, 3);
    stack
}

/// The words that `dup2_x2` leaves of four.
#[tactic(auto, unfolding(machine_model::specs::LocalStep::local_step_of, jv_values::specs::Values::operands_in))]
fn dup2_x2(d: Value, c: Value, b: Value, a: Value) -> [Value; 6] {
    let insn = Insn {
        pc: 0,
        next: 1,
        instruction: Instruction::Stack(StackForm::DuplicateTwoX2),
    };
    let mut stack = [d, c, b, a, Value::Null, Value::Null];
    let _next = local_step(&insn, &[], &mut [], &mut stack, 4);
    stack
}

/// The word that `i2b` leaves.
#[tactic(auto, unfolding(machine_model::specs::LocalStep::local_step_of, jv_values::specs::Values::operands_in))]
fn to_byte(n: i32) -> Value {
    let insn = Insn {
        pc: 0,
        next: 1,
        instruction: Instruction::Convert(Conversion::IntToByte),
    };
    let mut stack = [Value::Int(n)];
    let _next = local_step(&insn, &[], &mut [], &mut stack, 1);
    stack[0]
}

/// The word that `i2c` leaves.
#[tactic(auto, unfolding(machine_model::specs::LocalStep::local_step_of, jv_values::specs::Values::operands_in))]
fn to_char(n: i32) -> Value {
    let insn = Insn {
        pc: 0,
        next: 1,
        instruction: Instruction::Convert(Conversion::IntToChar),
    };
    let mut stack = [Value::Int(n)];
    let _next = local_step(&insn, &[], &mut [], &mut stack, 1);
    stack[0]
}

/// The word that `i2s` leaves.
#[tactic(auto, unfolding(machine_model::specs::LocalStep::local_step_of, jv_values::specs::Values::operands_in))]
fn to_short(n: i32) -> Value {
    let insn = Insn {
        pc: 0,
        next: 1,
        instruction: Instruction::Convert(Conversion::IntToShort),
    };
    let mut stack = [Value::Int(n)];
    let _next = local_step(&insn, &[], &mut [], &mut stack, 1);
    stack[0]
}

/// The word that `l2i` leaves.
#[tactic(auto, unfolding(machine_model::specs::LocalStep::local_step_of, jv_values::specs::Values::operands_in))]
fn to_int(n: i64) -> Value {
    let insn = Insn {
        pc: 0,
        next: 1,
        instruction: Instruction::Convert(Conversion::LongToInt),
    };
    let mut stack = [Value::Long(n), Value::Half];
    let _next = local_step(&insn, &[], &mut [], &mut stack, 2);
    stack[0]
}

/// Where a `tableswitch` from -1 on goes, whose targets are these.
#[tactic(auto, unfolding(machine_model::specs::LocalStep::local_step_of, jv_values::specs::Values::operands_in))]
fn switched(targets: List<u32>, key: i32) -> Option<u32> {
    let insn = Insn {
        pc: 0,
        next: 24,
        instruction: Instruction::Tableswitch {
            otherwise: 99,
            low: -1,
            targets,
        },
    };
    let mut stack = [Value::Int(key)];
    local_step(&insn, &[], &mut [], &mut stack, 1)?.target
}

/// Where a `lookupswitch` goes, whose pairs are these.
#[tactic(auto, unfolding(machine_model::specs::LocalStep::local_step_of, jv_values::specs::Values::operands_in))]
fn looked_up(pairs: List<SwitchPair>, key: i32) -> Option<u32> {
    let insn = Insn {
        pc: 0,
        next: 40,
        instruction: Instruction::Lookupswitch {
            otherwise: 99,
            pairs,
        },
    };
    let mut stack = [Value::Int(key)];
    local_step(&insn, &[], &mut [], &mut stack, 1)?.target
}

/// Makes an `istore`, behind `wide` where the local's number needs it.
#[tactic(auto, unfolding(machine_model::specs::LocalStep::local_step_of, jv_values::specs::Values::operands_in))]
fn store(locals: &mut [Value], local: u16, n: i32)
    requires { local < length locals.old }
{
    let insn = Insn {
        pc: 0,
        next: 4,
        instruction: Instruction::Store(ValueKind::Int, local),
    };
    let mut stack = [Value::Int(n)];
    let _next = local_step(&insn, &[], locals, &mut stack, 1);
}

#[test]
fn shifts(rt: HostRuntime) {
    for (shift, a, distance, word) in [
        (Shift::Left, 1, 31, i32::MIN),
        (Shift::Left, 3, 32, 3),
        (Shift::Left, 1, -1, i32::MIN),
        (Shift::Right, i32::MIN, 31, -1),
        (Shift::RightUnsigned, i32::MIN, 31, 1),
        (Shift::RightUnsigned, -1, 32, -1),
        (Shift::RightUnsigned, -1, -1, 1),
    ] {
        assert_eq!(rt; int_shifted(shift, a, distance), Value::Int(word));
    }
    for (shift, a, distance, word) in [
        (Shift::Left, 1, 63, i64::MIN),
        (Shift::Left, 1, 32, 4_294_967_296),
        (Shift::Right, i64::MIN, 64, i64::MIN),
        (Shift::RightUnsigned, i64::MIN, 63, 1),
        (Shift::RightUnsigned, -1, -1, 1),
    ] {
        assert_eq!(rt; long_shifted(shift, a, distance), Value::Long(word));
    }
}

#[test]
fn comparisons(rt: HostRuntime) {
    for (a, b, word) in [
        (i64::MIN, i64::MAX, -1),
        (i64::MAX, i64::MIN, 1),
        (4_294_967_296, 4_294_967_296, 0),
    ] {
        assert_eq!(rt; compared(a, b), Value::Int(word));
    }
}

#[test]
fn groups(rt: HostRuntime) {
    let (one, two, three) = (Value::Int(1), Value::Int(2), Value::Int(3));
    let (four, half) = (Value::Int(4), Value::Half);
    let (long, wide) = (Value::Long(5), Value::Long(6));
    for (words, after) in [
        (
            [one, two, three, four],
            [three, four, one, two, three, four],
        ),
        ([one, two, long, half], [long, half, one, two, long, half]),
        ([long, half, one, two], [one, two, long, half, one, two]),
        (
            [long, half, wide, half],
            [wide, half, long, half, wide, half],
        ),
    ] {
        let [d, c, b, a] = words;
        assert_eq!(rt; dup2_x2(d, c, b, a), after);
    }
}

#[test]
fn words_below(rt: HostRuntime) {
    let (one, two, three) = (Value::Int(1), Value::Int(2), Value::Int(3));
    let (long, half) = (Value::Long(5), Value::Half);
    for (words, after) in [
        ([one, two, three], [three, one, two, three]),
        ([long, half, one], [one, long, half, one]),
    ] {
        let [c, b, a] = words;
        assert_eq!(rt; dup_x2(c, b, a), after);
    }
    for (words, after) in [
        ([one, two, three], [two, three, one, two, three]),
        ([one, long, half], [long, half, one, long, half]),
    ] {
        let [c, b, a] = words;
        assert_eq!(rt; dup2_x1(c, b, a), after);
    }
}

#[test]
fn conversions(rt: HostRuntime) {
    for (n, byte, unit) in [
        (127, 127, 127),
        (128, -128, 128),
        (-129, 127, 65_407),
        (65_536, 0, 0),
    ] {
        assert_eq!(rt; to_byte(n), Value::Int(byte));
        assert_eq!(rt; to_char(n), Value::Int(unit));
    }
    for (n, short) in [
        (32_767, 32_767),
        (32_768, -32_768),
        (-32_769, 32_767),
        (65_536, 0),
    ] {
        assert_eq!(rt; to_short(n), Value::Int(short));
    }
    for (n, low) in [(2_147_483_648, i32::MIN), (-1, -1), (i64::MIN, 0)] {
        assert_eq!(rt; to_int(n), Value::Int(low));
    }
}

#[test]
fn switches(rt: HostRuntime) -> Result<(), Fail> {
    for (key, target) in [
        (i32::MIN, 99),
        (-2, 99),
        (-1, 24),
        (1, 40),
        (2, 99),
        (i32::MAX, 99),
    ] {
        let targets = List::from_slice(rt.alloc(), &[24, 32, 40])?;
        assert_eq!(rt; switched(targets, key), Some(target));
    }
    Ok(())
}

#[test]
fn pairs(rt: HostRuntime) -> Result<(), Fail> {
    for (key, target) in [
        (i32::MIN, 50),
        (i32::MIN + 1, 99),
        (-1, 99),
        (0, 60),
        (1, 99),
        (i32::MAX - 1, 99),
        (i32::MAX, 70),
    ] {
        let pairs = [
            SwitchPair {
                key: i32::MIN,
                target: 50,
            },
            SwitchPair { key: 0, target: 60 },
            SwitchPair {
                key: i32::MAX,
                target: 70,
            },
        ];
        let pairs = List::from_slice(rt.alloc(), &pairs)?;
        assert_eq!(rt; looked_up(pairs, key), Some(target));
    }
    Ok(())
}

#[test]
fn ends_of_the_locals(rt: HostRuntime) -> Result<(), Fail> {
    let mut locals = vec![in rt.alloc(); Value::Int(7); 4096]?;
    store(locals.as_mut_slice(), 0, 1);
    store(locals.as_mut_slice(), 255, 2);
    store(locals.as_mut_slice(), 256, 3);
    store(locals.as_mut_slice(), 4095, 4);
    for (local, n) in [
        (0, 1),
        (1, 7),
        (254, 7),
        (255, 2),
        (256, 3),
        (257, 7),
        (4094, 7),
        (4095, 4),
    ] {
        assert_eq!(rt; locals.get(local), Some(&Value::Int(n)));
    }
    Ok(())
}
