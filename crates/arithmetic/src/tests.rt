//! Values at the edges, as `java` prints them.

use super::*;
use jv_types::{Arithmetic, Comparison, Shift};

#[test]
fn operations_on_ints(rt: HostRuntime) {
    for ((a, b), results) in [
        (
            (i32::MAX, 1),
            [
                i32::MIN,
                2_147_483_646,
                2_147_483_647,
                1,
                2_147_483_647,
                2_147_483_646,
            ],
        ),
        (
            (i32::MIN, 1),
            [
                -2_147_483_647,
                2_147_483_647,
                i32::MIN,
                0,
                -2_147_483_647,
                -2_147_483_647,
            ],
        ),
        (
            (i32::MIN, -1),
            [
                2_147_483_647,
                -2_147_483_647,
                i32::MIN,
                i32::MIN,
                -1,
                2_147_483_647,
            ],
        ),
        (
            (46_341, 46_341),
            [92_682, 0, -2_147_479_015, 46_341, 46_341, 0],
        ),
        ((-7, 12), [5, -19, -84, 8, -3, -11]),
    ] {
        let found = [
            int_op(Arithmetic::Add, a, b),
            int_op(Arithmetic::Subtract, a, b),
            int_op(Arithmetic::Multiply, a, b),
            int_op(Arithmetic::And, a, b),
            int_op(Arithmetic::Or, a, b),
            int_op(Arithmetic::Xor, a, b),
        ];
        assert_eq!(rt; found, results, "of {a} and {b}");
    }
    assert_eq!(rt; int_negate(i32::MIN), i32::MIN);
    assert_eq!(rt; int_negate(i32::MAX), -2_147_483_647);
}

#[test]
fn operations_on_longs(rt: HostRuntime) {
    for ((a, b), results) in [
        (
            (9_223_372_036_854_775_807, 1),
            [
                i64::MIN,
                9_223_372_036_854_775_806,
                9_223_372_036_854_775_807,
                1,
                9_223_372_036_854_775_807,
                9_223_372_036_854_775_806,
            ],
        ),
        (
            (i64::MIN, 1),
            [
                -9_223_372_036_854_775_807,
                9_223_372_036_854_775_807,
                i64::MIN,
                0,
                -9_223_372_036_854_775_807,
                -9_223_372_036_854_775_807,
            ],
        ),
        (
            (i64::MIN, -1),
            [
                9_223_372_036_854_775_807,
                -9_223_372_036_854_775_807,
                i64::MIN,
                i64::MIN,
                -1,
                9_223_372_036_854_775_807,
            ],
        ),
        (
            (3_037_000_500, 3_037_000_500),
            [
                6_074_001_000,
                0,
                -9_223_372_036_709_301_616,
                3_037_000_500,
                3_037_000_500,
                0,
            ],
        ),
        ((-7, 12), [5, -19, -84, 8, -3, -11]),
    ] {
        let found = [
            long_op(Arithmetic::Add, a, b),
            long_op(Arithmetic::Subtract, a, b),
            long_op(Arithmetic::Multiply, a, b),
            long_op(Arithmetic::And, a, b),
            long_op(Arithmetic::Or, a, b),
            long_op(Arithmetic::Xor, a, b),
        ];
        assert_eq!(rt; found, results, "of {a} and {b}");
    }
    assert_eq!(rt; long_negate(i64::MIN), i64::MIN);
    assert_eq!(rt; long_negate(i64::MAX), -9_223_372_036_854_775_807);
}

#[test]
fn divisions(rt: HostRuntime) {
    assert_eq!(rt; int_op(Arithmetic::Divide, i32::MIN, -1), i32::MIN);
    assert_eq!(rt; int_op(Arithmetic::Remainder, i32::MIN, -1), 0);
    assert_eq!(rt; int_op(Arithmetic::Divide, -7, 2), -3);
    assert_eq!(rt; int_op(Arithmetic::Remainder, -7, 2), -1);
    assert_eq!(rt; int_op(Arithmetic::Remainder, 7, -2), 1);
    assert_eq!(rt; long_op(Arithmetic::Divide, i64::MIN, -1), i64::MIN);
    assert_eq!(rt; long_op(Arithmetic::Remainder, i64::MIN, -1), 0);
    assert_eq!(rt; long_op(Arithmetic::Divide, -7, 2), -3);
    assert_eq!(rt; long_op(Arithmetic::Remainder, -7, 2), -1);
    assert_eq!(rt; long_op(Arithmetic::Remainder, 7, -2), 1);
}

#[test]
fn shifts(rt: HostRuntime) {
    for (a, distance, results) in [
        (1, 31, [i32::MIN, 0, 0]),
        (i32::MIN, 31, [0, -1, 1]),
        (i32::MIN, 32, [i32::MIN, i32::MIN, i32::MIN]),
        (-5, -1, [i32::MIN, -1, 1]),
        (-5, 1, [-10, -3, 2_147_483_645]),
        (2_147_483_647, 33, [-2, 1_073_741_823, 1_073_741_823]),
    ] {
        let found = [
            int_shift(Shift::Left, a, distance),
            int_shift(Shift::Right, a, distance),
            int_shift(Shift::RightUnsigned, a, distance),
        ];
        assert_eq!(rt; found, results, "of {a} by {distance}");
    }
    for (a, distance, results) in [
        (1, 31, [2_147_483_648, 0, 0]),
        (1, 32, [4_294_967_296, 0, 0]),
        (i64::MIN, 63, [0, -1, 1]),
        (i64::MIN, 64, [i64::MIN, i64::MIN, i64::MIN]),
        (-5, -1, [i64::MIN, -1, 1]),
        (-5, 1, [-10, -3, 9_223_372_036_854_775_805]),
        (
            9_223_372_036_854_775_807,
            65,
            [-2, 4_611_686_018_427_387_903, 4_611_686_018_427_387_903],
        ),
    ] {
        let found = [
            long_shift(Shift::Left, a, distance),
            long_shift(Shift::Right, a, distance),
            long_shift(Shift::RightUnsigned, a, distance),
        ];
        assert_eq!(rt; found, results, "of {a} by {distance}");
    }
}

#[test]
fn conversions(rt: HostRuntime) {
    for (n, results) in [
        (127, [127, 127, 127]),
        (128, [-128, 128, 128]),
        (-129, [127, 65_407, -129]),
        (32_767, [-1, 32_767, 32_767]),
        (32_768, [0, 32_768, -32_768]),
        (-32_769, [-1, 32_767, 32_767]),
        (65_535, [-1, 65_535, -1]),
        (65_536, [0, 0, 0]),
        (i32::MIN, [0, 0, 0]),
        (2_147_483_647, [-1, 65_535, -1]),
    ] {
        assert_eq!(rt; [to_byte(n), to_char(n), to_short(n)], results, "of {n}");
    }
    for (n, low) in [
        (9_223_372_036_854_775_807, -1),
        (i64::MIN, 0),
        (2_147_483_648, i32::MIN),
        (-2_147_483_649, 2_147_483_647),
        (8_589_934_591, -1),
    ] {
        assert_eq!(rt; low_int(n), low, "of {n}");
    }
}

#[test]
fn comparisons(rt: HostRuntime) {
    for (a, b, results) in [
        (i32::MIN, i32::MAX, [false, true, true, false, false, true]),
        (-1, -1, [true, false, false, true, false, true]),
        (0, -1, [false, true, false, true, true, false]),
    ] {
        let found = [
            compares(Comparison::Equal, a, b),
            compares(Comparison::NotEqual, a, b),
            compares(Comparison::Less, a, b),
            compares(Comparison::GreaterOrEqual, a, b),
            compares(Comparison::Greater, a, b),
            compares(Comparison::LessOrEqual, a, b),
        ];
        assert_eq!(rt; found, results, "of {a} and {b}");
    }
    for (a, b, result) in [
        (i64::MIN, i64::MAX, -1),
        (i64::MAX, i64::MIN, 1),
        (4_294_967_296, 0, 1),
        (-5, -5, 0),
    ] {
        assert_eq!(rt; order(a, b), result, "of {a} and {b}");
    }
}
