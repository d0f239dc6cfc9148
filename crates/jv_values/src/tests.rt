//! Operands and locals, each call once.

use super::*;
use crate::locals::set_local;
use crate::operands::{
    int_on_top, long_and_int, long_on_top, push, put, take, two_ints, two_longs, two_words,
};
use jv_types::ValueKind;

#[test]
fn operands_are_taken_as_they_were_put(rt: HostRuntime) {
    let mut words = [Value::Null; 6];
    let depth = push(&mut words, 0, Value::Long(-5));
    let depth = push(&mut words, depth, Value::Int(7));
    assert_eq!(rt; depth, 3);
    assert_eq!(rt; words[1], Value::Half);
    assert_eq!(rt; words[2], Value::Int(7));
}

#[test]
fn locals_are_set(rt: HostRuntime) {
    let mut locals = [Value::Int(1); 3];
    set_local(&mut locals, 1, Value::Long(9));
    assert_eq!(rt; locals[0], Value::Int(1));
    assert_eq!(rt; locals[1], Value::Long(9));
    assert_eq!(rt; locals[2], Value::Half);
}

#[test]
#[tactic(auto, unfolding(crate::specs::Values::operands_in))]
fn kinds_are_told_apart(rt: HostRuntime) {
    let words = [
        Value::Ref(3),
        Value::Long(2),
        Value::Half,
        Value::Long(4),
        Value::Half,
        Value::Int(5),
        Value::Int(6),
    ];
    assert_eq!(rt; int_on_top(&words, 7), 6);
    assert_eq!(rt; two_ints(&words, 7), (5, 6));
    assert_eq!(rt; long_and_int(&words, 6), (4, 5));
    assert_eq!(rt; long_on_top(&words, 5), 4);
    assert_eq!(rt; two_longs(&words, 5), (2, 4));
    assert_eq!(rt; two_words(&words, 7), (Value::Int(5), Value::Int(6)));
    assert_eq!(rt; take(ValueKind::Reference, &words, 1).value, Value::Ref(3));
    assert_eq!(rt; take(ValueKind::Long, &words, 3).depth, 1);
}

#[test]
fn groups_are_put_upper_last(rt: HostRuntime) {
    let mut words = [Value::Null; 4];
    let depth = put(&mut words, 1, &[Value::Int(1), Value::Int(2)]);
    assert_eq!(rt; depth, 3);
    assert_eq!(rt; words[1], Value::Int(1));
    assert_eq!(rt; words[2], Value::Int(2));
}
