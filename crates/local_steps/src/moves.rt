//! Instructions that move words.

ghost use Rattle.std.specs.Prelude.{◌≡◌, ◌+◌, ◌-◌, ◌≤◌, length, Some, IsSome, slice_get};
ghost use Rattle.jv_types.specs.Instruction.{stack_form_of};
ghost use Rattle.jv_model.specs.StackForms.{upper_words, lower_words};
ghost use Rattle.machine_model.specs.Operands.{rearranged};
ghost use Rattle.jv_values.specs.Values.{values_of, operands_in};
ghost use Rattle.local_steps.specs.Outcome.{incremented_in, words_back};

use arithmetic::int_op;
use jv_types::{Arithmetic, StackForm};
use jv_values::Value;
use jv_values::locals::set_local;
use jv_values::operands::{put, two_words, word_on_top};

/// `iinc`.
pub fn increment(local: usize, added: i32, locals: &mut [Value])
    requires { IsSome (incremented_in local added (values_of locals.old)
        (slice_get (values_of locals.old) local)) }
    ensures { incremented_in local added (values_of locals.old)
        (slice_get (values_of locals.old) local)
        ≡ Some (values_of locals.new) }
{
    match locals[local] {
        Value::Int(value) => set_local(
            locals,
            local,
            Value::Int(int_op(Arithmetic::Add, value, added)),
        ),
        _ => unreachable!(),
    }
}

/// `pop` to `swap`.
pub fn rearrange(form: StackForm, stack: &mut [Value], depth: usize) -> usize
    requires inside { depth ≤ length stack.old }
    requires some { upper_words (stack_form_of form) + lower_words (stack_form_of form) ≤ depth }
    requires room { depth + words_back (stack_form_of form)
        ≤ length stack.old
        + upper_words (stack_form_of form)
        + lower_words (stack_form_of form) }
    ensures inside { result ≤ length stack.new }
    ensures operands { rearranged (stack_form_of form) (operands_in stack.old depth)
        ≡ Some (operands_in stack.new result) }
{
    match form {
        StackForm::Pop => depth - 1,
        StackForm::PopTwo => depth - 2,
        StackForm::Duplicate => {
            let a = word_on_top(stack, depth);
            put(stack, depth - 1, &[a, a])
        }
        StackForm::DuplicateX1 => {
            let (b, a) = two_words(stack, depth);
            put(stack, depth - 2, &[a, b, a])
        }
        StackForm::DuplicateX2 => {
            let (b, a) = two_words(stack, depth);
            let c = word_on_top(stack, depth - 2);
            put(stack, depth - 3, &[a, c, b, a])
        }
        StackForm::DuplicateTwo => {
            let (b, a) = two_words(stack, depth);
            put(stack, depth - 2, &[b, a, b, a])
        }
        StackForm::DuplicateTwoX1 => {
            let (b, a) = two_words(stack, depth);
            let c = word_on_top(stack, depth - 2);
            put(stack, depth - 3, &[b, a, c, b, a])
        }
        StackForm::DuplicateTwoX2 => {
            let (b, a) = two_words(stack, depth);
            let (d, c) = two_words(stack, depth - 2);
            put(stack, depth - 4, &[b, a, d, c, b, a])
        }
        StackForm::Swap => {
            let (b, a) = two_words(stack, depth);
            put(stack, depth - 2, &[a, b])
        }
    }
}
