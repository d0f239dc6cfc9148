//! `pop` to `swap` (JVMS 4.10.1.9). None of the groups of words has half a Long.

ghost use Rattle.std.specs.Prelude.{◌≡◌, ◌≤◌, ◌+◌, ◌++◌, ◌∷◌, [], Some, length, drop, slice_get, option_map, IfSome, OnOk};
ghost use Rattle.world_model.specs.World.{World as ModelWorld};
ghost use Rattle.jv_model.specs.StackForms.{upper_words as words_of_upper, lower_words as words_of_lower, put_back as types_put_back};
ghost use Rattle.typing_model.specs.VerificationType.{is_one_word as is_model_one_word};
ghost use Rattle.typing_model.specs.Transition.{pushed};
ghost use Rattle.typing_model.specs.StackTypes.{group as group_of_words, stack_formed};
ghost use Rattle.jv_types.specs.Instruction.{stack_form_of};
ghost use Rattle.type_rules.specs.Types.{type_of};
ghost use Rattle.type_rules.specs.Frames.{types_of, AreKnown, IsKnownFrame};
ghost use Rattle.instruction_types.specs.Outcome.{IsTyped};
ghost use Rattle.instruction_types.specs.Groups.{types_in, StandsAt};

use crate::environment::{Environment, TypingError};
use crate::operands::push_all;
use jv_types::StackForm;
use type_rules::{TypeFrame, VerificationType};

/// Operands that are moved together, from the top down.
#[derive(Clone, Copy)]
enum Group {
    Empty,
    One(VerificationType),
    Two(VerificationType, VerificationType),
}

impl Group {
    /// The number of operands.
    fn len(self) -> u32
        ensures { result ≡ length (types_in self) }
    {
        match self {
            Group::Empty => 0,
            Group::One(_) => 1,
            Group::Two(_, _) => 2,
        }
    }
}

/// The words of the group at the top.
fn upper_words(form: StackForm) -> u8
    ensures same { result ≡ words_of_upper (stack_form_of form) }
    ensures few { result ≤ 2 }
{
    match form {
        StackForm::Pop
        | StackForm::Duplicate
        | StackForm::DuplicateX1
        | StackForm::DuplicateX2
        | StackForm::Swap => 1,
        StackForm::PopTwo
        | StackForm::DuplicateTwo
        | StackForm::DuplicateTwoX1
        | StackForm::DuplicateTwoX2 => 2,
    }
}

/// The words of the group below it.
fn lower_words(form: StackForm) -> u8
    ensures same { result ≡ words_of_lower (stack_form_of form) }
    ensures few { result ≤ 2 }
{
    match form {
        StackForm::Pop | StackForm::PopTwo | StackForm::Duplicate | StackForm::DuplicateTwo => 0,
        StackForm::DuplicateX1 | StackForm::DuplicateTwoX1 | StackForm::Swap => 1,
        StackForm::DuplicateX2 | StackForm::DuplicateTwoX2 => 2,
    }
}

/// Whether a type is of category 1 (JVMS 4.10.1.9).
fn is_one_word(type_there: VerificationType) -> bool
    ensures { (world : ModelWorld) → result ≡ is_model_one_word (type_of world type_there) }
{
    !matches!(type_there, VerificationType::Top | VerificationType::Long)
}

/// The operand of one word with a number from the top down, where there is one.
fn one_word(frame: &TypeFrame, from: u32) -> Option<VerificationType>
    ensures typed { (world : ModelWorld) → option_map (λ type. type_of world type ∷ []) result
        ≡ group_of_words 1 (drop from (types_of world frame.now.stack)) }
    ensures there { IfSome result (λ type. slice_get frame.now.stack from ≡ Some type) }
{
    let Some(operand) = frame.operand(from) else {
        return None;
    };
    if is_one_word(operand) {
        Some(operand)
    } else {
        None
    }
}

/// The operands of two words from a number on, from the top down, where there are some.
fn two_words(frame: &TypeFrame, from: u32) -> Option<Group>
    requires { from ≤ 2 }
    ensures typed { (world : ModelWorld)
        → option_map (λ group. types_of world (types_in group)) result
        ≡ group_of_words 2 (drop from (types_of world frame.now.stack)) }
    ensures there { IfSome result (λ group. StandsAt frame.now.stack from (types_in group)) }
{
    let Some(first) = frame.operand(from) else {
        return None;
    };
    if let VerificationType::Long = first {
        return Some(Group::One(first));
    }
    if !is_one_word(first) {
        return None;
    }
    match one_word(frame, from + 1) {
        Some(second) => Some(Group::Two(first, second)),
        None => None,
    }
}

/// The operands of so many words from a number on, from the top down, where there are some.
fn words_at(frame: &TypeFrame, from: u32, words: u8) -> Option<Group>
    requires from { from ≤ 2 }
    requires words { words ≤ 2 }
    ensures typed { (world : ModelWorld)
        → option_map (λ group. types_of world (types_in group)) result
        ≡ group_of_words words (drop from (types_of world frame.now.stack)) }
    ensures there { IfSome result (λ group. StandsAt frame.now.stack from (types_in group)) }
{
    match words {
        0 => Some(Group::Empty),
        1 => match one_word(frame, from) {
            Some(operand) => Some(Group::One(operand)),
            None => None,
        },
        _ => two_words(frame, from),
    }
}

/// Puts a group on top.
fn push_group(here: &Environment, frame: &mut TypeFrame, group: Group) -> Result<(), TypingError>
    ensures typed { (world : ModelWorld) → IsTyped world here.now result
        (λ e. pushed e (types_of world (types_in group))) frame.old frame.new }
    ensures known { (world : ModelWorld) → IsKnownFrame world frame.old
        → AreKnown world (types_in group) → OnOk result (IsKnownFrame world frame.new) }
{
    match group {
        Group::Empty => push_all(here, frame, &[]),
        Group::One(operand) => push_all(here, frame, &[operand]),
        Group::Two(first, second) => push_all(here, frame, &[first, second]),
    }
}

/// Puts two groups on top, the second one at the top.
fn push_both(
    here: &Environment,
    frame: &mut TypeFrame,
    first: Group,
    second: Group,
) -> Result<(), TypingError>
    ensures typed { (world : ModelWorld) → IsTyped world here.now result
        (λ e. pushed e (types_of world (types_in second) ++ types_of world (types_in first)))
        frame.old frame.new }
    ensures known { (world : ModelWorld) → IsKnownFrame world frame.old
        → AreKnown world (types_in first) → AreKnown world (types_in second)
        → OnOk result (IsKnownFrame world frame.new) }
{
    push_group(here, frame, first)?;
    push_group(here, frame, second)
}

/// Puts a group on top, and another one both before it and after it.
fn push_around(
    here: &Environment,
    frame: &mut TypeFrame,
    upper: Group,
    lower: Group,
) -> Result<(), TypingError>
    ensures typed { (world : ModelWorld) → IsTyped world here.now result
        (λ e. pushed e (types_of world (types_in upper) ++ types_of world (types_in lower)
        ++ types_of world (types_in upper))) frame.old frame.new }
    ensures known { (world : ModelWorld) → IsKnownFrame world frame.old
        → AreKnown world (types_in upper) → AreKnown world (types_in lower)
        → OnOk result (IsKnownFrame world frame.new) }
{
    push_group(here, frame, upper)?;
    push_both(here, frame, lower, upper)
}

/// Puts what a form leaves of its groups on top.
fn put_back(
    here: &Environment,
    frame: &mut TypeFrame,
    form: StackForm,
    upper: Group,
    lower: Group,
) -> Result<(), TypingError>
    ensures typed { (world : ModelWorld) → IsTyped world here.now result
        (λ e. pushed e (types_put_back (stack_form_of form)
        (types_of world (types_in upper)) (types_of world (types_in lower))))
        frame.old frame.new }
    ensures known { (world : ModelWorld) → IsKnownFrame world frame.old
        → AreKnown world (types_in upper) → AreKnown world (types_in lower)
        → OnOk result (IsKnownFrame world frame.new) }
{
    match form {
        StackForm::Pop | StackForm::PopTwo => push_group(here, frame, Group::Empty),
        StackForm::Swap => push_both(here, frame, upper, lower),
        StackForm::Duplicate
        | StackForm::DuplicateX1
        | StackForm::DuplicateX2
        | StackForm::DuplicateTwo
        | StackForm::DuplicateTwoX1
        | StackForm::DuplicateTwoX2 => push_around(here, frame, upper, lower),
    }
}

/// `pop` to `swap`.
pub fn stack_form(
    here: &Environment,
    frame: &mut TypeFrame,
    form: StackForm,
) -> Result<(), TypingError>
    ensures typed { (world : ModelWorld) → IsTyped world here.now result
        (λ e. stack_formed e (stack_form_of form)) frame.old frame.new }
    ensures known { (world : ModelWorld) → IsKnownFrame world frame.old
        → OnOk result (IsKnownFrame world frame.new) }
{
    let Some(upper) = words_at(frame, 0, upper_words(form)) else {
        return Err(TypingError::Misfit);
    };
    let Some(lower) = words_at(frame, upper.len(), lower_words(form)) else {
        return Err(TypingError::Misfit);
    };
    frame.drop_operands(upper.len() + lower.len());
    put_back(here, frame, form, upper, lower)
}
