//! `ldc`, `ldc_w` and `ldc2_w` (JVMS 4.10.1.9).

ghost use Rattle.std.specs.Prelude.{◌≡◌, OnOk};
ghost use Rattle.world_model.specs.World.{World as ModelWorld};
ghost use Rattle.typing_model.specs.LocalTypes.{constant_type as type_of_constant, wide_constant_type as type_of_wide_constant, constant_pushed};
ghost use Rattle.code_model.specs.Names.{operand_at};
ghost use Rattle.jv_types.specs.ClassData.{pool_of};
ghost use Rattle.type_rules.specs.Frames.{IsKnownFrame};
ghost use Rattle.instruction_types.specs.Environment.{IsReady};
ghost use Rattle.instruction_types.specs.Outcome.{IsTyped};
ghost use Rattle.member_types.specs.Constants.{constant_of};

use instruction_types::{Environment, TypingError, push_all};
use jv_types::Const;
use type_rules::{TypeFrame, VerificationType};

/// A constant that can be pushed.
#[derive(Clone, Copy)]
enum Constant {
    Int,
    Long,
    Text,
}

/// The constant that an operand is, where it is one.
#[tactic(auto, unfolding(code_model::specs::Names::operand_at))]
fn constant_at(pool: &[Const], index: u16) -> Option<Constant>
    ensures { result ≡ constant_of (operand_at (pool_of pool.now) index) }
{
    match pool.get(usize::from(index)) {
        Some(Const::Integer(_)) => Some(Constant::Int),
        Some(Const::Long(_)) => Some(Constant::Long),
        Some(Const::String(_)) => Some(Constant::Text),
        _ => None,
    }
}

/// `ldc` and `ldc_w`.
pub fn ldc(
    here: &Environment,
    pool: &[Const],
    frame: &mut TypeFrame,
    index: u16,
) -> Result<(), TypingError>
    ensures typed { (world : ModelWorld) → IsReady world here.now → IsTyped world here.now result
        (λ e. constant_pushed e (type_of_constant (operand_at (pool_of pool.now) index)))
        frame.old frame.new }
    ensures known { (world : ModelWorld) → IsReady world here.now → IsKnownFrame world frame.old
        → OnOk result (IsKnownFrame world frame.new) }
{
    match constant_at(pool, index) {
        Some(Constant::Int) => push_all(here, frame, &[VerificationType::Int]),
        Some(Constant::Text) => push_all(here, frame, &[VerificationType::Class(here.string)]),
        Some(Constant::Long) | None => Err(TypingError::Misfit),
    }
}

/// `ldc2_w`.
pub fn ldc2_w(
    here: &Environment,
    pool: &[Const],
    frame: &mut TypeFrame,
    index: u16,
) -> Result<(), TypingError>
    ensures typed { (world : ModelWorld) → IsTyped world here.now result
        (λ e. constant_pushed e (type_of_wide_constant (operand_at (pool_of pool.now) index)))
        frame.old frame.new }
    ensures known { (world : ModelWorld) → IsKnownFrame world frame.old
        → OnOk result (IsKnownFrame world frame.new) }
{
    match constant_at(pool, index) {
        Some(Constant::Long) => push_all(here, frame, &[VerificationType::Long]),
        Some(Constant::Int | Constant::Text) | None => Err(TypingError::Misfit),
    }
}
