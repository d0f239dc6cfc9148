//! `getstatic` to `putfield` (JVMS 4.10.1.9).

ghost use Rattle.std.specs.Prelude.{◌≡◌, ◌&&◌, OnOk};
ghost use Rattle.typing_model.specs.Environment.{Environment as ModelEnvironment, is_constructor};
ghost use Rattle.typing_model.specs.MemberTypes.{is_own_field as is_model_own_field, static_got, static_put, field_got, field_put};
ghost use Rattle.code_model.specs.Names.{operand_at};
ghost use Rattle.jv_types.specs.ClassData.{pool_of};
ghost use Rattle.type_rules.specs.Types.{IsKnown};
ghost use Rattle.type_rules.specs.Frames.{IsKnownFrame};
ghost use Rattle.instruction_types.specs.Environment.{IsEnvironment, IsReady};
ghost use Rattle.instruction_types.specs.Outcome.{IsTyped};
ghost use Rattle.linked_laws.specs.Operands.{FieldIsLinked};
ghost use Rattle.member_types.specs.Fields.{IsField, FindsField};

use crate::names::{has_name, member_name};
use class_world::World;
use instruction_types::{Environment, TypingError, Wanted, change, pop_all, push_all};
use jv_types::{ClassNo, Const, Steps};
use numbered_types::field_type;
use std::sync::ledger::Ledger;
use type_rules::{TypeFrame, VerificationType};

/// A field as an instruction names it.
#[derive(Clone, Copy)]
struct Field<'a> {
    class: ClassNo,
    name: &'a [u16],
    descriptor: &'a [u16],
    /// What a value of it is to the verifier.
    field_type: VerificationType,
}

/// The field that an operand names, where it names one.
fn field_at<'a>(world: &World, pool: &'a [Const], index: u16) -> Option<Field<'a>>
    requires { FieldIsLinked world.now (operand_at (pool_of pool.now) index) }
    ensures { FindsField world.now (operand_at (pool_of pool.now) index) result }
{
    let Some(member) = member_name(pool, index) else {
        return None;
    };
    let class = world.class_named(member.class).unwrap();
    let field_type = field_type(world, member.descriptor).unwrap();
    Some(Field {
        class,
        name: member.name,
        descriptor: member.descriptor,
        field_type: field_type.verification_type(),
    })
}

/// Whether the field is one that the method's own class declares.
fn is_own_field<L: Ledger>(
    world: &World,
    here: &Environment,
    field: &Field,
    steps: &mut Steps<L>,
) -> bool
    requires here { IsReady world.now here.now }
    requires field { IsKnown world.now field.now.class }
    ensures { (e : ModelEnvironment) → IsEnvironment world.now here.now e
        → (operand : _) → (is : IsField world.now operand field.now)
        → result ≡ is_model_own_field e is.member }
{
    match world.field_named(field.class, field.name, field.descriptor, steps) {
        Some(place) => {
            let own = world.class(here.class).name.as_slice();
            has_name(world, place.class, own)
        }
        None => false,
    }
}

/// Whether the field may be put into uninitialized `this`.
fn goes_into_this<L: Ledger>(
    world: &World,
    here: &Environment,
    field: &Field,
    steps: &mut Steps<L>,
) -> bool
    requires here { IsReady world.now here.now }
    requires field { IsKnown world.now field.now.class }
    ensures { (e : ModelEnvironment) → IsEnvironment world.now here.now e
        → (operand : _) → (is : IsField world.now operand field.now)
        → result ≡ (is_constructor e && is_model_own_field e is.member) }
{
    here.is_constructor && is_own_field(world, here, field, steps)
}

/// `getstatic`.
pub fn getstatic(
    world: &World,
    here: &Environment,
    pool: &[Const],
    frame: &mut TypeFrame,
    index: u16,
) -> Result<(), TypingError>
    requires frame { IsKnownFrame world.now frame.old }
    requires linked { FieldIsLinked world.now (operand_at (pool_of pool.now) index) }
    ensures typed { IsTyped world.now here.now result
        (λ e. static_got e (operand_at (pool_of pool.now) index)) frame.old frame.new }
    ensures known { OnOk result (IsKnownFrame world.now frame.new) }
{
    let Some(field) = field_at(world, pool, index) else {
        return Err(TypingError::Misfit);
    };
    push_all(here, frame, &[field.field_type])
}

/// `putstatic`. Each class looked at is a step.
pub fn putstatic<L: Ledger>(
    world: &World,
    here: &Environment,
    pool: &[Const],
    frame: &mut TypeFrame,
    index: u16,
    steps: &mut Steps<L>,
) -> Result<(), TypingError>
    requires here { IsReady world.now here.now }
    requires frame { IsKnownFrame world.now frame.old }
    requires linked { FieldIsLinked world.now (operand_at (pool_of pool.now) index) }
    ensures typed { IsTyped world.now here.now result
        (λ e. static_put e (operand_at (pool_of pool.now) index)) frame.old frame.new }
    ensures known { OnOk result (IsKnownFrame world.now frame.new) }
{
    let Some(field) = field_at(world, pool, index) else {
        return Err(TypingError::Misfit);
    };
    pop_all(world, here, frame, &[Wanted::To(field.field_type)], steps)
}

/// `getfield`. Each class looked at is a step.
pub fn getfield<L: Ledger>(
    world: &World,
    here: &Environment,
    pool: &[Const],
    frame: &mut TypeFrame,
    index: u16,
    steps: &mut Steps<L>,
) -> Result<(), TypingError>
    requires here { IsReady world.now here.now }
    requires frame { IsKnownFrame world.now frame.old }
    requires linked { FieldIsLinked world.now (operand_at (pool_of pool.now) index) }
    ensures typed { IsTyped world.now here.now result
        (λ e. field_got e (operand_at (pool_of pool.now) index)) frame.old frame.new }
    ensures known { OnOk result (IsKnownFrame world.now frame.new) }
{
    let Some(field) = field_at(world, pool, index) else {
        return Err(TypingError::Misfit);
    };
    let owner = Wanted::To(VerificationType::Class(field.class));
    change(world, here, frame, &[owner], &[field.field_type], steps)
}

/// `putfield`. Each class looked at is a step.
pub fn putfield<L: Ledger>(
    world: &World,
    here: &Environment,
    pool: &[Const],
    frame: &mut TypeFrame,
    index: u16,
    steps: &mut Steps<L>,
) -> Result<(), TypingError>
    requires here { IsReady world.now here.now }
    requires frame { IsKnownFrame world.now frame.old }
    requires linked { FieldIsLinked world.now (operand_at (pool_of pool.now) index) }
    ensures typed { IsTyped world.now here.now result
        (λ e. field_put e (operand_at (pool_of pool.now) index)) frame.old frame.new }
    ensures known { OnOk result (IsKnownFrame world.now frame.new) }
{
    let Some(field) = field_at(world, pool, index) else {
        return Err(TypingError::Misfit);
    };
    let takes_this = goes_into_this(world, here, &field, steps);
    let owner = Wanted::Owner(takes_this, field.class);
    pop_all(
        world,
        here,
        frame,
        &[Wanted::To(field.field_type), owner],
        steps,
    )
}
