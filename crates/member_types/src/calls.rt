//! Calls (JVMS 4.10.1.9). `<init>` is called by `invokespecial` alone, and `<clinit>` by
//! `invokestatic` alone.

ghost use Rattle.std.specs.Prelude.{◌≡◌, true, option_to_list, IfSome, OnOk};
ghost use Rattle.jv_model.specs.Partial.{passes};
ghost use Rattle.world_model.specs.BootNames.{is_constructor_name, is_initializer_name};
ghost use Rattle.code_model.specs.TypeReading.{method_type_of};
ghost use Rattle.code_model.specs.Names.{operand_at};
ghost use Rattle.link_model.specs.UseFaults.{are_types_there};
ghost use Rattle.typing_model.specs.Transition.{changed};
ghost use Rattle.typing_model.specs.CallTypes.{selected_called, special_called, static_called};
ghost use Rattle.jv_types.specs.ClassData.{pool_of};
ghost use Rattle.type_rules.specs.Types.{IsKnownType};
ghost use Rattle.type_rules.specs.Frames.{types_of, IsKnownFrame};
ghost use Rattle.instruction_types.specs.Environment.{IsReady};
ghost use Rattle.instruction_types.specs.Outcome.{IsTyped};
ghost use Rattle.instruction_types.specs.Wanted.{tests_of, IsKnownWanted, AreKnownWanted};
ghost use Rattle.linked_laws.specs.Operands.{MethodIsLinked};
ghost use Rattle.member_types.specs.Calls.{receiver_tests, called};
ghost use Rattle.member_types.specs.Constructors.{IsTypedIn};

use crate::constructors::{Code, call_constructor};
use crate::names::member_name;
use crate::signatures::{operands_wanted, read_signature};
use class_world::World;
use instruction_types::{Environment, TypingError, Wanted, change};
use jv_types::{Const, Steps, is_text};
use std::alloc::Global;
use std::sync::ledger::Ledger;
use type_rules::{TypeFrame, VerificationType};

/// Whether a method of that name is a constructor.
fn is_constructor(name: &[u16]) -> bool
    ensures { result ≡ is_constructor_name name.now }
{
    is_text(name, b"<init>")
}

/// Whether a method of that name initializes its class.
fn is_initializer(name: &[u16]) -> bool
    ensures { result ≡ is_initializer_name name.now }
{
    is_text(name, b"<clinit>")
}

/// Takes operands, and puts a type in their place, where there is one.
fn change_to<L: Ledger>(
    world: &World,
    here: &Environment,
    frame: &mut TypeFrame,
    wanted: &[Wanted],
    returned: Option<VerificationType>,
    steps: &mut Steps<L>,
) -> Result<(), TypingError>
    requires here { IsReady world.now here.now }
    requires frame { IsKnownFrame world.now frame.old }
    requires wanted { AreKnownWanted world.now wanted.now }
    requires returned { IfSome returned (IsKnownType world.now) }
    ensures typed { IsTyped world.now here.now result
        (λ e. changed e (tests_of world.now e wanted.now)
        (types_of world.now (option_to_list returned))) frame.old frame.new }
    ensures known { OnOk result (IsKnownFrame world.now frame.new) }
{
    match returned {
        Some(there) => change(world, here, frame, wanted, &[there], steps),
        None => change(world, here, frame, wanted, &[], steps),
    }
}

/// Takes what a call takes, and puts what it gives.
fn call<L: Ledger>(
    alloc: Global,
    world: &World,
    here: &Environment,
    frame: &mut TypeFrame,
    descriptor: &[u16],
    receiver: Option<Wanted>,
    steps: &mut Steps<L>,
) -> Result<(), TypingError>
    requires here { IsReady world.now here.now }
    requires frame { IsKnownFrame world.now frame.old }
    requires linked { passes (are_types_there world.now) (method_type_of descriptor.now) ≡ true }
    requires receiver { IfSome receiver (IsKnownWanted world.now) }
    ensures typed { IsTyped world.now here.now result
        (λ e. called e (method_type_of descriptor.now) (receiver_tests world.now e receiver))
        frame.old frame.new }
    ensures known { OnOk result (IsKnownFrame world.now frame.new) }
{
    let signature = read_signature(alloc, world, descriptor)?;
    let wanted = operands_wanted(alloc, signature.parameters.as_slice(), receiver)?;
    change_to(
        world,
        here,
        frame,
        wanted.as_slice(),
        signature.result,
        steps,
    )
}

/// `invokevirtual` and `invokeinterface`. Each class looked at is a step.
pub fn invokevirtual<L: Ledger>(
    alloc: Global,
    world: &World,
    here: &Environment,
    pool: &[Const],
    frame: &mut TypeFrame,
    index: u16,
    steps: &mut Steps<L>,
) -> Result<(), TypingError>
    requires here { IsReady world.now here.now }
    requires frame { IsKnownFrame world.now frame.old }
    requires linked { MethodIsLinked world.now (operand_at (pool_of pool.now) index) }
    ensures typed { IsTyped world.now here.now result
        (λ e. selected_called e (operand_at (pool_of pool.now) index)) frame.old frame.new }
    ensures known { OnOk result (IsKnownFrame world.now frame.new) }
{
    let Some(method) = member_name(pool, index) else {
        return Err(TypingError::Misfit);
    };
    if is_constructor(method.name) {
        return Err(TypingError::Misfit);
    }
    if is_initializer(method.name) {
        return Err(TypingError::Misfit);
    }
    let class = world.class_named(method.class).unwrap();
    let receiver = Wanted::To(VerificationType::Class(class));
    call(
        alloc,
        world,
        here,
        frame,
        method.descriptor,
        Some(receiver),
        steps,
    )
}

/// `invokespecial`. Each class looked at is a step.
pub fn invokespecial<L: Ledger>(
    alloc: Global,
    world: &World,
    here: &Environment,
    code: &Code,
    frame: &mut TypeFrame,
    index: u16,
    steps: &mut Steps<L>,
) -> Result<(), TypingError>
    requires here { IsReady world.now here.now }
    requires frame { IsKnownFrame world.now frame.old }
    requires linked { MethodIsLinked world.now (operand_at (pool_of code.now.pool.now) index) }
    ensures typed { IsTypedIn world.now here.now code.now result
        (λ e. special_called e (operand_at (pool_of code.now.pool.now) index)) frame.old frame.new }
    ensures known { OnOk result (IsKnownFrame world.now frame.new) }
{
    let Some(method) = member_name(code.pool, index) else {
        return Err(TypingError::Misfit);
    };
    if is_constructor(method.name) {
        return call_constructor(alloc, world, here, code, frame, &method, steps);
    }
    if is_initializer(method.name) {
        return Err(TypingError::Misfit);
    }
    let class = world.class_named(method.class).unwrap();
    let receiver = Wanted::Both(here.class, class);
    call(
        alloc,
        world,
        here,
        frame,
        method.descriptor,
        Some(receiver),
        steps,
    )
}

/// `invokestatic`. Each class looked at is a step.
pub fn invokestatic<L: Ledger>(
    alloc: Global,
    world: &World,
    here: &Environment,
    pool: &[Const],
    frame: &mut TypeFrame,
    index: u16,
    steps: &mut Steps<L>,
) -> Result<(), TypingError>
    requires here { IsReady world.now here.now }
    requires frame { IsKnownFrame world.now frame.old }
    requires linked { MethodIsLinked world.now (operand_at (pool_of pool.now) index) }
    ensures typed { IsTyped world.now here.now result
        (λ e. static_called e (operand_at (pool_of pool.now) index)) frame.old frame.new }
    ensures known { OnOk result (IsKnownFrame world.now frame.new) }
{
    let Some(method) = member_name(pool, index) else {
        return Err(TypingError::Misfit);
    };
    if is_constructor(method.name) {
        return Err(TypingError::Misfit);
    }
    call(alloc, world, here, frame, method.descriptor, None, steps)
}
