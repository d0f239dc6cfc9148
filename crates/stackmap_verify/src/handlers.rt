//! The handlers that cover an instruction (JVMS 4.10.1.6).

ghost use Rattle.std.specs.Prelude.{◌≡◌, ◌∷◌, [], Bool, List as Items, IfOk, OnOk};
ghost use Rattle.std.specs.List.{list_any};
ghost use Rattle.code_model.specs.Names.{named_handler};
ghost use Rattle.typing_model.specs.Environment.{Environment as ModelEnvironment};
ghost use Rattle.typing_model.specs.VerificationType.{class};
ghost use Rattle.typing_model.specs.Rules.{goes_to, covers as model_covers, caught, handler_fits as model_handler_fits, misfits as model_misfits};
ghost use Rattle.jv_types.specs.ClassData.{pool_of};
ghost use Rattle.jv_types.specs.Code.{handler_of};
ghost use Rattle.jv_types.specs.declared.code.Handler.{Handler};
ghost use Rattle.class_world.specs.World.{number_of, name_at};
ghost use Rattle.type_rules.specs.Types.{IsKnown};
ghost use Rattle.type_rules.specs.Frames.{types_of, frame_of, IsKnownFrame};
ghost use Rattle.stackmap_verify.specs.Cover.{HasLeft, IsHere};
ghost use Rattle.stackmap_verify.specs.Watch.{IsWatch};
ghost use Rattle.stackmap_verify.specs.Methods.{IsMethod, IsSound};

use crate::cover::Cover;
use crate::maps::map_frame_at;
use crate::method::Method;
use jv_types::{ClassNo, Handler, List, NoMemory, Steps};
use member_types::names::class_name;
use std::alloc::Global;
use std::sync::ledger::Ledger;
use type_rules::{TypeFrame, VerificationType, has_this, types_assignable};

/// Whether a handler covers a place.
fn covers(handler: &Handler, pc: u32) -> bool
    ensures { (pool : _) → result ≡ model_covers pc (named_handler pool (handler_of handler.now)) }
{
    handler.from <= pc && pc < handler.to
}

/// The class that a handler catches, where it's there. Without one it catches every throwable.
fn caught_class(method: &Method, handler: &Handler) -> Option<ClassNo>
    requires { IsSound method.now }
    ensures { result ≡ number_of method.now.world.now
        (caught (named_handler (pool_of method.now.code.now.pool.now) (handler_of handler.now))) }
{
    let Some(index) = handler.catch else {
        return Some(method.here.throwable);
    };
    match class_name(method.code.pool, index) {
        Some(name) => method.world.class_named(name),
        None => method.world.class_named(&[]),
    }
}

/// Whether the locals, with the caught class alone on the stack, go to the handler's map frame.
fn goes_to_handler<L: Ledger>(
    alloc: Global,
    method: &Method,
    frame: &TypeFrame,
    caught: ClassNo,
    target: u32,
    steps: &mut Steps<L>,
) -> Result<bool, NoMemory>
    requires method { IsSound method.now }
    requires frame { IsKnownFrame method.now.world.now frame.now }
    requires caught { IsKnown method.now.world.now caught }
    ensures { IfOk result (λ goes. (e : ModelEnvironment) → IsMethod method.now e
        → goes ≡ goes_to e (record {
          locals = types_of method.now.world.now frame.now.locals;
          stack = class (name_at method.now.world.now caught) ∷ [];
        }) target) }
{
    let Some(target) = map_frame_at(alloc, method, target)? else {
        return Ok(false);
    };
    let operands = [VerificationType::Class(caught)];
    Ok(types_assignable(method.world, frame.locals(), &operands, &target, steps))
}

/// Whether a handler takes what is thrown over a frame: the class that it catches is a throwable,
/// no local is uninitialized `this`, and the locals with that class go to its map frame.
fn handler_fits<L: Ledger>(
    alloc: Global,
    method: &Method,
    frame: &TypeFrame,
    handler: &Handler,
    steps: &mut Steps<L>,
) -> Result<bool, NoMemory>
    requires method { IsSound method.now }
    requires frame { IsKnownFrame method.now.world.now frame.now }
    ensures { IfOk result (λ fits. (e : ModelEnvironment) → IsMethod method.now e
        → fits ≡ model_handler_fits e (frame_of method.now.world.now frame.now)
        (named_handler (pool_of method.now.code.now.pool.now) (handler_of handler.now))) }
{
    let Some(caught) = caught_class(method, handler) else {
        return Ok(false);
    };
    if !method.world.is_sub(caught, method.here.throwable, steps) {
        return Ok(false);
    }
    if has_this(frame.locals()) {
        return Ok(false);
    }
    goes_to_handler(alloc, method, frame, caught, handler.target, steps)
}

/// Whether a handler covers a place and doesn't fit.
fn misfits<L: Ledger>(
    alloc: Global,
    method: &Method,
    pc: u32,
    frame: &TypeFrame,
    handler: &Handler,
    steps: &mut Steps<L>,
) -> Result<bool, NoMemory>
    requires method { IsSound method.now }
    requires frame { IsKnownFrame method.now.world.now frame.now }
    ensures { IfOk result (λ wrong. (e : ModelEnvironment) → IsMethod method.now e
        → wrong ≡ model_misfits e pc (frame_of method.now.world.now frame.now)
        (named_handler (pool_of method.now.code.now.pool.now) (handler_of handler.now))) }
{
    if !covers(handler, pc) {
        return Ok(false);
    }
    Ok(!handler_fits(alloc, method, frame, handler, steps)?)
}

/// Whether one of some handlers covers a place and doesn't fit.
fn one_of_misfits<L: Ledger>(
    alloc: Global,
    method: &Method,
    pc: u32,
    frame: &TypeFrame,
    handlers: &[Handler],
    steps: &mut Steps<L>,
) -> Result<bool, NoMemory>
    requires method { IsSound method.now }
    requires frame { IsKnownFrame method.now.world.now frame.now }
    ensures { IfOk result (λ wrong. (e : ModelEnvironment) → IsMethod method.now e
        → wrong ≡ list_any (λ (h : Handler). model_misfits e pc
        (frame_of method.now.world.now frame.now)
        (named_handler (pool_of method.now.code.now.pool.now) (handler_of h))) handlers.now) }
{
    for handler in handlers {
        if misfits(alloc, method, pc, frame, handler, steps)? {
            return Ok(true);
        }
    }
    Ok(false)
}

/// The handlers of a method while a pass goes along its code. Those that were looked at fit the
/// locals, and aren't looked at again until other locals come.
#[derive(Drop)]
pub struct Watch {
    pub cover: Cover,
    pub locals: List<VerificationType>,
}

/// Takes over locals. Where they are others, no handler was looked at.
fn watch_locals(watch: &mut Watch, locals: &[VerificationType]) -> Result<(), NoMemory>
    ensures rows { watch.new.cover.rows ≡ watch.old.cover.rows }
    ensures place { watch.new.cover.place ≡ watch.old.cover.place }
    ensures locals { OnOk result (watch.new.locals.items ≡ locals.now) }
    ensures here { OnOk result (IsHere watch.old.cover → IsHere watch.new.cover) }
    ensures left { OnOk result ((test : Items VerificationType → Handler → Bool)
        → HasLeft (test watch.old.locals.items) watch.old.cover
        → HasLeft (test locals.now) watch.new.cover) }
{
    if watch.locals.as_slice() != locals {
        watch.cover.renew()?;
        watch.locals.cut(0);
        watch.locals.append(locals)?;
    }
    Ok(())
}

/// Whether a handler of the method covers a place and doesn't fit the frame there.
pub fn one_misfits<L: Ledger>(
    alloc: Global,
    method: &Method,
    watch: &mut Watch,
    pc: u32,
    frame: &TypeFrame,
    steps: &mut Steps<L>,
) -> Result<bool, NoMemory>
    requires method { IsSound method.now }
    requires watch { IsWatch method.now watch.old }
    requires frame { IsKnownFrame method.now.world.now frame.now }
    ensures misfits { IfOk result (λ wrong. (e : ModelEnvironment) → IsMethod method.now e
        → wrong ≡ list_any (model_misfits e pc (frame_of method.now.world.now frame.now))
        e.body.handlers) }
    ensures watch { OnOk result (IsWatch method.now watch.new) }
{
    watch.cover.come_to(pc)?;
    if watch.cover.is_clear() {
        return Ok(false);
    }
    watch_locals(watch, frame.locals())?;
    let unseen = watch.cover.unseen();
    if one_of_misfits(alloc, method, pc, frame, unseen, steps)? {
        return Ok(true);
    }
    watch.cover.see();
    Ok(false)
}
