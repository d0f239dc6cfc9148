//! Methods of kinds that this machine hasn't (JVMS 4.6).

ghost use Rattle.std.specs.Prelude.{◌≡◌, IfOk, map, option_map, option_and_then, position, slice_get};
ghost use Rattle.jv_model.specs.Partial.{first_of};
ghost use Rattle.link_model.specs.WorldOf.{class_of, method_of};
ghost use Rattle.link_model.specs.ClassFaults.{is_wrong_method, method_fault};
ghost use Rattle.jv_types.specs.ClassData.{member_of, pool_of};
ghost use Rattle.jv_types.specs.Code.{body_of};
ghost use Rattle.jv_types.specs.Loaded.{loaded_of};
ghost use Rattle.jv_types.specs.Refusal.{cause_of};

use crate::flags::{ACC_ABSTRACT, ACC_INTERFACE, ACC_NATIVE, ACC_STATIC, has_flag};
use crate::names::name_of;
use jv_types::{Cause, CodeBody, List, Loaded, Member, NoMemory, is_text, text_at};
use std::alloc::Global;

/// The code of a class's method, by its index, where it has code.
fn code_at(class: &Loaded, method: u32) -> Option<&CodeBody>
    ensures { option_map (λ body. body_of body.now) result
        ≡ option_and_then (λ code. code) (slice_get (loaded_of class.now).codes method) }
{
    match class.codes.as_slice().get(method as usize) {
        Some(Some(body)) => Some(body),
        _ => None,
    }
}

/// Whether a class's method is native, static and abstract, a `<clinit>()V` that isn't static, or
/// one of an interface with code, `<clinit>` aside.
fn is_wrong_method(class: &Loaded, method: &Member, code: Option<&CodeBody>) -> bool
    ensures { result ≡ is_wrong_method (class_of (loaded_of class.now))
        (method_of (pool_of class.now.file.pool.items) (member_of method.now)
        (option_map (λ body. body_of body.now) code.entry)) }
{
    let pool = class.file.pool.as_slice();
    let is_static = has_flag(method.flags, ACC_STATIC);
    let is_clinit = is_text(text_at(pool, method.name), b"<clinit>");
    has_flag(method.flags, ACC_NATIVE)
        || (is_static && has_flag(method.flags, ACC_ABSTRACT))
        || (is_clinit && is_text(text_at(pool, method.descriptor), b"()V") && !is_static)
        || (has_flag(class.file.flags, ACC_INTERFACE) && code.is_some() && !is_clinit)
}

/// The index of a class's first method of such a kind.
fn wrong_method(class: &Loaded) -> Option<u32>
    ensures { result ≡ position (is_wrong_method (class_of (loaded_of class.now)))
        (class_of (loaded_of class.now)).methods }
{
    let methods = &class.file.methods;
    for method in 0..methods.len() {
        if is_wrong_method(class, methods.get(method), code_at(class, method)) {
            return Some(method);
        }
    }
    None
}

/// What is wrong with a class's methods.
fn method_fault(alloc: Global, class: &Loaded) -> Result<Option<Cause>, NoMemory>
    ensures { IfOk result (λ fault.
        option_map cause_of fault ≡ method_fault (class_of (loaded_of class.now))) }
{
    let Some(method) = wrong_method(class) else {
        return Ok(None);
    };
    let class = List::from_slice(alloc, name_of(class))?;
    Ok(Some(Cause::MethodKind { class, method }))
}

/// The first class with a method of a kind that isn't supported: a native method, a static abstract
/// one, a `<clinit>()V` that isn't static, or in an interface one with code, `<clinit>` aside. It
/// fails only for want of memory.
pub fn first_wrong_method(alloc: Global, classes: &[Loaded]) -> Result<Option<Cause>, NoMemory>
    ensures { IfOk result (λ fault. option_map cause_of fault
        ≡ first_of method_fault (map class_of (map loaded_of classes.now))) }
{
    for class in classes {
        if let Some(fault) = method_fault(alloc, class)? {
            return Ok(Some(fault));
        }
    }
    Ok(None)
}
