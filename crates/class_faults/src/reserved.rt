//! Names that are kept for boot classes and stubs.

ghost use Rattle.std.specs.Prelude.{◌≡◌, IfOk, map, option_map};
ghost use Rattle.std.specs.Bool.{nat_eq};
ghost use Rattle.std.specs.List.{starts_with};
ghost use Rattle.jv_model.specs.Partial.{first_of};
ghost use Rattle.world_model.specs.BootNames.{is_reserved};
ghost use Rattle.link_model.specs.WorldOf.{class_of};
ghost use Rattle.link_model.specs.ClassFaults.{reserved_fault};
ghost use Rattle.jv_types.specs.Loaded.{loaded_of};
ghost use Rattle.jv_types.specs.Refusal.{cause_of};

use crate::names::name_of;
use jv_types::{Cause, List, Loaded, NoMemory};
use std::alloc::Global;

/// Whether a name begins with a text in ASCII.
fn begins_with(name: &[u16], front: &[u8]) -> bool
    ensures { result ≡ starts_with nat_eq name.now front.now }
{
    name.len() >= front.len()
        && front
            .iter()
            .zip(name)
            .all(|(byte, unit)| u16::from(*byte) == *unit)
}

/// Whether a name is one of an array type, of a boot class or of a stub.
fn is_reserved(name: &[u16]) -> bool
    ensures { result ≡ is_reserved name.now }
{
    begins_with(name, b"[")
        || begins_with(name, b"java/")
        || begins_with(name, b"jvolve/")
        || begins_with(name, b"jvold/")
}

/// What is wrong with a class's name.
fn reserved_fault(alloc: Global, class: &Loaded) -> Result<Option<Cause>, NoMemory>
    ensures { IfOk result (λ fault.
        option_map cause_of fault ≡ reserved_fault (class_of (loaded_of class.now))) }
{
    let name = name_of(class);
    if !is_reserved(name) {
        return Ok(None);
    }
    let class = List::from_slice(alloc, name)?;
    Ok(Some(Cause::Reserved { class }))
}

/// The first class with a name that is kept for the machine's own: one that begins with `java/`,
/// `jvolve/`, `jvold/` or a bracket. It fails only for want of memory.
pub fn first_reserved(alloc: Global, classes: &[Loaded]) -> Result<Option<Cause>, NoMemory>
    ensures { IfOk result (λ fault. option_map cause_of fault
        ≡ first_of reserved_fault (map class_of (map loaded_of classes.now))) }
{
    for class in classes {
        if let Some(fault) = reserved_fault(alloc, class)? {
            return Ok(Some(fault));
        }
    }
    Ok(None)
}
