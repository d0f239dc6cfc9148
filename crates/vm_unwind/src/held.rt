//! Monitors that the methods of frames hold.

ghost use Rattle.std.specs.Prelude.{◌≡◌, ◌<◌, ◌^◌, ℕ, List, IsSome, IfSome, Some, map, slice_get};
ghost use Rattle.world_model.specs.World.{Method};
ghost use Rattle.jv_types.specs.Boot.{boot_method_of};
ghost use Rattle.jv_types.specs.declared.class_data.Member.{Member as ReadMember};
ghost use Rattle.class_world.specs.World.{class_of_origin, method_at};
ghost use Rattle.thread_frames.specs.Machine.{held_in};
ghost use Rattle.vm_unwind.specs.Held.{monitor_held};

use class_world::{Origin, World};
use heap_face::Addr;
use jv_types::{BootMethod, ClassNo, Member, MethodNo};
use jv_values::Value;

/// A monitor that a synchronized method holds while it runs.
#[derive(Clone, Copy, Debug, PartialEq, Eq)]
pub enum HeldMonitor {
    /// The receiver's.
    OfObject(Addr),
    /// The class's own, where the method is static.
    OfClass(ClassNo),
}

/// Flags that are looked at (JVMS table 4.6-A).
const ACC_STATIC: u16 = 0x0008;

const ACC_SYNCHRONIZED: u16 = 0x0020;

const ACC_NATIVE: u16 = 0x0100;

const ACC_ABSTRACT: u16 = 0x0400;

/// The flags of a method of a boot class.
fn boot_flags(method: &BootMethod) -> u16
    ensures { result ≡ (boot_method_of method.now).flags }
{
    let kind = if method.is_native {
        ACC_NATIVE
    } else {
        ACC_ABSTRACT
    };
    if method.is_static {
        ACC_STATIC + kind
    } else {
        kind
    }
}

/// The flags of the method at an index of a boot class's methods.
fn boot_flags_at(methods: &[BootMethod], index: u32) -> u16
    ensures { (m : Method) → slice_get (map boot_method_of methods.now) index ≡ Some m
        → result ≡ m.flags }
{
    match methods.get(index as usize) {
        Some(method) => boot_flags(method),
        None => 0,
    }
}

/// The flags of the method at an index of the methods of a class that was read.
fn read_flags_at(methods: &[Member], index: u32) -> u16
    ensures { (m : ReadMember) → slice_get methods.now index ≡ Some m → result ≡ m.flags }
{
    match methods.get(index as usize) {
        Some(method) => method.flags,
        None => 0,
    }
}

/// The flags of the method at an index of a class's methods.
fn flags_at(origin: &Origin, index: u32) -> u16
    ensures { (names : List (List ℕ)) (m : Method)
        → slice_get (class_of_origin names origin.now).methods index ≡ Some m
        → result ≡ m.flags }
{
    match origin {
        Origin::Boot(class) => boot_flags_at(class.methods.as_slice(), index),
        Origin::Program(loaded) => read_flags_at(loaded.file.methods.as_slice(), index),
    }
}

/// The access flags of a method (JVMS table 4.6-A).
pub fn method_flags(world: &World, method: MethodNo) -> u16
    requires { IsSome (method_at world.now method) }
    ensures { IfSome (method_at world.now method) (λ found. result ≡ found.member.flags) }
{
    flags_at(&world.class(method.class).origin, method.index)
}

/// The monitor that a frame of a method holds, by the receiver that it keeps (JVMS 2.11.10). It is
/// none where the method isn't synchronized.
pub fn held_monitor(world: &World, method: MethodNo, held: Value) -> Option<HeldMonitor>
    requires method { IsSome (method_at world.now method) }
    requires address { IfSome (held_in held) (λ a. a < 2 ^ 32) }
    ensures { IfSome (method_at world.now method) (λ found.
        result ≡ monitor_held found.member method held) }
{
    if method_flags(world, method) & ACC_SYNCHRONIZED == 0 {
        return None;
    }
    match held {
        Value::Ref(a) => Some(HeldMonitor::OfObject(Addr(a as u32))),
        _ => Some(HeldMonitor::OfClass(method.class)),
    }
}
