//! Monitors of objects.

ghost use Rattle.std.specs.Prelude.{◌≡◌, ◌<◌, not, IsSome};
ghost use Rattle.jv_model.specs.Limits.{most_threads};
ghost use Rattle.machine_model.specs.Heap.{is_owned_by, is_owned_by_other};
ghost use Rattle.heap_face.specs.Heap.{object_of};
ghost use Rattle.vm_monitors.specs.Words.{count_of, most_entries};
ghost use Rattle.vm_monitors.specs.Locks.{monitor_at, entered_at, left_at};

use crate::word::{enter_word, leave_word, other_owns_word, owns_word};
use heap_face::{Addr, ObjectHeap};
use jv_types::ThreadNo;

/// Whether a thread owns the monitor of the object at a live address.
pub fn owns<H: ObjectHeap>(objects: &H, a: Addr, thread: ThreadNo) -> bool
    requires { IsSome (object_of (H.heap objects.now) a) }
    ensures { result ≡ is_owned_by thread.0 (monitor_at (H.heap objects.now) a) }
{
    owns_word(objects.lock(a), thread)
}

/// Whether a thread would have to wait for the monitor of the object at a live address, since
/// another one owns it. The thread need not have started yet.
pub fn other_owns<H: ObjectHeap>(objects: &H, a: Addr, thread: ThreadNo) -> bool
    requires { IsSome (object_of (H.heap objects.now) a) }
    ensures { result ≡ is_owned_by_other thread.0 (monitor_at (H.heap objects.now) a) }
{
    other_owns_word(objects.lock(a), thread)
}

/// Has a thread enter the monitor of the object at a live address, and changes nothing else. It's
/// false exactly where another thread owns it, and then nothing changes.
pub fn enter<H: ObjectHeap>(objects: &mut H, a: Addr, thread: ThreadNo) -> bool
    requires live { IsSome (object_of (H.heap objects.old) a) }
    requires thread { thread.0 < most_threads }
    requires count { count_of (monitor_at (H.heap objects.old) a) < most_entries }
    ensures entered { result
        ≡ not (is_owned_by_other thread.0 (monitor_at (H.heap objects.old) a)) }
    ensures heap { H.heap objects.new ≡ entered_at thread.0 a (H.heap objects.old) }
{
    match enter_word(objects.lock(a), thread) {
        Some(word) => {
            objects.set_lock(a, word);
            true
        }
        None => false,
    }
}

/// Has a thread leave the monitor of the object at a live address, and changes nothing else. It's
/// false exactly where the thread doesn't own it, and then nothing changes.
pub fn leave<H: ObjectHeap>(objects: &mut H, a: Addr, thread: ThreadNo) -> bool
    requires live { IsSome (object_of (H.heap objects.old) a) }
    ensures left { result ≡ is_owned_by thread.0 (monitor_at (H.heap objects.old) a) }
    ensures heap { H.heap objects.new ≡ left_at thread.0 a (H.heap objects.old) }
{
    match leave_word(objects.lock(a), thread) {
        Some(word) => {
            objects.set_lock(a, word);
            true
        }
        None => false,
    }
}
