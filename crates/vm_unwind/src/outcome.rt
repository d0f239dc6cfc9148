//! What a throw comes to: a frame goes on, or the thread has ended.

ghost use Rattle.std.specs.Prelude.{◌≡◌, ◌<◌, IsSomeAnd, length};
ghost use Rattle.thread_frames.specs.Frames.{newest, change_newest};
ghost use Rattle.frame_stacks.specs.Threads.{IsOf, change_thread, with_frames};
ghost use Rattle.vm_unwind.specs.Outcome.{with_caught, ended_by, CaughtAsDefined};

use frame_stacks::Stacks;
use heap_face::Addr;
use jv_types::{ClassNo, Pc, ThreadNo};
use jv_values::Value;

/// A frame that goes on at a handler is the one that the definitions go on with.
pub fn caught_as_defined()
    ensures { CaughtAsDefined }
{}

/// Has the newest frame of a thread go on at a handler, with a reference to the throwable alone on
/// its operands (`athrow`, JVMS 6.5).
pub fn catch_in_newest(stacks: &mut Stacks, t: ThreadNo, target: Pc, thrown: Addr)
    requires { IsOf stacks.old t.0 (λ thread. IsSomeAnd (newest thread.frames) (λ frame.
        0 < frame.max_stack)) }
    ensures { stacks.new ≡ change_thread t.0
        (with_frames (change_newest (with_caught target.0 thrown.0))) stacks.old }
{
    stacks.set_pc(t, target);
    stacks.clear_stack(t);
    stacks.push_value(t, Value::Ref(u64::from(thrown.0)));
}

/// Ends a thread with its newest frame, which is to be its last one, by a throwable of a class. It
/// starts no further method.
pub fn end_by_throwable(stacks: &mut Stacks, t: ThreadNo, class: ClassNo)
    requires { IsOf stacks.old t.0 (λ thread. 0 < length thread.frames) }
    ensures { stacks.new ≡ change_thread t.0 (ended_by class) stacks.old }
{
    stacks.pop_frame(t);
    stacks.set_starts(t, &[]);
    stacks.finish(t, Some(class));
}
