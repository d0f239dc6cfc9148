//! The newest frame of a thread.

ghost use Rattle.std.specs.Prelude.{◌≡◌, ◌<◌, IsSomeAnd, Some, false, length, slice_get};
ghost use Rattle.thread_frames.specs.Frames.{change_newest, newest, with_pc};
ghost use Rattle.frame_stacks.specs.Threads.{IsOf, change_thread, with_frames, with_mark};
ghost use Rattle.field_steps.specs.Fields.{method_in};
ghost use Rattle.field_steps.specs.Receivers.{HasReference, operand_at, reference_to, words_under};

use frame_stacks::Stacks;
use heap_face::Addr;
use jv_types::{MethodNo, Pc, ThreadNo};
use jv_values::Value;

/// The method that a thread runs.
pub fn newest_method(stacks: &Stacks, t: ThreadNo) -> MethodNo
    requires { IsOf stacks.now t.0 (λ thread. 0 < length thread.frames) }
    ensures { method_in (slice_get stacks.now.threads t.0) ≡ Some result }
{
    stacks.frame(t, stacks.depth(t) - 1).method
}

/// Has a thread go on at a place of its newest frame, where it's at no safe point.
pub fn go_on(stacks: &mut Stacks, t: ThreadNo, next: Pc)
    requires { IsOf stacks.old t.0 (λ thread. 0 < length thread.frames) }
    ensures { stacks.new ≡ change_thread t.0 (λ thread. with_mark false
        (with_frames (change_newest (with_pc next.0)) thread)) stacks.old }
{
    stacks.set_pc(t, next);
    stacks.set_mark(t, false);
}

/// How many words the value on top of the operands of a thread's newest frame takes.
pub fn words_on_top(stacks: &Stacks, t: ThreadNo) -> usize
    requires { IsOf stacks.now t.0 (λ thread. IsSomeAnd (newest thread.frames) (λ frame.
        0 < length frame.stack)) }
    ensures { IsOf stacks.now t.0 (λ thread. IsSomeAnd (newest thread.frames) (λ frame.
        IsSomeAnd (operand_at frame 0) (λ word. result ≡ words_under word))) }
{
    let operands = stacks.frame(t, stacks.depth(t) - 1).stack;
    match operands[operands.len() - 1] {
        Value::Half => 2,
        _ => 1,
    }
}

/// The object to which the operand of a thread's newest frame refers that has so many words above
/// it, or none where that is null.
pub fn object_below(stacks: &Stacks, t: ThreadNo, above: usize) -> Option<Addr>
    requires { IsOf stacks.now t.0 (λ thread. IsSomeAnd (newest thread.frames)
        (HasReference above)) }
    ensures { IsOf stacks.now t.0 (λ thread. IsSomeAnd (newest thread.frames) (λ frame.
        operand_at frame above ≡ Some (reference_to result))) }
{
    let operands = stacks.frame(t, stacks.depth(t) - 1).stack;
    match operands[operands.len() - 1 - above] {
        Value::Ref(address) => Some(Addr(address as u32)),
        _ => None,
    }
}
