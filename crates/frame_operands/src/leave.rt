//! Taking operands, and going on with what is left.

ghost use Rattle.std.specs.Prelude.{◌≡◌, ◌<◌, ◌+◌, ◌++◌, List, false, length};
ghost use Rattle.jv_model.specs.Instruction.{ValueKind as Kind};
ghost use Rattle.jv_values.specs.Values.{places_of};
ghost use Rattle.thread_frames.specs.Frames.{FrameState, words_of};
ghost use Rattle.frame_stacks.specs.Threads.{IsOf, change_thread};
ghost use Rattle.machine_threads.specs.Laws.{IsNewest, goes_to};
ghost use Rattle.frame_operands.specs.Operands.{HasOne, HasTwo, HasThree, CanGoOn, CanReplaceOne, CanReplaceTwo, leaves};

use frame_stacks::Stacks;
use jv_types::{Pc, ThreadNo};
use jv_values::Value;

/// Has a thread go on at a place of its newest frame, where it's at no safe point.
pub fn go_on(stacks: &mut Stacks, t: ThreadNo, next: Pc)
    requires { IsOf stacks.old t.0 (λ thread. 0 < length thread.frames) }
    ensures { (frame : FrameState) (older : List FrameState)
        → IsNewest stacks.old t.0 frame older
        → stacks.new ≡ change_thread t.0 (goes_to next.0 frame.stack false) stacks.old }
{
    stacks.set_pc(t, next);
    stacks.set_mark(t, false);
}

/// Puts a value on top of the operands of a thread, and has it go on.
pub fn push_and_go_on(stacks: &mut Stacks, t: ThreadNo, value: Value, next: Pc)
    requires { CanGoOn stacks.old t.0 value }
    ensures { (frame : FrameState) (older : List FrameState)
        → IsNewest stacks.old t.0 frame older
        → stacks.new ≡ change_thread t.0
        (goes_to next.0 (frame.stack ++ words_of value) false) stacks.old }
{
    stacks.push_value(t, value);
    go_on(stacks, t, next);
}

/// Takes the value on top.
fn take_one(stacks: &mut Stacks, t: ThreadNo)
    requires { (kind : Kind) × HasOne stacks.old t.0 kind }
    ensures { (kind : Kind) (has : HasOne stacks.old t.0 kind)
        → stacks.new ≡ leaves t.0 has.below stacks.old }
{
    stacks.pop_value(t);
}

/// Takes the two values on top.
fn take_two(stacks: &mut Stacks, t: ThreadNo)
    requires { (lower : Kind) × (upper : Kind) × HasTwo stacks.old t.0 lower upper }
    ensures { (lower upper : Kind) (has : HasTwo stacks.old t.0 lower upper)
        → stacks.new ≡ leaves t.0 has.below stacks.old }
{
    take_one(stacks, t);
    take_one(stacks, t);
}

/// Puts a value in place of the one on top of the operands of a thread, and has it go on.
pub fn replace_one(stacks: &mut Stacks, t: ThreadNo, value: Value, next: Pc)
    requires { CanReplaceOne stacks.old t.0 value }
    ensures { (kind : Kind) (has : HasOne stacks.old t.0 kind)
        → stacks.new ≡ change_thread t.0
        (goes_to next.0 (has.below ++ words_of value) false) stacks.old }
{
    take_one(stacks, t);
    push_and_go_on(stacks, t, value, next);
}

/// Puts a value in place of the two on top of the operands of a thread, and has it go on.
pub fn replace_two(stacks: &mut Stacks, t: ThreadNo, value: Value, next: Pc)
    requires { CanReplaceTwo stacks.old t.0 value }
    ensures { (lower upper : Kind) (has : HasTwo stacks.old t.0 lower upper)
        → stacks.new ≡ change_thread t.0
        (goes_to next.0 (has.below ++ words_of value) false) stacks.old }
{
    take_two(stacks, t);
    push_and_go_on(stacks, t, value, next);
}

/// Takes the three values on top of the operands of a thread, and has it go on.
pub fn take_three(stacks: &mut Stacks, t: ThreadNo, next: Pc)
    requires { (lower : Kind) × (middle : Kind) × (upper : Kind)
        × HasThree stacks.old t.0 lower middle upper }
    ensures { (lower middle upper : Kind) (has : HasThree stacks.old t.0 lower middle upper)
        → stacks.new ≡ change_thread t.0 (goes_to next.0 has.below false) stacks.old }
{
    take_one(stacks, t);
    take_two(stacks, t);
    go_on(stacks, t, next);
}
