//! The frame that catches.

ghost use Rattle.std.specs.Prelude.{◌≡◌, ◌+◌, ◌<◌, ◌≤◌, IsTrue, IsSomeAnd, length, option_map};
ghost use Rattle.std.specs.List.{list_all};
ghost use Rattle.link_laws.specs.Above.{IsSound};
ghost use Rattle.class_world.specs.World.{name_at};
ghost use Rattle.thread_frames.specs.Frames.{frame_at};
ghost use Rattle.frame_stacks.specs.Threads.{IsOf};
ghost use Rattle.vm_unwind.specs.Catching.{frames_of, has_method, handler_at, frame_steps, place_of, place_in, most_steps};

use class_world::World;
use frame_stacks::Stacks;
use jv_types::{ClassNo, Pc, Steps, ThreadNo};
use std::sync::ledger::Ledger;
use vm_throw::find_handler;

/// Where a throwable is caught.
#[derive(Clone, Copy, Debug, PartialEq, Eq)]
pub struct Catching {
    /// How many frames are below the one that catches.
    pub depth: u32,
    /// The place of the handler in its code.
    pub target: Pc,
}

/// The place of the handler in the code of a frame, if it has one.
fn handler_in_frame<L: Ledger>(
    world: &World,
    stacks: &Stacks,
    t: ThreadNo,
    depth: u32,
    class: ClassNo,
    steps: &mut Steps<L>,
) -> Option<Pc>
    requires world { IsSound world.now }
    requires class { class.0 < length world.now.classes }
    requires depth { IsOf stacks.now t.0 (λ thread. depth < length thread.frames) }
    requires methods { IsTrue (list_all (has_method world.now) (frames_of stacks.now t.0)) }
    ensures found { IsSomeAnd (frame_at (frames_of stacks.now t.0) depth) (λ frame.
        handler_at world.now (name_at world.now class) frame
        ≡ option_map (λ target. target.0) result) }
    ensures steps { IsSomeAnd (frame_at (frames_of stacks.now t.0) depth) (λ frame. steps.new
        ≤ steps.old + frame_steps world.now (name_at world.now class) frame) }
{
    let frame = stacks.frame(t, depth);
    find_handler(world, frame.method, frame.pc, class, steps)
}

/// The newest frame of a thread that has a handler for throwables of a class at its place, and the
/// place of that handler. There is none exactly where no frame has one. Each class looked at above
/// that class is a step.
pub fn find_catching<L: Ledger>(
    world: &World,
    stacks: &Stacks,
    t: ThreadNo,
    class: ClassNo,
    steps: &mut Steps<L>,
) -> Option<Catching>
    requires world { IsSound world.now }
    requires class { class.0 < length world.now.classes }
    requires thread { t.0 < length stacks.now.threads }
    requires methods { IsTrue (list_all (has_method world.now) (frames_of stacks.now t.0)) }
    ensures found { option_map place_of result
        ≡ place_in world.now (name_at world.now class) (frames_of stacks.now t.0) }
    ensures steps { steps.new ≤ steps.old
        + most_steps world.now (name_at world.now class) (frames_of stacks.now t.0) }
{
    let depth = stacks.depth(t);
    for above in 0..depth {
        let depth = depth - 1 - above;
        if let Some(target) = handler_in_frame(world, stacks, t, depth, class, steps) {
            return Some(Catching { depth, target });
        }
    }
    None
}
