//! The frames of instructions, where they are wanted.

ghost use Rattle.std.specs.Prelude.{◌≡◌, ◌++◌, ◌∷◌, [], option_map, OnOk, Some, None};

use jv_types::{List, NoMemory};
use std::alloc::Global;
use std::marker::Model;
use type_rules::TypeFrame;

/// The frames of the instructions that a pass came to, or none where they aren't wanted.
#[derive(Drop)]
pub struct Kept {
    frames: Option<List<TypeFrame>>,
}

impl Model for Kept {
    ghost use Rattle.std.specs.Prelude.{List, Option, option_map};
    ghost use Rattle.type_rules.specs.Frames.{Types};

    ghost Value = { Option (List Types) };

    ghost view = { λ it. option_map (λ frames. frames.items) it.frames };
}

impl Kept {
    /// No frame is wanted.
    pub fn nothing() -> Kept
        ensures { result ≡ None }
    {
        Kept { frames: None }
    }

    /// Each frame is.
    pub fn frames(alloc: Global) -> Kept
        ensures { result ≡ Some [] }
    {
        Kept {
            frames: Some(List::new(alloc)),
        }
    }

    /// Keeps a copy of a frame, where it is wanted, unless there is no memory for it.
    pub fn keep(&mut self, alloc: Global, frame: &TypeFrame) -> Result<(), NoMemory>
        ensures { OnOk result (self.new
            ≡ option_map (λ frames. frames ++ frame.now ∷ []) self.old) }
    {
        match &mut self.frames {
            Some(frames) => frames.push(frame.copy(alloc)?),
            None => Ok(()),
        }
    }

    /// The frames that were kept.
    pub fn into_frames(self, alloc: Global) -> List<TypeFrame>
        ensures { (frames : _) → self ≡ Some frames → result.items ≡ frames }
    {
        match self.frames {
            Some(frames) => frames,
            None => List::new(alloc),
        }
    }
}
