//! Methods with code, as the rules look at them.

use crate::frame_numbers::FrameNumbers;
use class_world::World;
use instruction_types::Environment;
use map_frames::MethodCode;

/// A method with code, its world, and what the rules ask of both.
#[derive(Clone, Copy)]
pub struct Method<'a> {
    pub world: &'a World,
    /// What the typing of its instructions looks at.
    pub here: &'a Environment,
    pub code: &'a MethodCode<'a>,
    /// Where the frames of its stack map stand.
    pub numbers: &'a FrameNumbers,
    /// Whether the parameters find their places in the frame that it begins with.
    pub has_room: bool,
}
