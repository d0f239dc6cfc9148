//! The parts of a machine.

use class_versions::Versions;
use class_world::World;
use frame_stacks::Stacks;
use heap_face::{Addr, ObjectHeap, Roots};
use jv_types::Bytes;
use look_up_cache::Cache;

/// The parts of a running machine: all that its steps read and change. `machine_of` in
/// `specs/Parts.antt` is what contracts see of them.
#[derive(Drop)]
pub struct Parts<H: ObjectHeap> {
    pub heap: H,
    /// The frames of all threads.
    pub stacks: Stacks,
    /// The static fields, lock words and literals of the world's classes.
    pub versions: Versions,
    /// What was looked up.
    pub caches: Cache,
    pub world: World,
    /// The bytes that were printed, with room for all that may be.
    pub output: Bytes,
    /// How often an update was requested.
    pub requests: u32,
    /// Where the array lies that main was called with.
    pub args: Addr,
    /// Room for all from where objects are reached.
    pub roots: Roots,
}
