//! What the entries of constant pools lead to in a world (JVMS 5.1, 5.4.3), looked up at most once.
//!
//! It stands on `class_world` for look-up by name, and on `class_versions` for the layouts of objects
//! and the numbers of methods and literals. The contract above it is that of `Cache::resolve`: for an
//! entry of the pool of a class it gives what stands for what the definitions find by name
//! (`IsSlotAt`), makes at most as many steps as the named class has supertypes, and none where it was
//! made before. A cache has one place for each entry of each class, which all code of the class
//! shares. What a cache keeps is true of its world (`IsTrueOf`), which `open` begins and `resolve`
//! keeps; `words_stay` says that a field has one place in the objects of all classes that have it.
//! `Cache::open` takes all memory.
#![tactic(auto)]

mod by_name;
mod cache;
mod laws;
mod slot;
mod slots;
mod words;

pub use cache::{Cache, leads};
pub use laws::words_stay;
pub use slot::Slot;
