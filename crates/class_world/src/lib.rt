//! Linked worlds (JVMS 5.3, 5.4): the classes of a program by number, and the look-up of classes,
//! fields and methods.
//!
//! It stands on `jv_types`, `class_names`, `class_graph` and the laws of linking. The contract
//! above it is that `World::of` makes the definitions' world of classes that aren't above
//! themselves, unless memory runs out, that a copy of a `World` is equal to it, and that a
//! `World`'s look-ups are the definitions', each with at most as many steps as the class has
//! supertypes, itself included. `supertypes`, `is_cyclic` and `field_order` say of a list of
//! classes what is above each of them: whether a class is above itself, and in which order its
//! fields are looked for. `member_signatures` says whether members stand twice.
#![tactic(auto)]

mod class_info;
mod hierarchy;
mod member_table;
mod orders;
mod pool;
mod search;
mod signatures;
mod world;

pub use class_info::{ClassInfo, FieldPlace, Origin};
pub use hierarchy::{field_order, is_cyclic, supertypes};
pub use pool::class_name_at;
pub use signatures::member_signatures;
pub use world::World;
