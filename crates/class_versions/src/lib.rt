//! The classes of the current world as they are while a program runs (JVMS 2.5): the layouts of
//! their objects, the slots of their methods, which method a call selects, the marks of their code,
//! the values of their static fields, their lock words, and the strings that were interned.
//!
//! It stands on the crates that keep one of these each. The contract above it is that of `Versions`:
//! `open` gives the tables of a world (`AreVersions` in `specs/Versions.antt`) as a program starts,
//! each reader gives what they have, and each change keeps them the tables of that world. Each call
//! but `open` takes constant time and no memory; `open` takes time linear in the classes with what
//! they inherit.
#![tactic(auto)]

mod parts;
mod slots;
mod versions;

pub use versions::Versions;
