//! The layouts of classes (JVMS 2.4): which fields an object of a class has, in which order, and what
//! each holds.
//!
//! It stands on `world_tables` for what the classes of a world declare and what is above them, and on
//! `heap_face` for what a collection asks of layouts. The contract above it is that of
//! `ClassLayouts::open`: the fields of a class are those of the definitions' layout, the superclass's
//! first, each by the number of the class that declares it and its index there, and its cells say
//! what these fields hold.
#![tactic(auto)]

mod layouts;

pub use layouts::ClassLayouts;
