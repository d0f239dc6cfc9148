//! The fields of objects in a heap (JVMS 2.4), read and written by their places.
//!
//! It stands on `heap_objects` for the objects of the definitions that a heap has, and on `heap_face`
//! for the words in which it keeps them. The contract above it is that of `read_field` and
//! `write_field`: whichever objects of the definitions a heap has, a field is read as the value that
//! its object has there, and after a write the heap has the same objects but for the value of that
//! one field, and each address names the object that it named. Each takes constant time and no memory.
#![tactic(auto)]

mod fields;

pub use fields::{read_field, write_field};
