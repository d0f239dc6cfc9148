//! The marks of the code of the methods of classes.
//!
//! It stands on `class_world` for the classes and on `code_store` for the marks. The contract above
//! it is that of `CodeMarks`: a mark has the number of its code among those of all classes of a
//! world, so that it shows the method's own code in a table of them (`specs/Marks.antt`). To find a
//! mark takes constant time.
#![tactic(auto)]

mod class_codes;
mod marks;

pub use marks::CodeMarks;
