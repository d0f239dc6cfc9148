//! Which state of the definitions the parts of a running machine stand for.
//!
//! It stands on `heap_objects` for the objects of a heap, on `machine_threads` for threads, on
//! `machine_shared` for static fields, monitors of classes and interned strings, on `class_versions`
//! for the tables that keep these, and on `look_up_cache` for what is resolved. `Parts` is what a
//! machine has. The contract above it is `specs/Parts.antt`: `HasParts` says that each part is a field
//! of a state, where each object has its serial for its id, and `StandsFor` what holds beside that
//! between two steps. `specs/Rooms.antt` says for what there is room, and in which order objects are
//! reached; `specs/Moves.antt` what a collection may change.
#![tactic(auto)]

mod parts;

pub use parts::Parts;
