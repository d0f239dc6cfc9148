//! Instructions that read and write fields (JVMS 6.5: getstatic, putstatic, getfield, putfield), as
//! steps of a machine.
//!
//! It stands on `machine_parts` for what the parts of a machine stand for, on `look_up_cache` for what
//! a field's name leads to, and on `object_fields` for the fields of objects in a heap. The contract
//! above it is that of each step (`Makes` in `machine_parts`): from whichever state of the definitions
//! the parts are in, they are after it in the one that the instruction leads to there. Where the
//! reference to an object is null, getfield and putfield leave all as it was and say so (`FindsNull`).
//! What is resolved costs no look-up again, and no step takes memory.
#![tactic(auto)]

mod objects;
mod statics;
mod threads;

pub use objects::{FieldStep, get_field, put_field};
pub use statics::{get_static, put_static};
