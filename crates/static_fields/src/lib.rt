//! The static fields of the classes of a world, with their values (JVMS 2.5.4, 5.5).
//!
//! It stands on `world_tables` for what the classes declare, on `member_numbers` for the places of
//! the values, and on `jv_values` for these. The contract above it is that of `StaticFields`: at
//! first each field has its ConstantValue, or else zero, and then the last value that was put there.
//! Each call but `open` takes constant time and no memory.
#![tactic(auto)]

mod statics;

pub use statics::StaticFields;
