//! Worlds of classes by their names, as definitions (JVMS 4.1, 5.3, 5.4.3): what a class declares, the
//! types above it, which member a reference leads to, which method a call selects, and the fields of
//! an object. The boot classes are a table.
//!
//! Read `World` first, then `Supertypes`, which has the orders in which members are looked for, and
//! `LookUp`, which finds the first type in such an order that declares one; then `Resolution`,
//! `Selection` and `Layout`. `BootTable` is looked up.
#![tactic(auto)]
