//! Linking, as definitions (JVMS 5.4): the world of a program's classes, or the first refusal; and the
//! same for one class more behind a world.
//!
//! Read `Link` first, which has the tests in their order, then what they ask: `ClassFaults`,
//! `DescriptorFaults`, `SupertypeFaults` and `UseFaults`. `WorldOf` makes a world of the classes that
//! were read, and `Uses` says as what a class uses which entries of its constant pool.
#![tactic(auto)]
