//! The machine, as definitions (JVMS 2, 6.5): values, heap and threads, the step of each instruction and
//! of each native method, the ends of a run, and which steps may come next.
//!
//! Read `State` first (what steps read and change), then `LocalStep`, `Deed` and `SharedStep` (what the
//! next instruction of a thread comes to), then `Machine`, `Step` and `Legal` (steps are counted, ask for
//! room and meet ends). `Conforms` says what verified code keeps.
#![tactic(auto)]
