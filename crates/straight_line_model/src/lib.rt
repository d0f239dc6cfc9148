//! Programs of one class whose main is a straight line, as definitions: their instructions, and the
//! machine that runs them. They go once the machine of the whole profile is under `run`.
//!
//! Read `Instruction`, `Effect` and `Machine` first, which say what a run is; `StraightLine` says which
//! code is one.
#![tactic(auto)]
