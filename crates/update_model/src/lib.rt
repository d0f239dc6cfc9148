//! Updates of a running program, as definitions: what a bundle changes or why it is refused, and what an
//! attempt leaves behind.
//!
//! Read `Joining`, `Plan` and `FirstAttempt` first (what an update is to change), then `Attempt` with
//! `Restricted`, `Draft` and `Statics` (how it is installed), then `Transform` with `Verdict` (what
//! transformers may do). The bundle itself stands in machine_model's `Machine`.
#![tactic(auto)]
