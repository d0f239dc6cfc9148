//! Journals of the machine, as definitions: which entries are legal, the machine that they lead to, and
//! the order in which `run` lets threads go.
//!
//! Read `Journal` first, then `RoundRobin`.
#![tactic(auto)]
