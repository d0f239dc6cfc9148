//! What a call of the program promises, as definitions: from its words and files to the bytes, the
//! status and the journal that it leaves.
//!
//! Read `Headline` first, which is the promise, with `Call` (the data of a call), `Works` (what may
//! come of a command's work) and `Delivery` (what sinks got). Then `Invocation` (the words),
//! `LoadWork` and `LoadProgram` (the files, in the terms of `load_model`), `Journal` and
//! `RoundRobin` (the runs). `Later` is the one place that knows what this version refuses because
//! it isn't built yet.
#![tactic(auto)]
