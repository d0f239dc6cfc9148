//! What every other crate of definitions and of code speaks of: refusals, limits, texts, class files,
//! instructions and code, ends and statuses, and what lies outside a program. It has no function:
//! reading it is a part of what trusting this repository takes.
//!
//! A way through it: `ClassData` (what a class file says), `ConstantPool` (tags, and what an index
//! names) and `Profile` (which class data are a class file's, and which bytes spell it); then
//! `ClassReading` (the same from the bytes' front, with the first refusal and its place); then
//! `Instruction` and `Code`. The rest is looked up where it's used: `Refusal` and `Limits`, `Lines`
//! and `Utf16`, `Status` and `Outside`.
#![tactic(auto)]
