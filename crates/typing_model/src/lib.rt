//! What 'well typed' means, as definitions (JVMS 4.10.1): the verifier's types, and the rules that each
//! method of a linked world is held to.
//!
//! Read `WellTyped` first, which says it as a relation, with `Rules`; then `InstructionTypes`, a row for
//! each instruction, over `VerificationType`, `Assignable` and `Transition`. `FailingPlace` is the first
//! rule that is broken, found in one pass.
#![tactic(auto)]
