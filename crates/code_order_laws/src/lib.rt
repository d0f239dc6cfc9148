//! Laws of the order of instructions, of the definitions alone: the instructions of a method stand
//! one behind another from the first byte of its code on, and its frame has no more words than a
//! frame may have. So whatever is read of a class file can be put into a table of codes that run.
//!
//! Each law is the contract of a function that does nothing, and `specs/Laws` says it. They stand on
//! `code_model` for what spells code, on `code_laws` for what is read of it, and on `code_store`,
//! which says what code that can run is.
#![tactic(auto)]

ghost use Rattle.code_order_laws.specs.Laws.{SpelledCodeRuns, ReadCodeRuns, LoadedCodesRun};

/// The code that the bytes of a Code attribute spell can run.
pub fn spelled_code_runs()
    ensures { SpelledCodeRuns }
{}

/// The code that is read of a method can run.
pub fn read_code_runs()
    ensures { ReadCodeRuns }
{}

/// The code of each method of a class that is loaded can run.
pub fn loaded_codes_run()
    ensures { LoadedCodesRun }
{}
