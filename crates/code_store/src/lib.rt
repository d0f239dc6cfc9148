//! The code of a program, in one table that every thread reads.
//!
//! It stands on `jv_types` for code and on `code_model` for what its indices name. The contract above
//! it is that a `CodeMark` shows the table's code at its number, with the constant pool of its class,
//! and that this code can run: its instructions follow each other and its frame has at most 4,096
//! words. The table is named by a type, `C: Codes`, so that values whose types have the same `C`
//! speak of the same table, and equal marks show the same code in every thread. A version tells marks
//! apart that show the same code at different times of a program. There is no lock, and no call takes
//! memory.
#![tactic(auto)]

mod mark;
mod store;

pub use mark::CodeMark;
pub use store::{Code, CodeStore, Codes, StoredCode};
