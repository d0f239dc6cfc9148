//! The texts of a run: the line that tells its status, and its journal, written and read.
//!
//! It stands on `text_model`, whose definitions say what the texts are, on `jv_types` for entries,
//! refusals and statuses, and on `itoa` for numbers. The contract above it is that each text is
//! exactly the definition's, and that a journal's text is read exactly as it says.
#![tactic(auto)]

mod cause_text;
mod journal_reader;
mod journal_writer;
mod numeral;
mod printed;
mod status_text;
mod words;

pub use journal_reader::{JournalRead, read_journal};
pub use journal_writer::journal_text;
pub use printed::printed_units;
pub use status_text::{exit_status, status_line};

#[cfg(test)]
mod tests;
