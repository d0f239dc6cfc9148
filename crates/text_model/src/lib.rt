//! The texts that a user writes and reads, as definitions: the words of refusals and of statuses, and
//! the journal.
//!
//! Read `StatusText` and `CauseWords` first, which are tables, then `JournalText`; `Words`, `Numerals`
//! and `LineFaults` are what lines of any text are read by.
#![tactic(auto)]
