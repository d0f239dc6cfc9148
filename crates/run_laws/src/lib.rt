//! Laws of runs, of the definitions alone: entries and their parts, what steps count and what they keep,
//! journals and the order in which threads take turns, and reach order.
//!
//! Each law is the contract of a function that does nothing, and `specs/Laws` says it. The lemmas
//! behind them are for the crates above: `proofs/Runs` and `Joins` for entries, `Loops` for code that
//! makes an entry step by step, `Journals` and `OneJournal` for journals, `StepKeeps` for what a step
//! keeps, `ReachOrders` and `Worklists` for reach order and for a loop that finds it.
#![tactic(auto)]

mod entries;
mod journal;
mod reach;

pub use entries::{
    run_counts, run_front, run_is_parts, run_keeps, runs_are_one, step_counts, step_keeps,
};
pub use journal::{
    journal_front, journals_are_one, one_in_turns, turns_are_legal, turns_front, written_as_one,
};
pub use reach::{reach_order_lists, reachable_lists};
