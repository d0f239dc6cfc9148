//! Laws of linking, of the definitions alone: what a linked world keeps, which refusal is the first,
//! what is above a class, and which member a look-up finds.
//!
//! Each law is the contract of a function that does nothing, and `specs/Laws` says it. The words stand
//! in `specs/Above`, `FirstFound`, `FirstFault` and `Linked`. The lemmas behind them are for the crates
//! above: `proofs/Orders` and `Fuel` for the orders, `LookUps` and `Agreeing` for look-up, `Cycles` for
//! cycles, `Passes` and `Links` for the tests in their order, `Programs` and `UsedMembers` for what a
//! program's classes use, `Behind` for one class more.
#![tactic(auto)]

mod linking;
mod look_up;

pub use linking::{behind_is_sound, behind_keeps, first_fault_is_told, what_links_is_linked};
pub use look_up::{
    cycle_is_found, field_is_first, method_is_first, orders_are_distinct, subtype_is_closure,
};
