//! Monitors (JVMS 2.11.10): which thread owns one, and how often it entered it.
//!
//! It stands on `heap_face` for lock words of objects, and on `machine_model` and `jv_types`. A lock
//! word is a monitor of the definitions (`specs/Words.antt`), and 0 is a free one. The contract above
//! it is that entering and leaving do with the monitor of a word or of an object just what the
//! definitions do, and are refused exactly where another thread owns it, and where the thread itself
//! doesn't; of a heap nothing but that word changes. A monitor that is left as often as it was entered
//! has the word that it had. Nothing takes memory, and each call takes constant time.
#![tactic(auto)]

mod monitor;
mod object;
mod word;

pub use object::{enter, leave, other_owns, owns};
pub use word::{
    enter_word, leave_word, leaving_undoes_entering, other_owns_word, owns_word, words_are_monitors,
};

#[cfg(test)]
mod tests;
