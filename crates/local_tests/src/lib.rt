//! Local steps at the edges of each family, against what JVMS 6.5 says of them.
//!
//! It stands on `local_steps`, whose contract says what each step makes of words; here the numbers
//! come from outside.
#![tactic(auto)]

#[cfg(test)]
mod tests;
