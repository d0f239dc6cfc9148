//! What is wrong with classes by themselves when a program is linked (JVMS 4.1, 4.3, 4.6): their
//! names, the descriptors and array types that they use, and the kinds of their methods.
//!
//! It stands on `class_world` for texts, on `descriptor_types` for what descriptors spell, and on
//! `link_model`, whose definitions say what is wrong. The contract above it is that of three passes
//! over the classes in order: `first_reserved`, `first_wrong_descriptor` and `first_wrong_method`
//! each give the first fault of their kind. `list_uses` lists the entries of its constant pool that
//! a class uses, and as what; the types that frames share stand there once. Only want of memory may
//! come instead.
#![tactic(auto)]

mod descriptors;
mod flags;
mod methods;
mod names;
mod reserved;
mod uses;

pub use descriptors::{first_wrong_descriptor, lesser};
pub use flags::{
    ACC_ABSTRACT, ACC_FINAL, ACC_INTERFACE, ACC_NATIVE, ACC_PRIVATE, ACC_STATIC, has_flag,
};
pub use methods::first_wrong_method;
pub use names::name_of;
pub use reserved::first_reserved;
pub use uses::{Use, Used, list_uses};

#[cfg(test)]
mod tests;
