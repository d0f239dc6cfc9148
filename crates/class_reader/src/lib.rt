//! The reader of class files (JVMS 4).
//!
//! It stands on `jv_model`, whose definitions say what the bytes of a file spell, on `class_laws`
//! for what follows from them, on `jv_types` for class data and the bytes that are read from the
//! front, and on `byteorder` for numbers of several bytes. The contract above it is that of
//! `read_class`, which gives what the bytes of any class file say: what it reads is spelled so,
//! what is spelled so in at most 1,048,576 bytes it reads, and its error is the first refusal from
//! the front, which `class_refusal` names. Only want of memory may come instead, and that not
//! before the count of the constant pool is read.
//!
//! ```
//! match read_class(rt.alloc(), b"no class file") {
//!     Ok(file) => assert!(rt; file.major == 52),
//!     Err(error) => assert_eq!(rt; error, ClassError::Magic),
//! }
//! ```
#![tactic(auto)]

mod attribute;
mod class_file;
mod constant;
mod constant_pool;
mod error;
mod member;
mod modified_utf8;

pub use class_file::read_class;
pub use error::ClassError;

#[cfg(test)]
mod tests;
