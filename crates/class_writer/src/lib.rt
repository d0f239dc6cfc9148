//! The writer of class files (JVMS 4): class data as the bytes of a class file.
//!
//! It stands on `jv_model`, whose definitions say what the bytes of class data are and which list
//! is the first that is too long for its count, on `jv_types` for the data, and on `byteorder` for
//! numbers of several bytes. The contract above it is that of `write_class`: the bytes are the one
//! spelling of the data, and the error comes exactly where a list is too long, and names the first
//! in writing order. Only want of memory may come instead, and not where the pool is too long.
//!
//! ```
//! let mut file = empty_class(rt.alloc());
//! file.interfaces.push(0x0102)?;
//! let bytes = write_class(rt.alloc(), &file)?;
//! assert_eq!(rt; bytes.len(), 26);
//! ```
#![tactic(auto)]

mod attribute;
mod class_file;
mod constant;
mod error;
mod interface;
mod member;
mod output;
mod table;
mod text;

pub use class_file::write_class;
pub use error::WriteClassError;

#[cfg(test)]
mod tests;
