//! From a manifest's text to what it says: the main class, and the items in order.
//!
//! It stands on `manifest_model`, whose definitions say what a manifest says or which of its lines
//! is told as faulty, on `manifest_laws` for the laws of these, on `asm_lines` for words and
//! numbers, on `asm_parts` for faults of lines, and on `jv_types` for lists, lines and refusals.
//! The contract above it is that of `read_manifest`: exactly the definitions' manifest, or exactly
//! their first fault, or want of memory, and what is wrong with the first line however little
//! memory there is. What a manifest says lends its names, and the texts of its blocks, from the
//! text.
//!
//! The text of an update has blocks and class lines too: `cut_block` finds the line that ends a
//! block, and `read_class_line` and `read_asm_line` read the lines that name a class.
#![tactic(auto)]

pub mod block;
pub mod class_line;
pub mod error;
pub mod item;
pub mod line;
pub mod manifest;
mod seen;
mod statement;
mod step;
#[cfg(test)]
mod tests;
mod text;

pub use error::ManifestError;
pub use item::{ClassItem, ItemForm, ManifestItem, UpdateItem, When};
pub use manifest::{Manifest, read_manifest};
