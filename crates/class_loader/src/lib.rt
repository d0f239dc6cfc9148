//! The loader: from a manifest's items and a source of files to classes with their code.
//!
//! It stands on `load_model`, whose definitions say what items bring or which refusal ends loading,
//! on `linked_laws`, which says what linking wants of classes, on `manifest_laws` for how long
//! blocks may be, on `jv_outer` for files, on `manifest_reader` for items, on `class_reader` and
//! `class_asm` for the class data of files and of lines, on `code_reader` for code, and on
//! `jv_types` for classes and refusals. The contract above it is that of `load_items`: the classes
//! of the items in order, or the first refusal with its item and its cause, a failed read, or want
//! of memory; and in each case which files were asked for, in order. Whatever files hold, the
//! classes are of the profile, and have the code that their files have, where no block is longer
//! than a file may be. `read_file` reads one file with a limit, and `read_lines` assembles a text,
//! in the same terms.
//!
//! What a loader answers is said once, by `IsLoaded`: `proofs/Loaders.antt` has the laws of a
//! loader that goes on behind another, for the crates above too.
#![tactic(auto)]

mod cause;
mod class;
mod file;
mod items;
mod name;
mod stop;

pub use class::read_lines;
pub use file::read_file;
pub use items::load_items;
pub use stop::Stop;
