//! What a constant pool holds while it is filled.

use crate::entry::Entry;
use indexmap::IndexSet;
use jv_types::List;

/// The entries of a constant pool, in the order of their first need, with their indices.
#[derive(Drop)]
pub struct Pool<'a> {
    pub entries: IndexSet<Entry<'a>>,
    /// The index of each.
    pub indices: List<u32>,
    /// The index of the next one.
    pub next: u32,
}
