//! Where objects lie.

use jv_types::List;

/// Where an object lies, until the next collection. What the number says is the heap's own affair,
/// but for 0, at which no object lies. A word that is a reference holds this number, or 0 where it
/// is null.
#[derive(Clone, Copy, Debug, PartialEq, Eq)]
pub struct Addr(pub u32);

/// The addresses from which objects are reached, in order. An address may stand there twice.
#[derive(Debug, Drop)]
pub struct Roots {
    pub addrs: List<Addr>,
}
