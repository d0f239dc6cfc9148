//! What is told of a manifest, and how its blocks are cut.

ghost use Rattle.manifest_laws.specs.Laws.{BlocksAreCut, BlocksAreShorter, FirstFaultIsTold};

/// The fault that is told is one of the first faulty line, and of the least rank there.
pub fn first_fault_is_told()
    ensures { FirstFaultIsTold }
{}

/// A block is the lines before the first that ends it.
pub fn blocks_are_cut()
    ensures { BlocksAreCut }
{}

/// A block is no longer than the whole text, so what bounds the one bounds the other.
pub fn blocks_are_shorter()
    ensures { BlocksAreShorter }
{}
