//! What is asked of a world.

ghost use Rattle.class_dispatch.specs.Linked.{LinkedWorldsAreApart};

/// In a linked world no two classes have one name, and no class has a member twice, as
/// `ClassDispatch::open` asks.
pub fn linked_worlds_are_apart()
    ensures { LinkedWorldsAreApart }
{}
