//! The law of names.

ghost use Rattle.member_names.specs.Laws.{MethodsAreNamed};

/// The method of a number is the one that its class declares by its name and descriptor.
pub fn methods_are_named()
    ensures { MethodsAreNamed }
{}
