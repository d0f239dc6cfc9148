//! The laws of worlds (JVMS 4.10.1).

ghost use Rattle.verifier_laws.specs.Laws.{NoFailureIsTyped, FirstFailureIsTold};

/// A world has no failure exactly where each of its methods is well typed.
pub fn no_failure_is_typed()
    ensures { NoFailureIsTyped }
{}

/// What a world's failure tells is the first method that isn't well typed, and where that one fails
/// first.
pub fn first_failure_is_told()
    ensures { FirstFailureIsTold }
{}
