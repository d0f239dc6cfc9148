//! The laws of typing (JVMS 4.10.1).

ghost use Rattle.typing_laws.specs.Laws.{NoPlaceIsTyped, PlaceIsFirst, OneTyping, FrameAtIsTyped};
ghost use Rattle.typing_laws.specs.Laws.{TypedApplies, TypedGoesOn};

/// A method with code has no failing place exactly where it is well typed.
pub fn no_place_is_typed()
    ensures { NoPlaceIsTyped }
{}

/// A method's failing place is exactly where a rule fails first, and the rule that fails there.
pub fn place_is_first()
    ensures { PlaceIsFirst }
{}

/// A method has one typing at the most.
pub fn one_typing()
    ensures { OneTyping }
{}

/// The frame of a method at a pc is the one that its typing has for the instruction there.
pub fn frame_at_is_typed()
    ensures { FrameAtIsTyped }
{}

/// In a typing each instruction can be applied to its frame, and what it leads to goes to its targets
/// and its handlers.
pub fn typed_applies()
    ensures { TypedApplies }
{}

/// Where flow goes on behind an instruction, what it leads to goes to the next one.
pub fn typed_goes_on()
    ensures { TypedGoesOn }
{}
