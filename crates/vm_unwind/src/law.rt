//! What a throw comes to, of the definitions alone.

ghost use Rattle.vm_unwind.specs.Parts.{UnwindingHasParts};
ghost use Rattle.vm_unwind.specs.Steps.{UnwindingGoesByFrames};
ghost use Rattle.vm_unwind.specs.Held.{FramesHoldAsDefined};
ghost use Rattle.vm_unwind.specs.Names.{NamesFindMethods, PlacesAreCatches};

/// A throw in the frames of a thread leaves the monitors of the frames above the one that catches,
/// and then goes on there, or ends the thread.
pub fn unwinding_has_parts()
    ensures { UnwindingHasParts }
{}

/// A throw ends frames one after the other, each with the monitor of its method, until the newest
/// one catches. Where none does, the thread has ended with the oldest.
pub fn unwinding_goes_by_frames()
    ensures { UnwindingGoesByFrames }
{}

/// In a world whose classes and methods have names of their own, a method's name finds it.
pub fn names_find_methods()
    ensures { NamesFindMethods }
{}

/// There the place that is found in the frames of a thread is where the definitions catch, and the
/// frames above it are those that end.
pub fn places_are_catches()
    ensures { PlacesAreCatches }
{}

/// There a frame's method is synchronized in the definitions where it is by its number, and its class
/// has the name of the class of that number.
pub fn frames_hold_as_defined()
    ensures { FramesHoldAsDefined }
{}
