//! The laws of descriptors (JVMS 4.3).

ghost use Rattle.code_model.specs.Laws.{OneFieldDescriptor, OneMethodDescriptor};

/// A text is the descriptor of a field's type exactly where it is the one that the type has.
pub fn one_field_descriptor()
    ensures { OneFieldDescriptor }
{}

/// A text is the descriptor of a method's type exactly where it is the one that the type has.
pub fn one_method_descriptor()
    ensures { OneMethodDescriptor }
{}
