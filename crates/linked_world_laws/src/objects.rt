//! The laws of the objects of a linked world.

ghost use Rattle.linked_world_laws.specs.Laws.{StringsStandAlone, FieldsHaveTypes};

/// Nothing else may stand for a String.
pub fn strings_stand_alone()
    ensures { StringsStandAlone }
{}

/// The fields of objects have descriptors.
pub fn fields_have_types()
    ensures { FieldsHaveTypes }
{}
