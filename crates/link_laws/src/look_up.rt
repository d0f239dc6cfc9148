//! The laws of supertypes and of look-up (JVMS 5.4.3).

ghost use Rattle.link_laws.specs.Laws.{CycleIsFound, SubtypeIsClosure, OrdersAreDistinct};
ghost use Rattle.link_laws.specs.Laws.{FieldIsFirst, MethodIsFirst};

/// A class is cyclic exactly where it is above itself.
pub fn cycle_is_found()
    ensures { CycleIsFound }
{}

/// In a sound world a type is a subtype of exactly what is at or above it.
pub fn subtype_is_closure()
    ensures { SubtypeIsClosure }
{}

/// No order of a look-up has a name twice.
pub fn orders_are_distinct()
    ensures { OrdersAreDistinct }
{}

/// The field that is found is that of the first class in order that declares one.
pub fn field_is_first()
    ensures { FieldIsFirst }
{}

/// The method that is found is that of the first type in order that declares one.
pub fn method_is_first()
    ensures { MethodIsFirst }
{}
