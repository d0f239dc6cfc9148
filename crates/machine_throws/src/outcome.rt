//! Outcomes of steps.

ghost use Rattle.std.specs.Prelude.{◌≡◌};
ghost use Rattle.machine_throws.specs.Names.{name_of};

/// A class of which the machine itself makes an object, and throws it.
#[derive(Clone, Copy, Debug, PartialEq, Eq)]
pub enum Throwable {
    AbstractMethod,
    Arithmetic,
    ArrayIndexOutOfBounds,
    ArrayStore,
    ClassCast,
    IllegalMonitorState,
    IllegalThreadState,
    IncompatibleClassChange,
    NegativeArraySize,
    NullPointer,
    StringIndexOutOfBounds,
}

impl Throwable {
    /// The name of the class.
    pub fn class_name(self) -> &'static str
        ensures { result.now ≡ name_of self }
    {
        match self {
            Throwable::AbstractMethod => "java/lang/AbstractMethodError",
            Throwable::Arithmetic => "java/lang/ArithmeticException",
            Throwable::ArrayIndexOutOfBounds => "java/lang/ArrayIndexOutOfBoundsException",
            Throwable::ArrayStore => "java/lang/ArrayStoreException",
            Throwable::ClassCast => "java/lang/ClassCastException",
            Throwable::IllegalMonitorState => "java/lang/IllegalMonitorStateException",
            Throwable::IllegalThreadState => "java/lang/IllegalThreadStateException",
            Throwable::IncompatibleClassChange => "java/lang/IncompatibleClassChangeError",
            Throwable::NegativeArraySize => "java/lang/NegativeArraySizeException",
            Throwable::NullPointer => "java/lang/NullPointerException",
            Throwable::StringIndexOutOfBounds => "java/lang/StringIndexOutOfBoundsException",
        }
    }
}

/// What a step of a thread came to.
#[derive(Clone, Copy, Debug, PartialEq, Eq)]
pub enum Outcome {
    Made,
    /// It is still to throw an object of that class, and has changed nothing.
    Throws(Throwable),
}
