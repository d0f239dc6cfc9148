//! The laws of code.

ghost use Rattle.code_model.specs.Laws.{CodeIsRead, CodesAreLoaded, OneBody, OneOpcode};
ghost use Rattle.code_model.specs.Laws.{RefusedIsUnspelled};

/// The body that is read of a method's Code attribute is the one that its bytes spell, and the one
/// that they spell is read.
pub fn code_is_read()
    ensures { CodeIsRead }
{}

/// A class is loaded with the code that its methods' attributes spell.
pub fn codes_are_loaded()
    ensures { CodesAreLoaded }
{}

/// The bytes of a Code attribute spell one body at the most.
pub fn one_body()
    ensures { OneBody }
{}

/// The bytes of a Code attribute that is refused spell no body.
pub fn refused_is_unspelled()
    ensures { RefusedIsUnspelled }
{}

/// Two instructions that are equal, names standing for indices of the constant pool, and equally
/// long have the same opcode: so comparing instructions compares opcodes.
pub fn one_opcode()
    ensures { OneOpcode }
{}
