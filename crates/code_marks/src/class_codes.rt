//! Which methods of a class have code.

ghost use Rattle.std.specs.Prelude.{◌≡◌, ◌<◌, Some, is_some, length, option_and_then, slice_get};
ghost use Rattle.world_model.specs.World.{Method};
ghost use Rattle.code_marks.specs.Marks.{methods_in};

use class_world::Origin;
use jv_types::{CodeBody, List};

/// How many methods a class declares.
pub fn method_count(origin: &Origin) -> u32
    ensures { result ≡ length (methods_in origin.now) }
{
    match origin {
        Origin::Boot(class) => class.methods.len(),
        Origin::Program(loaded) => loaded.file.methods.len(),
    }
}

/// Whether there is code at an index.
fn is_code(codes: &[Option<CodeBody>], index: u32) -> bool
    ensures { result ≡ is_some (option_and_then (λ code. code) (slice_get codes.now index)) }
{
    match codes.get(index as usize) {
        Some(code) => code.is_some(),
        None => false,
    }
}

/// Whether a method of a class has code.
pub fn has_code(origin: &Origin, index: u32) -> bool
    requires { index < length (methods_in origin.now) }
    ensures { (m : Method) × (slice_get (methods_in origin.now) index ≡ Some m)
        × (result ≡ is_some m.code) }
{
    match origin {
        Origin::Boot(_) => false,
        Origin::Program(loaded) => is_code(loaded.codes.as_slice(), index),
    }
}
