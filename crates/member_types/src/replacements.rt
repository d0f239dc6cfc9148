//! What takes the place of uninitialized types in a frame (JVMS 4.10.1.9).

ghost use Rattle.std.specs.Prelude.{◌≡◌, map};
ghost use Rattle.member_types.specs.Replacements.{is_uninitialized as is_model_uninitialized, replaced as model_replaced, uninitialized_of, wanted_of};

use instruction_types::Wanted;
use type_rules::{TypeFrame, VerificationType};

/// An uninitialized type.
#[derive(Clone, Copy)]
pub enum Uninitialized {
    This,
    /// What the `new` at that pc made.
    New(u32),
}

/// The uninitialized type that a type is, where it is one.
pub fn uninitialized_type(there: VerificationType) -> Option<Uninitialized>
    ensures { result ≡ uninitialized_of there }
{
    match there {
        VerificationType::This => Some(Uninitialized::This),
        VerificationType::New(pc) => Some(Uninitialized::New(pc)),
        _ => None,
    }
}

/// What an operand has to be to be of that type.
pub fn wanted_uninitialized(old: Uninitialized) -> Wanted
    ensures { result ≡ wanted_of old }
{
    match old {
        Uninitialized::This => Wanted::This,
        Uninitialized::New(pc) => Wanted::New(pc),
    }
}

/// Whether a type is that one.
pub fn is_uninitialized(old: Uninitialized, there: VerificationType) -> bool
    ensures { result ≡ is_model_uninitialized old there }
{
    match old {
        Uninitialized::This => matches!(there, VerificationType::This),
        Uninitialized::New(pc) => matches!(there, VerificationType::New(made) if pc == made),
    }
}

/// The type itself, or the fresh one in the place of the old one.
fn replaced(
    there: VerificationType,
    old: Uninitialized,
    fresh: VerificationType,
) -> VerificationType
    ensures { result ≡ model_replaced old fresh there }
{
    if is_uninitialized(old, there) {
        fresh
    } else {
        there
    }
}

/// Puts a type in the place of an uninitialized one among the locals.
pub fn replace_locals(frame: &mut TypeFrame, old: Uninitialized, fresh: VerificationType)
    ensures { frame.new
        ≡ record frame.old { locals = map (model_replaced old fresh) frame.old.locals } }
{
    for number in 0..frame.local_count() {
        let there = frame.local(number).unwrap();
        frame.set_local(number, replaced(there, old, fresh));
    }
}

/// Puts a type in the place of an uninitialized one among the operands.
pub fn replace_operands(frame: &mut TypeFrame, old: Uninitialized, fresh: VerificationType)
    ensures { frame.new
        ≡ record frame.old { stack = map (model_replaced old fresh) frame.old.stack } }
{
    for number in 0..frame.depth() {
        let there = frame.operand(number).unwrap();
        frame.set_operand(number, replaced(there, old, fresh));
    }
}
