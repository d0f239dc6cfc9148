//! The form of a line, which its first word tells.

ghost use Rattle.std.specs.Prelude.{◌≡◌, option_map};
ghost use Rattle.assembler_model.specs.AssemblerLines.{form_of};
ghost use Rattle.asm_lines.specs.LineForms.{form_of as view, operation_form};

use crate::mnemonic::{OperandForm, mnemonic_of};

/// The form of a line's first word, which also tells where the line may stand.
#[derive(Clone, Copy, Debug)]
pub enum LineForm {
    Class,
    Flags,
    Implements,
    Field,
    Method,
    Attribute,
    Stack,
    End,
    At,
    Frame,
    Catch,
    /// The opcode of a mnemonic, and the form of its operands.
    Operation(u8, OperandForm),
}

/// The form of a mnemonic's line.
fn operation_form(word: &[u8]) -> Option<LineForm>
    ensures { option_map view result ≡ operation_form word.now }
{
    let mnemonic = mnemonic_of(word)?;
    Some(LineForm::Operation(mnemonic.opcode, mnemonic.form))
}

/// The form of a first word: one of these, or a mnemonic.
#[tactic(auto, unfolding(assembler_model::specs::AssemblerLines::form_of))]
pub fn form_of(word: &[u8]) -> Option<LineForm>
    ensures { option_map view result ≡ form_of word.now }
{
    if word == b"class".as_slice() {
        Some(LineForm::Class)
    } else if word == b"flags".as_slice() {
        Some(LineForm::Flags)
    } else if word == b"implements".as_slice() {
        Some(LineForm::Implements)
    } else if word == b"field".as_slice() {
        Some(LineForm::Field)
    } else if word == b"method".as_slice() {
        Some(LineForm::Method)
    } else if word == b"attr".as_slice() {
        Some(LineForm::Attribute)
    } else if word == b"stack".as_slice() {
        Some(LineForm::Stack)
    } else if word == b"end".as_slice() {
        Some(LineForm::End)
    } else if word == b"at".as_slice() {
        Some(LineForm::At)
    } else if word == b"frame".as_slice() {
        Some(LineForm::Frame)
    } else if word == b"catch".as_slice() {
        Some(LineForm::Catch)
    } else {
        operation_form(word)
    }
}
