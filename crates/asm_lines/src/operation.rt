//! Instructions as lines, by the form of their operands.

ghost use Rattle.std.specs.Prelude.{◌≡◌, drop, bytes_eq, find, option_map, pos, ◌-ℤ◌};
ghost use Rattle.std.specs.List.{after_last, before_last, list_all, list_any};
ghost use Rattle.jv_model.specs.Lines.{words_of};
ghost use Rattle.assembler_model.specs.Mnemonics.{no_operand, a_local, a_byte, a_short, a_branch, a_wide_branch, a_class, array_types};
ghost use Rattle.assembler_model.specs.OperationLines.{operation_of, constant_operation, long_operation, array_operation, member_operation, increment_operation, table_operation, lookup_operation, has_default, front, is_dot, is_colon, key_row, rises, key_rows, reference_of as reference_read};
ghost use Rattle.asm_lines.specs.Forms.{operand_form_of};
ghost use Rattle.asm_lines.specs.Words.{texts};
ghost use Rattle.text_model.specs.Numerals.{integer_in, least_int, most_int};
ghost use Rattle.asm_lines.specs.Told.{told, Tells};
ghost use Rattle.asm_lines.specs.Terms.{kind_of, operation_of as view, reference_of, row_of, rows_of, no_key};

use crate::error::ReadError;
use crate::mnemonic::OperandForm;
use crate::numeral::{byte_in, int_in, integer_in, long_in, short_in, u2_in};
use crate::term::{ConstantText, MemberReference, Operation, ReferenceKind};
use crate::words::{are_whole, counted, is_one_of, says, text_behind, word_at};
use jv_types::{LineKind, List};
use std::alloc::Global;

/// An instruction without an operand.
#[tactic(auto, unfolding(assembler_model::specs::OperationLines::operation_of))]
fn read_plain<'a>(opcode: u8, words: &[&'a str]) -> Result<Operation<'a>, LineKind>
    ensures { told view result ≡ operation_of opcode no_operand (texts words.now) }
{
    counted(words, 1)?;
    Ok(Operation::Plain(opcode))
}

/// An instruction with a local.
#[tactic(auto, unfolding(assembler_model::specs::OperationLines::operation_of))]
fn read_local<'a>(opcode: u8, words: &[&'a str]) -> Result<Operation<'a>, LineKind>
    ensures { told view result ≡ operation_of opcode a_local (texts words.now) }
{
    counted(words, 2)?;
    let local = u2_in(word_at(words, 1))?;
    Ok(Operation::Local(opcode, local))
}

/// `bipush` with its number.
#[tactic(auto, unfolding(assembler_model::specs::OperationLines::operation_of))]
fn read_byte<'a>(opcode: u8, words: &[&'a str]) -> Result<Operation<'a>, LineKind>
    ensures { told view result ≡ operation_of opcode a_byte (texts words.now) }
{
    counted(words, 2)?;
    let value = byte_in(word_at(words, 1))?;
    Ok(Operation::Byte(opcode, value))
}

/// `sipush` with its number.
#[tactic(auto, unfolding(assembler_model::specs::OperationLines::operation_of))]
fn read_short<'a>(opcode: u8, words: &[&'a str]) -> Result<Operation<'a>, LineKind>
    ensures { told view result ≡ operation_of opcode a_short (texts words.now) }
{
    counted(words, 2)?;
    let value = short_in(word_at(words, 1))?;
    Ok(Operation::Short(opcode, value))
}

/// A branch of 16 bits.
#[tactic(auto, unfolding(assembler_model::specs::OperationLines::operation_of))]
fn read_branch<'a>(opcode: u8, words: &[&'a str]) -> Result<Operation<'a>, LineKind>
    ensures { told view result ≡ operation_of opcode a_branch (texts words.now) }
{
    counted(words, 2)?;
    Ok(Operation::Branch(opcode, word_at(words, 1)))
}

/// A branch of 32 bits.
#[tactic(auto, unfolding(assembler_model::specs::OperationLines::operation_of))]
fn read_wide_branch<'a>(opcode: u8, words: &[&'a str]) -> Result<Operation<'a>, LineKind>
    ensures { told view result ≡ operation_of opcode a_wide_branch (texts words.now) }
{
    counted(words, 2)?;
    Ok(Operation::WideBranch(opcode, word_at(words, 1)))
}

/// An instruction with a class name or an array descriptor.
#[tactic(auto, unfolding(assembler_model::specs::OperationLines::operation_of))]
fn read_class<'a>(opcode: u8, words: &[&'a str]) -> Result<Operation<'a>, LineKind>
    ensures { told view result ≡ operation_of opcode a_class (texts words.now) }
{
    counted(words, 2)?;
    Ok(Operation::Class(opcode, word_at(words, 1)))
}

/// Whether a word has a dot.
fn has_dot(word: &str) -> bool
    ensures { result ≡ list_any is_dot word.now }
{
    word.as_bytes().contains(&b'.')
}

/// What stands before the last dot of a word, and what stands behind it; where there is none, all
/// stands behind.
fn split_at_last_dot(word: &str) -> (&str, &str)
    ensures before { result.0.now ≡ before_last is_dot word.now }
    ensures behind { result.1.now ≡ after_last is_dot word.now }
{
    match word.rsplit_once('.') {
        Some(parts) => parts,
        None => ("", word),
    }
}

/// A reference, split at its last dot, with a descriptor.
fn reference_of<'a>(reference: &'a str, descriptor: &'a str) -> MemberReference<'a>
    ensures { reference_of result ≡ reference_read reference.now descriptor.now }
{
    let (class, name) = split_at_last_dot(reference);
    MemberReference {
        class,
        name,
        descriptor,
    }
}

/// An instruction with a reference and a descriptor.
fn read_member<'a>(
    opcode: u8,
    kind: ReferenceKind,
    words: &[&'a str],
) -> Result<Operation<'a>, LineKind>
    ensures { told view result ≡ member_operation opcode (kind_of kind) (texts words.now) }
{
    if words.len() >= 2 && !has_dot(word_at(words, 1)) {
        return Err(LineKind::Word);
    }
    counted(words, 3)?;
    let reference = reference_of(word_at(words, 1), word_at(words, 2));
    Ok(Operation::Member(opcode, kind, reference))
}

/// `ldc int N` or `ldc string TEXT`.
fn read_constant<'a>(line: &'a str, words: &[&'a str]) -> Result<Operation<'a>, LineKind>
    requires { texts words.now ≡ words_of line.now }
    ensures { told view result ≡ constant_operation (texts words.now) }
{
    if !is_one_of(words, 1, &["int", "string"]) {
        return Err(LineKind::Word);
    }
    if words.len() < 3 {
        return Err(LineKind::Count);
    }
    if !says(word_at(words, 1), "int") {
        let text = text_behind(line, 2);
        return Ok(Operation::LoadConstant(ConstantText::String(text)));
    }
    counted(words, 3)?;
    let value = int_in(word_at(words, 2))?;
    Ok(Operation::LoadConstant(ConstantText::Int(value)))
}

/// `ldc2_w long N`.
fn read_long<'a>(words: &[&'a str]) -> Result<Operation<'a>, LineKind>
    ensures { told view result ≡ long_operation (texts words.now) }
{
    if !is_one_of(words, 1, &["long"]) {
        return Err(LineKind::Word);
    }
    counted(words, 3)?;
    let value = long_in(word_at(words, 2))?;
    Ok(Operation::LoadLong(value))
}

/// The number of an array's element type (JVMS 6.5, newarray).
fn element_type(word: &str) -> Option<u8>
    ensures { result ≡ option_map (λ row. row.1) (find (λ row. bytes_eq row.0 word.now) array_types) }
{
    if says("boolean", word) {
        Some(4)
    } else if says("char", word) {
        Some(5)
    } else if says("byte", word) {
        Some(8)
    } else if says("short", word) {
        Some(9)
    } else if says("int", word) {
        Some(10)
    } else if says("long", word) {
        Some(11)
    } else {
        None
    }
}

/// `newarray` with the word of its element type.
fn read_array_type<'a>(words: &[&'a str]) -> Result<Operation<'a>, LineKind>
    ensures { told view result ≡ array_operation (texts words.now) }
{
    if !is_one_of(
        words,
        1,
        &["boolean", "char", "byte", "short", "int", "long"],
    ) {
        return Err(LineKind::Word);
    }
    counted(words, 2)?;
    match element_type(word_at(words, 1)) {
        Some(number) => Ok(Operation::NewArray(number)),
        None => Err(LineKind::Word),
    }
}

/// `iinc I N`.
fn read_increment<'a>(words: &[&'a str]) -> Result<Operation<'a>, LineKind>
    ensures { told view result ≡ increment_operation (texts words.now) }
{
    counted(words, 3)?;
    let local = u2_in(word_at(words, 1))?;
    let value = short_in(word_at(words, 2))?;
    Ok(Operation::Increment(local, value))
}

/// Whether the last word but one is `default`, where there are so many words.
fn has_default(words: &[&str], count: usize) -> bool
    ensures { result ≡ has_default count (texts words.now) }
{
    words.len() < count || says(word_at(words, words.len().saturating_sub(2)), "default")
}

/// All words behind the first ones, but the last two.
fn between<'w, 'a>(words: &'w [&'a str], first: usize) -> &'w [&'a str]
    ensures { texts result.now ≡ front 2 (drop first (texts words.now)) }
{
    if words.len() < 2 || words.len() - 2 < first {
        return &[];
    }
    &words[first..words.len() - 2]
}

/// The lowest key of a table with so many keys above it: the greatest of them has 32 bits too.
fn low_in(more: usize, word: &str) -> Result<i32, LineKind>
    ensures { told (λ n. n) result ≡ integer_in least_int (most_int -ℤ pos more) word.now }
{
    let Ok(more) = u32::try_from(more) else {
        return Err(LineKind::Number);
    };
    let most = i64::from(i32::MAX) - i64::from(more);
    Ok(integer_in(i64::from(i32::MIN), most, word)? as i32)
}

/// `tableswitch LOW L .. default L`, with a label for each key from the lowest on.
fn read_table<'a>(alloc: Global, words: &[&'a str]) -> Result<Operation<'a>, ReadError>
    ensures { Tells view result (table_operation (texts words.now)) }
{
    if !has_default(words, 5) {
        return Err(ReadError::Line(LineKind::Word));
    }
    if words.len() < 5 || !are_whole(words) {
        return Err(ReadError::Line(LineKind::Count));
    }
    let low = low_in(words.len() - 5, word_at(words, 1))?;
    Ok(Operation::TableSwitch {
        low,
        labels: List::from_slice(alloc, between(words, 2))?,
        default: word_at(words, words.len() - 1),
    })
}

/// Whether each word has a colon.
fn have_colons(words: &[&str]) -> bool
    ensures { result ≡ list_all (λ word. list_any is_colon word) (texts words.now) }
{
    for word in words {
        if !word.as_bytes().contains(&b':') {
            return false;
        }
    }
    true
}

/// `K:L`, split at its first colon.
fn key_row(word: &str) -> Result<(i32, &str), LineKind>
    ensures { told row_of result ≡ key_row word.now }
{
    match word.split_once(':') {
        Some((key, label)) => Ok((int_in(key)?, label)),
        None => Ok((int_in(word)?, "")),
    }
}

/// Whether a key is above the one before, where there is one.
fn rises(before: Option<i32>, key: i32) -> bool
    ensures { result ≡ rises before key }
{
    match before {
        Some(before) => before < key,
        None => true,
    }
}

/// Rows with rising keys.
fn key_rows<'a>(alloc: Global, words: &[&'a str]) -> Result<List<(i32, &'a str)>, ReadError>
    ensures { Tells rows_of result (key_rows no_key (texts words.now)) }
{
    let mut rows = List::new(alloc);
    let mut before = None;
    for word in words {
        let (key, label) = key_row(word)?;
        if !rises(before, key) {
            return Err(ReadError::Line(LineKind::Number));
        }
        rows.push((key, label))?;
        before = Some(key);
    }
    Ok(rows)
}

/// `lookupswitch K:L .. default L`, with rising keys.
fn read_lookup<'a>(alloc: Global, words: &[&'a str]) -> Result<Operation<'a>, ReadError>
    ensures { Tells view result (lookup_operation (texts words.now)) }
{
    let rows = between(words, 1);
    if !has_default(words, 3) || !have_colons(rows) {
        return Err(ReadError::Line(LineKind::Word));
    }
    if words.len() < 3 || !are_whole(words) {
        return Err(ReadError::Line(LineKind::Count));
    }
    Ok(Operation::LookupSwitch {
        rows: key_rows(alloc, rows)?,
        default: word_at(words, words.len() - 1),
    })
}

/// An instruction by the form of its operands.
#[tactic(auto, unfolding(assembler_model::specs::OperationLines::operation_of))]
pub(crate) fn read_operation<'a>(
    alloc: Global,
    opcode: u8,
    form: OperandForm,
    line: &'a str,
    words: &[&'a str],
) -> Result<Operation<'a>, ReadError>
    requires { texts words.now ≡ words_of line.now }
    ensures { Tells view result (operation_of opcode (operand_form_of form) (texts words.now)) }
{
    let said = match form {
        OperandForm::None => read_plain(opcode, words),
        OperandForm::Local => read_local(opcode, words),
        OperandForm::Byte => read_byte(opcode, words),
        OperandForm::Short => read_short(opcode, words),
        OperandForm::Branch => read_branch(opcode, words),
        OperandForm::WideBranch => read_wide_branch(opcode, words),
        OperandForm::Field => read_member(opcode, ReferenceKind::Field, words),
        OperandForm::Method => read_member(opcode, ReferenceKind::Method, words),
        OperandForm::InterfaceMethod => {
            read_member(opcode, ReferenceKind::InterfaceMethod, words)
        }
        OperandForm::Class => read_class(opcode, words),
        OperandForm::Constant => read_constant(line, words),
        OperandForm::Long => read_long(words),
        OperandForm::ArrayType => read_array_type(words),
        OperandForm::Increment => read_increment(words),
        OperandForm::Table => return read_table(alloc, words),
        OperandForm::Lookup => return read_lookup(alloc, words),
    };
    match said {
        Ok(operation) => Ok(operation),
        Err(kind) => Err(ReadError::Line(kind)),
    }
}
