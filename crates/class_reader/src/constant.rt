//! An entry of the constant pool (JVMS 4.4).

ghost use Rattle.std.specs.Prelude.{◌≡◌, ◌==◌, ◌||◌, IfOk, true, false};
ghost use Rattle.jv_model.specs.ConstantPool.{is_wide};
ghost use Rattle.jv_model.specs.ClassReading.{utf8_at, tagged_at, constant_at};
ghost use Rattle.jv_types.specs.ClassData.{const_of};
ghost use Rattle.class_reader.specs.Gives.{GivesClass};

use crate::error::ClassError;
use crate::modified_utf8::text_of;
use jv_types::{Const, Input, tag};
use std::alloc::Global;

/// Reads a text behind the number of its bytes (JVMS 4.4.7).
#[tactic(auto, unfolding(jv_model::specs::ClassReading::utf8_at))]
fn read_utf8(alloc: Global, index: u32, input: &mut Input) -> Result<Const, ClassError>
    ensures constant { GivesClass (λ constant. (const_of constant, input.new)) result
        (utf8_at index input.old) }
    ensures narrow { IfOk result (λ constant. is_wide (const_of constant) ≡ false) }
{
    let count = input.u2()?;
    let bytes = input.run(u32::from(count))?;
    match text_of(alloc, bytes)? {
        Some(text) => Ok(Const::Utf8(text)),
        None => Err(ClassError::Utf8 { index }),
    }
}

/// Reads what stands behind the tag of the entry at an index.
#[tactic(auto, unfolding(jv_model::specs::ClassReading::single_at, jv_model::specs::ClassReading::pair_at))]
fn read_tagged(alloc: Global, index: u32, tag: u8, input: &mut Input) -> Result<Const, ClassError>
    ensures constant { GivesClass (λ constant. (const_of constant, input.new)) result
        (tagged_at index tag input.old) }
    ensures wide { IfOk result (λ constant. is_wide (const_of constant)
        ≡ ((tag == 5) || (tag == 6))) }
{
    match tag {
        tag::UTF8 => read_utf8(alloc, index, input),
        tag::INTEGER => Ok(Const::Integer(input.u4()?.cast_signed())),
        tag::FLOAT => Ok(Const::Float(input.u4()?)),
        tag::LONG => Ok(Const::Long(input.u8()?.cast_signed())),
        tag::DOUBLE => Ok(Const::Double(input.u8()?)),
        tag::CLASS => Ok(Const::Class(input.u2()?)),
        tag::STRING => Ok(Const::String(input.u2()?)),
        tag::FIELDREF => Ok(Const::Fieldref(input.u2()?, input.u2()?)),
        tag::METHODREF => Ok(Const::Methodref(input.u2()?, input.u2()?)),
        tag::INTERFACE_METHODREF => Ok(Const::InterfaceMethodref(input.u2()?, input.u2()?)),
        tag::NAME_AND_TYPE => Ok(Const::NameAndType(input.u2()?, input.u2()?)),
        tag::METHOD_HANDLE => Ok(Const::MethodHandle(input.u1()?, input.u2()?)),
        tag::METHOD_TYPE => Ok(Const::MethodType(input.u2()?)),
        tag::INVOKE_DYNAMIC => Ok(Const::InvokeDynamic(input.u2()?, input.u2()?)),
        _ => Err(ClassError::Pool { index }),
    }
}

/// Reads the entry at an index. The last index has no room for a Long or a Double, which takes two
/// (JVMS 4.4.5).
#[tactic(auto, unfolding(jv_model::specs::ClassReading::constant_at))]
pub fn read_constant(
    alloc: Global,
    index: u32,
    is_last: bool,
    input: &mut Input,
) -> Result<Const, ClassError>
    ensures constant { GivesClass (λ constant. (const_of constant, input.new)) result
        (constant_at index is_last input.old) }
    ensures narrow { is_last ≡ true
        → IfOk result (λ constant. is_wide (const_of constant) ≡ false) }
{
    let tag = input.u1()?;
    if is_last && (tag == tag::LONG || tag == tag::DOUBLE) {
        return Err(ClassError::Pool { index });
    }
    read_tagged(alloc, index, tag, input)
}
