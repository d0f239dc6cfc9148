//! An entry of the constant pool (JVMS 4.4).

ghost use Rattle.std.specs.Prelude.{◌≡◌, ◌++◌, None};
ghost use Rattle.jv_model.specs.ClassData.{Const as ModelConst, utf8};
ghost use Rattle.jv_model.specs.ClassBytes.{u1, u2, u4, u8, constant_bytes};
ghost use Rattle.jv_model.specs.ClassLimits.{constant_limit};
ghost use Rattle.jv_types.specs.ClassData.{const_of};
ghost use Rattle.class_writer.specs.Written.{Appends};

use crate::error::WriteClassError;
use crate::output::Output;
use crate::table::Item;
use crate::text::write_text;
use jv_types::{Const, Text, tag};

fn write_utf8(out: &mut Output, text: &Text) -> Result<(), WriteClassError>
    ensures { Appends result out.old out.new (constant_bytes (utf8 text.now.items))
        (constant_limit (utf8 text.now.items)) }
{
    out.u1(tag::UTF8)?;
    write_text(out, text)
}

/// Writes a tag and a number of two bytes.
fn write_u2(out: &mut Output, tag: u8, number: u16) -> Result<(), WriteClassError>
    ensures { Appends result out.old out.new (u1 tag ++ u2 number) None }
{
    out.u1(tag)?;
    out.u2(number)?;
    Ok(())
}

/// Writes a tag and a number of four bytes.
fn write_u4(out: &mut Output, tag: u8, number: u32) -> Result<(), WriteClassError>
    ensures { Appends result out.old out.new (u1 tag ++ u4 number) None }
{
    out.u1(tag)?;
    out.u4(number)?;
    Ok(())
}

/// Writes a tag and a number of eight bytes.
fn write_u8(out: &mut Output, tag: u8, number: u64) -> Result<(), WriteClassError>
    ensures { Appends result out.old out.new (u1 tag ++ u8 number) None }
{
    out.u1(tag)?;
    out.u8(number)?;
    Ok(())
}

/// Writes a tag and two numbers of two bytes.
fn write_pair(out: &mut Output, tag: u8, first: u16, second: u16) -> Result<(), WriteClassError>
    ensures { Appends result out.old out.new (u1 tag ++ (u2 first ++ u2 second)) None }
{
    write_u2(out, tag, first)?;
    out.u2(second)?;
    Ok(())
}

/// Writes the kind of a method handle, and the index of its member (JVMS 4.4.8).
fn write_handle(out: &mut Output, kind: u8, member: u16) -> Result<(), WriteClassError>
    ensures { Appends result out.old out.new (u1 15 ++ (u1 kind ++ u2 member)) None }
{
    out.u1(tag::METHOD_HANDLE)?;
    out.u1(kind)?;
    out.u2(member)?;
    Ok(())
}

impl Item for Const {
    ghost Meaning = { ModelConst };

    ghost meaning = { const_of };

    ghost spelling = { constant_bytes };

    ghost limit = { constant_limit };

    /// A gap takes no bytes.
    fn write(&self, out: &mut Output) -> Result<(), WriteClassError> {
        match self {
            Const::Gap => Ok(()),
            Const::Utf8(text) => write_utf8(out, text),
            Const::Integer(value) => write_u4(out, tag::INTEGER, value.cast_unsigned()),
            Const::Float(bits) => write_u4(out, tag::FLOAT, *bits),
            Const::Long(value) => write_u8(out, tag::LONG, value.cast_unsigned()),
            Const::Double(bits) => write_u8(out, tag::DOUBLE, *bits),
            Const::Class(name) => write_u2(out, tag::CLASS, *name),
            Const::String(text) => write_u2(out, tag::STRING, *text),
            Const::Fieldref(owner, pair) => write_pair(out, tag::FIELDREF, *owner, *pair),
            Const::Methodref(owner, pair) => write_pair(out, tag::METHODREF, *owner, *pair),
            Const::InterfaceMethodref(owner, pair) => write_pair(
                out,
                tag::INTERFACE_METHODREF,
                *owner,
                *pair,
            ),
            Const::NameAndType(name, descriptor) => write_pair(
                out,
                tag::NAME_AND_TYPE,
                *name,
                *descriptor,
            ),
            Const::MethodHandle(kind, member) => write_handle(out, *kind, *member),
            Const::MethodType(descriptor) => write_u2(out, tag::METHOD_TYPE, *descriptor),
            Const::InvokeDynamic(method, pair) => write_pair(
                out,
                tag::INVOKE_DYNAMIC,
                *method,
                *pair,
            ),
        }
    }
}
