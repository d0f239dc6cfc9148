//! The code of a class's methods.

ghost use Rattle.std.specs.Prelude.{◌≡◌, ◌<◌, ◌^◌, ℕ, Ok, IfOk, IfSome, length, map, option_map};
ghost use Rattle.std.specs.List.{AllZip};
ghost use Rattle.jv_model.specs.Code.{Body};
ghost use Rattle.jv_model.specs.Profile.{IsInProfile};
ghost use Rattle.code_model.specs.CodeShape.{code_bytes};
ghost use Rattle.code_model.specs.CodeReading.{code_of as code_of_method, code_or_none, load_of};
ghost use Rattle.code_model.specs.SpellsCode.{HasCode};
ghost use Rattle.jv_types.specs.ClassData.{class_data_of, member_of};
ghost use Rattle.jv_types.specs.Code.{body_of};
ghost use Rattle.jv_types.specs.Loaded.{code_of};
ghost use Rattle.code_reader.specs.Gives.{GivesCode};
ghost use Rattle.code_reader.specs.Head.{head_of, first_bytes, IsEarly, IsEarlyInMethod, IsRefusal, IsMethodRefusal};
ghost use Rattle.code_reader.specs.Method.{IsCodeOf, GivesCodes, Codes, codes_in, codes_of};

use crate::body::read_body;
use crate::error::CodeError;
use class_pool::is_named;
use jv_types::{ClassData, CodeBody, List, Loaded, Member};
use std::alloc::Global;

/// The bytes of a method's Code attribute, where it has one.
fn code_bytes<'a>(class: &ClassData, member: &'a Member) -> Option<&'a [u8]>
    ensures bytes { option_map (λ bytes. bytes.now) result
        ≡ code_bytes (class_data_of class.now) (member_of member.now) }
    ensures short { IfSome result (λ bytes. length bytes.now < 2 ^ 32) }
{
    for index in 0..member.attributes.len() {
        let attribute = member.attributes.get(index);
        if is_named(&class.pool, b"Code", attribute.name) {
            // A list has an index of 32 bits for each of its items.
            prove!(attribute.bytes.len() <= 0xffff_ffff);
            return Some(attribute.bytes.as_slice());
        }
    }
    None
}

/// The code of a method, from its Code attribute (JVMS 4.7.3).
///
/// The error is the first refusal, in this order: the attribute's parts, the words of a frame, the
/// instructions by their places, the targets of branches, the exception table, the stack map. A
/// method without the attribute is refused as if the attribute were empty. Memory is wanted only
/// once the code and the count of the exception table's rows are read.
pub fn read_code(alloc: Global, class: &ClassData, method: u32) -> Result<CodeBody, CodeError>
    requires profile { IsInProfile (class_data_of class.now) }
    requires there { method < length class.now.methods.items }

    // What is read is spelled so.
    ensures found { IfOk result (λ body. IsCodeOf (class_data_of class.now) method (body_of body)) }

    // What is spelled so is read, unless memory runs out.
    ensures only { (body : Body ℕ) → IsCodeOf (class_data_of class.now) method body
        → GivesCode method body_of result (Ok body) }

    // Which refusal it is.
    ensures refusal { GivesCode method body_of result
        (code_of_method (class_data_of class.now) method) }

    // What is wrong in front of the exception table is told, however little memory there is.
    ensures early { IsEarly IsRefusal (head_of (class_data_of class.now) method) result }
{
    let member = class.methods.get(method);
    let Some(bytes) = code_bytes(class, member) else {
        return Err(CodeError::Shape { at: 0 });
    };
    read_body(alloc, class, method, member, bytes)
}

/// The code of a method that may have none.
fn read_member(
    alloc: Global,
    class: &ClassData,
    method: u32,
    member: &Member,
) -> Result<Option<CodeBody>, CodeError>
    ensures code { GivesCode method code_of result (code_or_none (class_data_of class.now) method
        (member_of member.now) (code_bytes (class_data_of class.now) (member_of member.now))) }
    ensures early { IsEarlyInMethod IsRefusal method
        (code_bytes (class_data_of class.now) (member_of member.now)) result }
{
    match code_bytes(class, member) {
        Some(bytes) => Ok(Some(read_body(alloc, class, method, member, bytes)?)),
        None => Ok(None),
    }
}

/// The code of each method.
fn read_codes(alloc: Global, class: &ClassData) -> Result<List<Option<CodeBody>>, (u32, CodeError)>
    ensures codes { GivesCodes (λ codes. codes_of codes.items) result
        (load_of (class_data_of class.now)) }
    ensures early { IsEarlyInMethod IsMethodRefusal 0 (first_bytes (class_data_of class.now)) result }
{
    let mut codes = List::new(alloc);
    for index in 0..class.methods.len() {
        match read_member(alloc, class, index, class.methods.get(index)) {
            Ok(code) => {
                let Ok(()) = codes.push(code) else {
                    return Err((index, CodeError::NoMemory));
                };
            }
            Err(error) => return Err((index, error)),
        }
    }
    Ok(codes)
}

/// A class with the code of its methods, its `base` 0. The error is the first one in the order of
/// the methods, with the method's index; then the file is given up. Behind the first method's head
/// memory may be wanted.
pub fn load_class(alloc: Global, file: ClassData) -> Result<Loaded, (u32, CodeError)>
    // The file is given back in it.
    ensures file { IfOk result (λ loaded. class_data_of loaded.file ≡ class_data_of file) }
    ensures base { IfOk result (λ loaded. loaded.base ≡ 0) }

    // What is read of a class file's data is spelled so.
    ensures found { IsInProfile (class_data_of file)
        → IfOk result (λ loaded. AllZip (HasCode (class_data_of file))
        (class_data_of file).methods (codes_in loaded)) }

    // What is spelled so is read, unless memory runs out.
    ensures only { IsInProfile (class_data_of file) → (codes : Codes)
        → AllZip (HasCode (class_data_of file)) (class_data_of file).methods codes
        → GivesCodes codes_in result (Ok codes) }

    // Which refusal it is, and of which method.
    ensures refusal { GivesCodes codes_in result (load_of (class_data_of file)) }

    // What is wrong in front of the first method's exception table is told, however little memory
    // there is.
    ensures early { IsEarlyInMethod IsMethodRefusal 0 (first_bytes (class_data_of file)) result }
{
    match read_codes(alloc, &file) {
        Ok(codes) => Ok(Loaded {
            file,
            codes,
            base: 0,
        }),
        Err(error) => Err(error),
    }
}
