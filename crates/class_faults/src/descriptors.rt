//! Descriptors that are ill formed, or of types that this machine hasn't (JVMS 4.3).

ghost use Rattle.std.specs.Prelude.{◌≡◌, Some, IfOk, map, option_map, option_to_list, flat_map};
ghost use Rattle.jv_model.specs.Partial.{first_of, least};
ghost use Rattle.jv_model.specs.ConstantPool.{const_at};
ghost use Rattle.link_model.specs.Uses.{name_index};
ghost use Rattle.link_model.specs.DescriptorFaults as faults;
ghost use Rattle.link_model.specs.DescriptorFaults.{descriptor_fault, wrong_texts, wrong_text_of};
ghost use Rattle.descriptor_types.specs.Types.{field_type_of, method_type_of};
ghost use Rattle.jv_types.specs.ClassData.{pool_of};
ghost use Rattle.jv_types.specs.Loaded.{loaded_of};
ghost use Rattle.jv_types.specs.Refusal.{cause_of};
ghost use Rattle.class_faults.specs.Uses.{use_of, used_of, uses_in};
ghost use Rattle.class_faults.specs.Descriptors.{spells, wrong_text, lesser};

use crate::names::name_of;
use crate::uses::{Use, Used, list_uses};
use descriptor_types::{ElementType, FieldType, MethodType, field_type, method_type};
use indexmap::IndexSet;
use jv_types::{Cause, Const, List, Loaded, NoMemory, text_at};
use std::alloc::Global;

/// What a text has to spell.
#[derive(Clone, Copy, Debug, PartialEq, Eq, Hash)]
enum Form {
    FieldType,
    MethodType,
    /// The name of a class, or the type of an array.
    TypeName,
}

/// A text by its index, and what it has to spell.
#[derive(Clone, Copy, Debug, PartialEq, Eq, Hash)]
struct TextUse {
    index: u16,
    form: Form,
}

const BRACKET: u16 = 0x5b;

/// Whether a type is neither `float` nor `double`, nor an array of them.
fn is_supported(field_type: FieldType<'_>) -> bool
    ensures { result ≡ faults.is_supported (field_type_of field_type.entry) }
{
    match field_type.element {
        ElementType::Float | ElementType::Double => false,
        _ => true,
    }
}

/// Whether a method has no other types.
fn are_supported(method_type: &MethodType<'_>) -> bool
    ensures { result ≡ faults.are_supported (method_type_of method_type.now) }
{
    for parameter in method_type.parameters.as_slice() {
        if !is_supported(*parameter) {
            return false;
        }
    }
    match method_type.result {
        Some(result) => is_supported(result),
        None => true,
    }
}

fn is_field_descriptor(text: &[u16]) -> bool
    ensures { result ≡ faults.is_field_descriptor text.now }
{
    match field_type(text) {
        Some(field_type) => is_supported(field_type),
        None => false,
    }
}

fn is_method_descriptor(alloc: Global, text: &[u16]) -> Result<bool, NoMemory>
    ensures { IfOk result (λ is. is ≡ faults.is_method_descriptor text.now) }
{
    match method_type(alloc, text)? {
        Some(method_type) => Ok(are_supported(&method_type)),
        None => Ok(false),
    }
}

/// Whether a name is one of a class, as far as this is asked, or of a supported array type.
fn is_type_name(name: &[u16]) -> bool
    ensures { result ≡ faults.is_type_name name.now }
{
    match name {
        [BRACKET, ..] => is_field_descriptor(name),
        _ => true,
    }
}

/// Whether a text spells what it has to.
fn spells(alloc: Global, form: Form, text: &[u16]) -> Result<bool, NoMemory>
    ensures { IfOk result (λ does. does ≡ spells form text.now) }
{
    match form {
        Form::FieldType => Ok(is_field_descriptor(text)),
        Form::MethodType => is_method_descriptor(alloc, text),
        Form::TypeName => Ok(is_type_name(text)),
    }
}

/// The index of the text that a Class entry names, or 0 where no such entry is there.
fn name_index(pool: &[Const], index: u16) -> u16
    ensures { result ≡ name_index (const_at (pool_of pool.now) index) }
{
    match pool.get(usize::from(index)) {
        Some(Const::Class(name)) => *name,
        _ => 0,
    }
}

/// Which text a use asks about. The class of a member reference isn't looked at.
fn text_use(pool: &[Const], used: Used) -> Option<TextUse>
    ensures { flat_map (wrong_text (pool_of pool.now)) (option_to_list result)
        ≡ wrong_text_of (pool_of pool.now) used.index (use_of used.use_as) }
{
    let (index, form) = match used.use_as {
        Use::FieldDescriptor => (used.index, Form::FieldType),
        Use::MethodDescriptor => (used.index, Form::MethodType),
        Use::Field { .. } | Use::Method { .. } => return None,
        Use::Superclass | Use::Interface | Use::New | Use::ReferenceType => {
            (name_index(pool, used.index), Form::TypeName)
        }
    };
    Some(TextUse { index, form })
}

/// The texts that some uses ask about, each once for each form.
fn text_uses(alloc: Global, pool: &[Const], uses: &[Used]) -> Result<IndexSet<TextUse>, NoMemory>
    ensures { IfOk result (λ texts. least (flat_map (wrong_text (pool_of pool.now)) texts.keys)
        ≡ least (flat_map (λ u. wrong_text_of (pool_of pool.now) u.index u.use_as)
        (uses_in uses.now))) }
{
    let mut texts = IndexSet::new(alloc);
    for used in uses {
        if let Some(text) = text_use(pool, *used) {
            let _ = texts.insert(text)?;
        }
    }
    Ok(texts)
}

/// The lesser of two indices, where there are two.
pub fn lesser(index: u16, other: Option<u16>) -> u16
    ensures { Some result ≡ lesser (Some index) other }
{
    match other {
        Some(other) if other < index => other,
        _ => index,
    }
}

/// The least index of a text that doesn't spell what it has to.
fn least_wrong(alloc: Global, pool: &[Const], texts: &[TextUse]) -> Result<Option<u16>, NoMemory>
    ensures { IfOk result (λ wrong. wrong
        ≡ least (flat_map (wrong_text (pool_of pool.now)) texts.now)) }
{
    let mut wrong = None;
    for text in texts {
        if !spells(alloc, text.form, text_at(pool, text.index))? {
            wrong = Some(lesser(text.index, wrong));
        }
    }
    Ok(wrong)
}

/// The index of a class's first wrong text.
fn wrong_descriptor(alloc: Global, class: &Loaded) -> Result<Option<u16>, NoMemory>
    ensures { IfOk result (λ wrong. wrong ≡ least (wrong_texts (loaded_of class.now))) }
{
    let pool = class.file.pool.as_slice();
    let uses = list_uses(alloc, class)?;
    let texts = text_uses(alloc, pool, uses.as_slice())?;
    let wrong = least_wrong(alloc, pool, texts.as_slice())?;
    Ok(wrong)
}

/// What is wrong with a class's descriptors.
fn descriptor_fault(alloc: Global, class: &Loaded) -> Result<Option<Cause>, NoMemory>
    ensures { IfOk result (λ fault.
        option_map cause_of fault ≡ descriptor_fault (loaded_of class.now)) }
{
    let Some(index) = wrong_descriptor(alloc, class)? else {
        return Ok(None);
    };
    Ok(Some(Cause::Descriptor {
        class: List::from_slice(alloc, name_of(class))?,
        index: u32::from(index),
    }))
}

/// The first class that uses a descriptor, or an array type, that is ill formed or of `float` or
/// `double`, and the least index of such a text. It fails only for want of memory.
pub fn first_wrong_descriptor(alloc: Global, classes: &[Loaded]) -> Result<Option<Cause>, NoMemory>
    ensures { IfOk result (λ fault. option_map cause_of fault
        ≡ first_of descriptor_fault (map loaded_of classes.now)) }
{
    for class in classes {
        if let Some(fault) = descriptor_fault(alloc, class)? {
            return Ok(Some(fault));
        }
    }
    Ok(None)
}
