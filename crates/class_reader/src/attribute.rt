//! The attributes of a class, a field or a method (JVMS 4.7).

ghost use Rattle.std.specs.Prelude.{◌≡◌, length, option_map, None};
ghost use Rattle.jv_model.specs.Refusal.{wrong_attribute, wrong_constant};
ghost use Rattle.jv_model.specs.Profile.{value_tags};
ghost use Rattle.jv_model.specs.ClassReading.{name_fault, length_fault, contents_fault, owner_behind, attribute_at, missing_fault, attributes_at};
ghost use Rattle.jv_types.specs.ClassData.{attr_of, attrs_of};
ghost use Rattle.class_reader.specs.Gives.{GivesClass};
ghost use Rattle.class_reader.specs.Owner.{owner_of, IsRightCount};

use crate::constant_pool::{Pool, read_index};
use crate::error::ClassError;
use byteorder::{BigEndian, ByteOrder};
use jv_types::{Attr, Input, List, is_text, tag};
use std::alloc::Global;

const CONSTANT_VALUE: &[u8] = b"ConstantValue";

const CODE: &[u8] = b"Code";

/// What has the attributes that are read.
#[derive(Clone, Copy)]
pub enum Owner {
    Class,
    /// The index of the field's descriptor, and whether a constant value may still come.
    Field { descriptor: u16, may_come: bool },
    /// The place of the method's flags, and whether its code is still to come.
    Method { flags: u32, is_due: bool },
}

/// What a field with this descriptor may have as its constant (JVMS 4.7.2).
fn value_tags(descriptor: &[u16]) -> &'static [u8]
    ensures { result.now ≡ value_tags descriptor.now }
{
    if is_text(descriptor, b"Z")
        || is_text(descriptor, b"B")
        || is_text(descriptor, b"C")
        || is_text(descriptor, b"S")
        || is_text(descriptor, b"I")
    {
        &[tag::INTEGER]
    } else if is_text(descriptor, b"J") {
        &[tag::LONG]
    } else if is_text(descriptor, b"F") {
        &[tag::FLOAT]
    } else if is_text(descriptor, b"D") {
        &[tag::DOUBLE]
    } else if is_text(descriptor, b"Ljava/lang/String;") {
        &[tag::STRING]
    } else {
        &[]
    }
}

/// The place of what is wrong with an attribute of that name, which begins at that place.
fn name_fault(pool: &Pool, owner: Owner, name: u16, place: u32) -> Option<u32>
    ensures { option_map wrong_attribute result ≡ name_fault pool.now (owner_of owner) name place }
{
    match owner {
        Owner::Field {
            may_come: false,
            ..
        } if pool.is_named(CONSTANT_VALUE, name) => Some(place),
        Owner::Method {
            flags,
            is_due: false,
        } if pool.is_named(CODE, name) => Some(flags),
        _ => None,
    }
}

/// The place of what is wrong with the attribute's length.
fn length_fault(pool: &Pool, owner: Owner, name: u16, place: u32, count: u32) -> Option<u32>
    ensures fault { option_map wrong_attribute result
        ≡ length_fault pool.now (owner_of owner) name place count }
    ensures right { result ≡ None → IsRightCount pool.now (owner_of owner) name count }
{
    match owner {
        Owner::Field { .. } if pool.is_named(CONSTANT_VALUE, name) && count != 2 => Some(place),
        _ => None,
    }
}

/// The index of an entry of a wrong kind that the attribute's bytes name.
fn contents_fault(pool: &Pool, owner: Owner, name: u16, bytes: &[u8]) -> Option<u16>
    requires { IsRightCount pool.now (owner_of owner) name (length bytes.now) }
    ensures { option_map wrong_constant result
        ≡ contents_fault pool.now (owner_of owner) name bytes.now }
{
    match owner {
        Owner::Field { descriptor, .. } if pool.is_named(CONSTANT_VALUE, name) => {
            let index = BigEndian::read_u16(bytes);
            if pool.names_one_of(value_tags(pool.text(descriptor)), index) {
                None
            } else {
                Some(index)
            }
        }
        _ => None,
    }
}

/// The owner behind an attribute of that name.
fn owner_behind(pool: &Pool, owner: Owner, name: u16) -> Owner
    ensures { owner_of result ≡ owner_behind pool.now (owner_of owner) name }
{
    match owner {
        Owner::Class => Owner::Class,
        Owner::Field {
            descriptor,
            may_come,
        } => Owner::Field {
            descriptor,
            may_come: may_come && !pool.is_named(CONSTANT_VALUE, name),
        },
        Owner::Method { flags, is_due } => Owner::Method {
            flags,
            is_due: is_due && !pool.is_named(CODE, name),
        },
    }
}

/// The place of a method whose code is missing.
fn missing_fault(owner: Owner) -> Option<u32>
    ensures { option_map wrong_attribute result ≡ missing_fault (owner_of owner) }
{
    match owner {
        Owner::Method {
            flags,
            is_due: true,
        } => Some(flags),
        _ => None,
    }
}

/// Reads an attribute.
#[tactic(auto, unfolding(jv_model::specs::ClassReading::attribute_at))]
fn read_attribute(
    alloc: Global,
    pool: &Pool,
    owner: Owner,
    input: &mut Input,
) -> Result<Attr, ClassError>
    ensures { GivesClass (λ attribute. (attr_of attribute, input.new)) result
        (attribute_at pool.now (owner_of owner) input.old) }
{
    let place = input.at();
    let name = read_index(pool, tag::UTF8, input)?;
    if let Some(at) = name_fault(pool, owner, name, place) {
        return Err(ClassError::Attribute { at });
    }
    let count = input.u4()?;
    if let Some(at) = length_fault(pool, owner, name, place, count) {
        return Err(ClassError::Attribute { at });
    }
    let bytes = input.run(count)?;
    if let Some(index) = contents_fault(pool, owner, name, bytes) {
        return Err(ClassError::Pool {
            index: u32::from(index),
        });
    }
    let bytes = List::from_slice(alloc, bytes)?;
    Ok(Attr { name, bytes })
}

/// Reads so many attributes.
pub fn read_attributes(
    alloc: Global,
    pool: &Pool,
    mut owner: Owner,
    count: u16,
    input: &mut Input,
) -> Result<List<Attr>, ClassError>
    ensures { GivesClass (λ attributes. (attrs_of attributes.items, input.new)) result
        (attributes_at pool.now (owner_of owner) count input.old) }
{
    let mut attributes = List::new(alloc);
    for _ in 0..count {
        let attribute = read_attribute(alloc, pool, owner, input)?;
        owner = owner_behind(pool, owner, attribute.name);
        attributes.push(attribute)?;
    }
    match missing_fault(owner) {
        Some(at) => Err(ClassError::Attribute { at }),
        None => Ok(attributes),
    }
}
