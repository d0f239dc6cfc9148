//! The signatures of the members that classes declare.

ghost use Rattle.std.specs.Prelude.{◌≡◌, List, map, bytes_eq, IfOk, IsTrue};
ghost use Rattle.std.specs.List.{list_all, IsDistinct};
ghost use Rattle.jv_types.specs.ClassData.{pool_of};
ghost use Rattle.class_world.specs.Signatures.{AddsSignature, GivesSignatures, GivesDeclared, member_pair, boot_field_pair, boot_method_pair, field_pairs, method_pairs, has_members_once};

use crate::class_info::{ClassInfo, Origin};
use class_names::{Names, Signature, Signatures};
use jv_types::{BootField, BootMethod, Const, List, Member, NoMemory, text_at};
use std::alloc::Global;

/// For each class the signatures of its own fields, and of its own methods.
#[derive(Drop)]
pub struct Declared {
    pub fields: List<Signatures>,
    pub methods: List<Signatures>,
}

/// Adds the signature of a member, and answers whether it is a new one.
fn add_signature(
    alloc: Global,
    texts: &mut Names,
    rows: &mut Signatures,
    name: &[u16],
    descriptor: &[u16],
) -> Result<bool, NoMemory>
    ensures { IfOk result (AddsSignature texts.old texts.new rows.old rows.new
        (name.now, descriptor.now)) }
{
    let name_number = texts.add(alloc, name)?;
    let descriptor_number = texts.add(alloc, descriptor)?;
    let is_new = rows.add(Signature {
        name: name_number,
        descriptor: descriptor_number,
    })?;
    Ok(is_new)
}

/// The signatures of members of a class file, or none where two of them are the same.
pub fn member_signatures(
    alloc: Global,
    texts: &mut Names,
    pool: &[Const],
    members: &[Member],
) -> Result<Option<Signatures>, NoMemory>
    requires { IsDistinct bytes_eq texts.old }
    ensures { IfOk result (GivesSignatures texts.old texts.new
        (map (member_pair (pool_of pool.now)) members.now)) }
{
    let mut rows = Signatures::new(alloc);
    for member in members {
        let name = text_at(pool, member.name);
        let descriptor = text_at(pool, member.descriptor);
        let is_new = add_signature(alloc, texts, &mut rows, name, descriptor)?;
        if !is_new {
            return Ok(None);
        }
    }
    Ok(Some(rows))
}

/// The signatures of fields of a boot class, or none where two of them are the same.
fn boot_field_signatures(
    alloc: Global,
    texts: &mut Names,
    fields: &[BootField],
) -> Result<Option<Signatures>, NoMemory>
    requires { IsDistinct bytes_eq texts.old }
    ensures { IfOk result (GivesSignatures texts.old texts.new (map boot_field_pair fields.now)) }
{
    let mut rows = Signatures::new(alloc);
    for field in fields {
        let name = field.name.as_slice();
        let descriptor = field.descriptor.as_slice();
        let is_new = add_signature(alloc, texts, &mut rows, name, descriptor)?;
        if !is_new {
            return Ok(None);
        }
    }
    Ok(Some(rows))
}

/// The signatures of methods of a boot class, or none where two of them are the same.
fn boot_method_signatures(
    alloc: Global,
    texts: &mut Names,
    methods: &[BootMethod],
) -> Result<Option<Signatures>, NoMemory>
    requires { IsDistinct bytes_eq texts.old }
    ensures { IfOk result (GivesSignatures texts.old texts.new
        (map boot_method_pair methods.now)) }
{
    let mut rows = Signatures::new(alloc);
    for method in methods {
        let name = method.name.as_slice();
        let descriptor = method.descriptor.as_slice();
        let is_new = add_signature(alloc, texts, &mut rows, name, descriptor)?;
        if !is_new {
            return Ok(None);
        }
    }
    Ok(Some(rows))
}

/// The signatures of a class's own fields, or none where two of them are the same.
fn field_signatures(
    alloc: Global,
    texts: &mut Names,
    origin: &Origin,
) -> Result<Option<Signatures>, NoMemory>
    requires { IsDistinct bytes_eq texts.old }
    ensures { IfOk result (GivesSignatures texts.old texts.new (field_pairs origin.now)) }
{
    match origin {
        Origin::Boot(class) => boot_field_signatures(alloc, texts, class.fields.as_slice()),
        Origin::Program(loaded) => member_signatures(
            alloc,
            texts,
            loaded.file.pool.as_slice(),
            loaded.file.fields.as_slice(),
        ),
    }
}

/// The signatures of a class's own methods, or none where two of them are the same.
fn method_signatures(
    alloc: Global,
    texts: &mut Names,
    origin: &Origin,
) -> Result<Option<Signatures>, NoMemory>
    requires { IsDistinct bytes_eq texts.old }
    ensures { IfOk result (GivesSignatures texts.old texts.new (method_pairs origin.now)) }
{
    match origin {
        Origin::Boot(class) => boot_method_signatures(alloc, texts, class.methods.as_slice()),
        Origin::Program(loaded) => member_signatures(
            alloc,
            texts,
            loaded.file.pool.as_slice(),
            loaded.file.methods.as_slice(),
        ),
    }
}

/// The signatures of the members of each class, of which none has two that are the same.
pub fn declare_members(
    alloc: Global,
    texts: &mut Names,
    classes: &[ClassInfo],
) -> Result<Declared, NoMemory>
    requires texts { IsDistinct bytes_eq texts.old }
    requires once { IsTrue (list_all has_members_once classes.now) }
    ensures { IfOk result (GivesDeclared texts.new classes.now) }
{
    let mut fields = List::new(alloc);
    let mut methods = List::new(alloc);
    for class in classes {
        let Some(own_fields) = field_signatures(alloc, texts, &class.origin)? else {
            unreachable!();
        };
        let Some(own_methods) = method_signatures(alloc, texts, &class.origin)? else {
            unreachable!();
        };
        fields.push(own_fields)?;
        methods.push(own_methods)?;
    }
    Ok(Declared { fields, methods })
}
