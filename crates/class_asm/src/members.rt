//! The fields and the methods of a class.

ghost use Rattle.std.specs.Prelude.{◌≡◌, ◌∷◌, [], IfOk, true};
ghost use Rattle.std.specs.List.{list_all};
ghost use Rattle.jv_model.specs.Utf16.{units_of_utf8};
ghost use Rattle.assembler_model.specs.AssembledClass.{code_attributes, member, value_attributes};
ghost use Rattle.assembler_model.specs.PoolEntries.{text_entry};
ghost use Rattle.assembler_model.specs.PoolNeeds.{line_entries, needs_by, value_entries};
ghost use Rattle.jv_types.specs.ClassData.{attr_of, attrs_of, member_of};
ghost use Rattle.asm_lines.specs.Terms.{value_of};
ghost use Rattle.asm_parts.specs.Parts.{lines_in, part_of};
ghost use Rattle.asm_parts.specs.Pools.{entries_in, IsPool};
ghost use Rattle.asm_pool.specs.Near.{is_near, needs_near};

use crate::blocks::behind_first;
use asm_bytes::code::code_bytes;
use asm_code::lines::read_code;
use asm_lines::term::{AssemblerLine, ConstantText};
use asm_parts::entry::Entry;
use asm_parts::part::Part;
use asm_parts::pool_entries::Pool;
use asm_pool::constants::near_index;
use asm_pool::needs::constant_entry;
use jv_types::{Attr, Bytes, List, Member, NoMemory};
use std::alloc::Global;

/// A list of one attribute.
fn one_attribute(alloc: Global, name: u16, bytes: Bytes) -> Result<List<Attr>, NoMemory>
    ensures { IfOk result (λ attributes. attrs_of attributes.items
        ≡ record { name = name; bytes = bytes.items } ∷ []) }
{
    let mut attributes = List::new(alloc);
    attributes.push(Attr { name, bytes })?;
    Ok(attributes)
}

/// What a field has of a constant value (JVMS 4.7.2).
fn value_attributes(
    alloc: Global,
    pool: &Pool<'_>,
    value: Option<ConstantText<'_>>,
) -> Result<List<Attr>, NoMemory>
    requires pool { IsPool pool.now }
    requires near { list_all (is_near (entries_in pool.now)) (value_entries (value_of value)) ≡ true }
    ensures { IfOk result (λ attributes. attrs_of attributes.items
        ≡ value_attributes (entries_in pool.now) (value_of value.entry)) }
{
    let Some(constant) = value else {
        return Ok(List::new(alloc));
    };
    let name = near_index(pool, Entry::Text("ConstantValue"));
    let index = near_index(pool, constant_entry(constant));
    let bytes = List::from_slice(alloc, &index.to_be_bytes())?;
    one_attribute(alloc, name, bytes)
}

/// A field with a constant value, or without.
pub fn field(
    alloc: Global,
    pool: &Pool<'_>,
    flags: u16,
    name: &str,
    descriptor: &str,
    value: Option<ConstantText<'_>>,
) -> Result<Member, NoMemory>
    requires pool { IsPool pool.now }
    requires near { list_all (is_near (entries_in pool.now))
        (text_entry (units_of_utf8 name.now) ∷ text_entry (units_of_utf8 descriptor.now) ∷ value_entries (value_of value)) ≡ true }
    ensures { IfOk result (λ field. member_of field
        ≡ member (entries_in pool.now) flags (units_of_utf8 name.now) (units_of_utf8 descriptor.now)
        (value_attributes (entries_in pool.now) (value_of value.entry))) }
{
    let attributes = value_attributes(alloc, pool, value)?;
    Ok(Member {
        flags,
        name: near_index(pool, Entry::Text(name)),
        descriptor: near_index(pool, Entry::Text(descriptor)),
        attributes,
    })
}

/// What a method has of code, where its block begins with `stack`.
fn code_attributes(alloc: Global, pool: &Pool<'_>, part: &Part<'_>) -> Result<List<Attr>, NoMemory>
    requires pool { IsPool pool.now }
    requires near { needs_near (entries_in pool.now) (needs_by line_entries (lines_in part.now.block)) ≡ true }
    ensures { IfOk result (λ attributes. attrs_of attributes.items
        ≡ code_attributes (entries_in pool.now) (part_of part.now) (lines_in part.now.block)) }
{
    let [first, ..] = part.block.as_slice() else {
        return Ok(List::new(alloc));
    };
    let Ok(AssemblerLine::Stack { stack, locals }) = &first.said else {
        return Ok(List::new(alloc));
    };
    let code = read_code(alloc, pool, behind_first(&part.block))?;
    let bytes = code_bytes(alloc, pool, *stack, *locals, &code)?;
    let name = near_index(pool, Entry::Text("Code"));
    one_attribute(alloc, name, bytes)
}

/// A method with code, or without.
pub fn method(
    alloc: Global,
    pool: &Pool<'_>,
    flags: u16,
    name: &str,
    descriptor: &str,
    part: &Part<'_>,
) -> Result<Member, NoMemory>
    requires pool { IsPool pool.now }
    requires near { list_all (is_near (entries_in pool.now))
        (text_entry (units_of_utf8 name.now) ∷ text_entry (units_of_utf8 descriptor.now) ∷ []) ≡ true }
    requires block { needs_near (entries_in pool.now) (needs_by line_entries (lines_in part.now.block)) ≡ true }
    ensures { IfOk result (λ method. member_of method
        ≡ member (entries_in pool.now) flags (units_of_utf8 name.now) (units_of_utf8 descriptor.now)
        (code_attributes (entries_in pool.now) (part_of part.now) (lines_in part.now.block))) }
{
    let attributes = code_attributes(alloc, pool, part)?;
    Ok(Member {
        flags,
        name: near_index(pool, Entry::Text(name)),
        descriptor: near_index(pool, Entry::Text(descriptor)),
        attributes,
    })
}
