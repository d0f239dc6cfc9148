//! What the lines outside methods say of a class.

ghost use Rattle.std.specs.Prelude.{◌≡◌, ◌++◌, [], IfOk, OnOk, true, option_map, slice_get, unwrap_or};
ghost use Rattle.std.specs.List.{cons_option, flat_map, list_all};
ghost use Rattle.assembler_model.specs.AssembledClass.{all_of, attribute_of, default_flags, field_of, flags_of, interface_of, method_of};
ghost use Rattle.assembler_model.specs.PoolNeeds.{line_entries, needs_by, part_needs};
ghost use Rattle.jv_types.specs.ClassData.{attr_of, member_of};
ghost use Rattle.asm_lines.specs.NumberedLines.{said_of};
ghost use Rattle.asm_parts.specs.Parts.{lines_in, part_of, parts_of};
ghost use Rattle.asm_parts.specs.Pools.{entries_in, IsPool};
ghost use Rattle.asm_pool.specs.Near.{is_near, needs_near};
ghost use Rattle.class_asm.specs.Sections.{IsSaid, IsSaidOnwards};

use crate::members::{field, method};
use asm_lines::numbered_line::NumberedLine;
use asm_lines::term::AssemblerLine;
use asm_parts::entry::Entry;
use asm_parts::part::Part;
use asm_parts::pool_entries::Pool;
use asm_pool::constants::near_index;
use jv_types::{Attr, List, Member, NoMemory};
use std::alloc::Global;

/// Public and super (JVMS 4.1).
const DEFAULT_FLAGS: u16 = 0x0021;

/// The lists of a class, in the order of the lines.
#[derive(Drop)]
pub struct Sections {
    pub interfaces: List<u16>,
    pub fields: List<Member>,
    pub methods: List<Member>,
    pub attributes: List<Attr>,
}

/// The flags that a line tells.
fn flags_of(line: &NumberedLine<'_>) -> Option<u16>
    ensures { result ≡ flags_of (said_of line.now) }
{
    match &line.said {
        Ok(AssemblerLine::Flags(flags)) => Some(*flags),
        _ => None,
    }
}

/// The flags of a class: those that a line tells, where one does.
pub fn class_flags(parts: &[Part<'_>]) -> u16
    ensures { result ≡ unwrap_or (slice_get (all_of (λ part. flags_of) (parts_of parts.now)) 0) default_flags }
{
    for part in parts {
        if let Some(flags) = flags_of(&part.line) {
            return flags;
        }
    }
    DEFAULT_FLAGS
}

/// The interface that a line names.
fn interface_of(pool: &Pool<'_>, line: &NumberedLine<'_>) -> Option<u16>
    requires pool { IsPool pool.now }
    requires near { list_all (is_near (entries_in pool.now)) (line_entries (said_of line.now)) ≡ true }
    ensures { result ≡ interface_of (entries_in pool.now) (said_of line.now) }
{
    match &line.said {
        Ok(AssemblerLine::Implements(name)) => Some(near_index(pool, Entry::Class(name))),
        _ => None,
    }
}

/// The field that a line names.
fn field_of(
    alloc: Global,
    pool: &Pool<'_>,
    line: &NumberedLine<'_>,
) -> Result<Option<Member>, NoMemory>
    requires pool { IsPool pool.now }
    requires near { list_all (is_near (entries_in pool.now)) (line_entries (said_of line.now)) ≡ true }
    ensures { IfOk result (λ field. option_map member_of field ≡ field_of (entries_in pool.now) (said_of line.now)) }
{
    match &line.said {
        Ok(
            AssemblerLine::Field {
                flags,
                name,
                descriptor,
                value,
            },
        ) => {
            let field = field(alloc, pool, *flags, name, descriptor, *value)?;
            Ok(Some(field))
        }
        _ => Ok(None),
    }
}

/// The method that a line begins.
fn method_of(alloc: Global, pool: &Pool<'_>, part: &Part<'_>) -> Result<Option<Member>, NoMemory>
    requires pool { IsPool pool.now }
    requires near { list_all (is_near (entries_in pool.now)) (line_entries (said_of part.now.line)) ≡ true }
    requires block { needs_near (entries_in pool.now) (needs_by line_entries (lines_in part.now.block)) ≡ true }
    ensures { IfOk result (λ method. option_map member_of method
        ≡ method_of (entries_in pool.now) (part_of part.now) (said_of part.now.line)) }
{
    match &part.line.said {
        Ok(
            AssemblerLine::Method {
                flags,
                name,
                descriptor,
            },
        ) => {
            let method = method(alloc, pool, *flags, name, descriptor, part)?;
            Ok(Some(method))
        }
        _ => Ok(None),
    }
}

/// The attribute that a line names.
fn attribute_of(
    alloc: Global,
    pool: &Pool<'_>,
    line: &NumberedLine<'_>,
) -> Result<Option<Attr>, NoMemory>
    requires pool { IsPool pool.now }
    requires near { list_all (is_near (entries_in pool.now)) (line_entries (said_of line.now)) ≡ true }
    ensures { IfOk result (λ attribute. option_map attr_of attribute
        ≡ attribute_of (entries_in pool.now) (said_of line.now)) }
{
    match &line.said {
        Ok(AssemblerLine::Attribute { name, bytes }) => {
            let bytes = bytes.copy(alloc)?;
            let name = near_index(pool, Entry::Text(name));
            Ok(Some(Attr { name, bytes }))
        }
        _ => Ok(None),
    }
}

/// Adds an item, where there is one.
fn push_if_any<T: Drop>(items: &mut List<T>, item: Option<T>) -> Result<(), NoMemory>
    ensures { OnOk result (items.new.items ≡ items.old.items ++ cons_option item []) }
{
    match item {
        Some(item) => items.push(item),
        None => Ok(()),
    }
}

/// Adds what a line outside methods says, and the method that it begins.
fn push_part(
    alloc: Global,
    pool: &Pool<'_>,
    sections: &mut Sections,
    part: &Part<'_>,
) -> Result<(), NoMemory>
    requires pool { IsPool pool.now }
    requires near { needs_near (entries_in pool.now) (part_needs (part_of part.now)) ≡ true }
    ensures { OnOk result (IsSaidOnwards (entries_in pool.now) (part_of part.now) sections.old sections.new) }
{
    let interface = interface_of(pool, &part.line);
    let field = field_of(alloc, pool, &part.line)?;
    let method = method_of(alloc, pool, part)?;
    let attribute = attribute_of(alloc, pool, &part.line)?;
    push_if_any(&mut sections.interfaces, interface)?;
    push_if_any(&mut sections.fields, field)?;
    push_if_any(&mut sections.methods, method)?;
    push_if_any(&mut sections.attributes, attribute)
}

/// What the parts of a text say of a class.
pub fn read_sections(
    alloc: Global,
    pool: &Pool<'_>,
    parts: &[Part<'_>],
) -> Result<Sections, NoMemory>
    requires pool { IsPool pool.now }
    requires near { needs_near (entries_in pool.now) (flat_map part_needs (parts_of parts.now)) ≡ true }
    ensures { IfOk result (λ sections. IsSaid (entries_in pool.now) (parts_of parts.now) sections) }
{
    let mut sections = Sections {
        interfaces: List::new(alloc),
        fields: List::new(alloc),
        methods: List::new(alloc),
        attributes: List::new(alloc),
    };
    for part in parts {
        push_part(alloc, pool, &mut sections, part)?;
    }
    Ok(sections)
}
