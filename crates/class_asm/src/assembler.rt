//! From a text to the class that it describes.

ghost use Rattle.std.specs.Prelude.{◌≡◌, ◌≤◌, ◌+◌, ℕ, List, [], Some, None, true, length, IfOk, MatchResult, OnOk};
ghost use Rattle.jv_model.specs.Limits.{most_file_bytes};
ghost use Rattle.jv_model.specs.Lines.{lines_of};
ghost use Rattle.jv_model.specs.Profile.{IsInProfile};
ghost use Rattle.jv_model.specs.Utf16.{units_of_utf8};
ghost use Rattle.text_model.specs.LineFaults.{Fault, first_fault};
ghost use Rattle.assembler_model.specs.AssembledClass.{assembled, class_of_parts, class_said, class_unless, faults_behind_head};
ghost use Rattle.assembler_model.specs.AssemblerOrder.{parts_of as parts_read};
ghost use Rattle.assembler_model.specs.AssemblerPool.{entries_of};
ghost use Rattle.assembler_model.specs.PoolNeeds.{all_needs};
ghost use Rattle.jv_types.specs.ClassData.{class_data_of};
ghost use Rattle.asm_parts.specs.Faults.{either, told_by};
ghost use Rattle.asm_parts.specs.Parts.{parts_of};
ghost use Rattle.asm_parts.specs.Pools.{entries_in, IsPool};
ghost use Rattle.asm_pool.specs.Near.{AreNear, needs_near};
ghost use Rattle.asm_pool.specs.Needs.{needs_of};
ghost use Rattle.class_asm.specs.Assembles.{Assembles, fault_told, head_fault};

use crate::error::AsmError;
use crate::faults::note_parts;
use crate::head::{Names, read_head};
use crate::numbers::last_line;
use crate::sections::{class_flags, read_sections};
use asm_parts::entry::Entry;
use asm_parts::fault::no_fault;
use asm_parts::first_fault::FirstFault;
use asm_parts::order::note_order;
use asm_parts::part::Part;
use asm_parts::parts::read_parts;
use asm_parts::pool_entries::Pool;
use asm_pool::constants::{constants, near_index};
use asm_pool::fill::{fill, note_far};
use asm_pool::need::Need;
use asm_pool::needs::all_needs;
use jv_types::{ClassData, NoMemory};
use std::alloc::Global;

/// The class with these names that parts without a fault describe.
fn class_of(
    alloc: Global,
    names: Names<'_>,
    pool: &Pool<'_>,
    parts: &[Part<'_>],
) -> Result<ClassData, NoMemory>
    requires pool { IsPool pool.now }
    requires entries { AreNear (entries_in pool.now) }
    requires needed { needs_near (entries_in pool.now)
        (all_needs (units_of_utf8 names.this.now) (units_of_utf8 names.super_class.now) (parts_of parts.now)) ≡ true }
    ensures { IfOk result (λ class. class_data_of class ≡ class_said (units_of_utf8 names.entry.this.now)
        (units_of_utf8 names.entry.super_class.now) (parts_of parts.now) (entries_in pool.now)) }
{
    let sections = read_sections(alloc, pool, parts)?;
    Ok(ClassData {
        minor: 0,
        major: 52,
        pool: constants(alloc, pool)?,
        flags: class_flags(parts),
        this_class: near_index(pool, Entry::Class(names.this)),
        super_class: near_index(pool, Entry::Class(names.super_class)),
        interfaces: sections.interfaces,
        fields: sections.fields,
        methods: sections.methods,
        attributes: sections.attributes,
    })
}

/// Notes all that is wrong with parts, whose last line has this number.
fn note_behind(
    alloc: Global,
    pool: &Pool<'_>,
    needs: &[Need<'_>],
    last: u32,
    parts: &[Part<'_>],
    first: &mut FirstFault,
) -> Result<(), NoMemory>
    requires pool { IsPool pool.now }
    requires entries { entries_in pool.now ≡ entries_of (needs_of needs.now) }
    ensures told { OnOk result ((this : List ℕ) (super : List ℕ) → needs_of needs.now ≡ all_needs this super (parts_of parts.now)
        → told_by first.new ≡ either (told_by first.old)
        (first_fault (faults_behind_head last this super (parts_of parts.now) (entries_in pool.now)))) }
    ensures near { OnOk result (told_by first.new ≡ None → AreNear (entries_in pool.now)) }
    ensures needed { OnOk result (told_by first.new ≡ None → needs_near (entries_in pool.now) (needs_of needs.now) ≡ true) }
{
    note_order(parts, first);
    note_far(pool, needs, first);
    note_parts(alloc, pool, last, parts, first)
}

/// The class with these names and parts, whose needs made the pool; or what is wrong first. The last
/// line has this number.
fn assemble_needed(
    alloc: Global,
    names: Names<'_>,
    pool: &Pool<'_>,
    needs: &[Need<'_>],
    last: u32,
    parts: &[Part<'_>],
) -> Result<ClassData, AsmError>
    requires pool { IsPool pool.now }
    requires entries { entries_in pool.now ≡ entries_of (needs_of needs.now) }
    requires needs { needs_of needs.now
        ≡ all_needs (units_of_utf8 names.this.now) (units_of_utf8 names.super_class.now) (parts_of parts.now) }
    ensures { Assembles result (class_unless (units_of_utf8 names.entry.this.now)
        (units_of_utf8 names.entry.super_class.now) [] last (parts_of parts.now) (entries_in pool.now)) }
{
    let mut first = no_fault();
    note_behind(alloc, pool, needs, last, parts, &mut first)?;
    match first.told {
        Some(fault) => Err(AsmError::Line(fault)),
        None => Ok(class_of(alloc, names, pool, parts)?),
    }
}

/// The class with these names, needs and parts, or what is wrong first. The last line has this
/// number.
fn assemble_filled(
    alloc: Global,
    names: Names<'_>,
    needs: &[Need<'_>],
    last: u32,
    parts: &[Part<'_>],
) -> Result<ClassData, AsmError>
    requires { needs_of needs.now
        ≡ all_needs (units_of_utf8 names.this.now) (units_of_utf8 names.super_class.now) (parts_of parts.now) }
    ensures { Assembles result (class_of_parts (units_of_utf8 names.entry.this.now)
        (units_of_utf8 names.entry.super_class.now) [] last (parts_of parts.now)) }
{
    let pool = fill(alloc, needs)?;
    assemble_needed(alloc, names, &pool, needs, last, parts)
}

/// The class with these names and parts, or what is wrong first. The last line has this number.
fn assemble_parts<'a>(
    alloc: Global,
    names: Names<'a>,
    last: u32,
    parts: &[Part<'a>],
) -> Result<ClassData, AsmError>
    ensures { Assembles result (class_of_parts (units_of_utf8 names.entry.this.now)
        (units_of_utf8 names.entry.super_class.now) [] last (parts_of parts.now)) }
{
    let needs = all_needs(alloc, names.this, names.super_class, parts)?;
    assemble_filled(alloc, names, needs.as_slice(), last, parts)
}

/// The class with these names and these lines, or what is wrong first.
fn assemble_behind<'a>(
    alloc: Global,
    names: Names<'a>,
    behind: &'a [u8],
) -> Result<ClassData, AsmError>
    ensures { Assembles result (class_of_parts (units_of_utf8 names.entry.this.now) (units_of_utf8 names.entry.super_class.now)
        [] (length (lines_of behind.now) + 1) (parts_read (lines_of behind.now))) }
{
    let parts = read_parts(alloc, behind)?;
    assemble_parts(alloc, names, last_line(behind)?, parts.as_slice())
}

/// The class that an assembler text describes, of Java SE 8.
///
/// The error is the text's first fault: one of the least line, counted from 1, and there of the
/// least rank; or want of memory. What is wrong with the first line is told before any memory is
/// asked for.
pub fn assemble(alloc: Global, text: &[u8]) -> Result<ClassData, AsmError>
    ensures class { Assembles result (assembled text.now) }

    // A text that is no longer than a file may be gives a class in the profile, so its code can be
    // read. The grammar alone bounds no length that a class file writes as a number.
    ensures profile { length text.now ≤ most_file_bytes
        → IfOk result (λ class. IsInProfile (class_data_of class)) }

    // What is wrong with the first line is told, however little memory there is.
    ensures early { (fault : Fault) → head_fault (lines_of text.now) ≡ Some fault
        → MatchResult result (λ _. ⊥) (λ error. fault_told error ≡ Some fault) }
{
    let head = read_head(text)?;
    assemble_behind(alloc, head.names, head.behind)
}
