//! The constant pool as a class has it.

ghost use Rattle.std.specs.Prelude.{◌≡◌, ◌++◌, ◌∷◌, [], false, IfOk, OnOk};
ghost use Rattle.assembler_model.specs.AssemblerPool.{const_of, index_in, is_too_far, pool_of};
ghost use Rattle.asm_parts.specs.Entries.{entry_of};
ghost use Rattle.asm_parts.specs.Pools.{entries_in, IsPool};
ghost use Rattle.asm_parts.specs.declared.entry.Entry.TheVariants.{Member};
ghost use Rattle.jv_types.specs.ClassData.{const_of as const_view, pool_of as constants_of};
ghost use Rattle.asm_pool.specs.Near.{AreNear};

use asm_lines::term::{MemberReference, ReferenceKind};
use asm_parts::entry::Entry;
use asm_parts::pool::index_of;
use asm_parts::pool_entries::Pool;
use jv_types::text::units;
use jv_types::{Const, List, NoMemory};
use std::alloc::Global;

/// The index of an entry that two bytes hold.
pub fn near_index(pool: &Pool<'_>, entry: Entry<'_>) -> u16
    requires pool { IsPool pool.now }
    requires near { is_too_far (entries_in pool.now) (entry_of entry) ≡ false }
    ensures { result ≡ index_in (entries_in pool.now) (entry_of entry.entry) }
{
    index_of(pool, entry) as u16
}

/// A reference to a field or a method (JVMS 4.4.2).
fn reference_const(pool: &Pool<'_>, kind: ReferenceKind, reference: MemberReference<'_>) -> Const
    requires pool { IsPool pool.now }
    requires near { is_too_far (entries_in pool.now) (entry_of (Member kind reference)) ≡ false }
    ensures { const_of (entries_in pool.now) (entry_of (Member kind reference.entry)) ≡ const_view result ∷ [] }
{
    let class = near_index(pool, Entry::Class(reference.class));
    let pair = near_index(
        pool,
        Entry::NameAndType(reference.name, reference.descriptor),
    );
    match kind {
        ReferenceKind::Field => Const::Fieldref(class, pair),
        ReferenceKind::Method => Const::Methodref(class, pair),
        ReferenceKind::InterfaceMethod => Const::InterfaceMethodref(class, pair),
    }
}

/// Adds an entry as it stands in the file: a Long takes two indices (JVMS 4.4.5).
fn push_constant(
    alloc: Global,
    constants: &mut List<Const>,
    pool: &Pool<'_>,
    entry: Entry<'_>,
) -> Result<(), NoMemory>
    requires pool { IsPool pool.now }
    requires near { is_too_far (entries_in pool.now) (entry_of entry) ≡ false }
    ensures { OnOk result (constants_of constants.new.items
        ≡ constants_of constants.old.items ++ const_of (entries_in pool.now) (entry_of entry.entry)) }
{
    match entry {
        Entry::Text(text) => constants.push(Const::Utf8(units(alloc, text)?)),
        Entry::Int(value) => constants.push(Const::Integer(value)),
        Entry::Long(value) => {
            constants.push(Const::Long(value))?;
            constants.push(Const::Gap)
        }
        Entry::Class(name) => { constants.push(Const::Class(near_index(pool, Entry::Text(name)))) }
        Entry::String(text) => {
            constants.push(Const::String(near_index(pool, Entry::Text(text))))
        }
        Entry::NameAndType(name, descriptor) => {
            let name = near_index(pool, Entry::Text(name));
            let descriptor = near_index(pool, Entry::Text(descriptor));
            constants.push(Const::NameAndType(name, descriptor))
        }
        Entry::Member(kind, reference) => { constants.push(reference_const(pool, kind, reference)) }
    }
}

/// The constant pool by index, so that it begins with a gap.
#[tactic(auto, unfolding(assembler_model::specs::AssemblerPool::pool_of))]
pub fn constants(alloc: Global, pool: &Pool<'_>) -> Result<List<Const>, NoMemory>
    requires pool { IsPool pool.now }
    requires near { AreNear (entries_in pool.now) }
    ensures { IfOk result (λ constants. constants_of constants.items ≡ pool_of (entries_in pool.now)) }
{
    let mut constants = List::new(alloc);
    constants.push(Const::Gap)?;
    for entry in pool.entries.as_slice() {
        push_constant(alloc, &mut constants, pool, *entry)?;
    }
    Ok(constants)
}
