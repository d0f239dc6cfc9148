//! The entries of the constant pool (JVMS 4.4), in the order of their first need.

ghost use Rattle.std.specs.Prelude.{◌≡◌, ◌+◌, [], true, IfOk, OnOk, fold, nat_lt, slice_index};
ghost use Rattle.std.specs.Str.{is_utf8};
ghost use Rattle.assembler_model.specs.PoolEntries.{with_parts};
ghost use Rattle.assembler_model.specs.AssemblerPool.{index_in, indices_of, is_too_far, with_entry};
ghost use Rattle.asm_parts.specs.Entries.{entry_of, has_texts};
ghost use Rattle.text_model.specs.Numerals.{most_u2};
ghost use Rattle.asm_parts.specs.declared.entry.Entry.TheVariants.{Member};
ghost use Rattle.asm_parts.specs.Pools.{entries_in, IsPool};

use crate::entry::Entry;
use crate::pool_entries::Pool;
use asm_lines::term::{MemberReference, ReferenceKind};
use indexmap::IndexSet;
use jv_types::{List, NoMemory};
use std::alloc::Global;

/// A text is UTF-8.
fn known_text(text: &str)
    ensures { is_utf8 text.now ≡ true }
{}

/// The names of an entry are UTF-8.
fn known_texts(entry: &Entry<'_>)
    ensures { has_texts entry.now ≡ true }
{
    match entry {
        Entry::Int(_) | Entry::Long(_) => {}
        Entry::Text(text) | Entry::Class(text) | Entry::String(text) => known_text(text),
        Entry::NameAndType(name, descriptor) => {
            known_text(name);
            known_text(descriptor);
        }
        Entry::Member(_, reference) => {
            known_text(reference.class);
            known_text(reference.name);
            known_text(reference.descriptor);
        }
    }
}

/// How many indices an entry takes: a Long takes two (JVMS 4.4.5).
fn indices_of(entry: &Entry<'_>) -> u32
    ensures { result ≡ indices_of (entry_of entry.now) }
{
    match entry {
        Entry::Long(_) => 2,
        _ => 1,
    }
}

/// No entry yet.
pub fn empty_pool<'a>(alloc: Global) -> Pool<'a>
    ensures pool { IsPool result }
    ensures entries { entries_in result ≡ [] }
{
    Pool {
        entries: IndexSet::new(alloc),
        indices: List::new(alloc),
        next: 1,
    }
}

/// The index at a place, where one is there.
fn index_at(indices: &List<u32>, place: usize) -> u32
    ensures { result ≡ slice_index indices.now.items place }
{
    match indices.as_slice().get(place) {
        Some(index) => *index,
        None => 0,
    }
}

/// Adds an entry, unless it is there. The index that it has.
fn add<'a>(pool: &mut Pool<'a>, entry: Entry<'a>) -> Result<u32, NoMemory>
    requires { IsPool pool.old }
    ensures pool { OnOk result (IsPool pool.new) }
    ensures added { OnOk result (entries_in pool.new ≡ with_entry (entries_in pool.old) (entry_of entry.entry)) }
    ensures index { IfOk result (λ index. index ≡ index_in (entries_in pool.new) (entry_of entry.entry)) }
{
    known_texts(&entry);
    pool.indices.reserve(1)?;
    let Some(next) = pool.next.checked_add(indices_of(&entry)) else {
        return Err(NoMemory);
    };
    let (place, is_new) = pool.entries.insert_full(entry)?;
    if !is_new {
        return Ok(index_at(&pool.indices, place));
    }
    let index = pool.next;
    pool.indices.add(index);
    pool.next = next;
    Ok(index)
}

/// The index of an entry. Where it isn't there, it is the one that it would have.
pub fn index_of(pool: &Pool<'_>, entry: Entry<'_>) -> u32
    requires { IsPool pool.now }
    ensures { result ≡ index_in (entries_in pool.now) (entry_of entry.entry) }
{
    known_texts(&entry);
    match pool.entries.get_index_of(&entry) {
        Some(place) => index_at(&pool.indices, place),
        None => pool.next,
    }
}

/// Adds an entry, unless it is there.
fn add_last<'a>(pool: &mut Pool<'a>, entry: Entry<'a>) -> Result<(), NoMemory>
    requires { IsPool pool.old }
    ensures pool { OnOk result (IsPool pool.new) }
    ensures added { OnOk result (entries_in pool.new ≡ with_entry (entries_in pool.old) (entry_of entry.entry)) }
{
    add(pool, entry)?;
    Ok(())
}

/// Adds a reference to a field or a method behind its parts.
#[tactic(auto, unfolding(assembler_model::specs::PoolEntries::with_parts))]
fn need_member<'a>(
    pool: &mut Pool<'a>,
    kind: ReferenceKind,
    reference: MemberReference<'a>,
) -> Result<(), NoMemory>
    requires { IsPool pool.old }
    ensures pool { OnOk result (IsPool pool.new) }
    ensures added { OnOk result (entries_in pool.new
        ≡ fold with_entry (entries_in pool.old) (with_parts (entry_of (Member kind reference.entry)))) }
{
    add_last(pool, Entry::Text(reference.class))?;
    add_last(pool, Entry::Class(reference.class))?;
    add_last(pool, Entry::Text(reference.name))?;
    add_last(pool, Entry::Text(reference.descriptor))?;
    add_last(
        pool,
        Entry::NameAndType(reference.name, reference.descriptor),
    )?;
    add_last(pool, Entry::Member(kind, reference))
}

/// Adds an entry behind its parts, each unless it is there.
#[tactic(auto, unfolding(assembler_model::specs::PoolEntries::with_parts))]
pub fn need<'a>(pool: &mut Pool<'a>, entry: Entry<'a>) -> Result<(), NoMemory>
    requires { IsPool pool.old }
    ensures pool { OnOk result (IsPool pool.new) }
    ensures added { OnOk result (entries_in pool.new
        ≡ fold with_entry (entries_in pool.old) (with_parts (entry_of entry.entry))) }
{
    match entry {
        Entry::Text(_) | Entry::Int(_) | Entry::Long(_) => add_last(pool, entry),
        Entry::Class(name) => {
            add_last(pool, Entry::Text(name))?;
            add_last(pool, entry)
        }
        Entry::String(text) => {
            add_last(pool, Entry::Text(text))?;
            add_last(pool, entry)
        }
        Entry::NameAndType(name, descriptor) => {
            add_last(pool, Entry::Text(name))?;
            add_last(pool, Entry::Text(descriptor))?;
            add_last(pool, entry)
        }
        Entry::Member(kind, reference) => need_member(pool, kind, reference),
    }
}

/// Whether two bytes don't hold an entry's own index.
fn is_far(pool: &Pool<'_>, entry: Entry<'_>) -> bool
    requires { IsPool pool.now }
    ensures { result ≡ nat_lt most_u2 (index_in (entries_in pool.now) (entry_of entry.entry)) }
{
    index_of(pool, entry) > 0xffff
}

/// Whether two bytes don't hold the index of an entry or of a part of it.
#[tactic(auto, unfolding(assembler_model::specs::PoolEntries::with_parts))]
pub fn is_too_far(pool: &Pool<'_>, entry: Entry<'_>) -> bool
    requires { IsPool pool.now }
    ensures { result ≡ is_too_far (entries_in pool.now) (entry_of entry.entry) }
{
    match entry {
        Entry::Text(_) | Entry::Int(_) | Entry::Long(_) => is_far(pool, entry),
        Entry::Class(name) => is_far(pool, Entry::Text(name)) || is_far(pool, entry),
        Entry::String(text) => is_far(pool, Entry::Text(text)) || is_far(pool, entry),
        Entry::NameAndType(name, descriptor) => {
            is_far(pool, Entry::Text(name))
                || is_far(pool, Entry::Text(descriptor))
                || is_far(pool, entry)
        }
        Entry::Member(_, reference) => {
            is_far(pool, Entry::Text(reference.class))
                || is_far(pool, Entry::Class(reference.class))
                || is_far(pool, Entry::Text(reference.name))
                || is_far(pool, Entry::Text(reference.descriptor))
                || is_far(
                    pool,
                    Entry::NameAndType(reference.name, reference.descriptor),
                )
                || is_far(pool, entry)
        }
    }
}
