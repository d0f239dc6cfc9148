//! The Strings in the pools of the classes of a world.

ghost use Rattle.std.specs.Prelude.{◌≡◌, ◌≤◌, [], IfOk, None, OnOk, length, option_to_list, replicate, true};
ghost use Rattle.jv_types.specs.ClassData.{const_of, pool_of};
ghost use Rattle.world_literals.specs.Literals.{have, literals_of, named_literals, origin_strings, pool_strings, string_in};
ghost use Rattle.world_literals.specs.Growing.{with_all};

use class_names::Names;
use class_world::{Origin, World};
use jv_types::{ClassNo, Const, NoMemory, text_at};
use literal_table::LiteralTable;
use std::alloc::Global;

/// Adds the text of an entry that is a String, and nothing for another.
fn add_entry(
    alloc: Global,
    texts: &mut Names,
    pool: &[Const],
    entry: &Const,
) -> Result<(), NoMemory>
    ensures { OnOk result (texts.new ≡ with_all texts.old
        (option_to_list (string_in (pool_of pool.now) (const_of entry.now)))) }
{
    if let Const::String(text) = entry {
        texts.add(alloc, text_at(pool, *text))?;
    }
    Ok(())
}

/// Adds the texts of the Strings of a pool.
fn add_pool(alloc: Global, texts: &mut Names, pool: &[Const]) -> Result<(), NoMemory>
    ensures { OnOk result (texts.new ≡ with_all texts.old (pool_strings (pool_of pool.now))) }
{
    for entry in pool {
        add_entry(alloc, texts, pool, entry)?;
    }
    Ok(())
}

/// Adds the texts of the Strings of a class.
fn add_class(alloc: Global, texts: &mut Names, origin: &Origin) -> Result<(), NoMemory>
    ensures { OnOk result (texts.new ≡ with_all texts.old (origin_strings origin.now)) }
{
    match origin {
        Origin::Boot(_) => Ok(()),
        Origin::Program(loaded) => add_pool(alloc, texts, loaded.file.pool.as_slice()),
    }
}

/// The literals of a world by number. Each that an instruction of a method of the world loads is
/// among them, and each with which a static field starts. It fails only for want of memory, or of
/// numbers of 32 bits.
pub fn literals(alloc: Global, world: &World) -> Result<Names, NoMemory>
    ensures texts { IfOk result (λ texts. texts ≡ literals_of world.now) }
    ensures named { IfOk result (λ texts. have texts (named_literals world.now) ≡ true) }
{
    let mut texts = Names::new(alloc);
    for class in 0..world.classes() {
        add_class(alloc, &mut texts, &world.class(ClassNo(class)).origin)?;
    }
    Ok(texts)
}

/// A table of the literals of a world, none of which is interned, with places for at least `room`
/// strings and for one of each literal. It fails as `literals` does.
pub fn open_literals(alloc: Global, world: &World, room: u32) -> Result<LiteralTable, NoMemory>
    ensures texts { IfOk result (λ table. table.texts ≡ literals_of world.now) }
    ensures named { IfOk result (λ table. have table.texts (named_literals world.now) ≡ true) }
    ensures addresses { IfOk result (λ table.
        table.addresses ≡ replicate (length table.texts) None) }
    ensures order { IfOk result (λ table. table.order ≡ []) }
    ensures room { IfOk result (λ table. room ≤ table.left) }
    ensures each { IfOk result (λ table. length table.texts ≤ table.left) }
{
    let texts = literals(alloc, world)?;
    LiteralTable::open(alloc, texts, room)
}
