//! Where the fields of classes stand in objects.

ghost use Rattle.std.specs.Prelude.{◌≡◌, ◌<◌, ◌==◌, [], None, Some, IfOk, IsSome, bytes_eq, if◌then◌else◌, length, map, option_map, replicate, slice_set};
ghost use Rattle.std.specs.List.{IsDistinct};
ghost use Rattle.class_world.specs.World.{HaveMembersOnce, class_of_origin, names_of};
ghost use Rattle.class_layouts.specs.Layouts.{AreLayouts};
ghost use Rattle.look_up_cache.specs.Found.{slot_by};
ghost use Rattle.look_up_cache.specs.Words.{AreInside, AreRows, AreWords, AreWordsOf, entry_at};

use crate::slot::Slot;
use class_versions::Versions;
use class_world::{FieldPlace, Origin, World};
use jv_types::{ClassNo, List, NoMemory};
use std::alloc::Global;
use std::marker::Model;

/// For each field that a class declares, by its class and its index there, its place among the
/// fields of objects, or none where it's static. So no layout is searched for a field.
#[derive(Drop)]
pub struct FieldWords {
    rows: List<List<Option<u32>>>,
}

impl Model for FieldWords {
    ghost use Rattle.std.specs.Prelude.{map};
    ghost use Rattle.look_up_cache.specs.Words.{Words};

    ghost Value = { Words };

    ghost view = { λ it. map (λ row. row.items) it.rows.items };
}

/// How many fields a class declares.
fn field_count(origin: &Origin) -> u32
    ensures { result ≡ length (class_of_origin [] origin.now).fields }
{
    match origin {
        Origin::Boot(class) => class.fields.len(),
        Origin::Program(loaded) => loaded.file.fields.len(),
    }
}

/// No places for so many fields.
fn no_words(alloc: Global, count: u32) -> Result<List<Option<u32>>, NoMemory>
    ensures { IfOk result (λ words. words.items ≡ replicate count None) }
{
    List::from_vec(vec![in alloc; None; count as usize]?)
}

/// Notes the place of a field of a class, and nothing for one of another class.
fn note_word(words: &mut List<Option<u32>>, class: ClassNo, place: FieldPlace, word: u32)
    requires { place.class.0 ≡ class.0 → place.index < length words.old.items }
    ensures { words.new.items ≡ (if place.class.0 == class.0
        then slice_set words.old.items place.index (Some word) else words.old.items) }
{
    if place.class.0 == class.0 {
        words.set(place.index, Some(word));
    }
}

/// The places of the fields of a class, of which it declares so many, in the layout of its objects.
fn words_of(
    alloc: Global,
    class: ClassNo,
    count: u32,
    layout: &List<FieldPlace>,
) -> Result<List<Option<u32>>, NoMemory>
    requires { AreInside class count layout.now.items }
    ensures { IfOk result (λ words. AreWordsOf class count layout.now.items words.items) }
{
    let mut words = no_words(alloc, count)?;
    for word in 0..layout.len() {
        note_word(&mut words, class, *layout.get(word), word);
    }
    Ok(words)
}

/// Those of all classes.
fn all_words(
    alloc: Global,
    world: &World,
    versions: &Versions,
) -> Result<List<List<Option<u32>>>, NoMemory>
    requires apart { IsDistinct bytes_eq (names_of world.now) }
    requires layouts { AreLayouts world.now versions.now.layouts }
    ensures { IfOk result (λ rows. AreRows world.now versions.now.layouts.fields.items
        (map (λ row. row.items) rows.items)) }
{
    let mut rows = List::new(alloc);
    for class in 0..world.classes() {
        let class = ClassNo(class);
        let count = field_count(&world.class(class).origin);
        rows.push(words_of(alloc, class, count, versions.layout(class))?)?;
    }
    Ok(rows)
}

impl FieldWords {
    /// The places of the fields of a world. It fails only for want of memory.
    pub fn open(alloc: Global, world: &World, versions: &Versions) -> Result<FieldWords, NoMemory>
        requires apart { IsDistinct bytes_eq (names_of world.now) }
        requires once { HaveMembersOnce world.now }
        requires layouts { AreLayouts world.now versions.now.layouts }
        ensures { IfOk result (λ words. AreWords world.now words) }
    {
        let rows = all_words(alloc, world, versions)?;
        Ok(FieldWords { rows })
    }

    /// What stands for a field of a class.
    pub fn slot(&self, place: FieldPlace) -> Slot
        requires { IsSome (entry_at self.now place) }
        ensures { option_map (slot_by place) (entry_at self.now place) ≡ Some result }
    {
        match self.rows.get(place.class.0).get(place.index) {
            Some(word) => Slot::Field(*word),
            None => Slot::Static(place),
        }
    }
}
