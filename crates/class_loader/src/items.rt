//! The items of a manifest.

ghost use Rattle.std.specs.Prelude.{◌≡◌, ◌≤◌, ◌<◌, ◌+◌, ◌^◌, All, IfOk, OnOk, map, length};
ghost use Rattle.jv_model.specs.Limits.{most_file_bytes, most_all_files_bytes};
ghost use Rattle.manifest_laws.specs.Laws.{BlockIsWithin, FormIsWithin};
ghost use Rattle.load_model.specs.LoadItems.{load_items};
ghost use Rattle.manifest_reader.specs.Items.{item_of, class_of};
ghost use Rattle.class_loader.specs.Outside.{read};
ghost use Rattle.class_loader.specs.Loads.{IsLoaded};
ghost use Rattle.class_loader.specs.Items.{classes_in, AreRead, AddsClass, AddsItem};

use crate::class::load_item;
use crate::stop::Stop;
use jv_outer::Files;
use jv_types::{List, Loaded};
use manifest_reader::{ClassItem, ManifestItem};
use std::alloc::Global;

/// What the items so far brought.
#[derive(Drop)]
pub(crate) struct Gathered {
    pub(crate) classes: List<Loaded>,
    /// The bytes of all class files.
    pub(crate) bytes: u64,
}

/// Adds the class of an item.
fn add_class<F: Files>(
    alloc: Global,
    files: &mut F,
    number: u32,
    item: &ClassItem<'_>,
    gathered: &mut Gathered,
) -> Result<(), Stop>
    requires { gathered.old.bytes ≤ most_all_files_bytes }
    ensures class { AddsClass result (read F.folder F.asked F.faults files.old files.new) number
        (class_of item.now) gathered.old gathered.new }
    ensures read { FormIsWithin most_file_bytes (class_of item.now).form
        → OnOk result (AreRead gathered.old.classes → AreRead gathered.new.classes) }
    ensures folder { F.folder files.new ≡ F.folder files.old }
    ensures within { gathered.new.bytes ≤ most_all_files_bytes }
{
    let loaded = load_item(alloc, files, number, gathered.bytes, item)?;
    gathered.classes.push(loaded.class)?;
    gathered.bytes = loaded.bytes;
    Ok(())
}

/// Adds what an item brings. An update brings no class.
fn add_item<F: Files>(
    alloc: Global,
    files: &mut F,
    number: u32,
    item: &ManifestItem<'_>,
    gathered: &mut Gathered,
) -> Result<(), Stop>
    requires { gathered.old.bytes ≤ most_all_files_bytes }
    ensures item { AddsItem result (read F.folder F.asked F.faults files.old files.new) number
        (item_of item.now) gathered.old gathered.new }
    ensures read { BlockIsWithin most_file_bytes (item_of item.now)
        → OnOk result (AreRead gathered.old.classes → AreRead gathered.new.classes) }
    ensures folder { F.folder files.new ≡ F.folder files.old }
    ensures within { gathered.new.bytes ≤ most_all_files_bytes }
{
    match item {
        ManifestItem::Class(item) => add_class(alloc, files, number, item, gathered),
        ManifestItem::Update(_) => Ok(()),
    }
}

/// The classes of a manifest's items in order, each directly after the one before it.
///
/// The error is the first refusal, which stands at the item's number, from 1 on. That a class has
/// another name than its line says stands at that line, item 0. Nothing behind it is read.
pub fn load_items<F: Files>(
    alloc: Global,
    files: &mut F,
    items: &List<ManifestItem<'_>>,
) -> Result<List<Loaded>, Stop>
    ensures loaded { IsLoaded classes_in result (read F.folder F.asked F.faults files.old files.new)
        (λ folder. load_items folder 1 0 (map item_of items.now.items)) }

    // Whatever files hold, the classes are ones of the profile with the code that their files have,
    // where no block is longer than a file may be.
    ensures read { All (BlockIsWithin most_file_bytes) (map item_of items.now.items)
        → IfOk result AreRead }

    ensures folder { F.folder files.new ≡ F.folder files.old }
{
    let mut gathered = Gathered {
        classes: List::new(alloc),
        bytes: 0,
    };
    for index in 0..items.len() {
        add_item(alloc, files, index + 1, items.get(index), &mut gathered)?;
    }
    Ok(gathered.classes)
}
