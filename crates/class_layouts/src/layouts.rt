//! Layouts by class.

ghost use Rattle.std.specs.Prelude.{◌≡◌, ◌++◌, ◌∷◌, [], ◌<◌, IfOk, IsTrue, OnOk, bytes_eq, length, map, reverse};
ghost use Rattle.std.specs.List.{IsDistinct};
ghost use Rattle.class_world.specs.World.{names_of};
ghost use Rattle.class_layouts.specs.ByNumber.{own_fields, own_cells, is_inside, are_inside, all_fields, all_cells};
ghost use Rattle.class_layouts.specs.Layouts.{AreLayouts};

use class_members::FieldRow;
use class_world::{FieldPlace, World};
use heap_face::{Cell, Layouts};
use jv_types::{ClassNo, List, NoMemory};
use std::alloc::Global;
use world_tables::{chains, fields};

/// Which fields the objects of each class have, in order, and what these hold.
#[derive(Debug, Drop)]
pub struct ClassLayouts {
    /// For each class, by number, its fields in the order of its layout.
    pub fields: List<List<FieldPlace>>,
    /// What they hold.
    pub layouts: Layouts,
}

/// The layout of one class.
#[derive(Debug, Drop)]
struct Layout {
    fields: List<FieldPlace>,
    cells: List<Cell>,
}

/// Adds a field to a layout, unless it's static.
fn add_field(
    layout: &mut Layout,
    class: ClassNo,
    index: u32,
    row: &FieldRow,
) -> Result<(), NoMemory>
    ensures fields { OnOk result (layout.new.fields.items
        ≡ layout.old.fields.items ++ own_fields class index (row.now ∷ [])) }
    ensures cells { OnOk result (layout.new.cells.items
        ≡ layout.old.cells.items ++ own_cells (row.now ∷ [])) }
{
    if row.is_static {
        return Ok(());
    }
    layout.fields.push(FieldPlace { class, index })?;
    layout.cells.push(row.cell)?;
    Ok(())
}

/// Adds the fields that a class declares for its objects to a layout.
fn add_own(layout: &mut Layout, class: ClassNo, rows: &List<FieldRow>) -> Result<(), NoMemory>
    ensures fields { OnOk result (layout.new.fields.items
        ≡ layout.old.fields.items ++ own_fields class 0 rows.now.items) }
    ensures cells { OnOk result (layout.new.cells.items
        ≡ layout.old.cells.items ++ own_cells rows.now.items) }
{
    for index in 0..rows.len() {
        add_field(layout, class, index, rows.get(index))?;
    }
    Ok(())
}

/// The layout of the class whose superclasses, itself first, are these.
fn layout_of(
    alloc: Global,
    chain: &[ClassNo],
    rows: &List<List<FieldRow>>,
) -> Result<Layout, NoMemory>
    requires { IsTrue (is_inside (length rows.now.items) chain.now) }
    ensures fields { IfOk result (λ layout.
        layout.fields.items ≡ all_fields rows.now.items (reverse chain.now)) }
    ensures cells { IfOk result (λ layout.
        layout.cells.items ≡ all_cells rows.now.items (reverse chain.now)) }
{
    let mut layout = Layout {
        fields: List::new(alloc),
        cells: List::new(alloc),
    };
    let mut left = chain.len();
    while left > 0 {
        left -= 1;
        let class = chain[left];
        add_own(&mut layout, class, rows.get(class.0))?;
    }
    Ok(layout)
}

/// The layouts of the classes whose superclasses are these.
fn layouts_of(
    alloc: Global,
    chains: &[List<ClassNo>],
    rows: &List<List<FieldRow>>,
) -> Result<ClassLayouts, NoMemory>
    requires { IsTrue (are_inside (length rows.now.items) chains.now) }
    ensures fields { IfOk result (λ layouts. map (λ row. row.items) layouts.fields.items
        ≡ map (λ chain. all_fields rows.now.items (reverse chain.items)) chains.now) }
    ensures cells { IfOk result (λ layouts. map (λ row. row.items) layouts.layouts.classes.items
        ≡ map (λ chain. all_cells rows.now.items (reverse chain.items)) chains.now) }
{
    let mut fields = List::new(alloc);
    let mut classes = List::new(alloc);
    for chain in chains {
        let layout = layout_of(alloc, chain.as_slice(), rows)?;
        fields.push(layout.fields)?;
        classes.push(layout.cells)?;
    }
    let layouts = Layouts { classes };
    Ok(ClassLayouts { fields, layouts })
}

impl ClassLayouts {
    /// The layouts of the classes of a world. It fails only for want of memory.
    pub fn open(alloc: Global, world: &World) -> Result<ClassLayouts, NoMemory>
        requires { IsDistinct bytes_eq (names_of world.now) }
        ensures { IfOk result (λ layouts. AreLayouts world.now layouts) }
    {
        let chains = chains(alloc, world)?;
        let rows = fields(alloc, world)?;
        let layouts = layouts_of(alloc, chains.as_slice(), &rows)?;
        Ok(layouts)
    }
}
