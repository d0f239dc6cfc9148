//! Tables of methods by signature.

ghost use Rattle.std.specs.Prelude.{◌≡◌, ◌&&◌, ◌<◌, IfOk, IsSome, IsTrue, None, OnOk, Some, bytes_eq, if◌then◌else◌, length, map, ℕ};
ghost use Rattle.std.specs.List.{IsDistinct};
ghost use Rattle.std.specs.Option.{option_or};
ghost use Rattle.selection_table.specs.Selection.{selected_in};
ghost use Rattle.class_world.specs.World.{HaveMembersOnce, names_of};
ghost use Rattle.class_methods.specs.Signatures.{AreSignatures, signature_at};
ghost use Rattle.class_dispatch.specs.Tables.{HaveSignatures, RowSignatures, are_inside, chain_in, is_inside, key_of, own_in, same_number, AreTables};
ghost use Rattle.class_dispatch.specs.Dispatch.{Selects, selected_by};

use crate::rows::rows;
use class_methods::MethodSignatures;
use class_names::Signature;
use class_world::World;
use jv_types::{ClassNo, List, MethodNo, NoMemory};
use selection_table::SelectionTable;
use std::alloc::Global;
use std::marker::Model;
use world_tables::chains;

/// What a table has a signature's method by. The number of a signature stands for its name and its
/// descriptor at once.
fn key(signature: u32) -> Signature
    ensures { result ≡ key_of signature }
{
    Signature {
        name: signature,
        descriptor: 0,
    }
}

/// Adds a method to a table, where it may be selected and none of its signature is there.
fn add_method(
    table: &mut SelectionTable,
    signatures: &MethodSignatures,
    method: MethodNo,
    is_selectable: bool,
) -> Result<(), NoMemory>
    requires { IsSome (signature_at signatures.now method) }
    ensures { OnOk result ((signature : ℕ) → selected_in table.new (key_of signature)
        ≡ option_or (selected_in table.old (key_of signature))
        (if is_selectable && same_number (signature_at signatures.now method) signature
        then Some method else None)) }
{
    if is_selectable {
        table.add(key(signatures.signature(method)), method)?;
    }
    Ok(())
}

/// Adds the methods of a class.
fn add_own(
    table: &mut SelectionTable,
    signatures: &MethodSignatures,
    class: ClassNo,
    row: &List<bool>,
) -> Result<(), NoMemory>
    requires { RowSignatures signatures.now class row.now.items }
    ensures { OnOk result ((signature : ℕ) → selected_in table.new (key_of signature)
        ≡ option_or (selected_in table.old (key_of signature))
        (own_in signatures.now class 0 row.now.items signature)) }
{
    for index in 0..row.len() {
        add_method(
            table,
            signatures,
            MethodNo { class, index },
            *row.get(index),
        )?;
    }
    Ok(())
}

/// The table of a class whose superclasses, itself first, are these.
fn table_of(
    alloc: Global,
    signatures: &MethodSignatures,
    rows: &List<List<bool>>,
    chain: &[ClassNo],
) -> Result<SelectionTable, NoMemory>
    requires inside { IsTrue (is_inside (length rows.now.items) chain.now) }
    requires signatures { HaveSignatures signatures.now rows.now.items }
    ensures { IfOk result (λ table. (signature : ℕ) → selected_in table (key_of signature)
        ≡ chain_in signatures.now rows.now.items chain.now signature) }
{
    let mut table = SelectionTable::new(alloc);
    for index in 0..chain.len() {
        let class = chain[index];
        add_own(&mut table, signatures, class, rows.get(class.0))?;
    }
    Ok(table)
}

/// The tables of the classes whose superclasses are these.
fn tables_of(
    alloc: Global,
    signatures: &MethodSignatures,
    rows: &List<List<bool>>,
    chains: &[List<ClassNo>],
) -> Result<List<SelectionTable>, NoMemory>
    requires inside { IsTrue (are_inside (length rows.now.items) chains.now) }
    requires signatures { HaveSignatures signatures.now rows.now.items }
    ensures { IfOk result (λ tables.
        AreTables signatures.now rows.now.items chains.now tables.items) }
{
    let mut tables = List::new(alloc);
    for chain in chains {
        tables.push(table_of(alloc, signatures, rows, chain.as_slice())?)?;
    }
    Ok(tables)
}

/// The methods that calls on objects of each class select. Contracts see the tables of the classes,
/// by number.
#[derive(Drop)]
pub struct ClassDispatch {
    tables: List<SelectionTable>,
}

impl Model for ClassDispatch {
    ghost use Rattle.class_dispatch.specs.Dispatch.{Tables};

    ghost Value = { Tables };

    ghost view = { λ it. it.tables.items };
}

impl ClassDispatch {
    /// The tables of the classes of a world, by the signatures of its methods. A world that was
    /// linked has no name and no member twice (`linked_worlds_are_apart`). It fails only for want
    /// of memory.
    pub fn open(
        alloc: Global,
        world: &World,
        signatures: &MethodSignatures,
    ) -> Result<ClassDispatch, NoMemory>
        requires apart { IsDistinct bytes_eq (names_of world.now) }
        requires once { HaveMembersOnce world.now }
        requires signatures { AreSignatures world.now signatures.now }
        ensures { IfOk result (λ dispatch. Selects world.now signatures.now dispatch) }
    {
        let chains = chains(alloc, world)?;
        let rows = rows(alloc, world)?;
        let tables = tables_of(alloc, signatures, &rows, chains.as_slice())?;
        Ok(ClassDispatch { tables })
    }

    /// The method that a call of a signature selects on an object of a class.
    pub fn select(&self, class: ClassNo, signature: u32) -> Option<MethodNo>
        requires { class.0 < length self.now }
        ensures { result ≡ selected_by self.now class signature }
    {
        self.tables.get(class.0).find(key(signature))
    }
}
