//! Numbers for the signatures of one class after the other.

ghost use Rattle.std.specs.Prelude.{◌∷◌, [], IfOk, OnOk, map};
ghost use Rattle.jv_types.specs.ClassData.{pool_of};
ghost use Rattle.class_world.specs.Signatures.{boot_method_pair, member_pair, method_pairs};
ghost use Rattle.class_methods.specs.Filling.{AddsClass, AddsMethods, GivesNumber};

use class_names::{Names, Signature, Signatures};
use class_world::Origin;
use jv_types::{BootMethod, Const, List, Member, NoMemory, text_at};
use std::alloc::Global;

/// The signatures so far.
#[derive(Drop)]
pub struct Filling {
    /// Names and descriptors.
    texts: Names,
    signatures: Signatures,
}

/// The number of the signature of this name and descriptor, a new one where it wasn't there.
fn number_signature(
    alloc: Global,
    texts: &mut Names,
    signatures: &mut Signatures,
    name: &[u16],
    descriptor: &[u16],
) -> Result<u32, NoMemory>
    ensures { IfOk result (λ number. GivesNumber texts.old texts.new signatures.old
        signatures.new (name.now, descriptor.now) number) }
{
    let name_number = texts.add(alloc, name)?;
    let descriptor_number = texts.add(alloc, descriptor)?;
    let signature = Signature {
        name: name_number,
        descriptor: descriptor_number,
    };
    signatures.add(signature)?;
    let Some(number) = signatures.number_of(signature) else {
        unreachable!();
    };
    Ok(number)
}

/// Adds the number of a method to those of its class.
fn add_method(
    alloc: Global,
    filling: &mut Filling,
    row: &mut List<u32>,
    name: &[u16],
    descriptor: &[u16],
) -> Result<(), NoMemory>
    ensures { OnOk result (AddsMethods filling.old filling.new row.old.items row.new.items
        ((name.now, descriptor.now) ∷ [])) }
{
    let number = number_signature(
        alloc,
        &mut filling.texts,
        &mut filling.signatures,
        name,
        descriptor,
    )?;
    row.push(number)?;
    Ok(())
}

/// Adds the numbers of the methods of a boot class.
fn add_boot(
    alloc: Global,
    filling: &mut Filling,
    row: &mut List<u32>,
    methods: &[BootMethod],
) -> Result<(), NoMemory>
    ensures { OnOk result (AddsMethods filling.old filling.new row.old.items row.new.items
        (map boot_method_pair methods.now)) }
{
    for method in methods {
        let name = method.name.as_slice();
        let descriptor = method.descriptor.as_slice();
        add_method(alloc, filling, row, name, descriptor)?;
    }
    Ok(())
}

/// Adds the numbers of the methods of a class that was read.
fn add_read(
    alloc: Global,
    filling: &mut Filling,
    row: &mut List<u32>,
    pool: &[Const],
    methods: &[Member],
) -> Result<(), NoMemory>
    ensures { OnOk result (AddsMethods filling.old filling.new row.old.items row.new.items
        (map (member_pair (pool_of pool.now)) methods.now)) }
{
    for method in methods {
        let name = text_at(pool, method.name);
        let descriptor = text_at(pool, method.descriptor);
        add_method(alloc, filling, row, name, descriptor)?;
    }
    Ok(())
}

/// Adds the numbers of a class's methods.
fn add_methods(
    alloc: Global,
    filling: &mut Filling,
    row: &mut List<u32>,
    origin: &Origin,
) -> Result<(), NoMemory>
    ensures { OnOk result (AddsMethods filling.old filling.new row.old.items row.new.items
        (method_pairs origin.now)) }
{
    match origin {
        Origin::Boot(boot) => add_boot(alloc, filling, row, boot.methods.as_slice()),
        Origin::Program(loaded) => add_read(
            alloc,
            filling,
            row,
            loaded.file.pool.as_slice(),
            loaded.file.methods.as_slice(),
        ),
    }
}

/// Adds the row of a class, which is the next one.
pub fn add_class(
    alloc: Global,
    filling: &mut Filling,
    rows: &mut List<List<u32>>,
    origin: &Origin,
) -> Result<(), NoMemory>
    ensures { OnOk result (AddsClass filling.old filling.new
        (map (λ row. row.items) rows.old.items) (map (λ row. row.items) rows.new.items)
        (method_pairs origin.now)) }
{
    let mut row = List::new(alloc);
    add_methods(alloc, filling, &mut row, origin)?;
    rows.push(row)?;
    Ok(())
}

impl Filling {
    ghost use Rattle.class_methods.specs.Filling.{HaveNumbers};

    /// No signatures.
    pub fn new(alloc: Global) -> Filling
        ensures { HaveNumbers result [] [] [] [] }
    {
        Filling {
            texts: Names::new(alloc),
            signatures: Signatures::new(alloc),
        }
    }
}
