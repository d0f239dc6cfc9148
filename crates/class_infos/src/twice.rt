//! Names of classes that stand twice, and members that do (JVMS 4.5, 4.6).

ghost use Rattle.std.specs.Prelude.{◌≡◌, ◌||◌, [], map, option_map, bytes_eq, IfOk};
ghost use Rattle.std.specs.List.{list_any};
ghost use Rattle.link_model.specs.ClassFaults.{has_twice, has_member_twice, first_twice as first_twice_of};
ghost use Rattle.link_model.specs.WorldOf.{class_of, name_of};
ghost use Rattle.jv_types.specs.ClassData.{pool_of};
ghost use Rattle.jv_types.specs.Loaded.{loaded_of};
ghost use Rattle.jv_types.specs.Refusal.{cause_of};
ghost use Rattle.class_world.specs.Signatures.{same_pair, member_pair};

use crate::names::class_name;
use class_names::Names;
use class_world::member_signatures;
use jv_types::{Cause, Const, List, Loaded, Member, NoMemory};
use std::alloc::Global;

/// Whether two of some members have one name and descriptor.
fn has_twice(alloc: Global, pool: &[Const], members: &[Member]) -> Result<bool, NoMemory>
    ensures { IfOk result (λ twice. twice
        ≡ has_twice same_pair (map (member_pair (pool_of pool.now)) members.now)) }
{
    let mut texts = Names::new(alloc);
    let signatures = member_signatures(alloc, &mut texts, pool, members)?;
    Ok(signatures.is_none())
}

/// Whether two fields or two methods of a class have one name and descriptor.
fn has_member_twice(alloc: Global, class: &Loaded) -> Result<bool, NoMemory>
    ensures { IfOk result (λ twice.
        twice ≡ has_member_twice (class_of (loaded_of class.now))) }
{
    let pool = class.file.pool.as_slice();
    let fields = has_twice(alloc, pool, class.file.fields.as_slice())?;
    let methods = has_twice(alloc, pool, class.file.methods.as_slice())?;
    Ok(fields || methods)
}

/// Whether a class has one of some names, or has a member twice.
fn stands_twice(alloc: Global, names: &Names, class: &Loaded) -> Result<bool, NoMemory>
    ensures { IfOk result (λ twice. twice
        ≡ (list_any (bytes_eq (name_of (loaded_of class.now))) names.now
        || has_member_twice (class_of (loaded_of class.now)))) }
{
    if names.number_of(class_name(class)).is_some() {
        return Ok(true);
    }
    has_member_twice(alloc, class)
}

/// The first class of which the name stands before it, or of which two fields or two methods have
/// one name and descriptor. It fails only for want of memory.
pub fn first_twice(alloc: Global, classes: &[Loaded]) -> Result<Option<Cause>, NoMemory>
    ensures { IfOk result (λ fault. option_map cause_of fault
        ≡ first_twice_of [] (map class_of (map loaded_of classes.now))) }
{
    let mut names = Names::new(alloc);
    for class in classes {
        let name = class_name(class);
        if stands_twice(alloc, &names, class)? {
            let class = List::from_slice(alloc, name)?;
            return Ok(Some(Cause::Twice { class }));
        }
        names.add(alloc, name)?;
    }
    Ok(None)
}
