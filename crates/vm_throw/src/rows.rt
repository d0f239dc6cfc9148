//! Rows of exception tables (JVMS 4.7.3).

ghost use Rattle.std.specs.Prelude.{◌≡◌, ◌+◌, ◌*◌, ◌<◌, ◌≤◌, ◌&&◌, find, length, nat_le, nat_lt, option_map};
ghost use Rattle.code_model.specs.Names.{operand_at};
ghost use Rattle.world_model.specs.Supertypes.{field_order, is_sub};
ghost use Rattle.typing_model.specs.Environment.{class_of};
ghost use Rattle.link_laws.specs.Above.{IsSound};
ghost use Rattle.machine_model.specs.Throwing.{catches};
ghost use Rattle.jv_types.specs.ClassData.{pool_of};
ghost use Rattle.class_world.specs.World.{name_at};
ghost use Rattle.vm_throw.specs.Handlers.{named_row, takes};

use class_world::{World, class_name_at};
use jv_types::{ClassNo, Const, Handler, Pc, Steps};
use std::sync::ledger::Ledger;

/// The class that an index names, where it names no member and no constant.
#[tactic(auto, unfolding(code_model::specs::Names::operand_at))]
fn class_name(pool: &[Const], index: u16) -> Option<&[u16]>
    ensures { option_map (λ name. name.now) result
        ≡ class_of (operand_at (pool_of pool.now) index) }
{
    match pool.get(usize::from(index)) {
        Some(
            Const::Integer(_)
            | Const::Long(_)
            | Const::String(_)
            | Const::Fieldref(_, _)
            | Const::Methodref(_, _)
            | Const::InterfaceMethodref(_, _),
        ) => None,
        _ => Some(class_name_at(pool, index)),
    }
}

/// Whether a class is the one of that name, or below it. No class is below one that isn't there.
fn is_below_named<L: Ledger>(
    world: &World,
    class: ClassNo,
    name: &[u16],
    steps: &mut Steps<L>,
) -> bool
    requires world { IsSound world.now }
    requires class { class.0 < length world.now.classes }
    ensures below { result ≡ is_sub world.now (name_at world.now class) name.now }
    ensures steps { steps.new
        ≤ steps.old + length (field_order world.now (name_at world.now class)) }
{
    match world.class_named(name) {
        Some(above) => world.is_sub(class, above, steps),
        None => false,
    }
}

/// Whether a row catches throwables of a class.
fn row_catches<L: Ledger>(
    world: &World,
    pool: &[Const],
    row: &Handler,
    class: ClassNo,
    steps: &mut Steps<L>,
) -> bool
    requires world { IsSound world.now }
    requires class { class.0 < length world.now.classes }
    ensures catches { result ≡ catches world.now (name_at world.now class)
        (option_map (operand_at (pool_of pool.now)) row.now.catch) }
    ensures steps { steps.new
        ≤ steps.old + length (field_order world.now (name_at world.now class)) }
{
    let Some(index) = row.catch else {
        return true;
    };
    match class_name(pool, index) {
        Some(name) => is_below_named(world, class, name, steps),
        None => false,
    }
}

/// Whether a row covers a place.
fn covers(row: &Handler, pc: Pc) -> bool
    ensures { result ≡ (nat_le row.now.from pc.0 && nat_lt pc.0 row.now.to) }
{
    row.from <= pc.0 && pc.0 < row.to
}

/// Whether a row takes a throwable of a class that is thrown at a place.
fn row_takes<L: Ledger>(
    world: &World,
    pool: &[Const],
    row: &Handler,
    pc: Pc,
    class: ClassNo,
    steps: &mut Steps<L>,
) -> bool
    requires world { IsSound world.now }
    requires class { class.0 < length world.now.classes }
    ensures takes { result ≡ takes world.now pc.0 (name_at world.now class)
        (named_row (pool_of pool.now) row.now) }
    ensures steps { steps.new
        ≤ steps.old + length (field_order world.now (name_at world.now class)) }
{
    covers(row, pc) && row_catches(world, pool, row, class, steps)
}

/// The handler of the first row that takes a throwable of a class that is thrown at a place.
pub fn first_handler<L: Ledger>(
    world: &World,
    pool: &[Const],
    rows: &[Handler],
    pc: Pc,
    class: ClassNo,
    steps: &mut Steps<L>,
) -> Option<Pc>
    requires world { IsSound world.now }
    requires class { class.0 < length world.now.classes }
    ensures found { option_map (λ target. target.0) result ≡ option_map (λ row. row.target)
        (find (λ row. takes world.now pc.0 (name_at world.now class)
        (named_row (pool_of pool.now) row)) rows.now) }
    ensures steps { steps.new ≤ steps.old
        + length rows.now * length (field_order world.now (name_at world.now class)) }
{
    for row in rows {
        if row_takes(world, pool, row, pc, class, steps) {
            return Some(Pc(row.target));
        }
    }
    None
}
