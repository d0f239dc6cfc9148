//! The handlers of methods.

ghost use Rattle.std.specs.Prelude.{◌≡◌, ◌+◌, ◌*◌, ◌<◌, ◌≤◌, ℕ, List, [], IsSome, IfSome, Some, length, map, option_and_then, option_map, slice_get};
ghost use Rattle.world_model.specs.World.{Method};
ghost use Rattle.world_model.specs.Supertypes.{field_order};
ghost use Rattle.link_laws.specs.Above.{IsSound};
ghost use Rattle.jv_types.specs.ClassData.{pool_of};
ghost use Rattle.class_world.specs.World.{class_of_origin, method_at, name_at};
ghost use Rattle.vm_throw.specs.Handlers.{named_row, rows_of, handler_found};

use crate::rows::first_handler;
use class_world::{Origin, World};
use jv_types::{ClassNo, CodeBody, Const, Handler, Loaded, MethodNo, Pc, Steps};
use std::sync::ledger::Ledger;

/// Rows, and the constant pool that their indices are of.
#[derive(Clone, Copy)]
struct Rows<'a> {
    pool: &'a [Const],
    rows: &'a [Handler],
}

/// The code of the method at an index.
fn code_at(loaded: &Loaded, index: u32) -> Option<&CodeBody>
    ensures { option_map (λ code. code.now) result
        ≡ option_and_then (λ code. code) (slice_get loaded.now.codes.items index) }
{
    match loaded.codes.as_slice().get(index as usize) {
        Some(Some(code)) => Some(code),
        _ => None,
    }
}

/// No rows.
fn no_rows() -> Rows<'static>
    ensures { result.rows.now ≡ [] }
{
    Rows {
        pool: &[],
        rows: &[],
    }
}

/// The exception table of a method of a class. A method without code has none.
fn rows_at(origin: &Origin, index: u32) -> Rows<'_>
    ensures { (names : List (List ℕ)) (m : Method)
        → slice_get (class_of_origin names origin.now).methods index ≡ Some m
        → rows_of m ≡ map (named_row (pool_of result.pool.now)) result.rows.now }
{
    match origin {
        Origin::Boot(_) => no_rows(),
        Origin::Program(loaded) => match code_at(loaded, index) {
            Some(code) => Rows {
                pool: loaded.file.pool.as_slice(),
                rows: code.handlers.as_slice(),
            },
            None => no_rows(),
        },
    }
}

/// The place of the handler of a method that takes a throwable of a class that is thrown at a
/// place in its code (JVMS 2.10). There is none exactly where no row of its exception table covers
/// the place and catches the class. Each class looked at above that class is a step.
pub fn find_handler<L: Ledger>(
    world: &World,
    method: MethodNo,
    pc: Pc,
    class: ClassNo,
    steps: &mut Steps<L>,
) -> Option<Pc>
    requires world { IsSound world.now }
    requires method { IsSome (method_at world.now method) }
    requires class { class.0 < length world.now.classes }
    ensures found { IfSome (method_at world.now method) (λ found.
        option_map (λ target. target.0) result
        ≡ handler_found world.now found.member pc.0 (name_at world.now class)) }
    ensures steps { IfSome (method_at world.now method) (λ found. steps.new ≤ steps.old
        + length (rows_of found.member)
        * length (field_order world.now (name_at world.now class))) }
{
    let table = rows_at(&world.class(method.class).origin, method.index);
    first_handler(world, table.pool, table.rows, pc, class, steps)
}
