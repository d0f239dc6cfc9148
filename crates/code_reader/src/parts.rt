//! The parts of a Code attribute (JVMS 4.7.3).

ghost use Rattle.std.specs.Prelude.{◌≡◌, ◌<◌, ◌≤◌, ◌^◌, IfOk, true, length, option_map, None, map};
ghost use Rattle.jv_model.specs.Limits.{most_code_bytes};
ghost use Rattle.code_model.specs.CodeShape.{handler_at, handlers_at, inner_at, inners_at, is_code_length, parts_at, parts_of as parts_of_attribute};
ghost use Rattle.jv_types.specs.ClassData.{pool_of};
ghost use Rattle.jv_types.specs.Code.{handler_of};
ghost use Rattle.code_reader.specs.Gives.{GivesCode};
ghost use Rattle.code_reader.specs.Parts.{GivesPart, table_of, parts_of};
ghost use Rattle.code_reader.specs.Shape.{whole_parts_at, IsShapeError};
ghost use Rattle.code_reader.specs.Head.{head_at, IsEarly, IsPartRefusal, IsRefusal};
ghost use Rattle.jv_model.specs.Input.{whole_of};

use crate::error::{CodeError, PartError};
use crate::map_entry::{MapTable, read_map};
use class_pool::{is_named, names};
use jv_types::{Const, Handler, Input, List, tag};
use std::alloc::Global;

/// The attribute in a Code attribute that has the frames of its stack map.
const STACK_MAP_TABLE: &[u8] = b"StackMapTable";

/// The parts of a Code attribute, its instructions and its frames as they stand in it.
#[derive(Drop)]
pub struct Parts<'a> {
    pub max_stack: u16,
    pub max_locals: u16,
    pub code: &'a [u8],
    pub handlers: List<Handler>,
    pub map: MapTable,
}

/// Reads a row of the exception table. A catch type of 0 is none.
#[tactic(auto, unfolding(code_model::specs::CodeShape::handler_at))]
fn read_handler(method: u32, input: &mut Input) -> Result<Handler, PartError>
    ensures { GivesPart method (λ row. (handler_of row, input.new)) result (handler_at input.old) }
{
    let from = u32::from(input.u2()?);
    let to = u32::from(input.u2()?);
    let target = u32::from(input.u2()?);
    let index = input.u2()?;
    let catch = if index == 0 { None } else { Some(index) };
    Ok(Handler {
        from,
        to,
        target,
        catch,
    })
}

/// Reads so many rows. The count isn't backed by bytes, so no room is reserved for it.
fn read_handlers(
    alloc: Global,
    method: u32,
    count: u16,
    input: &mut Input,
) -> Result<List<Handler>, PartError>
    ensures { GivesPart method (λ rows. (map handler_of rows.items, input.new)) result
        (handlers_at count input.old) }
{
    let mut rows = List::new(alloc);
    for _ in 0..count {
        let row = read_handler(method, input)?;
        rows.push(row)?;
    }
    Ok(rows)
}

/// Reads an attribute in the attribute, behind which the map is the one before it or its own.
#[tactic(auto, unfolding(code_model::specs::CodeShape::inner_at))]
fn read_inner(
    alloc: Global,
    pool: &List<Const>,
    method: u32,
    map: Option<MapTable>,
    input: &mut Input,
) -> Result<Option<MapTable>, PartError>
    ensures { GivesPart method (λ map. (option_map (table_of method) map, input.new)) result
        (inner_at (pool_of pool.now.items) method (option_map (table_of method) map) input.old) }
{
    let at = input.at();
    let name = input.u2()?;
    let is_map = is_named(pool, STACK_MAP_TABLE, name);
    if !names(pool, tag::UTF8, name) || map.is_some() && is_map {
        return Err(PartError::Shape { at });
    }
    let count = input.u4()?;
    let mut part = input.part(count)?;
    if is_map {
        Ok(Some(read_map(alloc, method, &mut part)?))
    } else {
        Ok(map)
    }
}

/// Reads so many attributes in the attribute, all but a StackMapTable skipped.
fn read_inners(
    alloc: Global,
    pool: &List<Const>,
    method: u32,
    count: u16,
    input: &mut Input,
) -> Result<Option<MapTable>, PartError>
    ensures { GivesPart method (λ map. (option_map (table_of method) map, input.new)) result
        (inners_at (pool_of pool.now.items) method count None input.old) }
{
    let mut map = None;
    for _ in 0..count {
        map = read_inner(alloc, pool, method, map, input)?;
    }
    Ok(map)
}

/// Whether code may have so many bytes.
fn is_code_length(count: u32) -> bool
    ensures is { result ≡ is_code_length count }
    ensures short { result ≡ true → count ≤ most_code_bytes }
{
    1 <= count && count <= 65_535
}

/// Reads the parts, behind which anything may stand.
#[tactic(auto, unfolding(code_model::specs::CodeShape::parts_at))]
fn read_front<'a>(
    alloc: Global,
    pool: &List<Const>,
    method: u32,
    input: &mut Input<'a>,
) -> Result<Parts<'a>, PartError>
    ensures parts { GivesPart method (λ parts. (parts_of method parts, input.new)) result
        (parts_at (pool_of pool.now.items) method input.old) }
    ensures short { IfOk result (λ parts. length parts.code.now ≤ most_code_bytes) }
    ensures early { IsEarly IsPartRefusal (head_at method input.old) result }
{
    let max_stack = input.u2()?;
    let max_locals = input.u2()?;
    let at = input.at();
    let count = input.u4()?;
    if !is_code_length(count) {
        return Err(PartError::Shape { at });
    }
    let code = input.run(count)?;
    let count = input.u2()?;
    let handlers = read_handlers(alloc, method, count, input)?;
    let count = input.u2()?;
    let map = match read_inners(alloc, pool, method, count, input)? {
        Some(map) => map,
        None => MapTable {
            entries: List::new(alloc),
            end: None,
        },
    };
    Ok(Parts {
        max_stack,
        max_locals,
        code,
        handlers,
        map,
    })
}

/// Reads the parts, which fill the attribute.
fn read_whole<'a>(
    alloc: Global,
    pool: &List<Const>,
    method: u32,
    bytes: &'a [u8],
) -> Result<Parts<'a>, PartError>
    requires { length bytes.now < 2 ^ 32 }
    ensures parts { GivesPart method (parts_of method) result
        (whole_parts_at (pool_of pool.now.items) method bytes.now) }
    ensures short { IfOk result (λ parts. length parts.code.now ≤ most_code_bytes) }
    ensures early { IsEarly IsPartRefusal (head_at method (whole_of bytes.now)) result }
{
    let mut input = Input::whole_of(bytes);
    let parts = read_front(alloc, pool, method, &mut input)?;
    if !input.is_empty() {
        return Err(PartError::Extra { at: input.at() });
    }
    Ok(parts)
}

/// What isn't whole, or is left over, has the wrong shape.
fn shape_error(error: PartError) -> CodeError
    ensures shape { IsShapeError error result }
    ensures early { IsPartRefusal error → IsRefusal result }
{
    match error {
        PartError::Cut { at } | PartError::Extra { at } | PartError::Shape { at } => {
            CodeError::Shape { at }
        }
        PartError::MapFrame { index } => CodeError::MapFrame { index },
        PartError::NoMemory => CodeError::NoMemory,
    }
}

/// The parts of the attribute of the method with that index.
pub fn read_parts<'a>(
    alloc: Global,
    pool: &List<Const>,
    method: u32,
    bytes: &'a [u8],
) -> Result<Parts<'a>, CodeError>
    requires { length bytes.now < 2 ^ 32 }
    ensures parts { GivesCode method (parts_of method) result
        (parts_of_attribute (pool_of pool.now.items) method bytes.now) }
    ensures short { IfOk result (λ parts. length parts.code.now ≤ most_code_bytes) }
    ensures early { IsEarly IsRefusal (head_at method (whole_of bytes.now)) result }
{
    match read_whole(alloc, pool, method, bytes) {
        Ok(parts) => Ok(parts),
        Err(error) => Err(shape_error(error)),
    }
}
