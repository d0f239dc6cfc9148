//! The entries of a StackMapTable (JVMS 4.7.4), as they stand in it.

ghost use Rattle.std.specs.Prelude.{◌≡◌, ◌≤◌, ℕ, option_map};
ghost use Rattle.jv_model.specs.Refusal.{wrong_map_frame};
ghost use Rattle.code_model.specs.StackMapEntries.{tagged_type_at, entry_type_at, entry_types_at, extended_at, typed_at, entry_at, entries_at, table_at as map_table_at};
ghost use Rattle.code_reader.specs.Parts.{GivesPart, entry_type_of, entry_types_of, entry_with, entry_of, table_of, IsEnd};

use crate::error::PartError;
use jv_types::{Input, List, MapType};
use std::alloc::Global;

/// A type of an entry. Frames of this machine don't have floats and doubles, which are none.
pub type EntryType = Option<MapType>;

/// An entry without its offset_delta.
#[derive(Drop)]
pub enum FrameForm {
    /// The locals of the frame before it, and an empty stack.
    Same,
    /// These locals, and one item on the stack.
    SameWithItem(EntryType),
    /// Without so many of the last locals.
    Chop(u8),
    /// With these locals behind them.
    Append(List<EntryType>),
    /// Locals, and the stack.
    Full(List<EntryType>, List<EntryType>),
}

#[derive(Drop)]
pub struct Entry {
    pub offset_delta: u16,
    pub form: FrameForm,
}

/// The entries of a map. They end in front of the first that is of a reserved type or has an
/// unknown tag; then its number is `end`, and nothing behind it is looked at.
#[derive(Drop)]
pub struct MapTable {
    pub entries: List<Entry>,
    pub end: Option<u32>,
}

/// Reads what stands behind the tag of a type. The method's index and the entry's number are those
/// that a refusal names.
#[tactic(auto, unfolding(code_model::specs::StackMapEntries::tagged_type_at))]
fn read_tagged(method: u32, index: u32, tag: u8, input: &mut Input) -> Result<EntryType, PartError>
    ensures { GivesPart method (λ type. (entry_type_of type, input.new)) result
        (tagged_type_at (wrong_map_frame method index) tag input.old) }
{
    match tag {
        0 => Ok(Some(MapType::Top)),
        1 => Ok(Some(MapType::Int)),
        2 => Ok(None),
        3 => Ok(None),
        4 => Ok(Some(MapType::Long)),
        5 => Ok(Some(MapType::Null)),
        6 => Ok(Some(MapType::This)),
        7 => Ok(Some(MapType::Object(input.u2()?))),
        8 => Ok(Some(MapType::New(u32::from(input.u2()?)))),
        _ => Err(PartError::MapFrame { index }),
    }
}

/// Reads a type.
fn read_type(method: u32, index: u32, input: &mut Input) -> Result<EntryType, PartError>
    ensures { GivesPart method (λ type. (entry_type_of type, input.new)) result
        (entry_type_at (wrong_map_frame method index) input.old) }
{
    let tag = input.u1()?;
    read_tagged(method, index, tag, input)
}

/// Reads so many types. The count isn't backed by bytes, so no room is reserved for it.
fn read_types(
    alloc: Global,
    method: u32,
    index: u32,
    count: u16,
    input: &mut Input,
) -> Result<List<EntryType>, PartError>
    ensures { GivesPart method (λ types. (entry_types_of types.items, input.new)) result
        (entry_types_at (wrong_map_frame method index) count input.old) }
{
    let mut types = List::new(alloc);
    for _ in 0..count {
        let each = read_type(method, index, input)?;
        types.push(each)?;
    }
    Ok(types)
}

/// Reads what stands behind the offset_delta of an entry of a type from 247 on.
#[tactic(auto, unfolding(code_model::specs::StackMapEntries::extended_at))]
fn read_extended(
    alloc: Global,
    method: u32,
    index: u32,
    kind: u8,
    input: &mut Input,
) -> Result<FrameForm, PartError>
    requires { 247 ≤ kind }
    ensures { (delta : ℕ) → GivesPart method (λ form. (entry_with delta form, input.new)) result
        (extended_at (wrong_map_frame method index) kind delta input.old) }
{
    match kind {
        247 => Ok(FrameForm::SameWithItem(read_type(method, index, input)?)),
        248..=250 => Ok(FrameForm::Chop(251 - kind)),
        251 => Ok(FrameForm::Same),
        252..=254 => {
            let count = u16::from(kind - 251);
            Ok(FrameForm::Append(read_types(alloc, method, index, count, input)?))
        }
        _ => {
            let count = input.u2()?;
            let locals = read_types(alloc, method, index, count, input)?;
            let count = input.u2()?;
            let stack = read_types(alloc, method, index, count, input)?;
            Ok(FrameForm::Full(locals, stack))
        }
    }
}

/// Reads what stands behind the type of an entry; 128 to 246 are reserved.
#[tactic(auto, unfolding(code_model::specs::StackMapEntries::typed_at))]
fn read_typed(
    alloc: Global,
    method: u32,
    index: u32,
    kind: u8,
    input: &mut Input,
) -> Result<Entry, PartError>
    ensures { GivesPart method (λ entry. (entry_of entry, input.new)) result
        (typed_at (wrong_map_frame method index) kind input.old) }
{
    match kind {
        0..=63 => Ok(Entry {
            offset_delta: u16::from(kind),
            form: FrameForm::Same,
        }),
        64..=127 => Ok(Entry {
            offset_delta: u16::from(kind - 64),
            form: FrameForm::SameWithItem(read_type(method, index, input)?),
        }),
        128..=246 => Err(PartError::MapFrame { index }),
        _ => {
            let offset_delta = input.u2()?;
            let form = read_extended(alloc, method, index, kind, input)?;
            Ok(Entry { offset_delta, form })
        }
    }
}

/// Reads an entry.
fn read_entry(alloc: Global, method: u32, index: u32, input: &mut Input) -> Result<Entry, PartError>
    ensures { GivesPart method (λ entry. (entry_of entry, input.new)) result
        (entry_at (wrong_map_frame method index) input.old) }
{
    let kind = input.u1()?;
    read_typed(alloc, method, index, kind, input)
}

/// What entries are in front of one with this error.
fn end_of(entries: List<Entry>, error: PartError) -> Result<MapTable, PartError>
    ensures { IsEnd entries.items error result }
{
    match error {
        PartError::MapFrame { index } => Ok(MapTable {
            entries,
            end: Some(index),
        }),
        PartError::Cut { at } => Err(PartError::Cut { at }),
        PartError::Extra { at } => Err(PartError::Extra { at }),
        PartError::Shape { at } => Err(PartError::Shape { at }),
        PartError::NoMemory => Err(PartError::NoMemory),
    }
}

/// Reads so many entries, which fill the input, unless they end early.
fn read_entries(
    alloc: Global,
    method: u32,
    count: u16,
    input: &mut Input,
) -> Result<MapTable, PartError>
    ensures { GivesPart method (table_of method) result (entries_at method 0 count input.old) }
{
    let mut entries = List::new(alloc);
    for index in 0..u32::from(count) {
        match read_entry(alloc, method, index, input) {
            Ok(entry) => entries.push(entry)?,
            Err(error) => return end_of(entries, error),
        }
    }
    if !input.is_empty() {
        return Err(PartError::Extra { at: input.at() });
    }
    Ok(MapTable { entries, end: None })
}

/// Reads a StackMapTable.
pub fn read_map(alloc: Global, method: u32, input: &mut Input) -> Result<MapTable, PartError>
    ensures { GivesPart method (table_of method) result (map_table_at method input.old) }
{
    let count = input.u2()?;
    read_entries(alloc, method, count, input)
}
