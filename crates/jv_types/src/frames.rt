//! The frames of a stack map (JVMS 4.7.4). They share their types, so that many frames which each
//! change little of many locals take little memory.

ghost use Rattle.std.specs.Prelude.{ℕ, ◌≡◌, ◌++◌, ◌∷◌, [], ◌+◌, ◌-◌, ◌<◌, ◌≤◌, ◌==◌, length, take, flat_map, option_map, slice_get, Some, IfOk, OnOk, OnErr};
ghost use Rattle.jv_model.specs.Code as model;
ghost use Rattle.jv_types.specs.MapFrame.{map_type_of, map_types_of, frame_of};
ghost use Rattle.jv_types.specs.Frames.{last_locals, type_words, words_of, frame_types, HaveSame, row_types, types_in, rows_up_to, AreRows, AreTypes, AddTypes};

use crate::code::{MapFrame, MapType};
use crate::list::List;
use crate::memory::NoMemory;
use std::alloc::Global;
use std::marker::Model;

/// A type of frames, on top of those up to an earlier row.
#[derive(Clone, Copy, Debug)]
pub struct TypeRow {
    /// The row of the type below it, unless it's the lowest.
    below: Option<u32>,
    pub map_type: MapType,
}

/// A frame, its locals and its stack by the rows that they end in.
#[derive(Clone, Copy, Debug)]
struct FrameRow {
    pc: u32,
    locals: Option<u32>,
    stack: Option<u32>,
}

/// The types up to a row, which are locals or a stack.
#[derive(Clone, Copy, Debug)]
struct SharedTypes {
    top: Option<u32>,
    count: u32,
    /// A Long counts as two.
    words: u64,
}

const NO_TYPES: SharedTypes = SharedTypes {
    top: None,
    count: 0,
    words: 0,
};

/// The frames of a stack map by number, from 0 in the order in which they were added. Contracts see
/// the definitions' own list.
#[derive(Debug, Drop)]
pub struct Frames {
    rows: List<TypeRow>,
    frames: List<FrameRow>,
    /// Those of the last frame.
    locals: SharedTypes,
}

impl Model for Frames {
    ghost use Rattle.std.specs.Prelude.{ℕ, List};
    ghost use Rattle.jv_model.specs.Code.{MapFrame as ModelFrame};
    ghost use Rattle.jv_types.specs.Frames.{frames_in, AreFrames};

    ghost Value = { List (ModelFrame ℕ) };

    ghost view = { λ it. frames_in it.rows.items it.frames.items };

    ghost invariant = { λ it. AreFrames it.rows.items it.frames.items it.locals };
}

/// The words of a type.
fn words_of(map_type: MapType) -> u64
    ensures { result ≡ type_words (map_type_of map_type) }
{
    match map_type {
        MapType::Long => 2,
        _ => 1,
    }
}

/// Makes room for the types of a frame.
fn reserve_types(
    rows: &mut List<TypeRow>,
    locals: &List<MapType>,
    stack: &List<MapType>,
) -> Result<(), NoMemory>
    ensures items { rows.new.items ≡ rows.old.items }
    ensures ok { OnOk result (length locals.now.items + length stack.now.items ≤ rows.new.spare) }
{
    match locals.len().checked_add(stack.len()) {
        Some(more) => rows.reserve(more),
        None => Err(NoMemory),
    }
}

/// Some types with another on top of them, in room that was reserved.
fn add_type(rows: &mut List<TypeRow>, types: SharedTypes, map_type: MapType) -> SharedTypes
    requires room { 0 < rows.old.spare }
    requires rows { AreRows rows.old.items }
    requires types { AreTypes rows.old.items types }
    ensures added { AddTypes rows.old.items types (map_type_of map_type ∷ []) rows.new.items result }
    ensures spare { rows.new.spare + 1 ≡ rows.old.spare }
{
    rows.add(TypeRow {
        below: types.top,
        map_type,
    });
    SharedTypes {
        top: Some(rows.len() - 1),
        count: types.count + 1,
        words: types.words + words_of(map_type),
    }
}

/// Some types with these on top of them, in room that was reserved.
fn add_types(rows: &mut List<TypeRow>, types: SharedTypes, more: &[MapType]) -> SharedTypes
    requires room { length more.now ≤ rows.old.spare }
    requires rows { AreRows rows.old.items }
    requires types { AreTypes rows.old.items types }
    ensures added { AddTypes rows.old.items types (map_types_of more.now) rows.new.items result }
    ensures spare { rows.new.spare + length more.now ≡ rows.old.spare }
{
    let mut added = types;
    for map_type in more {
        added = add_type(rows, added, *map_type);
    }
    added
}

/// Some types without the last of them.
fn without_last(rows: &List<TypeRow>, types: SharedTypes) -> SharedTypes
    requires some { 0 < types.count }
    requires rows { AreRows rows.now.items }
    requires types { AreTypes rows.now.items types }
    ensures types { AreTypes rows.now.items result }
    ensures front { types_in rows.now.items result.top
        ≡ take (types.count - 1) (types_in rows.now.items types.top) }
{
    let row = rows.get(types.top.unwrap());
    SharedTypes {
        top: row.below,
        count: types.count - 1,
        words: types.words - words_of(row.map_type),
    }
}

/// The first so many of some types, or all where they are no more.
fn first_types(rows: &List<TypeRow>, types: SharedTypes, count: u32) -> SharedTypes
    requires rows { AreRows rows.now.items }
    requires types { AreTypes rows.now.items types }
    ensures types { AreTypes rows.now.items result }
    ensures first { types_in rows.now.items result.top
        ≡ take count (types_in rows.now.items types.top) }
{
    let mut first = types;
    while first.count > count {
        first = without_last(rows, first);
    }
    first
}

/// The types up to a row, the lowest first, unless there is no memory for them.
fn list_types(
    alloc: Global,
    rows: &List<TypeRow>,
    top: Option<u32>,
) -> Result<List<MapType>, NoMemory>
    requires rows { AreRows rows.now.items }
    requires inside { rows_up_to top ≤ length rows.now.items }
    ensures { IfOk result (λ types. map_types_of types.items ≡ types_in rows.now.items top) }
{
    let mut types = List::new(alloc);
    let mut left = top;
    while let Some(row) = left {
        let row = rows.get(row);
        types.push(row.map_type)?;
        left = row.below;
    }
    types.reverse();
    Ok(types)
}

impl Frames {
    /// No frames, which take no memory.
    pub fn new(alloc: Global) -> Frames
        ensures { result ≡ [] }
    {
        Frames {
            rows: List::new(alloc),
            frames: List::new(alloc),
            locals: NO_TYPES,
        }
    }

    /// How many they are.
    pub fn len(&self) -> u32
        ensures { result ≡ length self.now }
    {
        self.frames.len()
    }

    /// Whether there are none.
    pub fn is_empty(&self) -> bool
        ensures { result ≡ (length self.now == 0) }
    {
        self.frames.is_empty()
    }

    /// The place of the one with that number.
    pub fn pc(&self, number: u32) -> u32
        requires { number < length self.now }
        ensures { option_map (λ (frame : model.MapFrame ℕ). frame.pc) (slice_get self.now number)
            ≡ Some result }
    {
        self.frames.get(number).pc
    }

    /// The one with that number by itself, unless there is no memory for it.
    pub fn frame(&self, alloc: Global, number: u32) -> Result<MapFrame, NoMemory>
        requires { number < length self.now }
        ensures { IfOk result (λ frame. slice_get self.now number ≡ Some (frame_of frame)) }
    {
        let row = self.frames.get(number);
        Ok(MapFrame {
            pc: row.pc,
            locals: list_types(alloc, &self.rows, row.locals)?,
            stack: list_types(alloc, &self.rows, row.stack)?,
        })
    }

    /// How many locals the last one has; none without one.
    pub fn local_count(&self) -> u32
        ensures { result ≡ length (last_locals self.now) }
    {
        self.locals.count
    }

    /// The words of the last one's locals, a Long counted as two.
    pub fn local_words(&self) -> u64
        ensures { result ≡ words_of (last_locals self.now) }
    {
        self.locals.words
    }

    /// All their types, of which those that frames share stand there once.
    pub fn types(&self) -> &[TypeRow]
        ensures { HaveSame (row_types result.now) (flat_map frame_types self.now) }
    {
        self.rows.as_slice()
    }

    /// Adds one at a place, with the first so many of the last one's locals and these behind them.
    /// Where there is no memory, they stay.
    pub fn push(
        &mut self,
        pc: u32,
        kept: u32,
        locals: &List<MapType>,
        stack: &List<MapType>,
    ) -> Result<(), NoMemory>
        ensures ok { OnOk result (self.new ≡ self.old ++ record {
          pc = pc;
          locals = take kept (last_locals self.old) ++ map_types_of locals.now.items;
          stack = map_types_of stack.now.items;
        } ∷ []) }
        ensures err { OnErr result (self.new ≡ self.old) }
    {
        reserve_types(&mut self.rows, locals, stack)?;
        self.frames.reserve(1)?;
        let first = first_types(&self.rows, self.locals, kept);
        let locals = add_types(&mut self.rows, first, locals.as_slice());
        let stack = add_types(&mut self.rows, NO_TYPES, stack.as_slice());
        self.frames.add(FrameRow {
            pc,
            locals: locals.top,
            stack: stack.top,
        });
        self.locals = locals;
        Ok(())
    }

    /// Equal ones, unless there is no memory for them.
    pub fn copy(&self, alloc: Global) -> Result<Frames, NoMemory>
        ensures { IfOk result (λ copy. copy ≡ self.now) }
    {
        Ok(Frames {
            rows: self.rows.copy(alloc)?,
            frames: self.frames.copy(alloc)?,
            locals: self.locals,
        })
    }
}
