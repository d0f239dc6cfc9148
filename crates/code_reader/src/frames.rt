//! The frames of a stack map (JVMS 4.7.4): all their locals and their stacks, at their places.

ghost use Rattle.std.specs.Prelude.{◌≡◌, ◌<◌, ◌+◌, ◌^◌, ◌==◌, ◌++◌, ◌∷◌, [], true, nat_le, length, take, IfOk, OnOk, IfSome, option_map};
ghost use Rattle.code_model.specs.StackMaps.{is_known, known_type, known_types, types_of, words_of, place_behind, fits, frame_at};
ghost use Rattle.code_model.specs.CodeReading.{frames_of};
ghost use Rattle.jv_types.specs.ClassData.{pool_of};
ghost use Rattle.jv_types.specs.Code.{map_type_of, map_types_of};
ghost use Rattle.jv_types.specs.Frames.{locals_behind, last_locals};
ghost use Rattle.jv_types.specs.Instructions.{most_places};
ghost use Rattle.code_reader.specs.Frames.{Locals, bounds_of, types_after, AddsFrame};
ghost use Rattle.code_reader.specs.Gives.{GivesCode};
ghost use Rattle.code_reader.specs.Parts.{entry_type_of, entry_types_of, form_of, entry_of, table_of};
ghost use Rattle.code_reader.specs.Near.{are_near};

use crate::error::CodeError;
use crate::map_entry::{Entry, EntryType, FrameForm, MapTable};
use crate::places::is_start;
use class_pool::names;
use jv_types::{Const, Frames, Instructions, List, MapType, NoMemory, tag};
use std::alloc::Global;

/// What frames have to fit.
#[derive(Clone, Copy)]
pub struct Bounds<'a> {
    pub pool: &'a List<Const>,
    pub max_stack: u16,
    pub max_locals: u16,
    pub instructions: &'a Instructions,
}

/// What a frame's locals and its stack are, beside the locals of the frame before it.
#[derive(Drop)]
struct Change {
    /// So many of those locals stay.
    kept: u32,
    /// These come behind them.
    locals: List<MapType>,
    stack: List<MapType>,
}

/// Whether a type's class is one.
fn is_known(pool: &List<Const>, each: MapType) -> bool
    ensures { result ≡ is_known (pool_of pool.now.items) (map_type_of each) }
{
    match each {
        MapType::Object(index) => names(pool, tag::CLASS, index),
        MapType::Top
        | MapType::Int
        | MapType::Long
        | MapType::Null
        | MapType::This
        | MapType::Argument(_)
        | MapType::New(_) => true,
    }
}

/// A type that this machine has, whose class is one.
fn known_type(pool: &List<Const>, each: EntryType) -> Option<MapType>
    ensures { option_map map_type_of result
        ≡ known_type (pool_of pool.now.items) (entry_type_of each) }
{
    let known = each?;
    if is_known(pool, known) {
        Some(known)
    } else {
        None
    }
}

/// Types that this machine has, whose classes are classes.
fn known_types(
    alloc: Global,
    pool: &List<Const>,
    types: &List<EntryType>,
) -> Result<Option<List<MapType>>, NoMemory>
    ensures { IfOk result (λ known. option_map (λ list. map_types_of list.items) known
        ≡ known_types (pool_of pool.now.items) (entry_types_of types.now.items)) }
{
    let mut known = List::new(alloc);
    for index in 0..types.len() {
        let Some(each) = known_type(pool, *types.get(index)) else {
            return Ok(None);
        };
        known.push(each)?;
    }
    Ok(Some(known))
}

/// So many of the locals before and these behind them, and an empty stack.
fn with_locals(alloc: Global, kept: u32, locals: List<MapType>) -> Change
    ensures { (before : Locals) → types_after before result
        ≡ (take kept before ++ map_types_of locals.items, []) }
{
    Change {
        kept,
        locals,
        stack: List::new(alloc),
    }
}

/// What a frame of a form changes, behind one with so many locals.
#[tactic(auto, unfolding(code_model::specs::StackMaps::types_of))]
fn change_of(
    alloc: Global,
    pool: &List<Const>,
    count: u32,
    form: &FrameForm,
) -> Result<Option<Change>, NoMemory>
    ensures { IfOk result (λ change. (before : Locals) → length before ≡ count
        → option_map (types_after before) change
        ≡ types_of (pool_of pool.now.items) before (form_of form.now)) }
{
    match form {
        FrameForm::Same => Ok(Some(with_locals(alloc, count, List::new(alloc)))),
        FrameForm::SameWithItem(item) => match known_type(pool, *item) {
            Some(known) => Ok(Some(Change {
                kept: count,
                locals: List::new(alloc),
                stack: List::from_slice(alloc, &[known])?,
            })),
            None => Ok(None),
        },
        FrameForm::Chop(gone) => {
            let gone = u32::from(*gone);
            if gone > count {
                return Ok(None);
            }
            Ok(Some(with_locals(alloc, count - gone, List::new(alloc))))
        }
        FrameForm::Append(types) => match known_types(alloc, pool, types)? {
            Some(locals) => Ok(Some(with_locals(alloc, count, locals))),
            None => Ok(None),
        },
        FrameForm::Full(locals, stack) => {
            let Some(locals) = known_types(alloc, pool, locals)? else {
                return Ok(None);
            };
            match known_types(alloc, pool, stack)? {
                Some(stack) => Ok(Some(Change {
                    kept: 0,
                    locals,
                    stack,
                })),
                None => Ok(None),
            }
        }
    }
}

/// The words of locals or of a stack, a Long counted as two.
fn words_of(types: &[MapType]) -> u64
    ensures { result ≡ words_of (map_types_of types.now) }
{
    let mut words = 0;
    for each in types {
        words += match each {
            MapType::Long => 2,
            _ => 1,
        };
    }
    words
}

/// Whether the last frame's locals have no more words than there may be.
fn locals_fit(frames: &Frames, max_locals: u16) -> bool
    ensures { result ≡ nat_le (words_of (last_locals frames.now)) max_locals }
{
    frames.local_words() <= u64::from(max_locals)
}

/// Whether the last frame, which has this place and stack, stands at an instruction, with no more
/// words than the method's frames have.
fn fits(bounds: Bounds, frames: &Frames, pc: u32, stack: &List<MapType>) -> bool
    requires { are_near bounds.instructions.now ≡ true }
    ensures fits { result ≡ fits (bounds_of bounds.entry) (record {
      pc = pc;
      locals = last_locals frames.now;
      stack = map_types_of stack.now.items;
    }) }
    ensures near { result ≡ true → pc < most_places }
{
    is_start(bounds.instructions, pc)
        && locals_fit(frames, bounds.max_locals)
        && words_of(stack.as_slice()) <= u64::from(bounds.max_stack)
}

/// The place of a frame behind another, or behind the begin of the code.
fn place_behind(place: Option<u32>, delta: u16) -> u32
    requires { IfSome place (λ before. before < most_places) }
    ensures { result ≡ place_behind place delta }
{
    match place {
        Some(before) => before + u32::from(delta) + 1,
        None => u32::from(delta),
    }
}

/// How many locals a frame behind these has before it: those of the last one, or the first locals.
fn count_before(first: &List<MapType>, frames: &Frames) -> u32
    ensures { result ≡ length (locals_behind (map_types_of first.now.items) frames.now) }
{
    if frames.is_empty() {
        first.len()
    } else {
        frames.local_count()
    }
}

/// All the locals of a frame behind one with these.
fn locals_after(
    alloc: Global,
    before: &List<MapType>,
    change: &Change,
) -> Result<List<MapType>, NoMemory>
    ensures { IfOk result (λ locals. map_types_of locals.items
        ≡ take change.now.kept (map_types_of before.now.items)
        ++ map_types_of change.now.locals.items) }
{
    let mut locals = before.copy(alloc)?;
    locals.cut(change.kept);
    locals.append(change.locals.as_slice())?;
    Ok(locals)
}

/// Adds a frame that changes the locals before it. The first frame shares none, so that the first
/// locals take no memory where no frame has them.
fn push_change(
    alloc: Global,
    first: &List<MapType>,
    frames: &mut Frames,
    pc: u32,
    change: &Change,
) -> Result<(), NoMemory>
    ensures { OnOk result (frames.new ≡ frames.old ++ frame_at pc
        (types_after (locals_behind (map_types_of first.now.items) frames.old) change.now) ∷ []) }
{
    if frames.is_empty() {
        let locals = locals_after(alloc, first, change)?;
        return frames.push(pc, 0, &locals, &change.stack);
    }
    frames.push(pc, change.kept, &change.locals, &change.stack)
}

/// Adds the frame of an entry, behind the others, of which the last is at that place. Its own place,
/// unless the entry has no frame that fits; then nothing is said of the frames.
fn push_frame(
    alloc: Global,
    bounds: Bounds,
    first: &List<MapType>,
    frames: &mut Frames,
    place: Option<u32>,
    entry: &Entry,
) -> Result<Option<u32>, NoMemory>
    requires place { IfSome place (λ before. before < most_places) }
    requires near { are_near bounds.instructions.now ≡ true }
    ensures added { IfOk result (AddsFrame (bounds_of bounds.entry) place
        (locals_behind (map_types_of first.now.items) frames.old) (entry_of entry.now)
        frames.old frames.new) }
    ensures near { IfOk result (λ pc. IfSome pc (λ given. given < most_places)) }
{
    let before = count_before(first, frames);
    let Some(change) = change_of(alloc, bounds.pool, before, &entry.form)? else {
        return Ok(None);
    };
    let pc = place_behind(place, entry.offset_delta);
    push_change(alloc, first, frames, pc, &change)?;
    if fits(bounds, frames, pc, &change.stack) {
        Ok(Some(pc))
    } else {
        Ok(None)
    }
}

/// The frames of a method with these first locals.
pub fn read_frames(
    alloc: Global,
    bounds: Bounds,
    method: u32,
    first: &List<MapType>,
    table: &MapTable,
) -> Result<Frames, CodeError>
    requires { are_near bounds.instructions.now ≡ true }
    ensures { GivesCode method (λ frames. frames) result
        (frames_of (bounds_of bounds.entry) method (map_types_of first.now.items)
        (table_of method table.now)) }
{
    let mut frames = Frames::new(alloc);
    let mut place = None;
    for index in 0..table.entries.len() {
        let entry = table.entries.get(index);
        let Some(pc) = push_frame(alloc, bounds, first, &mut frames, place, entry)? else {
            return Err(CodeError::MapFrame { index });
        };
        place = Some(pc);
    }
    match table.end {
        Some(index) => Err(CodeError::MapFrame { index }),
        None => Ok(frames),
    }
}
