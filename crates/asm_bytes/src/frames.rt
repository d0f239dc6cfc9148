//! The bytes of stack map frames (JVMS 4.7.4). Each is full.

ghost use Rattle.std.specs.Prelude.{◌≡◌, ◌++◌, IfOk, OnOk, length};
ghost use Rattle.std.specs.List.{flat_map};
ghost use Rattle.assembler_model.specs.CodeBytes.{frames_bytes, map_bytes, maps_bytes, type_bytes, types_bytes};
ghost use Rattle.assembler_model.specs.CodeFaults.{frames_of, target_in};
ghost use Rattle.asm_lines.specs.Terms.{type_of};
ghost use Rattle.asm_parts.specs.Pools.{entries_in, IsPool};
ghost use Rattle.asm_code.specs.Faults.{no_pc};
ghost use Rattle.asm_code.specs.Labels.{labels_in};
ghost use Rattle.asm_code.specs.Places.{code_line_of, lines_of};
ghost use Rattle.asm_pool.specs.Needs.{types_of};
ghost use Rattle.asm_bytes.specs.Bytes.{frame_bytes, full_frame, last_pc};

use crate::bytes::{push_u1, push_u2, push_u4};
use asm_code::code_line::{Code, CodeLine};
use asm_code::faults::{is_frame, offset_delta};
use asm_code::labels::{Labels, target_of};
use asm_lines::term::{AssemblerLine, FrameType};
use asm_parts::entry::Entry;
use asm_parts::pool::index_of;
use asm_parts::pool_entries::Pool;
use jv_types::{Bytes, List, NoMemory};
use std::alloc::Global;

/// Adds a verification type.
fn push_type(
    bytes: &mut Bytes,
    pool: &Pool<'_>,
    labels: &Labels<'_>,
    kind: FrameType<'_>,
) -> Result<(), NoMemory>
    requires { IsPool pool.now }
    ensures { OnOk result (bytes.new.items ≡ bytes.old.items
        ++ type_bytes (entries_in pool.now) (target_in (labels_in labels.now.entries)) (type_of kind.entry)) }
{
    match kind {
        FrameType::Top => push_u1(bytes, 0),
        FrameType::Int => push_u1(bytes, 1),
        FrameType::Long => push_u1(bytes, 4),
        FrameType::Null => push_u1(bytes, 5),
        FrameType::This => push_u1(bytes, 6),
        FrameType::Object(name) => {
            push_u1(bytes, 7)?;
            push_u2(bytes, index_of(pool, Entry::Class(name)))
        }
        FrameType::New(label) => {
            push_u1(bytes, 8)?;
            push_u2(bytes, target_of(labels, label))
        }
    }
}

/// Adds types, one after the other.
fn push_each_type(
    bytes: &mut Bytes,
    pool: &Pool<'_>,
    labels: &Labels<'_>,
    types: &[FrameType<'_>],
) -> Result<(), NoMemory>
    requires { IsPool pool.now }
    ensures { OnOk result (bytes.new.items ≡ bytes.old.items
        ++ flat_map (type_bytes (entries_in pool.now) (target_in (labels_in labels.now.entries))) (types_of types.now)) }
{
    for kind in types {
        push_type(bytes, pool, labels, *kind)?;
    }
    Ok(())
}

/// Adds a list of types behind its length.
fn push_types(
    bytes: &mut Bytes,
    pool: &Pool<'_>,
    labels: &Labels<'_>,
    types: &List<FrameType<'_>>,
) -> Result<(), NoMemory>
    requires { IsPool pool.now }
    ensures { OnOk result (bytes.new.items ≡ bytes.old.items
        ++ types_bytes (entries_in pool.now) (target_in (labels_in labels.now.entries)) (types_of types.now.items)) }
{
    push_u2(bytes, types.len())?;
    push_each_type(bytes, pool, labels, types.as_slice())
}

/// How many lines are frames.
fn frame_count(lines: &List<CodeLine<'_, '_>>) -> u32
    ensures { result ≡ length (frames_of (lines_of lines.now.items)) }
{
    let mut count = 0;
    for at in 0..lines.len() {
        if is_frame(lines.get(at).line) {
            count += 1;
        }
    }
    count
}

/// Adds a full frame at this distance from the one before.
fn push_full_frame(
    bytes: &mut Bytes,
    pool: &Pool<'_>,
    labels: &Labels<'_>,
    distance: u32,
    locals: &List<FrameType<'_>>,
    stack: &List<FrameType<'_>>,
) -> Result<(), NoMemory>
    requires { IsPool pool.now }
    ensures { OnOk result (bytes.new.items ≡ bytes.old.items
        ++ full_frame (entries_in pool.now) (target_in (labels_in labels.now.entries)) distance
        (types_of locals.now.items) (types_of stack.now.items)) }
{
    push_u1(bytes, 255)?;
    push_u2(bytes, distance)?;
    push_types(bytes, pool, labels, locals)?;
    push_types(bytes, pool, labels, stack)
}

/// Adds a line's frame, where it is one, with its distance from the one before. The pc of the last
/// frame, this one or the one before.
fn push_frame(
    bytes: &mut Bytes,
    pool: &Pool<'_>,
    labels: &Labels<'_>,
    before: Option<u32>,
    here: &CodeLine<'_, '_>,
) -> Result<Option<u32>, NoMemory>
    requires { IsPool pool.now }
    ensures bytes { OnOk result (bytes.new.items ≡ bytes.old.items
        ++ frame_bytes (entries_in pool.now) (target_in (labels_in labels.now.entries)) before (code_line_of here.now)) }
    ensures last { IfOk result (λ last. last ≡ last_pc before (code_line_of here.now)) }
{
    let Ok(AssemblerLine::Frame { locals, stack }) = &here.line.said else {
        return Ok(before);
    };
    let distance = offset_delta(before, here.pc).unwrap_or(0);
    push_full_frame(bytes, pool, labels, distance, locals, stack)?;
    Ok(here.pc)
}

/// Adds the frames.
fn push_frames(
    bytes: &mut Bytes,
    pool: &Pool<'_>,
    labels: &Labels<'_>,
    lines: &[CodeLine<'_, '_>],
) -> Result<(), NoMemory>
    requires { IsPool pool.now }
    ensures { OnOk result (bytes.new.items ≡ bytes.old.items
        ++ frames_bytes (entries_in pool.now) (target_in (labels_in labels.now.entries)) no_pc (frames_of (lines_of lines.now))) }
{
    let mut before = None;
    for here in lines {
        let last = push_frame(bytes, pool, labels, before, here)?;
        before = last;
    }
    Ok(())
}

/// The contents of a StackMapTable of so many frames.
fn map_bytes(
    alloc: Global,
    pool: &Pool<'_>,
    count: u32,
    code: &Code<'_, '_>,
) -> Result<Bytes, NoMemory>
    requires pool { IsPool pool.now }
    requires count { count ≡ length (frames_of (lines_of code.now.lines.items)) }
    ensures { IfOk result (λ bytes. bytes.items ≡ map_bytes (entries_in pool.now)
        (target_in (labels_in code.now.labels.entries)) (frames_of (lines_of code.now.lines.items))) }
{
    let mut bytes = List::new(alloc);
    push_u2(&mut bytes, count)?;
    push_frames(&mut bytes, pool, &code.labels, code.lines.as_slice())?;
    Ok(bytes)
}

/// Adds the attributes of a method's code: a StackMapTable, where the code has a frame.
pub fn push_maps(
    alloc: Global,
    bytes: &mut Bytes,
    pool: &Pool<'_>,
    code: &Code<'_, '_>,
) -> Result<(), NoMemory>
    requires { IsPool pool.now }
    ensures { OnOk result (bytes.new.items ≡ bytes.old.items
        ++ maps_bytes (entries_in pool.now) (target_in (labels_in code.now.labels.entries)) (frames_of (lines_of code.now.lines.items))) }
{
    let count = frame_count(&code.lines);
    if count == 0 {
        return push_u2(bytes, 0);
    }
    let map = map_bytes(alloc, pool, count, code)?;
    push_u2(bytes, 1)?;
    push_u2(bytes, index_of(pool, Entry::Text("StackMapTable")))?;
    push_u4(bytes, map.len())?;
    bytes.append(map.as_slice())
}
