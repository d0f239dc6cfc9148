//! The code of a method, from the bytes of its attribute.

ghost use Rattle.std.specs.Prelude.{◌≡◌, true, ◌≤◌, ◌<◌, ◌^◌, IfOk, length};
ghost use Rattle.jv_model.specs.Limits.{most_code_bytes};
ghost use Rattle.jv_types.specs.ClassData.{class_data_of, member_of, pool_of};
ghost use Rattle.jv_types.specs.Code.{body_of};
ghost use Rattle.code_reader.specs.Body.{fitting_parts_at, led_instructions, staged_body};
ghost use Rattle.code_reader.specs.Gives.{GivesCode};
ghost use Rattle.code_reader.specs.Head.{head_at, IsEarly, IsRefusal};
ghost use Rattle.jv_model.specs.Input.{whole_of};
ghost use Rattle.code_reader.specs.Parts.{parts_of};
ghost use Rattle.code_reader.specs.Near.{are_near};

use crate::error::CodeError;
use crate::frames::{Bounds, read_frames};
use crate::instruction::read_instructions;
use crate::parts::{Parts, read_parts};
use crate::places::{wrong_handler, wrong_target};
use class_pool::first_locals;
use jv_types::{ClassData, CodeBody, Const, Instructions, List, MOST_FRAME_WORDS, Member};
use std::alloc::Global;

/// The parts of the attribute, unless their frames have too many words.
fn read_fitting<'a>(
    alloc: Global,
    pool: &List<Const>,
    method: u32,
    bytes: &'a [u8],
) -> Result<Parts<'a>, CodeError>
    requires { length bytes.now < 2 ^ 32 }
    ensures parts { GivesCode method (parts_of method) result
        (fitting_parts_at (pool_of pool.now.items) method bytes.now) }
    ensures short { IfOk result (λ parts. length parts.code.now ≤ most_code_bytes) }
    ensures early { IsEarly IsRefusal (head_at method (whole_of bytes.now)) result }
{
    let parts = read_parts(alloc, pool, method, bytes)?;
    let words = u32::from(parts.max_stack) + u32::from(parts.max_locals);
    if words > MOST_FRAME_WORDS {
        return Err(CodeError::FrameTooBig { words });
    }
    Ok(parts)
}

/// The instructions, whose branches and handlers lead to instructions.
fn read_led(
    alloc: Global,
    class: &ClassData,
    method: u32,
    parts: &Parts,
) -> Result<Instructions, CodeError>
    requires { length parts.now.code.now ≤ most_code_bytes }
    ensures near { IfOk result (λ instructions. are_near instructions ≡ true) }
    ensures led { GivesCode method (λ instructions. instructions) result
        (led_instructions (class_data_of class.now) method (parts_of method parts.now)) }
{
    let instructions = read_instructions(alloc, class, method, parts.code)?;
    if let Some(pc) = wrong_target(&instructions) {
        return Err(CodeError::Target { pc });
    }
    let end = parts.code.len() as u32;
    if let Some(row) = wrong_handler(&class.pool, end, &instructions, &parts.handlers) {
        return Err(CodeError::Handler { row });
    }
    Ok(instructions)
}

/// The code of the method with that index, from the bytes of its attribute.
pub fn read_body(
    alloc: Global,
    class: &ClassData,
    method: u32,
    member: &Member,
    bytes: &[u8],
) -> Result<CodeBody, CodeError>
    requires { length bytes.now < 2 ^ 32 }
    ensures body { GivesCode method body_of result
        (staged_body (class_data_of class.now) method (member_of member.now) bytes.now) }
    ensures early { IsEarly IsRefusal (head_at method (whole_of bytes.now)) result }
{
    let parts = read_fitting(alloc, &class.pool, method, bytes)?;
    let instructions = read_led(alloc, class, method, &parts)?;
    let first = first_locals(alloc, class, member)?;
    let bounds = Bounds {
        pool: &class.pool,
        max_stack: parts.max_stack,
        max_locals: parts.max_locals,
        instructions: &instructions,
    };
    let frames = read_frames(alloc, bounds, method, &first, &parts.map)?;
    Ok(CodeBody {
        max_stack: parts.max_stack,
        max_locals: parts.max_locals,
        instructions,
        handlers: parts.handlers,
        frames,
    })
}
