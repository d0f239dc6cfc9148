//! The code of methods.

ghost use Rattle.std.specs.Prelude.{◌≡◌, [], is_some, IfOk, IfSome, Some};
ghost use Rattle.link_model.specs.WorldOf.{class_of};
ghost use Rattle.linked_laws.specs.Laws.{TypingIsGrounded};
ghost use Rattle.jv_types.specs.Loaded.{loaded_of};
ghost use Rattle.class_world.specs.World.{IsInfo};
ghost use Rattle.stackmap_verify.specs.Codes.{IsLinkedCode, method_in};
ghost use Rattle.stackmap_verify.specs.Passed.{PassesAs};

use crate::environment::environment;
use crate::frame_numbers::FrameNumbers;
use crate::kept::Kept;
use crate::method::Method;
use crate::pass::{Passed, pass_over};
use class_world::{ClassInfo, World};
use jv_types::{CodeBody, Loaded, Member, NoMemory, Steps, text_at};
use map_frames::{MethodCode, has_room, method_types, start_frame};
use std::alloc::Global;
use std::sync::ledger::Ledger;

/// Access flag of a static method (JVMS table 4.6-A).
const ACC_STATIC: u16 = 0x0008;

/// A method of a class that was read, with its code.
#[derive(Clone, Copy)]
pub struct Coded<'a> {
    pub class: &'a ClassInfo,
    pub loaded: &'a Loaded,
    pub member: &'a Member,
    pub body: &'a CodeBody,
}

/// Goes over the code of a method, and keeps the frames of its instructions where they are wanted.
pub fn pass_code<L: Ledger>(
    alloc: Global,
    world: &World,
    coded: &Coded,
    kept: Kept,
    steps: &mut Steps<L>,
) -> Result<Passed, NoMemory>
    requires grounded { TypingIsGrounded world.now }
    requires class { IsInfo world.now (class_of (loaded_of coded.now.loaded.now))
        coded.now.class.now }
    requires linked { IsLinkedCode world.now coded.now.loaded.now coded.now.member.now
        coded.now.body.now }
    requires kept { IfSome kept (λ frames. frames ≡ []) }
    ensures { IfOk result (λ passed. PassesAs world.now
        (class_of (loaded_of coded.now.loaded.now))
        (method_in coded.now.loaded.now coded.now.member.now (Some coded.now.body.now))
        (is_some kept) passed) }
{
    let pool = coded.loaded.file.pool.as_slice();
    let types = method_types(alloc, world, text_at(pool, coded.member.descriptor))?;
    let name = text_at(pool, coded.member.name);
    let max_stack = coded.body.max_stack;
    let here = environment(world, coded.class, name, types.result, max_stack);
    let code = MethodCode {
        pool,
        body: coded.body,
        is_static: coded.member.flags & ACC_STATIC != 0,
        parameters: types.parameters.as_slice(),
    };
    let numbers = FrameNumbers::of(alloc, &coded.body.frames)?;
    let start = start_frame(alloc, &here, &code)?;
    let method = Method {
        world,
        here: &here,
        code: &code,
        numbers: &numbers,
        has_room: has_room(&code, &start),
    };
    pass_over(alloc, &method, start, kept, steps)
}
