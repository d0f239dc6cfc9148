//! A step in code.

ghost use Rattle.std.specs.Prelude.{◌≡◌, ◌<◌, ◌+◌, ◌≤◌, ◌==◌, nat_le, find, length, map, slice_get, Some, IsSome, None};
ghost use Rattle.code_model.specs.Names.{named_placed};
ghost use Rattle.jv_types.specs.ClassData.{pool_of};
ghost use Rattle.code_store.specs.Order.{Follows};
ghost use Rattle.local_runs.specs.Places.{step_of, pc_at, frame_at, IsIn, CanGoOn, stepped_in, IsPlaced};

use jv_types::{CodeBody, Const, Insn, Instructions};
use jv_values::Value;
use local_steps::step::local_step;

/// Where a frame is in the code of its method.
#[derive(Clone, Copy, Debug, PartialEq, Eq)]
pub struct Place {
    /// The number of the instruction that comes next.
    pub number: u32,
    /// How many words the operands have.
    pub depth: usize,
}

/// Where a frame is after a step.
#[derive(Clone, Copy, Debug, PartialEq, Eq)]
pub struct Stepped {
    pub place: Place,
    /// Whether the step reached a safe point: it went to a pc that isn't above its own.
    pub mark: bool,
}

/// The number of the instruction at a pc where one is.
pub fn number_at(instructions: &Instructions, pc: u32) -> u32
    requires { IsSome (find (λ placed. placed.pc == pc) instructions.now) }
    ensures within { result < length instructions.now }
    ensures there { pc_at instructions.now result ≡ pc }
{
    match instructions.number_at(pc) {
        Some(number) => number,
        None => unreachable!(),
    }
}

/// Makes the next step of the frame in place, if it is local. Else nothing changes.
pub fn step_at(
    body: &CodeBody,
    pool: &[Const],
    place: Place,
    locals: &mut [Value],
    stack: &mut [Value],
) -> Option<Stepped>
    requires at { IsIn body.now place }
    requires room { length stack.old ≡ body.now.max_stack }
    requires right { CanGoOn (step_of pool.now body.now)
        (step_of pool.now body.now (frame_at body.now place locals.old stack.old)) }
    ensures reached { step_of pool.now body.now (frame_at body.now place locals.old stack.old)
        ≡ stepped_in body.now locals.new stack.new result }
    ensures placed { IsPlaced body.now place result }
    ensures unchanged { result ≡ None
        → ((locals.new ≡ locals.old) × (stack.new ≡ stack.old)) }
{
    let insn = body.instructions.get(place.number);
    let next = local_step(insn, pool, locals, stack, place.depth)?;
    let (number, mark) = match next.target {
        None => (place.number + 1, false),
        Some(target) => (number_at(&body.instructions, target), target <= insn.pc),
    };
    Some(Stepped {
        place: Place {
            number,
            depth: next.depth,
        },
        mark,
    })
}
