//! The program `local_bench`: makes the local steps of a loop in a method's code, so that they can be
//! timed from outside. `local_bench COUNT` prints how many steps there were, and the sum of the
//! numbers from 1 to COUNT as ints add them.
//!
//! It stands on `local_runs`, whose contract says what the steps make of the words of the frame; that
//! none of them is wrong is proved here.
#![tactic(auto)]

ghost use Rattle.std.specs.Prelude.{◌≡◌, IfOk};
ghost use Rattle.local_bench.specs.Loop.{IsLoop, loop};

use jv_types::{
    Arithmetic, CodeBody, Comparison, Frames, Insn, Instruction, Instructions, List, NoMemory,
    ValueKind,
};
use jv_values::Value;
use local_runs::run::run;
use local_runs::step::Place;
use std::alloc::Global;
use std::process::ExitCode;
use std::{env, io};

/// An instruction at its place.
fn placed(pc: u32, next: u32, instruction: Instruction) -> Insn
    ensures { result ≡ record { pc = pc; next = next; instruction = instruction } }
{
    Insn {
        pc,
        next,
        instruction,
    }
}

/// The instructions of the loop.
fn loop_instructions(alloc: Global) -> Result<Instructions, NoMemory>
    ensures { IfOk result (λ instructions. instructions ≡ loop) }
{
    let mut code = Instructions::new(alloc);
    code.push(placed(0, 3, Instruction::Increment(2, 1)))?;
    code.push(placed(3, 4, Instruction::Load(ValueKind::Int, 1)))?;
    code.push(placed(4, 5, Instruction::Load(ValueKind::Int, 2)))?;
    code.push(placed(5, 6, Instruction::IntArithmetic(Arithmetic::Add)))?;
    code.push(placed(6, 7, Instruction::Store(ValueKind::Int, 1)))?;
    code.push(placed(7, 8, Instruction::Load(ValueKind::Int, 2)))?;
    code.push(placed(8, 9, Instruction::Load(ValueKind::Int, 0)))?;
    code.push(placed(9, 12, Instruction::IfInts(Comparison::Less, 0)))?;
    code.push(placed(12, 13, Instruction::ReturnVoid))?;
    Ok(code)
}

/// The code of the loop.
fn loop_code(alloc: Global) -> Result<CodeBody, NoMemory>
    ensures { IfOk result IsLoop }
{
    Ok(CodeBody {
        max_stack: 2,
        max_locals: 3,
        instructions: loop_instructions(alloc)?,
        handlers: List::new(alloc),
        frames: Frames::new(alloc),
    })
}

/// The steps of the loop up to a count, and the sum.
fn counted(body: &CodeBody, count: i32) -> (u32, Value)
    requires { IsLoop body.now }
{
    let mut locals = [Value::Int(count), Value::Int(0), Value::Int(0)];
    let mut stack = [Value::Null; 2];
    let start = Place {
        number: 0,
        depth: 0,
    };
    let ran = run(body, &[], start, &mut locals, &mut stack, u32::MAX);
    (ran.steps, locals[1])
}

/// Prints what there is to say of a count.
fn say(rt: &HostRuntime, count: i32) -> io::Result<()> {
    let Ok(body) = loop_code(rt.alloc()) else {
        return println!(rt; "no memory");
    };
    let (steps, sum) = counted(&body, count);
    println!(rt; "{steps} steps, {sum:?}")
}

fn main(rt: HostRuntime) -> ExitCode {
    let Ok(mut words) = env::args(&rt) else {
        return ExitCode::FAILURE;
    };
    let _program = words.next();
    let (Some(count), None) = (words.next(), words.next()) else {
        return ExitCode::FAILURE;
    };
    let Ok(count) = count.as_str().parse::<i32>() else {
        return ExitCode::FAILURE;
    };
    match say(&rt, count) {
        Ok(()) => ExitCode::SUCCESS,
        Err(_) => ExitCode::FAILURE,
    }
}
