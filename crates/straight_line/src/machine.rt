//! The machine of a program whose main is a straight line.

ghost use Rattle.std.specs.Prelude.{◌≡◌, ◌<◌, ◌≤◌, [], ◌∷◌, ◌++◌, length, map, IfOk, OnOk, IsSome, Some};
ghost use Rattle.jv_types.specs.Entry.{entries_of};
ghost use Rattle.straight_line.specs.Body.{instruction_of, body_of};
ghost use Rattle.straight_line_model.specs.StraightLine.{IsStraightLine};
ghost use Rattle.straight_line_model.specs.OperandStack.{int};
ghost use Rattle.straight_line_model.specs.Effect.{printed_line};
ghost use Rattle.jv_model.specs.Journal.{run};
ghost use Rattle.jv_model.specs.Limits.{most_slice_steps};
ghost use Rattle.straight_line.specs.Programs.{program};
ghost use Rattle.straight_line.specs.Runs.{RanToEnd, IsTurn, values_of, state, after, after_all, HasIntOnTop};

use crate::body::{Body, Instruction};
use jv_types::{
    Bytes, Entry, List, MOST_SLICE_STEPS, NoMemory, OperandStack, ThreadNo, int_negate, int_op,
};
use std::alloc::Global;

/// A value on the operand stack (JVMS 2.2).
#[derive(Clone, Copy)]
pub(crate) enum Value {
    Int(i32),
    /// The PrintStream of `System.out`.
    PrintStream,
}

/// The one frame of main, and what was printed so far.
#[derive(Drop)]
pub(crate) struct Machine {
    pub(crate) stack: OperandStack<Value>,
    pub(crate) output: Bytes,
}

/// What a run made.
#[derive(Drop)]
pub struct Run {
    /// What the program printed.
    pub output: Bytes,
    pub journal: List<Entry>,
}

/// Takes the int on top away.
fn pop_int(stack: &mut OperandStack<Value>) -> i32
    requires { HasIntOnTop (values_of stack.old) }
    ensures { values_of stack.old ≡ int result ∷ values_of stack.new }
{
    match stack.pop() {
        Some(Value::Int(value)) => value,
        _ => unreachable!(),
    }
}

/// Writes an int as a line.
fn print_line(alloc: Global, value: i32, output: &mut Bytes) -> Result<(), NoMemory>
    ensures { OnOk result (output.new.items ≡ output.old.items ++ printed_line value) }
{
    output.append(format!(in alloc; "{value}\n")?.as_bytes())
}

impl Machine {
    /// Runs an instruction, which finds its operands. A `return` leaves the frame to whoever runs
    /// it.
    fn execute(&mut self, alloc: Global, instruction: Instruction) -> Result<(), NoMemory>
        requires { IsSome (after (instruction_of instruction) (state self.old)) }
        ensures { OnOk result
            (after (instruction_of instruction) (state self.old) ≡ Some (state self.new)) }
    {
        match instruction {
            Instruction::Constant(value) => self.stack.push(Value::Int(value)),
            Instruction::Arithmetic(operation) => {
                let b = pop_int(&mut self.stack);
                let a = pop_int(&mut self.stack);
                self.stack.push(Value::Int(int_op(operation, a, b)))
            }
            Instruction::Negate => {
                let a = pop_int(&mut self.stack);
                self.stack.push(Value::Int(int_negate(a)))
            }
            Instruction::Pop => {
                let _dropped = self.stack.pop();
                Ok(())
            }
            Instruction::GetOut => self.stack.push(Value::PrintStream),
            Instruction::PrintLine => {
                let value = pop_int(&mut self.stack);
                let _stream = self.stack.pop();
                print_line(alloc, value, &mut self.output)
            }
            Instruction::Return => Ok(()),
        }
    }

    /// Runs instructions one after the other, which find their operands.
    fn run_slice(&mut self, alloc: Global, slice: &[Instruction]) -> Result<(), NoMemory>
        requires { IsSome (after_all (map instruction_of slice.now) (state self.old)) }
        ensures { OnOk result
            (after_all (map instruction_of slice.now) (state self.old) ≡ Some (state self.new)) }
    {
        for instruction in slice {
            self.execute(alloc, *instruction)?;
        }
        Ok(())
    }

    /// Makes a turn of thread 0 of them, and enters it in the journal.
    fn take_turn(
        &mut self,
        alloc: Global,
        slice: &[Instruction],
        journal: &mut List<Entry>,
    ) -> Result<(), NoMemory>
        requires runs { IsSome (after_all (map instruction_of slice.now) (state self.old)) }
        requires short { length slice.now ≤ most_slice_steps }
        ensures state { OnOk result
            (after_all (map instruction_of slice.now) (state self.old) ≡ Some (state self.new)) }
        ensures entry { OnOk result (entries_of journal.new.items
            ≡ entries_of journal.old.items ++ run 0 (length slice.now) ∷ []) }
    {
        self.run_slice(alloc, slice)?;
        journal.push(Entry::Run {
            thread: ThreadNo(0),
            steps: slice.len() as u32,
        })
    }
}

/// The instructions of the next turn, and those behind it.
fn split_turn(rest: &[Instruction]) -> (&[Instruction], &[Instruction])
    requires { 0 < length rest.now }
    ensures parts { rest.now ≡ result.0.now ++ result.1.now }
    ensures turn { IsTurn result.0.now result.1.now }
{
    rest.split_at(rest.len().min(MOST_SLICE_STEPS))
}

/// Runs a program to its end: thread 0 makes a step for each instruction, in turns of 64.
pub fn run_to_end(alloc: Global, body: &Body) -> Result<Run, NoMemory>
    requires { IsStraightLine (body_of body.now) }
    ensures { IfOk result
        (λ run. RanToEnd (program body.now) (entries_of run.journal.items) run.output.items) }
{
    let mut machine = Machine {
        stack: OperandStack::new(alloc),
        output: List::new(alloc),
    };
    let mut journal = List::new(alloc);
    let mut rest = body.instructions.as_slice();
    while !rest.is_empty() {
        let (slice, after) = split_turn(rest);
        machine.take_turn(alloc, slice, &mut journal)?;
        rest = after;
    }
    Ok(Run {
        output: machine.output,
        journal,
    })
}
