//! Room for the words of a frame.

ghost use Rattle.std.specs.Prelude.{◌≡◌, ◌+◌, ◌<◌, ◌≤◌, ◌^◌, length, take, drop, IfOk, IsSome, find, ◌==◌};
ghost use Rattle.jv_model.specs.Limits.{most_frame_words};
ghost use Rattle.code_store.specs.Order.{Follows};
ghost use Rattle.local_steps.specs.Steps.{frame_in};
ghost use Rattle.local_runs.specs.Lent.{frame_of, no_words};
ghost use Rattle.local_runs.specs.Places.{step_of, pc_at, IsIn};
ghost use Rattle.local_runs.specs.Runs.{NeverWrong, IsRun};

use crate::run::{Ran, run};
use crate::step::{Place, number_at};
use jv_types::{ClassNo, CodeBody, Const, MOST_FRAME_WORDS, MethodNo, NoMemory, Pc};
use jv_values::Value;
use std::alloc::Global;
use std::marker::Model;

/// The words of a frame, its locals first, in room for as many as a frame may have.
#[derive(Debug, Drop)]
pub struct FrameRoom {
    method: MethodNo,
    pc: Pc,
    words: Vec<Value>,
    /// How many of the words are locals.
    locals: usize,
    /// How many of the others are operands.
    depth: usize,
}

impl Model for FrameRoom {
    ghost use Rattle.std.specs.Prelude.{◌≡◌, ◌+◌, ◌≤◌, take, drop, vec_len};
    ghost use Rattle.jv_model.specs.Limits.{most_frame_words};
    ghost use Rattle.local_runs.specs.Lent.{FrameWords};

    ghost Value = { FrameWords };

    ghost view = { λ it. record {
      method = it.method;
      pc = it.pc.0;
      locals = take it.locals it.words.items;
      stack = take it.depth (drop it.locals it.words.items);
    } };

    ghost invariant = { λ it.
        (vec_len it.words ≡ most_frame_words) × (it.locals + it.depth ≤ most_frame_words) };
}

/// Puts the words of a frame, its locals first.
fn put_words(words: &mut [Value], locals: &[Value], stack: &[Value])
    requires { length locals.now + length stack.now ≤ length words.old }
    ensures locals { take (length locals.now) words.new ≡ locals.now }
    ensures stack { take (length stack.now) (drop (length locals.now) words.new) ≡ stack.now }
{
    let (front, others) = words.split_at_mut(locals.len());
    front.copy_from_slice(locals);
    others[..stack.len()].copy_from_slice(stack);
}

/// Makes local steps on words of which so many are locals.
fn run_words(
    body: &CodeBody,
    pool: &[Const],
    place: Place,
    words: &mut [Value],
    locals: usize,
    max: u32,
) -> Ran
    requires sizes { locals + body.now.max_stack ≤ length words.old }
    requires at { IsIn body.now place }
    requires right { NeverWrong (step_of pool.now body.now)
        (frame_in (pc_at body.now.instructions place.number)
        (take locals words.old) (drop locals words.old) place.depth) }
    ensures at { IsIn body.now result.place }
    ensures ran { IsRun (step_of pool.now body.now)
        (frame_in (pc_at body.now.instructions place.number)
        (take locals words.old) (drop locals words.old) place.depth)
        (frame_in (pc_at body.now.instructions result.place.number)
        (take locals words.new) (drop locals words.new) result.place.depth) max result }
{
    let room = usize::from(body.max_stack);
    let (locals, others) = words.split_at_mut(locals);
    run(body, pool, place, locals, &mut others[..room], max)
}

impl FrameRoom {
    /// Room for a frame, without words.
    pub fn new(alloc: Global) -> Result<FrameRoom, NoMemory>
        ensures { IfOk result (λ room. room ≡ no_words) }
    {
        Ok(FrameRoom {
            method: MethodNo {
                class: ClassNo(0),
                index: 0,
            },
            pc: Pc(0),
            words: vec![in alloc; Value::Half; MOST_FRAME_WORDS as usize]?,
            locals: 0,
            depth: 0,
        })
    }

    /// Its method.
    pub fn method(&self) -> MethodNo
        ensures { result ≡ self.now.method }
    {
        self.method
    }

    /// The place of the instruction that comes next.
    pub fn pc(&self) -> Pc
        ensures { result.0 ≡ self.now.pc }
    {
        self.pc
    }

    /// Its locals.
    pub fn locals(&self) -> &[Value]
        ensures { result.now ≡ self.now.locals }
    {
        &self.words[..self.locals]
    }

    /// Its operands, from the bottom up.
    pub fn stack(&self) -> &[Value]
        ensures { result.now ≡ self.now.stack }
    {
        &self.words[self.locals..self.locals + self.depth]
    }

    /// Becomes a frame of these words.
    pub fn set(&mut self, method: MethodNo, pc: Pc, locals: &[Value], stack: &[Value])
        requires { length locals.now + length stack.now ≤ most_frame_words }
        ensures { self.new ≡ record {
          method = method;
          pc = pc.0;
          locals = locals.now;
          stack = stack.now;
        } }
    {
        put_words(self.words.as_mut_slice(), locals, stack);
        self.method = method;
        self.pc = pc;
        self.locals = locals.len();
        self.depth = stack.len();
    }

    /// Makes local steps in its code until the next isn't local or `max` are made.
    pub fn run(&mut self, body: &CodeBody, pool: &[Const], max: u32) -> Ran
        requires order { Follows 0 body.now.instructions }
        requires locals { length self.old.locals ≡ body.now.max_locals }
        requires stack { length self.old.stack ≤ body.now.max_stack }
        requires words { body.now.max_locals + body.now.max_stack ≤ most_frame_words }
        requires right { NeverWrong (step_of pool.now body.now) (frame_of self.old) }
        ensures method { self.new.method ≡ self.old.method }
        ensures locals { length self.new.locals ≡ body.now.max_locals }
        ensures stack { length self.new.stack ≤ body.now.max_stack }
        ensures ran { IsRun (step_of pool.now body.now) (frame_of self.old) (frame_of self.new)
            max result }
    {
        // This tells that each instruction has a number of 32 bits.
        let _count = body.instructions.len();
        let place = Place {
            number: number_at(&body.instructions, self.pc.0),
            depth: self.depth,
        };
        let ran = run_words(
            body,
            pool,
            place,
            self.words.as_mut_slice(),
            self.locals,
            max,
        );
        self.pc = Pc(body.instructions.get(ran.place.number).pc);
        self.depth = ran.place.depth;
        ran
    }
}
