//! A copy of a frame that is lent, on which local steps are made.

ghost use Rattle.std.specs.Prelude.{◌≡◌, ◌+◌, ◌<◌, ◌≤◌, None, false, length, slice_get, Some, IfOk};
ghost use Rattle.jv_model.specs.Limits.{most_frame_words};
ghost use Rattle.machine_model.specs.LocalStep.{not_local};
ghost use Rattle.code_store.specs.Codes.{ShowsCode};
ghost use Rattle.local_runs.specs.Lent.{IsMade, frame_of, step_shown, most_lent_steps, FitsAfter, first_in, mark_in};
ghost use Rattle.local_runs.specs.Runs.{NeverWrong, frame_after};

use crate::frame::FrameRoom;
use code_store::{Code, CodeMark, Codes};
use jv_types::{ClassNo, MethodNo, NoMemory, Pc, ThreadNo};
use jv_values::Value;
use std::alloc::Global;
use std::marker::{Model, PhantomData};

/// A frame that is looked at where it stands.
#[derive(Clone, Copy, Debug)]
pub struct LentFrame<'a> {
    pub code: CodeMark,
    pub method: MethodNo,
    /// The place of the instruction that comes next.
    pub pc: Pc,
    pub locals: &'a [Value],
    /// The operands from the bottom up.
    pub stack: &'a [Value],
}

/// A copy of the newest frame of a thread, as it was lent and as local steps of its code have left
/// it. The table that `C` names has the code.
#[derive(Drop)]
pub struct Lent<C: Codes> {
    thread: ThreadNo,
    code: CodeMark,
    start: FrameRoom,
    current: FrameRoom,
    steps: u32,
    first: Option<u32>,
    mark: bool,
    table: PhantomData<C>,
}

impl<C: Codes> Model for Lent<C> {
    ghost use Rattle.local_runs.specs.Lent.{Copy, IsMade};

    ghost Value = { Copy };

    ghost view = { λ it. record {
      thread = it.thread;
      code = it.code;
      start = it.start;
      current = it.current;
      steps = it.steps;
      first = it.first;
      mark = it.mark;
    } };

    ghost invariant = { λ it. IsMade C.table (record {
      thread = it.thread;
      code = it.code;
      start = it.start;
      current = it.current;
      steps = it.steps;
      first = it.first;
      mark = it.mark;
    }) };
}

impl<C: Codes> Lent<C> {
    ghost use Rattle.local_runs.specs.Lent.{fresh_copy, empty_copy};

    /// A copy of nothing, in room for two frames.
    pub fn new(alloc: Global) -> Result<Lent<C>, NoMemory>
        ensures { IfOk result (λ lent. lent ≡ empty_copy) }
    {
        Ok(Lent {
            thread: ThreadNo(0),
            code: CodeMark {
                body: 0,
                version: 0,
            },
            start: FrameRoom::new(alloc)?,
            current: FrameRoom::new(alloc)?,
            steps: 0,
            first: None,
            mark: false,
            table: PhantomData,
        })
    }

    /// Becomes the copy of a frame, of which no step was made.
    pub fn set(
        &mut self,
        thread: ThreadNo,
        code: &CodeMark,
        method: MethodNo,
        pc: Pc,
        locals: &[Value],
        stack: &[Value],
    )
        requires words { length locals.now + length stack.now ≤ most_frame_words }
        requires code { code.now.body < length C.table }
        ensures { self.new ≡ fresh_copy thread code.now (record {
          method = method;
          pc = pc.0;
          locals = locals.now;
          stack = stack.now;
        }) }
    {
        self.thread = thread;
        self.code = *code;
        self.start.set(method, pc, locals, stack);
        self.current.set(method, pc, locals, stack);
        self.steps = 0;
        self.first = None;
        self.mark = false;
    }

    /// Becomes a copy of nothing, as it was when it was made.
    pub fn empty(&mut self)
        ensures { self.new ≡ empty_copy }
    {
        let nothing = MethodNo {
            class: ClassNo(0),
            index: 0,
        };
        self.thread = ThreadNo(0);
        self.code = CodeMark {
            body: 0,
            version: 0,
        };
        self.start.set(nothing, Pc(0), &[], &[]);
        self.current.set(nothing, Pc(0), &[], &[]);
        self.steps = 0;
        self.first = None;
        self.mark = false;
    }

    /// The thread whose frame it is.
    pub fn thread(&self) -> ThreadNo
        ensures { result ≡ self.now.thread }
    {
        self.thread
    }

    /// What stands for its code.
    pub fn code(&self) -> CodeMark
        ensures { result ≡ self.now.code }
    {
        self.code
    }

    /// The frame as it was lent.
    pub fn start(&self) -> LentFrame<'_>
        ensures code { result.code ≡ self.now.code }
        ensures method { result.method ≡ self.now.start.method }
        ensures pc { result.pc.0 ≡ self.now.start.pc }
        ensures locals { result.locals.now ≡ self.now.start.locals }
        ensures stack { result.stack.now ≡ self.now.start.stack }
    {
        LentFrame {
            code: self.code,
            method: self.start.method(),
            pc: self.start.pc(),
            locals: self.start.locals(),
            stack: self.start.stack(),
        }
    }

    /// The frame as it is now.
    pub fn now(&self) -> LentFrame<'_>
        ensures code { result.code ≡ self.now.code }
        ensures method { result.method ≡ self.now.current.method }
        ensures pc { result.pc.0 ≡ self.now.current.pc }
        ensures locals { result.locals.now ≡ self.now.current.locals }
        ensures stack { result.stack.now ≡ self.now.current.stack }
    {
        LentFrame {
            code: self.code,
            method: self.current.method(),
            pc: self.current.pc(),
            locals: self.current.locals(),
            stack: self.current.stack(),
        }
    }

    /// How many steps were made. It tells beside that what every copy keeps.
    pub fn steps(&self) -> u32
        ensures steps { result ≡ self.now.steps }
        ensures made { IsMade C.table self.now }
    {
        self.steps
    }

    /// The least number of steps after which a safe point was reached.
    pub fn first(&self) -> Option<u32>
        ensures { result ≡ self.now.first }
    {
        self.first
    }

    /// Whether the last step reached a safe point.
    pub fn mark(&self) -> bool
        ensures { result ≡ self.now.mark }
    {
        self.mark
    }
}

/// The first of the steps after which a safe point was reached, where more were made after so many.
fn first_joined(before: Option<u32>, steps: u32, more: Option<u32>) -> Option<u32>
    requires { FitsAfter steps more }
    ensures { result ≡ first_in before steps more }
{
    match (before, more) {
        (None, Some(first)) => Some(steps + first),
        (first, _) => first,
    }
}

/// Whether the last step reached a safe point, where so many more were made.
fn mark_joined(before: bool, more: u32, mark: bool) -> bool
    ensures { result ≡ mark_in before more mark }
{
    if more == 0 { before } else { mark }
}

/// Makes local steps of a copy in its code until the next isn't local or `max` are made, and gives
/// how many they are.
pub fn run_local<C: Codes>(code: Code<'_>, lent: &mut Lent<C>, max: u32) -> u32
    requires code { ShowsCode (slice_get C.table lent.old.code.body) code.pool.now code.body.now }
    requires sum { lent.old.steps + max ≤ most_lent_steps }
    requires locals { length lent.old.current.locals ≡ code.body.now.max_locals }
    requires stack { length lent.old.current.stack ≤ code.body.now.max_stack }
    requires right { NeverWrong (step_shown C.table lent.old.code)
        (frame_of lent.old.current) }
    ensures few { result ≤ max }
    ensures reached { frame_after (step_shown C.table lent.old.code)
        (frame_of lent.old.current) result
        ≡ Some (frame_of lent.new.current) }
    ensures most { result < max
        → step_shown C.table lent.old.code (frame_of lent.new.current) ≡ not_local }
    ensures method { lent.new.current.method ≡ lent.old.current.method }
    ensures steps { lent.new.steps ≡ lent.old.steps + result }
    ensures made { IsMade C.table lent.new }
    ensures thread { lent.new.thread ≡ lent.old.thread }
    ensures code { lent.new.code ≡ lent.old.code }
    ensures start { lent.new.start ≡ lent.old.start }
{
    let ran = lent.current.run(code.body, code.pool, max);
    lent.first = first_joined(lent.first, lent.steps, ran.first);
    lent.mark = mark_joined(lent.mark, ran.steps, ran.mark);
    lent.steps += ran.steps;
    ran.steps
}
