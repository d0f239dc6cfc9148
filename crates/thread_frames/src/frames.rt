//! The frames of a thread.

ghost use Rattle.std.specs.Prelude.{◌≡◌, ◌+◌, ◌-◌, ◌<◌, ◌≤◌, ◌∷◌, [], Some, IsSome, IsSomeAnd, IfOk, length, drop, reverse, option_map, slice_get, slice_set};
ghost use Rattle.jv_model.specs.Limits.{most_frames, most_stack_words};
ghost use Rattle.jv_values.specs.Values.{value_of, values_of, places_of};
ghost use Rattle.thread_frames.specs.Frames.{frame_at, change_at, newest, change_newest, shown, words_in, AreWithin, fresh_frame, with_pc, with_code, with_local_set, with_pushed, with_popped, with_empty_stack, with_top, with_word};
ghost use Rattle.code_store.specs.Order.{Follows};
ghost use Rattle.local_runs.specs.Places.{step_of};
ghost use Rattle.local_runs.specs.Runs.{NeverWrong};
ghost use Rattle.thread_frames.specs.Machine.{operands_of, value_on_top as value_above, words_frame, RunsNewest};
ghost use Rattle.thread_frames.specs.Laid.{LaidFrom, all_words};

use crate::view::FrameView;
use crate::words::Words;
use code_store::CodeMark;
use jv_types::{CodeBody, Const, List, MethodNo, NoMemory, Pc};
use jv_values::Value;
use jv_values::operands::{two_words, word_on_top};
use local_runs::run::Ran;
use local_runs::step::{Place, number_at};
use std::alloc::Global;
use std::marker::Model;

/// The most frames that a thread has.
pub const MOST_FRAMES: u32 = 1024;

/// What is kept of a frame beside its words: its locals from `base` on, and then its operands, in
/// room for the most that its code has.
#[derive(Clone, Copy, Debug)]
struct Row {
    code: CodeMark,
    method: MethodNo,
    pc: Pc,
    held: Value,
    base: usize,
    locals: usize,
    /// How many words the operands have.
    depth: usize,
    max_stack: usize,
}

/// The frames of a thread, in room for all that it may have. Contracts see a list of frames, the
/// newest first.
#[derive(Drop)]
pub struct ThreadFrames {
    /// The oldest first.
    rows: List<Row>,
    words: Words,
}

impl Model for ThreadFrames {
    ghost use Rattle.std.specs.Prelude.{List};
    ghost use Rattle.thread_frames.specs.Frames.{FrameState};
    ghost use Rattle.thread_frames.specs.Laid.{frames_of, AreLaid};

    ghost Value = { List FrameState };

    ghost view = { frames_of };

    ghost invariant = { AreLaid };
}

/// The row of the newest frame.
fn newest_row(rows: &List<Row>) -> Row
    requires { 0 < length rows.now.items }
    ensures { slice_get rows.now.items (length rows.now.items - 1) ≡ Some result }
{
    *rows.get(rows.len() - 1)
}

/// Replaces it.
fn set_newest_row(rows: &mut List<Row>, row: Row)
    requires { 0 < length rows.old.items }
    ensures items { rows.new.items ≡ slice_set rows.old.items (length rows.old.items - 1) row }
    ensures spare { rows.new.spare ≡ rows.old.spare }
{
    let at = rows.len() - 1;
    rows.set(at, row);
}

/// The place after the words of all frames.
fn end_of(rows: &List<Row>) -> usize
    requires laid { LaidFrom 0 rows.now.items }
    requires room { all_words rows.now.items ≤ most_stack_words }
    ensures { result ≡ all_words rows.now.items }
{
    if rows.is_empty() {
        0
    } else {
        let row = newest_row(rows);
        row.base + row.locals + row.max_stack
    }
}

/// The value on top of operands.
fn value_on_top(operands: &[Value]) -> Value
    requires { IsSome (value_above (values_of (reverse operands.now))) }
    ensures value { value_above (values_of (reverse operands.now)) ≡ Some (value_of result) }
    ensures places { places_of result ≤ length operands.now }
{
    let depth = operands.len();
    match word_on_top(operands, depth) {
        Value::Half => two_words(operands, depth).0,
        word => word,
    }
}

/// How many words a value takes.
fn places(value: Value) -> usize
    ensures { result ≡ places_of value }
{
    match value {
        Value::Long(_) => 2,
        _ => 1,
    }
}

impl ThreadFrames {
    /// No frames. All memory that they ever need is taken now.
    pub fn open(alloc: Global) -> Result<ThreadFrames, NoMemory>
        ensures { IfOk result (λ frames. frames ≡ []) }
    {
        let mut rows = List::new(alloc);
        rows.reserve(MOST_FRAMES)?;
        Ok(ThreadFrames {
            rows,
            words: Words::new(alloc)?,
        })
    }

    /// How many frames there are. It tells beside that what holds of the frames of every thread.
    pub fn depth(&self) -> u32
        ensures depth { result ≡ length self.now }
        ensures within { AreWithin self.now }
    {
        self.rows.len()
    }

    /// The words of all frames, the room of their operands counted.
    pub fn words(&self) -> usize
        ensures { result ≡ words_in self.now }
    {
        end_of(&self.rows)
    }

    /// The frame below which there are so many.
    pub fn frame(&self, d: u32) -> FrameView<'_>
        requires { d < length self.now }
        ensures { option_map shown (frame_at self.now d) ≡ Some (record {
          code = result.code;
          method = result.method;
          pc = result.pc.0;
          held = result.held;
          locals = result.locals.now;
          stack = result.stack.now;
        }) }
    {
        let row = *self.rows.get(d);
        FrameView {
            code: row.code,
            method: row.method,
            pc: row.pc,
            held: row.held,
            locals: self.words.slice(row.base, row.locals),
            stack: self.words.slice(row.base + row.locals, row.depth),
        }
    }

    /// Adds a frame at its begin. Its locals are the arguments, and then zeros.
    pub fn push_frame(
        &mut self,
        code: CodeMark,
        method: MethodNo,
        held: Value,
        args: &[Value],
        max_locals: u16,
        max_stack: u16,
    )
        requires args { length args.now ≤ max_locals }
        requires few { length self.old < most_frames }
        requires words { words_in self.old + (max_locals + max_stack) ≤ most_stack_words }
        ensures { self.new
            ≡ fresh_frame code method held args.now max_locals max_stack ∷ self.old }
    {
        let base = end_of(&self.rows);
        let locals = usize::from(max_locals);
        self.words.put(base, args);
        self.words
            .fill(base + args.len(), locals - args.len(), Value::Int(0));
        self.rows.add(Row {
            code,
            method,
            pc: Pc(0),
            held,
            base,
            locals,
            depth: 0,
            max_stack: usize::from(max_stack),
        });
    }

    /// Removes the newest frame.
    pub fn pop_frame(&mut self)
        requires { 0 < length self.old }
        ensures { self.new ≡ drop 1 self.old }
    {
        let count = self.rows.len() - 1;
        self.rows.cut(count);
    }

    /// Sets the place of the newest frame.
    pub fn set_pc(&mut self, pc: Pc)
        requires { 0 < length self.old }
        ensures { self.new ≡ change_newest (with_pc pc.0) self.old }
    {
        let row = newest_row(&self.rows);
        set_newest_row(&mut self.rows, Row { pc, ..row });
    }

    /// Puts a value into a local of the newest frame: a long into it and the one after it.
    pub fn set_local(&mut self, i: u16, v: Value)
        requires { IsSomeAnd (newest self.old) (λ frame.
            i + places_of v ≤ length frame.locals) }
        ensures { self.new ≡ change_newest (with_local_set i v) self.old }
    {
        let row = newest_row(&self.rows);
        self.words.put_value(row.base + usize::from(i), v);
    }

    /// Puts a value on top of the operands of the newest frame.
    pub fn push_value(&mut self, v: Value)
        requires { IsSomeAnd (newest self.old) (λ frame.
            length frame.stack + places_of v ≤ frame.max_stack) }
        ensures { self.new ≡ change_newest (with_pushed v) self.old }
    {
        let row = newest_row(&self.rows);
        let count = self.words.put_value(row.base + row.locals + row.depth, v);
        let depth = row.depth + count;
        set_newest_row(&mut self.rows, Row { depth, ..row });
    }

    /// Takes the value on top of the operands of the newest frame.
    pub fn pop_value(&mut self) -> Value
        requires { IsSomeAnd (newest self.old) (λ frame.
            IsSome (value_above (operands_of frame))) }
        ensures value { IsSomeAnd (newest self.old) (λ frame.
            value_above (operands_of frame) ≡ Some (value_of result)) }
        ensures rest { self.new ≡ change_newest (with_popped (places_of result)) self.old }
    {
        let row = newest_row(&self.rows);
        let value = value_on_top(self.words.slice(row.base + row.locals, row.depth));
        let depth = row.depth - places(value);
        set_newest_row(&mut self.rows, Row { depth, ..row });
        value
    }

    /// Removes all operands of the newest frame.
    pub fn clear_stack(&mut self)
        requires { 0 < length self.old }
        ensures { self.new ≡ change_newest with_empty_stack self.old }
    {
        let row = newest_row(&self.rows);
        set_newest_row(&mut self.rows, Row { depth: 0, ..row });
    }

    /// Replaces the place, the locals and the operands of the newest frame.
    pub fn set_top(&mut self, pc: Pc, locals: &[Value], stack: &[Value])
        requires { IsSomeAnd (newest self.old) (λ frame.
            (length locals.now ≡ length frame.locals) × (length stack.now ≤ frame.max_stack)) }
        ensures { self.new ≡ change_newest (with_top pc.0 locals.now stack.now) self.old }
    {
        let row = newest_row(&self.rows);
        self.words.put(row.base, locals);
        self.words.put(row.base + locals.len(), stack);
        let depth = stack.len();
        set_newest_row(&mut self.rows, Row { pc, depth, ..row });
    }

    /// Replaces a word of a frame, counted from the held receiver over the locals to the operands.
    pub fn put_word(&mut self, d: u32, at: u32, v: Value)
        requires { IsSomeAnd (frame_at self.old d) (λ frame.
            at ≤ length frame.locals + length frame.stack) }
        ensures { self.new ≡ change_at (with_word at v) self.old d }
    {
        let row = *self.rows.get(d);
        if at == 0 {
            self.rows.set(d, Row { held: v, ..row });
        } else {
            self.words.put(row.base + (at - 1) as usize, &[v]);
        }
    }

    /// Replaces the code, the method and the place of a frame.
    pub fn set_code(&mut self, d: u32, code: CodeMark, method: MethodNo, pc: Pc)
        requires { d < length self.old }
        ensures { self.new ≡ change_at (with_code code method pc.0) self.old d }
    {
        let row = *self.rows.get(d);
        self.rows.set(
            d,
            Row {
                code,
                method,
                pc,
                ..row
            },
        );
    }

    /// Makes local steps of the newest frame in its code, in place, until the next isn't local or
    /// `max` are made.
    pub fn run_local(&mut self, body: &CodeBody, pool: &[Const], max: u32) -> Ran
        requires order { Follows 0 body.now.instructions }
        requires room { IsSomeAnd (newest self.old) (λ frame.
            frame.max_stack ≡ body.now.max_stack) }
        requires right { IsSomeAnd (newest self.old) (λ frame.
            NeverWrong (step_of pool.now body.now) (words_frame frame)) }
        ensures { RunsNewest (step_of pool.now body.now) max result self.old self.new }
    {
        // This tells that each instruction has a number of 32 bits.
        let _count = body.instructions.len();
        let row = newest_row(&self.rows);
        let place = Place {
            number: number_at(&body.instructions, row.pc.0),
            depth: row.depth,
        };
        let ran = self.words.run(row.base, row.locals, body, pool, place, max);
        let pc = Pc(body.instructions.get(ran.place.number).pc);
        let depth = ran.place.depth;
        set_newest_row(&mut self.rows, Row { pc, depth, ..row });
        ran
    }
}
