//! The stacks of all threads.

ghost use Rattle.std.specs.Prelude.{◌≡◌, ◌+◌, ◌<◌, ◌≤◌, ◌↔◌, ◌∷◌, ◌++◌, [], ⊤, Some, None, IsSome, IsSomeAnd, IsNone, IfOk, IfSome, OnSome, IfNone, MatchOption, ◌⊎◌, length, drop, replicate, option_map, slice_get};
ghost use Rattle.jv_model.specs.Limits.{most_threads};
ghost use Rattle.code_store.specs.Order.{Follows};
ghost use Rattle.jv_values.specs.Values.{value_of, places_of};
ghost use Rattle.local_runs.specs.Places.{step_of};
ghost use Rattle.local_runs.specs.Runs.{NeverWrong};
ghost use Rattle.thread_frames.specs.Frames.{frame_at, change_at, newest, change_newest, shown, words_in, AreWithin, fresh_frame, with_pc, with_code, with_local_set, with_pushed, with_popped, with_empty_stack, with_top, with_word};
ghost use Rattle.thread_frames.specs.Machine.{operands_of, value_on_top, words_frame, RunsNewest};
ghost use Rattle.frame_stacks.specs.Limits.{most_starts};
ghost use Rattle.frame_stacks.specs.Threads.{IsOf, HasRoom, RunsThread, change_thread, new_thread, with_frames, with_starts, with_mark, finished};
ghost use Rattle.frame_stacks.specs.Kept.{unused};

use crate::thread::Thread;
use code_store::CodeMark;
use jv_types::{ClassNo, CodeBody, Const, MethodNo, NoMemory, Pc, ThreadNo};
use jv_values::Value;
use local_runs::Ran;
use std::alloc::Global;
use std::marker::Model;
use thread_frames::FrameView;

/// The most threads that there ever are in a run.
pub const MOST_THREADS: u32 = 64;

/// The stacks of all threads. Contracts see a list of threads by their numbers, and for how many
/// there is room.
#[derive(Drop)]
pub struct Stacks {
    /// First those that there are, and then unused ones.
    threads: Vec<Thread>,
    count: u32,
}

impl Model for Stacks {
    ghost use Rattle.frame_stacks.specs.Threads.{Threads};
    ghost use Rattle.frame_stacks.specs.Kept.{threads_of, AreKept};

    ghost Value = { Threads };

    ghost view = { threads_of };

    ghost invariant = { AreKept };
}

/// So many threads with nothing in them.
fn unused_threads(alloc: Global, count: u32) -> Result<Vec<Thread>, NoMemory>
    ensures { IfOk result (λ threads. threads.items ≡ replicate count unused) }
{
    let mut threads = Vec::new(alloc);
    for _made in 0..count {
        threads.push(Thread::new(alloc)?)?;
    }
    Ok(threads)
}

impl Stacks {
    /// No threads, and room for so many. All memory that they ever need is taken now.
    pub fn open(alloc: Global, threads: u32) -> Result<Stacks, NoMemory>
        ensures { IfOk result (λ stacks. stacks ≡ record { threads = []; room = threads }) }
    {
        Ok(Stacks {
            threads: unused_threads(alloc, threads)?,
            count: 0,
        })
    }

    /// How many threads there are.
    pub fn threads(&self) -> u32
        ensures { result ≡ length self.now.threads }
    {
        self.count
    }

    /// Adds a thread that is to run a method, and gives its number. There is none exactly where
    /// there are as many as there may ever be; then nothing changes.
    pub fn add_thread(&mut self, first: MethodNo) -> Option<ThreadNo>
        requires { (length self.old.threads ≡ most_threads)
            ⊎ (length self.old.threads < self.old.room) }
        ensures full { IsNone result ↔ (length self.old.threads ≡ most_threads) }
        ensures number { IfSome result (λ t. t.0 ≡ length self.old.threads) }
        ensures added { OnSome result (self.new ≡ record self.old {
          threads = self.old.threads ++ new_thread first ∷ [];
        }) }
        ensures unchanged { IfNone result (self.new ≡ self.old) }
    {
        if self.count == MOST_THREADS {
            return None;
        }
        let t = ThreadNo(self.count);
        let thread = &mut self.threads[self.count as usize];
        thread.to_start.set(&[first]);
        thread.mark = true;
        self.count += 1;
        Some(t)
    }

    /// How many frames a thread has. It tells beside that what holds of the frames of every thread.
    pub fn depth(&self, t: ThreadNo) -> u32
        requires { t.0 < length self.now.threads }
        ensures depth { IsOf self.now t.0 (λ thread. result ≡ length thread.frames) }
        ensures within { IsOf self.now t.0 (λ thread. AreWithin thread.frames) }
    {
        self.threads[t.0 as usize].frames.depth()
    }

    /// The words of all its frames, the room of their operands counted.
    pub fn words(&self, t: ThreadNo) -> usize
        requires { t.0 < length self.now.threads }
        ensures { IsOf self.now t.0 (λ thread. result ≡ words_in thread.frames) }
    {
        self.threads[t.0 as usize].frames.words()
    }

    /// The frame of a thread below which there are so many.
    pub fn frame(&self, t: ThreadNo, d: u32) -> FrameView<'_>
        requires { IsOf self.now t.0 (λ thread. d < length thread.frames) }
        ensures { IsOf self.now t.0 (λ thread.
            option_map shown (frame_at thread.frames d) ≡ Some (record {
              code = result.code;
              method = result.method;
              pc = result.pc.0;
              held = result.held;
              locals = result.locals.now;
              stack = result.stack.now;
            })) }
    {
        self.threads[t.0 as usize].frames.frame(d)
    }

    /// Adds a frame at its begin to a thread. Its locals are the arguments, and then zeros.
    pub fn push_frame(
        &mut self,
        t: ThreadNo,
        code: CodeMark,
        method: MethodNo,
        held: Value,
        args: &[Value],
        max_locals: u16,
        max_stack: u16,
    )
        requires args { length args.now ≤ max_locals }
        requires room { IsOf self.old t.0 (λ thread.
            HasRoom (max_locals + max_stack) thread.frames) }
        ensures { self.new ≡ change_thread t.0 (with_frames (λ frames.
            fresh_frame code method held args.now max_locals max_stack ∷ frames)) self.old }
    {
        self.threads[t.0 as usize]
            .frames
            .push_frame(code, method, held, args, max_locals, max_stack);
    }

    /// Removes the newest frame of a thread.
    pub fn pop_frame(&mut self, t: ThreadNo)
        requires { IsOf self.old t.0 (λ thread. 0 < length thread.frames) }
        ensures { self.new ≡ change_thread t.0 (with_frames (drop 1)) self.old }
    {
        self.threads[t.0 as usize].frames.pop_frame();
    }

    /// Sets the place of the newest frame of a thread.
    pub fn set_pc(&mut self, t: ThreadNo, pc: Pc)
        requires { IsOf self.old t.0 (λ thread. 0 < length thread.frames) }
        ensures { self.new
            ≡ change_thread t.0 (with_frames (change_newest (with_pc pc.0))) self.old }
    {
        self.threads[t.0 as usize].frames.set_pc(pc);
    }

    /// Puts a value into a local of the newest frame: a long into it and the one after it.
    pub fn set_local(&mut self, t: ThreadNo, i: u16, v: Value)
        requires { IsOf self.old t.0 (λ thread. IsSomeAnd (newest thread.frames) (λ frame.
            i + places_of v ≤ length frame.locals)) }
        ensures { self.new
            ≡ change_thread t.0 (with_frames (change_newest (with_local_set i v))) self.old }
    {
        self.threads[t.0 as usize].frames.set_local(i, v);
    }

    /// Puts a value on top of the operands of the newest frame.
    pub fn push_value(&mut self, t: ThreadNo, v: Value)
        requires { IsOf self.old t.0 (λ thread. IsSomeAnd (newest thread.frames) (λ frame.
            length frame.stack + places_of v ≤ frame.max_stack)) }
        ensures { self.new
            ≡ change_thread t.0 (with_frames (change_newest (with_pushed v))) self.old }
    {
        self.threads[t.0 as usize].frames.push_value(v);
    }

    /// Takes the value on top of the operands of the newest frame.
    pub fn pop_value(&mut self, t: ThreadNo) -> Value
        requires { IsOf self.old t.0 (λ thread. IsSomeAnd (newest thread.frames) (λ frame.
            IsSome (value_on_top (operands_of frame)))) }
        ensures value { IsOf self.old t.0 (λ thread. IsSomeAnd (newest thread.frames) (λ frame.
            value_on_top (operands_of frame) ≡ Some (value_of result))) }
        ensures rest { self.new ≡ change_thread t.0
            (with_frames (change_newest (with_popped (places_of result)))) self.old }
    {
        self.threads[t.0 as usize].frames.pop_value()
    }

    /// Removes all operands of the newest frame of a thread.
    pub fn clear_stack(&mut self, t: ThreadNo)
        requires { IsOf self.old t.0 (λ thread. 0 < length thread.frames) }
        ensures { self.new
            ≡ change_thread t.0 (with_frames (change_newest with_empty_stack)) self.old }
    {
        self.threads[t.0 as usize].frames.clear_stack();
    }

    /// Replaces the place, the locals and the operands of the newest frame.
    pub fn set_top(&mut self, t: ThreadNo, pc: Pc, locals: &[Value], stack: &[Value])
        requires { IsOf self.old t.0 (λ thread. IsSomeAnd (newest thread.frames) (λ frame.
            (length locals.now ≡ length frame.locals)
            × (length stack.now ≤ frame.max_stack))) }
        ensures { self.new ≡ change_thread t.0
            (with_frames (change_newest (with_top pc.0 locals.now stack.now))) self.old }
    {
        self.threads[t.0 as usize].frames.set_top(pc, locals, stack);
    }

    /// Replaces a word of a frame, counted from the held receiver over the locals to the operands.
    pub fn put_word(&mut self, t: ThreadNo, d: u32, at: u32, v: Value)
        requires { IsOf self.old t.0 (λ thread. IsSomeAnd (frame_at thread.frames d) (λ frame.
            at ≤ length frame.locals + length frame.stack)) }
        ensures { self.new ≡ change_thread t.0
            (with_frames (λ frames. change_at (with_word at v) frames d)) self.old }
    {
        self.threads[t.0 as usize].frames.put_word(d, at, v);
    }

    /// Replaces the code, the method and the place of a frame.
    pub fn set_code(&mut self, t: ThreadNo, d: u32, code: CodeMark, method: MethodNo, pc: Pc)
        requires { IsOf self.old t.0 (λ thread. d < length thread.frames) }
        ensures { self.new ≡ change_thread t.0
            (with_frames (λ frames. change_at (with_code code method pc.0) frames d)) self.old }
    {
        self.threads[t.0 as usize]
            .frames
            .set_code(d, code, method, pc);
    }

    /// Whether the last step of a thread reached a safe point.
    pub fn mark(&self, t: ThreadNo) -> bool
        requires { t.0 < length self.now.threads }
        ensures { IsOf self.now t.0 (λ thread. result ≡ thread.mark) }
    {
        self.threads[t.0 as usize].mark
    }

    /// Sets whether it did.
    pub fn set_mark(&mut self, t: ThreadNo, on: bool)
        requires { t.0 < length self.old.threads }
        ensures { self.new ≡ change_thread t.0 (with_mark on) self.old }
    {
        self.threads[t.0 as usize].mark = on;
    }

    /// The method that a thread is to start next.
    pub fn next_start(&self, t: ThreadNo) -> Option<MethodNo>
        requires { t.0 < length self.now.threads }
        ensures { IsOf self.now t.0 (λ thread. result ≡ slice_get thread.to_start 0) }
    {
        self.threads[t.0 as usize].to_start.next()
    }

    /// Takes it from those that it is to start.
    pub fn take_start(&mut self, t: ThreadNo)
        requires { IsOf self.old t.0 (λ thread. 0 < length thread.to_start) }
        ensures { self.new ≡ change_thread t.0
            (λ thread. with_starts (drop 1 thread.to_start) thread) self.old }
    {
        self.threads[t.0 as usize].to_start.take();
    }

    /// Replaces the methods that a thread is still to start.
    pub fn set_starts(&mut self, t: ThreadNo, starts: &[MethodNo])
        requires thread { t.0 < length self.old.threads }
        requires few { length starts.now ≤ most_starts }
        ensures { self.new ≡ change_thread t.0 (with_starts starts.now) self.old }
    {
        self.threads[t.0 as usize].to_start.set(starts);
    }

    /// Whether a thread has ended.
    pub fn ended(&self, t: ThreadNo) -> bool
        requires { t.0 < length self.now.threads }
        ensures { IsOf self.now t.0 (λ thread. result ≡ thread.ended) }
    {
        self.threads[t.0 as usize].ended
    }

    /// The class of the throwable that ended a thread, where one did.
    pub fn thrown(&self, t: ThreadNo) -> Option<ClassNo>
        requires { t.0 < length self.now.threads }
        ensures { IsOf self.now t.0 (λ thread. result ≡ thread.thrown) }
    {
        self.threads[t.0 as usize].thrown
    }

    /// Ends a thread, by a throwable or without one.
    pub fn finish(&mut self, t: ThreadNo, thrown: Option<ClassNo>)
        requires { t.0 < length self.old.threads }
        ensures { self.new ≡ change_thread t.0 (finished thrown) self.old }
    {
        let thread = &mut self.threads[t.0 as usize];
        thread.ended = true;
        thread.thrown = thrown;
    }

    /// Makes local steps of the newest frame of a thread in its code, in place, until the next isn't
    /// local or `max` are made.
    pub fn run_local(&mut self, t: ThreadNo, body: &CodeBody, pool: &[Const], max: u32) -> Ran
        requires order { Follows 0 body.now.instructions }
        requires room { IsOf self.old t.0 (λ thread. IsSomeAnd (newest thread.frames) (λ frame.
            frame.max_stack ≡ body.now.max_stack)) }
        requires right { IsOf self.old t.0 (λ thread. IsSomeAnd (newest thread.frames) (λ frame.
            NeverWrong (step_of pool.now body.now) (words_frame frame))) }
        ensures { RunsThread (step_of pool.now body.now) max result t.0 self.old self.new }
    {
        self.threads[t.0 as usize].frames.run_local(body, pool, max)
    }
}
