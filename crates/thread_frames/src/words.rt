//! The words of a thread.

ghost use Rattle.std.specs.Prelude.{◌≡◌, ◌+◌, ◌<◌, ◌≤◌, length, take, drop, replicate, IfOk};
ghost use Rattle.jv_model.specs.Limits.{most_stack_words};
ghost use Rattle.local_steps.specs.Steps.{frame_in};
ghost use Rattle.local_runs.specs.Places.{step_of, pc_at, IsIn};
ghost use Rattle.local_runs.specs.Runs.{NeverWrong, IsRun};
ghost use Rattle.jv_values.specs.Values.{places_of};
ghost use Rattle.thread_frames.specs.Splices.{spliced};
ghost use Rattle.thread_frames.specs.Frames.{words_of};
ghost use Rattle.thread_frames.specs.Runs.{CanRunFrom, RunsFrom};

use jv_types::{CodeBody, Const, NoMemory};
use jv_values::Value;
use local_runs::run::{Ran, run};
use local_runs::step::Place;
use std::alloc::Global;
use std::marker::Model;

/// The most words that the frames of a thread have together.
pub const MOST_STACK_WORDS: usize = 16_384;

/// So many words. Contracts see the list of them.
#[derive(Debug, Drop)]
pub struct Words {
    all: Vec<Value>,
}

impl Model for Words {
    ghost use Rattle.std.specs.Prelude.{List};
    ghost use Rattle.jv_values.specs.declared.value.Value.{Value as Word};

    ghost Value = { List Word };

    ghost view = { λ it. it.all.items };
}

/// Puts a group in place of as many words.
fn put_group(words: &mut [Value], at: usize, group: &[Value])
    requires { at + length group.now ≤ length words.old }
    ensures { words.new ≡ spliced at group.now words.old }
{
    let end = at + group.len();
    words[at..end].copy_from_slice(group);
}

/// Puts a value in place of so many words.
fn put_copies(words: &mut [Value], at: usize, count: usize, value: Value)
    requires { at + count ≤ length words.old }
    ensures { words.new ≡ spliced at (replicate count value) words.old }
{
    let end = at + count;
    words[at..end].fill(value);
}

/// Makes local steps of a frame in its own words, of which so many are locals.
fn run_own(
    body: &CodeBody,
    pool: &[Const],
    place: Place,
    own: &mut [Value],
    locals: usize,
    max: u32,
) -> Ran
    requires sizes { length own.old ≡ locals + body.now.max_stack }
    requires at { IsIn body.now place }
    requires right { NeverWrong (step_of pool.now body.now)
        (frame_in (pc_at body.now.instructions place.number)
        (take locals own.old) (drop locals own.old) place.depth) }
    ensures at { IsIn body.now result.place }
    ensures ran { IsRun (step_of pool.now body.now)
        (frame_in (pc_at body.now.instructions place.number)
        (take locals own.old) (drop locals own.old) place.depth)
        (frame_in (pc_at body.now.instructions result.place.number)
        (take locals own.new) (drop locals own.new) result.place.depth) max result }
{
    let (locals, stack) = own.split_at_mut(locals);
    run(body, pool, place, locals, stack, max)
}

/// Makes local steps of the frame whose words stand from a place on, so many of them locals.
fn run_from(
    words: &mut [Value],
    base: usize,
    locals: usize,
    body: &CodeBody,
    pool: &[Const],
    place: Place,
    max: u32,
) -> Ran
    requires { CanRunFrom pool.now body.now base locals place words.old }
    ensures { RunsFrom pool.now body.now base locals place max words.old result words.new }
{
    let end = base + (locals + usize::from(body.max_stack));
    run_own(body, pool, place, &mut words[base..end], locals, max)
}

impl Words {
    /// As many as a thread has.
    pub fn new(alloc: Global) -> Result<Words, NoMemory>
        ensures { IfOk result (λ words. length words ≡ most_stack_words) }
    {
        Ok(Words {
            all: vec![in alloc; Value::Null; MOST_STACK_WORDS]?,
        })
    }

    /// So many words from a place on.
    pub fn slice(&self, at: usize, count: usize) -> &[Value]
        requires { at + count ≤ length self.now }
        ensures { result.now ≡ take count (drop at self.now) }
    {
        &self.all[at..at + count]
    }

    /// Puts a group in place of as many words.
    pub fn put(&mut self, at: usize, group: &[Value])
        requires { at + length group.now ≤ length self.old }
        ensures { self.new ≡ spliced at group.now self.old }
    {
        put_group(self.all.as_mut_slice(), at, group);
    }

    /// Puts a value in place of the words that it takes, and gives how many they are.
    pub fn put_value(&mut self, at: usize, value: Value) -> usize
        requires { at + places_of value ≤ length self.old }
        ensures words { self.new ≡ spliced at (words_of value) self.old }
        ensures count { result ≡ places_of value }
    {
        match value {
            Value::Long(_) => {
                self.put(at, &[value, Value::Half]);
                2
            }
            _ => {
                self.put(at, &[value]);
                1
            }
        }
    }

    /// Puts a value in place of so many words.
    pub fn fill(&mut self, at: usize, count: usize, value: Value)
        requires { at + count ≤ length self.old }
        ensures { self.new ≡ spliced at (replicate count value) self.old }
    {
        put_copies(self.all.as_mut_slice(), at, count, value);
    }

    /// Makes local steps of the frame whose words stand from a place on, so many of them locals.
    pub fn run(
        &mut self,
        base: usize,
        locals: usize,
        body: &CodeBody,
        pool: &[Const],
        place: Place,
        max: u32,
    ) -> Ran
        requires { CanRunFrom pool.now body.now base locals place self.old }
        ensures { RunsFrom pool.now body.now base locals place max self.old result self.new }
    {
        let words = self.all.as_mut_slice();
        run_from(words, base, locals, body, pool, place, max)
    }
}
