//! How a call ends, in words and as a number.

ghost use Rattle.std.specs.Prelude.{◌≡◌, ◌++◌, ◌∷◌, [], decimal, IfOk, OnOk};
ghost use Rattle.jv_types.specs.Status.{status_of};
ghost use Rattle.text_model.specs.StatusText.{status_line, status_number, status_words};
ghost use Rattle.run_text.specs.Following.{following};

use crate::cause_text::push_cause;
use crate::words::{push_name, push_number, push_word};
use jv_types::{Bytes, List, NoMemory, Status};
use std::alloc::Global;

/// The status as the exit status of a process.
pub fn exit_status(status: &Status) -> u8
    ensures { result ≡ status_number (status_of status.now) }
{
    match status {
        Status::Finished => 0,
        Status::Uncaught { .. } => 1,
        Status::BadWords => 2,
        Status::BadInput { .. } => 3,
        Status::ReadFault => 4,
        Status::WriteFault => 5,
        Status::NoMemory => 6,
        Status::StepsSpent { .. } => 7,
        Status::HeapFull { .. } => 8,
        Status::Stuck => 9,
        Status::OutputFull => 10,
        Status::BadJournal { .. } => 11,
        Status::StackDeep { .. } => 12,
        Status::ThreadsFull => 13,
    }
}

/// Adds a word or several, and a number.
fn push_field(text: &mut Bytes, words: &str, number: u64) -> Result<(), NoMemory>
    ensures { OnOk result (text.new.items ≡ text.old.items ++ following (words.now ∷ decimal number ∷ [])) }
{
    push_word(text, words)?;
    push_number(text, number)
}

/// Adds a status's name and its fields, each behind a space.
#[tactic(auto, unfolding(text_model::specs::StatusText::status_words))]
fn push_status(text: &mut Bytes, status: &Status) -> Result<(), NoMemory>
    ensures { OnOk result (text.new.items ≡ text.old.items
        ++ following (status_words (status_of status.now))) }
{
    match status {
        Status::Finished => push_word(text, "finished"),
        Status::Uncaught { class, thread } => {
            push_word(text, "uncaught")?;
            push_name(text, class)?;
            push_field(text, "thread", u64::from(thread.0))
        }
        Status::BadWords => push_word(text, "bad words"),
        Status::BadInput { item, sub, cause } => {
            push_field(text, "bad input", u64::from(*item))?;
            push_number(text, u64::from(*sub))?;
            push_cause(text, cause)
        }
        Status::ReadFault => push_word(text, "read fault"),
        Status::WriteFault => push_word(text, "write fault"),
        Status::NoMemory => push_word(text, "no memory"),
        Status::StepsSpent { n } => push_field(text, "steps spent", u64::from(*n)),
        Status::HeapFull { asked, reach, half } => {
            push_field(text, "heap full asked", u64::from(*asked))?;
            push_field(text, "reach", u64::from(*reach))?;
            push_field(text, "half", u64::from(*half))
        }
        Status::Stuck => push_word(text, "stuck"),
        Status::OutputFull => push_word(text, "output full"),
        Status::BadJournal { entry } => push_field(text, "bad journal", *entry),
        Status::StackDeep { thread } => push_field(text, "stack deep thread", u64::from(thread.0)),
        Status::ThreadsFull => push_word(text, "threads full"),
    }
}

/// The last line that a user sees.
pub fn status_line(alloc: Global, status: &Status) -> Result<Bytes, NoMemory>
    ensures { IfOk result (λ line. line.items ≡ status_line (status_of status.now)) }
{
    let mut line = List::from_slice(alloc, b"jvolve:")?;
    push_number(&mut line, u64::from(exit_status(status)))?;
    push_status(&mut line, status)?;
    line.push(b'\n')?;
    Ok(line)
}
