//! A journal as a text.

ghost use Rattle.std.specs.Prelude.{◌≡◌, ◌++◌, IfOk, OnOk};
ghost use Rattle.jv_types.specs.Entry.{entry_of, entries_of};
ghost use Rattle.text_model.specs.JournalText.{entry_line, journal_text};

use crate::words::{push_decimal, push_number};
use jv_types::{Bytes, Entry, List, NoMemory};
use std::alloc::Global;

fn push_entry(text: &mut Bytes, entry: Entry) -> Result<(), NoMemory>
    ensures { OnOk result (text.new.items ≡ text.old.items ++ entry_line (entry_of entry)) }
{
    match entry {
        Entry::Run { thread, steps } => {
            text.append(b"run ")?;
            push_decimal(text, u64::from(thread.0))?;
            push_number(text, u64::from(steps))?;
            text.push(b'\n')
        }
        Entry::Attempt => text.append(b"attempt\n"),
    }
}

/// The text of a journal: a line per entry, and its last line.
#[tactic(auto, unfolding(text_model::specs::JournalText::journal_text))]
pub fn journal_text(alloc: Global, entries: &List<Entry>) -> Result<Bytes, NoMemory>
    ensures { IfOk result (λ text. text.items ≡ journal_text (entries_of entries.now.items)) }
{
    let mut text = List::new(alloc);
    for entry in entries.as_slice() {
        push_entry(&mut text, *entry)?;
    }
    text.append(b"end\n")?;
    Ok(text)
}
