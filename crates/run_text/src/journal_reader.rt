//! A journal, read from its text.

ghost use Rattle.std.specs.Prelude.{◌≡◌, ◌+◌, ◌^◌, ◌<◌, true, false, None, MatchOption, IfOk, option_map};
ghost use Rattle.jv_model.specs.Lines.{lines_of, words_of};
ghost use Rattle.jv_types.specs.Entry.{entry_of as view};
ghost use Rattle.jv_types.specs.Lines.{line_view};
ghost use Rattle.text_model.specs.LineFaults.{is_text};
ghost use Rattle.text_model.specs.JournalText.{run_read, entry_of, is_end, bad_behind_end, journal_of};
ghost use Rattle.run_text.specs.JournalRead.{read_of, run_of};

use crate::numeral::natural_in;
use jv_types::lines::{Line, first_word, split_line};
use jv_types::{Entry, List, NoMemory, ThreadNo};
use std::alloc::Global;
use std::str;

/// The greatest number of a thread.
const MOST_THREAD: u32 = 63;

/// The most steps that an entry tells.
const MOST_ENTRY_STEPS: u32 = 4096;

/// What a journal's text says.
#[derive(Debug, Drop)]
pub struct JournalRead {
    /// The entries before the first bad line.
    pub entries: List<Entry>,
    /// That line's number, from 0, where there is one.
    pub bad: Option<u64>,
}

/// The entry of a thread and its steps, each as a word.
#[tactic(auto, unfolding(text_model::specs::Numerals::natural_in))]
fn run_of(thread: &[u8], steps: &[u8]) -> Option<Entry>
    ensures { option_map view result ≡ run_of thread.now steps.now }
{
    Some(Entry::Run {
        thread: ThreadNo(natural_in(0, MOST_THREAD, thread)?),
        steps: natural_in(1, MOST_ENTRY_STEPS, steps)?,
    })
}

/// The two words behind `run`, where a line has that one first and none behind them.
fn run_words(line: &str) -> Option<(&str, &str)>
    ensures { MatchOption result (run_read (words_of line.now) ≡ None)
        (λ words. run_read (words_of line.now) ≡ run_of words.0.now words.1.now) }
{
    let (word, behind) = first_word(line);
    let (thread, behind) = first_word(behind?);
    let (steps, behind) = first_word(behind?);
    if behind.is_some() {
        return None;
    }
    if word != "run" {
        return None;
    }
    Some((thread, steps))
}

/// The text of a line, where it is UTF-8 and a line feed ends it.
fn text_of(line: Line<'_>) -> Option<&str>
    ensures { MatchOption result (is_text (line_view line.entry) ≡ false)
        (λ text. (is_text (line_view line.entry) ≡ true) × (text.now ≡ line.entry.bytes.now)) }
{
    if !line.is_ended {
        return None;
    }
    match str::from_utf8(line.bytes) {
        Ok(text) => Some(text),
        Err(_) => None,
    }
}

/// The entry that a line spells.
fn read_entry(line: Line<'_>) -> Option<Entry>
    ensures { option_map view result ≡ entry_of (line_view line.entry) }
{
    let text = text_of(line)?;
    if text == "attempt" {
        return Some(Entry::Attempt);
    }
    let (thread, steps) = run_words(text)?;
    run_of(thread.as_bytes(), steps.as_bytes())
}

/// Whether this is the last line of a whole journal.
fn is_end(line: Line<'_>) -> bool
    ensures { result ≡ is_end (line_view line.entry) }
{
    line.is_ended && line.bytes == b"end".as_slice()
}

/// The number of the line behind the one with this number, where one is there.
#[tactic(auto, using(crate::proofs::ReadLemmas::a_line_behind))]
fn bad_behind_end(number: u64, behind: &[u8]) -> Option<u64>
    requires { number + 1 < 2 ^ 64 }
    ensures { result ≡ bad_behind_end (number + 1) (lines_of behind.now) }
{
    if behind.is_empty() {
        return None;
    }
    Some(number + 1)
}

/// What a journal's text says: its entries, and where it is no journal, the first line that isn't as
/// it has to be. It keeps the entries alone.
pub fn read_journal(alloc: Global, text: &[u8]) -> Result<JournalRead, NoMemory>
    ensures { IfOk result (λ read. read_of read ≡ journal_of text.now) }
{
    let mut entries = List::new(alloc);
    let mut number = 0;
    let mut left = text;
    while !left.is_empty() {
        let (line, behind) = split_line(left);
        if is_end(line) {
            return Ok(JournalRead {
                entries,
                bad: bad_behind_end(number, behind),
            });
        }
        let Some(entry) = read_entry(line) else {
            break;
        };
        entries.push(entry)?;
        number += 1;
        left = behind;
    }
    Ok(JournalRead {
        entries,
        bad: Some(number),
    })
}
