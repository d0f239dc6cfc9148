//! The laws of a journal's text.

ghost use Rattle.text_laws.specs.Laws.{JournalsAreReadBack, JournalsHaveOneSpelling};

/// What the text of a journal says is that journal, where its threads and steps are in their ranges.
pub fn journals_are_read_back()
    ensures { JournalsAreReadBack }
{}

/// A text without a bad line is the text of the entries that it says.
pub fn journals_have_one_spelling()
    ensures { JournalsHaveOneSpelling }
{}
