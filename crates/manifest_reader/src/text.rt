//! Lines that are text.

ghost use Rattle.std.specs.Prelude.{◌≡◌, MatchOption, true, false};
ghost use Rattle.text_model.specs.LineFaults.{is_text};
ghost use Rattle.jv_types.specs.Lines.{line_view};

use jv_types::lines::Line;
use std::str;

/// The text of a line, where it is UTF-8 and a line feed ends it.
pub(crate) fn text_of(line: Line<'_>) -> Option<&str>
    ensures { MatchOption result (is_text (line_view line.entry) ≡ false)
        (λ text. (is_text (line_view line.entry) ≡ true) × (text.now ≡ line.entry.bytes.now)) }
{
    if !line.is_ended {
        return None;
    }
    match str::from_utf8(line.bytes) {
        Ok(text) => Some(text),
        Err(_) => None,
    }
}

/// Whether a line is UTF-8 and a line feed ends it.
pub(crate) fn is_text(line: Line<'_>) -> bool
    ensures { result ≡ is_text (line_view line.entry) }
{
    match text_of(line) {
        Some(_) => true,
        None => false,
    }
}
