//! A text as lines, and a line as words.

ghost use Rattle.std.specs.Prelude.{◌≡◌, ◌<◌, ◌∷◌, length, position, ◌==◌};
ghost use Rattle.jv_model.specs.Lines.{lines_of, words_of};
ghost use Rattle.jv_types.specs.Lines.{line_view, operand_words};

/// A line without its line feed, and whether it has one.
#[derive(Clone, Copy)]
pub struct Line<'a> {
    pub bytes: &'a [u8],
    pub is_ended: bool,
}

/// The place of the first line feed.
fn line_end(text: &[u8]) -> Option<usize>
    ensures { result ≡ position (λ byte. byte == 10) text.now }
{
    text.iter().position(|byte| *byte == b'\n')
}

/// The first line of a text that isn't empty, and the text behind it.
pub fn split_line(text: &[u8]) -> (Line<'_>, &[u8])
    requires { 0 < length text.now }
    ensures line { lines_of text.now ≡ line_view result.0 ∷ lines_of result.1.now }
    ensures shorter { length result.1.now < length text.now }
{
    match line_end(text) {
        Some(end) => {
            let (bytes, _) = text.split_at(end);
            let (_, rest) = text.split_at(end + 1);
            (
                Line {
                    bytes,
                    is_ended: true,
                },
                rest,
            )
        }
        None => (
            Line {
                bytes: text,
                is_ended: false,
            },
            &[],
        ),
    }
}

/// The first word of a text, and what stands behind the space after it.
pub fn first_word(text: &str) -> (&str, Option<&str>)
    ensures { words_of text.now ≡ result.0.now ∷ operand_words result.1 }
{
    match text.split_once(' ') {
        Some((word, rest)) => (word, Some(rest)),
        None => (text, None),
    }
}
