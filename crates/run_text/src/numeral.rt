//! Numbers as words.

ghost use Rattle.std.specs.Prelude.{◌≡◌, ◌&&◌, ◌||◌, not, ◌==◌, length, slice_get, unwrap_or, option_and_then};
ghost use Rattle.text_model.specs.Words.{is_whole};
ghost use Rattle.text_model.specs.Numerals.{natural_between, natural_of};
ghost use Rattle.run_text.specs.Digits.{digits_from, is_plain};

/// The number that the bytes spell, where they are digits and it is at most this one.
fn digits_up_to(most: u32, word: &[u8]) -> Option<u32>
    ensures { result ≡ digits_from most 0 word.now }
{
    let mut value = 0;
    for byte in word {
        if !byte.is_ascii_digit() {
            return None;
        }
        value = value * 10 + u64::from(*byte - b'0');
        if value > u64::from(most) {
            return None;
        }
    }
    Some(value as u32)
}

/// Whether a word isn't empty, and begins with `0` only where nothing follows.
fn is_plain(word: &[u8]) -> bool
    ensures { result ≡ is_plain word.now }
{
    !word.is_empty() && (word.len() == 1 || word[0] != b'0')
}

/// The number that a word spells, where it is in this range.
pub(crate) fn natural_in(least: u32, most: u32, word: &[u8]) -> Option<u32>
    ensures { result ≡ option_and_then (natural_between least most) (natural_of word.now) }
{
    if !is_plain(word) {
        return None;
    }
    let value = digits_up_to(most, word)?;
    if value < least {
        return None;
    }
    Some(value)
}
