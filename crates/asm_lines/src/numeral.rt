//! Numbers as words.

ghost use Rattle.std.specs.Prelude.{◌≡◌, ◌&&◌, int_le, pos, neg_ℤ, option_and_then, IfOk, ◌≤ℤ◌};
ghost use Rattle.text_model.specs.Numerals.{natural_between, natural_of, integer_between, integer_of, u2_in, int_in, long_in, integer_in};
ghost use Rattle.assembler_model.specs.OperationLines.{byte_in, short_in};
ghost use Rattle.asm_lines.specs.Digits.{digits_from, is_plain};
ghost use Rattle.asm_lines.specs.Told.{told};

use jv_types::LineKind;

/// The greatest size of a number of 64 bits, that of the least one.
const MOST_SIZE: u64 = 0x8000_0000_0000_0000;

/// The number that the bytes spell, where they are digits and it is at most this one.
fn digits_up_to(most: u64, word: &[u8]) -> Option<u64>
    ensures { result ≡ digits_from most 0 word.now }
{
    let mut value = 0;
    for byte in word {
        if !byte.is_ascii_digit() {
            return None;
        }
        value = value * 10 + u128::from(*byte - b'0');
        if value > u128::from(most) {
            return None;
        }
    }
    Some(value as u64)
}

/// Whether a word isn't empty, and begins with `0` only where nothing follows.
fn is_plain(word: &[u8]) -> bool
    ensures { result ≡ is_plain word.now }
{
    !word.is_empty() && (word.len() == 1 || word[0] != b'0')
}

/// The number that a word spells, where it is at most this one.
fn natural_up_to(most: u64, word: &[u8]) -> Option<u64>
    ensures { result ≡ option_and_then (natural_between 0 most) (natural_of word.now) }
{
    if !is_plain(word) {
        return None;
    }
    digits_up_to(most, word)
}

/// The number that a word spells, where it has 64 bits or is too great by one.
fn integer_of(word: &[u8]) -> Option<i128>
    ensures { result ≡ option_and_then (integer_between (neg_ℤ (pos 9223372036854775808)) (pos 9223372036854775808)) (integer_of word.now) }
{
    match word {
        [b'-', digits @ ..] => {
            let size = natural_up_to(MOST_SIZE, digits)?;
            Some(-i128::from(size))
        }
        _ => {
            let size = natural_up_to(MOST_SIZE, word)?;
            Some(i128::from(size))
        }
    }
}

fn is_between(least: i64, most: i64, value: i128) -> bool
    ensures { result ≡ (int_le least value && int_le value most) }
{
    i128::from(least) <= value && value <= i128::from(most)
}

/// The number that a word spells, where it is in this range.
pub fn integer_in(least: i64, most: i64, word: &str) -> Result<i64, LineKind>
    ensures value { told (λ n. n) result ≡ integer_in least most word.now }
    ensures least { IfOk result (λ n. least ≤ℤ n) }
    ensures most { IfOk result (λ n. n ≤ℤ most) }
{
    let Some(value) = integer_of(word.as_bytes()) else {
        return Err(LineKind::Number);
    };
    if !is_between(least, most, value) {
        return Err(LineKind::Number);
    }
    Ok(value as i64)
}

/// A number of two bytes without a sign.
#[tactic(auto, unfolding(text_model::specs::Numerals::natural_in))]
pub fn u2_in(word: &str) -> Result<u16, LineKind>
    ensures { told (λ n. n) result ≡ u2_in word.now }
{
    match natural_up_to(0xffff, word.as_bytes()) {
        Some(value) => Ok(value as u16),
        None => Err(LineKind::Number),
    }
}

/// A number of one byte.
pub fn byte_in(word: &str) -> Result<i8, LineKind>
    ensures { told (λ n. n) result ≡ byte_in word.now }
{
    Ok(integer_in(-0x80, 0x7f, word)? as i8)
}

/// A number of two bytes.
pub fn short_in(word: &str) -> Result<i16, LineKind>
    ensures { told (λ n. n) result ≡ short_in word.now }
{
    Ok(integer_in(-0x8000, 0x7fff, word)? as i16)
}

/// A number of 32 bits.
pub fn int_in(word: &str) -> Result<i32, LineKind>
    ensures { told (λ n. n) result ≡ int_in word.now }
{
    Ok(integer_in(-0x8000_0000, 0x7fff_ffff, word)? as i32)
}

/// A number of 64 bits.
pub fn long_in(word: &str) -> Result<i64, LineKind>
    ensures { told (λ n. n) result ≡ long_in word.now }
{
    integer_in(i64::MIN, i64::MAX, word)
}
