//! The number of steps after which an update is ready.

ghost use Rattle.std.specs.Prelude.{◌≡◌};
ghost use Rattle.jv_model.specs.Limits.{most_request_step};
ghost use Rattle.text_model.specs.Numerals.{natural_in};
ghost use Rattle.asm_lines.specs.Told.{told};
ghost use Rattle.manifest_reader.specs.Signs.{has_sign};

use asm_lines::numeral::integer_in;
use jv_types::LineKind;

/// The greatest number of steps after which an update can be said to be ready.
const MOST_REQUEST_STEP: i64 = 20_000_000;

/// Whether a word begins with a minus sign.
fn has_sign(word: &[u8]) -> bool
    ensures { result ≡ has_sign word.now }
{
    matches!(word, [b'-', ..])
}

/// The number of steps that a word spells. It has no sign, not even before 0.
pub(crate) fn step_in(word: &str) -> Result<u32, LineKind>
    ensures { told (λ n. n) result ≡ natural_in 0 most_request_step word.now }
{
    if has_sign(word.as_bytes()) {
        return Err(LineKind::Number);
    }
    Ok(integer_in(0, MOST_REQUEST_STEP, word)? as u32)
}
