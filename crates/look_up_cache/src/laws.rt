//! A law of layouts.

ghost use Rattle.look_up_cache.specs.Words.{WordsStay};

/// A field has one place among the fields of all objects that have it, whatever their class.
pub fn words_stay()
    ensures { WordsStay }
{}
