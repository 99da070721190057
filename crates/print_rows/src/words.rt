//! The words of a line.
ghost use Rattle.std.specs.Prelude.{◌≤◌};

use attr_ids::TypeId;
use std::str::SplitWhitespace;

/// The next word as a number in this base; 0 where there is none.
fn number_in(words: &mut SplitWhitespace<'_>, base: u32) -> u64
    requires least { 2 ≤ base }
    requires greatest { base ≤ 36 }
{
    let Some(word) = words.next() else {
        return 0;
    };
    match u64::from_str_radix(word, base) {
        Ok(number) => number,
        Err(_) => 0,
    }
}

/// The next word as a number in base 10.
pub(crate) fn number(words: &mut SplitWhitespace<'_>) -> u64 {
    number_in(words, 10)
}

/// The next word as a number in base 16.
pub(crate) fn bits(words: &mut SplitWhitespace<'_>) -> u64 {
    number_in(words, 16)
}

/// The next word as the number of a thing.
pub(crate) fn id(words: &mut SplitWhitespace<'_>) -> u32 {
    match u32::try_from(number(words)) {
        Ok(id) => id,
        Err(_) => u32::MAX,
    }
}

/// The next word as the number of a type.
pub(crate) fn ty(words: &mut SplitWhitespace<'_>) -> TypeId {
    TypeId(id(words))
}

/// The next word, empty where there is none.
pub(crate) fn word<'a>(words: &mut SplitWhitespace<'a>) -> &'a str {
    match words.next() {
        Some(word) => word,
        None => "",
    }
}
