//! Where strings and names end that begin at a place.
ghost use Rattle.std.specs.Prelude.{◌≡◌, ◌≤◌, length};
ghost use Rattle.ir_token.specs.Ends as spec;

use crate::bytes::{byte, is_label};
use crate::runs::{past_digits, past_inside, past_label, past_meta};

/// The end of the string at a place, or the place where none is.
#[tactic(auto, using(crate::proofs::Past::past_within))]
pub fn string_end(text: &[u8], at: usize) -> usize
    requires { at ≤ length text.now }
    ensures value { result ≡ spec.string_end text.now at }
    ensures within { (at ≤ result) × (result ≤ length text.now) }
{
    if byte(text, at) == b'"' {
        let quote = past_inside(text, at + 1);
        if byte(text, quote) == b'"' {
            return quote + 1;
        }
    }
    at
}

/// The end of the name at a place, or the place where none is.
pub fn name_end(text: &[u8], at: usize) -> usize
    requires { at ≤ length text.now }
    ensures value { result ≡ spec.name_end text.now at }
    ensures within { (at ≤ result) × (result ≤ length text.now) }
{
    let first = byte(text, at);
    if first.is_ascii_digit() {
        past_digits(text, at)
    } else if is_label(first) {
        past_label(text, at)
    } else {
        string_end(text, at)
    }
}

/// The end of the bytes of a Meta at a place, or the place where none are.
pub fn meta_end(text: &[u8], at: usize) -> usize
    requires { at ≤ length text.now }
    ensures value { result ≡ spec.meta_end text.now at }
    ensures within { (at ≤ result) × (result ≤ length text.now) }
{
    if byte(text, at).is_ascii_digit() {
        past_digits(text, at)
    } else {
        past_meta(text, at)
    }
}

/// Whether a double quote at a place has no other behind it.
pub fn is_unclosed(text: &[u8], at: usize) -> bool
    requires { at ≤ length text.now }
    ensures { result ≡ spec.is_unclosed text.now at }
{
    byte(text, at) == b'"' && string_end(text, at) == at
}
