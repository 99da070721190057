//! Where an Opaque begins and ends: metadata, a debug record or a comdat, whose inside is not read.
ghost use Rattle.std.specs.Prelude.{◌≡◌, ◌<◌, ◌≤◌, ◌+◌, length, slice_index, drop, true, false, ℕ, Some};
ghost use Rattle.ir_token.specs.Texts.{closes_at};
ghost use Rattle.ir_token.specs.Ends as spec;

use crate::brackets::then_open;
use crate::bytes::{begins_word, byte, is_blank};
use crate::ends::{meta_end, name_end};
use crate::runs::{past_blanks, past_meta, past_word};

/// Whether a word stands at a place.
fn spells(text: &[u8], at: usize, word: &[u8]) -> bool
    requires { at ≤ length text.now }
    ensures { result ≡ spec.spells word.now text.now at }
{
    let mut next = at;
    for c in word {
        if byte(text, next) != *c {
            return false;
        }
        next += 1;
    }
    true
}

/// Where a closed part ends of whose brackets the first stands directly before a place.
// A byte of a closed part is looked at here alone, and once: what begins as an Opaque is taken or refused.
fn past_closed(text: &[u8], at: usize) -> Option<usize>
    requires { at ≤ length text.now }
    ensures { result ≡ closes_at 1 false at (drop at text.now) }
{
    let mut end = at;
    let mut open = 1;
    let mut in_string = false;
    while end < text.len() {
        let c = text[end];
        end += 1;
        if in_string {
            in_string = c != b'"';
        } else if c == b'"' {
            in_string = true;
        } else if c == b';' || c == b'/' {
            return None;
        } else {
            open = then_open(open, c);
            if open == 0 {
                return Some(end);
            }
        }
    }
    None
}

/// Where the closed part at a place ends.
fn closed_end(text: &[u8], at: usize) -> Option<usize>
    requires { at ≤ length text.now }
    ensures { result ≡ spec.closed_end text.now at }
{
    if byte(text, at) == b'(' || byte(text, at) == b'{' {
        past_closed(text, at + 1)
    } else {
        None
    }
}

/// Where the `=` of metadata would stand, behind a Meta and blanks.
fn metadata_equals(text: &[u8], at: usize) -> usize
    requires { at < length text.now }
    ensures value { result ≡ spec.metadata_equals text.now at }
    ensures within { result ≤ length text.now }
{
    past_blanks(text, meta_end(text, at + 1))
}

fn begins_metadata(text: &[u8], at: usize) -> bool
    requires { at < length text.now }
    ensures { result ≡ spec.begins_metadata text.now at }
{
    text[at] == b'!'
        && at + 1 < meta_end(text, at + 1)
        && byte(text, metadata_equals(text, at)) == b'='
}

/// The place behind `distinct` and blanks, or the place where there is none.
fn past_distinct(text: &[u8], at: usize) -> usize
    requires { at ≤ length text.now }
    ensures value { result ≡ spec.past_distinct text.now at }
    ensures within { result ≤ length text.now }
{
    if spells(text, at, b"distinct") {
        past_blanks(text, at + 8)
    } else {
        at
    }
}

/// Where metadata ends whose second `!` is to stand at a place.
fn metadata_end(text: &[u8], at: usize) -> Option<usize>
    requires { at ≤ length text.now }
    ensures { result ≡ spec.metadata_end text.now at }
{
    if byte(text, at) == b'!' {
        closed_end(text, past_meta(text, at + 1))
    } else {
        None
    }
}

fn begins_record(text: &[u8], at: usize) -> bool
    requires { at ≤ length text.now }
    ensures { result ≡ spec.begins_record text.now at }
{
    spells(text, at, b"#dbg_")
}

/// Where the `=` of a comdat would stand, behind a Comdat and blanks.
fn comdat_equals(text: &[u8], at: usize) -> usize
    requires { at < length text.now }
    ensures value { result ≡ spec.comdat_equals text.now at }
    ensures within { result ≤ length text.now }
{
    past_blanks(text, name_end(text, at + 1))
}

/// Whether `comdat`, a blank or more and the first byte of a word stand at a place.
fn begins_choice(text: &[u8], at: usize) -> bool
    requires { at ≤ length text.now }
    ensures { result ≡ spec.begins_choice text.now at }
{
    spells(text, at, b"comdat")
        && is_blank(byte(text, at + 6))
        && begins_word(byte(text, past_blanks(text, at + 6)))
}

fn begins_comdat(text: &[u8], at: usize) -> bool
    requires { at < length text.now }
    ensures { result ≡ spec.begins_comdat text.now at }
{
    if text[at] == b'$' && at + 1 < name_end(text, at + 1) {
        let equals = comdat_equals(text, at);
        byte(text, equals) == b'=' && begins_choice(text, past_blanks(text, equals + 1))
    } else {
        false
    }
}

/// Whether an Opaque begins at a place. It is looked for at three bytes alone.
pub fn begins_opaque(text: &[u8], at: usize) -> bool
    requires { at < length text.now }
    ensures { result ≡ spec.begins_opaque text.now at }
{
    match text[at] {
        b'!' => begins_metadata(text, at),
        b'#' => begins_record(text, at),
        b'$' => begins_comdat(text, at),
        _ => false,
    }
}

/// Where metadata ends that begins at a place.
fn end_of_metadata(text: &[u8], at: usize) -> Option<usize>
    requires inside { at < length text.now }
    requires begins { spec.begins_metadata text.now at ≡ true }
    ensures { result ≡ spec.end_of_metadata text.now at }
{
    let behind = past_blanks(text, metadata_equals(text, at) + 1);
    metadata_end(text, past_distinct(text, behind))
}

/// Where a debug record ends that begins at a place.
fn end_of_record(text: &[u8], at: usize) -> Option<usize>
    requires inside { at < length text.now }
    requires begins { spec.begins_record text.now at ≡ true }
    ensures { result ≡ spec.end_of_record text.now at }
{
    closed_end(text, past_word(text, at + 5))
}

/// Where a comdat ends that begins at a place.
fn end_of_comdat(text: &[u8], at: usize) -> usize
    requires inside { at < length text.now }
    requires begins { spec.begins_comdat text.now at ≡ true }
    ensures { result ≡ spec.end_of_comdat text.now at }
{
    let word = past_blanks(text, comdat_equals(text, at) + 1);
    past_word(text, past_blanks(text, word + 6))
}

/// Where the Opaque ends that begins at a place.
pub fn opaque_end(text: &[u8], at: usize) -> Option<usize>
    requires inside { at < length text.now }
    requires begins { spec.begins_opaque text.now at ≡ true }
    ensures { result ≡ spec.opaque_end text.now at }
{
    match text[at] {
        b'!' => end_of_metadata(text, at),
        b'#' => end_of_record(text, at),
        _ => Some(end_of_comdat(text, at)),
    }
}
