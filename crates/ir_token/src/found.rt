//! The token at a place: one small function for each group of first bytes.
ghost use Rattle.std.specs.Prelude.{◌≡◌, ◌<◌, ◌⊎◌, length, slice_index, false, IsTrue};
ghost use Rattle.std.specs.Char.{is_ascii_digit, is_ascii_alphabetic};
ghost use Rattle.ir_token.specs.Bytes.{begins_word, is_label, is_punct};
ghost use Rattle.ir_token.specs.Ends as spec;

use crate::bytes::{begins_word, byte, is_label, is_punct};
use crate::ends::{is_unclosed, meta_end, name_end, string_end};
use crate::names::bears_name;
use crate::opaque::{begins_opaque, opaque_end};
use crate::runs::{past_digits, past_word};
use crate::token::Kind;

/// What begins at a place: a token and its end, nothing, or a string that is not closed.
#[derive(Clone, Copy, Debug)]
pub enum Found {
    Token(Kind, usize),
    Bad,
    Open,
}

/// A string, or a label in quotes.
fn quoted(text: &[u8], at: usize) -> Found
    requires inside { at < length text.now }
    requires begins { slice_index text.now at ≡ 34 }
    requires plain { spec.begins_opaque text.now at ≡ false }
    ensures { spec.StandsByEnds text.now at result }
{
    let end = string_end(text, at);
    if end == at {
        Found::Open
    } else if byte(text, end) == b':' {
        Found::Token(Kind::Label, end + 1)
    } else {
        Found::Token(Kind::Str, end)
    }
}

/// The name behind a `@` or a `%`.
fn named(text: &[u8], at: usize, kind: Kind) -> Found
    requires inside { at < length text.now }
    requires begins { ((kind ≡ Kind.Global) × (slice_index text.now at ≡ 64)) ⊎ ((kind ≡ Kind.Local) × (slice_index text.now at ≡ 37)) }
    requires plain { spec.begins_opaque text.now at ≡ false }
    ensures { spec.StandsByEnds text.now at result }
{
    if is_unclosed(text, at + 1) {
        return Found::Open;
    }
    let end = name_end(text, at + 1);
    if end > at + 1 {
        Found::Token(kind, end)
    } else {
        Found::Bad
    }
}

/// A comdat that begins no Opaque.
fn comdat(text: &[u8], at: usize) -> Found
    requires inside { at < length text.now }
    requires begins { slice_index text.now at ≡ 36 }
    requires plain { spec.begins_opaque text.now at ≡ false }
    requires unlabelled { spec.text_end text.now at Kind.Label ≡ at }
    ensures { spec.StandsByEnds text.now at result }
{
    if is_unclosed(text, at + 1) {
        return Found::Open;
    }
    let end = name_end(text, at + 1);
    if end > at + 1 {
        Found::Token(Kind::Comdat, end)
    } else {
        Found::Bad
    }
}

/// Metadata that begins no Opaque.
fn meta(text: &[u8], at: usize) -> Found
    requires inside { at < length text.now }
    requires begins { slice_index text.now at ≡ 33 }
    requires plain { spec.begins_opaque text.now at ≡ false }
    ensures { spec.StandsByEnds text.now at result }
{
    let end = meta_end(text, at + 1);
    if end > at + 1 {
        Found::Token(Kind::Meta, end)
    } else {
        Found::Bad
    }
}

/// A group of attributes.
fn group(text: &[u8], at: usize) -> Found
    requires inside { at < length text.now }
    requires begins { slice_index text.now at ≡ 35 }
    requires plain { spec.begins_opaque text.now at ≡ false }
    ensures { spec.StandsByEnds text.now at result }
{
    let end = past_digits(text, at + 1);
    if end > at + 1 {
        Found::Token(Kind::Group, end)
    } else {
        Found::Bad
    }
}

/// A word, or a constant of bytes behind `c`.
fn word(text: &[u8], at: usize) -> Found
    requires inside { at < length text.now }
    requires begins { IsTrue (begins_word (slice_index text.now at)) }
    requires plain { spec.begins_opaque text.now at ≡ false }
    requires unlabelled { spec.text_end text.now at Kind.Label ≡ at }
    ensures { spec.StandsByEnds text.now at result }
{
    if text[at] == b'c' && byte(text, at + 1) == b'"' {
        let end = string_end(text, at + 1);
        if end == at + 1 {
            Found::Open
        } else {
            Found::Token(Kind::CStr, end)
        }
    } else {
        Found::Token(Kind::Word, past_word(text, at))
    }
}

fn digits(text: &[u8], at: usize) -> Found
    requires inside { at < length text.now }
    requires begins { IsTrue (is_ascii_digit (slice_index text.now at)) }
    requires plain { spec.begins_opaque text.now at ≡ false }
    requires unlabelled { spec.text_end text.now at Kind.Label ≡ at }
    ensures { spec.StandsByEnds text.now at result }
{
    Found::Token(Kind::Int, past_digits(text, at))
}

/// An integer behind its sign.
fn negative(text: &[u8], at: usize) -> Found
    requires inside { at < length text.now }
    requires begins { slice_index text.now at ≡ 45 }
    requires plain { spec.begins_opaque text.now at ≡ false }
    requires unlabelled { spec.text_end text.now at Kind.Label ≡ at }
    ensures { spec.StandsByEnds text.now at result }
{
    let end = past_digits(text, at + 1);
    if end > at + 1 {
        Found::Token(Kind::Int, end)
    } else {
        Found::Bad
    }
}

fn dots(text: &[u8], at: usize) -> Found
    requires inside { at < length text.now }
    requires begins { slice_index text.now at ≡ 46 }
    requires plain { spec.begins_opaque text.now at ≡ false }
    requires unlabelled { spec.text_end text.now at Kind.Label ≡ at }
    ensures { spec.StandsByEnds text.now at result }
{
    if byte(text, at + 1) == b'.' && byte(text, at + 2) == b'.' {
        Found::Token(Kind::Dots, at + 3)
    } else {
        Found::Bad
    }
}

/// What begins with a byte of a label and is none.
fn unlabelled(text: &[u8], at: usize) -> Found
    requires inside { at < length text.now }
    requires begins { IsTrue (is_label (slice_index text.now at)) }
    requires plain { spec.begins_opaque text.now at ≡ false }
    requires unlabelled { spec.text_end text.now at Kind.Label ≡ at }
    ensures { spec.StandsByEnds text.now at result }
{
    let first = text[at];
    if begins_word(first) {
        word(text, at)
    } else if first.is_ascii_digit() {
        digits(text, at)
    } else if first == b'-' {
        negative(text, at)
    } else if first == b'.' {
        dots(text, at)
    } else {
        comdat(text, at)
    }
}

/// What begins where no Opaque does; `run` is the end of the run of label bytes.
#[inline(always)]
#[tactic(auto, using(crate::proofs::Firsts::bad_byte))]
fn read_token(text: &[u8], at: usize, run: usize) -> Found
    requires inside { at < length text.now }
    requires run { run ≡ spec.past is_label text.now at }
    requires plain { spec.begins_opaque text.now at ≡ false }
    ensures { spec.StandsByEnds text.now at result }
{
    let first = text[at];
    if is_label(first) {
        if byte(text, run) == b':' {
            Found::Token(Kind::Label, run + 1)
        } else {
            unlabelled(text, at)
        }
    } else if is_punct(first) {
        Found::Token(Kind::Punct, at + 1)
    } else {
        match first {
            b'%' => named(text, at, Kind::Local),
            b'@' => named(text, at, Kind::Global),
            b'"' => quoted(text, at),
            b'#' => group(text, at),
            b'!' => meta(text, at),
            _ => Found::Bad,
        }
    }
}

/// What begins at a place, by the ends there. An Opaque that begins is taken or refused.
#[inline(always)]
fn found_by_ends(text: &[u8], at: usize, run: usize) -> Found
    requires inside { at < length text.now }
    requires run { run ≡ spec.past is_label text.now at }
    ensures { spec.StandsByEnds text.now at result }
{
    if begins_opaque(text, at) {
        match opaque_end(text, at) {
            Some(end) => Found::Token(Kind::Opaque, end),
            None => Found::Bad,
        }
    } else {
        read_token(text, at, run)
    }
}

/// What begins at a place; `run` is the end of the run of label bytes there.
// The three that lead from here to the groups are inlined: it saves the loop over the text a quarter of its time.
#[inline(always)]
pub fn found_at(text: &[u8], at: usize, run: usize) -> Found
    requires inside { at < length text.now }
    requires run { run ≡ spec.past is_label text.now at }
    ensures { spec.Stands text.now at result }
{
    match found_by_ends(text, at, run) {
        Found::Token(kind, end) => {
            if bears_name(text, kind, at, end) {
                Found::Token(kind, end)
            } else {
                Found::Bad
            }
        }
        Found::Bad => Found::Bad,
        Found::Open => Found::Open,
    }
}
