//! Whether a token belongs to what the profile leaves out.
ghost use Rattle.std.specs.Prelude.{◌≡◌, ◌<◌, ◌≤◌, ◌↔◌, ◌-◌, ℕ, min, [], slice_index_or, length, map, slice_index, IsTrue, true};
ghost use Rattle.std.specs.List.{list_any, list_all};
ghost use Rattle.std.specs.Char.{is_ascii_digit};
ghost use Rattle.std.specs.Str.Parse.{digits_value};
ghost use Rattle.ir_token.specs.LeftOut as spec;
ghost use Rattle.ir_token.specs.Names.{name_of, read};
ghost use Rattle.ir_token.specs.Texts.{IsToken};
ghost use Rattle.ir_token.specs.Ends.{begins};

use crate::bytes::byte;
use crate::found::{Found, found_at};
use crate::names::{all_digits, has_front, is_named};
use crate::runs::{past_gap, past_label};
use crate::token::Kind;
use crate::words::{KEPT_NAMES, LEFT_LENGTHS, LEFT_NAMES, LEFT_WORDS};

fn is_among(words: &[&[u8]], word: &[u8]) -> bool
    ensures { result ≡ spec.is_among (map (λ entry. entry.now) words.now) word.now }
{
    let mut rest = words;
    while let [entry, tail @ ..] = rest {
        if *entry == word {
            return true;
        }
        rest = tail;
    }
    false
}

/// The row of a letter.
fn row<'a>(rows: &'a [&'a [&'a [u8]]], letter: u8) -> &'a [&'a [u8]]
    requires low { 97 ≤ letter }
    requires high { letter - 97 < length rows.now }
    ensures { map (λ word. word.now) result.now ≡ slice_index_or (map (λ row. map (λ word. word.now) row.now) rows.now) (letter - 97) [] }
{
    rows[(letter - b'a') as usize]
}

/// Whether a word in the row of a letter may be this one, by its length.
fn may_be_in_row(word: &[u8], letter: u8) -> bool
    requires low { 97 ≤ letter }
    requires high { letter ≤ 122 }
    ensures { IsTrue (spec.is_among (slice_index_or spec.left_rows (letter - 97) []) word.now) → IsTrue result }
{
    let length = word.len();
    length < 32 && LEFT_LENGTHS[(letter - b'a') as usize * 32 + length] == b'#'
}

/// Whether the word is in the row of a letter.
fn is_in_row(word: &[u8], letter: u8) -> bool
    requires low { 97 ≤ letter }
    requires high { letter ≤ 122 }
    ensures { result ≡ spec.is_among (slice_index_or spec.left_rows (letter - 97) []) word.now }
{
    may_be_in_row(word, letter) && is_among(row(LEFT_WORDS, letter), word)
}

/// Whether the word is in the row of its letter.
fn is_in_rows(word: &[u8]) -> bool
    ensures { result ≡ spec.is_in_rows word.now }
{
    let first = byte(word, 0);
    if first >= b'a' && first <= b'z' {
        is_in_row(word, first)
    } else {
        false
    }
}

/// The number that digits write, or 65 where it is greater.
fn width_of(digits: &[u8]) -> u32
    requires { list_all is_ascii_digit digits.now ≡ true }
    ensures { result ≡ min (digits_value 10 digits.now) 65 }
{
    let mut width = 0;
    for c in digits {
        width = (width * 10 + (*c - b'0') as u32).min(65);
    }
    width
}

/// Whether the word is a type of integers whose width is 0 or above 64.
fn is_left_width(word: &[u8]) -> bool
    ensures { result ≡ spec.is_left_width word.now }
{
    if word.len() > 1 && word[0] == b'i' && all_digits(&word[1..]) {
        let width = width_of(&word[1..]);
        width == 0 || width > 64
    } else {
        false
    }
}

pub fn is_left_word(word: &[u8]) -> bool
    ensures { result ≡ spec.is_left_word word.now }
{
    is_in_rows(word) || is_left_width(word)
}

/// Whether the name begins with one of these.
fn has_one_front(inside: &[u8], quoted: bool, fronts: &[&[u8]]) -> bool
    ensures { result ≡ list_any (spec.begins_with (read quoted inside.now)) (map (λ front. front.now) fronts.now) }
{
    let mut rest = fronts;
    while let [front, tail @ ..] = rest {
        if has_front(inside, quoted, front) {
            return true;
        }
        rest = tail;
    }
    false
}

/// Whether the name is one of these.
fn is_one_of(inside: &[u8], quoted: bool, names: &[&[u8]]) -> bool
    ensures { result ≡ spec.is_among (map (λ name. name.now) names.now) (read quoted inside.now) }
{
    let mut rest = names;
    while let [name, tail @ ..] = rest {
        if is_named(inside, quoted, name) {
            return true;
        }
        rest = tail;
    }
    false
}

fn is_left_read(inside: &[u8], quoted: bool) -> bool
    ensures { result ≡ spec.are_left (read quoted inside.now) }
{
    has_one_front(inside, quoted, LEFT_NAMES) && !is_one_of(inside, quoted, KEPT_NAMES)
}

/// Whether a global name, without its `@`, is left out.
pub fn is_left_name(name: &[u8]) -> bool
    requires { slice_index name.now 0 ≡ 34 → 1 < length name.now }
    ensures { result ≡ spec.is_left_name (name_of name.now) }
{
    if byte(name, 0) == b'"' {
        is_left_read(&name[1..name.len() - 1], true)
    } else {
        is_left_read(name, false)
    }
}

fn is_int(kind: Kind) -> bool
    ensures { IsTrue result ↔ (kind ≡ Kind.Int) }
{
    matches!(kind, Kind::Int)
}

fn begins_int(c: u8) -> bool
    ensures { result ≡ begins Kind.Int c }
{
    c.is_ascii_digit() || c == b'-'
}

/// Whether the next token from a place on is an integer.
fn int_follows(text: &[u8], from: usize) -> bool
    requires { from ≤ length text.now }
    ensures { IsTrue result ↔ ((to : ℕ) × IsToken text.now (spec.past_gap text.now from) Kind.Int to) }
{
    let at = past_gap(text, from);
    if !begins_int(byte(text, at)) {
        return false;
    }
    match found_at(text, at, past_label(text, at)) {
        Found::Token(kind, _) => is_int(kind),
        Found::Bad => false,
        Found::Open => false,
    }
}

/// Whether the token is left out.
pub fn is_left(text: &[u8], at: usize, kind: Kind, end: usize) -> bool
    requires { IsToken text.now at kind end }
    ensures { IsTrue result ↔ spec.IsLeft text.now at kind end }
{
    match kind {
        Kind::Word => is_left_word(&text[at..end]),
        Kind::Global => is_left_name(&text[at + 1..end]),
        Kind::Punct => text[at] == b'<' && int_follows(text, end),
        _ => false,
    }
}
