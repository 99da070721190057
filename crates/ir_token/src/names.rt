//! Names, read byte by byte: the name in `inside` is what the escapes of a string stand for where it
//! is quoted, and else the bytes themselves.
ghost use Rattle.std.specs.Prelude.{◌≡◌, ◌<◌, ◌≤◌, ◌∷◌, min, length, drop, slice_index, slice_range};
ghost use Rattle.std.specs.List.{list_all};
ghost use Rattle.std.specs.Char.{digit_value, is_ascii_digit};
ghost use Rattle.std.specs.Str.{bytes_eq};
ghost use Rattle.ir_token.specs.Names as spec;
ghost use Rattle.ir_token.specs.Names.{read, unescaped};
ghost use Rattle.ir_token.specs.Texts.{IsText};
ghost use Rattle.ir_token.specs.LeftOut.{begins_with};

use crate::MAX_DIGITS;
use crate::bytes::byte;
use crate::token::Kind;

/// The value of a hexadecimal digit, and 16 for every other byte.
fn hex_digit(c: u8) -> u8
    ensures { result ≡ min (digit_value c) 16 }
{
    match c {
        b'0'..=b'9' => c - b'0',
        b'a'..=b'f' => c - b'a' + 10,
        b'A'..=b'F' => c - b'A' + 10,
        _ => 16,
    }
}

/// What the backslash at a place and the bytes behind it write.
fn read_escape(inside: &[u8], at: usize) -> (u8, usize)
    requires within { at < length inside.now }
    requires begins { slice_index inside.now at ≡ 92 }
    ensures within { (at < result.1) × (result.1 ≤ length inside.now) }
    ensures value { unescaped (drop at inside.now) ≡ result.0 ∷ unescaped (drop result.1 inside.now) }
{
    let second = byte(inside, at + 1);
    if second == b'\\' {
        return (b'\\', at + 2);
    }
    let high = hex_digit(second);
    let low = hex_digit(byte(inside, at + 2));
    if high < 16 && low < 16 {
        (high * 16 + low, at + 3)
    } else {
        (b'\\', at + 1)
    }
}

/// The byte of the name that is written at a place, and the place behind what writes it.
fn read_byte(inside: &[u8], quoted: bool, at: usize) -> (u8, usize)
    requires { at < length inside.now }
    ensures within { (at < result.1) × (result.1 ≤ length inside.now) }
    ensures value { read quoted (drop at inside.now) ≡ result.0 ∷ read quoted (drop result.1 inside.now) }
{
    if quoted && inside[at] == b'\\' {
        read_escape(inside, at)
    } else {
        (inside[at], at + 1)
    }
}

/// Whether the name begins with these bytes.
pub fn has_front(inside: &[u8], quoted: bool, front: &[u8]) -> bool
    ensures { result ≡ begins_with (read quoted inside.now) front.now }
{
    let mut at = 0;
    for c in front {
        if at == inside.len() {
            return false;
        }
        let (read, next) = read_byte(inside, quoted, at);
        if read != *c {
            return false;
        }
        at = next;
    }
    true
}

/// Whether the name is these bytes.
pub fn is_named(inside: &[u8], quoted: bool, name: &[u8]) -> bool
    ensures { result ≡ bytes_eq name.now (read quoted inside.now) }
{
    let mut at = 0;
    for c in name {
        if at == inside.len() {
            return false;
        }
        let (read, next) = read_byte(inside, quoted, at);
        if read != *c {
            return false;
        }
        at = next;
    }
    at == inside.len()
}

pub fn all_digits(text: &[u8]) -> bool
    ensures { result ≡ list_all is_ascii_digit text.now }
{
    text.iter().all(|c| c.is_ascii_digit())
}

/// Whether the inside of a string is read as one byte or more, none of them zero.
fn is_proper(inside: &[u8]) -> bool
    ensures { result ≡ spec.is_proper (unescaped inside.now) }
{
    let mut at = 0;
    while at < inside.len() {
        let (read, next) = read_byte(inside, true, at);
        if read == 0 {
            return false;
        }
        at = next;
    }
    !inside.is_empty()
}

/// Whether bytes write a name.
fn writes_name(name: &[u8]) -> bool
    requires { slice_index name.now 0 ≡ 34 → 1 < length name.now }
    ensures { result ≡ spec.writes_name name.now }
{
    if byte(name, 0) == b'"' {
        is_proper(&name[1..name.len() - 1])
    } else {
        name.len() <= MAX_DIGITS || !all_digits(name)
    }
}

/// Whether the bytes of a text write a name, where its kind has one.
pub fn bears_name(text: &[u8], kind: Kind, at: usize, end: usize) -> bool
    requires within { end ≤ length text.now }
    requires is { IsText kind text.now at end }
    ensures { result ≡ spec.bears_name text.now kind at end }
{
    match kind {
        Kind::Global | Kind::Local | Kind::Comdat | Kind::Group => {
            writes_name(&text[at + 1..end])
        }
        Kind::Label => writes_name(&text[at..end - 1]),
        _ => true,
    }
}
