//! Strings and quoted names, as they are read.
ghost use Rattle.std.specs.Prelude.{◌≡◌, ◌<◌, ◌≤◌, ◌∷◌, ◌++◌, min, length, drop, slice_index, IfOk};
ghost use Rattle.std.specs.Char.{digit_value};
ghost use Rattle.ir_token.specs.Names.{unescaped};

use attr_ids::NoMemory;

/// The byte at a place, and 0 past the end.
fn byte(text: &[u8], at: usize) -> u8
    ensures value { result ≡ slice_index text.now at }
    ensures within { 0 < result → at < length text.now }
{
    if at < text.len() { text[at] } else { 0 }
}

/// The value of a hexadecimal digit, and 16 for every other byte.
fn hex_digit(c: u8) -> u8
    ensures { result ≡ min (digit_value c) 16 }
{
    match c {
        b'0'..=b'9' => c - b'0',
        b'a'..=b'f' => c - b'a' + 10,
        b'A'..=b'F' => c - b'A' + 10,
        _ => 16,
    }
}

/// What the backslash at a place and the bytes behind it write, and the place behind them.
fn read_escape(inside: &[u8], at: usize) -> (u8, usize)
    requires within { at < length inside.now }
    requires begins { slice_index inside.now at ≡ 92 }
    ensures within { (at < result.1) × (result.1 ≤ length inside.now) }
    ensures value { unescaped (drop at inside.now) ≡ result.0 ∷ unescaped (drop result.1 inside.now) }
{
    let second = byte(inside, at + 1);
    if second == b'\\' {
        return (b'\\', at + 2);
    }
    let high = hex_digit(second);
    let low = hex_digit(byte(inside, at + 2));
    if high < 16 && low < 16 {
        (high * 16 + low, at + 3)
    } else {
        (b'\\', at + 1)
    }
}

/// The byte that is written at a place, and the place behind what writes it.
fn read_byte(inside: &[u8], at: usize) -> (u8, usize)
    requires { at < length inside.now }
    ensures within { (at < result.1) × (result.1 ≤ length inside.now) }
    ensures value { unescaped (drop at inside.now) ≡ result.0 ∷ unescaped (drop result.1 inside.now) }
{
    if inside[at] == b'\\' {
        read_escape(inside, at)
    } else {
        (inside[at], at + 1)
    }
}

/// Adds the bytes that the inside of a string is read as: `\\` is a backslash, `\xx` the byte with these hexadecimal
/// digits, and every other byte is itself.
pub fn push_read(bytes: &mut Vec<u8>, inside: &[u8]) -> Result<(), NoMemory>
    ensures { IfOk result (λ _. bytes.new.items ≡ bytes.old.items ++ unescaped inside.now) }
{
    let mut at = 0;
    while at < inside.len() {
        let (read, next) = read_byte(inside, at);
        bytes.push(read)?;
        at = next;
    }
    Ok(())
}

/// How many bytes the inside of a string is read as.
pub fn read_len(inside: &[u8]) -> usize
    ensures { result ≡ length (unescaped inside.now) }
{
    let mut count = 0;
    let mut at = 0;
    while at < inside.len() {
        count += 1;
        at = read_byte(inside, at).1;
    }
    count
}
