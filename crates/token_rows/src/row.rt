//! The text of a row.
ghost use Rattle.std.specs.Prelude.{◌<◌, ◌≤◌, length};

use std::alloc::{AllocError, Global};

fn hex_digit(c: u8) -> u8
    ensures { result < 16 }
{
    match c {
        b'0'..=b'9' => c - b'0',
        b'a'..=b'f' => c - b'a' + 10,
        b'A'..=b'F' => c - b'A' + 10,
        _ => 0,
    }
}

/// The byte that is written at a place of a row, and the place behind what writes it.
fn read_byte(row: &[u8], at: usize) -> (u8, usize)
    requires { at < length row.now }
    ensures { (at < result.1) × (result.1 ≤ length row.now) }
{
    if row[at] != b'\\' || at + 1 == row.len() {
        return (row[at], at + 1);
    }
    match row[at + 1] {
        b'n' => (b'\n', at + 2),
        b'r' => (b'\r', at + 2),
        b't' => (b'\t', at + 2),
        b'x' if at + 3 < row.len() => (
            hex_digit(row[at + 2]) * 16 + hex_digit(row[at + 3]),
            at + 4,
        ),
        other => (other, at + 2),
    }
}

/// The text that a row writes.
pub fn unescaped(alloc: Global, row: &str) -> Result<Vec<u8>, AllocError> {
    let bytes = row.as_bytes();
    let mut text = Vec::new(alloc);
    let mut at = 0;
    while at < bytes.len() {
        let (byte, next) = read_byte(bytes, at);
        text.push(byte)?;
        at = next;
    }
    Ok(text)
}

/// The text that a row writes behind a number, as many times as the number says.
pub fn repeated(alloc: Global, row: &str) -> Result<Vec<u8>, AllocError> {
    let mut text = Vec::new(alloc);
    let Some((number, once)) = row.split_once(' ') else {
        return Ok(text);
    };
    let once = unescaped(alloc, once)?;
    for _ in 0..number.parse::<u32>().unwrap_or(0) {
        text.extend_from_slice(once.as_slice())?;
    }
    Ok(text)
}
