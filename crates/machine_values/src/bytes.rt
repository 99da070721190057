//! How a value lies in memory, byte by byte.
ghost use Rattle.std.specs.Prelude.{◌≡◌, ◌<◌, ◌≤◌, ◌/◌, ◌%◌, ◌^◌, length, IfOk};
ghost use Rattle.std.specs.List.{list_any, list_all};
ghost use Rattle.ir_ops.specs.Residue.{IsWidth};
ghost use Rattle.ir_machine.specs.Values as spec;

use crate::integers::low_bits;
use crate::value::{copied, is_same_value, plain};
use attr_ids::NoMemory;
use ir_machine::{Byte, Datum, Value};
use std::alloc::Global;

/// Byte number `k` of an integer, the lowest first.
fn byte_of(bits: u64, k: u8) -> u8
    requires { k < 8 }
    ensures { result ≡ bits / 256 ^ k % 256 }
{
    ((bits >> (8 * k)) & 255) as u8
}

/// Byte number `k` of a value in memory.
fn stored_byte(alloc: Global, x: &Value, k: u8) -> Result<Byte, NoMemory>
    requires { k < 8 }
    ensures { IfOk result (λ byte. byte ≡ spec.stored_byte x.now x.now.datum k) }
{
    match x.datum {
        Datum::Int { bits } => Ok(Byte::Number(byte_of(bits, k))),
        Datum::Ptr { .. } => {
            let of = copied(alloc, x)?;
            Ok(Byte::Fragment { k, of })
        }
        Datum::Null => Ok(Byte::Number(0)),
        Datum::Undef => Ok(Byte::Undef),
        Datum::Poison | Datum::Pair => Ok(Byte::Poison),
    }
}

/// The first `n` bytes of a value in memory.
pub fn stored(alloc: Global, n: u8, x: &Value) -> Result<Vec<Byte>, NoMemory>
    requires { n ≤ 8 }
    ensures { IfOk result (λ bytes. bytes.items ≡ spec.stored n x.now) }
{
    let mut bytes = Vec::new(alloc);
    for k in 0..n {
        bytes.push(stored_byte(alloc, x, k)?)?;
    }
    Ok(bytes)
}

/// Whether a byte is poison.
fn is_poison_byte(byte: &Byte) -> bool
    ensures { result ≡ spec.is_poison_byte byte.now }
{
    matches!(byte, Byte::Poison)
}

/// Whether a byte is undef.
fn is_undef_byte(byte: &Byte) -> bool
    ensures { result ≡ spec.is_undef_byte byte.now }
{
    matches!(byte, Byte::Undef)
}

/// Whether a byte is a fragment of a pointer.
fn is_fragment(byte: &Byte) -> bool
    ensures { result ≡ spec.is_fragment byte.now }
{
    matches!(byte, Byte::Fragment { .. })
}

/// Whether a byte is the number 0.
fn is_zero_byte(byte: &Byte) -> bool
    ensures { result ≡ spec.is_zero_byte byte.now }
{
    matches!(byte, Byte::Number(0))
}

/// Whether one of the bytes is poison.
fn has_poison(bytes: &[Byte]) -> bool
    ensures { result ≡ list_any spec.is_poison_byte bytes.now }
{
    bytes.iter().any(|byte| is_poison_byte(byte))
}

/// Whether one of the bytes is undef.
fn has_undef(bytes: &[Byte]) -> bool
    ensures { result ≡ list_any spec.is_undef_byte bytes.now }
{
    bytes.iter().any(|byte| is_undef_byte(byte))
}

/// Whether one of the bytes is a fragment of a pointer.
fn has_fragment(bytes: &[Byte]) -> bool
    ensures { result ≡ list_any spec.is_fragment bytes.now }
{
    bytes.iter().any(|byte| is_fragment(byte))
}

/// Whether all bytes are 0.
fn are_zero(bytes: &[Byte]) -> bool
    ensures { result ≡ list_all spec.is_zero_byte bytes.now }
{
    bytes.iter().all(|byte| is_zero_byte(byte))
}

/// The number that a byte is.
fn number_of(byte: &Byte) -> u8
    ensures { result ≡ spec.number_of byte.now }
{
    match byte {
        Byte::Number(n) => *n,
        _ => 0,
    }
}

/// The number that at most eight bytes mean, the lowest first.
fn little_endian(bytes: &[Byte]) -> u64
    requires { length bytes.now ≤ 8 }
    ensures { result ≡ spec.little_endian bytes.now }
{
    let mut number = 0;
    for i in 0..bytes.len() {
        let at = bytes.len() - 1 - i;
        let byte = number_of(&bytes[at]);
        number = byte as u64 + 256 * number;
    }
    number
}

/// An integer of a width from its bytes.
pub fn loaded_int(alloc: Global, width: u32, bytes: &[Byte]) -> Value
    requires width { IsWidth width }
    requires few { length bytes.now ≤ 8 }
    ensures { result ≡ spec.loaded_int width bytes.now }
{
    let datum = if has_poison(bytes) {
        Datum::Poison
    } else if has_undef(bytes) || has_fragment(bytes) {
        Datum::Undef
    } else {
        Datum::Int {
            bits: low_bits(width, little_endian(bytes)),
        }
    };
    plain(alloc, datum)
}

/// Whether the bytes are the fragments of a value in order.
fn are_fragments(x: &Value, bytes: &[Byte]) -> bool
    requires { length bytes.now < 256 }
    ensures { result ≡ spec.are_fragments x.now 0 bytes.now }
{
    for (k, byte) in bytes.iter().enumerate() {
        let Byte::Fragment { k: j, of } = byte else {
            return false;
        };
        if *j as usize != k || !is_same_value(x, of) {
            return false;
        }
    }
    true
}

/// The pointer whose fragments the bytes are, poison if they are those of no pointer.
fn whole_pointer(alloc: Global, bytes: &[Byte]) -> Result<Value, NoMemory>
    requires { length bytes.now < 256 }
    ensures { IfOk result (λ x. x ≡ spec.whole_pointer bytes.now) }
{
    match bytes {
        [Byte::Fragment { of, .. }, ..] if are_fragments(of, bytes) => copied(alloc, of),
        _ => Ok(plain(alloc, Datum::Poison)),
    }
}

/// A pointer from its bytes.
pub fn loaded_ptr(alloc: Global, bytes: &[Byte]) -> Result<Value, NoMemory>
    requires { length bytes.now < 256 }
    ensures { IfOk result (λ x. x ≡ spec.loaded_ptr bytes.now) }
{
    if has_poison(bytes) {
        Ok(plain(alloc, Datum::Poison))
    } else if has_undef(bytes) {
        Ok(plain(alloc, Datum::Undef))
    } else if are_zero(bytes) {
        Ok(plain(alloc, Datum::Null))
    } else {
        whole_pointer(alloc, bytes)
    }
}
