//! Integers, as digits write them (LangRef, "Simple Constants").
ghost use Rattle.std.specs.Prelude.{◌≡◌, ◌+◌, ◌-◌, ◌*◌, ◌<◌, ◌≤◌, true, ℕ, drop, length, slice_index};
ghost use Rattle.std.specs.List.{list_all};
ghost use Rattle.std.specs.Char.{is_ascii_digit};
ghost use Rattle.std.specs.Str.Parse.{digits_value};
ghost use Rattle.ir_ops.specs.Residue.{IsWidth};
ghost use Rattle.ir_literals.specs.Integers as spec;

use ir_ops::all_ones;

/// The number with one digit more, where it is below 2^64.
fn then_digit(number: Option<u64>, c: u8) -> Option<u64>
    requires { is_ascii_digit c ≡ true }
    ensures { (n : ℕ) → number ≡ spec.below_64 n → result ≡ spec.below_64 (n * 10 + (c - 48)) }
{
    number?.checked_mul(10)?.checked_add((c - b'0') as u64)
}

/// The number that digits write, where it is below 2^64.
fn digits_number(digits: &[u8]) -> Option<u64>
    requires { list_all is_ascii_digit digits.now ≡ true }
    ensures { result ≡ spec.below_64 (digits_value 10 digits.now) }
{
    let mut number = Some(0);
    for c in digits {
        number = then_digit(number, *c);
    }
    number
}

/// Whether `-` stands before the digits.
fn is_negative(text: &[u8]) -> bool
    ensures { result ≡ spec.is_negative text.now }
{
    !text.is_empty() && text[0] == b'-'
}

/// What stands behind a sign, or all where none is there.
fn digits_of(text: &[u8]) -> &[u8]
    ensures { result.now ≡ spec.digits_of text.now }
{
    if is_negative(text) { &text[1..] } else { text }
}

fn all_digits(text: &[u8]) -> bool
    ensures { result ≡ list_all is_ascii_digit text.now }
{
    text.iter().all(|c| c.is_ascii_digit())
}

/// Whether bytes are digits, one or more.
fn are_digits(digits: &[u8]) -> bool
    ensures { result ≡ spec.are_digits digits.now }
{
    !digits.is_empty() && all_digits(digits)
}

/// The number without its sign, where it is one and below 2^64.
fn size_of(text: &[u8]) -> Option<u64>
    ensures { result ≡ spec.size_of text.now }
{
    let digits = digits_of(text);
    if are_digits(digits) {
        digits_number(digits)
    } else {
        None
    }
}

/// The bits of a number of this magnitude at a width, where it fits.
fn fitted(negative: bool, size: u64, width: u32) -> Option<u64>
    requires { IsWidth width }
    ensures { result ≡ spec.fitted negative size width }
{
    let most = all_ones(width);
    if negative {
        if size > 1 << (width - 1) {
            None
        } else if size == 0 {
            Some(0)
        } else {
            Some(most - (size - 1))
        }
    } else if size > most {
        None
    } else {
        Some(size)
    }
}

/// The bits of an integer literal at a width: the literal modulo 2^width. None where it is below -2^(width-1), or not
/// below 2^width, and where the text is no integer.
pub fn literal_at(text: &[u8], width: u32) -> Option<u64>
    requires { IsWidth width }
    ensures { result ≡ spec.literal_of width text.now }
{
    match size_of(text) {
        Some(size) => fitted(is_negative(text), size, width),
        None => None,
    }
}

/// The number that an integer literal writes, where it is at least 0 and below 2^64.
pub fn number_at(text: &[u8]) -> Option<u64>
    ensures { result ≡ spec.number_of text.now }
{
    match size_of(text) {
        Some(size) => {
            if size > 0 && is_negative(text) {
                None
            } else {
                Some(size)
            }
        }
        None => None,
    }
}

/// The bytes of an alignment that is written. A literal that is no u64 counts as 0.
pub fn align_at(text: &[u8]) -> u64
    ensures { result ≡ spec.align_of text.now }
{
    number_at(text).unwrap_or(0)
}

/// The count of an array that is written. A literal that is no u64 counts as 2^64 - 1.
pub fn count_at(text: &[u8]) -> u64
    ensures { result ≡ spec.count_of text.now }
{
    number_at(text).unwrap_or(u64::MAX)
}
