//! Names as they are read.
ghost use Rattle.std.specs.Prelude.{◌≡◌, ◌<◌, ◌≤◌, ◌^◌, length, slice_index, true, IfOk};
ghost use Rattle.std.specs.List.{list_all};
ghost use Rattle.std.specs.Char.{is_ascii_digit};
ghost use Rattle.std.specs.Str.Parse.{digits_value};
ghost use Rattle.ir_token.specs.declared.TheConstants.{MAX_DIGITS};
ghost use Rattle.ir_token.specs.Names.{has_name, bytes_of};
ghost use Rattle.ir_names.specs.Ids as spec;
ghost use Rattle.ir_names.specs.Ids.{IsTokenOf};

use attr_ids::NoMemory;
use ir_literals::push_read;
use ir_token::{Kind, Token};
use std::alloc::Global;

/// Whether the tokens of a kind have names.
pub(crate) fn has_name(kind: Kind) -> bool
    ensures { result ≡ has_name kind }
{
    matches!(
        kind,
        Kind::Global | Kind::Local | Kind::Comdat | Kind::Group | Kind::Label
    )
}

/// The bytes that write the name of a token.
pub(crate) fn written(text: &[u8], token: Token) -> &[u8]
    requires named { has_name token.kind ≡ true }
    requires token { IsTokenOf text.now token }
    ensures value { result.now ≡ spec.written text.now token }
    ensures closed { slice_index result.now 0 ≡ 34 → 1 < length result.now }
    ensures few { list_all is_ascii_digit result.now ≡ true → length result.now ≤ MAX_DIGITS }
{
    let from = token.span.from as usize;
    let to = token.span.to as usize;
    if token.kind == Kind::Label {
        &text[from..to - 1]
    } else {
        &text[from + 1..to]
    }
}

/// Whether bytes are digits.
pub(crate) fn all_digits(bytes: &[u8]) -> bool
    ensures { result ≡ list_all is_ascii_digit bytes.now }
{
    bytes.iter().all(|c| c.is_ascii_digit())
}

/// The number that digits write.
pub(crate) fn number(digits: &[u8]) -> u32
    requires digits { list_all is_ascii_digit digits.now ≡ true }
    requires few { length digits.now ≤ MAX_DIGITS }
    ensures value { result ≡ digits_value 10 digits.now }
    ensures small { result < 10 ^ 9 }
{
    let mut value = 0;
    for c in digits {
        value = value * 10 + u32::from(*c - b'0');
    }
    value
}

/// The bytes that a name is read as: what is inside its quotes, its escapes read, or the bytes themselves.
pub(crate) fn bytes(alloc: Global, name: &[u8]) -> Result<Vec<u8>, NoMemory>
    requires { slice_index name.now 0 ≡ 34 → 1 < length name.now }
    ensures { IfOk result (λ read. read.items ≡ bytes_of name.now) }
{
    let mut read = Vec::new(alloc);
    if !name.is_empty() && name[0] == b'"' {
        push_read(&mut read, &name[1..name.len() - 1])?;
    } else {
        read.extend_from_slice(name)?;
    }
    Ok(read)
}
