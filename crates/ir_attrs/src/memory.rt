//! What a `memory(..)` permits (LangRef, "Function Attributes").
ghost use Rattle.std.specs.Prelude.{◌≡◌, ◌≤◌, ◌<◌, ◌+◌, ◌∷◌, ◌++◌, [], List, Option, length, map, take, drop, bit_or, IfOk, if◌then◌else◌};
ghost use Rattle.ir_attrs.specs.Memory as spec;
ghost use Rattle.ir_attrs.specs.Reading as reading;
ghost use Rattle.ir_attrs.specs.Latest.{later};

use crate::attributes::inner_leaf;
use crate::leaves::{is, leaf_text};
use attr_ids::{NoMemory, Text};
use indexmap::IndexSet;
use ir_module::MemoryAttr;
use ir_token::{Kind, Token};
use ir_tree::{Inner, Leaf};
use std::alloc::Global;

/// An access by its bits, 1 for reading and 2 for writing, and the label of its location; no bytes where it has none.
#[derive(Drop)]
pub(crate) struct Access {
    pub location: Text,
    pub access: u8,
}

/// What the pieces of a list say so far.
#[derive(Clone, Copy)]
pub(crate) struct Seen {
    /// Whether each is an access, and none has the location of another.
    pub valid: bool,
    pub default: Option<u8>,
    pub argmem: Option<u8>,
    pub inaccessible: Option<u8>,
    /// The accesses of all other locations together.
    pub unknown: u8,
}

/// Whether a token is a comma.
fn is_comma(text: &[u8], toks: &[Token], inner: &Inner) -> bool
    ensures { result ≡ reading.is_comma (spec.mark text.now toks.now inner.now) }
{
    match inner_leaf(inner) {
        Some(leaf) => !is_label(toks, leaf) && is(leaf_text(text, toks, leaf), b","),
        None => false,
    }
}

/// Whether a leaf is a label.
fn is_label(toks: &[Token], leaf: Leaf) -> bool
    ensures { result ≡ reading.is_label_at toks.now leaf }
{
    match toks.get(leaf as usize) {
        Some(token) => token.kind == Kind::Label,
        None => false,
    }
}

/// The bits of the access that a word writes.
fn access_bits(word: &[u8]) -> Option<u8>
    ensures { result ≡ reading.access_bits (spec.mark_of_text word.now) }
{
    if is(word, b"none") {
        Some(0)
    } else if is(word, b"read") {
        Some(1)
    } else if is(word, b"write") {
        Some(2)
    } else if is(word, b"readwrite") {
        Some(3)
    } else {
        None
    }
}

/// The bits of the access that a token is.
fn permits(text: &[u8], toks: &[Token], inner: &Inner) -> Option<u8>
    ensures { result ≡ reading.access_bits (spec.mark text.now toks.now inner.now) }
{
    match inner_leaf(inner) {
        Some(leaf) => {
            if is_label(toks, leaf) {
                None
            } else {
                access_bits(leaf_text(text, toks, leaf))
            }
        }
        None => None,
    }
}

/// The label that a token is.
fn label<'a>(text: &'a [u8], toks: &[Token], inner: &Inner) -> Option<&'a [u8]>
    ensures { reading.now_of result ≡ reading.label_of (spec.mark text.now toks.now inner.now) }
{
    match inner_leaf(inner) {
        Some(leaf) => {
            if is_label(toks, leaf) {
                Some(leaf_text(text, toks, leaf))
            } else {
                None
            }
        }
        None => None,
    }
}

/// The access of a location.
fn located(alloc: Global, location: &[u8], access: u8) -> Result<Option<Access>, NoMemory>
    ensures { IfOk result (λ found. found ≡ Some (record { location = location.now; access = access })) }
{
    let location = Text::from_slice(alloc, location)?;
    Ok(Some(Access { location, access }))
}

/// The access behind a label, where the two are one.
fn labelled(
    alloc: Global,
    text: &[u8],
    toks: &[Token],
    first: &Inner,
    second: &Inner,
) -> Result<Option<Access>, NoMemory>
    ensures { IfOk result (λ found. found ≡ reading.labelled (spec.mark text.now toks.now first.now) (spec.mark text.now toks.now second.now)) }
{
    match (label(text, toks, first), permits(text, toks, second)) {
        (Some(location), Some(access)) => located(alloc, location, access),
        _ => Ok(None),
    }
}

/// The access without a location that a token is.
fn bare(
    alloc: Global,
    text: &[u8],
    toks: &[Token],
    inner: &Inner,
) -> Result<Option<Access>, NoMemory>
    ensures { IfOk result (λ found. found ≡ reading.bare (spec.mark text.now toks.now inner.now)) }
{
    match permits(text, toks, inner) {
        Some(access) => located(alloc, &[], access),
        None => Ok(None),
    }
}

/// The access that a piece is, where it is one.
fn access_of(
    alloc: Global,
    text: &[u8],
    toks: &[Token],
    piece: &[Inner],
) -> Result<Option<Access>, NoMemory>
    ensures { IfOk result (λ found. found ≡ spec.access_of (map (spec.mark text.now toks.now) piece.now)) }
{
    match piece {
        [only] => bare(alloc, text, toks, only),
        [first, second] => labelled(alloc, text, toks, first, second),
        _ => Ok(None),
    }
}

/// The place of the first comma, or the end where there is none.
fn piece_end(text: &[u8], toks: &[Token], inside: &[Inner]) -> usize
    ensures within { result ≤ length inside.now }
    ensures pieces { spec.pieces (map (spec.mark text.now toks.now) inside.now)
        ≡ map (spec.mark text.now toks.now) (take result inside.now) ∷ reading.rest_of (map (spec.mark text.now toks.now) (drop result inside.now)) }
{
    let mut end = 0;
    while end < inside.len() {
        if is_comma(text, toks, &inside[end]) {
            return end;
        }
        end += 1;
    }
    end
}

/// What stands behind the comma at a place.
fn behind(inside: &[Inner], comma: usize) -> &[Inner]
    requires { comma < length inside.now }
    ensures { result.now ≡ drop (comma + 1) inside.now }
{
    let left = &inside[comma..];
    &left[1..]
}

/// One access more at a location.
fn access_or(new: u8, is_there: bool, old: Option<u8>) -> Option<u8>
    ensures { result ≡ later old (if is_there then Some new else None) }
{
    if is_there { Some(new) } else { old }
}

fn is_known(location: &[u8]) -> bool
    ensures { result ≡ spec.is_known location.now }
{
    is(location, b"") || is(location, b"argmem:") || is(location, b"inaccessiblemem:")
}

/// One access more, where its location is unknown.
fn or_unknown(old: u8, location: &[u8], access: u8) -> u8
    ensures { result ≡ (if spec.is_known location.now then old else bit_or old access) }
{
    if is_known(location) {
        old
    } else {
        old | access
    }
}

/// What the pieces say with one access more, where it is told whether its location is new.
fn with_access(seen: Seen, access: &Access, is_new: bool) -> Seen
    ensures { result ≡ reading.with_access seen access.now is_new }
{
    let location = access.location.as_slice();
    let bits = access.access;
    Seen {
        valid: seen.valid && is_new,
        default: access_or(bits, is(location, b""), seen.default),
        argmem: access_or(bits, is(location, b"argmem:"), seen.argmem),
        inaccessible: access_or(bits, is(location, b"inaccessiblemem:"), seen.inaccessible),
        unknown: or_unknown(seen.unknown, location, bits),
    }
}

/// What the pieces say with one that is no access.
fn with_none(seen: Seen) -> Seen
    ensures { result ≡ reading.with_none seen }
{
    Seen {
        valid: false,
        ..seen
    }
}

/// What the pieces say with one more; `known` are the locations before it.
fn enter(
    alloc: Global,
    known: &mut IndexSet<Vec<u8>>,
    seen: Seen,
    access: Option<Access>,
) -> Result<Seen, NoMemory>
    ensures { IfOk result (λ new. (before : List (Option Access)) → reading.IsRead before known.old seen →
        reading.IsRead (before ++ access ∷ []) known.new new) }
{
    match access {
        Some(access) => {
            let location = Vec::from_slice(alloc, access.location.as_slice())?;
            let is_new = known.insert(location)?;
            Ok(with_access(seen, &access, is_new))
        }
        None => Ok(with_none(seen)),
    }
}

fn number_or(other: u8, access: Option<u8>) -> u8
    ensures { result ≡ spec.or_number other access }
{
    access.unwrap_or(other)
}

/// What the pieces permit together.
fn permitted(seen: Seen) -> MemoryAttr
    ensures { result ≡ reading.permitted seen }
{
    if !seen.valid {
        return MemoryAttr {
            other: 3,
            argmem: 3,
            inaccessible: 3,
        };
    }
    let default = number_or(0, seen.default);
    MemoryAttr {
        other: default | seen.unknown,
        argmem: number_or(default, seen.argmem),
        inaccessible: number_or(default, seen.inaccessible),
    }
}

/// What a `memory` with this between its parentheses permits. One that is no list of accesses, or that has one location
/// twice, permits everything.
pub(crate) fn memory_of(
    alloc: Global,
    text: &[u8],
    toks: &[Token],
    inside: &[Inner],
) -> Result<MemoryAttr, NoMemory>
    ensures { IfOk result (λ found. found ≡ spec.memory_of text.now toks.now inside.now) }
{
    let mut known = IndexSet::new(alloc);
    let mut seen = Seen {
        valid: true,
        default: None,
        argmem: None,
        inaccessible: None,
        unknown: 0,
    };
    let mut rest = inside;
    loop {
        let end = piece_end(text, toks, rest);
        let access = access_of(alloc, text, toks, &rest[..end])?;
        seen = enter(alloc, &mut known, seen, access)?;
        if end >= rest.len() {
            break;
        }
        rest = behind(rest, end);
    }
    Ok(permitted(seen))
}
