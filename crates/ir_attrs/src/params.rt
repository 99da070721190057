//! Attributes of parameters, arguments and returns (LangRef, "Parameter Attributes"), and alignments.
ghost use Rattle.std.specs.Prelude.{◌≡◌};
ghost use Rattle.ir_attrs.specs.Params as spec;
ghost use Rattle.ir_attrs.specs.Latest.{later};

use crate::attributes::{is_attr, only_text};
use crate::leaves::{is, leaf_text};
use ir_literals::number_at;
use ir_module::ParamAttrs;
use ir_token::Token;
use ir_tree::{Gtail, Leaf, Rattr};

/// The greatest alignment, in bytes.
const MAX_ALIGN: u64 = 1 << 32;

/// The greatest number of bytes that `dereferenceable` may name.
const MAX_BYTES: u64 = 1 << 40;

fn is_rattr(text: &[u8], toks: &[Token], name: &[u8], attr: &Rattr) -> bool
    ensures { result ≡ spec.is_rattr text.now toks.now name.now attr.now }
{
    match attr {
        Rattr::Fattr(attr) => is_attr(text, toks, name, attr),
        _ => false,
    }
}

fn rattr_only_text<'a>(text: &'a [u8], toks: &[Token], attr: &Rattr) -> &'a [u8]
    ensures { result.now ≡ spec.rattr_only_text text.now toks.now attr.now }
{
    match attr {
        Rattr::Fattr(attr) => only_text(text, toks, attr),
        _ => &text[..0],
    }
}

/// Whether an attribute keeps that nothing is captured, where it is of that kind.
fn capture_says(text: &[u8], toks: &[Token], attr: &Rattr) -> Option<bool>
    ensures { result ≡ spec.capture_says text.now toks.now attr.now }
{
    if is_rattr(text, toks, b"nocapture", attr) {
        Some(true)
    } else if is_rattr(text, toks, b"captures", attr) {
        Some(is(rattr_only_text(text, toks, attr), b"none"))
    } else {
        None
    }
}

/// The bytes of an alignment, where the attribute is one; within, None where they are no u64.
fn align_says(text: &[u8], toks: &[Token], attr: &Rattr) -> Option<Option<u64>>
    ensures { result ≡ spec.align_says text.now toks.now attr.now }
{
    match attr {
        Rattr::Align { bytes, .. } => Some(number_at(leaf_text(text, toks, *bytes))),
        Rattr::AlignIn { bytes, .. } => Some(number_at(leaf_text(text, toks, *bytes))),
        Rattr::Fattr(_) => None,
    }
}

/// The bytes of a `dereferenceable`, where the attribute is one; within, None where not one integer stands there.
fn deref_says(text: &[u8], toks: &[Token], attr: &Rattr) -> Option<Option<u64>>
    ensures { result ≡ spec.deref_says text.now toks.now attr.now }
{
    if is_rattr(text, toks, b"dereferenceable", attr) {
        Some(number_at(rattr_only_text(text, toks, attr)))
    } else {
        None
    }
}

/// Whether an alignment is a power of two up to 2^32.
fn is_alignment(bytes: Option<u64>) -> bool
    ensures { result ≡ spec.is_alignment bytes }
{
    match bytes {
        Some(bytes) => bytes.is_power_of_two() && bytes <= MAX_ALIGN,
        None => false,
    }
}

/// Whether a number of bytes is at least 1 and at most 2^40.
fn is_size(bytes: Option<u64>) -> bool
    ensures { result ≡ spec.is_size bytes }
{
    match bytes {
        Some(bytes) => bytes >= 1 && bytes <= MAX_BYTES,
        None => false,
    }
}

fn breaks_align(said: Option<Option<u64>>) -> bool
    ensures { result ≡ spec.breaks spec.is_alignment said }
{
    match said {
        Some(bytes) => !is_alignment(bytes),
        None => false,
    }
}

fn breaks_size(said: Option<Option<u64>>) -> bool
    ensures { result ≡ spec.breaks spec.is_size said }
{
    match said {
        Some(bytes) => !is_size(bytes),
        None => false,
    }
}

fn flag_or(said: Option<bool>, old: bool) -> bool
    ensures { result ≡ spec.flag_or old said }
{
    match said {
        Some(new) => new,
        None => old,
    }
}

fn bytes_or(said: Option<Option<u64>>, old: u64) -> u64
    ensures { result ≡ spec.bytes_or old said }
{
    match said {
        Some(Some(bytes)) => bytes,
        Some(None) => 0,
        None => old,
    }
}

/// What attributes say with one more behind them.
fn with_attr(text: &[u8], toks: &[Token], old: ParamAttrs, attr: &Rattr) -> ParamAttrs
    ensures { result ≡ spec.with_attr text.now toks.now old attr.now }
{
    let capture = capture_says(text, toks, attr);
    let align = align_says(text, toks, attr);
    let deref = deref_says(text, toks, attr);
    ParamAttrs {
        nonnull: old.nonnull | is_rattr(text, toks, b"nonnull", attr),
        nocapture: flag_or(capture, old.nocapture),
        captures: old.captures | is_rattr(text, toks, b"captures", attr),
        readnone: old.readnone | is_rattr(text, toks, b"readnone", attr),
        readonly: old.readonly | is_rattr(text, toks, b"readonly", attr),
        writeonly: old.writeonly | is_rattr(text, toks, b"writeonly", attr),
        returned: old.returned | is_rattr(text, toks, b"returned", attr),
        sret: old.sret | is_rattr(text, toks, b"sret", attr),
        writable: old.writable | is_rattr(text, toks, b"writable", attr),
        align: bytes_or(align, old.align),
        dereferenceable: bytes_or(deref, old.dereferenceable),
        bad: old.bad | (breaks_align(align) | breaks_size(deref)),
    }
}

/// The attributes of a parameter, an argument or a return that are written there. Of several of one kind the last
/// counts; `bad` tells that an `align` or a `dereferenceable` is not as it should be.
pub fn param_attrs(text: &[u8], toks: &[Token], attrs: &[Rattr]) -> ParamAttrs
    ensures { result ≡ spec.param_attrs text.now toks.now attrs.now }
{
    let mut said = ParamAttrs {
        nonnull: false,
        nocapture: false,
        captures: false,
        readnone: false,
        readonly: false,
        writeonly: false,
        returned: false,
        sret: false,
        writable: false,
        align: 0,
        dereferenceable: 0,
        bad: false,
    };
    for attr in attrs {
        said = with_attr(text, toks, said, attr);
    }
    said
}

/// The bytes of an alignment in the tail of a global, where the part is one.
fn tail_says(text: &[u8], toks: &[Token], tail: &Gtail) -> Option<Option<u64>>
    ensures { result ≡ spec.tail_says text.now toks.now tail.now }
{
    match tail {
        Gtail::Align { bytes, .. } => Some(number_at(leaf_text(text, toks, *bytes))),
        _ => None,
    }
}

/// The alignment of a global in bytes: the first that is not as it should be, and else the last. One that is no u64
/// counts as 0.
pub fn global_align(text: &[u8], toks: &[Token], tails: &[Gtail]) -> Option<u64>
    ensures { result ≡ spec.global_align text.now toks.now tails.now }
{
    let mut said = None;
    for tail in tails {
        let new = tail_says(text, toks, tail);
        if breaks_align(new) {
            return as_align(new);
        }
        said = said_or(new, said);
    }
    as_align(said)
}

fn said_or(new: Option<Option<u64>>, old: Option<Option<u64>>) -> Option<Option<u64>>
    ensures { result ≡ later old new }
{
    match new {
        Some(bytes) => Some(bytes),
        None => old,
    }
}

fn as_align(said: Option<Option<u64>>) -> Option<u64>
    ensures { result ≡ spec.as_align said }
{
    match said {
        Some(bytes) => Some(bytes.unwrap_or(0)),
        None => None,
    }
}

/// The alignment of an instruction in bytes; one that is no u64 counts as 0.
pub fn align_field(text: &[u8], toks: &[Token], align: Option<Leaf>) -> Option<u64>
    ensures { result ≡ spec.align_field text.now toks.now align }
{
    match align {
        Some(leaf) => Some(number_at(leaf_text(text, toks, leaf)).unwrap_or(0)),
        None => None,
    }
}
