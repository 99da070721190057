//! Leaves of a tree as bytes and offsets.
ghost use Rattle.std.specs.Prelude.{◌≡◌, slice_range};
ghost use Rattle.std.specs.Str.{bytes_eq};
ghost use Rattle.ir_attrs.specs.Leaves as spec;

use attr_ids::Span;
use ir_token::Token;
use ir_tree::Leaf;

/// The bytes of a span, as far as the text has them.
fn cut(text: &[u8], span: Span) -> &[u8]
    ensures { result.now ≡ slice_range text.now span.from span.to }
{
    let from = span.from as usize;
    let to = (span.to as usize).min(text.len());
    if from < to {
        &text[from..to]
    } else {
        &text[..0]
    }
}

/// The bytes of a leaf; none where the list has no such token.
pub(crate) fn leaf_text<'a>(text: &'a [u8], toks: &[Token], leaf: Leaf) -> &'a [u8]
    ensures { result.now ≡ spec.leaf_text text.now toks.now leaf }
{
    match toks.get(leaf as usize) {
        Some(token) => cut(text, token.span),
        None => &text[..0],
    }
}

/// Whether bytes are these.
pub(crate) fn is(bytes: &[u8], name: &[u8]) -> bool
    ensures { result ≡ bytes_eq bytes.now name.now }
{
    bytes == name
}

/// The offset of a leaf.
pub(crate) fn leaf_from(toks: &[Token], leaf: Leaf) -> u32
    ensures { result ≡ spec.leaf_from toks.now leaf }
{
    match toks.get(leaf as usize) {
        Some(token) => token.span.from,
        None => 0,
    }
}

/// The offset behind a leaf.
pub(crate) fn leaf_to(toks: &[Token], leaf: Leaf) -> u32
    ensures { result ≡ spec.leaf_to toks.now leaf }
{
    match toks.get(leaf as usize) {
        Some(token) => token.span.to,
        None => 0,
    }
}
