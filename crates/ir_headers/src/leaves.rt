//! Leaves as bytes, offsets and names.
ghost use Rattle.std.specs.Prelude.{◌≡◌, slice_get, slice_range, IfOk, Some};
ghost use Rattle.ir_token.specs.Names as names;
ghost use Rattle.ir_token.specs.Lists.{AreTokens};
ghost use Rattle.ir_names.specs.Ids.{IsTokenOf};
ghost use Rattle.ir_attrs.specs.Leaves as leaves;
ghost use Rattle.ir_headers.specs.Leaves as spec;

use attr_ids::{NoMemory, Sequence, Span, Text};
use ir_names::name_text;
use ir_token::{Kind, Token};
use ir_tree::Leaf;
use std::alloc::Global;

/// The bytes of a span, as far as the text has them.
fn cut(text: &[u8], span: Span) -> &[u8]
    ensures { result.now ≡ slice_range text.now span.from span.to }
{
    let from = span.from as usize;
    let to = (span.to as usize).min(text.len());
    if from < to {
        &text[from..to]
    } else {
        &text[..0]
    }
}

/// The bytes of a leaf; none where there is no such token.
pub fn leaf_text<'a>(text: &'a [u8], toks: &[Token], leaf: Leaf) -> &'a [u8]
    ensures { result.now ≡ leaves.leaf_text text.now toks.now leaf }
{
    match toks.get(leaf as usize) {
        Some(token) => cut(text, token.span),
        None => &text[..0],
    }
}

/// The offset of a leaf.
pub(crate) fn leaf_from(toks: &[Token], leaf: Leaf) -> u32
    ensures { result ≡ leaves.leaf_from toks.now leaf }
{
    match toks.get(leaf as usize) {
        Some(token) => token.span.from,
        None => 0,
    }
}

/// The span of a leaf.
pub(crate) fn span_of(toks: &[Token], leaf: Leaf) -> Span
    ensures { result ≡ spec.span_of toks.now leaf }
{
    match toks.get(leaf as usize) {
        Some(token) => token.span,
        None => Span { from: 0, to: 0 },
    }
}

/// Whether the tokens of a kind have names.
fn has_name(kind: Kind) -> bool
    ensures { result ≡ names.has_name kind }
{
    matches!(
        kind,
        Kind::Global | Kind::Local | Kind::Comdat | Kind::Group | Kind::Label
    )
}

fn token_at(toks: &[Token], leaf: Leaf) -> Option<Token>
    ensures { result ≡ slice_get toks.now leaf }
{
    match toks.get(leaf as usize) {
        Some(token) => Some(*token),
        None => None,
    }
}

/// The bytes of the name of a token; none where its kind has no name.
fn name_in(alloc: Global, text: &[u8], token: Token) -> Result<Text, NoMemory>
    requires token { IsTokenOf text.now token }
    ensures { IfOk result (λ name. name ≡ spec.name_in text.now (Some token)) }
{
    if has_name(token.kind) {
        name_text(alloc, text, token)
    } else {
        Ok(Sequence::from_vec(Vec::new(alloc)))
    }
}

/// The bytes of a name, strings read, and of a number its digits without zeros in front.
pub(crate) fn name_of(
    alloc: Global,
    text: &[u8],
    toks: &[Token],
    at: Leaf,
) -> Result<Text, NoMemory>
    requires tokens { AreTokens text.now toks.now }
    ensures { IfOk result (λ name. name ≡ spec.name_of text.now toks.now at) }
{
    match token_at(toks, at) {
        Some(token) => name_in(alloc, text, token),
        None => Ok(Sequence::from_vec(Vec::new(alloc))),
    }
}
