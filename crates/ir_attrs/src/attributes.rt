//! Attributes, by their words.
ghost use Rattle.std.specs.Prelude.{◌≡◌};
ghost use Rattle.ir_attrs.specs.Attributes as spec;

use crate::leaves::leaf_text;
use ir_token::Token;
use ir_tree::{Fattr, Inner, Leaf};

/// The word of an attribute; a string has none.
fn attr_word<'a>(text: &'a [u8], toks: &[Token], attr: &Fattr) -> &'a [u8]
    ensures { result.now ≡ spec.attr_word text.now toks.now attr.now }
{
    match attr {
        Fattr::Word(word) => leaf_text(text, toks, *word),
        Fattr::Bracket { word, .. } => leaf_text(text, toks, *word),
        Fattr::Str { .. } => &text[..0],
    }
}

/// Whether an attribute is this word, with or without parentheses.
pub(crate) fn is_attr(text: &[u8], toks: &[Token], name: &[u8], attr: &Fattr) -> bool
    ensures { result ≡ spec.is_attr text.now toks.now name.now attr.now }
{
    name == attr_word(text, toks, attr)
}

/// What stands between the parentheses of an attribute.
pub(crate) fn inside_of(attr: &Fattr) -> &[Inner]
    ensures { result.now ≡ spec.inside_of attr.now }
{
    match attr {
        Fattr::Bracket { inside, .. } => inside.as_slice(),
        _ => &[],
    }
}

/// The leaf that stands between parentheses, where no parenthesis does.
#[tactic(auto, using(crate::proofs::Inners::equations))]
pub(crate) fn inner_leaf(inner: &Inner) -> Option<Leaf>
    ensures { result ≡ spec.inner_leaf inner.now }
{
    match inner {
        Inner::Token(leaf) => Some(*leaf),
        Inner::Bracket { .. } => None,
    }
}

fn first_leaf(inside: &[Inner]) -> Option<Leaf>
    ensures { result ≡ spec.first_leaf inside.now }
{
    if inside.len() == 1 {
        inner_leaf(&inside[0])
    } else {
        None
    }
}

/// The text of the one token between the parentheses of an attribute; no bytes where more or fewer stand there.
pub(crate) fn only_text<'a>(text: &'a [u8], toks: &[Token], attr: &Fattr) -> &'a [u8]
    ensures { result.now ≡ spec.only_text text.now toks.now attr.now }
{
    match first_leaf(inside_of(attr)) {
        Some(leaf) => leaf_text(text, toks, leaf),
        None => &text[..0],
    }
}
