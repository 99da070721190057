//! What the trees of constants are read with, and leaves as bytes and offsets.
ghost use Rattle.std.specs.Prelude.{◌≡◌, slice_range};
ghost use Rattle.std.specs.Str.{bytes_eq};
ghost use Rattle.std.specs.Option.{option_copied};
ghost use Rattle.ir_operands.specs.Types.{type_of};
ghost use Rattle.ir_consts.specs.Source.{reading};
ghost use Rattle.ir_consts.specs.Reading as spec;

use attr_ids::{Span, TypeId};
use ir_operands::{Site, type_at};
use ir_scopes::{Entry, Names, id_at};
use ir_token::Token;
use ir_tree::Leaf;
use ir_type_names::TypeIds;
use ir_types::{IrType, TypeTable};

/// What the trees of constants are read with.
#[derive(Clone, Copy)]
pub struct Source<'a> {
    pub text: &'a [u8],
    pub toks: &'a [Token],
    /// The number of each token's name.
    pub ids: &'a [u32],
    /// What the names of functions and globals stand for.
    pub symbols: &'a Names,
    /// The numbers of written types.
    pub kinds: &'a TypeIds<'a>,
    pub types: &'a TypeTable,
    /// The canonical number of each type.
    pub numbers: &'a [u32],
    /// Where the constant is written.
    pub site: Site,
}

/// The bytes of a span, as far as the text has them.
fn cut(text: &[u8], span: Span) -> &[u8]
    ensures { result.now ≡ slice_range text.now span.from span.to }
{
    let from = span.from as usize;
    let to = (span.to as usize).min(text.len());
    if from < to {
        &text[from..to]
    } else {
        &text[..0]
    }
}

/// The bytes of a leaf; none where there is no such token.
pub(crate) fn leaf_text<'a>(src: &Source<'a>, leaf: Leaf) -> &'a [u8]
    ensures { result.now ≡ spec.leaf_text (reading src.now) leaf }
{
    match src.toks.get(leaf as usize) {
        Some(token) => cut(src.text, token.span),
        None => &src.text[..0],
    }
}

/// Whether a leaf is this word.
pub(crate) fn is_word(src: &Source<'_>, leaf: Leaf, word: &[u8]) -> bool
    ensures { result ≡ bytes_eq (spec.leaf_text (reading src.now) leaf) word.now }
{
    leaf_text(src, leaf) == word
}

/// The offset of a leaf.
pub(crate) fn leaf_from(src: &Source<'_>, leaf: Leaf) -> u32
    ensures { result ≡ spec.leaf_from (reading src.now) leaf }
{
    match src.toks.get(leaf as usize) {
        Some(token) => token.span.from,
        None => 0,
    }
}

/// What the name at a leaf stands for.
pub(crate) fn symbol_at<'a>(src: &Source<'a>, leaf: Leaf) -> Option<&'a Entry>
    ensures { option_copied result ≡ spec.symbol_at (reading src.now) leaf }
{
    src.symbols.get(&id_at(src.ids, leaf))
}

/// What is between the quotes of `c".."`.
pub(crate) fn inside_of(z: &[u8]) -> &[u8]
    ensures { result.now ≡ spec.inside_of z.now }
{
    if z.len() < 3 {
        return &z[..0];
    }
    &z[2..z.len() - 1]
}

fn width_in(ty: Option<&IrType>) -> Option<u32>
    ensures { result ≡ spec.width_in (option_copied ty.entry) }
{
    match ty {
        Some(IrType::Int { width }) if 1 <= *width && *width <= 64 => Some(*width as u32),
        _ => None,
    }
}

/// The bits of an integer type of 1 to 64 bits.
pub(crate) fn width_of(types: &TypeTable, t: TypeId) -> Option<u32>
    ensures { result ≡ spec.width_in (type_of types.now t) }
{
    width_in(type_at(types, t))
}
