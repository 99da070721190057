//! What types are read with, and leaves as bytes, offsets and numbers.
ghost use Rattle.std.specs.Prelude.{◌≡◌, ◌+◌, IfOk, slice_range};
ghost use Rattle.ir_type_names.specs.Numbers.{is_definition as the_is_definition};
ghost use Rattle.ir_type_names.specs.Reading.{reading};
ghost use Rattle.ir_type_names.specs.Reading as spec;

use attr_ids::{NoMemory, Span};
use ir_literals::{count_at, number_at};
use ir_scopes::{Entry, Names, id_at};
use ir_token::Token;
use ir_tree::{Entity, Leaf};

/// What the types of a tree are read with.
#[derive(Clone, Copy)]
pub struct Source<'a> {
    pub text: &'a [u8],
    pub toks: &'a [Token],
    /// The number of each token's name.
    pub ids: &'a [u32],
    /// What the names of types stand for.
    pub names: &'a Names,
}

/// The bytes of a span, as far as the text has them.
fn cut(text: &[u8], span: Span) -> &[u8]
    ensures { result.now ≡ slice_range text.now span.from span.to }
{
    let from = span.from as usize;
    let to = (span.to as usize).min(text.len());
    if from < to {
        &text[from..to]
    } else {
        &text[..0]
    }
}

/// The bytes of a leaf; none where the list has no such token.
fn leaf_text<'a>(source: &Source<'a>, leaf: Leaf) -> &'a [u8]
    ensures { result.now ≡ spec.leaf_text (reading source.now) leaf }
{
    match source.toks.get(leaf as usize) {
        Some(token) => cut(source.text, token.span),
        None => &source.text[..0],
    }
}

/// The offset of a leaf.
pub(crate) fn offset_of(source: &Source<'_>, leaf: Leaf) -> u32
    ensures { result ≡ spec.offset_of (reading source.now) leaf }
{
    match source.toks.get(leaf as usize) {
        Some(token) => token.span.from,
        None => 0,
    }
}

/// The number of the type that a name stands for, where it stands for one.
fn number_of(source: &Source<'_>, leaf: Leaf) -> Option<u32>
    ensures { result ≡ spec.number_of_name (reading source.now) leaf }
{
    match source.names.get(&id_at(source.ids, leaf)) {
        Some(Entry::Type(t)) => Some(t.0),
        _ => None,
    }
}

/// The number of the type that a name stands for, and 0 where it stands for none.
pub(crate) fn named(source: &Source<'_>, leaf: Leaf) -> u32
    ensures { result ≡ spec.named (reading source.now) leaf }
{
    number_of(source, leaf).unwrap_or(0)
}

/// Whether a type has this name.
pub(crate) fn is_named(source: &Source<'_>, leaf: Leaf) -> bool
    ensures { result ≡ spec.is_named (reading source.now) leaf }
{
    number_of(source, leaf).is_some()
}

/// The bits that `iN` writes.
pub(crate) fn bits_of(source: &Source<'_>, leaf: Leaf) -> u64
    ensures { result ≡ spec.bits_of (reading source.now) leaf }
{
    let text = leaf_text(source, leaf);
    if text.is_empty() {
        return 0;
    }
    number_at(&text[1..]).unwrap_or(0)
}

/// The elements that an array's count writes.
pub(crate) fn elements_of(source: &Source<'_>, leaf: Leaf) -> u64
    ensures { result ≡ spec.elements_of (reading source.now) leaf }
{
    count_at(leaf_text(source, leaf))
}

/// A sum of counts. No text has so many things that it does not fit.
pub(crate) fn more(count: u32, by: u32) -> Result<u32, NoMemory>
    ensures { IfOk result (λ sum. sum ≡ count + by) }
{
    count.checked_add(by).ok_or(NoMemory)
}

/// A count in 32 bits.
pub(crate) fn narrow(count: usize) -> Result<u32, NoMemory>
    ensures { IfOk result (λ n. n ≡ count) }
{
    match u32::try_from(count) {
        Ok(n) => Ok(n),
        Err(_) => Err(NoMemory),
    }
}

/// How many named types an entity defines.
pub(crate) fn is_definition(entity: &Entity) -> u32
    ensures { result ≡ the_is_definition entity.now }
{
    match entity {
        Entity::Named { .. } => 1,
        _ => 0,
    }
}
