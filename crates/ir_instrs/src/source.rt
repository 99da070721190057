//! What the trees of instructions are read with, and leaves as bytes, offsets and types.
ghost use Rattle.std.specs.Prelude.{◌≡◌, slice_range, IfOk};
ghost use Rattle.std.specs.Option.{option_copied};
ghost use Rattle.std.specs.Str.{bytes_eq};
ghost use Rattle.ir_instrs.specs.Leaves as leaves;
ghost use Rattle.ir_operands.specs.Constants.{ArePartsBelow};
ghost use Rattle.ir_scopes.specs.Faults.{first_in};
ghost use Rattle.ir_consts.specs.Source as constants;
ghost use Rattle.ir_instrs.specs.Reading.{consts, reading, IsSound};
ghost use Rattle.ir_instrs.specs.Uses as uses;

use attr_ids::{NoMemory, Span, TypeId};
use ir_consts::Laid;
use ir_module::Written;
use ir_operands::Site;
use ir_scopes::{Entry, Names, id_at};
use ir_token::Token;
use ir_tree::{Const, Leaf, Ty};
use ir_type_names::TypeIds;
use ir_types::TypeTable;
use std::alloc::Global;

/// What the trees of the instructions of a body are read with.
#[derive(Clone, Copy)]
pub struct Source<'a> {
    pub text: &'a [u8],
    pub toks: &'a [Token],
    /// The number of each token's name.
    pub ids: &'a [u32],
    /// What the names of the body stand for.
    pub names: &'a Names,
    /// What the names of functions and globals stand for.
    pub symbols: &'a Names,
    /// The numbers of written types.
    pub kinds: &'a TypeIds<'a>,
    pub types: &'a TypeTable,
    /// The canonical number of each type.
    pub numbers: &'a [u32],
}

/// The type of no value.
pub const VOID: TypeId = TypeId(0);

/// The type of pointers.
pub const PTR: TypeId = TypeId(1);

/// The bytes of a span, as far as the text has them.
fn cut(text: &[u8], span: Span) -> &[u8]
    ensures { result.now ≡ slice_range text.now span.from span.to }
{
    let from = span.from as usize;
    let to = (span.to as usize).min(text.len());
    if from < to {
        &text[from..to]
    } else {
        &text[..0]
    }
}

/// The bytes of a leaf; none where there is no such token.
#[tactic(auto, unfolding(crate::specs::Reading::reading))]
pub fn leaf_text<'a>(src: &Source<'a>, leaf: Leaf) -> &'a [u8]
    ensures { result.now ≡ leaves.leaf_text (reading src.now).text (reading src.now).toks leaf }
{
    match src.toks.get(leaf as usize) {
        Some(token) => cut(src.text, token.span),
        None => &src.text[..0],
    }
}

/// Whether a leaf is this word.
pub fn is_word(src: &Source<'_>, leaf: Leaf, word: &[u8]) -> bool
    ensures { result ≡ bytes_eq (leaves.leaf_text (reading src.now).text (reading src.now).toks leaf) word.now }
{
    leaf_text(src, leaf) == word
}

/// The offset of a leaf.
#[tactic(auto, unfolding(crate::specs::Reading::reading))]
pub fn leaf_from(src: &Source<'_>, leaf: Leaf) -> u32
    ensures { result ≡ leaves.leaf_from (reading src.now).toks leaf }
{
    match src.toks.get(leaf as usize) {
        Some(token) => token.span.from,
        None => 0,
    }
}

/// What the name at a token stands for.
#[tactic(auto, unfolding(crate::specs::Reading::reading))]
pub fn entry_at<'a>(src: &Source<'a>, at: Leaf) -> Option<&'a Entry>
    ensures { option_copied result ≡ uses.entry_at (reading src.now) at }
{
    src.names.get(&id_at(src.ids, at))
}

/// The type i1.
#[tactic(auto, unfolding(crate::specs::Reading::reading))]
pub fn bit(alloc: Global, src: &Source<'_>) -> Result<TypeId, NoMemory>
    ensures { IfOk result (λ t. t ≡ (reading src.now).bit) }
{
    src.kinds.bit(alloc)
}

/// The number of a type.
#[tactic(auto, unfolding(crate::specs::Reading::reading))]
pub fn type_of(alloc: Global, src: &Source<'_>, ty: &Ty) -> Result<TypeId, NoMemory>
    ensures { IfOk result (λ t. t ≡ (reading src.now).kind ty.now) }
{
    src.kinds.id(alloc, ty)
}

/// What the constants of a body are read with.
fn const_source<'a>(src: &Source<'a>) -> ir_consts::Source<'a>
    ensures { constants.reading result ≡ consts src.now }
{
    ir_consts::Source {
        text: src.text,
        toks: src.toks,
        ids: src.ids,
        symbols: src.symbols,
        kinds: src.kinds,
        types: src.types,
        numbers: src.numbers,
        site: Site::Plain,
    }
}

/// A constant that is written at a type. Its parts are laid behind those before it.
#[tactic(auto, unfolding(crate::specs::Reading::reading))]
pub fn constant(
    alloc: Global,
    src: &Source<'_>,
    ty: TypeId,
    value: &Const,
    notes: &mut Laid,
) -> Result<Written, NoMemory>
    requires sound { IsSound src.now }
    requires below { ArePartsBelow notes.old.parts.items }
    ensures value { IfOk result (λ w. w ≡ ((reading src.now).const value.now ty notes.old.parts.items).0) }
    ensures parts { IfOk result (λ _. notes.new.parts.items ≡ ((reading src.now).const value.now ty notes.old.parts.items).1) }
    ensures found { IfOk result (λ _. notes.new.found ≡ first_in notes.old.found ((reading src.now).unknown value.now)) }
    ensures below { IfOk result (λ _. ArePartsBelow notes.new.parts.items) }
{
    let src = const_source(src);
    ir_consts::constant(alloc, &src, ty, value, notes)
}
