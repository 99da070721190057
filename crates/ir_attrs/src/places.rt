//! Where words are added.
ghost use Rattle.std.specs.Prelude.{◌≡◌, map, IfOk};
ghost use Rattle.ir_attrs.specs.Places as spec;

use crate::leaves::{leaf_from, leaf_to};
use attr_ids::{NoMemory, Sequence};
use ir_module::{CallPlaces, FuncPlaces};
use ir_token::Token;
use ir_tree::{Arg, Called, Fattr, Header, Leaf, Param, Rattr, Ty, Word};
use std::alloc::Global;

fn or_leaf(other: Leaf, leaf: Option<Leaf>) -> Leaf
    ensures { result ≡ spec.or_leaf other leaf }
{
    match leaf {
        Some(leaf) => leaf,
        None => other,
    }
}

/// The last token of an attribute.
fn fattr_last(attr: &Fattr) -> Leaf
    ensures { result ≡ spec.fattr_last attr.now }
{
    match attr {
        Fattr::Word(word) => *word,
        Fattr::Bracket { close, .. } => *close,
        Fattr::Str { key, value } => or_leaf(*key, *value),
    }
}

fn rattr_last(attr: &Rattr) -> Leaf
    ensures { result ≡ spec.rattr_last attr.now }
{
    match attr {
        Rattr::Align { bytes, .. } => *bytes,
        Rattr::AlignIn { close, .. } => *close,
        Rattr::Fattr(attr) => fattr_last(attr),
    }
}

fn word_last(word: &Word) -> Leaf
    ensures { result ≡ spec.word_last word.now }
{
    match word {
        Word::Fattr(attr) => fattr_last(attr),
        Word::Group(group) => *group,
    }
}

/// The last token of the last attribute, or the one that stands before them.
fn rattrs_last(before: Leaf, attrs: &[Rattr]) -> Leaf
    ensures { result ≡ spec.last_or spec.rattr_last before attrs.now }
{
    let mut last = before;
    for attr in attrs {
        last = rattr_last(attr);
    }
    last
}

/// The last token of the last attribute or group, or the one that stands before them.
fn words_last(before: Leaf, words: &[Word]) -> Leaf
    ensures { result ≡ spec.last_or spec.word_last before words.now }
{
    let mut last = before;
    for word in words {
        last = word_last(word);
    }
    last
}

/// The first token of a type.
#[tactic(auto, using(crate::proofs::Inners::type_equations))]
fn type_first(ty: &Ty) -> Leaf
    ensures { result ≡ spec.type_first ty.now }
{
    match ty {
        Ty::Void(at) | Ty::Int(at) | Ty::Ptr(at) | Ty::Named(at) => *at,
        Ty::Array { open, .. } => *open,
        Ty::Struct { open, .. } => *open,
        Ty::Packed { open, .. } => *open,
    }
}

fn next(leaf: Leaf) -> Leaf
    ensures { result ≡ spec.next leaf }
{
    leaf.saturating_add(1)
}

/// The last token of a type.
#[tactic(auto, using(crate::proofs::Inners::type_equations))]
fn type_last(ty: &Ty) -> Leaf
    ensures { result ≡ spec.type_last ty.now }
{
    match ty {
        Ty::Void(at) | Ty::Int(at) | Ty::Ptr(at) | Ty::Named(at) => *at,
        Ty::Array { elem, .. } => next(type_last(elem.get())),
        Ty::Struct { open, parts } => match parts.as_slice() {
            [.., part] => next(type_last(part)),
            [] => next(*open),
        },
        Ty::Packed { open, parts } => match parts.as_slice() {
            [.., part] => next(next(type_last(part))),
            [] => next(next(next(*open))),
        },
    }
}

/// The offset of words that are added to a parameter: behind its attributes, or its type.
pub fn param_place(toks: &[Token], param: &Param) -> u32
    ensures { result ≡ spec.param_place toks.now param.now }
{
    leaf_to(
        toks,
        rattrs_last(type_last(&param.ty), param.words.as_slice()),
    )
}

/// The offset of words that are added to an argument: behind its attributes, or its type.
pub fn arg_place(toks: &[Token], arg: &Arg) -> u32
    ensures { result ≡ spec.arg_place toks.now arg.now }
{
    leaf_to(toks, rattrs_last(type_last(&arg.ty), arg.words.as_slice()))
}

/// The offsets of words that are added to a header: before its return type; and behind its attributes, or else its
/// `unnamed_addr` or `local_unnamed_addr`, or else its closing parenthesis.
pub fn func_places(toks: &[Token], header: &Header) -> FuncPlaces
    ensures { result ≡ spec.func_places toks.now header.now }
{
    let before = or_leaf(header.close, header.unnamed);
    FuncPlaces {
        ret: leaf_from(toks, type_first(&header.result)),
        after: leaf_to(toks, words_last(before, header.attributes.as_slice())),
    }
}

fn arg_places(alloc: Global, toks: &[Token], args: &[Arg]) -> Result<Sequence<u32>, NoMemory>
    ensures { IfOk result (λ places. places ≡ map (spec.arg_place toks.now) args.now) }
{
    let mut places = Vec::new(alloc);
    for arg in args {
        places.push(arg_place(toks, arg))?;
    }
    Ok(Sequence::from_vec(places))
}

/// The offsets of words that are added to a call: before its return type; behind its attributes, or its closing
/// parenthesis; and at each argument.
pub fn call_places(alloc: Global, toks: &[Token], called: &Called) -> Result<CallPlaces, NoMemory>
    ensures { IfOk result (λ places. places ≡ spec.call_places toks.now called.now) }
{
    let args = arg_places(alloc, toks, called.arguments.args.as_slice())?;
    Ok(CallPlaces {
        ret: leaf_from(toks, type_first(&called.callee.result)),
        after: leaf_to(
            toks,
            words_last(
                called.arguments.close,
                called.arguments.attributes.as_slice(),
            ),
        ),
        args,
    })
}
