//! Headers of functions.
ghost use Rattle.std.specs.Prelude.{◌≡◌, ◌<◌, ◌^◌, ◌++◌, List, Some, IfOk, length};
ghost use Rattle.ir_tree.specs.declared.headers.Param.{Param};
ghost use Rattle.ir_tree.specs.Steps.{Longest, many, next};
ghost use Rattle.ir_tree.specs.Headers as production;
ghost use Rattle.ir_parse_top.specs.Parts as spec;

use crate::globals::leaf_pair;
use attr_ids::NoMemory;
use ir_parse_parts::{
    attach, calling_convention, comdat, leaves, optional, rattrs, tconst, the, trailing_dots, ty,
    words,
};
use ir_tree::{Cc, Ftail, Header, Leaf, Param, Params, Rattr, Tconst, Terminal, Ty, Word};
use sqlite_items::Items;
use std::alloc::Global;

/// What stands before the name: `[linkage] hword* [cc] rattr* type`.
#[derive(Drop)]
struct Opening {
    linkage: Option<Leaf>,
    words: Items<Leaf>,
    cc: Option<Cc>,
    result_words: Items<Rattr>,
    result: Ty,
}

/// The name and the parameters: `Global '(' params ')'`.
#[derive(Drop)]
struct Signature {
    name: Leaf,
    params: Params,
    /// The closing parenthesis.
    close: Leaf,
}

/// What stands behind the parameters: `[unnamed] (fattr | Group)* ftail*`.
#[derive(Drop)]
struct Ending {
    unnamed: Option<Leaf>,
    attributes: Items<Word>,
    tails: Items<Ftail>,
}

/// `header`
pub(crate) fn header(
    alloc: Global,
    toks: &[Terminal],
    at: u32,
) -> Result<Option<(Header, u32)>, NoMemory>
    requires few { length toks.now < 2 ^ 32 }
    ensures { IfOk result (λ r. Longest (production.header toks.now) at r) }
{
    let Some((opening, name)) = before_name(alloc, toks, at)? else {
        return Ok(None);
    };
    let Some((signature, behind)) = named_params(alloc, toks, name)? else {
        return Ok(None);
    };
    let (ending, next) = behind_params(alloc, toks, behind)?;
    Ok(Some((
        Header {
            linkage: opening.linkage,
            words: opening.words,
            cc: opening.cc,
            result_words: opening.result_words,
            result: opening.result,
            name: signature.name,
            params: signature.params,
            close: signature.close,
            unnamed: ending.unnamed,
            attributes: ending.attributes,
            tails: ending.tails,
        },
        next,
    )))
}

/// `[linkage] hword* [cc] rattr* type`
fn before_name(
    alloc: Global,
    toks: &[Terminal],
    at: u32,
) -> Result<Option<(Opening, u32)>, NoMemory>
    requires few { length toks.now < 2 ^ 32 }
    ensures { IfOk result (λ r. Longest (spec.before_name toks.now) at r) }
{
    let (linkage, first) = optional(toks, Terminal::Linkage, at);
    let (words, convention) = leaves(alloc, toks, Terminal::Hword, first)?;
    let (cc, attributes) = calling_convention(toks, convention);
    let (result_words, kind) = rattrs(alloc, toks, attributes)?;
    let Some((result, next)) = ty(alloc, toks, kind)? else {
        return Ok(None);
    };
    Ok(Some((
        Opening {
            linkage,
            words,
            cc,
            result_words,
            result,
        },
        next,
    )))
}

/// `Global '(' params ')'`
fn named_params(
    alloc: Global,
    toks: &[Terminal],
    at: u32,
) -> Result<Option<(Signature, u32)>, NoMemory>
    requires few { length toks.now < 2 ^ 32 }
    ensures { IfOk result (λ r. Longest (spec.named_params toks.now) at r) }
{
    let name = at;
    let Some(open) = the(toks, Terminal::Global, name) else {
        return Ok(None);
    };
    let Some(first) = the(toks, Terminal::LeftParen, open) else {
        return Ok(None);
    };
    let (params, close) = params(alloc, toks, first)?;
    let Some(next) = the(toks, Terminal::RightParen, close) else {
        return Ok(None);
    };
    Ok(Some((
        Signature {
            name,
            params,
            close,
        },
        next,
    )))
}

/// `params`
fn params(alloc: Global, toks: &[Terminal], at: u32) -> Result<(Params, u32), NoMemory>
    requires few { length toks.now < 2 ^ 32 }
    ensures { IfOk result (λ r. Longest (production.params toks.now) at (Some r)) }
{
    if let Some(next) = the(toks, Terminal::Dots, at) {
        return Ok((Params::Dots(at), next));
    }
    let Some((first, rest)) = param(alloc, toks, at)? else {
        return Ok((Params::Empty, at));
    };
    let mut found = Items::new(alloc);
    found.push(first)?;
    let (params, behind) = more_params(alloc, toks, found, rest)?;
    let (dots, next) = trailing_dots(toks, behind);
    Ok((Params::Listed { params, dots }, next))
}

/// `(',' param)*`, behind the parameters that were found before.
fn more_params(
    alloc: Global,
    toks: &[Terminal],
    found: Items<Param>,
    at: u32,
) -> Result<(Items<Param>, u32), NoMemory>
    requires few { length toks.now < 2 ^ 32 }
    ensures { IfOk result (λ r. (ts : List Param) × ((r.0 ≡ found ++ ts) × Longest (many (next toks.now (production.param toks.now))) at (Some (ts, r.1)))) }
{
    let mut found = found;
    let mut place = at;
    while let Some((part, after)) = next_param(alloc, toks, place)? {
        found.push(part)?;
        place = after;
    }
    Ok((found, place))
}

/// `',' param`
fn next_param(alloc: Global, toks: &[Terminal], at: u32) -> Result<Option<(Param, u32)>, NoMemory>
    requires few { length toks.now < 2 ^ 32 }
    ensures { IfOk result (λ r. Longest (next toks.now (production.param toks.now)) at r) }
{
    let Some(first) = the(toks, Terminal::Comma, at) else {
        return Ok(None);
    };
    param(alloc, toks, first)
}

/// `param`
fn param(alloc: Global, toks: &[Terminal], at: u32) -> Result<Option<(Param, u32)>, NoMemory>
    requires few { length toks.now < 2 ^ 32 }
    ensures { IfOk result (λ r. Longest (production.param toks.now) at r) }
{
    let Some((kind, first)) = ty(alloc, toks, at)? else {
        return Ok(None);
    };
    let (words, behind) = rattrs(alloc, toks, first)?;
    let (name, next) = optional(toks, Terminal::Local, behind);
    Ok(Some((
        Param {
            ty: kind,
            words,
            name,
        },
        next,
    )))
}

/// `[unnamed] (fattr | Group)* ftail*`
fn behind_params(alloc: Global, toks: &[Terminal], at: u32) -> Result<(Ending, u32), NoMemory>
    requires few { length toks.now < 2 ^ 32 }
    ensures { IfOk result (λ r. Longest (spec.behind_params toks.now) at (Some r)) }
{
    let (unnamed, first) = optional(toks, Terminal::Unnamed, at);
    let (attributes, behind) = words(alloc, toks, first)?;
    let (tails, next) = ftails(alloc, toks, behind)?;
    Ok((
        Ending {
            unnamed,
            attributes,
            tails,
        },
        next,
    ))
}

/// `ftail*`
fn ftails(alloc: Global, toks: &[Terminal], at: u32) -> Result<(Items<Ftail>, u32), NoMemory>
    requires few { length toks.now < 2 ^ 32 }
    ensures { IfOk result (λ r. Longest (many (production.ftail toks.now)) at (Some r)) }
{
    let mut found = Items::new(alloc);
    let mut place = at;
    while let Some((tail, next)) = ftail(alloc, toks, place)? {
        found.push(tail)?;
        place = next;
    }
    Ok((found, place))
}

/// `ftail`
fn ftail(alloc: Global, toks: &[Terminal], at: u32) -> Result<Option<(Ftail, u32)>, NoMemory>
    requires few { length toks.now < 2 ^ 32 }
    ensures { IfOk result (λ r. Longest (production.ftail toks.now) at r) }
{
    if let Some(((word, name), next)) = leaf_pair(toks, Terminal::Section, Terminal::Str, at) {
        return Ok(Some((Ftail::Section { word, name }, next)));
    }
    if let Some(((word, name), next)) = leaf_pair(toks, Terminal::Partition, Terminal::Str, at) {
        return Ok(Some((Ftail::Partition { word, name }, next)));
    }
    if let Some(((word, name), next)) = leaf_pair(toks, Terminal::Gc, Terminal::Str, at) {
        return Ok(Some((Ftail::Gc { word, name }, next)));
    }
    if let Some(((word, bytes), next)) = leaf_pair(toks, Terminal::Align, Terminal::Int, at) {
        return Ok(Some((Ftail::Align { word, bytes }, next)));
    }
    if let Some((found, next)) = comdat(toks, at) {
        return Ok(Some((Ftail::Comdat(found), next)));
    }
    if let Some((found, next)) = attach(toks, at) {
        return Ok(Some((Ftail::Attach(found), next)));
    }
    let Some((tail, next)) = extra(alloc, toks, at)? else {
        return Ok(None);
    };
    let (word, value) = tail;
    Ok(Some((Ftail::Extra { word, value }, next)))
}

/// `('prefix' | 'prologue' | 'personality') tconst`
fn extra(
    alloc: Global,
    toks: &[Terminal],
    at: u32,
) -> Result<Option<((Leaf, Tconst), u32)>, NoMemory>
    requires few { length toks.now < 2 ^ 32 }
    ensures { IfOk result (λ r. Longest (spec.extra toks.now) at r) }
{
    let word = at;
    let Some(first) = the(toks, Terminal::Extra, word) else {
        return Ok(None);
    };
    let Some((value, next)) = tconst(alloc, toks, first)? else {
        return Ok(None);
    };
    Ok(Some(((word, value), next)))
}
