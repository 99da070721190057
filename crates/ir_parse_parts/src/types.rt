//! Types.
ghost use Rattle.std.specs.Prelude.{◌≡◌, ◌<◌, ◌^◌, ◌++◌, List, Some, IfOk, length};
ghost use Rattle.ir_tree.specs.declared.types.Ty.{Ty};
ghost use Rattle.ir_tree.specs.declared.terminal.Terminal.TheVariants as k;
ghost use Rattle.ir_tree.specs.Steps.{Longest, the, leaf, many, optional, next, separated};
ghost use Rattle.ir_tree.specs.Types as production;

use crate::step::the;
use attr_ids::NoMemory;
use ir_tree::{Ftype, Terminal, Ty};
use sqlite_items::{Boxed, Items};
use std::alloc::Global;

/// `type`
#[cycle(types)]
pub fn ty(alloc: Global, toks: &[Terminal], at: u32) -> Result<Option<(Ty, u32)>, NoMemory>
    requires few { length toks.now < 2 ^ 32 }
    ensures { IfOk result (λ r. Longest (production.ty toks.now) at r) }
{
    if let Some(next) = the(toks, Terminal::Void, at) {
        return Ok(Some((Ty::Void(at), next)));
    }
    if let Some(next) = the(toks, Terminal::IntType, at) {
        return Ok(Some((Ty::Int(at), next)));
    }
    if let Some(next) = the(toks, Terminal::Ptr, at) {
        return Ok(Some((Ty::Ptr(at), next)));
    }
    if let Some(next) = the(toks, Terminal::Local, at) {
        return Ok(Some((Ty::Named(at), next)));
    }
    if let Some(count) = the(toks, Terminal::LeftBracket, at) {
        return array(alloc, toks, at, count);
    }
    if let Some(first) = the(toks, Terminal::LeftBrace, at) {
        return structure(alloc, toks, at, first);
    }
    if let Some(brace) = the(toks, Terminal::Less, at) {
        return packed(alloc, toks, at, brace);
    }
    Ok(None)
}

/// `'[' Int 'x' type ']'`
#[cycle(types)]
fn array(
    alloc: Global,
    toks: &[Terminal],
    start: u32,
    count: u32,
) -> Result<Option<(Ty, u32)>, NoMemory>
    requires few { length toks.now < 2 ^ 32 }
    requires after { the toks.now k.LeftBracket start ≡ Some count }
    ensures { IfOk result (λ r. Longest (production.ty toks.now) start r) }
{
    let Some(times) = the(toks, Terminal::Int, count) else {
        return Ok(None);
    };
    let Some(first) = the(toks, Terminal::Times, times) else {
        return Ok(None);
    };
    let Some((elem, close)) = ty(alloc, toks, first)? else {
        return Ok(None);
    };
    let elem = Boxed::new(alloc, elem)?;
    let Some(next) = the(toks, Terminal::RightBracket, close) else {
        return Ok(None);
    };
    Ok(Some((
        Ty::Array {
            open: start,
            count,
            elem,
        },
        next,
    )))
}

/// `'{' type,* '}'`
#[cycle(types)]
fn structure(
    alloc: Global,
    toks: &[Terminal],
    start: u32,
    first: u32,
) -> Result<Option<(Ty, u32)>, NoMemory>
    requires few { length toks.now < 2 ^ 32 }
    requires after { the toks.now k.LeftBrace start ≡ Some first }
    ensures { IfOk result (λ r. Longest (production.ty toks.now) start r) }
{
    let (parts, close) = types(alloc, toks, first)?;
    let Some(next) = the(toks, Terminal::RightBrace, close) else {
        return Ok(None);
    };
    Ok(Some((Ty::Struct { open: start, parts }, next)))
}

/// `'<' '{' type,* '}' '>'`
#[cycle(types)]
fn packed(
    alloc: Global,
    toks: &[Terminal],
    start: u32,
    brace: u32,
) -> Result<Option<(Ty, u32)>, NoMemory>
    requires few { length toks.now < 2 ^ 32 }
    requires after { the toks.now k.Less start ≡ Some brace }
    ensures { IfOk result (λ r. Longest (production.ty toks.now) start r) }
{
    let Some(first) = the(toks, Terminal::LeftBrace, brace) else {
        return Ok(None);
    };
    let (parts, close) = types(alloc, toks, first)?;
    let Some(greater) = the(toks, Terminal::RightBrace, close) else {
        return Ok(None);
    };
    let Some(next) = the(toks, Terminal::Greater, greater) else {
        return Ok(None);
    };
    Ok(Some((Ty::Packed { open: start, parts }, next)))
}

/// `type,*`
#[cycle(types)]
fn types(alloc: Global, toks: &[Terminal], at: u32) -> Result<(Items<Ty>, u32), NoMemory>
    requires few { length toks.now < 2 ^ 32 }
    ensures { IfOk result (λ r. Longest (separated toks.now (production.ty toks.now)) at (Some r)) }
{
    let mut found = Items::new(alloc);
    let Some((first, next)) = ty(alloc, toks, at)? else {
        return Ok((found, at));
    };
    found.push(first)?;
    more_types(alloc, toks, found, next)
}

/// `(',' type)*`, behind the types that were found before.
#[cycle(types)]
fn more_types(
    alloc: Global,
    toks: &[Terminal],
    found: Items<Ty>,
    at: u32,
) -> Result<(Items<Ty>, u32), NoMemory>
    requires few { length toks.now < 2 ^ 32 }
    ensures { IfOk result (λ r. (ts : List Ty) × ((r.0 ≡ found ++ ts) × Longest (many (next toks.now (production.ty toks.now))) at (Some (ts, r.1)))) }
{
    let mut found = found;
    let mut place = at;
    while let Some((part, after)) = next_type(alloc, toks, place)? {
        found.push(part)?;
        place = after;
    }
    Ok((found, place))
}

/// `',' type`
#[cycle(types)]
fn next_type(alloc: Global, toks: &[Terminal], at: u32) -> Result<Option<(Ty, u32)>, NoMemory>
    requires few { length toks.now < 2 ^ 32 }
    ensures { IfOk result (λ r. Longest (next toks.now (production.ty toks.now)) at r) }
{
    let Some(first) = the(toks, Terminal::Comma, at) else {
        return Ok(None);
    };
    ty(alloc, toks, first)
}

/// `[',' '...']`
pub fn trailing_dots(toks: &[Terminal], at: u32) -> (Option<u32>, u32)
    requires few { length toks.now < 2 ^ 32 }
    ensures { Longest (optional (next toks.now (leaf toks.now k.Dots))) at (Some result) }
{
    let Some(dots) = the(toks, Terminal::Comma, at) else {
        return (None, at);
    };
    match the(toks, Terminal::Dots, dots) {
        Some(next) => (Some(dots), next),
        None => (None, at),
    }
}

/// `[ '...' | type (',' type)* [',' '...'] ]`
fn parameter_types(alloc: Global, toks: &[Terminal], at: u32) -> Result<(Ftype, u32), NoMemory>
    requires few { length toks.now < 2 ^ 32 }
    ensures { IfOk result (λ r. Longest (production.types toks.now) at (Some r)) }
{
    if let Some(next) = the(toks, Terminal::Dots, at) {
        return Ok((Ftype::Dots(at), next));
    }
    let Some((first, rest)) = ty(alloc, toks, at)? else {
        return Ok((Ftype::Empty, at));
    };
    let mut found = Items::new(alloc);
    found.push(first)?;
    let (types, behind) = more_types(alloc, toks, found, rest)?;
    let (dots, next) = trailing_dots(toks, behind);
    Ok((Ftype::Listed { types, dots }, next))
}

/// `'(' [ '...' | type (',' type)* [',' '...'] ] ')'`
pub fn ftype(alloc: Global, toks: &[Terminal], at: u32) -> Result<Option<(Ftype, u32)>, NoMemory>
    requires few { length toks.now < 2 ^ 32 }
    ensures { IfOk result (λ r. Longest (production.ftype toks.now) at r) }
{
    let Some(first) = the(toks, Terminal::LeftParen, at) else {
        return Ok(None);
    };
    let (parameters, close) = parameter_types(alloc, toks, first)?;
    match the(toks, Terminal::RightParen, close) {
        Some(next) => Ok(Some((parameters, next))),
        None => Ok(None),
    }
}
