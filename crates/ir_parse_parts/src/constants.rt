//! Constants.
ghost use Rattle.std.specs.Prelude.{◌≡◌, ◌<◌, ◌^◌, ◌++◌, List, Some, None, IfOk, IfSome, length};
ghost use Rattle.ir_tree.specs.declared.constants.Tconst.{Tconst};
ghost use Rattle.ir_tree.specs.declared.terminal.Terminal.TheVariants as k;
ghost use Rattle.ir_tree.specs.Steps.{Longest, the, many, some, next, separated};
ghost use Rattle.ir_tree.specs.Constants as production;
ghost use Rattle.ir_parse_parts.specs.Parts.{any_of, constant_words};

use crate::flags::{gepflags, iflags};
use crate::step::the;
use crate::types::ty;
use attr_ids::NoMemory;
use ir_tree::{Const, Tconst, Terminal};
use sqlite_items::{Boxed, Items};
use std::alloc::Global;

/// `const`, where it is one token.
fn leaf_constant(toks: &[Terminal], at: u32) -> Option<(Const, u32)>
    requires few { length toks.now < 2 ^ 32 }
    ensures some { IfSome result (λ r. Longest (production.const toks.now) at (Some r)) }
    ensures none { result ≡ None → None ≡ any_of toks.now constant_words at }
{
    if let Some(next) = the(toks, Terminal::Int, at) {
        return Some((Const::Int(at), next));
    }
    if let Some(next) = the(toks, Terminal::True, at) {
        return Some((Const::True(at), next));
    }
    if let Some(next) = the(toks, Terminal::False, at) {
        return Some((Const::False(at), next));
    }
    if let Some(next) = the(toks, Terminal::Null, at) {
        return Some((Const::Null(at), next));
    }
    if let Some(next) = the(toks, Terminal::Undef, at) {
        return Some((Const::Undef(at), next));
    }
    if let Some(next) = the(toks, Terminal::Poison, at) {
        return Some((Const::Poison(at), next));
    }
    if let Some(next) = the(toks, Terminal::Zero, at) {
        return Some((Const::Zero(at), next));
    }
    if let Some(next) = the(toks, Terminal::Global, at) {
        return Some((Const::Global(at), next));
    }
    if let Some(next) = the(toks, Terminal::CStr, at) {
        return Some((Const::CStr(at), next));
    }
    None
}

/// `const`
#[cycle(constants)]
pub fn constant(alloc: Global, toks: &[Terminal], at: u32) -> Result<Option<(Const, u32)>, NoMemory>
    requires few { length toks.now < 2 ^ 32 }
    ensures { IfOk result (λ r. Longest (production.const toks.now) at r) }
{
    if let Some(found) = leaf_constant(toks, at) {
        return Ok(Some(found));
    }
    compound(alloc, toks, at)
}

/// `const`, where it is more than one token.
#[cycle(constants)]
fn compound(alloc: Global, toks: &[Terminal], at: u32) -> Result<Option<(Const, u32)>, NoMemory>
    requires few { length toks.now < 2 ^ 32 }
    requires none { None ≡ any_of toks.now constant_words at }
    ensures { IfOk result (λ r. Longest (production.const toks.now) at r) }
{
    if let Some(first) = the(toks, Terminal::LeftBracket, at) {
        return array(alloc, toks, at, first);
    }
    if let Some(first) = the(toks, Terminal::LeftBrace, at) {
        return structure(alloc, toks, at, first);
    }
    if let Some(first) = the(toks, Terminal::Less, at) {
        return packed(alloc, toks, at, first);
    }
    if let Some(first) = the(toks, Terminal::GetElementPtr, at) {
        return getelementptr(alloc, toks, at, first);
    }
    if let Some(first) = the(toks, Terminal::ConstCast, at) {
        return cast(alloc, toks, at, first);
    }
    if let Some(first) = the(toks, Terminal::ConstBinop, at) {
        return binop(alloc, toks, at, first);
    }
    Ok(None)
}

/// `'[' tconst,* ']'`
#[cycle(constants)]
fn array(
    alloc: Global,
    toks: &[Terminal],
    start: u32,
    first: u32,
) -> Result<Option<(Const, u32)>, NoMemory>
    requires few { length toks.now < 2 ^ 32 }
    requires after { the toks.now k.LeftBracket start ≡ Some first }
    ensures { IfOk result (λ r. Longest (production.const toks.now) start r) }
{
    let (parts, close) = tconsts(alloc, toks, first)?;
    let Some(next) = the(toks, Terminal::RightBracket, close) else {
        return Ok(None);
    };
    Ok(Some((Const::Array { open: start, parts }, next)))
}

/// `'{' tconst,* '}'`
#[cycle(constants)]
fn structure(
    alloc: Global,
    toks: &[Terminal],
    start: u32,
    first: u32,
) -> Result<Option<(Const, u32)>, NoMemory>
    requires few { length toks.now < 2 ^ 32 }
    requires after { the toks.now k.LeftBrace start ≡ Some first }
    ensures { IfOk result (λ r. Longest (production.const toks.now) start r) }
{
    let (parts, close) = tconsts(alloc, toks, first)?;
    let Some(next) = the(toks, Terminal::RightBrace, close) else {
        return Ok(None);
    };
    Ok(Some((Const::Struct { open: start, parts }, next)))
}

/// `'<' '{' tconst,* '}' '>'`
#[cycle(constants)]
fn packed(
    alloc: Global,
    toks: &[Terminal],
    start: u32,
    first: u32,
) -> Result<Option<(Const, u32)>, NoMemory>
    requires few { length toks.now < 2 ^ 32 }
    requires after { the toks.now k.Less start ≡ Some first }
    ensures { IfOk result (λ r. Longest (production.const toks.now) start r) }
{
    let Some(inner) = the(toks, Terminal::LeftBrace, first) else {
        return Ok(None);
    };
    let (parts, close) = tconsts(alloc, toks, inner)?;
    let Some(greater) = the(toks, Terminal::RightBrace, close) else {
        return Ok(None);
    };
    let Some(next) = the(toks, Terminal::Greater, greater) else {
        return Ok(None);
    };
    Ok(Some((Const::Packed { open: start, parts }, next)))
}

/// `'getelementptr' gepflag* '(' type (',' tconst)+ ')'`
#[cycle(constants)]
fn getelementptr(
    alloc: Global,
    toks: &[Terminal],
    start: u32,
    first: u32,
) -> Result<Option<(Const, u32)>, NoMemory>
    requires few { length toks.now < 2 ^ 32 }
    requires after { the toks.now k.GetElementPtr start ≡ Some first }
    ensures { IfOk result (λ r. Longest (production.const toks.now) start r) }
{
    let (flags, paren) = gepflags(alloc, toks, first)?;
    let Some(inner) = the(toks, Terminal::LeftParen, paren) else {
        return Ok(None);
    };
    let Some((elem, comma)) = ty(alloc, toks, inner)? else {
        return Ok(None);
    };
    let elem = Boxed::new(alloc, elem)?;
    let Some((operands, close)) = operands(alloc, toks, comma)? else {
        return Ok(None);
    };
    let Some(next) = the(toks, Terminal::RightParen, close) else {
        return Ok(None);
    };
    Ok(Some((
        Const::GetElementPtr {
            op: start,
            flags,
            elem,
            operands,
        },
        next,
    )))
}

/// `('ptrtoint' | 'trunc') '(' tconst 'to' type ')'`
#[cycle(constants)]
fn cast(
    alloc: Global,
    toks: &[Terminal],
    start: u32,
    first: u32,
) -> Result<Option<(Const, u32)>, NoMemory>
    requires few { length toks.now < 2 ^ 32 }
    requires after { the toks.now k.ConstCast start ≡ Some first }
    ensures { IfOk result (λ r. Longest (production.const toks.now) start r) }
{
    let Some(inner) = the(toks, Terminal::LeftParen, first) else {
        return Ok(None);
    };
    let Some((of, word)) = tconst(alloc, toks, inner)? else {
        return Ok(None);
    };
    let of = Boxed::new(alloc, of)?;
    let Some(target) = the(toks, Terminal::To, word) else {
        return Ok(None);
    };
    let Some((to, close)) = ty(alloc, toks, target)? else {
        return Ok(None);
    };
    let to = Boxed::new(alloc, to)?;
    let Some(next) = the(toks, Terminal::RightParen, close) else {
        return Ok(None);
    };
    Ok(Some((Const::Cast { op: start, of, to }, next)))
}

/// `('add' | 'sub' | 'xor') iflag* '(' tconst ',' tconst ')'`
#[cycle(constants)]
fn binop(
    alloc: Global,
    toks: &[Terminal],
    start: u32,
    first: u32,
) -> Result<Option<(Const, u32)>, NoMemory>
    requires few { length toks.now < 2 ^ 32 }
    requires after { the toks.now k.ConstBinop start ≡ Some first }
    ensures { IfOk result (λ r. Longest (production.const toks.now) start r) }
{
    let (flags, paren) = iflags(alloc, toks, first)?;
    let Some(inner) = the(toks, Terminal::LeftParen, paren) else {
        return Ok(None);
    };
    let Some((left, comma)) = tconst(alloc, toks, inner)? else {
        return Ok(None);
    };
    let left = Boxed::new(alloc, left)?;
    let Some(second) = the(toks, Terminal::Comma, comma) else {
        return Ok(None);
    };
    let Some((right, close)) = tconst(alloc, toks, second)? else {
        return Ok(None);
    };
    let right = Boxed::new(alloc, right)?;
    let Some(next) = the(toks, Terminal::RightParen, close) else {
        return Ok(None);
    };
    Ok(Some((
        Const::Binop {
            op: start,
            flags,
            left,
            right,
        },
        next,
    )))
}

/// `tconst`
#[cycle(constants)]
pub fn tconst(alloc: Global, toks: &[Terminal], at: u32) -> Result<Option<(Tconst, u32)>, NoMemory>
    requires few { length toks.now < 2 ^ 32 }
    ensures { IfOk result (λ r. Longest (production.tconst toks.now) at r) }
{
    let Some((ty, after)) = ty(alloc, toks, at)? else {
        return Ok(None);
    };
    let Some((value, next)) = constant(alloc, toks, after)? else {
        return Ok(None);
    };
    Ok(Some((Tconst { ty, value }, next)))
}

/// `tconst,*`
#[cycle(constants)]
fn tconsts(alloc: Global, toks: &[Terminal], at: u32) -> Result<(Items<Tconst>, u32), NoMemory>
    requires few { length toks.now < 2 ^ 32 }
    ensures { IfOk result (λ r. Longest (separated toks.now (production.tconst toks.now)) at (Some r)) }
{
    let mut found = Items::new(alloc);
    let Some((first, next)) = tconst(alloc, toks, at)? else {
        return Ok((found, at));
    };
    found.push(first)?;
    more_tconsts(alloc, toks, found, next)
}

/// `(',' tconst)+`
#[cycle(constants)]
fn operands(
    alloc: Global,
    toks: &[Terminal],
    at: u32,
) -> Result<Option<(Items<Tconst>, u32)>, NoMemory>
    requires few { length toks.now < 2 ^ 32 }
    ensures { IfOk result (λ r. Longest (some (next toks.now (production.tconst toks.now))) at r) }
{
    let Some((first, next)) = next_tconst(alloc, toks, at)? else {
        return Ok(None);
    };
    let mut found = Items::new(alloc);
    found.push(first)?;
    let (all, end) = more_tconsts(alloc, toks, found, next)?;
    Ok(Some((all, end)))
}

/// `(',' tconst)*`, behind the constants that were found before.
#[cycle(constants)]
fn more_tconsts(
    alloc: Global,
    toks: &[Terminal],
    found: Items<Tconst>,
    at: u32,
) -> Result<(Items<Tconst>, u32), NoMemory>
    requires few { length toks.now < 2 ^ 32 }
    ensures { IfOk result (λ r. (ts : List Tconst) × ((r.0 ≡ found ++ ts) × Longest (many (next toks.now (production.tconst toks.now))) at (Some (ts, r.1)))) }
{
    let mut found = found;
    let mut place = at;
    while let Some((part, after)) = next_tconst(alloc, toks, place)? {
        found.push(part)?;
        place = after;
    }
    Ok((found, place))
}

/// `',' tconst`
#[cycle(constants)]
fn next_tconst(alloc: Global, toks: &[Terminal], at: u32) -> Result<Option<(Tconst, u32)>, NoMemory>
    requires few { length toks.now < 2 ^ 32 }
    ensures { IfOk result (λ r. Longest (next toks.now (production.tconst toks.now)) at r) }
{
    let Some(first) = the(toks, Terminal::Comma, at) else {
        return Ok(None);
    };
    tconst(alloc, toks, first)
}
