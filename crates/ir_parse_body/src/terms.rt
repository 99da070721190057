//! Terminators.
ghost use Rattle.std.specs.Prelude.{◌≡◌, ◌<◌, ◌≤◌, ◌^◌, Some, IfOk, IfSome, length};
ghost use Rattle.ir_tree.specs.declared.terminal.Terminal.TheVariants as k;
ghost use Rattle.ir_tree.specs.Steps.{Longest, many, the};
ghost use Rattle.ir_tree.specs.Instructions as production;
ghost use Rattle.ir_parse_body.specs.Terms as spec;

use attr_ids::NoMemory;
use ir_parse_parts::{the, tvalue, ty};
use ir_tree::{Case, Switch, Term, Terminal};
use sqlite_items::{Boxed, Items};
use std::alloc::Global;

/// `term`
pub(crate) fn term(
    alloc: Global,
    toks: &[Terminal],
    at: u32,
) -> Result<Option<(Term, u32)>, NoMemory>
    requires few { length toks.now < 2 ^ 32 }
    ensures { IfOk result (λ r. Longest (production.term toks.now) at r) }
{
    if let Some(next) = the(toks, Terminal::Ret, at) {
        return ret(alloc, toks, at, next);
    }
    if let Some(next) = the(toks, Terminal::Br, at) {
        return br(alloc, toks, at, next);
    }
    if let Some(next) = the(toks, Terminal::Switch, at) {
        return switch(alloc, toks, at, next);
    }
    if let Some(next) = the(toks, Terminal::Unreachable, at) {
        return Ok(Some((Term::Unreachable { op: at }, next)));
    }
    if let Some(next) = the(toks, Terminal::Resume, at) {
        return resume(alloc, toks, at, next);
    }
    Ok(None)
}

/// `'ret' 'void'` or `'ret' tvalue`, whose type is not void
fn ret(
    alloc: Global,
    toks: &[Terminal],
    start: u32,
    first: u32,
) -> Result<Option<(Term, u32)>, NoMemory>
    requires few { length toks.now < 2 ^ 32 }
    requires after { the toks.now k.Ret start ≡ Some first }
    ensures { IfOk result (λ r. Longest (production.term toks.now) start r) }
{
    if let Some(next) = the(toks, Terminal::Void, first) {
        return Ok(Some((Term::RetVoid { op: start }, next)));
    }
    let Some((of, next)) = tvalue(alloc, toks, first)? else {
        return Ok(None);
    };
    let of = Boxed::new(alloc, of)?;
    Ok(Some((Term::Ret { op: start, of }, next)))
}

/// `'br' 'label' Local` or `'br' tvalue ',' 'label' Local ',' 'label' Local`
fn br(
    alloc: Global,
    toks: &[Terminal],
    start: u32,
    first: u32,
) -> Result<Option<(Term, u32)>, NoMemory>
    requires few { length toks.now < 2 ^ 32 }
    requires after { the toks.now k.Br start ≡ Some first }
    ensures { IfOk result (λ r. Longest (production.term toks.now) start r) }
{
    if let Some((to, next)) = target(toks, first) {
        return Ok(Some((Term::Jump { op: start, to }, next)));
    }
    let Some((on, comma)) = tvalue(alloc, toks, first)? else {
        return Ok(None);
    };
    let on = Boxed::new(alloc, on)?;
    let Some(((yes, no), next)) = targets(toks, comma) else {
        return Ok(None);
    };
    Ok(Some((
        Term::Branch {
            op: start,
            on,
            yes,
            no,
        },
        next,
    )))
}

/// `'switch' tvalue ',' 'label' Local '[' case* ']'`
fn switch(
    alloc: Global,
    toks: &[Terminal],
    start: u32,
    first: u32,
) -> Result<Option<(Term, u32)>, NoMemory>
    requires few { length toks.now < 2 ^ 32 }
    requires after { the toks.now k.Switch start ≡ Some first }
    ensures { IfOk result (λ r. Longest (production.term toks.now) start r) }
{
    let Some((on, comma)) = tvalue(alloc, toks, first)? else {
        return Ok(None);
    };
    let Some((rest, next)) = table(alloc, toks, comma)? else {
        return Ok(None);
    };
    let (other, cases) = rest;
    let switch = Boxed::new(
        alloc,
        Switch {
            op: start,
            on,
            other,
            cases,
        },
    )?;
    Ok(Some((Term::Switch(switch), next)))
}

/// `'resume' tvalue`
fn resume(
    alloc: Global,
    toks: &[Terminal],
    start: u32,
    first: u32,
) -> Result<Option<(Term, u32)>, NoMemory>
    requires few { length toks.now < 2 ^ 32 }
    requires after { the toks.now k.Resume start ≡ Some first }
    ensures { IfOk result (λ r. Longest (production.term toks.now) start r) }
{
    let Some((of, next)) = tvalue(alloc, toks, first)? else {
        return Ok(None);
    };
    let of = Boxed::new(alloc, of)?;
    Ok(Some((Term::Resume { op: start, of }, next)))
}

/// `'label' Local`: the name, and the place behind it.
pub(crate) fn target(toks: &[Terminal], at: u32) -> Option<(u32, u32)>
    requires few { length toks.now < 2 ^ 32 }
    ensures { Longest (production.target toks.now) at result }
{
    let name = the(toks, Terminal::LabelWord, at)?;
    let next = the(toks, Terminal::Local, name)?;
    Some((name, next))
}

/// `',' 'label' Local ',' 'label' Local`
fn targets(toks: &[Terminal], at: u32) -> Option<((u32, u32), u32)>
    requires few { length toks.now < 2 ^ 32 }
    ensures { Longest (spec.targets toks.now) at result }
{
    let first = the(toks, Terminal::Comma, at)?;
    let Some((yes, comma)) = target(toks, first) else {
        return None;
    };
    let second = the(toks, Terminal::Comma, comma)?;
    let Some((no, next)) = target(toks, second) else {
        return None;
    };
    Some(((yes, no), next))
}

/// `',' 'label' Local '[' case* ']'`
fn table(
    alloc: Global,
    toks: &[Terminal],
    at: u32,
) -> Result<Option<((u32, Items<Case>), u32)>, NoMemory>
    requires few { length toks.now < 2 ^ 32 }
    ensures { IfOk result (λ r. Longest (spec.table toks.now) at r) }
{
    let Some(label) = the(toks, Terminal::Comma, at) else {
        return Ok(None);
    };
    let Some((other, bracket)) = target(toks, label) else {
        return Ok(None);
    };
    let Some(first) = the(toks, Terminal::LeftBracket, bracket) else {
        return Ok(None);
    };
    let (cases, close) = cases(alloc, toks, first)?;
    let Some(next) = the(toks, Terminal::RightBracket, close) else {
        return Ok(None);
    };
    Ok(Some(((other, cases), next)))
}

/// `case*`
fn cases(alloc: Global, toks: &[Terminal], at: u32) -> Result<(Items<Case>, u32), NoMemory>
    requires few { length toks.now < 2 ^ 32 }
    ensures { IfOk result (λ r. Longest (many (production.case toks.now)) at (Some r)) }
{
    let mut found = Items::new(alloc);
    let mut place = at;
    while let Some((case, next)) = case(alloc, toks, place)? {
        found.push(case)?;
        place = next;
    }
    Ok((found, place))
}

/// `case`
fn case(alloc: Global, toks: &[Terminal], at: u32) -> Result<Option<(Case, u32)>, NoMemory>
    requires few { length toks.now < 2 ^ 32 }
    ensures { IfOk result (λ r. Longest (production.case toks.now) at r) }
{
    let Some((ty, value)) = ty(alloc, toks, at)? else {
        return Ok(None);
    };
    let Some(comma) = the(toks, Terminal::Int, value) else {
        return Ok(None);
    };
    let Some(label) = the(toks, Terminal::Comma, comma) else {
        return Ok(None);
    };
    let Some((to, next)) = target(toks, label) else {
        return Ok(None);
    };
    Ok(Some((Case { ty, value, to }, next)))
}
