//! Calls.
ghost use Rattle.std.specs.Prelude.{◌≡◌, ◌<◌, ◌^◌, ◌++◌, List, Some, IfOk, length};
ghost use Rattle.ir_tree.specs.declared.instructions.Arg.{Arg};
ghost use Rattle.ir_tree.specs.Steps.{Longest, optional, many, next, separated};
ghost use Rattle.ir_tree.specs.Types as types;
ghost use Rattle.ir_tree.specs.Instructions as production;
ghost use Rattle.ir_parse_body.specs.Terms as spec;

use crate::terms::target;
use attr_ids::NoMemory;
use ir_parse_parts::{calling_convention, ftype, optional, rattrs, the, ty, value, words};
use ir_tree::{Arg, Arguments, Call, Called, Callee, Ftype, Invoke, Terminal};
use sqlite_items::Items;
use std::alloc::Global;

/// `['tail' | 'notail'] 'call' called`
pub(crate) fn call(
    alloc: Global,
    toks: &[Terminal],
    at: u32,
) -> Result<Option<(Call, u32)>, NoMemory>
    requires few { length toks.now < 2 ^ 32 }
    ensures { IfOk result (λ r. Longest (production.call toks.now) at r) }
{
    let (tail, op) = optional(toks, Terminal::Tail, at);
    let Some(first) = the(toks, Terminal::Call, op) else {
        return Ok(None);
    };
    let Some((called, next)) = called(alloc, toks, first)? else {
        return Ok(None);
    };
    Ok(Some((Call { tail, op, called }, next)))
}

/// `'invoke' called 'to' 'label' Local 'unwind' 'label' Local`
pub(crate) fn invoke(
    alloc: Global,
    toks: &[Terminal],
    at: u32,
) -> Result<Option<(Invoke, u32)>, NoMemory>
    requires few { length toks.now < 2 ^ 32 }
    ensures { IfOk result (λ r. Longest (production.invoke toks.now) at r) }
{
    let op = at;
    let Some(first) = the(toks, Terminal::Invoke, op) else {
        return Ok(None);
    };
    let Some((called, to)) = called(alloc, toks, first)? else {
        return Ok(None);
    };
    let Some(((normal, unwind), next)) = destinations(toks, to) else {
        return Ok(None);
    };
    Ok(Some((
        Invoke {
            op,
            called,
            normal,
            unwind,
        },
        next,
    )))
}

/// `callee arguments`
fn called(alloc: Global, toks: &[Terminal], at: u32) -> Result<Option<(Called, u32)>, NoMemory>
    requires few { length toks.now < 2 ^ 32 }
    ensures { IfOk result (λ r. Longest (production.called toks.now) at r) }
{
    let Some((callee, open)) = callee(alloc, toks, at)? else {
        return Ok(None);
    };
    let Some((arguments, next)) = arguments(alloc, toks, open)? else {
        return Ok(None);
    };
    Ok(Some((Called { callee, arguments }, next)))
}

/// `[cc] rattr* (type | ftype) value`
fn callee(alloc: Global, toks: &[Terminal], at: u32) -> Result<Option<(Callee, u32)>, NoMemory>
    requires few { length toks.now < 2 ^ 32 }
    ensures { IfOk result (λ r. Longest (production.callee toks.now) at r) }
{
    let (cc, first) = calling_convention(toks, at);
    let (result_words, kind) = rattrs(alloc, toks, first)?;
    let Some((result, behind)) = ty(alloc, toks, kind)? else {
        return Ok(None);
    };
    let (params, named) = parameters(alloc, toks, behind)?;
    let Some((value, next)) = value(alloc, toks, named)? else {
        return Ok(None);
    };
    Ok(Some((
        Callee {
            cc,
            result_words,
            result,
            params,
            value,
        },
        next,
    )))
}

/// `[ftype]`
fn parameters(alloc: Global, toks: &[Terminal], at: u32) -> Result<(Option<Ftype>, u32), NoMemory>
    requires few { length toks.now < 2 ^ 32 }
    ensures { IfOk result (λ r. Longest (optional (types.ftype toks.now)) at (Some r)) }
{
    match ftype(alloc, toks, at)? {
        Some((found, next)) => Ok((Some(found), next)),
        None => Ok((None, at)),
    }
}

/// `'(' arg,* ')' (fattr | Group)*`
fn arguments(
    alloc: Global,
    toks: &[Terminal],
    at: u32,
) -> Result<Option<(Arguments, u32)>, NoMemory>
    requires few { length toks.now < 2 ^ 32 }
    ensures { IfOk result (λ r. Longest (production.arguments toks.now) at r) }
{
    let Some(first) = the(toks, Terminal::LeftParen, at) else {
        return Ok(None);
    };
    let (args, close) = args(alloc, toks, first)?;
    let Some(behind) = the(toks, Terminal::RightParen, close) else {
        return Ok(None);
    };
    let (attributes, next) = words(alloc, toks, behind)?;
    Ok(Some((
        Arguments {
            args,
            close,
            attributes,
        },
        next,
    )))
}

/// `arg,*`
fn args(alloc: Global, toks: &[Terminal], at: u32) -> Result<(Items<Arg>, u32), NoMemory>
    requires few { length toks.now < 2 ^ 32 }
    ensures { IfOk result (λ r. Longest (separated toks.now (production.arg toks.now)) at (Some r)) }
{
    let mut found = Items::new(alloc);
    let Some((first, next)) = arg(alloc, toks, at)? else {
        return Ok((found, at));
    };
    found.push(first)?;
    more_args(alloc, toks, found, next)
}

/// `(',' arg)*`, behind the arguments that were found before.
fn more_args(
    alloc: Global,
    toks: &[Terminal],
    found: Items<Arg>,
    at: u32,
) -> Result<(Items<Arg>, u32), NoMemory>
    requires few { length toks.now < 2 ^ 32 }
    ensures { IfOk result (λ r. (ts : List Arg) × ((r.0 ≡ found ++ ts) × Longest (many (next toks.now (production.arg toks.now))) at (Some (ts, r.1)))) }
{
    let mut found = found;
    let mut place = at;
    while let Some((part, after)) = next_arg(alloc, toks, place)? {
        found.push(part)?;
        place = after;
    }
    Ok((found, place))
}

/// `',' arg`
fn next_arg(alloc: Global, toks: &[Terminal], at: u32) -> Result<Option<(Arg, u32)>, NoMemory>
    requires few { length toks.now < 2 ^ 32 }
    ensures { IfOk result (λ r. Longest (next toks.now (production.arg toks.now)) at r) }
{
    let Some(first) = the(toks, Terminal::Comma, at) else {
        return Ok(None);
    };
    arg(alloc, toks, first)
}

/// `arg`
fn arg(alloc: Global, toks: &[Terminal], at: u32) -> Result<Option<(Arg, u32)>, NoMemory>
    requires few { length toks.now < 2 ^ 32 }
    ensures { IfOk result (λ r. Longest (production.arg toks.now) at r) }
{
    let Some((kind, first)) = ty(alloc, toks, at)? else {
        return Ok(None);
    };
    let (words, behind) = rattrs(alloc, toks, first)?;
    let Some((value, next)) = value(alloc, toks, behind)? else {
        return Ok(None);
    };
    Ok(Some((
        Arg {
            ty: kind,
            words,
            value,
        },
        next,
    )))
}

/// `'to' 'label' Local 'unwind' 'label' Local`: the names of the two blocks.
fn destinations(toks: &[Terminal], at: u32) -> Option<((u32, u32), u32)>
    requires few { length toks.now < 2 ^ 32 }
    ensures { Longest (spec.destinations toks.now) at result }
{
    let first = the(toks, Terminal::To, at)?;
    let (normal, behind) = target(toks, first)?;
    let second = the(toks, Terminal::Unwind, behind)?;
    let (unwind, next) = target(toks, second)?;
    Some(((normal, unwind), next))
}
