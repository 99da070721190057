//! Blocks, and the body of a function.
ghost use Rattle.std.specs.Prelude.{◌<◌, ◌^◌, None, Some, IfOk, length};
ghost use Rattle.ir_tree.specs.Steps.{Longest, many};
ghost use Rattle.ir_tree.specs.Instructions.{term};
ghost use Rattle.ir_tree.specs.Blocks as production;
ghost use Rattle.ir_parse_body.specs.Blocks as spec;

use crate::calls::invoke;
use crate::instructions::instr;
use crate::terms::term;
use attr_ids::NoMemory;
use ir_parse_parts::{attachments, leaves, optional, the};
use ir_tree::{Attach, Block, Body, First, Last, Line, Terminal};
use sqlite_items::{Boxed, Items};
use std::alloc::Global;

/// `first block*`
pub fn body(alloc: Global, toks: &[Terminal], at: u32) -> Result<Option<(Body, u32)>, NoMemory>
    requires few { length toks.now < 2 ^ 32 }
    ensures { IfOk result (λ r. Longest (production.body toks.now) at r) }
{
    let Some((first, place)) = first(alloc, toks, at)? else {
        return Ok(None);
    };
    let (others, next) = blocks(alloc, toks, place)?;
    Ok(Some((
        Body {
            first,
            blocks: others,
        },
        next,
    )))
}

/// `block*`
fn blocks(alloc: Global, toks: &[Terminal], at: u32) -> Result<(Items<Block>, u32), NoMemory>
    requires few { length toks.now < 2 ^ 32 }
    ensures { IfOk result (λ r. Longest (many (production.block toks.now)) at (Some r)) }
{
    let mut found = Items::new(alloc);
    let mut place = at;
    while let Some((block, next)) = block(alloc, toks, place)? {
        found.push(block)?;
        place = next;
    }
    Ok((found, place))
}

/// `first`
fn first(alloc: Global, toks: &[Terminal], at: u32) -> Result<Option<(First, u32)>, NoMemory>
    requires few { length toks.now < 2 ^ 32 }
    ensures { IfOk result (λ r. Longest (production.first toks.now) at r) }
{
    let (label, place) = optional(toks, Terminal::Label, at);
    let Some((inside, next)) = inside(alloc, toks, place)? else {
        return Ok(None);
    };
    let (lines, last) = inside;
    Ok(Some((First { label, lines, last }, next)))
}

/// `block`
fn block(alloc: Global, toks: &[Terminal], at: u32) -> Result<Option<(Block, u32)>, NoMemory>
    requires few { length toks.now < 2 ^ 32 }
    ensures { IfOk result (λ r. Longest (production.block toks.now) at r) }
{
    let label = at;
    let Some(place) = the(toks, Terminal::Label, label) else {
        return Ok(None);
    };
    let Some((inside, next)) = inside(alloc, toks, place)? else {
        return Ok(None);
    };
    let (lines, last) = inside;
    Ok(Some((Block { label, lines, last }, next)))
}

/// `line* last`
fn inside(
    alloc: Global,
    toks: &[Terminal],
    at: u32,
) -> Result<Option<((Items<Line>, Last), u32)>, NoMemory>
    requires few { length toks.now < 2 ^ 32 }
    ensures { IfOk result (λ r. Longest (spec.inside toks.now) at r) }
{
    let (lines, end) = lines(alloc, toks, at)?;
    let Some((last, next)) = last(alloc, toks, end)? else {
        return Ok(None);
    };
    Ok(Some(((lines, last), next)))
}

/// `line*`
fn lines(alloc: Global, toks: &[Terminal], at: u32) -> Result<(Items<Line>, u32), NoMemory>
    requires few { length toks.now < 2 ^ 32 }
    ensures { IfOk result (λ r. Longest (many (production.line toks.now)) at (Some r)) }
{
    let mut found = Items::new(alloc);
    let mut place = at;
    while let Some((line, next)) = line(alloc, toks, place)? {
        found.push(line)?;
        place = next;
    }
    Ok((found, place))
}

/// `line`
fn line(alloc: Global, toks: &[Terminal], at: u32) -> Result<Option<(Line, u32)>, NoMemory>
    requires few { length toks.now < 2 ^ 32 }
    ensures { IfOk result (λ r. Longest (production.line toks.now) at r) }
{
    if let Some(next) = the(toks, Terminal::Opaque, at) {
        return Ok(Some((Line::Opaque(at), next)));
    }
    let (result, start) = result(toks, at);
    let Some((instr, end)) = instr(alloc, toks, start)? else {
        return Ok(None);
    };
    let instr = Boxed::new(alloc, instr)?;
    let (attached, next) = attachments(alloc, toks, end)?;
    Ok(Some((
        Line::Instr {
            result,
            instr,
            attached,
        },
        next,
    )))
}

/// `last`
fn last(alloc: Global, toks: &[Terminal], at: u32) -> Result<Option<(Last, u32)>, NoMemory>
    requires few { length toks.now < 2 ^ 32 }
    ensures { IfOk result (λ r. Longest (production.last toks.now) at r) }
{
    let Some((term, end)) = term(alloc, toks, at)? else {
        return last_invoke(alloc, toks, at);
    };
    let ((attached, after), next) = behind(alloc, toks, end)?;
    Ok(Some((
        Last::Term {
            term,
            attached,
            after,
        },
        next,
    )))
}

/// `[Local '='] invoke (',' attach)* Opaque*`
fn last_invoke(alloc: Global, toks: &[Terminal], at: u32) -> Result<Option<(Last, u32)>, NoMemory>
    requires few { length toks.now < 2 ^ 32 }
    requires no_term { Longest (term toks.now) at None }
    ensures { IfOk result (λ r. Longest (production.last toks.now) at r) }
{
    let (result, start) = result(toks, at);
    let Some((invoke, end)) = invoke(alloc, toks, start)? else {
        return Ok(None);
    };
    let invoke = Boxed::new(alloc, invoke)?;
    let ((attached, after), next) = behind(alloc, toks, end)?;
    Ok(Some((
        Last::Invoke {
            result,
            invoke,
            attached,
            after,
        },
        next,
    )))
}

/// `(',' attach)* Opaque*`
fn behind(
    alloc: Global,
    toks: &[Terminal],
    at: u32,
) -> Result<((Items<Attach>, Items<u32>), u32), NoMemory>
    requires few { length toks.now < 2 ^ 32 }
    ensures { IfOk result (λ r. Longest (spec.behind toks.now) at (Some r)) }
{
    let (attached, place) = attachments(alloc, toks, at)?;
    let (after, next) = leaves(alloc, toks, Terminal::Opaque, place)?;
    Ok(((attached, after), next))
}

/// `[Local '=']`
fn result(toks: &[Terminal], at: u32) -> (Option<u32>, u32)
    requires few { length toks.now < 2 ^ 32 }
    ensures { Longest (production.result toks.now) at (Some result) }
{
    match named(toks, at) {
        Some((name, next)) => (Some(name), next),
        None => (None, at),
    }
}

/// `Local '='`
fn named(toks: &[Terminal], at: u32) -> Option<(u32, u32)>
    requires few { length toks.now < 2 ^ 32 }
    ensures { Longest (spec.named toks.now) at result }
{
    let name = at;
    let equals = the(toks, Terminal::Local, name)?;
    let next = the(toks, Terminal::Equals, equals)?;
    Some((name, next))
}
