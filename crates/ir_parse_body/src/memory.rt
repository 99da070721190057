//! Instructions of memory.
ghost use Rattle.std.specs.Prelude.{◌≡◌, ◌<◌, ◌^◌, IfOk, Some, length};
ghost use Rattle.ir_tree.specs.declared.terminal.Terminal.TheVariants as k;
ghost use Rattle.ir_tree.specs.Steps.{Longest, next, optional, the};
ghost use Rattle.ir_tree.specs.Instructions as production;
ghost use Rattle.ir_tree.specs.Values.{tvalue};
ghost use Rattle.ir_parse_body.specs.Parts as spec;

use crate::operations::next_tvalue;
use attr_ids::NoMemory;
use ir_parse_parts::{optional, the, tvalue, ty};
use ir_tree::{Alloca, Instr, Store, Terminal, Tvalue};
use sqlite_items::Boxed;
use std::alloc::Global;

/// `',' 'align' Int`: the place of the number.
fn aligned(toks: &[Terminal], at: u32) -> Option<(u32, u32)>
    requires few { length toks.now < 2 ^ 32 }
    ensures { Longest (spec.aligned toks.now) at result }
{
    let word = the(toks, Terminal::Comma, at)?;
    let bytes = the(toks, Terminal::Align, word)?;
    let next = the(toks, Terminal::Int, bytes)?;
    Some((bytes, next))
}

/// `[',' 'align' Int]`
fn alignment(toks: &[Terminal], at: u32) -> (Option<u32>, u32)
    requires few { length toks.now < 2 ^ 32 }
    ensures { Longest (production.alignment toks.now) at (Some result) }
{
    match aligned(toks, at) {
        Some((bytes, next)) => (Some(bytes), next),
        None => (None, at),
    }
}

/// `[',' tvalue]`
fn count(alloc: Global, toks: &[Terminal], at: u32) -> Result<(Option<Tvalue>, u32), NoMemory>
    requires few { length toks.now < 2 ^ 32 }
    ensures { IfOk result (λ r. Longest (optional (next toks.now (tvalue toks.now))) at (Some r)) }
{
    match next_tvalue(alloc, toks, at)? {
        Some((count, next)) => Ok((Some(count), next)),
        None => Ok((None, at)),
    }
}

/// `'alloca' type [',' tvalue] [',' 'align' Int]`
pub(crate) fn alloca(
    alloc: Global,
    toks: &[Terminal],
    start: u32,
    first: u32,
) -> Result<Option<(Instr, u32)>, NoMemory>
    requires few { length toks.now < 2 ^ 32 }
    requires after { the toks.now k.Alloca start ≡ Some first }
    ensures { IfOk result (λ r. Longest (production.instr toks.now) start r) }
{
    let Some((ty, place)) = ty(alloc, toks, first)? else {
        return Ok(None);
    };
    let (count, after) = count(alloc, toks, place)?;
    let (align, next) = alignment(toks, after);
    let alloca = Alloca {
        op: start,
        ty,
        count,
        align,
    };
    Ok(Some((Instr::Alloca(Boxed::new(alloc, alloca)?), next)))
}

/// `'load' ['volatile'] type ',' tvalue [',' 'align' Int]`
pub(crate) fn load(
    alloc: Global,
    toks: &[Terminal],
    start: u32,
    first: u32,
) -> Result<Option<(Instr, u32)>, NoMemory>
    requires few { length toks.now < 2 ^ 32 }
    requires after { the toks.now k.Load start ≡ Some first }
    ensures { IfOk result (λ r. Longest (production.instr toks.now) start r) }
{
    let (volatile, place) = optional(toks, Terminal::Volatile, first);
    let Some((ty, comma)) = ty(alloc, toks, place)? else {
        return Ok(None);
    };
    let Some((from, after)) = next_tvalue(alloc, toks, comma)? else {
        return Ok(None);
    };
    let (align, next) = alignment(toks, after);
    Ok(Some((
        Instr::Load {
            op: start,
            volatile,
            ty,
            from,
            align,
        },
        next,
    )))
}

/// `'store' ['volatile'] tvalue ',' tvalue [',' 'align' Int]`
pub(crate) fn store(
    alloc: Global,
    toks: &[Terminal],
    start: u32,
    first: u32,
) -> Result<Option<(Instr, u32)>, NoMemory>
    requires few { length toks.now < 2 ^ 32 }
    requires after { the toks.now k.Store start ≡ Some first }
    ensures { IfOk result (λ r. Longest (production.instr toks.now) start r) }
{
    let (volatile, place) = optional(toks, Terminal::Volatile, first);
    let Some((value, comma)) = tvalue(alloc, toks, place)? else {
        return Ok(None);
    };
    let Some((to, after)) = next_tvalue(alloc, toks, comma)? else {
        return Ok(None);
    };
    let (align, next) = alignment(toks, after);
    let store = Store {
        op: start,
        volatile,
        value,
        to,
        align,
    };
    Ok(Some((Instr::Store(Boxed::new(alloc, store)?), next)))
}
