//! Operations on values: all instructions but those of memory, calls and landing pads.
ghost use Rattle.std.specs.Prelude.{◌≡◌, ◌<◌, ◌^◌, IfOk, Some, length, [], ◌∷◌};
ghost use Rattle.ir_tree.specs.declared.terminal.Terminal.TheVariants as k;
ghost use Rattle.ir_tree.specs.Steps.{Longest, listed, next, some, the};
ghost use Rattle.ir_tree.specs.Instructions as production;
ghost use Rattle.ir_tree.specs.Values.{tvalue};
ghost use Rattle.ir_parse_parts.specs.Parts.{any_of};
ghost use Rattle.ir_parse_body.specs.Parts as spec;

use attr_ids::NoMemory;
use ir_parse_parts::{gepflags, iflags, the, tvalue, ty, value};
use ir_tree::{Arm, Icmp, Instr, Select, Terminal, Tvalue, Ty, Value};
use sqlite_items::{Boxed, Items};
use std::alloc::Global;

/// `type value ',' value`: the two sides of an operation.
#[derive(Drop)]
pub(crate) struct Sides {
    pub ty: Ty,
    pub left: Value,
    pub right: Value,
}

/// `type value ',' value`
fn operands(alloc: Global, toks: &[Terminal], at: u32) -> Result<Option<(Sides, u32)>, NoMemory>
    requires few { length toks.now < 2 ^ 32 }
    ensures { IfOk result (λ r. Longest (spec.operands toks.now) at r) }
{
    let Some((ty, first)) = ty(alloc, toks, at)? else {
        return Ok(None);
    };
    let Some((left, comma)) = value(alloc, toks, first)? else {
        return Ok(None);
    };
    let Some(second) = the(toks, Terminal::Comma, comma) else {
        return Ok(None);
    };
    let Some((right, next)) = value(alloc, toks, second)? else {
        return Ok(None);
    };
    Ok(Some((Sides { ty, left, right }, next)))
}

/// `',' tvalue`
pub(crate) fn next_tvalue(
    alloc: Global,
    toks: &[Terminal],
    at: u32,
) -> Result<Option<(Tvalue, u32)>, NoMemory>
    requires few { length toks.now < 2 ^ 32 }
    ensures { IfOk result (λ r. Longest (next toks.now (tvalue toks.now)) at r) }
{
    let Some(first) = the(toks, Terminal::Comma, at) else {
        return Ok(None);
    };
    tvalue(alloc, toks, first)
}

/// `binop iflag* type value ',' value`
pub(crate) fn binop(
    alloc: Global,
    toks: &[Terminal],
    start: u32,
    first: u32,
) -> Result<Option<(Instr, u32)>, NoMemory>
    requires few { length toks.now < 2 ^ 32 }
    requires after { any_of toks.now (k.ConstBinop ∷ k.Binop ∷ []) start ≡ Some first }
    ensures { IfOk result (λ r. Longest (production.instr toks.now) start r) }
{
    let (flags, place) = iflags(alloc, toks, first)?;
    let Some((sides, next)) = operands(alloc, toks, place)? else {
        return Ok(None);
    };
    Ok(Some((
        Instr::Binop {
            op: start,
            flags,
            ty: sides.ty,
            left: sides.left,
            right: sides.right,
        },
        next,
    )))
}

/// `'icmp' iflag* pred type value ',' value`
pub(crate) fn icmp(
    alloc: Global,
    toks: &[Terminal],
    start: u32,
    first: u32,
) -> Result<Option<(Instr, u32)>, NoMemory>
    requires few { length toks.now < 2 ^ 32 }
    requires after { the toks.now k.Icmp start ≡ Some first }
    ensures { IfOk result (λ r. Longest (production.instr toks.now) start r) }
{
    let (flags, pred) = iflags(alloc, toks, first)?;
    let Some(place) = the(toks, Terminal::Pred, pred) else {
        return Ok(None);
    };
    let Some((compared, next)) = operands(alloc, toks, place)? else {
        return Ok(None);
    };
    let icmp = Icmp {
        op: start,
        flags,
        pred,
        ty: compared.ty,
        left: compared.left,
        right: compared.right,
    };
    Ok(Some((Instr::Icmp(Boxed::new(alloc, icmp)?), next)))
}

/// `castop iflag* tvalue 'to' type`
pub(crate) fn cast(
    alloc: Global,
    toks: &[Terminal],
    start: u32,
    first: u32,
) -> Result<Option<(Instr, u32)>, NoMemory>
    requires few { length toks.now < 2 ^ 32 }
    requires after { any_of toks.now (k.ConstCast ∷ k.Cast ∷ []) start ≡ Some first }
    ensures { IfOk result (λ r. Longest (production.instr toks.now) start r) }
{
    let (flags, place) = iflags(alloc, toks, first)?;
    let Some((of, word)) = tvalue(alloc, toks, place)? else {
        return Ok(None);
    };
    let Some(target) = the(toks, Terminal::To, word) else {
        return Ok(None);
    };
    let Some((to, next)) = ty(alloc, toks, target)? else {
        return Ok(None);
    };
    Ok(Some((
        Instr::Cast {
            op: start,
            flags,
            of,
            to,
        },
        next,
    )))
}

/// `'select' tvalue ',' tvalue ',' tvalue`
pub(crate) fn select(
    alloc: Global,
    toks: &[Terminal],
    start: u32,
    first: u32,
) -> Result<Option<(Instr, u32)>, NoMemory>
    requires few { length toks.now < 2 ^ 32 }
    requires after { the toks.now k.Select start ≡ Some first }
    ensures { IfOk result (λ r. Longest (production.instr toks.now) start r) }
{
    let Some((on, second)) = tvalue(alloc, toks, first)? else {
        return Ok(None);
    };
    let Some((yes, third)) = next_tvalue(alloc, toks, second)? else {
        return Ok(None);
    };
    let Some((no, next)) = next_tvalue(alloc, toks, third)? else {
        return Ok(None);
    };
    let select = Select {
        op: start,
        on,
        yes,
        no,
    };
    Ok(Some((Instr::Select(Boxed::new(alloc, select)?), next)))
}

/// `'freeze' tvalue`
pub(crate) fn freeze(
    alloc: Global,
    toks: &[Terminal],
    start: u32,
    first: u32,
) -> Result<Option<(Instr, u32)>, NoMemory>
    requires few { length toks.now < 2 ^ 32 }
    requires after { the toks.now k.Freeze start ≡ Some first }
    ensures { IfOk result (λ r. Longest (production.instr toks.now) start r) }
{
    let Some((of, next)) = tvalue(alloc, toks, first)? else {
        return Ok(None);
    };
    Ok(Some((Instr::Freeze { op: start, of }, next)))
}

/// `arm`
fn arm(alloc: Global, toks: &[Terminal], at: u32) -> Result<Option<(Arm, u32)>, NoMemory>
    requires few { length toks.now < 2 ^ 32 }
    ensures { IfOk result (λ r. Longest (production.arm toks.now) at r) }
{
    let Some(first) = the(toks, Terminal::LeftBracket, at) else {
        return Ok(None);
    };
    let Some((value, comma)) = value(alloc, toks, first)? else {
        return Ok(None);
    };
    let Some(from) = the(toks, Terminal::Comma, comma) else {
        return Ok(None);
    };
    let Some(close) = the(toks, Terminal::Local, from) else {
        return Ok(None);
    };
    let Some(next) = the(toks, Terminal::RightBracket, close) else {
        return Ok(None);
    };
    Ok(Some((Arm { value, from }, next)))
}

/// `',' arm`
fn next_arm(alloc: Global, toks: &[Terminal], at: u32) -> Result<Option<(Arm, u32)>, NoMemory>
    requires few { length toks.now < 2 ^ 32 }
    ensures { IfOk result (λ r. Longest (next toks.now (production.arm toks.now)) at r) }
{
    let Some(first) = the(toks, Terminal::Comma, at) else {
        return Ok(None);
    };
    arm(alloc, toks, first)
}

/// `arm (',' arm)*`
fn arms(alloc: Global, toks: &[Terminal], at: u32) -> Result<Option<(Items<Arm>, u32)>, NoMemory>
    requires few { length toks.now < 2 ^ 32 }
    ensures { IfOk result (λ r. Longest (listed toks.now (production.arm toks.now)) at r) }
{
    let Some((first, after)) = arm(alloc, toks, at)? else {
        return Ok(None);
    };
    let mut found = Items::new(alloc);
    found.push(first)?;
    let mut place = after;
    while let Some((arm, next)) = next_arm(alloc, toks, place)? {
        found.push(arm)?;
        place = next;
    }
    Ok(Some((found, place)))
}

/// `'phi' type arm (',' arm)*`
pub(crate) fn phi(
    alloc: Global,
    toks: &[Terminal],
    start: u32,
    first: u32,
) -> Result<Option<(Instr, u32)>, NoMemory>
    requires few { length toks.now < 2 ^ 32 }
    requires after { the toks.now k.Phi start ≡ Some first }
    ensures { IfOk result (λ r. Longest (production.instr toks.now) start r) }
{
    let Some((ty, place)) = ty(alloc, toks, first)? else {
        return Ok(None);
    };
    let Some((arms, next)) = arms(alloc, toks, place)? else {
        return Ok(None);
    };
    Ok(Some((
        Instr::Phi {
            op: start,
            ty,
            arms,
        },
        next,
    )))
}

/// `(',' tvalue)+`
fn next_tvalues(
    alloc: Global,
    toks: &[Terminal],
    at: u32,
) -> Result<Option<(Items<Tvalue>, u32)>, NoMemory>
    requires few { length toks.now < 2 ^ 32 }
    ensures { IfOk result (λ r. Longest (some (next toks.now (tvalue toks.now))) at r) }
{
    let Some((first, after)) = next_tvalue(alloc, toks, at)? else {
        return Ok(None);
    };
    let mut found = Items::new(alloc);
    found.push(first)?;
    let mut place = after;
    while let Some((of, next)) = next_tvalue(alloc, toks, place)? {
        found.push(of)?;
        place = next;
    }
    Ok(Some((found, place)))
}

/// `'getelementptr' gepflag* type ',' tvalue (',' tvalue)*`
pub(crate) fn getelementptr(
    alloc: Global,
    toks: &[Terminal],
    start: u32,
    first: u32,
) -> Result<Option<(Instr, u32)>, NoMemory>
    requires few { length toks.now < 2 ^ 32 }
    requires after { the toks.now k.GetElementPtr start ≡ Some first }
    ensures { IfOk result (λ r. Longest (production.instr toks.now) start r) }
{
    let (flags, place) = gepflags(alloc, toks, first)?;
    let Some((elem, after)) = ty(alloc, toks, place)? else {
        return Ok(None);
    };
    let Some((operands, next)) = next_tvalues(alloc, toks, after)? else {
        return Ok(None);
    };
    Ok(Some((
        Instr::GetElementPtr {
            op: start,
            flags,
            elem,
            operands,
        },
        next,
    )))
}
