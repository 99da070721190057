//! Flags of operations and of getelementptr.
ghost use Rattle.std.specs.Prelude.{◌≡◌, ◌<◌, ◌^◌, ◌≤◌, Some, IfOk, IfSome, length};
ghost use Rattle.ir_tree.specs.Steps.{Longest, many};
ghost use Rattle.ir_tree.specs.Constants as production;
ghost use Rattle.ir_parse_parts.specs.Parts as spec;

use crate::step::{either, the};
use attr_ids::NoMemory;
use ir_tree::{Gepflag, Terminal};
use sqlite_items::Items;
use std::alloc::Global;

/// `iflag`
pub fn iflag(toks: &[Terminal], at: u32) -> Option<(u32, u32)>
    requires few { length toks.now < 2 ^ 32 }
    ensures fits { Longest (production.iflag toks.now) at result }
    ensures within { IfSome result (λ r. (at < r.1) × (r.1 ≤ length toks.now)) }
{
    let next = either(toks, Terminal::Nuw, Terminal::Iflag, at)?;
    Some((at, next))
}

/// `iflag*`
pub fn iflags(alloc: Global, toks: &[Terminal], at: u32) -> Result<(Items<u32>, u32), NoMemory>
    requires few { length toks.now < 2 ^ 32 }
    ensures { IfOk result (λ r. Longest (many (production.iflag toks.now)) at (Some r)) }
{
    let mut found = Items::new(alloc);
    let mut place = at;
    while let Some((flag, next)) = iflag(toks, place) {
        found.push(flag)?;
        place = next;
    }
    Ok((found, place))
}

/// `'inrange' '(' Int ',' Int ')'`: the places of the numbers.
fn in_range(toks: &[Terminal], at: u32) -> Option<((u32, u32), u32)>
    requires few { length toks.now < 2 ^ 32 }
    ensures fits { Longest (spec.in_range toks.now) at result }
    ensures within { IfSome result (λ r. (at < r.1) × (r.1 ≤ length toks.now)) }
{
    let open = the(toks, Terminal::InRange, at)?;
    let from = the(toks, Terminal::LeftParen, open)?;
    let comma = the(toks, Terminal::Int, from)?;
    let to = the(toks, Terminal::Comma, comma)?;
    let close = the(toks, Terminal::Int, to)?;
    let next = the(toks, Terminal::RightParen, close)?;
    Some(((from, to), next))
}

/// `gepflag`
pub fn gepflag(toks: &[Terminal], at: u32) -> Option<(Gepflag, u32)>
    requires few { length toks.now < 2 ^ 32 }
    ensures fits { Longest (production.gepflag toks.now) at result }
    ensures within { IfSome result (λ r. (at < r.1) × (r.1 ≤ length toks.now)) }
{
    if let Some(next) = either(toks, Terminal::Nuw, Terminal::Gepflag, at) {
        return Some((Gepflag::Word(at), next));
    }
    match in_range(toks, at) {
        Some(((from, to), next)) => Some((Gepflag::InRange { word: at, from, to }, next)),
        None => None,
    }
}

/// `gepflag*`
pub fn gepflags(
    alloc: Global,
    toks: &[Terminal],
    at: u32,
) -> Result<(Items<Gepflag>, u32), NoMemory>
    requires few { length toks.now < 2 ^ 32 }
    ensures { IfOk result (λ r. Longest (many (production.gepflag toks.now)) at (Some r)) }
{
    let mut found = Items::new(alloc);
    let mut place = at;
    while let Some((flag, next)) = gepflag(toks, place) {
        found.push(flag)?;
        place = next;
    }
    Ok((found, place))
}
