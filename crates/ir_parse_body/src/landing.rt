//! Landing pads.
ghost use Rattle.std.specs.Prelude.{◌≡◌, ◌<◌, ◌^◌, IfOk, Some, length};
ghost use Rattle.ir_tree.specs.declared.terminal.Terminal.TheVariants as k;
ghost use Rattle.ir_tree.specs.Steps.{Longest, many, the};
ghost use Rattle.ir_tree.specs.Instructions as production;

use attr_ids::NoMemory;
use ir_parse_parts::{tconst, the, ty};
use ir_tree::{Clause, Instr, Terminal};
use sqlite_items::Items;
use std::alloc::Global;

/// `'landingpad' type ('cleanup' clause* | clause+)`
pub(crate) fn landing_pad(
    alloc: Global,
    toks: &[Terminal],
    start: u32,
    first: u32,
) -> Result<Option<(Instr, u32)>, NoMemory>
    requires few { length toks.now < 2 ^ 32 }
    requires after { the toks.now k.LandingPad start ≡ Some first }
    ensures { IfOk result (λ r. Longest (production.instr toks.now) start r) }
{
    let op = start;
    let Some((kind, cleanup)) = ty(alloc, toks, first)? else {
        return Ok(None);
    };
    if let Some(behind) = the(toks, Terminal::Cleanup, cleanup) {
        let (clauses, next) = clauses(alloc, toks, behind)?;
        return Ok(Some((
            Instr::Cleanup {
                op,
                ty: kind,
                cleanup,
                clauses,
            },
            next,
        )));
    }
    let (clauses, next) = clauses(alloc, toks, cleanup)?;
    if clauses.is_empty() {
        return Ok(None);
    }
    Ok(Some((
        Instr::LandingPad {
            op,
            ty: kind,
            clauses,
        },
        next,
    )))
}

/// `clause*`
fn clauses(alloc: Global, toks: &[Terminal], at: u32) -> Result<(Items<Clause>, u32), NoMemory>
    requires few { length toks.now < 2 ^ 32 }
    ensures { IfOk result (λ r. Longest (many (production.clause toks.now)) at (Some r)) }
{
    let mut found = Items::new(alloc);
    let mut place = at;
    while let Some((part, next)) = clause(alloc, toks, place)? {
        found.push(part)?;
        place = next;
    }
    Ok((found, place))
}

/// `clause`
fn clause(alloc: Global, toks: &[Terminal], at: u32) -> Result<Option<(Clause, u32)>, NoMemory>
    requires few { length toks.now < 2 ^ 32 }
    ensures { IfOk result (λ r. Longest (production.clause toks.now) at r) }
{
    let word = at;
    let Some(first) = the(toks, Terminal::ClauseWord, word) else {
        return Ok(None);
    };
    let Some((value, next)) = tconst(alloc, toks, first)? else {
        return Ok(None);
    };
    Ok(Some((Clause { word, value }, next)))
}
