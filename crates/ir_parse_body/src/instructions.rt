//! Instructions.
ghost use Rattle.std.specs.Prelude.{◌≡◌, ◌<◌, ◌^◌, IfOk, length};
ghost use Rattle.ir_tree.specs.Steps.{Longest};
ghost use Rattle.ir_tree.specs.Instructions as production;

use crate::calls::call;
use crate::landing::landing_pad;
use crate::memory::{alloca, load, store};
use crate::operations::{binop, cast, freeze, getelementptr, icmp, phi, select};
use attr_ids::NoMemory;
use ir_parse_parts::{either, the};
use ir_tree::{Instr, Terminal};
use sqlite_items::Boxed;
use std::alloc::Global;

/// `instr`
pub(crate) fn instr(
    alloc: Global,
    toks: &[Terminal],
    at: u32,
) -> Result<Option<(Instr, u32)>, NoMemory>
    requires few { length toks.now < 2 ^ 32 }
    ensures { IfOk result (λ r. Longest (production.instr toks.now) at r) }
{
    if let Some(first) = either(toks, Terminal::ConstBinop, Terminal::Binop, at) {
        return binop(alloc, toks, at, first);
    }
    if let Some(first) = the(toks, Terminal::Icmp, at) {
        return icmp(alloc, toks, at, first);
    }
    if let Some(first) = either(toks, Terminal::ConstCast, Terminal::Cast, at) {
        return cast(alloc, toks, at, first);
    }
    if let Some(first) = the(toks, Terminal::Select, at) {
        return select(alloc, toks, at, first);
    }
    if let Some(first) = the(toks, Terminal::Freeze, at) {
        return freeze(alloc, toks, at, first);
    }
    if let Some(first) = the(toks, Terminal::Phi, at) {
        return phi(alloc, toks, at, first);
    }
    if let Some(first) = the(toks, Terminal::Alloca, at) {
        return alloca(alloc, toks, at, first);
    }
    if let Some(first) = the(toks, Terminal::Load, at) {
        return load(alloc, toks, at, first);
    }
    if let Some(first) = the(toks, Terminal::Store, at) {
        return store(alloc, toks, at, first);
    }
    if let Some(first) = the(toks, Terminal::GetElementPtr, at) {
        return getelementptr(alloc, toks, at, first);
    }
    if let Some(first) = the(toks, Terminal::LandingPad, at) {
        return landing_pad(alloc, toks, at, first);
    }
    match call(alloc, toks, at)? {
        Some((call, next)) => Ok(Some((Instr::Call(Boxed::new(alloc, call)?), next))),
        None => Ok(None),
    }
}
