//! Whether a module has fewer than 2^31 things of each kind.
ghost use Rattle.std.specs.Prelude.{◌≡◌, ◌<◌, ◌↔◌, ◌^◌, length, IsTrue};
ghost use Rattle.ir_module.specs.WellFormed.{Each, IsShort, IsSmall, HasFew};

use crate::module::{Module, Seg};
use crate::op::Instr;

/// A module has fewer things of each kind.
pub(crate) const LIMIT: usize = 1 << 31;

fn are_short(instrs: &[Instr]) -> bool
    ensures { IsTrue result ↔ Each instrs.now IsShort }
{
    for instr in instrs {
        if instr.op.operand_count() >= LIMIT {
            return false;
        }
    }
    true
}

/// Whether a segment has few instructions, and each of them few operands.
fn is_small(seg: &Seg) -> bool
    ensures { IsTrue result ↔ IsSmall 0 seg.now }
{
    let instrs = seg.instrs.as_slice();
    instrs.len() < LIMIT && are_short(instrs)
}

fn are_small(segs: &[Seg]) -> bool
    ensures { IsTrue result ↔ Each segs.now IsSmall }
{
    for seg in segs {
        if !is_small(seg) {
            return false;
        }
    }
    true
}

/// Whether there are few types, globals, functions and parts.
fn has_few_data(m: &Module) -> bool
    ensures { IsTrue result ↔ ((length m.now.types < 2 ^ 31) × (length m.now.globals < 2 ^ 31)
        × (length m.now.funcs < 2 ^ 31) × (length m.now.parts < 2 ^ 31)) }
{
    m.types.len() < LIMIT
        && m.globals.len() < LIMIT
        && m.funcs.len() < LIMIT
        && m.parts.len() < LIMIT
}

/// Whether there are few blocks, segments and values.
fn has_few_bodies(m: &Module) -> bool
    ensures { IsTrue result ↔ ((length m.now.blocks < 2 ^ 31) × (length m.now.segs < 2 ^ 31) × (length m.now.values < 2 ^ 31)) }
{
    m.blocks.len() < LIMIT && m.segs.len() < LIMIT && m.values.len() < LIMIT
}

/// Whether a module has fewer than 2^31 things of each kind: then their numbers and places fit 32 bits.
pub fn has_few(m: &Module) -> bool
    ensures { IsTrue result ↔ HasFew m.now }
{
    has_few_data(m) && has_few_bodies(m) && are_small(m.segs.as_slice())
}
