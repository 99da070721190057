//! The effects of segments.
ghost use Rattle.std.specs.Prelude.{◌≡◌, ◌<◌, OnOk, length, slice_get, Some};
ghost use Rattle.ir_module.specs.Operands.{operands};
ghost use Rattle.ir_module.specs.WellFormed.{IsWellFormed};
ghost use Rattle.rule_says.specs.Reading.{IsNumbering};
ghost use Rattle.rule_says.specs.Meeting.{Meets};
ghost use Rattle.aa_memory.specs.Asked as spec;

use crate::accesses::Access;
use crate::keeping::keep_access;
use attr_ids::{NoMemory, SegId};
use ir_module::{Instr, Module, Seg};
use positions::Positions;
use rule_terms::System;
use std::alloc::Global;

/// One instruction of a segment makes no access of either kind.
fn keep_each(
    alloc: Global,
    m: &Module,
    ps: &Positions,
    s: &mut System,
    k: SegId,
    instr: &Instr,
) -> Result<(), NoMemory>
    requires numbering { IsNumbering m.now ps.now }
    requires known { spec.AreKnown ps.now (operands instr.now.op) }
    requires there { k.0 < length m.now.segs }
    requires long { length s.old.masks ≡ length ps.now.list }
    ensures { OnOk result (Meets m.now ps.now s.old s.new (spec.AsksInstr m.now k.0 instr.now) (spec.SpeaksInstr m.now k.0 instr.now)) }
{
    keep_access(alloc, m, ps, s, k, &instr.op, Access::Read)?;
    keep_access(alloc, m, ps, s, k, &instr.op, Access::Write)
}

/// The effect of one segment.
fn effect(
    alloc: Global,
    m: &Module,
    ps: &Positions,
    s: &mut System,
    k: SegId,
    seg: &Seg,
) -> Result<(), NoMemory>
    requires formed { IsWellFormed m.now }
    requires numbering { IsNumbering m.now ps.now }
    requires here { slice_get m.now.segs k.0 ≡ Some seg.now }
    requires long { length s.old.masks ≡ length ps.now.list }
    ensures { OnOk result (Meets m.now ps.now s.old s.new (spec.AsksSeg m.now k.0 seg.now) (spec.SpeaksSeg m.now k.0 seg.now)) }
{
    for instr in seg.instrs.as_slice() {
        keep_each(alloc, m, ps, s, k, instr)?;
    }
    Ok(())
}

/// The effect of each segment.
pub(crate) fn effects(
    alloc: Global,
    m: &Module,
    ps: &Positions,
    s: &mut System,
) -> Result<(), NoMemory>
    requires formed { IsWellFormed m.now }
    requires numbering { IsNumbering m.now ps.now }
    requires long { length s.old.masks ≡ length ps.now.list }
    ensures { OnOk result (Meets m.now ps.now s.old s.new (spec.AsksEffects m.now) (spec.SpeaksEffects m.now)) }
{
    for (k, seg) in m.segs.as_slice().iter().enumerate() {
        effect(alloc, m, ps, s, SegId(k as u32), seg)?;
    }
    Ok(())
}
