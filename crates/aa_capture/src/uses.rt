//! The uses by instructions, segment by segment.
ghost use Rattle.std.specs.Prelude.{◌≡◌, ◌<◌, OnOk, Some, length, slice_get};
ghost use Rattle.ir_module.specs.Operands.{operands};
ghost use Rattle.ir_module.specs.WellFormed.{IsWellFormed};
ghost use Rattle.rule_says.specs.Reading.{IsNumbering};
ghost use Rattle.rule_says.specs.Meeting.{Meets};
ghost use Rattle.aa_memory.specs.Asked.{AreKnown};
ghost use Rattle.aa_capture.specs.Asked as spec;
ghost use Rattle.aa_capture.specs.Arms.{AreArmsKnown};

use crate::arms::arm_uses;
use crate::plain::plain_uses;
use attr_ids::{NoMemory, SegId};
use ir_module::{Instr, Module, Seg};
use positions::Positions;
use rule_terms::System;
use std::alloc::Global;

/// One instruction.
fn instr_uses(
    alloc: Global,
    m: &Module,
    ps: &Positions,
    s: &mut System,
    k: SegId,
    instr: &Instr,
) -> Result<(), NoMemory>
    requires formed { IsWellFormed m.now }
    requires numbering { IsNumbering m.now ps.now }
    requires known { AreKnown ps.now (operands instr.now.op) }
    requires arms { AreArmsKnown m.now ps.now (spec.arms_of instr.now.op) }
    requires result { spec.IsResultKnown ps.now instr.now }
    requires there { k.0 < length m.now.segs }
    requires long { length s.old.masks ≡ length ps.now.list }
    ensures { OnOk result (Meets m.now ps.now s.old s.new (spec.AsksInstr m.now k.0 instr.now) (spec.SpeaksInstr m.now k.0 instr.now)) }
{
    plain_uses(alloc, m, ps, s, k, instr)?;
    arm_uses(alloc, m, ps, s, k, instr)
}

/// One segment.
fn seg_uses(
    alloc: Global,
    m: &Module,
    ps: &Positions,
    s: &mut System,
    k: SegId,
    seg: &Seg,
) -> Result<(), NoMemory>
    requires formed { IsWellFormed m.now }
    requires numbering { IsNumbering m.now ps.now }
    requires here { slice_get m.now.segs k.0 ≡ Some seg.now }
    requires long { length s.old.masks ≡ length ps.now.list }
    ensures { OnOk result (Meets m.now ps.now s.old s.new (spec.AsksSeg m.now k.0 seg.now) (spec.SpeaksSeg m.now k.0 seg.now)) }
{
    for instr in seg.instrs.as_slice() {
        instr_uses(alloc, m, ps, s, k, instr)?;
    }
    Ok(())
}

/// Each segment.
pub(crate) fn all_uses(
    alloc: Global,
    m: &Module,
    ps: &Positions,
    s: &mut System,
) -> Result<(), NoMemory>
    requires formed { IsWellFormed m.now }
    requires numbering { IsNumbering m.now ps.now }
    requires long { length s.old.masks ≡ length ps.now.list }
    ensures { OnOk result (Meets m.now ps.now s.old s.new (spec.AsksUses m.now) (spec.SpeaksUses m.now)) }
{
    for (k, seg) in m.segs.as_slice().iter().enumerate() {
        seg_uses(alloc, m, ps, s, SegId(k as u32), seg)?;
    }
    Ok(())
}
