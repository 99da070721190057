//! Dead segments: all places from which control comes.
ghost use Rattle.std.specs.Prelude.{◌≡◌, ◌<◌, OnOk, length};
ghost use Rattle.ir_module.specs.WellFormed.{IsWellFormed};
ghost use Rattle.ir_uses.specs.Uses.{AreUsesOf};
ghost use Rattle.rule_says.specs.Reading.{IsNumbering};
ghost use Rattle.rule_says.specs.Meeting.{Meets};
ghost use Rattle.aa_control.specs.Coming as spec;

use crate::dying::{entry, go};
use attr_ids::{FuncId, NoMemory, SegId};
use facts::Pos;
use ir_module::{Instr, Module, Seg};
use ir_uses::Uses;
use lattice_words::segment;
use positions::Positions;
use rule_says::{bits, meet};
use rule_terms::System;
use std::alloc::Global;

/// A function: if it is an open body, its first segment is not dead.
fn open(
    alloc: Global,
    m: &Module,
    u: &Uses,
    ps: &Positions,
    s: &mut System,
    f: u32,
) -> Result<(), NoMemory>
    requires formed { IsWellFormed m.now }
    requires uses { AreUsesOf m.now u.now }
    requires numbering { IsNumbering m.now ps.now }
    requires there { f < length m.now.funcs }
    requires long { length s.old.masks ≡ length ps.now.list }
    ensures { OnOk result (Meets m.now ps.now s.old s.new (spec.AsksOpen m.now f) (spec.SpeaksOpen m.now f)) }
{
    if !u.is_open(FuncId(f)) {
        return Ok(());
    }
    let k = entry(m, FuncId(f));
    meet(alloc, ps, s, Pos::Segment(k), segment::ALL, bits(0))
}

/// Each function.
fn opens(
    alloc: Global,
    m: &Module,
    u: &Uses,
    ps: &Positions,
    s: &mut System,
) -> Result<(), NoMemory>
    requires formed { IsWellFormed m.now }
    requires uses { AreUsesOf m.now u.now }
    requires numbering { IsNumbering m.now ps.now }
    requires long { length s.old.masks ≡ length ps.now.list }
    ensures { OnOk result (Meets m.now ps.now s.old s.new (spec.AsksOpens m.now) (spec.SpeaksOpens m.now)) }
{
    for f in 0..m.funcs.len() as u32 {
        open(alloc, m, u, ps, s, f)?;
    }
    Ok(())
}

/// Each instruction of a segment.
fn leave(
    alloc: Global,
    m: &Module,
    ps: &Positions,
    s: &mut System,
    q: SegId,
    seg: &Seg,
) -> Result<(), NoMemory>
    requires formed { IsWellFormed m.now }
    requires numbering { IsNumbering m.now ps.now }
    requires there { q.0 < length m.now.segs }
    requires long { length s.old.masks ≡ length ps.now.list }
    ensures { OnOk result (Meets m.now ps.now s.old s.new (spec.AsksOut m.now q.0 seg.now) (spec.SpeaksOut m.now q.0 seg.now)) }
{
    for instr in seg.instrs.as_slice() {
        go(alloc, m, ps, s, q, instr)?;
    }
    Ok(())
}

/// Each segment.
fn outs(alloc: Global, m: &Module, ps: &Positions, s: &mut System) -> Result<(), NoMemory>
    requires formed { IsWellFormed m.now }
    requires numbering { IsNumbering m.now ps.now }
    requires long { length s.old.masks ≡ length ps.now.list }
    ensures { OnOk result (Meets m.now ps.now s.old s.new (spec.AsksOuts m.now) (spec.SpeaksOuts m.now)) }
{
    for (k, seg) in m.segs.as_slice().iter().enumerate() {
        leave(alloc, m, ps, s, SegId(k as u32), seg)?;
    }
    Ok(())
}

/// The segments to which no control comes.
pub(crate) fn deads(
    alloc: Global,
    m: &Module,
    u: &Uses,
    ps: &Positions,
    s: &mut System,
) -> Result<(), NoMemory>
    requires formed { IsWellFormed m.now }
    requires uses { AreUsesOf m.now u.now }
    requires numbering { IsNumbering m.now ps.now }
    requires long { length s.old.masks ≡ length ps.now.list }
    ensures { OnOk result (Meets m.now ps.now s.old s.new (spec.AsksDeads m.now) (spec.SpeaksDeads m.now)) }
{
    opens(alloc, m, u, ps, s)?;
    outs(alloc, m, ps, s)
}
