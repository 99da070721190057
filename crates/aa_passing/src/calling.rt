//! What is asked of the entries of bodies by the calls of the module.
ghost use Rattle.std.specs.Prelude.{◌≡◌, ◌<◌, ℕ, true, OnOk, Some, length, slice_get};
ghost use Rattle.ir_module.specs.declared.op.Written.{Written as TheWritten};
ghost use Rattle.ir_module.specs.WellFormed.{IsWellFormed};
ghost use Rattle.ir_module.specs.Places.{spot, instr_at};
ghost use Rattle.facts.specs.Bodies.{is_body, param_count};
ghost use Rattle.facts.specs.Known.{arg_at};
ghost use Rattle.rule_says.specs.Reading.{IsNumbering};
ghost use Rattle.rule_says.specs.Meeting.{Meets};
ghost use Rattle.operand_says.specs.Asked.{IsReadable};
ghost use Rattle.aa_passing.specs.Entered as spec;

use crate::entries::pass;
use attr_ids::{FuncId, NoMemory, SegId};
use ir_module::{Func, Instr, Module, Op, Seg, direct_callee};
use positions::{Positions, is_body};
use rule_terms::System;
use std::alloc::Global;

/// Each parameter of the body that is called.
fn passes(
    alloc: Global,
    m: &Module,
    ps: &Positions,
    s: &mut System,
    k: SegId,
    op: &Op,
    f: FuncId,
    func: &Func,
) -> Result<(), NoMemory>
    requires numbering { IsNumbering m.now ps.now }
    requires there { k.0 < length m.now.segs }
    requires called { slice_get m.now.funcs f.0 ≡ Some func.now }
    requires body { is_body m.now f.0 ≡ true }
    requires readable { (at : ℕ) (w : TheWritten) → arg_at op.now at ≡ Some w → IsReadable ps.now w.val }
    requires few { length func.now.params < 256 }
    requires long { length s.old.masks ≡ length ps.now.list }
    ensures { OnOk result (Meets m.now ps.now s.old s.new (spec.AsksPasses m.now k.0 op.now f.0 func.now) (spec.SpeaksPasses m.now k.0 op.now f.0 func.now)) }
{
    for (at, q) in func.params.as_slice().iter().enumerate() {
        pass(alloc, m, ps, s, k, op, f, at, q)?;
    }
    Ok(())
}

/// The function that is called.
fn enters(
    alloc: Global,
    m: &Module,
    ps: &Positions,
    s: &mut System,
    k: SegId,
    op: &Op,
    f: FuncId,
    func: &Func,
) -> Result<(), NoMemory>
    requires numbering { IsNumbering m.now ps.now }
    requires there { k.0 < length m.now.segs }
    requires called { slice_get m.now.funcs f.0 ≡ Some func.now }
    requires readable { (at : ℕ) (w : TheWritten) → arg_at op.now at ≡ Some w → IsReadable ps.now w.val }
    requires few_params { (f : ℕ) → param_count m.now f < 256 }
    requires long { length s.old.masks ≡ length ps.now.list }
    ensures { OnOk result (Meets m.now ps.now s.old s.new (spec.AsksPasses m.now k.0 op.now f.0 func.now) (spec.SpeaksPasses m.now k.0 op.now f.0 func.now)) }
{
    if !is_body(m, f.0) {
        return Ok(());
    }
    passes(alloc, m, ps, s, k, op, f, func)
}

/// An instruction of segment `k`.
fn call(
    alloc: Global,
    m: &Module,
    ps: &Positions,
    s: &mut System,
    k: SegId,
    instr: &Instr,
) -> Result<(), NoMemory>
    requires formed { IsWellFormed m.now }
    requires numbering { IsNumbering m.now ps.now }
    requires there { (at : ℕ) × (instr_at m.now (spot k.0 at) ≡ Some instr.now) }
    requires few_params { (f : ℕ) → param_count m.now f < 256 }
    requires long { length s.old.masks ≡ length ps.now.list }
    ensures { OnOk result (Meets m.now ps.now s.old s.new (spec.AsksCall m.now k.0 instr.now.op) (spec.SpeaksCall m.now k.0 instr.now.op)) }
{
    let Some(f) = direct_callee(m, &instr.op) else {
        return Ok(());
    };
    let Some(func) = m.funcs.get(f.0 as usize) else {
        return Ok(());
    };
    enters(alloc, m, ps, s, k, &instr.op, f, func)
}

/// Each instruction of a segment.
fn calls(
    alloc: Global,
    m: &Module,
    ps: &Positions,
    s: &mut System,
    k: SegId,
    seg: &Seg,
) -> Result<(), NoMemory>
    requires formed { IsWellFormed m.now }
    requires numbering { IsNumbering m.now ps.now }
    requires there { slice_get m.now.segs k.0 ≡ Some seg.now }
    requires few_params { (f : ℕ) → param_count m.now f < 256 }
    requires long { length s.old.masks ≡ length ps.now.list }
    ensures { OnOk result (Meets m.now ps.now s.old s.new (spec.AsksCalls m.now k.0 seg.now) (spec.SpeaksCalls m.now k.0 seg.now)) }
{
    for instr in seg.instrs.as_slice() {
        call(alloc, m, ps, s, k, instr)?;
    }
    Ok(())
}

/// Each segment.
pub(crate) fn inside(
    alloc: Global,
    m: &Module,
    ps: &Positions,
    s: &mut System,
) -> Result<(), NoMemory>
    requires formed { IsWellFormed m.now }
    requires numbering { IsNumbering m.now ps.now }
    requires few_params { (f : ℕ) → param_count m.now f < 256 }
    requires long { length s.old.masks ≡ length ps.now.list }
    ensures { OnOk result (Meets m.now ps.now s.old s.new (spec.AsksInside m.now) (spec.SpeaksInside m.now)) }
{
    for (k, seg) in m.segs.as_slice().iter().enumerate() {
        calls(alloc, m, ps, s, SegId(k as u32), seg)?;
    }
    Ok(())
}
