//! Uses by instructions that are no phis.
ghost use Rattle.std.specs.Prelude.{◌≡◌, ◌<◌, OnOk, length};
ghost use Rattle.ir_module.specs.WellFormed.{IsWellFormed};
ghost use Rattle.ir_module.specs.Operands.{operands};
ghost use Rattle.facts.specs.Uses as uses;
ghost use Rattle.rule_says.specs.Reading.{IsNumbering};
ghost use Rattle.rule_says.specs.Meeting.{Meets};
ghost use Rattle.aa_memory.specs.Asked.{IsKnown, AreKnown};
ghost use Rattle.aa_capture.specs.Passing.{IsPassing};
ghost use Rattle.aa_capture.specs.Asked as spec;

use crate::passing::{Passing, passing_of};
use crate::permitting::permit;
use attr_ids::{NoMemory, SegId};
use facts::Pos;
use ir_module::{Instr, Module, Op, Operand, Written};
use lattice_words::segment::DEAD;
use lattice_words::value::ALL_USES;
use positions::Positions;
use rule_says::{meet, unless};
use rule_terms::System;
use std::alloc::Global;

/// Operand `n`: if it is a value, the value has the facts that this use permits, or the segment is dead.
fn plain_use(
    alloc: Global,
    m: &Module,
    ps: &Positions,
    s: &mut System,
    k: SegId,
    instr: &Instr,
    passing: Passing,
    n: usize,
    w: &Written,
) -> Result<(), NoMemory>
    requires formed { IsWellFormed m.now }
    requires numbering { IsNumbering m.now ps.now }
    requires known { IsKnown ps.now w.now }
    requires result { spec.IsResultKnown ps.now instr.now }
    requires passing { IsPassing m.now instr.now.op passing }
    requires there { k.0 < length m.now.segs }
    requires long { length s.old.masks ≡ length ps.now.list }
    ensures { OnOk result (Meets m.now ps.now s.old s.new (spec.AsksUse m.now k.0 instr.now n w.now) (spec.SpeaksUse m.now k.0 instr.now n w.now)) }
{
    let Operand::Value(v) = w.val else {
        return Ok(());
    };
    let permitted = permit(alloc, m, ps, instr, passing, n)?;
    let term = unless(alloc, ps, Pos::Segment(k), DEAD, permitted)?;
    meet(alloc, ps, s, Pos::Value(v), ALL_USES, term)
}

fn is_phi(op: &Op) -> bool
    ensures { result ≡ uses.is_phi op.now }
{
    matches!(op, Op::Phi { .. })
}

/// Each operand of an instruction that is no phi.
pub(crate) fn plain_uses(
    alloc: Global,
    m: &Module,
    ps: &Positions,
    s: &mut System,
    k: SegId,
    instr: &Instr,
) -> Result<(), NoMemory>
    requires formed { IsWellFormed m.now }
    requires numbering { IsNumbering m.now ps.now }
    requires known { AreKnown ps.now (operands instr.now.op) }
    requires result { spec.IsResultKnown ps.now instr.now }
    requires there { k.0 < length m.now.segs }
    requires long { length s.old.masks ≡ length ps.now.list }
    ensures { OnOk result (Meets m.now ps.now s.old s.new (spec.AsksPlain m.now k.0 instr.now) (spec.SpeaksPlain m.now k.0 instr.now)) }
{
    if is_phi(&instr.op) {
        return Ok(());
    }
    let passing = passing_of(m, &instr.op);
    for n in 0..instr.op.operand_count() {
        let Some(w) = instr.op.operand_at(n) else {
            unreachable!()
        };
        plain_use(alloc, m, ps, s, k, instr, passing, n, w)?;
    }
    Ok(())
}
