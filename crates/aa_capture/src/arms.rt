//! Uses by phis.
ghost use Rattle.std.specs.Prelude.{◌≡◌, ◌<◌, true, false, IfOk, OnOk, Some, length, slice_get};
ghost use Rattle.lattice_words.specs.declared.value.TheConstants.{ALL_USES as USE_BITS};
ghost use Rattle.ir_module.specs.Edges.{edges};
ghost use Rattle.ir_module.specs.Places.{IsSegInBlock};
ghost use Rattle.ir_module.specs.WellFormed.{IsWellFormed};
ghost use Rattle.facts.specs.DeadEdges.{WaySpeaks};
ghost use Rattle.facts.specs.Uses.{ResultUseSpeaks};
ghost use Rattle.rule_says.specs.Reading.{IsNumbering};
ghost use Rattle.rule_says.specs.Saying.{Says};
ghost use Rattle.rule_says.specs.Meeting.{Meets};
ghost use Rattle.aa_memory.specs.Asked.{IsKnown};
ghost use Rattle.aa_capture.specs.Asked as spec;
ghost use Rattle.aa_capture.specs.Arms as by_arms;

use crate::leading::{last, last_seg, leads_to, stays_open};
use crate::results::result_uses;
use aa_memory::{Callee, of_callee};
use attr_ids::{NoMemory, SegId};
use facts::Pos;
use ir_module::{Arm, Edge, Instr, Module, Op, Operand, Way, Written, block_of};
use lattice_words::function::{NORETURN, NOUNWIND};
use lattice_words::segment::DEAD;
use lattice_words::value::ALL_USES;
use positions::Positions;
use rule_says::{CallPromise, bits, either, inner_callee, meet, promises, unless};
use rule_terms::{NewTerm, System};
use std::alloc::Global;

/// What decides of a call that it does not return, or not unwind.
fn callee(m: &Module, op: &Op, promise: CallPromise) -> Callee
    ensures { by_arms.IsCallee m.now promise op.now result }
{
    Callee {
        body: inner_callee(m, op),
        promised: promises(m, op, promise),
    }
}

/// That an edge of an `invoke` is not used, since its call does not return, or not unwind.
fn unused(
    alloc: Global,
    m: &Module,
    ps: &Positions,
    t: &Instr,
    way: Way,
) -> Result<NewTerm, NoMemory>
    requires { IsNumbering m.now ps.now }
    ensures { IfOk result (λ term. Says m.now ps.now USE_BITS term (by_arms.AsksUnused m.now t.now way) (WaySpeaks m.now way (Some t.now))) }
{
    match way {
        Way::Normal => {
            let called = callee(m, &t.op, CallPromise::Noreturn);
            of_callee(alloc, ps, called, NORETURN, ALL_USES)
        }
        Way::Unwind => {
            let called = callee(m, &t.op, CallPromise::Nounwind);
            of_callee(alloc, ps, called, NOUNWIND, ALL_USES)
        }
        _ => Ok(bits(0)),
    }
}

/// One edge of an `invoke` by which a phi may take the operand.
fn edge_use(
    alloc: Global,
    m: &Module,
    ps: &Positions,
    s: &mut System,
    q: SegId,
    t: &Instr,
    block: u32,
    instr: &Instr,
    w: &Written,
    e: Edge,
) -> Result<(), NoMemory>
    requires numbering { IsNumbering m.now ps.now }
    requires known { IsKnown ps.now w.now }
    requires result { spec.IsResultKnown ps.now instr.now }
    requires there { q.0 < length m.now.segs }
    requires invoke { by_arms.is_invoke t.now.op ≡ true }
    requires long { length s.old.masks ≡ length ps.now.list }
    ensures { OnOk result (Meets m.now ps.now s.old s.new (by_arms.AsksEdge m.now q.0 t.now block instr.now w.now e)
        (by_arms.SpeaksEdge m.now q.0 t.now block instr.now w.now e)) }
{
    if e.to.0 != block {
        return Ok(());
    }
    let Operand::Value(v) = w.val else {
        return Ok(());
    };
    let unused = unused(alloc, m, ps, t, e.way)?;
    let used = either(alloc, unused, result_uses(ps, instr))?;
    let term = unless(alloc, ps, Pos::Segment(q), DEAD, used)?;
    meet(alloc, ps, s, Pos::Value(v), ALL_USES, term)
}

/// Each edge of an `invoke`.
fn invoke_use(
    alloc: Global,
    m: &Module,
    ps: &Positions,
    s: &mut System,
    q: SegId,
    t: &Instr,
    block: u32,
    instr: &Instr,
    w: &Written,
) -> Result<(), NoMemory>
    requires numbering { IsNumbering m.now ps.now }
    requires known { IsKnown ps.now w.now }
    requires result { spec.IsResultKnown ps.now instr.now }
    requires there { q.0 < length m.now.segs }
    requires invoke { by_arms.is_invoke t.now.op ≡ true }
    requires long { length s.old.masks ≡ length ps.now.list }
    ensures { OnOk result (Meets m.now ps.now s.old s.new (by_arms.AsksEdges m.now q.0 t.now block instr.now w.now)
        (by_arms.SpeaksEdges m.now q.0 t.now block instr.now w.now)) }
{
    for n in 0..t.op.edge_count() {
        let Some(e) = t.op.edge_at(n) else {
            unreachable!()
        };
        edge_use(alloc, m, ps, s, q, t, block, instr, w, e)?;
    }
    Ok(())
}

/// Where an edge of this terminator stays open, the facts of the result, else all.
fn over_edges(alloc: Global, taken: bool, of: NewTerm) -> Result<NewTerm, NoMemory>
    ensures { IfOk result (λ t. by_arms.IsOver t taken of) }
{
    if taken {
        return Ok(of);
    }
    either(alloc, bits(ALL_USES), of)
}

/// The edges of another terminator. A `switch` may have many to one block, which are one use.
fn branch_use(
    alloc: Global,
    m: &Module,
    ps: &Positions,
    s: &mut System,
    q: SegId,
    t: &Instr,
    block: u32,
    instr: &Instr,
    w: &Written,
) -> Result<(), NoMemory>
    requires numbering { IsNumbering m.now ps.now }
    requires known { IsKnown ps.now w.now }
    requires result { spec.IsResultKnown ps.now instr.now }
    requires there { q.0 < length m.now.segs }
    requires other { by_arms.is_invoke t.now.op ≡ false }
    requires long { length s.old.masks ≡ length ps.now.list }
    ensures { OnOk result (Meets m.now ps.now s.old s.new (by_arms.AsksEdges m.now q.0 t.now block instr.now w.now)
        (by_arms.SpeaksEdges m.now q.0 t.now block instr.now w.now)) }
{
    let Operand::Value(v) = w.val else {
        return Ok(());
    };
    if !leads_to(&t.op, block) {
        return Ok(());
    }
    let result = result_uses(ps, instr);
    let used = over_edges(alloc, stays_open(m, &t.op, block), result)?;
    let term = unless(alloc, ps, Pos::Segment(q), DEAD, used)?;
    meet(alloc, ps, s, Pos::Value(v), ALL_USES, term)
}

fn is_invoke(op: &Op) -> bool
    ensures { result ≡ by_arms.is_invoke op.now }
{
    matches!(op, Op::Invoke { .. })
}

/// One arm of a phi in segment `k`.
fn arm_use(
    alloc: Global,
    m: &Module,
    ps: &Positions,
    s: &mut System,
    k: SegId,
    instr: &Instr,
    arm: &Arm,
) -> Result<(), NoMemory>
    requires formed { IsWellFormed m.now }
    requires numbering { IsNumbering m.now ps.now }
    requires known { IsKnown ps.now arm.now.val }
    requires result { spec.IsResultKnown ps.now instr.now }
    requires from { arm.now.from.0 < length m.now.blocks }
    requires there { k.0 < length m.now.segs }
    requires long { length s.old.masks ≡ length ps.now.list }
    ensures { OnOk result (Meets m.now ps.now s.old s.new (spec.AsksArm m.now k.0 instr.now arm.now) (spec.SpeaksArm m.now k.0 instr.now arm.now)) }
{
    let block = block_of(m, k).0;
    let q = last_seg(m, arm.from);
    let t = last(m.seg(q));
    if is_invoke(&t.op) {
        return invoke_use(alloc, m, ps, s, q, t, block, instr, &arm.val);
    }
    branch_use(alloc, m, ps, s, q, t, block, instr, &arm.val)
}

/// Each arm.
fn each_arm(
    alloc: Global,
    m: &Module,
    ps: &Positions,
    s: &mut System,
    k: SegId,
    instr: &Instr,
    arms: &[Arm],
) -> Result<(), NoMemory>
    requires formed { IsWellFormed m.now }
    requires numbering { IsNumbering m.now ps.now }
    requires known { by_arms.AreArmsKnown m.now ps.now arms.now }
    requires result { spec.IsResultKnown ps.now instr.now }
    requires there { k.0 < length m.now.segs }
    requires long { length s.old.masks ≡ length ps.now.list }
    ensures { OnOk result (Meets m.now ps.now s.old s.new (by_arms.AsksEach m.now k.0 instr.now arms.now) (by_arms.SpeaksEach m.now k.0 instr.now arms.now)) }
{
    for arm in arms {
        arm_use(alloc, m, ps, s, k, instr, arm)?;
    }
    Ok(())
}

/// The arms of an instruction, if it is a phi.
pub(crate) fn arm_uses(
    alloc: Global,
    m: &Module,
    ps: &Positions,
    s: &mut System,
    k: SegId,
    instr: &Instr,
) -> Result<(), NoMemory>
    requires formed { IsWellFormed m.now }
    requires numbering { IsNumbering m.now ps.now }
    requires known { by_arms.AreArmsKnown m.now ps.now (spec.arms_of instr.now.op) }
    requires result { spec.IsResultKnown ps.now instr.now }
    requires there { k.0 < length m.now.segs }
    requires long { length s.old.masks ≡ length ps.now.list }
    ensures { OnOk result (Meets m.now ps.now s.old s.new (spec.AsksArms m.now k.0 instr.now) (spec.SpeaksArms m.now k.0 instr.now)) }
{
    let Op::Phi { arms } = &instr.op else {
        return Ok(());
    };
    each_arm(alloc, m, ps, s, k, instr, arms.as_slice())
}
