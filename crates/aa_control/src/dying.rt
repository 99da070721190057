//! Dead segments: where control comes to, and from where.
ghost use Rattle.std.specs.Prelude.{◌≡◌, ◌<◌, ◌+◌, ◌^◌, ℕ, true, false, IsTrue, IfOk, IfSome, IfNone, OnOk, Some, length};
ghost use Rattle.ir_module.specs.WellFormed.{IsWellFormed, HasFew};
ghost use Rattle.ir_module.specs.Places.{entry_of, IsSegInBlock};
ghost use Rattle.ir_module.specs.Calls as calls;
ghost use Rattle.facts.specs.declared.pos.Pos.TheVariants as pos;
ghost use Rattle.facts.specs.Kinds.{NoReturn};
ghost use Rattle.facts.specs.Bodies.{is_body};
ghost use Rattle.facts.specs.Promises.{CallSpeaks};
ghost use Rattle.facts.specs.DeadEdges.{WaySpeaks};
ghost use Rattle.facts.specs.Dead.{IsStart};
ghost use Rattle.lattice_words.specs.declared.segment.TheConstants.{DEAD};
ghost use Rattle.rule_terms.specs.declared.term.NewTerm.{NewTerm as Term};
ghost use Rattle.rule_terms.specs.Names.{is_over};
ghost use Rattle.positions.specs.Numbering.{IsListed};
ghost use Rattle.rule_says.specs.Reading.{IsNumbering};
ghost use Rattle.rule_says.specs.Saying.{Says, IsUnless};
ghost use Rattle.rule_says.specs.Meeting.{Meets, IsMet};
ghost use Rattle.aa_control.specs.Asked.{AsksCall};
ghost use Rattle.aa_control.specs.Coming as spec;

use crate::keeping::{is_call, of_call, one_if};
use crate::literals::takes_other;
use attr_ids::{BlockId, FuncId, NoMemory, SegId};
use facts::Pos;
use ir_module::{Edge, Instr, Module, Op, Way, direct_callee, first_seg};
use lattice_words::{function, segment};
use positions::Positions;
use rule_says::{CallPromise, bits, meet, promises, spread, unless, word};
use rule_terms::{NewTerm, System};
use std::alloc::Global;

/// The first segment of a body.
pub(crate) fn entry(m: &Module, f: FuncId) -> SegId
    requires formed { IsWellFormed m.now }
    requires body { is_body m.now f.0 ≡ true }
    ensures is { (entry_of m.now f.0).seg.0 ≡ result.0 }
    ensures there { result.0 < length m.now.segs }
{
    let func = m.func(f);
    first_seg(m, BlockId(func.first_block))
}

/// The first segment of a block that is not the first of its body.
fn start(m: &Module, block: BlockId) -> Option<SegId>
    requires formed { IsWellFormed m.now }
    ensures some { IfSome result (λ k. IsStart m.now block.0 k.0) }
    ensures there { IfSome result (λ k. k.0 < length m.now.segs) }
    ensures none { IfNone result ((k : ℕ) → IsStart m.now block.0 k → ⊥) }
{
    let b = m.blocks.get(block.0 as usize)?;
    if m.func(b.func).first_block == block.0 {
        return None;
    }
    Some(SegId(b.first_seg))
}

/// The next segment, if it is one of the same block.
fn next(m: &Module, q: SegId) -> Option<SegId>
    requires few { HasFew m.now }
    requires there { q.0 < length m.now.segs }
    ensures some { IfSome result (λ k. (k.0 ≡ q.0 + 1) × (b : ℕ) × IsSegInBlock m.now b q.0 × IsSegInBlock m.now b (q.0 + 1)) }
    ensures none { IfNone result ((b : ℕ) → IsSegInBlock m.now b q.0 → IsSegInBlock m.now b (q.0 + 1) → ⊥) }
{
    let k = q.0 + 1;
    let next = m.segs.get(k as usize)?;
    if next.block.0 == m.seg(q).block.0 {
        Some(SegId(k))
    } else {
        None
    }
}

/// The body that a direct call names; it may be one that a linker replaces.
fn named_body(m: &Module, op: &Op) -> Option<FuncId>
    ensures some { IfSome result (λ f. (calls.direct_callee m.now op.now ≡ Some f) × (is_body m.now f.0 ≡ true)) }
    ensures none { IfNone result ((f : ℕ) → calls.direct_callee m.now op.now ≡ Some (record { 0 = f }) → is_body m.now f ≡ true → ⊥) }
{
    let f = direct_callee(m, op)?;
    let func = m.funcs.get(f.0 as usize)?;
    if func.block_count == 0 {
        return None;
    }
    Some(f)
}

/// A call: where the body that it names begins, a segment is dead only if the call's is.
fn called(
    alloc: Global,
    m: &Module,
    ps: &Positions,
    s: &mut System,
    q: SegId,
    op: &Op,
) -> Result<(), NoMemory>
    requires formed { IsWellFormed m.now }
    requires numbering { IsNumbering m.now ps.now }
    requires there { q.0 < length m.now.segs }
    requires long { length s.old.masks ≡ length ps.now.list }
    ensures { OnOk result (Meets m.now ps.now s.old s.new (spec.AsksCalled m.now q.0 op.now) (spec.SpeaksCalled m.now q.0 op.now)) }
{
    let Some(f) = named_body(m, op) else {
        return Ok(());
    };
    let k = entry(m, f);
    let term = word(ps, Pos::Segment(q), segment::ALL);
    meet(alloc, ps, s, Pos::Segment(k), segment::ALL, term)
}

/// Segment `k` stays dead where segment `q` is dead or the term gives it.
fn follow(
    alloc: Global,
    ps: &Positions,
    s: &mut System,
    q: SegId,
    k: SegId,
    term: NewTerm,
) -> Result<(), NoMemory>
    requires from { IsListed ps.now (pos.Segment q) }
    requires to { IsListed ps.now (pos.Segment k) }
    requires long { length s.old.masks ≡ length ps.now.list }
    requires over { IsTrue (is_over (length ps.now.list) term) }
    ensures { OnOk result ((t : Term) × IsUnless ps.now t (pos.Segment q) DEAD term × IsMet ps.now s.old s.new (pos.Segment k) (2 ^ 0) t) }
{
    let term = unless(alloc, ps, Pos::Segment(q), segment::DEAD, term)?;
    meet(alloc, ps, s, Pos::Segment(k), segment::ALL, term)
}

/// That a call does not return.
fn of_returning(alloc: Global, m: &Module, ps: &Positions, op: &Op) -> Result<NewTerm, NoMemory>
    requires numbering { IsNumbering m.now ps.now }
    ensures { IfOk result (λ t. Says m.now ps.now (2 ^ 0) t (AsksCall m.now NoReturn op.now) (CallSpeaks m.now NoReturn op.now)) }
{
    let promised = promises(m, op, CallPromise::Noreturn);
    let term = of_call(m, ps, op, function::NORETURN, promised);
    spread(alloc, function::NORETURN, segment::ALL, term)
}

fn is_normal(way: Way) -> bool
    ensures { result ≡ spec.is_normal way }
{
    matches!(way, Way::Normal)
}

fn is_unwind(way: Way) -> bool
    ensures { result ≡ spec.is_unwind way }
{
    matches!(way, Way::Unwind)
}

/// That an edge is never taken, by what stands at its terminator.
fn never(
    alloc: Global,
    m: &Module,
    ps: &Positions,
    instr: &Instr,
    way: Way,
) -> Result<NewTerm, NoMemory>
    requires numbering { IsNumbering m.now ps.now }
    ensures { IfOk result (λ t. Says m.now ps.now (2 ^ 0) t (spec.AsksNever m.now instr.now way) (WaySpeaks m.now way (Some instr.now))) }
{
    if is_normal(way) {
        return of_returning(alloc, m, ps, &instr.op);
    }
    if is_unwind(way) {
        let promised = promises(m, &instr.op, CallPromise::Nounwind);
        return Ok(of_call(m, ps, &instr.op, function::NOUNWIND, promised));
    }
    Ok(bits(one_if(takes_other(m, &instr.op, way), segment::DEAD)))
}

/// An edge: where it leads, a segment is dead only if the edge is.
fn edge(
    alloc: Global,
    m: &Module,
    ps: &Positions,
    s: &mut System,
    q: SegId,
    instr: &Instr,
    e: Edge,
) -> Result<(), NoMemory>
    requires formed { IsWellFormed m.now }
    requires numbering { IsNumbering m.now ps.now }
    requires there { q.0 < length m.now.segs }
    requires long { length s.old.masks ≡ length ps.now.list }
    ensures { OnOk result (Meets m.now ps.now s.old s.new (spec.AsksEdge m.now q.0 instr.now e) (spec.SpeaksEdge m.now q.0 instr.now e)) }
{
    let Some(k) = start(m, e.to) else {
        return Ok(());
    };
    let term = never(alloc, m, ps, instr, e.way)?;
    follow(alloc, ps, s, q, k, term)
}

/// The edges of a terminator.
fn edges(
    alloc: Global,
    m: &Module,
    ps: &Positions,
    s: &mut System,
    q: SegId,
    instr: &Instr,
) -> Result<(), NoMemory>
    requires formed { IsWellFormed m.now }
    requires numbering { IsNumbering m.now ps.now }
    requires there { q.0 < length m.now.segs }
    requires long { length s.old.masks ≡ length ps.now.list }
    ensures { OnOk result (Meets m.now ps.now s.old s.new (spec.AsksEdges m.now q.0 instr.now) (spec.SpeaksEdges m.now q.0 instr.now)) }
{
    for n in 0..instr.op.edge_count() {
        let Some(e) = instr.op.edge_at(n) else {
            unreachable!()
        };
        edge(alloc, m, ps, s, q, instr, e)?;
    }
    Ok(())
}

/// A call: the segment behind it is dead only if the call's is, or the call does not return.
fn behind(
    alloc: Global,
    m: &Module,
    ps: &Positions,
    s: &mut System,
    q: SegId,
    op: &Op,
) -> Result<(), NoMemory>
    requires few { HasFew m.now }
    requires numbering { IsNumbering m.now ps.now }
    requires there { q.0 < length m.now.segs }
    requires long { length s.old.masks ≡ length ps.now.list }
    ensures { OnOk result (Meets m.now ps.now s.old s.new (spec.AsksBehind m.now q.0 op.now) (spec.SpeaksBehind m.now q.0 op.now)) }
{
    if !is_call(op) {
        return Ok(());
    }
    let Some(k) = next(m, q) else {
        return Ok(());
    };
    let term = of_returning(alloc, m, ps, op)?;
    follow(alloc, ps, s, q, k, term)
}

/// One instruction: where control goes from it.
pub(crate) fn go(
    alloc: Global,
    m: &Module,
    ps: &Positions,
    s: &mut System,
    q: SegId,
    instr: &Instr,
) -> Result<(), NoMemory>
    requires formed { IsWellFormed m.now }
    requires numbering { IsNumbering m.now ps.now }
    requires there { q.0 < length m.now.segs }
    requires long { length s.old.masks ≡ length ps.now.list }
    ensures { OnOk result (Meets m.now ps.now s.old s.new (spec.AsksFrom m.now q.0 instr.now) (spec.SpeaksFrom m.now q.0 instr.now)) }
{
    called(alloc, m, ps, s, q, &instr.op)?;
    edges(alloc, m, ps, s, q, instr)?;
    behind(alloc, m, ps, s, q, &instr.op)
}
