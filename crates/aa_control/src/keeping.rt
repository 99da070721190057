//! What one instruction asks of the effect of its segment.
ghost use Rattle.std.specs.Prelude.{◌≡◌, ◌<◌, ◌^◌, if◌then◌else◌, true, IsTrue, IfOk, OnOk, length};
ghost use Rattle.ir_module.specs.Calls as calls;
ghost use Rattle.facts.specs.Kinds.{FunctionFact, NoUnwind, NoReturn, NoFree, function_bit};
ghost use Rattle.facts.specs.Promises.{promises_fact, CallSpeaks};
ghost use Rattle.facts.specs.declared.pos.Pos.TheVariants as pos;
ghost use Rattle.rule_terms.specs.declared.term.NewTerm.{NewTerm as Term};
ghost use Rattle.rule_terms.specs.Names.{is_over};
ghost use Rattle.lattice_words.specs.declared.segment.TheConstants.{DEAD};
ghost use Rattle.positions.specs.Numbering.{IsListed};
ghost use Rattle.rule_says.specs.Reading.{IsNumbering};
ghost use Rattle.rule_says.specs.Saying.{Says, IsUnless};
ghost use Rattle.rule_says.specs.Meeting.{Meets, IsMet};
ghost use Rattle.aa_control.specs.Asked as spec;

use crate::pads::is_caught;
use attr_ids::{NoMemory, SegId};
use facts::Pos;
use ir_module::{Module, Op};
use lattice_words::{function, segment};
use positions::Positions;
use rule_says::{CallPromise, bits, either, inner_callee, meet, promises, unless, word};
use rule_terms::{NewTerm, System};
use std::alloc::Global;

/// A word of one bit.
fn one(bit: u32) -> u64
    requires { bit < 9 }
    ensures { result ≡ 2 ^ bit }
{
    1 << bit
}

/// A word of one bit, or of none.
pub(crate) fn one_if(test: bool, bit: u32) -> u64
    requires { bit < 9 }
    ensures { result ≡ (if test then 2 ^ bit else 0) }
{
    if test { one(bit) } else { 0 }
}

/// That a call has the fact of this bit: an inner one by its callee's word, an outer one by what it promises.
pub(crate) fn of_call(m: &Module, ps: &Positions, op: &Op, bit: u32, promised: bool) -> NewTerm
    requires numbering { IsNumbering m.now ps.now }
    requires bit { bit < 9 }
    ensures { (kind : FunctionFact) → function_bit kind ≡ bit → promises_fact m.now kind op.now ≡ promised →
        Says m.now ps.now (2 ^ bit) result (spec.AsksCall m.now kind op.now) (CallSpeaks m.now kind op.now) }
{
    match inner_callee(m, op) {
        Some(f) => word(ps, Pos::Function(f), one(bit)),
        None => bits(one_if(promised, bit)),
    }
}

/// That a call does not unwind out of its body: it does not unwind, or its landing pad catches all.
fn of_unwinding(
    alloc: Global,
    m: &Module,
    ps: &Positions,
    pads: &[bool],
    op: &Op,
) -> Result<NewTerm, NoMemory>
    requires numbering { IsNumbering m.now ps.now }
    requires pads { pads.now ≡ spec.pads_of m.now }
    requires call { calls.is_call op.now ≡ true }
    ensures { IfOk result (λ t. Says m.now ps.now (2 ^ 0) t (spec.AsksKeeps m.now NoUnwind op.now) (CallSpeaks m.now NoUnwind op.now)) }
{
    let promised = promises(m, op, CallPromise::Nounwind);
    let term = of_call(m, ps, op, function::NOUNWIND, promised);
    if is_caught(m, pads, op) {
        return either(alloc, bits(one(function::NOUNWIND)), term);
    }
    Ok(term)
}

/// The effect of the segment keeps the bit where the segment is dead or the term gives it.
fn keep(
    alloc: Global,
    ps: &Positions,
    s: &mut System,
    k: SegId,
    bit: u32,
    term: NewTerm,
) -> Result<(), NoMemory>
    requires segment { IsListed ps.now (pos.Segment k) }
    requires effect { IsListed ps.now (pos.Effect k) }
    requires long { length s.old.masks ≡ length ps.now.list }
    requires over { IsTrue (is_over (length ps.now.list) term) }
    requires bit { bit < 9 }
    ensures { OnOk result ((t : Term) × IsUnless ps.now t (pos.Segment k) DEAD term × IsMet ps.now s.old s.new (pos.Effect k) (2 ^ bit) t) }
{
    let term = unless(alloc, ps, Pos::Segment(k), segment::DEAD, term)?;
    meet(alloc, ps, s, Pos::Effect(k), one(bit), term)
}

pub(crate) fn is_call(op: &Op) -> bool
    ensures { result ≡ calls.is_call op.now }
{
    op.call().is_some()
}

fn is_resume(op: &Op) -> bool
    ensures { result ≡ spec.is_resume op.now }
{
    matches!(op, Op::Resume { .. })
}

fn is_ret(op: &Op) -> bool
    ensures { result ≡ spec.is_ret op.now }
{
    matches!(op, Op::Ret { .. })
}

/// nounwind: each `resume` stands in a dead segment, and each call does not unwind or its landing pad catches all.
pub(crate) fn keep_nounwind(
    alloc: Global,
    m: &Module,
    ps: &Positions,
    pads: &[bool],
    s: &mut System,
    k: SegId,
    op: &Op,
) -> Result<(), NoMemory>
    requires numbering { IsNumbering m.now ps.now }
    requires pads { pads.now ≡ spec.pads_of m.now }
    requires there { k.0 < length m.now.segs }
    requires long { length s.old.masks ≡ length ps.now.list }
    ensures { OnOk result (Meets m.now ps.now s.old s.new (spec.AsksKind m.now NoUnwind k.0 op.now) (spec.SpeaksKind m.now NoUnwind k.0 op.now)) }
{
    if is_call(op) {
        let term = of_unwinding(alloc, m, ps, pads, op)?;
        return keep(alloc, ps, s, k, function::NOUNWIND, term);
    }
    if is_resume(op) {
        return keep(alloc, ps, s, k, function::NOUNWIND, bits(0));
    }
    Ok(())
}

/// noreturn: each `ret` stands in a dead segment.
pub(crate) fn keep_noreturn(
    alloc: Global,
    m: &Module,
    ps: &Positions,
    s: &mut System,
    k: SegId,
    op: &Op,
) -> Result<(), NoMemory>
    requires numbering { IsNumbering m.now ps.now }
    requires there { k.0 < length m.now.segs }
    requires long { length s.old.masks ≡ length ps.now.list }
    ensures { OnOk result (Meets m.now ps.now s.old s.new (spec.AsksKind m.now NoReturn k.0 op.now) (spec.SpeaksKind m.now NoReturn k.0 op.now)) }
{
    if is_ret(op) {
        return keep(alloc, ps, s, k, function::NORETURN, bits(0));
    }
    Ok(())
}

/// nofree: each call is nofree.
pub(crate) fn keep_nofree(
    alloc: Global,
    m: &Module,
    ps: &Positions,
    s: &mut System,
    k: SegId,
    op: &Op,
) -> Result<(), NoMemory>
    requires numbering { IsNumbering m.now ps.now }
    requires there { k.0 < length m.now.segs }
    requires long { length s.old.masks ≡ length ps.now.list }
    ensures { OnOk result (Meets m.now ps.now s.old s.new (spec.AsksKind m.now NoFree k.0 op.now) (spec.SpeaksKind m.now NoFree k.0 op.now)) }
{
    if is_call(op) {
        let promised = promises(m, op, CallPromise::Nofree);
        let term = of_call(m, ps, op, function::NOFREE, promised);
        return keep(alloc, ps, s, k, function::NOFREE, term);
    }
    Ok(())
}
