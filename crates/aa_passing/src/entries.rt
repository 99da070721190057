//! What pointer parameters have at each entry of their body.
ghost use Rattle.std.specs.Prelude.{◌≡◌, ◌<◌, ◌^◌, ℕ, true, IfOk, OnOk, Some, length, slice_get};
ghost use Rattle.ir_module.specs.declared.op.Written.{Written as TheWritten};
ghost use Rattle.ir_module.specs.WellFormed.{IsWellFormed};
ghost use Rattle.ir_module.specs.Places.{spot, instr_at};
ghost use Rattle.ir_module.specs.Calls.{direct_callee};
ghost use Rattle.ir_uses.specs.Uses.{AreUsesOf};
ghost use Rattle.facts.specs.declared.pos.Pos.TheVariants as pos;
ghost use Rattle.facts.specs.Bodies.{is_body, param_of, param_count};
ghost use Rattle.facts.specs.Known.{arg_at};
ghost use Rattle.positions.specs.Numbering.{IsListed};
ghost use Rattle.rule_says.specs.Reading.{IsNumbering};
ghost use Rattle.rule_says.specs.Saying.{Says};
ghost use Rattle.rule_says.specs.Meeting.{Meets};
ghost use Rattle.operand_says.specs.Asked.{IsReadable};
ghost use Rattle.aa_passing.specs.Entered as spec;

use crate::written::{given, rung_of};
use attr_ids::{FuncId, NoMemory, SegId};
use facts::Pos;
use ir_module::{Func, Instr, Module, Op, Param, Seg, direct_callee};
use ir_uses::Uses;
use lattice_words::{entry, segment, value};
use operand_says::{argument, argument_bit, asked, is_pointer};
use positions::Positions;
use rule_says::{bits, both, either, meet, unless};
use rule_terms::{NewTerm, System};
use std::alloc::Global;

/// The bits of an entry that are no rungs of bytes.
const PLAIN: u64 = entry::ALL & !value::ALL_BYTES;

/// The greatest alignment that has a rung.
const TOP: u64 = 64;

/// The position of a parameter's entry.
fn entry_pos(f: FuncId, at: usize) -> Pos
    requires { at < 256 }
    ensures { result ≡ pos.Entry f at }
{
    Pos::Entry(f, at as u8)
}

/// A parameter of a body, seen from the outside.
pub(crate) fn start(
    alloc: Global,
    m: &Module,
    u: &Uses,
    ps: &Positions,
    s: &mut System,
    f: FuncId,
    at: usize,
    q: &Param,
) -> Result<(), NoMemory>
    requires uses { AreUsesOf m.now u.now }
    requires numbering { IsNumbering m.now ps.now }
    requires param { param_of m.now f.0 at ≡ Some q.now }
    requires body { is_body m.now f.0 ≡ true }
    requires few { at < 256 }
    requires long { length s.old.masks ≡ length ps.now.list }
    ensures { OnOk result (Meets m.now ps.now s.old s.new (spec.AsksStart m.now f.0 at q.now) (spec.SpeaksStart m.now f.0 at q.now)) }
{
    if !is_pointer(m, q.ty) {
        return Ok(());
    }
    let p = entry_pos(f, at);
    if u.is_open(f) {
        return meet(alloc, ps, s, p, entry::ALL, bits(given(q.attrs)));
    }
    if q.attrs.align > TOP {
        return meet(alloc, ps, s, p, value::ALL_BYTES, bits(given(q.attrs)));
    }
    Ok(())
}

/// Bits that are no rungs of bytes, by a call.
fn handed(
    alloc: Global,
    m: &Module,
    ps: &Positions,
    s: &mut System,
    k: SegId,
    op: &Op,
    f: FuncId,
    at: usize,
    q: &Param,
) -> Result<(), NoMemory>
    requires numbering { IsNumbering m.now ps.now }
    requires there { k.0 < length m.now.segs }
    requires listed { IsListed ps.now (pos.Entry f at) }
    requires readable { (w : TheWritten) → arg_at op.now at ≡ Some w → IsReadable ps.now w.val }
    requires few { at < 256 }
    requires long { length s.old.masks ≡ length ps.now.list }
    ensures { OnOk result (Meets m.now ps.now s.old s.new (spec.AsksHanded m.now k.0 op.now f.0 at q.now) (spec.SpeaksHanded m.now k.0 op.now f.0 at q.now)) }
{
    let p = entry_pos(f, at);
    let asked = asked(ps, p, PLAIN);
    let term = argument(m, ps, op, at, asked);
    let term = unless(alloc, ps, Pos::Segment(k), segment::DEAD, term)?;
    let term = either(alloc, bits(given(q.attrs)), term)?;
    meet(alloc, ps, s, p, asked, term)
}

/// That bytes can be reached through an argument, and it is aligned as it is written at the parameter.
fn reached(
    alloc: Global,
    m: &Module,
    ps: &Positions,
    op: &Op,
    at: usize,
    align: u64,
    asked: u64,
) -> Result<NewTerm, NoMemory>
    requires numbering { IsNumbering m.now ps.now }
    requires readable { (w : TheWritten) → arg_at op.now at ≡ Some w → IsReadable ps.now w.val }
    requires low { asked < 2 ^ 43 }
    ensures { IfOk result (λ t. Says m.now ps.now asked t (spec.AsksReached m.now op.now at align) (spec.SpeaksReached op.now at align asked)) }
{
    let term = argument(m, ps, op, at, asked);
    let Some(k) = rung_of(align) else {
        return Ok(term);
    };
    let aligned = argument_bit(alloc, m, ps, op, at, value::ALIGN_2 + k, asked)?;
    both(alloc, term, aligned)
}

/// Rungs of bytes, by a call.
fn rungs(
    alloc: Global,
    m: &Module,
    ps: &Positions,
    s: &mut System,
    k: SegId,
    op: &Op,
    f: FuncId,
    at: usize,
    q: &Param,
) -> Result<(), NoMemory>
    requires numbering { IsNumbering m.now ps.now }
    requires there { k.0 < length m.now.segs }
    requires listed { IsListed ps.now (pos.Entry f at) }
    requires readable { (w : TheWritten) → arg_at op.now at ≡ Some w → IsReadable ps.now w.val }
    requires few { at < 256 }
    requires long { length s.old.masks ≡ length ps.now.list }
    ensures { OnOk result (Meets m.now ps.now s.old s.new (spec.AsksRungs m.now k.0 op.now f.0 at q.now) (spec.SpeaksRungs m.now k.0 op.now f.0 at q.now)) }
{
    let p = entry_pos(f, at);
    let asked = asked(ps, p, value::ALL_BYTES);
    let term = reached(alloc, m, ps, op, at, q.attrs.align, asked)?;
    let term = unless(alloc, ps, Pos::Segment(k), segment::DEAD, term)?;
    let term = either(alloc, bits(given(q.attrs)), term)?;
    meet(alloc, ps, s, p, asked, term)
}

/// An argument of a call in segment `k`, for a parameter of the body that is called.
pub(crate) fn pass(
    alloc: Global,
    m: &Module,
    ps: &Positions,
    s: &mut System,
    k: SegId,
    op: &Op,
    f: FuncId,
    at: usize,
    q: &Param,
) -> Result<(), NoMemory>
    requires numbering { IsNumbering m.now ps.now }
    requires there { k.0 < length m.now.segs }
    requires param { param_of m.now f.0 at ≡ Some q.now }
    requires body { is_body m.now f.0 ≡ true }
    requires readable { (w : TheWritten) → arg_at op.now at ≡ Some w → IsReadable ps.now w.val }
    requires few { at < 256 }
    requires long { length s.old.masks ≡ length ps.now.list }
    ensures { OnOk result (Meets m.now ps.now s.old s.new (spec.AsksPass m.now k.0 op.now f.0 at q.now) (spec.SpeaksPass m.now k.0 op.now f.0 at q.now)) }
{
    if !is_pointer(m, q.ty) {
        return Ok(());
    }
    handed(alloc, m, ps, s, k, op, f, at, q)?;
    rungs(alloc, m, ps, s, k, op, f, at, q)
}
