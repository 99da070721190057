//! What bodies return, by each `ret`.
ghost use Rattle.std.specs.Prelude.{◌≡◌, ◌<◌, ◌^◌, ℕ, true, IfOk, OnOk, Some, length, slice_get};
ghost use Rattle.lattice_words.specs.Ladders.{is_byte_bit};
ghost use Rattle.ir_module.specs.WellFormed.{IsWellFormed};
ghost use Rattle.ir_module.specs.Places.{spot, instr_at, IsSegIn};
ghost use Rattle.ir_module.specs.declared.op.Op.TheVariants as op;
ghost use Rattle.ir_module.specs.declared.op.Written.{Written as TheWritten};
ghost use Rattle.facts.specs.Bodies.{is_body};
ghost use Rattle.rule_says.specs.Reading.{IsNumbering};
ghost use Rattle.rule_says.specs.Saying.{IsSet, Says};
ghost use Rattle.rule_says.specs.Meeting.{Meets};
ghost use Rattle.operand_says.specs.Asked.{IsReadable};
ghost use Rattle.aa_passing.specs.Returned as spec;

use attr_ids::{FuncId, NoMemory, SegId};
use facts::Pos;
use ir_module::{Instr, Module, Op, Seg, Written, func_of};
use lattice_words::{returned, segment, value};
use operand_says::{asked, operand, operand_bit};
use positions::Positions;
use rule_says::{bits, both, meet, unless};
use rule_terms::{NewTerm, System};
use std::alloc::Global;

/// The bits of a return that are no rungs of bytes.
const PLAIN: u64 = returned::ALL & !value::ALL_BYTES;

/// Bits that are no rungs of bytes.
fn plain(
    alloc: Global,
    m: &Module,
    ps: &Positions,
    s: &mut System,
    k: SegId,
    f: FuncId,
    w: &Written,
) -> Result<(), NoMemory>
    requires numbering { IsNumbering m.now ps.now }
    requires there { k.0 < length m.now.segs }
    requires body { is_body m.now f.0 ≡ true }
    requires readable { IsReadable ps.now w.now.val }
    requires long { length s.old.masks ≡ length ps.now.list }
    ensures { OnOk result (Meets m.now ps.now s.old s.new (spec.AsksPlain m.now k.0 f.0 w.now) (spec.SpeaksPlain m.now k.0 f.0 w.now)) }
{
    let asked = asked(ps, Pos::Return(f), PLAIN);
    let term = operand(m, ps, w, asked);
    let term = unless(alloc, ps, Pos::Segment(k), segment::DEAD, term)?;
    meet(alloc, ps, s, Pos::Return(f), asked, term)
}

/// That bytes can be reached through an operand, and are in no alloca of the body.
fn lasting(
    alloc: Global,
    m: &Module,
    ps: &Positions,
    w: &Written,
    asked: u64,
) -> Result<NewTerm, NoMemory>
    requires numbering { IsNumbering m.now ps.now }
    requires readable { IsReadable ps.now w.now.val }
    requires low { asked < 2 ^ 43 }
    ensures { IfOk result (λ t. Says m.now ps.now asked t (spec.AsksLasting m.now w.now) (spec.SpeaksRungs w.now asked)) }
{
    let term = operand(m, ps, w, asked);
    let own = operand_bit(alloc, m, ps, w, value::NOT_OWN_ALLOCA, asked)?;
    let unknown = operand_bit(alloc, m, ps, w, value::NOT_UNKNOWN, asked)?;
    let classes = both(alloc, own, unknown)?;
    both(alloc, term, classes)
}

/// Rungs of bytes.
fn rungs(
    alloc: Global,
    m: &Module,
    ps: &Positions,
    s: &mut System,
    k: SegId,
    f: FuncId,
    w: &Written,
) -> Result<(), NoMemory>
    requires numbering { IsNumbering m.now ps.now }
    requires there { k.0 < length m.now.segs }
    requires body { is_body m.now f.0 ≡ true }
    requires readable { IsReadable ps.now w.now.val }
    requires long { length s.old.masks ≡ length ps.now.list }
    ensures { OnOk result (Meets m.now ps.now s.old s.new (spec.AsksBytes m.now k.0 f.0 w.now) (spec.SpeaksBytes m.now k.0 f.0 w.now)) }
{
    let asked = asked(ps, Pos::Return(f), value::ALL_BYTES);
    let term = lasting(alloc, m, ps, w, asked)?;
    let term = unless(alloc, ps, Pos::Segment(k), segment::DEAD, term)?;
    meet(alloc, ps, s, Pos::Return(f), asked, term)
}

/// A `ret` of an operand.
fn back(
    alloc: Global,
    m: &Module,
    ps: &Positions,
    s: &mut System,
    k: SegId,
    f: FuncId,
    w: &Written,
) -> Result<(), NoMemory>
    requires numbering { IsNumbering m.now ps.now }
    requires there { k.0 < length m.now.segs }
    requires body { is_body m.now f.0 ≡ true }
    requires readable { IsReadable ps.now w.now.val }
    requires long { length s.old.masks ≡ length ps.now.list }
    ensures { OnOk result (Meets m.now ps.now s.old s.new (spec.AsksBack m.now k.0 f.0 w.now) (spec.SpeaksBack m.now k.0 f.0 w.now)) }
{
    plain(alloc, m, ps, s, k, f, w)?;
    rungs(alloc, m, ps, s, k, f, w)
}

/// A `ret` without an operand.
fn nothing(
    alloc: Global,
    m: &Module,
    ps: &Positions,
    s: &mut System,
    k: SegId,
    f: FuncId,
) -> Result<(), NoMemory>
    requires numbering { IsNumbering m.now ps.now }
    requires there { k.0 < length m.now.segs }
    requires body { is_body m.now f.0 ≡ true }
    requires long { length s.old.masks ≡ length ps.now.list }
    ensures { OnOk result (Meets m.now ps.now s.old s.new (spec.AsksNothing m.now k.0 f.0) (spec.SpeaksNothing m.now k.0 f.0)) }
{
    let term = unless(alloc, ps, Pos::Segment(k), segment::DEAD, bits(0))?;
    meet(alloc, ps, s, Pos::Return(f), returned::ALL, term)
}

/// A `ret`.
fn ret_of(
    alloc: Global,
    m: &Module,
    ps: &Positions,
    s: &mut System,
    k: SegId,
    f: FuncId,
    val: &Option<Written>,
) -> Result<(), NoMemory>
    requires numbering { IsNumbering m.now ps.now }
    requires there { k.0 < length m.now.segs }
    requires body { is_body m.now f.0 ≡ true }
    requires readable { (w : TheWritten) → val.now ≡ Some w → IsReadable ps.now w.val }
    requires long { length s.old.masks ≡ length ps.now.list }
    ensures { OnOk result (Meets m.now ps.now s.old s.new (spec.AsksRetOf m.now k.0 f.0 (op.Ret val.now)) (spec.SpeaksRetOf m.now k.0 f.0 (op.Ret val.now))) }
{
    match val {
        Some(w) => back(alloc, m, ps, s, k, f, w),
        None => nothing(alloc, m, ps, s, k, f),
    }
}

/// An instruction of segment `k`.
fn ret(
    alloc: Global,
    m: &Module,
    ps: &Positions,
    s: &mut System,
    k: SegId,
    instr: &Instr,
) -> Result<(), NoMemory>
    requires formed { IsWellFormed m.now }
    requires numbering { IsNumbering m.now ps.now }
    requires there { (at : ℕ) × (instr_at m.now (spot k.0 at) ≡ Some instr.now) }
    requires long { length s.old.masks ≡ length ps.now.list }
    ensures { OnOk result (Meets m.now ps.now s.old s.new (spec.AsksRet m.now k.0 instr.now.op) (spec.SpeaksRet m.now k.0 instr.now.op)) }
{
    let f = func_of(m, k);
    match &instr.op {
        Op::Ret { val } => ret_of(alloc, m, ps, s, k, f, val),
        _ => Ok(()),
    }
}

/// Each instruction of a segment.
fn rets(
    alloc: Global,
    m: &Module,
    ps: &Positions,
    s: &mut System,
    k: SegId,
    seg: &Seg,
) -> Result<(), NoMemory>
    requires formed { IsWellFormed m.now }
    requires numbering { IsNumbering m.now ps.now }
    requires there { slice_get m.now.segs k.0 ≡ Some seg.now }
    requires long { length s.old.masks ≡ length ps.now.list }
    ensures { OnOk result (Meets m.now ps.now s.old s.new (spec.AsksRets m.now k.0 seg.now) (spec.SpeaksRets m.now k.0 seg.now)) }
{
    for instr in seg.instrs.as_slice() {
        ret(alloc, m, ps, s, k, instr)?;
    }
    Ok(())
}

/// Each segment.
pub(crate) fn returns(
    alloc: Global,
    m: &Module,
    ps: &Positions,
    s: &mut System,
) -> Result<(), NoMemory>
    requires formed { IsWellFormed m.now }
    requires numbering { IsNumbering m.now ps.now }
    requires long { length s.old.masks ≡ length ps.now.list }
    ensures { OnOk result (Meets m.now ps.now s.old s.new (spec.AsksReturned m.now) (spec.SpeaksReturned m.now)) }
{
    for (k, seg) in m.segs.as_slice().iter().enumerate() {
        rets(alloc, m, ps, s, SegId(k as u32), seg)?;
    }
    Ok(())
}
