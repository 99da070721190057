//! Rules of blocks and of the edges between them, but for phis.
ghost use Rattle.std.specs.Prelude.{ℕ, ◌≡◌, ◌+◌, ◌-◌, ◌<◌, ◌≤◌, ◌↔◌, Bool, IsTrue, IsSomeAnd, Some, length, slice_get};
ghost use Rattle.std.specs.Option.{option_copied, option_and_then};
ghost use Rattle.ir_module.specs.Edges.{edges};
ghost use Rattle.ir_module.specs.WellFormed.{Each, IsWellFormed};
ghost use Rattle.ir_rules.specs.Blocks as spec;
ghost use Rattle.ir_rules.specs.Named.{HasNames};
ghost use Rattle.ir_rules.specs.Survey.{IsPhiCount, IsSurveyOf};

use crate::survey::Survey;
use attr_ids::{BlockId, FuncId};
use ir_module::{Block, Edge, Func, Instr, Module, Op, Seg, Way, first_seg, segs_of_func};

// ---- V4

fn is_entry(func: &Func, edge: Edge) -> bool
    ensures { IsTrue result ↔ (edge.to.0 ≡ func.now.first_block) }
{
    edge.to.0 == func.first_block
}

/// V4: whether no edge of an instruction leads to its function's first block.
pub fn leaves_entry_free(func: &Func, op: &Op) -> bool
    ensures { IsTrue result ↔ spec.LeavesEntryFree func.now op.now }
{
    for k in 0..op.edge_count() {
        if let Some(edge) = op.edge_at(k) {
            if is_entry(func, edge) {
                return false;
            }
        }
    }
    true
}

// ---- V5

pub(crate) fn is_phi(instr: &Instr) -> bool
    ensures { IsTrue result ↔ spec.IsPhi instr.now.op }
{
    matches!(instr.op, Op::Phi { .. })
}

pub(crate) fn is_pad(instr: &Instr) -> bool
    ensures { IsTrue result ↔ spec.IsPad instr.now.op }
{
    matches!(instr.op, Op::LandingPad { .. })
}

/// How many phis stand at the front of a list of instructions.
pub fn phi_count(instrs: &[Instr]) -> usize
    ensures { IsPhiCount instrs.now result }
{
    for (i, instr) in instrs.iter().enumerate() {
        if !is_phi(instr) {
            return i;
        }
    }
    instrs.len()
}

/// Whether segment number `k` is its block's first, and instruction `i` stands no later than behind so many phis.
fn is_in_front(block: &Block, k: usize, phis: usize, i: usize) -> bool
    ensures { IsTrue result ↔ ((k ≡ block.now.first_seg) × (i ≤ phis)) }
{
    k == block.first_seg as usize && i <= phis
}

/// Whether instruction `i` of segment number `k` of a block has phis alone before it in its block; `phis` of them stand
/// at the front of its segment.
fn stands_behind_phis(block: &Block, k: usize, seg: &Seg, phis: usize, i: usize) -> bool
    requires counted { IsPhiCount seg.now.instrs phis }
    requires inside { i < length seg.now.instrs }
    ensures { IsTrue result ↔ spec.StandsBehindPhis block.now k seg.now i }
{
    is_in_front(block, k, phis, i)
}

/// V5: whether instruction `i` of segment number `k` of a block, if it is a phi, has phis alone before it; `phis` of them
/// stand at the front of the segment.
pub fn phis_come_first(block: &Block, k: usize, seg: &Seg, phis: usize, i: usize, op: &Op) -> bool
    requires counted { IsPhiCount seg.now.instrs phis }
    requires inside { i < length seg.now.instrs }
    ensures { IsTrue result ↔ spec.PhisComeFirst block.now k seg.now i op.now }
{
    match op {
        Op::Phi { .. } => stands_behind_phis(block, k, seg, phis, i),
        _ => true,
    }
}

// ---- terminators

/// The last instruction of a segment.
fn last_of(seg: &Seg) -> Option<&Instr>
    ensures { option_copied result ≡ spec.last_of seg.now }
{
    seg.instrs.get(seg.instrs.len().saturating_sub(1))
}

/// The last segment of a block.
fn last_seg<'a>(m: &'a Module, block: &Block) -> Option<&'a Seg>
    ensures { option_copied result ≡ spec.last_seg m.now block.now }
{
    let end = block.first_seg as usize + block.seg_count as usize;
    m.segs.get(end.saturating_sub(1))
}

/// The terminator of a block.
pub(crate) fn terminator(m: &Module, b: usize) -> Option<&Instr>
    ensures { option_copied result ≡ spec.terminator m.now b }
{
    let block = m.blocks.get(b)?;
    let seg = last_seg(m, block)?;
    last_of(seg)
}

fn unwind_in(op: &Op) -> Option<BlockId>
    ensures { result ≡ spec.unwind_in op.now }
{
    match op {
        Op::Invoke { unwind, .. } => Some(*unwind),
        _ => None,
    }
}

/// The block to which the terminator of a block unwinds, if it is an `invoke`.
pub(crate) fn unwind_from(m: &Module, b: usize) -> Option<BlockId>
    ensures { result ≡ spec.unwind_of (spec.terminator m.now b) }
{
    match terminator(m, b) {
        Some(instr) => unwind_in(&instr.op),
        None => None,
    }
}

// ---- V20

/// Whether a landing pad stands in a segment directly behind the phis at its front.
fn pad_follows(seg: &Seg) -> bool
    ensures { IsTrue result ↔ spec.HasPadBehindPhis (Some seg.now) }
{
    let phis = phi_count(seg.instrs.as_slice());
    match seg.instrs.get(phis) {
        Some(instr) => is_pad(instr),
        None => false,
    }
}

fn has_pad_behind_phis(seg: Option<&Seg>) -> bool
    ensures { IsTrue result ↔ spec.HasPadBehindPhis (option_copied seg.entry) }
{
    match seg {
        Some(seg) => pad_follows(seg),
        None => false,
    }
}

/// The first segment of a block, if there is one.
fn front_of(m: &Module, b: BlockId) -> Option<&Seg>
    requires { b.0 < length m.now.blocks }
    ensures { option_copied result ≡ spec.front_of m.now b.0 }
{
    let first = first_seg(m, b);
    m.segs.get(first.0 as usize)
}

/// Whether a block has a landing pad directly behind its phis.
pub(crate) fn starts_with_pad(m: &Module, b: BlockId) -> bool
    requires { b.0 < length m.now.blocks }
    ensures { IsTrue result ↔ spec.StartsWithPad m.now b.0 }
{
    has_pad_behind_phis(front_of(m, b))
}

fn is_unwind(way: Way) -> bool
    ensures { IsTrue result ↔ (way ≡ Way.Unwind) }
{
    matches!(way, Way::Unwind)
}

/// Whether an unwind edge leads to a landing pad, and where one leads, no other edge leads to the same block.
fn lands(m: &Module, survey: &Survey, edge: Edge) -> bool
    requires surveyed { IsSurveyOf m.now survey.now }
    requires there { edge.to.0 < length m.now.blocks }
    ensures { IsTrue result ↔ spec.Lands m.now edge.to.0 edge.way }
{
    if is_unwind(edge.way) {
        survey.starts_with_pad(edge.to)
    } else {
        !survey.is_unwound_to(edge.to)
    }
}

/// Whether each edge of an instruction lands as it should.
fn all_land(m: &Module, survey: &Survey, op: &Op) -> bool
    requires surveyed { IsSurveyOf m.now survey.now }
    requires there { Each (edges op.now) (λ k e. e.to.0 < length m.now.blocks) }
    ensures { IsTrue result ↔ Each (edges op.now) (λ k e. spec.Lands m.now e.to.0 e.way) }
{
    for k in 0..op.edge_count() {
        if let Some(edge) = op.edge_at(k) {
            if !lands(m, survey, edge) {
                return false;
            }
        }
    }
    true
}

/// Whether instruction `i` of segment number `k` of a block stands directly behind the phis of a block to which an unwind
/// edge leads; `phis` of them stand at the front of the segment.
fn is_where_unwound(
    m: &Module,
    survey: &Survey,
    block: &Block,
    k: usize,
    seg: &Seg,
    phis: usize,
    i: usize,
) -> bool
    requires surveyed { IsSurveyOf m.now survey.now }
    requires there { seg.now.block.0 < length m.now.blocks }
    requires counted { IsPhiCount seg.now.instrs phis }
    requires inside { i < length seg.now.instrs }
    ensures { IsTrue result ↔ spec.IsWhereUnwound m.now block.now k seg.now i }
{
    stands_behind_phis(block, k, seg, phis, i) && survey.is_unwound_to(seg.block)
}

/// Whether instruction `i` of segment number `k` of a block, if it is a landing pad, stands directly behind the phis of a
/// block to which an unwind edge leads; `phis` of them stand at the front of the segment.
fn pad_is_reached(
    m: &Module,
    survey: &Survey,
    block: &Block,
    k: usize,
    seg: &Seg,
    phis: usize,
    i: usize,
    op: &Op,
) -> bool
    requires surveyed { IsSurveyOf m.now survey.now }
    requires there { seg.now.block.0 < length m.now.blocks }
    requires counted { IsPhiCount seg.now.instrs phis }
    requires inside { i < length seg.now.instrs }
    ensures { IsTrue result ↔ spec.PadIsReached m.now block.now k seg.now i op.now }
{
    match op {
        Op::LandingPad { .. } => is_where_unwound(m, survey, block, k, seg, phis, i),
        _ => true,
    }
}

/// V20 of instruction `i` of segment number `k` of a block: whether a landing pad stands where an unwind edge leads,
/// directly behind the phis, and the edges of a terminator lead to landing pads or not, as they should; `phis` phis stand
/// at the front of the segment.
pub fn has_pads(
    m: &Module,
    survey: &Survey,
    block: &Block,
    k: usize,
    seg: &Seg,
    phis: usize,
    i: usize,
    instr: &Instr,
) -> bool
    requires surveyed { IsSurveyOf m.now survey.now }
    requires there { seg.now.block.0 < length m.now.blocks }
    requires counted { IsPhiCount seg.now.instrs phis }
    requires inside { i < length seg.now.instrs }
    requires named { HasNames m.now instr.now }
    ensures { IsTrue result ↔ spec.HasPads m.now block.now k seg.now i instr.now.op }
{
    pad_is_reached(m, survey, block, k, seg, phis, i, &instr.op) && all_land(m, survey, &instr.op)
}

// ---- V21

fn any_pad(instrs: &[Instr]) -> bool
    ensures { IsTrue result ↔ ((k : ℕ) × (x : Instr) × (slice_get instrs.now k ≡ Some x) × spec.IsPad x.op) }
{
    for i in 0..instrs.len() {
        if is_pad(&instrs[i]) {
            return true;
        }
    }
    false
}

/// Whether a segment has a landing pad.
fn seg_has_pad(m: &Module, k: usize) -> bool
    ensures { IsTrue result ↔ spec.SegHasPad m.now k }
{
    match m.segs.get(k) {
        Some(seg) => any_pad(seg.instrs.as_slice()),
        None => false,
    }
}

/// Whether a function has a landing pad.
fn has_pad(m: &Module, f: FuncId) -> bool
    requires formed { IsWellFormed m.now }
    requires there { f.0 < length m.now.funcs }
    ensures { IsTrue result ↔ spec.HasPad m.now f.0 }
{
    let segs = segs_of_func(m, f);
    for k in segs.start..segs.end {
        if seg_has_pad(m, k as usize) {
            return true;
        }
    }
    false
}

/// Whether what needs a `personality` has one.
fn is_allowed(personality: bool, pad: bool) -> bool
    ensures { IsTrue result ↔ (IsTrue pad → IsTrue personality) }
{
    personality || !pad
}

/// V21: whether a function with a landing pad has a `personality`.
pub fn has_personality(m: &Module, f: FuncId, func: &Func) -> bool
    requires formed { IsWellFormed m.now }
    requires there { f.0 < length m.now.funcs }
    ensures { IsTrue result ↔ spec.HasPersonality m.now f.0 func.now }
{
    is_allowed(func.personality, has_pad(m, f))
}
