//! To which blocks a terminator leads.
ghost use Rattle.std.specs.Prelude.{◌≡◌, ◌<◌, ◌-◌, ◌==◌, ◌&&◌, not, ℕ, Some, length, slice_get, take};
ghost use Rattle.std.specs.List.{list_any};
ghost use Rattle.ir_module.specs.Edges.{edges};
ghost use Rattle.ir_module.specs.Places.{IsSegInBlock};
ghost use Rattle.ir_module.specs.WellFormed.{IsWellFormed};
ghost use Rattle.aa_capture.specs.Arms as spec;

use crate::literals::takes_other;
use attr_ids::{BlockId, SegId};
use ir_module::{Edge, Instr, Module, Op, Seg, segs_of_block};

/// The last segment of a block.
pub(crate) fn last_seg(m: &Module, b: BlockId) -> SegId
    requires formed { IsWellFormed m.now }
    requires there { b.0 < length m.now.blocks }
    ensures { spec.IsLastSeg m.now b.0 result.0 }
{
    let segs = segs_of_block(m, b);
    SegId(segs.end - 1)
}

/// The last instruction of a segment.
pub(crate) fn last(seg: &Seg) -> &Instr
    requires { 0 < length seg.now.instrs }
    ensures { slice_get seg.now.instrs (length seg.now.instrs - 1) ≡ Some result.now }
{
    let instrs = seg.instrs.as_slice();
    &instrs[instrs.len() - 1]
}

fn is_to(e: Edge, block: u32) -> bool
    ensures { result ≡ spec.is_to block e }
{
    e.to.0 == block
}

fn is_open_to(m: &Module, op: &Op, e: Edge, block: u32) -> bool
    ensures { result ≡ spec.is_open_to m.now op.now block e }
{
    e.to.0 == block && !takes_other(m, op, e.way)
}

/// Some edge leads to the block.
pub(crate) fn leads_to(op: &Op, block: u32) -> bool
    ensures { result ≡ list_any (spec.is_to block) (edges op.now) }
{
    for n in 0..op.edge_count() {
        let Some(e) = op.edge_at(n) else {
            unreachable!()
        };
        if is_to(e, block) {
            return true;
        }
    }
    false
}

/// Some edge leads to the block that no literal keeps from being taken.
pub(crate) fn stays_open(m: &Module, op: &Op, block: u32) -> bool
    ensures { result ≡ list_any (spec.is_open_to m.now op.now block) (edges op.now) }
{
    for n in 0..op.edge_count() {
        let Some(e) = op.edge_at(n) else {
            unreachable!()
        };
        if is_open_to(m, op, e, block) {
            return true;
        }
    }
    false
}
