//! The blocks of a body and the edges between them, as a graph whose nodes are the blocks' numbers in the body.
ghost use Rattle.std.specs.Prelude.{◌≡◌, ◌≢◌, ◌+◌, ◌<◌, ◌≤◌, ◌^◌, ◌↔◌, ℕ, List, [], length, replicate, slice_get, slice_set, Some, OnOk, IfOk};
ghost use Rattle.ir_module.specs.WellFormed.{IsWellFormed};
ghost use Rattle.ir_module.specs.Places.{instr_at, IsSegInBlock};
ghost use Rattle.ir_module.specs.declared.module.Spot.{Spot};
ghost use Rattle.ir_paths.specs.Lacking.{IsBlockEdge, entry_block};
ghost use Rattle.ir_paths.specs.Bodies.{HasEdge, targets, block_count, IsBodyGraph, IsRun};

use attr_ids::{BlockId, FuncId, NoMemory, SegId};
use ir_module::{Instr, Module, Op};
use row_lists::Rows;
use std::alloc::Global;

/// The blocks of a body, from the first one on.
#[derive(Clone, Copy)]
pub(crate) struct Body {
    pub(crate) func: FuncId,
    pub(crate) first: u32,
    pub(crate) count: u32,
}

/// The blocks of the body of a function.
pub(crate) fn body_of(m: &Module, f: FuncId) -> Body
    requires formed { IsWellFormed m.now }
    requires there { f.0 < length m.now.funcs }
    ensures { IsRun m.now f.0 result }
{
    let func = m.func(f);
    Body {
        func: f,
        first: func.first_block,
        count: func.block_count,
    }
}

/// The last instruction of a block, which has the block's edges.
pub(crate) fn terminator<'a>(m: &'a Module, b: BlockId) -> &'a Instr
    requires formed { IsWellFormed m.now }
    requires there { b.0 < length m.now.blocks }
    ensures { (j y : ℕ) → IsBlockEdge m.now b.0 j y ↔ HasEdge result.now.op j y }
{
    let block = m.block(b);
    let seg = m.seg(SegId(block.first_seg + (block.seg_count - 1)));
    let instrs = seg.instrs.as_slice();
    &instrs[instrs.len() - 1]
}

/// Puts the ends of a terminator's edges into an empty row.
fn note_edges(op: &Op, first: u32, x: usize, g: &mut Rows<u32>) -> Result<(), NoMemory>
    requires there { x < length g.old }
    requires empty { slice_get g.old x ≡ Some [] }
    ensures row { OnOk result (slice_get g.new x ≡ Some (targets first op.now)) }
    ensures others { OnOk result ((k : ℕ) → k ≢ x → slice_get g.new k ≡ slice_get g.old k) }
    ensures long { OnOk result (length g.new ≡ length g.old) }
{
    for j in 0..op.edge_count() {
        let Some(edge) = op.edge_at(j) else {
            unreachable!()
        };
        g.push(x, edge.to.0.saturating_sub(first))?;
    }
    Ok(())
}

/// Puts the edges of all blocks into rows that are all empty.
fn note_blocks(m: &Module, body: Body, g: &mut Rows<u32>) -> Result<(), NoMemory>
    requires formed { IsWellFormed m.now }
    requires run { IsRun m.now body.func.0 body }
    requires empty { g.old ≡ replicate body.count [] }
    ensures { OnOk result (IsBodyGraph m.now body.func.0 g.new) }
{
    for x in 0..body.count {
        let op = &terminator(m, BlockId(body.first + x)).op;
        note_edges(op, body.first, x as usize, g)?;
    }
    Ok(())
}

/// The blocks of a body with the edges between them.
pub(crate) fn graph_of(alloc: Global, m: &Module, body: Body) -> Result<Rows<u32>, NoMemory>
    requires formed { IsWellFormed m.now }
    requires run { IsRun m.now body.func.0 body }
    ensures { IfOk result (λ g. IsBodyGraph m.now body.func.0 g) }
{
    let rooms = vec![in alloc; 2u32; body.count as usize]?;
    let mut g = Rows::with_rooms(alloc, &rooms, 0)?;
    note_blocks(m, body, &mut g)?;
    Ok(g)
}
