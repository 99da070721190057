ghost use Rattle.std.specs.Prelude.{◌≡◌, ◌<◌, ◌≤◌, ◌↔◌, ℕ, length, slice_get, Some};
ghost use Rattle.std.specs.Option.{option_copied};
ghost use Rattle.ir_module.specs.Places as spec;
ghost use Rattle.ir_module.specs.Places.{IsSegIn, IsSegInBlock, first_seg_of};
ghost use Rattle.ir_module.specs.WellFormed.{IsWellFormed};

use crate::module::{Block, Func, GlobalVar, Module, Seg, Spot, ValueInfo};
use crate::op::Instr;
use attr_ids::{BlockId, FuncId, GlobalId, SegId, ValueId};
use std::ops::Range;

impl Module {
    /// A global variable of the module.
    pub fn global(&self, g: GlobalId) -> &GlobalVar
        requires { g.0 < length self.now.globals }
        ensures { slice_get self.now.globals g.0 ≡ Some result.now }
    {
        &self.globals.as_slice()[g.0 as usize]
    }

    /// A function of the module.
    pub fn func(&self, f: FuncId) -> &Func
        requires { f.0 < length self.now.funcs }
        ensures { slice_get self.now.funcs f.0 ≡ Some result.now }
    {
        &self.funcs.as_slice()[f.0 as usize]
    }

    /// A block of the module.
    pub fn block(&self, b: BlockId) -> &Block
        requires { b.0 < length self.now.blocks }
        ensures { slice_get self.now.blocks b.0 ≡ Some result.now }
    {
        &self.blocks.as_slice()[b.0 as usize]
    }

    /// A segment of the module.
    pub fn seg(&self, s: SegId) -> &Seg
        requires { s.0 < length self.now.segs }
        ensures { slice_get self.now.segs s.0 ≡ Some result.now }
    {
        &self.segs.as_slice()[s.0 as usize]
    }

    /// A value of the module.
    pub fn value(&self, v: ValueId) -> &ValueInfo
        requires { v.0 < length self.now.values }
        ensures { slice_get self.now.values v.0 ≡ Some result.now }
    {
        &self.values.as_slice()[v.0 as usize]
    }
}

/// The instruction at a spot, if there is one.
#[tactic(auto, unfolding(crate::specs::Places::instr_at))]
pub fn instr_at(m: &Module, s: Spot) -> Option<&Instr>
    ensures { option_copied result ≡ spec.instr_at m.now s }
{
    let seg = m.segs.get(s.seg.0 as usize)?;
    seg.instrs.get(s.at as usize)
}

/// The block in which a segment stands.
pub fn block_of(m: &Module, s: SegId) -> BlockId
    requires { s.0 < length m.now.segs }
    ensures { IsSegInBlock m.now result.0 s.0 }
{
    m.seg(s).block
}

/// The function in whose body a segment stands.
pub fn func_of(m: &Module, s: SegId) -> FuncId
    requires formed { IsWellFormed m.now }
    requires there { s.0 < length m.now.segs }
    ensures { IsSegIn m.now result.0 s.0 }
{
    let block = block_of(m, s);
    m.block(block).func
}

/// The segment in which a block begins.
pub fn first_seg(m: &Module, b: BlockId) -> SegId
    requires { b.0 < length m.now.blocks }
    ensures { result.0 ≡ first_seg_of m.now b.0 }
{
    SegId(m.block(b).first_seg)
}

/// The numbers of a block's segments, in text order.
pub fn segs_of_block(m: &Module, b: BlockId) -> Range<u32>
    requires formed { IsWellFormed m.now }
    requires there { b.0 < length m.now.blocks }
    ensures { (k : ℕ) → (IsSegInBlock m.now b.0 k) ↔ ((result.start ≤ k) × (k < result.end)) }
{
    let block = m.block(b);
    block.first_seg..block.first_seg + block.seg_count
}

/// The numbers of the segments of a function's body, in text order; a declaration has none.
pub fn segs_of_func(m: &Module, f: FuncId) -> Range<u32>
    requires formed { IsWellFormed m.now }
    requires there { f.0 < length m.now.funcs }
    ensures { (k : ℕ) → (IsSegIn m.now f.0 k) ↔ ((result.start ≤ k) × (k < result.end)) }
{
    let func = m.func(f);
    if func.block_count == 0 {
        return 0..0;
    }
    let from = func.first_block;
    let to = from + (func.block_count - 1);
    let first = m.block(BlockId(from));
    let last = m.block(BlockId(to));
    first.first_seg..last.first_seg + last.seg_count
}
