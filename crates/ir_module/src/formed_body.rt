//! Whether each block, segment and value of a module is as it should be.
ghost use Rattle.std.specs.Prelude.{◌≡◌, ◌+◌, ◌<◌, ◌≤◌, ◌↔◌, ◌^◌, ℕ, length, slice_get, Some, IsTrue};
ghost use Rattle.ir_module.specs.Places as places;
ghost use Rattle.ir_module.specs.Places.{IsIn};
ghost use Rattle.ir_module.specs.Formed as spec;
ghost use Rattle.ir_module.specs.WellFormed.{Each, HasHome, IsSegAt, IsFollowed, IsBlockFormed, IsInstrFormed};
ghost use Rattle.ir_module.specs.WellFormed.{IsSegFormedIn, IsSegFormed, IsParamAt, IsMadeAt, IsValueFormed};

use crate::formed_instr::is_instr_formed;
use crate::module::{Block, Def, Module, Seg, Spot, ValueInfo};
use crate::op::Instr;
use crate::places::instr_at;
use crate::present::is_type;
use attr_ids::ValueId;

// ---- blocks

/// Whether a block lies in its function's run.
fn has_home(m: &Module, i: usize, block: &Block) -> bool
    ensures { IsTrue result ↔ HasHome m.now i block.now }
{
    match m.funcs.get(block.func.0 as usize) {
        Some(func) => {
            let first = func.first_block as usize;
            first <= i && i < first + func.block_count as usize
        }
        None => false,
    }
}

/// Whether segment number `k` is there, and is one of block number `i`.
fn is_seg_at(m: &Module, i: usize, k: usize) -> bool
    ensures { IsTrue result ↔ IsSegAt m.now i k }
{
    match m.segs.get(k) {
        Some(seg) => seg.block.0 as usize == i,
        None => false,
    }
}

/// Whether the segments that a block counts as its own are there, and are its own.
fn has_segs(m: &Module, i: usize, block: &Block) -> bool
    ensures { IsTrue result ↔ ((k : ℕ) → spec.IsSegOf block.now k → IsSegAt m.now i k) }
{
    let first = block.first_seg as usize;
    for k in first..first + block.seg_count as usize {
        if !is_seg_at(m, i, k) {
            return false;
        }
    }
    true
}

/// Whether the next block, if there is one, goes on where this one ends.
fn is_followed(m: &Module, i: usize, block: &Block) -> bool
    requires { i < 2 ^ 31 }
    ensures { IsTrue result ↔ IsFollowed m.now i block.now }
{
    match m.blocks.get(i + 1) {
        Some(next) => {
            let end = block.first_seg as u64 + block.seg_count as u64;
            block.func.0 <= next.func.0 && next.first_seg as u64 == end
        }
        None => true,
    }
}

fn is_block_formed(m: &Module, i: usize, block: &Block) -> bool
    requires { i < 2 ^ 31 }
    ensures { IsTrue result ↔ IsBlockFormed m.now i block.now }
{
    has_home(m, i, block)
        && block.seg_count > 0
        && has_segs(m, i, block)
        && is_followed(m, i, block)
}

pub(crate) fn are_blocks_formed(m: &Module) -> bool
    requires { length m.now.blocks < 2 ^ 31 }
    ensures { IsTrue result ↔ Each m.now.blocks (IsBlockFormed m.now) }
{
    for (i, block) in m.blocks.as_slice().iter().enumerate() {
        if !is_block_formed(m, i, block) {
            return false;
        }
    }
    true
}

// ---- segments

/// Whether segment number `k` lies in the run of its block.
fn is_seg_of(block: &Block, k: usize) -> bool
    ensures { IsTrue result ↔ spec.IsSegOf block.now k }
{
    let first = block.first_seg as usize;
    first <= k && k < first + block.seg_count as usize
}

fn are_instrs_formed(m: &Module, block: &Block, k: usize, instrs: &[Instr]) -> bool
    ensures { IsTrue result ↔ Each instrs.now (IsInstrFormed m.now block.now k (length instrs.now)) }
{
    for (i, instr) in instrs.iter().enumerate() {
        if !is_instr_formed(m, block, k, instrs.len(), i, instr) {
            return false;
        }
    }
    true
}

fn has_instrs(seg: &Seg) -> bool
    ensures { IsTrue result ↔ (0 < length seg.now.instrs) }
{
    !seg.instrs.is_empty()
}

/// Whether segment number `k` is as it should be, if its block is this one.
fn is_seg_formed_in(m: &Module, k: usize, seg: &Seg, block: &Block) -> bool
    ensures { IsTrue result ↔ IsSegFormedIn m.now k seg.now block.now }
{
    is_seg_of(block, k) && has_instrs(seg) && are_instrs_formed(m, block, k, seg.instrs.as_slice())
}

fn is_seg_formed(m: &Module, k: usize, seg: &Seg) -> bool
    ensures { IsTrue result ↔ IsSegFormed m.now k seg.now }
{
    match m.blocks.get(seg.block.0 as usize) {
        Some(block) => is_seg_formed_in(m, k, seg, block),
        None => false,
    }
}

pub(crate) fn are_segs_formed(m: &Module) -> bool
    ensures { IsTrue result ↔ Each m.now.segs (IsSegFormed m.now) }
{
    for (k, seg) in m.segs.as_slice().iter().enumerate() {
        if !is_seg_formed(m, k, seg) {
            return false;
        }
    }
    true
}

// ---- values

/// Whether a value is the parameter number `at` of function `f`.
fn is_param_at(m: &Module, f: u32, at: u32, v: usize) -> bool
    ensures { IsTrue result ↔ IsParamAt m.now f at v }
{
    let Some(func) = m.funcs.get(f as usize) else {
        return false;
    };
    match func.params.get(at as usize) {
        Some(param) => param.value.0 as usize == v,
        None => false,
    }
}

/// Whether a spot's segment is there and stands in the body of function `f`.
fn is_seg_in(m: &Module, f: u32, s: Spot) -> bool
    ensures { IsTrue result ↔ IsIn m.now f s }
{
    let Some(seg) = m.segs.get(s.seg.0 as usize) else {
        return false;
    };
    match m.blocks.get(seg.block.0 as usize) {
        Some(block) => block.func.0 == f,
        None => false,
    }
}

/// Whether an instruction is there and its result is the value number `v`.
fn is_result_at(m: &Module, s: Spot, v: usize) -> bool
    ensures { IsTrue result ↔ ((instr : Instr) × (places.instr_at m.now s ≡ Some instr) × (instr.result ≡ Some (record { 0 = v }))) }
{
    match instr_at(m, s) {
        Some(instr) => is_value(instr.result, v),
        None => false,
    }
}

fn is_value(made: Option<ValueId>, v: usize) -> bool
    ensures { IsTrue result ↔ (made ≡ Some (record { 0 = v })) }
{
    match made {
        Some(made) => made.0 as usize == v,
        None => false,
    }
}

/// Whether what makes the value number `v` has it.
fn is_made(m: &Module, v: usize, info: &ValueInfo) -> bool
    ensures { IsTrue result ↔ IsMadeAt m.now v info.now info.now.def }
{
    match info.def {
        Def::Param(at) => is_param_at(m, info.func.0, at, v),
        Def::Instr(s) => is_result_at(m, s, v) && is_seg_in(m, info.func.0, s),
    }
}

fn is_value_formed(m: &Module, v: usize, info: &ValueInfo) -> bool
    ensures { IsTrue result ↔ IsValueFormed m.now v info.now }
{
    is_type(m, info.ty) && is_made(m, v, info)
}

pub(crate) fn are_values_formed(m: &Module) -> bool
    ensures { IsTrue result ↔ Each m.now.values (IsValueFormed m.now) }
{
    for (v, info) in m.values.as_slice().iter().enumerate() {
        if !is_value_formed(m, v, info) {
            return false;
        }
    }
    true
}
