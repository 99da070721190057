//! Whether an instruction stands where it may, and what it names is there.
ghost use Rattle.std.specs.Prelude.{◌≡◌, ◌+◌, ◌<◌, ◌≤◌, ◌↔◌, ◌^◌, ℕ, length, [], ◌∷◌, slice_get, Some, IsTrue};
ghost use Rattle.attr_ids.specs.declared.ids.BlockId.{BlockId};
ghost use Rattle.attr_ids.specs.declared.ids.TypeId.{TypeId};
ghost use Rattle.ir_module.specs.declared.op.Written.{Written};
ghost use Rattle.ir_module.specs.declared.edge.Edge.{Edge};
ghost use Rattle.ir_module.specs.Edges.{edges};
ghost use Rattle.ir_module.specs.Operands.{operands};
ghost use Rattle.ir_module.specs.Formed as spec;
ghost use Rattle.ir_module.specs.Places.{spot};
ghost use Rattle.ir_module.specs.WellFormed.{Each, HasResult, IsInstrFormed};

use crate::module::{Block, Def, Module};
use crate::op::{Arm, Call, FuncType, Instr, Op};
use crate::present::{are_types, is_block_in, is_operand, is_type};
use attr_ids::TypeId;

/// Whether segment number `k` is followed by another one of its block.
fn has_next(block: &Block, k: usize) -> bool
    ensures { IsTrue result ↔ (k + 1 < block.now.first_seg + block.now.seg_count) }
{
    let end = block.first_seg as usize + block.seg_count as usize;
    k < end && end - k > 1
}

/// Whether segment number `k` is its block's last.
fn is_last(block: &Block, k: usize) -> bool
    ensures { IsTrue result ↔ (k + 1 ≡ block.now.first_seg + block.now.seg_count) }
{
    let end = block.first_seg as usize + block.seg_count as usize;
    k < end && end - k == 1
}

/// Whether instruction `i` of `count` of segment number `k` stands where it may: calls and terminators at the end.
fn is_placed(block: &Block, k: usize, count: usize, i: usize, op: &Op) -> bool
    requires { i < count }
    ensures { IsTrue result ↔ spec.IsPlaced block.now k count i op.now }
{
    let at_end = count - i == 1;
    match op {
        Op::Call(_) => at_end && has_next(block, k),
        Op::Invoke { .. }
        | Op::Resume { .. }
        | Op::Ret { .. }
        | Op::Jump { .. }
        | Op::Branch { .. }
        | Op::Switch { .. }
        | Op::Unreachable => at_end && is_last(block, k),
        _ => !at_end,
    }
}

/// Whether what the operands name is there.
fn has_operands(m: &Module, f: u32, op: &Op) -> bool
    ensures { IsTrue result ↔ Each (operands op.now) (λ k w. spec.IsType m.now w.ty × spec.IsOperandIn m.now f w.val) }
{
    for at in 0..op.operand_count() {
        if let Some(w) = op.operand_at(at) {
            if !is_operand(m, f, w) {
                return false;
            }
        }
    }
    true
}

/// Whether the blocks that edges lead to are there.
fn has_targets(m: &Module, f: u32, op: &Op) -> bool
    ensures { IsTrue result ↔ Each (edges op.now) (λ k e. spec.IsBlockIn m.now f e.to.0) }
{
    for at in 0..op.edge_count() {
        if let Some(edge) = op.edge_at(at) {
            if !is_block_in(m, f as usize, edge.to.0 as usize) {
                return false;
            }
        }
    }
    true
}

/// Whether the blocks that the arms of a phi come from are there.
fn are_arms(m: &Module, f: u32, arms: &[Arm]) -> bool
    ensures { IsTrue result ↔ Each arms.now (λ k arm. spec.IsBlockIn m.now f arm.from.0) }
{
    for arm in arms {
        if !is_block_in(m, f as usize, arm.from.0 as usize) {
            return false;
        }
    }
    true
}

fn has_sources(m: &Module, f: u32, op: &Op) -> bool
    ensures { IsTrue result ↔ Each (spec.sources op.now) (λ k b. spec.IsBlockIn m.now f b.0) }
{
    match op {
        Op::Phi { arms } => are_arms(m, f, arms.as_slice()),
        _ => true,
    }
}

/// Whether the types that an instruction writes are there.
fn has_types(m: &Module, op: &Op) -> bool
    ensures { IsTrue result ↔ Each (spec.written_types op.now) (λ k t. spec.IsType m.now t) }
{
    match op {
        Op::Alloca { ty: only, .. } | Op::Gep { elem: only, .. } => is_only_type(m, *only),
        Op::Call(call) | Op::Invoke { call, .. } => is_func_type(m, &call.func_ty),
        _ => true,
    }
}

fn is_only_type(m: &Module, t: TypeId) -> bool
    ensures { IsTrue result ↔ Each (t ∷ []) (λ k t. spec.IsType m.now t) }
{
    is_type(m, t)
}

fn is_func_type(m: &Module, t: &FuncType) -> bool
    ensures { IsTrue result ↔ Each (t.now.ret ∷ t.now.params) (λ k t. spec.IsType m.now t) }
{
    is_type(m, t.ret) && are_types(m, t.params.as_slice())
}

/// Whether each argument of a call has its attributes and its place.
fn fit_args(call: &Call) -> bool
    ensures { IsTrue result ↔ spec.HasArgsIn (Some call.now) }
{
    let count = call.args.len();
    call.attrs.args.len() == count && call.places.args.len() == count
}

fn has_args(op: &Op) -> bool
    ensures { IsTrue result ↔ spec.HasArgs op.now }
{
    match op {
        Op::Call(call) | Op::Invoke { call, .. } => fit_args(call),
        _ => true,
    }
}

/// Whether each thing that an instruction of function `f` names is there.
fn is_instr_in(m: &Module, f: u32, instr: &Instr) -> bool
    ensures { IsTrue result ↔ spec.IsInstrIn m.now f instr.now }
{
    is_type(m, instr.ty)
        && has_operands(m, f, &instr.op)
        && has_targets(m, f, &instr.op)
        && has_sources(m, f, &instr.op)
        && has_types(m, &instr.op)
        && has_args(&instr.op)
}

/// Whether a value is made by instruction `i` of segment number `k`.
fn is_made_at(def: Def, k: usize, i: usize) -> bool
    ensures { IsTrue result ↔ (def ≡ Def.Instr (spot k i)) }
{
    match def {
        Def::Instr(s) => s.seg.0 as usize == k && s.at as usize == i,
        Def::Param(_) => false,
    }
}

/// Whether the result of instruction `i` of segment number `k` names it back.
fn has_result(m: &Module, k: usize, i: usize, instr: &Instr) -> bool
    ensures { IsTrue result ↔ HasResult m.now k i instr.now }
{
    let Some(v) = instr.result else {
        return true;
    };
    match m.values.get(v.0 as usize) {
        Some(info) => is_made_at(info.def, k, i) && info.ty == instr.ty,
        None => false,
    }
}

/// Whether instruction `i` of `count` of segment number `k` of the block is as it should be.
pub(crate) fn is_instr_formed(
    m: &Module,
    block: &Block,
    k: usize,
    count: usize,
    i: usize,
    instr: &Instr,
) -> bool
    requires { i < count }
    ensures { IsTrue result ↔ IsInstrFormed m.now block.now k count i instr.now }
{
    is_placed(block, k, count, i, &instr.op)
        && is_instr_in(m, block.func.0, instr)
        && has_result(m, k, i, instr)
}
