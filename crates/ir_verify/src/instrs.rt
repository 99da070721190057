//! The rules of instructions, but V18.
ghost use Rattle.std.specs.Prelude.{◌≡◌, ◌<◌, ◌^◌, ℕ, length, slice_get, Some, IfOk};
ghost use Rattle.ir_module.specs.declared.module.Block.{Block};
ghost use Rattle.ir_module.specs.declared.module.Func.{Func};
ghost use Rattle.ir_module.specs.declared.module.Seg.{Seg};
ghost use Rattle.ir_module.specs.WellFormed.{Each, IsWellFormed};
ghost use Rattle.ir_rules.specs.Named.{HasNames};
ghost use Rattle.ir_rules.specs.Survey.{IsPhiCount, IsSurveyOf};
ghost use Rattle.ir_verify.specs.Demands.{OfInstr, value_rules, operation_rules, flow_rules};
ghost use Rattle.ir_verify.specs.Judging.{Judged, JudgedIn, Keeps, Breaks, IsOf};
ghost use Rattle.ir_verify.specs.Verified.{IsHomeOf, SegKeeps, SegBreaks, placed};

use crate::broken::{Broken, first_of, unless};
use crate::rule::Rule;
use attr_ids::{NoMemory, SegId};
use ir_module::{Block, Func, Instr, Module, Seg};
use ir_rules::{
    Survey, branches, calls_as_written, casts, has_arms, has_fitting_literals, has_pads,
    has_pointer_address, has_scalars, has_sizes, has_written_types, indexes, is_aligned,
    is_on_integers, is_pad_pair, leaves_entry_free, phi_count, phis_come_first, returns, selects,
};
use std::alloc::Global;

/// What is wrong with the operands of an instruction and its result.
fn of_values(m: &Module, numbers: &[u32], instr: &Instr) -> Option<Broken>
    requires formed { IsWellFormed m.now }
    requires named { HasNames m.now instr.now }
    ensures { (func : Func) (block : Block) (k : ℕ) (seg : Seg) (i : ℕ) → JudgedIn value_rules instr.now.span.from
        (OfInstr m.now numbers.now (placed func block k seg i instr.now)) result }
{
    let at = instr.span.from;
    let v1 = unless(has_scalars(m, numbers, instr), Rule::V1, at);
    let v2 = unless(has_sizes(m, numbers, instr), Rule::V2, at);
    let v7 = unless(has_written_types(m, numbers, instr), Rule::V7, at);
    let v17 = unless(has_fitting_literals(m, numbers, instr), Rule::V17, at);
    first_of(v1, first_of(v2, first_of(v7, first_of(v17, None))))
}

/// What is wrong with what an instruction does.
fn of_operation(m: &Module, numbers: &[u32], instr: &Instr) -> Option<Broken>
    requires formed { IsWellFormed m.now }
    requires named { HasNames m.now instr.now }
    ensures { (func : Func) (block : Block) (k : ℕ) (seg : Seg) (i : ℕ) → JudgedIn operation_rules instr.now.span.from
        (OfInstr m.now numbers.now (placed func block k seg i instr.now)) result }
{
    let at = instr.span.from;
    let v8 = unless(is_on_integers(m, &instr.op), Rule::V8, at);
    let v9 = unless(casts(m, instr), Rule::V9, at);
    let v10 = unless(has_pointer_address(m, &instr.op), Rule::V10, at);
    let v11 = unless(indexes(m, numbers, instr), Rule::V11, at);
    let v14 = unless(selects(m, numbers, &instr.op), Rule::V14, at);
    let v15 = unless(calls_as_written(m, numbers, instr), Rule::V15, at);
    let v16 = unless(is_aligned(&instr.op), Rule::V16, at);
    let v19 = unless(is_pad_pair(m, instr), Rule::V19, at);
    let behind = first_of(v14, first_of(v15, first_of(v16, first_of(v19, None))));
    first_of(v8, first_of(v9, first_of(v10, first_of(v11, behind))))
}

/// What is wrong with how an instruction stands among others: number `i` of a segment with so many phis at its front.
fn of_flow(
    alloc: Global,
    m: &Module,
    numbers: &[u32],
    survey: &Survey,
    s: SegId,
    phis: usize,
    i: usize,
    instr: &Instr,
) -> Result<Option<Broken>, NoMemory>
    requires formed { IsWellFormed m.now }
    requires surveyed { IsSurveyOf m.now survey.now }
    requires there { s.0 < length m.now.segs }
    requires counted { (seg : Seg) → slice_get m.now.segs s.0 ≡ Some seg → IsPhiCount seg.instrs phis }
    requires at { (seg : Seg) → slice_get m.now.segs s.0 ≡ Some seg → slice_get seg.instrs i ≡ Some instr.now }
    requires named { HasNames m.now instr.now }
    ensures { IfOk result (λ found. (func : Func) (block : Block) (seg : Seg) → slice_get m.now.segs s.0 ≡ Some seg → IsHomeOf m.now seg block func
        → JudgedIn flow_rules instr.now.span.from
        (OfInstr m.now numbers.now (placed func block s.0 seg i instr.now)) found) }
{
    let at = instr.span.from;
    let k = s.0 as usize;
    let seg = m.seg(s);
    let block = m.block(seg.block);
    let func = m.func(block.func);
    let v4 = unless(leaves_entry_free(func, &instr.op), Rule::V4, at);
    let v5 = unless(
        phis_come_first(block, k, seg, phis, i, &instr.op),
        Rule::V5,
        at,
    );
    let v6 = unless(
        has_arms(alloc, m, numbers, survey, seg.block, instr)?,
        Rule::V6,
        at,
    );
    let v12 = unless(branches(alloc, m, numbers, &instr.op)?, Rule::V12, at);
    let v13 = unless(returns(m, numbers, func, &instr.op), Rule::V13, at);
    let v20 = unless(
        has_pads(m, survey, block, k, seg, phis, i, instr),
        Rule::V20,
        at,
    );
    let behind = first_of(v12, first_of(v13, first_of(v20, None)));
    Ok(first_of(v4, first_of(v5, first_of(v6, behind))))
}

/// What is wrong with an instruction.
fn of_instr(
    alloc: Global,
    m: &Module,
    numbers: &[u32],
    survey: &Survey,
    s: SegId,
    phis: usize,
    i: usize,
    instr: &Instr,
) -> Result<Option<Broken>, NoMemory>
    requires formed { IsWellFormed m.now }
    requires surveyed { IsSurveyOf m.now survey.now }
    requires there { s.0 < length m.now.segs }
    requires counted { (seg : Seg) → slice_get m.now.segs s.0 ≡ Some seg → IsPhiCount seg.instrs phis }
    requires at { (seg : Seg) → slice_get m.now.segs s.0 ≡ Some seg → slice_get seg.instrs i ≡ Some instr.now }
    requires named { HasNames m.now instr.now }
    ensures { IfOk result (λ found. (func : Func) (block : Block) (seg : Seg) → slice_get m.now.segs s.0 ≡ Some seg → IsHomeOf m.now seg block func
        → Judged (Keeps (OfInstr m.now numbers.now (placed func block s.0 seg i instr.now)))
        (Breaks instr.now.span.from (OfInstr m.now numbers.now (placed func block s.0 seg i instr.now))) found) }
{
    let values = of_values(m, numbers, instr);
    let operation = of_operation(m, numbers, instr);
    let flow = of_flow(alloc, m, numbers, survey, s, phis, i, instr)?;
    Ok(first_of(values, first_of(operation, flow)))
}

/// What is wrong with the instructions of a segment.
fn of_seg(
    alloc: Global,
    m: &Module,
    numbers: &[u32],
    survey: &Survey,
    s: SegId,
) -> Result<Option<Broken>, NoMemory>
    requires formed { IsWellFormed m.now }
    requires surveyed { IsSurveyOf m.now survey.now }
    requires there { s.0 < length m.now.segs }
    ensures { IfOk result (λ found. (seg : Seg) → slice_get m.now.segs s.0 ≡ Some seg
        → Judged (SegKeeps m.now numbers.now s.0 seg) (SegBreaks m.now numbers.now s.0 seg) found) }
{
    let instrs = m.seg(s).instrs.as_slice();
    let phis = phi_count(instrs);
    let mut found = None;
    for (i, instr) in instrs.iter().enumerate() {
        let here = of_instr(alloc, m, numbers, survey, s, phis, i, instr)?;
        found = first_of(found, here);
    }
    Ok(found)
}

/// What is wrong with the instructions of a module.
pub(crate) fn of_segs(
    alloc: Global,
    m: &Module,
    numbers: &[u32],
    survey: &Survey,
) -> Result<Option<Broken>, NoMemory>
    requires formed { IsWellFormed m.now }
    requires surveyed { IsSurveyOf m.now survey.now }
    ensures { IfOk result (λ found. Judged (Each m.now.segs (SegKeeps m.now numbers.now)) (IsOf m.now.segs (SegBreaks m.now numbers.now)) found) }
{
    let mut found = None;
    for s in 0..m.segs.len() as u32 {
        let here = of_seg(alloc, m, numbers, survey, SegId(s))?;
        found = first_of(found, here);
    }
    Ok(found)
}
