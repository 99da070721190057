//! The uses of values, gathered in text order.
ghost use Rattle.std.specs.Prelude.{◌≡◌, ◌+◌, ◌<◌, ◌≤◌, ℕ, List, [], ◌∷◌, ◌++◌, length, slice_get, slice_set, Some, OnOk, IfOk, IfSome, IfNone, IsSome};
ghost use Rattle.std.specs.Prelude.{IsSomeAnd};
ghost use Rattle.ir_module.specs.WellFormed.{HasFew};
ghost use Rattle.ir_module.specs.Places.{instr_at};
ghost use Rattle.ir_module.specs.Operands.{operands};
ghost use Rattle.ir_module.specs.declared.op.Written.{Written};
ghost use Rattle.ir_uses.specs.Noted.{use_at, AreUseListsTo};
ghost use Rattle.ir_uses.specs.Uses.{IsUseList};

use crate::lists::Use;
use attr_ids::{NoMemory, SegId, ValueId};
use ir_module::{Module, Op, Operand, Seg, Spot, instr_at};
use row_lists::Rows;
use std::alloc::Global;

/// Puts a use at the end of a value's list, if there is one.
fn note(lists: &mut Rows<Use>, at: usize, here: Use) -> Result<(), NoMemory>
    ensures none { OnOk result (length lists.old ≤ at → lists.new ≡ lists.old) }
    ensures noted { OnOk result ((us : List Use) → slice_get lists.old at ≡ Some us → lists.new ≡ slice_set lists.old at (us ++ here ∷ [])) }
{
    if at < lists.len() {
        lists.push(at, here)?;
    }
    Ok(())
}

/// The value that an operand of an instruction is, if it is one.
fn value_at(op: &Op, at: usize) -> Option<ValueId>
    ensures some { IfSome result (λ v. (w : Written) × (slice_get (operands op.now) at ≡ Some w) × (w.val ≡ Operand.Value v)) }
    ensures none { IfNone result ((w : Written) (v : ValueId) → slice_get (operands op.now) at ≡ Some w → w.val ≡ Operand.Value v → ⊥) }
{
    match op.operand_at(at)?.val {
        Operand::Value(v) => Some(v),
        _ => None,
    }
}

/// Notes the values that are operands of an instruction.
fn note_operands(m: &Module, lists: &mut Rows<Use>, spot: Spot) -> Result<(), NoMemory>
    requires few { HasFew m.now }
    requires there { IsSome (instr_at m.now spot) }
    requires lists { AreUseListsTo m.now (use_at spot.seg.0 spot.at 0) lists.old }
    ensures { OnOk result (AreUseListsTo m.now (use_at spot.seg.0 (spot.at + 1) 0) lists.new) }
{
    let Some(instr) = instr_at(m, spot) else {
        unreachable!()
    };
    for operand in 0..instr.op.operand_count() as u32 {
        if let Some(v) = value_at(&instr.op, operand as usize) {
            note(lists, v.0 as usize, Use { spot, operand })?;
        }
    }
    Ok(())
}

/// Notes the values that are operands in a segment.
fn note_seg(m: &Module, lists: &mut Rows<Use>, seg: SegId) -> Result<(), NoMemory>
    requires few { HasFew m.now }
    requires there { seg.0 < length m.now.segs }
    requires lists { AreUseListsTo m.now (use_at seg.0 0 0) lists.old }
    ensures { OnOk result (AreUseListsTo m.now (use_at (seg.0 + 1) 0 0) lists.new) }
{
    let instrs = &m.seg(seg).instrs;
    for at in 0..instrs.len() as u32 {
        note_operands(m, lists, Spot { seg, at })?;
    }
    Ok(())
}

/// Notes the values that are operands in the module.
fn note_module(m: &Module, lists: &mut Rows<Use>) -> Result<(), NoMemory>
    requires few { HasFew m.now }
    requires lists { AreUseListsTo m.now (use_at 0 0 0) lists.old }
    ensures { OnOk result (AreUseListsTo m.now (use_at (length m.now.segs) 0 0) lists.new) }
{
    for seg in 0..m.segs.len() as u32 {
        note_seg(m, lists, SegId(seg))?;
    }
    Ok(())
}

/// Counts one more use of a value. A count says how much room to take, so it may stop rising.
fn count(counts: &mut [u32], at: usize) {
    if at < counts.len() {
        counts[at] = counts[at].saturating_add(1);
    }
}

/// Counts the values that are operands of an instruction.
fn count_operands(counts: &mut [u32], op: &Op) {
    for operand in 0..op.operand_count() {
        if let Some(v) = value_at(op, operand) {
            count(counts, v.0 as usize);
        }
    }
}

/// Counts the values that are operands in a segment.
fn count_seg(counts: &mut [u32], seg: &Seg) {
    for instr in seg.instrs.as_slice() {
        count_operands(counts, &instr.op);
    }
}

/// How many uses each value has.
fn use_counts(alloc: Global, m: &Module) -> Result<Vec<u32>, NoMemory>
    ensures { IfOk result (λ counts. length counts.items ≡ length m.now.values) }
{
    let mut counts = vec![in alloc; 0u32; m.values.len()]?;
    for seg in m.segs.as_slice() {
        count_seg(&mut counts, seg);
    }
    Ok(counts)
}

/// An empty list for each value, with room for its uses.
fn empty_lists(alloc: Global, m: &Module) -> Result<Rows<Use>, NoMemory>
    ensures { IfOk result (λ lists. (v : ℕ) → v < length m.now.values → slice_get lists v ≡ Some []) }
{
    let spot = Spot {
        seg: SegId(0),
        at: 0,
    };
    let no_use = Use { spot, operand: 0 };
    let counts = use_counts(alloc, m)?;
    Rows::with_rooms(alloc, &counts, no_use)
}

/// The uses of each value.
pub(crate) fn value_uses(alloc: Global, m: &Module) -> Result<Rows<Use>, NoMemory>
    requires { HasFew m.now }
    ensures { IfOk result (λ lists. (v : ℕ) → v < length m.now.values → (us : List Use) × (slice_get lists v ≡ Some us) × IsUseList m.now v us) }
{
    let mut lists = empty_lists(alloc, m)?;
    note_module(m, &mut lists)?;
    Ok(lists)
}
