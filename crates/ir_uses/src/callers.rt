//! The direct calls of functions, gathered in text order.
ghost use Rattle.std.specs.Prelude.{◌≡◌, ◌+◌, ◌<◌, ℕ, List, [], ◌∷◌, ◌++◌, length, slice_get, slice_set, Some, OnOk, IfOk, IsSome};
ghost use Rattle.ir_module.specs.WellFormed.{HasFew};
ghost use Rattle.ir_module.specs.Places.{spot, instr_at};
ghost use Rattle.ir_uses.specs.Noted.{AreCallListsTo};
ghost use Rattle.ir_uses.specs.Uses.{IsCallList};

use attr_ids::{NoMemory, SegId};
use ir_module::{Module, Seg, Spot, direct_callee, instr_at};
use row_lists::Rows;
use std::alloc::Global;

/// Puts a call at the end of a function's list.
fn note(lists: &mut Rows<Spot>, at: usize, here: Spot) -> Result<(), NoMemory>
    requires { at < length lists.old }
    ensures { OnOk result ((cs : List Spot) → slice_get lists.old at ≡ Some cs → lists.new ≡ slice_set lists.old at (cs ++ here ∷ [])) }
{
    lists.push(at, here)
}

/// Notes an instruction, if it is a direct call.
fn note_instr(m: &Module, lists: &mut Rows<Spot>, here: Spot) -> Result<(), NoMemory>
    requires few { HasFew m.now }
    requires there { IsSome (instr_at m.now here) }
    requires lists { AreCallListsTo m.now here lists.old }
    ensures { OnOk result (AreCallListsTo m.now (spot here.seg.0 (here.at + 1)) lists.new) }
{
    let Some(instr) = instr_at(m, here) else {
        unreachable!()
    };
    match direct_callee(m, &instr.op) {
        Some(f) => note(lists, f.0 as usize, here),
        None => Ok(()),
    }
}

/// Notes the direct calls of a segment.
fn note_seg(m: &Module, lists: &mut Rows<Spot>, seg: SegId) -> Result<(), NoMemory>
    requires few { HasFew m.now }
    requires there { seg.0 < length m.now.segs }
    requires lists { AreCallListsTo m.now (spot seg.0 0) lists.old }
    ensures { OnOk result (AreCallListsTo m.now (spot (seg.0 + 1) 0) lists.new) }
{
    let instrs = &m.seg(seg).instrs;
    for at in 0..instrs.len() as u32 {
        note_instr(m, lists, Spot { seg, at })?;
    }
    Ok(())
}

/// Notes the direct calls of the module.
fn note_module(m: &Module, lists: &mut Rows<Spot>) -> Result<(), NoMemory>
    requires few { HasFew m.now }
    requires lists { AreCallListsTo m.now (spot 0 0) lists.old }
    ensures { OnOk result (AreCallListsTo m.now (spot (length m.now.segs) 0) lists.new) }
{
    for seg in 0..m.segs.len() as u32 {
        note_seg(m, lists, SegId(seg))?;
    }
    Ok(())
}

/// Counts one more call of a function. A count says how much room to take, so it may stop rising.
fn count(counts: &mut [u32], at: usize)
    requires { at < length counts.old }
{
    counts[at] = counts[at].saturating_add(1);
}

/// Counts the direct calls of a segment.
fn count_seg(m: &Module, counts: &mut [u32], seg: &Seg)
    requires { length counts.old ≡ length m.now.funcs }
{
    for instr in seg.instrs.as_slice() {
        if let Some(f) = direct_callee(m, &instr.op) {
            count(counts, f.0 as usize);
        }
    }
}

/// How many direct calls each function has.
fn call_counts(alloc: Global, m: &Module) -> Result<Vec<u32>, NoMemory>
    ensures { IfOk result (λ counts. length counts.items ≡ length m.now.funcs) }
{
    let mut counts = vec![in alloc; 0u32; m.funcs.len()]?;
    for seg in m.segs.as_slice() {
        count_seg(m, &mut counts, seg);
    }
    Ok(counts)
}

/// An empty list for each function, with room for its direct calls.
fn empty_lists(alloc: Global, m: &Module) -> Result<Rows<Spot>, NoMemory>
    ensures { IfOk result (λ lists. (f : ℕ) → f < length m.now.funcs → slice_get lists f ≡ Some []) }
{
    let no_call = Spot {
        seg: SegId(0),
        at: 0,
    };
    let counts = call_counts(alloc, m)?;
    Rows::with_rooms(alloc, &counts, no_call)
}

/// The direct calls of each function.
pub(crate) fn callers(alloc: Global, m: &Module) -> Result<Rows<Spot>, NoMemory>
    requires { HasFew m.now }
    ensures { IfOk result (λ lists. (f : ℕ) → f < length m.now.funcs → (cs : List Spot) × (slice_get lists f ≡ Some cs) × IsCallList m.now f cs) }
{
    let mut lists = empty_lists(alloc, m)?;
    note_module(m, &mut lists)?;
    Ok(lists)
}
