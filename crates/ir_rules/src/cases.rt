//! V12: conditions and cases.
ghost use Rattle.std.specs.Prelude.{ℕ, ◌≡◌, ◌+◌, ◌<◌, ◌↔◌, nat_eq, IsTrue, IfOk, MatchBool, Some, length, slice_get};
ghost use Rattle.std.specs.HashSet.{contains};
ghost use Rattle.ir_rules.specs.Lookups.{AreSeen};
ghost use Rattle.ir_module.specs.WellFormed.{Each};
ghost use Rattle.ir_operands.specs.Types.{AreOne, IsInteger, type_of};
ghost use Rattle.ir_rules.specs.Operations as spec;

use attr_ids::{NoMemory, TypeId};
use ir_module::{Case, Module, Op, Written, literal};
use ir_operands::{are_one, is_integer, is_integer_of};
use std::alloc::Global;
use std::collections::HashSet;

fn has_type(numbers: &[u32], case: &Case, t: TypeId) -> bool
    ensures { IsTrue result ↔ AreOne numbers.now case.now.val.ty t }
{
    are_one(numbers, case.val.ty, t)
}

/// Whether each case has this type.
fn have_type(numbers: &[u32], cases: &[Case], t: TypeId) -> bool
    ensures { IsTrue result ↔ Each cases.now (λ k case. AreOne numbers.now case.val.ty t) }
{
    for case in cases {
        if !has_type(numbers, case, t) {
            return false;
        }
    }
    true
}

/// Notes the number of case `i`; answers whether it is a new one.
fn note_case(
    m: &Module,
    cases: &[Case],
    seen: &mut HashSet<u64>,
    i: usize,
) -> Result<bool, NoMemory>
    requires inside { i < length cases.now }
    requires seen { AreSeen m.now cases.now (λ n. contains nat_eq seen.old n) i }
    ensures { IfOk result (λ is_new. MatchBool is_new (AreSeen m.now cases.now (λ n. contains nat_eq seen.new n) (i + 1))
        (spec.AreDistinct m.now cases.now → ⊥)) }
{
    let case = cases[i];
    match literal(m, &case.val) {
        Some(n) => {
            let is_new = seen.insert(n)?;
            Ok(is_new)
        }
        None => Ok(true),
    }
}

/// Whether no two cases are literals of one number.
fn are_distinct(alloc: Global, m: &Module, cases: &[Case]) -> Result<bool, NoMemory>
    ensures { IfOk result (λ yes. IsTrue yes ↔ spec.AreDistinct m.now cases.now) }
{
    let mut seen: HashSet<u64> = HashSet::new(alloc);
    for i in 0..cases.len() {
        let is_new = note_case(m, cases, &mut seen, i)?;
        if !is_new {
            return Ok(false);
        }
    }
    Ok(true)
}

/// Whether the operand of a `switch` is an integer, and its cases have its type.
fn are_typed(m: &Module, numbers: &[u32], on: &Written, cases: &[Case]) -> bool
    ensures { IsTrue result ↔ (IsInteger (type_of m.now.types on.now.ty) × Each cases.now (λ k case. AreOne numbers.now case.val.ty on.now.ty)) }
{
    is_integer(&m.types, on.ty) && have_type(numbers, cases, on.ty)
}

fn switches(
    alloc: Global,
    m: &Module,
    numbers: &[u32],
    on: &Written,
    cases: &[Case],
) -> Result<bool, NoMemory>
    ensures { IfOk result (λ yes. IsTrue yes ↔ spec.Switches m.now numbers.now on.now cases.now) }
{
    if !are_typed(m, numbers, on, cases) {
        return Ok(false);
    }
    are_distinct(alloc, m, cases)
}

/// V12: whether the condition of a `br` is an i1, the operand of a `switch` an integer, and its cases have its type and
/// differ. It takes time linear in the cases, as far as looking up a number in a set does.
pub fn branches(alloc: Global, m: &Module, numbers: &[u32], op: &Op) -> Result<bool, NoMemory>
    ensures { IfOk result (λ yes. IsTrue yes ↔ spec.Branches m.now numbers.now op.now) }
{
    match op {
        Op::Branch { c, .. } => Ok(is_integer_of(&m.types, c.ty, 1)),
        Op::Switch { on, cases, .. } => switches(alloc, m, numbers, on, cases.as_slice()),
        _ => Ok(true),
    }
}
