//! V6: phis and the edges into their blocks.
ghost use Rattle.std.specs.Prelude.{ℕ, ◌≡◌, ◌==◌, ◌+◌, ◌<◌, ◌↔◌, nat_eq, IsTrue, IfOk, MatchBool, Some, length, map, count_by, slice_get};
ghost use Rattle.std.specs.List.Sorted.{IsPermutation, IsNonDecreasing};
ghost use Rattle.ir_module.specs.declared.op.Arm.{Arm};
ghost use Rattle.ir_module.specs.WellFormed.{Each, IsWellFormed};
ghost use Rattle.ir_operands.specs.Same.{AreOneValue};
ghost use Rattle.ir_rules.specs.Blocks as spec;
ghost use Rattle.std.specs.HashMap.{get};
ghost use Rattle.ir_rules.specs.Lookups.{AreLed};
ghost use Rattle.ir_rules.specs.Named.{IsNamed, HasNames};
ghost use Rattle.ir_rules.specs.Survey.{IsSurveyOf};

use crate::survey::Survey;
use attr_ids::{BlockId, NoMemory};
use ir_module::{Arm, Instr, Module, Op, Written};
use ir_operands::are_one_value;
use std::alloc::Global;
use std::collections::HashMap;

/// A copy of a list of numbers in rising order.
fn sorted(alloc: Global, xs: &[u32]) -> Result<Vec<u32>, NoMemory>
    ensures permutation { IfOk result (λ v. IsPermutation xs.now v.items) }
    ensures rising { IfOk result (λ v. IsNonDecreasing v.items) }
{
    let mut copy = Vec::from_slice(alloc, xs)?;
    copy.sort()?;
    Ok(copy)
}

/// Whether two lists have the same numbers, with repeats, in whatever order.
fn have_same(alloc: Global, xs: &[u32], ys: &[u32]) -> Result<bool, NoMemory>
    ensures { IfOk result (λ yes. IsTrue yes ↔ spec.AreSame xs.now ys.now) }
{
    let xs = sorted(alloc, xs)?;
    let ys = sorted(alloc, ys)?;
    Ok(xs == ys)
}

/// The blocks that arms come from.
fn blocks_of(alloc: Global, arms: &[Arm]) -> Result<Vec<u32>, NoMemory>
    ensures { IfOk result (λ blocks. blocks.items ≡ map (λ arm. arm.from.0) arms.now) }
{
    let mut blocks = Vec::with_capacity(alloc, arms.len())?;
    for arm in arms {
        blocks.push(arm.from.0)?;
    }
    Ok(blocks)
}

/// Whether as many arms come from each block as it stands in a list.
fn are_from(alloc: Global, arms: &[Arm], sources: &[u32]) -> Result<bool, NoMemory>
    ensures { IfOk result (λ yes. IsTrue yes ↔ ((x : ℕ) → spec.arm_count arms.now x ≡ count_by (λ y. y == x) sources.now)) }
{
    let blocks = blocks_of(alloc, arms)?;
    have_same(alloc, blocks.as_slice(), sources)
}

/// Whether two arms have one value.
fn are_one(m: &Module, numbers: &[u32], a: &Written, b: &Written) -> bool
    requires formed { IsWellFormed m.now }
    requires named { IsNamed m.now a.now }
    requires other_named { IsNamed m.now b.now }
    ensures { IsTrue result ↔ AreOneValue m.now.types numbers.now m.now.parts a.now b.now }
{
    are_one_value(&m.types, numbers, m.parts.as_slice(), a, b)
}

/// The number of the first arm from a block, if one was noted.
fn first_from(firsts: &HashMap<u32, usize>, b: BlockId) -> Option<usize>
    ensures { result ≡ get nat_eq firsts.now b.0 }
{
    firsts.get(&b.0).copied()
}

/// Holds arm `i` against the first one from its block, or notes that it is the first; answers whether they are one value.
fn note_arm(
    m: &Module,
    numbers: &[u32],
    arms: &[Arm],
    firsts: &mut HashMap<u32, usize>,
    i: usize,
) -> Result<bool, NoMemory>
    requires formed { IsWellFormed m.now }
    requires named { Each arms.now (λ k arm. IsNamed m.now arm.val) }
    requires inside { i < length arms.now }
    requires led { AreLed m.now numbers.now arms.now (get nat_eq firsts.old) i }
    ensures { IfOk result (λ agrees. MatchBool agrees (AreLed m.now numbers.now arms.now (get nat_eq firsts.new) (i + 1))
        (spec.AgreeByBlock m.now numbers.now arms.now → ⊥)) }
{
    let arm = arms[i];
    match first_from(firsts, arm.from) {
        Some(first) => {
            let other = arms[first];
            Ok(are_one(m, numbers, &other.val, &arm.val))
        }
        None => {
            firsts.insert(arm.from.0, i)?;
            Ok(true)
        }
    }
}

/// Whether arms of one block have one value: each has that of the first arm from its block.
fn agree_by_block(
    alloc: Global,
    m: &Module,
    numbers: &[u32],
    arms: &[Arm],
) -> Result<bool, NoMemory>
    requires formed { IsWellFormed m.now }
    requires named { Each arms.now (λ k arm. IsNamed m.now arm.val) }
    ensures { IfOk result (λ yes. IsTrue yes ↔ spec.AgreeByBlock m.now numbers.now arms.now) }
{
    let mut firsts: HashMap<u32, usize> = HashMap::new(alloc);
    for i in 0..arms.len() {
        let agrees = note_arm(m, numbers, arms, &mut firsts, i)?;
        if !agrees {
            return Ok(false);
        }
    }
    Ok(true)
}

/// Whether a phi has an arm for each edge into its block, which leads from these blocks, and arms of one block have one
/// value.
fn arms_fit(
    alloc: Global,
    m: &Module,
    numbers: &[u32],
    sources: &[u32],
    arms: &[Arm],
) -> Result<bool, NoMemory>
    requires formed { IsWellFormed m.now }
    requires named { Each arms.now (λ k arm. IsNamed m.now arm.val) }
    ensures { IfOk result (λ yes. IsTrue yes ↔ (((x : ℕ) → spec.arm_count arms.now x ≡ count_by (λ y. y == x) sources.now)
        × spec.AgreeByBlock m.now numbers.now arms.now)) }
{
    let incoming = are_from(alloc, arms, sources)?;
    if !incoming {
        return Ok(false);
    }
    agree_by_block(alloc, m, numbers, arms)
}

/// V6 of an instruction in a block: whether a phi has an arm for each edge into its block, and arms of one block have one
/// value. It takes time linear in the arms up to a logarithm.
pub fn has_arms(
    alloc: Global,
    m: &Module,
    numbers: &[u32],
    survey: &Survey,
    b: BlockId,
    instr: &Instr,
) -> Result<bool, NoMemory>
    requires formed { IsWellFormed m.now }
    requires surveyed { IsSurveyOf m.now survey.now }
    requires there { b.0 < length m.now.blocks }
    requires named { HasNames m.now instr.now }
    ensures { IfOk result (λ yes. IsTrue yes ↔ spec.HasArms m.now numbers.now b.0 instr.now.op) }
{
    match &instr.op {
        Op::Phi { arms } => arms_fit(alloc, m, numbers, survey.sources_of(b), arms.as_slice()),
        _ => Ok(true),
    }
}
