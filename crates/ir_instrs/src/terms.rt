//! Terminators.
ghost use Rattle.std.specs.Prelude.{◌≡◌, ◌∷◌, [], length, IfOk};
ghost use Rattle.ir_module.specs.declared.op.Op.TheVariants as op;
ghost use Rattle.ir_operands.specs.Constants.{ArePartsBelow};
ghost use Rattle.ir_instrs.specs.Reading.{reading, IsSound};
ghost use Rattle.ir_instrs.specs.Uses.{Takes, each};
ghost use Rattle.ir_instrs.specs.Uses.Use.{Label};
ghost use Rattle.ir_instrs.specs.Operands as operands;
ghost use Rattle.ir_instrs.specs.Terms as spec;

use crate::operands::{label, literal, tvalue};
use crate::source::{Source, type_of};
use attr_ids::NoMemory;
use ir_consts::Laid;
use ir_module::{Case, Cases, Op};
use ir_tree::{Const, Leaf, Switch, Term, Tvalue};
use std::alloc::Global;

/// A case of a switch.
fn case_of(
    alloc: Global,
    src: &Source<'_>,
    case: &ir_tree::Case,
    notes: &mut Laid,
) -> Result<Case, NoMemory>
    requires sound { IsSound src.now }
    requires below { ArePartsBelow notes.old.parts.items }
    ensures value { IfOk result (λ c. c ≡ spec.case_of (reading src.now) notes.old.parts.items case.now) }
    ensures takes { IfOk result (λ _. Takes (reading src.now) (spec.case_uses (reading src.now) case.now) notes.old notes.new) }
{
    let value = Const::Int(case.value);
    let ty = type_of(alloc, src, &case.ty)?;
    let val = literal(alloc, src, ty, &value, notes)?;
    let to = label(src, case.to, notes);
    Ok(Case { val, to })
}

/// The cases of a switch.
fn cases_of(
    alloc: Global,
    src: &Source<'_>,
    list: &[ir_tree::Case],
    notes: &mut Laid,
) -> Result<Cases, NoMemory>
    requires sound { IsSound src.now }
    requires below { ArePartsBelow notes.old.parts.items }
    ensures value { IfOk result (λ cases. cases ≡ spec.cases_of (reading src.now) notes.old.parts.items list.now) }
    ensures takes { IfOk result (λ _. Takes (reading src.now) (spec.cases_uses (reading src.now) list.now) notes.old notes.new) }
{
    let mut cases = Cases::new(alloc);
    for case in list {
        let made = case_of(alloc, src, case, notes)?;
        cases.push(made)?;
    }
    Ok(cases)
}

fn switch(alloc: Global, src: &Source<'_>, x: &Switch, notes: &mut Laid) -> Result<Op, NoMemory>
    requires sound { IsSound src.now }
    requires below { ArePartsBelow notes.old.parts.items }
    ensures value { IfOk result (λ o. o ≡ spec.switch (reading src.now) notes.old.parts.items x.now) }
    ensures takes { IfOk result (λ _. Takes (reading src.now) (spec.switch_uses (reading src.now) x.now) notes.old notes.new) }
{
    let on = tvalue(alloc, src, &x.on, notes)?;
    let other = label(src, x.other, notes);
    let cases = cases_of(alloc, src, x.cases.as_slice(), notes)?;
    Ok(Op::Switch { on, other, cases })
}

fn branch(
    alloc: Global,
    src: &Source<'_>,
    on: &Tvalue,
    yes: Leaf,
    no: Leaf,
    notes: &mut Laid,
) -> Result<Op, NoMemory>
    requires sound { IsSound src.now }
    requires below { ArePartsBelow notes.old.parts.items }
    ensures value { IfOk result (λ o. o ≡ spec.branch (reading src.now) notes.old.parts.items on.now yes no) }
    ensures takes { IfOk result (λ _. Takes (reading src.now) (spec.branch_uses (reading src.now) on.now yes no) notes.old notes.new) }
{
    let c = tvalue(alloc, src, on, notes)?;
    let yes = label(src, yes, notes);
    let no = label(src, no, notes);
    Ok(Op::Branch { c, yes, no })
}

fn ret(alloc: Global, src: &Source<'_>, of: &Tvalue, notes: &mut Laid) -> Result<Op, NoMemory>
    requires sound { IsSound src.now }
    requires below { ArePartsBelow notes.old.parts.items }
    ensures value { IfOk result (λ o. o ≡ spec.ret (reading src.now) notes.old.parts.items of.now) }
    ensures takes { IfOk result (λ _. Takes (reading src.now) (operands.tvalue_uses (reading src.now) of.now) notes.old notes.new) }
{
    let val = tvalue(alloc, src, of, notes)?;
    Ok(Op::Ret { val: Some(val) })
}

fn resume(alloc: Global, src: &Source<'_>, of: &Tvalue, notes: &mut Laid) -> Result<Op, NoMemory>
    requires sound { IsSound src.now }
    requires below { ArePartsBelow notes.old.parts.items }
    ensures value { IfOk result (λ o. o ≡ op.Resume (operands.tvalue (reading src.now) notes.old.parts.items of.now)) }
    ensures takes { IfOk result (λ _. Takes (reading src.now) (operands.tvalue_uses (reading src.now) of.now) notes.old notes.new) }
{
    let val = tvalue(alloc, src, of, notes)?;
    Ok(Op::Resume { val })
}

fn jump(src: &Source<'_>, to: Leaf, notes: &mut Laid) -> Op
    requires sound { IsSound src.now }
    requires below { ArePartsBelow notes.old.parts.items }
    ensures value { result ≡ op.Jump (operands.label (reading src.now) to) }
    ensures takes { Takes (reading src.now) (Label to ∷ []) notes.old notes.new }
{
    let to = label(src, to, notes);
    Op::Jump { to }
}

/// What a terminator does, and what it names.
#[tactic(auto, using(crate::proofs::Taking::takes_none), unfolding(crate::specs::Terms::term_of, crate::specs::Terms::term_uses))]
pub fn term_of(
    alloc: Global,
    src: &Source<'_>,
    term: &Term,
    notes: &mut Laid,
) -> Result<Op, NoMemory>
    requires sound { IsSound src.now }
    requires below { ArePartsBelow notes.old.parts.items }
    ensures value { IfOk result (λ o. o ≡ spec.term_of (reading src.now) notes.old.parts.items term.now) }
    ensures takes { IfOk result (λ _. Takes (reading src.now) (spec.term_uses (reading src.now) term.now) notes.old notes.new) }
{
    match term {
        Term::RetVoid { .. } => Ok(Op::Ret { val: None }),
        Term::Ret { of, .. } => ret(alloc, src, of.get(), notes),
        Term::Jump { to, .. } => Ok(jump(src, *to, notes)),
        Term::Branch { on, yes, no, .. } => branch(alloc, src, on.get(), *yes, *no, notes),
        Term::Switch(x) => switch(alloc, src, x.get(), notes),
        Term::Unreachable { .. } => Ok(Op::Unreachable),
        Term::Resume { of, .. } => resume(alloc, src, of.get(), notes),
    }
}

/// The first token of a terminator.
#[tactic(auto, unfolding(crate::specs::Terms::term_first))]
pub fn term_first(term: &Term) -> Leaf
    ensures { result ≡ spec.term_first term.now }
{
    match term {
        Term::RetVoid { op }
        | Term::Ret { op, .. }
        | Term::Jump { op, .. }
        | Term::Branch { op, .. }
        | Term::Unreachable { op }
        | Term::Resume { op, .. } => *op,
        Term::Switch(x) => x.get().op,
    }
}
