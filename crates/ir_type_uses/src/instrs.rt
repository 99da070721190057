//! The types that instructions write.
ghost use Rattle.std.specs.Prelude.{◌≡◌, ◌++◌, OnOk};
ghost use Rattle.std.specs.List.{flat_map};
ghost use Rattle.ir_type_uses.specs.Uses.{listed};
ghost use Rattle.ir_type_uses.specs.Written as spec;

use crate::uses::{Uses, push, push_all};
use crate::values::{push_tconst, push_tvalue, push_tvalues, push_value};
use attr_ids::NoMemory;
use ir_tree::{Arg, Arm, Called, Callee, Case, Clause, Ftype, Instr, Leaf, Term, Ty, Value};

/// The types of the parameters of a written type of function.
fn push_ftype<'a>(uses: &mut Uses<'a>, at: Leaf, params: &'a Ftype) -> Result<(), NoMemory>
    ensures { OnOk result (listed uses.new.items ≡ listed uses.old.items ++ spec.ftype at params.now) }
{
    match params {
        Ftype::Listed { types, .. } => push_all(uses, at, types.as_slice()),
        _ => Ok(()),
    }
}

fn push_callee<'a>(uses: &mut Uses<'a>, at: Leaf, callee: &'a Callee) -> Result<(), NoMemory>
    ensures { OnOk result (listed uses.new.items ≡ listed uses.old.items ++ spec.callee at callee.now) }
{
    push(uses, at, &callee.result)?;
    if let Some(params) = &callee.params {
        push_ftype(uses, at, params)?;
    }
    push_value(uses, at, &callee.value)
}

fn push_args<'a>(uses: &mut Uses<'a>, at: Leaf, args: &'a [Arg]) -> Result<(), NoMemory>
    ensures { OnOk result (listed uses.new.items ≡ listed uses.old.items ++ flat_map (spec.arg at) args.now) }
{
    for arg in args {
        push(uses, at, &arg.ty)?;
        push_value(uses, at, &arg.value)?;
    }
    Ok(())
}

/// What a call or an invoke writes.
pub(crate) fn push_called<'a>(
    uses: &mut Uses<'a>,
    at: Leaf,
    called: &'a Called,
) -> Result<(), NoMemory>
    ensures { OnOk result (listed uses.new.items ≡ listed uses.old.items ++ spec.called at called.now) }
{
    push_callee(uses, at, &called.callee)?;
    push_args(uses, at, called.arguments.args.as_slice())
}

fn push_arms<'a>(uses: &mut Uses<'a>, at: Leaf, arms: &'a [Arm]) -> Result<(), NoMemory>
    ensures { OnOk result (listed uses.new.items ≡ listed uses.old.items ++ flat_map (spec.arm at) arms.now) }
{
    for arm in arms {
        push_value(uses, at, &arm.value)?;
    }
    Ok(())
}

fn push_clauses<'a>(uses: &mut Uses<'a>, at: Leaf, clauses: &'a [Clause]) -> Result<(), NoMemory>
    ensures { OnOk result (listed uses.new.items ≡ listed uses.old.items ++ flat_map (spec.clause at) clauses.now) }
{
    for clause in clauses {
        push_tconst(uses, at, &clause.value)?;
    }
    Ok(())
}

/// A type and the two operands of it.
fn push_pair<'a>(
    uses: &mut Uses<'a>,
    at: Leaf,
    ty: &'a Ty,
    left: &'a Value,
    right: &'a Value,
) -> Result<(), NoMemory>
    ensures { OnOk result (listed uses.new.items ≡ listed uses.old.items ++ (spec.ty at ty.now ++ (spec.value at left.now ++ spec.value at right.now))) }
{
    push(uses, at, ty)?;
    push_value(uses, at, left)?;
    push_value(uses, at, right)
}

/// The types of an instruction whose first token is `at`.
pub(crate) fn push_instr<'a>(
    uses: &mut Uses<'a>,
    at: Leaf,
    instr: &'a Instr,
) -> Result<(), NoMemory>
    ensures { OnOk result (listed uses.new.items ≡ listed uses.old.items ++ spec.instr at instr.now) }
{
    match instr {
        Instr::Binop {
            ty,
            left,
            right,
            ..
        } => push_pair(uses, at, ty, left, right),
        Instr::Icmp(x) => push_pair(uses, at, &x.get().ty, &x.get().left, &x.get().right),
        Instr::Cast { of, to, .. } => {
            push_tvalue(uses, at, of)?;
            push(uses, at, to)
        }
        Instr::Freeze { of, .. } => push_tvalue(uses, at, of),
        Instr::Call(x) => push_called(uses, at, &x.get().called),
        Instr::Phi { ty, arms, .. } => {
            push(uses, at, ty)?;
            push_arms(uses, at, arms.as_slice())
        }
        Instr::Cleanup { ty, clauses, .. } => {
            push(uses, at, ty)?;
            push_clauses(uses, at, clauses.as_slice())
        }
        Instr::LandingPad { ty, clauses, .. } => {
            push(uses, at, ty)?;
            push_clauses(uses, at, clauses.as_slice())
        }
        Instr::Select(_)
        | Instr::Alloca(_)
        | Instr::Load { .. }
        | Instr::Store(_)
        | Instr::GetElementPtr { .. } => push_access(uses, at, instr),
    }
}

/// The types of a select, and of an instruction that speaks of memory.
fn push_access<'a>(uses: &mut Uses<'a>, at: Leaf, instr: &'a Instr) -> Result<(), NoMemory>
    ensures { OnOk result (listed uses.new.items ≡ listed uses.old.items ++ spec.access at instr.now) }
{
    match instr {
        Instr::Select(x) => {
            push_tvalue(uses, at, &x.get().on)?;
            push_tvalue(uses, at, &x.get().yes)?;
            push_tvalue(uses, at, &x.get().no)
        }
        Instr::Alloca(x) => {
            push(uses, at, &x.get().ty)?;
            match &x.get().count {
                Some(count) => push_tvalue(uses, at, count),
                None => Ok(()),
            }
        }
        Instr::Load { ty, from, .. } => {
            push(uses, at, ty)?;
            push_tvalue(uses, at, from)
        }
        Instr::Store(x) => {
            push_tvalue(uses, at, &x.get().value)?;
            push_tvalue(uses, at, &x.get().to)
        }
        Instr::GetElementPtr { elem, operands, .. } => {
            push(uses, at, elem)?;
            push_tvalues(uses, at, operands.as_slice())
        }
        _ => Ok(()),
    }
}

fn push_cases<'a>(uses: &mut Uses<'a>, at: Leaf, cases: &'a [Case]) -> Result<(), NoMemory>
    ensures { OnOk result (listed uses.new.items ≡ listed uses.old.items ++ flat_map (spec.case at) cases.now) }
{
    for case in cases {
        push(uses, at, &case.ty)?;
    }
    Ok(())
}

/// The types of a terminator whose first token is `at`.
pub(crate) fn push_term<'a>(uses: &mut Uses<'a>, at: Leaf, term: &'a Term) -> Result<(), NoMemory>
    ensures { OnOk result (listed uses.new.items ≡ listed uses.old.items ++ spec.term at term.now) }
{
    match term {
        Term::Ret { of, .. } => push_tvalue(uses, at, of.get()),
        Term::Branch { on, .. } => push_tvalue(uses, at, on.get()),
        Term::Resume { of, .. } => push_tvalue(uses, at, of.get()),
        Term::Switch(x) => {
            push_tvalue(uses, at, &x.get().on)?;
            push_cases(uses, at, x.get().cases.as_slice())
        }
        _ => Ok(()),
    }
}
