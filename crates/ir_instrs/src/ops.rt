//! Instructions that are no calls.
ghost use Rattle.std.specs.Prelude.{◌≡◌, length, drop, IfOk};
ghost use Rattle.std.specs.List.{list_any};
ghost use Rattle.ir_module.specs.declared.op.Op.TheVariants as op;
ghost use Rattle.ir_operands.specs.Constants.{ArePartsBelow};
ghost use Rattle.ir_instrs.specs.Reading.{reading, IsSound};
ghost use Rattle.ir_instrs.specs.Uses.{Takes};
ghost use Rattle.ir_instrs.specs.Operands as operands;
ghost use Rattle.ir_instrs.specs.Ops as spec;

use crate::operands::{label, optional, tconst, tvalue, written};
use crate::source::{Source, VOID, is_word, leaf_text, type_of};
use crate::words::{bin_op, cast_op, pred};
use attr_ids::{NoMemory, Sequence, TypeId};
use ir_consts::Laid;
use ir_literals::align_at;
use ir_module::{Arms, Clause, Clauses, Op, Operand, Operands, Written};
use ir_tree::{Alloca, Const, Gepflag, Icmp, Leaf, Select, Store, Tvalue, Ty, Value};
use std::alloc::Global;

/// Whether a flag is written.
fn is_flagged(flags: &[Leaf]) -> bool
    ensures { result ≡ spec.is_flagged flags.now }
{
    flags.len() != 0
}

/// An operation on two integers.
pub fn binop(
    alloc: Global,
    src: &Source<'_>,
    word: Leaf,
    flags: &[Leaf],
    ty: &Ty,
    left: &Value,
    right: &Value,
    notes: &mut Laid,
) -> Result<Op, NoMemory>
    requires sound { IsSound src.now }
    requires below { ArePartsBelow notes.old.parts.items }
    ensures value { IfOk result (λ o. o ≡ spec.binop (reading src.now) notes.old.parts.items word flags.now ty.now left.now right.now) }
    ensures takes { IfOk result (λ _. Takes (reading src.now) (spec.pair_uses ((reading src.now).kind ty.now) left.now right.now) notes.old notes.new) }
{
    let ty = type_of(alloc, src, ty)?;
    let a = written(alloc, src, ty, left, notes)?;
    let b = written(alloc, src, ty, right, notes)?;
    Ok(Op::Bin {
        op: bin_op(leaf_text(src, word)),
        flagged: is_flagged(flags),
        a,
        b,
    })
}

/// A comparison.
pub fn icmp(alloc: Global, src: &Source<'_>, x: &Icmp, notes: &mut Laid) -> Result<Op, NoMemory>
    requires sound { IsSound src.now }
    requires below { ArePartsBelow notes.old.parts.items }
    ensures value { IfOk result (λ o. o ≡ spec.icmp (reading src.now) notes.old.parts.items x.now) }
    ensures takes { IfOk result (λ _. Takes (reading src.now) (spec.pair_uses ((reading src.now).kind x.now.ty) x.now.left x.now.right) notes.old notes.new) }
{
    let ty = type_of(alloc, src, &x.ty)?;
    let a = written(alloc, src, ty, &x.left, notes)?;
    let b = written(alloc, src, ty, &x.right, notes)?;
    Ok(Op::Icmp {
        pred: pred(leaf_text(src, x.pred)),
        flagged: is_flagged(x.flags.as_slice()),
        a,
        b,
    })
}

/// A conversion.
pub fn cast(
    alloc: Global,
    src: &Source<'_>,
    word: Leaf,
    flags: &[Leaf],
    of: &Tvalue,
    notes: &mut Laid,
) -> Result<Op, NoMemory>
    requires sound { IsSound src.now }
    requires below { ArePartsBelow notes.old.parts.items }
    ensures value { IfOk result (λ o. o ≡ spec.cast (reading src.now) notes.old.parts.items word flags.now of.now) }
    ensures takes { IfOk result (λ _. Takes (reading src.now) (operands.tvalue_uses (reading src.now) of.now) notes.old notes.new) }
{
    let a = tvalue(alloc, src, of, notes)?;
    Ok(Op::Cast {
        op: cast_op(leaf_text(src, word)),
        flagged: is_flagged(flags),
        a,
    })
}

/// A choice between two values.
pub fn select(alloc: Global, src: &Source<'_>, x: &Select, notes: &mut Laid) -> Result<Op, NoMemory>
    requires sound { IsSound src.now }
    requires below { ArePartsBelow notes.old.parts.items }
    ensures value { IfOk result (λ o. o ≡ spec.select (reading src.now) notes.old.parts.items x.now) }
    ensures takes { IfOk result (λ _. Takes (reading src.now) (spec.select_uses (reading src.now) x.now) notes.old notes.new) }
{
    let c = tvalue(alloc, src, &x.on, notes)?;
    let a = tvalue(alloc, src, &x.yes, notes)?;
    let b = tvalue(alloc, src, &x.no, notes)?;
    Ok(Op::Select { c, a, b })
}

/// A value that is neither undef nor poison.
pub fn freeze(
    alloc: Global,
    src: &Source<'_>,
    of: &Tvalue,
    notes: &mut Laid,
) -> Result<Op, NoMemory>
    requires sound { IsSound src.now }
    requires below { ArePartsBelow notes.old.parts.items }
    ensures value { IfOk result (λ o. o ≡ op.Freeze (operands.tvalue (reading src.now) notes.old.parts.items of.now)) }
    ensures takes { IfOk result (λ _. Takes (reading src.now) (operands.tvalue_uses (reading src.now) of.now) notes.old notes.new) }
{
    let a = tvalue(alloc, src, of, notes)?;
    Ok(Op::Freeze { a })
}

/// An alignment in bytes, where one is written.
fn align(src: &Source<'_>, at: Option<Leaf>) -> Option<u64>
    ensures { result ≡ spec.align (reading src.now) at }
{
    match at {
        Some(at) => Some(align_at(leaf_text(src, at))),
        None => None,
    }
}

/// Memory of the frame.
pub fn alloca(alloc: Global, src: &Source<'_>, x: &Alloca, notes: &mut Laid) -> Result<Op, NoMemory>
    requires sound { IsSound src.now }
    requires below { ArePartsBelow notes.old.parts.items }
    ensures value { IfOk result (λ o. o ≡ spec.alloca (reading src.now) notes.old.parts.items x.now) }
    ensures takes { IfOk result (λ _. Takes (reading src.now) (operands.optional_uses (reading src.now) x.now.count) notes.old notes.new) }
{
    let ty = type_of(alloc, src, &x.ty)?;
    let count = optional(alloc, src, &x.count, notes)?;
    Ok(Op::Alloca {
        ty,
        count,
        align: align(src, x.align),
    })
}

/// A read of memory.
pub fn load(
    alloc: Global,
    src: &Source<'_>,
    volatile: Option<Leaf>,
    from: &Tvalue,
    bytes: Option<Leaf>,
    notes: &mut Laid,
) -> Result<Op, NoMemory>
    requires sound { IsSound src.now }
    requires below { ArePartsBelow notes.old.parts.items }
    ensures value { IfOk result (λ o. o ≡ spec.load (reading src.now) notes.old.parts.items volatile from.now bytes) }
    ensures takes { IfOk result (λ _. Takes (reading src.now) (operands.tvalue_uses (reading src.now) from.now) notes.old notes.new) }
{
    let ptr = tvalue(alloc, src, from, notes)?;
    Ok(Op::Load {
        ptr,
        align: align(src, bytes),
        volatile: volatile.is_some(),
    })
}

/// A write to memory.
pub fn store(alloc: Global, src: &Source<'_>, x: &Store, notes: &mut Laid) -> Result<Op, NoMemory>
    requires sound { IsSound src.now }
    requires below { ArePartsBelow notes.old.parts.items }
    ensures value { IfOk result (λ o. o ≡ spec.store (reading src.now) notes.old.parts.items x.now) }
    ensures takes { IfOk result (λ _. Takes (reading src.now) (spec.store_uses (reading src.now) x.now) notes.old notes.new) }
{
    let val = tvalue(alloc, src, &x.value, notes)?;
    let ptr = tvalue(alloc, src, &x.to, notes)?;
    Ok(Op::Store {
        val,
        ptr,
        align: align(src, x.align),
        volatile: x.volatile.is_some(),
    })
}

/// A value of a phi, and the block that it comes from.
fn arm_of(
    alloc: Global,
    src: &Source<'_>,
    ty: TypeId,
    arm: &ir_tree::Arm,
    notes: &mut Laid,
) -> Result<ir_module::Arm, NoMemory>
    requires sound { IsSound src.now }
    requires below { ArePartsBelow notes.old.parts.items }
    ensures value { IfOk result (λ a. a ≡ spec.arm_of (reading src.now) ty notes.old.parts.items arm.now) }
    ensures takes { IfOk result (λ _. Takes (reading src.now) (spec.arm_uses ty arm.now) notes.old notes.new) }
{
    let val = written(alloc, src, ty, &arm.value, notes)?;
    let from = label(src, arm.from, notes);
    Ok(ir_module::Arm { val, from })
}

/// The arms of a phi.
fn arms_of(
    alloc: Global,
    src: &Source<'_>,
    ty: TypeId,
    list: &[ir_tree::Arm],
    notes: &mut Laid,
) -> Result<Arms, NoMemory>
    requires sound { IsSound src.now }
    requires below { ArePartsBelow notes.old.parts.items }
    ensures value { IfOk result (λ arms. arms ≡ spec.arms_of (reading src.now) notes.old.parts.items ty list.now) }
    ensures takes { IfOk result (λ _. Takes (reading src.now) (spec.arms_uses ty list.now) notes.old notes.new) }
{
    let mut arms = Arms::new(alloc);
    for arm in list {
        let made = arm_of(alloc, src, ty, arm, notes)?;
        arms.push(made)?;
    }
    Ok(arms)
}

/// A value by the block that control came from.
pub fn phi(
    alloc: Global,
    src: &Source<'_>,
    ty: &Ty,
    list: &[ir_tree::Arm],
    notes: &mut Laid,
) -> Result<Op, NoMemory>
    requires sound { IsSound src.now }
    requires below { ArePartsBelow notes.old.parts.items }
    ensures value { IfOk result (λ o. o ≡ op.Phi (spec.arms_of (reading src.now) notes.old.parts.items ((reading src.now).kind ty.now) list.now)) }
    ensures takes { IfOk result (λ _. Takes (reading src.now) (spec.arms_uses ((reading src.now).kind ty.now) list.now) notes.old notes.new) }
{
    let ty = type_of(alloc, src, ty)?;
    let arms = arms_of(alloc, src, ty, list, notes)?;
    Ok(Op::Phi { arms })
}

/// A clause of a landing pad.
fn clause_of(
    alloc: Global,
    src: &Source<'_>,
    clause: &ir_tree::Clause,
    notes: &mut Laid,
) -> Result<Clause, NoMemory>
    requires sound { IsSound src.now }
    requires below { ArePartsBelow notes.old.parts.items }
    ensures value { IfOk result (λ c. c ≡ spec.clause_of (reading src.now) notes.old.parts.items clause.now) }
    ensures takes { IfOk result (λ _. Takes (reading src.now) (spec.clause_uses (reading src.now) clause.now) notes.old notes.new) }
{
    let filter = is_word(src, clause.word, b"filter");
    let val = tconst(alloc, src, &clause.value, notes)?;
    Ok(Clause { filter, val })
}

/// The clauses of a landing pad.
fn clauses_of(
    alloc: Global,
    src: &Source<'_>,
    list: &[ir_tree::Clause],
    notes: &mut Laid,
) -> Result<Clauses, NoMemory>
    requires sound { IsSound src.now }
    requires below { ArePartsBelow notes.old.parts.items }
    ensures value { IfOk result (λ clauses. clauses ≡ spec.clauses_of (reading src.now) notes.old.parts.items list.now) }
    ensures takes { IfOk result (λ _. Takes (reading src.now) (spec.clauses_uses (reading src.now) list.now) notes.old notes.new) }
{
    let mut clauses = Vec::new(alloc);
    for clause in list {
        let made = clause_of(alloc, src, clause, notes)?;
        clauses.push(made)?;
    }
    Ok(Sequence::from_vec(clauses))
}

/// What a landing pad catches: `catch_all` says whether it catches everything.
pub fn landing_pad(
    alloc: Global,
    src: &Source<'_>,
    catch_all: bool,
    list: &[ir_tree::Clause],
    notes: &mut Laid,
) -> Result<Op, NoMemory>
    requires sound { IsSound src.now }
    requires below { ArePartsBelow notes.old.parts.items }
    ensures value { IfOk result (λ o. o ≡ op.LandingPad catch_all (spec.clauses_of (reading src.now) notes.old.parts.items list.now)) }
    ensures takes { IfOk result (λ _. Takes (reading src.now) (spec.clauses_uses (reading src.now) list.now) notes.old notes.new) }
{
    let clauses = clauses_of(alloc, src, list, notes)?;
    Ok(Op::LandingPad { catch_all, clauses })
}

fn is_null(value: &Const) -> bool
    ensures { result ≡ spec.is_null value.now }
{
    matches!(value, Const::Null(_))
}

/// Whether a clause is a `catch` of the constant `null`.
fn catches_all(src: &Source<'_>, clause: &ir_tree::Clause) -> bool
    ensures { result ≡ spec.catches_all (reading src.now) clause.now }
{
    !is_word(src, clause.word, b"filter") && is_null(&clause.value.value)
}

/// Whether a landing pad has a `catch` of the constant `null`.
pub fn any_catches(src: &Source<'_>, list: &[ir_tree::Clause]) -> bool
    ensures { result ≡ list_any (spec.catches_all (reading src.now)) list.now }
{
    let mut rest = list;
    while let [clause, tail @ ..] = rest {
        if catches_all(src, clause) {
            return true;
        }
        rest = tail;
    }
    false
}

fn is_flag(src: &Source<'_>, word: &[u8], flag: Gepflag) -> bool
    ensures { result ≡ spec.is_flag (reading src.now) word.now flag }
{
    match flag {
        Gepflag::Word(at) => is_word(src, at, word),
        Gepflag::InRange { .. } => false,
    }
}

/// Whether a flag of a getelementptr is written.
fn has_flag(src: &Source<'_>, word: &[u8], flags: &[Gepflag]) -> bool
    ensures { result ≡ spec.has_flag (reading src.now) word.now flags.now }
{
    let mut rest = flags;
    while let [flag, tail @ ..] = rest {
        if is_flag(src, word, *flag) {
            return true;
        }
        rest = tail;
    }
    false
}

/// Operands with their types, one behind another.
fn tvalues(
    alloc: Global,
    src: &Source<'_>,
    list: &[Tvalue],
    notes: &mut Laid,
) -> Result<Operands, NoMemory>
    requires sound { IsSound src.now }
    requires below { ArePartsBelow notes.old.parts.items }
    ensures value { IfOk result (λ values. values ≡ spec.tvalues (reading src.now) notes.old.parts.items list.now) }
    ensures takes { IfOk result (λ _. Takes (reading src.now) (spec.tvalues_uses (reading src.now) list.now) notes.old notes.new) }
{
    let mut values = Operands::new(alloc);
    for x in list {
        let made = tvalue(alloc, src, x, notes)?;
        values.push(made)?;
    }
    Ok(values)
}

/// A getelementptr, of its base and its indices.
fn gep_with(
    src: &Source<'_>,
    flags: &[Gepflag],
    elem: TypeId,
    base: Written,
    indices: Operands,
) -> Op
    ensures { result ≡ spec.gep_with (reading src.now) flags.now elem base indices }
{
    Op::Gep {
        elem,
        base,
        indices,
        inbounds: has_flag(src, b"inbounds", flags),
        wrap: has_flag(src, b"nusw", flags) || has_flag(src, b"nuw", flags),
    }
}

/// A getelementptr. The grammar has one operand always, its base.
pub fn gep(
    alloc: Global,
    src: &Source<'_>,
    flags: &[Gepflag],
    elem: &Ty,
    list: &[Tvalue],
    notes: &mut Laid,
) -> Result<Op, NoMemory>
    requires sound { IsSound src.now }
    requires below { ArePartsBelow notes.old.parts.items }
    ensures value { IfOk result (λ o. o ≡ spec.gep (reading src.now) notes.old.parts.items flags.now elem.now list.now) }
    ensures takes { IfOk result (λ _. Takes (reading src.now) (spec.tvalues_uses (reading src.now) list.now) notes.old notes.new) }
{
    let elem = type_of(alloc, src, elem)?;
    match list {
        [base, indices @ ..] => {
            let base = tvalue(alloc, src, base, notes)?;
            let indices = tvalues(alloc, src, indices, notes)?;
            Ok(gep_with(src, flags, elem, base, indices))
        }
        [] => {
            let base = Written {
                val: Operand::Poison,
                ty: VOID,
                at: 0,
            };
            Ok(gep_with(src, flags, elem, base, Operands::new(alloc)))
        }
    }
}
